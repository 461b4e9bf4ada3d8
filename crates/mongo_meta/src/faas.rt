ghost use Rattle.std.specs.Prelude.{◌≡◌, option_copied};
ghost use Rattle.mongo_meta.specs.Providers.{provider, begins_with};
ghost use Rattle.mongo_meta.specs.declared.faas.FaasEnvironmentName.TheVariants.{AwsLambda, GcpFunc};

use crate::Environment;

// The variable by which AWS Lambda is seen, and which says what it runs functions on.
pub(crate) const AWS_EXECUTION_ENV: &str = "AWS_EXECUTION_ENV";

// The same of Azure Functions.
pub(crate) const FUNCTIONS_WORKER_RUNTIME: &str = "FUNCTIONS_WORKER_RUNTIME";

/// The providers that run functions as a service.
#[derive(Clone, Copy, Debug, PartialEq, Eq)]
pub enum FaasEnvironmentName {
    /// AWS Lambda.
    AwsLambda,
    /// Azure Functions.
    AzureFunc,
    /// Google Cloud Functions.
    GcpFunc,
    /// Vercel.
    Vercel,
}

impl FaasEnvironmentName {
    ghost use Rattle.std.specs.Prelude.{◌≡◌};
    ghost use Rattle.mongo_meta.specs.Providers.{name_text, name_in};

    /// The provider's name, as metadata carry it.
    pub fn name(&self) -> &'static str
        ensures { result.now ≡ name_text self.now }
    {
        match self {
            FaasEnvironmentName::AwsLambda => "aws.lambda",
            FaasEnvironmentName::AzureFunc => "azure.func",
            FaasEnvironmentName::GcpFunc => "gcp.func",
            FaasEnvironmentName::Vercel => "vercel",
        }
    }

    /// The provider whose variables are there. Vercel's stand beside those of Lambda, on which it runs; other providers
    /// beside one another give None.
    pub fn from_environment(env: &Environment) -> Option<FaasEnvironmentName>
        ensures { result ≡ name_in env.now }
    {
        let lambda = runs_lambda(env);
        let vercel = env.is_set("VERCEL");
        let azure = env.is_set(FUNCTIONS_WORKER_RUNTIME);
        let gcp = runs_gcp(env);
        match (lambda, vercel, azure, gcp) {
            (_, true, false, false) => Some(FaasEnvironmentName::Vercel),
            (true, false, false, false) => Some(FaasEnvironmentName::AwsLambda),
            (false, false, true, false) => Some(FaasEnvironmentName::AzureFunc),
            (false, false, false, true) => Some(FaasEnvironmentName::GcpFunc),
            _ => None,
        }
    }
}

// Whether the variables of AWS Lambda are there.
fn runs_lambda(env: &Environment) -> bool
    ensures { result ≡ (provider AwsLambda env.now).found }
{
    begins_with(env.value(AWS_EXECUTION_ENV), "AWS_Lambda_") || env.is_set("AWS_LAMBDA_RUNTIME_API")
}

// Whether those of Google Cloud Functions are there.
fn runs_gcp(env: &Environment) -> bool
    ensures { result ≡ (provider GcpFunc env.now).found }
{
    env.is_set("K_SERVICE") || env.is_set("FUNCTION_NAME")
}

// Whether a value is there and begins so.
fn begins_with(value: Option<&str>, start: &str) -> bool
    ensures { result ≡ begins_with start.now (option_copied value.entry) }
{
    match value {
        Some(value) => value.as_bytes().starts_with(start.as_bytes()),
        None => false,
    }
}
