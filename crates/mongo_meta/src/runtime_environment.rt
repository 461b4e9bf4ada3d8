ghost use Rattle.std.specs.Prelude.{◌≡◌, option_map, IfOk, IfErr};
ghost use Rattle.mongo_command.specs.Literal.{text_element};
ghost use Rattle.mongo_command.specs.Command.{present};
ghost use Rattle.mongo_command.specs.Arguments.{field_elements, IsNamed, TooLongFor};
ghost use Rattle.mongo_meta.specs.Keys.{name_key};
ghost use Rattle.mongo_meta.specs.Providers.{name_text, provider, taken_of};
ghost use Rattle.mongo_wire.specs.declared.error.ErrorKind.TheVariants.{OutOfMemory};

use crate::container::container_in;
use crate::faas::{AWS_EXECUTION_ENV, FUNCTIONS_WORKER_RUNTIME};
use crate::keys::{NAME, RUNTIME};
use crate::{Environment, FaasEnvironmentName};
use mongo_bson::{BsonFault, RawDocumentBuf, RawValue, Text, TryClone, copy_of};
use mongo_command::{
    ArgumentField, both, document_of, optional_document_field, optional_int32_field,
    optional_text_field,
};
use mongo_wire::Error;
use std::alloc::Global;

/// Where the client runs, as far as it can be seen: the provider that runs it as a function, and its container.
#[derive(Debug, Drop, PartialEq)]
pub struct RuntimeEnvironment {
    /// The provider.
    pub name: Option<FaasEnvironmentName>,
    /// What the provider runs functions on.
    pub runtime: Option<Text>,
    /// How long a function may run, in seconds.
    pub timeout_sec: Option<i32>,
    /// The memory that a function has, in megabytes.
    pub memory_mb: Option<i32>,
    /// Where the function runs.
    pub region: Option<Text>,
    /// The container: what runs it (`runtime`) and what manages it (`orchestrator`).
    pub container: Option<RawDocumentBuf>,
}

impl RuntimeEnvironment {
    ghost use Rattle.mongo_meta.specs.Providers.{runtime_environment_in};
    ghost use Rattle.mongo_meta.specs.Metadata.{environment_document};
    ghost use Rattle.mongo_meta.specs.Client.{name_alone};

    /// The environment of which nothing is known.
    pub const UNSET: RuntimeEnvironment = RuntimeEnvironment {
        name: None,
        runtime: None,
        timeout_sec: None,
        memory_mb: None,
        region: None,
        container: None,
    };

    /// What an environment shows, or None where it shows nothing. Of a provider those of its variables are taken that
    /// are there, even empty; a variable that has to be a number and isn't an `int32` in decimal counts as absent.
    #[tactic(auto, unfolding(crate::specs::Providers::runtime_environment_in))]
    pub fn from_environment(
        alloc: Global,
        env: &Environment,
    ) -> Result<Option<RuntimeEnvironment>, Error>
        ensures environment { IfOk result (λ environment. environment ≡ runtime_environment_in env.now) }
        ensures refused { IfErr result (λ e. e.kind ≡ OutOfMemory) }
    {
        let container = container_in(alloc, env)?;
        match FaasEnvironmentName::from_environment(env) {
            Some(name) => {
                let taken = taken_of(alloc, name, env)?;
                Ok(Some(RuntimeEnvironment { container, ..taken }))
            }
            None if container.is_some() => Ok(Some(RuntimeEnvironment {
                container,
                ..RuntimeEnvironment::UNSET
            })),
            None => Ok(None),
        }
    }

    /// A copy.
    pub fn try_clone(&self, alloc: Global) -> Result<RuntimeEnvironment, BsonFault>
        ensures copied { IfOk result (λ environment. environment ≡ self.now) }
        ensures refused { IfErr result (λ fault. fault ≡ BsonFault.OutOfMemory) }
    {
        let texts = both(copy_of(alloc, &self.runtime), copy_of(alloc, &self.region));
        let ((runtime, region), container) = both(texts, copy_of(alloc, &self.container))?;
        Ok(RuntimeEnvironment {
            name: self.name,
            runtime,
            timeout_sec: self.timeout_sec,
            memory_mb: self.memory_mb,
            region,
            container,
        })
    }

    // The document of what is there.
    pub(crate) fn document(&self, alloc: Global) -> Result<RawDocumentBuf, BsonFault>
        ensures document { IfOk result (λ document. document ≡ environment_document self.now) }
        ensures refused { IfErr result (λ fault. TooLongFor fault (environment_document self.now)) }
    {
        document_of(
            alloc,
            &[
                name_field(self.name),
                optional_text_field(RUNTIME, &self.runtime),
                optional_int32_field("timeout_sec", self.timeout_sec),
                optional_int32_field("memory_mb", self.memory_mb),
                optional_text_field("region", &self.region),
                optional_document_field("container", &self.container),
            ],
        )
    }

    // The document of the name alone, which is empty where there is none.
    pub(crate) fn name_document(&self, alloc: Global) -> Result<RawDocumentBuf, BsonFault>
        ensures document { IfOk result (λ document. document ≡ environment_document (name_alone self.now)) }
        ensures refused { IfErr result (λ fault. TooLongFor fault (environment_document (name_alone self.now))) }
    {
        document_of(alloc, &[name_field(self.name)])
    }
}

impl TryClone for RuntimeEnvironment {
    fn try_clone(&self, alloc: Global) -> Result<RuntimeEnvironment, BsonFault> {
        RuntimeEnvironment::try_clone(self, alloc)
    }
}

// What is taken of a provider's variables.
fn taken_of(
    alloc: Global,
    name: FaasEnvironmentName,
    env: &Environment,
) -> Result<RuntimeEnvironment, BsonFault>
    ensures taken { IfOk result (λ taken. taken ≡ taken_of name (provider name env.now)) }
    ensures refused { IfErr result (λ fault. fault ≡ BsonFault.OutOfMemory) }
{
    let (runtime, region) = both(runtime_of(alloc, name, env), region_of(alloc, name, env))?;
    Ok(RuntimeEnvironment {
        name: Some(name),
        runtime,
        timeout_sec: timeout_of(name, env),
        memory_mb: memory_of(name, env),
        region,
        container: None,
    })
}

// What a provider runs functions on.
fn runtime_of(
    alloc: Global,
    name: FaasEnvironmentName,
    env: &Environment,
) -> Result<Option<Text>, BsonFault>
    ensures runtime { IfOk result (λ runtime. runtime ≡ (provider name env.now).runtime) }
    ensures refused { IfErr result (λ fault. fault ≡ BsonFault.OutOfMemory) }
{
    match name {
        FaasEnvironmentName::AwsLambda => env.text(alloc, AWS_EXECUTION_ENV),
        FaasEnvironmentName::AzureFunc => env.text(alloc, FUNCTIONS_WORKER_RUNTIME),
        FaasEnvironmentName::Vercel | FaasEnvironmentName::GcpFunc => Ok(None),
    }
}

// Where a provider runs them.
fn region_of(
    alloc: Global,
    name: FaasEnvironmentName,
    env: &Environment,
) -> Result<Option<Text>, BsonFault>
    ensures region { IfOk result (λ region. region ≡ (provider name env.now).region) }
    ensures refused { IfErr result (λ fault. fault ≡ BsonFault.OutOfMemory) }
{
    match name {
        FaasEnvironmentName::AwsLambda => env.text(alloc, "AWS_REGION"),
        FaasEnvironmentName::Vercel => env.text(alloc, "VERCEL_REGION"),
        FaasEnvironmentName::GcpFunc => env.text(alloc, "FUNCTION_REGION"),
        FaasEnvironmentName::AzureFunc => Ok(None),
    }
}

// How long a function may run.
fn timeout_of(name: FaasEnvironmentName, env: &Environment) -> Option<i32>
    ensures { result ≡ (provider name env.now).timeout_sec }
{
    match name {
        FaasEnvironmentName::GcpFunc => env.number("FUNCTION_TIMEOUT_SEC"),
        _ => None,
    }
}

// The memory that a function has.
fn memory_of(name: FaasEnvironmentName, env: &Environment) -> Option<i32>
    ensures { result ≡ (provider name env.now).memory_mb }
{
    match name {
        FaasEnvironmentName::AwsLambda => env.number("AWS_LAMBDA_FUNCTION_MEMORY_SIZE"),
        FaasEnvironmentName::GcpFunc => env.number("FUNCTION_MEMORY_MB"),
        _ => None,
    }
}

// The provider's name.
fn name_field(name: Option<FaasEnvironmentName>) -> ArgumentField<'static>
    ensures elements { field_elements result ≡ present (text_element name_key) (option_map name_text name) }
    ensures named { IsNamed result }
{
    match name {
        Some(name) => Some((NAME, RawValue::Str(name.name()))),
        None => None,
    }
}
