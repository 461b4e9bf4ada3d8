ghost use Rattle.std.specs.Prelude.{◌≡◌, Option, List, codes, option_copied, is_some};
ghost use Rattle.mongo_bson.specs.Document.{Element, IsDocument, IsReadable, maximum_depth};
ghost use Rattle.mongo_command.specs.Hello.{is_text};
ghost use Rattle.mongo_sasl.specs.Rules.{first_broken, is_other_than, properties_of};
ghost use Rattle.mongo_sasl.specs.Validation.{scram_rules, x509_rules, plain_rules, aws_rules, oidc_rules, oidc_table, ByProperties, IsValidated, takes_resource, is_unknown_environment};

use crate::properties::{
    ALLOWED_HOSTS_PROP_STR, AWS_SESSION_TOKEN, AZURE_ENVIRONMENT_VALUE_STR, ENVIRONMENT_PROP_STR,
    GCP_ENVIRONMENT_VALUE_STR, K8S_ENVIRONMENT_VALUE_STR, TOKEN_RESOURCE_PROP_STR,
    has_foreign_property, is_other_than_array, properties_of, property, property_text,
};
use crate::rules::{Rule, first_broken};
use crate::{AuthMechanism, Credential, EXTERNAL};
use mongo_bson::{RawDocument, Text};
use mongo_wire::ArgumentFault;

impl AuthMechanism {
    /// Whether the mechanism can log in with the credential; `callback_given` says whether a callback gives tokens.
    ///
    /// The fault of the first broken rule, in this order:
    /// - SCRAM: no user name, `ScramUsername`.
    /// - MONGODB-X509: a password, `X509Password`; a source other than `$external`, `X509Source`.
    /// - PLAIN: no user name, `PlainUsername`; an empty one, `PlainUsernameEmpty`; no password, `PlainPassword`.
    /// - MONGODB-AWS: properties that aren't readable, `PropertiesMalformed`; a user name, a password or the property
    ///   `AWS_SESSION_TOKEN`, `AwsUriCredentials`.
    /// - MONGODB-OIDC: properties that aren't readable, `PropertiesMalformed`; one that it doesn't have,
    ///   `OidcProperty`; an `ENVIRONMENT` and a callback, `OidcCallbackWithEnvironment`; `azure` or `gcp` without
    ///   `TOKEN_RESOURCE`, `OidcResourceMissing`; that property otherwise, `OidcResourceGiven`; a source other than
    ///   `$external`, `OidcSource`; a password, `OidcPassword`; an environment other than `azure`, `gcp` and `k8s`,
    ///   `OidcEnvironment`; `ALLOWED_HOSTS` that are no array, `OidcHostsNotArray`.
    ///
    /// Of two properties with one name the first counts.
    pub fn validate_credential(
        &self,
        credential: &Credential,
        callback_given: bool,
    ) -> Result<(), ArgumentFault>
        ensures { IsValidated self.now credential.now callback_given result }
    {
        match self {
            AuthMechanism::MongoDbCr => Ok(()),
            AuthMechanism::ScramSha1 => validate_scram(credential),
            AuthMechanism::ScramSha256 => validate_scram(credential),
            AuthMechanism::MongoDbX509 => validate_x509(credential),
            AuthMechanism::Plain => validate_plain(credential),
            AuthMechanism::MongoDbAws => validate_aws(credential),
            AuthMechanism::MongoDbOidc => validate_oidc(credential, callback_given),
        }
    }
}

fn validate_scram(credential: &Credential) -> Result<(), ArgumentFault>
    ensures { result ≡ first_broken (scram_rules credential.now) }
{
    first_broken(&[Rule::new(ArgumentFault::ScramUsername, credential.username.is_none())])
}

fn validate_x509(credential: &Credential) -> Result<(), ArgumentFault>
    ensures { result ≡ first_broken (x509_rules credential.now) }
{
    first_broken(&[
        Rule::new(ArgumentFault::X509Password, credential.password.is_some()),
        Rule::new(
            ArgumentFault::X509Source,
            is_other_than(EXTERNAL, &credential.source),
        ),
    ])
}

fn validate_plain(credential: &Credential) -> Result<(), ArgumentFault>
    ensures { result ≡ first_broken (plain_rules credential.now) }
{
    first_broken(&[
        Rule::new(ArgumentFault::PlainUsername, credential.username.is_none()),
        Rule::new(
            ArgumentFault::PlainUsernameEmpty,
            is_empty(&credential.username),
        ),
        Rule::new(ArgumentFault::PlainPassword, credential.password.is_none()),
    ])
}

fn validate_aws(credential: &Credential) -> Result<(), ArgumentFault>
    ensures { ByProperties (properties_of credential.now) (aws_rules credential.now) result }
{
    let properties = properties_of(credential)?;
    judge_aws(credential, properties)
}

fn judge_aws(credential: &Credential, properties: RawDocument<'_>) -> Result<(), ArgumentFault>
    requires { IsReadable maximum_depth properties.bytes.now }
    ensures { (elements : List Element) → IsDocument properties.entry.bytes.now elements → result ≡ first_broken (aws_rules credential.now elements) }
{
    let session_token = property(properties, AWS_SESSION_TOKEN);
    first_broken(&[Rule::new(
        ArgumentFault::AwsUriCredentials,
        credential.username.is_some() || credential.password.is_some() || session_token.is_some(),
    )])
}

fn validate_oidc(credential: &Credential, callback_given: bool) -> Result<(), ArgumentFault>
    ensures { ByProperties (properties_of credential.now) (oidc_rules credential.now callback_given) result }
{
    let properties = properties_of(credential)?;
    judge_oidc(credential, callback_given, properties)
}

fn judge_oidc(
    credential: &Credential,
    callback_given: bool,
    properties: RawDocument<'_>,
) -> Result<(), ArgumentFault>
    requires { IsReadable maximum_depth properties.bytes.now }
    ensures { (elements : List Element) → IsDocument properties.entry.bytes.now elements → result ≡ first_broken (oidc_rules credential.now callback_given elements) }
{
    let named = OidcProperties {
        foreign: has_foreign_property(properties),
        environment: property_text(property(properties, ENVIRONMENT_PROP_STR)),
        resource: property(properties, TOKEN_RESOURCE_PROP_STR).is_some(),
        hosts_other_than_array: is_other_than_array(property(properties, ALLOWED_HOSTS_PROP_STR)),
    };
    judge_properties(credential, callback_given, &named)
}

// What the properties of an OIDC credential say.
#[derive(Drop)]
struct OidcProperties<'a> {
    // whether there is one that OIDC doesn't have
    foreign: bool,
    environment: Option<&'a str>,
    // whether there is a token resource
    resource: bool,
    // whether the allowed hosts are there and no array
    hosts_other_than_array: bool,
}

impl OidcProperties<'_> {
    ghost use Rattle.std.specs.Prelude.{◌≡◌, ◌&&◌, not, is_some, option_copied};
    ghost use Rattle.mongo_sasl.specs.Validation.{takes_resource};

    // Whether there is an environment beside a callback.
    fn has_environment_beside(&self, callback_given: bool) -> bool
        ensures { result ≡ (is_some (option_copied self.now.environment) && callback_given) }
    {
        self.environment.is_some() && callback_given
    }

    // Whether the environment's tokens are made for a resource, and none is named.
    fn lacks_resource(&self) -> bool
        ensures { result ≡ (takes_resource (option_copied self.now.environment) && not self.now.resource) }
    {
        takes_resource(self.environment) && !self.resource
    }

    // Whether a resource is named, and tokens aren't made for one.
    fn has_stray_resource(&self) -> bool
        ensures { result ≡ (not (takes_resource (option_copied self.now.environment)) && self.now.resource) }
    {
        !takes_resource(self.environment) && self.resource
    }
}

fn judge_properties(
    credential: &Credential,
    callback_given: bool,
    properties: &OidcProperties<'_>,
) -> Result<(), ArgumentFault>
    ensures { result ≡ first_broken (oidc_table credential.now callback_given properties.now.foreign (option_copied properties.now.environment) properties.now.resource properties.now.hosts_other_than_array) }
{
    first_broken(&[
        Rule::new(ArgumentFault::OidcProperty, properties.foreign),
        Rule::new(
            ArgumentFault::OidcCallbackWithEnvironment,
            properties.has_environment_beside(callback_given),
        ),
        Rule::new(
            ArgumentFault::OidcResourceMissing,
            properties.lacks_resource(),
        ),
        Rule::new(
            ArgumentFault::OidcResourceGiven,
            properties.has_stray_resource(),
        ),
        Rule::new(
            ArgumentFault::OidcSource,
            is_other_than(EXTERNAL, &credential.source),
        ),
        Rule::new(ArgumentFault::OidcPassword, credential.password.is_some()),
        Rule::new(
            ArgumentFault::OidcEnvironment,
            is_unknown_environment(properties.environment),
        ),
        Rule::new(
            ArgumentFault::OidcHostsNotArray,
            properties.hosts_other_than_array,
        ),
    ])
}

// Whether a text is there and is another than this.
fn is_other_than(text: &str, given: &Option<Text>) -> bool
    ensures { result ≡ is_other_than text.now given.now }
{
    match given {
        Some(given) => given.as_str() != text,
        None => false,
    }
}

// Whether a text is there and is empty.
fn is_empty(given: &Option<Text>) -> bool
    ensures { result ≡ is_text given.now (codes "") }
{
    match given {
        Some(given) => given.as_str() == "",
        None => false,
    }
}

// Whether an environment's tokens are made for a resource.
fn takes_resource(environment: Option<&str>) -> bool
    ensures { result ≡ takes_resource (option_copied environment.entry) }
{
    match environment {
        Some(name) => name == AZURE_ENVIRONMENT_VALUE_STR || name == GCP_ENVIRONMENT_VALUE_STR,
        None => false,
    }
}

// Whether an environment is given that is none of the three.
fn is_unknown_environment(environment: Option<&str>) -> bool
    ensures { result ≡ is_unknown_environment (option_copied environment.entry) }
{
    match environment {
        Some(name) => !takes_resource(environment) && name != K8S_ENVIRONMENT_VALUE_STR,
        None => false,
    }
}
