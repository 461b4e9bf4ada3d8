ghost use Rattle.std.specs.Prelude.{◌≡◌, [], Option, List, IfOk, IfErr, option_and_then, option_copied};
ghost use Rattle.mongo_bson.specs.Document.{Element, IsDocument, IsReadable, maximum_depth};
ghost use Rattle.mongo_bson.specs.Framed.{enclosed};
ghost use Rattle.mongo_command.specs.Field.{field_of};
ghost use Rattle.mongo_command.specs.Fields.{IsValueOf};
ghost use Rattle.mongo_sasl.specs.Rules.{properties_of, text_in, is_other_than_array};
ghost use Rattle.mongo_sasl.specs.Validation.{has_foreign_property, is_oidc_property};

use crate::Credential;
use mongo_bson::{EMPTY_DOCUMENT, RawDocument, RawValue};
use mongo_wire::ArgumentFault;

/// The property of MONGODB-OIDC that names what a token is for.
pub const TOKEN_RESOURCE_PROP_STR: &str = "TOKEN_RESOURCE";

/// The property of MONGODB-OIDC that names where tokens come from.
pub const ENVIRONMENT_PROP_STR: &str = "ENVIRONMENT";

/// The property of MONGODB-OIDC that lists the hosts that a human's token may be sent to.
pub const ALLOWED_HOSTS_PROP_STR: &str = "ALLOWED_HOSTS";

/// The environment of Azure's tokens.
pub const AZURE_ENVIRONMENT_VALUE_STR: &str = "azure";

/// The environment of Google Cloud's tokens.
pub const GCP_ENVIRONMENT_VALUE_STR: &str = "gcp";

/// The property that holds a session's token for MONGODB-AWS, which isn't taken from a credential.
pub const AWS_SESSION_TOKEN: &str = "AWS_SESSION_TOKEN";

// The environment of Kubernetes' tokens.
pub(crate) const K8S_ENVIRONMENT_VALUE_STR: &str = "k8s";

// The properties of a credential; without any they are empty.
//
// `PropertiesMalformed` exactly where they aren't readable.
pub(crate) fn properties_of(credential: &Credential) -> Result<RawDocument<'_>, ArgumentFault>
    ensures properties { IfOk result (λ properties. properties.bytes.now ≡ properties_of credential.now) }
    ensures readable { IfOk result (λ _. IsReadable maximum_depth (properties_of credential.now)) }
    ensures refused { IfErr result (λ fault. (fault ≡ ArgumentFault.PropertiesMalformed) × (IsReadable maximum_depth (properties_of credential.now) → ⊥)) }
{
    let properties = match &credential.mechanism_properties {
        Some(properties) => properties.borrow(),
        None => no_properties(),
    };
    if properties.readable() {
        Ok(properties)
    } else {
        Err(ArgumentFault::PropertiesMalformed)
    }
}

// The document without elements.
fn no_properties() -> RawDocument<'static>
    ensures { result.bytes.now ≡ enclosed [] }
{
    RawDocument::of_framed(&EMPTY_DOCUMENT)
}

// The value of a property, or None where there is none of this name. Where a name stands twice the first counts.
pub(crate) fn property<'a>(properties: RawDocument<'a>, name: &str) -> Option<RawValue<'a>>
    requires { IsReadable maximum_depth properties.bytes.now }
    ensures { (elements : List Element) → IsDocument properties.entry.bytes.now elements → IsValueOf (field_of name.now elements) result }
{
    match properties.get(name) {
        Ok(value) => value,
        Err(_) => unreachable!(),
    }
}

// The text that a property is.
pub(crate) fn property_text<'a>(value: Option<RawValue<'a>>) -> Option<&'a str>
    ensures { (found : Option Element) → IsValueOf found value.entry → option_copied result ≡ option_and_then text_in found }
{
    match value {
        Some(RawValue::Str(text)) => Some(text),
        _ => None,
    }
}

// Whether a property is there and is no array.
pub(crate) fn is_other_than_array(value: Option<RawValue<'_>>) -> bool
    ensures { (found : Option Element) → IsValueOf found value.entry → result ≡ is_other_than_array found }
{
    match value {
        Some(RawValue::Array(_)) => false,
        Some(_) => true,
        None => false,
    }
}

// Whether there is a property that OIDC doesn't have.
pub(crate) fn has_foreign_property(properties: RawDocument<'_>) -> bool
    requires { IsReadable maximum_depth properties.bytes.now }
    ensures { (elements : List Element) → IsDocument properties.entry.bytes.now elements → result ≡ has_foreign_property elements }
{
    for item in properties.iter() {
        match item {
            Ok((name, _value)) => {
                if !is_oidc_property(name) {
                    return true;
                }
            }
            Err(_) => unreachable!(),
        }
    }
    false
}

// Whether OIDC has a property of this name.
fn is_oidc_property(name: &str) -> bool
    ensures { result ≡ is_oidc_property name.now }
{
    name == TOKEN_RESOURCE_PROP_STR
        || name == ENVIRONMENT_PROP_STR
        || name == ALLOWED_HOSTS_PROP_STR
}
