ghost use Rattle.std.specs.Prelude.{◌≡◌, ◌∷◌, [], Contains, option_map};
ghost use Rattle.mongo_command.specs.Literal.{text_element, document_element, int32_element, int64_element, boolean_element, generic_element, ok_element};
ghost use Rattle.mongo_command.specs.Command.{version_text, present, timestamp_element, sent_concern};
ghost use Rattle.mongo_command.specs.Arguments.{field_elements, IsNamed};
ghost use Rattle.mongo_command.specs.Keys.{api_version_key, write_concern_key};

use crate::ServerApi;
use crate::keys::{API_VERSION, OK, WRITE_CONCERN};
use mongo_bson::{EMPTY_DOCUMENT, GENERIC, RawDocumentBuf, RawValue, Text, kinds};

// The bits of the double 1.0, IEEE 754 binary64.
const ONE: u64 = 0x3FF0_0000_0000_0000;

/// A field of a document: its key and its value. None is a field that isn't there, of which nothing is written.
pub type ArgumentField<'a> = Option<(&'static str, RawValue<'a>)>;

/// The field `key`, a text.
pub fn text_field<'a>(key: &'static str, text: &'a str) -> ArgumentField<'a>
    requires { ¬ Contains key.now 0 }
    ensures elements { field_elements result ≡ text_element key.now text.now ∷ [] }
    ensures named { IsNamed result }
{
    Some((key, RawValue::Str(text)))
}

/// The field `key`, a text, or none where there is no text.
pub fn optional_text_field<'a>(key: &'static str, text: &'a Option<Text>) -> ArgumentField<'a>
    requires { ¬ Contains key.now 0 }
    ensures elements { field_elements result ≡ present (text_element key.now) text.now }
    ensures named { IsNamed result }
{
    match text {
        Some(text) => text_field(key, text.as_str()),
        None => None,
    }
}

/// The field `key`, a document.
pub fn document_field<'a>(key: &'static str, document: &'a RawDocumentBuf) -> ArgumentField<'a>
    requires { ¬ Contains key.now 0 }
    ensures elements { field_elements result ≡ document_element key.now document.now ∷ [] }
    ensures named { IsNamed result }
{
    Some((key, RawValue::Document(document.borrow())))
}

/// The field `key`, a document, or none where there is no document.
pub fn optional_document_field<'a>(
    key: &'static str,
    document: &'a Option<RawDocumentBuf>,
) -> ArgumentField<'a>
    requires { ¬ Contains key.now 0 }
    ensures elements { field_elements result ≡ present (document_element key.now) document.now }
    ensures named { IsNamed result }
{
    match document {
        Some(document) => document_field(key, document),
        None => None,
    }
}

/// The field `key`, a boolean.
pub fn boolean_field(key: &'static str, boolean: bool) -> ArgumentField<'static>
    requires { ¬ Contains key.now 0 }
    ensures elements { field_elements result ≡ boolean_element key.now boolean ∷ [] }
    ensures named { IsNamed result }
{
    Some((key, RawValue::Bool(boolean)))
}

/// The field `key`, a boolean, or none where there is no boolean.
pub fn optional_boolean_field(key: &'static str, boolean: Option<bool>) -> ArgumentField<'static>
    requires { ¬ Contains key.now 0 }
    ensures elements { field_elements result ≡ present (boolean_element key.now) boolean }
    ensures named { IsNamed result }
{
    match boolean {
        Some(boolean) => boolean_field(key, boolean),
        None => None,
    }
}

/// The field `key`, a binary of the generic subtype.
pub fn generic_binary_field<'a>(key: &'static str, bytes: &'a [u8]) -> ArgumentField<'a>
    requires { ¬ Contains key.now 0 }
    ensures elements { field_elements result ≡ generic_element key.now bytes.now ∷ [] }
    ensures named { IsNamed result }
{
    Some((key, RawValue::Binary(GENERIC, bytes)))
}

/// The field `ok`, the double 1.0, as a reply that is no error has it.
pub fn ok_field() -> ArgumentField<'static>
    ensures elements { field_elements result ≡ ok_element ∷ [] }
    ensures named { IsNamed result }
{
    Some((OK, RawValue::Double(ONE)))
}

/// The field `key`, a 32-bit number.
pub fn int32_field(key: &'static str, number: i32) -> ArgumentField<'static>
    requires { ¬ Contains key.now 0 }
    ensures elements { field_elements result ≡ int32_element key.now number ∷ [] }
    ensures named { IsNamed result }
{
    Some((key, RawValue::Int32(number)))
}

/// The field `key`, a 32-bit number, or none where there is no number.
pub fn optional_int32_field(key: &'static str, number: Option<i32>) -> ArgumentField<'static>
    requires { ¬ Contains key.now 0 }
    ensures elements { field_elements result ≡ present (int32_element key.now) number }
    ensures named { IsNamed result }
{
    match number {
        Some(number) => int32_field(key, number),
        None => None,
    }
}

/// The field `key`, a 64-bit number.
pub fn int64_field(key: &'static str, number: i64) -> ArgumentField<'static>
    requires { ¬ Contains key.now 0 }
    ensures elements { field_elements result ≡ int64_element key.now number ∷ [] }
    ensures named { IsNamed result }
{
    Some((key, RawValue::Int64(number)))
}

/// The field `key`, a 64-bit number, or none where there is no number.
pub fn optional_int64_field(key: &'static str, number: Option<i64>) -> ArgumentField<'static>
    requires { ¬ Contains key.now 0 }
    ensures elements { field_elements result ≡ present (int64_element key.now) number }
    ensures named { IsNamed result }
{
    match number {
        Some(number) => int64_field(key, number),
        None => None,
    }
}

// The field `key`, a timestamp of these bytes, or none where there are no bytes.
pub(crate) fn optional_timestamp_field<'a>(
    key: &'static str,
    bytes: &'a Option<[u8; 8]>,
) -> ArgumentField<'a>
    requires { ¬ Contains key.now 0 }
    ensures elements { field_elements result ≡ present (timestamp_element key.now) bytes.now }
    ensures named { IsNamed result }
{
    match bytes {
        Some(bytes) => Some((key, RawValue::Other(kinds::TIMESTAMP, bytes.as_slice()))),
        None => None,
    }
}

// The field `apiVersion`, the version of a server API, or none where there is no server API.
pub(crate) fn optional_version_field(server_api: Option<ServerApi>) -> ArgumentField<'static>
    ensures elements { field_elements result ≡ present (text_element api_version_key) (option_map (λ api. version_text api.version) server_api) }
    ensures named { IsNamed result }
{
    match server_api {
        Some(api) => text_field(API_VERSION, api.version.as_str()),
        None => None,
    }
}

// The field `writeConcern`, or none where there is no write concern, or an empty one.
pub(crate) fn optional_write_concern_field<'a>(
    concern: &'a Option<RawDocumentBuf>,
) -> ArgumentField<'a>
    ensures elements { field_elements result ≡ present (document_element write_concern_key) (sent_concern concern.now) }
    ensures named { IsNamed result }
{
    match concern {
        Some(concern) if concern.as_bytes().len() > EMPTY_DOCUMENT.len() => {
            document_field(WRITE_CONCERN, concern)
        }
        _ => None,
    }
}
