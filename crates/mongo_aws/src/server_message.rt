// The server's first message as a document.

ghost use Rattle.std.specs.Prelude.{◌≡◌, List, Option};
ghost use Rattle.mongo_bson.specs.Document.{Element, IsDocument, IsReadable, maximum_depth};
ghost use Rattle.mongo_bson.specs.Value.{IsValue};
ghost use Rattle.mongo_command.specs.Field.{Required, ReadsText, field_of};
ghost use Rattle.mongo_command.specs.Fields.{IsValueOf, Answers, AreFields};
ghost use Rattle.mongo_sasl.specs.View.{read_as};
ghost use Rattle.mongo_aws.specs.ServerMessage.{ReadsBinary, IsMessageTable, IsServerMessage, has_foreign_element, is_message_key, said_of};

use crate::keys::{SERVER_NONCE, STS_HOST};
use mongo_bson::{RawDocument, RawValue};
use mongo_command::{FieldFault, Fields};
use std::alloc::Global;

/// What the message says, borrowed from it.
#[derive(Clone, Copy, Drop)]
pub(crate) struct ServerMessage<'a> {
    /// The server's nonce.
    pub server_nonce: &'a [u8],
    /// The host of STS.
    pub sts_host: &'a str,
}

/// Reads a message: a well-formed document of just `s`, a binary of any subtype, and `h`, a text.
///
/// `Unreadable` exactly where it is none.
pub(crate) fn read_message(alloc: Global, payload: &[u8]) -> Result<ServerMessage<'_>, FieldFault>
    ensures { Answers IsServerMessage payload.now (read_as said_of result) }
{
    let Ok(document) = RawDocument::from_bytes(payload) else {
        return Err(FieldFault::Unreadable);
    };
    match Fields::of_well_formed(alloc, document) {
        Ok(fields) => table_of(document, &fields),
        Err(fault) => Err(fault),
    }
}

// The table of a message's fields.
fn table_of<'a>(
    document: RawDocument<'a>,
    fields: &Fields<'a>,
) -> Result<ServerMessage<'a>, FieldFault>
    requires { IsReadable maximum_depth document.bytes.now }
    ensures { (elements : List Element) → IsDocument document.entry.bytes.now elements → AreFields elements fields.now → Answers IsMessageTable elements (read_as said_of result) }
{
    if has_foreign_element(document) {
        return Err(FieldFault::Unreadable);
    }
    let server_nonce = required_binary(fields.value(SERVER_NONCE))?;
    let sts_host = required_text(fields.value(STS_HOST))?;
    Ok(ServerMessage {
        server_nonce,
        sts_host,
    })
}

// Whether a document has an element that a message doesn't have.
fn has_foreign_element(document: RawDocument<'_>) -> bool
    requires { IsReadable maximum_depth document.bytes.now }
    ensures { (elements : List Element) → IsDocument document.entry.bytes.now elements → result ≡ has_foreign_element elements }
{
    for item in document.iter() {
        match item {
            Ok((key, _value)) => {
                if !is_message_key(key) {
                    return true;
                }
            }
            Err(_) => unreachable!(),
        }
    }
    false
}

// Whether a message has an element of this key.
fn is_message_key(key: &str) -> bool
    ensures { result ≡ is_message_key key.now }
{
    key == SERVER_NONCE || key == STS_HOST
}

// The bytes of a binary that has to be there.
fn required_binary<'a>(value: Option<RawValue<'a>>) -> Result<&'a [u8], FieldFault>
    ensures { (found : Option Element) → IsValueOf found value.entry → Answers (Required ReadsBinary) found (read_as (λ bytes. bytes.now) result) }
{
    match value {
        Some(value) => binary(value),
        None => Err(FieldFault::Unreadable),
    }
}

// The bytes of a binary.
fn binary<'a>(value: RawValue<'a>) -> Result<&'a [u8], FieldFault>
    ensures { (e : Element) → IsValue e.kind e.value value.entry → Answers ReadsBinary e (read_as (λ bytes. bytes.now) result) }
{
    match value {
        RawValue::Binary(_subtype, bytes) => Ok(bytes),
        _ => Err(FieldFault::Unreadable),
    }
}

// A text that has to be there.
fn required_text<'a>(value: Option<RawValue<'a>>) -> Result<&'a str, FieldFault>
    ensures { (found : Option Element) → IsValueOf found value.entry → Answers (Required ReadsText) found (read_as (λ text. text.now) result) }
{
    match value {
        Some(value) => text(value),
        None => Err(FieldFault::Unreadable),
    }
}

// A text.
fn text<'a>(value: RawValue<'a>) -> Result<&'a str, FieldFault>
    ensures { (e : Element) → IsValue e.kind e.value value.entry → Answers ReadsText e (read_as (λ text. text.now) result) }
{
    match value {
        RawValue::Str(text) => Ok(text),
        _ => Err(FieldFault::Unreadable),
    }
}
