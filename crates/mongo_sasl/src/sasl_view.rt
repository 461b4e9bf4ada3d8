ghost use Rattle.std.specs.Prelude.{◌≡◌, List, Option, IfOk, IfErr, MatchResult};
ghost use Rattle.mongo_bson.specs.Document.{Element, IsDocument};
ghost use Rattle.mongo_bson.specs.Value.{IsValue};
ghost use Rattle.mongo_command.specs.Field.{field_of, Required, IsFilled};
ghost use Rattle.mongo_command.specs.Fields.{IsValueOf, Answers, AreFields, HoldsWellFormed};
ghost use Rattle.mongo_command.specs.Keys.{errmsg_key, ok_key};
ghost use Rattle.mongo_sasl.specs.Reply.{ReadsValue, ReadsGeneric, IsSaslTable, IsSaslReply, SaslRefused, Succeeded, IsUnsuccessful, IsFailureOf};
ghost use Rattle.mongo_sasl.specs.View.{owned_value_of, sasl_response_of, read_as, kind_of_field_fault};
ghost use Rattle.mongo_sasl.specs.Keys.{conversation_id_key};

use crate::SaslResponse;
use crate::keys::{CONVERSATION_ID, DONE, PAYLOAD};
use mongo_bson::{BsonFault, Bytes, GENERIC, OwnedValue, RawDocument, RawValue, Text, get_int_raw};
use mongo_command::keys::{ERRMSG, OK};
use mongo_command::{FieldFault, Fields};
use mongo_wire::{AuthFault, Error, ErrorKind};
use std::alloc::Global;

/// What the reply to a command of a login says, borrowed from the reply's document.
#[derive(Debug, Clone, Copy, Drop)]
pub struct SaslView<'b> {
    /// The kind byte of the conversation's id, BSON 1.1.
    pub conversation_kind: u8,
    /// The bytes of the conversation's id, as they lie in the document.
    pub conversation_bytes: &'b [u8],
    /// Whether the conversation is done.
    pub done: bool,
    /// The server's message.
    pub payload: &'b [u8],
}

impl<'b> SaslView<'b> {
    ghost use Rattle.std.specs.Prelude.{◌≡◌, IfOk, IfErr};
    ghost use Rattle.mongo_sasl.specs.Reply.{IsSaslReply, SaslRefused};
    ghost use Rattle.mongo_sasl.specs.View.{sasl_response_of};

    /// Reads the reply to a command of a login. It takes memory for the fields alone.
    ///
    /// Refusals, in this order:
    /// - `Malformed` where the document isn't well formed.
    /// - `Refused` where `ok` is there and is a number other than 1, with the text `errmsg`, or `Authentication failure`
    ///   where that is no text. A reply without `ok` succeeded.
    /// - `Malformed` where `ok` is no whole number; where `conversationId` is absent, `done` is no boolean or
    ///   `payload` is no binary of the generic subtype.
    pub fn parse(alloc: Global, response: RawDocument<'b>) -> Result<SaslView<'b>, Error>
        ensures read { IfOk result (λ view. IsSaslReply response.entry.bytes.now (sasl_response_of view)) }
        ensures refused { IfErr result (λ e. SaslRefused response.entry.bytes.now e.kind) }
    {
        match Fields::of_well_formed(alloc, response) {
            Ok(fields) => view_of(alloc, response, &fields),
            Err(fault) => Err(unreadable_fields(fault)),
        }
    }

    /// A copy of the id of the conversation that the reply is of.
    pub fn conversation_id(&self, alloc: Global) -> Result<OwnedValue, BsonFault>
        ensures copied { IfOk result (λ id. id ≡ (sasl_response_of self.now).conversation_id) }
        ensures refused { IfErr result (λ fault. fault ≡ BsonFault.OutOfMemory) }
    {
        Ok(OwnedValue {
            kind: self.conversation_kind,
            bytes: Bytes::from_slice(alloc, self.conversation_bytes)?,
        })
    }

    /// A copy of what the reply says.
    pub fn to_response(&self, alloc: Global) -> Result<SaslResponse, BsonFault>
        ensures copied { IfOk result (λ response. response ≡ sasl_response_of self.now) }
        ensures refused { IfErr result (λ fault. fault ≡ BsonFault.OutOfMemory) }
    {
        Ok(SaslResponse {
            conversation_id: self.conversation_id(alloc)?,
            done: self.done,
            payload: Bytes::from_slice(alloc, self.payload)?,
        })
    }
}

// What the fields of a well-formed document say.
fn view_of<'b>(
    alloc: Global,
    response: RawDocument<'b>,
    fields: &Fields<'b>,
) -> Result<SaslView<'b>, Error>
    requires { HoldsWellFormed response.bytes.now fields.now }
    ensures read { IfOk result (λ view. IsSaslReply response.entry.bytes.now (sasl_response_of view)) }
    ensures refused { IfErr result (λ e. SaslRefused response.entry.bytes.now e.kind) }
{
    match success_of(alloc, fields) {
        Ok(()) => match table_of(response, fields) {
            Ok(view) => Ok(view),
            Err(fault) => Err(unreadable_fields(fault)),
        },
        Err(error) => Err(error),
    }
}

// Whether the command succeeded: `ok` is absent or 1.
fn success_of(alloc: Global, fields: &Fields<'_>) -> Result<(), Error>
    ensures { (elements : List Element) → AreFields elements fields.now → MatchResult result (λ _. Succeeded (field_of ok_key elements)) (λ e. IsUnsuccessful elements e.kind) }
{
    let Some(ok) = fields.value(OK) else {
        return Ok(());
    };
    match get_int_raw(ok) {
        Some(1) => Ok(()),
        Some(_) => Err(authentication_failure(alloc, fields)),
        None => Err(unreadable_fields(FieldFault::Unreadable)),
    }
}

// What a failure says.
fn authentication_failure(alloc: Global, fields: &Fields<'_>) -> Error
    ensures { (elements : List Element) → AreFields elements fields.now → IsFailureOf (field_of errmsg_key elements) result.kind }
{
    let text = match fields.value(ERRMSG) {
        Some(RawValue::Str(text)) => text,
        _ => "Authentication failure",
    };
    match Text::from_slice(alloc, text) {
        Ok(text) => Error {
            kind: ErrorKind::Authentication(AuthFault::Refused(text)),
        },
        Err(_) => Error {
            kind: ErrorKind::OutOfMemory,
        },
    }
}

// The table of a success.
fn table_of<'b>(response: RawDocument<'b>, fields: &Fields<'b>) -> Result<SaslView<'b>, FieldFault>
    requires { IsFilled response.bytes.now }
    ensures { (elements : List Element) → IsDocument response.entry.bytes.now elements → AreFields elements fields.now → Answers IsSaslTable elements (read_as sasl_response_of result) }
{
    let (conversation_kind, conversation_bytes) = conversation_id(response)?;
    let done = fields.required(DONE)?;
    let payload = required_binary(fields.value(PAYLOAD))?;
    Ok(SaslView {
        conversation_kind,
        conversation_bytes,
        done,
        payload,
    })
}

// The conversation's id: the kind byte and the bytes of a value of any kind.
fn conversation_id<'b>(response: RawDocument<'b>) -> Result<(u8, &'b [u8]), FieldFault>
    requires { IsFilled response.bytes.now }
    ensures { (elements : List Element) → IsDocument response.entry.bytes.now elements → Answers (Required ReadsValue) (field_of conversation_id_key elements) (read_as owned_value_of result) }
{
    match response.get_bytes(CONVERSATION_ID) {
        Ok(found) => found.ok_or(FieldFault::Unreadable),
        Err(_) => unreachable!(),
    }
}

// The bytes of a generic binary that has to be there.
fn required_binary<'b>(value: Option<RawValue<'b>>) -> Result<&'b [u8], FieldFault>
    ensures { (found : Option Element) → IsValueOf found value.entry → Answers (Required ReadsGeneric) found (read_as (λ bytes. bytes.now) result) }
{
    match value {
        Some(value) => generic_binary(value),
        None => Err(FieldFault::Unreadable),
    }
}

// The bytes of a generic binary.
fn generic_binary<'b>(value: RawValue<'b>) -> Result<&'b [u8], FieldFault>
    ensures { (e : Element) → IsValue e.kind e.value value.entry → Answers ReadsGeneric e (read_as (λ bytes. bytes.now) result) }
{
    match value {
        RawValue::Binary(subtype, bytes) if subtype == GENERIC => Ok(bytes),
        _ => Err(FieldFault::Unreadable),
    }
}

// What fields that can't be read are refused as.
pub(crate) fn unreadable_fields(fault: FieldFault) -> Error
    ensures { result.kind ≡ kind_of_field_fault fault }
{
    let kind = match fault {
        FieldFault::Unreadable => ErrorKind::Authentication(AuthFault::Malformed),
        FieldFault::OutOfMemory => ErrorKind::OutOfMemory,
    };
    Error { kind }
}
