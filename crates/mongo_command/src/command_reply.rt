ghost use Rattle.std.specs.Prelude.{◌≡◌, ◌↔◌, ℕ, List, None, IsTrue, IfOk, IfErr, IfSome};
ghost use Rattle.mongo_bson.specs.Document.{Element};
ghost use Rattle.mongo_command.specs.Field.{field_of};
ghost use Rattle.mongo_command.specs.Hello.{IsSuccess};
ghost use Rattle.mongo_command.specs.Fields.{AreFields, HoldsWellFormed};
ghost use Rattle.mongo_command.specs.Response.{reply_document};
ghost use Rattle.mongo_command.specs.CommandReply.{IsCommandBody, CommandRefused, FieldsRefused, refusal_kind};
ghost use Rattle.mongo_command.specs.Keys.{ok_key};

use crate::RawCommandResponse;
use crate::error_table::command_error_of;
use crate::field::FieldFault;
use crate::fields::Fields;
use crate::keys::OK;
use mongo_bson::{RawDocument, get_int_raw};
use mongo_wire::{Error, ErrorKind, ResponseFault};
use std::alloc::Global;

/// The document of the reply to a command that succeeded: it is well formed, and its `ok` is 1 as [`get_int_raw`] reads
/// it.
///
/// `Command` where the reply is a command error instead, as [`RawCommandResponse::into_hello_reply`] says of one; else
/// `InvalidResponse(Body)`. The reply to a write is judged by this first: where its `ok` isn't 1 the command failed, and
/// its `writeErrors` aren't looked at. Then [`RawCommandResponse::validate_single_write`] or
/// [`RawCommandResponse::validate_insert_many`] says which of its writes were refused.
pub fn command_body(alloc: Global, response: &RawCommandResponse) -> Result<RawDocument<'_>, Error>
    ensures document { IfOk result (λ document. document.bytes.now ≡ reply_document response.now) }
    ensures succeeded { IfOk result (λ _. IsCommandBody (reply_document response.now)) }
    ensures refused { IfErr result (λ e. CommandRefused e.kind (reply_document response.now)) }
{
    let document = response.raw_body();
    match Fields::of_well_formed(alloc, document) {
        Ok(fields) => match failure_of(&fields) {
            Some(failure) => Err(failure),
            None => Ok(document),
        },
        Err(fault) => Err(refused_as(ResponseFault::Body, fault)),
    }
}

// Why a command failed whose reply has these fields, or None where it succeeded.
fn failure_of(fields: &Fields<'_>) -> Option<Error>
    ensures succeeded { (document : List ℕ) → HoldsWellFormed document fields.now → result ≡ None → IsCommandBody document }
    ensures refused { IfSome result (λ e. (document : List ℕ) → HoldsWellFormed document fields.now → CommandRefused e.kind document) }
{
    if is_success(fields) {
        None
    } else {
        Some(refusal_of(fields, ResponseFault::Body))
    }
}

/// Whether the fields are those of a command that succeeded: `ok` is there and is 1 as [`get_int_raw`] reads it.
pub fn is_success(fields: &Fields<'_>) -> bool
    ensures { (elements : List Element) → AreFields elements fields.now → IsTrue result ↔ IsSuccess (field_of ok_key elements) }
{
    match fields.value(OK) {
        Some(ok) => get_int_raw(ok) == Some(1),
        None => false,
    }
}

// Why fields are refused that aren't those of the reply that was owed: as a command error, or else as this fault.
pub(crate) fn refusal_of(fields: &Fields<'_>, otherwise: ResponseFault) -> Error
    ensures { (elements : List Element) → AreFields elements fields.now → FieldsRefused otherwise result.kind elements }
{
    match command_error_of(fields) {
        Ok(error) => Error {
            kind: ErrorKind::Command(error),
        },
        Err(fault) => refused_as(otherwise, fault),
    }
}

// What a reply that can't be read is refused as: this fault, or want of memory.
pub(crate) fn refused_as(unreadable: ResponseFault, fault: FieldFault) -> Error
    ensures { result.kind ≡ refusal_kind unreadable fault }
{
    let kind = match fault {
        FieldFault::Unreadable => ErrorKind::InvalidResponse(unreadable),
        FieldFault::OutOfMemory => ErrorKind::OutOfMemory,
    };
    Error { kind }
}
