ghost use Rattle.std.specs.Prelude.{ℕ, List, IfOk, IfErr, Option};
ghost use Rattle.mongo_bson.specs.Document.{Element};
ghost use Rattle.mongo_bson.specs.Value.{IsValue};
ghost use Rattle.mongo_command.specs.Field.{Required};
ghost use Rattle.mongo_command.specs.Fields.{Answers, IsValueOf};
ghost use Rattle.mongo_command.specs.Response.{reply_document};
ghost use Rattle.mongo_cursor.specs.Batch.{HoldsCursor, ReadsCursor, HoldsBatch, IsBatch, BatchRefused};

use crate::document_queue::DocumentQueue;
use crate::namespace::Namespace;
use mongo_bson::{RawDocument, RawValue};
use mongo_command::{FieldFault, Fields, RawCommandResponse, command_body};
use mongo_wire::{Error, ErrorKind, ResponseFault};
use std::alloc::Global;

// The key of the first batch, in the reply to the command that makes a cursor.
pub(crate) const FIRST_BATCH: &str = "firstBatch";

// The key of a later one, in the reply to a getMore.
pub(crate) const NEXT_BATCH: &str = "nextBatch";

// What a reply says of a cursor: its id, 0 where the server has closed it, the collection that it is in, and a batch of
// documents.
#[derive(Debug, Drop)]
pub(crate) struct Batch {
    pub(crate) id: i64,
    pub(crate) namespace: Namespace,
    pub(crate) documents: DocumentQueue,
}

// The batch that a reply holds under this key.
//
// The refusals of `command_body`, then `InvalidResponse(Body)` where it holds none.
pub(crate) fn read_batch(
    alloc: Global,
    response: &RawCommandResponse,
    key: &str,
) -> Result<Batch, Error>
    ensures read { IfOk result (IsBatch key.now (reply_document response.now)) }
    ensures refused { IfErr result (λ e. BatchRefused key.now e.kind (reply_document response.now)) }
{
    let body = command_body(alloc, response)?;
    match batch_in(alloc, body, key) {
        Ok(batch) => Ok(batch),
        Err(FieldFault::Unreadable) => {
            Err(ErrorKind::InvalidResponse(ResponseFault::Body).into())
        }
        Err(FieldFault::OutOfMemory) => Err(ErrorKind::OutOfMemory.into()),
    }
}

// The batch of the field `cursor` of a document.
fn batch_in(alloc: Global, document: RawDocument<'_>, key: &str) -> Result<Batch, FieldFault>
    ensures { Answers (HoldsBatch key.now) document.entry.bytes.now result }
{
    let fields = Fields::of(alloc, document)?;
    cursor_of(alloc, fields.value("cursor"), key)
}

// The batch of a field that has to be there.
fn cursor_of(alloc: Global, value: Option<RawValue<'_>>, key: &str) -> Result<Batch, FieldFault>
    ensures { (found : Option Element) → IsValueOf found value.entry → Answers (Required (ReadsCursor key.now)) found result }
{
    match value {
        Some(value) => cursor_of_value(alloc, value, key),
        None => Err(FieldFault::Unreadable),
    }
}

// The batch of a document that a value is.
fn cursor_of_value(alloc: Global, value: RawValue<'_>, key: &str) -> Result<Batch, FieldFault>
    ensures { (e : Element) → IsValue e.kind e.value value.entry → Answers (ReadsCursor key.now) e result }
{
    match value {
        RawValue::Document(cursor) => cursor_in(alloc, cursor, key),
        _ => Err(FieldFault::Unreadable),
    }
}

// The batch of the document of a cursor.
fn cursor_in(alloc: Global, cursor: RawDocument<'_>, key: &str) -> Result<Batch, FieldFault>
    ensures { Answers (HoldsCursor key.now) cursor.entry.bytes.now result }
{
    let fields = Fields::of(alloc, cursor)?;
    let id = fields.required("id")?;
    let namespace = fields.required("ns")?;
    let documents = fields.required(key)?;
    Ok(Batch {
        id,
        namespace,
        documents,
    })
}
