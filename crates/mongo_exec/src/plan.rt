ghost use Rattle.std.specs.Prelude.{◌≡◌, ◌⊎◌, ◌+◌, ◌<◌, ◌≤◌, ◌^◌, pos, ◌<ℤ◌, ◌≤ℤ◌, Some, length, [], All, IsTrue, IsFalse, IfOk, IfErr, OnOk};
ghost use Rattle.mongo_bson.specs.Framed.{maximum_length};
ghost use Rattle.mongo_command.specs.declared.stream_description.StreamDescription.{StreamDescription};
ghost use Rattle.mongo_exec.specs.Insert.{Insert, insert_of, insert_size};
ghost use Rattle.mongo_exec.specs.InsertMany.{EarlyRow, DescribedRow, UnacceptedRow, HasBatches, IsAccepted, IsMemory, argument_error};
ghost use Rattle.mongo_exec.specs.Plan.{IsPlan};

use crate::ExecError;
use crate::insert_command::{bare_command, bare_size};
use mongo_bson::RawDocumentBuf;
use mongo_command::{Command, Connection, StreamDescription};
use mongo_wire::{ArgumentFault, Error, ErrorKind};
use std::alloc::Global;

// How documents are inserted that nothing before the first byte refuses.
#[derive(Debug, Drop)]
pub(crate) struct Plan {
    // The command without documents.
    pub(crate) command: Command,
    // Whether the first batch that has refused writes ends the insert.
    pub(crate) ordered: bool,
    // How many documents a batch has at most.
    pub(crate) most: usize,
    // How many bytes the documents of a batch take at most.
    pub(crate) room: usize,
}

// How the documents are inserted over the connection.
//
// Refusals, in this order: `NoDescription`, `NoDocuments`, `BatchSize`, `Wire(Bson(TooLong))`, `Wire(MaximumNegative)`, at the
// first place where one stands `DocumentTooLong`, else `Wire(TooLong)`.
pub(crate) fn planned(
    alloc: Global,
    connection: &Connection,
    db: &str,
    collection: &str,
    documents: &[RawDocumentBuf],
    ordered: bool,
) -> Result<Plan, ExecError>
    requires { length documents.now < 2 ^ 32 }
    ensures plan { IfOk result (λ plan. (description : StreamDescription) × (connection.now.stream_description ≡ Some description) × IsPlan description (insert_of db.now collection.now ordered) documents.now plan) }
    ensures refused { IfErr result (λ error. EarlyRow error connection.now.stream_description (insert_of db.now collection.now ordered) documents.now ⊎ IsMemory error) }
{
    match &connection.stream_description {
        Some(description) => planned_for(alloc, description, db, collection, documents, ordered),
        None => Err(ExecError::NoDescription),
    }
}

// The same for a server of this description.
fn planned_for(
    alloc: Global,
    description: &StreamDescription,
    db: &str,
    collection: &str,
    documents: &[RawDocumentBuf],
    ordered: bool,
) -> Result<Plan, ExecError>
    requires { length documents.now < 2 ^ 32 }
    ensures plan { IfOk result (IsPlan description.now (insert_of db.now collection.now ordered) documents.now) }
    ensures refused { IfErr result (λ error. DescribedRow error description.now (insert_of db.now collection.now ordered) documents.now ⊎ IsMemory error) }
{
    judge_number(description, documents)?;
    let command = bare_command(alloc, db, collection, ordered)?;
    let bare = bare_size(alloc, &command)?;
    let frame = frame_limit(frame_maximum(description))?;
    judge_documents(description, bare, frame, documents)?;
    Ok(Plan {
        command,
        ordered,
        most: batch_limit(batch_maximum(description)),
        room: frame - bare,
    })
}

// Refuses an empty list, and a server that takes no document in a batch.
fn judge_number(
    description: &StreamDescription,
    documents: &[RawDocumentBuf],
) -> Result<(), ExecError>
    ensures batches { OnOk result (HasBatches description.now documents.now) }
    ensures refused { (insert : Insert) → IfErr result (λ error. DescribedRow error description.now insert documents.now) }
{
    if documents.is_empty() {
        return Err(ExecError::NoDocuments);
    }
    if description.max_write_batch_size < 1 {
        return Err(ExecError::BatchSize);
    }
    Ok(())
}

// How many documents the server takes in a batch.
fn batch_maximum(description: &StreamDescription) -> i64
    ensures { result ≡ description.now.max_write_batch_size }
{
    description.max_write_batch_size
}

// How many bytes of a frame it takes.
fn frame_maximum(description: &StreamDescription) -> i32
    ensures { result ≡ description.now.max_message_size_bytes }
{
    description.max_message_size_bytes
}

// How many bytes of a document it takes.
fn document_maximum(description: &StreamDescription) -> i64
    ensures { result ≡ description.now.max_bson_object_size }
{
    description.max_bson_object_size
}

// How many documents a batch has at most.
fn batch_limit(limit: i64) -> usize
    requires { pos 1 ≤ℤ limit }
    ensures { pos result ≡ limit }
{
    limit as usize
}

// How many bytes a frame has at most. `MaximumNegative` where that is below 0.
fn frame_limit(maximum: i32) -> Result<usize, ExecError>
    ensures frame { IfOk result (λ frame. pos frame ≡ maximum) }
    ensures refused { IfErr result (λ error. (error ≡ argument_error ArgumentFault.MaximumNegative) × (maximum <ℤ pos 0)) }
{
    if maximum < 0 {
        Err(argument_error(ArgumentFault::MaximumNegative))
    } else {
        Ok(maximum as usize)
    }
}

// Refuses the first document that is longer than the server takes, or whose insert alone is, where an insert without
// documents has a frame of so many bytes and a frame has at most so many.
fn judge_documents(
    description: &StreamDescription,
    bare: usize,
    frame: usize,
    documents: &[RawDocumentBuf],
) -> Result<(), ExecError>
    requires few { length documents.now < 2 ^ 32 }
    requires frame { pos frame ≡ description.now.max_message_size_bytes }
    ensures accepted { (insert : Insert) → bare ≡ insert_size insert [] → OnOk result (All (IsAccepted description.now insert) documents.now) }
    ensures refused { (insert : Insert) → bare ≡ insert_size insert [] → IfErr result (λ error. UnacceptedRow error description.now insert documents.now) }
{
    let longest = document_maximum(description);
    let mut place: u64 = 0;
    'judging: for document in documents {
        let size = document.as_bytes().len();
        if is_longer(size, longest) {
            return Err(ExecError::DocumentTooLong(place));
        }
        if !has_room(bare, size, frame) {
            return Err(argument_error(ArgumentFault::TooLong));
        }
        place += 1;
    }
    Ok(())
}

// Whether a document of this size is longer than the limit.
fn is_longer(size: usize, limit: i64) -> bool
    requires { size ≤ maximum_length }
    ensures longer { IsTrue result → limit <ℤ pos size }
    ensures short { IsFalse result → pos size ≤ℤ limit }
{
    size as i64 > limit
}

// Whether a frame of so many bytes has room for so many more.
fn has_room(bare: usize, size: usize, frame: usize) -> bool
    ensures room { IsTrue result → bare + size ≤ frame }
    ensures full { IsFalse result → frame < bare + size }
{
    bare <= frame && size <= frame - bare
}

// What an argument is refused as.
fn argument_error(fault: ArgumentFault) -> ExecError
    ensures { result ≡ argument_error fault }
{
    ExecError::Wire(Error {
        kind: ErrorKind::InvalidArgument(fault),
    })
}
