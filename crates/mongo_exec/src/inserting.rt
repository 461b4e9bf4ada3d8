ghost use Rattle.std.specs.Prelude.{◌≡◌, ◌<◌, ◌^◌, None, Some, length, IfOk, IfErr, OnOk};
ghost use Rattle.mongo_command.specs.Connection.{kept_fault};
ghost use Rattle.mongo_command.specs.EndsExchange.{footing};
ghost use Rattle.mongo_command.specs.declared.stream_description.StreamDescription.{StreamDescription};
ghost use Rattle.mongo_exec.specs.Insert.{insert_of};
ghost use Rattle.mongo_exec.specs.InsertMany.{EndsInsert, BeginRefused};
ghost use Rattle.mongo_exec.specs.Plan.{IsPlan};

use crate::batches::insert_batches;
use crate::plan::{Plan, planned};
use crate::{ExecError, InsertFault, InsertOutcome};
use mongo_bson::{Documents, RawDocumentBuf};
use mongo_command::Connection;
use mongo_wire::{Error, Link, RequestIds};
use std::alloc::Global;

/// Inserts documents into a collection, as they are, in batches that the server takes: each is as many documents from the
/// list's front as its limits of a batch's count and a frame's bytes allow. One command a batch is sent, and its reply taken
/// before the next one. An ordered insert ends with the first batch that had refused writes; an unordered one sends all.
///
/// Refusals before a byte is written, in this order: `NoDescription`; `NoDocuments`; `BatchSize` where the limit of a batch is
/// below 1; `Wire(Bson(TooLong))` where the command's document would pass 2147483647 bytes; `Wire(MaximumNegative)`; at the
/// first place where one stands, `DocumentTooLong` for a document past the server's limit, else `Wire(TooLong)` for one whose
/// insert alone passes the greatest frame.
///
/// Then, for each batch: the refusals of [`Connection::send_message`], those of
/// [`command_body`](mongo_command::command_body), those of [`extract_n`](mongo_command::RawCommandResponse::extract_n),
/// `InvalidResponse(Body)` where the reply doesn't tell of refused writes as it has to, or counts more documents than the
/// batch has or names a place past it. `done` is the outcome of the batches before. Want of memory may stand in place of each
/// answer.
///
/// Each document is copied once, into the command that carries it; memory is taken for one batch at a time.
pub fn insert_many<L: Link>(
    alloc: Global,
    connection: &mut Connection,
    link: &mut L,
    ids: &mut RequestIds,
    db: &str,
    collection: &str,
    documents: &Documents,
    ordered: bool,
) -> Result<InsertOutcome, InsertFault>
    requires { length documents.now < 2 ^ 32 }
    // The frames are those of the documents' cut up to the stop, one reply was taken for each, and the outcome adds them up;
    // a refusal has its cause, and says what was done before it.
    ensures ends { EndsInsert L.state (insert_of db.now collection.now ordered) documents.now result (footing connection.old link.old ids.old) (footing connection.new link.new ids.new) }
{
    let documents = documents.as_slice();
    match begun(alloc, connection, db, collection, documents, ordered) {
        Ok(plan) => insert_batches(alloc, connection, link, ids, &plan, documents),
        Err(error) => Err(InsertFault {
            error,
            done: InsertOutcome::nothing(alloc),
        }),
    }
}

// How the documents are inserted, where the connection keeps no fault.
//
// The refusals of `planned`, then the fault that the connection keeps.
fn begun(
    alloc: Global,
    connection: &Connection,
    db: &str,
    collection: &str,
    documents: &[RawDocumentBuf],
    ordered: bool,
) -> Result<Plan, ExecError>
    requires { length documents.now < 2 ^ 32 }
    ensures plan { IfOk result (λ plan. (description : StreamDescription) × (connection.now.stream_description ≡ Some description) × IsPlan description (insert_of db.now collection.now ordered) documents.now plan) }
    ensures unkept { OnOk result (kept_fault connection.now ≡ None) }
    ensures refused { IfErr result (λ error. BeginRefused error connection.now.stream_description (kept_fault connection.now) (insert_of db.now collection.now ordered) documents.now) }
{
    let plan = planned(alloc, connection, db, collection, documents, ordered)?;
    match connection.fault() {
        Some(kind) => Err(ExecError::Wire(Error {
            kind: kind.try_clone(alloc)?,
        })),
        None => Ok(plan),
    }
}
