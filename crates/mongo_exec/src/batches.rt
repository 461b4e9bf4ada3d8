ghost use Rattle.std.specs.Prelude.{◌≡◌, ◌+◌, ◌≤◌, ◌<◌, ◌^◌, ◌↔◌, [], None, Some, true, length, IsTrue, All};
ghost use Rattle.mongo_command.specs.Connection.{kept_fault};
ghost use Rattle.mongo_command.specs.EndsExchange.{footing};
ghost use Rattle.mongo_command.specs.declared.stream_description.StreamDescription.{StreamDescription};
ghost use Rattle.mongo_exec.specs.Insert.{Insert, bare_command, insert_document};
ghost use Rattle.mongo_exec.specs.Plan.{IsPlan};
ghost use Rattle.mongo_exec.specs.Told.{told_errors, IsBehind, HasRoomToShift};
ghost use Rattle.mongo_exec.specs.Course.{EndsBatch, EndsBatches};

use crate::batch::batch_length;
use crate::insert_command::command_with;
use crate::insert_reply::{BatchReply, read_insert_reply};
use crate::plan::Plan;
use crate::tally::Tally;
use crate::{ExecError, InsertFault, InsertOutcome};
use mongo_bson::RawDocumentBuf;
use mongo_command::{Command, Connection};
use mongo_wire::{Error, Link, RequestIds};
use std::alloc::Global;

// Inserts the documents batch by batch, as planned.
pub(crate) fn insert_batches<L: Link>(
    alloc: Global,
    connection: &mut Connection,
    link: &mut L,
    ids: &mut RequestIds,
    plan: &Plan,
    documents: &[RawDocumentBuf],
) -> Result<InsertOutcome, InsertFault>
    requires few { length documents.now < 2 ^ 32 }
    requires unkept { kept_fault connection.old ≡ None }
    requires planned { (description : StreamDescription) × (insert : Insert) × (connection.old.stream_description ≡ Some description) × IsPlan description insert documents.now plan.now }
    ensures ends { (description : StreamDescription) (insert : Insert) → connection.old.stream_description ≡ Some description → IsPlan description insert documents.now plan.now
        → EndsBatches L.state description insert documents.now result (footing connection.old link.old ids.old) (footing connection.new link.new ids.new) }
{
    let mut tally = Tally::new(alloc);
    let mut rest = documents;
    let mut place: u32 = 0;
    'batches: while !rest.is_empty() {
        let (batch, more) = rest.split_at(batch_length(rest, plan.most, plan.room));
        match insert_batch(
            alloc,
            connection,
            link,
            ids,
            &plan.command,
            batch,
            place,
            &mut tally,
        ) {
            Ok(told) => {
                if stops(plan.ordered, &told) {
                    return Ok(tally.into_outcome());
                }
            }
            Err(error) => {
                return Err(InsertFault {
                    error: ExecError::Wire(error),
                    done: tally.into_outcome(),
                });
            }
        }
        place += batch.len() as u32;
        rest = more;
    }
    Ok(tally.into_outcome())
}

// Whether a batch of which this is told ends its insert: an ordered one goes no further than refused writes.
fn stops(ordered: bool, told: &BatchReply) -> bool
    ensures { IsTrue result ↔ ((ordered ≡ true) × ¬ (told_errors told.now ≡ [])) }
{
    ordered && !told.errors().is_empty()
}

// Inserts one batch, which begins at the place, and adds what the reply tells to the tally. A refusal leaves the tally's
// outcome as it was.
fn insert_batch<L: Link>(
    alloc: Global,
    connection: &mut Connection,
    link: &mut L,
    ids: &mut RequestIds,
    command: &Command,
    batch: &[RawDocumentBuf],
    place: u32,
    tally: &mut Tally,
) -> Result<BatchReply, Error>
    requires unkept { kept_fault connection.old ≡ None }
    requires behind { IsBehind tally.old }
    requires few { place + length batch.now < 2 ^ 32 }
    requires inserted { tally.old.outcome.inserted ≤ place }
    requires batches { tally.old.outcome.batches ≤ place }
    requires bare { (insert : Insert) × (command.now ≡ bare_command insert) }
    ensures ends { (description : StreamDescription) (insert : Insert) → connection.old.stream_description ≡ Some description → command.now ≡ bare_command insert
        → EndsBatch L.state description insert batch.now place result tally.old tally.new (footing connection.old link.old ids.old) (footing connection.new link.new ids.new) }
{
    let command = command_with(alloc, command, batch)?;
    let response = connection.send_message(alloc, link, ids, command)?;
    let told = read_insert_reply(alloc, &response, batch.len())?;
    tally.add(alloc, place, &told)?;
    Ok(told)
}
