ghost use Rattle.std.specs.Prelude.{◌≡◌, ◌+◌, ◌++◌, ◌<◌, ◌^◌, [], length, map, option_copied, option_to_list, All, IfOk, IfErr, OnOk, OnErr};
ghost use Rattle.mongo_exec.specs.Outcome.{nothing_inserted, shifted};
ghost use Rattle.mongo_exec.specs.Told.{told_errors, with_told, HasRoomToShift, IsFrontOf, IsBehind};

use crate::insert_reply::BatchReply;
use crate::{InsertOutcome, WriteConcernErrors};
use mongo_bson::BsonFault;
use mongo_wire::{IndexedWriteError, WriteConcernError, WriteErrors};
use std::alloc::Global;

// The outcome so far. Its write errors stand in two lists that take turns, so that want of memory in the middle of a batch
// loses nothing: the other list has a front of them, is filled up to them and with the errors of the next batch, and takes
// the first one's place then.
#[derive(Debug, Drop)]
pub(crate) struct Tally {
    pub(crate) outcome: InsertOutcome,
    pub(crate) other: WriteErrors,
}

impl Tally {
    // The outcome of no batch. It takes no memory.
    pub(crate) fn new(alloc: Global) -> Tally
        ensures outcome { result.outcome ≡ nothing_inserted }
        ensures behind { IsBehind result }
    {
        Tally {
            outcome: InsertOutcome::nothing(alloc),
            other: WriteErrors::new(alloc),
        }
    }

    // What the replies so far come to.
    pub(crate) fn into_outcome(self) -> InsertOutcome
        ensures { result ≡ self.outcome }
    {
        self.outcome
    }

    // Adds what a reply tells of a batch that begins at the place. A refusal leaves the outcome as it was.
    pub(crate) fn add(
        &mut self,
        alloc: Global,
        place: u32,
        told: &BatchReply,
    ) -> Result<(), BsonFault>
        requires behind { IsBehind self.old }
        requires inserted { self.old.outcome.inserted + told.now.count < 2 ^ 64 }
        requires batches { self.old.outcome.batches + 1 < 2 ^ 64 }
        requires places { All (HasRoomToShift place) (told_errors told.now) }
        ensures added { OnOk result (self.new.outcome ≡ with_told place told.now self.old.outcome) }
        ensures behind { OnOk result (IsBehind self.new) }
        ensures unchanged { OnErr result (self.new.outcome ≡ self.old.outcome) }
        ensures refused { IfErr result (λ fault. fault ≡ BsonFault.OutOfMemory) }
    {
        catch_up(alloc, &mut self.other, self.outcome.write_errors.as_slice())?;
        push_shifted(alloc, &mut self.other, place, told.errors())?;
        push_concern(
            alloc,
            &mut self.outcome.write_concern_errors,
            told.concern(),
        )?;
        std::mem::swap(&mut self.outcome.write_errors, &mut self.other);
        self.outcome.inserted += told.count;
        self.outcome.batches += 1;
        Ok(())
    }
}

// Puts a write concern that wasn't met at the end of a list, where there is one. A refusal leaves the list as it was.
fn push_concern(
    alloc: Global,
    list: &mut WriteConcernErrors,
    concern: Option<&WriteConcernError>,
) -> Result<(), BsonFault>
    ensures pushed { OnOk result (list.new ≡ list.old ++ option_to_list (option_copied concern.entry)) }
    ensures unchanged { OnErr result (list.new ≡ list.old) }
    ensures refused { IfErr result (λ fault. fault ≡ BsonFault.OutOfMemory) }
{
    match concern {
        Some(concern) => list.push(concern.try_clone(alloc)?),
        None => Ok(()),
    }
}

// Puts those errors at the end of a list that it lacks: it has a front of them.
fn catch_up(
    alloc: Global,
    list: &mut WriteErrors,
    errors: &[IndexedWriteError],
) -> Result<(), BsonFault>
    requires { IsFrontOf list.old errors.now }
    ensures caught { OnOk result (list.new ≡ errors.now) }
    ensures refused { IfErr result (λ fault. fault ≡ BsonFault.OutOfMemory) }
{
    for index in list.len()..errors.len() {
        list.push(errors[index].try_clone(alloc)?)?;
    }
    Ok(())
}

// Puts the refused writes of a batch that begins at the place at the end of a list, each by its place in the whole list.
fn push_shifted(
    alloc: Global,
    list: &mut WriteErrors,
    place: u32,
    errors: &[IndexedWriteError],
) -> Result<(), BsonFault>
    requires { All (HasRoomToShift place) errors.now }
    ensures pushed { OnOk result (list.new ≡ list.old ++ map (shifted place) errors.now) }
    ensures refused { IfErr result (λ fault. fault ≡ BsonFault.OutOfMemory) }
{
    for error in errors {
        list.push(shifted_copy(alloc, place, error)?)?;
    }
    Ok(())
}

// A refused write of a batch that begins at the place, by its place in the whole list.
fn shifted_copy(
    alloc: Global,
    place: u32,
    error: &IndexedWriteError,
) -> Result<IndexedWriteError, BsonFault>
    requires { HasRoomToShift place error.now }
    ensures shifted { IfOk result (λ copy. copy ≡ shifted place error.now) }
    ensures refused { IfErr result (λ fault. fault ≡ BsonFault.OutOfMemory) }
{
    Ok(IndexedWriteError {
        index: error.index + place,
        error: error.error.try_clone(alloc)?,
    })
}
