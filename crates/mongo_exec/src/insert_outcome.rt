ghost use Rattle.std.specs.Prelude.{◌≡◌, IfOk, IfErr};
ghost use Rattle.mongo_exec.specs.Outcome.{nothing_inserted};

use mongo_bson::{BsonFault, Items};
use mongo_wire::{WriteConcernError, WriteErrors};
use std::alloc::Global;

/// A list of write concerns that weren't met.
pub type WriteConcernErrors = Items<WriteConcernError>;

/// What an insert of many documents has come to.
#[derive(Debug)]
pub struct InsertOutcome {
    /// How many documents the server counts as inserted.
    pub inserted: u64,
    /// The refused writes, each with its place in the list of documents, counted from 0, in the order of the list.
    pub write_errors: WriteErrors,
    /// The write concerns that weren't met, one a batch at most, in the order of the batches.
    pub write_concern_errors: WriteConcernErrors,
    /// How many batches were sent and answered.
    pub batches: u64,
}

// Dropped by a call, so that the proofs of its owners don't walk through its parts.
impl Drop for InsertOutcome {
    fn drop(self) {
        let InsertOutcome {
            inserted: _,
            write_errors: _,
            write_concern_errors: _,
            batches: _,
        } = self;
    }
}

impl InsertOutcome {
    // The outcome of no batch. It takes no memory.
    pub(crate) fn nothing(alloc: Global) -> InsertOutcome
        ensures { result ≡ nothing_inserted }
    {
        InsertOutcome {
            inserted: 0,
            write_errors: WriteErrors::new(alloc),
            write_concern_errors: WriteConcernErrors::new(alloc),
            batches: 0,
        }
    }

    /// A copy of the outcome.
    pub fn try_clone(&self, alloc: Global) -> Result<InsertOutcome, BsonFault>
        ensures copied { IfOk result (λ outcome. outcome ≡ self.now) }
        ensures refused { IfErr result (λ fault. fault ≡ BsonFault.OutOfMemory) }
    {
        Ok(InsertOutcome {
            inserted: self.inserted,
            write_errors: self.write_errors.try_clone(alloc)?,
            write_concern_errors: self.write_concern_errors.try_clone(alloc)?,
            batches: self.batches,
        })
    }
}
