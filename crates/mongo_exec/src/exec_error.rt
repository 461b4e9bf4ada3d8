ghost use Rattle.std.specs.Prelude.{◌≡◌, IfOk, IfErr};
ghost use Rattle.mongo_wire.specs.Error.{kind_of_fault};

use crate::InsertOutcome;
use mongo_bson::BsonFault;
use mongo_wire::Error;
use std::alloc::Global;

/// Why an insert of many documents was refused.
#[derive(Debug, Drop)]
pub enum ExecError {
    /// The connection has no description of its server.
    NoDescription,
    /// There are no documents.
    NoDocuments,
    /// The server takes no document in a batch.
    BatchSize,
    /// The document at this place, counted from 0, is longer than the server takes.
    DocumentTooLong(u64),
    /// The command can't be written, its exchange failed, or its reply says no such thing as it has to.
    Wire(Error),
}

impl ExecError {
    /// A copy of the error.
    pub fn try_clone(&self, alloc: Global) -> Result<ExecError, BsonFault>
        ensures copied { IfOk result (λ error. error ≡ self.now) }
        ensures refused { IfErr result (λ fault. fault ≡ BsonFault.OutOfMemory) }
    {
        let copy = match self {
            ExecError::NoDescription => ExecError::NoDescription,
            ExecError::NoDocuments => ExecError::NoDocuments,
            ExecError::BatchSize => ExecError::BatchSize,
            ExecError::DocumentTooLong(place) => ExecError::DocumentTooLong(*place),
            ExecError::Wire(error) => ExecError::Wire(error.try_clone(alloc)?),
        };
        Ok(copy)
    }
}

impl From<Error> for ExecError {
    ghost use Rattle.mongo_exec.specs.declared.exec_error.ExecError.TheVariants.{Wire};

    ghost from_gives = { λ error result. result ≡ Wire error };

    fn from(error: Error) -> ExecError {
        ExecError::Wire(error)
    }
}

impl From<BsonFault> for ExecError {
    ghost use Rattle.mongo_exec.specs.declared.exec_error.ExecError.TheVariants.{Wire};

    ghost from_gives = { λ fault result. result ≡ Wire (record { kind = kind_of_fault fault }) };

    fn from(fault: BsonFault) -> ExecError {
        ExecError::Wire(Error::from(fault))
    }
}

/// A refused insert, and what was done before it was refused.
#[derive(Debug, Drop)]
pub struct InsertFault {
    /// Why it was refused.
    pub error: ExecError,
    /// The outcome of the batches that were answered before.
    pub done: InsertOutcome,
}

impl InsertFault {
    /// A copy of the fault.
    pub fn try_clone(&self, alloc: Global) -> Result<InsertFault, BsonFault>
        ensures copied { IfOk result (λ fault. fault ≡ self.now) }
        ensures refused { IfErr result (λ fault. fault ≡ BsonFault.OutOfMemory) }
    {
        Ok(InsertFault {
            error: self.error.try_clone(alloc)?,
            done: self.done.try_clone(alloc)?,
        })
    }
}
