ghost use Rattle.std.specs.Prelude.{◌≡◌, IfOk, IfErr};

use mongo_bson::{BsonFault, Items, RawDocumentBuf, Text, Texts, TryClone, copy_of};
use std::alloc::Global;

/// A write that a server refused.
#[derive(Debug, Drop)]
pub struct WriteError {
    /// The server's number for the error.
    pub code: i32,
    /// The name of the code, where the reply has it.
    pub code_name: Option<Text>,
    /// What the server says of it.
    pub message: Text,
    /// What else the server says, where the reply has it.
    pub details: Option<RawDocumentBuf>,
}

impl WriteError {
    /// A copy of the write error.
    pub fn try_clone(&self, alloc: Global) -> Result<WriteError, BsonFault>
        ensures copied { IfOk result (λ error. error ≡ self.now) }
        ensures refused { IfErr result (λ fault. fault ≡ BsonFault.OutOfMemory) }
    {
        Ok(WriteError {
            code: self.code,
            code_name: copy_of(alloc, &self.code_name)?,
            message: self.message.try_clone(alloc)?,
            details: copy_of(alloc, &self.details)?,
        })
    }
}

/// A refused write of a batch and its place there, counted from 0.
#[derive(Debug, Drop)]
pub struct IndexedWriteError {
    /// The place of the write.
    pub index: u32,
    /// Why it was refused.
    pub error: WriteError,
}

impl IndexedWriteError {
    /// A copy of the write error and its place.
    pub fn try_clone(&self, alloc: Global) -> Result<IndexedWriteError, BsonFault>
        ensures copied { IfOk result (λ error. error ≡ self.now) }
        ensures refused { IfErr result (λ fault. fault ≡ BsonFault.OutOfMemory) }
    {
        Ok(IndexedWriteError {
            index: self.index,
            error: self.error.try_clone(alloc)?,
        })
    }
}

impl TryClone for IndexedWriteError {
    fn try_clone(&self, alloc: Global) -> Result<IndexedWriteError, BsonFault> {
        IndexedWriteError::try_clone(self, alloc)
    }
}

/// A list of refused writes.
pub type WriteErrors = Items<IndexedWriteError>;

/// A write concern that a server couldn't meet.
#[derive(Debug, Drop)]
pub struct WriteConcernError {
    /// The server's number for the error.
    pub code: i32,
    /// The name of the code.
    pub code_name: Text,
    /// What the server says of it.
    pub message: Text,
    /// What else the server says, where the reply has it.
    pub details: Option<RawDocumentBuf>,
    /// The error labels.
    pub labels: Texts,
}

impl WriteConcernError {
    /// A copy of the write concern error.
    pub fn try_clone(&self, alloc: Global) -> Result<WriteConcernError, BsonFault>
        ensures copied { IfOk result (λ error. error ≡ self.now) }
        ensures refused { IfErr result (λ fault. fault ≡ BsonFault.OutOfMemory) }
    {
        Ok(WriteConcernError {
            code: self.code,
            code_name: self.code_name.try_clone(alloc)?,
            message: self.message.try_clone(alloc)?,
            details: copy_of(alloc, &self.details)?,
            labels: self.labels.try_clone(alloc)?,
        })
    }
}

impl TryClone for WriteConcernError {
    fn try_clone(&self, alloc: Global) -> Result<WriteConcernError, BsonFault> {
        WriteConcernError::try_clone(self, alloc)
    }
}

/// Why a single write was refused.
#[derive(Debug, Drop)]
pub enum WriteFailureCause {
    /// The write itself.
    WriteError(WriteError),
    /// Its write concern.
    WriteConcernError(WriteConcernError),
}

impl WriteFailureCause {
    /// A copy of the cause.
    pub fn try_clone(&self, alloc: Global) -> Result<WriteFailureCause, BsonFault>
        ensures copied { IfOk result (λ cause. cause ≡ self.now) }
        ensures refused { IfErr result (λ fault. fault ≡ BsonFault.OutOfMemory) }
    {
        match self {
            WriteFailureCause::WriteError(error) => {
                Ok(WriteFailureCause::WriteError(error.try_clone(alloc)?))
            }
            WriteFailureCause::WriteConcernError(error) => {
                Ok(WriteFailureCause::WriteConcernError(error.try_clone(alloc)?))
            }
        }
    }
}

/// A single write that was refused.
#[derive(Debug)]
pub struct WriteFailure {
    /// The first cause.
    pub cause: WriteFailureCause,
    /// The error labels of the reply.
    pub labels: Texts,
}

// Dropped by a call, so that the proofs of its owners don't walk through its parts.
impl Drop for WriteFailure {
    fn drop(self) {
        let WriteFailure {
            cause: _,
            labels: _,
        } = self;
    }
}

impl WriteFailure {
    /// A copy of the write failure.
    pub fn try_clone(&self, alloc: Global) -> Result<WriteFailure, BsonFault>
        ensures copied { IfOk result (λ failure. failure ≡ self.now) }
        ensures refused { IfErr result (λ fault. fault ≡ BsonFault.OutOfMemory) }
    {
        Ok(WriteFailure {
            cause: self.cause.try_clone(alloc)?,
            labels: self.labels.try_clone(alloc)?,
        })
    }
}

/// An insert of which something was refused.
#[derive(Debug)]
pub struct InsertManyError {
    /// The refused writes, where the reply has them.
    pub write_errors: Option<WriteErrors>,
    /// The write concern error, where the reply has it.
    pub write_concern_error: Option<WriteConcernError>,
    /// The error labels of the reply.
    pub labels: Texts,
}

// Dropped by a call, so that the proofs of its owners don't walk through its parts.
impl Drop for InsertManyError {
    fn drop(self) {
        let InsertManyError {
            write_errors: _,
            write_concern_error: _,
            labels: _,
        } = self;
    }
}

impl InsertManyError {
    /// A copy of the insert error.
    pub fn try_clone(&self, alloc: Global) -> Result<InsertManyError, BsonFault>
        ensures copied { IfOk result (λ error. error ≡ self.now) }
        ensures refused { IfErr result (λ fault. fault ≡ BsonFault.OutOfMemory) }
    {
        Ok(InsertManyError {
            write_errors: copy_of(alloc, &self.write_errors)?,
            write_concern_error: copy_of(alloc, &self.write_concern_error)?,
            labels: self.labels.try_clone(alloc)?,
        })
    }
}
