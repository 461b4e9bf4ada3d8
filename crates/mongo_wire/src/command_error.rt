ghost use Rattle.std.specs.Prelude.{◌≡◌, IfOk, IfErr};

use mongo_bson::{BsonFault, Text, Texts};
use std::alloc::Global;

/// A server's answer that a command failed. Texts that the reply lacks are empty, labels that it lacks are none.
#[derive(Debug, PartialEq)]
pub struct CommandError {
    /// The server's number for the error.
    pub code: i32,
    /// The name of the code.
    pub code_name: Text,
    /// What the server says of it.
    pub message: Text,
    /// The error labels.
    pub labels: Texts,
}

// Dropped by a call, so that the proofs of its owners don't walk through its parts.
impl Drop for CommandError {
    fn drop(self) {
        let CommandError {
            code: _,
            code_name: _,
            message: _,
            labels: _,
        } = self;
    }
}

impl CommandError {
    /// A copy of the error.
    pub fn try_clone(&self, alloc: Global) -> Result<CommandError, BsonFault>
        ensures copied { IfOk result (λ error. error ≡ self.now) }
        ensures refused { IfErr result (λ fault. fault ≡ BsonFault.OutOfMemory) }
    {
        Ok(CommandError {
            code: self.code,
            code_name: self.code_name.try_clone(alloc)?,
            message: self.message.try_clone(alloc)?,
            labels: self.labels.try_clone(alloc)?,
        })
    }
}
