ghost use Rattle.std.specs.Prelude.{◌≡◌, IfOk, IfErr};
ghost use Rattle.mongo_wire.specs.Error.{kind_of_fault};

use mongo_bson::BsonFault;
use mongo_wire::Error;
use std::alloc::Global;

/// Why a call of a cursor was refused.
#[derive(Debug, Drop)]
pub enum CursorError {
    /// The command can't be written, its exchange failed, or its reply says no such thing as it has to.
    Wire(Error),
    /// An earlier [`Cursor::advance`](crate::Cursor::advance) of this cursor was refused.
    Failed,
}

impl CursorError {
    /// A copy of the error.
    pub fn try_clone(&self, alloc: Global) -> Result<CursorError, BsonFault>
        ensures copied { IfOk result (λ error. error ≡ self.now) }
        ensures refused { IfErr result (λ fault. fault ≡ BsonFault.OutOfMemory) }
    {
        let copy = match self {
            CursorError::Wire(error) => CursorError::Wire(error.try_clone(alloc)?),
            CursorError::Failed => CursorError::Failed,
        };
        Ok(copy)
    }
}

impl From<Error> for CursorError {
    ghost use Rattle.mongo_cursor.specs.declared.cursor_error.CursorError.TheVariants.{Wire};

    ghost from_gives = { λ error result. result ≡ Wire error };

    fn from(error: Error) -> CursorError {
        CursorError::Wire(error)
    }
}

impl From<BsonFault> for CursorError {
    ghost use Rattle.mongo_cursor.specs.declared.cursor_error.CursorError.TheVariants.{Wire};

    ghost from_gives = { λ fault result. result ≡ Wire (record { kind = kind_of_fault fault }) };

    fn from(fault: BsonFault) -> CursorError {
        CursorError::Wire(Error::from(fault))
    }
}
