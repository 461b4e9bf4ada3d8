ghost use Rattle.std.specs.Prelude.{◌≡◌};
ghost use Rattle.mongo_bson.specs.declared.fault.BsonFault.TheVariants.{OutOfMemory};

use std::alloc::{AllocError, AllocFailed};
use thiserror::Error;

/// Why a call on documents or texts was refused.
#[derive(Clone, Copy, Debug, PartialEq, Eq, Error)]
pub enum BsonFault {
    /// The bytes are no document, or no elements of one, by BSON 1.1.
    #[error("the bytes are no BSON document")]
    Malformed,
    /// A key holds a zero byte, which would end it early.
    #[error("a key holds a zero byte")]
    KeyHasZero,
    /// The document would be longer than 2147483647 bytes, the greatest `int32`.
    #[error("the document would pass 2147483647 bytes")]
    TooLong,
    /// A key stands in both documents.
    #[error("a key stands in both documents")]
    DuplicateKey,
    /// An update document has no element.
    #[error("an update document is empty")]
    UpdateEmpty,
    /// The first key of an update document doesn't begin with `$`.
    #[error("an update document has no modifiers")]
    UpdateNotModifiers,
    /// The first key of a replacement document begins with `$`.
    #[error("a replacement document has modifiers")]
    ReplacementHasModifiers,
    /// Memory ran out.
    #[error("out of memory")]
    OutOfMemory,
}

impl From<AllocError> for BsonFault {
    ghost from_gives = { λ _ fault. fault ≡ OutOfMemory };

    fn from(_error: AllocError) -> BsonFault {
        BsonFault::OutOfMemory
    }
}

impl<T: Drop> From<AllocFailed<T>> for BsonFault {
    ghost from_gives = { λ _ fault. fault ≡ OutOfMemory };

    fn from(_error: AllocFailed<T>) -> BsonFault {
        BsonFault::OutOfMemory
    }
}
