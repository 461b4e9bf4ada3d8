ghost use Rattle.std.specs.Prelude.{◌≡◌};
ghost use Rattle.mongo_service.specs.Faults.{fault_of_bson, fault_of_frame, fault_of_kind, fault_of_sink, IsOfBuilding, IsOfWriting};
ghost use Rattle.mongo_service.specs.declared.fault.ServeFault.TheVariants.{OutOfMemory};

use mongo_bson::BsonFault;
use mongo_wire::{Error, ErrorKind, FrameFault, SinkError};
use std::alloc::{AllocError, AllocFailed};

/// Why a server left its stream before the client ended it.
#[derive(Clone, Copy, Debug, PartialEq, Eq)]
pub enum ServeFault {
    /// The link failed to give bytes; its count of read faults rose.
    ReadFault,
    /// The link failed to take bytes; its count of write faults rose.
    WriteFault,
    /// The client ended its stream within a frame; the link's count of ends rose.
    CutFrame,
    /// What came is no frame of at most 48000000 bytes that is read: no OP_MSG, and no OP_QUERY of one document on `admin.$cmd`.
    NoFrame,
    /// An OP_QUERY asked for another command than hello.
    NoHello,
    /// A reply would be a frame of more than 48000000 bytes, the greatest that a hello announces.
    ReplyTooLong,
    /// 18446744073709551615 requests came.
    TooManyRequests,
    /// Memory ran out.
    OutOfMemory,
}

impl From<AllocError> for ServeFault {
    ghost from_gives = { λ _ fault. fault ≡ OutOfMemory };

    fn from(_error: AllocError) -> ServeFault {
        ServeFault::OutOfMemory
    }
}

impl<T: Drop> From<AllocFailed<T>> for ServeFault {
    ghost from_gives = { λ _ fault. fault ≡ OutOfMemory };

    fn from(_error: AllocFailed<T>) -> ServeFault {
        ServeFault::OutOfMemory
    }
}

impl From<FrameFault> for ServeFault {
    ghost from_gives = { λ given fault. fault ≡ fault_of_frame given };

    fn from(fault: FrameFault) -> ServeFault {
        match fault {
            FrameFault::ReadFault => ServeFault::ReadFault,
            FrameFault::EndOfInput => ServeFault::CutFrame,
            FrameFault::OutOfMemory => ServeFault::OutOfMemory,
            FrameFault::InvalidArgument(_) | FrameFault::InvalidResponse(_) => ServeFault::NoFrame,
        }
    }
}

impl From<SinkError> for ServeFault {
    ghost from_gives = { λ given fault. fault ≡ fault_of_sink given };

    fn from(fault: SinkError) -> ServeFault {
        match fault {
            SinkError::Failed => ServeFault::WriteFault,
            SinkError::OutOfMemory => ServeFault::OutOfMemory,
        }
    }
}

/// What it is to the server that a reply's document wasn't built.
pub fn fault_of_document(fault: BsonFault) -> ServeFault
    requires { IsOfBuilding fault }
    ensures { result ≡ fault_of_bson fault }
{
    match fault {
        BsonFault::TooLong => ServeFault::ReplyTooLong,
        BsonFault::OutOfMemory => ServeFault::OutOfMemory,
        _ => unreachable!(),
    }
}

/// What it is to the server that a message wasn't written, which has its document alone: it can only be too long.
///
/// By reference: behind each arm of a `match` on an error that is owned all of its parts would be let go.
pub fn fault_of_write(error: &Error) -> ServeFault
    requires { IsOfWriting error.now.kind }
    ensures { result ≡ fault_of_kind error.now.kind }
{
    match &error.kind {
        ErrorKind::InvalidArgument(_) => ServeFault::ReplyTooLong,
        ErrorKind::WriteFault => ServeFault::WriteFault,
        ErrorKind::OutOfMemory => ServeFault::OutOfMemory,
        _ => unreachable!(),
    }
}
