ghost use Rattle.std.specs.Prelude.{◌≡◌, IfOk, IfErr};
ghost use Rattle.mongo_wire.specs.Error.{kind_of_fault, kind_of_frame_fault, kind_of_sink_error};

use crate::{
    ArgumentFault, AuthFault, CommandError, FrameFault, InsertManyError, ResponseFault, SinkError,
    WriteFailure,
};
use mongo_bson::{BsonFault, Text};
use std::alloc::{AllocError, AllocFailed, Global};

/// Why a call was refused.
#[derive(Debug, Drop)]
pub struct Error {
    /// The cause.
    pub kind: ErrorKind,
}

impl Error {
    /// A copy of the error.
    pub fn try_clone(&self, alloc: Global) -> Result<Error, BsonFault>
        ensures copied { IfOk result (λ error. error ≡ self.now) }
        ensures refused { IfErr result (λ fault. fault ≡ BsonFault.OutOfMemory) }
    {
        Ok(Error {
            kind: self.kind.try_clone(alloc)?,
        })
    }
}

/// The causes of a refusal.
#[derive(Debug, Drop)]
pub enum ErrorKind {
    /// What was handed in can't be used.
    InvalidArgument(ArgumentFault),
    /// The server's reply isn't what it has to be.
    InvalidResponse(ResponseFault),
    /// The server answered that the command failed.
    Command(CommandError),
    /// The login was refused.
    Authentication(AuthFault),
    /// The server doesn't fit what was asked for: a load balancer that names no service.
    IncompatibleServer,
    /// A single write was refused.
    Write(WriteFailure),
    /// Something of an insert was refused.
    InsertMany(InsertManyError),
    /// The link failed to read; its count of read faults rose.
    ReadFault,
    /// The link failed to write or flush; its count of write faults rose.
    WriteFault,
    /// The link ended before the bytes that were awaited; its count of ends rose.
    EndOfInput,
    /// The helper's callback failed, with its text.
    Callback(Text),
    /// The password has a character past ASCII, which isn't prepared here.
    PasswordNotAscii,
    /// Memory ran out.
    OutOfMemory,
}

impl ErrorKind {
    /// A copy of the cause.
    pub fn try_clone(&self, alloc: Global) -> Result<ErrorKind, BsonFault>
        ensures copied { IfOk result (λ kind. kind ≡ self.now) }
        ensures refused { IfErr result (λ fault. fault ≡ BsonFault.OutOfMemory) }
    {
        let copy = match self {
            ErrorKind::InvalidArgument(fault) => ErrorKind::InvalidArgument(*fault),
            ErrorKind::InvalidResponse(fault) => ErrorKind::InvalidResponse(*fault),
            ErrorKind::Command(error) => ErrorKind::Command(error.try_clone(alloc)?),
            ErrorKind::Authentication(fault) => ErrorKind::Authentication(fault.try_clone(alloc)?),
            ErrorKind::IncompatibleServer => ErrorKind::IncompatibleServer,
            ErrorKind::Write(failure) => ErrorKind::Write(failure.try_clone(alloc)?),
            ErrorKind::InsertMany(error) => ErrorKind::InsertMany(error.try_clone(alloc)?),
            ErrorKind::ReadFault => ErrorKind::ReadFault,
            ErrorKind::WriteFault => ErrorKind::WriteFault,
            ErrorKind::EndOfInput => ErrorKind::EndOfInput,
            ErrorKind::Callback(text) => ErrorKind::Callback(text.try_clone(alloc)?),
            ErrorKind::PasswordNotAscii => ErrorKind::PasswordNotAscii,
            ErrorKind::OutOfMemory => ErrorKind::OutOfMemory,
        };
        Ok(copy)
    }
}

impl From<ErrorKind> for Error {
    ghost from_gives = { λ kind error. error.kind ≡ kind };

    fn from(kind: ErrorKind) -> Error {
        Error { kind }
    }
}

impl From<BsonFault> for Error {
    ghost from_gives = { λ fault error. error.kind ≡ kind_of_fault fault };

    fn from(fault: BsonFault) -> Error {
        let kind = match fault {
            BsonFault::OutOfMemory => ErrorKind::OutOfMemory,
            fault => ErrorKind::InvalidArgument(ArgumentFault::Bson(fault)),
        };
        Error { kind }
    }
}

impl From<AllocError> for Error {
    ghost use Rattle.mongo_wire.specs.declared.error.ErrorKind.TheVariants.{OutOfMemory};

    ghost from_gives = { λ _ error. error.kind ≡ OutOfMemory };

    fn from(_error: AllocError) -> Error {
        Error {
            kind: ErrorKind::OutOfMemory,
        }
    }
}

impl<T: Drop> From<AllocFailed<T>> for Error {
    ghost use Rattle.mongo_wire.specs.declared.error.ErrorKind.TheVariants.{OutOfMemory};

    ghost from_gives = { λ _ error. error.kind ≡ OutOfMemory };

    fn from(_error: AllocFailed<T>) -> Error {
        Error {
            kind: ErrorKind::OutOfMemory,
        }
    }
}

impl From<FrameFault> for Error {
    ghost from_gives = { λ fault error. error.kind ≡ kind_of_frame_fault fault };

    fn from(fault: FrameFault) -> Error {
        let kind = match fault {
            FrameFault::ReadFault => ErrorKind::ReadFault,
            FrameFault::EndOfInput => ErrorKind::EndOfInput,
            FrameFault::OutOfMemory => ErrorKind::OutOfMemory,
            FrameFault::InvalidArgument(fault) => ErrorKind::InvalidArgument(fault),
            FrameFault::InvalidResponse(fault) => ErrorKind::InvalidResponse(fault),
        };
        Error { kind }
    }
}

impl From<SinkError> for Error {
    ghost from_gives = { λ fault error. error.kind ≡ kind_of_sink_error fault };

    fn from(fault: SinkError) -> Error {
        let kind = match fault {
            SinkError::Failed => ErrorKind::WriteFault,
            SinkError::OutOfMemory => ErrorKind::OutOfMemory,
        };
        Error { kind }
    }
}
