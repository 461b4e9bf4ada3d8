ghost use Rattle.std.specs.Prelude.{◌≡◌};
ghost use Rattle.mongo_server.specs.declared.fault.ServerFault.TheVariants.{OutOfMemory};

use std::alloc::AllocError;
use thiserror::Error;

/// Why a server refused a message.
#[derive(Debug, Drop, Error, Clone, Copy, PartialEq, Eq)]
pub enum ServerFault {
    /// The bytes are no message of a client.
    #[error("the bytes are no message of a client")]
    Malformed,
    /// The client names another user.
    #[error("the client names another user")]
    UnknownUser,
    /// The client's last message is of another nonce.
    #[error("the message is of another nonce")]
    Nonce,
    /// The proof is another one than the client owes.
    #[error("the proof is another one")]
    Proof,
    /// No conversation has begun.
    #[error("no conversation has begun")]
    NotStarted,
    /// Memory ran out.
    #[error("out of memory")]
    OutOfMemory,
}

impl From<AllocError> for ServerFault {
    ghost from_gives = { λ _ fault. fault ≡ OutOfMemory };

    fn from(_error: AllocError) -> ServerFault {
        ServerFault::OutOfMemory
    }
}
