//! A proxy for OP_MSG: it stands between a client and a server, and passes on the frames of both.
//!
//! It turns a frame's ids and drops its checksum, which covers them; every section goes on byte for byte. A command goes to the server
//! under an id that the proxy draws. Where it lacks `MORE_TO_COME`, replies are taken from the server up to the first that lacks it,
//! and go to the client; one that responds to the drawn id responds to the command's own there.
//!
//! ```text
//! client                        proxy                         server
//!   command, id 9           ->  command, id 100           ->
//!                           <-  reply to 9                <-  reply to 100
//! ```
//!
//! Proved (`specs/Relays.antt`): what each side was sent, byte for byte, and what was read of it, however the call ends. The frames that
//! were passed on follow each other as `specs/RelayedFrames.antt` says, and no two commands among fewer than 4294967296 have the same id.
//! A refusal is the first fault that was met, with its side and what it left (`specs/Stops.antt`). Two sides that behave are relayed to
//! the end (`specs/Script.antt`).
//!
//! A side's frames are read into one buffer, one after another, and written from it; so memory is bounded by the greatest frame of each
//! side, and grows only as its bytes come.
#![tactic(auto)]

mod awaited;
mod passing;
mod relayed;
mod relaying;

pub use relayed::{RelayFault, Relayed, Side};
pub use relaying::relay;
