//! The server of SCRAM (RFC 5802, over SHA-1 and SHA-256), without a connection: it answers the two messages of a client.
//!
//! In the order of the wire:
//!
//! ```text
//! client first:  n,,n=user,r=fyko+d2lbbFgONRv9qkxdawL
//! server first:  r=fyko+d2lbbFgONRv9qkxdawL3rfcNHYJY1ZVvWVs7j,s=QSXCR+Q6sek8bf92,i=4096
//! client final:  c=biws,r=fyko+d2lbbFgONRv9qkxdawL3rfcNHYJY1ZVvWVs7j,p=v0X8v3Bz2T0CJGbJQyF0X+HI4Ts=
//! server final:  v=rmF9pqV8S7suAoZWja4dJRkFsKQ=
//! ```
//!
//! 1. [`ServerUser::new`] derives a user's keys from its password once, and keeps the keys alone. [`ServerCore::new`] takes
//!    the user, and the suffix that the server adds to a client's nonce ([`is_nonce`]).
//! 2. [`ServerCore::first`] reads the client's first message, and answers the server's: the joined nonce, the salt and the
//!    iteration count. The conversation has begun.
//! 3. [`ServerCore::last`] reads the client's last message. Its proof is compared as a whole with the one that the client
//!    owes, and the server's last message answers it.
//! 4. [`ServerCore::expected_final`] is that last message, for a peer that wants to know it before.
//! 5. [`CONVERSATION_NUMBER`], [`MAXIMUM_MESSAGE_LENGTH`] and [`MAXIMUM_DOCUMENT_LENGTH`] are what a server says around these messages.
//!
//! It is the mirror of `mongo_scram`: the messages are those of its `specs/Messages.antt`, read from the other side.
//!
//! Proved: a message of a client is read where it is one, and else refused by the first of its rows; the server accepts
//! exactly the proof that the client owes; and the client that knows the password accepts in turn: what is answered is what
//! it reads and demands, so that a login which hears these payloads is a conversation of `mongo_scram`.
#![tactic(auto)]

mod announced;
mod fault;
mod messages;
mod parse;
mod server_core;
mod user;
mod user_name;

pub use announced::{CONVERSATION_NUMBER, MAXIMUM_DOCUMENT_LENGTH, MAXIMUM_MESSAGE_LENGTH};
pub use fault::ServerFault;
pub use parse::is_nonce;
pub use server_core::ServerCore;
pub use user::ServerUser;
