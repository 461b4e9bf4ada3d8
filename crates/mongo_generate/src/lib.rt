//! Logins by SCRAM (RFC 5802, over SHA-1 and SHA-256) in memory: a client of `mongo_establish` and a server of
//! `mongo_server`, which both accept.
//!
//! 1. [`UserLogin`] is who logs in, and by which nonce. [`UserLogin::generated`] is the login of a number, and [`generated_server`]
//!    the server that knows its user.
//! 2. [`Client::log_in`] lets the client log in to the server, over a link in memory.
//! 3. [`generate`] makes so many logins one after another, with one cache of salted passwords, and answers how many both
//!    sides accepted, the rounds of Hi that were derived, and one digest of all last messages.
//!
//! Proved: where a login and a server are of one possible authentication, both sides accept, or memory runs out; `generate` answers
//! the numbers and the digest that `specs/Generated.antt` gives. Want of memory is the only refusal of each call.
#![tactic(auto)]

mod acceptance;
mod log_in;
mod logins;
mod numbering;
mod options;
mod replies;
mod user_login;
mod written;

pub use acceptance::Acceptance;
pub use logins::{Generated, generate};
pub use numbering::generated_server;
pub use options::Client;
pub use user_login::UserLogin;
