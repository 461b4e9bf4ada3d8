//! SCRAM, the login by challenge and response of RFC 5802, over SHA-1 and SHA-256 (RFC 7677), as MongoDB's authentication
//! specification has it.
//!
//! The client says its user name and a nonce; the server answers with a longer nonce, a salt and an iteration count; both
//! derive a key from the password, and each proves to the other that it knows the key:
//!
//! ```text
//! client first:  n,,n=user,r=fyko+d2lbbFgONRv9qkxdawL
//! server first:  r=fyko+d2lbbFgONRv9qkxdawL3rfcNHYJY1ZVvWVs7j,s=QSXCR+Q6sek8bf92,i=4096
//! client final:  c=biws,r=fyko+d2lbbFgONRv9qkxdawL3rfcNHYJY1ZVvWVs7j,p=v0X8v3Bz2T0CJGbJQyF0X+HI4Ts=
//! server final:  v=rmF9pqV8S7suAoZWja4dJRkFsKQ=
//! ```
//!
//! [`ClientFirst`] and [`ClientFinal`] are what the client says, [`ServerFirst`] and [`ServerFinal`] what it hears.
//! [`ScramVersion::compute_salted_password`] derives the key, [`Keys`] are what both sides sign with, and [`SaltedCache`]
//! keeps them for the next login.
//! [`ScramVersion::authenticate_stream`] is the whole of it, over a connection.
//!
//! Proved: each message is RFC 5802's equation over lists of bytes, which `specs/Messages.antt` states; a message of the
//! server is read where it is one, and else refused by the first of its rows; the derivation takes exactly as many steps as
//! the count says; the verifier is equal as a whole; each entry of the cache is the salted password of its whole key. A login
//! is accepted exactly after the commands and replies of a SCRAM conversation, and a refused one says why, what it left and
//! whether the key was derived; `specs/Plan.antt` states the conversation turn by turn, `specs/Script.antt` as whole lists.
//! Want of memory is the one refusal without a cause.
#![tactic(auto)]

pub mod attributes;
mod auth_info;
mod base64_text;
mod cache;
mod client_texts;
mod conversation;
mod derivation;
mod first_round;
mod key;
mod keys;
mod login;
mod messages;
mod parse;
mod salted_password;
mod scram_version;
mod server_final;
mod server_first;
mod signing_key;
mod user_name;

pub use auth_info::ClientAuthInfo;
pub use base64_text::{decoded, encoded};
pub use cache::{SaltedCache, SaltedKey};
pub use client_texts::transcript_text;
pub use first_round::FirstRound;
pub use keys::Keys;
pub use messages::{ClientFinal, ClientFirst, nonce_text};
pub use parse::cut;
pub use scram_version::ScramVersion;
pub use server_final::{ServerFinal, ServerFinalBody};
pub use server_first::{MIN_ITERATION_COUNT, ServerFirst};
pub use user_name::saslname;
