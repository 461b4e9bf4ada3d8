//! What a MongoDB client asks a server that it logs in to, and what it is answered: documents in, documents out, without a connection.
//!
//! In the order of the wire, each line a document:
//!
//! ```text
//! hello, saslSupportedMechs: "admin.user"              what the server is, and the mechanisms of that user
//! saslStart, mechanism, payload: client first          conversationId: 1, done: false, payload: server first
//! saslContinue, conversationId: 1, payload: client final   .. done: false, payload: server final
//! saslContinue, conversationId: 1, payload: empty      .. done: true, payload: empty
//! ping                                                 ok: 1
//! ```
//!
//! 1. [`serve_settings_of`] reads who may log in, of one JSON object: [`ServeSettings`], an [`Account`] for each mechanism of a user.
//! 2. [`request_of`] reads what a document asks for, a [`Request`], by the document's first key. It takes no memory.
//! 3. [`answer_request`] answers it in a [`Session`], which keeps who is logged in and the login that goes on. A hello may carry a
//!    login's first message ([`answer_hello`]), and a login may ask to end without the empty exchange.
//! 4. [`document_of_reply`] is the document that says the [`Reply`].
//!
//! Want of memory is the one refusal of a step, `BsonFault::OutOfMemory`; a reply's document may be too long as well.
//!
//! Proved: a text is read as the settings that it says, and refused where it says none (`specs/ServeSettings.antt`); a request is what
//! its document asks for, by the first element of each key (`specs/Requests.antt`); a `saslStart` is answered exactly where it asks for
//! an authentication of the settings, and a `saslContinue` exactly where it closes or ends the login that goes on (`specs/Sasl.antt`); only a
//! hello and the commands of a login are answered before somebody is logged in (`specs/Answers.antt`); who is logged in has sent, among
//! the requests so far, the messages of a login of the settings, byte for byte, by its mechanism and in its conversation
//! (`specs/Login.antt`); and the documents of the replies are those of `specs/Replies.antt`.
#![tactic(auto)]

mod answer;
mod command_names;
mod hello_document;
mod reply;
mod reply_document;
mod request;
mod serve_settings;
mod session;
mod start;

pub use answer::{answer_hello, answer_request};
pub use reply::{HelloAnswer, Mechanisms, RefusedCommand, Reply, SaslReply};
pub use reply_document::document_of_reply;
pub use request::{
    ContinueRequest, Hello, Request, StartRequest, command_name, inner_document, request_of,
};
pub use serve_settings::{Account, Accounts, ServeSettings, ServeSettingsError, serve_settings_of};
pub use session::{PendingLogin, Session};
