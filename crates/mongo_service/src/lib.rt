//! A MongoDB server over one link: a frame is taken and answered before the next is read.
//!
//! In the order of the wire:
//!
//! ```text
//! first line    the settings, a JSON object, read byte by byte
//! OP_QUERY      hello of an old client, on admin.$cmd          OP_REPLY     what the server is
//! OP_MSG        a document that asks                           OP_MSG       the document that answers, or nothing where more is to come
//! ```
//!
//! 1. [`run::run`] reads the settings from the link's first line, serves the client that follows, and says on another sink how that
//!    ended. [`run::run_counted`] is the same with a counter of its own, which the program calls.
//! 2. A header is read first, since an OP_QUERY is read another way than an OP_MSG; then what follows it. Nothing is read past the last
//!    frame.
//! 3. What a document asks and what it is answered is `mongo_session`'s; this crate takes frames, and sends and flushes replies numbered
//!    from 1.
//! 4. It ends where the client ends its stream between two frames, or at the first fault; [`ServeStatus`] says which.
//!
//! Proved (`specs/Run.antt`, `specs/Served.antt`): the frames that were taken carry requests, one after another, and what was sent are
//! the replies to just these, each the session's answer, flushed; the last may be cut, and then the fault that cut it is said
//! (`specs/Cut.antt`). Who is logged in at the end has sent, among just these requests, the messages of a login of the settings. A run
//! with words after the program's name reads and writes nothing.
#![tactic(auto)]

mod fault;
mod query;
mod reading;
mod report;
mod respond;
pub mod run;
mod serve;
mod settings_line;
mod status;

pub use status::ServeStatus;
