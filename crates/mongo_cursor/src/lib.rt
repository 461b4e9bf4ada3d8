//! Cursors: the documents that a server gives in batches, over a connection that is logged in.
//!
//! The reply to a command like `find` holds a first batch of documents, the cursor's id and the namespace that it is in; an id
//! of 0 says that the server has nothing more. Else a `getMore` of that id asks for the next batch, whose reply says the id
//! again. [`Cursor::new`] sends the command, [`Cursor::advance`] hands out one document after another, and [`Cursor::close`]
//! has the server forget a cursor that isn't read to its end (`killCursors`).
//!
//! Proved: the documents handed out, followed by those still held, are the batches of the replies joined, each document once and
//! in order; before each reply one `getMore` of the last id was sent, and nothing where none is due. A refusal has its cause,
//! and a cursor of which an `advance` was refused answers `Failed` from then on. `specs/Batch.antt` says what a batch is, and
//! `specs/Cursors.antt` the rest.
#![tactic(auto)]

mod batch;
mod commands;
mod cursor;
mod cursor_error;
mod document_queue;
mod exchanges;
mod namespace;

pub use cursor::{Advance, Cursor};
pub use cursor_error::CursorError;
