//! Inserts of many documents, in batches that the server takes, over a connection that is logged in.
//!
//! An insert is one command a batch: its body names the collection, and the documents stand in a sequence beside it, as they
//! are handed in. [`insert_many`] cuts a list into batches, each as great as the server's limits of count and size allow,
//! sends them one after another, and adds up what the replies say. An ordered insert ends with the first batch that had
//! refused writes.
//!
//! Proved: the frames written are those of the cut, up to the stop, with one reply taken for each, and the outcome is what the
//! replies say, with each refused write at its place in the list. A refusal has its cause, in the order in which the causes are
//! tested: one before the first byte leaves the link untouched, and a later one says what was done before it.
//! `specs/Cut.antt` and `specs/InsertMany.antt` say so.
#![tactic(auto)]

mod batch;
mod batches;
mod exec_error;
mod insert_command;
mod insert_outcome;
mod insert_reply;
mod inserting;
mod plan;
mod tally;

pub use exec_error::{ExecError, InsertFault};
pub use insert_outcome::{InsertOutcome, WriteConcernErrors};
pub use inserting::insert_many;
