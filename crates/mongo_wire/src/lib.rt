//! OP_MSG frames over a link that is handed in, by the OP_MSG specification, and the errors of this workspace.
//!
//! A frame is a header of 16 bytes (`int32` length, request id, response-to and op code 2013), a `uint32` of flags,
//! sections (one of kind 0, which holds the body, and any number of document sequences of kind 1), and an optional
//! `uint32` checksum. `specs/Frame.antt` says so, both kinds of section and the checksum included; `specs/Bytes.antt`
//! says what it means that commands and replies stand on a link as frames one after another.
//!
//! The outside is three traits: a [`Source`] gives bytes, a [`Sink`] takes them, a [`Link`] does both. What they mean
//! stands on their calls: told bytes are lists, counts of faults and ends never fall.
//!
//! A [`FrameBuffer`] reads one frame after another into the same memory and lends itself to the [`MessageRef`] that shows the frame; a
//! [`Message`] owns its parts, and is what is written.
//!
//! Proved: bytes begin with at most one frame, and a read takes just that frame or answers the first row of
//! `specs/Rows.antt` that the bytes call for; what was taken by then is said, and nothing past it is read. A message's
//! write appends just its frame and flushes it, or leaves a front of it. A fault of the outside is answered only where its count rose.
//!
//! A call that reads into memory or copies may answer want of memory, in the place of any other answer; where nothing else is
//! said, that is its only refusal.
#![tactic(auto)]

mod auth_fault;
mod command_error;
mod copies;
mod count_reader;
mod document_sequence;
mod error;
mod failing_link;
mod fault;
mod frame_buffer;
mod frames;
mod header;
mod held_frame;
mod joined_document;
mod measure;
mod memory_link;
mod message;
mod message_flags;
mod message_ref;
mod op_code;
mod outside;
mod raw_sections;
mod read_document;
mod reading;
mod request_ids;
mod sections;
mod standard;
mod sync_read;
mod write_error;
mod write_message;
mod writing;

pub use auth_fault::AuthFault;
pub use command_error::CommandError;
pub use count_reader::SyncCountReader;
pub use document_sequence::{DocumentSequence, Sequences};
pub use error::{Error, ErrorKind};
pub use failing_link::FailingLink;
pub use fault::{ArgumentFault, FrameFault, ResponseFault};
pub use frame_buffer::FrameBuffer;
pub use frames::{next_frame, read_frame};
pub use header::Header;
pub use memory_link::MemoryLink;
pub use message::Message;
pub use message_flags::MessageFlags;
pub use message_ref::MessageRef;
pub use op_code::OpCode;
pub use outside::{Failed, Link, Outside, Sink, SinkError, Source};
pub use raw_sections::write_sections;
pub use read_document::read_document_bytes;
pub use reading::{fill_or_end, take_into};
pub use request_ids::RequestIds;
pub use standard::{StdLink, StdSink, StdSource};
pub use sync_read::SyncLittleEndianRead;
pub use write_error::{
    IndexedWriteError, InsertManyError, WriteConcernError, WriteError, WriteErrors, WriteFailure,
    WriteFailureCause,
};
pub use writing::write_all;
