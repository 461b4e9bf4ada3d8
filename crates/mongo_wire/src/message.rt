ghost use Rattle.std.specs.Prelude.{◌≡◌, [], ℕ, List, ◌++◌, None, Some, length, IfOk, IfErr, OnOk};
ghost use Rattle.mongo_wire.specs.Outside.{ReadsOn, WritesOn};
ghost use Rattle.mongo_wire.specs.Frame.{Frame, IsFrame};
ghost use Rattle.mongo_wire.specs.Buffer.{HoldsFrame, held_bytes};
ghost use Rattle.mongo_wire.specs.Copies.{CopiesSequences};
ghost use Rattle.mongo_wire.specs.Header.{maximum_of};
ghost use Rattle.mongo_wire.specs.Message.{IsRead, ReadRefused, ReadsAgain, WhereFrameStands, Writes, WriteRefused, IsFrameOf, TellsChecksum, written_frame, id_of, id_after};
ghost use Rattle.mongo_wire.specs.Ref.{IsOwned};
ghost use Rattle.mongo_wire.specs.declared.fault.ArgumentFault.{ArgumentFault};
ghost use Rattle.mongo_wire.specs.declared.error.ErrorKind.TheVariants.{InvalidArgument};

use crate::measure::measured;
use crate::write_message::{write_before_checksum, write_checksum};
use crate::writing::flush_out;
use crate::{
    Error, ErrorKind, FrameBuffer, FrameFault, MessageFlags, RequestIds, Sequences, Sink, Source,
};
use mongo_bson::{BsonFault, RawDocumentBuf};
use std::alloc::Global;

/// The greatest frame where no maximum is given: 48 MiB.
pub(crate) const DEFAULT_MAX_MESSAGE_SIZE_BYTES: i32 = 50_331_648;

/// An OP_MSG.
#[derive(Debug, Drop)]
pub struct Message {
    /// The body: the document of the section of kind 0.
    pub document_payload: RawDocumentBuf,
    /// The sections of kind 1, in their order.
    pub document_sequences: Sequences,
    /// The id of the message that this one answers, or 0.
    pub response_to: i32,
    /// The flags.
    pub flags: MessageFlags,
    /// The checksum, which is carried and not judged.
    pub checksum: Option<u32>,
    /// The id to write the message with; where there is none, one is drawn. A message that was read has none.
    pub request_id: Option<i32>,
}

impl Message {
    /// A copy of the message.
    pub fn try_clone(&self, alloc: Global) -> Result<Message, BsonFault>
        ensures copied { IfOk result (λ message. message ≡ self.now) }
        ensures refused { IfErr result (λ fault. fault ≡ BsonFault.OutOfMemory) }
    {
        Ok(Message {
            document_payload: self.document_payload.try_clone(alloc)?,
            document_sequences: self.document_sequences.try_clone(alloc)?,
            response_to: self.response_to,
            flags: self.flags,
            checksum: self.checksum,
            request_id: self.request_id,
        })
    }

    /// Reads the next frame of the source, of at most `maximum` bytes, 50331648 where none is given. The message has no
    /// request id.
    ///
    /// Refusals, in this order, each with nothing taken past what shows it: `EndOfInput` within the 16 bytes of the header;
    /// `OpCode` of an unknown op code; `OverMaximum` where the length passes the maximum; `Compressed` of an OP_COMPRESSED,
    /// `NotMessage` of an OP_REPLY or OP_QUERY; `CheckedFailure` where the length is below 16; `EndOfInput` within the frame;
    /// `Sections` where the frame isn't in the grammar of OP_MSG. `ReadFault` where the source failed.
    pub fn read_from<S: Source>(
        alloc: Global,
        source: &mut S,
        maximum: Option<i32>,
    ) -> Result<Message, Error>
        // What was read is a frame of the grammar within the maximum, and nothing after it was taken.
        ensures read { IfOk result (IsRead (maximum_of maximum) (S.state source.old) (S.state source.new)) }
        // Each refusal is the first row of the table that applies, and has taken what shows it.
        ensures refused { IfErr result (λ e. ReadRefused e.kind (maximum_of maximum) (S.state source.old) (S.state source.new)) }
        // A frame within the maximum is read, whatever follows it.
        ensures again { WhereFrameStands (maximum_of maximum) (S.state source.old) (λ frame rest parts. ReadsAgain parts rest (S.state source.new).left result) }
        // That is one frame and no other: none is a front of another.
        ensures alone { (frame more : List ℕ) (parts other : Frame) → IsFrame frame parts → IsFrame (frame ++ more) other → more ≡ [] }
        ensures on { ReadsOn (S.state source.old) (S.state source.new) }
    {
        let mut buffer = FrameBuffer::new(alloc);
        let mut copies = Some(Sequences::new(alloc));
        match buffer.take_next_frame(source, maximum, &mut copies) {
            Ok(true) => Ok(Message::of_frame(buffer, copies)),
            Ok(false) => Err(FrameFault::EndOfInput.into()),
            Err(fault) => Err(fault.into()),
        }
    }

    // The message of the frame that the buffer holds, of whose sequences these are the copies. Its body keeps the buffer's
    // memory.
    fn of_frame(buffer: FrameBuffer, copies: Option<Sequences>) -> Message
        requires holds { (frame : List ℕ) × (parts : Frame) × HoldsFrame frame parts buffer }
        requires copied { CopiesSequences (held_bytes buffer) (Some []) copies }
        ensures { (frame : List ℕ) (parts : Frame) → HoldsFrame frame parts buffer → IsOwned parts result }
    {
        let Some(message) = buffer.message() else {
            unreachable!()
        };
        let Some(document_sequences) = copies else {
            unreachable!()
        };
        let response_to = message.header.response_to;
        let flags = message.flags;
        let checksum = message.checksum;
        Message {
            document_payload: buffer.into_document(),
            document_sequences,
            response_to,
            flags,
            checksum,
            request_id: None,
        }
    }

    /// Writes the message as one frame and flushes the sink: header, flags, body, sequences and checksum one after another.
    /// Where it has no request id, the next one is drawn. It takes no memory of its own.
    ///
    /// Refusals, in this order: `IdentifierHasZero` where an identifier holds a zero byte, `SequenceTooLong` where the size of
    /// a sequence passes 2147483647, `MaximumNegative`, `TooLong` where the frame passes the maximum, 50331648 where none is
    /// given, each with nothing written and no id drawn; then `WriteFault` or the sink's want of memory, with a front of the
    /// frame written.
    pub fn write_op_msg_to<K: Sink>(
        &self,
        _alloc: Global,
        sink: &mut K,
        maximum: Option<i32>,
        ids: &mut RequestIds,
    ) -> Result<(), Error>
        ensures written { OnOk result (Writes (maximum_of maximum) self.now (K.state sink.old) (K.state sink.new) ids.old ids.new) }
        // It is a frame of the grammar, where its flags tell of its checksum.
        ensures frame { OnOk result (TellsChecksum self.now → IsFrameOf (id_of self.now ids.old) self.now (written_frame (id_of self.now ids.old) self.now)) }
        ensures refused { IfErr result (λ e. WriteRefused e.kind (maximum_of maximum) self.now (K.state sink.old) (K.state sink.new) ids.old ids.new) }
        // Nothing is done where the message is refused before its id is drawn.
        ensures untouched { (fault : ArgumentFault) → IfErr result (λ e. e.kind ≡ InvalidArgument fault → sink.new ≡ sink.old) }
        ensures on { WritesOn (K.state sink.old) (K.state sink.new) }
    {
        let length = match measured(self, maximum) {
            Ok(length) => length,
            Err(fault) => return Err(ErrorKind::InvalidArgument(fault).into()),
        };
        let id = self.drawn_id(ids);
        write_before_checksum(sink, self, id, length)?;
        write_checksum(sink, self.checksum)?;
        flush_out(sink)
    }

    // The id to write the message with: its own, or the next one.
    fn drawn_id(&self, ids: &mut RequestIds) -> i32
        ensures id { result ≡ id_of self.now ids.old }
        ensures drawn { ids.new ≡ id_after self.now.request_id ids.old }
    {
        match self.request_id {
            Some(id) => id,
            None => ids.draw(),
        }
    }
}
