ghost use denote.Follow.{follows_so};
ghost use mathlib.Core.Option.{none};
ghost use Rattle.std.specs.Borrow.{sem};
ghost use Rattle.std.specs.Prelude.{◌≡◌, Some, true, false, IfOk, IfErr, OnOk, OnErr, IfSome, IsNone, MatchResult, ⊤};
ghost use Rattle.std.specs.Io.KnownBytes.{Consumes};
ghost use Rattle.mongo_wire.specs.contracts.frame_buffer.FrameBuffer.{the_row};
ghost use Rattle.mongo_wire.specs.Error.{kind_of_frame_fault};
ghost use Rattle.mongo_wire.specs.Outside.{State, ReadsOn, Unstopped, HasEnded, HasMore, risen};
ghost use Rattle.mongo_wire.specs.Header.{maximum_of, header_bytes};
ghost use Rattle.mongo_wire.specs.Message.{ReadRefused, IsUnreadable, WhereFrameStands};
ghost use Rattle.mongo_wire.specs.Ref.{IsFrameRead, ShowsAgain, FoundAgain};
ghost use Rattle.mongo_wire.specs.Copies.{CopiesSequences};
ghost use Rattle.mongo_wire.specs.Buffer.{held_bytes, IsFrameTaken, IsCleared, FindsAgain, TakesAgain, ReadsInto, NextInto, UsesMemory, frames_taken};

use crate::held_frame::HeldFrame;
use crate::reading::{fill_or_end, take_into};
use crate::{Error, FrameBuffer, FrameFault, Header, MessageRef, ResponseFault, Sequences, Source};
use std::alloc::Global;

impl FrameBuffer {
    /// Reads the next frame of the source, of at most `maximum` bytes, 50331648 where none is given, and lends the buffer to
    /// the message that shows it.
    ///
    /// Refusals, in this order, each with nothing taken past what shows it: `EndOfInput` within the 16 bytes of the header;
    /// `OpCode` of an unknown op code; `OverMaximum` where the length passes the maximum; `Compressed` of an OP_COMPRESSED,
    /// `NotMessage` of an OP_REPLY or OP_QUERY; `CheckedFailure` where the length is below 16; `EndOfInput` within the frame;
    /// `Sections` where the frame isn't in the grammar of OP_MSG. `ReadFault` where the source failed. The buffer holds
    /// nothing then.
    pub fn read<S: Source>(
        &mut self,
        source: &mut S,
        maximum: Option<i32>,
    ) -> Result<MessageRef<'_>, FrameFault>
        // The buffer holds the frame that was taken, and nothing where none was. Its memory is for bytes that came, and none
        // of it is given back.
        ensures* after { sem 𝓛 (follows_so the_row the_row self.entry.ghost_name none (λ _ _. ⊤) (λ buffer. ReadsInto (maximum_of maximum) (S.state source.old) (S.state source.new) self.old result buffer)) }
        ensures read { IfOk result (IsFrameRead (maximum_of maximum) (S.state source.old) (S.state source.new)) }
        ensures refused { IfErr result (λ fault. ReadRefused (kind_of_frame_fault fault) (maximum_of maximum) (S.state source.old) (S.state source.new)) }
        ensures again { WhereFrameStands (maximum_of maximum) (S.state source.old) (λ frame rest parts. MatchResult result (ShowsAgain frame parts rest (S.state source.new).left) (λ fault. IsUnreadable (kind_of_frame_fault fault))) }
        ensures on { ReadsOn (S.state source.old) (S.state source.new) }
    {
        match self.take_frame(source, maximum) {
            Ok(()) => match self.message() {
                Some(message) => Ok(message),
                None => unreachable!(),
            },
            Err(fault) => Err(fault),
        }
    }

    /// Reads the next frame as [`FrameBuffer::read`] does, or None where the source ended before its first byte. The buffer
    /// holds nothing then.
    pub fn next<S: Source>(
        &mut self,
        source: &mut S,
        maximum: Option<i32>,
    ) -> Result<Option<MessageRef<'_>>, FrameFault>
        ensures* after { sem 𝓛 (follows_so the_row the_row self.entry.ghost_name none (λ _ _. ⊤) (λ buffer. NextInto (maximum_of maximum) (S.state source.old) (S.state source.new) self.old result buffer)) }
        ensures read { IfOk result (λ found. IfSome found (IsFrameRead (maximum_of maximum) (S.state source.old) (S.state source.new))) }
        ensures ended { IfOk result (λ found. IsNone found → HasEnded (S.state source.old) (S.state source.new)) }
        ensures refused { IfErr result (λ fault. ReadRefused (kind_of_frame_fault fault) (maximum_of maximum) (S.state source.old) (S.state source.new)) }
        // An end that is a refusal came after the first byte.
        ensures more { IfErr result (λ fault. HasMore (kind_of_frame_fault fault) (S.state source.old).left) }
        ensures again { WhereFrameStands (maximum_of maximum) (S.state source.old) (λ frame rest parts. MatchResult result (FoundAgain frame parts rest (S.state source.new).left) (λ fault. IsUnreadable (kind_of_frame_fault fault))) }
        ensures on { ReadsOn (S.state source.old) (S.state source.new) }
    {
        match self.take_next_frame(source, maximum, &mut None) {
            Ok(true) => match self.message() {
                Some(message) => Ok(Some(message)),
                None => unreachable!(),
            },
            Ok(false) => Ok(None),
            Err(fault) => Err(fault),
        }
    }

    /// Takes the next frame as [`FrameBuffer::read`] does, in every refusal, and doesn't lend the buffer.
    /// [`FrameBuffer::message`] shows the frame afterwards.
    pub fn take_frame<S: Source>(
        &mut self,
        source: &mut S,
        maximum: Option<i32>,
    ) -> Result<(), FrameFault>
        // What was taken is a frame of the grammar within the maximum, and nothing after it.
        ensures taken { OnOk result (IsFrameTaken (maximum_of maximum) (S.state source.old) (S.state source.new) self.new) }
        // Each refusal is the first row of the table that applies, and has taken what shows it.
        ensures refused { IfErr result (λ fault. ReadRefused (kind_of_frame_fault fault) (maximum_of maximum) (S.state source.old) (S.state source.new)) }
        // A frame within the maximum is taken, whatever follows it.
        ensures again { WhereFrameStands (maximum_of maximum) (S.state source.old) (λ frame rest parts. TakesAgain frame parts rest (S.state source.new).left self.new result) }
        ensures counted { OnOk result (frames_taken self.new ≡ risen (frames_taken self.old)) }
        ensures emptied { OnErr result (IsCleared self.old self.new) }
        // Memory is for bytes that came, for twice as many at most and one piece, and never for more than the maximum:
        // the buffer's capacity says so. None of it is given back.
        ensures memory { UsesMemory (maximum_of maximum) (S.state source.old) (S.state source.new) self.old self.new }
        ensures on { ReadsOn (S.state source.old) (S.state source.new) }
    {
        match self.take_next_frame(source, maximum, &mut None) {
            Ok(true) => Ok(()),
            Ok(false) => Err(FrameFault::EndOfInput),
            Err(fault) => Err(fault),
        }
    }

    // Takes the next frame, and says whether there was one: not where the source ended before its first byte. The buffer
    // holds nothing then. Where copies of the frame's sequences are wanted, they are made while it is judged.
    pub(crate) fn take_next_frame<S: Source>(
        &mut self,
        source: &mut S,
        maximum: Option<i32>,
        copies: &mut Option<Sequences>,
    ) -> Result<bool, FrameFault>
        ensures taken { IfOk result (λ found. found ≡ true → IsFrameTaken (maximum_of maximum) (S.state source.old) (S.state source.new) self.new) }
        // There was none where the end came before the first byte.
        ensures ended { IfOk result (λ found. found ≡ false → HasEnded (S.state source.old) (S.state source.new)) }
        ensures refused { IfErr result (λ fault. ReadRefused (kind_of_frame_fault fault) (maximum_of maximum) (S.state source.old) (S.state source.new)) }
        ensures more { IfErr result (λ fault. HasMore (kind_of_frame_fault fault) (S.state source.old).left) }
        ensures again { WhereFrameStands (maximum_of maximum) (S.state source.old) (λ frame rest parts. FindsAgain frame parts rest (S.state source.new).left self.new result) }
        ensures counted { IfOk result (λ found. found ≡ true → frames_taken self.new ≡ risen (frames_taken self.old)) }
        ensures copied { IfOk result (λ found. found ≡ true → CopiesSequences (held_bytes self.new) copies.old copies.new) }
        ensures none { IfOk result (λ found. found ≡ false → IsCleared self.old self.new) }
        ensures emptied { OnErr result (IsCleared self.old self.new) }
        ensures memory { UsesMemory (maximum_of maximum) (S.state source.old) (S.state source.new) self.old self.new }
        ensures on { ReadsOn (S.state source.old) (S.state source.new) }
    {
        self.clear();
        let mut head = [0u8; Header::LENGTH];
        match fill_or_end(source, &mut head) {
            Ok(true) => match Header::decode(&head) {
                Ok(header) => match self.take_rest(source, header, maximum, copies) {
                    Ok(()) => Ok(true),
                    Err(fault) => Err(fault),
                },
                Err(fault) => Err(FrameFault::InvalidResponse(fault)),
            },
            Ok(false) => Ok(false),
            Err(fault) => Err(fault),
        }
    }

    /// Takes the rest of a frame whose header was read before, as [`FrameBuffer::take_frame`] takes a whole frame, in every
    /// refusal but those of the header's own bytes.
    ///
    /// So whoever reads headers first, which may be of other op codes, has no bytes to put back. In the clauses `before` is what
    /// the source meant before the header.
    pub fn take_after<S: Source>(
        &mut self,
        source: &mut S,
        header: Header,
        maximum: Option<i32>,
    ) -> Result<(), FrameFault>
        ensures taken { (before : State) → Consumes before.left (S.state source.old).left (header_bytes header) → Unstopped before (S.state source.old) →
            OnOk result (IsFrameTaken (maximum_of maximum) before (S.state source.new) self.new) }
        ensures refused { (before : State) → Consumes before.left (S.state source.old).left (header_bytes header) → Unstopped before (S.state source.old) → ReadsOn before (S.state source.old) →
            IfErr result (λ fault. ReadRefused (kind_of_frame_fault fault) (maximum_of maximum) before (S.state source.new)) }
        ensures counted { OnOk result (frames_taken self.new ≡ risen (frames_taken self.old)) }
        ensures emptied { OnErr result (IsCleared self.old self.new) }
        ensures memory { UsesMemory (maximum_of maximum) (S.state source.old) (S.state source.new) self.old self.new }
        ensures on { ReadsOn (S.state source.old) (S.state source.new) }
    {
        self.take_rest(source, header, maximum, &mut None)
    }

    // Takes the rest of a frame as [`FrameBuffer::take_after`] does. Where copies of the frame's sequences are wanted, they
    // are made while it is judged.
    fn take_rest<S: Source>(
        &mut self,
        source: &mut S,
        header: Header,
        maximum: Option<i32>,
        copies: &mut Option<Sequences>,
    ) -> Result<(), FrameFault>
        ensures taken { (before : State) → Consumes before.left (S.state source.old).left (header_bytes header) → Unstopped before (S.state source.old) →
            OnOk result (IsFrameTaken (maximum_of maximum) before (S.state source.new) self.new) }
        ensures refused { (before : State) → Consumes before.left (S.state source.old).left (header_bytes header) → Unstopped before (S.state source.old) → ReadsOn before (S.state source.old) →
            IfErr result (λ fault. ReadRefused (kind_of_frame_fault fault) (maximum_of maximum) before (S.state source.new)) }
        ensures copied { OnOk result (CopiesSequences (held_bytes self.new) copies.old copies.new) }
        ensures counted { OnOk result (frames_taken self.new ≡ risen (frames_taken self.old)) }
        ensures emptied { OnErr result (IsCleared self.old self.new) }
        ensures memory { UsesMemory (maximum_of maximum) (S.state source.old) (S.state source.new) self.old self.new }
        ensures on { ReadsOn (S.state source.old) (S.state source.new) }
    {
        self.clear();
        let rest = match header.rest_within(maximum) {
            Ok(rest) => rest,
            Err(fault) => return Err(fault),
        };
        match take_into(source, &mut self.store, 0, rest) {
            Ok(()) => {}
            Err(fault) => return Err(fault),
        }
        let alloc = *self.store.allocator();
        match HeldFrame::of(alloc, header, &self.store.as_slice()[..rest], copies) {
            Ok(Some(frame)) => {
                self.keep(frame, rest);
                Ok(())
            }
            Ok(None) => Err(FrameFault::InvalidResponse(ResponseFault::Sections)),
            Err(_) => Err(FrameFault::OutOfMemory),
        }
    }
}

/// Reads the next frame of the source into the buffer. As [`FrameBuffer::read`] in every answer and refusal. The buffer has its
/// allocator; the one handed in isn't used.
pub fn read_frame<'b, S: Source>(
    _alloc: Global,
    source: &mut S,
    maximum: Option<i32>,
    buffer: &'b mut FrameBuffer,
) -> Result<MessageRef<'b>, Error>
    ensures read { IfOk result (IsFrameRead (maximum_of maximum) (S.state source.old) (S.state source.new)) }
    ensures refused { IfErr result (λ e. ReadRefused e.kind (maximum_of maximum) (S.state source.old) (S.state source.new)) }
    ensures again { WhereFrameStands (maximum_of maximum) (S.state source.old) (λ frame rest parts. MatchResult result (ShowsAgain frame parts rest (S.state source.new).left) (λ e. IsUnreadable e.kind)) }
    ensures on { ReadsOn (S.state source.old) (S.state source.new) }
{
    match buffer.read(source, maximum) {
        Ok(message) => Ok(message),
        Err(fault) => Err(fault.into()),
    }
}

/// Reads the next frame of the source into the buffer, or None where the source ended before its first byte. As
/// [`FrameBuffer::next`] in every answer and refusal. The buffer has its allocator; the one handed in isn't used.
pub fn next_frame<'b, S: Source>(
    _alloc: Global,
    source: &mut S,
    maximum: Option<i32>,
    buffer: &'b mut FrameBuffer,
) -> Result<Option<MessageRef<'b>>, Error>
    ensures read { IfOk result (λ found. IfSome found (IsFrameRead (maximum_of maximum) (S.state source.old) (S.state source.new))) }
    ensures ended { IfOk result (λ found. IsNone found → HasEnded (S.state source.old) (S.state source.new)) }
    ensures refused { IfErr result (λ e. ReadRefused e.kind (maximum_of maximum) (S.state source.old) (S.state source.new)) }
    ensures more { IfErr result (λ e. HasMore e.kind (S.state source.old).left) }
    ensures again { WhereFrameStands (maximum_of maximum) (S.state source.old) (λ frame rest parts. MatchResult result (FoundAgain frame parts rest (S.state source.new).left) (λ e. IsUnreadable e.kind)) }
    ensures on { ReadsOn (S.state source.old) (S.state source.new) }
{
    match buffer.next(source, maximum) {
        Ok(found) => Ok(found),
        Err(fault) => Err(fault.into()),
    }
}
