ghost use Rattle.std.specs.Prelude.{◌≡◌, ◌-◌, ◌≤◌, length, take, slice_range, vec_capacity, IfOk, IfErr};
ghost use Rattle.std.specs.Option.{ForSome};
ghost use Rattle.mongo_wire.specs.Held.{LiesIn};

use crate::MessageRef;
use crate::held_frame::HeldFrame;
use mongo_bson::{BsonFault, Bytes, RawDocumentBuf};
use std::alloc::Global;

/// A buffer that holds one frame at a time: the bytes that follow its header. Its memory is used again for each frame, and grows only as
/// the bytes of a frame come.
///
/// [`FrameBuffer::read`] and [`FrameBuffer::next`] read a frame into it and lend it to the message that shows the frame;
/// [`FrameBuffer::take_frame`] reads one without lending.
#[derive(Debug, Drop)]
pub struct FrameBuffer {
    pub(crate) store: Vec<u8>,
    // How many bytes of the store the last frame has.
    pub(crate) size: usize,
    pub(crate) last: Option<HeldFrame>,
    pub(crate) frames: u64,
    pub ghost within: { size ≤ length store.items },
    // The parts of the last frame lie in the bytes that are held.
    pub ghost lies: { ForSome last (LiesIn (take size store.items)) },
}

impl FrameBuffer {
    ghost use Rattle.std.specs.Prelude.{◌≡◌, ◌≤◌, ℕ, List, None, Some, length, vec_len, take, IsSome, IsNone, IfSome, IfOk, IfErr};
    ghost use Rattle.mongo_wire.specs.Outside.{risen};
    ghost use Rattle.mongo_wire.specs.Frame.{Frame};
    ghost use Rattle.mongo_wire.specs.Ref.{IsRefOf};
    ghost use Rattle.mongo_wire.specs.Buffer.{held_bytes, held_document, frames_taken, memory_of, HoldsFrame, HoldsNothing};

    /// A buffer that holds nothing and has taken no frame. It takes no memory.
    pub fn new(alloc: Global) -> FrameBuffer
        ensures empty { HoldsNothing result }
        ensures frames { frames_taken result ≡ 0 }
        ensures memory { memory_of result ≡ 0 }
    {
        FrameBuffer {
            store: Vec::new(alloc),
            size: 0,
            last: None,
            frames: 0,
        }
    }

    /// The bytes of the last frame after its header; nothing where none was taken, or where the last read took none.
    pub fn as_bytes(&self) -> &[u8]
        ensures { result.now ≡ held_bytes self.now }
    {
        &self.store.as_slice()[..self.size]
    }

    /// How many frames were taken into the buffer. It stays at 18446744073709551615.
    pub fn frames(&self) -> u64
        ensures { result ≡ frames_taken self.now }
    {
        self.frames
    }

    /// The last frame's message, or None where none was taken, or where the last read took none.
    pub fn message(&self) -> Option<MessageRef<'_>>
        ensures some { (frame : List ℕ) (parts : Frame) → HoldsFrame frame parts self.now → IsSome result }
        ensures shown { (frame : List ℕ) (parts : Frame) → HoldsFrame frame parts self.now → IfSome result (IsRefOf frame parts) }
        ensures document { IfSome result (λ message. message.document_payload.bytes.now ≡ held_document self.now) }
        ensures none { HoldsNothing self.now → IsNone result }
    {
        match self.last {
            Some(held) => Some(MessageRef::of(held, self.as_bytes())),
            None => None,
        }
    }

    /// The body's document of the frame that the buffer holds, in the buffer's own memory.
    pub fn into_document(self) -> RawDocumentBuf
        requires holds { (frame : List ℕ) × (parts : Frame) × HoldsFrame frame parts self }
        ensures document { (frame : List ℕ) (parts : Frame) → HoldsFrame frame parts self → result ≡ parts.body }
    {
        let FrameBuffer {
            store,
            size: _,
            last,
            frames: _,
        } = self;
        match last {
            Some(frame) => {
                let bytes = part_of(store, frame.offsets.body_start, frame.offsets.body_end);
                RawDocumentBuf::of_framed(Bytes::from_vec(bytes))
            }
            None => unreachable!(),
        }
    }

    /// A copy of the buffer, in memory of its own for just the bytes that are held.
    pub fn try_clone(&self, alloc: Global) -> Result<FrameBuffer, BsonFault>
        ensures held { IfOk result (λ copy. held_bytes copy ≡ held_bytes self.now) }
        ensures last { IfOk result (λ copy. copy.last ≡ self.now.last) }
        ensures frames { IfOk result (λ copy. frames_taken copy ≡ frames_taken self.now) }
        ensures memory { IfOk result (λ copy. memory_of copy ≡ length (held_bytes self.now)) }
        ensures refused { IfErr result (λ fault. fault ≡ BsonFault.OutOfMemory) }
    {
        Ok(FrameBuffer {
            store: copy_of_held(alloc, self.as_bytes())?,
            size: self.size,
            last: self.last,
            frames: self.frames,
        })
    }

    // Holds nothing from here on.
    pub(crate) fn clear(&mut self)
        ensures nothing { HoldsNothing self.new }
        ensures frames { frames_taken self.new ≡ frames_taken self.old }
        ensures store { self.new.store ≡ self.old.store }
    {
        self.last = None;
        self.size = 0;
    }

    // Holds a frame that lies at the front of the store, and counts it.
    pub(crate) fn keep(&mut self, frame: HeldFrame, length: usize)
        requires within { length ≤ vec_len self.old.store }
        requires lies { LiesIn (take length self.old.store.items) frame }
        ensures last { self.new.last ≡ Some frame }
        ensures held { held_bytes self.new ≡ take length self.old.store.items }
        ensures frames { frames_taken self.new ≡ risen (frames_taken self.old) }
        ensures memory { memory_of self.new ≡ memory_of self.old }
    {
        self.size = length;
        self.last = Some(frame);
        self.frames = self.frames.saturating_add(1);
    }
}

// A copy of the bytes, in memory for just these.
fn copy_of_held(alloc: Global, bytes: &[u8]) -> Result<Vec<u8>, BsonFault>
    ensures bytes { IfOk result (λ copy. copy.items ≡ bytes.now) }
    ensures memory { IfOk result (λ copy. vec_capacity copy ≡ length bytes.now) }
    ensures refused { IfErr result (λ fault. fault ≡ BsonFault.OutOfMemory) }
{
    let mut copy = Vec::with_capacity(alloc, bytes.len())?;
    'copying: for byte in bytes {
        copy.push_reserved(*byte);
    }
    Ok(copy)
}

// A part of the bytes, moved to the front of their memory.
fn part_of(bytes: Vec<u8>, from: usize, to: usize) -> Vec<u8>
    requires { (from ≤ to) × (to ≤ length bytes.items) }
    ensures { result.items ≡ slice_range bytes.items from to }
{
    let mut bytes = bytes;
    move_to_front(&mut bytes, from, to);
    bytes.truncate(to - from);
    bytes
}

// Moves a part of the bytes to their front.
fn move_to_front(bytes: &mut Vec<u8>, from: usize, to: usize)
    requires { (from ≤ to) × (to ≤ length bytes.old.items) }
    ensures { take (to - from) bytes.new.items ≡ slice_range bytes.old.items from to }
{
    copy_to_front(bytes.as_mut_slice(), from, to);
}

fn copy_to_front(bytes: &mut [u8], from: usize, to: usize)
    requires { (from ≤ to) × (to ≤ length bytes.old) }
    ensures front { take (to - from) bytes.new ≡ slice_range bytes.old from to }
    ensures size { length bytes.new ≡ length bytes.old }
{
    bytes.copy_within(from..to, 0);
}
