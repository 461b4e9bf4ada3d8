ghost use Rattle.std.specs.Prelude.{◌≡◌, ℕ, List, drop, slice_range};
ghost use Rattle.mongo_wire.specs.Frame.{Frame};
ghost use Rattle.mongo_wire.specs.Held.{IsHeldFrame, LiesIn};

use crate::held_frame::HeldFrame;
use crate::measure::FLAGS_LENGTH;
use crate::{Header, MessageFlags};
use bitflags::Flags;
use mongo_bson::RawDocument;

/// An OP_MSG that borrows the buffer which its frame was read into.
#[derive(Clone, Copy, Debug)]
pub struct MessageRef<'b> {
    /// The header of the frame.
    pub header: Header,
    /// The flags that have a meaning.
    pub flags: MessageFlags,
    /// The checksum, which is carried and not judged.
    pub checksum: Option<u32>,
    /// The body: the document of the section of kind 0.
    pub document_payload: RawDocument<'b>,
    /// All sections as they lie in the frame, one after another: each its kind byte and what it holds.
    pub sections: &'b [u8],
}

impl<'b> MessageRef<'b> {
    ghost use Rattle.mongo_wire.specs.Ref.{IsRefOf};

    // The message of a frame, from the bytes after its header.
    pub(crate) fn of(held: HeldFrame, bytes: &'b [u8]) -> MessageRef<'b>
        requires { LiesIn bytes.now held }
        ensures shown { (frame : List ℕ) (parts : Frame) → IsHeldFrame frame parts held → bytes.now ≡ drop 16 frame → IsRefOf frame parts result }
        ensures document { result.document_payload.bytes.now ≡ slice_range bytes.now held.offsets.body_start held.offsets.body_end }
    {
        let document = &bytes[held.offsets.body_start..held.offsets.body_end];
        let sections = &bytes[FLAGS_LENGTH..held.offsets.sections_end];
        MessageRef {
            header: held.header,
            flags: MessageFlags::from_bits_truncate(held.word),
            checksum: held.checksum,
            document_payload: RawDocument::of_framed(document),
            sections,
        }
    }
}
