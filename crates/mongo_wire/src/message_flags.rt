ghost use Rattle.std.specs.Prelude.{◌≡◌, ◌↔◌, ◌%◌, ⊤, [], ◌∷◌, IsTrue, codes, bit_and};
ghost use Rattle.mongo_wire.specs.Frame.{checksum_present_bit, more_to_come_bit, exhaust_allowed_bit, known_flags};

use bitflags::{Flag, Flags, bitflag_items};

/// The flags of an OP_MSG that have a meaning. Other bits of the flag word are dropped on reading and on writing.
#[derive(Clone, Copy, Debug, PartialEq, Eq)]
pub struct MessageFlags(u32);

bitflag_items! {
    impl MessageFlags: u32 {
        const CHECKSUM_PRESENT = 1;
        const MORE_TO_COME = 2;
        const EXHAUST_ALLOWED = 65536;
    }
}

impl Flags for MessageFlags {
    type Bits = u32;

    ghost exact = { ⊤ };

    ghost table = { (codes "CHECKSUM_PRESENT", checksum_present_bit) ∷ (codes "MORE_TO_COME", more_to_come_bit) ∷ (codes "EXHAUST_ALLOWED", exhaust_allowed_bit) ∷ [] };

    ghost set_of = { λ flags. flags.0 };

    fn flags<'a>() -> &'a [Flag<MessageFlags>] {
        MessageFlags::FLAGS
    }

    fn bits(&self) -> u32 {
        self.0
    }

    fn from_bits_retain(bits: u32) -> MessageFlags {
        MessageFlags(bits)
    }
}

impl MessageFlags {
    // Whether a flag word says that a checksum follows the sections.
    pub(crate) fn has_checksum_flag(word: u32) -> bool
        ensures { IsTrue result ↔ (word % 2 ≡ 1) }
    {
        word & MessageFlags::CHECKSUM_PRESENT.0 != 0
    }

    /// The flag word of a frame: the flags that have a meaning, and no other bit.
    pub fn word(&self) -> u32
        ensures { result ≡ bit_and self.now.0 known_flags }
    {
        let known = MessageFlags::CHECKSUM_PRESENT.0
            | MessageFlags::MORE_TO_COME.0
            | MessageFlags::EXHAUST_ALLOWED.0;
        self.0 & known
    }
}
