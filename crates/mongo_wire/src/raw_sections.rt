ghost use Rattle.std.specs.Prelude.{◌≡◌, ◌+◌, ◌≤◌, bit_and, length, IfOk, IfErr, OnOk};
ghost use Rattle.std.specs.Io.KnownBytes.{Appends};
ghost use Rattle.mongo_bson.specs.Framed.{maximum_length};
ghost use Rattle.mongo_wire.specs.Frame.{uint32};
ghost use Rattle.mongo_wire.specs.Header.{maximum_of};
ghost use Rattle.mongo_wire.specs.Outside.{WritesOn};
ghost use Rattle.mongo_wire.specs.Sending.{unsummed_flags, sections_frame, SectionsFit, SectionsRow, SectionsRefused, IsFrameOfSections};
ghost use Rattle.mongo_wire.specs.declared.fault.ArgumentFault.{ArgumentFault};
ghost use Rattle.mongo_wire.specs.declared.error.ErrorKind.TheVariants.{InvalidArgument};

use crate::measure::FLAGS_END;
use crate::message::DEFAULT_MAX_MESSAGE_SIZE_BYTES;
use crate::write_message::message_header;
use crate::writing::write_pieces;
use crate::{ArgumentFault, Error, ErrorKind, MessageFlags, Sink};
use bitflags::Flags;

/// Writes an OP_MSG whose sections are given as bytes: header, flags and sections one after another. It doesn't flush.
/// Flags are written without `CHECKSUM_PRESENT`, as no checksum follows.
///
/// Refusals, in this order: `MaximumNegative`, `TooLong` where the frame passes the maximum, 50331648 where none is given,
/// each with nothing written; then `WriteFault` or the sink's want of memory, with a front of the frame written.
pub fn write_sections<K: Sink>(
    sink: &mut K,
    request_id: i32,
    response_to: i32,
    flags: MessageFlags,
    sections: &[u8],
    maximum: Option<i32>,
) -> Result<(), Error>
    ensures fits { OnOk result (SectionsFit (maximum_of maximum) sections.now) }
    ensures written { OnOk result (Appends (K.state sink.old).written (K.state sink.new).written (sections_frame request_id response_to flags.0 sections.now)) }
    ensures writes { OnOk result ((K.state sink.new).write_faults ≡ (K.state sink.old).write_faults) }
    // It is a frame of the grammar, where the bytes are sections with one body.
    ensures frame { OnOk result (IsFrameOfSections request_id response_to flags.0 sections.now) }
    ensures refused { IfErr result (λ e. SectionsRefused e.kind (maximum_of maximum) sections.now (sections_frame request_id response_to flags.0 sections.now) (K.state sink.old) (K.state sink.new)) }
    // Nothing is done where the sections are refused.
    ensures untouched { (fault : ArgumentFault) → IfErr result (λ e. e.kind ≡ InvalidArgument fault → sink.new ≡ sink.old) }
    ensures on { WritesOn (K.state sink.old) (K.state sink.new) }
{
    let length = match sections_length(sections, maximum) {
        Ok(length) => length,
        Err(fault) => return Err(ErrorKind::InvalidArgument(fault).into()),
    };
    let header = message_header(length, request_id, response_to);
    write_pieces(sink, &header, &unsummed_word(flags), sections)
}

// The length of the frame of these sections, where it can be written within the maximum.
//
// Refusals, in this order: `MaximumNegative`, `TooLong`.
fn sections_length(sections: &[u8], maximum: Option<i32>) -> Result<u32, ArgumentFault>
    ensures fits { IfOk result (λ _. SectionsFit (maximum_of maximum) sections.now) }
    ensures counted { IfOk result (λ size. (size ≡ 20 + length sections.now) × (size ≤ maximum_length)) }
    ensures refused { IfErr result (λ fault. SectionsRow fault (maximum_of maximum) sections.now) }
{
    let maximum = maximum.unwrap_or(DEFAULT_MAX_MESSAGE_SIZE_BYTES);
    if maximum < 0 {
        return Err(ArgumentFault::MaximumNegative);
    }
    let room = maximum as usize;
    if room < FLAGS_END || sections.len() > room - FLAGS_END {
        return Err(ArgumentFault::TooLong);
    }
    Ok((FLAGS_END + sections.len()) as u32)
}

// The flag word of a frame without a checksum.
fn unsummed_word(flags: MessageFlags) -> [u8; 4]
    ensures { result ≡ uint32 (bit_and flags.0 unsummed_flags) }
{
    let unsummed = MessageFlags::MORE_TO_COME.bits() | MessageFlags::EXHAUST_ALLOWED.bits();
    (flags.bits() & unsummed).to_le_bytes()
}
