ghost use Rattle.std.specs.Prelude.{◌<◌};

use super::{
    MESSAGE_WITH_SEQUENCE, Told, end, failing_link, giving, message_over, message_with_sequence,
    one_empty_document, one_sequence, write_end, written,
};
use bitflags::Flags;
use mongo_bson::{Documents, Text};
use mongo_wire::{
    ArgumentFault, DocumentSequence, MemoryLink, Message, MessageFlags, RequestIds, Sequences,
    Sink, write_sections,
};
use std::alloc::Global;
use std::test::Fail;

// The empty message with two sequences, the id 9, an answer's id, flags with a bit that has no meaning dropped, and a
// checksum, laid out by the OP_MSG specification: 26 bytes, a section of 13 bytes, one of 8 without documents, 4 bytes.
const WHOLE_MESSAGE: [u8; 51] = [
    0x33, 0, 0, 0, 9, 0, 0, 0, 0xfe, 0xff, 0xff, 0xff, 0xdd, 0x07, 0, 0, 1, 0, 1, 0, 0, 5, 0, 0, 0,
    0, 1, 0x0c, 0, 0, 0, 0x62, 0x62, 0, 5, 0, 0, 0, 0, 1, 7, 0, 0, 0, 0x61, 0x61, 0, 4, 3, 2, 1,
];

// The sequence of no document under the identifier `aa`.
fn no_document(alloc: Global) -> Result<DocumentSequence, Fail> {
    Ok(DocumentSequence {
        identifier: Text::from_slice(alloc, "aa")?,
        documents: Documents::new(alloc),
    })
}

// The sequences of that message.
fn two_sequences(alloc: Global) -> Result<Sequences, Fail> {
    let mut sequences = one_sequence(alloc, "bb")?;
    sequences.push(no_document(alloc)?)?;
    Ok(sequences)
}

// That message, without a request id.
fn whole_message(alloc: Global) -> Result<Message, Fail> {
    let mut message = message_over(alloc, two_sequences(alloc)?)?;
    message.response_to = -2;
    message.flags = MessageFlags::from_bits_retain(0x10005);
    message.checksum = Some(0x0102_0304);
    message.request_id = None;
    Ok(message)
}

#[test]
fn a_sequence_follows_the_body(rt: HostRuntime) -> Result<(), Fail> {
    let alloc = rt.alloc();
    let seen = written(
        alloc,
        message_with_sequence(alloc),
        None,
        7,
        &MESSAGE_WITH_SEQUENCE,
    )?;
    assert!(rt; seen == (Told::Done, true, 7));
    Ok(())
}

// Whether the sequence of one empty document under this identifier has this size.
fn has_size(alloc: Global, identifier: &str, size: u8) -> Result<bool, Fail> {
    Ok(one_empty_document(alloc, identifier)?.size() == Some(size as u32))
}

#[test]
fn a_sequence_has_the_size_that_its_section_tells(rt: HostRuntime) -> Result<(), Fail> {
    // the low byte of the first sequence's size, after the header, the flags, the body's section and the kind byte
    assert!(rt; has_size(rt.alloc(), "documents", MESSAGE_WITH_SEQUENCE[27])?);
    assert!(rt; has_size(rt.alloc(), "bb", WHOLE_MESSAGE[27])?);
    Ok(())
}

// What is seen of a write of the whole message to a link that takes so many bytes a call and fails at just this call: how it
// ends, the count of faults, how many bytes were written, whether they are a front of the frame, and the next id after 9.
type Seen = (Told, u64, usize, bool, i32);

fn write_failing(
    alloc: Global,
    call: usize,
    most: usize,
    maximum: Option<i32>,
) -> Result<Seen, Fail>
    requires { 0 < most }
{
    let message = whole_message(alloc)?;
    let mut link = failing_link(alloc, &[], call, most)?;
    let mut ids = RequestIds::new(9);
    let told = write_end(alloc, &message, &mut link, maximum, &mut ids);
    let is_front = WHOLE_MESSAGE.starts_with(link.written());
    Ok((
        told,
        link.write_faults(),
        link.written().len(),
        is_front,
        ids.next(),
    ))
}

#[test]
fn sequences_and_checksum_go_out_byte_by_byte(rt: HostRuntime) -> Result<(), Fail> {
    let seen = write_failing(rt.alloc(), 1000, 1, Some(51))?;
    assert!(rt; seen == (Told::Done, 0, 51, true, 10));
    Ok(())
}

// What is to be seen where the write fails at this call, which would be past the flush from 12 on.
fn front_seen(call: usize, written: usize) -> Seen {
    if call < 12 {
        (Told::WriteFault, 1, written, true, 10)
    } else {
        (Told::Done, 0, written, true, 10)
    }
}

#[test]
fn a_write_that_fails_at_any_call_leaves_a_front(rt: HostRuntime) -> Result<(), Fail> {
    // the header, the flags and the kind byte, the body; kind and size, identifier, zero and document of one sequence, and
    // the first three of the other; the checksum; the flush; and no failure
    for (call, written) in [
        (0, 0),
        (1, 16),
        (2, 21),
        (3, 26),
        (4, 31),
        (5, 33),
        (6, 34),
        (7, 39),
        (8, 44),
        (9, 46),
        (10, 47),
        (11, 51),
        (12, 51),
    ] {
        let seen = write_failing(rt.alloc(), call, 100, None)?;
        assert_eq!(rt; seen, front_seen(call, written));
    }
    Ok(())
}

// The message that is refused, or not, for a zero in an identifier.
fn message_of(alloc: Global, has_zero: bool) -> Result<Message, Fail> {
    if has_zero {
        message_over(alloc, one_sequence(alloc, "a\0b")?)
    } else {
        whole_message(alloc)
    }
}

// How the write of that message ends within this maximum, whether nothing was written, and the next id after 9.
fn refused(alloc: Global, has_zero: bool, maximum: i32) -> Result<(Told, bool, i32), Fail> {
    written(alloc, message_of(alloc, has_zero), Some(maximum), 9, &[])
}

// Whether an identifier has a zero, the maximum, and why the message is refused.
const REFUSED: [(bool, i32, ArgumentFault); 3] = [
    (false, 50, ArgumentFault::TooLong),
    (false, -1, ArgumentFault::MaximumNegative),
    (true, -1, ArgumentFault::IdentifierHasZero),
];

#[test]
fn a_message_is_refused_before_anything_is_done(rt: HostRuntime) -> Result<(), Fail> {
    for (has_zero, maximum, fault) in REFUSED {
        let seen = refused(rt.alloc(), has_zero, maximum)?;
        assert_eq!(rt; seen, (Told::Argument(fault), true, 9));
    }
    Ok(())
}

// The frame of the id 5 around a body section of the empty document, laid out by the OP_MSG specification.
const FRAME_OF_SECTIONS: [u8; 26] = [
    0x1a, 0, 0, 0, 5, 0, 0, 0, 0, 0, 0, 0, 0xdd, 0x07, 0, 0, 0, 0, 0, 0, 0, 5, 0, 0, 0, 0,
];

// The section of an empty body.
const SECTIONS: [u8; 6] = [0, 5, 0, 0, 0, 0];

// Whether these sections are written under the id 5 within this maximum.
fn writes(flags: MessageFlags, maximum: i32, link: &mut MemoryLink) -> bool {
    end(write_sections(link, 5, 0, flags, &SECTIONS, Some(maximum))) == Told::Done
}

// Whether the sections are written within 26 bytes and refused within 25 on one link, and whether just this frame was written.
fn sections_seen(
    alloc: Global,
    flags: MessageFlags,
    frame: &[u8],
) -> Result<(bool, bool, bool), Fail> {
    let mut link = giving(alloc, &[])?;
    let are_written = writes(flags, 26, &mut link);
    let are_refused = !writes(flags, 25, &mut link);
    Ok((are_written, are_refused, link.written() == frame))
}

#[test]
fn sections_are_written_as_they_are(rt: HostRuntime) -> Result<(), Fail> {
    let seen = sections_seen(rt.alloc(), MessageFlags::empty(), &FRAME_OF_SECTIONS)?;
    assert!(rt; seen == (true, true, true));
    Ok(())
}

// That frame with the flags 0x10002.
const FLAGGED_FRAME: [u8; 26] = [
    0x1a, 0, 0, 0, 5, 0, 0, 0, 0, 0, 0, 0, 0xdd, 0x07, 0, 0, 2, 0, 1, 0, 0, 5, 0, 0, 0, 0,
];

#[test]
fn sections_carry_no_checksum_flag(rt: HostRuntime) -> Result<(), Fail> {
    let flags = MessageFlags::from_bits_retain(0x10007);
    let seen = sections_seen(rt.alloc(), flags, &FLAGGED_FRAME)?;
    assert!(rt; seen == (true, true, true));
    Ok(())
}
