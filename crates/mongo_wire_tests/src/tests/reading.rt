// The bytes are laid out by the OP_MSG specification and BSON 1.1.
use super::links::plain_read;
use super::ways::{Answer, Way, read_by};
use super::{
    EMPTY_MESSAGE, MESSAGE_WITH_SEQUENCE, Told, failing_link, giving, giving_zeros, read_end,
};
use mongo_bson::Bytes;
use mongo_wire::{ArgumentFault, FrameBuffer, MemoryLink, ResponseFault, Source};
use std::alloc::Global;
use std::test::Fail;

// The reply of a server: request id 1, no flags, the document `{ok: 1.0, maxBsonObjectSize: 16777216,
// maxMessageSizeBytes: 48000000}`.
const REPLY: [u8; 86] = [
    0x56, 0, 0, 0, 1, 0, 0, 0, 0, 0, 0, 0, 0xdd, 0x07, 0, 0, 0, 0, 0, 0, 0, 0x41, 0, 0, 0, 0x01,
    0x6f, 0x6b, 0, 0, 0, 0, 0, 0, 0, 0xf0, 0x3f, 0x10, 0x6d, 0x61, 0x78, 0x42, 0x73, 0x6f, 0x6e,
    0x4f, 0x62, 0x6a, 0x65, 0x63, 0x74, 0x53, 0x69, 0x7a, 0x65, 0, 0, 0, 0, 0x01, 0x10, 0x6d, 0x61,
    0x78, 0x4d, 0x65, 0x73, 0x73, 0x61, 0x67, 0x65, 0x53, 0x69, 0x7a, 0x65, 0x42, 0x79, 0x74, 0x65,
    0x73, 0, 0, 0x6c, 0xdc, 0x02, 0,
];

pub(crate) fn header(length: i32, op_code: i32) -> [u8; 16] {
    let [a, b, c, d] = length.to_le_bytes();
    let [e, f, g, h] = op_code.to_le_bytes();
    [a, b, c, d, 0, 0, 0, 0, 0, 0, 0, 0, e, f, g, h]
}

#[test]
fn a_message_with_a_sequence_is_read(rt: HostRuntime) -> Result<(), Fail> {
    let seen = plain_read(rt.alloc(), &MESSAGE_WITH_SEQUENCE, 1)?;
    assert!(rt; seen == (true, 0));
    Ok(())
}

// A header's length and op code, and how the read of its message ends.
type HeaderRow = (i32, i32, Told);

const HEADERS: [HeaderRow; 6] = [
    (15, 2013, Told::Argument(ArgumentFault::CheckedFailure)),
    (50_331_649, 2013, Told::Response(ResponseFault::OverMaximum)),
    (26, 2012, Told::Response(ResponseFault::Compressed)),
    (26, 1, Told::Response(ResponseFault::NotMessage)),
    (26, 2004, Told::Response(ResponseFault::NotMessage)),
    (50_331_649, 7, Told::Response(ResponseFault::OpCode(7))),
];

fn is_refused_so(alloc: Global, row: &HeaderRow) -> Result<bool, Fail> {
    let (length, op_code, told) = row;
    let mut link = giving(alloc, &header(*length, *op_code))?;
    Ok(read_end(alloc, &mut link) == *told)
}

#[test]
fn a_header_is_refused_by_the_first_row_that_applies(rt: HostRuntime) -> Result<(), Fail> {
    for row in &HEADERS {
        assert!(rt; is_refused_so(rt.alloc(), row)?, "{row:?}");
    }
    Ok(())
}

// A link that gives these pieces one after another.
fn giving_all(alloc: Global, pieces: &[&[u8]]) -> Result<MemoryLink, Fail> {
    let mut input = Bytes::new(alloc);
    for piece in pieces {
        input.extend_from_slice(piece)?;
    }
    Ok(MemoryLink::new(alloc, input))
}

const EACH: [Way; 5] = [
    Way::TakeFrame,
    Way::ReadFrame,
    Way::NextFrame,
    Way::Read,
    Way::Next,
];

// How a read by this call ends where no frame is left.
fn end_by(way: Way) -> Answer {
    match way {
        Way::NextFrame | Way::Next => Ok(None),
        _ => Err(Told::EndOfInput),
    }
}

// What three reads of two frames answer, whether the second frame was held after it came, and whether nothing was at the end.
type ThreeReads = (Answer, Answer, Answer, bool, bool);

fn three_reads(way: Way, alloc: Global) -> Result<ThreeReads, Fail> {
    let mut link = giving_all(alloc, &[REPLY.as_slice(), EMPTY_MESSAGE.as_slice()])?;
    let mut buffer = FrameBuffer::new(alloc);
    let first = read_by(way, alloc, &mut link, &mut buffer);
    let second = read_by(way, alloc, &mut link, &mut buffer);
    let was_held = buffer.frames() == 2 && buffer.as_bytes() == &EMPTY_MESSAGE[16..];
    let third = read_by(way, alloc, &mut link, &mut buffer);
    let is_empty = buffer.frames() == 2 && buffer.as_bytes().is_empty();
    Ok((first, second, third, was_held, is_empty))
}

// What is to be seen of them.
fn three_seen(way: Way) -> ThreeReads {
    let first = Ok(Some((86, 1, 66, 65)));
    let second = Ok(Some((26, 0, 6, 5)));
    (first, second, end_by(way), true, true)
}

#[test]
fn frames_come_one_after_another_through_one_buffer(rt: HostRuntime) -> Result<(), Fail> {
    for way in EACH {
        let seen = three_reads(way, rt.alloc())?;
        assert!(rt; seen == three_seen(way), "{way:?}");
    }
    Ok(())
}

// What is seen of a read that fails at just this call: whether a frame came, the count of faults, and whether the buffer
// holds nothing.
fn read_failing(way: Way, alloc: Global, call: usize) -> Result<(bool, u64, bool), Fail> {
    let mut link = failing_link(alloc, &MESSAGE_WITH_SEQUENCE, call, 1)?;
    let mut buffer = FrameBuffer::new(alloc);
    let came = read_by(way, alloc, &mut link, &mut buffer).is_ok();
    Ok((came, link.read_faults(), buffer.as_bytes().is_empty()))
}

#[test]
fn a_frame_is_read_byte_by_byte_unless_a_call_fails(rt: HostRuntime) -> Result<(), Fail> {
    for way in [Way::ReadFrame, Way::NextFrame] {
        for call in 0..48 {
            let wanted = if call < 46 {
                (false, 1, true)
            } else {
                (true, 0, false)
            };
            let seen = read_failing(way, rt.alloc(), call)?;
            assert!(rt; seen == wanted, "{:?}", (way, call));
        }
    }
    Ok(())
}

// Whether the buffer shows nothing after one frame.
fn is_cleared(buffer: &FrameBuffer) -> bool {
    buffer.as_bytes().is_empty() && buffer.message().is_none() && buffer.frames() == 1
}

// Whether the empty message comes by this call, and what follows it is refused and shows nothing.
fn is_one_shown(way: Way, alloc: Global, link: &mut MemoryLink, buffer: &mut FrameBuffer) -> bool {
    read_by(way, alloc, link, buffer).is_ok()
        && buffer.as_bytes() == &EMPTY_MESSAGE[16..]
        && read_by(way, alloc, link, buffer).is_err()
        && is_cleared(buffer)
}

// Whether this is seen of a header of this length and op code, with four bytes of zeros, after the empty message.
fn is_refused(way: Way, alloc: Global, length: i32, op_code: i32) -> Result<bool, Fail> {
    let second = header(length, op_code);
    let pieces = [EMPTY_MESSAGE.as_slice(), second.as_slice(), &[0; 4]];
    let mut link = giving_all(alloc, &pieces)?;
    let mut buffer = FrameBuffer::new(alloc);
    Ok(is_one_shown(way, alloc, &mut link, &mut buffer))
}

// A length below 16, one past the maximum, other op codes, a frame cut short, and one without a body.
const REFUSED: [(i32, i32); 7] = [
    (15, 2013),
    (50_331_649, 2013),
    (26, 2012),
    (26, 1),
    (26, 7),
    (26, 2013),
    (20, 2013),
];

#[test]
fn a_refused_read_shows_nothing(rt: HostRuntime) -> Result<(), Fail> {
    for (length, op_code) in REFUSED {
        for way in EACH {
            let refused = is_refused(way, rt.alloc(), length, op_code)?;
            assert!(rt; refused, "{:?}", (way, length, op_code));
        }
    }
    Ok(())
}

#[test]
fn a_frame_is_taken_after_its_header_or_refused(rt: HostRuntime) -> Result<(), Fail> {
    let (first, second, third, was_held, _) = three_reads(Way::TakeAfter, rt.alloc())?;
    let wanted = three_seen(Way::TakeAfter);
    assert!(rt; (first, second, third, was_held) == (wanted.0, wanted.1, wanted.2, wanted.3));
    for (length, op_code) in REFUSED {
        // a header of an unknown op code is no header, and leaves the buffer as it was
        let refused = is_refused(Way::TakeAfter, rt.alloc(), length, op_code)?;
        assert!(rt; refused == (op_code != 7), "{:?}", (length, op_code));
    }
    Ok(())
}

// What a read of these bytes and so many zeros answers, and how many bytes and frames the buffer took.
fn padded_read(
    way: Way,
    alloc: Global,
    start: &[u8],
    zeros: usize,
) -> Result<(Answer, usize, u64), Fail> {
    let mut link = giving_zeros(alloc, start, zeros)?;
    let mut buffer = FrameBuffer::new(alloc);
    let answer = read_by(way, alloc, &mut link, &mut buffer);
    Ok((answer, buffer.as_bytes().len(), buffer.frames()))
}

#[test]
fn a_length_that_lies_is_refused_in_time(rt: HostRuntime) -> Result<(), Fail> {
    let start = header(50_331_648, 2013);
    // whoever took memory for the length, and cleared it, would clear a terabyte
    for _ in 0..20_000 {
        let (answer, _, frames) = padded_read(Way::TakeFrame, rt.alloc(), &start, 100)?;
        assert!(rt; answer.is_err() && frames == 0);
    }
    Ok(())
}

// A frame of the first maximum, but for the zeros at its end: the header, no flags, the empty body, and one sequence of 50331621
// bytes with the identifier `a` and one document of 50331615 bytes.
const GREATEST: [u8; 37] = [
    0, 0, 0, 3, 0, 0, 0, 0, 0, 0, 0, 0, 0xdd, 0x07, 0, 0, 0, 0, 0, 0, 0, 5, 0, 0, 0, 0, 1, 0xe5,
    0xff, 0xff, 2, 0x61, 0, 0xdf, 0xff, 0xff, 2,
];

#[test]
fn the_greatest_frame_is_read(rt: HostRuntime) -> Result<(), Fail> {
    let answer = Ok(Some((50_331_648, 0, 50_331_628, 5)));
    let seen = padded_read(Way::ReadFrame, rt.alloc(), &GREATEST, 50_331_611)?;
    assert!(rt; seen == (answer, 50_331_632, 1));
    Ok(())
}
