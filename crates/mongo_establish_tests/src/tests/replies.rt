use super::frames::{
    COMMAND_ERROR, DONE, FAILED, HELLO, NUMBERED, OK_TWICE, SERVED, SPECULATED, STANDALONE, SUMMED,
    TAKEN, TIMEOUT_GREATEST, TIMEOUT_TOO_GREAT, UNDONE,
};
use super::{PoolKind, SEVENTH, Told, Who, link_of, made_in_memory, new_state};
use mongo_establish::{ConnectionGeneration, MemoryLink, ObjectId, RequestIds};
use mongo_wire::{Sink, Source};
use std::alloc::Global;
use std::test::Fail;

const WHOLE: [u8; 4] = [86, 0, 0, 0];

const MESSAGE: [u8; 2] = [0xdd, 0x07];

/// The standalone server's reply with its length, the low bytes of its op code and its section's kind changed, and cut off
/// at a length; how an establishment ends by it, and how many bytes of it are taken.
type FrameCase = ([u8; 4], [u8; 2], u8, usize, Told, usize);

// A frame is refused by the first of its faults.
fn frame_at(place: u8) -> FrameCase {
    match place {
        0 => (WHOLE, [0, 0], 0, 86, ("OpCode", 0, None), 16),
        1 => (WHOLE, [7, 0], 0, 86, ("OpCode", 7, None), 16),
        // 50331649
        2 => ([1, 0, 0, 3], MESSAGE, 0, 86, ("OverMaximum", 0, None), 16),
        3 => ([1, 0, 0, 3], [7, 0], 0, 86, ("OpCode", 7, None), 16),
        4 => (WHOLE, [0xdc, 0x07], 0, 86, ("Compressed", 0, None), 16),
        5 => (WHOLE, [1, 0], 0, 86, ("NotMessage", 0, None), 16),
        6 => (WHOLE, [0xd4, 0x07], 0, 86, ("NotMessage", 0, None), 16),
        7 => ([15, 0, 0, 0], [1, 0], 0, 86, ("NotMessage", 0, None), 16),
        8 => (
            [15, 0, 0, 0],
            MESSAGE,
            0,
            86,
            ("CheckedFailure", 0, None),
            16,
        ),
        9 => (
            [0, 0, 0, 0],
            MESSAGE,
            0,
            86,
            ("CheckedFailure", 0, None),
            16,
        ),
        10 => (
            [255, 255, 255, 255],
            MESSAGE,
            0,
            86,
            ("CheckedFailure", 0, None),
            16,
        ),
        // 50331648, and one byte more than there is
        11 => ([0, 0, 0, 3], MESSAGE, 0, 86, ("EndOfInput", 0, None), 86),
        12 => ([87, 0, 0, 0], MESSAGE, 0, 86, ("EndOfInput", 0, None), 86),
        13 => (WHOLE, MESSAGE, 2, 86, ("Sections", 0, None), 86),
        // replies that end early
        14 => (WHOLE, MESSAGE, 0, 0, ("EndOfInput", 0, None), 0),
        15 => (WHOLE, MESSAGE, 0, 15, ("EndOfInput", 0, None), 15),
        16 => (WHOLE, MESSAGE, 0, 16, ("EndOfInput", 0, None), 16),
        _ => (WHOLE, MESSAGE, 0, 85, ("EndOfInput", 0, None), 85),
    }
}

fn reply_of(alloc: Global, frame: &FrameCase) -> Result<Vec<u8>, Fail> {
    let (length, op_code, kind, cut, ..) = *frame;
    let mut reply = Vec::new(alloc);
    reply.extend_from_slice(&length)?;
    reply.extend_from_slice(&STANDALONE[4..12])?;
    reply.extend_from_slice(&op_code)?;
    reply.extend_from_slice(&STANDALONE[14..20])?;
    reply.push(kind)?;
    reply.extend_from_slice(&STANDALONE[21..])?;
    reply.truncate(cut);
    Ok(reply)
}

// Whether an establishment for nobody ends so over the link, having said just the hello.
fn tells(alloc: Global, link: &mut MemoryLink, wanted: Told) -> Result<bool, Fail> {
    let mut state = new_state(alloc);
    let made = made_in_memory(alloc, Who::Nobody, PoolKind::Normal, link, &mut state)?;
    Ok(made.told == wanted && state.ids.next() == 1 && link.written() == HELLO.as_slice())
}

fn is_refused_so(alloc: Global, frame: &FrameCase) -> Result<bool, Fail> {
    let (.., told, taken) = *frame;
    let reply = reply_of(alloc, frame)?;
    let mut link = link_of(alloc, reply.as_slice())?;
    let tells = tells(alloc, &mut link, told)?;
    Ok(tells && reply.len().saturating_sub(link.left().len()) == taken)
}

#[test]
fn a_frame_is_refused_by_its_first_fault(rt: HostRuntime) -> Result<(), Fail> {
    for place in 0..18 {
        assert!(rt; is_refused_so(rt.alloc(), &frame_at(place))?, "{place}");
    }
    Ok(())
}

// The same with a length that is at least a header's and less than its own: so much is taken, and cuts the document.
fn shortened(length: u8) -> FrameCase {
    let taken = usize::from(length);
    (
        [length, 0, 0, 0],
        MESSAGE,
        0,
        86,
        ("Sections", 0, None),
        taken,
    )
}

#[test]
fn a_length_that_cuts_the_document_is_refused(rt: HostRuntime) -> Result<(), Fail> {
    for length in 16..86 {
        assert!(rt; is_refused_so(rt.alloc(), &shortened(length))?, "{length}");
    }
    Ok(())
}

/// An establishment: who logs in, over which pool, by which ids, and what is heard; how it ends, the next command's id, and
/// how many bytes are said and left.
#[derive(Clone, Copy)]
struct Row {
    who: Who,
    pool: PoolKind,
    first_id: i32,
    heard: [&'static [u8]; 2],
    told: Told,
    next_id: i32,
    said: usize,
    left: usize,
}

fn row_of(
    who: Who,
    pool: PoolKind,
    first_id: i32,
    heard: [&'static [u8]; 2],
    told: Told,
    next_id: i32,
    said: usize,
    left: usize,
) -> Row {
    Row {
        who,
        pool,
        first_id,
        heard,
        told,
        next_id,
        said,
        left,
    }
}

// The service of the bytes 0 to 11 with a number.
fn service(generation: u32) -> Option<ConnectionGeneration> {
    Some(ConnectionGeneration::LoadBalanced {
        generation,
        service_id: ObjectId([0, 1, 2, 3, 4, 5, 6, 7, 8, 9, 10, 11]),
    })
}

const NO_SERVICE: Option<ConnectionGeneration> = Some(ConnectionGeneration::Normal(0));

fn row_at(place: u8) -> Row {
    match place {
        // documents that are refused
        0 => row_of(
            Who::Nobody,
            PoolKind::Normal,
            0,
            [&COMMAND_ERROR, b""],
            ("Command", 18, None),
            1,
            236,
            0,
        ),
        1 => row_of(
            Who::Nobody,
            PoolKind::Normal,
            0,
            [&OK_TWICE, b""],
            ("Hello", 0, None),
            1,
            236,
            0,
        ),
        2 => row_of(
            Who::Nobody,
            PoolKind::Normal,
            0,
            [&TIMEOUT_TOO_GREAT, b""],
            ("SessionTimeout", 0, None),
            1,
            236,
            0,
        ),
        // what follows a reply is unread
        3 => row_of(
            Who::Nobody,
            PoolKind::Normal,
            0,
            [&STANDALONE, &NUMBERED],
            ("none", 0, SEVENTH),
            1,
            236,
            108,
        ),
        // after the greatest id comes the least
        4 => row_of(
            Who::Nobody,
            PoolKind::Normal,
            i32::MAX,
            [&STANDALONE, b""],
            ("none", 0, SEVENTH),
            i32::MIN,
            236,
            0,
        ),
        // logins of one command: the hello of PLAIN has 236 bytes, and its command 107; that of X.509 carries the command's
        // body, 70 bytes
        5 => row_of(
            Who::Plain,
            PoolKind::Normal,
            0,
            [&STANDALONE, DONE],
            ("none", 0, SEVENTH),
            2,
            343,
            0,
        ),
        6 => row_of(
            Who::Plain,
            PoolKind::Normal,
            0,
            [&STANDALONE, UNDONE],
            ("Malformed", 0, SEVENTH),
            2,
            343,
            0,
        ),
        7 => row_of(
            Who::Plain,
            PoolKind::Normal,
            0,
            [SPECULATED, DONE],
            ("none", 0, SEVENTH),
            2,
            343,
            0,
        ),
        8 => row_of(
            Who::X509,
            PoolKind::Normal,
            0,
            [SPECULATED, b""],
            ("none", 0, SEVENTH),
            1,
            331,
            0,
        ),
        9 => row_of(
            Who::X509WithPassword,
            PoolKind::Normal,
            0,
            [SPECULATED, b""],
            ("none", 0, SEVENTH),
            1,
            331,
            0,
        ),
        10 => row_of(
            Who::X509WithPassword,
            PoolKind::Normal,
            0,
            [&STANDALONE, b""],
            ("X509Password", 0, SEVENTH),
            1,
            331,
            0,
        ),
        11 => row_of(
            Who::X509,
            PoolKind::Normal,
            0,
            [&STANDALONE, TAKEN],
            ("none", 0, SEVENTH),
            2,
            441,
            0,
        ),
        12 => row_of(
            Who::X509,
            PoolKind::Normal,
            0,
            [&STANDALONE, FAILED],
            ("X509Failed", 0, SEVENTH),
            2,
            441,
            0,
        ),
        // a service is looked for after the login
        13 => row_of(
            Who::Plain,
            PoolKind::Balanced(Some(8)),
            0,
            [SERVED, DONE],
            ("none", 0, service(8)),
            2,
            343,
            0,
        ),
        14 => row_of(
            Who::Plain,
            PoolKind::Balanced(None),
            0,
            [SERVED, DONE],
            ("none", 0, service(0)),
            2,
            343,
            0,
        ),
        _ => row_of(
            Who::Plain,
            PoolKind::Balanced(Some(8)),
            0,
            [&STANDALONE, DONE],
            ("IncompatibleServer", 0, NO_SERVICE),
            2,
            343,
            0,
        ),
    }
}

fn link_for(alloc: Global, heard: &[&[u8]; 2]) -> Result<MemoryLink, Fail> {
    let mut both = Vec::from_slice(alloc, heard[0])?;
    both.extend_from_slice(heard[1])?;
    link_of(alloc, both.as_slice())
}

fn ends_so(alloc: Global, row: &Row) -> Result<bool, Fail> {
    let mut state = new_state(alloc);
    state.ids = RequestIds::new(row.first_id);
    let mut link = link_for(alloc, &row.heard)?;
    let made = made_in_memory(alloc, row.who, row.pool, &mut link, &mut state)?;
    Ok(
        made.told == row.told
            && state.ids.next() == row.next_id
            && link.written().len() == row.said
            && link.left().len() == row.left,
    )
}

#[test]
fn an_establishment_ends_as_its_replies_say(rt: HostRuntime) -> Result<(), Fail> {
    for place in 0..16 {
        assert!(rt; ends_so(rt.alloc(), &row_at(place))?, "{place}");
    }
    Ok(())
}

// Whether an establishment by this reply has a session timeout of these seconds, and the server's number for it.
fn describes(
    alloc: Global,
    reply: &[u8],
    timeout: Option<u64>,
    server_id: Option<i64>,
) -> Result<bool, Fail> {
    let mut state = new_state(alloc);
    let mut link = link_of(alloc, reply)?;
    let made = made_in_memory(alloc, Who::Nobody, PoolKind::Normal, &mut link, &mut state)?;
    Ok(made.described == Some((timeout, server_id)))
}

#[test]
fn the_connection_has_what_the_reply_says(rt: HostRuntime) -> Result<(), Fail> {
    let alloc = rt.alloc();
    let seconds = Some(18_446_744_073_709_551_600);
    assert!(rt; describes(alloc, &STANDALONE, None, None)?);
    assert!(rt; describes(alloc, &NUMBERED, None, Some(42))?);
    assert!(rt; describes(alloc, &TIMEOUT_GREATEST, seconds, None)?);
    // flags and checksum of a reply aren't judged
    assert!(rt; describes(alloc, &SUMMED, None, None)?);
    Ok(())
}
