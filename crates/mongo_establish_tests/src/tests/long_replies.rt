ghost use Rattle.std.specs.Prelude.{◌≤◌};

use super::ends::{End, end_of, is_same_end};
use super::failing::{ACCEPTED, CHALLENGE, NEGOTIATED};
use super::{PoolKind, SEVENTH, Who, joined, made_in_memory, new_state, push_all};
use mongo_establish::{Bytes, MemoryLink};
use std::alloc::Global;
use std::test::Fail;

// Puts so many letters at the end.
fn push_letters(bytes: &mut Vec<u8>, count: u32) -> Result<(), Fail> {
    const PIECE: [u8; 1024] = [0x41; 1024];
    for _ in 0..count / 1024 {
        bytes.extend_from_slice(&PIECE)?;
    }
    bytes.extend_from_slice(&PIECE[..(count % 1024) as usize])?;
    Ok(())
}

// A front, so many letters, and a back.
fn with_letters(
    alloc: Global,
    front: &[&[u8]],
    count: u32,
    back: &[&[u8]],
) -> Result<Vec<u8>, Fail> {
    let mut bytes = joined(alloc, front)?;
    push_letters(&mut bytes, count)?;
    push_all(&mut bytes, back)?;
    Ok(bytes)
}

// What a login hears that starts after its hello, but for a last reply whose verifier fills a frame of this length.
fn heard_with_verifier(alloc: Global, length: u32) -> Result<Vec<u8>, Fail>
    requires { 109 ≤ length }
{
    let reply = *ACCEPTED;
    let front: [&[u8]; 8] = [
        NEGOTIATED,
        CHALLENGE,
        &length.to_le_bytes(),
        &reply[4..21],
        &(length - 21).to_le_bytes(),
        &reply[25..73],
        &(length - 79).to_le_bytes(),
        b"\0v=",
    ];
    with_letters(alloc, &front, length - 81, &[b"\0"])
}

// The same with its own last reply, and a challenge with a field more, of bytes without a meaning, so that its frame has
// this length.
fn heard_with_filler(alloc: Global, length: u32) -> Result<Vec<u8>, Fail>
    requires { 175 ≤ length }
{
    let reply = *CHALLENGE;
    let front: [&[u8]; 8] = [
        NEGOTIATED,
        &length.to_le_bytes(),
        &reply[4..21],
        &(length - 21).to_le_bytes(),
        &reply[25..161],
        b"\x05filler\0",
        &(length - 175).to_le_bytes(),
        b"\0",
    ];
    with_letters(alloc, &front, length - 175, &[b"\0", ACCEPTED])
}

// The front of the same whose challenge is one byte longer than the server allows.
fn heard_past_the_maximum(alloc: Global) -> Result<Vec<u8>, Fail> {
    let length = 48_000_001u32.to_le_bytes();
    let reply = *CHALLENGE;
    joined(alloc, &[NEGOTIATED, &length, &reply[4..]])
}

// The end of a login that heard so many bytes and said all.
fn end_with(cause: &'static str, heard: usize, entries: usize) -> End {
    End {
        told: (cause, 0, SEVENTH),
        next_id: 3,
        said: 830,
        heard,
        rounds: 4096,
        entries,
    }
}

// What a login hears that starts after its hello, from a server that takes messages of 48000000 bytes.
fn heard_at(alloc: Global, place: u8) -> Result<Vec<u8>, Fail> {
    match place {
        0 => heard_with_filler(alloc, 48_000_000),
        1 => heard_with_verifier(alloc, 4_000_001),
        _ => heard_past_the_maximum(alloc),
    }
}

fn long_end_at(place: u8) -> End {
    match place {
        0 => end_with("none", 48_000_350, 1),
        1 => end_with("Verifier", 4_000_404, 0),
        _ => End {
            next_id: 2,
            said: 650,
            rounds: 0,
            // no more than the header
            ..end_with("OverMaximum", 257, 0)
        },
    }
}

// Whether a login over a link that doesn't fail ends so.
fn ends_so(alloc: Global, heard: Vec<u8>, wanted: &End) -> Result<bool, Fail> {
    let length = heard.len();
    let mut link = MemoryLink::new(alloc, Bytes::from_vec(heard));
    let mut state = new_state(alloc);
    let made = made_in_memory(
        alloc,
        Who::Negotiated,
        PoolKind::Normal,
        &mut link,
        &mut state,
    )?;
    let taken = length.saturating_sub(link.left().len());
    Ok(is_same_end(
        &end_of(made.told, &state, link.written().len(), taken),
        wanted,
    ))
}

#[test]
fn replies_may_be_as_long_as_the_server_says(rt: HostRuntime) -> Result<(), Fail> {
    for place in 0..3 {
        let heard = heard_at(rt.alloc(), place)?;
        assert!(rt; ends_so(rt.alloc(), heard, &long_end_at(place))?, "{place}");
    }
    Ok(())
}
