mod failing;
mod frames;
mod rows;

use frames::piece;
use mongo_bson::{BsonFault, Bytes};
use mongo_proxy::{RelayFault, Relayed, Side, relay};
use mongo_wire::{ArgumentFault, Error, ErrorKind, Link, MemoryLink, RequestIds, ResponseFault};
use rows::{COUNTED, PASSED, STOPPED};
use std::alloc::Global;
use std::test::Fail;

// What these words name, one after another.
fn joined(alloc: Global, names: &str) -> Result<Bytes, BsonFault> {
    let mut bytes = Bytes::new(alloc);
    for name in names.split_whitespace() {
        bytes.extend_from_slice(piece(name))?;
    }
    Ok(bytes)
}

// The cause of a refusal, by a word.
fn cause(error: &Error) -> &'static str {
    match &error.kind {
        ErrorKind::ReadFault => "ReadFault",
        ErrorKind::WriteFault => "WriteFault",
        ErrorKind::EndOfInput => "EndOfInput",
        ErrorKind::InvalidArgument(ArgumentFault::CheckedFailure) => "CheckedFailure",
        ErrorKind::InvalidResponse(ResponseFault::OpCode(7)) => "OpCode",
        ErrorKind::InvalidResponse(ResponseFault::OverMaximum) => "OverMaximum",
        ErrorKind::InvalidResponse(ResponseFault::Compressed) => "Compressed",
        ErrorKind::InvalidResponse(ResponseFault::NotMessage) => "NotMessage",
        ErrorKind::InvalidResponse(ResponseFault::Sections) => "Sections",
        _ => "another",
    }
}

// How a relay ended: the side of a fault, its cause or whether the client ended or as many frames as are wanted were passed on, and the
// counts of commands and replies.
type End = (Option<Side>, &'static str, u64, u64);

fn end_of(relayed: &Result<Relayed, RelayFault>) -> End {
    match relayed {
        Ok(done) => {
            let word = if done.ended { "ended" } else { "most" };
            (None, word, done.commands, done.replies)
        }
        Err(fault) => {
            let word = if fault.done.ended {
                "ended by a fault"
            } else {
                cause(&fault.error)
            };
            (
                Some(fault.side),
                word,
                fault.done.commands,
                fault.done.replies,
            )
        }
    }
}

// Relays frames, the first command under the id 100; gives how it ended and the next id.
fn relay_from_100<C: Link, S: Link>(
    alloc: Global,
    client: &mut C,
    server: &mut S,
    max: Option<i32>,
    most: u64,
) -> (End, i32) {
    let mut ids = RequestIds::new(100);
    let relayed = relay(alloc, client, server, &mut ids, max, most);
    (end_of(&relayed), ids.next())
}

// Two sides in memory, and what comes of them: what the client sends and the server, how many frames are wanted; what goes to the server
// and to the client; how it ends, the next id, and how many bytes of each side stay unread.
#[derive(Clone, Copy)]
struct Row {
    client: &'static str,
    server: &'static str,
    most: u64,
    to_server: &'static str,
    to_client: &'static str,
    end: End,
    next_id: i32,
    left: (usize, usize),
}

// What came of two sides.
#[derive(Clone, Copy, Debug, PartialEq, Eq)]
struct Outcome {
    end: End,
    next_id: i32,
    left: (usize, usize),
    // whether just the wanted bytes were sent to the server, and to the client
    is_sent: (bool, bool),
}

// Relays over two links in memory, and compares what each was sent.
fn relay_in_memory(
    alloc: Global,
    mut client: MemoryLink,
    mut server: MemoryLink,
    most: u64,
    wanted: (&[u8], &[u8]),
) -> Outcome {
    let (end, next_id) = relay_from_100(alloc, &mut client, &mut server, None, most);
    let (to_server, to_client) = wanted;
    Outcome {
        end,
        next_id,
        left: (client.left().len(), server.left().len()),
        is_sent: (server.written() == to_server, client.written() == to_client),
    }
}

// What comes of a row's two sides.
fn outcome_of(alloc: Global, row: Row) -> Result<Outcome, BsonFault> {
    let client = MemoryLink::new(alloc, joined(alloc, row.client)?);
    let server = MemoryLink::new(alloc, joined(alloc, row.server)?);
    let to_server = joined(alloc, row.to_server)?;
    let to_client = joined(alloc, row.to_client)?;
    Ok(relay_in_memory(
        alloc,
        client,
        server,
        row.most,
        (to_server.as_bytes(), to_client.as_bytes()),
    ))
}

// Fails where another comes of a row's two sides.
fn check_row(alloc: Global, row: Row) -> Result<(), Fail> {
    let found = outcome_of(alloc, row)?;
    let wanted = Outcome {
        end: row.end,
        next_id: row.next_id,
        left: row.left,
        is_sent: (true, true),
    };
    if found == wanted {
        Ok(())
    } else {
        Err(Fail::new(format_args!("{} and {}: {found:?}", row.client, row.server)))
    }
}

#[test]
fn frames_pass_with_other_ids(rt: HostRuntime) -> Result<(), Fail> {
    for row in PASSED {
        check_row(rt.alloc(), row)?;
    }
    Ok(())
}

#[test]
fn a_bad_frame_ends_it_after_those_before(rt: HostRuntime) -> Result<(), Fail> {
    for row in STOPPED {
        check_row(rt.alloc(), row)?;
    }
    Ok(())
}

#[test]
fn as_many_frames_as_are_wanted(rt: HostRuntime) -> Result<(), Fail> {
    for row in COUNTED {
        check_row(rt.alloc(), row)?;
    }
    Ok(())
}
