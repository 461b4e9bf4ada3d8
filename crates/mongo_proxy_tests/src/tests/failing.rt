//! What a fault at each call of a link comes to.
//!
//! A command comes in two reads, of its header and of its rest, and goes on in three writes, of 16 bytes, 4 and its sections, and a flush;
//! so does a reply. Then the client ends.

ghost use Rattle.std.specs.Prelude.{◌<◌};

use super::{End, joined, piece, relay_from_100};
use mongo_bson::{BsonFault, Bytes};
use mongo_proxy::Side;
use mongo_wire::FailingLink;
use std::alloc::Global;
use std::test::Fail;

// A side whose link fails, the number of the call that does, how the relay ends, the next id, and how many bytes each side was sent.
type Fault = (Side, usize, End, i32, (usize, usize));

const FAULTS: [Fault; 15] = [
    (
        Side::Client,
        0,
        (Some(Side::Client), "ReadFault", 0, 0),
        100,
        (0, 0),
    ),
    (
        Side::Client,
        1,
        (Some(Side::Client), "ReadFault", 0, 0),
        100,
        (0, 0),
    ),
    (
        Side::Server,
        0,
        (Some(Side::Server), "WriteFault", 0, 0),
        101,
        (0, 0),
    ),
    (
        Side::Server,
        1,
        (Some(Side::Server), "WriteFault", 0, 0),
        101,
        (16, 0),
    ),
    (
        Side::Server,
        2,
        (Some(Side::Server), "WriteFault", 0, 0),
        101,
        (20, 0),
    ),
    (
        Side::Server,
        3,
        (Some(Side::Server), "WriteFault", 0, 0),
        101,
        (51, 0),
    ),
    (
        Side::Server,
        4,
        (Some(Side::Server), "ReadFault", 1, 0),
        101,
        (51, 0),
    ),
    (
        Side::Server,
        5,
        (Some(Side::Server), "ReadFault", 1, 0),
        101,
        (51, 0),
    ),
    (
        Side::Client,
        2,
        (Some(Side::Client), "WriteFault", 1, 0),
        101,
        (51, 0),
    ),
    (
        Side::Client,
        3,
        (Some(Side::Client), "WriteFault", 1, 0),
        101,
        (51, 16),
    ),
    (
        Side::Client,
        4,
        (Some(Side::Client), "WriteFault", 1, 0),
        101,
        (51, 20),
    ),
    (
        Side::Client,
        5,
        (Some(Side::Client), "WriteFault", 1, 0),
        101,
        (51, 38),
    ),
    (
        Side::Client,
        6,
        (Some(Side::Client), "ReadFault", 1, 1),
        101,
        (51, 38),
    ),
    (Side::Client, 7, (None, "ended", 1, 1), 101, (51, 38)),
    (Side::Server, 6, (None, "ended", 1, 1), 101, (51, 38)),
];

// Fails at the call of this number where the link is that of the side, else at none.
fn failing_at(alloc: Global, side: Side, fails: Side, call: usize) -> Result<Bytes, BsonFault> {
    if side != fails {
        return Ok(Bytes::new(alloc));
    }
    let mut calls = vec![in alloc; 0; call]?;
    calls.push(1)?;
    Ok(Bytes::from_vec(calls))
}

// A side that sends a frame over a link that moves at most so many bytes.
fn side_sending(
    alloc: Global,
    frame: &str,
    failing: Bytes,
    most: usize,
) -> Result<FailingLink, BsonFault>
    requires { 0 < most }
{
    let input = joined(alloc, frame)?;
    Ok(FailingLink::new(alloc, input, failing, most))
}

// How it ended, the next id, how many bytes each side was sent, and whether these are fronts of what is wanted.
type Found = (End, i32, (usize, usize), bool);

// Relays one command and its reply over these links.
fn relay_one(alloc: Global, mut client: FailingLink, mut server: FailingLink) -> Found {
    let (end, next_id) = relay_from_100(alloc, &mut client, &mut server, None, 100);
    let are_fronts = piece("ping-as-100").starts_with(server.written())
        && piece("ok-to-9").starts_with(client.written());
    (
        end,
        next_id,
        (server.written().len(), client.written().len()),
        are_fronts,
    )
}

// The same over links that move at most so many bytes, where one of them fails at this call.
fn relay_failing(alloc: Global, fails: Side, call: usize, most: usize) -> Result<Found, BsonFault>
    requires { 0 < most }
{
    let client_failing = failing_at(alloc, Side::Client, fails, call)?;
    let server_failing = failing_at(alloc, Side::Server, fails, call)?;
    let client = side_sending(alloc, "ping", client_failing, most)?;
    let server = side_sending(alloc, "ok-to-100", server_failing, most)?;
    Ok(relay_one(alloc, client, server))
}

#[test]
fn a_fault_at_each_call_names_its_side(rt: HostRuntime) -> Result<(), Fail> {
    for (fails, call, end, next_id, sent) in FAULTS {
        let found = relay_failing(rt.alloc(), fails, call, 4096)?;
        assert!(rt;
            found == (end, next_id, sent, true),
            "at {call} of {fails:?}: {found:?}"
        );
    }
    Ok(())
}

#[test]
fn a_few_bytes_at_a_time(rt: HostRuntime) -> Result<(), Fail> {
    for most in 1..20 {
        let found = relay_failing(rt.alloc(), Side::Client, 1000, most)?;
        assert!(rt;
            found == ((None, "ended", 1, 1), 101, (51, 38), true),
            "by {most}: {found:?}"
        );
    }
    Ok(())
}
