//! The relay: one frame after another.

ghost use Rattle.std.specs.Prelude.{◌≡◌, ◌+◌, ◌-◌, ◌^◌, ◌<◌, List};
ghost use Rattle.mongo_wire.specs.Buffer.{StaysWithin};
ghost use Rattle.mongo_wire.specs.Header.{maximum_of};
ghost use Rattle.mongo_proxy.specs.RelayedFrames.{RelayedFrame, stand};
ghost use Rattle.mongo_proxy.specs.Relays.{Relays, counted};
ghost use Rattle.mongo_proxy.specs.Script.{IsScript, NothingFailed, Completes};
ghost use Rattle.mongo_proxy.specs.Sides.{sides};
ghost use Rattle.mongo_proxy.specs.Turn.{TurnEnds};

use crate::awaited::Awaited;
use crate::passing::{Stop, pass_command, pass_reply};
use crate::{RelayFault, Relayed};
use mongo_wire::{FrameBuffer, Link, RequestIds};
use std::alloc::Global;

/// Passes on commands from the client to the server and replies from the server to the client, each within `max` bytes, 50331648 where
/// none is given, until `most` frames were passed on or the client ends before a command's first byte.
///
/// A command goes on under the next id of `ids`, a reply under its own; a reply to the drawn id responds to the command's own. Flags go
/// on but for `CHECKSUM_PRESENT`, sections byte for byte, and no checksum. After a command without `MORE_TO_COME` replies are taken up
/// to the first without it. Each frame is flushed before it counts and before the next is taken.
///
/// Refusals, each with the side whose link was read or written and what was relayed before: those of [`FrameBuffer::next`] on the client
/// where a command is awaited, of [`FrameBuffer::read`] on the server where a reply is; `WriteFault` of the side that a frame goes to;
/// `OutOfMemory`. Nothing is read past the frame of the fault, and the frame that was taken and not passed on is written in part at most.
pub fn relay<C: Link, S: Link>(
    alloc: Global,
    client: &mut C,
    server: &mut S,
    ids: &mut RequestIds,
    max: Option<i32>,
    most: u64,
) -> Result<Relayed, RelayFault>
    // What was passed on, what each side was sent, and why it ended.
    ensures relays { Relays (maximum_of max) most ids.old ids.new (sides (C.state client.old) (S.state server.old)) (sides (C.state client.new) (S.state server.new)) result }
    // Two sides that behave are relayed to the end, unless memory runs out.
    ensures completes { (relayed : List RelayedFrame) → IsScript (maximum_of max) ids.old most (sides (C.state client.old) (S.state server.old)) relayed
        → NothingFailed (sides (C.state client.old) (S.state server.old)) (sides (C.state client.new) (S.state server.new))
        → Completes most (sides (C.state client.old) (S.state server.old)) (sides (C.state client.new) (S.state server.new)) relayed result }
{
    let mut buffers = Buffers {
        commands: FrameBuffer::new(alloc),
        replies: FrameBuffer::new(alloc),
    };
    relay_with(client, server, ids, max, most, &mut buffers)
}

/// A buffer for the frames of each side.
#[derive(Drop)]
pub struct Buffers {
    commands: FrameBuffer,
    replies: FrameBuffer,
}

// Relays through these buffers. The memory of each stays within the maximum, or what it was.
fn relay_with<C: Link, S: Link>(
    client: &mut C,
    server: &mut S,
    ids: &mut RequestIds,
    max: Option<i32>,
    most: u64,
    buffers: &mut Buffers,
) -> Result<Relayed, RelayFault>
    ensures relays { Relays (maximum_of max) most ids.old ids.new (sides (C.state client.old) (S.state server.old)) (sides (C.state client.new) (S.state server.new)) result }
    ensures command_memory { StaysWithin (maximum_of max) buffers.old.commands buffers.new.commands }
    ensures reply_memory { StaysWithin (maximum_of max) buffers.old.replies buffers.new.replies }
{
    let mut awaited = Awaited::Command;
    let mut done = Relayed {
        commands: 0,
        replies: 0,
        ended: false,
    };
    'relaying: for _turn in 0..most {
        match pass_next(client, server, ids, max, buffers, awaited) {
            Ok(Some(next)) => {
                done = counted(done, awaited);
                awaited = next;
            }
            Ok(None) => return Ok(Relayed {
                commands: done.commands,
                replies: done.replies,
                ended: true,
            }),
            Err(stop) => return Err(RelayFault {
                side: stop.side,
                error: stop.error,
                done,
            }),
        }
    }
    Ok(done)
}

// Passes on the frame that is awaited; says what is awaited then, or None where the client ended before it.
fn pass_next<C: Link, S: Link>(
    client: &mut C,
    server: &mut S,
    ids: &mut RequestIds,
    max: Option<i32>,
    buffers: &mut Buffers,
    awaited: Awaited,
) -> Result<Option<Awaited>, Stop>
    ensures ends { TurnEnds (maximum_of max) (stand awaited ids.old) (sides (C.state client.old) (S.state server.old)) (sides (C.state client.new) (S.state server.new)) ids.new result }
    ensures command_memory { StaysWithin (maximum_of max) buffers.old.commands buffers.new.commands }
    ensures reply_memory { StaysWithin (maximum_of max) buffers.old.replies buffers.new.replies }
{
    match awaited {
        Awaited::Command => pass_command(client, server, ids, max, &mut buffers.commands),
        Awaited::Reply(asked) => {
            match pass_reply(client, server, max, &mut buffers.replies, asked) {
                Ok(next) => Ok(Some(next)),
                Err(stop) => Err(stop),
            }
        }
    }
}

// The counts after one frame more: a command where one was awaited, a reply where one was.
fn counted(done: Relayed, awaited: Awaited) -> Relayed
    requires { done.commands + done.replies < 2 ^ 64 - 1 }
    ensures { result ≡ counted done awaited }
{
    match awaited {
        Awaited::Command => Relayed {
            commands: done.commands + 1,
            replies: done.replies,
            ended: done.ended,
        },
        Awaited::Reply(_) => Relayed {
            commands: done.commands,
            replies: done.replies + 1,
            ended: done.ended,
        },
    }
}
