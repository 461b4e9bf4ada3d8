//! One frame, from one side to the other.

ghost use Rattle.std.specs.Prelude.{◌≡◌, ℤ, IfErr, OnOk};
ghost use Rattle.std.specs.Io.KnownBytes.{Appends};
ghost use Rattle.mongo_wire.specs.Buffer.{UsesMemory};
ghost use Rattle.mongo_wire.specs.Header.{maximum_of};
ghost use Rattle.mongo_wire.specs.Outside.{IsFlushed, WritesOn, WriteStops};
ghost use Rattle.mongo_wire.specs.Sending.{sections_frame, SectionsFit};
ghost use Rattle.mongo_proxy.specs.RelayedFrames.{after_command, after_reply};
ghost use Rattle.mongo_proxy.specs.Sides.{sides};
ghost use Rattle.mongo_proxy.specs.Turn.{CommandEnds, ReplyEnds};

use crate::Side;
use crate::awaited::{Asked, Awaited};
use bitflags::Flags;
use mongo_wire::{
    Error, FrameBuffer, Link, MessageFlags, MessageRef, RequestIds, Sink, write_sections,
};

/// Why a frame wasn't passed on.
#[derive(Debug, Drop)]
pub struct Stop {
    /// The side whose link was read or written.
    pub side: Side,
    /// The cause.
    pub error: Error,
}

/// Takes the next command from the client and sends it to the server under the next id; says what is awaited then, or None where the
/// client ended before it.
pub fn pass_command<C: Link, S: Link>(
    client: &mut C,
    server: &mut S,
    ids: &mut RequestIds,
    maximum: Option<i32>,
    buffer: &mut FrameBuffer,
) -> Result<Option<Awaited>, Stop>
    ensures ends { CommandEnds (maximum_of maximum) (sides (C.state client.old) (S.state server.old)) (sides (C.state client.new) (S.state server.new)) ids.old ids.new result }
    ensures memory { UsesMemory (maximum_of maximum) (C.state client.old) (C.state client.new) buffer.old buffer.new }
{
    match buffer.next(client, maximum) {
        Ok(Some(command)) => {
            let id = ids.draw();
            let asked = Asked {
                original_id: command.header.request_id,
                drawn_id: id,
            };
            match send(server, id, command.header.response_to, command, maximum) {
                Ok(()) => Ok(Some(awaited_after_command(command.flags, asked))),
                Err(error) => Err(Stop {
                    side: Side::Server,
                    error,
                }),
            }
        }
        Ok(None) => Ok(None),
        Err(fault) => Err(Stop {
            side: Side::Client,
            error: fault.into(),
        }),
    }
}

/// Takes the next reply from the server and sends it to the client under its own id; says what is awaited then.
pub fn pass_reply<C: Link, S: Link>(
    client: &mut C,
    server: &mut S,
    maximum: Option<i32>,
    buffer: &mut FrameBuffer,
    asked: Asked,
) -> Result<Awaited, Stop>
    ensures ends { (id : ℤ) → ReplyEnds (maximum_of maximum) asked (sides (C.state client.old) (S.state server.old)) (sides (C.state client.new) (S.state server.new)) id result }
    ensures memory { UsesMemory (maximum_of maximum) (S.state server.old) (S.state server.new) buffer.old buffer.new }
{
    match buffer.read(server, maximum) {
        Ok(reply) => {
            let to = asked.responds_to(reply.header.response_to);
            match send(client, reply.header.request_id, to, reply, maximum) {
                Ok(()) => Ok(awaited_after_reply(reply.flags, asked)),
                Err(error) => Err(Stop {
                    side: Side::Client,
                    error,
                }),
            }
        }
        Err(fault) => Err(Stop {
            side: Side::Server,
            error: fault.into(),
        }),
    }
}

// Writes a message's frame under these ids and without its checksum, and flushes it.
fn send<K: Sink>(
    sink: &mut K,
    request_id: i32,
    response_to: i32,
    message: MessageRef<'_>,
    maximum: Option<i32>,
) -> Result<(), Error>
    requires { SectionsFit (maximum_of maximum) message.sections.now }
    ensures sent { OnOk result (Appends (K.state sink.old).written (K.state sink.new).written (sections_frame request_id response_to message.entry.flags.0 message.entry.sections.now)) }
    ensures flushed { OnOk result (IsFlushed (K.state sink.new)) }
    ensures writes { OnOk result ((K.state sink.new).write_faults ≡ (K.state sink.old).write_faults) }
    ensures refused { IfErr result (λ e. WriteStops e.kind (K.state sink.old) (K.state sink.new) (sections_frame request_id response_to message.entry.flags.0 message.entry.sections.now)) }
    ensures on { WritesOn (K.state sink.old) (K.state sink.new) }
{
    match write_sections(
        sink,
        request_id,
        response_to,
        message.flags,
        message.sections,
        maximum,
    ) {
        Ok(()) => {}
        Err(error) => return Err(error),
    }
    match sink.flush() {
        Ok(()) => Ok(()),
        Err(fault) => Err(fault.into()),
    }
}

// What is awaited after a command with these flags.
fn awaited_after_command(flags: MessageFlags, asked: Asked) -> Awaited
    ensures { result ≡ after_command flags.0 asked }
{
    if flags.contains(MessageFlags::MORE_TO_COME) {
        Awaited::Command
    } else {
        Awaited::Reply(asked)
    }
}

// What is awaited after a reply with these flags.
fn awaited_after_reply(flags: MessageFlags, asked: Asked) -> Awaited
    ensures { result ≡ after_reply flags.0 asked }
{
    if flags.contains(MessageFlags::MORE_TO_COME) {
        Awaited::Reply(asked)
    } else {
        Awaited::Command
    }
}
