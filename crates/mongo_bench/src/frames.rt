ghost use Rattle.std.specs.Prelude.{◌≡◌, ◌≢◌, None, IfOk};
ghost use Rattle.mongo_wire.specs.Bytes.{first_maximum};
ghost use Rattle.mongo_wire.specs.Message.{Fits};
ghost use Rattle.mongo_bench.specs.Built.{IsWholeFrame};
ghost use Rattle.mongo_bench.specs.Task.{HasPrinted};
ghost use Rattle.mongo_bench.specs.Work.{work_of_frames};

use crate::building::{empty_document, put};
use crate::run::{BenchStatus, RanTask};
use crate::task::{BenchTask, Direction, FrameSize};
use crate::walking::write_number;
use crate::work::{Passed, read_frames, read_owned_frames, write_frames};
use bitflags::Flags;
use mongo_bson::{Bytes, RawValue};
use mongo_establish::want_of_memory;
use mongo_wire::{MemoryLink, Message, MessageFlags, RequestIds, Sequences};
use std::alloc::{AllocError, Global};
use std::io::Write;

// How many bytes a frame has around the content of its document: header, flags and kind byte, and of the document the
// length, the element's kind, its key `data`, the length and subtype of its binary value, and the final zero.
const AROUND: usize = 37;

/// Writes or reads a frame of this size so often over memory, and writes how many bytes the last one had.
pub fn run_frames<W: Write>(
    alloc: Global,
    direction: Direction,
    size: FrameSize,
    count: u32,
    out: &mut W,
) -> RanTask
    ensures done { result.status ≡ BenchStatus.Done → HasPrinted (BenchTask.Frames direction size count) (W.contents out.old) (W.contents out.new) }
    ensures work { result.status ≡ BenchStatus.Done → result.work ≡ work_of_frames direction count }
    ensures ran { result.status ≢ BenchStatus.Usage }
{
    match pass_frames(alloc, direction, size, count) {
        Ok(passed) => RanTask::written(write_number(passed.last, out), passed.work),
        Err(_) => RanTask::without_memory(),
    }
}

// How many bytes the last frame has, of so many of this size that are written or read.
fn pass_frames(
    alloc: Global,
    direction: Direction,
    size: FrameSize,
    count: u32,
) -> Result<Passed<usize>, AllocError>
    ensures { IfOk result (λ passed. passed.work ≡ work_of_frames direction count) }
{
    let message = message_of_size(alloc, size)?;
    match direction {
        Direction::Write => write_frames(alloc, &message, count),
        Direction::Read => read_frames(alloc, frame_of(alloc, &message)?.as_bytes(), count),
        Direction::ReadOwned => read_owned_frames(
            alloc,
            frame_of(alloc, &message)?.as_bytes(),
            count,
        ),
    }
}

// The bytes of the message's frame.
fn frame_of(alloc: Global, message: &Message) -> Result<Bytes, AllocError>
    requires fits { Fits first_maximum message.now }
    requires unsummed { message.now.checksum ≡ None }
    ensures { IfOk result IsWholeFrame }
{
    let mut link = MemoryLink::new(alloc, Bytes::new(alloc));
    match message.write_op_msg_to(alloc, &mut link, None, &mut RequestIds::new(0)) {
        Ok(()) => Ok(link.into_written()),
        Err(error) => Err(want_of_memory(error)),
    }
}

// A message whose frame has this size: its document holds one binary value.
fn message_of_size(alloc: Global, size: FrameSize) -> Result<Message, AllocError>
    ensures fits { IfOk result (Fits first_maximum) }
    ensures unsummed { IfOk result (λ message. message.checksum ≡ None) }
{
    let content = vec![in alloc; 0x61; size.bytes() - AROUND]?;
    let mut document_payload = empty_document(alloc)?;
    put(
        &mut document_payload,
        "data",
        RawValue::Binary(0, content.as_slice()),
    )?;
    Ok(Message {
        document_payload,
        document_sequences: Sequences::new(alloc),
        response_to: 0,
        flags: MessageFlags::empty(),
        checksum: None,
        request_id: None,
    })
}
