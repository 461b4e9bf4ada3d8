// The calls that read a frame into a buffer, and what each answers.
use super::{Cause, Told, end, told_by};
use mongo_wire::{FrameBuffer, Header, MessageRef, Source, next_frame, read_frame};
use std::alloc::Global;

// One of these calls.
#[derive(Clone, Copy, Debug)]
pub(crate) enum Way {
    TakeFrame,
    // after its header, which is read first
    TakeAfter,
    ReadFrame,
    NextFrame,
    Read,
    Next,
}

// A frame's length and request id, and how long its sections and its body are.
pub(crate) type Numbers = (i32, i32, usize, usize);

// The numbers of a frame, or that there is none, or why it isn't read.
pub(crate) type Answer = Result<Option<Numbers>, Told>;

// What shows a frame, or shows that there is none.
trait Shows {
    fn numbers(&self) -> Option<Numbers>;
}

impl<'a> Shows for MessageRef<'a> {
    fn numbers(&self) -> Option<Numbers> {
        Some((
            self.header.length,
            self.header.request_id,
            self.sections.len(),
            self.document_payload.as_bytes().len(),
        ))
    }
}

impl<'a> Shows for Option<MessageRef<'a>> {
    fn numbers(&self) -> Option<Numbers> {
        match self {
            Some(message) => message.numbers(),
            None => None,
        }
    }
}

// The answer of a call that gives what shows the frame.
fn shown<T: Shows + Drop, E: Cause + Drop>(frame: Result<T, E>) -> Answer {
    match frame {
        Ok(frame) => Ok(frame.numbers()),
        Err(cause) => Err(told_by(cause)),
    }
}

// The numbers of the frame that the buffer holds.
pub(crate) fn held(buffer: &FrameBuffer) -> Option<Numbers> {
    buffer.message().numbers()
}

// What the buffer shows after a call that took a frame.
fn held_after<E: Cause + Drop>(taken: Result<(), E>, buffer: &FrameBuffer) -> Answer {
    match end(taken) {
        Told::Done => Ok(held(buffer)),
        told => Err(told),
    }
}

fn by_take_frame<S: Source>(source: &mut S, buffer: &mut FrameBuffer) -> Answer {
    let taken = buffer.take_frame(source, None);
    held_after(taken, buffer)
}

fn by_take_after<S: Source>(source: &mut S, buffer: &mut FrameBuffer) -> Answer {
    match Header::read_from(source) {
        Ok(header) => {
            let taken = buffer.take_after(source, header, None);
            held_after(taken, buffer)
        }
        Err(error) => Err(told_by(error)),
    }
}

// What the call answers of the source's next frame.
pub(crate) fn read_by<S: Source>(
    way: Way,
    alloc: Global,
    source: &mut S,
    buffer: &mut FrameBuffer,
) -> Answer {
    match way {
        Way::TakeFrame => by_take_frame(source, buffer),
        Way::TakeAfter => by_take_after(source, buffer),
        Way::ReadFrame => shown(read_frame(alloc, source, None, buffer)),
        Way::NextFrame => shown(next_frame(alloc, source, None, buffer)),
        Way::Read => shown(buffer.read(source, None)),
        Way::Next => shown(buffer.next(source, None)),
    }
}
