// Memory is taken for bytes that came, and not for those that a length announces.
use super::reading::header;
use super::small::document_end;
use super::ways::{Way, read_by};
use super::{Told, giving_zeros, read_end};
use mongo_wire::{Failed, FrameBuffer, MemoryLink, Outside, Source};
use std::alloc::Global;
use std::test::Fail;

// A source that notes the greatest buffer that it was handed.
#[derive(Drop)]
struct Widest<S> {
    source: S,
    room: usize,
}

impl<S> Widest<S> {
    // The room where a call was refused, and more than any where it was done.
    fn room_unless(&self, is_done: bool) -> usize {
        if is_done { usize::MAX } else { self.room }
    }
}

impl<S: Source> Outside for Widest<S> {
    ghost state = { λ s. S.state s.source };
}

impl<S: Source> Source for Widest<S> {
    fn read(&mut self, buf: &mut [u8]) -> Result<usize, Failed> {
        self.room = self.room.max(buf.len());
        self.source.read(buf)
    }

    fn read_faults(&self) -> u64 {
        self.source.read_faults()
    }

    fn ends(&self) -> u64 {
        self.source.ends()
    }
}

// A source of this start and so many zeros.
fn announcing(alloc: Global, start: &[u8], came: usize) -> Result<Widest<MemoryLink>, Fail> {
    let source = giving_zeros(alloc, start, came)?;
    Ok(Widest { source, room: 0 })
}

// The greatest buffer that a call hands to the source, or more than there can be where the call isn't refused.
fn room_of_frame(way: Way, alloc: Global, came: usize) -> Result<usize, Fail> {
    let mut source = announcing(alloc, &header(50_331_648, 2013), came)?;
    let mut buffer = FrameBuffer::new(alloc);
    let answer = read_by(way, alloc, &mut source, &mut buffer);
    Ok(source.room_unless(answer.is_ok()))
}

fn room_of_message(alloc: Global, came: usize) -> Result<usize, Fail> {
    let mut source = announcing(alloc, &header(50_331_648, 2013), came)?;
    let told = read_end(alloc, &mut source);
    Ok(source.room_unless(told != Told::EndOfInput))
}

fn room_of_document(alloc: Global, came: usize) -> Result<usize, Fail> {
    let mut source = announcing(alloc, &[0xff, 0xff, 0xff, 0x7f], came)?;
    let told = document_end(alloc, &mut source);
    Ok(source.room_unless(told != Told::EndOfInput))
}

// The greatest of the rooms of each call that reads a frame.
fn room_of_frames(alloc: Global, came: usize) -> Result<usize, Fail> {
    let taken = room_of_frame(Way::TakeFrame, alloc, came)?;
    let read = room_of_frame(Way::ReadFrame, alloc, came)?;
    let next = room_of_frame(Way::NextFrame, alloc, came)?;
    Ok(taken.max(read).max(next))
}

// The greatest of the rooms of each call that reads a frame, a message or a document.
fn greatest_room(alloc: Global, came: usize) -> Result<usize, Fail> {
    let frames = room_of_frames(alloc, came)?;
    let message = room_of_message(alloc, came)?;
    let document = room_of_document(alloc, came)?;
    Ok(frames.max(message).max(document))
}

#[test]
fn memory_is_taken_for_what_came(rt: HostRuntime) -> Result<(), Fail> {
    for came in [0, 100, 4096, 10_000, 100_000] {
        let room = greatest_room(rt.alloc(), came)?;
        // what came and one piece at most
        assert!(rt; room <= came.saturating_add(4096), "{:?}", (came, room));
    }
    Ok(())
}
