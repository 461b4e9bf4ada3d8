// Readers and writers of std that fail, end, take little or take nothing. As they tell no bytes, no clause says what becomes of theirs.
use super::{EMPTY_MESSAGE, Told, empty_message, read_end, write_end};
use mongo_wire::{Link, RequestIds, Sink, Source, StdLink, StdSink, StdSource};
use std::alloc::Global;
use std::io;
use std::io::{Read, Write};
use std::test::Fail;

// Gives its bytes one at a time, and fails once where so many were given.
#[derive(Drop)]
struct FailingReader<'a> {
    bytes: &'a [u8],
    given: usize,
    failing: Option<usize>,
}

impl<'a> Read for FailingReader<'a> {
    fn read(&mut self, buf: &mut [u8]) -> io::Result<usize> {
        if self.failing == Some(self.given) {
            self.failing = None;
            return Err(io::Error::from(io::ErrorKind::BrokenPipe));
        }
        match (self.bytes.get(self.given), buf.first_mut()) {
            (Some(byte), Some(place)) => {
                *place = *byte;
                self.given = self.given.saturating_add(1);
                Ok(1)
            }
            _ => Ok(0),
        }
    }
}

// Keeps what is written, at most so many bytes a call, fails where it holds so many, and counts its flushes.
#[derive(Drop)]
struct FailingWriter {
    held: Vec<u8>,
    most: usize,
    failing: Option<usize>,
    flush_fails: bool,
    flushes: u32,
}

impl Write for FailingWriter {
    fn write(&mut self, buf: &[u8]) -> io::Result<usize> {
        if self.failing == Some(self.held.len()) {
            return Err(io::Error::from(io::ErrorKind::BrokenPipe));
        }
        let count = buf.len().min(self.most);
        self.held.extend_from_slice(&buf[..count])?;
        Ok(count)
    }

    fn flush(&mut self) -> io::Result<()> {
        self.flushes = self.flushes.saturating_add(1);
        if self.flush_fails {
            Err(io::Error::from(io::ErrorKind::BrokenPipe))
        } else {
            Ok(())
        }
    }
}

// A reader that fails where so many bytes were given.
fn reader(failing: usize) -> FailingReader<'static> {
    FailingReader {
        bytes: &EMPTY_MESSAGE,
        given: 0,
        failing: Some(failing),
    }
}

// How a read ended, and a source's counts of faults and of ends after it.
type ReadSeen = (Told, u64, u64);

// How a read ends, and a source's counts of faults and of ends.
fn read_through<S: Source>(alloc: Global, source: &mut S) -> ReadSeen {
    let told = read_end(alloc, source);
    (told, source.read_faults(), source.ends())
}

// What is seen of each of two reads of a source whose reader fails there.
fn two_reads(alloc: Global, failing: usize) -> (ReadSeen, ReadSeen) {
    let mut source = StdSource::new(reader(failing));
    let first = read_through(alloc, &mut source);
    (first, read_through(alloc, &mut source))
}

// What is to be seen of the first read.
fn first_seen(failing: usize) -> ReadSeen {
    if failing < 26 {
        (Told::ReadFault, 1, 0)
    } else {
        (Told::Done, 0, 0)
    }
}

// Whether this is to be seen of the second read: fewer than the 16 bytes of a header are left where 11 or more were given, and
// none after the whole frame.
fn is_second(failing: usize, seen: ReadSeen) -> bool {
    let (told, faults, ends) = seen;
    (told == Told::ReadFault) == (failing == 26)
        && (told == Told::Done) == (failing == 0)
        && (ends == 1) == (failing > 10 && failing != 26)
        && (faults == 1) == (failing < 27)
}

#[test]
fn a_reader_that_fails_is_told_from_one_that_ends(rt: HostRuntime) {
    for failing in 0..28 {
        let (first, second) = two_reads(rt.alloc(), failing);
        assert!(rt; first == first_seen(failing), "{:?}", (failing, first));
        assert!(rt; is_second(failing, second), "{:?}", (failing, second));
    }
}

// What is seen of a write: how it ended, the sink's count of faults, the bytes that the writer holds and its flushes.
type WriteSeen = (Told, u64, usize, u32);

// How the write of the empty message ends, and the sink's count of faults.
fn write_through<K: Sink>(alloc: Global, sink: &mut K) -> Result<(Told, u64), Fail> {
    let message = empty_message(alloc)?;
    let mut ids = RequestIds::new(0);
    let told = write_end(alloc, &message, sink, None, &mut ids);
    Ok((told, sink.write_faults()))
}

// What is seen where the writer holds a front of the message, and nothing else.
fn seen(told: Told, faults: u64, writer: &FailingWriter) -> Option<WriteSeen> {
    if EMPTY_MESSAGE.starts_with(writer.held.as_slice()) {
        Some((told, faults, writer.held.len(), writer.flushes))
    } else {
        None
    }
}

// What is seen of a write through a sink over the writer.
fn through_sink(alloc: Global, mut writer: FailingWriter) -> Result<Option<WriteSeen>, Fail> {
    let (told, faults) = write_through(alloc, &mut StdSink::new(&mut writer))?;
    Ok(seen(told, faults, &writer))
}

// The same of a write and of a read through a link over the writer and a reader that fails at once.
fn through_link(
    alloc: Global,
    mut writer: FailingWriter,
) -> Result<(Option<WriteSeen>, ReadSeen), Fail> {
    let mut link = StdLink::new(reader(0), &mut writer);
    let (told, faults) = write_through(alloc, &mut link)?;
    let read = read_through(alloc, &mut link);
    Ok((seen(told, faults, &writer), read))
}

// A writer that takes so many bytes a call and fails so, and holds nothing yet.
fn writer(alloc: Global, most: usize, failing: Option<usize>, flush_fails: bool) -> FailingWriter {
    FailingWriter {
        held: Vec::new(alloc),
        most,
        failing,
        flush_fails,
        flushes: 0,
    }
}

// What is seen through a sink and through a link, each over a writer of its own.
fn through_both(
    alloc: Global,
    most: usize,
    failing: Option<usize>,
    flush_fails: bool,
) -> Result<(Option<WriteSeen>, Option<WriteSeen>, ReadSeen), Fail> {
    let sunk = through_sink(alloc, writer(alloc, most, failing, flush_fails))?;
    let (linked, read) = through_link(alloc, writer(alloc, most, failing, flush_fails))?;
    Ok((sunk, linked, read))
}

// What is to be seen of a write that ends with a fault or with none.
fn write_seen(held: usize, flushes: u32, faults: u64) -> Option<WriteSeen> {
    if faults == 0 {
        Some((Told::Done, faults, held, flushes))
    } else {
        Some((Told::WriteFault, faults, held, flushes))
    }
}

// Most bytes a call, where it fails, whether its flush fails; then bytes written, flushes, faults.
const WRITERS: [(usize, Option<usize>, bool, usize, u32, u64); 7] = [
    (1, None, false, 26, 1, 0),
    (100, None, false, 26, 1, 0),
    (0, None, false, 0, 0, 1),
    (1, Some(0), false, 0, 0, 1),
    (1, Some(20), false, 20, 0, 1),
    (100, Some(21), false, 21, 0, 1),
    (1, None, true, 26, 1, 1),
];

#[test]
fn a_writer_that_fails_or_takes_nothing_is_told(rt: HostRuntime) -> Result<(), Fail> {
    for (most, failing, flush_fails, held, flushes, faults) in WRITERS {
        let wanted = write_seen(held, flushes, faults);
        let seen = through_both(rt.alloc(), most, failing, flush_fails)?;
        assert_eq!(rt; seen, (wanted, wanted, (Told::ReadFault, 1, 0)));
    }
    Ok(())
}

// Whether a write through a link and a read of its one frame are done and another read is at its end, and that end is all that
// it counts.
fn counts_the_end<L: Link>(alloc: Global, link: &mut L) -> Result<bool, Fail> {
    let (wrote, _) = write_through(alloc, link)?;
    let first = read_end(alloc, link);
    let second = read_end(alloc, link);
    let are_told = wrote == Told::Done && first == Told::Done && second == Told::EndOfInput;
    Ok(are_told && link.ends() == 1 && link.read_faults() == 0 && link.write_faults() == 0)
}

// Whether a link over a slice and a list is seen so, and the frame is written.
fn is_counted_apart(alloc: Global) -> Result<bool, Fail> {
    let mut held = Vec::new(alloc);
    let mut link = StdLink::new(EMPTY_MESSAGE.as_slice(), &mut held);
    let is_counted = counts_the_end(alloc, &mut link)?;
    Ok(is_counted && held.as_slice() == EMPTY_MESSAGE.as_slice())
}

#[test]
fn a_link_counts_each_direction_apart(rt: HostRuntime) -> Result<(), Fail> {
    assert!(rt; is_counted_apart(rt.alloc())?);
    Ok(())
}
