ghost use Rattle.std.specs.Prelude.{◌≡◌, ◌≤◌, [], Some, length, IsOk, IfOk, IfErr, OnOk};
ghost use Rattle.std.specs.Io.KnownBytes.{Keeps};
ghost use Rattle.mongo_wire.specs.Outside.{IsFlushed, WriteCounts, WritesOn};

use crate::{Failed, Outside, Sink, SinkError, Source};
use mongo_bson::{BsonFault, Bytes};
use std::alloc::Global;
use std::io::Read;

// How many bytes memory is taken for at the first write: a frame is written in pieces, and most logins fit.
const FIRST_ROOM: usize = 1024;

/// A [`Link`] over lists in memory: it gives the bytes of its input and keeps what is written. It tells both and never
/// fails.
#[derive(Drop)]
pub struct MemoryLink {
    input: Vec<u8>,
    at: usize,
    output: Vec<u8>,
    flushed: usize,
    ends: u64,
    ghost placed: { at ≤ length input.items },
    ghost within: { flushed ≤ length output.items },
}

impl MemoryLink {
    ghost use Rattle.mongo_wire.specs.Memory.{bytes_left, bytes_written, memory_state};

    /// A link that gives these bytes, and to which nothing was written. It takes no memory.
    pub fn new(alloc: Global, input: Bytes) -> MemoryLink
        ensures input { result.input.items ≡ input }
        ensures at { result.at ≡ 0 }
        ensures output { result.output.items ≡ [] }
        ensures flushed { result.flushed ≡ 0 }
        ensures ends { result.ends ≡ 0 }
    {
        MemoryLink {
            input: input.into_vec(),
            at: 0,
            output: Vec::new(alloc),
            flushed: 0,
            ends: 0,
        }
    }

    /// All that was written.
    pub fn written(&self) -> &[u8]
        ensures { result.now ≡ bytes_written self.now }
    {
        self.output.as_slice()
    }

    /// All that was written, for a caller that is done with the link. Nothing is copied.
    pub fn into_written(self) -> Bytes
        ensures { result ≡ bytes_written self }
    {
        Bytes::from_vec(self.output)
    }

    /// What is left of the input.
    pub fn left(&self) -> &[u8]
        ensures { result.now ≡ bytes_left self.now }
    {
        &self.input.as_slice()[self.at..]
    }

    /// Gives the whole input once more. What was written stays.
    pub fn rewind(&mut self)
        ensures state { memory_state self.new ≡ record (memory_state self.old) { left = Some self.old.input.items } }
        ensures input { self.new.input ≡ self.old.input }
    {
        self.at = 0;
    }

    /// Forgets what was written, and keeps its memory for what is written next. What is left of the input stays.
    pub fn clear_written(&mut self)
        ensures state { memory_state self.new ≡ record (memory_state self.old) { written = Some []; flushed = 0 } }
        ensures input { self.new.input ≡ self.old.input }
    {
        self.output.clear();
        self.flushed = 0;
    }

    /// A copy of the link, in memory of its own.
    pub fn try_clone(&self, alloc: Global) -> Result<MemoryLink, BsonFault>
        ensures state { IfOk result (λ copy. memory_state copy ≡ memory_state self.now) }
        ensures refused { IfErr result (λ fault. fault ≡ BsonFault.OutOfMemory) }
    {
        Ok(MemoryLink {
            input: Vec::from_slice(alloc, self.input.as_slice())?,
            at: self.at,
            output: Vec::from_slice(alloc, self.output.as_slice())?,
            flushed: self.flushed,
            ends: self.ends,
        })
    }
}

impl Outside for MemoryLink {
    ghost use Rattle.mongo_wire.specs.Memory.{memory_state};

    ghost state = { memory_state };
}

impl Source for MemoryLink {
    fn read(&mut self, buf: &mut [u8]) -> Result<usize, Failed> {
        let mut rest = &self.input.as_slice()[self.at..];
        match rest.read(buf) {
            Ok(0) => {
                if !buf.is_empty() {
                    self.ends = self.ends.saturating_add(1);
                }
                Ok(0)
            }
            Ok(count) => {
                self.at += count;
                Ok(count)
            }
            Err(_) => unreachable!(),
        }
    }

    fn read_faults(&self) -> u64 {
        0
    }

    fn ends(&self) -> u64 {
        self.ends
    }
}

impl Sink for MemoryLink {
    ghost use Rattle.mongo_wire.specs.Memory.{memory_state};

    fn write(&mut self, piece: &[u8]) -> Result<usize, SinkError> {
        if self.output.capacity() == 0 && self.output.reserve(FIRST_ROOM).is_err() {
            return Err(SinkError::OutOfMemory);
        }
        match self.output.extend_from_slice(piece) {
            Ok(()) => Ok(piece.len()),
            Err(_) => Err(SinkError::OutOfMemory),
        }
    }

    fn flush(&mut self) -> Result<(), SinkError>
        ensures bytes { Keeps (memory_state self.old).written (memory_state self.new).written }
        ensures all { OnOk result (IsFlushed (memory_state self.new)) }
        ensures exact { WriteCounts result (memory_state self.old) (memory_state self.new) }
        ensures on { WritesOn (memory_state self.old) (memory_state self.new) }
        // It neither fails nor takes memory.
        ensures done { IsOk result }
    {
        self.flushed = self.output.len();
        Ok(())
    }

    fn write_faults(&self) -> u64 {
        0
    }
}
