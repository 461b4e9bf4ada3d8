ghost use Rattle.std.specs.Prelude.{◌≡◌, ◌<◌, ◌≤◌, ◌↔◌, [], length, true, IfOk, IfErr, OnOk, OnErr, IsErr, IsErrOf};
ghost use Rattle.std.specs.Io.KnownBytes.{Keeps, ReadConsumes, WriteAppends};
ghost use Rattle.mongo_wire.specs.Outside.{Rose, IsFlushed, ReadCounts, ReadsOn, WriteCounts, WritesOn, risen};
ghost use Rattle.mongo_wire.specs.Memory.{bytes_left, bytes_written};

use crate::{Failed, MemoryLink, Outside, Sink, SinkError, Source};
use mongo_bson::{BsonFault, Bytes};
use std::alloc::Global;

/// A [`Link`] over lists in memory that fails at chosen calls and moves a few bytes at a time. It tells both lists.
///
/// Reads, writes and flushes are counted together, from 0.
#[derive(Drop)]
pub struct FailingLink {
    link: MemoryLink,
    failing: Bytes,
    most: usize,
    calls: usize,
    read_faults: u64,
    write_faults: u64,
    ghost moves: { 0 < most },
}

impl FailingLink {
    ghost use Rattle.mongo_wire.specs.Failing.{fails_at, state_of};

    /// A link that gives the bytes of `input`, and to which nothing was written. A call fails where its byte in
    /// `failing` isn't 0; calls past the end of `failing` don't. A read or a write moves at most `most` bytes. It takes
    /// no memory.
    pub fn new(alloc: Global, input: Bytes, failing: Bytes, most: usize) -> FailingLink
        requires { 0 < most }
        ensures input { result.link.input.items ≡ input }
        ensures at { result.link.at ≡ 0 }
        ensures output { result.link.output.items ≡ [] }
        ensures flushed { result.link.flushed ≡ 0 }
        ensures ends { result.link.ends ≡ 0 }
        ensures failing { result.failing ≡ failing }
        ensures most { result.most ≡ most }
        ensures calls { result.calls ≡ 0 }
        ensures read_faults { result.read_faults ≡ 0 }
        ensures write_faults { result.write_faults ≡ 0 }
    {
        FailingLink {
            link: MemoryLink::new(alloc, input),
            failing,
            most,
            calls: 0,
            read_faults: 0,
            write_faults: 0,
        }
    }

    /// All that was written.
    pub fn written(&self) -> &[u8]
        ensures { result.now ≡ bytes_written self.now.link }
    {
        self.link.written()
    }

    /// What is left of the input.
    pub fn left(&self) -> &[u8]
        ensures { result.now ≡ bytes_left self.now.link }
    {
        self.link.left()
    }

    /// A copy of the link, in memory of its own: it means what the link means, and fails at the same calls.
    pub fn try_clone(&self, alloc: Global) -> Result<FailingLink, BsonFault>
        ensures state { IfOk result (λ copy. state_of copy ≡ state_of self.now) }
        ensures schedule { IfOk result (λ copy. (copy.failing ≡ self.now.failing) × (copy.most ≡ self.now.most) × (copy.calls ≡ self.now.calls)) }
        ensures refused { IfErr result (λ fault. fault ≡ BsonFault.OutOfMemory) }
    {
        Ok(FailingLink {
            link: self.link.try_clone(alloc)?,
            failing: self.failing.try_clone(alloc)?,
            most: self.most,
            calls: self.calls,
            read_faults: self.read_faults,
            write_faults: self.write_faults,
        })
    }

    // Counts a call, and says whether it fails.
    fn fails(&mut self) -> bool
        ensures fails { result ≡ fails_at self.old.failing self.old.calls }
        ensures counted { self.new ≡ record self.old { calls = risen self.old.calls } }
    {
        let fails = match self.failing.as_bytes().get(self.calls) {
            Some(byte) => *byte != 0,
            None => false,
        };
        self.calls = self.calls.saturating_add(1);
        fails
    }
}

impl Outside for FailingLink {
    ghost use Rattle.mongo_wire.specs.Failing.{state_of};

    ghost state = { state_of };
}

impl Source for FailingLink {
    ghost use Rattle.mongo_wire.specs.Failing.{fails_at, counted_fault, state_of};

    fn read(&mut self, buf: &mut [u8]) -> Result<usize, Failed>
        ensures most { IfOk result (λ count. count ≤ length buf.new) }
        ensures bytes { ReadConsumes (state_of self.old).left (state_of self.new).left result buf.new }
        ensures failed { OnErr result (Rose self.old.read_faults self.new.read_faults) }
        ensures ended { IfOk result (λ count. count ≡ 0 → 0 < length buf.new → Rose self.old.link.ends self.new.link.ends) }
        ensures exact { ReadCounts result (length buf.new) (state_of self.old) (state_of self.new) }
        ensures on { ReadsOn (state_of self.old) (state_of self.new) }
        // It fails just where its byte isn't 0, moves at most so many bytes, and each call counts.
        ensures fails { IsErr result ↔ (fails_at self.old.failing self.old.calls ≡ true) }
        ensures few { IfOk result (λ count. count ≤ self.old.most) }
        ensures calls { self.new.calls ≡ risen self.old.calls }
        ensures faults { self.new.read_faults ≡ counted_fault (fails_at self.old.failing self.old.calls) self.old.read_faults }
        ensures schedule { (self.new.failing ≡ self.old.failing) × (self.new.most ≡ self.old.most) }
    {
        if self.fails() {
            self.read_faults = self.read_faults.saturating_add(1);
            return Err(Failed);
        }
        let room = buf.len().min(self.most);
        self.link.read(&mut buf[..room])
    }

    fn read_faults(&self) -> u64 {
        self.read_faults
    }

    fn ends(&self) -> u64 {
        self.link.ends()
    }
}

impl Sink for FailingLink {
    ghost use Rattle.mongo_wire.specs.Failing.{fails_at, counted_fault, state_of};

    fn write(&mut self, piece: &[u8]) -> Result<usize, SinkError>
        ensures most { IfOk result (λ count. count ≤ length piece.now) }
        ensures some { IfOk result (λ count. 0 < length piece.now → 0 < count) }
        ensures bytes { WriteAppends (state_of self.old).written (state_of self.new).written result piece.now }
        ensures exact { WriteCounts result (state_of self.old) (state_of self.new) }
        ensures on { WritesOn (state_of self.old) (state_of self.new) }
        // It fails just where its byte isn't 0, moves at most so many bytes, and each call counts.
        ensures fails { IsErrOf result SinkError.Failed ↔ (fails_at self.old.failing self.old.calls ≡ true) }
        ensures few { IfOk result (λ count. count ≤ self.old.most) }
        ensures calls { self.new.calls ≡ risen self.old.calls }
        ensures faults { self.new.write_faults ≡ counted_fault (fails_at self.old.failing self.old.calls) self.old.write_faults }
        ensures schedule { (self.new.failing ≡ self.old.failing) × (self.new.most ≡ self.old.most) }
    {
        if self.fails() {
            self.write_faults = self.write_faults.saturating_add(1);
            return Err(SinkError::Failed);
        }
        let room = piece.len().min(self.most);
        self.link.write(&piece[..room])
    }

    fn flush(&mut self) -> Result<(), SinkError>
        ensures bytes { Keeps (state_of self.old).written (state_of self.new).written }
        ensures all { OnOk result (IsFlushed (state_of self.new)) }
        ensures exact { WriteCounts result (state_of self.old) (state_of self.new) }
        ensures on { WritesOn (state_of self.old) (state_of self.new) }
        // It fails just where its byte isn't 0, each call counts, and it takes no memory.
        ensures fails { IsErr result ↔ (fails_at self.old.failing self.old.calls ≡ true) }
        ensures fault { IfErr result (λ fault. fault ≡ SinkError.Failed) }
        ensures calls { self.new.calls ≡ risen self.old.calls }
        ensures faults { self.new.write_faults ≡ counted_fault (fails_at self.old.failing self.old.calls) self.old.write_faults }
        ensures schedule { (self.new.failing ≡ self.old.failing) × (self.new.most ≡ self.old.most) }
    {
        if self.fails() {
            self.write_faults = self.write_faults.saturating_add(1);
            return Err(SinkError::Failed);
        }
        self.link.flush()
    }

    fn write_faults(&self) -> u64 {
        self.write_faults
    }
}
