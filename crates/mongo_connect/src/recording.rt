ghost use Rattle.std.specs.Prelude.{◌≡◌};
ghost use Rattle.std.specs.Io.KnownBytes.{append_known};
ghost use Rattle.std.proofs.Props.{props};
ghost use Rattle.mongo_connect.specs.Recording.{IsTakenCount, given_count};

use crate::origin::Origin;
use mongo_wire::{Failed, Link, Outside, Sink, SinkError, Source};
use std::alloc::Global;
use std::marker::PhantomData;

// How many bytes a read gave.
fn given_count(read: &Result<usize, Failed>) -> usize
    ensures { result ≡ given_count read.now }
{
    match read {
        Ok(count) => *count,
        Err(_) => 0,
    }
}

/// A link that passes every call on to another, keeps what was written to it and counts what was read.
pub struct Recording<L: Link, O: Origin> {
    link: L,
    written: Vec<u8>,
    taken: usize,
    origin: PhantomData<O>,
    ghost kept: { (L.state link).written ≡ append_known O.origin.written written.items } by { Prim.hlevel props },
    ghost counted: { IsTakenCount O.origin.left (L.state link).left taken },
}

impl<L: Link, O: Origin> Recording<L, O> {
    ghost use Rattle.std.specs.Prelude.{◌≡◌};
    ghost use Rattle.std.specs.Io.KnownBytes.{append_known};
    ghost use Rattle.mongo_connect.specs.Recording.{IsTakenCount};

    /// Records from now on. It takes no memory.
    pub fn new(alloc: Global, link: L) -> Recording<L, O>
        requires origin { O.origin ≡ L.state link }
        ensures state { L.state result.link ≡ O.origin }
    {
        Recording {
            link,
            written: Vec::new(alloc),
            taken: 0,
            origin: PhantomData,
        }
    }

    /// All that was written since.
    pub fn written(&self) -> &[u8]
        ensures kept { (L.state self.now.link).written ≡ append_known O.origin.written result.now }
    {
        self.written.as_slice()
    }

    /// How many bytes were read since. The count stays at its last value.
    pub fn taken(&self) -> usize
        ensures counted { IsTakenCount O.origin.left (L.state self.now.link).left result }
    {
        self.taken
    }

    /// The link.
    pub fn into_link(self) -> L
        ensures link { result ≡ self.link }
    {
        let Recording {
            link,
            written: _written,
            taken: _taken,
            origin: _origin,
        } = self;
        link
    }
}

impl<L: Link, O: Origin> Outside for Recording<L, O> {
    ghost state = { λ r. L.state r.link };
}

impl<L: Link, O: Origin> Source for Recording<L, O> {
    fn read(&mut self, buf: &mut [u8]) -> Result<usize, Failed> {
        let read = self.link.read(buf);
        self.taken = self.taken.saturating_add(given_count(&read));
        read
    }

    fn read_faults(&self) -> u64 {
        self.link.read_faults()
    }

    fn ends(&self) -> u64 {
        self.link.ends()
    }
}

impl<L: Link, O: Origin> Sink for Recording<L, O> {
    // The room is taken first, so that a write that wants memory has taken nothing.
    fn write(&mut self, piece: &[u8]) -> Result<usize, SinkError> {
        let before = self.written.len();
        if self.written.extend_from_slice(piece).is_err() {
            return Err(SinkError::OutOfMemory);
        }
        match self.link.write(piece) {
            Ok(count) => {
                self.written.truncate(before + count);
                Ok(count)
            }
            Err(fault) => {
                self.written.truncate(before);
                Err(fault)
            }
        }
    }

    fn flush(&mut self) -> Result<(), SinkError> {
        self.link.flush()
    }

    fn write_faults(&self) -> u64 {
        self.link.write_faults()
    }
}
