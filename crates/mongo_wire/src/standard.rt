ghost use Rattle.std.specs.Prelude.{◌≡◌, ◌<◌, ◌≤◌, length, IfOk, IfErr, OnOk, OnErr};
ghost use Rattle.std.specs.Io.KnownBytes.{Keeps, ReadConsumes, WriteAppends};
ghost use Rattle.mongo_wire.specs.Outside.{Rose, IsFlushed, ReadCounts, ReadsOn, WriteCounts, WritesOn, untold};

use crate::{Failed, Outside, Sink, SinkError, Source};
use std::io::{Read, Write};

/// A [`Source`] over a reader of std. It tells nothing.
#[derive(Drop)]
pub struct StdSource<R> {
    reader: R,
    read_faults: u64,
    ends: u64,
}

impl<R: Read> StdSource<R> {
    /// A source that reads from `reader`. Both counts are 0.
    pub fn new(reader: R) -> StdSource<R>
        ensures reader { result.reader ≡ reader }
        ensures faults { result.read_faults ≡ 0 }
        ensures ends { result.ends ≡ 0 }
    {
        StdSource {
            reader,
            read_faults: 0,
            ends: 0,
        }
    }
}

impl<R: Read> Outside for StdSource<R> {
    ghost state = { λ s. untold s.read_faults s.ends 0 };
}

impl<R: Read> Source for StdSource<R> {
    fn read(&mut self, buf: &mut [u8]) -> Result<usize, Failed>
        ensures most { IfOk result (λ count. count ≤ length buf.new) }
        ensures failed { OnErr result (Rose self.old.read_faults self.new.read_faults) }
        ensures ended { IfOk result (λ count. count ≡ 0 → 0 < length buf.new → Rose self.old.ends self.new.ends) }
        ensures exact { ReadCounts result (length buf.new) (untold self.old.read_faults self.old.ends 0) (untold self.new.read_faults self.new.ends 0) }
        ensures on { ReadsOn (untold self.old.read_faults self.old.ends 0) (untold self.new.read_faults self.new.ends 0) }
        ensures bytes { ReadConsumes (untold self.old.read_faults self.old.ends 0).left (untold self.new.read_faults self.new.ends 0).left result buf.new }
        // What it gave came from the reader.
        ensures given { ReadConsumes (R.remaining self.old.reader) (R.remaining self.new.reader) result buf.new }
    {
        match self.reader.read(buf) {
            Ok(0) => {
                if !buf.is_empty() {
                    self.ends = self.ends.saturating_add(1);
                }
                Ok(0)
            }
            Ok(count) => Ok(count),
            Err(_) => {
                self.read_faults = self.read_faults.saturating_add(1);
                Err(Failed)
            }
        }
    }

    fn read_faults(&self) -> u64 {
        self.read_faults
    }

    fn ends(&self) -> u64 {
        self.ends
    }
}

/// A [`Sink`] over a writer of std. It tells nothing. A write that takes nothing counts as a fault.
#[derive(Drop)]
pub struct StdSink<W> {
    writer: W,
    write_faults: u64,
}

impl<W: Write> StdSink<W> {
    /// A sink that writes to `writer`. Its count is 0.
    pub fn new(writer: W) -> StdSink<W>
        ensures writer { result.writer ≡ writer }
        ensures faults { result.write_faults ≡ 0 }
    {
        StdSink {
            writer,
            write_faults: 0,
        }
    }

    fn failed(&mut self) -> SinkError
        ensures fault { result ≡ SinkError.Failed }
        ensures writer { self.new.writer ≡ self.old.writer }
        ensures counted { Rose self.old.write_faults self.new.write_faults }
        ensures stays { self.old.write_faults ≤ self.new.write_faults }
    {
        self.write_faults = self.write_faults.saturating_add(1);
        SinkError::Failed
    }
}

impl<W: Write> Outside for StdSink<W> {
    ghost state = { λ s. untold 0 0 s.write_faults };
}

impl<W: Write> Sink for StdSink<W> {
    fn write(&mut self, piece: &[u8]) -> Result<usize, SinkError>
        ensures most { IfOk result (λ count. count ≤ length piece.now) }
        ensures some { IfOk result (λ count. 0 < length piece.now → 0 < count) }
        ensures bytes { WriteAppends (untold 0 0 self.old.write_faults).written (untold 0 0 self.new.write_faults).written result piece.now }
        ensures exact { WriteCounts result (untold 0 0 self.old.write_faults) (untold 0 0 self.new.write_faults) }
        ensures on { WritesOn (untold 0 0 self.old.write_faults) (untold 0 0 self.new.write_faults) }
        // What it took went to the writer. It takes no memory.
        ensures passed { WriteAppends (W.contents self.old.writer) (W.contents self.new.writer) result piece.now }
        ensures fault { IfErr result (λ fault. fault ≡ SinkError.Failed) }
    {
        match self.writer.write(piece) {
            Ok(count) if count > 0 || piece.is_empty() => Ok(count),
            _ => Err(self.failed()),
        }
    }

    fn flush(&mut self) -> Result<(), SinkError>
        ensures bytes { Keeps (untold 0 0 self.old.write_faults).written (untold 0 0 self.new.write_faults).written }
        ensures all { OnOk result (IsFlushed (untold 0 0 self.new.write_faults)) }
        ensures exact { WriteCounts result (untold 0 0 self.old.write_faults) (untold 0 0 self.new.write_faults) }
        ensures on { WritesOn (untold 0 0 self.old.write_faults) (untold 0 0 self.new.write_faults) }
        // The writer keeps what it has. It takes no memory.
        ensures kept { Keeps (W.contents self.old.writer) (W.contents self.new.writer) }
        ensures fault { IfErr result (λ fault. fault ≡ SinkError.Failed) }
    {
        match self.writer.flush() {
            Ok(()) => Ok(()),
            Err(_) => Err(self.failed()),
        }
    }

    fn write_faults(&self) -> u64 {
        self.write_faults
    }
}

/// A [`Link`] over a reader and a writer of std, as [`StdSource`] and [`StdSink`]. It tells nothing.
#[derive(Drop)]
pub struct StdLink<R, W> {
    source: StdSource<R>,
    sink: StdSink<W>,
}

impl<R: Read, W: Write> StdLink<R, W> {
    /// A link that reads from `reader` and writes to `writer`. Its counts are 0.
    pub fn new(reader: R, writer: W) -> StdLink<R, W>
        ensures reader { result.source.reader ≡ reader }
        ensures writer { result.sink.writer ≡ writer }
        ensures read_faults { result.source.read_faults ≡ 0 }
        ensures ends { result.source.ends ≡ 0 }
        ensures write_faults { result.sink.write_faults ≡ 0 }
    {
        StdLink {
            source: StdSource::new(reader),
            sink: StdSink::new(writer),
        }
    }
}

impl<R: Read, W: Write> Outside for StdLink<R, W> {
    ghost state = { λ s. untold s.source.read_faults s.source.ends s.sink.write_faults };
}

impl<R: Read, W: Write> Source for StdLink<R, W> {
    fn read(&mut self, buf: &mut [u8]) -> Result<usize, Failed>
        ensures most { IfOk result (λ count. count ≤ length buf.new) }
        ensures failed { OnErr result (Rose self.old.source.read_faults self.new.source.read_faults) }
        ensures ended { IfOk result (λ count. count ≡ 0 → 0 < length buf.new → Rose self.old.source.ends self.new.source.ends) }
        ensures exact { ReadCounts result (length buf.new) (untold self.old.source.read_faults self.old.source.ends self.old.sink.write_faults)
            (untold self.new.source.read_faults self.new.source.ends self.new.sink.write_faults) }
        ensures on { ReadsOn (untold self.old.source.read_faults self.old.source.ends self.old.sink.write_faults)
            (untold self.new.source.read_faults self.new.source.ends self.new.sink.write_faults) }
        ensures bytes { ReadConsumes (untold self.old.source.read_faults self.old.source.ends self.old.sink.write_faults).left
            (untold self.new.source.read_faults self.new.source.ends self.new.sink.write_faults).left result buf.new }
        // What it gave came from the reader, and the writer is left alone.
        ensures given { ReadConsumes (R.remaining self.old.source.reader) (R.remaining self.new.source.reader) result buf.new }
        ensures sink { self.new.sink ≡ self.old.sink }
    {
        self.source.read(buf)
    }

    fn read_faults(&self) -> u64 {
        self.source.read_faults()
    }

    fn ends(&self) -> u64 {
        self.source.ends()
    }
}

impl<R: Read, W: Write> Sink for StdLink<R, W> {
    fn write(&mut self, piece: &[u8]) -> Result<usize, SinkError>
        ensures most { IfOk result (λ count. count ≤ length piece.now) }
        ensures some { IfOk result (λ count. 0 < length piece.now → 0 < count) }
        ensures bytes { WriteAppends (untold self.old.source.read_faults self.old.source.ends self.old.sink.write_faults).written
            (untold self.new.source.read_faults self.new.source.ends self.new.sink.write_faults).written result piece.now }
        ensures exact { WriteCounts result (untold self.old.source.read_faults self.old.source.ends self.old.sink.write_faults)
            (untold self.new.source.read_faults self.new.source.ends self.new.sink.write_faults) }
        ensures on { WritesOn (untold self.old.source.read_faults self.old.source.ends self.old.sink.write_faults)
            (untold self.new.source.read_faults self.new.source.ends self.new.sink.write_faults) }
        // What it took went to the writer, and the reader is left alone. It takes no memory.
        ensures passed { WriteAppends (W.contents self.old.sink.writer) (W.contents self.new.sink.writer) result piece.now }
        ensures source { self.new.source ≡ self.old.source }
        ensures fault { IfErr result (λ fault. fault ≡ SinkError.Failed) }
    {
        self.sink.write(piece)
    }

    fn flush(&mut self) -> Result<(), SinkError>
        ensures bytes { Keeps (untold self.old.source.read_faults self.old.source.ends self.old.sink.write_faults).written
            (untold self.new.source.read_faults self.new.source.ends self.new.sink.write_faults).written }
        ensures all { OnOk result (IsFlushed (untold self.new.source.read_faults self.new.source.ends self.new.sink.write_faults)) }
        ensures exact { WriteCounts result (untold self.old.source.read_faults self.old.source.ends self.old.sink.write_faults)
            (untold self.new.source.read_faults self.new.source.ends self.new.sink.write_faults) }
        ensures on { WritesOn (untold self.old.source.read_faults self.old.source.ends self.old.sink.write_faults)
            (untold self.new.source.read_faults self.new.source.ends self.new.sink.write_faults) }
        // The writer keeps what it has, and the reader is left alone. It takes no memory.
        ensures kept { Keeps (W.contents self.old.sink.writer) (W.contents self.new.sink.writer) }
        ensures source { self.new.source ≡ self.old.source }
        ensures fault { IfErr result (λ fault. fault ≡ SinkError.Failed) }
    {
        self.sink.flush()
    }

    fn write_faults(&self) -> u64 {
        self.sink.write_faults()
    }
}
