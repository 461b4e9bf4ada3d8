ghost use Rattle.std.specs.Prelude.{◌≡◌, ◌+◌, ◌-◌, ◌^◌, ◌<◌, ◌≤◌, min, length, IfOk, OnErr, MatchResult};
ghost use Rattle.std.specs.Io.KnownBytes.{ReadConsumes};
ghost use Rattle.mongo_wire.specs.Outside.{Rose, ReadCounts, ReadsOn};

use crate::{Failed, Outside, Source};

/// A [`Source`] that counts the bytes that it gave.
#[derive(Drop)]
pub struct SyncCountReader<S> {
    reader: S,
    bytes_read: u64,
}

impl<S: Source> SyncCountReader<S> {
    /// A source that gives what `reader` gives. Its count is 0.
    pub fn new(reader: S) -> SyncCountReader<S>
        ensures reader { result.reader ≡ reader }
        ensures none { result.bytes_read ≡ 0 }
    {
        SyncCountReader {
            reader,
            bytes_read: 0,
        }
    }

    /// How many bytes it gave so far, or 18446744073709551615 where it gave more.
    pub fn bytes_read(&self) -> u64
        ensures { result ≡ self.now.bytes_read }
    {
        self.bytes_read
    }
}

impl<S: Source> Outside for SyncCountReader<S> {
    ghost state = { λ s. S.state s.reader };
}

impl<S: Source> Source for SyncCountReader<S> {
    // The clauses of every source, and what is counted.
    fn read(&mut self, buf: &mut [u8]) -> Result<usize, Failed>
        ensures most { IfOk result (λ count. count ≤ length buf.new) }
        ensures bytes { ReadConsumes (S.state self.old.reader).left (S.state self.new.reader).left result buf.new }
        ensures failed { OnErr result (Rose (S.state self.old.reader).read_faults (S.state self.new.reader).read_faults) }
        ensures ended { IfOk result (λ count. count ≡ 0 → 0 < length buf.new → Rose (S.state self.old.reader).ends (S.state self.new.reader).ends) }
        ensures exact { ReadCounts result (length buf.new) (S.state self.old.reader) (S.state self.new.reader) }
        ensures on { ReadsOn (S.state self.old.reader) (S.state self.new.reader) }
        ensures counted { MatchResult result (λ count. self.new.bytes_read ≡ min (self.old.bytes_read + count) (2 ^ 64 - 1)) (λ _. self.new.bytes_read ≡ self.old.bytes_read) }
    {
        match self.reader.read(buf) {
            Ok(count) => {
                self.bytes_read = self.bytes_read.saturating_add(count as u64);
                Ok(count)
            }
            Err(failed) => Err(failed),
        }
    }

    fn read_faults(&self) -> u64 {
        self.reader.read_faults()
    }

    fn ends(&self) -> u64 {
        self.reader.ends()
    }
}
