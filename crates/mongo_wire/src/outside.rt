ghost use Rattle.std.specs.Prelude.{◌≡◌, ◌<◌, ◌≤◌, length, IfOk, OnOk, OnErr};
ghost use Rattle.std.specs.Io.KnownBytes.{Keeps, ReadConsumes, WriteAppends};
ghost use Rattle.mongo_wire.specs.Outside.{Rose, State, IsFlushed, ReadCounts, ReadsOn, WriteCounts, WritesOn};

/// A source failed to give bytes. Its count of read faults rose by one, and it has given none.
#[derive(Clone, Copy, Debug, PartialEq, Eq)]
pub struct Failed;

/// Why a sink took no byte.
#[derive(Clone, Copy, Debug, PartialEq, Eq)]
pub enum SinkError {
    /// The sink failed. Its count of write faults rose by one.
    Failed,
    /// The sink wanted memory.
    OutOfMemory,
}

/// An object outside, by what it means at a moment.
///
/// It either tells the bytes that it has left, as a list, or tells nothing, and so with the bytes written to it; which of
/// the two never changes. Counts of faults and ends never fall.
pub trait Outside {
    ghost state: { Self → State };
}

/// Where bytes come from: a stream, or a list in memory.
pub trait Source: Outside {
    /// Gives some of the next bytes, at most as many as the buffer has room for, and says how many.
    ///
    /// 0 for a buffer with room says that the source has ended; `ends` rose by one then, and else it stays. With `Failed`,
    /// which has taken nothing, `read_faults` rose by one, and else it stays.
    fn read(&mut self, buf: &mut [u8]) -> Result<usize, Failed>
        ensures most { IfOk result (λ count. count ≤ length buf.new) }
        ensures bytes { ReadConsumes (Self.state self.old).left (Self.state self.new).left result buf.new }
        ensures failed { OnErr result (Rose (Self.state self.old).read_faults (Self.state self.new).read_faults) }
        ensures ended { IfOk result (λ count. count ≡ 0 → 0 < length buf.new → Rose (Self.state self.old).ends (Self.state self.new).ends) }
        ensures exact { ReadCounts result (length buf.new) (Self.state self.old) (Self.state self.new) }
        ensures on { ReadsOn (Self.state self.old) (Self.state self.new) };

    /// How often a read failed so far. It never falls, and stays at its last value.
    fn read_faults(&self) -> u64
        ensures { result ≡ (Self.state self.now).read_faults };

    /// How often the source said that it has ended. It never falls, and stays at its last value.
    fn ends(&self) -> u64
        ensures { result ≡ (Self.state self.now).ends };
}

/// Where bytes go.
pub trait Sink: Outside {
    /// Takes a front of the piece, at least one byte of one that isn't empty, and says how many bytes it took.
    ///
    /// With `Failed` `write_faults` rose by one, and else it stays. A refused write has taken nothing.
    fn write(&mut self, piece: &[u8]) -> Result<usize, SinkError>
        ensures most { IfOk result (λ count. count ≤ length piece.now) }
        ensures some { IfOk result (λ count. 0 < length piece.now → 0 < count) }
        ensures bytes { WriteAppends (Self.state self.old).written (Self.state self.new).written result piece.now }
        ensures exact { WriteCounts result (Self.state self.old) (Self.state self.new) }
        ensures on { WritesOn (Self.state self.old) (Self.state self.new) };

    /// Passes on all that was written. With `Failed` `write_faults` rose by one, and else it stays.
    fn flush(&mut self) -> Result<(), SinkError>
        ensures bytes { Keeps (Self.state self.old).written (Self.state self.new).written }
        ensures all { OnOk result (IsFlushed (Self.state self.new)) }
        ensures exact { WriteCounts result (Self.state self.old) (Self.state self.new) }
        ensures on { WritesOn (Self.state self.old) (Self.state self.new) };

    /// How often a write or a flush failed so far. It never falls, and stays at its last value.
    fn write_faults(&self) -> u64
        ensures { result ≡ (Self.state self.now).write_faults };
}

/// Both directions of one connection. A read leaves what was written as it is, and a write what is left.
pub trait Link: Source + Sink {}

impl<T: Source + Sink> Link for T {}
