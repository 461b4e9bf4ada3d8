//! Writing the report to a sink.
ghost use Rattle.std.specs.Prelude.{OnOk, OnErr};
ghost use Rattle.std.specs.Io.KnownBytes.{Appends};
ghost use Rattle.mongo_wire.specs.Outside.{WriteCounts, WritesOn, AppendsFront, IsFlushed};

use mongo_wire::{Sink, SinkError, write_all};

/// Writes a report to the sink and flushes it.
///
/// `Failed` where the sink failed, `OutOfMemory` where it wanted memory. A refusal has written a front of the report.
pub fn write_report<K: Sink>(sink: &mut K, text: &[u8]) -> Result<(), SinkError>
    ensures written { OnOk result (Appends (K.state sink.old).written (K.state sink.new).written text.now) }
    ensures flushed { OnOk result (IsFlushed (K.state sink.new)) }
    ensures exact { WriteCounts result (K.state sink.old) (K.state sink.new) }
    ensures refused { OnErr result (AppendsFront (K.state sink.old).written (K.state sink.new).written text.now) }
    ensures on { WritesOn (K.state sink.old) (K.state sink.new) }
{
    write_all(sink, text)?;
    sink.flush()
}
