ghost use Rattle.std.specs.Prelude.{◌≡◌, ◌<◌, ◌+◌, ◌++◌, [], IfErr, OnErr, OnOk};
ghost use Rattle.std.specs.Io.KnownBytes.{Appends, Keeps};
ghost use Rattle.mongo_wire.specs.Outside.{AppendsFront, WriteCounts, WritesOn, WriteStops, IsFlushed};

use crate::{Error, Sink, SinkError};

/// Writes all bytes to the sink. It doesn't flush.
///
/// `Failed` where the sink failed, `OutOfMemory` where it wanted memory; a front of the bytes is written then.
pub fn write_all<K: Sink>(sink: &mut K, bytes: &[u8]) -> Result<(), SinkError>
    ensures written { OnOk result (Appends (K.state sink.old).written (K.state sink.new).written bytes.now) }
    ensures exact { WriteCounts result (K.state sink.old) (K.state sink.new) }
    ensures front { OnErr result (AppendsFront (K.state sink.old).written (K.state sink.new).written bytes.now) }
    ensures on { WritesOn (K.state sink.old) (K.state sink.new) }
{
    let mut at = 0;
    'writing: while at < bytes.len() {
        match sink.write(&bytes[at..]) {
            Ok(count) => at += count,
            Err(fault) => return Err(fault),
        }
    }
    Ok(())
}

/// Writes all bytes to the sink, as [`write_all`], and answers the error of this crate.
///
/// `WriteFault` where the sink failed, `OutOfMemory` where it wanted memory; a front of the bytes is written then.
pub(crate) fn write_out<K: Sink>(sink: &mut K, bytes: &[u8]) -> Result<(), Error>
    ensures written { OnOk result (Appends (K.state sink.old).written (K.state sink.new).written bytes.now) }
    ensures writes { OnOk result ((K.state sink.new).write_faults ≡ (K.state sink.old).write_faults) }
    ensures refused { IfErr result (λ e. WriteStops e.kind (K.state sink.old) (K.state sink.new) bytes.now) }
    ensures on { WritesOn (K.state sink.old) (K.state sink.new) }
{
    match write_all(sink, bytes) {
        Ok(()) => Ok(()),
        Err(fault) => Err(fault.into()),
    }
}

/// Flushes the sink.
///
/// `WriteFault` where the sink failed, `OutOfMemory` where it wanted memory.
pub(crate) fn flush_out<K: Sink>(sink: &mut K) -> Result<(), Error>
    ensures flushed { OnOk result (IsFlushed (K.state sink.new)) }
    ensures writes { OnOk result ((K.state sink.new).write_faults ≡ (K.state sink.old).write_faults) }
    ensures kept { Keeps (K.state sink.old).written (K.state sink.new).written }
    ensures refused { IfErr result (λ e. WriteStops e.kind (K.state sink.old) (K.state sink.new) []) }
    ensures on { WritesOn (K.state sink.old) (K.state sink.new) }
{
    match sink.flush() {
        Ok(()) => Ok(()),
        Err(fault) => Err(fault.into()),
    }
}

/// Writes three pieces, one after another.
///
/// `WriteFault` where the sink failed, `OutOfMemory` where it wanted memory; a front of the bytes is written then.
pub(crate) fn write_pieces<K: Sink>(
    sink: &mut K,
    first: &[u8],
    second: &[u8],
    third: &[u8],
) -> Result<(), Error>
    ensures written { OnOk result (Appends (K.state sink.old).written (K.state sink.new).written (first.now ++ (second.now ++ third.now))) }
    ensures writes { OnOk result ((K.state sink.new).write_faults ≡ (K.state sink.old).write_faults) }
    ensures refused { IfErr result (λ e. WriteStops e.kind (K.state sink.old) (K.state sink.new) (first.now ++ (second.now ++ third.now))) }
    ensures on { WritesOn (K.state sink.old) (K.state sink.new) }
{
    write_out(sink, first)?;
    write_out(sink, second)?;
    write_out(sink, third)
}
