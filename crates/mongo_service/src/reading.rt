//! Reads of so many bytes.

ghost use Rattle.std.specs.Prelude.{◌≡◌, length, IfOk, IfErr, OnOk};
ghost use Rattle.std.specs.Io.KnownBytes.{Consumes};
ghost use Rattle.mongo_wire.specs.Error.{kind_of_frame_fault};
ghost use Rattle.mongo_wire.specs.Outside.{ReadsOn, ReadStops, Unstopped};

use mongo_wire::{FrameFault, Source, take_into};
use std::alloc::Global;

/// The next bytes of the source, as many as are wanted. Memory grows as they come.
///
/// `ReadFault` where the source failed, `EndOfInput` where it ended before, `OutOfMemory`.
pub fn take_bytes<S: Source>(
    alloc: Global,
    source: &mut S,
    wanted: usize,
) -> Result<Vec<u8>, FrameFault>
    ensures taken { IfOk result (λ held. Consumes (S.state source.old).left (S.state source.new).left held.items) }
    ensures unstopped { OnOk result (Unstopped (S.state source.old) (S.state source.new)) }
    ensures whole { IfOk result (λ held. length held.items ≡ wanted) }
    ensures refused { IfErr result (λ fault. ReadStops (kind_of_frame_fault fault) (S.state source.old) (S.state source.new) wanted) }
    ensures on { ReadsOn (S.state source.old) (S.state source.new) }
{
    let mut held = Vec::new(alloc);
    match take_into(source, &mut held, 0, wanted) {
        Ok(()) => Ok(held),
        Err(fault) => Err(fault),
    }
}
