ghost use Rattle.std.specs.Prelude.{◌≡◌, ◌+◌, ◌-◌, ◌*◌, ◌≤◌, ◌<ℤ◌, ℕ, List, [], Some, max, pos, length, vec_capacity, MatchOption, IfOk, IfErr, OnOk};
ghost use Rattle.mongo_wire.specs.Buffer.{piece_length};
ghost use Rattle.mongo_wire.specs.Error.{kind_of_frame_fault};
ghost use Rattle.mongo_wire.specs.Header.{signed_at};
ghost use Rattle.mongo_wire.specs.Outside.{ReadsOn};
ghost use Rattle.mongo_wire.specs.Small.{TakesDocument, DocumentUnread};

use crate::header::signed;
use crate::reading::take_into;
use crate::{ArgumentFault, Error, FrameFault, Source};
use mongo_bson::Bytes;
use std::alloc::Global;

/// Reads the bytes of the next document of the source: an `int32` with the low byte first, and as many bytes as it says,
/// its own four included. Memory grows as they come. What is in the document isn't judged.
///
/// Refusals: `EndOfInput` where the source ended before, `CheckedFailure` where the length is below 4, with four bytes
/// taken; `ReadFault` where the source failed.
pub fn read_document_bytes<S: Source>(alloc: Global, source: &mut S) -> Result<Bytes, Error>
    ensures read { IfOk result (TakesDocument (S.state source.old) (S.state source.new)) }
    ensures refused { IfErr result (λ e. DocumentUnread e.kind (S.state source.old) (S.state source.new)) }
    ensures on { ReadsOn (S.state source.old) (S.state source.new) }
{
    let mut store = Vec::new(alloc);
    match take_document_bytes(source, &mut store) {
        Ok(()) => Ok(Bytes::from_vec(store)),
        Err(fault) => Err(fault.into()),
    }
}

// Takes the bytes of the next document into an empty store, whose memory is for twice what came and one piece at most.
fn take_document_bytes<S: Source>(source: &mut S, store: &mut Vec<u8>) -> Result<(), FrameFault>
    requires { store.old.items ≡ [] }
    ensures read { OnOk result (TakesDocument (S.state source.old) (S.state source.new) store.new.items) }
    ensures refused { IfErr result (λ fault. DocumentUnread (kind_of_frame_fault fault) (S.state source.old) (S.state source.new)) }
    ensures came { (had left : List ℕ) → (S.state source.old).left ≡ Some had → (S.state source.new).left ≡ Some left → vec_capacity store.new ≤ max (vec_capacity store.old) (piece_length + 2 * (length had - length left)) }
    ensures on { ReadsOn (S.state source.old) (S.state source.new) }
{
    match take_into(source, store, 0, 4) {
        Ok(()) => {}
        Err(fault) => return Err(fault),
    }
    let Some(length) = document_length(store.as_slice()) else {
        return Err(FrameFault::InvalidArgument(ArgumentFault::CheckedFailure));
    };
    match take_into(source, store, 4, length) {
        Ok(()) => Ok(()),
        Err(fault) => Err(fault),
    }
}

// The length that a document's first four bytes give, where it isn't below 4.
fn document_length(bytes: &[u8]) -> Option<usize>
    requires { 4 ≤ length bytes.now }
    ensures { MatchOption result (signed_at 0 bytes.now <ℤ pos 4) (λ length. (signed_at 0 bytes.now ≡ pos length) × (4 ≤ length)) }
{
    let length = signed(bytes, 0);
    if length < 4 {
        None
    } else {
        Some(length as usize)
    }
}
