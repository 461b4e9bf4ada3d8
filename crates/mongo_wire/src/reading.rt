ghost use Rattle.std.specs.Prelude.{◌≡◌, ◌<◌, ◌≤◌, ◌+◌, ◌-◌, ◌*◌, ℕ, List, Some, true, false, max, take, drop, length, vec_capacity, IfOk, IfErr, OnOk, OnErr};
ghost use Rattle.std.specs.Io.KnownBytes.{Consumes};
ghost use Rattle.mongo_wire.specs.Buffer.{piece_length};
ghost use Rattle.mongo_wire.specs.Error.{kind_of_frame_fault};
ghost use Rattle.mongo_wire.specs.Outside.{ReadsOn, ReadStops, Unstopped, HasEnded, HasMore};
ghost use Rattle.mongo_wire.specs.Small.{IsOfSource};

use crate::{FrameFault, Source};

// How many bytes memory is reserved for at least.
const PIECE: usize = 4096;

/// Fills the buffer with the next bytes of the source.
///
/// `ReadFault` where the source failed, `EndOfInput` where it ended before the buffer was full.
pub(crate) fn fill<S: Source>(source: &mut S, buf: &mut [u8]) -> Result<(), FrameFault>
    ensures filled { OnOk result (Consumes (S.state source.old).left (S.state source.new).left buf.new) }
    ensures unstopped { OnOk result (Unstopped (S.state source.old) (S.state source.new)) }
    ensures refused { IfErr result (λ fault. ReadStops (kind_of_frame_fault fault) (S.state source.old) (S.state source.new) (length buf.old)) }
    ensures of_source { IfErr result (λ fault. IsOfSource (kind_of_frame_fault fault)) }
    ensures on { ReadsOn (S.state source.old) (S.state source.new) }
{
    let mut at = 0;
    'filling: while at < buf.len() {
        match source.read(&mut buf[at..]) {
            Ok(0) => return Err(FrameFault::EndOfInput),
            Ok(count) => at += count,
            Err(_) => return Err(FrameFault::ReadFault),
        }
    }
    Ok(())
}

/// Fills the buffer with the next bytes of the source, and says whether there was one: not where the source ended before
/// the first.
///
/// `ReadFault` where the source failed, `EndOfInput` where it ended after the first byte and before the buffer was full.
pub fn fill_or_end<S: Source>(source: &mut S, buf: &mut [u8]) -> Result<bool, FrameFault>
    requires { 0 < length buf.old }
    ensures filled { IfOk result (λ found. found ≡ true → Consumes (S.state source.old).left (S.state source.new).left buf.new) }
    ensures unstopped { IfOk result (λ found. found ≡ true → Unstopped (S.state source.old) (S.state source.new)) }
    ensures ended { IfOk result (λ found. found ≡ false → HasEnded (S.state source.old) (S.state source.new)) }
    ensures refused { IfErr result (λ fault. ReadStops (kind_of_frame_fault fault) (S.state source.old) (S.state source.new) (length buf.old)) }
    ensures more { IfErr result (λ fault. HasMore (kind_of_frame_fault fault) (S.state source.old).left) }
    ensures on { ReadsOn (S.state source.old) (S.state source.new) }
{
    match source.read(buf) {
        Ok(0) => Ok(false),
        Ok(count) => match fill(source, &mut buf[count..]) {
            Ok(()) => Ok(true),
            Err(fault) => Err(fault),
        },
        Err(_) => Err(FrameFault::ReadFault),
    }
}

/// Takes the next bytes of the source into the store, behind those that came before and over what is there, until as many
/// as are wanted are there in all. The store's memory grows only as they come.
///
/// `ReadFault` where the source failed, `EndOfInput` where it ended before, `OutOfMemory`.
pub fn take_into<S: Source>(
    source: &mut S,
    store: &mut Vec<u8>,
    before: usize,
    wanted: usize,
) -> Result<(), FrameFault>
    requires { (before ≤ length store.old.items) × (before ≤ wanted) }
    ensures front { take before store.new.items ≡ take before store.old.items }
    ensures taken { OnOk result (Consumes (S.state source.old).left (S.state source.new).left (take (wanted - before) (drop before store.new.items))) }
    ensures unstopped { OnOk result (Unstopped (S.state source.old) (S.state source.new)) }
    ensures all { OnOk result (wanted ≤ length store.new.items) }
    ensures refused { IfErr result (λ fault. ReadStops (kind_of_frame_fault fault) (S.state source.old) (S.state source.new) (wanted - before)) }
    ensures some { OnErr result (before < wanted) }
    ensures size { length store.new.items ≤ max (length store.old.items) wanted }
    // Its memory is what it was, or for what was wanted at most, and for twice what came in all and one piece at most. None of
    // it is given back.
    ensures wanted { vec_capacity store.new ≤ max (vec_capacity store.old) wanted }
    ensures keeps { vec_capacity store.old ≤ vec_capacity store.new }
    ensures came { (had left : List ℕ) → (S.state source.old).left ≡ Some had → (S.state source.new).left ≡ Some left → vec_capacity store.new ≤ max (vec_capacity store.old) (piece_length + 2 * (before + (length had - length left))) }
    ensures on { ReadsOn (S.state source.old) (S.state source.new) }
{
    let mut at = before;
    'taking: while at < wanted {
        match make_longer(store, at, wanted) {
            Ok(()) => {}
            Err(fault) => return Err(fault),
        }
        let end = store.len().min(wanted);
        match fill_store(source, store, at, end) {
            Ok(()) => at = end,
            Err(fault) => return Err(fault),
        }
    }
    Ok(())
}

// Fills a part of the store, from one place to another, with the next bytes of the source.
fn fill_store<S: Source>(
    source: &mut S,
    store: &mut Vec<u8>,
    from: usize,
    to: usize,
) -> Result<(), FrameFault>
    requires { (from ≤ to) × (to ≤ length store.old.items) }
    ensures front { take from store.new.items ≡ take from store.old.items }
    ensures size { length store.new.items ≡ length store.old.items }
    ensures memory { vec_capacity store.new ≡ vec_capacity store.old }
    ensures filled { OnOk result (Consumes (S.state source.old).left (S.state source.new).left (take (to - from) (drop from store.new.items))) }
    ensures unstopped { OnOk result (Unstopped (S.state source.old) (S.state source.new)) }
    ensures refused { IfErr result (λ fault. ReadStops (kind_of_frame_fault fault) (S.state source.old) (S.state source.new) (to - from)) }
    ensures on { ReadsOn (S.state source.old) (S.state source.new) }
{
    fill_part(source, store.as_mut_slice(), from, to)
}

// Fills a part of the bytes, from one place to another, with the next bytes of the source.
fn fill_part<S: Source>(
    source: &mut S,
    bytes: &mut [u8],
    from: usize,
    to: usize,
) -> Result<(), FrameFault>
    requires { (from ≤ to) × (to ≤ length bytes.old) }
    ensures front { take from bytes.new ≡ take from bytes.old }
    ensures filled { OnOk result (Consumes (S.state source.old).left (S.state source.new).left (take (to - from) (drop from bytes.new))) }
    ensures unstopped { OnOk result (Unstopped (S.state source.old) (S.state source.new)) }
    ensures refused { IfErr result (λ fault. ReadStops (kind_of_frame_fault fault) (S.state source.old) (S.state source.new) (to - from)) }
    ensures on { ReadsOn (S.state source.old) (S.state source.new) }
{
    fill(source, &mut bytes[from..to])
}

// Makes the store longer where what came fills it: by as much as came so far, at least one piece, and to no more than is
// wanted. The memory for it is reserved exactly.
fn make_longer(store: &mut Vec<u8>, came: usize, wanted: usize) -> Result<(), FrameFault>
    requires { (came ≤ length store.old.items) × (came < wanted) }
    ensures kept { take came store.new.items ≡ take came store.old.items }
    ensures longer { OnOk result (came < length store.new.items) }
    ensures size { length store.new.items ≤ max (length store.old.items) wanted }
    ensures wanted { vec_capacity store.new ≤ max (vec_capacity store.old) wanted }
    ensures keeps { vec_capacity store.old ≤ vec_capacity store.new }
    ensures came { vec_capacity store.new ≤ max (vec_capacity store.old) (piece_length + 2 * came) }
    ensures refused { IfErr result (λ fault. fault ≡ FrameFault.OutOfMemory) }
{
    if came < store.len() {
        return Ok(());
    }
    let more = came.max(PIECE).min(wanted - came);
    match store.reserve_exact(more) {
        Ok(()) => {
            lengthen(store, came + more);
            Ok(())
        }
        Err(_) => Err(FrameFault::OutOfMemory),
    }
}

// Makes the store this long, within the memory that it has.
fn lengthen(store: &mut Vec<u8>, wanted: usize)
    requires { wanted ≤ vec_capacity store.old }
    ensures kept { take (length store.old.items) store.new.items ≡ store.old.items }
    ensures size { length store.new.items ≡ max (length store.old.items) wanted }
    ensures memory { vec_capacity store.new ≡ vec_capacity store.old }
{
    let held = std::mem::replace(store, Vec::new(*store.allocator()));
    *store = lengthened(held, wanted);
}

// The same of a store that is owned, whose length the loop can hold apart from its bytes: it compiles to one fill.
fn lengthened(mut store: Vec<u8>, wanted: usize) -> Vec<u8>
    requires { wanted ≤ vec_capacity store }
    ensures kept { take (length store.items) result.items ≡ store.items }
    ensures size { length result.items ≡ max (length store.items) wanted }
    ensures memory { vec_capacity result ≡ vec_capacity store }
{
    'lengthening: while store.len() < wanted {
        store.push_reserved(0);
    }
    store
}
