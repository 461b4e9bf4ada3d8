ghost use Rattle.std.specs.Prelude.{◌≡◌, ◌↔◌, ◌++◌, ◌+◌, ◌-◌, ◌<◌, length, Contains, IsTrue, IfOk, IfErr, IsErrOf, OnOk, OnErr};
ghost use Rattle.std.specs.Ordering.{nat_cmp};
ghost use Rattle.std.specs.List.Sorted.{IsSorted};
ghost use Rattle.std.specs.Cmp.Lexicographic.{slice_cmp};
ghost use Rattle.mongo_bson.specs.Framed.{IsFramed, element_bytes, enclosed, maximum_length};
ghost use Rattle.mongo_bson.specs.Keys.{bytes_of_texts};
ghost use Rattle.mongo_bson.specs.Merge.{HaveCommon, BothFilled, ShareKey, ShareNoKey, TellsShared};
ghost use Rattle.mongo_bson.specs.Refusals.{ExtendRefuses, ReadRefuses, HadMemory};

use crate::distinct::keys_in;
use crate::raw_document::element_bytes;
use crate::{BsonFault, RawDocumentBuf};
use std::alloc::Global;

/// Puts the elements of `other` at the end of `this`.
///
/// `Malformed` where elements don't fill one of them, then `DuplicateKey` where a key stands in both, then `TooLong`
/// where the document would pass 2147483647 bytes. Want of memory may stand in the place of any answer. A refusal
/// leaves `this` as it was. The keys of the one that has fewer are sorted, so that `n` keys beside `m` take time in
/// proportion to `(n + m) log m` where `m` is fewer.
#[tactic(auto, using(crate::proofs::OneAnswer::shared_or_not, crate::proofs::OneAnswer::no_duplicate))]
pub fn extend_raw_document_buf(
    alloc: Global,
    this: &mut RawDocumentBuf,
    other: &RawDocumentBuf,
) -> Result<(), BsonFault>
    ensures added { OnOk result (this.new ≡ enclosed (element_bytes this.old ++ element_bytes other.now)) }
    ensures apart { OnOk result (ShareNoKey this.old other.now) }
    ensures malformed { IsErrOf result BsonFault.Malformed ↔ (HadMemory result × (BothFilled this.old other.now → ⊥)) }
    ensures duplicate_key { IsErrOf result BsonFault.DuplicateKey ↔ (HadMemory result × ShareKey this.old other.now) }
    ensures too_long { IsErrOf result BsonFault.TooLong ↔ (HadMemory result × ShareNoKey this.old other.now × (maximum_length < length this.old + length (element_bytes other.now))) }
    ensures unchanged { OnErr result (this.new ≡ this.old) }
    ensures refused { IfErr result ExtendRefuses }
{
    match share_key(alloc, this.as_bytes(), other.as_bytes()) {
        Ok(true) => Err(BsonFault::DuplicateKey),
        Ok(false) => this.append_elements(element_bytes(other.as_bytes())),
        Err(fault) => Err(fault),
    }
}

// Whether a key stands in both documents.
fn share_key(alloc: Global, this: &[u8], other: &[u8]) -> Result<bool, BsonFault>
    requires framed { IsFramed this.now }
    requires other_framed { IsFramed other.now }
    ensures shared { IfOk result (TellsShared this.now other.now) }
    ensures malformed { IsErrOf result BsonFault.Malformed → BothFilled this.now other.now → ⊥ }
    ensures refused { IfErr result ReadRefuses }
{
    let mut mine = keys_in(alloc, element_bytes(this))?;
    let mut others = keys_in(alloc, element_bytes(other))?;
    Ok(share_text(mine.as_mut_slice(), others.as_mut_slice()))
}

// Whether a text stands in both lists. It sorts the shorter one.
fn share_text(texts: &mut [&str], others: &mut [&str]) -> bool
    ensures { IsTrue result ↔ HaveCommon (bytes_of_texts texts.old) (bytes_of_texts others.old) }
{
    if others.len() < texts.len() {
        share_text_sorting(others, texts)
    } else {
        share_text_sorting(texts, others)
    }
}

// Whether a text stands in both lists. It sorts the first.
fn share_text_sorting(texts: &mut [&str], others: &[&str]) -> bool
    ensures { IsTrue result ↔ HaveCommon (bytes_of_texts texts.old) (bytes_of_texts others.now) }
{
    texts.sort_unstable();
    share_text_with_sorted(texts, others)
}

// Whether a text stands in both lists, the first of which is sorted.
fn share_text_with_sorted(sorted: &[&str], others: &[&str]) -> bool
    requires { IsSorted (λ x y. slice_cmp nat_cmp x.now y.now) sorted.now }
    ensures { IsTrue result ↔ HaveCommon (bytes_of_texts sorted.now) (bytes_of_texts others.now) }
{
    for text in others {
        if holds_text(sorted, text) {
            return true;
        }
    }
    false
}

// Whether a text stands in a sorted list.
fn holds_text(sorted: &[&str], text: &str) -> bool
    requires { IsSorted (λ x y. slice_cmp nat_cmp x.now y.now) sorted.now }
    ensures { IsTrue result ↔ Contains (bytes_of_texts sorted.now) text.now }
{
    match sorted.binary_search(&text) {
        Ok(_) => true,
        Err(_) => false,
    }
}
