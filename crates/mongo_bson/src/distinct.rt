ghost use Rattle.std.specs.Prelude.{◌≡◌, ◌↔◌, List, IsTrue, IfOk, IfErr, IsErrOf};
ghost use Rattle.std.specs.Ordering.{nat_cmp};
ghost use Rattle.std.specs.List.Sorted.{IsSorted};
ghost use Rattle.std.specs.Cmp.Lexicographic.{slice_cmp};
ghost use Rattle.mongo_bson.specs.Document.{Element, IsDocument, HasDistinctKeys};
ghost use Rattle.mongo_bson.specs.Keys.{Fill, keys_of, bytes_of_texts, AreApart};
ghost use Rattle.mongo_bson.specs.Refusals.{ReadRefuses, HadMemory};

use crate::element::take_element;
use crate::raw_document::element_bytes;
use crate::{BsonFault, RawDocument};
use std::alloc::Global;

impl<'a> RawDocument<'a> {
    /// Whether no key of the document stands twice. Keys of documents inside aren't looked at.
    ///
    /// The keys are sorted, so that a document made to be slow isn't: `n` keys take time in proportion to `n log n`,
    /// and memory for a slice of each.
    ///
    /// `Malformed` where the bytes aren't filled by elements. Want of memory may stand in the place of any answer.
    pub fn distinct_keys(&self, alloc: Global) -> Result<bool, BsonFault>
        ensures distinct { IfOk result (λ distinct. (elements : List Element) × IsDocument self.now.bytes.now elements × (IsTrue distinct ↔ HasDistinctKeys elements)) }
        ensures malformed { IsErrOf result BsonFault.Malformed ↔ (HadMemory result × ((elements : List Element) → IsDocument self.now.bytes.now elements → ⊥)) }
        ensures refused { IfErr result ReadRefuses }
    {
        let mut keys = keys_in(alloc, element_bytes(self.bytes))?;
        Ok(is_without_repeat(keys.as_mut_slice()))
    }
}

// The keys of the elements that fill the bytes.
pub(crate) fn keys_in<'a>(alloc: Global, bytes: &'a [u8]) -> Result<Vec<&'a str>, BsonFault>
    ensures keys { IfOk result (λ keys. (elements : List Element) × Fill bytes.now elements × (bytes_of_texts keys.items ≡ keys_of elements)) }
    ensures malformed { IsErrOf result BsonFault.Malformed ↔ (HadMemory result × ((elements : List Element) → Fill bytes.now elements → ⊥)) }
    ensures refused { IfErr result ReadRefuses }
{
    let mut keys = Vec::new(alloc);
    let mut rest = bytes;
    'elements: while !rest.is_empty() {
        let Some((element, after)) = take_element(rest) else {
            return Err(BsonFault::Malformed);
        };
        keys.push(element.key)?;
        rest = after;
    }
    Ok(keys)
}

// Whether no text stands twice. It sorts the texts.
fn is_without_repeat(texts: &mut [&str]) -> bool
    ensures { IsTrue result ↔ AreApart (bytes_of_texts texts.old) }
{
    texts.sort_unstable();
    is_each_new(texts)
}

// Whether each text differs from the one before it, so, where they are sorted, from all before it.
fn is_each_new(texts: &[&str]) -> bool
    requires { IsSorted (λ x y. slice_cmp nat_cmp x.now y.now) texts.now }
    ensures { IsTrue result ↔ AreApart (bytes_of_texts texts.now) }
{
    for i in 1..texts.len() {
        if texts[i - 1] == texts[i] {
            return false;
        }
    }
    true
}
