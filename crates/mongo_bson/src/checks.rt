ghost use Rattle.std.specs.Prelude.{◌≡◌, ◌↔◌, IsTrue, IsErr, IfOk, IfErr};
ghost use Rattle.mongo_bson.specs.Framed.{element_bytes};
ghost use Rattle.mongo_bson.specs.Steps.{IsBroken};
ghost use Rattle.mongo_bson.specs.Find.{FirstKey};
ghost use Rattle.mongo_bson.specs.Checks.{IsModifier, IsUpdate, IsReplacement};

use crate::element::take_element;
use crate::raw_document::element_bytes;
use crate::{BsonFault, RawDocument};

/// The key of the first element, or None where the document is empty.
///
/// `Malformed` where it isn't empty and no element stands first.
pub fn first_key<'a>(document: RawDocument<'a>) -> Result<Option<&'a str>, BsonFault>
    ensures first { IfOk result (FirstKey (element_bytes document.entry.bytes.now)) }
    ensures malformed { IfErr result (λ fault. (fault ≡ BsonFault.Malformed) × IsBroken (element_bytes document.entry.bytes.now)) }
    ensures no_element { IsErr result ↔ IsBroken (element_bytes document.entry.bytes.now) }
{
    let elements = element_bytes(document.bytes);
    if elements.is_empty() {
        return Ok(None);
    }
    match take_element(elements) {
        Some((element, _rest)) => Ok(Some(element.key)),
        None => Err(BsonFault::Malformed),
    }
}

/// Whether a document may update another: its first key begins with `$`.
///
/// `UpdateEmpty` where the document is empty, `UpdateNotModifiers` where its first key doesn't begin with `$`,
/// `Malformed` where no element stands first.
pub fn update_document_check(document: RawDocument<'_>) -> Result<(), BsonFault>
    ensures { IsUpdate (element_bytes document.entry.bytes.now) result }
{
    match first_key(document) {
        Ok(Some(key)) => {
            if is_modifier(key) {
                Ok(())
            } else {
                Err(BsonFault::UpdateNotModifiers)
            }
        }
        Ok(None) => Err(BsonFault::UpdateEmpty),
        Err(fault) => Err(fault),
    }
}

/// Whether a document may replace another: it is empty, or its first key doesn't begin with `$`.
///
/// `ReplacementHasModifiers` where the first key begins with `$`, `Malformed` where it isn't empty and no element
/// stands first.
pub fn replacement_document_check(document: RawDocument<'_>) -> Result<(), BsonFault>
    ensures { IsReplacement (element_bytes document.entry.bytes.now) result }
{
    match first_key(document) {
        Ok(Some(key)) => {
            if is_modifier(key) {
                Err(BsonFault::ReplacementHasModifiers)
            } else {
                Ok(())
            }
        }
        Ok(None) => Ok(()),
        Err(fault) => Err(fault),
    }
}

/// The same as [`replacement_document_check`], under the name that the driver has for documents in bytes.
pub fn replacement_raw_document_check(document: RawDocument<'_>) -> Result<(), BsonFault>
    ensures { IsReplacement (element_bytes document.entry.bytes.now) result }
{
    replacement_document_check(document)
}

// Whether a key names a modifier, as `$set`.
fn is_modifier(key: &str) -> bool
    ensures { IsTrue result ↔ IsModifier key.now }
{
    key.starts_with('$')
}
