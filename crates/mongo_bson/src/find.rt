ghost use Rattle.std.specs.Prelude.{◌≡◌, ◌↔◌, Option, IsErr, IfOk, MatchOption, IfErr};
ghost use Rattle.mongo_bson.specs.Framed.{element_bytes};
ghost use Rattle.mongo_bson.specs.Reading.{element_read};
ghost use Rattle.mongo_bson.specs.Find.{IsFirstOf, LacksKey, BreaksOff, FindsValue, FindsBytes};

use crate::element::{RawElement, take_element};
use crate::meaning::value_of;
use crate::raw_document::element_bytes;
use crate::{BsonFault, RawDocument, RawValue};

impl<'a> RawDocument<'a> {
    /// The value of the first element of that key, or None where the document has none.
    ///
    /// `Malformed` where the elements break off before one of that key, in no other case.
    pub fn get(&self, key: &str) -> Result<Option<RawValue<'a>>, BsonFault>
        ensures found { IfOk result (FindsValue (element_bytes self.now.bytes.now) key.now) }
        ensures malformed { IfErr result (λ fault. (fault ≡ BsonFault.Malformed) × BreaksOff (element_bytes self.now.bytes.now) key.now) }
        ensures breaks_off { IsErr result ↔ BreaksOff (element_bytes self.now.bytes.now) key.now }
    {
        match find(element_bytes(self.bytes), key) {
            Ok(Some(element)) => Ok(Some(value_of(element.kind, element.value))),
            Ok(None) => Ok(None),
            Err(fault) => Err(fault),
        }
    }

    /// The kind byte and the bytes of the value of the first element of that key, or None where the document has none.
    ///
    /// `Malformed` as by [`RawDocument::get`].
    pub fn get_bytes(&self, key: &str) -> Result<Option<(u8, &'a [u8])>, BsonFault>
        ensures found { IfOk result (FindsBytes (element_bytes self.now.bytes.now) key.now) }
        ensures malformed { IfErr result (λ fault. (fault ≡ BsonFault.Malformed) × BreaksOff (element_bytes self.now.bytes.now) key.now) }
        ensures breaks_off { IsErr result ↔ BreaksOff (element_bytes self.now.bytes.now) key.now }
    {
        match find(element_bytes(self.bytes), key) {
            Ok(Some(element)) => Ok(Some((element.kind, element.value))),
            Ok(None) => Ok(None),
            Err(fault) => Err(fault),
        }
    }
}

// The first element of that key.
fn find<'a>(bytes: &'a [u8], key: &str) -> Result<Option<RawElement<'a>>, BsonFault>
    ensures found { IfOk result (λ found. MatchOption found (LacksKey bytes.now key.now) (λ e. IsFirstOf bytes.now key.now (element_read e))) }
    ensures malformed { IfErr result (λ fault. (fault ≡ BsonFault.Malformed) × BreaksOff bytes.now key.now) }
    ensures breaks_off { IsErr result ↔ BreaksOff bytes.now key.now }
{
    let mut rest = bytes;
    'elements: while !rest.is_empty() {
        let Some((element, after)) = take_element(rest) else {
            return Err(BsonFault::Malformed);
        };
        if element.key == key {
            return Ok(Some(element));
        }
        rest = after;
    }
    Ok(None)
}
