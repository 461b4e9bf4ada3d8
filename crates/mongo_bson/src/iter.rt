ghost use Rattle.std.specs.Prelude.{◌≡◌, length};
ghost use Rattle.std.specs.Iterator.{at_most};
ghost use Rattle.mongo_bson.specs.Framed.{element_bytes};
ghost use Rattle.mongo_bson.specs.Steps.{NextElement};

use crate::element::take_element;
use crate::meaning::value_of;
use crate::raw_document::element_bytes;
use crate::{BsonFault, RawDocument, RawValue};

/// The elements of a document one after another, each a key and a value that borrow the document's bytes.
///
/// Where no element stands at the front of what is left, it gives `Malformed` once and then ends. It gives at most as
/// many items as the document has bytes.
#[derive(Debug, Clone, Drop)]
pub struct Iter<'a> {
    pub(crate) rest: &'a [u8],
}

impl<'a> RawDocument<'a> {
    /// The elements of the document.
    pub fn iter(&self) -> Iter<'a>
        ensures { result.rest.now ≡ element_bytes self.now.bytes.now }
    {
        Iter {
            rest: element_bytes(self.bytes),
        }
    }
}

impl<'a> Iterator for Iter<'a> {
    type Item = Result<(&'a str, RawValue<'a>), BsonFault>;

    ghost next_gives = { NextElement };

    ghost remaining = { λ s. at_most (length s.rest.now) };

    fn next(&mut self) -> Option<Result<(&'a str, RawValue<'a>), BsonFault>> {
        if self.rest.is_empty() {
            return None;
        }
        match take_element(self.rest) {
            Some((element, rest)) => {
                self.rest = rest;
                Some(Ok((element.key, value_of(element.kind, element.value))))
            }
            None => {
                self.rest = &[];
                Some(Err(BsonFault::Malformed))
            }
        }
    }
}
