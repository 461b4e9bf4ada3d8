ghost use Rattle.std.specs.Prelude.{◌↔◌, IsTrue, MatchOption};
ghost use Rattle.mongo_bson.specs.Framed.{IsFramed};
ghost use Rattle.mongo_bson.specs.Document.{IsReadable, maximum_depth, Holds, code_with_scope};
ghost use Rattle.mongo_bson.specs.Reading.{HoldsKind, IsOnlyInside, HoldsNoDocument, IsScopeOf, element_read};

use crate::element::{RawElement, take_element};
use crate::raw_document::element_bytes;
use crate::shape::counted_len;
use crate::{RawDocument, kinds};

// How many levels of documents may stand in one another.
const MAXIMUM_DEPTH: u32 = 100;

impl<'a> RawDocument<'a> {
    /// Whether the document and each document inside, down to 100 levels of which this is the first, is made of
    /// elements of BSON 1.1 alone: known kinds, texts in UTF-8, boolean values 0 or 1, lengths that fit.
    ///
    /// It takes no memory, and time linear in the document's length.
    pub fn readable(&self) -> bool
        ensures { IsTrue result ↔ IsReadable maximum_depth self.now.bytes.now }
    {
        is_readable(self.bytes, MAXIMUM_DEPTH)
    }
}

// Whether a document is readable down to so many levels.
fn is_readable(document: &[u8], levels: u32) -> bool
    requires { IsFramed document.now }
    ensures { IsTrue result ↔ IsReadable levels document.now }
{
    if levels == 0 {
        return false;
    }
    let mut rest = element_bytes(document);
    'elements: while !rest.is_empty() {
        let Some((element, after)) = take_element(rest) else {
            return false;
        };
        match document_inside(element) {
            Some(inner) => {
                if !is_readable(inner, levels - 1) {
                    return false;
                }
            }
            None => {}
        }
        rest = after;
    }
    true
}

// The document or array that a value is, or the scope that it holds.
fn document_inside<'a>(element: RawElement<'a>) -> Option<&'a [u8]>
    requires { HoldsKind element.kind element.value.now }
    ensures { MatchOption result (HoldsNoDocument (element_read element.entry)) (λ d. IsOnlyInside (element_read element.entry) d.now) }
{
    match element.kind {
        kinds::DOCUMENT => Some(element.value),
        kinds::ARRAY => Some(element.value),
        kinds::CODE_WITH_SCOPE => Some(scope_of(element.value)),
        _ => None,
    }
}

// The document of a code with scope.
fn scope_of<'a>(value: &'a [u8]) -> &'a [u8]
    requires { Holds code_with_scope value.now }
    ensures { IsScopeOf value.now result.now }
{
    let (_count, parts) = value.split_at(4);
    match counted_len(parts, 4) {
        Some(size) => {
            let (_code, scope) = parts.split_at(size);
            scope
        }
        None => unreachable!(),
    }
}
