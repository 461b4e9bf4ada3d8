ghost use Rattle.std.specs.Prelude.{MatchOption};
ghost use Rattle.mongo_bson.specs.Reading.{BeginsWithElement, NoElementAtFront, element_read};

use crate::cstring::take_cstring;
use crate::shape::value_len;

// An element as it lies in a document: the kind byte, the key and the bytes of the value.
#[derive(Debug, Clone, Copy, Drop)]
pub(crate) struct RawElement<'a> {
    pub(crate) kind: u8,
    pub(crate) key: &'a str,
    pub(crate) value: &'a [u8],
}

// The element at the front and the bytes after it. None where no element stands there.
#[inline(always)]
pub(crate) fn take_element<'a>(bytes: &'a [u8]) -> Option<(RawElement<'a>, &'a [u8])>
    ensures { MatchOption result (NoElementAtFront bytes.now) (λ p. BeginsWithElement bytes.now (element_read p.0) p.1.now) }
{
    let (kind, rest) = bytes.split_first()?;
    let (key, rest) = take_cstring(rest)?;
    let size = value_len(*kind, rest)?;
    let (value, rest) = rest.split_at(size);
    let element = RawElement {
        kind: *kind,
        key,
        value,
    };
    Some((element, rest))
}
