ghost use Rattle.std.specs.Prelude.{◌≡◌, ◌↔◌, IsTrue, IsOk, IfOk, IfErr};
ghost use Rattle.mongo_bson.specs.Framed.{IsFramed, element_bytes};

use crate::{BsonFault, RawDocumentBuf};
use std::alloc::Global;

/// The greatest length of a document and of a value, the greatest `int32`: an `int32` says how long each is.
pub const MAXIMUM_LENGTH: usize = 0x7FFF_FFFF;

/// The bytes of the document without elements.
pub const EMPTY_DOCUMENT: [u8; 5] = [5, 0, 0, 0, 0];

/// A document borrowed from bytes: its length field is its length, and its last byte is zero. Its elements are judged
/// as they are read.
#[derive(Debug, Clone, Copy, PartialEq, Drop)]
pub struct RawDocument<'a> {
    pub(crate) bytes: &'a [u8],
    pub ghost framed: { IsFramed bytes.now },
}

impl<'a> RawDocument<'a> {
    /// The document that the bytes are.
    ///
    /// `Malformed` where the length field isn't their length, that is below 5, or the last byte isn't zero.
    pub fn from_bytes(bytes: &'a [u8]) -> Result<RawDocument<'a>, BsonFault>
        ensures framed { IsOk result ↔ IsFramed bytes.now }
        ensures bytes { IfOk result (λ document. document.bytes.now ≡ bytes.now) }
        ensures malformed { IfErr result (λ fault. fault ≡ BsonFault.Malformed) }
    {
        if is_framed(bytes) {
            Ok(RawDocument { bytes })
        } else {
            Err(BsonFault::Malformed)
        }
    }

    /// The document of bytes that are known to be one, which aren't judged again.
    pub fn of_framed(bytes: &'a [u8]) -> RawDocument<'a>
        requires { IsFramed bytes.now }
        ensures { result.bytes.now ≡ bytes.now }
    {
        RawDocument { bytes }
    }

    /// The bytes of the document, its length and final zero included.
    pub fn as_bytes(&self) -> &'a [u8]
        ensures bytes { result.now ≡ self.now.bytes.now }
        ensures framed { IsFramed result.now }
    {
        self.bytes
    }

    /// A copy of the document that owns its memory.
    pub fn to_raw_document_buf(&self, alloc: Global) -> Result<RawDocumentBuf, BsonFault>
        ensures copied { IfOk result (λ document. document ≡ self.now.bytes.now) }
        ensures refused { IfErr result (λ fault. fault ≡ BsonFault.OutOfMemory) }
    {
        Ok(RawDocumentBuf {
            held: Vec::from_slice(alloc, self.as_bytes())?,
        })
    }
}

// The bytes of a document's elements, which stand between its length and its final zero.
pub(crate) fn element_bytes<'a>(document: &'a [u8]) -> &'a [u8]
    requires { IsFramed document.now }
    ensures { result.now ≡ element_bytes document.now }
{
    match document {
        [_, _, _, _, elements @ .., _] => elements,
        _ => unreachable!(),
    }
}

// Whether the bytes have the frame of a document.
pub(crate) fn is_framed(bytes: &[u8]) -> bool
    ensures { IsTrue result ↔ IsFramed bytes.now }
{
    match bytes {
        [a, b, c, d, .., last] => {
            let length = u32::from_le_bytes([*a, *b, *c, *d]) as usize;
            length <= MAXIMUM_LENGTH && length == bytes.len() && *last == 0
        }
        _ => false,
    }
}
