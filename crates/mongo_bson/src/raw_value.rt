use crate::RawDocument;

/// The subtype of a binary that has no other meaning: the generic one of BSON 1.1.
pub const GENERIC: u8 = 0;

/// An object id of BSON 1.1: its 12 bytes in the order of the wire.
#[derive(Clone, Copy, Debug, PartialEq, Eq)]
pub struct ObjectId(pub [u8; 12]);

/// A value of a document, borrowed from its bytes.
#[derive(Debug, Clone, Copy, PartialEq, Drop)]
pub enum RawValue<'a> {
    /// A double as its 64 bits, the IEEE 754 binary64 pattern.
    Double(u64),
    /// A text without its length and final zero.
    Str(&'a str),
    /// A document.
    Document(RawDocument<'a>),
    /// An array: a document whose keys are `0`, `1` and so on.
    Array(RawDocument<'a>),
    /// A subtype and the bytes of a binary.
    Binary(u8, &'a [u8]),
    /// An object id.
    ObjectId(ObjectId),
    /// A boolean value.
    Bool(bool),
    /// Milliseconds since 1970, UTC.
    DateTime(i64),
    /// Null.
    Null,
    /// A 32-bit integer.
    Int32(i32),
    /// A 64-bit integer.
    Int64(i64),
    /// A value of another kind: its kind byte and its bytes as they lie in the document.
    Other(u8, &'a [u8]),
}
