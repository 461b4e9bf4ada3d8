ghost use Rattle.std.specs.Prelude.{◌≡◌, ◌++◌, ◌+◌, ◌-◌, ◌<◌, ◌↔◌, List, ℕ, [], length, Contains, IsOk, IfOk, IfErr, IsErrOf, OnOk, OnErr};
ghost use Rattle.std.specs.Cmp.Lexicographic.{pointwise};
ghost use Rattle.std.specs.Cmp.Rules.{comparing};
ghost use Rattle.std.specs.Prelude.{◌==◌};
ghost use Rattle.std.proofs.Common.{rules};
ghost use Rattle.mongo_bson.specs.Framed.{IsFramed, element_bytes, enclosed, maximum_length};
ghost use Rattle.mongo_bson.specs.Document.{AddsElement, spell};
ghost use Rattle.mongo_bson.specs.Value.{element_of};
ghost use Rattle.mongo_bson.specs.Writable.{AddsValue};
ghost use Rattle.mongo_bson.specs.Refusals.{AppendRefuses, PushRefuses};

use crate::raw_document::{EMPTY_DOCUMENT, is_framed};
use crate::writing::{has_room, has_room_for, has_zero, push_element, push_elements};
use crate::{BsonFault, Bytes, Items, RawDocument, RawValue, TryClone};
use std::alloc::Global;
use std::marker::Model;

// How many bytes a new document has memory for: most documents of a command never grow past it.
const FIRST_CAPACITY: usize = 256;

/// A document that owns its memory. Contracts see its bytes.
#[derive(Debug, Drop)]
pub struct RawDocumentBuf {
    pub(crate) held: Vec<u8>,
}

impl Model for RawDocumentBuf {
    ghost Value = { List ℕ };

    ghost view = { λ d. d.held.items };

    ghost invariant = { λ d. IsFramed d.held.items };
}

impl RawDocumentBuf {
    /// The document without elements.
    pub fn new(alloc: Global) -> Result<RawDocumentBuf, BsonFault>
        ensures empty { IfOk result (λ document. document ≡ enclosed []) }
        ensures refused { IfErr result (λ fault. fault ≡ BsonFault.OutOfMemory) }
    {
        let mut held = Vec::with_capacity(alloc, FIRST_CAPACITY)?;
        match held.extend_from_slice(&EMPTY_DOCUMENT) {
            Ok(()) => Ok(RawDocumentBuf { held }),
            Err(_) => unreachable!(),
        }
    }

    /// Takes memory for so many bytes more and no further ones, where it isn't there: elements of that size are put in
    /// without asking for more. The document stays as it is; what memory is taken, no clause says.
    pub fn reserve_exact(&mut self, additional: usize) -> Result<(), BsonFault>
        ensures unchanged { self.new ≡ self.old }
        ensures refused { IfErr result (λ fault. fault ≡ BsonFault.OutOfMemory) }
    {
        self.held.reserve_exact(additional)?;
        Ok(())
    }

    /// The document that the bytes are.
    ///
    /// `Malformed` where [`RawDocument::from_bytes`] answers it. The bytes are dropped then.
    pub fn from_bytes(bytes: Bytes) -> Result<RawDocumentBuf, BsonFault>
        ensures framed { IsOk result ↔ IsFramed bytes }
        ensures bytes { IfOk result (λ document. document ≡ bytes) }
        ensures malformed { IfErr result (λ fault. fault ≡ BsonFault.Malformed) }
    {
        if is_framed(bytes.as_bytes()) {
            Ok(RawDocumentBuf {
                held: bytes.into_vec(),
            })
        } else {
            Err(BsonFault::Malformed)
        }
    }

    /// The document of bytes that are known to be one, which aren't judged again.
    pub fn of_framed(bytes: Bytes) -> RawDocumentBuf
        requires { IsFramed bytes }
        ensures { result ≡ bytes }
    {
        RawDocumentBuf {
            held: bytes.into_vec(),
        }
    }

    /// Puts an element at the end: a key and a value. The element is written in place, so a document is built in time
    /// linear in its length. Where the document was one of BSON 1.1's elements, it is one of these and the new one, unless
    /// the bytes of [`RawValue::Other`] are no value of their kind.
    ///
    /// `KeyHasZero` where the key holds a zero byte, then `TooLong` where the document would pass 2147483647 bytes.
    /// A refusal leaves the document as it was.
    #[inline(always)]
    pub fn append(&mut self, key: &str, value: RawValue<'_>) -> Result<(), BsonFault>
        ensures added { OnOk result (self.new ≡ enclosed (element_bytes self.old ++ spell (element_of key.now value.entry))) }
        ensures one_more { OnOk result (AddsElement self.old self.new (element_of key.now value.entry)) }
        ensures adds_value { OnOk result (AddsValue self.old self.new key.now value.entry) }
        ensures key_has_zero { IsErrOf result BsonFault.KeyHasZero ↔ Contains key.now 0 }
        ensures too_long { IsErrOf result BsonFault.TooLong ↔ ((¬ Contains key.now 0) × (maximum_length < length self.old + length (spell (element_of key.now value.entry)))) }
        ensures unchanged { OnErr result (self.new ≡ self.old) }
        ensures framed { OnOk result (IsFramed self.new) }
        ensures refused { IfErr result AppendRefuses }
    {
        if has_zero(key) {
            return Err(BsonFault::KeyHasZero);
        }
        if !has_room(self.held.len(), key, value) {
            return Err(BsonFault::TooLong);
        }
        push_element(&mut self.held, key, value)
    }

    // Puts elements at the end. `TooLong` where the document would pass 2147483647 bytes.
    pub(crate) fn append_elements(&mut self, elements: &[u8]) -> Result<(), BsonFault>
        ensures added { OnOk result (self.new ≡ enclosed (element_bytes self.old ++ elements.now)) }
        ensures too_long { IsErrOf result BsonFault.TooLong ↔ (maximum_length < length self.old + length elements.now) }
        ensures unchanged { OnErr result (self.new ≡ self.old) }
        ensures refused { IfErr result PushRefuses }
    {
        if !has_room_for(self.held.len(), elements.len()) {
            return Err(BsonFault::TooLong);
        }
        push_elements(&mut self.held, elements)
    }

    /// The document, borrowed.
    pub fn borrow(&self) -> RawDocument<'_>
        ensures { result.bytes.now ≡ self.now }
    {
        RawDocument {
            bytes: self.held.as_slice(),
        }
    }

    /// The bytes of the document, its length and final zero included.
    pub fn as_bytes(&self) -> &[u8]
        ensures bytes { result.now ≡ self.now }
        ensures framed { IsFramed result.now }
    {
        self.held.as_slice()
    }

    /// A copy of the document.
    pub fn try_clone(&self, alloc: Global) -> Result<RawDocumentBuf, BsonFault>
        ensures copied { IfOk result (λ document. document ≡ self.now) }
        ensures refused { IfErr result (λ fault. fault ≡ BsonFault.OutOfMemory) }
    {
        self.borrow().to_raw_document_buf(alloc)
    }
}

impl PartialEq for RawDocumentBuf {
    ghost eq = { pointwise ◌==◌ };

    ghost laws = { Prim.search (comparing, rules) };

    fn eq(&self, other: &RawDocumentBuf) -> bool {
        self.as_bytes() == other.as_bytes()
    }
}

impl TryClone for RawDocumentBuf {
    fn try_clone(&self, alloc: Global) -> Result<RawDocumentBuf, BsonFault> {
        RawDocumentBuf::try_clone(self, alloc)
    }
}

/// A list of documents. Contracts see the list of their bytes.
pub type Documents = Items<RawDocumentBuf>;
