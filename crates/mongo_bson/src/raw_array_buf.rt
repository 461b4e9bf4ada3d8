ghost use Rattle.std.specs.Prelude.{◌≡◌, ◌++◌, ◌+◌, ◌-◌, ◌<◌, ◌≤◌, ◌↔◌, ◌==◌, [], length, IfOk, IfErr, IsErrOf, OnOk, OnErr};
ghost use Rattle.std.specs.Fmt.{decimal};
ghost use Rattle.mongo_bson.specs.Framed.{IsFramed, element_bytes, enclosed, maximum_length};
ghost use Rattle.mongo_bson.specs.Document.{AddsElement, spell};
ghost use Rattle.mongo_bson.specs.Value.{element_of};
ghost use Rattle.mongo_bson.specs.Array.{IsArray};
ghost use Rattle.mongo_bson.specs.Refusals.{PushRefuses};

use crate::{BsonFault, RawDocument, RawDocumentBuf, RawValue, TryClone};
use itoa::Buffer;
use std::alloc::Global;

/// An array that owns its memory: a document whose keys are `0`, `1` and so on, in decimal.
#[derive(Debug, PartialEq, Drop)]
pub struct RawArrayBuf {
    pub(crate) document: RawDocumentBuf,
    pub(crate) count: usize,
    pub ghost within: { count ≤ length document },
    pub ghost framed: { IsFramed document },
    pub ghost numbered: { IsArray document count },
}

impl RawArrayBuf {
    /// The array without values.
    pub fn new(alloc: Global) -> Result<RawArrayBuf, BsonFault>
        ensures empty { IfOk result (λ array. (array.document ≡ enclosed []) × (array.count ≡ 0)) }
        ensures refused { IfErr result (λ fault. fault ≡ BsonFault.OutOfMemory) }
    {
        Ok(RawArrayBuf {
            document: RawDocumentBuf::new(alloc)?,
            count: 0,
        })
    }

    /// Puts a value at the end, under the next number.
    ///
    /// `TooLong` where the array would pass 2147483647 bytes. A refusal leaves the array as it was.
    pub fn push(&mut self, value: RawValue<'_>) -> Result<(), BsonFault>
        ensures added { OnOk result (self.new.document ≡ enclosed (element_bytes self.old.document ++ spell (element_of (decimal self.old.count) value.entry))) }
        ensures one_more { OnOk result (AddsElement self.old.document self.new.document (element_of (decimal self.old.count) value.entry)) }
        ensures counted { OnOk result (self.new.count ≡ self.old.count + 1) }
        ensures too_long { IsErrOf result BsonFault.TooLong ↔ (maximum_length < length self.old.document + length (spell (element_of (decimal self.old.count) value.entry))) }
        ensures unchanged { OnErr result (self.new ≡ self.old) }
        ensures refused { IfErr result PushRefuses }
    {
        let mut digits = Buffer::new();
        match self.document.append(digits.format(self.count), value) {
            Ok(()) => {
                self.count += 1;
                Ok(())
            }
            Err(fault) => Err(fault),
        }
    }

    /// How many values there are.
    pub fn len(&self) -> usize
        ensures { result ≡ self.now.count }
    {
        self.count
    }

    /// Whether there is no value.
    pub fn is_empty(&self) -> bool
        ensures { result ≡ (self.now.count == 0) }
    {
        self.count == 0
    }

    /// The array, borrowed.
    pub fn borrow(&self) -> RawDocument<'_>
        ensures { result.bytes.now ≡ self.now.document }
    {
        self.document.borrow()
    }

    /// A copy of the array.
    pub fn try_clone(&self, alloc: Global) -> Result<RawArrayBuf, BsonFault>
        ensures copied { IfOk result (λ array. array ≡ self.now) }
        ensures refused { IfErr result (λ fault. fault ≡ BsonFault.OutOfMemory) }
    {
        Ok(RawArrayBuf {
            document: self.document.try_clone(alloc)?,
            count: self.count,
        })
    }
}

impl TryClone for RawArrayBuf {
    fn try_clone(&self, alloc: Global) -> Result<RawArrayBuf, BsonFault> {
        RawArrayBuf::try_clone(self, alloc)
    }
}
