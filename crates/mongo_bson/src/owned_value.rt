ghost use Rattle.std.specs.Prelude.{◌≡◌, IfOk, IfErr};

use crate::{BsonFault, Bytes, TryClone};
use std::alloc::Global;

/// A value that owns its memory: its kind byte and its bytes as they lie in a document.
#[derive(Debug, PartialEq, Drop)]
pub struct OwnedValue {
    /// The kind byte, BSON 1.1.
    pub kind: u8,
    /// The bytes of the value, as they lie in a document.
    pub bytes: Bytes,
}

impl OwnedValue {
    /// A copy of the value.
    pub fn try_clone(&self, alloc: Global) -> Result<OwnedValue, BsonFault>
        ensures copied { IfOk result (λ value. value ≡ self.now) }
        ensures refused { IfErr result (λ fault. fault ≡ BsonFault.OutOfMemory) }
    {
        Ok(OwnedValue {
            kind: self.kind,
            bytes: self.bytes.try_clone(alloc)?,
        })
    }
}

impl TryClone for OwnedValue {
    fn try_clone(&self, alloc: Global) -> Result<OwnedValue, BsonFault> {
        OwnedValue::try_clone(self, alloc)
    }
}
