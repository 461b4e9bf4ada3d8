ghost use Rattle.std.specs.Prelude.{◌≡◌, IfOk, IfErr};

use crate::BsonFault;
use std::alloc::Global;

/// What can be copied where there is memory for the copy, as the items of [`Items`](crate::Items).
pub trait TryClone {
    /// A copy.
    fn try_clone(&self, alloc: Global) -> Result<Self, BsonFault>
        ensures copied { IfOk result (λ copy. copy ≡ self.now) }
        ensures refused { IfErr result (λ fault. fault ≡ BsonFault.OutOfMemory) };
}

/// A copy of what may be there. Want of memory is the only refusal.
pub fn copy_of<T: TryClone + Drop>(alloc: Global, held: &Option<T>) -> Result<Option<T>, BsonFault>
    ensures copied { IfOk result (λ copy. copy ≡ held.now) }
    ensures refused { IfErr result (λ fault. fault ≡ BsonFault.OutOfMemory) }
{
    match held {
        Some(held) => Ok(Some(held.try_clone(alloc)?)),
        None => Ok(None),
    }
}
