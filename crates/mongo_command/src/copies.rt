ghost use Rattle.std.specs.Prelude.{◌≡◌, ◌⊎◌, Ok, Err, IsOk, IfOk, IfErr};

use mongo_bson::{BsonFault, TryClone, copy_of};
use std::alloc::Global;

// Copies of three values that may be there.
pub(crate) fn copies_of<A: TryClone + Drop, B: TryClone + Drop, C: TryClone + Drop>(
    alloc: Global,
    first: &Option<A>,
    second: &Option<B>,
    third: &Option<C>,
) -> Result<(Option<A>, Option<B>, Option<C>), BsonFault>
    ensures copied { IfOk result (λ copies. (copies.0 ≡ first.now) × (copies.1 ≡ second.now) × (copies.2 ≡ third.now)) }
    ensures refused { IfErr result (λ fault. fault ≡ BsonFault.OutOfMemory) }
{
    let two = both(copy_of(alloc, first), copy_of(alloc, second));
    let ((first, second), third) = both(two, copy_of(alloc, third))?;
    Ok((first, second, third))
}

/// Two answers as one: both values, or the fault of the first that has one. Where many values are read or copied, a caller joins their
/// answers so: then it returns early once, and lets go of nothing there.
pub fn both<A: Drop, B: Drop, E: Drop>(
    first: Result<A, E>,
    second: Result<B, E>,
) -> Result<(A, B), E>
    ensures values { IfOk result (λ values. (first ≡ Ok values.0) × (second ≡ Ok values.1)) }
    ensures fault { IfErr result (λ fault. (first ≡ Err fault) ⊎ (IsOk first × (second ≡ Err fault))) }
{
    let first = first?;
    let second = second?;
    Ok((first, second))
}
