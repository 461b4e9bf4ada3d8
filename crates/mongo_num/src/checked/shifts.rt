// `<<` and `>>` on checked numbers: none where the places are the width or more. Bits that are shifted out
// are lost, and `>>` keeps the sign.
ghost use Rattle.std.specs.Prelude.{◌≡◌, ◌<◌, ◌^◌, ◌⊎◌, pos, ◌*ℤ◌, Some, IsNone, IsSome, IfSome};
ghost use Rattle.std.specs.Int.{int_shr};
ghost use Rattle.mongo_num.specs.Exact.{IsNarrow, HoldsWhere, GivesShifted, shifted_left, wrapped};

use crate::checked::Checked;
use crate::int::{Int, count, greatest, wide};
use std::ops::{Shl, ShlAssign, Shr, ShrAssign};

/// The bits moved up: those that are shifted out are lost. None where the places are `T`'s width or more,
/// or a side is none.
impl<T: Int> Shl<Checked<u32>> for Checked<T> {
    type Output = Checked<T>;

    ghost shl_gives = { λ a k r. GivesShifted T.number T.WIDTH (shifted_left T.WIDTH T.GREATEST) a.0 k.0 r.0 };

    fn shl(self, rhs: Checked<u32>) -> Checked<T>
        ensures exact { GivesShifted T.number T.WIDTH (shifted_left T.WIDTH T.GREATEST) self.0 rhs.0 result.0 }
        ensures stays_failed { (IsNone self.0 ⊎ IsNone rhs.0) → IsNone result.0 }
    {
        match (self.0, rhs.0) {
            (Some(x), Some(places)) => Checked(shift_left(x, places)),
            _ => Checked(None),
        }
    }
}

impl<T: Int> Shl<u32> for Checked<T> {
    type Output = Checked<T>;

    ghost shl_gives = { λ a k r. GivesShifted T.number T.WIDTH (shifted_left T.WIDTH T.GREATEST) a.0 (Some k) r.0 };

    fn shl(self, rhs: u32) -> Checked<T>
        ensures exact { GivesShifted T.number T.WIDTH (shifted_left T.WIDTH T.GREATEST) self.0 (Some rhs) result.0 }
        ensures stays_failed { IsNone self.0 → IsNone result.0 }
    {
        self << Checked::new(rhs)
    }
}

impl<T: Int> ShlAssign<Checked<u32>> for Checked<T> {
    ghost shl_assign_gives = { λ a k r. GivesShifted T.number T.WIDTH (shifted_left T.WIDTH T.GREATEST) a.0 k.0 r.0 };

    fn shl_assign(&mut self, rhs: Checked<u32>)
        ensures exact { GivesShifted T.number T.WIDTH (shifted_left T.WIDTH T.GREATEST) self.old.0 rhs.0 self.new.0 }
        ensures stays_failed { (IsNone self.old.0 ⊎ IsNone rhs.0) → IsNone self.new.0 }
    {
        *self = *self << rhs;
    }
}

impl<T: Int> ShlAssign<u32> for Checked<T> {
    ghost shl_assign_gives = { λ a k r. GivesShifted T.number T.WIDTH (shifted_left T.WIDTH T.GREATEST) a.0 (Some k) r.0 };

    fn shl_assign(&mut self, rhs: u32)
        ensures exact { GivesShifted T.number T.WIDTH (shifted_left T.WIDTH T.GREATEST) self.old.0 (Some rhs) self.new.0 }
        ensures stays_failed { IsNone self.old.0 → IsNone self.new.0 }
    {
        *self = *self << rhs;
    }
}

/// The bits moved down: those that are shifted out are lost, and the sign stays. None where the places are
/// `T`'s width or more, or a side is none.
impl<T: Int> Shr<Checked<u32>> for Checked<T> {
    type Output = Checked<T>;

    ghost shr_gives = { λ a k r. GivesShifted T.number T.WIDTH int_shr a.0 k.0 r.0 };

    fn shr(self, rhs: Checked<u32>) -> Checked<T>
        ensures exact { GivesShifted T.number T.WIDTH int_shr self.0 rhs.0 result.0 }
        ensures stays_failed { (IsNone self.0 ⊎ IsNone rhs.0) → IsNone result.0 }
    {
        match (self.0, rhs.0) {
            (Some(x), Some(places)) => Checked(shift_right(x, places)),
            _ => Checked(None),
        }
    }
}

impl<T: Int> Shr<u32> for Checked<T> {
    type Output = Checked<T>;

    ghost shr_gives = { λ a k r. GivesShifted T.number T.WIDTH int_shr a.0 (Some k) r.0 };

    fn shr(self, rhs: u32) -> Checked<T>
        ensures exact { GivesShifted T.number T.WIDTH int_shr self.0 (Some rhs) result.0 }
        ensures stays_failed { IsNone self.0 → IsNone result.0 }
    {
        self >> Checked::new(rhs)
    }
}

impl<T: Int> ShrAssign<Checked<u32>> for Checked<T> {
    ghost shr_assign_gives = { λ a k r. GivesShifted T.number T.WIDTH int_shr a.0 k.0 r.0 };

    fn shr_assign(&mut self, rhs: Checked<u32>)
        ensures exact { GivesShifted T.number T.WIDTH int_shr self.old.0 rhs.0 self.new.0 }
        ensures stays_failed { (IsNone self.old.0 ⊎ IsNone rhs.0) → IsNone self.new.0 }
    {
        *self = *self >> rhs;
    }
}

impl<T: Int> ShrAssign<u32> for Checked<T> {
    ghost shr_assign_gives = { λ a k r. GivesShifted T.number T.WIDTH int_shr a.0 (Some k) r.0 };

    fn shr_assign(&mut self, rhs: u32)
        ensures exact { GivesShifted T.number T.WIDTH int_shr self.old.0 (Some rhs) self.new.0 }
        ensures stays_failed { IsNone self.old.0 → IsNone self.new.0 }
    {
        *self = *self >> rhs;
    }
}

fn shift_left<T: Int>(x: T, places: u32) -> Option<T>
    ensures { HoldsWhere T.number (places < T.WIDTH) (shifted_left T.WIDTH T.GREATEST (T.number x) places) result }
{
    if T::WIDTH <= places {
        return None;
    }
    wrap(moved_up(wide(x), places))
}

fn shift_right<T: Int>(x: T, places: u32) -> Option<T>
    ensures { HoldsWhere T.number (places < T.WIDTH) (int_shr (T.number x) places) result }
{
    if T::WIDTH <= places {
        return None;
    }
    T::of_i128(wide(x) >> places)
}

// A number of 64 bits moved up by fewer places than that has 128 bits at most.
fn moved_up(n: i128, places: u32) -> i128
    requires narrow { IsNarrow n }
    requires below { places < 64 }
    ensures { result ≡ n *ℤ pos (2 ^ places) }
{
    n * (1 << places)
}

// The number of the type that has the lowest bits of `n`, which is always there.
fn wrap<T: Int>(n: i128) -> Option<T>
    ensures there { IsSome result }
    ensures value { IfSome result (λ x. T.number x ≡ wrapped T.WIDTH T.GREATEST n) }
{
    let low_bits = n.rem_euclid(count::<T>());
    if low_bits <= greatest::<T>() {
        T::of_i128(low_bits)
    } else {
        T::of_i128(low_bits - count::<T>())
    }
}
