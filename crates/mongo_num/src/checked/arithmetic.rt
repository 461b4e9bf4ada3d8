// `+`, `-` and `*` on checked numbers, and `-` of one: the exact value, or none where the type does not
// have it.
ghost use Rattle.std.specs.Prelude.{Some, IsNone, ◌⊎◌, ◌+ℤ◌, ◌-ℤ◌, ◌*ℤ◌, neg_ℤ};
ghost use Rattle.mongo_num.specs.Exact.{HoldsExactly, GivesExactly, GivesOfOne};

use crate::checked::Checked;
use crate::int::{Int, wide};
use std::ops::{Add, AddAssign, Mul, MulAssign, Neg, Sub, SubAssign};

/// The exact sum, or none where `T` does not have it or a side is none.
impl<T: Int> Add<Checked<T>> for Checked<T> {
    type Output = Checked<T>;

    ghost add_gives = { λ a b r. GivesExactly T.number T.LEAST T.GREATEST ◌+ℤ◌ a.0 b.0 r.0 };

    fn add(self, rhs: Checked<T>) -> Checked<T>
        ensures exact { GivesExactly T.number T.LEAST T.GREATEST ◌+ℤ◌ self.0 rhs.0 result.0 }
        ensures stays_failed { (IsNone self.0 ⊎ IsNone rhs.0) → IsNone result.0 }
    {
        match (self.0, rhs.0) {
            (Some(x), Some(y)) => Checked(sum(x, y)),
            _ => Checked(None),
        }
    }
}

impl<T: Int> Add<T> for Checked<T> {
    type Output = Checked<T>;

    ghost add_gives = { λ a y r. GivesExactly T.number T.LEAST T.GREATEST ◌+ℤ◌ a.0 (Some y) r.0 };

    fn add(self, rhs: T) -> Checked<T>
        ensures exact { GivesExactly T.number T.LEAST T.GREATEST ◌+ℤ◌ self.0 (Some rhs) result.0 }
        ensures stays_failed { IsNone self.0 → IsNone result.0 }
    {
        self + Checked::new(rhs)
    }
}

impl<T: Int> AddAssign<Checked<T>> for Checked<T> {
    ghost add_assign_gives = { λ a b r. GivesExactly T.number T.LEAST T.GREATEST ◌+ℤ◌ a.0 b.0 r.0 };

    fn add_assign(&mut self, rhs: Checked<T>)
        ensures exact { GivesExactly T.number T.LEAST T.GREATEST ◌+ℤ◌ self.old.0 rhs.0 self.new.0 }
        ensures stays_failed { (IsNone self.old.0 ⊎ IsNone rhs.0) → IsNone self.new.0 }
    {
        *self = *self + rhs;
    }
}

impl<T: Int> AddAssign<T> for Checked<T> {
    ghost add_assign_gives = { λ a y r. GivesExactly T.number T.LEAST T.GREATEST ◌+ℤ◌ a.0 (Some y) r.0 };

    fn add_assign(&mut self, rhs: T)
        ensures exact { GivesExactly T.number T.LEAST T.GREATEST ◌+ℤ◌ self.old.0 (Some rhs) self.new.0 }
        ensures stays_failed { IsNone self.old.0 → IsNone self.new.0 }
    {
        *self = *self + rhs;
    }
}

/// The exact difference, or none where `T` does not have it or a side is none.
impl<T: Int> Sub<Checked<T>> for Checked<T> {
    type Output = Checked<T>;

    ghost sub_gives = { λ a b r. GivesExactly T.number T.LEAST T.GREATEST ◌-ℤ◌ a.0 b.0 r.0 };

    fn sub(self, rhs: Checked<T>) -> Checked<T>
        ensures exact { GivesExactly T.number T.LEAST T.GREATEST ◌-ℤ◌ self.0 rhs.0 result.0 }
        ensures stays_failed { (IsNone self.0 ⊎ IsNone rhs.0) → IsNone result.0 }
    {
        match (self.0, rhs.0) {
            (Some(x), Some(y)) => Checked(difference(x, y)),
            _ => Checked(None),
        }
    }
}

impl<T: Int> Sub<T> for Checked<T> {
    type Output = Checked<T>;

    ghost sub_gives = { λ a y r. GivesExactly T.number T.LEAST T.GREATEST ◌-ℤ◌ a.0 (Some y) r.0 };

    fn sub(self, rhs: T) -> Checked<T>
        ensures exact { GivesExactly T.number T.LEAST T.GREATEST ◌-ℤ◌ self.0 (Some rhs) result.0 }
        ensures stays_failed { IsNone self.0 → IsNone result.0 }
    {
        self - Checked::new(rhs)
    }
}

impl<T: Int> SubAssign<Checked<T>> for Checked<T> {
    ghost sub_assign_gives = { λ a b r. GivesExactly T.number T.LEAST T.GREATEST ◌-ℤ◌ a.0 b.0 r.0 };

    fn sub_assign(&mut self, rhs: Checked<T>)
        ensures exact { GivesExactly T.number T.LEAST T.GREATEST ◌-ℤ◌ self.old.0 rhs.0 self.new.0 }
        ensures stays_failed { (IsNone self.old.0 ⊎ IsNone rhs.0) → IsNone self.new.0 }
    {
        *self = *self - rhs;
    }
}

impl<T: Int> SubAssign<T> for Checked<T> {
    ghost sub_assign_gives = { λ a y r. GivesExactly T.number T.LEAST T.GREATEST ◌-ℤ◌ a.0 (Some y) r.0 };

    fn sub_assign(&mut self, rhs: T)
        ensures exact { GivesExactly T.number T.LEAST T.GREATEST ◌-ℤ◌ self.old.0 (Some rhs) self.new.0 }
        ensures stays_failed { IsNone self.old.0 → IsNone self.new.0 }
    {
        *self = *self - rhs;
    }
}

/// The exact product, or none where `T` does not have it or a side is none.
impl<T: Int> Mul<Checked<T>> for Checked<T> {
    type Output = Checked<T>;

    ghost mul_gives = { λ a b r. GivesExactly T.number T.LEAST T.GREATEST ◌*ℤ◌ a.0 b.0 r.0 };

    fn mul(self, rhs: Checked<T>) -> Checked<T>
        ensures exact { GivesExactly T.number T.LEAST T.GREATEST ◌*ℤ◌ self.0 rhs.0 result.0 }
        ensures stays_failed { (IsNone self.0 ⊎ IsNone rhs.0) → IsNone result.0 }
    {
        match (self.0, rhs.0) {
            (Some(x), Some(y)) => Checked(product(x, y)),
            _ => Checked(None),
        }
    }
}

impl<T: Int> Mul<T> for Checked<T> {
    type Output = Checked<T>;

    ghost mul_gives = { λ a y r. GivesExactly T.number T.LEAST T.GREATEST ◌*ℤ◌ a.0 (Some y) r.0 };

    fn mul(self, rhs: T) -> Checked<T>
        ensures exact { GivesExactly T.number T.LEAST T.GREATEST ◌*ℤ◌ self.0 (Some rhs) result.0 }
        ensures stays_failed { IsNone self.0 → IsNone result.0 }
    {
        self * Checked::new(rhs)
    }
}

impl<T: Int> MulAssign<Checked<T>> for Checked<T> {
    ghost mul_assign_gives = { λ a b r. GivesExactly T.number T.LEAST T.GREATEST ◌*ℤ◌ a.0 b.0 r.0 };

    fn mul_assign(&mut self, rhs: Checked<T>)
        ensures exact { GivesExactly T.number T.LEAST T.GREATEST ◌*ℤ◌ self.old.0 rhs.0 self.new.0 }
        ensures stays_failed { (IsNone self.old.0 ⊎ IsNone rhs.0) → IsNone self.new.0 }
    {
        *self = *self * rhs;
    }
}

impl<T: Int> MulAssign<T> for Checked<T> {
    ghost mul_assign_gives = { λ a y r. GivesExactly T.number T.LEAST T.GREATEST ◌*ℤ◌ a.0 (Some y) r.0 };

    fn mul_assign(&mut self, rhs: T)
        ensures exact { GivesExactly T.number T.LEAST T.GREATEST ◌*ℤ◌ self.old.0 (Some rhs) self.new.0 }
        ensures stays_failed { IsNone self.old.0 → IsNone self.new.0 }
    {
        *self = *self * rhs;
    }
}

/// The exact opposite, or none where `T` does not have it or none is held. On an unsigned type 0 alone has
/// one.
impl<T: Int> Neg for Checked<T> {
    type Output = Checked<T>;

    ghost neg_gives = { λ a r. GivesOfOne T.number T.LEAST T.GREATEST neg_ℤ a.0 r.0 };

    fn neg(self) -> Checked<T>
        ensures exact { GivesOfOne T.number T.LEAST T.GREATEST neg_ℤ self.0 result.0 }
        ensures stays_failed { IsNone self.0 → IsNone result.0 }
    {
        match self.0 {
            Some(x) => Checked(opposite(x)),
            None => Checked(None),
        }
    }
}

fn sum<T: Int>(x: T, y: T) -> Option<T>
    ensures { HoldsExactly T.number T.LEAST T.GREATEST (T.number x +ℤ T.number y) result }
{
    T::of_i128(wide(x) + wide(y))
}

fn difference<T: Int>(x: T, y: T) -> Option<T>
    ensures { HoldsExactly T.number T.LEAST T.GREATEST (T.number x -ℤ T.number y) result }
{
    T::of_i128(wide(x) - wide(y))
}

// The product of two numbers of 64 bits may pass 128 bits, and then the type does not have it either.
fn product<T: Int>(x: T, y: T) -> Option<T>
    ensures { HoldsExactly T.number T.LEAST T.GREATEST (T.number x *ℤ T.number y) result }
{
    match wide(x).checked_mul(wide(y)) {
        Some(n) => T::of_i128(n),
        None => None,
    }
}

fn opposite<T: Int>(x: T) -> Option<T>
    ensures { HoldsExactly T.number T.LEAST T.GREATEST (neg_ℤ (T.number x)) result }
{
    T::of_i128(-wide(x))
}
