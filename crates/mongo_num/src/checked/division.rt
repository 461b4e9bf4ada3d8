// `/` and `%` on checked numbers: the quotient cut towards 0 and its remainder, or none where the divisor
// is 0 or the type does not have the quotient.
ghost use Rattle.std.specs.Prelude.{Some, IsNone, ◌⊎◌, int_div, int_rem};
ghost use Rattle.mongo_num.specs.Exact.{HoldsWhere, Divides, GivesDivided};

use crate::checked::Checked;
use crate::int::{Int, wide};
use std::ops::{Div, DivAssign, Rem, RemAssign};

/// The quotient, cut towards 0. None where the divisor is 0, where `T` does not have the quotient
/// (`i32::MIN / -1`), or where a side is none.
impl<T: Int> Div<Checked<T>> for Checked<T> {
    type Output = Checked<T>;

    ghost div_gives = { λ a b r. GivesDivided T.number T.LEAST T.GREATEST int_div a.0 b.0 r.0 };

    fn div(self, rhs: Checked<T>) -> Checked<T>
        ensures exact { GivesDivided T.number T.LEAST T.GREATEST int_div self.0 rhs.0 result.0 }
        ensures stays_failed { (IsNone self.0 ⊎ IsNone rhs.0) → IsNone result.0 }
    {
        match (self.0, rhs.0) {
            (Some(x), Some(y)) => Checked(quotient(x, y)),
            _ => Checked(None),
        }
    }
}

impl<T: Int> Div<T> for Checked<T> {
    type Output = Checked<T>;

    ghost div_gives = { λ a y r. GivesDivided T.number T.LEAST T.GREATEST int_div a.0 (Some y) r.0 };

    fn div(self, rhs: T) -> Checked<T>
        ensures exact { GivesDivided T.number T.LEAST T.GREATEST int_div self.0 (Some rhs) result.0 }
        ensures stays_failed { IsNone self.0 → IsNone result.0 }
    {
        self / Checked::new(rhs)
    }
}

impl<T: Int> DivAssign<Checked<T>> for Checked<T> {
    ghost div_assign_gives = { λ a b r. GivesDivided T.number T.LEAST T.GREATEST int_div a.0 b.0 r.0 };

    fn div_assign(&mut self, rhs: Checked<T>)
        ensures exact { GivesDivided T.number T.LEAST T.GREATEST int_div self.old.0 rhs.0 self.new.0 }
        ensures stays_failed { (IsNone self.old.0 ⊎ IsNone rhs.0) → IsNone self.new.0 }
    {
        *self = *self / rhs;
    }
}

impl<T: Int> DivAssign<T> for Checked<T> {
    ghost div_assign_gives = { λ a y r. GivesDivided T.number T.LEAST T.GREATEST int_div a.0 (Some y) r.0 };

    fn div_assign(&mut self, rhs: T)
        ensures exact { GivesDivided T.number T.LEAST T.GREATEST int_div self.old.0 (Some rhs) self.new.0 }
        ensures stays_failed { IsNone self.old.0 → IsNone self.new.0 }
    {
        *self = *self / rhs;
    }
}

/// The remainder beside the quotient, with the sign of the left side. None where there is no quotient: the
/// divisor is 0, `T` does not have the quotient (`i32::MIN % -1`), or a side is none.
impl<T: Int> Rem<Checked<T>> for Checked<T> {
    type Output = Checked<T>;

    ghost rem_gives = { λ a b r. GivesDivided T.number T.LEAST T.GREATEST int_rem a.0 b.0 r.0 };

    fn rem(self, rhs: Checked<T>) -> Checked<T>
        ensures exact { GivesDivided T.number T.LEAST T.GREATEST int_rem self.0 rhs.0 result.0 }
        ensures stays_failed { (IsNone self.0 ⊎ IsNone rhs.0) → IsNone result.0 }
    {
        match (self.0, rhs.0) {
            (Some(x), Some(y)) => Checked(remainder(x, y)),
            _ => Checked(None),
        }
    }
}

impl<T: Int> Rem<T> for Checked<T> {
    type Output = Checked<T>;

    ghost rem_gives = { λ a y r. GivesDivided T.number T.LEAST T.GREATEST int_rem a.0 (Some y) r.0 };

    fn rem(self, rhs: T) -> Checked<T>
        ensures exact { GivesDivided T.number T.LEAST T.GREATEST int_rem self.0 (Some rhs) result.0 }
        ensures stays_failed { IsNone self.0 → IsNone result.0 }
    {
        self % Checked::new(rhs)
    }
}

impl<T: Int> RemAssign<Checked<T>> for Checked<T> {
    ghost rem_assign_gives = { λ a b r. GivesDivided T.number T.LEAST T.GREATEST int_rem a.0 b.0 r.0 };

    fn rem_assign(&mut self, rhs: Checked<T>)
        ensures exact { GivesDivided T.number T.LEAST T.GREATEST int_rem self.old.0 rhs.0 self.new.0 }
        ensures stays_failed { (IsNone self.old.0 ⊎ IsNone rhs.0) → IsNone self.new.0 }
    {
        *self = *self % rhs;
    }
}

impl<T: Int> RemAssign<T> for Checked<T> {
    ghost rem_assign_gives = { λ a y r. GivesDivided T.number T.LEAST T.GREATEST int_rem a.0 (Some y) r.0 };

    fn rem_assign(&mut self, rhs: T)
        ensures exact { GivesDivided T.number T.LEAST T.GREATEST int_rem self.old.0 (Some rhs) self.new.0 }
        ensures stays_failed { IsNone self.old.0 → IsNone self.new.0 }
    {
        *self = *self % rhs;
    }
}

fn quotient<T: Int>(x: T, y: T) -> Option<T>
    ensures { HoldsWhere T.number (Divides T.LEAST T.GREATEST (T.number x) (T.number y))
        (int_div (T.number x) (T.number y)) result }
{
    match wide(x).checked_div(wide(y)) {
        Some(n) => T::of_i128(n),
        None => None,
    }
}

// The quotient decides whether there is a remainder: `i32::MIN % -1` has none, as in Rust. The compiler makes one division
// of the two, which is less work than multiplying the quotient back.
fn remainder<T: Int>(x: T, y: T) -> Option<T>
    ensures { HoldsWhere T.number (Divides T.LEAST T.GREATEST (T.number x) (T.number y))
        (int_rem (T.number x) (T.number y)) result }
{
    quotient(x, y)?;
    match wide(x).checked_rem(wide(y)) {
        Some(n) => T::of_i128(n),
        None => unreachable!(),
    }
}
