// `&`, `|`, `^` and `!` on checked numbers: bit by bit, and none only where a side is none.
ghost use Rattle.std.specs.Prelude.{Some, IsNone, ◌⊎◌, bit_and, bit_or, bit_xor};
ghost use Rattle.mongo_num.specs.Exact.{HoldsExactly, GivesBits, GivesOfOne, complement};

use crate::checked::Checked;
use crate::int::{Int, greatest, least, wide};
use std::ops::{BitAnd, BitAndAssign, BitOr, BitOrAssign, BitXor, BitXorAssign, Not};

/// `&` bit by bit, or none where a side is none.
impl<T: Int> BitAnd<Checked<T>> for Checked<T> {
    type Output = Checked<T>;

    ghost bitand_gives = { λ a b r. GivesBits T.number T.WIDTH bit_and a.0 b.0 r.0 };

    fn bitand(self, rhs: Checked<T>) -> Checked<T>
        ensures exact { GivesBits T.number T.WIDTH bit_and self.0 rhs.0 result.0 }
        ensures stays_failed { (IsNone self.0 ⊎ IsNone rhs.0) → IsNone result.0 }
    {
        match (self.0, rhs.0) {
            (Some(x), Some(y)) => Checked(Some(x.bits_and(y))),
            _ => Checked(None),
        }
    }
}

impl<T: Int> BitAnd<T> for Checked<T> {
    type Output = Checked<T>;

    ghost bitand_gives = { λ a y r. GivesBits T.number T.WIDTH bit_and a.0 (Some y) r.0 };

    fn bitand(self, rhs: T) -> Checked<T>
        ensures exact { GivesBits T.number T.WIDTH bit_and self.0 (Some rhs) result.0 }
        ensures stays_failed { IsNone self.0 → IsNone result.0 }
    {
        self & Checked::new(rhs)
    }
}

impl<T: Int> BitAndAssign<Checked<T>> for Checked<T> {
    ghost bitand_assign_gives = { λ a b r. GivesBits T.number T.WIDTH bit_and a.0 b.0 r.0 };

    fn bitand_assign(&mut self, rhs: Checked<T>)
        ensures exact { GivesBits T.number T.WIDTH bit_and self.old.0 rhs.0 self.new.0 }
        ensures stays_failed { (IsNone self.old.0 ⊎ IsNone rhs.0) → IsNone self.new.0 }
    {
        *self = *self & rhs;
    }
}

impl<T: Int> BitAndAssign<T> for Checked<T> {
    ghost bitand_assign_gives = { λ a y r. GivesBits T.number T.WIDTH bit_and a.0 (Some y) r.0 };

    fn bitand_assign(&mut self, rhs: T)
        ensures exact { GivesBits T.number T.WIDTH bit_and self.old.0 (Some rhs) self.new.0 }
        ensures stays_failed { IsNone self.old.0 → IsNone self.new.0 }
    {
        *self = *self & rhs;
    }
}

/// `|` bit by bit, or none where a side is none.
impl<T: Int> BitOr<Checked<T>> for Checked<T> {
    type Output = Checked<T>;

    ghost bitor_gives = { λ a b r. GivesBits T.number T.WIDTH bit_or a.0 b.0 r.0 };

    fn bitor(self, rhs: Checked<T>) -> Checked<T>
        ensures exact { GivesBits T.number T.WIDTH bit_or self.0 rhs.0 result.0 }
        ensures stays_failed { (IsNone self.0 ⊎ IsNone rhs.0) → IsNone result.0 }
    {
        match (self.0, rhs.0) {
            (Some(x), Some(y)) => Checked(Some(x.bits_or(y))),
            _ => Checked(None),
        }
    }
}

impl<T: Int> BitOr<T> for Checked<T> {
    type Output = Checked<T>;

    ghost bitor_gives = { λ a y r. GivesBits T.number T.WIDTH bit_or a.0 (Some y) r.0 };

    fn bitor(self, rhs: T) -> Checked<T>
        ensures exact { GivesBits T.number T.WIDTH bit_or self.0 (Some rhs) result.0 }
        ensures stays_failed { IsNone self.0 → IsNone result.0 }
    {
        self | Checked::new(rhs)
    }
}

impl<T: Int> BitOrAssign<Checked<T>> for Checked<T> {
    ghost bitor_assign_gives = { λ a b r. GivesBits T.number T.WIDTH bit_or a.0 b.0 r.0 };

    fn bitor_assign(&mut self, rhs: Checked<T>)
        ensures exact { GivesBits T.number T.WIDTH bit_or self.old.0 rhs.0 self.new.0 }
        ensures stays_failed { (IsNone self.old.0 ⊎ IsNone rhs.0) → IsNone self.new.0 }
    {
        *self = *self | rhs;
    }
}

impl<T: Int> BitOrAssign<T> for Checked<T> {
    ghost bitor_assign_gives = { λ a y r. GivesBits T.number T.WIDTH bit_or a.0 (Some y) r.0 };

    fn bitor_assign(&mut self, rhs: T)
        ensures exact { GivesBits T.number T.WIDTH bit_or self.old.0 (Some rhs) self.new.0 }
        ensures stays_failed { IsNone self.old.0 → IsNone self.new.0 }
    {
        *self = *self | rhs;
    }
}

/// `^` bit by bit, or none where a side is none.
impl<T: Int> BitXor<Checked<T>> for Checked<T> {
    type Output = Checked<T>;

    ghost bitxor_gives = { λ a b r. GivesBits T.number T.WIDTH bit_xor a.0 b.0 r.0 };

    fn bitxor(self, rhs: Checked<T>) -> Checked<T>
        ensures exact { GivesBits T.number T.WIDTH bit_xor self.0 rhs.0 result.0 }
        ensures stays_failed { (IsNone self.0 ⊎ IsNone rhs.0) → IsNone result.0 }
    {
        match (self.0, rhs.0) {
            (Some(x), Some(y)) => Checked(Some(x.bits_xor(y))),
            _ => Checked(None),
        }
    }
}

impl<T: Int> BitXor<T> for Checked<T> {
    type Output = Checked<T>;

    ghost bitxor_gives = { λ a y r. GivesBits T.number T.WIDTH bit_xor a.0 (Some y) r.0 };

    fn bitxor(self, rhs: T) -> Checked<T>
        ensures exact { GivesBits T.number T.WIDTH bit_xor self.0 (Some rhs) result.0 }
        ensures stays_failed { IsNone self.0 → IsNone result.0 }
    {
        self ^ Checked::new(rhs)
    }
}

impl<T: Int> BitXorAssign<Checked<T>> for Checked<T> {
    ghost bitxor_assign_gives = { λ a b r. GivesBits T.number T.WIDTH bit_xor a.0 b.0 r.0 };

    fn bitxor_assign(&mut self, rhs: Checked<T>)
        ensures exact { GivesBits T.number T.WIDTH bit_xor self.old.0 rhs.0 self.new.0 }
        ensures stays_failed { (IsNone self.old.0 ⊎ IsNone rhs.0) → IsNone self.new.0 }
    {
        *self = *self ^ rhs;
    }
}

impl<T: Int> BitXorAssign<T> for Checked<T> {
    ghost bitxor_assign_gives = { λ a y r. GivesBits T.number T.WIDTH bit_xor a.0 (Some y) r.0 };

    fn bitxor_assign(&mut self, rhs: T)
        ensures exact { GivesBits T.number T.WIDTH bit_xor self.old.0 (Some rhs) self.new.0 }
        ensures stays_failed { IsNone self.old.0 → IsNone self.new.0 }
    {
        *self = *self ^ rhs;
    }
}

/// Each bit turned over, or none where none is held.
impl<T: Int> Not for Checked<T> {
    type Output = Checked<T>;

    ghost not_gives = { λ a r. GivesOfOne T.number T.LEAST T.GREATEST (complement T.LEAST T.GREATEST) a.0 r.0 };

    fn not(self) -> Checked<T>
        ensures exact { GivesOfOne T.number T.LEAST T.GREATEST (complement T.LEAST T.GREATEST) self.0 result.0 }
        ensures stays_failed { IsNone self.0 → IsNone result.0 }
    {
        match self.0 {
            Some(x) => Checked(inverted(x)),
            None => Checked(None),
        }
    }
}

fn inverted<T: Int>(x: T) -> Option<T>
    ensures { HoldsExactly T.number T.LEAST T.GREATEST (complement T.LEAST T.GREATEST (T.number x)) result }
{
    T::of_i128(least::<T>() + greatest::<T>() - wide(x))
}
