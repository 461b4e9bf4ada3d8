// The signed types, in two's complement. `isize` has 64 bits.
ghost use Rattle.std.specs.Prelude.{pos, negsuc, ◌^◌, ◌-◌, refl};
ghost use Rattle.std.proofs.Common.{rules, arith};
ghost use Rattle.std.proofs.lemmas.Int.{ints};

use crate::int::Int;

impl Int for i8 {
    ghost number = { λ x. x };

    ghost LEAST = { negsuc (2 ^ 7 - 1) };

    ghost GREATEST = { pos (2 ^ 7 - 1) };

    ghost WIDTH = { 8 };

    const LEAST: i128 = i8::MIN as i128;

    const GREATEST: i128 = i8::MAX as i128;

    const WIDTH: u32 = 8;

    fn to_i128(self) -> i128 {
        self as i128
    }

    fn of_i128(n: i128) -> Option<i8> {
        i8::try_from(n).ok()
    }

    fn bits_and(self, other: i8) -> i8 {
        self & other
    }

    fn bits_or(self, other: i8) -> i8 {
        self | other
    }

    fn bits_xor(self, other: i8) -> i8 {
        self ^ other
    }

    ghost one_value = { Prim.grind (arith, ints) };

    ghost least_is_at_most_zero = { Prim.search rules };

    ghost greatest_is_at_least_zero = { Prim.search rules };

    ghost numbers_are_patterns = { refl };

    ghost width_is_at_most_64 = { Prim.search rules };

    ghost narrow = { Prim.grind (arith, ints) };
}

impl Int for i16 {
    ghost number = { λ x. x };

    ghost LEAST = { negsuc (2 ^ 15 - 1) };

    ghost GREATEST = { pos (2 ^ 15 - 1) };

    ghost WIDTH = { 16 };

    const LEAST: i128 = i16::MIN as i128;

    const GREATEST: i128 = i16::MAX as i128;

    const WIDTH: u32 = 16;

    fn to_i128(self) -> i128 {
        self as i128
    }

    fn of_i128(n: i128) -> Option<i16> {
        i16::try_from(n).ok()
    }

    fn bits_and(self, other: i16) -> i16 {
        self & other
    }

    fn bits_or(self, other: i16) -> i16 {
        self | other
    }

    fn bits_xor(self, other: i16) -> i16 {
        self ^ other
    }

    ghost one_value = { Prim.grind (arith, ints) };

    ghost least_is_at_most_zero = { Prim.search rules };

    ghost greatest_is_at_least_zero = { Prim.search rules };

    ghost numbers_are_patterns = { refl };

    ghost width_is_at_most_64 = { Prim.search rules };

    ghost narrow = { Prim.grind (arith, ints) };
}

impl Int for i32 {
    ghost number = { λ x. x };

    ghost LEAST = { negsuc (2 ^ 31 - 1) };

    ghost GREATEST = { pos (2 ^ 31 - 1) };

    ghost WIDTH = { 32 };

    const LEAST: i128 = i32::MIN as i128;

    const GREATEST: i128 = i32::MAX as i128;

    const WIDTH: u32 = 32;

    fn to_i128(self) -> i128 {
        self as i128
    }

    fn of_i128(n: i128) -> Option<i32> {
        i32::try_from(n).ok()
    }

    fn bits_and(self, other: i32) -> i32 {
        self & other
    }

    fn bits_or(self, other: i32) -> i32 {
        self | other
    }

    fn bits_xor(self, other: i32) -> i32 {
        self ^ other
    }

    ghost one_value = { Prim.grind (arith, ints) };

    ghost least_is_at_most_zero = { Prim.search rules };

    ghost greatest_is_at_least_zero = { Prim.search rules };

    ghost numbers_are_patterns = { refl };

    ghost width_is_at_most_64 = { Prim.search rules };

    ghost narrow = { Prim.grind (arith, ints) };
}

impl Int for i64 {
    ghost number = { λ x. x };

    ghost LEAST = { negsuc (2 ^ 63 - 1) };

    ghost GREATEST = { pos (2 ^ 63 - 1) };

    ghost WIDTH = { 64 };

    const LEAST: i128 = i64::MIN as i128;

    const GREATEST: i128 = i64::MAX as i128;

    const WIDTH: u32 = 64;

    fn to_i128(self) -> i128 {
        self as i128
    }

    fn of_i128(n: i128) -> Option<i64> {
        i64::try_from(n).ok()
    }

    fn bits_and(self, other: i64) -> i64 {
        self & other
    }

    fn bits_or(self, other: i64) -> i64 {
        self | other
    }

    fn bits_xor(self, other: i64) -> i64 {
        self ^ other
    }

    ghost one_value = { Prim.grind (arith, ints) };

    ghost least_is_at_most_zero = { Prim.search rules };

    ghost greatest_is_at_least_zero = { Prim.search rules };

    ghost numbers_are_patterns = { refl };

    ghost width_is_at_most_64 = { Prim.search rules };

    ghost narrow = { Prim.grind (arith, ints) };
}

impl Int for isize {
    ghost number = { λ x. x };

    ghost LEAST = { negsuc (2 ^ 63 - 1) };

    ghost GREATEST = { pos (2 ^ 63 - 1) };

    ghost WIDTH = { 64 };

    const LEAST: i128 = isize::MIN as i128;

    const GREATEST: i128 = isize::MAX as i128;

    const WIDTH: u32 = 64;

    fn to_i128(self) -> i128 {
        self as i128
    }

    fn of_i128(n: i128) -> Option<isize> {
        isize::try_from(n).ok()
    }

    fn bits_and(self, other: isize) -> isize {
        self & other
    }

    fn bits_or(self, other: isize) -> isize {
        self | other
    }

    fn bits_xor(self, other: isize) -> isize {
        self ^ other
    }

    ghost one_value = { Prim.grind (arith, ints) };

    ghost least_is_at_most_zero = { Prim.search rules };

    ghost greatest_is_at_least_zero = { Prim.search rules };

    ghost numbers_are_patterns = { refl };

    ghost width_is_at_most_64 = { Prim.search rules };

    ghost narrow = { Prim.grind (arith, ints) };
}
