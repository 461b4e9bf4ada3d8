// The unsigned types: a value's number is the value. `usize` has 64 bits.
ghost use Rattle.std.specs.Prelude.{pos, ◌^◌, ◌-◌, refl};
ghost use Rattle.std.proofs.Common.{rules, arith};
ghost use Rattle.std.proofs.lemmas.Int.{ints};

use crate::int::Int;

impl Int for u8 {
    ghost number = { pos };

    ghost LEAST = { pos 0 };

    ghost GREATEST = { pos (2 ^ 8 - 1) };

    ghost WIDTH = { 8 };

    const LEAST: i128 = u8::MIN as i128;

    const GREATEST: i128 = u8::MAX as i128;

    const WIDTH: u32 = 8;

    fn to_i128(self) -> i128 {
        self as i128
    }

    fn of_i128(n: i128) -> Option<u8> {
        u8::try_from(n).ok()
    }

    fn bits_and(self, other: u8) -> u8 {
        self & other
    }

    fn bits_or(self, other: u8) -> u8 {
        self | other
    }

    fn bits_xor(self, other: u8) -> u8 {
        self ^ other
    }

    ghost one_value = { Prim.grind (arith, ints) };

    ghost least_is_at_most_zero = { Prim.search rules };

    ghost greatest_is_at_least_zero = { Prim.search rules };

    ghost numbers_are_patterns = { refl };

    ghost width_is_at_most_64 = { Prim.search rules };

    ghost narrow = { Prim.grind (arith, ints) };
}

impl Int for u16 {
    ghost number = { pos };

    ghost LEAST = { pos 0 };

    ghost GREATEST = { pos (2 ^ 16 - 1) };

    ghost WIDTH = { 16 };

    const LEAST: i128 = u16::MIN as i128;

    const GREATEST: i128 = u16::MAX as i128;

    const WIDTH: u32 = 16;

    fn to_i128(self) -> i128 {
        self as i128
    }

    fn of_i128(n: i128) -> Option<u16> {
        u16::try_from(n).ok()
    }

    fn bits_and(self, other: u16) -> u16 {
        self & other
    }

    fn bits_or(self, other: u16) -> u16 {
        self | other
    }

    fn bits_xor(self, other: u16) -> u16 {
        self ^ other
    }

    ghost one_value = { Prim.grind (arith, ints) };

    ghost least_is_at_most_zero = { Prim.search rules };

    ghost greatest_is_at_least_zero = { Prim.search rules };

    ghost numbers_are_patterns = { refl };

    ghost width_is_at_most_64 = { Prim.search rules };

    ghost narrow = { Prim.grind (arith, ints) };
}

impl Int for u32 {
    ghost number = { pos };

    ghost LEAST = { pos 0 };

    ghost GREATEST = { pos (2 ^ 32 - 1) };

    ghost WIDTH = { 32 };

    const LEAST: i128 = u32::MIN as i128;

    const GREATEST: i128 = u32::MAX as i128;

    const WIDTH: u32 = 32;

    fn to_i128(self) -> i128 {
        self as i128
    }

    fn of_i128(n: i128) -> Option<u32> {
        u32::try_from(n).ok()
    }

    fn bits_and(self, other: u32) -> u32 {
        self & other
    }

    fn bits_or(self, other: u32) -> u32 {
        self | other
    }

    fn bits_xor(self, other: u32) -> u32 {
        self ^ other
    }

    ghost one_value = { Prim.grind (arith, ints) };

    ghost least_is_at_most_zero = { Prim.search rules };

    ghost greatest_is_at_least_zero = { Prim.search rules };

    ghost numbers_are_patterns = { refl };

    ghost width_is_at_most_64 = { Prim.search rules };

    ghost narrow = { Prim.grind (arith, ints) };
}

impl Int for u64 {
    ghost number = { pos };

    ghost LEAST = { pos 0 };

    ghost GREATEST = { pos (2 ^ 64 - 1) };

    ghost WIDTH = { 64 };

    const LEAST: i128 = u64::MIN as i128;

    const GREATEST: i128 = u64::MAX as i128;

    const WIDTH: u32 = 64;

    fn to_i128(self) -> i128 {
        self as i128
    }

    fn of_i128(n: i128) -> Option<u64> {
        u64::try_from(n).ok()
    }

    fn bits_and(self, other: u64) -> u64 {
        self & other
    }

    fn bits_or(self, other: u64) -> u64 {
        self | other
    }

    fn bits_xor(self, other: u64) -> u64 {
        self ^ other
    }

    ghost one_value = { Prim.grind (arith, ints) };

    ghost least_is_at_most_zero = { Prim.search rules };

    ghost greatest_is_at_least_zero = { Prim.search rules };

    ghost numbers_are_patterns = { refl };

    ghost width_is_at_most_64 = { Prim.search rules };

    ghost narrow = { Prim.grind (arith, ints) };
}

impl Int for usize {
    ghost number = { pos };

    ghost LEAST = { pos 0 };

    ghost GREATEST = { pos (2 ^ 64 - 1) };

    ghost WIDTH = { 64 };

    const LEAST: i128 = usize::MIN as i128;

    const GREATEST: i128 = usize::MAX as i128;

    const WIDTH: u32 = 64;

    fn to_i128(self) -> i128 {
        self as i128
    }

    fn of_i128(n: i128) -> Option<usize> {
        usize::try_from(n).ok()
    }

    fn bits_and(self, other: usize) -> usize {
        self & other
    }

    fn bits_or(self, other: usize) -> usize {
        self | other
    }

    fn bits_xor(self, other: usize) -> usize {
        self ^ other
    }

    ghost one_value = { Prim.grind (arith, ints) };

    ghost least_is_at_most_zero = { Prim.search rules };

    ghost greatest_is_at_least_zero = { Prim.search rules };

    ghost numbers_are_patterns = { refl };

    ghost width_is_at_most_64 = { Prim.search rules };

    ghost narrow = { Prim.grind (arith, ints) };
}
