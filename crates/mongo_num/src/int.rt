// The integer types that checked numbers are made of.
ghost use Rattle.std.specs.Prelude.{◌≡◌, ℕ, ℤ, pos, ◌^◌, ◌-◌, ◌≤◌, ◌+ℤ◌, ◌-ℤ◌, ◌≤ℤ◌, bit_and, bit_or, bit_xor};
ghost use Rattle.mongo_num.specs.Exact.{IsNarrow, IsWithin, HoldsWhere, CombinesBits};

mod signed;
mod unsigned;

/// An integer type of at most 64 bits, signed in two's complement or unsigned.
pub trait Int: Copy {
    // The number that a value stands for.
    ghost number: { Self → ℤ };

    ghost LEAST: { ℤ };

    ghost GREATEST: { ℤ };

    ghost WIDTH: { ℕ };

    /// The least number of the type.
    const LEAST: i128;

    /// The greatest number of the type.
    const GREATEST: i128;

    /// How many bits a value has.
    const WIDTH: u32;

    /// The number that the value stands for, which is from `LEAST` to `GREATEST`.
    fn to_i128(self) -> i128
        ensures value { result ≡ number self }
        ensures within { IsWithin LEAST GREATEST result };

    /// The value whose number is `n`, or `None` exactly where `n` is below `LEAST` or above `GREATEST`.
    fn of_i128(n: i128) -> Option<Self>
        ensures { HoldsWhere number (IsWithin LEAST GREATEST n) n result };

    /// `self & other`, bit by bit.
    fn bits_and(self, other: Self) -> Self
        ensures { CombinesBits WIDTH bit_and (number self) (number other) (number result) };

    /// `self | other`, bit by bit.
    fn bits_or(self, other: Self) -> Self
        ensures { CombinesBits WIDTH bit_or (number self) (number other) (number result) };

    /// `self ^ other`, bit by bit.
    fn bits_xor(self, other: Self) -> Self
        ensures { CombinesBits WIDTH bit_xor (number self) (number other) (number result) };

    // A number has one value.
    ghost one_value: { (x y : Self) → number x ≡ number y → x ≡ y };

    // The numbers from least to greatest, with 0 among them, are as many as there are patterns of bits.
    ghost least_is_at_most_zero: { LEAST ≤ℤ pos 0 };

    ghost greatest_is_at_least_zero: { pos 0 ≤ℤ GREATEST };

    ghost numbers_are_patterns: { (GREATEST -ℤ LEAST) +ℤ pos 1 ≡ pos (2 ^ WIDTH) };

    // 64 bits hold a value.
    ghost width_is_at_most_64: { WIDTH ≤ 64 };

    ghost narrow: { (n : ℤ) → IsWithin LEAST GREATEST n → IsNarrow n };
}

/// The number of `x`, with the bounds that hold of every type's numbers.
pub(crate) fn wide<T: Int>(x: T) -> i128
    ensures value { result ≡ T.number x }
    ensures within { IsWithin T.LEAST T.GREATEST result }
    ensures narrow { IsNarrow result }
{
    x.to_i128()
}

/// The least number of the type.
pub(crate) fn least<T: Int>() -> i128
    ensures value { result ≡ T.LEAST }
    ensures narrow { IsNarrow result }
    ensures not_positive { result ≤ℤ pos 0 }
{
    T::LEAST
}

/// The greatest number of the type.
pub(crate) fn greatest<T: Int>() -> i128
    ensures value { result ≡ T.GREATEST }
    ensures narrow { IsNarrow result }
    ensures not_negative { pos 0 ≤ℤ result }
{
    T::GREATEST
}

/// How many values the type has: 2 to the power of its width.
pub(crate) fn count<T: Int>() -> i128
    ensures value { result ≡ pos (2 ^ T.WIDTH) }
    ensures ends { result ≡ (T.GREATEST -ℤ T.LEAST) +ℤ pos 1 }
    ensures narrow { result ≤ℤ pos (2 ^ 65) }
{
    greatest::<T>() - least::<T>() + 1
}
