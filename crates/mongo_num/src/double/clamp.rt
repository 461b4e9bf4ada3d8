// A double cut to a whole number of a type, as Rust's `as` cuts it.
ghost use Rattle.std.specs.Prelude.{◌≡◌, ℕ, ◌^◌, ◌-◌};
ghost use Rattle.mongo_num.specs.DoubleBits.{round_clamped};

use crate::double::{NOT_FINITE, exponent, fraction, is_sign_negative, magnitude_ratio};

/// A type that a double is cut to.
pub trait RoundClampTarget {
    // The number that a value stands for, and the greatest one.
    ghost number: { Self → ℕ };

    ghost greatest: { ℕ };

    /// What [`round_clamp`] gives.
    fn round_clamp(bits: u64) -> Self
        ensures { number result ≡ round_clamped greatest bits };
}

impl RoundClampTarget for u32 {
    ghost number = { λ x. x };

    ghost greatest = { 2 ^ 32 - 1 };

    fn round_clamp(bits: u64) -> u32 {
        clamped(bits, u32::MAX as u64) as u32
    }
}

impl RoundClampTarget for u64 {
    ghost number = { λ x. x };

    ghost greatest = { 2 ^ 64 - 1 };

    fn round_clamp(bits: u64) -> u64 {
        clamped(bits, u64::MAX)
    }
}

/// The double with these bits, cut towards 0, and then the nearest number of `T`: 0 for a negative one, and
/// the greatest one for what lies above it, as positive infinity does. What is not a number gives 0.
pub fn round_clamp<T: RoundClampTarget>(bits: u64) -> T
    ensures { T.number result ≡ round_clamped T.greatest bits }
{
    T::round_clamp(bits)
}

fn clamped(bits: u64, greatest: u64) -> u64
    ensures { result ≡ round_clamped greatest bits }
{
    if is_sign_negative(bits) {
        return 0;
    }
    if exponent(bits) == NOT_FINITE {
        return if fraction(bits) == 0 { greatest } else { 0 };
    }
    let ratio = magnitude_ratio(bits);
    (ratio.units / ratio.one).min(u128::from(greatest)) as u64
}
