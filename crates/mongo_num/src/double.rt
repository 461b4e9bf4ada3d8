// Whole numbers read from the bits of a double (binary64 of IEEE 754-2019, section 3.4). No floating-point
// number is made on the way.
ghost use Rattle.std.specs.Prelude.{◌≡◌, ◌↔◌, ◌+◌, ◌*◌, ◌/◌, ◌%◌, ◌^◌, ◌<◌, ◌≤◌, min, option_map, IsTrue};
ghost use Rattle.mongo_num.specs.DoubleBits.{is_negative, exponent_of, fraction_of, significand_of, scale_of, units_of, units_of_one, whole_of, magnitude_of, int_of, u64_of, ReadAlike};

mod clamp;

pub use clamp::{RoundClampTarget, round_clamp};

// The scale at which the significand counts ones.
const SCALE_OF_ONES: u64 = 1075;

// The exponent of the infinities and of what is not a number.
const NOT_FINITE: u64 = 2047;

// A magnitude as a fraction of whole numbers.
#[derive(Clone, Copy)]
struct Ratio {
    units: u128,
    one: u128,
}

fn is_sign_negative(bits: u64) -> bool
    ensures { result ≡ is_negative bits }
{
    bits >= 1 << 63
}

fn exponent(bits: u64) -> u64
    ensures { result ≡ exponent_of bits }
{
    (bits >> 52) % (1 << 11)
}

fn fraction(bits: u64) -> u64
    ensures { result ≡ fraction_of bits }
{
    bits % (1 << 52)
}

fn significand(bits: u64) -> u64
    ensures value { result ≡ significand_of bits }
    ensures below { result < 2 ^ 53 }
    ensures leading_one { 1 < scale_of bits → 2 ^ 52 ≤ result }
{
    if exponent(bits) == 0 {
        fraction(bits)
    } else {
        (1 << 52) + fraction(bits)
    }
}

fn scale(bits: u64) -> u64
    ensures value { result ≡ scale_of bits }
{
    exponent(bits).max(1)
}

// The magnitude of a finite double. What lies above 2 ^ 65 or far below 2 ^ -52 is cut there, which changes
// no reading.
fn magnitude_ratio(bits: u64) -> Ratio
    ensures alike { ReadAlike result.units result.one (units_of bits) units_of_one }
    ensures units { result.units < 2 ^ 66 }
    ensures one { 0 < result.one }
{
    let significand = significand(bits);
    let scale = scale(bits);
    if scale < SCALE_OF_ONES {
        Ratio {
            units: u128::from(significand),
            one: two_to((SCALE_OF_ONES - scale).min(105)),
        }
    } else {
        Ratio {
            units: u128::from(significand) * two_to((scale - SCALE_OF_ONES).min(13)),
            one: 1,
        }
    }
}

fn two_to(power: u64) -> u128
    requires { power < 128 }
    ensures { result ≡ 2 ^ power }
{
    1 << power
}

// 1 + 2 ^ -52, the double after 1.
fn is_next_after_one(ratio: Ratio) -> bool
    requires { ratio.units < 2 ^ 66 }
    ensures { IsTrue result ↔ (ratio.units * 2 ^ 52 ≡ ratio.one * (2 ^ 52 + 1)) }
{
    ratio.units >= ratio.one && (ratio.units - ratio.one) << 52 == ratio.one
}

fn whole(ratio: Ratio) -> Option<u128>
    requires units { ratio.units < 2 ^ 66 }
    requires one { 0 < ratio.one }
    ensures { result ≡ whole_of ratio.units ratio.one }
{
    if ratio.units << 52 <= ratio.one {
        return Some(0);
    }
    if is_next_after_one(ratio) {
        return Some(1);
    }
    let is_whole = ratio.units % ratio.one == 0;
    if is_whole {
        return Some(ratio.units / ratio.one);
    }
    None
}

// The whole number that the magnitude stands for, up to 2 ^ 65.
fn magnitude(bits: u64) -> Option<u128>
    ensures { result ≡ option_map (min (2 ^ 65)) (magnitude_of bits) }
{
    if exponent(bits) == NOT_FINITE {
        return None;
    }
    match whole(magnitude_ratio(bits)) {
        Some(n) => Some(n.min(1 << 65)),
        None => None,
    }
}

/// The whole number that a double stands for, by its bits.
///
/// A whole number from -2^63 to below 2^63 gives itself, and 2^63 the greatest `i64`. A magnitude of at
/// most 2^-52 gives 0, and plus or minus 1 + 2^-52, the doubles next to 1 and -1, give 1 and -1. Every
/// other double gives none, and so do the infinities and what is not a number.
pub fn int_of_bits(bits: u64) -> Option<i64>
    ensures { result ≡ int_of bits }
{
    let n = magnitude(bits)?;
    if n > 1 << 63 {
        return None;
    }
    if is_sign_negative(bits) {
        Some(-(n as i128) as i64)
    } else {
        Some(n.min(i64::MAX as u128) as i64)
    }
}

/// The whole number that a double stands for, by its bits.
///
/// As [`int_of_bits`], with the whole numbers from 0 to below 2^64, and 2^64 gives the greatest `u64`. A
/// negative double gives none where its magnitude is above 2^-52.
pub fn u64_of_bits(bits: u64) -> Option<u64>
    ensures { result ≡ u64_of bits }
{
    let n = magnitude(bits)?;
    if is_sign_negative(bits) {
        return if n == 0 { Some(0) } else { None };
    }
    if n > 1 << 64 {
        return None;
    }
    Some(n.min(u64::MAX as u128) as u64)
}
