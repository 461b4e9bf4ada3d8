// Expected values of the doubles are those that IEEE 754 gives the bits; of `round_clamp`, those of Rust's
// `as`. They were computed apart from it.
use mongo_num::{
    Checked, Int, NumFault, int_of_bits, num_decimal_digits, round_clamp, u64_of_bits,
};
use std::alloc::{AllocError, Global};
use std::hash::{FoldHasher, Hash, Hasher};
use std::test::Fail;

// The bits of a double; the whole number that it stands for, as an `i64` and as a `u64`; the double cut and
// clamped to a `u64`.
const DOUBLES: [(u64, Option<i64>, Option<u64>, u64); 23] = [
    // 0, the least subnormal double, 2^-52, and its neighbour away from 0
    (0x0000_0000_0000_0000, Some(0), Some(0), 0),
    (0x0000_0000_0000_0001, Some(0), Some(0), 0),
    (0x3cb0_0000_0000_0000, Some(0), Some(0), 0),
    (0x3cb0_0000_0000_0001, None, None, 0),
    // the doubles round 1, -1, 3/2
    (0x3fef_ffff_ffff_ffff, None, None, 0),
    (0x3ff0_0000_0000_0000, Some(1), Some(1), 1),
    (0x3ff0_0000_0000_0001, Some(1), Some(1), 1),
    (0x3ff0_0000_0000_0002, None, None, 1),
    (0xbff0_0000_0000_0000, Some(-1), None, 0),
    (0x3ff8_0000_0000_0000, None, None, 1),
    // 2^32
    (
        0x41f0_0000_0000_0000,
        Some(4_294_967_296),
        Some(4_294_967_296),
        4_294_967_296,
    ),
    // round 2^63 and -2^63
    (
        0x43df_ffff_ffff_ffff,
        Some(9_223_372_036_854_774_784),
        Some(9_223_372_036_854_774_784),
        9_223_372_036_854_774_784,
    ),
    (
        0x43e0_0000_0000_0000,
        Some(9_223_372_036_854_775_807),
        Some(9_223_372_036_854_775_808),
        9_223_372_036_854_775_808,
    ),
    (
        0x43e0_0000_0000_0001,
        None,
        Some(9_223_372_036_854_777_856),
        9_223_372_036_854_777_856,
    ),
    (
        0xc3e0_0000_0000_0000,
        Some(-9_223_372_036_854_775_808),
        None,
        0,
    ),
    (0xc3e0_0000_0000_0001, None, None, 0),
    // round 2^64
    (
        0x43ef_ffff_ffff_ffff,
        None,
        Some(18_446_744_073_709_549_568),
        18_446_744_073_709_549_568,
    ),
    (
        0x43f0_0000_0000_0000,
        None,
        Some(18_446_744_073_709_551_615),
        18_446_744_073_709_551_615,
    ),
    (
        0x43f0_0000_0000_0001,
        None,
        None,
        18_446_744_073_709_551_615,
    ),
    // the greatest double, the infinities, not a number
    (
        0x7fef_ffff_ffff_ffff,
        None,
        None,
        18_446_744_073_709_551_615,
    ),
    (
        0x7ff0_0000_0000_0000,
        None,
        None,
        18_446_744_073_709_551_615,
    ),
    (0xfff0_0000_0000_0000, None, None, 0),
    (0x7ff8_0000_0000_0000, None, None, 0),
];

// Whether a double is read as the numbers of its row.
fn is_read_as(bits: u64, int: Option<i64>, unsigned: Option<u64>, clamped: u64) -> bool {
    int_of_bits(bits) == int
        && u64_of_bits(bits) == unsigned
        && round_clamp::<u64>(bits) == clamped
        && round_clamp::<u32>(bits) == clamped.min(u32::MAX as u64) as u32
}

const DIGITS: [(usize, usize); 5] = [(0, 1), (9, 1), (10, 2), (100, 3), (usize::MAX, 20)];

#[test]
fn doubles_and_digits(rt: HostRuntime) {
    for &(bits, int, unsigned, clamped) in &DOUBLES {
        assert!(rt; is_read_as(bits, int, unsigned, clamped), "at {bits:x}");
    }
    for &(n, digits) in &DIGITS {
        assert!(rt; num_decimal_digits(n) == digits, "of {n}");
    }
}

// The number that is held.
fn held<T: Int>(c: Checked<T>) -> Option<i128> {
    match c.0 {
        Some(x) => Some(x.to_i128()),
        None => None,
    }
}

// Whether the type goes from `least` to `greatest` in so many bits.
fn has_ends<T: Int>(least: i128, greatest: i128, width: u32) -> bool {
    let low = Checked(T::of_i128(least));
    let high = Checked(T::of_i128(greatest));
    let one = Checked(T::of_i128(1));
    let last = width.saturating_sub(1);
    held(!low) == Some(greatest)
        && held(high + one).is_none()
        && held(low - one).is_none()
        && held((one << last) & low) == Some(least)
        && held(one << width).is_none()
        && held(high >> last) == Some(if least == 0 { 1 } else { 0 })
}

#[test]
fn every_type_has_its_ends(rt: HostRuntime) {
    let longest = u64::MAX as i128;
    let (least, greatest) = (i64::MIN as i128, i64::MAX as i128);
    assert!(rt; has_ends::<u8>(0, 255, 8));
    assert!(rt; has_ends::<u16>(0, 65_535, 16));
    assert!(rt; has_ends::<u32>(0, 4_294_967_295, 32));
    assert!(rt; has_ends::<u64>(0, longest, 64));
    assert!(rt; has_ends::<usize>(0, longest, 64));
    assert!(rt; has_ends::<i8>(-128, 127, 8));
    assert!(rt; has_ends::<i16>(-32_768, 32_767, 16));
    assert!(rt; has_ends::<i32>(-2_147_483_648, 2_147_483_647, 32));
    assert!(rt; has_ends::<i64>(least, greatest, 64));
    assert!(rt; has_ends::<isize>(least, greatest, 64));
}

// Numbers with a sign, divided towards 0 and shifted and masked in two's complement.
fn signed() -> [Checked<i8>; 5] {
    [
        Checked::new(-7i8) / 2,
        Checked::new(-7) % 2,
        Checked::new(0x40) << Checked::new(1),
        Checked::new(-5) >> 1,
        Checked::new(-1) ^ 0x0f,
    ]
}

// 0x52, by each of the assignments.
fn assigned() -> Checked<u8> {
    let mut c = Checked::new(200u8);
    c += 50;
    c -= Checked::new(10);
    c /= 4;
    c *= 4;
    c %= 100;
    c |= 0x41;
    c ^= 0x40;
    c &= 0x3f;
    c <<= 2;
    c >>= Checked::new(1);
    c
}

const SIGNED: [Checked<i8>; 5] = [
    Checked(Some(-3)),
    Checked(Some(-1)),
    Checked(Some(-128)),
    Checked(Some(-3)),
    Checked(Some(-16)),
];

#[test]
fn operators(rt: HostRuntime) {
    assert!(rt; Checked::new(i32::MIN) % -1 == Checked(None));
    assert!(rt; Checked::new(1u8) << 8 == Checked(None));
    assert!(rt; -Checked::new(0u8) == Checked(Some(0)));
    assert!(rt; -Checked::new(1u8) == Checked(None));
    assert!(rt; signed() == SIGNED);
    let mut c = assigned();
    assert!(rt; c == Checked(Some(0x52)));
    c += 206;
    c -= 206;
    assert!(rt; c == Checked(None));
}

fn hash_of(c: Checked<u8>) -> u64 {
    let mut hasher = FoldHasher::default();
    c.hash(&mut hasher);
    hasher.finish()
}

// Whether each conversion gives what fits and refuses the rest.
fn are_converted(failed: Checked<u8>) -> [bool; 5] {
    [
        Checked::<u8>::try_from(-1i32) == Err(NumFault::DoesNotFit),
        Checked::<u8>::try_from(255i64) == Ok(Checked(Some(255))),
        Checked::new(44i32).try_into::<u8>() == Ok(44),
        failed.try_into::<i64>() == Err(NumFault::Failed),
        failed.get() == Err(NumFault::Failed),
    ]
}

// Whether what failed is equal to itself alone and beside no number, and 7 is below 8.
fn are_compared(failed: Checked<u8>, seven: Checked<u8>) -> [bool; 5] {
    [
        failed == Checked::from(None),
        failed <= failed,
        !(failed < seven),
        seven < Checked::new(8),
        seven.is_some(),
    ]
}

// Both numbers by `Display`, then both by `Debug`.
fn texts_of(alloc: Global, first: Checked<u8>, second: Checked<u8>) -> Result<String, AllocError> {
    format!(in alloc; "{first} {second} {first:?} {second:?}")
}

#[test]
fn conversions_comparisons_and_texts(rt: HostRuntime) -> Result<(), Fail> {
    let failed: Checked<u8> = Checked::default();
    let seven = Checked::from(7u8);
    assert!(rt; are_converted(failed) == [true; 5]);
    assert!(rt; are_compared(failed, seven) == [true; 5]);
    let mut emptied = seven;
    *emptied = None;
    assert!(rt; emptied == failed && hash_of(emptied) == hash_of(failed));
    let texts = texts_of(rt.alloc(), seven, failed)?;
    assert!(rt; texts.as_str() == "7 overflow 7 \"overflow\"");
    Ok(())
}
