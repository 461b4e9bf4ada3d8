ghost use Rattle.std.specs.Prelude.{◌≡◌, ℕ, List};
ghost use Rattle.mongo_bson.specs.Value.{IsValue};
ghost use Rattle.mongo_bson.specs.Number.{int_of_kind, int_of_value, u64_of_kind, u64_of_value};

use crate::RawValue;
use mongo_num::{int_of_bits, u64_of_bits};

/// The whole number that a value holds: an `int32`, an `int64`, or a double that stands for a whole number, as
/// `mongo_num::int_of_bits` reads it. None for any other value.
pub fn get_int_raw(value: RawValue<'_>) -> Option<i64>
    ensures number { result ≡ int_of_value value.entry }
    ensures meaning { (kind : ℕ) (bytes : List ℕ) → IsValue kind bytes value.entry → result ≡ int_of_kind kind bytes }
{
    match value {
        RawValue::Int32(number) => Some(i64::from(number)),
        RawValue::Int64(number) => Some(number),
        RawValue::Double(bits) => int_of_bits(bits),
        _ => None,
    }
}

/// The same as an unsigned number, where `mongo_num::u64_of_bits` reads a double. None for a negative `int32` or
/// `int64` too.
pub fn get_u64_raw(value: RawValue<'_>) -> Option<u64>
    ensures number { result ≡ u64_of_value value.entry }
    ensures meaning { (kind : ℕ) (bytes : List ℕ) → IsValue kind bytes value.entry → result ≡ u64_of_kind kind bytes }
{
    match value {
        RawValue::Int32(number) => u64::try_from(number).ok(),
        RawValue::Int64(number) => u64::try_from(number).ok(),
        RawValue::Double(bits) => u64_of_bits(bits),
        _ => None,
    }
}
