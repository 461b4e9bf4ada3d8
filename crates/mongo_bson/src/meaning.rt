ghost use Rattle.std.specs.Prelude.{◌≡◌, ◌∷◌, [], length};
ghost use Rattle.std.specs.Int.{from_le_bytes, from_bool, w32, w64};
ghost use Rattle.mongo_bson.specs.Document.{IsString, IsBinary, Holds, boolean, text_of};
ghost use Rattle.mongo_bson.specs.Value.{IsValue};
ghost use Rattle.mongo_bson.specs.Reading.{HoldsKind};

use crate::{ObjectId, RawDocument, RawValue, kinds};

// What the bytes of a value of this kind mean.
pub(crate) fn value_of<'a>(kind: u8, bytes: &'a [u8]) -> RawValue<'a>
    requires { HoldsKind kind bytes.now }
    ensures { IsValue kind bytes.now result }
{
    match kind {
        kinds::DOUBLE => RawValue::Double(word_of(bytes)),
        kinds::STRING => RawValue::Str(text_of_string(bytes)),
        kinds::DOCUMENT => RawValue::Document(RawDocument { bytes }),
        kinds::ARRAY => RawValue::Array(RawDocument { bytes }),
        kinds::BINARY => binary_of(bytes),
        kinds::OBJECT_ID => RawValue::ObjectId(object_id_of(bytes)),
        kinds::BOOLEAN => RawValue::Bool(boolean_of(bytes)),
        kinds::DATE_TIME => RawValue::DateTime(word_of(bytes).cast_signed()),
        kinds::NULL => RawValue::Null,
        kinds::INT32 => RawValue::Int32(half_word_of(bytes).cast_signed()),
        kinds::INT64 => RawValue::Int64(word_of(bytes).cast_signed()),
        _ => RawValue::Other(kind, bytes),
    }
}

// Eight bytes as a number, the lowest first.
fn word_of(bytes: &[u8]) -> u64
    requires { length bytes.now ≡ 8 }
    ensures { result ≡ from_le_bytes w64 bytes.now }
{
    match bytes {
        [a, b, c, d, e, f, g, h] => u64::from_le_bytes([*a, *b, *c, *d, *e, *f, *g, *h]),
        _ => unreachable!(),
    }
}

// Four bytes as a number, the lowest first.
fn half_word_of(bytes: &[u8]) -> u32
    requires { length bytes.now ≡ 4 }
    ensures { result ≡ from_le_bytes w32 bytes.now }
{
    match bytes {
        [a, b, c, d] => u32::from_le_bytes([*a, *b, *c, *d]),
        _ => unreachable!(),
    }
}

// The text of a string.
fn text_of_string<'a>(bytes: &'a [u8]) -> &'a str
    requires { IsString bytes.now }
    ensures { result.now ≡ text_of bytes.now }
{
    match bytes {
        [_, _, _, _, text @ .., _] => unsafe { str::from_utf8_unchecked(text) },
        _ => unreachable!(),
    }
}

// The subtype and the content of a binary.
fn binary_of<'a>(bytes: &'a [u8]) -> RawValue<'a>
    requires { IsBinary bytes.now }
    ensures { IsValue 0x05 bytes.now result }
{
    match bytes {
        [_, _, _, _, subtype, content @ ..] => RawValue::Binary(*subtype, content),
        _ => unreachable!(),
    }
}

// The twelve bytes of an object id.
fn object_id_of(bytes: &[u8]) -> ObjectId
    requires { length bytes.now ≡ 12 }
    ensures { result.0 ≡ bytes.now }
{
    match bytes.first_chunk::<12>() {
        Some(id) => ObjectId(*id),
        None => unreachable!(),
    }
}

// Whether a boolean value's byte is 1.
fn boolean_of(bytes: &[u8]) -> bool
    requires { Holds boolean bytes.now }
    ensures { bytes.now ≡ from_bool result ∷ [] }
{
    match bytes {
        [byte] => *byte == 1,
        _ => unreachable!(),
    }
}
