ghost use Rattle.std.specs.Prelude.{◌↔◌, ◌+◌, ◌<◌, length, IsTrue, MatchOption};
ghost use Rattle.std.specs.Int.{from_le_bytes};
ghost use Rattle.mongo_bson.specs.Framed.{IsFramed};
ghost use Rattle.mongo_bson.specs.Document.{Holds, fixed, boolean, regular_expression, db_pointer, code_with_scope, IsString, IsBinary};
ghost use Rattle.mongo_bson.specs.Reading.{IsAtFront, NoneAtFront, HoldsKind, IsCounted, IsNotCounted, IsCodeAndScope};

use crate::cstring::take_cstring;
use crate::kinds;
use crate::raw_document::{MAXIMUM_LENGTH, is_framed};

// How many bytes the value of a kind takes at the front. None where no value of that kind stands there, as for a kind
// that BSON 1.1 doesn't have.
#[inline(always)]
pub(crate) fn value_len(kind: u8, bytes: &[u8]) -> Option<usize>
    ensures { MatchOption result (NoneAtFront (HoldsKind kind) bytes.now) (IsAtFront (HoldsKind kind) bytes.now) }
{
    match kind {
        kinds::DOUBLE => fixed_len(8, bytes),
        kinds::STRING => string_len(bytes),
        kinds::DOCUMENT => document_len(bytes),
        kinds::ARRAY => document_len(bytes),
        kinds::BINARY => binary_len(bytes),
        kinds::UNDEFINED => fixed_len(0, bytes),
        kinds::OBJECT_ID => fixed_len(12, bytes),
        kinds::BOOLEAN => boolean_len(bytes),
        kinds::DATE_TIME => fixed_len(8, bytes),
        kinds::NULL => fixed_len(0, bytes),
        kinds::REGULAR_EXPRESSION => regular_expression_len(bytes),
        kinds::DB_POINTER => db_pointer_len(bytes),
        kinds::CODE => string_len(bytes),
        kinds::SYMBOL => string_len(bytes),
        kinds::CODE_WITH_SCOPE => code_with_scope_len(bytes),
        kinds::INT32 => fixed_len(4, bytes),
        kinds::TIMESTAMP => fixed_len(8, bytes),
        kinds::INT64 => fixed_len(8, bytes),
        kinds::DECIMAL128 => fixed_len(16, bytes),
        kinds::MAX_KEY => fixed_len(0, bytes),
        kinds::MIN_KEY => fixed_len(0, bytes),
        _ => None,
    }
}

// The size, where so many bytes are left.
fn fixed_len(size: usize, bytes: &[u8]) -> Option<usize>
    ensures { MatchOption result (NoneAtFront (Holds (fixed size)) bytes.now) (IsAtFront (Holds (fixed size)) bytes.now) }
{
    if size <= bytes.len() {
        Some(size)
    } else {
        None
    }
}

// The length of a boolean value, a byte that is 0 or 1.
fn boolean_len(bytes: &[u8]) -> Option<usize>
    ensures { MatchOption result (NoneAtFront (Holds boolean) bytes.now) (IsAtFront (Holds boolean) bytes.now) }
{
    match bytes {
        [0 | 1, ..] => Some(1),
        _ => None,
    }
}

// The length of a string: its int32, the text and the final zero.
fn string_len(bytes: &[u8]) -> Option<usize>
    ensures { MatchOption result (NoneAtFront IsString bytes.now) (IsAtFront IsString bytes.now) }
{
    let size = counted_len(bytes, 4)?;
    if is_string(&bytes[..size]) {
        Some(size)
    } else {
        None
    }
}

// The length of a document.
pub(crate) fn document_len(bytes: &[u8]) -> Option<usize>
    ensures { MatchOption result (NoneAtFront IsFramed bytes.now) (IsAtFront IsFramed bytes.now) }
{
    let size = counted_len(bytes, 0)?;
    if is_document(&bytes[..size]) {
        Some(size)
    } else {
        None
    }
}

// The length of a binary: its int32, the subtype and the content.
fn binary_len(bytes: &[u8]) -> Option<usize>
    ensures { MatchOption result (NoneAtFront IsBinary bytes.now) (IsAtFront IsBinary bytes.now) }
{
    counted_len(bytes, 5)
}

// The length of a regular expression: a pattern and its options, each ended by a zero.
fn regular_expression_len(bytes: &[u8]) -> Option<usize>
    ensures { MatchOption result (NoneAtFront (Holds regular_expression) bytes.now) (IsAtFront (Holds regular_expression) bytes.now) }
{
    let (_pattern, rest) = take_cstring(bytes)?;
    let (_options, rest) = take_cstring(rest)?;
    Some(bytes.len() - rest.len())
}

// The length of a string and an object id.
fn db_pointer_len(bytes: &[u8]) -> Option<usize>
    ensures { MatchOption result (NoneAtFront (Holds db_pointer) bytes.now) (IsAtFront (Holds db_pointer) bytes.now) }
{
    let size = string_len(bytes)?;
    if bytes.len() - size < 12 {
        None
    } else {
        Some(size + 12)
    }
}

// The length of a code with scope: its int32, a string and a document.
fn code_with_scope_len(bytes: &[u8]) -> Option<usize>
    ensures { MatchOption result (NoneAtFront (Holds code_with_scope) bytes.now) (IsAtFront (Holds code_with_scope) bytes.now) }
{
    let size = counted_len(bytes, 0)?;
    if is_code_with_scope(&bytes[..size]) {
        Some(size)
    } else {
        None
    }
}

// What the int32 at the front counts and `more`, where the int32 isn't negative and so many bytes are there. That is at
// least five: no value with a length has fewer.
pub(crate) fn counted_len(bytes: &[u8], more: usize) -> Option<usize>
    requires { more < 6 }
    ensures { MatchOption result (IsNotCounted bytes.now more) (IsCounted bytes.now more) }
{
    match bytes {
        [a, b, c, d, ..] => {
            let count = u32::from_le_bytes([*a, *b, *c, *d]) as usize;
            let size = count + more;
            if count <= MAXIMUM_LENGTH && 5 <= size && size <= bytes.len() {
                Some(size)
            } else {
                None
            }
        }
        _ => None,
    }
}

// Whether bytes that their int32 counts are a string.
fn is_string(counted: &[u8]) -> bool
    requires { IsCounted counted.now 4 (length counted.now) }
    ensures { IsTrue result ↔ IsString counted.now }
{
    match counted {
        [_, _, _, _, text @ .., last] => *last == 0 && str::from_utf8(text).is_ok(),
        _ => unreachable!(),
    }
}

// Whether bytes that their int32 counts are a document.
fn is_document(counted: &[u8]) -> bool
    requires { IsCounted counted.now 0 (length counted.now) }
    ensures { IsTrue result ↔ IsFramed counted.now }
{
    match counted {
        [.., last] => *last == 0,
        _ => unreachable!(),
    }
}

// Whether bytes that their int32 counts are a code with scope.
fn is_code_with_scope(counted: &[u8]) -> bool
    requires { IsCounted counted.now 0 (length counted.now) }
    ensures { IsTrue result ↔ Holds code_with_scope counted.now }
{
    match counted {
        [_, _, _, _, parts @ ..] => is_code_and_scope(parts),
        _ => unreachable!(),
    }
}

// Whether the bytes are a string and a document.
fn is_code_and_scope(bytes: &[u8]) -> bool
    ensures { IsTrue result ↔ IsCodeAndScope bytes.now }
{
    match string_len(bytes) {
        Some(size) => {
            let (_code, scope) = bytes.split_at(size);
            is_framed(scope)
        }
        None => false,
    }
}
