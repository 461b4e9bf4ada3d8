// A second reader, for tests alone. It tries each place where an element, a key or a part of a value may end, so that
// it is as plain as the definition, and as slow. It shares no code with the first.
ghost use Rattle.std.specs.Prelude.{◌≡◌, ◌↔◌, ◌^◌, ◌<◌, ◌≤◌, ◌++◌, ◌∷◌, [], List, ℕ, length, IsTrue};
ghost use Rattle.std.specs.Int.{from_le_bytes, w32};
ghost use Rattle.mongo_bson.specs.Framed.{IsFramed};
ghost use Rattle.mongo_bson.specs.Document.{Element, IsDocument, IsElement, IsCstring, IsString, IsBinary, Holds, boolean, regular_expression, db_pointer, code_with_scope, spell};
ghost use Rattle.mongo_bson.specs.Reading.{HoldsKind, IsCodeAndScope};
ghost use Rattle.mongo_bson.specs.Keys.{Fill};

// Whether the bytes are a document: a frame, and elements that fill it.
pub(crate) fn is_document(bytes: &[u8]) -> bool
    ensures { IsTrue result ↔ ((elements : List Element) × IsDocument bytes.now elements) }
{
    if is_frame(bytes) {
        let (_length, rest) = bytes.split_at(4);
        let (body, _zero) = rest.split_at(rest.len() - 1);
        are_elements(body)
    } else {
        false
    }
}

// Whether the bytes are elements, one after another.
fn are_elements(bytes: &[u8]) -> bool
    ensures { IsTrue result ↔ ((elements : List Element) × Fill bytes.now elements) }
{
    if bytes.is_empty() {
        return true;
    }
    for end in 1..bytes.len() + 1 {
        let (first, rest) = bytes.split_at(end);
        if is_element(first) {
            if are_elements(rest) {
                return true;
            }
        }
    }
    false
}

// Whether the bytes are one element: a kind byte, a key, a zero and a value.
fn is_element(bytes: &[u8]) -> bool
    ensures { IsTrue result ↔ ((e : Element) × IsElement e × (bytes.now ≡ spell e)) }
{
    match bytes.split_first() {
        Some((kind, rest)) => is_key_and_value(*kind, rest),
        None => false,
    }
}

// Whether the bytes are a key, a zero and a value of this kind.
fn is_key_and_value(kind: u8, bytes: &[u8]) -> bool
    ensures { IsTrue result ↔ ((key value : List ℕ) × (bytes.now ≡ key ++ 0 ∷ value) × IsCstring key × HoldsKind kind value) }
{
    for end in 0..bytes.len() + 1 {
        let (key, rest) = bytes.split_at(end);
        if is_cstring(key) {
            if is_zero_and_value(kind, rest) {
                return true;
            }
        }
    }
    false
}

// Whether the bytes are a zero and a value of this kind.
fn is_zero_and_value(kind: u8, bytes: &[u8]) -> bool
    ensures { IsTrue result ↔ ((value : List ℕ) × (bytes.now ≡ 0 ∷ value) × HoldsKind kind value) }
{
    match bytes {
        [0, value @ ..] => is_value(kind, value),
        _ => false,
    }
}

// Whether the bytes are a text without a zero.
fn is_cstring(bytes: &[u8]) -> bool
    ensures { IsTrue result ↔ IsCstring bytes.now }
{
    if bytes.contains(&0) {
        return false;
    }
    str::from_utf8(bytes).is_ok()
}

// Whether the bytes are a value of this kind.
fn is_value(kind: u8, value: &[u8]) -> bool
    ensures { IsTrue result ↔ HoldsKind kind value.now }
{
    match kind {
        0x01 => value.len() == 8,
        0x02 => is_string(value),
        0x03 => is_frame(value),
        0x04 => is_frame(value),
        0x05 => is_binary(value),
        0x06 => value.len() == 0,
        0x07 => value.len() == 12,
        0x08 => is_boolean(value),
        0x09 => value.len() == 8,
        0x0A => value.len() == 0,
        0x0B => is_regular_expression(value),
        0x0C => is_db_pointer(value),
        0x0D => is_string(value),
        0x0E => is_string(value),
        0x0F => is_code_with_scope(value),
        0x10 => value.len() == 4,
        0x11 => value.len() == 8,
        0x12 => value.len() == 8,
        0x13 => value.len() == 16,
        0x7F => value.len() == 0,
        0xFF => value.len() == 0,
        _ => false,
    }
}

// Whether the bytes have a document's frame.
fn is_frame(bytes: &[u8]) -> bool
    ensures { IsTrue result ↔ IsFramed bytes.now }
{
    bytes.len() >= 5
        && bytes.len() < 0x8000_0000
        && number(bytes) == bytes.len()
        && bytes[bytes.len() - 1] == 0
}

// Whether the bytes are a string: a length, a text and a zero, which the length counts.
fn is_string(bytes: &[u8]) -> bool
    ensures { IsTrue result ↔ IsString bytes.now }
{
    bytes.len() >= 5
        && number(bytes) < 0x8000_0000
        && number(bytes) + 4 == bytes.len()
        && bytes[bytes.len() - 1] == 0
        && str::from_utf8(&bytes[4..bytes.len() - 1]).is_ok()
}

// Whether the bytes are a binary: a length, a subtype and so many bytes.
fn is_binary(bytes: &[u8]) -> bool
    ensures { IsTrue result ↔ IsBinary bytes.now }
{
    bytes.len() >= 5 && number(bytes) < 0x8000_0000 && number(bytes) + 5 == bytes.len()
}

// Whether the bytes are a boolean value.
fn is_boolean(bytes: &[u8]) -> bool
    ensures { IsTrue result ↔ Holds boolean bytes.now }
{
    match bytes {
        [byte] => *byte == 0 || *byte == 1,
        _ => false,
    }
}

// Whether the bytes are two texts, each ended by a zero.
fn is_regular_expression(bytes: &[u8]) -> bool
    ensures { IsTrue result ↔ Holds regular_expression bytes.now }
{
    for end in 0..bytes.len() + 1 {
        let (first, rest) = bytes.split_at(end);
        if is_cstring(first) {
            if is_text_between_zeros(rest) {
                return true;
            }
        }
    }
    false
}

// Whether the bytes are a zero, a text and a zero.
fn is_text_between_zeros(bytes: &[u8]) -> bool
    ensures { IsTrue result ↔ ((name : List ℕ) × (bytes.now ≡ 0 ∷ (name ++ 0 ∷ [])) × IsCstring name) }
{
    match bytes {
        [0, name @ .., 0] => is_cstring(name),
        _ => false,
    }
}

// Whether the bytes are a string and twelve bytes.
fn is_db_pointer(bytes: &[u8]) -> bool
    ensures { IsTrue result ↔ Holds db_pointer bytes.now }
{
    if bytes.len() < 12 {
        return false;
    }
    let (name, _id) = bytes.split_at(bytes.len() - 12);
    is_string(name)
}

// Whether the bytes are a length that counts them, a string and a document.
fn is_code_with_scope(bytes: &[u8]) -> bool
    ensures { IsTrue result ↔ Holds code_with_scope bytes.now }
{
    if bytes.len() < 4 || bytes.len() >= 0x8000_0000 || number(bytes) != bytes.len() {
        return false;
    }
    let (_count, rest) = bytes.split_at(4);
    is_code_and_scope(rest)
}

// Whether the bytes are a string and a document.
fn is_code_and_scope(bytes: &[u8]) -> bool
    ensures { IsTrue result ↔ IsCodeAndScope bytes.now }
{
    for end in 0..bytes.len() + 1 {
        let (code, scope) = bytes.split_at(end);
        if is_string(code) {
            if is_frame(scope) {
                return true;
            }
        }
    }
    false
}

// The int32 at the front, as it is without a sign.
fn number(bytes: &[u8]) -> usize
    requires { 4 ≤ length bytes.now }
    ensures value { result ≡ from_le_bytes w32 bytes.now }
    ensures below { result < 2 ^ 32 }
{
    u32::from_le_bytes([bytes[0], bytes[1], bytes[2], bytes[3]]) as usize
}
