ghost use Rattle.std.specs.Prelude.{◌≡◌, ◌↔◌, ◌+◌, ◌-◌, ◌^◌, ◌<◌, ◌≤◌, ◌++◌, ◌∷◌, [], length, take, drop, slice_set, Contains, IsTrue, IfErr, OnOk, OnErr};
ghost use Rattle.std.specs.Int.{to_le_bytes, w32};
ghost use Rattle.mongo_bson.specs.Framed.{IsFramed, element_bytes, enclosed, maximum_length};
ghost use Rattle.mongo_bson.specs.Document.{spell};
ghost use Rattle.mongo_bson.specs.Value.{kind_of, bytes_of, element_of};

use crate::cstring::cstring_end;
use crate::raw_document::MAXIMUM_LENGTH;
use crate::{BsonFault, RawValue, kinds};

// What writes one element is written out where an element is put in: most callers name the key and the kind of the value,
// so that there nothing is left of the tests for the others.

// The length from which a document's memory doesn't double any more.
const LONG: usize = 0x4000;

// Puts an element at the end of a document. A refusal leaves the document as it was.
#[inline(always)]
pub(crate) fn push_element(
    document: &mut Vec<u8>,
    key: &str,
    value: RawValue<'_>,
) -> Result<(), BsonFault>
    requires framed { IsFramed document.old.items }
    requires room { length document.old.items + length (spell (element_of key.now value)) ≤ maximum_length }
    ensures added { OnOk result (document.new.items ≡ enclosed (element_bytes document.old.items ++ spell (element_of key.now value.entry))) }
    ensures unchanged { OnErr result (document.new.items ≡ document.old.items) }
    ensures framed { IsFramed document.new.items }
    ensures refused { IfErr result (λ fault. fault ≡ BsonFault.OutOfMemory) }
{
    let length = document.len();
    match write_after(document, key, value) {
        Ok(()) => {
            seal(document, length - 1, kind_byte(value));
            Ok(())
        }
        Err(fault) => {
            document.truncate(length);
            Err(fault)
        }
    }
}

// Puts elements at the end of a document. A refusal leaves the document as it was.
pub(crate) fn push_elements(document: &mut Vec<u8>, elements: &[u8]) -> Result<(), BsonFault>
    requires framed { IsFramed document.old.items }
    requires room { length document.old.items + length elements.now ≤ maximum_length }
    ensures added { OnOk result (document.new.items ≡ enclosed (element_bytes document.old.items ++ elements.now)) }
    ensures unchanged { OnErr result (document.new.items ≡ document.old.items) }
    ensures framed { IsFramed document.new.items }
    ensures refused { IfErr result (λ fault. fault ≡ BsonFault.OutOfMemory) }
{
    let Some((kind, rest)) = elements.split_first() else {
        return Ok(());
    };
    let length = document.len();
    match write_rest(document, rest) {
        Ok(()) => {
            seal(document, length - 1, *kind);
            Ok(())
        }
        Err(fault) => {
            document.truncate(length);
            Err(fault)
        }
    }
}

// Takes memory for so many bytes more, where it isn't there.
#[inline(always)]
fn make_room(out: &mut Vec<u8>, more: usize) -> Result<(), BsonFault>
    ensures unchanged { out.new.items ≡ out.old.items }
    ensures refused { IfErr result (λ fault. fault ≡ BsonFault.OutOfMemory) }
{
    if more <= out.capacity() - out.len() {
        Ok(())
    } else {
        grow(out, more)
    }
}

// The same where the memory isn't there. A short document doubles. A long one takes a quarter more, since what it doesn't
// fill in the end is given back, and what is given back has to be cleared again when it is taken the next time.
#[cold]
#[inline(never)]
fn grow(out: &mut Vec<u8>, more: usize) -> Result<(), BsonFault>
    ensures unchanged { out.new.items ≡ out.old.items }
    ensures refused { IfErr result (λ fault. fault ≡ BsonFault.OutOfMemory) }
{
    let length = out.len();
    let ahead = if length < LONG { length } else { length / 4 };
    out.reserve_exact(more.saturating_add(ahead))?;
    Ok(())
}

// Writes bytes and a final zero after what is there. What was there stays, whatever the result.
fn write_rest(out: &mut Vec<u8>, bytes: &[u8]) -> Result<(), BsonFault>
    ensures added { OnOk result (out.new.items ≡ out.old.items ++ (bytes.now ++ 0 ∷ [])) }
    ensures kept { take (length out.old.items) out.new.items ≡ out.old.items }
    ensures refused { IfErr result (λ fault. fault ≡ BsonFault.OutOfMemory) }
{
    make_room(out, bytes.len() + 1)?;
    out.extend_from_slice(bytes)?;
    out.push(0)?;
    Ok(())
}

// Writes a key and its zero, a value and a final zero after what is there. What was there stays, whatever the result.
#[inline(always)]
fn write_after(out: &mut Vec<u8>, key: &str, value: RawValue<'_>) -> Result<(), BsonFault>
    requires { length (bytes_of value) ≤ maximum_length }
    ensures added { OnOk result (out.new.items ≡ out.old.items ++ (key.now ++ 0 ∷ (bytes_of value.entry ++ 0 ∷ []))) }
    ensures kept { take (length out.old.items) out.new.items ≡ out.old.items }
    ensures refused { IfErr result (λ fault. fault ≡ BsonFault.OutOfMemory) }
{
    // Room once for the whole element.
    make_room(out, key.len() + value_size(value) + 2)?;
    out.extend_from_slice(key.as_bytes())?;
    out.push(0)?;
    write_value(out, value)?;
    out.push(0)?;
    Ok(())
}

// Writes the bytes of a value after what is there. What was there stays, whatever the result.
#[inline(always)]
fn write_value(out: &mut Vec<u8>, value: RawValue<'_>) -> Result<(), BsonFault>
    requires { length (bytes_of value) ≤ maximum_length }
    ensures added { OnOk result (out.new.items ≡ out.old.items ++ bytes_of value.entry) }
    ensures kept { take (length out.old.items) out.new.items ≡ out.old.items }
    ensures refused { IfErr result (λ fault. fault ≡ BsonFault.OutOfMemory) }
{
    match value {
        RawValue::Double(bits) => write_bytes(out, &bits.to_le_bytes()),
        RawValue::Str(text) => write_string(out, text),
        RawValue::Document(document) => write_bytes(out, document.as_bytes()),
        RawValue::Array(array) => write_bytes(out, array.as_bytes()),
        RawValue::Binary(subtype, content) => write_binary(out, subtype, content),
        RawValue::ObjectId(id) => write_bytes(out, &id.0),
        RawValue::Bool(boolean) => write_bytes(out, &[u8::from(boolean)]),
        RawValue::DateTime(milliseconds) => write_bytes(out, &milliseconds.to_le_bytes()),
        RawValue::Null => Ok(()),
        RawValue::Int32(number) => write_bytes(out, &number.to_le_bytes()),
        RawValue::Int64(number) => write_bytes(out, &number.to_le_bytes()),
        RawValue::Other(_, content) => write_bytes(out, content),
    }
}

// Writes bytes after what is there. What was there stays, whatever the result.
#[inline(always)]
fn write_bytes(out: &mut Vec<u8>, bytes: &[u8]) -> Result<(), BsonFault>
    ensures added { OnOk result (out.new.items ≡ out.old.items ++ bytes.now) }
    ensures kept { take (length out.old.items) out.new.items ≡ out.old.items }
    ensures refused { IfErr result (λ fault. fault ≡ BsonFault.OutOfMemory) }
{
    out.extend_from_slice(bytes)?;
    Ok(())
}

// Writes the length of a text with its final zero, the text and the zero. What was there stays, whatever the result.
#[inline(always)]
fn write_string(out: &mut Vec<u8>, text: &str) -> Result<(), BsonFault>
    requires { length text.now + 1 < 2 ^ 32 }
    ensures added { OnOk result (out.new.items ≡ out.old.items ++ (to_le_bytes w32 (length text.now + 1) ++ (text.now ++ 0 ∷ []))) }
    ensures kept { take (length out.old.items) out.new.items ≡ out.old.items }
    ensures refused { IfErr result (λ fault. fault ≡ BsonFault.OutOfMemory) }
{
    out.extend_from_slice(&(text.len() as u32 + 1).to_le_bytes())?;
    out.extend_from_slice(text.as_bytes())?;
    out.push(0)?;
    Ok(())
}

// Writes the length of a binary's content, the subtype and the content. What was there stays, whatever the result.
#[inline(always)]
fn write_binary(out: &mut Vec<u8>, subtype: u8, content: &[u8]) -> Result<(), BsonFault>
    requires { length content.now < 2 ^ 32 }
    ensures added { OnOk result (out.new.items ≡ out.old.items ++ (to_le_bytes w32 (length content.now) ++ subtype ∷ content.now)) }
    ensures kept { take (length out.old.items) out.new.items ≡ out.old.items }
    ensures refused { IfErr result (λ fault. fault ≡ BsonFault.OutOfMemory) }
{
    out.extend_from_slice(&(content.len() as u32).to_le_bytes())?;
    out.push(subtype)?;
    out.extend_from_slice(content)?;
    Ok(())
}

// The kind byte that a value is written with.
#[inline(always)]
fn kind_byte(value: RawValue<'_>) -> u8
    ensures { result ≡ kind_of value.entry }
{
    match value {
        RawValue::Double(_) => kinds::DOUBLE,
        RawValue::Str(_) => kinds::STRING,
        RawValue::Document(_) => kinds::DOCUMENT,
        RawValue::Array(_) => kinds::ARRAY,
        RawValue::Binary(_, _) => kinds::BINARY,
        RawValue::ObjectId(_) => kinds::OBJECT_ID,
        RawValue::Bool(_) => kinds::BOOLEAN,
        RawValue::DateTime(_) => kinds::DATE_TIME,
        RawValue::Null => kinds::NULL,
        RawValue::Int32(_) => kinds::INT32,
        RawValue::Int64(_) => kinds::INT64,
        RawValue::Other(kind, _) => kind,
    }
}

/// How many bytes a value is written as, without the kind and the key of its element.
#[inline(always)]
pub fn value_size(value: RawValue<'_>) -> usize
    ensures { result ≡ length (bytes_of value.entry) }
{
    match value {
        RawValue::Double(_) => 8,
        RawValue::Str(text) => text.len() + 5,
        RawValue::Document(document) => document.as_bytes().len(),
        RawValue::Array(array) => array.as_bytes().len(),
        RawValue::Binary(_, content) => content.len() + 5,
        RawValue::ObjectId(_) => 12,
        RawValue::Bool(_) => 1,
        RawValue::DateTime(_) => 8,
        RawValue::Null => 0,
        RawValue::Int32(_) => 4,
        RawValue::Int64(_) => 8,
        RawValue::Other(_, content) => content.len(),
    }
}

// Whether a document of this length has room for an element.
#[inline(always)]
pub(crate) fn has_room(held: usize, key: &str, value: RawValue<'_>) -> bool
    requires { held ≤ maximum_length }
    ensures { IsTrue result ↔ (held + length (spell (element_of key.now value.entry)) ≤ maximum_length) }
{
    let size = value_size(value);
    key.len() <= MAXIMUM_LENGTH
        && size <= MAXIMUM_LENGTH
        && held + key.len() + size + 2 <= MAXIMUM_LENGTH
}

// Whether a document of this length has room for so many bytes more.
pub(crate) fn has_room_for(held: usize, more: usize) -> bool
    requires { held ≤ maximum_length }
    ensures { IsTrue result ↔ (held + more ≤ maximum_length) }
{
    more <= MAXIMUM_LENGTH && held + more <= MAXIMUM_LENGTH
}

// Makes the zero at a place the kind byte of what follows it, and the length field the length.
fn seal(document: &mut Vec<u8>, at: usize, kind: u8)
    requires after_length { 4 ≤ at }
    requires within { at < length document.old.items }
    requires most { length document.old.items ≤ maximum_length }
    ensures { document.new.items ≡ to_le_bytes w32 (length document.old.items) ++ drop 4 (slice_set document.old.items at kind) }
{
    seal_bytes(document.as_mut_slice(), at, kind);
}

// The same in a slice.
fn seal_bytes(bytes: &mut [u8], at: usize, kind: u8)
    requires after_length { 4 ≤ at }
    requires within { at < length bytes.old }
    requires most { length bytes.old ≤ maximum_length }
    ensures { bytes.new ≡ to_le_bytes w32 (length bytes.old) ++ drop 4 (slice_set bytes.old at kind) }
{
    bytes[at] = kind;
    let length = bytes.len() as u32;
    let (field, _elements) = bytes.split_at_mut(4);
    field.copy_from_slice(&length.to_le_bytes());
}

// Whether a key holds a zero.
#[inline(always)]
pub(crate) fn has_zero(key: &str) -> bool
    ensures { IsTrue result ↔ Contains key.now 0 }
{
    cstring_end(key.as_bytes()).is_some()
}
