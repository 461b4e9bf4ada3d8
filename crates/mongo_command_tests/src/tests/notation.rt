// Documents as the tables of these tests write them: fields apart by blanks, each KEY=VALUE. A VALUE is null, undefined, true,
// false, broken (a boolean that is 2), int:N, long:N, date:N, timestamp:N, double:BITS, text:WORD, id:N (twelve bytes N) or
// binary:N (one byte); or `{` or `[`, which opens a document or an array up to its `}` or `]`. Spelled as BSON 1.1 has them.
use itoa::Buffer;
use mongo_bson::{Bytes, RawDocumentBuf};
use std::alloc::{AllocError, Global};
use std::num::ParseIntError;
use std::ops::Range;
use std::test::Fail;

// The document of these fields.
pub(crate) fn document(alloc: Global, fields: &str) -> Result<RawDocumentBuf, Fail> {
    document_behind(alloc, 0..0, "", fields)
}

// The document of these fields behind one of this text under each of these numbers.
pub(crate) fn document_behind(
    alloc: Global,
    numbers: Range<u32>,
    text: &str,
    fields: &str,
) -> Result<RawDocumentBuf, Fail> {
    let bytes = spelled(alloc, numbers, text, fields)?;
    Ok(RawDocumentBuf::from_bytes(Bytes::from_vec(bytes))?)
}

fn spelled(alloc: Global, numbers: Range<u32>, text: &str, fields: &str) -> Result<Vec<u8>, Fail> {
    let mut bytes = Vec::new(alloc);
    let mut open = Vec::new(alloc);
    spell_document(&mut bytes, &mut open, numbers, text, fields)?;
    Ok(bytes)
}

fn spell_document(
    bytes: &mut Vec<u8>,
    open: &mut Vec<usize>,
    numbers: Range<u32>,
    text: &str,
    fields: &str,
) -> Result<(), Fail> {
    begin(bytes, open)?;
    for number in numbers {
        spell_numbered(bytes, number, text)?;
    }
    spell_all(bytes, open, fields)?;
    Ok(end(bytes, open)?)
}

// Writes a text under a number.
fn spell_numbered(bytes: &mut Vec<u8>, number: u32, text: &str) -> Result<(), Fail> {
    let mut digits = Buffer::new();
    spell_key(bytes, 0x02, digits.format(number))?;
    spell_text(bytes, text)
}

// Writes fields.
fn spell_all(bytes: &mut Vec<u8>, open: &mut Vec<usize>, fields: &str) -> Result<(), Fail> {
    for field in fields.split_whitespace() {
        if field == "}" || field == "]" {
            end(bytes, open)?;
        } else {
            spell(bytes, open, field)?;
        }
    }
    Ok(())
}

// Begins a document, whose length is written at its end.
fn begin(bytes: &mut Vec<u8>, open: &mut Vec<usize>) -> Result<(), AllocError> {
    open.push(bytes.len())?;
    bytes.extend_from_slice(&[0; 4])
}

// Ends the document that was begun last.
fn end(bytes: &mut Vec<u8>, open: &mut Vec<usize>) -> Result<(), AllocError> {
    bytes.push(0)?;
    let start = open.pop().unwrap_or(0);
    let length = bytes.len().saturating_sub(start);
    if let Some(document) = bytes.as_mut_slice().get_mut(start..) {
        write_length(document, length);
    }
    Ok(())
}

// Writes a document's length over its first bytes.
fn write_length(document: &mut [u8], length: usize) {
    let [a, b, c, d, ..] = length.to_le_bytes();
    if let Some(place) = document.first_chunk_mut() {
        *place = [a, b, c, d];
    }
}

// Writes a field, or begins it where it is opened.
fn spell(bytes: &mut Vec<u8>, open: &mut Vec<usize>, field: &str) -> Result<(), Fail> {
    let (key, value) = field.split_once('=').unwrap_or((field, ""));
    let (kind, number) = value.split_once(':').unwrap_or((value, ""));
    spell_key(bytes, kind_byte(kind), key)?;
    match kind {
        "{" | "[" => Ok(begin(bytes, open)?),
        "text" => spell_text(bytes, number),
        _ => spell_number(bytes, kind, number),
    }
}

// Writes what stands before a value.
fn spell_key(bytes: &mut Vec<u8>, kind: u8, key: &str) -> Result<(), AllocError> {
    bytes.push(kind)?;
    bytes.extend_from_slice(key.as_bytes())?;
    bytes.extend_from_slice(&[0])
}

fn kind_byte(kind: &str) -> u8 {
    match kind {
        "double" => 0x01,
        "text" => 0x02,
        "{" => 0x03,
        "[" => 0x04,
        "binary" => 0x05,
        "undefined" => 0x06,
        "id" => 0x07,
        "true" | "false" | "broken" => 0x08,
        "date" => 0x09,
        "null" => 0x0A,
        "int" => 0x10,
        "timestamp" => 0x11,
        "long" => 0x12,
        _ => 0,
    }
}

// Writes a text of less than 255 bytes.
fn spell_text(bytes: &mut Vec<u8>, text: &str) -> Result<(), Fail> {
    let length = u8::try_from(text.len().saturating_add(1))?;
    bytes.extend_from_slice(&[length, 0, 0, 0])?;
    bytes.extend_from_slice(text.as_bytes())?;
    Ok(bytes.push(0)?)
}

// Writes the value of another kind.
fn spell_number(bytes: &mut Vec<u8>, kind: &str, number: &str) -> Result<(), Fail> {
    let value = value_of(kind, number)?.to_le_bytes();
    Ok(spell_value(bytes, kind, value)?)
}

// The number that a value is spelled with, or 0 where its kind has no value.
fn value_of(kind: &str, number: &str) -> Result<u64, ParseIntError> {
    match kind {
        "double" => u64::from_str_radix(number, 16),
        "int" => Ok(i64::from(i32::from_str_radix(number, 10)?).cast_unsigned()),
        "long" | "date" | "timestamp" => Ok(i64::from_str_radix(number, 10)?.cast_unsigned()),
        "id" | "binary" => Ok(u64::from(u8::from_str_radix(number, 10)?)),
        "true" => Ok(1),
        "broken" => Ok(2),
        _ => Ok(0),
    }
}

// Writes as many bytes of a number as its kind has.
fn spell_value(bytes: &mut Vec<u8>, kind: &str, value: [u8; 8]) -> Result<(), AllocError> {
    let [a, b, c, d, ..] = value;
    match kind {
        "double" | "long" | "date" | "timestamp" => bytes.extend_from_slice(&value),
        "int" => bytes.extend_from_slice(&[a, b, c, d]),
        "id" => bytes.extend_from_slice(&[a; 12]),
        "binary" => bytes.extend_from_slice(&[1, 0, 0, 0, 0, a]),
        "true" | "false" | "broken" => bytes.extend_from_slice(&[a]),
        _ => Ok(()),
    }
}
