use super::spelling::{append, framed, length_field, printed, wants};
use itoa::Buffer;
use mongo_bson::{BsonFault, RawDocument, RawDocumentBuf, RawValue, first_key};
use std::alloc::{AllocError, Global};
use std::test::Fail;

// The maximum document length that a server takes, 16 MiB.
const MAXIMUM: usize = 0x100_0000;

// A document of so many keys, `0` first, and one more, `29999`.
fn numbered(alloc: Global, count: u32) -> Result<RawDocumentBuf, BsonFault> {
    let mut document = RawDocumentBuf::new(alloc)?;
    let mut digits = Buffer::new();
    for i in 0..count {
        append(&mut document, digits.format(i), RawValue::Null)?;
    }
    append(&mut document, "29999", RawValue::Null)?;
    Ok(document)
}

// Whether no key of it stands twice.
fn are_apart(alloc: Global, count: u32) -> Result<bool, BsonFault> {
    let document = numbered(alloc, count)?;
    document.borrow().distinct_keys(alloc)
}

#[test]
fn many_keys_are_compared_in_time(rt: HostRuntime) {
    let alloc = rt.alloc();
    assert!(rt; are_apart(alloc, 0) == Ok(true) && are_apart(alloc, 29_999) == Ok(true));
    assert!(rt; are_apart(alloc, 30_000) == Ok(false));
}

// The front of a document with so many inside one another, the innermost of which is so long.
fn write_levels(bytes: &mut Vec<u8>, levels: usize, innermost: usize) -> Result<(), AllocError> {
    for below in (1..levels).rev() {
        let length = innermost.saturating_add(below.saturating_mul(8));
        bytes.extend_from_slice(&length_field(length))?;
        bytes.extend_from_slice(b"\x03d\0")?;
    }
    Ok(())
}

// The innermost document, of a binary of so many bytes, and the ends of all levels.
fn write_innermost(bytes: &mut Vec<u8>, levels: usize, content: usize) -> Result<(), AllocError> {
    bytes.extend_from_slice(&length_field(content.saturating_add(13)))?;
    bytes.extend_from_slice(b"\x05b\0")?;
    bytes.extend_from_slice(&length_field(content))?;
    let end = bytes.len().saturating_add(content).saturating_add(1);
    bytes.resize(end, 0x80)?;
    bytes.resize(end.saturating_add(levels), 0)
}

// Documents in one another, the innermost of which has a binary of so many bytes. They are written from the outside
// in, so that no byte is written twice.
fn deep(alloc: Global, levels: usize, content: usize) -> Result<Vec<u8>, AllocError> {
    let mut bytes = Vec::new(alloc);
    write_levels(&mut bytes, levels, content.saturating_add(13))?;
    write_innermost(&mut bytes, levels, content)?;
    Ok(bytes)
}

// What is asked of a document, as it is printed: whether it is readable, how many elements it has, whether its keys are
// apart, its first key, and what it has under `a`.
fn said(alloc: Global, bytes: &[u8]) -> Result<String, Fail> {
    let document = RawDocument::from_bytes(bytes)?;
    let counted = (document.readable(), document.iter().count());
    let found = (first_key(document), document.get("a"));
    printed(alloc, &counted, &document.distinct_keys(alloc), &found)
}

// Fails where of documents in one another, so many of them, something else is said.
fn levels_say(alloc: Global, levels: usize, wanted: &str) -> Result<(), Fail> {
    let bytes = deep(alloc, levels, MAXIMUM)?;
    wants(levels, wanted, said(alloc, bytes.as_slice())?)
}

#[test]
fn a_hundred_levels_are_read_and_no_more(rt: HostRuntime) -> Result<(), Fail> {
    levels_say(
        rt.alloc(),
        100,
        "(true, 1) Ok(true) (Ok(Some(\"d\")), Ok(None))",
    )?;
    levels_say(
        rt.alloc(),
        101,
        "(false, 1) Ok(true) (Ok(Some(\"d\")), Ok(None))",
    )
}

// A document of so many nulls under `b`.
fn nulls(alloc: Global, count: usize) -> Result<Vec<u8>, AllocError> {
    let mut body = Vec::new(alloc);
    for _ in 0..count {
        body.extend_from_slice(b"\x0Ab\0")?;
    }
    framed(alloc, body.as_slice())
}

#[test]
fn small_elements_are_walked_in_time(rt: HostRuntime) -> Result<(), Fail> {
    let bytes = nulls(rt.alloc(), 350_000)?;
    let wanted = "(true, 350000) Ok(false) (Ok(Some(\"b\")), Ok(None))";
    wants("nulls", wanted, said(rt.alloc(), bytes.as_slice())?)
}

// A document of the greatest length: an element of the key `a`, and zeros.
fn greatest(alloc: Global) -> Result<Vec<u8>, AllocError> {
    let mut bytes = Vec::from_slice(alloc, &length_field(MAXIMUM))?;
    bytes.extend_from_slice(b"\x02a\0")?;
    bytes.resize(MAXIMUM, 0)?;
    Ok(bytes)
}

// Makes its element one of this kind and this length.
fn overwrite(bytes: &mut [u8], kind: u8, length: u32) {
    let [first, second, third, fourth] = length.to_le_bytes();
    if let [_, _, _, _, kind_byte, _, _, a, b, c, d, ..] = bytes {
        *kind_byte = kind;
        (*a, *b) = (first, second);
        (*c, *d) = (third, fourth);
    }
}

// Fails where an element of this kind and this length is read.
fn is_lie_refused(alloc: Global, bytes: &mut [u8], kind: u8, length: u32) -> Result<(), Fail> {
    overwrite(bytes, kind, length);
    let wanted = "(false, 1) Err(Malformed) (Err(Malformed), Err(Malformed))";
    wants(
        format_args!("kind {kind}, length {length}"),
        wanted,
        said(alloc, bytes)?,
    )
}

// The same for each length that lies.
fn are_lies_refused(alloc: Global, bytes: &mut [u8], kind: u8) -> Result<(), Fail> {
    for length in [
        0x7FFF_FFFF,
        0xFFFF_FFFF,
        0x8000_0000,
        0xFFFF_FFFE,
        0x00FF_FFF9,
    ] {
        is_lie_refused(alloc, bytes, kind, length)?;
    }
    Ok(())
}

#[test]
fn lengths_that_lie_are_refused_in_time(rt: HostRuntime) -> Result<(), Fail> {
    let mut bytes = greatest(rt.alloc())?;
    for kind in [0x02, 0x03, 0x04, 0x05, 0x0C, 0x0D, 0x0E, 0x0F] {
        are_lies_refused(rt.alloc(), bytes.as_mut_slice(), kind)?;
    }
    Ok(())
}
