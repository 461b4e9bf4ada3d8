use mongo_bson::{BsonFault, RawDocumentBuf, RawValue};
use std::alloc::{AllocError, Global};
use std::fmt::{Debug, Display};
use std::test::Fail;

// The bytes that a row has as pairs of hexadecimal digits, apart by blanks.
pub(crate) fn bytes_of(alloc: Global, row: &str) -> Result<Vec<u8>, Fail> {
    let mut bytes = Vec::new(alloc);
    for pair in row.split_whitespace() {
        bytes.push(u8::from_str_radix(pair, 16)?)?;
    }
    Ok(bytes)
}

// Fails where what was told of something isn't what was wanted.
pub(crate) fn wants<D: Display + Drop>(of: D, wanted: &str, told: String) -> Result<(), Fail> {
    if told.as_str() == wanted {
        Ok(())
    } else {
        Err(Fail::new(format_args!("{of}: told {told}")))
    }
}

// Three values as they are printed, apart by blanks. It is generic, so that no proof of a text holds the values.
pub(crate) fn printed<A: Debug, B: Debug, C: Debug>(
    alloc: Global,
    first: &A,
    second: &B,
    third: &C,
) -> Result<String, Fail> {
    Ok(format!(in alloc; "{first:?} {second:?} {third:?}")?)
}

// The one call of `append`, so that its contract is cited here alone.
pub(crate) fn append(
    document: &mut RawDocumentBuf,
    key: &str,
    value: RawValue<'_>,
) -> Result<(), BsonFault> {
    document.append(key, value)
}

// The document of this value under `a`.
pub(crate) fn holding(alloc: Global, value: RawValue<'_>) -> Result<RawDocumentBuf, BsonFault> {
    let mut document = RawDocumentBuf::new(alloc)?;
    append(&mut document, "a", value)?;
    Ok(document)
}

// A length as a document has it, the lowest byte first. The documents of these tests are shorter than 2^32 bytes.
pub(crate) fn length_field(length: usize) -> [u8; 4] {
    u32::try_from(length).unwrap_or(0).to_le_bytes()
}

// The bytes with the frame of a document around them.
pub(crate) fn framed(alloc: Global, body: &[u8]) -> Result<Vec<u8>, AllocError> {
    let mut bytes = Vec::from_slice(alloc, &length_field(body.len().saturating_add(5)))?;
    bytes.extend_from_slice(body)?;
    bytes.push(0)?;
    Ok(bytes)
}

// The document of one element: a kind byte, the key `a`, and the value's bytes.
pub(crate) fn document_of(alloc: Global, kind: u8, value: &[u8]) -> Result<Vec<u8>, AllocError> {
    let mut body = Vec::from_slice(alloc, &[kind, 0x61, 0])?;
    body.extend_from_slice(value)?;
    framed(alloc, body.as_slice())
}
