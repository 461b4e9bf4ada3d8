use super::plain_reader::is_document;
use super::rows::{Asked, each_row_tells};
use super::spelling::{document_of, framed};
use mongo_bson::RawDocument;
use std::alloc::{AllocError, Global};
use std::test::Fail;

// Whether the bytes are a document of which `iter` gives elements alone.
fn is_walked(bytes: &[u8]) -> bool {
    let Ok(document) = RawDocument::from_bytes(bytes) else {
        return false;
    };
    for item in document.iter() {
        if item.is_err() {
            return false;
        }
    }
    true
}

// Whether the bytes are a document that `readable` accepts.
fn is_readable(bytes: &[u8]) -> bool {
    match RawDocument::from_bytes(bytes) {
        Ok(document) => document.readable(),
        Err(_) => false,
    }
}

// Whether the readers agree: `iter` with the plain one, and `readable` accepts no more.
fn agree(bytes: &[u8]) -> bool {
    let plain = is_document(bytes);
    is_walked(bytes) == plain && (plain || !is_readable(bytes))
}

// Whether the readers agree on the document cut at each byte, as it is and in a new frame.
fn agree_when_cut(alloc: Global, document: &[u8]) -> Result<bool, AllocError> {
    for cut in 0..document.len() {
        let (front, _) = document.split_at(cut);
        let body = front.get(4..).unwrap_or(&[]);
        if !agree(front) || !agree(framed(alloc, body)?.as_slice()) {
            return Ok(false);
        }
    }
    Ok(true)
}

// Whether the readers agree on the document with each byte, and so the kind byte, set to each value.
fn agree_when_changed(alloc: Global, document: &[u8]) -> Result<bool, AllocError> {
    for at in 0..document.len() {
        let mut changed = Vec::from_slice(alloc, document)?;
        for value in 0..=255u8 {
            if let Some(byte) = changed.get_mut(at) {
                *byte = value;
            }
            if !agree(changed.as_slice()) {
                return Ok(false);
            }
        }
    }
    Ok(true)
}

// Whether all readers take a document, and agree on it when it is cut and changed.
fn agree_on(alloc: Global, bytes: &[u8]) -> Result<bool, AllocError> {
    Ok(
        is_document(bytes)
            && is_walked(bytes)
            && is_readable(bytes)
            && agree_when_cut(alloc, bytes)?
            && agree_when_changed(alloc, bytes)?,
    )
}

fn agree_on_value(alloc: Global, kind: u8, value: &[u8]) -> Result<bool, AllocError> {
    let document = document_of(alloc, kind, value)?;
    agree_on(alloc, document.as_slice())
}

// That the readers agree on the value of a row, or that they don't.
pub(crate) fn agreement(alloc: Global, spelled: &[u8]) -> Result<String, Fail> {
    let [kind, value @ ..] = spelled else {
        return Err(Fail::new("no kind"));
    };
    let told = if agree_on_value(alloc, *kind, value)? {
        "agree"
    } else {
        "do not agree"
    };
    Ok(String::from_str(alloc, told)?)
}

// A row for each kind of BSON 1.1, as its grammar spells it: the kind byte and the value's bytes.
const KINDS: &str = "01 00 00 00 00 00 00 f0 3f => agree
02 02 00 00 00 62 00 => agree
03 05 00 00 00 00 => agree
04 05 00 00 00 00 => agree
05 02 00 00 00 80 78 79 => agree
06 => agree
07 00 01 02 03 04 05 06 07 08 09 0a 0b => agree
08 01 => agree
09 ff ff ff ff ff ff ff ff => agree
0a => agree
0b 70 00 69 00 => agree
0c 02 00 00 00 62 00 00 01 02 03 04 05 06 07 08 09 0a 0b => agree
0d 02 00 00 00 62 00 => agree
0e 02 00 00 00 62 00 => agree
0f 0f 00 00 00 02 00 00 00 62 00 05 00 00 00 00 => agree
10 fe ff ff ff => agree
11 01 00 00 00 00 00 00 00 => agree
12 01 00 00 00 00 00 00 00 => agree
13 01 00 00 00 00 00 00 00 00 00 00 00 00 00 40 30 => agree
7f => agree
ff => agree";

// The fast readers beside the plain one, over a document of each kind.
#[test]
fn the_readers_agree_on_each_kind(rt: HostRuntime) -> Result<(), Fail> {
    each_row_tells(rt.alloc(), Asked::Agreement, KINDS)
}
