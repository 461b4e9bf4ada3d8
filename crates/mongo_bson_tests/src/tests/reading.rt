use super::rows::{Asked, each_row_tells};
use super::spelling::{document_of, holding, printed};
use mongo_bson::{
    BsonFault, RawDocument, RawValue, first_key, get_int_raw, get_u64_raw, take_cstring,
    take_document,
};
use std::alloc::{AllocError, Global};
use std::test::Fail;

// A row for each kind of BSON 1.1, as its grammar spells it, and more for numbers: the kind byte, the value's bytes, what they
// mean, and the whole number that they are, with a sign and without. The doubles are 1.0, -2.0, 0.5, 2^63, 2^64 and an
// infinity. The last are texts that aren't UTF-8, with no room for the zero and without it, a boolean that is 2, and the kinds
// between those of BSON 1.1.
const VALUES: &str = r#"01 00 00 00 00 00 00 f0 3f => Double(4607182418800017408) Some(1) Some(1)
01 00 00 00 00 00 00 00 c0 => Double(13835058055282163712) Some(-2) None
01 00 00 00 00 00 00 e0 3f => Double(4602678819172646912) None None
01 00 00 00 00 00 00 e0 43 => Double(4890909195324358656) Some(9223372036854775807) Some(9223372036854775808)
01 00 00 00 00 00 00 f0 43 => Double(4895412794951729152) None Some(18446744073709551615)
01 00 00 00 00 00 00 f0 7f => Double(9218868437227405312) None None
02 02 00 00 00 62 00 => Str("b") None None
02 04 00 00 00 62 00 63 00 => Str("b\0c") None None
03 05 00 00 00 00 => Document(RawDocument { bytes: [5, 0, 0, 0, 0] }) None None
04 05 00 00 00 00 => Array(RawDocument { bytes: [5, 0, 0, 0, 0] }) None None
05 02 00 00 00 80 78 79 => Binary(128, [120, 121]) None None
06 => Other(6, []) None None
07 00 01 02 03 04 05 06 07 08 09 0a 0b => ObjectId(ObjectId([0, 1, 2, 3, 4, 5, 6, 7, 8, 9, 10, 11])) None None
08 01 => Bool(true) None None
08 00 => Bool(false) None None
09 ff ff ff ff ff ff ff ff => DateTime(-1) None None
0a => Null None None
0b 70 00 69 00 => Other(11, [112, 0, 105, 0]) None None
0c 02 00 00 00 62 00 00 01 02 03 04 05 06 07 08 09 0a 0b => Other(12, [2, 0, 0, 0, 98, 0, 0, 1, 2, 3, 4, 5, 6, 7, 8, 9, 10, 11]) None None
0d 02 00 00 00 62 00 => Other(13, [2, 0, 0, 0, 98, 0]) None None
0e 02 00 00 00 62 00 => Other(14, [2, 0, 0, 0, 98, 0]) None None
0f 0f 00 00 00 02 00 00 00 62 00 05 00 00 00 00 => Other(15, [15, 0, 0, 0, 2, 0, 0, 0, 98, 0, 5, 0, 0, 0, 0]) None None
10 fe ff ff ff => Int32(-2) Some(-2) None
10 07 00 00 00 => Int32(7) Some(7) Some(7)
10 00 00 00 80 => Int32(-2147483648) Some(-2147483648) None
11 01 00 00 00 00 00 00 00 => Other(17, [1, 0, 0, 0, 0, 0, 0, 0]) None None
12 01 00 00 00 00 00 00 00 => Int64(1) Some(1) Some(1)
12 00 00 00 00 00 00 00 00 => Int64(0) Some(0) Some(0)
12 ff ff ff ff ff ff ff ff => Int64(-1) Some(-1) None
12 ff ff ff ff ff ff ff 7f => Int64(9223372036854775807) Some(9223372036854775807) Some(9223372036854775807)
13 01 00 00 00 00 00 00 00 00 00 00 00 00 00 40 30 => Other(19, [1, 0, 0, 0, 0, 0, 0, 0, 0, 0, 0, 0, 0, 0, 64, 48]) None None
7f => Other(127, []) None None
ff => Other(255, []) None None
02 02 00 00 00 ff 00 => refused
02 00 00 00 00 => refused
02 01 00 00 00 62 => refused
08 02 => refused
00 => refused
14 => refused
7e => refused
80 => refused
fe => refused"#;

// What a value means and the whole numbers that it is, as they are printed.
fn meaning(alloc: Global, value: RawValue<'_>) -> Result<String, Fail> {
    printed(alloc, &value, &get_int_raw(value), &get_u64_raw(value))
}

// Whether the value alone under `a` in a new document makes this document.
fn is_written(alloc: Global, value: RawValue<'_>, document: RawDocument<'_>) -> bool {
    match holding(alloc, value) {
        Ok(written) => written.as_bytes() == document.as_bytes(),
        Err(_) => false,
    }
}

// Whether a document is readable, and these bytes are its only value.
fn is_alone(document: RawDocument<'_>, kind: u8, bytes: &[u8]) -> bool {
    document.readable()
        && document.iter().count() == 1
        && document.get_bytes("a") == Ok(Some((kind, bytes)))
}

// What the only value of a document means, where each way to read it gives it.
fn told_of(alloc: Global, bytes: &[u8], kind: u8, value: &[u8]) -> Result<String, Fail> {
    let document = RawDocument::from_bytes(bytes)?;
    match document.get("a") {
        Ok(Some(found)) if is_alone(document, kind, value) && is_written(alloc, found, document) =>
            { meaning(alloc, found) }
        _ => Ok(String::from_str(alloc, "read in two ways")?),
    }
}

// Whether these bytes are a document whose value is none.
fn is_malformed(bytes: &[u8]) -> bool {
    match RawDocument::from_bytes(bytes) {
        Ok(document) => !document.readable()
            && matches!(document.get("a"), Err(BsonFault::Malformed)),
        Err(_) => false,
    }
}

// What a value of this kind means, or that it is refused.
fn told(alloc: Global, kind: u8, value: &[u8]) -> Result<String, Fail> {
    let bytes = document_of(alloc, kind, value)?;
    if is_malformed(bytes.as_slice()) {
        Ok(String::from_str(alloc, "refused")?)
    } else {
        told_of(alloc, bytes.as_slice(), kind, value)
    }
}

// Whether these bytes are no value of the kind.
fn is_refused(alloc: Global, kind: u8, value: &[u8]) -> Result<bool, AllocError> {
    let bytes = document_of(alloc, kind, value)?;
    Ok(is_malformed(bytes.as_slice()))
}

// What the value of a row means, where it is refused when it is cut.
pub(crate) fn told_uncut(alloc: Global, spelled: &[u8]) -> Result<String, Fail> {
    let [kind, value @ ..] = spelled else {
        return Err(Fail::new("no kind"));
    };
    for cut in 0..value.len() {
        if !is_refused(alloc, *kind, &value[..cut])? {
            return Ok(String::from_str(alloc, "read when it is cut")?);
        }
    }
    told(alloc, *kind, value)
}

#[test]
fn each_kind_is_read_whole_and_refused_cut(rt: HostRuntime) -> Result<(), Fail> {
    each_row_tells(rt.alloc(), Asked::Meaning, VALUES)
}

// Frames with a length below 5, without the zero, of another length and of a negative one; an empty document; and keys
// that are UTF-8 and not. Whether a document has its frame, its first key, and what stands under a letter with an accent.
const FRAMES: &str = r#" => false Err(Malformed) Err(Malformed)
04 00 00 00 => false Err(Malformed) Err(Malformed)
05 00 00 00 01 => false Err(Malformed) Err(Malformed)
04 00 00 00 00 => false Err(Malformed) Err(Malformed)
06 00 00 00 00 => false Err(Malformed) Err(Malformed)
05 00 00 80 00 => false Err(Malformed) Err(Malformed)
05 00 00 00 00 => true Ok(None) Ok(None)
09 00 00 00 0a c3 a9 00 00 => true Ok(Some("é")) Ok(Some(Null))
08 00 00 00 0a ff 00 00 => true Err(Malformed) Err(Malformed)"#;

// What is asked of bytes as a document, as it is printed.
pub(crate) fn said(alloc: Global, bytes: &[u8]) -> Result<String, Fail> {
    let frame = RawDocument::from_bytes(bytes);
    let (first, value) = match frame {
        Ok(document) => (first_key(document), document.get("é")),
        Err(fault) => (Err(fault), Err(fault)),
    };
    printed(alloc, &frame.is_ok(), &first, &value)
}

fn are_keys_taken() -> bool {
    take_cstring(b"\xC3\xA9\0b\0") == Some(("é", b"b\0".as_slice()))
        && take_cstring(b"a\xFF\0").is_none()
        && take_cstring(b"a").is_none()
}

// Whether a document is taken with what follows it, and none where its length passes the bytes, where that isn't whole, and
// where no zero ends it.
fn are_documents_taken() -> bool {
    let Ok(document) = RawDocument::from_bytes(b"\x05\0\0\0\0") else {
        return false;
    };
    take_document(b"\x05\0\0\0\0b\0") == Some((document, b"b\0".as_slice()))
        && take_document(b"\x06\0\0\0\0").is_none()
        && take_document(b"\x05\0\0").is_none()
        && take_document(b"\x05\0\0\0\x01b\0").is_none()
}

#[test]
fn a_frame_is_as_long_as_it_says(rt: HostRuntime) -> Result<(), Fail> {
    assert!(rt; are_keys_taken());
    assert!(rt; are_documents_taken());
    each_row_tells(rt.alloc(), Asked::Frame, FRAMES)
}
