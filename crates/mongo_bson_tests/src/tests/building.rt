use super::rows::{Asked, each_row_tells};
use super::spelling::{append, holding, printed};
use mongo_bson::{
    BsonFault, Bytes, Documents, Items, ObjectId, OwnedValue, RawArrayBuf, RawDocument,
    RawDocumentBuf, RawValue, Text, Texts, TryClone, array_entry_size_bytes, copy_of,
    extend_raw_document_buf, get_or_prepend_id_field, replacement_document_check,
    replacement_raw_document_check, to_raw_bson_array, update_document_check, vec_to_raw_array_buf,
};
use mongo_num::NumFault;
use std::alloc::Global;
use std::test::Fail;

// The document of `a: 1`.
fn one(alloc: Global) -> Result<RawDocumentBuf, BsonFault> {
    holding(alloc, RawValue::Int32(1))
}

// What was answered, and what a document is then.
fn answered(
    alloc: Global,
    answer: Result<(), BsonFault>,
    document: &RawDocumentBuf,
) -> Result<String, Fail> {
    Ok(format!(in alloc; "{answer:?} {:?}", document.as_bytes())?)
}

// What appending under a key answers, and what the document of `a: 1` is then.
pub(crate) fn appended(alloc: Global, key: &[u8]) -> Result<String, Fail> {
    let key = str::from_utf8(key)?;
    let mut document = one(alloc)?;
    let answer = append(&mut document, key, RawValue::Int32(1));
    answered(alloc, answer, &document)
}

// The keys `b`, `\0`, `a\0`, `\0a` and `a\0b`.
const KEYS: &str = "62 => Ok(()) [19, 0, 0, 0, 16, 97, 0, 1, 0, 0, 0, 16, 98, 0, 1, 0, 0, 0, 0]
00 => Err(KeyHasZero) [12, 0, 0, 0, 16, 97, 0, 1, 0, 0, 0, 0]
61 00 => Err(KeyHasZero) [12, 0, 0, 0, 16, 97, 0, 1, 0, 0, 0, 0]
00 61 => Err(KeyHasZero) [12, 0, 0, 0, 16, 97, 0, 1, 0, 0, 0, 0]
61 00 62 => Err(KeyHasZero) [12, 0, 0, 0, 16, 97, 0, 1, 0, 0, 0, 0]";

#[test]
fn a_key_holds_no_zero(rt: HostRuntime) -> Result<(), Fail> {
    each_row_tells(rt.alloc(), Asked::Appending, KEYS)
}

// One empty document.
fn one_empty(alloc: Global) -> Result<Documents, BsonFault> {
    let document = RawDocumentBuf::new(alloc)?;
    let mut documents = Documents::new(alloc);
    documents.push(document)?;
    Ok(documents)
}

// The array of one empty document, which stays.
fn array(alloc: Global) -> Result<RawArrayBuf, BsonFault> {
    let documents = one_empty(alloc)?;
    to_raw_bson_array(alloc, &documents)
}

// The array of one empty document, which is given away.
fn given_array(alloc: Global) -> Result<RawArrayBuf, BsonFault> {
    vec_to_raw_array_buf(alloc, one_empty(alloc)?)
}

// Whether two calls made equal values.
fn are_equal<T: PartialEq + Drop>(
    first: Result<T, BsonFault>,
    second: Result<T, BsonFault>,
) -> bool {
    first.is_ok() && first == second
}

// Whether an array was made that has these bytes.
fn has_bytes(made: Result<RawArrayBuf, BsonFault>, bytes: &[u8]) -> bool {
    match made {
        Ok(array) => array.borrow().as_bytes() == bytes,
        Err(_) => false,
    }
}

fn are_arrays(alloc: Global) -> bool {
    let bytes = b"\x0D\x00\x00\x00\x030\x00\x05\x00\x00\x00\x00\x00".as_slice();
    has_bytes(array(alloc), bytes) && are_equal(given_array(alloc), array(alloc))
}

fn push(array: &mut RawArrayBuf, value: RawValue<'_>) -> Result<(), BsonFault> {
    array.push(value)
}

// Whether this is told of how long a document of so many bytes makes an array.
fn is_entry_size(index: usize, doc_len: usize, wanted: Result<usize, NumFault>) -> bool {
    array_entry_size_bytes(index, doc_len) == wanted
}

// Whether an empty document of this number makes an array longer by 8 bytes, or by 9 where the number has two digits, and as
// much is told of it.
fn is_longer(
    array: &mut RawArrayBuf,
    empty: RawDocument<'_>,
    index: usize,
) -> Result<bool, BsonFault> {
    let wanted = if index < 10 { 8 } else { 9 };
    let before = array.borrow().as_bytes().len();
    push(array, RawValue::Document(empty))?;
    let grown = array.borrow().as_bytes().len().saturating_sub(before);
    Ok(grown == wanted && is_entry_size(index, 5, Ok(wanted)))
}

// Whether an array has twelve documents, the last under its number.
fn are_twelve(array: &RawArrayBuf, empty: RawDocument<'_>) -> bool {
    match array.borrow().get("11") {
        Ok(Some(RawValue::Document(last))) => array.len() == 12 && last == empty,
        _ => false,
    }
}

// Whether twelve empty documents come into an empty array as they should.
fn are_numbered(array: &mut RawArrayBuf) -> Result<bool, BsonFault> {
    let empty = RawDocument::from_bytes(b"\x05\x00\x00\x00\x00")?;
    for index in 0..12 {
        if !is_longer(array, empty, index)? {
            return Ok(false);
        }
    }
    Ok(are_twelve(array, empty))
}

fn are_twelve_numbered(alloc: Global) -> Result<bool, BsonFault> {
    let mut array = RawArrayBuf::new(alloc)?;
    are_numbered(&mut array)
}

// The greatest length that a number holds, and the ones above it.
fn are_greatest_sizes() -> bool {
    is_entry_size(0, usize::MAX - 3, Ok(usize::MAX))
        && is_entry_size(0, usize::MAX - 2, Err(NumFault::Failed))
        && is_entry_size(10, usize::MAX - 3, Err(NumFault::Failed))
}

#[test]
fn an_array_has_its_documents_under_their_numbers(rt: HostRuntime) {
    assert!(rt; are_arrays(rt.alloc()) && are_greatest_sizes());
    assert!(rt; are_twelve_numbered(rt.alloc()) == Ok(true));
}

// A list of one item that was made.
fn list<T: Drop>(alloc: Global, made: Result<T, BsonFault>) -> Result<Items<T>, BsonFault> {
    let item = made?;
    let mut items = Items::new(alloc);
    items.push(item)?;
    Ok(items)
}

// Whether a list of one item has a copy that equals it.
fn has_copy<T: TryClone + PartialEq + Drop>(alloc: Global, items: &Items<T>) -> bool {
    match items.try_clone(alloc) {
        Ok(copy) => copy == *items && copy.len() == 1,
        Err(_) => false,
    }
}

// Whether what was made can be copied in a list.
fn is_copied<T: TryClone + PartialEq + Drop>(alloc: Global, made: Result<T, BsonFault>) -> bool {
    match list(alloc, made) {
        Ok(items) => has_copy(alloc, &items),
        Err(_) => false,
    }
}

// A text that was put together.
fn joined(alloc: Global) -> Result<Text, BsonFault> {
    let mut text = Text::from_slice(alloc, "a")?;
    text.push_str("b")?;
    Ok(text)
}

// A byte string that was put together.
fn joined_bytes(alloc: Global) -> Result<Bytes, BsonFault> {
    let mut bytes = Bytes::from_slice(alloc, b"ab")?;
    bytes.extend_from_slice(b"c")?;
    Ok(bytes)
}

fn one_text(alloc: Global) -> Result<Texts, BsonFault> {
    list(alloc, joined(alloc))
}

fn owned_binary(alloc: Global) -> Result<OwnedValue, BsonFault> {
    Ok(OwnedValue {
        kind: 0x05,
        bytes: joined_bytes(alloc)?,
    })
}

fn are_items_copied(alloc: Global) -> bool {
    is_copied(alloc, joined_bytes(alloc))
        && is_copied(alloc, owned_binary(alloc))
        && is_copied(alloc, one_text(alloc))
        && is_copied(alloc, one(alloc))
        && is_copied(alloc, array(alloc))
}

fn is_text_joined(alloc: Global) -> bool {
    match joined(alloc) {
        Ok(text) => text.as_str() == "ab",
        Err(_) => false,
    }
}

fn are_bytes_joined(alloc: Global) -> bool {
    match joined_bytes(alloc) {
        Ok(bytes) => bytes.as_bytes() == b"abc".as_slice(),
        Err(_) => false,
    }
}

// The document of `a: 1`, with room for more.
fn roomy(alloc: Global) -> Result<RawDocumentBuf, BsonFault> {
    let mut document = one(alloc)?;
    document.reserve_exact(1_000)?;
    Ok(document)
}

fn copied_roomy(alloc: Global) -> Result<RawDocumentBuf, BsonFault> {
    let document = roomy(alloc)?;
    document.borrow().to_raw_document_buf(alloc)
}

fn are_documents_copied(alloc: Global) -> bool {
    are_equal(roomy(alloc), one(alloc)) && are_equal(copied_roomy(alloc), roomy(alloc))
}

// The same text as the joined one, written whole.
fn written(alloc: Global) -> Result<Text, BsonFault> {
    Ok(Text::from_string(format!(in alloc; "ab")?))
}

// The copy of a text that may be missing.
fn copied_text(alloc: Global) -> Result<Option<Text>, BsonFault> {
    let text = Some(written(alloc)?);
    copy_of(alloc, &text)
}

fn joined_text(alloc: Global) -> Result<Option<Text>, BsonFault> {
    Ok(Some(joined(alloc)?))
}

fn is_text_copied(alloc: Global) -> bool {
    are_equal(copied_text(alloc), joined_text(alloc))
}

#[test]
fn what_wants_memory_is_copied(rt: HostRuntime) {
    let alloc = rt.alloc();
    assert!(rt; is_text_joined(alloc) && are_bytes_joined(alloc) && is_text_copied(alloc));
    assert!(rt; are_items_copied(alloc) && are_documents_copied(alloc));
}

// What extending the document of `a: 1` by these bytes answers, and what it is then.
pub(crate) fn extended(alloc: Global, bytes: &[u8]) -> Result<String, Fail> {
    let other = RawDocumentBuf::from_bytes(Bytes::from_slice(alloc, bytes)?)?;
    let mut document = one(alloc)?;
    let answer = extend_raw_document_buf(alloc, &mut document, &other);
    answered(alloc, answer, &document)
}

// Another value under the same key, another key, and an element that breaks off.
const EXTENDED: &str =
    "0c 00 00 00 10 61 00 02 00 00 00 00 => Err(DuplicateKey) [12, 0, 0, 0, 16, 97, 0, 1, 0, 0, 0, 0]
0c 00 00 00 10 62 00 02 00 00 00 00 => Ok(()) [19, 0, 0, 0, 16, 97, 0, 1, 0, 0, 0, 16, 98, 0, 2, 0, 0, 0, 0]
06 00 00 00 10 00 => Err(Malformed) [12, 0, 0, 0, 16, 97, 0, 1, 0, 0, 0, 0]";

// What is told of a document as an update and as a replacement.
pub(crate) fn checked(alloc: Global, bytes: &[u8]) -> Result<String, Fail> {
    let document = RawDocument::from_bytes(bytes)?;
    printed(
        alloc,
        &update_document_check(document),
        &replacement_document_check(document),
        &replacement_raw_document_check(document),
    )
}

// An empty document, one of the key `a`, and one of the key `$set`.
const CHECKED: &str = "05 00 00 00 00 => Err(UpdateEmpty) Ok(()) Ok(())
0c 00 00 00 10 61 00 01 00 00 00 00 => Err(UpdateNotModifiers) Ok(()) Ok(())
0f 00 00 00 10 24 73 65 74 00 01 00 00 00 00 => Ok(()) Err(ReplacementHasModifiers) Err(ReplacementHasModifiers)";

#[test]
fn documents_are_extended_and_checked(rt: HostRuntime) -> Result<(), Fail> {
    each_row_tells(rt.alloc(), Asked::Extending, EXTENDED)?;
    each_row_tells(rt.alloc(), Asked::Checks, CHECKED)
}

// Whether a document has the id `0, 1, 2 ..` after one that begins with this number was asked for.
fn has_id(alloc: Global, document: &mut RawDocumentBuf, first: u8) -> Result<bool, BsonFault> {
    let id = ObjectId([first, 1, 2, 3, 4, 5, 6, 7, 8, 9, 10, 11]);
    let there = get_or_prepend_id_field(alloc, document, id)?;
    let wanted = b"\x00\x01\x02\x03\x04\x05\x06\x07\x08\x09\x0A\x0B".as_slice();
    Ok(there.kind == 7 && there.bytes.as_bytes() == wanted)
}

// Whether a document without an id keeps the first of two, and is this then.
fn keeps_first_id(
    alloc: Global,
    document: &mut RawDocumentBuf,
    whole: &[u8],
) -> Result<bool, BsonFault> {
    let first = has_id(alloc, document, 0)?;
    let second = has_id(alloc, document, 9)?;
    Ok(first && second && document.as_bytes() == whole)
}

// The same of the document of `a: 1`.
fn is_id_kept(alloc: Global, whole: &[u8]) -> Result<bool, BsonFault> {
    let mut document = one(alloc)?;
    keeps_first_id(alloc, &mut document, whole)
}

#[test]
fn an_id_is_put_first_once(rt: HostRuntime) {
    let whole =
        b"\x1D\x00\x00\x00\x07_id\x00\x00\x01\x02\x03\x04\x05\x06\x07\x08\x09\x0A\x0B\x10a\x00\x01\x00\x00\x00\x00";
    assert!(rt; is_id_kept(rt.alloc(), whole) == Ok(true));
}
