ghost use Rattle.std.specs.Prelude.{◌≡◌, ◌≤◌, ◌+◌, ◌*◌, length, IfOk, OnOk};
ghost use Rattle.mongo_bson.specs.Value.{bytes_of};

use crate::building::{empty_array, empty_document, push, put, put_numbered};
use crate::task::DocumentShape;
use itoa::Buffer;
use mongo_bson::{ObjectId, RawArrayBuf, RawDocumentBuf, RawValue, kinds};
use std::alloc::{AllocError, Global};

// How many copies of a document of many levels stand in the nested document, so that it is just below 16 MiB, the
// greatest document that a server takes.
const NESTED_COPIES: usize = 644;

// How many elements stand in the flat document, for the same.
const FLAT_ELEMENTS: usize = 1_233_677;

// How many documents stand in one another in the document that is too deep: one more than a readable document may have.
const TOO_DEEP_LEVELS: u32 = 101;

/// The document of a shape: the nested and the flat one have nearly 16 MiB. Each call makes the same bytes.
pub(crate) fn document_of_shape(
    alloc: Global,
    shape: DocumentShape,
) -> Result<RawDocumentBuf, AllocError> {
    match shape {
        DocumentShape::Nested => nested(alloc),
        DocumentShape::Flat => flat(alloc),
        DocumentShape::TooDeep => too_deep(alloc),
    }
}

// Copies of a document of four levels and the arrays between them, under numbers.
fn nested(alloc: Global) -> Result<RawDocumentBuf, AllocError> {
    let inner = four_levels(alloc)?;
    let mut document = empty_document(alloc)?;
    let mut digits = Buffer::new();
    for i in 0..NESTED_COPIES {
        put_numbered(
            &mut document,
            &mut digits,
            i,
            RawValue::Document(inner.borrow()),
        )?;
    }
    Ok(document)
}

// A document of four levels and the arrays between them.
fn four_levels(alloc: Global) -> Result<RawDocumentBuf, AllocError>
    ensures { IfOk result (λ document. length document ≤ 100_000) }
{
    let lowest = leaf(alloc)?;
    let low = around(alloc, &lowest)?;
    let high = around(alloc, &low)?;
    around(alloc, &high)
}

// A document of values of many kinds.
fn leaf(alloc: Global) -> Result<RawDocumentBuf, AllocError>
    ensures { IfOk result (λ document. length document ≤ 500) }
{
    let mut document = empty_document(alloc)?;
    put_kinds(&mut document)?;
    Ok(document)
}

// Puts values of many kinds at the end of a document. One name isn't ASCII.
fn put_kinds(document: &mut RawDocumentBuf) -> Result<(), AllocError>
    requires { length document.old ≡ 5 }
    ensures { OnOk result (length document.new ≤ 500) }
{
    let id = ObjectId([0, 1, 2, 3, 4, 5, 6, 7, 8, 9, 10, 11]);
    put(document, "_id", RawValue::ObjectId(id))?;
    put(document, "name", RawValue::Str("a name of some length"))?;
    put(document, "größe", RawValue::Double(0x3FF8_0000_0000_0000))?;
    put(document, "count", RawValue::Int32(42))?;
    put(document, "total", RawValue::Int64(-1))?;
    put(document, "isKnown", RawValue::Bool(true))?;
    put(document, "lastSeen", RawValue::DateTime(1_440_938_160_000))?;
    put(document, "data", RawValue::Binary(0, b"sixteen octets.."))?;
    put(document, "none", RawValue::Null)?;
    put(document, "ort", RawValue::Str("Zürich"))?;
    put(document, "time", RawValue::Other(kinds::TIMESTAMP, &[0; 8]))
}

// A document that holds another, and an array of four copies of it.
fn around(alloc: Global, inner: &RawDocumentBuf) -> Result<RawDocumentBuf, AllocError>
    requires { length inner.now ≤ 20_000 }
    ensures { IfOk result (λ document. length document ≤ 5 * length inner.now + 200) }
{
    let copies = four_of(alloc, inner)?;
    with_copies(alloc, inner, &copies)
}

// An array of four copies of a document.
fn four_of(alloc: Global, inner: &RawDocumentBuf) -> Result<RawArrayBuf, AllocError>
    requires { length inner.now ≤ 20_000 }
    ensures { IfOk result (λ array. length array.document ≤ 4 * length inner.now + 100) }
{
    let mut array = empty_array(alloc)?;
    let copy = RawValue::Document(inner.borrow());
    push(&mut array, copy)?;
    push(&mut array, copy)?;
    push(&mut array, copy)?;
    push(&mut array, copy)?;
    Ok(array)
}

// A document that holds another, and the copies of it.
fn with_copies(
    alloc: Global,
    inner: &RawDocumentBuf,
    copies: &RawArrayBuf,
) -> Result<RawDocumentBuf, AllocError>
    requires inner { length inner.now ≤ 20_000 }
    requires copies { length copies.now.document ≤ 100_000 }
    ensures { IfOk result (λ document. length document ≤ length inner.now + length copies.now.document + 100) }
{
    let mut document = empty_document(alloc)?;
    put(&mut document, "number", RawValue::Int32(4))?;
    put(&mut document, "first", RawValue::Document(inner.borrow()))?;
    put(&mut document, "values", RawValue::Array(copies.borrow()))?;
    put(&mut document, "note", RawValue::Str("four more of them"))?;
    Ok(document)
}

// Small elements of four kinds in turn, under numbers.
fn flat(alloc: Global) -> Result<RawDocumentBuf, AllocError> {
    let mut document = empty_document(alloc)?;
    let mut digits = Buffer::new();
    for i in 0..FLAT_ELEMENTS {
        put_numbered(&mut document, &mut digits, i, small_value(i))?;
    }
    Ok(document)
}

// The value under a number of the flat document.
fn small_value(number: usize) -> RawValue<'static>
    ensures { length (bytes_of result) ≤ 9 }
{
    match number % 4 {
        0 => RawValue::Int32(7),
        1 => RawValue::Bool(false),
        2 => RawValue::Str("text"),
        _ => RawValue::Double(0x3FF0_0000_0000_0000),
    }
}

// An empty document inside so many that hold nothing else.
fn too_deep(alloc: Global) -> Result<RawDocumentBuf, AllocError> {
    let mut document = empty_document(alloc)?;
    for _level in 1..TOO_DEEP_LEVELS {
        let mut outer = empty_document(alloc)?;
        put(&mut outer, "a", RawValue::Document(document.borrow()))?;
        document = outer;
    }
    Ok(document)
}
