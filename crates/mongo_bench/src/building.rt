//! Documents and arrays that are built of what has room in them, so that only want of memory stops it.
ghost use Rattle.std.specs.Prelude.{◌≡◌, ◌≤◌, ◌+◌, length, Contains, IfOk, OnOk};
ghost use Rattle.mongo_bson.specs.Framed.{maximum_length};
ghost use Rattle.mongo_bson.specs.Value.{bytes_of};
ghost use Rattle.mongo_bench.specs.Built.{most_of_number};

use itoa::Buffer;
use mongo_bson::{RawArrayBuf, RawDocumentBuf, RawValue};
use mongo_establish::want_of_memory;
use std::alloc::{AllocError, Global};

/// The document without elements.
pub fn empty_document(alloc: Global) -> Result<RawDocumentBuf, AllocError>
    ensures { IfOk result (λ document. length document ≡ 5) }
{
    match RawDocumentBuf::new(alloc) {
        Ok(document) => Ok(document),
        Err(fault) => Err(want_of_memory(fault.into())),
    }
}

/// The array without values.
pub fn empty_array(alloc: Global) -> Result<RawArrayBuf, AllocError>
    ensures { IfOk result (λ array. length array.document ≡ 5) }
{
    match RawArrayBuf::new(alloc) {
        Ok(array) => Ok(array),
        Err(fault) => Err(want_of_memory(fault.into())),
    }
}

/// Puts an element at the end of a document that has room for it.
// It is inlined, as the writer below it is: what is measured is a caller that names key and kind.
#[inline(always)]
pub fn put(document: &mut RawDocumentBuf, key: &str, value: RawValue<'_>) -> Result<(), AllocError>
    requires framed { 5 ≤ length document.old }
    requires named { ¬ Contains key.now 0 }
    requires room { length document.old + (2 + length key.now + length (bytes_of value)) ≤ maximum_length }
    ensures { OnOk result (length document.new ≡ length document.old + (2 + length key.now + length (bytes_of value.entry))) }
{
    match document.append(key, value) {
        Ok(()) => Ok(()),
        Err(fault) => Err(want_of_memory(fault.into())),
    }
}

/// Puts a value at the end of a document that has room for it, under a number in decimal digits.
pub fn put_numbered(
    document: &mut RawDocumentBuf,
    digits: &mut Buffer,
    number: usize,
    value: RawValue<'_>,
) -> Result<(), AllocError>
    requires framed { 5 ≤ length document.old }
    requires room { length document.old + (most_of_number + length (bytes_of value)) ≤ maximum_length }
    ensures framed { OnOk result (5 ≤ length document.new) }
    ensures longer { OnOk result (length document.new ≤ length document.old + (most_of_number + length (bytes_of value.entry))) }
{
    put(document, digits.format(number), value)
}

/// Puts a value at the end of an array that has room for it.
#[inline(always)]
pub fn push(array: &mut RawArrayBuf, value: RawValue<'_>) -> Result<(), AllocError>
    requires room { length array.old.document + (most_of_number + length (bytes_of value)) ≤ maximum_length }
    ensures { OnOk result (length array.new.document ≤ length array.old.document + (most_of_number + length (bytes_of value.entry))) }
{
    match array.push(value) {
        Ok(()) => Ok(()),
        Err(fault) => Err(want_of_memory(fault.into())),
    }
}
