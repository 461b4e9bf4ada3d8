//! BSON 1.1 documents, and the texts and byte strings of this workspace.
//!
//! A document is its length as a little-endian `int32` that counts the whole document, its elements one after another,
//! and a zero byte. An element is a kind byte, a key ended by a zero byte, and a value whose kind says how its bytes
//! lie. `specs/Document.antt` says so for every kind; the readers here are proved against it.
//!
//! Reading borrows: a [`RawDocument`] is a slice of the bytes that it was read from, and takes no memory but for the
//! keys that [`RawDocument::distinct_keys`] sorts. Building grows a [`RawDocumentBuf`] or a [`RawArrayBuf`] in place,
//! element by element. Each call that takes memory may answer [`BsonFault::OutOfMemory`]; where no other fault is named,
//! that is its only one.
//!
//! Proved: each byte string has at most one list of elements, and each reader answers by that list.
//! [`BsonFault::Malformed`] says that elements break off where a call looks: [`Iter`] gives it where none stands at the
//! front of what is left, [`first_key`] where none stands first in a document that isn't empty, [`RawDocument::get`]
//! where they break off before the key that it looks for, [`RawDocument::distinct_keys`] where they don't fill the
//! document. [`RawDocumentBuf::append`] and [`RawArrayBuf::push`] give a document one element more, at its end. Each
//! refusal comes exactly where its cause holds, but that want of memory may stand in its place, and a refused call leaves
//! what it would have changed as it was.
#![tactic(auto)]

mod arrays;
mod bytes;
mod checks;
mod cstring;
mod distinct;
mod element;
mod extend;
mod fault;
mod find;
mod front;
mod id_field;
mod items;
mod iter;
pub mod kinds;
mod meaning;
mod number;
mod owned_value;
mod raw_array_buf;
mod raw_document;
mod raw_document_buf;
mod raw_value;
mod readable;
mod shape;
mod text;
mod try_clone;
mod writing;

pub use arrays::{array_entry_size_bytes, to_raw_bson_array, vec_to_raw_array_buf};
pub use bytes::Bytes;
pub use checks::{
    first_key, replacement_document_check, replacement_raw_document_check, update_document_check,
};
pub use cstring::take_cstring;
pub use extend::extend_raw_document_buf;
pub use fault::BsonFault;
pub use front::take_document;
pub use id_field::get_or_prepend_id_field;
pub use items::Items;
pub use iter::Iter;
pub use number::{get_int_raw, get_u64_raw};
pub use owned_value::OwnedValue;
pub use raw_array_buf::RawArrayBuf;
pub use raw_document::{EMPTY_DOCUMENT, MAXIMUM_LENGTH, RawDocument};
pub use raw_document_buf::{Documents, RawDocumentBuf};
pub use raw_value::{GENERIC, ObjectId, RawValue};
pub use text::{Text, Texts};
pub use try_clone::{TryClone, copy_of};
pub use writing::value_size;
