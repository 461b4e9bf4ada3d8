ghost use Rattle.std.specs.Prelude.{◌≡◌, ◌↔◌, ◌+◌, ◌-◌, ◌<◌, ◌++◌, length, IfOk, IfErr, IsErrOf, OnOk, OnErr};
ghost use Rattle.mongo_bson.specs.Framed.{IsFramed, element_bytes, enclosed, maximum_length};
ghost use Rattle.mongo_bson.specs.Document.{spell};
ghost use Rattle.mongo_bson.specs.Find.{LacksKey, BreaksOff};
ghost use Rattle.mongo_bson.specs.Merge.{HasIdNow, id_key, id_element};
ghost use Rattle.mongo_bson.specs.Refusals.{IdRefuses, PushRefuses, HadMemory};

use crate::raw_document::{EMPTY_DOCUMENT, element_bytes};
use crate::writing::{has_room_for, push_element, push_elements};
use crate::{BsonFault, Bytes, ObjectId, OwnedValue, RawDocumentBuf, RawValue, kinds};
use std::alloc::Global;

// The key of a document's id.
const ID_KEY: &str = "_id";

// How many bytes an element `_id` with an object id takes.
const ID_ELEMENT: usize = 17;

/// The value of the first `_id` of the document. Where there is none, the object id is put first under that key, and
/// is the answer.
///
/// `Malformed` where the elements break off before an `_id`, `TooLong` where the document would pass 2147483647 bytes.
/// Want of memory may stand in the place of `TooLong` and of an answer. A refusal leaves the document as it was.
pub fn get_or_prepend_id_field(
    alloc: Global,
    document: &mut RawDocumentBuf,
    id: ObjectId,
) -> Result<OwnedValue, BsonFault>
    ensures id { IfOk result (λ value. HasIdNow document.old document.new id.0 value.kind value.bytes) }
    ensures malformed { IsErrOf result BsonFault.Malformed ↔ BreaksOff (element_bytes document.old) id_key }
    ensures too_long { IsErrOf result BsonFault.TooLong ↔ (HadMemory result × LacksKey (element_bytes document.old) id_key × (maximum_length < length document.old + length (spell (id_element id.0)))) }
    ensures unchanged { OnErr result (document.new ≡ document.old) }
    ensures refused { IfErr result IdRefuses }
{
    match document.borrow().get_bytes(ID_KEY) {
        Ok(Some((kind, bytes))) => owned(alloc, kind, bytes),
        Ok(None) => prepend_id(alloc, document, id),
        Err(fault) => Err(fault),
    }
}

// A copy of a value by its kind byte and its bytes.
fn owned(alloc: Global, kind: u8, bytes: &[u8]) -> Result<OwnedValue, BsonFault>
    ensures copied { IfOk result (λ value. (value.kind ≡ kind) × (value.bytes ≡ bytes.now)) }
    ensures refused { IfErr result (λ fault. fault ≡ BsonFault.OutOfMemory) }
{
    Ok(OwnedValue {
        kind,
        bytes: Bytes::from_slice(alloc, bytes)?,
    })
}

// Puts the object id first in a document that has no `_id`, and answers it.
fn prepend_id(
    alloc: Global,
    document: &mut RawDocumentBuf,
    id: ObjectId,
) -> Result<OwnedValue, BsonFault>
    ensures id { IfOk result (λ value. (value.kind ≡ 0x07) × (value.bytes ≡ id.0)) }
    ensures first { OnOk result (document.new ≡ enclosed (spell (id_element id.0) ++ element_bytes document.old)) }
    ensures too_long { IsErrOf result BsonFault.TooLong ↔ (HadMemory result × (maximum_length < length document.old + length (spell (id_element id.0)))) }
    ensures unchanged { OnErr result (document.new ≡ document.old) }
    ensures refused { IfErr result PushRefuses }
{
    let value = owned(alloc, kinds::OBJECT_ID, &id.0)?;
    match with_id_first(alloc, document.as_bytes(), id) {
        Ok(with_id) => {
            *document = with_id;
            Ok(value)
        }
        Err(fault) => Err(fault),
    }
}

// A copy of the document with the object id put first.
fn with_id_first(alloc: Global, document: &[u8], id: ObjectId) -> Result<RawDocumentBuf, BsonFault>
    requires { IsFramed document.now }
    ensures first { IfOk result (λ with_id. with_id ≡ enclosed (spell (id_element id.0) ++ element_bytes document.now)) }
    ensures too_long { IsErrOf result BsonFault.TooLong ↔ (maximum_length < length document.now + length (spell (id_element id.0))) }
    ensures refused { IfErr result PushRefuses }
{
    if !has_room_for(document.len(), ID_ELEMENT) {
        return Err(BsonFault::TooLong);
    }
    let mut held = Vec::with_capacity(alloc, document.len() + ID_ELEMENT)?;
    let Ok(()) = held.extend_from_slice(&EMPTY_DOCUMENT) else {
        unreachable!()
    };
    push_element(&mut held, ID_KEY, RawValue::ObjectId(id))?;
    push_elements(&mut held, element_bytes(document))?;
    Ok(RawDocumentBuf { held })
}
