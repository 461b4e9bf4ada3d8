ghost use Rattle.std.specs.Prelude.{◌≡◌, ◌++◌, ◌∷◌, flat_map, IfOk, IfErr, OnOk};
ghost use Rattle.std.specs.List.{AllByRecursion};
ghost use Rattle.mongo_bson.specs.Framed.{IsFramed, element_bytes, enclosed};
ghost use Rattle.mongo_bson.specs.Document.{spell};
ghost use Rattle.mongo_command.specs.Literal.{text_element, document_of};
ghost use Rattle.mongo_command.specs.Arguments.{field_elements, size_of_elements, IsNamed, TooLongFor};
ghost use Rattle.mongo_command.specs.Keys.{db_key};

use crate::argument_field::{ArgumentField, text_field};
use crate::keys::DB;
use mongo_bson::{BsonFault, Bytes, RawDocumentBuf, RawValue, value_size};
use std::alloc::Global;

// A copy of a document with memory for so many bytes more.
pub(crate) fn copy_with_room(
    alloc: Global,
    document: &RawDocumentBuf,
    room: usize,
) -> Result<RawDocumentBuf, BsonFault>
    ensures copied { IfOk result (λ copy. copy ≡ document.now) }
    ensures refused { IfErr result (λ fault. fault ≡ BsonFault.OutOfMemory) }
{
    let bytes = document.as_bytes();
    let mut copy = Vec::with_capacity(alloc, bytes.len().saturating_add(room))?;
    let Ok(()) = copy.extend_from_slice(bytes) else {
        unreachable!()
    };
    Ok(RawDocumentBuf::of_framed(Bytes::from_vec(copy)))
}

// How many bytes `$db` and the fields that are there take in a document, for which memory is taken ahead: as many as a `usize`
// says, where they are more.
pub(crate) fn size_of_arguments(target_db: &str, fields: &[ArgumentField<'_>]) -> usize
    ensures { result ≡ size_of_elements (text_element db_key target_db.now ∷ flat_map field_elements fields.now) }
{
    size_of_field(&text_field(DB, target_db)).saturating_add(size_of_fields(fields))
}

// How many bytes fields take.
fn size_of_fields(fields: &[ArgumentField<'_>]) -> usize
    ensures { result ≡ size_of_elements (flat_map field_elements fields.now) }
{
    let mut size: usize = 0;
    for field in fields {
        size = size.saturating_add(size_of_field(field));
    }
    size
}

// How many bytes a field takes in a document: its kind, its key, a zero and its value.
fn size_of_field(field: &ArgumentField<'_>) -> usize
    ensures { result ≡ size_of_elements (field_elements field.now) }
{
    match field {
        Some((key, value)) => value_size(*value)
            .saturating_add(key.len())
            .saturating_add(2),
        None => 0,
    }
}

// Puts `$db` and the fields that are there at the end of a document.
pub(crate) fn append_arguments(
    document: &mut RawDocumentBuf,
    target_db: &str,
    fields: &[ArgumentField<'_>],
) -> Result<(), BsonFault>
    requires named { AllByRecursion IsNamed fields.now }
    ensures added { OnOk result (document.new ≡ enclosed (element_bytes document.old ++ flat_map spell (text_element db_key target_db.now ∷ flat_map field_elements fields.now))) }
    ensures framed { OnOk result (IsFramed document.new) }
    ensures refused { IfErr result (λ fault. TooLongFor fault (enclosed (element_bytes document.old ++ flat_map spell (text_element db_key target_db.now ∷ flat_map field_elements fields.now)))) }
{
    document.append(DB, RawValue::Str(target_db))?;
    append_fields(document, fields)
}

/// The document of the fields that are there, in their order.
///
/// `TooLong` where it would pass 2147483647 bytes.
pub fn document_of(alloc: Global, fields: &[ArgumentField<'_>]) -> Result<RawDocumentBuf, BsonFault>
    requires named { AllByRecursion IsNamed fields.now }
    ensures document { IfOk result (λ document. document ≡ document_of (flat_map field_elements fields.now)) }
    ensures framed { IfOk result (λ document. IsFramed document) }
    ensures refused { IfErr result (λ fault. TooLongFor fault (document_of (flat_map field_elements fields.now))) }
{
    let mut document = RawDocumentBuf::new(alloc)?;
    append_fields(&mut document, fields)?;
    Ok(document)
}

// Puts the fields that are there at the end of a document, in their order.
fn append_fields(
    document: &mut RawDocumentBuf,
    fields: &[ArgumentField<'_>],
) -> Result<(), BsonFault>
    requires framed { IsFramed document.old }
    requires sealed { document.old ≡ enclosed (element_bytes document.old) }
    requires named { AllByRecursion IsNamed fields.now }
    ensures added { OnOk result (document.new ≡ enclosed (element_bytes document.old ++ flat_map spell (flat_map field_elements fields.now))) }
    ensures framed { OnOk result (IsFramed document.new) }
    ensures refused { IfErr result (λ fault. TooLongFor fault (enclosed (element_bytes document.old ++ flat_map spell (flat_map field_elements fields.now)))) }
{
    for field in fields {
        append_field(document, *field)?;
    }
    Ok(())
}

// Puts a field at the end of a document, where it is there.
fn append_field(document: &mut RawDocumentBuf, field: ArgumentField<'_>) -> Result<(), BsonFault>
    requires framed { IsFramed document.old }
    requires sealed { document.old ≡ enclosed (element_bytes document.old) }
    requires named { IsNamed field }
    ensures added { OnOk result (document.new ≡ enclosed (element_bytes document.old ++ flat_map spell (field_elements field.entry))) }
    ensures framed { OnOk result (IsFramed document.new) }
    ensures refused { IfErr result (λ fault. TooLongFor fault (enclosed (element_bytes document.old ++ flat_map spell (field_elements field.entry)))) }
{
    match field {
        Some((key, value)) => document.append(key, value),
        None => Ok(()),
    }
}
