ghost use Rattle.std.specs.Prelude.{◌≡◌, ◌+◌, ◌-◌, ◌<◌, ◌≤◌, ◌++◌, length, IfOk, IfErr, OnOk, IsErrOf};
ghost use Rattle.std.specs.List.{AllByRecursion};
ghost use Rattle.mongo_bson.specs.Framed.{element_bytes, enclosed, IsFramed, maximum_length};
ghost use Rattle.mongo_bson.specs.Document.{spell};
ghost use Rattle.mongo_bson.specs.Refusals.{PushRefuses};
ghost use Rattle.mongo_wire.specs.JoinedDocument.{joined_document, JoinRefused, sequence_element, arrays_bytes};
ghost use Rattle.mongo_wire.specs.Measure.{IsWithoutZero};
ghost use Rattle.mongo_wire.specs.Message.{HasNames};

use crate::measure::are_named;
use crate::{ArgumentFault, DocumentSequence, Error, ErrorKind, Message};
use mongo_bson::{BsonFault, RawDocument, RawDocumentBuf, RawValue, to_raw_bson_array};
use std::alloc::Global;

impl Message {
    /// The message as one document: its body, and after it each sequence, in their order, as an array under its
    /// identifier.
    ///
    /// Refusals, in this order: `IdentifierHasZero` where an identifier holds a zero byte, `Bson(TooLong)` where the
    /// document would pass 2147483647 bytes.
    pub fn get_raw_command_document(&self, alloc: Global) -> Result<RawDocumentBuf, Error>
        ensures document { IfOk result (λ document. document ≡ joined_document self.now) }
        ensures named { IfOk result (λ _. HasNames self.now) }
        ensures fits { IfOk result (λ _. length (joined_document self.now) ≤ maximum_length) }
        ensures refused { IfErr result (λ e. JoinRefused e.kind self.now) }
    {
        let sequences = self.document_sequences.as_slice();
        if !are_named(sequences) {
            return Err(Error {
                kind: ErrorKind::InvalidArgument(ArgumentFault::IdentifierHasZero),
            });
        }
        match with_arrays(alloc, &self.document_payload, sequences) {
            Ok(document) => Ok(document),
            Err(fault) => Err(fault.into()),
        }
    }
}

// A copy of the document, and after its elements the sequences as arrays.
//
// `TooLong` where it would pass 2147483647 bytes
fn with_arrays(
    alloc: Global,
    body: &RawDocumentBuf,
    sequences: &[DocumentSequence],
) -> Result<RawDocumentBuf, BsonFault>
    requires { AllByRecursion IsWithoutZero sequences.now }
    ensures document { IfOk result (λ document. document ≡ enclosed (element_bytes body.now ++ arrays_bytes sequences.now)) }
    ensures fits { IfOk result (λ document. length document ≤ maximum_length) }
    ensures too_long { IsErrOf result BsonFault.TooLong → maximum_length < length (enclosed (element_bytes body.now ++ arrays_bytes sequences.now)) }
    ensures refused { IfErr result PushRefuses }
{
    let mut document = copy_of_document(alloc, body.as_bytes())?;
    'adding: for sequence in sequences {
        match add_array(alloc, &mut document, sequence) {
            Ok(()) => {}
            Err(fault) => return Err(fault),
        }
    }
    Ok(document)
}

// A copy of the document that the bytes are. It takes a slice, since its bytes are known to be below 256 there: a document
// is what its body makes only then.
fn copy_of_document(alloc: Global, bytes: &[u8]) -> Result<RawDocumentBuf, BsonFault>
    requires { IsFramed bytes.now }
    ensures copied { IfOk result (λ document. document ≡ enclosed (element_bytes bytes.now)) }
    ensures framed { IfOk result (λ document. IsFramed document) }
    ensures refused { IfErr result (λ fault. fault ≡ BsonFault.OutOfMemory) }
{
    RawDocument::of_framed(bytes).to_raw_document_buf(alloc)
}

// Adds a sequence as an array.
//
// `TooLong` where the document would pass 2147483647 bytes
fn add_array(
    alloc: Global,
    document: &mut RawDocumentBuf,
    sequence: &DocumentSequence,
) -> Result<(), BsonFault>
    requires { IsWithoutZero sequence.now }
    ensures added { OnOk result (document.new ≡ enclosed (element_bytes document.old ++ spell (sequence_element sequence.now))) }
    ensures framed { OnOk result (IsFramed document.new) }
    ensures too_long { IsErrOf result BsonFault.TooLong → maximum_length < length document.old + length (spell (sequence_element sequence.now)) }
    ensures refused { IfErr result PushRefuses }
{
    let array = to_raw_bson_array(alloc, &sequence.documents)?;
    document.append(
        sequence.identifier.as_str(),
        RawValue::Array(array.borrow()),
    )
}
