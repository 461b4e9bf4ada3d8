ghost use Rattle.std.specs.Prelude.{◌≡◌, ◌↔◌, ◌∷◌, [], ℕ, List, true, flat_map, IsTrue, MatchOption, IfOk, IfErr};
ghost use Rattle.std.specs.List.{AllByRecursion};
ghost use Rattle.mongo_bson.specs.Framed.{IsFramed};
ghost use Rattle.mongo_wire.specs.Frame.{IsSequence};
ghost use Rattle.mongo_wire.specs.Sections.{AreDocuments, ShowsSequence};
ghost use Rattle.mongo_wire.specs.Copies.{copies_with};
ghost use Rattle.mongo_wire.specs.declared.document_sequence.DocumentSequence.{DocumentSequence as SequenceValue};

use crate::sections::SequenceRef;
use crate::{DocumentSequence, Sequences};
use mongo_bson::{BsonFault, Documents, Text, take_document};
use std::alloc::Global;

// Whether documents fill the sequence. Where copies are wanted, it is copied behind them while it is judged.
pub(crate) fn judge_sequence(
    alloc: Global,
    sequence: SequenceRef<'_>,
    copies: &mut Option<Sequences>,
) -> Result<bool, BsonFault>
    ensures judged { IfOk result (λ filled. IsTrue filled ↔ AreDocuments sequence.entry.documents.now) }
    ensures copied { (s : SequenceValue) → IsSequence s → ShowsSequence s sequence.entry → IfOk result (λ filled. filled ≡ true → copies.new ≡ copies_with copies.old (s ∷ [])) }
    ensures refused { IfErr result (λ fault. fault ≡ BsonFault.OutOfMemory) }
{
    match copies {
        Some(copies) => match copy_of_sequence(alloc, sequence)? {
            Some(copy) => {
                copies.push(copy)?;
                Ok(true)
            }
            None => Ok(false),
        },
        None => Ok(are_documents(sequence.documents)),
    }
}

// A copy of the sequence. None where documents don't fill it.
fn copy_of_sequence(
    alloc: Global,
    sequence: SequenceRef<'_>,
) -> Result<Option<DocumentSequence>, BsonFault>
    ensures copied { IfOk result (λ found. MatchOption found (¬ AreDocuments sequence.entry.documents.now) (λ copy. AllByRecursion IsFramed copy.documents × ShowsSequence copy sequence.entry)) }
    ensures refused { IfErr result (λ fault. fault ≡ BsonFault.OutOfMemory) }
{
    match copies_of_documents(alloc, sequence.documents)? {
        Some(documents) => Ok(Some(DocumentSequence {
            identifier: Text::from_slice(alloc, sequence.identifier)?,
            documents,
        })),
        None => Ok(None),
    }
}

// Copies of the documents that fill the bytes, one after another. None where none do.
fn copies_of_documents(alloc: Global, bytes: &[u8]) -> Result<Option<Documents>, BsonFault>
    ensures copied { IfOk result (λ found. MatchOption found (¬ AreDocuments bytes.now) (λ documents. AllByRecursion IsFramed documents × (bytes.now ≡ flat_map (λ d. d) documents))) }
    ensures refused { IfErr result (λ fault. fault ≡ BsonFault.OutOfMemory) }
{
    let mut documents = Documents::new(alloc);
    let mut rest = bytes;
    'documents: while !rest.is_empty() {
        match take_document(rest) {
            Some((document, after)) => {
                documents.push(document.to_raw_document_buf(alloc)?)?;
                rest = after;
            }
            None => return Ok(None),
        }
    }
    Ok(Some(documents))
}

// Whether documents fill the bytes, one after another.
fn are_documents(bytes: &[u8]) -> bool
    ensures { IsTrue result ↔ AreDocuments bytes.now }
{
    let mut rest = bytes;
    'documents: while !rest.is_empty() {
        match take_document(rest) {
            Some((_document, after)) => rest = after,
            None => return false,
        }
    }
    true
}
