ghost use Rattle.std.specs.Prelude.{◌≡◌, ◌+◌, ◌<◌, ◌≤◌, length, IfSome, IfNone, IfOk, IfErr};
ghost use Rattle.std.specs.List.{AllByRecursion};
ghost use Rattle.mongo_bson.specs.Framed.{IsFramed, maximum_length};
ghost use Rattle.mongo_wire.specs.Frame.{sequence_bytes};
ghost use Rattle.mongo_wire.specs.Measure.{HasCountedSize, HoldsDocuments, documents_bytes};

use mongo_bson::{BsonFault, Documents, Items, MAXIMUM_LENGTH, RawDocumentBuf, Text, TryClone};
use std::alloc::Global;

/// A section of kind 1: an identifier and the documents of the field that it names.
#[derive(Debug, Drop)]
pub struct DocumentSequence {
    /// The field's name, without a zero byte.
    pub identifier: Text,
    /// The documents.
    pub documents: Documents,
}

impl DocumentSequence {
    /// A copy of the sequence.
    pub fn try_clone(&self, alloc: Global) -> Result<DocumentSequence, BsonFault>
        ensures copied { IfOk result (λ sequence. sequence ≡ self.now) }
        ensures refused { IfErr result (λ fault. fault ≡ BsonFault.OutOfMemory) }
    {
        Ok(DocumentSequence {
            identifier: self.identifier.try_clone(alloc)?,
            documents: self.documents.try_clone(alloc)?,
        })
    }

    /// The size that the sequence's section tells: 4 bytes for the size itself, the identifier and its zero, the documents.
    /// `None` where an `int32` doesn't count it.
    pub fn size(&self) -> Option<u32>
        ensures size { IfSome result (λ size. size ≡ 4 + length (sequence_bytes self.now)) }
        ensures counted { IfSome result (λ _. HasCountedSize self.now) }
        ensures documents { IfSome result (λ _. HoldsDocuments self.now) }
        ensures none { IfNone result (¬ HasCountedSize self.now) }
    {
        let identifier = self.identifier.as_bytes();
        if identifier.len() > MAXIMUM_LENGTH - 5 {
            return None;
        }
        let room = MAXIMUM_LENGTH - 5 - identifier.len();
        match documents_size(self.documents.as_slice(), room) {
            Some(size) => Some((identifier.len() + 5 + size) as u32),
            None => None,
        }
    }
}

impl TryClone for DocumentSequence {
    fn try_clone(&self, alloc: Global) -> Result<DocumentSequence, BsonFault> {
        DocumentSequence::try_clone(self, alloc)
    }
}

/// A list of document sequences.
pub type Sequences = Items<DocumentSequence>;

// How many bytes the documents take. None where it is more than there is room for.
fn documents_size(documents: &[RawDocumentBuf], room: usize) -> Option<usize>
    requires { room ≤ maximum_length }
    ensures size { IfSome result (λ size. size ≡ length (documents_bytes documents.now)) }
    ensures within { IfSome result (λ size. size ≤ room) }
    ensures framed { IfSome result (λ _. AllByRecursion IsFramed documents.now) }
    ensures none { IfNone result (room < length (documents_bytes documents.now)) }
{
    let mut size = 0;
    'adding: for document in documents {
        let length = document.as_bytes().len();
        if length > room - size {
            return None;
        }
        size += length;
    }
    Some(size)
}
