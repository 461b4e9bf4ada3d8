ghost use Rattle.std.specs.Prelude.{◌≡◌, ◌+◌, ◌≤◌, ℕ, length, take, IfOk, IfErr};
ghost use Rattle.mongo_wire.specs.Measure.{documents_bytes};

use mongo_bson::{BsonFault, Documents, RawDocumentBuf};
use std::alloc::Global;

// How many of the documents, from their front, take no more bytes than there is room for, and are no more than so many.
pub(crate) fn batch_length(documents: &[RawDocumentBuf], most: usize, room: usize) -> usize
    ensures within { result ≤ length documents.now }
    ensures few { result ≤ most }
    ensures short { length (documents_bytes (take result documents.now)) ≤ room }
    ensures greatest { (n : ℕ) → n ≤ length documents.now → n ≤ most → length (documents_bytes (take n documents.now)) ≤ room → n ≤ result }
{
    let mut count = 0;
    let mut size = 0;
    'cutting: for document in documents {
        let length = document.as_bytes().len();
        if count == most || length > room - size {
            return count;
        }
        count += 1;
        size += length;
    }
    count
}

// Copies of the documents.
pub(crate) fn copies_of(alloc: Global, documents: &[RawDocumentBuf]) -> Result<Documents, BsonFault>
    ensures copied { IfOk result (λ copies. copies ≡ documents.now) }
    ensures refused { IfErr result (λ fault. fault ≡ BsonFault.OutOfMemory) }
{
    let mut copies = Documents::new(alloc);
    'copying: for document in documents {
        copies.push(document.try_clone(alloc)?)?;
    }
    Ok(copies)
}
