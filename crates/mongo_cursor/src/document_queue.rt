ghost use Rattle.std.specs.Prelude.{◌≡◌, ◌++◌, [], ◌∷◌, ◌<◌, ◌↔◌, length, option_to_list, IsSome, IfErr, OnOk};
ghost use Rattle.mongo_command.specs.Fields.{Answers};
ghost use Rattle.mongo_cursor.specs.Batch.{HoldsDocuments};

use mongo_bson::{BsonFault, RawDocument, RawDocumentBuf, RawValue};
use mongo_command::{FieldFault, FieldValue};
use std::alloc::Global;
use std::collections::VecDeque;
use std::marker::Model;

/// Documents that are handed out from the front. Contracts see the list of their bytes.
#[derive(Debug, Drop)]
pub(crate) struct DocumentQueue {
    queue: VecDeque<RawDocumentBuf>,
}

impl Model for DocumentQueue {
    ghost use Rattle.std.specs.Prelude.{List, ℕ};

    ghost Value = { List (List ℕ) };

    ghost view = { λ d. d.queue.items };
}

impl DocumentQueue {
    // No documents. It takes no memory.
    pub(crate) fn new(alloc: Global) -> DocumentQueue
        ensures { result ≡ [] }
    {
        DocumentQueue {
            queue: VecDeque::new(alloc),
        }
    }

    // Puts a document at the end.
    pub(crate) fn push(&mut self, document: RawDocumentBuf) -> Result<(), BsonFault>
        ensures added { OnOk result (self.new ≡ self.old ++ document ∷ []) }
        ensures refused { IfErr result (λ fault. fault ≡ BsonFault.OutOfMemory) }
    {
        self.queue.push_back(document)?;
        Ok(())
    }

    // Takes the first document, where there is one. It takes no memory.
    pub(crate) fn pop_front(&mut self) -> Option<RawDocumentBuf>
        ensures taken { self.old ≡ option_to_list result ++ self.new }
        ensures none { IsSome result ↔ (0 < length self.old) }
    {
        self.queue.pop_front()
    }
}

impl FieldValue for DocumentQueue {
    ghost use Rattle.mongo_cursor.specs.Batch.{ReadsDocuments};

    ghost reads = { ReadsDocuments };

    fn read(alloc: Global, value: RawValue<'_>) -> Result<DocumentQueue, FieldFault> {
        match value {
            RawValue::Array(array) => documents_in(alloc, array),
            _ => Err(FieldFault::Unreadable),
        }
    }
}

// Copies of the documents of an array of documents alone.
fn documents_in(alloc: Global, array: RawDocument<'_>) -> Result<DocumentQueue, FieldFault>
    ensures { Answers HoldsDocuments array.entry.bytes.now result }
{
    let mut documents = DocumentQueue::new(alloc);
    for item in array.iter() {
        let Ok((_index, value)) = item else {
            return Err(FieldFault::Unreadable);
        };
        let document = RawDocumentBuf::read(alloc, value)?;
        documents.push(document)?;
    }
    Ok(documents)
}
