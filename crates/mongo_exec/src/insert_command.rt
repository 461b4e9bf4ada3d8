ghost use Rattle.std.specs.Prelude.{◌≡◌, ◌≤◌, ◌∷◌, [], length, IfOk, IfErr, OnOk};
ghost use Rattle.mongo_bson.specs.Framed.{maximum_length};
ghost use Rattle.mongo_wire.specs.declared.error.ErrorKind.TheVariants.{OutOfMemory};
ghost use Rattle.mongo_command.specs.Command.{command_document};
ghost use Rattle.mongo_command.specs.Exchange.{DocumentRefused};
ghost use Rattle.mongo_command.specs.Collection.{frame_size};
ghost use Rattle.mongo_exec.specs.Insert.{insert_of, bare_command, insert_document, documents_sequence};

use crate::batch::copies_of;
use mongo_bson::{RawDocumentBuf, Text};
use mongo_command::{Command, boolean_field, document_of, text_field};
use mongo_wire::{Error, Header};
use std::alloc::Global;

// The name of the command, and the key of the collection in its body.
const INSERT: &str = "insert";

// The key that says whether the first refused write ends an insert.
const ORDERED: &str = "ordered";

// The identifier of the sequence that holds the documents.
const DOCUMENTS: &str = "documents";

// How many bytes a frame has beside the command's document and the documents of its one sequence: the header and the flags,
// the kinds of two sections, the size of the second and its identifier with a zero.
const FRAME_OVERHEAD: usize = Header::LENGTH + 4 + 1 + 1 + 4 + DOCUMENTS.len() + 1;

// The insert command without documents.
//
// `Bson(TooLong)` where its body alone would pass 2147483647 bytes.
pub(crate) fn bare_command(
    alloc: Global,
    db: &str,
    collection: &str,
    ordered: bool,
) -> Result<Command, Error>
    ensures command { IfOk result (λ command. command ≡ bare_command (insert_of db.now collection.now ordered)) }
    ensures refused { IfErr result (λ e. DocumentRefused e.kind (insert_document (insert_of db.now collection.now ordered))) }
{
    let body = document_of(
        alloc,
        &[
            text_field(INSERT, collection),
            boolean_field(ORDERED, ordered),
        ],
    )?;
    Command::new_raw(alloc, INSERT, db, body)
}

// How many bytes the frame of an insert without documents has, by the command without its sequence.
//
// `Bson(TooLong)` where the command's document would pass 2147483647 bytes.
pub(crate) fn bare_size(alloc: Global, command: &Command) -> Result<usize, Error>
    ensures size { IfOk result (λ size. size ≡ frame_size (record command.now { document_sequences = documents_sequence [] ∷ [] })) }
    ensures fits { OnOk result (length (command_document command.now) ≤ maximum_length) }
    ensures refused { IfErr result (λ e. DocumentRefused e.kind (command_document command.now)) }
{
    let document = command.to_document(alloc)?;
    Ok(FRAME_OVERHEAD + document.as_bytes().len())
}

// The insert of documents: the command without them, and copies of them in a sequence.
pub(crate) fn command_with(
    alloc: Global,
    command: &Command,
    documents: &[RawDocumentBuf],
) -> Result<Command, Error>
    requires { command.now.document_sequences ≡ [] }
    ensures command { IfOk result (λ whole. whole ≡ record command.now { document_sequences = documents_sequence documents.now ∷ [] }) }
    ensures refused { IfErr result (λ e. e.kind ≡ OutOfMemory) }
{
    let mut whole = command.try_clone(alloc)?;
    let identifier = Text::from_slice(alloc, DOCUMENTS)?;
    whole.add_document_sequence(identifier, copies_of(alloc, documents)?)?;
    Ok(whole)
}
