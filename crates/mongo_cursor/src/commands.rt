ghost use Rattle.std.specs.Prelude.{◌≡◌, ◌∷◌, [], Contains, IfOk, IfErr};
ghost use Rattle.mongo_command.specs.Command.{command_document};
ghost use Rattle.mongo_command.specs.Exchange.{DocumentRefused};
ghost use Rattle.mongo_command.specs.Arguments.{field_elements, IsNamed};
ghost use Rattle.mongo_command.specs.Literal.{array_element};
ghost use Rattle.mongo_cursor.specs.Commands.{get_more_command, kill_cursors_command, kill_command, cursors_array};

use crate::namespace::Namespace;
use mongo_bson::{BsonFault, RawDocumentBuf, RawValue};
use mongo_command::{ArgumentField, Command, document_of, int64_field, text_field};
use mongo_wire::Error;
use std::alloc::Global;

// The name of the command that asks for the next batch, and the key of the cursor's id in its body.
const GET_MORE: &str = "getMore";

// The key of the collection in it.
const COLLECTION: &str = "collection";

// The name of the command that closes cursors, and the key of the collection in its body.
const KILL_CURSORS: &str = "killCursors";

// The key of their ids in it.
const CURSORS: &str = "cursors";

// The command that asks for the next batch of a cursor.
//
// `Bson(TooLong)` where its document would pass 2147483647 bytes.
pub(crate) fn get_more(alloc: Global, namespace: &Namespace, id: i64) -> Result<Command, Error>
    ensures command { IfOk result (λ command. command ≡ get_more_command namespace.now id) }
    ensures refused { IfErr result (λ e. DocumentRefused e.kind (command_document (get_more_command namespace.now id))) }
{
    let body = document_of(
        alloc,
        &[
            int64_field(GET_MORE, id),
            text_field(COLLECTION, namespace.collection.as_str()),
        ],
    )?;
    Command::new_raw(alloc, GET_MORE, namespace.db.as_str(), body)
}

// The command that closes a cursor.
//
// `Bson(TooLong)` where its document would pass 2147483647 bytes.
pub(crate) fn kill_cursors(alloc: Global, namespace: &Namespace, id: i64) -> Result<Command, Error>
    ensures command { IfOk result (λ command. command ≡ kill_cursors_command namespace.now id) }
    ensures refused { IfErr result (λ e. DocumentRefused e.kind (command_document (kill_cursors_command namespace.now id))) }
{
    let cursors = cursors_array(alloc, id)?;
    kill_command(alloc, namespace, &cursors)
}

// The array of one cursor's id.
fn cursors_array(alloc: Global, id: i64) -> Result<RawDocumentBuf, BsonFault>
    ensures array { IfOk result (λ array. array ≡ cursors_array id) }
    ensures refused { IfErr result (λ fault. fault ≡ BsonFault.OutOfMemory) }
{
    document_of(alloc, &[int64_field("0", id)])
}

// The command that closes the cursors of an array of ids.
fn kill_command<'a>(
    alloc: Global,
    namespace: &'a Namespace,
    cursors: &'a RawDocumentBuf,
) -> Result<Command, Error>
    ensures command { IfOk result (λ command. command ≡ kill_command namespace.now cursors.now) }
    ensures refused { IfErr result (λ e. DocumentRefused e.kind (command_document (kill_command namespace.now cursors.now))) }
{
    let body = document_of(
        alloc,
        &[
            text_field(KILL_CURSORS, namespace.collection.as_str()),
            array_field(CURSORS, cursors),
        ],
    )?;
    Command::new_raw(alloc, KILL_CURSORS, namespace.db.as_str(), body)
}

// The field `key`, an array: a document whose keys are numbers.
fn array_field<'a>(key: &'static str, array: &'a RawDocumentBuf) -> ArgumentField<'a>
    requires { ¬ Contains key.now 0 }
    ensures elements { field_elements result ≡ array_element key.now array.now ∷ [] }
    ensures named { IsNamed result }
{
    Some((key, RawValue::Array(array.borrow())))
}
