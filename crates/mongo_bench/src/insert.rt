// An insert of many documents, with every argument that a command can carry.
ghost use Rattle.std.specs.Prelude.{◌≡◌, ◌≢◌, ◌≤◌, ◌+◌, length, Contains, IfOk, OnOk};
ghost use Rattle.mongo_bson.specs.Value.{bytes_of};
ghost use Rattle.mongo_bench.specs.Built.{IsShort, IsSmall};
ghost use Rattle.mongo_bench.specs.Task.{HasPrinted};
ghost use Rattle.mongo_bench.specs.Work.{only_built};

use crate::building::{empty_array, empty_document, push, put};
use crate::run::{BenchStatus, RanTask};
use crate::task::BenchTask;
use crate::walking::write_number;
use crate::work::build;
use mongo_bson::{ObjectId, RawArrayBuf, RawDocumentBuf, RawValue, Text};
use mongo_command::{Command, ServerApi, ServerApiVersion};
use mongo_establish::want_of_memory;
use std::alloc::{AllocError, Global};
use std::io::Write;

// How many documents are inserted.
const DOCUMENTS: u32 = 1_000;

// The name in each document.
const DOCUMENT_NAME: &str = "the name of a document";

// Seconds since 1970, and the bits of the double 1.0.
const SECONDS: u32 = 1_700_000_000;

const ONE: u64 = 0x3ff0_0000_0000_0000;

/// Builds the command so often, and writes how many bytes the last one had.
pub fn run_inserts<W: Write>(alloc: Global, count: u32, out: &mut W) -> RanTask
    ensures done { result.status ≡ BenchStatus.Done → HasPrinted (BenchTask.Insert count) (W.contents out.old) (W.contents out.new) }
    ensures work { result.status ≡ BenchStatus.Done → result.work ≡ only_built count }
    ensures ran { result.status ≢ BenchStatus.Usage }
{
    match build(alloc, count) {
        Ok(passed) => RanTask::written(write_number(passed.last, out), passed.work),
        Err(_) => RanTask::without_memory(),
    }
}

/// The document of the command, from values alone.
pub fn insert_document(alloc: Global) -> Result<RawDocumentBuf, AllocError> {
    let mut command = bare_insert(alloc)?;
    set_session(alloc, &mut command)?;
    set_reads_and_writes(alloc, &mut command)?;
    match command.into_message(alloc) {
        Ok(message) => Ok(message.document_payload),
        Err(error) => Err(want_of_memory(error)),
    }
}

// The command without arguments.
fn bare_insert(alloc: Global) -> Result<Command, AllocError>
    ensures { IfOk result IsSmall }
{
    match Command::new_raw(alloc, "insert", "shop", insert_body(alloc)?) {
        Ok(command) => Ok(command),
        Err(error) => Err(want_of_memory(error)),
    }
}

// The body: the collection, whether the first failure ends the insert, and the documents.
fn insert_body(alloc: Global) -> Result<RawDocumentBuf, AllocError>
    ensures { IfOk result (λ body. length body ≤ 1_000_000) }
{
    let documents = inserted_documents(alloc)?;
    let mut body = empty_document(alloc)?;
    put(&mut body, "insert", RawValue::Str("items"))?;
    put(&mut body, "ordered", RawValue::Bool(true))?;
    put(&mut body, "documents", RawValue::Array(documents.borrow()))?;
    Ok(body)
}

// The documents.
fn inserted_documents(alloc: Global) -> Result<RawArrayBuf, AllocError>
    ensures { IfOk result (λ documents. length documents.document ≤ 900_000) }
{
    let mut documents = empty_array(alloc)?;
    for number in 0..DOCUMENTS {
        let document = inserted(alloc, number)?;
        push(&mut documents, RawValue::Document(document.borrow()))?;
    }
    Ok(documents)
}

// The document of this number.
fn inserted(alloc: Global, number: u32) -> Result<RawDocumentBuf, AllocError>
    ensures { IfOk result (λ document. length document ≤ 500) }
{
    let id = ObjectId([0x5f, 0, 0, 0, 1, 2, 3, 4, 5, 6, 7, 8]);
    let mut document = empty_document(alloc)?;
    put(&mut document, "_id", RawValue::ObjectId(id))?;
    put(&mut document, "name", RawValue::Str(DOCUMENT_NAME))?;
    put(&mut document, "number", RawValue::Int64(i64::from(number)))?;
    put(&mut document, "price", RawValue::Double(ONE))?;
    put(&mut document, "sold", RawValue::Bool(false))?;
    Ok(document)
}

// The arguments of a session and its transaction, and the stable API.
fn set_session(alloc: Global, command: &mut Command) -> Result<(), AllocError>
    requires { IsSmall command.old }
    ensures { OnOk result (IsSmall command.new) }
{
    command.set_session(of_one(alloc, "id", RawValue::Binary(4, b"0123456789abcdef"))?);
    command.set_cluster_time(of_one(alloc, "clusterTime", RawValue::Int64(7))?);
    command.set_server_api(&ServerApi {
        version: ServerApiVersion::V1,
        strict: Some(true),
        deprecation_errors: Some(false),
    });
    command.set_txn_number(1);
    command.set_start_transaction();
    command.set_autocommit();
    command.set_recovery_token(of_one(alloc, "shardId", RawValue::Str("a"))?);
    Ok(())
}

// The read preference and the concerns.
fn set_reads_and_writes(alloc: Global, command: &mut Command) -> Result<(), AllocError>
    requires { IsSmall command.old }
    ensures { OnOk result (IsSmall command.new) }
{
    command.set_read_preference(of_one(alloc, "mode", RawValue::Str("primary"))?);
    command.set_read_concern_level(text_of(alloc, "majority")?);
    command.set_after_cluster_time(Some((SECONDS, 1)));
    command.set_write_concern(of_one(alloc, "w", RawValue::Str("majority"))?);
    Ok(())
}

// A document of one element.
fn of_one(alloc: Global, key: &str, value: RawValue<'_>) -> Result<RawDocumentBuf, AllocError>
    requires named { ¬ Contains key.now 0 }
    requires short { length key.now + length (bytes_of value) ≤ 93 }
    ensures { IfOk result IsShort }
{
    let mut document = empty_document(alloc)?;
    put(&mut document, key, value)?;
    Ok(document)
}

// A text of its own.
fn text_of(alloc: Global, text: &str) -> Result<Text, AllocError>
    ensures { IfOk result (λ copy. copy ≡ text.now) }
{
    match Text::from_slice(alloc, text) {
        Ok(copy) => Ok(copy),
        Err(fault) => Err(want_of_memory(fault.into())),
    }
}
