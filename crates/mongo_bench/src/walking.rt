ghost use Rattle.std.specs.Prelude.{◌≡◌, ◌≢◌, ◌<◌, ◌++◌, if◌then◌else◌, OnOk, codes};
ghost use Rattle.std.specs.Fmt.{decimal};
ghost use Rattle.std.specs.Io.KnownBytes.{Appends};
ghost use Rattle.mongo_bench.specs.Task.{HasPrinted, HasPrintedFinding};
ghost use Rattle.mongo_bench.specs.Work.{nothing_done, work_of_pass};

use crate::documents::document_of_shape;
use crate::run::{BenchStatus, RanTask};
use crate::task::{BenchTask, DocumentShape, Pass};
use crate::work::{Work, iterate, judge};
use itoa::Buffer;
use mongo_bson::{RawDocument, RawValue};
use std::alloc::Global;
use std::io;
use std::io::Write;

// How many levels of documents are walked: as many as a readable document may have.
const LEVELS: u32 = 100;

/// Makes the document, passes over it so often, and writes what the last pass found.
pub fn run_walk<W: Write>(
    alloc: Global,
    pass: Pass,
    shape: DocumentShape,
    count: u32,
    out: &mut W,
) -> RanTask
    requires { 0 < count }
    ensures done { result.status ≡ BenchStatus.Done → HasPrinted (BenchTask.Walk pass shape count) (W.contents out.old) (W.contents out.new) }
    ensures work { result.status ≡ BenchStatus.Done → result.work ≡ work_of_pass pass count }
    ensures ran { result.status ≢ BenchStatus.Usage }
{
    match document_of_shape(alloc, shape) {
        Ok(document) => walk(document.borrow(), pass, count, out),
        Err(_) => RanTask::without_memory(),
    }
}

/// Passes over the document so often, and writes what the last pass found.
pub fn walk<W: Write>(document: RawDocument<'_>, pass: Pass, count: u32, out: &mut W) -> RanTask
    requires { 0 < count }
    ensures told { result.status ≡ BenchStatus.Done → HasPrintedFinding pass document.entry.bytes.now (W.contents out.old) (W.contents out.new) }
    ensures work { result.work ≡ work_of_pass pass count }
    ensures ran { result.status ≢ BenchStatus.Usage }
{
    match pass {
        Pass::Iterate => {
            let passed = iterate(document, count);
            RanTask::written(write_number(passed.last, out), passed.work)
        }
        Pass::Readable => {
            let passed = judge(document, count);
            RanTask::written(write_word(passed.last, out), passed.work)
        }
    }
}

/// Makes the document and writes its bytes.
pub fn run_document<W: Write>(alloc: Global, shape: DocumentShape, out: &mut W) -> RanTask
    ensures done { result.status ≡ BenchStatus.Done → HasPrinted (BenchTask.Document shape) (W.contents out.old) (W.contents out.new) }
    ensures work { result.work ≡ nothing_done }
    ensures ran { result.status ≢ BenchStatus.Usage }
{
    match document_of_shape(alloc, shape) {
        Ok(document) => RanTask::written(write_bytes(document.as_bytes(), out), Work::nothing()),
        Err(_) => RanTask::without_memory(),
    }
}

/// How many elements stand in the document and in the documents and arrays inside it, down to 100 levels, up to the first
/// fault in each.
pub fn elements_in(document: RawDocument<'_>) -> usize {
    elements_to(document, LEVELS)
}

// How many elements stand in the document and in the documents and arrays inside it, down to so many levels, up to the
// first fault in each.
fn elements_to(document: RawDocument<'_>, levels: u32) -> usize {
    let mut elements = 0usize;
    if levels == 0 {
        return elements;
    }
    for item in document.iter() {
        let inside = match item {
            Ok((_key, RawValue::Document(inner))) => elements_to(inner, levels - 1),
            Ok((_key, RawValue::Array(inner))) => elements_to(inner, levels - 1),
            Ok(_) => 0,
            Err(_) => return elements,
        };
        elements = elements.wrapping_add(inside).wrapping_add(1);
    }
    elements
}

/// Writes a number in decimal digits and a line feed.
pub fn write_number<W: Write>(number: usize, out: &mut W) -> io::Result<()>
    ensures { OnOk result (Appends (W.contents out.old) (W.contents out.new) (decimal number ++ codes "\n")) }
{
    let mut digits = Buffer::new();
    out.write_all(digits.format(number).as_bytes())?;
    out.write_all(b"\n")?;
    out.flush()
}

// Writes whether a document is readable, in a line.
fn write_word<W: Write>(readable: bool, out: &mut W) -> io::Result<()>
    ensures { OnOk result (Appends (W.contents out.old) (W.contents out.new) (if readable then codes "readable\n" else codes "not readable\n")) }
{
    let word = if readable {
        "readable\n"
    } else {
        "not readable\n"
    };
    write_bytes(word.as_bytes(), out)
}

// Writes bytes.
fn write_bytes<W: Write>(bytes: &[u8], out: &mut W) -> io::Result<()>
    ensures { OnOk result (Appends (W.contents out.old) (W.contents out.new) bytes.now) }
{
    out.write_all(bytes)?;
    out.flush()
}
