use super::notation::document;
use super::rows::{RowCheck, check_rows, parts, wants_piece};
use super::{Answered, printed, response};
use mongo_bson::{RawArrayBuf, RawDocumentBuf, RawValue};
use mongo_command::{RawCommandResponse, command_body};
use mongo_wire::{Error, ErrorKind, WriteErrors};
use std::alloc::Global;
use std::test::Fail;

// One of the calls that judge a reply. The single write and the insert of many give nothing where they succeed, the count
// gives a number, and the others give the reply's document.
#[derive(Clone, Copy)]
enum Call {
    SingleWrite,
    InsertMany,
    Count,
    CommandBody,
    Body,
    AuthBody,
}

fn single_write(alloc: Global, reply: &RawCommandResponse) -> Result<String, Fail> {
    printed(alloc, reply.validate_single_write(alloc))
}

fn insert_many(alloc: Global, reply: &RawCommandResponse) -> Result<(), Error> {
    reply.validate_insert_many(alloc)
}

fn count(alloc: Global, reply: &RawCommandResponse) -> Result<String, Fail> {
    printed(alloc, reply.extract_n())
}

fn succeeded(alloc: Global, reply: &RawCommandResponse) -> Result<String, Fail> {
    printed(alloc, command_body(alloc, reply))
}

fn body(alloc: Global, reply: &RawCommandResponse) -> Result<String, Fail> {
    printed(alloc, reply.body(alloc))
}

fn auth_body(alloc: Global, reply: &RawCommandResponse) -> Result<String, Fail> {
    printed(alloc, reply.auth_response_body(alloc))
}

// What a call answers of a reply, as it is printed.
fn answer(alloc: Global, call: Call, reply: &RawCommandResponse) -> Result<String, Fail> {
    match call {
        Call::SingleWrite => single_write(alloc, reply),
        Call::InsertMany => printed(alloc, insert_many(alloc, reply)),
        Call::Count => count(alloc, reply),
        Call::CommandBody => succeeded(alloc, reply),
        Call::Body => body(alloc, reply),
        Call::AuthBody => auth_body(alloc, reply),
    }
}

// The same of the reply of these fields.
fn told(alloc: Global, call: Call, fields: &str) -> Result<String, Fail> {
    let reply = response(alloc, document(alloc, fields)?)?;
    answer(alloc, call, &reply)
}

// What a call answers holds a piece: a row has the piece behind the reply's fields and an arrow.
impl RowCheck for Call {
    fn check(self, alloc: Global, row: &str) -> Result<(), Fail> {
        let (fields, piece) = parts(row);
        wants_piece(row, piece, told(alloc, self, fields)?)
    }
}

// Two calls of which each answers so: a row has both pieces behind arrows, or one piece for both.
#[derive(Clone, Copy)]
struct Both {
    first: Call,
    second: Call,
}

impl RowCheck for Both {
    fn check(self, alloc: Global, row: &str) -> Result<(), Fail> {
        let (fields, pieces) = parts(row);
        let (first, second) = pieces.split_once(" => ").unwrap_or((pieces, pieces));
        wants_piece(row, first, told(alloc, self.first, fields)?)?;
        wants_piece(row, second, told(alloc, self.second, fields)?)
    }
}

const WRITE_CALLS: Both = Both {
    first: Call::SingleWrite,
    second: Call::InsertMany,
};

// Replies, what they say of a single write, and what of an insert of many.
const WRITES: &str = r#"ok=int:1 => Ok(()) => Ok(())
ok=int:1 ok=int:1 => InvalidResponse(Body)
writeErrors=int:1 writeConcernError=int:1 errorLabels=int:1 => InvalidResponse(Body)
writeErrors=null writeConcernError=null errorLabels=null => Ok(()) => Ok(())
writeErrors=[ 0={ index=int:0 code=int:11000 } ] errorLabels=null => Err(Error { kind: Write(WriteFailure { cause: WriteError(WriteError { code: 11000, code_name: None, message: Text { text: "" }, details: None }), labels: Items { held: [] } }) }) => Err(Error { kind: InsertMany(InsertManyError { write_errors: Some(Items { held: [IndexedWriteError { index: 0, error: WriteError { code: 11000, code_name: None, message: Text { text: "" }, details: None } }] }), write_concern_error: None, labels: Items { held: [] } }) })
writeConcernError={ code=int:64 errorLabels=[ 0=text:b ] } errorLabels=[ 0=text:a ] => Err(Error { kind: Write(WriteFailure { cause: WriteConcernError(WriteConcernError { code: 64, code_name: Text { text: "" }, message: Text { text: "" }, details: None, labels: Items { held: [Text { text: "b" }] } }), labels: Items { held: [Text { text: "a" }] } }) }) => InsertMany(InsertManyError { write_errors: None, write_concern_error: Some(WriteConcernError { code: 64,
writeErrors=[ 0={ index=int:0 code=int:11000 } ] writeConcernError={ code=int:64 } => cause: WriteError(WriteError { code: 11000 => InsertMany(InsertManyError { write_errors: Some(
writeErrors=[ ] errorLabels=[ ] => Ok(()) => InsertMany(
writeErrors=[ ] writeConcernError={ code=int:64 } errorLabels=[ ] => cause: WriteConcernError( => InsertMany(
writeErrors=int:1 => InvalidResponse(Body)
writeErrors=[ 0=int:1 ] => InvalidResponse(Body)
writeErrors={ code=int:11000 } => InvalidResponse(Body)
writeConcernError=int:1 => InvalidResponse(Body)
writeConcernError=[ 0={ index=int:0 code=int:11000 } ] => InvalidResponse(Body)
writeErrors=[ 0={ index=int:0 code=int:11000 } ] errorLabels=[ 0=int:1 ] => InvalidResponse(Body)
errorLabels=int:1 => InvalidResponse(Body)"#;

// Fields of a write error, and what a single write and an insert of many say of them.
const ERRORS: &str =
    r#"index=int:0 code=int:11000 errmsg=text:twice codeName=text:DuplicateKey => WriteError { code: 11000, code_name: Some(Text { text: "DuplicateKey" }), message: Text { text: "twice" }
code=int:11000 => InvalidResponse(Body)
index=int:0 => InvalidResponse(Body)
index=int:-1 code=int:11000 => InvalidResponse(Body)
index=long:4294967295 code=int:11000 => Err(Error { kind: Write( => index: 4294967295,
index=long:4294967296 code=int:11000 => InvalidResponse(Body)
index=double:3ff0000000000000 code=int:11000 => InvalidResponse(Body)
index=int:0 code=long:-2147483648 => WriteError { code: -2147483648,
index=int:0 code=long:2147483648 => InvalidResponse(Body)
index=int:0 code=null => InvalidResponse(Body)
index=int:0 code=int:1 codeName=null => WriteError { code: 1, code_name: None
index=int:0 code=int:1 codeName=int:1 => InvalidResponse(Body)
index=int:0 code=int:1 errmsg=null => InvalidResponse(Body)
index=int:0 code=int:1 errmsg=int:1 => InvalidResponse(Body)
index=int:0 code=int:1 errInfo=null => details: None
index=int:0 code=int:1 errInfo={ } => details: Some(RawDocumentBuf { held: [5, 0, 0, 0, 0] })
index=int:0 code=int:1 errInfo=[ ] => InvalidResponse(Body)
index=int:0 code=int:1 code=int:1 => InvalidResponse(Body)"#;

// Both calls of writes answer so of the reply that has the write error of a row.
#[derive(Clone, Copy)]
struct WriteErrorCalls;

impl RowCheck for WriteErrorCalls {
    fn check(self, alloc: Global, row: &str) -> Result<(), Fail> {
        let (fields, pieces) = parts(row);
        let whole = format!(in alloc; "writeErrors=[ 0={{ {fields} }} ] => {pieces}")?;
        WRITE_CALLS.check(alloc, whole.as_str())
    }
}

#[test]
fn a_reply_says_what_was_refused(rt: HostRuntime) -> Result<(), Fail> {
    check_rows(rt.alloc(), WRITE_CALLS, WRITES)?;
    check_rows(rt.alloc(), WriteErrorCalls, ERRORS)
}

// Puts a write error of this place at the end.
fn push_error(alloc: Global, errors: &mut RawArrayBuf, index: u32) -> Result<(), Fail> {
    let fields = format!(in alloc; "index=long:{index} code=int:11000")?;
    let error = document(alloc, fields.as_str())?;
    Ok(errors.push(RawValue::Document(error.borrow()))?)
}

// So many write errors.
fn many_errors(alloc: Global, count: u32) -> Result<RawArrayBuf, Fail> {
    let mut errors = RawArrayBuf::new(alloc)?;
    for index in 0..count {
        push_error(alloc, &mut errors, index)?;
    }
    Ok(errors)
}

// The reply that has these write errors.
fn refusing(alloc: Global, errors: &RawArrayBuf) -> Result<RawDocumentBuf, Fail> {
    let mut reply = RawDocumentBuf::new(alloc)?;
    reply.append("writeErrors", RawValue::Array(errors.borrow()))?;
    Ok(reply)
}

// What is asked of an error: how many write errors an insert has, and the place of the last of them.
trait CountsErrors {
    fn count_and_last(&self) -> Option<(usize, u32)>;
}

impl CountsErrors for Error {
    fn count_and_last(&self) -> Option<(usize, u32)> {
        match &self.kind {
            ErrorKind::InsertMany(failure) => last_of(failure.write_errors.as_ref()?),
            _ => None,
        }
    }
}

// The same of an insert, or none where it wasn't refused.
fn count_and_last<E: CountsErrors + Drop>(answer: Result<(), E>) -> Option<(usize, u32)> {
    let inserted = Answered { answer };
    match &inserted.answer {
        Ok(()) => None,
        Err(error) => error.count_and_last(),
    }
}

fn last_of(errors: &WriteErrors) -> Option<(usize, u32)> {
    let last = errors.as_slice().last()?;
    Some((errors.len(), last.index))
}

// The same of the insert of so many documents each of which is refused.
fn count_and_last_of(alloc: Global, count: u32) -> Result<Option<(usize, u32)>, Fail> {
    let errors = many_errors(alloc, count)?;
    let reply = response(alloc, refusing(alloc, &errors)?)?;
    Ok(count_and_last(insert_many(alloc, &reply)))
}

#[test]
fn a_hundred_thousand_write_errors_are_read_in_time(rt: HostRuntime) -> Result<(), Fail> {
    let counted = count_and_last_of(rt.alloc(), 100_000)?;
    assert_eq!(rt; counted, Some((100_000, 99_999)));
    Ok(())
}

// The doubles are 3.0 and 1.5.
const COUNTS: &str = "n=double:4008000000000000 => Ok(3)
n=int:7 n=double:3ff8000000000000 => Ok(7)
n=double:3ff8000000000000 => Err(Error { kind: InvalidResponse(NNotNumber) })
n=long:-1 => Err(Error { kind: InvalidResponse(NNotNumber) })
n=text:1 => Err(Error { kind: InvalidResponse(NNotNumber) })
ok=int:1 => Err(Error { kind: InvalidResponse(NoN) })
b=broken n=int:1 => Err(Error { kind: InvalidResponse(Body) })
n=int:1 b=broken => Ok(1)
b=broken => Err(Error { kind: InvalidResponse(Body) })";

// The reply to a command that failed is a command error, whatever write errors it holds.
const COMMANDS: &str =
    r#"ok=double:3ff0000000000000 => Ok(RawDocument { bytes: [17, 0, 0, 0, 1, 111, 107, 0, 0, 0, 0, 0, 0, 0, 240, 63, 0] })
ok=int:0 code=int:11000 errmsg=text:d writeErrors=[ 0={ index=int:0 code=int:11000 } ] => Err(Error { kind: Command(CommandError { code: 11000, code_name: Text { text: "" }, message: Text { text: "d" }, labels: Items { held: [] } }) })
ok=int:0 => Err(Error { kind: InvalidResponse(Body) })
 => Err(Error { kind: InvalidResponse(Body) })
ok=int:1 ok=int:1 => Err(Error { kind: InvalidResponse(Body) })"#;

// The second of these as the reply to an insert of many.
const FAILED: &str =
    "ok=int:0 code=int:11000 errmsg=text:d writeErrors=[ 0={ index=int:0 code=int:11000 } ] => Err(Error { kind: InsertMany(";

// A well formed document, one with a key twice, and one that isn't readable.
const BODIES: &str =
    "a=null => Ok(RawDocument { bytes: [8, 0, 0, 0, 10, 97, 0, 0] }) => Ok(RawDocument { bytes: [8, 0, 0, 0, 10, 97, 0, 0] })
a=null a=null => InvalidResponse(Body) => Authentication(Malformed)
a=broken => InvalidResponse(Body) => Authentication(Malformed)";

const BODY_CALLS: Both = Both {
    first: Call::Body,
    second: Call::AuthBody,
};

#[test]
fn a_reply_has_a_count(rt: HostRuntime) -> Result<(), Fail> {
    check_rows(rt.alloc(), Call::Count, COUNTS)
}

#[test]
fn a_reply_has_a_body(rt: HostRuntime) -> Result<(), Fail> {
    check_rows(rt.alloc(), Call::CommandBody, COMMANDS)?;
    check_rows(rt.alloc(), BODY_CALLS, BODIES)?;
    // a look at the write errors alone says nothing of `ok`
    Call::InsertMany.check(rt.alloc(), FAILED)
}
