// A copy wants memory, and where it is there each copy says what it was made of.
use super::small::next_header;
use super::ways::{Way, held, read_by};
use super::{EMPTY_MESSAGE, Told, end, failing_link, giving, message_with_sequence};
use mongo_bson::{BsonFault, Items, RawDocumentBuf, Text, Texts};
use mongo_wire::{
    AuthFault, CommandError, Error, ErrorKind, FailingLink, FrameBuffer, Header, IndexedWriteError,
    InsertManyError, Link, MemoryLink, Message, Sink, Source, WriteConcernError, WriteError,
    WriteFailure, WriteFailureCause,
};
use std::alloc::Global;
use std::fmt::Debug;
use std::test::Fail;

// What is made of several values is made of all of them at once: where one is lacking, no proof holds the others.
fn both<A: Drop, B: Drop>(first: Option<A>, second: Option<B>) -> Option<(A, B)> {
    Some((first?, second?))
}

// A list of this item alone.
fn one<T: Drop>(alloc: Global, item: Option<T>) -> Option<Items<T>> {
    let mut items = Items::new(alloc);
    items.push(item?).ok()?;
    Some(items)
}

fn text(alloc: Global, text: &str) -> Option<Text> {
    Text::from_slice(alloc, text).ok()
}

// An empty document.
fn details(alloc: Global) -> Option<RawDocumentBuf> {
    RawDocumentBuf::new(alloc).ok()
}

// The label `Transient`.
fn labels(alloc: Global) -> Option<Texts> {
    one(alloc, text(alloc, "Transient"))
}

fn callback(alloc: Global) -> Option<ErrorKind> {
    Some(ErrorKind::Callback(text(alloc, "no callback")?))
}

fn refused(alloc: Global) -> Option<ErrorKind> {
    let fault = AuthFault::Refused(text(alloc, "no")?);
    Some(ErrorKind::Authentication(fault))
}

fn server_error(alloc: Global) -> Option<ErrorKind> {
    let fault = AuthFault::ServerError(text(alloc, "other-error")?);
    Some(ErrorKind::Authentication(fault))
}

fn command(alloc: Global) -> Option<ErrorKind> {
    let texts = both(text(alloc, "AuthenticationFailed"), text(alloc, "no"));
    let ((code_name, message), labels) = both(texts, labels(alloc))?;
    Some(ErrorKind::Command(CommandError {
        code: 18,
        code_name,
        message,
        labels,
    }))
}

fn write_error(alloc: Global) -> Option<WriteError> {
    let texts = both(text(alloc, "DuplicateKey"), text(alloc, "there already"));
    let ((code_name, message), details) = both(texts, details(alloc))?;
    Some(WriteError {
        code: 11000,
        code_name: Some(code_name),
        message,
        details: Some(details),
    })
}

fn concern_error(alloc: Global) -> Option<WriteConcernError> {
    let texts = both(text(alloc, "WriteConcernFailed"), text(alloc, "timeout"));
    let rest = both(details(alloc), labels(alloc));
    let ((code_name, message), (details, labels)) = both(texts, rest)?;
    Some(WriteConcernError {
        code: 64,
        code_name,
        message,
        details: Some(details),
        labels,
    })
}

fn write(alloc: Global) -> Option<ErrorKind> {
    let (error, labels) = both(write_error(alloc), labels(alloc))?;
    let cause = WriteFailureCause::WriteError(error);
    Some(ErrorKind::Write(WriteFailure { cause, labels }))
}

fn concern(alloc: Global) -> Option<ErrorKind> {
    let (error, labels) = both(concern_error(alloc), labels(alloc))?;
    let cause = WriteFailureCause::WriteConcernError(error);
    Some(ErrorKind::Write(WriteFailure { cause, labels }))
}

fn indexed(alloc: Global) -> Option<IndexedWriteError> {
    let error = write_error(alloc)?;
    Some(IndexedWriteError { index: 7, error })
}

fn insert(alloc: Global) -> Option<ErrorKind> {
    let errors = both(one(alloc, indexed(alloc)), concern_error(alloc));
    let ((write_errors, concern_error), labels) = both(errors, labels(alloc))?;
    Some(ErrorKind::InsertMany(InsertManyError {
        write_errors: Some(write_errors),
        write_concern_error: Some(concern_error),
        labels,
    }))
}

// The cause of this name.
fn cause(alloc: Global, name: &str) -> Option<ErrorKind> {
    match name {
        "callback" => callback(alloc),
        "refused" => refused(alloc),
        "server error" => server_error(alloc),
        "command" => command(alloc),
        "write" => write(alloc),
        "concern" => concern(alloc),
        "insert" => insert(alloc),
        _ => None,
    }
}

// The error of the cause of this name.
fn error(alloc: Global, name: &str) -> Result<Error, Fail> {
    match cause(alloc, name) {
        Some(kind) => Ok(Error { kind }),
        None => Err(Fail::from("no cause was made")),
    }
}

// Each cause, and how a copy of its error is printed.
const CAUSES: &str = r#"callback => Error { kind: Callback(Text { text: "no callback" }) }
refused => Error { kind: Authentication(Refused(Text { text: "no" })) }
server error => Error { kind: Authentication(ServerError(Text { text: "other-error" })) }
command => Error { kind: Command(CommandError { code: 18, code_name: Text { text: "AuthenticationFailed" }, message: Text { text: "no" }, labels: Items { held: [Text { text: "Transient" }] } }) }
write => Error { kind: Write(WriteFailure { cause: WriteError(WriteError { code: 11000, code_name: Some(Text { text: "DuplicateKey" }), message: Text { text: "there already" }, details: Some(RawDocumentBuf { held: [5, 0, 0, 0, 0] }) }), labels: Items { held: [Text { text: "Transient" }] } }) }
concern => Error { kind: Write(WriteFailure { cause: WriteConcernError(WriteConcernError { code: 64, code_name: Text { text: "WriteConcernFailed" }, message: Text { text: "timeout" }, details: Some(RawDocumentBuf { held: [5, 0, 0, 0, 0] }), labels: Items { held: [Text { text: "Transient" }] } }), labels: Items { held: [Text { text: "Transient" }] } }) }
insert => Error { kind: InsertMany(InsertManyError { write_errors: Some(Items { held: [IndexedWriteError { index: 7, error: WriteError { code: 11000, code_name: Some(Text { text: "DuplicateKey" }), message: Text { text: "there already" }, details: Some(RawDocumentBuf { held: [5, 0, 0, 0, 0] }) } }] }), write_concern_error: Some(WriteConcernError { code: 64, code_name: Text { text: "WriteConcernFailed" }, message: Text { text: "timeout" }, details: Some(RawDocumentBuf { held: [5, 0, 0, 0, 0] }), labels: Items { held: [Text { text: "Transient" }] } }), labels: Items { held: [Text { text: "Transient" }] } }) }"#;

// What is copied. An error and a message are large where a proof holds them, so they are held where they are generic.
trait Copied: Debug + Drop {
    fn copy(&self, alloc: Global) -> Result<Self, BsonFault>;
}

impl Copied for Error {
    fn copy(&self, alloc: Global) -> Result<Error, BsonFault> {
        self.try_clone(alloc)
    }
}

impl Copied for Message {
    fn copy(&self, alloc: Global) -> Result<Message, BsonFault> {
        self.try_clone(alloc)
    }
}

fn is_printed_as<T: Debug>(alloc: Global, value: &T, text: &str) -> Result<bool, Fail> {
    Ok(format!(in alloc; "{value:?}")?.as_str() == text)
}

// Whether a copy of what was made is printed so.
fn is_copied_as<T: Copied>(alloc: Global, made: Result<T, Fail>, text: &str) -> Result<bool, Fail> {
    let made = made?;
    let copy = made.copy(alloc)?;
    is_printed_as(alloc, &copy, text)
}

// Whether a row says how the copy of its cause's error is printed.
fn holds(alloc: Global, row: &str) -> Result<bool, Fail> {
    match row.split_once(" => ") {
        Some((name, text)) => is_copied_as(alloc, error(alloc, name), text),
        None => Ok(false),
    }
}

#[test]
fn a_copy_of_an_error_says_the_same(rt: HostRuntime) -> Result<(), Fail> {
    for row in CAUSES.lines() {
        assert!(rt; holds(rt.alloc(), row)?, "{row}");
    }
    Ok(())
}

const MESSAGE: &str =
    r#"Message { document_payload: RawDocumentBuf { held: [5, 0, 0, 0, 0] }, document_sequences: Items { held: [DocumentSequence { identifier: Text { text: "documents" }, documents: Items { held: [RawDocumentBuf { held: [5, 0, 0, 0, 0] }] } }] }, response_to: 0, flags: MessageFlags(0), checksum: None, request_id: Some(0) }"#;

#[test]
fn a_message_is_copied(rt: HostRuntime) -> Result<(), Fail> {
    let alloc = rt.alloc();
    assert!(rt; is_copied_as(alloc, message_with_sequence(alloc), MESSAGE)?);
    Ok(())
}

// Whether the buffer shows the empty message as its first frame.
fn shows_first(buffer: &FrameBuffer) -> bool {
    let is_first = buffer.frames() == 1 && held(buffer) == Some((26, 0, 6, 5));
    is_first && buffer.as_bytes() == &EMPTY_MESSAGE[16..]
}

// Whether the buffer shows it, and a copy still does once a read that ended has cleared the buffer.
fn is_frame_copied(alloc: Global) -> Result<bool, Fail> {
    let mut link = giving(alloc, &EMPTY_MESSAGE)?;
    let mut buffer = FrameBuffer::new(alloc);
    let came = read_by(Way::ReadFrame, alloc, &mut link, &mut buffer).is_ok()
        && shows_first(&buffer);
    let copy = buffer.try_clone(alloc)?;
    let has_ended = read_by(Way::ReadFrame, alloc, &mut link, &mut buffer).is_err();
    Ok(came && has_ended && !shows_first(&buffer) && shows_first(&copy))
}

#[test]
fn a_buffer_is_copied_with_its_frame(rt: HostRuntime) -> Result<(), Fail> {
    assert!(rt; is_frame_copied(rt.alloc())?);
    Ok(())
}

// A link that tells what was written to it and what is left, and is copied.
trait Listed: Link {
    fn copy(&self, alloc: Global) -> Result<Self, BsonFault>;

    fn has(&self, written: &[u8], left: &[u8]) -> bool;
}

impl Listed for MemoryLink {
    fn copy(&self, alloc: Global) -> Result<MemoryLink, BsonFault> {
        self.try_clone(alloc)
    }

    fn has(&self, written: &[u8], left: &[u8]) -> bool {
        self.written() == written && self.left() == left
    }
}

impl Listed for FailingLink {
    fn copy(&self, alloc: Global) -> Result<FailingLink, BsonFault> {
        self.try_clone(alloc)
    }

    fn has(&self, written: &[u8], left: &[u8]) -> bool {
        self.written() == written && self.left() == left
    }
}

// How the write of a header ends, how much of it is written, and the count of write faults.
type Seen<'a> = (Told, &'a [u8], u64);

// Whether this is seen where a link of which the header of the empty message was read writes it.
fn writes_so<L: Listed>(link: &mut L, header: Header, seen: Seen<'_>) -> bool {
    let (told, written, faults) = seen;
    end(header.write_to(link)) == told
        && link.has(written, &EMPTY_MESSAGE[16..])
        && link.write_faults() == faults
}

// Whether this is seen of a link and then of a copy that was made after the header was read.
fn both_write_so<L: Listed + Drop>(
    alloc: Global,
    link: Result<L, Fail>,
    seen: Seen<'_>,
) -> Result<bool, Fail> {
    let mut link = link?;
    let Ok(header) = next_header(&mut link) else {
        return Ok(false);
    };
    let mut copy = link.copy(alloc)?;
    Ok(writes_so(&mut link, header, seen) && writes_so(&mut copy, header, seen))
}

#[test]
fn a_copy_of_a_link_goes_on_as_the_link_does(rt: HostRuntime) -> Result<(), Fail> {
    let whole = giving(rt.alloc(), &EMPTY_MESSAGE);
    let seen = (Told::Done, &EMPTY_MESSAGE[..16], 0);
    assert!(rt; both_write_so(rt.alloc(), whole, seen)?);
    // three bytes a call: six calls read the header, and the third after them fails
    let failing = failing_link(rt.alloc(), &EMPTY_MESSAGE, 8, 3);
    let seen = (Told::WriteFault, &EMPTY_MESSAGE[..6], 1);
    assert!(rt; both_write_so(rt.alloc(), failing, seen)?);
    Ok(())
}
