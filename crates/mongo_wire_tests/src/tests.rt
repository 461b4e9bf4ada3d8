ghost use Rattle.std.specs.Prelude.{◌<◌};

mod copies;
mod links;
mod reading;
mod room;
mod small;
mod standard;
mod ways;
mod writing;

use bitflags::Flags;
use mongo_bson::{Bytes, Documents, Items, RawDocumentBuf, Text};
use mongo_wire::{
    ArgumentFault, DocumentSequence, Error, ErrorKind, FailingLink, FrameFault, MemoryLink,
    Message, MessageFlags, RequestIds, ResponseFault, Sequences, Sink, Source,
};
use std::alloc::Global;
use std::fmt::Debug;
use std::test::Fail;

// An OP_MSG without flags and with an empty body, laid out by the OP_MSG specification: a header of 16 bytes, four bytes
// of flags, the kind byte and the empty document of BSON 1.1.
pub(crate) const EMPTY_MESSAGE: [u8; 26] = [
    0x1a, 0, 0, 0, 0, 0, 0, 0, 0, 0, 0, 0, 0xdd, 0x07, 0, 0, 0, 0, 0, 0, 0, 5, 0, 0, 0, 0,
];

// The same with one section of kind 1, whose identifier is `documents` and whose documents are one empty document.
pub(crate) const MESSAGE_WITH_SEQUENCE: [u8; 46] = [
    0x2e, 0, 0, 0, 0, 0, 0, 0, 0, 0, 0, 0, 0xdd, 0x07, 0, 0, 0, 0, 0, 0, 0, 5, 0, 0, 0, 0, 1, 0x13,
    0, 0, 0, 0x64, 0x6f, 0x63, 0x75, 0x6d, 0x65, 0x6e, 0x74, 0x73, 0, 5, 0, 0, 0, 0,
];

// The message with these sequences, without elements and flags, under the id 0.
pub(crate) fn message_over(alloc: Global, sequences: Sequences) -> Result<Message, Fail> {
    Ok(Message {
        document_payload: RawDocumentBuf::new(alloc)?,
        document_sequences: sequences,
        response_to: 0,
        flags: MessageFlags::empty(),
        checksum: None,
        request_id: Some(0),
    })
}

// The message without elements and flags, under the id 0.
pub(crate) fn empty_message(alloc: Global) -> Result<Message, Fail> {
    message_over(alloc, Sequences::new(alloc))
}

// A list of this item alone.
pub(crate) fn only<T: Drop>(alloc: Global, item: T) -> Result<Items<T>, Fail> {
    let mut items = Items::new(alloc);
    items.push(item)?;
    Ok(items)
}

fn one_document(alloc: Global) -> Result<Documents, Fail> {
    only(alloc, RawDocumentBuf::new(alloc)?)
}

// The sequence of one empty document under this identifier.
pub(crate) fn one_empty_document(
    alloc: Global,
    identifier: &str,
) -> Result<DocumentSequence, Fail> {
    Ok(DocumentSequence {
        identifier: Text::from_slice(alloc, identifier)?,
        documents: one_document(alloc)?,
    })
}

// That sequence alone.
pub(crate) fn one_sequence(alloc: Global, identifier: &str) -> Result<Sequences, Fail> {
    only(alloc, one_empty_document(alloc, identifier)?)
}

// The empty message with the sequence `documents` of one empty document.
pub(crate) fn message_with_sequence(alloc: Global) -> Result<Message, Fail> {
    message_over(alloc, one_sequence(alloc, "documents")?)
}

// A link that gives these bytes.
pub(crate) fn giving(alloc: Global, bytes: &[u8]) -> Result<MemoryLink, Fail> {
    Ok(MemoryLink::new(alloc, Bytes::from_slice(alloc, bytes)?))
}

// A link that gives these bytes, and then so many zeros.
pub(crate) fn giving_zeros(alloc: Global, start: &[u8], zeros: usize) -> Result<MemoryLink, Fail> {
    let mut bytes = Vec::new(alloc);
    bytes.extend_from_slice(start)?;
    bytes.resize(start.len().saturating_add(zeros), 0)?;
    Ok(MemoryLink::new(alloc, Bytes::from_vec(bytes)))
}

// A link that gives these bytes so many at a time, and fails at just this call.
pub(crate) fn failing_link(
    alloc: Global,
    bytes: &[u8],
    call: usize,
    most: usize,
) -> Result<FailingLink, Fail>
    requires { 0 < most }
{
    let input = Bytes::from_slice(alloc, bytes)?;
    Ok(FailingLink::new(alloc, input, failing_at(alloc, call)?, most))
}

// A schedule under which just this call fails.
fn failing_at(alloc: Global, call: usize) -> Result<Bytes, Fail> {
    let mut schedule = Vec::new(alloc);
    schedule.resize(call, 0)?;
    schedule.push(1)?;
    Ok(Bytes::from_vec(schedule))
}

// How a call ended: it was done, or this is the cause that it told.
#[derive(Clone, Copy, Debug, PartialEq)]
pub(crate) enum Told {
    Done,
    ReadFault,
    WriteFault,
    EndOfInput,
    Argument(ArgumentFault),
    Response(ResponseFault),
    Other,
}

// What refuses a call. An `Error` is large where a proof holds it, so it is asked in functions that are generic over it: no
// proof but that of its own `told` sees it.
pub(crate) trait Cause {
    fn told(&self) -> Told;
}

impl Cause for Error {
    fn told(&self) -> Told {
        match &self.kind {
            ErrorKind::ReadFault => Told::ReadFault,
            ErrorKind::WriteFault => Told::WriteFault,
            ErrorKind::EndOfInput => Told::EndOfInput,
            ErrorKind::InvalidArgument(fault) => Told::Argument(*fault),
            ErrorKind::InvalidResponse(fault) => Told::Response(*fault),
            _ => Told::Other,
        }
    }
}

impl Cause for FrameFault {
    fn told(&self) -> Told {
        told_by(Error::from(*self))
    }
}

pub(crate) fn told_by<E: Cause + Drop>(cause: E) -> Told {
    cause.told()
}

// What a call gave, or the cause that it told.
pub(crate) fn or_told<T, E: Cause + Drop>(answer: Result<T, E>) -> Result<T, Told> {
    match answer {
        Ok(given) => Ok(given),
        Err(cause) => Err(told_by(cause)),
    }
}

// How a call ended.
pub(crate) fn end<T: Drop, E: Cause + Drop>(answer: Result<T, E>) -> Told {
    match answer {
        Ok(_given) => Told::Done,
        Err(cause) => told_by(cause),
    }
}

// What a call gives, or its error as why the test fails.
pub(crate) fn given<T: Drop, E: Debug + Drop>(answer: Result<T, E>) -> Result<T, Fail> {
    Ok(answer?)
}

// How the read of the next message of a source ends.
pub(crate) fn read_end<S: Source>(alloc: Global, source: &mut S) -> Told {
    end(Message::read_from(alloc, source, None))
}

// How the write of a message to a link ends, whether just these bytes were written, and the next id after the first.
pub(crate) fn written(
    alloc: Global,
    message: Result<Message, Fail>,
    maximum: Option<i32>,
    first_id: i32,
    bytes: &[u8],
) -> Result<(Told, bool, i32), Fail> {
    let message = message?;
    let mut link = giving(alloc, &[])?;
    let mut ids = RequestIds::new(first_id);
    let told = write_end(alloc, &message, &mut link, maximum, &mut ids);
    Ok((told, link.written() == bytes, ids.next()))
}

// How the write of a message ends.
pub(crate) fn write_end<K: Sink>(
    alloc: Global,
    message: &Message,
    sink: &mut K,
    maximum: Option<i32>,
    ids: &mut RequestIds,
) -> Told {
    end(message.write_op_msg_to(alloc, sink, maximum, ids))
}
