//! Writing replies.

ghost use Rattle.std.specs.Prelude.{◌≡◌, ◌+◌, ◌≤◌, length, IfOk, IfErr, OnOk, OnErr};
ghost use Rattle.std.specs.Io.KnownBytes.{Appends};
ghost use Rattle.mongo_bson.specs.Framed.{maximum_length};
ghost use Rattle.mongo_wire.specs.Outside.{AppendsFront, IsFlushed, WritesOn};
ghost use Rattle.mongo_session.specs.Replies.{document_of_served};
ghost use Rattle.mongo_service.specs.Sent.{message_reply, outbox, query_header, query_reply, IsLongMessage, IsLongReply, IsReplySent, IsSentInPart, IsSentToQuery, SendsReply, WriteCause};
ghost use Rattle.mongo_service.specs.declared.fault.ServeFault.TheVariants.{OutOfMemory};

use crate::fault::{ServeFault, fault_of_document, fault_of_write};
use bitflags::Flags;
use mongo_bson::RawDocumentBuf;
use mongo_server::MAXIMUM_MESSAGE_LENGTH;
use mongo_session::{Reply, document_of_reply};
use mongo_wire::{Header, Message, MessageFlags, OpCode, RequestIds, Sequences, Sink, write_all};
use std::alloc::Global;

/// Answers an OP_MSG of this id and these flags: writes the reply as an OP_MSG and flushes it, or writes nothing where the client says
/// that it sends more.
pub fn respond<K: Sink>(
    alloc: Global,
    sink: &mut K,
    request_id: i32,
    flags: MessageFlags,
    reply: &Reply,
    ids: &mut RequestIds,
) -> Result<(), ServeFault>
    ensures sent { OnOk result (IsReplySent (outbox (K.state sink.old) ids.old) (outbox (K.state sink.new) ids.new) request_id flags.0 reply.now) }
    ensures cut { OnErr result (IsSentInPart (outbox (K.state sink.old) ids.old) (outbox (K.state sink.new) ids.new) request_id flags.0 reply.now) }
    ensures writes { OnOk result ((K.state sink.new).write_faults ≡ (K.state sink.old).write_faults) }
    ensures on { WritesOn (K.state sink.old) (K.state sink.new) }
    ensures refused { IfErr result (λ fault. WriteCause (IsLongMessage (document_of_served reply.now)) fault (K.state sink.old) (K.state sink.new)) }
{
    if flags.contains(MessageFlags::MORE_TO_COME) {
        return Ok(());
    }
    match document_of_reply(alloc, reply) {
        Ok(document) => send_document(alloc, sink, request_id, document, ids),
        Err(fault) => Err(fault_of_document(fault)),
    }
}

// Writes a document as an OP_MSG, and flushes it.
fn send_document<K: Sink>(
    alloc: Global,
    sink: &mut K,
    request_id: i32,
    document: RawDocumentBuf,
    ids: &mut RequestIds,
) -> Result<(), ServeFault>
    ensures sent { OnOk result (SendsReply (outbox (K.state sink.old) ids.old) (outbox (K.state sink.new) ids.new) request_id document) }
    ensures front { OnErr result (AppendsFront (K.state sink.old).written (K.state sink.new).written (message_reply ids.old request_id document)) }
    ensures writes { OnOk result ((K.state sink.new).write_faults ≡ (K.state sink.old).write_faults) }
    ensures on { WritesOn (K.state sink.old) (K.state sink.new) }
    ensures refused { IfErr result (λ fault. WriteCause (IsLongMessage document) fault (K.state sink.old) (K.state sink.new)) }
{
    let message = Message {
        document_payload: document,
        document_sequences: Sequences::new(alloc),
        response_to: request_id,
        flags: MessageFlags::empty(),
        checksum: None,
        request_id: None,
    };
    match message.write_op_msg_to(alloc, sink, Some(MAXIMUM_MESSAGE_LENGTH), ids) {
        Ok(()) => Ok(()),
        Err(error) => Err(fault_of_write(&error)),
    }
}

// What an OP_REPLY has between its header and its document: responseFlags 8 (AwaitCapable), cursorID 0, startingFrom 0,
// numberReturned 1.
const REPLY_FIELDS: [u8; 20] = [8, 0, 0, 0, 0, 0, 0, 0, 0, 0, 0, 0, 0, 0, 0, 0, 1, 0, 0, 0];

// How many bytes an OP_REPLY has before its document.
const REPLY_START: usize = Header::LENGTH + REPLY_FIELDS.len();

/// Answers an OP_QUERY of this id: writes the reply as an OP_REPLY, and flushes it.
pub fn respond_to_query<K: Sink>(
    alloc: Global,
    sink: &mut K,
    request_id: i32,
    reply: &Reply,
    ids: &mut RequestIds,
) -> Result<(), ServeFault>
    ensures sent { OnOk result (IsSentToQuery (outbox (K.state sink.old) ids.old) (outbox (K.state sink.new) ids.new) request_id reply.now) }
    ensures front { OnErr result (AppendsFront (K.state sink.old).written (K.state sink.new).written (query_reply ids.old request_id (document_of_served reply.now))) }
    ensures writes { OnOk result ((K.state sink.new).write_faults ≡ (K.state sink.old).write_faults) }
    ensures on { WritesOn (K.state sink.old) (K.state sink.new) }
    ensures refused { IfErr result (λ fault. WriteCause (IsLongReply (document_of_served reply.now)) fault (K.state sink.old) (K.state sink.new)) }
{
    let document = match document_of_reply(alloc, reply) {
        Ok(document) => document,
        Err(fault) => return Err(fault_of_document(fault)),
    };
    if document.as_bytes().len() > MAXIMUM_MESSAGE_LENGTH as usize - REPLY_START {
        return Err(ServeFault::ReplyTooLong);
    }
    let frame = match frame_of_reply(alloc, ids.draw(), request_id, document.as_bytes()) {
        Ok(frame) => frame,
        Err(fault) => return Err(fault),
    };
    send_bytes(sink, frame.as_slice())
}

// The frame of an OP_REPLY.
fn frame_of_reply(alloc: Global, id: i32, to: i32, document: &[u8]) -> Result<Vec<u8>, ServeFault>
    requires { length document.now + 36 ≤ maximum_length }
    ensures frame { IfOk result (λ frame. frame.items ≡ query_reply id to document.now) }
    ensures refused { IfErr result (λ fault. fault ≡ OutOfMemory) }
{
    let header = header_of_reply(id, to, document.len());
    let mut frame = Vec::from_slice(alloc, &header.encode())?;
    frame.extend_from_slice(&REPLY_FIELDS)?;
    frame.extend_from_slice(document)?;
    Ok(frame)
}

// The header of an OP_REPLY whose document has this length.
fn header_of_reply(id: i32, to: i32, length: usize) -> Header
    requires { length + 36 ≤ maximum_length }
    ensures header { result ≡ query_header id to length }
{
    Header {
        length: (REPLY_START + length) as i32,
        request_id: id,
        response_to: to,
        op_code: OpCode::Reply,
    }
}

/// Writes bytes and flushes them.
pub fn send_bytes<K: Sink>(sink: &mut K, bytes: &[u8]) -> Result<(), ServeFault>
    ensures written { OnOk result (Appends (K.state sink.old).written (K.state sink.new).written bytes.now) }
    ensures flushed { OnOk result (IsFlushed (K.state sink.new)) }
    ensures front { OnErr result (AppendsFront (K.state sink.old).written (K.state sink.new).written bytes.now) }
    ensures writes { OnOk result ((K.state sink.new).write_faults ≡ (K.state sink.old).write_faults) }
    ensures on { WritesOn (K.state sink.old) (K.state sink.new) }
    ensures refused { IfErr result (λ fault. WriteCause ⊥ fault (K.state sink.old) (K.state sink.new)) }
{
    match write_all(sink, bytes) {
        Ok(()) => match sink.flush() {
            Ok(()) => Ok(()),
            Err(fault) => Err(fault.into()),
        },
        Err(fault) => Err(fault.into()),
    }
}
