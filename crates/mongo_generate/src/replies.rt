//! A server's two replies, as frames.
ghost use Rattle.std.specs.Prelude.{◌≡◌, ◌^◌, ◌<◌, length, flat_map, IfOk, IfErr, OnOk};
ghost use Rattle.std.specs.List.{AllByRecursion};
ghost use Rattle.mongo_wire.specs.declared.error.ErrorKind.TheVariants.{OutOfMemory};
ghost use Rattle.mongo_command.specs.Arguments.{field_elements, IsNamed};
ghost use Rattle.mongo_command.specs.Literal.{document_of};
ghost use Rattle.mongo_generate.specs.Replies.{speculative_elements, standalone_around, hello_reply, final_reply, WritesReply, AreReplies};

use bitflags::Flags;
use mongo_bson::{BsonFault, Bytes, RawDocumentBuf};
use mongo_command::keys::{MAX_BSON_OBJECT_SIZE, MAX_MESSAGE_SIZE_BYTES, SPECULATIVE_AUTHENTICATE};
use mongo_command::{
    ArgumentField, boolean_field, document_field, document_of, generic_binary_field, int32_field,
    ok_field,
};
use mongo_sasl::keys::{CONVERSATION_ID, DONE, PAYLOAD};
use mongo_server::{CONVERSATION_NUMBER, MAXIMUM_DOCUMENT_LENGTH, MAXIMUM_MESSAGE_LENGTH};
use mongo_wire::{Error, MemoryLink, Message, MessageFlags, RequestIds, Sequences};
use std::alloc::Global;

/// The frames of the reply to a hello with this first message, and of the reply to the command after it with this last
/// one, of 48000000 bytes at most each.
///
/// Of messages that are shorter than 16 MiB, want of memory is the one refusal; longer ones may be too long for their replies.
pub fn replies_of(alloc: Global, server_first: &[u8], server_final: &[u8]) -> Result<Bytes, Error>
    ensures replies { IfOk result (AreReplies server_first.now server_final.now) }
    // Messages that are shorter than 16 MiB fit.
    ensures short { length server_first.now < 2 ^ 24 → length server_final.now < 2 ^ 24 → IfErr result (λ e. e.kind ≡ OutOfMemory) }
{
    let mut link = MemoryLink::new(alloc, Bytes::new(alloc));
    write_reply(alloc, hello_reply(alloc, server_first)?, &mut link)?;
    write_reply(alloc, final_reply(alloc, server_final)?, &mut link)?;
    Ok(link.into_written())
}

// Writes a document as the frame of a reply.
fn write_reply(
    alloc: Global,
    document_payload: RawDocumentBuf,
    link: &mut MemoryLink,
) -> Result<(), Error>
    ensures written { OnOk result (WritesReply document_payload link.old link.new) }
    ensures short { length document_payload < 2 ^ 25 → IfErr result (λ e. e.kind ≡ OutOfMemory) }
{
    let message = Message {
        document_payload,
        document_sequences: Sequences::new(alloc),
        response_to: 0,
        flags: MessageFlags::empty(),
        checksum: None,
        request_id: Some(1),
    };
    let maximum = Some(MAXIMUM_MESSAGE_LENGTH);
    message.write_op_msg_to(alloc, link, maximum, &mut RequestIds::new(0))
}

// The reply to a hello: `{ok: 1.0, maxBsonObjectSize: 16777216, maxMessageSizeBytes: 48000000, speculativeAuthenticate:
// {conversationId: 1, done: false, payload: the server's first message}}`.
#[tactic(auto, unfolding(crate::specs::Replies::hello_reply))]
fn hello_reply(alloc: Global, server_first: &[u8]) -> Result<RawDocumentBuf, BsonFault>
    ensures reply { IfOk result (λ document. document ≡ hello_reply server_first.now) }
    ensures short { length server_first.now < 2 ^ 24 → IfErr result (λ fault. fault ≡ BsonFault.OutOfMemory) }
{
    let answer = answer_to_login(alloc, server_first)?;
    let fields = hello_fields(&answer);
    document_of(alloc, &fields)
}

// The fields of the reply to a hello, around the document that answers the login.
fn hello_fields<'a>(answer: &'a RawDocumentBuf) -> [ArgumentField<'a>; 4]
    ensures elements { flat_map field_elements result ≡ standalone_around answer.now }
    ensures named { AllByRecursion IsNamed result }
{
    [
        ok_field(),
        int32_field(MAX_BSON_OBJECT_SIZE, MAXIMUM_DOCUMENT_LENGTH),
        int32_field(MAX_MESSAGE_SIZE_BYTES, MAXIMUM_MESSAGE_LENGTH),
        document_field(SPECULATIVE_AUTHENTICATE, answer),
    ]
}

// What the reply to a hello says to the login that went with it.
fn answer_to_login(alloc: Global, server_first: &[u8]) -> Result<RawDocumentBuf, BsonFault>
    ensures answer { IfOk result (λ document. document ≡ document_of (speculative_elements server_first.now)) }
    ensures short { length server_first.now < 2 ^ 24 → IfErr result (λ fault. fault ≡ BsonFault.OutOfMemory) }
{
    let id = int32_field(CONVERSATION_ID, CONVERSATION_NUMBER);
    let done = boolean_field(DONE, false);
    let payload = generic_binary_field(PAYLOAD, server_first);
    document_of(alloc, &[id, done, payload])
}

// The reply that ends a login: `{ok: 1.0, conversationId: 1, done: true, payload: the server's last message}`.
#[tactic(auto, unfolding(crate::specs::Replies::final_reply))]
fn final_reply(alloc: Global, server_final: &[u8]) -> Result<RawDocumentBuf, BsonFault>
    ensures reply { IfOk result (λ document. document ≡ final_reply server_final.now) }
    ensures short { length server_final.now < 2 ^ 24 → IfErr result (λ fault. fault ≡ BsonFault.OutOfMemory) }
{
    let id = int32_field(CONVERSATION_ID, CONVERSATION_NUMBER);
    let done = boolean_field(DONE, true);
    let payload = generic_binary_field(PAYLOAD, server_final);
    document_of(alloc, &[ok_field(), id, done, payload])
}
