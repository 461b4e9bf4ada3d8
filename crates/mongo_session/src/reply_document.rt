//! The documents that say replies.

ghost use Rattle.std.specs.Prelude.{◌≡◌, IfOk, IfErr};
ghost use Rattle.mongo_session.specs.Replies.{document_of_served, done_document, error_document, refusal_document, sasl_document, build_info_document, version_document};
ghost use Rattle.mongo_command.specs.Arguments.{TooLongFor};

use crate::hello_document::hello_reply_document;
use crate::reply::{RefusedCommand, Reply, SaslReply};
use mongo_bson::{BsonFault, RawDocument, RawDocumentBuf, RawValue, Text};
use mongo_command::keys::{CODE, CODE_NAME, ERRMSG, MAX_BSON_OBJECT_SIZE, OK};
use mongo_command::{boolean_field, document_of, generic_binary_field, int32_field, ok_field};
use mongo_sasl::keys::{CONVERSATION_ID, DONE, PAYLOAD};
use mongo_server::{CONVERSATION_NUMBER, MAXIMUM_DOCUMENT_LENGTH};
use std::alloc::Global;

// The bits of the double 0.0.
const ZERO: u64 = 0;

/// The document that says a reply.
///
/// `TooLong` where it would pass 2147483647 bytes.
pub fn document_of_reply(alloc: Global, reply: &Reply) -> Result<RawDocumentBuf, BsonFault>
    ensures document { IfOk result (λ document. document ≡ document_of_served reply.now) }
    ensures refused { IfErr result (λ fault. TooLongFor fault (document_of_served reply.now)) }
{
    match reply {
        Reply::Hello(hello) => hello_reply_document(alloc, hello),
        Reply::Sasl(message) => sasl_document(alloc, message),
        Reply::BuildInfo => build_info_document(alloc),
        Reply::Done => done_document(alloc),
        Reply::Refused(refusal) => refusal_document(alloc, refusal),
    }
}

fn done_document(alloc: Global) -> Result<RawDocumentBuf, BsonFault>
    ensures document { IfOk result (λ document. document ≡ done_document) }
    ensures refused { IfErr result (λ fault. TooLongFor fault done_document) }
{
    document_of(alloc, &[ok_field()])
}

fn refusal_document(alloc: Global, refusal: &RefusedCommand) -> Result<RawDocumentBuf, BsonFault>
    ensures document { IfOk result (λ document. document ≡ refusal_document refusal.now) }
    ensures refused { IfErr result (λ fault. TooLongFor fault (refusal_document refusal.now)) }
{
    match refusal {
        RefusedCommand::AuthenticationFailed => {
            error_document(alloc, "Authentication failed.", 18, "AuthenticationFailed")
        }
        RefusedCommand::Unauthorized => {
            error_document(alloc, "Command requires authentication", 13, "Unauthorized")
        }
        RefusedCommand::CommandNotFound(name) => {
            let mut text = Text::from_slice(alloc, "no such command: '")?;
            text.push_str(name.as_str())?;
            text.push_str("'")?;
            error_document(alloc, text.as_str(), 59, "CommandNotFound")
        }
    }
}

// The document of a command error.
fn error_document<'x>(
    alloc: Global,
    message: &'x str,
    code: i32,
    name: &'x str,
) -> Result<RawDocumentBuf, BsonFault>
    ensures document { IfOk result (λ document. document ≡ error_document message.now code name.now) }
    ensures refused { IfErr result (λ fault. TooLongFor fault (error_document message.now code name.now)) }
{
    let ok = Some((OK, RawValue::Double(ZERO)));
    let message = Some((ERRMSG, RawValue::Str(message)));
    let code = Some((CODE, RawValue::Int32(code)));
    let name = Some((CODE_NAME, RawValue::Str(name)));
    Ok(document_of(alloc, &[ok, message, code, name])?)
}

/// The reply to a command of a login.
pub fn sasl_document(alloc: Global, message: &SaslReply) -> Result<RawDocumentBuf, BsonFault>
    ensures document { IfOk result (λ document. document ≡ sasl_document message.now) }
    ensures refused { IfErr result (λ fault. TooLongFor fault (sasl_document message.now)) }
{
    let id = int32_field(CONVERSATION_ID, CONVERSATION_NUMBER);
    let done = boolean_field(DONE, message.is_done);
    let payload = generic_binary_field(PAYLOAD, message.payload.as_bytes());
    document_of(alloc, &[id, done, payload, ok_field()])
}

fn build_info_document(alloc: Global) -> Result<RawDocumentBuf, BsonFault>
    ensures document { IfOk result (λ document. document ≡ build_info_document) }
    ensures refused { IfErr result (λ fault. TooLongFor fault build_info_document) }
{
    let version = Some(("version", RawValue::Str("7.0.0")));
    let git = Some(("gitVersion", RawValue::Str("")));
    let numbers = Some(("versionArray", RawValue::Array(version_numbers())));
    let size = int32_field(MAX_BSON_OBJECT_SIZE, MAXIMUM_DOCUMENT_LENGTH);
    document_of(alloc, &[version, git, numbers, size, ok_field()])
}

// The array [7, 0, 0, 0].
fn version_numbers() -> RawDocument<'static>
    ensures { result.bytes.now ≡ version_document }
{
    RawDocument::of_framed(
        b"!\0\0\0\x100\0\x07\0\0\0\x101\0\0\0\0\0\x102\0\0\0\0\0\x103\0\0\0\0\0\0",
    )
}
