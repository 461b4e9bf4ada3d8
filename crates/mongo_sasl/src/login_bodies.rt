ghost use Rattle.std.specs.Prelude.{◌≡◌, IfOk, IfErr};
ghost use Rattle.mongo_command.specs.Arguments.{TooLongFor, IsNamed, field_elements};
ghost use Rattle.mongo_command.specs.Literal.{document_of};
ghost use Rattle.mongo_sasl.specs.Commands.{start_with, start_body, continue_body, skip_empty_exchange};

use crate::AuthMechanism;
use crate::keys::{
    CONVERSATION_ID, MECHANISM, OPTIONS, PAYLOAD, SASL_CONTINUE, SASL_START, SKIP_EMPTY_EXCHANGE,
};
use mongo_bson::{BsonFault, Bytes, GENERIC, OwnedValue, RawDocumentBuf, RawValue};
use mongo_command::{ArgumentField, document_field, document_of};
use std::alloc::Global;

// The body of a `saslStart`.
//
// `TooLong` where it would pass 2147483647 bytes.
pub(crate) fn start_body(
    alloc: Global,
    mechanism: AuthMechanism,
    payload: &Bytes,
) -> Result<RawDocumentBuf, BsonFault>
    ensures body { IfOk result (λ body. body ≡ start_body mechanism payload.now) }
    ensures refused { IfErr result (λ fault. TooLongFor fault (start_body mechanism payload.now)) }
{
    match mechanism {
        AuthMechanism::ScramSha1 | AuthMechanism::ScramSha256 => {
            let options = skip_empty_exchange(alloc)?;
            start_with(alloc, mechanism, payload, document_field(OPTIONS, &options))
        }
        _ => start_with(alloc, mechanism, payload, None),
    }
}

// The body of a `saslStart` with these options, if any.
fn start_with<'x>(
    alloc: Global,
    mechanism: AuthMechanism,
    payload: &'x Bytes,
    options: ArgumentField<'x>,
) -> Result<RawDocumentBuf, BsonFault>
    requires named { IsNamed options }
    ensures body { IfOk result (λ body. body ≡ document_of (start_with mechanism payload.now (field_elements options.entry))) }
    ensures refused { IfErr result (λ fault. TooLongFor fault (document_of (start_with mechanism payload.now (field_elements options.entry)))) }
{
    let start = Some((SASL_START, RawValue::Int32(1)));
    let name = Some((MECHANISM, RawValue::Str(mechanism.as_str())));
    let payload = Some((PAYLOAD, RawValue::Binary(GENERIC, payload.as_bytes())));
    document_of(alloc, &[start, name, payload, options])
}

// The options of SCRAM, `{skipEmptyExchange: true}`.
fn skip_empty_exchange(alloc: Global) -> Result<RawDocumentBuf, BsonFault>
    ensures options { IfOk result (λ options. options ≡ skip_empty_exchange) }
    ensures refused { IfErr result (λ fault. fault ≡ BsonFault.OutOfMemory) }
{
    document_of(alloc, &[Some((SKIP_EMPTY_EXCHANGE, RawValue::Bool(true)))])
}

// The body of a `saslContinue`.
//
// `TooLong` where it would pass 2147483647 bytes.
pub(crate) fn continue_body<'x>(
    alloc: Global,
    conversation_id: &'x OwnedValue,
    payload: &'x Bytes,
) -> Result<RawDocumentBuf, BsonFault>
    ensures body { IfOk result (λ body. body ≡ continue_body conversation_id.now payload.now) }
    ensures refused { IfErr result (λ fault. TooLongFor fault (continue_body conversation_id.now payload.now)) }
{
    let start = Some((SASL_CONTINUE, RawValue::Int32(1)));
    let id = RawValue::Other(conversation_id.kind, conversation_id.bytes.as_bytes());
    let payload = Some((PAYLOAD, RawValue::Binary(GENERIC, payload.as_bytes())));
    document_of(alloc, &[start, Some((CONVERSATION_ID, id)), payload])
}
