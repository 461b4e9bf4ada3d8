//! MONGODB-X509: the certificate of the link is the credential, and one command asks the server to take it.

ghost use Rattle.std.specs.Prelude.{◌≡◌, ◌⊎◌, true, false, Ok, Option, option_copied, IfOk, IfErr, OnOk};
ghost use Rattle.mongo_wire.specs.declared.error.ErrorKind.TheVariants.{OutOfMemory};
ghost use Rattle.mongo_command.specs.Arguments.{TooLongFor};
ghost use Rattle.mongo_command.specs.Exchange.{DocumentRefused, frame_maximum};
ghost use Rattle.mongo_sasl.specs.EndsByScript.{standing, HoldsItsReply};
ghost use Rattle.mongo_sasl.specs.X509.{x509_body, x509_command, IsCertificateAccepted, X509Row, x509_plan, x509_handed, EndsByX509};

use crate::commands::login_command;
use crate::keys::{AUTHENTICATE, MECHANISM};
use crate::refusal::refused;
use crate::sasl_view::unreadable_fields;
use crate::{AuthMechanism, Credential, EXTERNAL};
use mongo_bson::{BsonFault, RawDocument, RawDocumentBuf, RawValue, Text};
use mongo_command::{Command, Connection, Fields, ServerApi, document_of, held_reply, is_success};
use mongo_wire::{AuthFault, Error, FrameBuffer, Link, RequestIds};
use std::alloc::Global;

/// The command that asks the server to take the link's certificate: `authenticate: 1`, the mechanism's name and the user name
/// where the credential has one; on `$external`, with the server API.
///
/// `Bson(TooLong)` where the body would pass 2147483647 bytes.
pub fn build_client_first(
    alloc: Global,
    credential: &Credential,
    server_api: Option<&ServerApi>,
) -> Result<Command, Error>
    ensures command { IfOk result (λ command. command ≡ x509_command credential.now (option_copied server_api.entry)) }
    ensures refused { IfErr result (λ e. DocumentRefused e.kind (x509_body credential.now.username)) }
{
    let body = authenticate_body(alloc, &credential.username)?;
    login_command(alloc, AUTHENTICATE, EXTERNAL, body, server_api.copied())
}

/// Logs a connection in by the link's certificate: by one command and one reply, which passes through the buffer. Where the
/// server has answered the command's body in its hello, `speculated` is true, and nothing is left to do.
///
/// Refusals, in this order: those of [`build_client_first`] and of [`Connection::exchange`]; `Malformed` where the reply isn't
/// well formed; `X509Failed` where its `ok` isn't the number 1. A connection that keeps a fault answers it in place of an
/// exchange.
pub fn authenticate_stream<L: Link>(
    alloc: Global,
    connection: &mut Connection,
    link: &mut L,
    ids: &mut RequestIds,
    buffer: &mut FrameBuffer,
    credential: &Credential,
    server_api: Option<&ServerApi>,
    speculated: bool,
) -> Result<(), Error>
    // It ends by its script: where it is accepted without an answer in the hello, one command was written, and one reply taken by
    // which the server took the certificate.
    ensures login { EndsByX509 L.state (x509_handed credential.now (option_copied server_api.entry) speculated (frame_maximum connection.old.stream_description)) result
        (standing connection.old link.old ids.old buffer.old) (standing connection.new link.new ids.new buffer.new) }

    // The buffer holds just that reply.
    ensures buffer { speculated ≡ false → OnOk result (HoldsItsReply L.state (x509_plan (x509_handed credential.now (option_copied server_api.entry) speculated (frame_maximum connection.old.stream_description))) tt (frame_maximum connection.old.stream_description)
        (standing connection.old link.old ids.old buffer.old) (standing connection.new link.new ids.new buffer.new)) }

    // After an answer in the hello it succeeds at once, and nothing changes.
    ensures at_once { speculated ≡ true → (result ≡ Ok tt) × (connection.new ≡ connection.old) × (link.new ≡ link.old) × (ids.new ≡ ids.old) × (buffer.new ≡ buffer.old) }
{
    if speculated {
        return Ok(());
    }
    let command = build_client_first(alloc, credential, server_api)?;
    connection.exchange_into(alloc, link, ids, command, buffer)?;
    take(alloc, held_reply(buffer))
}

// The body of the command.
fn authenticate_body(alloc: Global, username: &Option<Text>) -> Result<RawDocumentBuf, BsonFault>
    ensures body { IfOk result (λ body. body ≡ x509_body username.now) }
    ensures refused { IfErr result (λ fault. TooLongFor fault (x509_body username.now)) }
{
    let name = AuthMechanism::MongoDbX509.as_str();
    match username {
        Some(username) => {
            let username = username.as_str();
            document_of(
                alloc,
                &[
                    Some((AUTHENTICATE, RawValue::Int32(1))),
                    Some((MECHANISM, RawValue::Str(name))),
                    Some(("username", RawValue::Str(username))),
                ],
            )
        }
        None => document_of(
            alloc,
            &[
                Some((AUTHENTICATE, RawValue::Int32(1))),
                Some((MECHANISM, RawValue::Str(name))),
            ],
        ),
    }
}

// Takes the reply where the server took the certificate.
fn take(alloc: Global, reply: RawDocument<'_>) -> Result<(), Error>
    ensures taken { OnOk result (IsCertificateAccepted reply.entry.bytes.now) }
    ensures refused { IfErr result (λ e. X509Row reply.entry.bytes.now e.kind ⊎ (e.kind ≡ OutOfMemory)) }
{
    match Fields::of_well_formed(alloc, reply) {
        Ok(fields) if is_success(&fields) => Ok(()),
        Ok(_) => Err(refused(AuthFault::X509Failed)),
        Err(fault) => Err(unreadable_fields(fault)),
    }
}
