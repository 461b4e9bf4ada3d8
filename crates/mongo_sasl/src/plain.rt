//! PLAIN, RFC 4616: user name and password as they are, in one command.

ghost use Rattle.std.specs.Prelude.{◌≡◌, ◌⊎◌, option_copied, IfOk, IfErr, OnOk};
ghost use Rattle.mongo_wire.specs.declared.error.ErrorKind.TheVariants.{OutOfMemory};
ghost use Rattle.mongo_command.specs.Exchange.{DocumentRefused, frame_maximum};
ghost use Rattle.mongo_sasl.specs.EndsByScript.{standing, HoldsItsReply};
ghost use Rattle.mongo_sasl.specs.Plain.{plain_payload, IsPlainUser, PlainRow, plain_body, plain_command, plain_plan, IsFinished, FinishedRow, plain_user_of, plain_handed, EndsByPlain};

use crate::refusal::refused;
use crate::{AuthMechanism, Credential, EXTERNAL, SaslStart, SaslView};
use mongo_bson::{Bytes, RawDocument, Text};
use mongo_command::{Command, Connection, ServerApi, held_reply};
use mongo_wire::{AuthFault, Error, FrameBuffer, Link, RequestIds};
use std::alloc::Global;

// Who logs in, and the database that the user belongs to.
#[derive(Clone, Copy, Drop)]
struct PlainLogin<'a> {
    username: &'a str,
    password: &'a str,
    source: &'a str,
}

/// The message of a login (RFC 4616, section 2): a NUL after an authorization identity that is empty, the user name, a
/// NUL and the password.
pub fn payload_bytes(alloc: Global, username: &str, password: &str) -> Result<Bytes, Error>
    ensures payload { IfOk result (λ payload. payload ≡ plain_payload username.now password.now) }
    ensures refused { IfErr result (λ e. e.kind ≡ OutOfMemory) }
{
    let mut payload = Bytes::from_slice(alloc, b"\0")?;
    payload.extend_from_slice(username.as_bytes())?;
    payload.extend_from_slice(b"\0")?;
    payload.extend_from_slice(password.as_bytes())?;
    Ok(payload)
}

/// Logs a connection in as the credential's user, on the credential's source or on `$external`: by one command, which carries
/// the password as it is, and one reply, which passes through the buffer.
///
/// Refusals, in this order: `NoUsername`, `NoPassword`; those of [`Connection::exchange`]; those of [`SaslView::parse`];
/// `Malformed` where the reply doesn't end the conversation. A connection that keeps a fault answers it in place of an
/// exchange.
pub fn authenticate_stream<L: Link>(
    alloc: Global,
    connection: &mut Connection,
    link: &mut L,
    ids: &mut RequestIds,
    buffer: &mut FrameBuffer,
    credential: &Credential,
    server_api: Option<&ServerApi>,
) -> Result<(), Error>
    // It ends by its script: where it is accepted, one command was written, and one reply taken that ends the conversation.
    ensures login { EndsByPlain L.state (plain_handed credential.now (option_copied server_api.entry) (frame_maximum connection.old.stream_description)) result
        (standing connection.old link.old ids.old buffer.old) (standing connection.new link.new ids.new buffer.new) }

    // The buffer holds just that reply.
    ensures buffer { OnOk result (HoldsItsReply L.state (plain_plan (plain_handed credential.now (option_copied server_api.entry) (frame_maximum connection.old.stream_description))) tt (frame_maximum connection.old.stream_description)
        (standing connection.old link.old ids.old buffer.old) (standing connection.new link.new ids.new buffer.new)) }
{
    let login = login_of(credential)?;
    let command = start_command(alloc, login, server_api)?;
    connection.exchange_into(alloc, link, ids, command, buffer)?;
    finish(alloc, held_reply(buffer))
}

// The user of a credential.
fn login_of(credential: &Credential) -> Result<PlainLogin<'_>, Error>
    ensures user { IfOk result (λ login. IsPlainUser credential.now (plain_user_of login)) }
    ensures refused { IfErr result (λ e. PlainRow credential.now e.kind) }
{
    let Some(username) = &credential.username else {
        return Err(refused(AuthFault::NoUsername));
    };
    let Some(password) = &credential.password else {
        return Err(refused(AuthFault::NoPassword));
    };
    let source = match &credential.source {
        Some(source) => source.as_str(),
        None => EXTERNAL,
    };
    Ok(PlainLogin {
        username: username.as_str(),
        password: password.as_str(),
        source,
    })
}

// The command that carries the user's message.
fn start_command(
    alloc: Global,
    login: PlainLogin<'_>,
    server_api: Option<&ServerApi>,
) -> Result<Command, Error>
    ensures command { IfOk result (λ command. command ≡ plain_command (plain_user_of login.entry) (option_copied server_api.entry)) }
    ensures refused { IfErr result (λ e. DocumentRefused e.kind (plain_body (plain_user_of login.entry))) }
{
    let payload = payload_bytes(alloc, login.username, login.password)?;
    let source = Text::from_slice(alloc, login.source)?;
    SaslStart::new(source, AuthMechanism::Plain, payload, server_api.copied()).into_command(alloc)
}

// Takes the reply where it ends the conversation.
fn finish(alloc: Global, reply: RawDocument<'_>) -> Result<(), Error>
    ensures finished { OnOk result (IsFinished reply.entry.bytes.now) }
    ensures refused { IfErr result (λ e. FinishedRow reply.entry.bytes.now e.kind ⊎ (e.kind ≡ OutOfMemory)) }
{
    let view = SaslView::parse(alloc, reply)?;
    if view.done {
        Ok(())
    } else {
        Err(refused(AuthFault::Malformed))
    }
}
