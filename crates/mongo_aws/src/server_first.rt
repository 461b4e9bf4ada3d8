ghost use Rattle.std.specs.Prelude.{◌≡◌, ◌⊎◌, ◌↔◌, IsTrue, ℕ, List, OnOk, IfOk, IfErr};
ghost use Rattle.mongo_bson.specs.declared.fault.BsonFault.TheVariants.{OutOfMemory as NoMemory};
ghost use Rattle.mongo_wire.specs.declared.error.ErrorKind.TheVariants.{OutOfMemory};
ghost use Rattle.mongo_sasl.specs.Reply.{IsSaslReply};
ghost use Rattle.mongo_sasl.specs.View.{sasl_response_of, kind_of_field_fault};
ghost use Rattle.mongo_aws.specs.Replies.{CarriesFirst, FirstReplyRow};
ghost use Rattle.mongo_aws.specs.Validity.{BeginsWith, IsValidFirst, ServerFirstRow};

use crate::server_message::read_message;
use crate::sts_host::{LONGEST_HOST, has_host_characters, has_no_empty_label};
use mongo_bson::{BsonFault, Bytes, OwnedValue, RawDocument, Text};
use mongo_command::FieldFault;
use mongo_sasl::{SaslView, refused};
use mongo_wire::{AuthFault, Error, ErrorKind};
use std::alloc::Global;

/// The length of the server's nonce in bytes: the client's 32, and as many behind them.
pub const SERVER_NONCE_LENGTH: usize = 64;

/// The server's first message, and the reply that carried it.
#[derive(Debug, Drop)]
pub struct ServerFirst {
    /// The conversation's id.
    pub conversation_id: OwnedValue,
    /// The nonce: the client's, and the server's behind it.
    pub server_nonce: Bytes,
    /// The host of STS that the client signs a request to.
    pub sts_host: Text,
    /// Whether the server says that the conversation is done.
    pub done: bool,
}

impl ServerFirst {
    /// Reads the server's first message out of the reply that carries it. Of the reply it copies the conversation's id, the nonce and
    /// the host, each once.
    ///
    /// Refusals, in this order: those of [`SaslView::parse`]; `Malformed` where the message is no well-formed document of just `s`, a
    /// binary of any subtype, and `h`, a text, in any order.
    pub fn parse(alloc: Global, response: RawDocument<'_>) -> Result<ServerFirst, Error>
        ensures read { IfOk result (CarriesFirst response.entry.bytes.now) }
        ensures refused { IfErr result (λ e. FirstReplyRow response.entry.bytes.now e.kind ⊎ (e.kind ≡ OutOfMemory)) }
    {
        match SaslView::parse(alloc, response) {
            Ok(view) => first_of(alloc, &view),
            Err(error) => Err(error),
        }
    }

    /// Whether a client whose nonce this is goes on.
    ///
    /// In this order: `EndedEarly` where the conversation is done, `Nonce` where the server's nonce doesn't begin with the client's,
    /// `AwsNonceLength` where it isn't of [`SERVER_NONCE_LENGTH`] bytes, `AwsHostEmpty` where the host is empty, `AwsHostLong` where it
    /// has more than 255 bytes, `AwsHostLabel` where one of its labels, which full stops part, is empty, `AwsHostCharacter` where it has
    /// another character than letters and digits of ASCII, `-`, `_` and `.`.
    pub fn validate(&self, nonce: &[u8]) -> Result<(), Error>
        ensures valid { OnOk result (IsValidFirst self.now nonce.now) }
        ensures refused { IfErr result (λ e. ServerFirstRow self.now nonce.now e.kind) }
    {
        if self.done {
            return Err(refused(AuthFault::EndedEarly));
        }
        if !begins_with(self.server_nonce.as_bytes(), nonce) {
            return Err(refused(AuthFault::Nonce));
        }
        if self.server_nonce.as_bytes().len() != SERVER_NONCE_LENGTH {
            return Err(refused(AuthFault::AwsNonceLength));
        }
        if self.sts_host.as_str().is_empty() {
            return Err(refused(AuthFault::AwsHostEmpty));
        }
        if self.sts_host.as_str().len() > LONGEST_HOST {
            return Err(refused(AuthFault::AwsHostLong));
        }
        if !has_no_empty_label(self.sts_host.as_str()) {
            return Err(refused(AuthFault::AwsHostLabel));
        }
        if !has_host_characters(self.sts_host.as_str()) {
            return Err(refused(AuthFault::AwsHostCharacter));
        }
        Ok(())
    }

    /// A copy of the message.
    pub fn try_clone(&self, alloc: Global) -> Result<ServerFirst, BsonFault>
        ensures copied { IfOk result (λ first. first ≡ self.now) }
        ensures refused { IfErr result (λ fault. fault ≡ NoMemory) }
    {
        Ok(ServerFirst {
            conversation_id: self.conversation_id.try_clone(alloc)?,
            server_nonce: self.server_nonce.try_clone(alloc)?,
            sts_host: self.sts_host.try_clone(alloc)?,
            done: self.done,
        })
    }
}

// Whether a nonce begins with ours.
fn begins_with(nonce: &[u8], ours: &[u8]) -> bool
    ensures { IsTrue result ↔ BeginsWith nonce.now ours.now }
{
    nonce.starts_with(ours)
}

// The server's first message, from what the reply says.
fn first_of(alloc: Global, view: &SaslView<'_>) -> Result<ServerFirst, Error>
    ensures read { (reply : List ℕ) → IsSaslReply reply (sasl_response_of view.now) → IfOk result (CarriesFirst reply) }
    ensures refused { (reply : List ℕ) → IsSaslReply reply (sasl_response_of view.now) → IfErr result (λ e. FirstReplyRow reply e.kind ⊎ (e.kind ≡ OutOfMemory)) }
{
    let message = match read_message(alloc, view.payload) {
        Ok(message) => message,
        Err(fault) => return Err(unread(fault)),
    };
    Ok(ServerFirst {
        conversation_id: view.conversation_id(alloc)?,
        server_nonce: Bytes::from_slice(alloc, message.server_nonce)?,
        sts_host: Text::from_slice(alloc, message.sts_host)?,
        done: view.done,
    })
}

// What a message that isn't read is refused as.
fn unread(fault: FieldFault) -> Error
    ensures { result.kind ≡ kind_of_field_fault fault }
{
    match fault {
        FieldFault::Unreadable => refused(AuthFault::Malformed),
        FieldFault::OutOfMemory => Error {
            kind: ErrorKind::OutOfMemory,
        },
    }
}
