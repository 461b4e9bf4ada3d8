ghost use Rattle.std.specs.Prelude.{◌≡◌, ◌⊎◌, ℕ, List, OnOk, IfOk, IfErr};
ghost use Rattle.mongo_bson.specs.declared.fault.BsonFault.TheVariants.{OutOfMemory as NoMemory};
ghost use Rattle.mongo_wire.specs.declared.error.ErrorKind.TheVariants.{OutOfMemory};
ghost use Rattle.mongo_sasl.specs.Reply.{IsSaslReply};
ghost use Rattle.mongo_sasl.specs.View.{sasl_response_of};
ghost use Rattle.mongo_scram.specs.Replies.{CarriesFirst, FirstReplyRow};
ghost use Rattle.mongo_scram.specs.Validity.{IsValidFirst, ServerFirstRow};

use crate::parse::read_server_first;
use mongo_bson::{BsonFault, Bytes, OwnedValue, RawDocument, Text};
use mongo_sasl::{SaslView, refused};
use mongo_wire::{AuthFault, Error};
use std::alloc::Global;
use std::str;

/// The fewest iterations that a server may ask for (RFC 5802, section 5.1, and RFC 7677, section 4).
pub const MIN_ITERATION_COUNT: u32 = 4096;

/// The server's first message, and the reply that carried it.
#[derive(Debug, Drop)]
pub struct ServerFirst {
    /// The conversation's id.
    pub conversation_id: OwnedValue,
    /// Whether the server says that the conversation is done.
    pub done: bool,
    /// The message.
    pub message: Text,
    /// The nonce: the client's, and the server's behind it.
    pub nonce: Text,
    /// The salt.
    pub salt: Bytes,
    /// The iteration count.
    pub i: u32,
}

impl ServerFirst {
    /// Reads the server's first message out of the reply that carries it. Of the reply it copies the conversation's id, the
    /// message, the nonce and the salt, each once.
    ///
    /// Refusals, in this order: those of [`SaslView::parse`]; `Malformed` where the message isn't UTF-8, has another shape
    /// than `r=` nonce `,s=` salt in base64 `,i=` iteration count and extensions, in this order; `CountUnreadable` where the
    /// count is no decimal number below 2^32.
    pub fn parse(alloc: Global, response: RawDocument<'_>) -> Result<ServerFirst, Error>
        ensures read { IfOk result (CarriesFirst response.entry.bytes.now) }
        ensures refused { IfErr result (λ e. FirstReplyRow response.entry.bytes.now e.kind ⊎ (e.kind ≡ OutOfMemory)) }
    {
        match SaslView::parse(alloc, response) {
            Ok(view) => first_of(alloc, &view),
            Err(error) => Err(error),
        }
    }

    /// Whether a client whose nonce this is goes on, and derives by at most `max_iterations` iterations.
    ///
    /// In this order: `EndedEarly` where the conversation is done, `Nonce` where the server's nonce doesn't begin with the
    /// client's, `CountLow` where the iteration count is below [`MIN_ITERATION_COUNT`], `CountHigh` where it is above `max_iterations`.
    pub fn validate(&self, nonce: &str, max_iterations: u32) -> Result<(), Error>
        ensures valid { OnOk result (IsValidFirst self.now nonce.now max_iterations) }
        ensures refused { IfErr result (λ e. ServerFirstRow self.now nonce.now max_iterations e.kind) }
    {
        if self.done {
            return Err(refused(AuthFault::EndedEarly));
        }
        if !self.nonce.as_str().starts_with(nonce) {
            return Err(refused(AuthFault::Nonce));
        }
        if self.i < MIN_ITERATION_COUNT {
            return Err(refused(AuthFault::CountLow));
        }
        if self.i > max_iterations {
            return Err(refused(AuthFault::CountHigh));
        }
        Ok(())
    }

    /// A copy of the message.
    pub fn try_clone(&self, alloc: Global) -> Result<ServerFirst, BsonFault>
        ensures copied { IfOk result (λ first. first ≡ self.now) }
        ensures refused { IfErr result (λ fault. fault ≡ NoMemory) }
    {
        Ok(ServerFirst {
            conversation_id: self.conversation_id.try_clone(alloc)?,
            done: self.done,
            message: self.message.try_clone(alloc)?,
            nonce: self.nonce.try_clone(alloc)?,
            salt: self.salt.try_clone(alloc)?,
            i: self.i,
        })
    }
}

// The server's first message, from what the reply says.
fn first_of(alloc: Global, view: &SaslView<'_>) -> Result<ServerFirst, Error>
    ensures read { (reply : List ℕ) → IsSaslReply reply (sasl_response_of view.now) → IfOk result (CarriesFirst reply) }
    ensures refused { (reply : List ℕ) → IsSaslReply reply (sasl_response_of view.now) → IfErr result (λ e. FirstReplyRow reply e.kind ⊎ (e.kind ≡ OutOfMemory)) }
{
    let Ok(message) = str::from_utf8(view.payload) else {
        return Err(refused(AuthFault::Malformed));
    };
    let read = read_server_first(alloc, message)?;
    Ok(ServerFirst {
        conversation_id: view.conversation_id(alloc)?,
        done: view.done,
        message: Text::from_slice(alloc, message)?,
        nonce: Text::from_slice(alloc, read.nonce)?,
        salt: read.salt,
        i: read.i,
    })
}
