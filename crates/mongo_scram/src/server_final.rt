ghost use Rattle.std.specs.Prelude.{◌≡◌, ◌⊎◌, ℕ, List, OnOk, IfOk, IfErr};
ghost use Rattle.mongo_bson.specs.declared.fault.BsonFault.TheVariants.{OutOfMemory as NoMemory};
ghost use Rattle.mongo_wire.specs.declared.error.ErrorKind.TheVariants.{OutOfMemory};
ghost use Rattle.mongo_sasl.specs.Reply.{IsSaslReply};
ghost use Rattle.mongo_sasl.specs.View.{sasl_response_of};
ghost use Rattle.mongo_scram.specs.Client.{auth_message_of, final_conversation};
ghost use Rattle.mongo_scram.specs.Messages.{verifier};
ghost use Rattle.mongo_scram.specs.Replies.{CarriesFinal, FinalReplyRow};
ghost use Rattle.mongo_scram.specs.Validity.{IsValidFinal, ServerFinalRow};
ghost use Rattle.mongo_scram.specs.Version.{digest_of};

use crate::ScramVersion;
use crate::messages::ClientFinal;
use crate::parse::read_server_final;
use crate::salted_password::SaltedPassword;
use mongo_bson::{BsonFault, Bytes, OwnedValue, RawDocument, Text};
use mongo_mac::{Tag, are_same_bytes};
use mongo_sasl::{SaslView, refused};
use mongo_wire::{AuthFault, Error};
use std::alloc::Global;
use std::{fmt, str};

/// What the server's last message says.
#[derive(Drop)]
pub enum ServerFinalBody {
    /// The login failed (`e=`), with the server's text.
    Error(Text),
    /// The server's verifier (`v=`); None where its text is no base64.
    Verifier(Option<Bytes>),
}

/// The server's last message, and the reply that carried it.
#[derive(Debug, Drop)]
pub struct ServerFinal {
    /// The conversation's id.
    pub conversation_id: OwnedValue,
    /// Whether the server says that the conversation is done.
    pub done: bool,
    /// What it says.
    pub body: ServerFinalBody,
}

// A verifier is never shown: who knows it can try passwords against it.
impl fmt::Debug for ServerFinalBody {
    ghost use Rattle.std.specs.Prelude.{Some, codes};

    ghost debug_output = { λ _. Some (codes "ServerFinalBody { .. }") };

    fn fmt<W: fmt::Write>(&self, f: &mut fmt::Formatter<W>) -> fmt::Result {
        f.write_str("ServerFinalBody { .. }")
    }
}

impl ServerFinalBody {
    /// A copy of it.
    pub fn try_clone(&self, alloc: Global) -> Result<ServerFinalBody, BsonFault>
        ensures copied { IfOk result (λ body. body ≡ self.now) }
        ensures refused { IfErr result (λ fault. fault ≡ NoMemory) }
    {
        match self {
            ServerFinalBody::Error(text) => Ok(ServerFinalBody::Error(text.try_clone(alloc)?)),
            ServerFinalBody::Verifier(None) => Ok(ServerFinalBody::Verifier(None)),
            ServerFinalBody::Verifier(Some(verifier)) => {
                Ok(ServerFinalBody::Verifier(Some(verifier.try_clone(alloc)?)))
            }
        }
    }
}

impl ServerFinal {
    /// Reads the server's last message out of the reply that carries it. Of the reply it copies the conversation's id, and
    /// the text of an error or the bytes of the verifier.
    ///
    /// Refusals, in this order: those of [`SaslView::parse`]; `Malformed` where the message isn't UTF-8, or begins neither
    /// with `e=` nor with `v=`.
    pub fn parse(alloc: Global, response: RawDocument<'_>) -> Result<ServerFinal, Error>
        ensures read { IfOk result (CarriesFinal response.entry.bytes.now) }
        ensures refused { IfErr result (λ e. FinalReplyRow response.entry.bytes.now e.kind ⊎ (e.kind ≡ OutOfMemory)) }
    {
        match SaslView::parse(alloc, response) {
            Ok(view) => server_final_of(alloc, &view),
            Err(error) => Err(error),
        }
    }

    /// Whether the server has proved that it knows the key: the verifier is compared as a whole, over every byte. It takes
    /// no memory.
    ///
    /// In this order: `Conversation` where the reply names another conversation, `ServerError` with the text of an error,
    /// `Malformed` where the verifier is no base64, `Verifier` where it is another one.
    pub fn validate(
        self,
        salted: &Tag,
        client_final: &ClientFinal,
        version: &ScramVersion,
    ) -> Result<(), Error>
        ensures valid { OnOk result (IsValidFinal self (final_conversation client_final.now) (verifier (digest_of version.now) salted.now (auth_message_of client_final.now))) }
        ensures refused { IfErr result (λ e. ServerFinalRow self (final_conversation client_final.now) (verifier (digest_of version.now) salted.now (auth_message_of client_final.now)) e.kind) }
    {
        let salted = SaltedPassword::new(*version, *salted);
        self.validate_by(&salted, client_final, version)
    }

    // The same by a salted password whose keys were kept.
    pub(crate) fn validate_by(
        self,
        salted: &SaltedPassword,
        client_final: &ClientFinal,
        version: &ScramVersion,
    ) -> Result<(), Error>
        ensures valid { OnOk result (IsValidFinal self (final_conversation client_final.now) (verifier (digest_of version.now) salted.now (auth_message_of client_final.now))) }
        ensures refused { IfErr result (λ e. ServerFinalRow self (final_conversation client_final.now) (verifier (digest_of version.now) salted.now (auth_message_of client_final.now)) e.kind) }
    {
        let ServerFinal {
            conversation_id,
            body,
            ..
        } = self;
        if conversation_id != *client_final.conversation_id() {
            return Err(refused(AuthFault::Conversation));
        }
        match body {
            ServerFinalBody::Error(text) => Err(refused(AuthFault::ServerError(text))),
            ServerFinalBody::Verifier(None) => Err(refused(AuthFault::Malformed)),
            ServerFinalBody::Verifier(Some(verifier)) => {
                let auth_message = client_final.auth_message().as_bytes();
                let signature = salted.verifier(version, auth_message);
                if are_same_bytes(verifier.as_bytes(), signature.as_bytes()) {
                    Ok(())
                } else {
                    Err(refused(AuthFault::Verifier))
                }
            }
        }
    }

    /// A copy of the message.
    pub fn try_clone(&self, alloc: Global) -> Result<ServerFinal, BsonFault>
        ensures copied { IfOk result (λ last. last ≡ self.now) }
        ensures refused { IfErr result (λ fault. fault ≡ NoMemory) }
    {
        Ok(ServerFinal {
            conversation_id: self.conversation_id.try_clone(alloc)?,
            done: self.done,
            body: self.body.try_clone(alloc)?,
        })
    }
}

// The server's last message, from what the reply says.
fn server_final_of(alloc: Global, view: &SaslView<'_>) -> Result<ServerFinal, Error>
    ensures read { (reply : List ℕ) → IsSaslReply reply (sasl_response_of view.now) → IfOk result (CarriesFinal reply) }
    ensures refused { (reply : List ℕ) → IsSaslReply reply (sasl_response_of view.now) → IfErr result (λ e. FinalReplyRow reply e.kind ⊎ (e.kind ≡ OutOfMemory)) }
{
    let Ok(message) = str::from_utf8(view.payload) else {
        return Err(refused(AuthFault::Malformed));
    };
    let body = read_server_final(alloc, message)?;
    Ok(ServerFinal {
        conversation_id: view.conversation_id(alloc)?,
        done: view.done,
        body,
    })
}
