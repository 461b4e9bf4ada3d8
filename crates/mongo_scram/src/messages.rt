ghost use Rattle.std.specs.Prelude.{◌≡◌, codes, take, IfOk, IfErr, string_bytes};
ghost use Rattle.mongo_scram.specs.Attributes.{gs2_header};
ghost use Rattle.mongo_scram.specs.Base64.{base64_of};
ghost use Rattle.mongo_wire.specs.declared.error.ErrorKind.TheVariants.{OutOfMemory};

use crate::ScramVersion;
use crate::attributes::GS2_HEADER;
use crate::base64_text::encoded;
use crate::client_texts::{close_text, open_text, transcript_text};
use crate::salted_password::SaltedPassword;
use crate::server_first::ServerFirst;
use mongo_bson::{Bytes, OwnedValue, RawValue, Text};
use mongo_command::{Command, ServerApi};
use mongo_mac::Tag;
use mongo_sasl::{SaslContinue, SaslStart};
use mongo_wire::Error;
use std::alloc::Global;
use std::fmt;

/// A nonce for a message: 32 bytes in base64, 44 characters.
pub fn nonce_text(alloc: Global, nonce: &[u8; 32]) -> Result<Text, Error>
    ensures nonce { IfOk result (λ text. text ≡ base64_of nonce.now) }
    ensures refused { IfErr result (λ e. e.kind ≡ OutOfMemory) }
{
    Ok(Text::from_string(encoded(alloc, nonce.as_slice())?))
}

/// The client's first message.
#[derive(Debug)]
pub struct ClientFirst {
    source: Text,
    message: String,
    nonce: Text,
    include_db: bool,
    server_api: Option<ServerApi>,
    pub ghost opens: { take 3 (string_bytes message) ≡ gs2_header },
}

// Dropped by a call, so that the proofs of its owners don't walk through its parts.
impl Drop for ClientFirst {
    fn drop(self) {
        let ClientFirst {
            source: _,
            message: _,
            nonce: _,
            include_db: _,
            server_api: _,
        } = self;
    }
}

impl ClientFirst {
    ghost use Rattle.std.specs.Prelude.{◌≡◌, codes, IfOk, IfErr};
    ghost use Rattle.mongo_command.specs.Exchange.{DocumentRefused};
    ghost use Rattle.mongo_scram.specs.Base64.{base64_of};
    ghost use Rattle.mongo_scram.specs.Client.{message_of, bare_of, nonce_of, first_source, includes_db, server_api_of, SameFirst};
    ghost use Rattle.mongo_scram.specs.Commands.{first_body, first_command};
    ghost use Rattle.mongo_scram.specs.Messages.{open_message};

    /// The first message of a user: `n,,n=` the user name `,r=` the nonce in base64. With `include_db` its command names
    /// the source's database, as one that goes with a hello does; with a server API its command declares it.
    pub fn new(
        alloc: Global,
        source: &str,
        username: &str,
        include_db: bool,
        server_api: Option<ServerApi>,
        nonce: &[u8; 32],
    ) -> Result<ClientFirst, Error>
        ensures message { IfOk result (λ first. message_of first ≡ open_message username.now (base64_of nonce.now)) }
        ensures nonce { IfOk result (λ first. nonce_of first ≡ base64_of nonce.now) }
        ensures source { IfOk result (λ first. first_source first ≡ source.now) }
        ensures db { IfOk result (λ first. includes_db first ≡ include_db) }
        ensures api { IfOk result (λ first. server_api_of first ≡ server_api) }
        ensures refused { IfErr result (λ e. e.kind ≡ OutOfMemory) }
    {
        let nonce = nonce_text(alloc, nonce)?;
        ClientFirst::of_nonce(alloc, source, username, include_db, server_api, nonce)
    }

    /// The same with the text of a nonce. RFC 5802 has nonces of printable ASCII without a comma.
    pub fn with_nonce(
        alloc: Global,
        source: &str,
        username: &str,
        include_db: bool,
        server_api: Option<ServerApi>,
        nonce: &str,
    ) -> Result<ClientFirst, Error>
        ensures message { IfOk result (λ first. message_of first ≡ open_message username.now nonce.now) }
        ensures nonce { IfOk result (λ first. nonce_of first ≡ nonce.now) }
        ensures source { IfOk result (λ first. first_source first ≡ source.now) }
        ensures db { IfOk result (λ first. includes_db first ≡ include_db) }
        ensures api { IfOk result (λ first. server_api_of first ≡ server_api) }
        ensures refused { IfErr result (λ e. e.kind ≡ OutOfMemory) }
    {
        let nonce = Text::from_slice(alloc, nonce)?;
        ClientFirst::of_nonce(alloc, source, username, include_db, server_api, nonce)
    }

    // The same with the nonce itself.
    fn of_nonce(
        alloc: Global,
        source: &str,
        username: &str,
        include_db: bool,
        server_api: Option<ServerApi>,
        nonce: Text,
    ) -> Result<ClientFirst, Error>
        ensures message { IfOk result (λ first. message_of first ≡ open_message username.now nonce) }
        ensures nonce { IfOk result (λ first. nonce_of first ≡ nonce) }
        ensures source { IfOk result (λ first. first_source first ≡ source.now) }
        ensures db { IfOk result (λ first. includes_db first ≡ include_db) }
        ensures api { IfOk result (λ first. server_api_of first ≡ server_api) }
        ensures refused { IfErr result (λ e. e.kind ≡ OutOfMemory) }
    {
        let message = open_text(alloc, username, nonce.as_str())?;
        Ok(ClientFirst {
            source: Text::from_slice(alloc, source)?,
            message,
            nonce,
            include_db,
            server_api,
        })
    }

    /// The message.
    pub fn message(&self) -> &str
        ensures { result.now ≡ message_of self.now }
    {
        self.message.as_str()
    }

    /// The message without its GS2 header (RFC 5802, `client-first-message-bare`).
    pub fn bare_message(&self) -> &str
        ensures { result.now ≡ bare_of self.now }
    {
        match self.message.as_str().strip_prefix(GS2_HEADER) {
            Some(bare) => bare,
            None => unreachable!(),
        }
    }

    /// The GS2 header, `n,,`.
    pub fn gs2_header(&self) -> &str
        ensures { result.now ≡ gs2_header }
    {
        GS2_HEADER
    }

    /// The client's nonce.
    pub fn nonce(&self) -> &str
        ensures { result.now ≡ nonce_of self.now }
    {
        self.nonce.as_str()
    }

    /// The `saslStart` that carries the message, of this version's mechanism; where it was asked for, `db` names the
    /// source's database beside the message.
    ///
    /// `Bson(TooLong)` where the body would pass 2147483647 bytes.
    pub fn to_command(&self, alloc: Global, version: &ScramVersion) -> Result<Command, Error>
        ensures command { IfOk result (λ command. command ≡ first_command version.now (includes_db self.now) (first_source self.now) (message_of self.now) (server_api_of self.now)) }
        ensures refused { IfErr result (λ e. DocumentRefused e.kind (first_body version.now (includes_db self.now) (first_source self.now) (message_of self.now))) }
    {
        let source = self.source.try_clone(alloc)?;
        let payload = Bytes::from_slice(alloc, self.message.as_bytes())?;
        let start = SaslStart::new(source, version.mechanism(), payload, self.server_api);
        let mut command = start.into_command(alloc)?;
        if self.include_db {
            command
                .body
                .append("db", RawValue::Str(self.source.as_str()))?;
        }
        Ok(command)
    }

    /// A copy of the message.
    pub fn try_clone(&self, alloc: Global) -> Result<ClientFirst, Error>
        ensures copied { IfOk result (λ first. SameFirst first self.now) }
        ensures refused { IfErr result (λ e. e.kind ≡ OutOfMemory) }
    {
        Ok(ClientFirst {
            source: self.source.try_clone(alloc)?,
            message: String::from_str(alloc, self.message.as_str())?,
            nonce: self.nonce.try_clone(alloc)?,
            include_db: self.include_db,
            server_api: self.server_api,
        })
    }
}

/// The client's last message, and what it and the server sign.
pub struct ClientFinal {
    source: Text,
    message: String,
    auth_message: String,
    conversation_id: OwnedValue,
    server_api: Option<ServerApi>,
}

// Dropped by a call, so that the proofs of its owners don't walk through its parts.
impl Drop for ClientFinal {
    fn drop(self) {
        let ClientFinal {
            source: _,
            message: _,
            auth_message: _,
            conversation_id: _,
            server_api: _,
        } = self;
    }
}

// A proof is never shown: who knows it can try passwords against it.
impl fmt::Debug for ClientFinal {
    ghost use Rattle.std.specs.Prelude.{Some, codes};

    ghost debug_output = { λ _. Some (codes "ClientFinal { .. }") };

    fn fmt<W: fmt::Write>(&self, f: &mut fmt::Formatter<W>) -> fmt::Result {
        f.write_str("ClientFinal { .. }")
    }
}

impl ClientFinal {
    ghost use Rattle.std.specs.Prelude.{◌≡◌, IfOk, IfErr};
    ghost use Rattle.mongo_command.specs.Exchange.{DocumentRefused};
    ghost use Rattle.mongo_sasl.specs.Commands.{continue_body};
    ghost use Rattle.mongo_scram.specs.Client.{bare_of, final_of, auth_message_of, final_conversation, final_source_of, final_api_of};
    ghost use Rattle.mongo_scram.specs.Commands.{final_command};
    ghost use Rattle.mongo_scram.specs.Messages.{transcript, close_message};
    ghost use Rattle.mongo_scram.specs.Version.{digest_of};

    /// The message that proves the salted password to the server: `c=biws,r=` the server's nonce `,p=` the proof in
    /// base64 (RFC 5802, section 3). With a server API its command declares it.
    pub fn new(
        alloc: Global,
        source: &str,
        salted: &Tag,
        client_first: &ClientFirst,
        server_first: &ServerFirst,
        version: &ScramVersion,
        server_api: Option<ServerApi>,
    ) -> Result<ClientFinal, Error>
        ensures auth_message { IfOk result (λ last. auth_message_of last ≡
            transcript (bare_of client_first.now) server_first.now.message server_first.now.nonce) }
        ensures message { IfOk result (λ last. final_of last ≡
            close_message (digest_of version.now) salted.now (auth_message_of last) server_first.now.nonce) }
        ensures conversation { IfOk result (λ last. final_conversation last ≡ server_first.now.conversation_id) }
        ensures source { IfOk result (λ last. final_source_of last ≡ source.now) }
        ensures api { IfOk result (λ last. final_api_of last ≡ server_api) }
        ensures refused { IfErr result (λ e. e.kind ≡ OutOfMemory) }
    {
        let salted = SaltedPassword::new(*version, *salted);
        ClientFinal::signed_by(
            alloc,
            source,
            &salted,
            client_first,
            server_first,
            version,
            server_api,
        )
    }

    // The same by a salted password whose keys were kept.
    #[tactic(auto, unfolding(crate::specs::Messages::close_message))]
    pub(crate) fn signed_by(
        alloc: Global,
        source: &str,
        salted: &SaltedPassword,
        client_first: &ClientFirst,
        server_first: &ServerFirst,
        version: &ScramVersion,
        server_api: Option<ServerApi>,
    ) -> Result<ClientFinal, Error>
        ensures auth_message { IfOk result (λ last. auth_message_of last ≡
            transcript (bare_of client_first.now) server_first.now.message server_first.now.nonce) }
        ensures message { IfOk result (λ last. final_of last ≡
            close_message (digest_of version.now) salted.now (auth_message_of last) server_first.now.nonce) }
        ensures conversation { IfOk result (λ last. final_conversation last ≡ server_first.now.conversation_id) }
        ensures source { IfOk result (λ last. final_source_of last ≡ source.now) }
        ensures api { IfOk result (λ last. final_api_of last ≡ server_api) }
        ensures refused { IfErr result (λ e. e.kind ≡ OutOfMemory) }
    {
        let nonce = server_first.nonce.as_str();
        let auth_message = transcript_text(
            alloc,
            client_first.bare_message(),
            server_first.message.as_str(),
            nonce,
        )?;
        let proof = salted.proof(version, auth_message.as_bytes());
        let message = close_text(alloc, nonce, &proof)?;
        Ok(ClientFinal {
            source: Text::from_slice(alloc, source)?,
            message,
            auth_message,
            conversation_id: server_first.conversation_id.try_clone(alloc)?,
            server_api,
        })
    }

    /// The message.
    pub fn message(&self) -> &str
        ensures { result.now ≡ final_of self.now }
    {
        self.message.as_str()
    }

    /// What the client and the server sign (RFC 5802, `AuthMessage`).
    pub fn auth_message(&self) -> &str
        ensures { result.now ≡ auth_message_of self.now }
    {
        self.auth_message.as_str()
    }

    /// The message as the payload of a command.
    pub fn payload(&self) -> &[u8]
        ensures { result.now ≡ final_of self.now }
    {
        self.message.as_bytes()
    }

    /// The `saslContinue` that carries the message, of the conversation that the server's first message named.
    ///
    /// `Bson(TooLong)` where the body would pass 2147483647 bytes.
    pub fn to_command(&self, alloc: Global) -> Result<Command, Error>
        ensures command { IfOk result (λ command. command ≡ final_command (final_conversation self.now) (final_source_of self.now) (final_of self.now) (final_api_of self.now)) }
        ensures refused { IfErr result (λ e. DocumentRefused e.kind (continue_body (final_conversation self.now) (final_of self.now))) }
    {
        let source = self.source.try_clone(alloc)?;
        let conversation_id = self.conversation_id.try_clone(alloc)?;
        let payload = Bytes::from_slice(alloc, self.message.as_bytes())?;
        SaslContinue::new(source, conversation_id, payload, self.server_api).into_command(alloc)
    }

    /// A copy of the message.
    pub fn try_clone(&self, alloc: Global) -> Result<ClientFinal, Error>
        ensures message { IfOk result (λ last. final_of last ≡ final_of self.now) }
        ensures auth_message { IfOk result (λ last. auth_message_of last ≡ auth_message_of self.now) }
        ensures conversation { IfOk result (λ last. final_conversation last ≡ final_conversation self.now) }
        ensures source { IfOk result (λ last. final_source_of last ≡ final_source_of self.now) }
        ensures api { IfOk result (λ last. final_api_of last ≡ final_api_of self.now) }
        ensures refused { IfErr result (λ e. e.kind ≡ OutOfMemory) }
    {
        Ok(ClientFinal {
            source: self.source.try_clone(alloc)?,
            message: String::from_str(alloc, self.message.as_str())?,
            auth_message: String::from_str(alloc, self.auth_message.as_str())?,
            conversation_id: self.conversation_id.try_clone(alloc)?,
            server_api: self.server_api,
        })
    }

    /// The conversation that the server's first message named.
    pub(crate) fn conversation_id(&self) -> &OwnedValue
        ensures { result.now ≡ final_conversation self.now }
    {
        &self.conversation_id
    }
}
