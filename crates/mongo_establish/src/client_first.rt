ghost use Rattle.std.specs.Prelude.{◌≡◌, IfOk, IfErr, OnOk};
ghost use Rattle.mongo_wire.specs.declared.error.ErrorKind.{ErrorKind};
ghost use Rattle.mongo_wire.specs.declared.error.ErrorKind.TheVariants.{OutOfMemory};
ghost use Rattle.mongo_command.specs.Conversation.{or_else};
ghost use Rattle.mongo_establish.specs.Speculation.{ConversationRow, MechanismRow, speculation_by, speculation_in};
ghost use Rattle.mongo_scram.specs.User.{CredentialRow};
ghost use Rattle.mongo_establish.specs.First.{IsFirstIn, IsFirstMessageBy, IsScramFirst, IsUnmade};

use crate::{Conversation, conversation_of};
use mongo_bson::RawDocumentBuf;
use mongo_command::{Command, ServerAddress};
use mongo_sasl::{AuthMechanism, Credential, x509};
use mongo_scram::ScramVersion;
use mongo_wire::{AuthFault, Error, ErrorKind};
use std::alloc::Global;

/// The client's first message of a login that goes with a hello.
#[derive(Debug, Drop)]
pub enum ClientFirst {
    /// That of SCRAM.
    Scram(ScramVersion, mongo_scram::ClientFirst),
    /// That of X.509: the login's one command.
    X509(Command),
}

impl ClientFirst {
    ghost use Rattle.std.specs.Prelude.{◌≡◌, IfOk, IfErr};
    ghost use Rattle.mongo_command.specs.Exchange.{DocumentRefused};
    ghost use Rattle.mongo_establish.specs.First.{first_document, IsSameFirst};

    /// The document that carries it in a hello: the body of the command that would say it.
    ///
    /// `Bson(TooLong)` where it would pass 2147483647 bytes.
    pub fn to_document(&self, alloc: Global) -> Result<RawDocumentBuf, Error>
        ensures document { IfOk result (λ document. document ≡ first_document self.now) }
        ensures refused { IfErr result (λ e. DocumentRefused e.kind (first_document self.now)) }
    {
        match self {
            ClientFirst::Scram(version, first) => Ok(first.to_command(alloc, version)?.body),
            ClientFirst::X509(command) => Ok(command.body.try_clone(alloc)?),
        }
    }

    /// A copy of the message.
    pub fn try_clone(&self, alloc: Global) -> Result<ClientFirst, Error>
        ensures copied { IfOk result (λ first. IsSameFirst first self.now) }
        ensures refused { IfErr result (λ e. e.kind ≡ OutOfMemory) }
    {
        match self {
            ClientFirst::Scram(version, first) => {
                Ok(ClientFirst::Scram(*version, first.try_clone(alloc)?))
            }
            ClientFirst::X509(command) => Ok(ClientFirst::X509(command.try_clone(alloc)?)),
        }
    }
}

/// The first message of a login by this mechanism that goes with a hello to the address.
///
/// In this order, for SCRAM: `NoUsername`, `NoPassword`, `PropertiesGiven` where the credential has no login by SCRAM. For
/// MONGODB-CR, which isn't spoken here, `MongoDbCr`. For X.509 `Bson(TooLong)` where its body would pass 2147483647 bytes. None
/// for a mechanism that sends none.
pub fn build_speculative_client_first(
    alloc: Global,
    mechanism: &AuthMechanism,
    credential: &Credential,
    _address: &ServerAddress,
    nonce: &[u8; 32],
) -> Result<Option<ClientFirst>, Error>
    ensures first { IfOk result (IsFirstMessageBy mechanism.now credential.now nonce.now) }
    ensures made { OnOk result ((kind : ErrorKind) → MechanismRow mechanism.now credential.now kind → ⊥) }
    ensures refused { IfErr result (λ e. or_else (MechanismRow mechanism.now credential.now) (IsUnmade (speculation_by mechanism.now credential.now nonce.now)) e.kind) }
{
    match mechanism {
        AuthMechanism::MongoDbCr => Err(Error {
            kind: ErrorKind::Authentication(AuthFault::MongoDbCr),
        }),
        _ => conversation_first(alloc, conversation_of(*mechanism), credential, nonce),
    }
}

// The first message of a conversation, where it goes with a hello.
fn conversation_first(
    alloc: Global,
    conversation: Option<Conversation>,
    credential: &Credential,
    nonce: &[u8; 32],
) -> Result<Option<ClientFirst>, Error>
    ensures first { IfOk result (IsFirstIn conversation credential.now nonce.now) }
    ensures made { OnOk result ((kind : ErrorKind) → ConversationRow conversation credential.now kind → ⊥) }
    ensures refused { IfErr result (λ e. or_else (ConversationRow conversation credential.now) (IsUnmade (speculation_in conversation credential.now nonce.now)) e.kind) }
{
    match conversation {
        Some(Conversation::Scram(version)) => scram_first(alloc, version, credential, nonce),
        Some(Conversation::X509) => Ok(Some(ClientFirst::X509(x509::build_client_first(
            alloc, credential, None,
        )?))),
        _ => Ok(None),
    }
}

// The first message of a SCRAM login, whose command names the user's database.
fn scram_first(
    alloc: Global,
    version: ScramVersion,
    credential: &Credential,
    nonce: &[u8; 32],
) -> Result<Option<ClientFirst>, Error>
    ensures first { IfOk result (IsScramFirst version credential.now nonce.now) }
    ensures made { OnOk result ((kind : ErrorKind) → CredentialRow credential.now kind → ⊥) }
    ensures refused { IfErr result (λ e. or_else (CredentialRow credential.now) (λ kind. kind ≡ OutOfMemory) e.kind) }
{
    let info = version.client_auth_info(credential)?;
    let first = mongo_scram::ClientFirst::new(
        alloc,
        info.source,
        info.username,
        true,
        None,
        nonce,
    )?;
    Ok(Some(ClientFirst::Scram(version, first)))
}
