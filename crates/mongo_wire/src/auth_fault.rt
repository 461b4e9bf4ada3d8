ghost use Rattle.std.specs.Prelude.{◌≡◌, IfOk, IfErr};

use mongo_bson::{BsonFault, Text};
use std::alloc::Global;

/// Why a login was refused.
#[derive(Debug, Drop)]
pub enum AuthFault {
    /// The credential has no user name.
    NoUsername,
    /// The credential has no password.
    NoPassword,
    /// SCRAM takes no mechanism properties.
    PropertiesGiven,
    /// MONGODB-CR is refused.
    MongoDbCr,
    /// The server refused, with its text.
    Refused(Text),
    /// A message of the conversation can't be read.
    Malformed,
    /// The server said that the conversation is done too early.
    EndedEarly,
    /// The server's nonce doesn't begin with ours.
    Nonce,
    /// The iteration count is no 32-bit number.
    CountUnreadable,
    /// The iteration count is below 4096.
    CountLow,
    /// The iteration count is above the ceiling.
    CountHigh,
    /// The conversation id changed.
    Conversation,
    /// The server ended the conversation with an error, with its text.
    ServerError(Text),
    /// The server's verifier isn't the one of this conversation.
    Verifier,
    /// The server's last message doesn't end the conversation.
    NotCompleted,
    /// The password holds a control character.
    PasswordControl,
    /// The X.509 login was refused.
    X509Failed,
    /// MONGODB-AWS with a source other than `$external`.
    AwsSource,
    /// The server's nonce hasn't 64 bytes.
    AwsNonceLength,
    /// The STS host is empty.
    AwsHostEmpty,
    /// The STS host is longer than 255 bytes.
    AwsHostLong,
    /// The STS host has an empty label.
    AwsHostLabel,
    /// The STS host has a character that a host name hasn't.
    AwsHostCharacter,
    /// An AWS credential is empty or has a character that isn't visible ASCII.
    AwsCredentialCharacter,
    /// No provider gave AWS credentials.
    AwsNoProvider,
    /// The address is no host, which a human's token needs.
    AddressNotTcp,
    /// The allowed hosts aren't all texts.
    AllowedHostsNotTexts,
    /// The host isn't among the allowed ones.
    HostNotAllowed,
    /// No callback gives a token.
    NoCallback,
    /// The environment's tokens aren't fetched here.
    EnvironmentUnsupported,
    /// The mechanism can't log in again on a connection.
    ReauthenticationUnsupported,
}

impl AuthFault {
    /// A copy of the fault.
    pub fn try_clone(&self, alloc: Global) -> Result<AuthFault, BsonFault>
        ensures copied { IfOk result (λ fault. fault ≡ self.now) }
        ensures refused { IfErr result (λ fault. fault ≡ BsonFault.OutOfMemory) }
    {
        let copy = match self {
            AuthFault::NoUsername => AuthFault::NoUsername,
            AuthFault::NoPassword => AuthFault::NoPassword,
            AuthFault::PropertiesGiven => AuthFault::PropertiesGiven,
            AuthFault::MongoDbCr => AuthFault::MongoDbCr,
            AuthFault::Refused(text) => AuthFault::Refused(text.try_clone(alloc)?),
            AuthFault::Malformed => AuthFault::Malformed,
            AuthFault::EndedEarly => AuthFault::EndedEarly,
            AuthFault::Nonce => AuthFault::Nonce,
            AuthFault::CountUnreadable => AuthFault::CountUnreadable,
            AuthFault::CountLow => AuthFault::CountLow,
            AuthFault::CountHigh => AuthFault::CountHigh,
            AuthFault::Conversation => AuthFault::Conversation,
            AuthFault::ServerError(text) => AuthFault::ServerError(text.try_clone(alloc)?),
            AuthFault::Verifier => AuthFault::Verifier,
            AuthFault::NotCompleted => AuthFault::NotCompleted,
            AuthFault::PasswordControl => AuthFault::PasswordControl,
            AuthFault::X509Failed => AuthFault::X509Failed,
            AuthFault::AwsSource => AuthFault::AwsSource,
            AuthFault::AwsNonceLength => AuthFault::AwsNonceLength,
            AuthFault::AwsHostEmpty => AuthFault::AwsHostEmpty,
            AuthFault::AwsHostLong => AuthFault::AwsHostLong,
            AuthFault::AwsHostLabel => AuthFault::AwsHostLabel,
            AuthFault::AwsHostCharacter => AuthFault::AwsHostCharacter,
            AuthFault::AwsCredentialCharacter => AuthFault::AwsCredentialCharacter,
            AuthFault::AwsNoProvider => AuthFault::AwsNoProvider,
            AuthFault::AddressNotTcp => AuthFault::AddressNotTcp,
            AuthFault::AllowedHostsNotTexts => AuthFault::AllowedHostsNotTexts,
            AuthFault::HostNotAllowed => AuthFault::HostNotAllowed,
            AuthFault::NoCallback => AuthFault::NoCallback,
            AuthFault::EnvironmentUnsupported => AuthFault::EnvironmentUnsupported,
            AuthFault::ReauthenticationUnsupported => AuthFault::ReauthenticationUnsupported,
        };
        Ok(copy)
    }
}
