ghost use Rattle.std.specs.Prelude.{◌≡◌};
ghost use Rattle.mongo_establish.specs.Spoken.{conversation_of, is_spoken};

use mongo_sasl::AuthMechanism;
use mongo_scram::ScramVersion;

/// The conversation that a login is.
#[derive(Clone, Copy, Debug, PartialEq, Eq)]
pub enum Conversation {
    /// That of SCRAM, RFC 5802.
    Scram(ScramVersion),
    /// That of PLAIN, RFC 4616: one message.
    Plain,
    /// That of MONGODB-X509: one command.
    X509,
}

/// The conversation of a login by the mechanism. None where none is built here: for MONGODB-CR, which is refused, and for
/// MONGODB-AWS and MONGODB-OIDC.
pub fn conversation_of(mechanism: AuthMechanism) -> Option<Conversation>
    ensures { result ≡ conversation_of mechanism }
{
    match mechanism {
        AuthMechanism::ScramSha1 => Some(Conversation::Scram(ScramVersion::Sha1)),
        AuthMechanism::ScramSha256 => Some(Conversation::Scram(ScramVersion::Sha256)),
        AuthMechanism::MongoDbX509 => Some(Conversation::X509),
        AuthMechanism::Plain => Some(Conversation::Plain),
        AuthMechanism::MongoDbCr | AuthMechanism::MongoDbAws | AuthMechanism::MongoDbOidc => None,
    }
}

/// Whether a login by the mechanism is made here, or is refused with its reason, as one by MONGODB-CR is.
pub fn is_spoken(mechanism: AuthMechanism) -> bool
    ensures { result ≡ is_spoken mechanism }
{
    match mechanism {
        AuthMechanism::MongoDbCr => true,
        _ => conversation_of(mechanism).is_some(),
    }
}
