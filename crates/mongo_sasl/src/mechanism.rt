ghost use Rattle.std.specs.Prelude.{◌↔◌, IsTrue, Contains};
ghost use Rattle.mongo_sasl.specs.declared.mechanism.AuthMechanism.TheVariants.{ScramSha256};
ghost use Rattle.mongo_sasl.specs.Mechanism.{name_of};

use crate::EXTERNAL;
use mongo_bson::Texts;
use mongo_command::{ADMIN, StreamDescription};
use mongo_wire::ArgumentFault;
use std::str::FromStr;

// The mechanisms' names, as the authentication specification spells them.
const MONGODB_CR: &str = "MONGODB-CR";

const SCRAM_SHA_1: &str = "SCRAM-SHA-1";

const SCRAM_SHA_256: &str = "SCRAM-SHA-256";

const MONGODB_X509: &str = "MONGODB-X509";

const PLAIN: &str = "PLAIN";

const MONGODB_AWS: &str = "MONGODB-AWS";

const MONGODB_OIDC: &str = "MONGODB-OIDC";

// The name of Kerberos' mechanism, which isn't spoken here and has a refusal of its own.
const GSSAPI: &str = "GSSAPI";

/// The login mechanisms of the authentication specification.
#[derive(Clone, Copy, Debug, PartialEq, Eq)]
pub enum AuthMechanism {
    /// MONGODB-CR, the challenge and response of old servers. Its name is read, and a login by it is refused.
    MongoDbCr,
    /// SCRAM-SHA-1, RFC 5802.
    ScramSha1,
    /// SCRAM-SHA-256, RFC 7677.
    ScramSha256,
    /// MONGODB-X509: the certificate of the link is the credential.
    MongoDbX509,
    /// PLAIN, RFC 4616: user name and password as they are.
    Plain,
    /// MONGODB-AWS: a request signed for the Security Token Service.
    MongoDbAws,
    /// MONGODB-OIDC: an access token of OpenID Connect.
    MongoDbOidc,
}

impl AuthMechanism {
    ghost use Rattle.std.specs.Prelude.{◌≡◌, Result, Ok, option_copied};
    ghost use Rattle.mongo_wire.specs.declared.fault.ArgumentFault.{ArgumentFault};
    ghost use Rattle.mongo_sasl.specs.declared.mechanism.AuthMechanism.{AuthMechanism};
    ghost use Rattle.mongo_sasl.specs.Mechanism.{name_of, Names, source_of, IsNegotiated};

    /// The mechanism's name, which reads as the mechanism again and as nothing else.
    pub fn as_str(&self) -> &'static str
        ensures name { result.now ≡ name_of self.now }
        ensures again { (read : Result AuthMechanism ArgumentFault) → Names result.now read → read ≡ Ok self.now }
    {
        match self {
            AuthMechanism::MongoDbCr => MONGODB_CR,
            AuthMechanism::ScramSha1 => SCRAM_SHA_1,
            AuthMechanism::ScramSha256 => SCRAM_SHA_256,
            AuthMechanism::MongoDbX509 => MONGODB_X509,
            AuthMechanism::Plain => PLAIN,
            AuthMechanism::MongoDbAws => MONGODB_AWS,
            AuthMechanism::MongoDbOidc => MONGODB_OIDC,
        }
    }

    /// The database that the mechanism logs in on where the credential names none: for SCRAM and MONGODB-CR the one
    /// that the connection string names, or `admin`; for PLAIN that one, or `$external`; for the others `$external`.
    pub fn default_source<'a>(&'a self, uri_db: Option<&'a str>) -> &'a str
        ensures { result.now ≡ source_of self.now (option_copied uri_db.entry) }
    {
        match self {
            AuthMechanism::MongoDbCr | AuthMechanism::ScramSha1 | AuthMechanism::ScramSha256 => {
                uri_db.unwrap_or(ADMIN)
            }
            AuthMechanism::Plain => uri_db.unwrap_or(EXTERNAL),
            AuthMechanism::MongoDbX509 | AuthMechanism::MongoDbAws | AuthMechanism::MongoDbOidc => {
                EXTERNAL
            }
        }
    }

    /// The mechanism that a credential without one logs in by: SCRAM-SHA-256 where the server lists it for the user,
    /// else SCRAM-SHA-1.
    pub fn from_stream_description(description: &StreamDescription) -> AuthMechanism
        ensures { IsNegotiated description.now.sasl_supported_mechs result }
    {
        match &description.sasl_supported_mechs {
            Some(names) if lists_scram_sha_256(names) => AuthMechanism::ScramSha256,
            _ => AuthMechanism::ScramSha1,
        }
    }
}

// Whether SCRAM-SHA-256 is among the names.
fn lists_scram_sha_256(names: &Texts) -> bool
    ensures { IsTrue result ↔ Contains names.now (name_of ScramSha256) }
{
    names
        .as_slice()
        .iter()
        .any(|name| name.as_str() == SCRAM_SHA_256)
}

/// Reads a mechanism's name.
///
/// `MechanismGssapi` for `GSSAPI`, which isn't spoken here; `MechanismUnknown` for any other text.
impl FromStr for AuthMechanism {
    ghost use Rattle.mongo_sasl.specs.Mechanism.{Names};

    type Err = ArgumentFault;

    ghost from_str_gives = { Names };

    fn from_str(name: &str) -> Result<AuthMechanism, ArgumentFault> {
        match name {
            MONGODB_CR => Ok(AuthMechanism::MongoDbCr),
            SCRAM_SHA_1 => Ok(AuthMechanism::ScramSha1),
            SCRAM_SHA_256 => Ok(AuthMechanism::ScramSha256),
            MONGODB_X509 => Ok(AuthMechanism::MongoDbX509),
            PLAIN => Ok(AuthMechanism::Plain),
            MONGODB_AWS => Ok(AuthMechanism::MongoDbAws),
            MONGODB_OIDC => Ok(AuthMechanism::MongoDbOidc),
            GSSAPI => Err(ArgumentFault::MechanismGssapi),
            _ => Err(ArgumentFault::MechanismUnknown),
        }
    }
}
