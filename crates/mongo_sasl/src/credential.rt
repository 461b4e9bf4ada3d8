ghost use Rattle.std.specs.Prelude.{◌≡◌, IfOk, IfErr};
ghost use Rattle.mongo_sasl.specs.Credential.{user_of_admin};
ghost use Rattle.mongo_wire.specs.declared.error.ErrorKind.TheVariants.{OutOfMemory};

use crate::AuthMechanism;
use mongo_bson::{BsonFault, RawDocumentBuf, RawValue, Text, copy_of};
use mongo_command::ADMIN;
use mongo_command::keys::SASL_SUPPORTED_MECHS;
use mongo_wire::Error;
use std::alloc::Global;
use std::fmt;

/// Who logs in, and how. A field that is None is left to the mechanism.
#[derive(Default, PartialEq, Drop)]
pub struct Credential {
    /// The user's name.
    pub username: Option<Text>,
    /// The database that the user belongs to.
    pub source: Option<Text>,
    /// The user's password.
    pub password: Option<Text>,
    /// The mechanism to log in by; without one it is negotiated.
    pub mechanism: Option<AuthMechanism>,
    /// What the mechanism takes besides.
    pub mechanism_properties: Option<RawDocumentBuf>,
}

impl Credential {
    ghost use Rattle.std.specs.Prelude.{◌≡◌, None, IfOk, IfErr, OnOk, OnErr};
    ghost use Rattle.mongo_sasl.specs.Credential.{resolved_source, negotiated, NegotiationRefused};

    /// A credential that says nothing.
    pub fn new() -> Credential
        ensures { result ≡ record { username = None; source = None; password = None; mechanism = None; mechanism_properties = None } }
    {
        Credential::default()
    }

    /// The credential with this user name.
    pub fn username(self, username: Option<Text>) -> Credential
        ensures { result ≡ record self { username = username } }
    {
        Credential { username, ..self }
    }

    /// The credential with this source.
    pub fn source(self, source: Option<Text>) -> Credential
        ensures { result ≡ record self { source = source } }
    {
        Credential { source, ..self }
    }

    /// The credential with this password.
    pub fn password(self, password: Option<Text>) -> Credential
        ensures { result ≡ record self { password = password } }
    {
        Credential { password, ..self }
    }

    /// The credential with this mechanism.
    pub fn mechanism(self, mechanism: Option<AuthMechanism>) -> Credential
        ensures { result ≡ record self { mechanism = mechanism } }
    {
        Credential { mechanism, ..self }
    }

    /// The credential with these mechanism properties.
    pub fn mechanism_properties(self, mechanism_properties: Option<RawDocumentBuf>) -> Credential
        ensures { result ≡ record self { mechanism_properties = mechanism_properties } }
    {
        Credential {
            mechanism_properties,
            ..self
        }
    }

    /// The database of the credential's mechanism, or `admin` without one; the credential's own source isn't asked.
    pub fn resolved_source(&self) -> &str
        ensures { result.now ≡ resolved_source self.now.mechanism }
    {
        match &self.mechanism {
            Some(mechanism) => mechanism.default_source(None),
            None => ADMIN,
        }
    }

    /// Asks a hello for the user's mechanisms, where the credential has a user name and no mechanism: puts
    /// `saslSupportedMechs` at the end of its document, `admin.` and the user name, whatever the credential's source is.
    /// Else the document stays as it is.
    ///
    /// `Bson(TooLong)` where the document would pass 2147483647 bytes. A refusal leaves the document as it was.
    pub fn append_needed_mechanism_negotiation(
        &self,
        alloc: Global,
        command: &mut RawDocumentBuf,
    ) -> Result<(), Error>
        ensures negotiated { OnOk result (command.new ≡ negotiated self.now command.old) }
        ensures unchanged { OnErr result (command.new ≡ command.old) }
        ensures refused { IfErr result (λ e. NegotiationRefused e.kind self.now command.old) }
    {
        let Some(username) = &self.username else {
            return Ok(());
        };
        if self.mechanism.is_some() {
            return Ok(());
        }
        let user = user_of_admin(alloc, username)?;
        command.append(SASL_SUPPORTED_MECHS, RawValue::Str(user.as_str()))?;
        Ok(())
    }

    /// A copy of the credential.
    pub fn try_clone(&self, alloc: Global) -> Result<Credential, BsonFault>
        ensures copied { IfOk result (λ credential. credential ≡ self.now) }
        ensures refused { IfErr result (λ fault. fault ≡ BsonFault.OutOfMemory) }
    {
        Ok(Credential {
            username: copy_of(alloc, &self.username)?,
            source: copy_of(alloc, &self.source)?,
            password: copy_of(alloc, &self.password)?,
            mechanism: self.mechanism,
            mechanism_properties: copy_of(alloc, &self.mechanism_properties)?,
        })
    }
}

/// Neither the password nor anything else of a credential is shown.
impl fmt::Debug for Credential {
    ghost use Rattle.std.specs.Prelude.{Some, codes};

    ghost debug_output = { λ _. Some (codes "Credential(\"REDACTED\")") };

    fn fmt<W: fmt::Write>(&self, f: &mut fmt::Formatter<W>) -> fmt::Result {
        f.write_str("Credential(\"REDACTED\")")
    }
}

// The user of this name that belongs to `admin`.
fn user_of_admin(alloc: Global, username: &Text) -> Result<Text, Error>
    ensures user { IfOk result (λ user. user ≡ user_of_admin username.now) }
    ensures refused { IfErr result (λ e. e.kind ≡ OutOfMemory) }
{
    let mut user = Text::from_slice(alloc, "admin.")?;
    user.push_str(username.as_str())?;
    Ok(user)
}
