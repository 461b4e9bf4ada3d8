ghost use Rattle.std.specs.Prelude.{IfOk, IfErr};
ghost use Rattle.mongo_scram.specs.User.{IsUser, CredentialRow};
ghost use Rattle.mongo_scram.specs.Client.{user_of};

use crate::ScramVersion;
use mongo_command::ADMIN;
use mongo_sasl::{Credential, refused};
use mongo_wire::{AuthFault, Error};

/// Who logs in: the user's name and password, and the database that the user belongs to.
#[derive(Clone, Copy)]
pub struct ClientAuthInfo<'a> {
    /// The user's name.
    pub username: &'a str,
    /// The user's password.
    pub password: &'a str,
    /// The database that the user belongs to, `admin` where the credential names none.
    pub source: &'a str,
}

impl ScramVersion {
    /// The user of a credential.
    ///
    /// In this order: `NoUsername` where it has no user name, `NoPassword` where it has no password, `PropertiesGiven` where
    /// it has mechanism properties, of which SCRAM knows none.
    pub fn client_auth_info<'a>(
        &self,
        credential: &'a Credential,
    ) -> Result<ClientAuthInfo<'a>, Error>
        ensures user { IfOk result (λ info. IsUser credential.now (user_of info)) }
        ensures refused { IfErr result (λ e. CredentialRow credential.now e.kind) }
    {
        let Some(username) = &credential.username else {
            return Err(refused(AuthFault::NoUsername));
        };
        let Some(password) = &credential.password else {
            return Err(refused(AuthFault::NoPassword));
        };
        if credential.mechanism_properties.is_some() {
            return Err(refused(AuthFault::PropertiesGiven));
        }
        let source = match &credential.source {
            Some(source) => source.as_str(),
            None => ADMIN,
        };
        Ok(ClientAuthInfo {
            username: username.as_str(),
            password: password.as_str(),
            source,
        })
    }
}
