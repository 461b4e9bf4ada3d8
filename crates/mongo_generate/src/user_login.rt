ghost use Rattle.std.specs.Prelude.{◌≡◌, None, IsTrue};
ghost use Rattle.mongo_scram.specs.Commands.{is_scram};

use mongo_bson::Text;
use mongo_command::ADMIN;
use mongo_establish::{Credential, Error, LoginInputs, Nonces, ScramVersion};
use mongo_scram::ClientFirst;
use std::alloc::Global;

/// A user of the database `admin` who logs in by SCRAM, and the nonces of the login.
pub struct UserLogin {
    pub(crate) credential: Credential,
    pub(crate) inputs: LoginInputs,
    // The client's first message.
    pub(crate) client_first: Text,
    pub ghost scram: { IsTrue (is_scram credential.mechanism) },
    pub ghost admin: { credential.source ≡ None },
}

// Dropped by a call, so that the proofs of its owners don't walk through its parts.
impl Drop for UserLogin {
    fn drop(self) {
        let UserLogin {
            credential: _,
            inputs: _,
            client_first: _,
        } = self;
    }
}

impl UserLogin {
    ghost use Rattle.std.specs.Prelude.{◌≡◌, IfOk, IfErr};
    ghost use Rattle.mongo_wire.specs.declared.error.ErrorKind.TheVariants.{OutOfMemory};
    ghost use Rattle.mongo_generate.specs.Login.{IsUserLogin, credential_by};

    // The login of a user of the database `admin`, by this version of SCRAM and these nonces.
    pub(crate) fn of_user(
        alloc: Global,
        version: ScramVersion,
        username: &str,
        password: &str,
        nonces: Nonces,
    ) -> Result<UserLogin, Error>
        ensures login { IfOk result (IsUserLogin version username.now password.now nonces) }
        ensures refused { IfErr result (λ e. e.kind ≡ OutOfMemory) }
    {
        let first = ClientFirst::new(alloc, ADMIN, username, true, None, &nonces.first)?;
        let client_first = Text::from_slice(alloc, first.message())?;
        let username = Text::from_slice(alloc, username)?;
        let password = Text::from_slice(alloc, password)?;
        Ok(UserLogin::with(version, username, password, client_first, nonces))
    }

    // The login with these parts. Its mechanism is given.
    fn with(
        version: ScramVersion,
        username: Text,
        password: Text,
        client_first: Text,
        nonces: Nonces,
    ) -> UserLogin
        ensures credential { result.credential ≡ credential_by version username password }
        ensures nonces { result.inputs.nonces ≡ nonces }
        ensures first { result.client_first ≡ client_first }
    {
        let credential = Credential::new()
            .username(Some(username))
            .password(Some(password))
            .mechanism(Some(version.mechanism()));
        UserLogin {
            credential,
            inputs: LoginInputs::of_nonces(nonces),
            client_first,
        }
    }
}
