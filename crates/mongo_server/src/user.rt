ghost use Rattle.std.specs.Prelude.{◌≡◌};
ghost use Rattle.mongo_scram.specs.UserName.{escaped};

use mongo_bson::{BsonFault, Bytes, Text};
use mongo_command::both;
use mongo_mac::{Steps, Tag};
use mongo_scram::{Keys, ScramVersion, saslname};
use mongo_wire::Error;
use std::alloc::Global;
use std::fmt;
use std::sync::ledger::Ledger;

/// What a server keeps of a user: the name, the salt, the iteration count and the keys, and never the password.
pub struct ServerUser {
    pub(crate) username: Text,
    // The name as a message carries it.
    pub(crate) saslname: Text,
    pub(crate) salt: Bytes,
    pub(crate) count: u32,
    pub(crate) keys: Keys,
    pub ghost said: { saslname ≡ escaped username },
}

// Dropped by a call, so that the proofs of its owners don't walk through its parts.
impl Drop for ServerUser {
    fn drop(self) {
        let ServerUser {
            username: _,
            saslname: _,
            salt: _,
            count: _,
            keys: _,
        } = self;
    }
}

impl ServerUser {
    ghost use Rattle.std.specs.Prelude.{◌≡◌, ◌≢◌, ◌⊎◌, ◌+◌, ◌≤◌, IfOk, IfErr, IsErrAnd, OnOk};
    ghost use Rattle.mongo_wire.specs.declared.error.ErrorKind.{ErrorKind};
    ghost use Rattle.mongo_wire.specs.declared.error.ErrorKind.TheVariants.{OutOfMemory};
    ghost use Rattle.mongo_scram.specs.Key.{PasswordRow};
    ghost use Rattle.mongo_server.specs.User.{IsUserWith, IsUserOf};

    /// A user of this version of SCRAM with its password, by a salt and an iteration count, of which there is one at least.
    /// The keys are derived here, by exactly `count` steps.
    ///
    /// `PasswordNotAscii` and `Authentication(PasswordControl)` by the rows of
    /// [`ScramVersion::compute_salted_password`], which take no step; then want of memory, which takes at most `count`.
    pub fn new<G: Ledger>(
        alloc: Global,
        version: ScramVersion,
        username: &str,
        password: &str,
        salt: Bytes,
        count: u32,
        steps: &mut Steps<G>,
    ) -> Result<ServerUser, Error>
        requires { 1 ≤ count }
        ensures user { IfOk result (IsUserOf version username.now password.now salt count) }
        ensures usable { OnOk result ((kind : ErrorKind) → PasswordRow version password.now kind → ⊥) }
        ensures refused { IfErr result (λ e. PasswordRow version password.now e.kind ⊎ (e.kind ≡ OutOfMemory)) }
        ensures exact { (kind : ErrorKind) → PasswordRow version password.now kind → IsErrAnd result (λ e. e.kind ≡ kind) }

        // The steps of the derivation.
        ensures cost { OnOk result (steps.new ≡ steps.old + count) }
        ensures no_cost { IfErr result (λ e. e.kind ≢ OutOfMemory → steps.new ≡ steps.old) }
        ensures at_most { steps.new ≤ steps.old + count }
        ensures rises { steps.old ≤ steps.new }
    {
        let salted = version.compute_salted_password(
            alloc,
            username,
            password,
            count,
            salt.as_bytes(),
            steps,
        )?;
        ServerUser::with_key(alloc, version, username, &salted, salt, count)
    }

    /// A copy of the user. It derives nothing.
    pub fn try_clone(&self, alloc: Global) -> Result<ServerUser, BsonFault>
        ensures copied { IfOk result (λ user. user ≡ self.now) }
        ensures refused { IfErr result (λ fault. fault ≡ BsonFault.OutOfMemory) }
    {
        let names = both(
            self.username.try_clone(alloc),
            self.saslname.try_clone(alloc),
        );
        let ((username, saslname), salt) = both(names, self.salt.try_clone(alloc))?;
        Ok(ServerUser {
            username,
            saslname,
            salt,
            count: self.count,
            keys: self.keys.copy(),
        })
    }

    // The user whose salted password this is.
    pub(crate) fn with_key(
        alloc: Global,
        version: ScramVersion,
        username: &str,
        salted: &Tag,
        salt: Bytes,
        count: u32,
    ) -> Result<ServerUser, Error>
        ensures user { IfOk result (IsUserWith version username.now salted.now salt count) }
        ensures refused { IfErr result (λ e. e.kind ≡ OutOfMemory) }
    {
        Ok(ServerUser {
            username: Text::from_slice(alloc, username)?,
            saslname: saslname(alloc, username)?,
            salt,
            count,
            keys: Keys::new(version, salted),
        })
    }
}

// Keys are never shown.
impl fmt::Debug for ServerUser {
    ghost use Rattle.std.specs.Prelude.{Some, codes};

    ghost debug_output = { λ _. Some (codes "ServerUser { .. }") };

    fn fmt<W: fmt::Write>(&self, f: &mut fmt::Formatter<W>) -> fmt::Result {
        f.write_str("ServerUser { .. }")
    }
}
