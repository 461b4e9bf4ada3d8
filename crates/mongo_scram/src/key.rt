ghost use Rattle.std.specs.Prelude.{◌≡◌, ◌+◌, ◌≤◌, ◌++◌, codes, IfOk, IfErr, OnOk, OnErr, All, Any, IsTrue, ◌<◌, ◌↔◌};
ghost use Rattle.std.specs.Bool.{OnTrue, OnFalse};
ghost use Rattle.hex.specs.Hex.{encode_lower};
ghost use Rattle.md5.specs.Md5.{md5};
ghost use Rattle.mongo_wire.specs.declared.error.ErrorKind.{ErrorKind};
ghost use Rattle.mongo_scram.specs.Key.{IsControl, PasswordRow, salted};
ghost use Rattle.mongo_scram.specs.declared.scram_version.ScramVersion.TheVariants.{Sha1, Sha256};

use crate::ScramVersion;
use md5::{Digest, Md5};
use mongo_mac::{Steps, Tag};
use mongo_wire::{AuthFault, Error, ErrorKind};
use std::alloc::Global;
use std::sync::ledger::Ledger;

impl ScramVersion {
    /// SaltedPassword := Hi(Normalize(password), salt, i) (RFC 5802, section 3), by exactly `i` steps, of which there is
    /// one at least. It takes no memory today.
    ///
    /// SCRAM-SHA-1 derives from the lower-case hex of the MD5 digest of `username:mongo:password`, and takes every
    /// password. SCRAM-SHA-256 derives from the password: `PasswordNotAscii` where it has a character past ASCII, and
    /// else `PasswordControl` where it has a control character. A refusal takes no step.
    #[tactic(auto, unfolding(crate::specs::Key::norm, crate::specs::Key::salted))]
    pub fn compute_salted_password<G: Ledger>(
        &self,
        _alloc: Global,
        username: &str,
        password: &str,
        i: u32,
        salt: &[u8],
        steps: &mut Steps<G>,
    ) -> Result<Tag, Error>
        requires { 1 ≤ i }
        ensures salted { IfOk result (λ tag. tag ≡ salted self.now username.now password.now salt.now i) }
        ensures usable { OnOk result ((kind : ErrorKind) → PasswordRow self.now password.now kind → ⊥) }
        ensures refused { IfErr result (λ e. PasswordRow self.now password.now e.kind) }
        ensures cost { OnOk result (steps.new ≡ steps.old + i) }
        ensures no_cost { OnErr result (steps.new ≡ steps.old) }
    {
        match self {
            ScramVersion::Sha1 => {
                let text = password_digest(username, password);
                Ok(self.hi(&text, salt, i, steps))
            }
            ScramVersion::Sha256 => {
                check_password(password)?;
                Ok(self.hi(password.as_bytes(), salt, i, steps))
            }
        }
    }
}

// The digest of the user that MongoDB keeps, in lower-case hex.
fn password_digest(username: &str, password: &str) -> [u8; 32]
    ensures { result ≡ encode_lower (md5 (username.now ++ codes ":mongo:" ++ password.now)) }
{
    let mut hasher = Md5::new();
    hasher.update(username.as_bytes());
    hasher.update(b":mongo:".as_slice());
    hasher.update(password.as_bytes());
    let digest = hasher.finalize();
    let mut text = [0; 32];
    match hex::encode_to_slice(digest.as_slice(), &mut text) {
        Ok(()) => text,
        Err(_) => unreachable!(),
    }
}

// Whether SCRAM-SHA-256 takes the password.
fn check_password(password: &str) -> Result<(), Error>
    ensures usable { OnOk result ((kind : ErrorKind) → PasswordRow Sha256 password.now kind → ⊥) }
    ensures refused { IfErr result (λ e. PasswordRow Sha256 password.now e.kind) }
{
    if has_byte_past_ascii(password.as_bytes()) {
        return Err(Error {
            kind: ErrorKind::PasswordNotAscii,
        });
    }
    if has_control(password.as_bytes()) {
        return Err(Error {
            kind: ErrorKind::Authentication(AuthFault::PasswordControl),
        });
    }
    Ok(())
}

fn has_byte_past_ascii(password: &[u8]) -> bool
    ensures past { OnTrue result (Any (λ byte. 128 ≤ byte) password.now) }
    ensures within { OnFalse result (All (λ byte. byte < 128) password.now) }
{
    password.iter().any(|byte| *byte >= 128)
}

fn has_control(password: &[u8]) -> bool
    ensures { IsTrue result ↔ Any IsControl password.now }
{
    password.iter().any(|byte| *byte < 32 || *byte == 127)
}
