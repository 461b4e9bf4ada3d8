ghost use Rattle.std.specs.Prelude.{◌≡◌};
ghost use Rattle.mongo_scram.specs.Messages.{proof, verifier};
ghost use Rattle.mongo_scram.specs.Version.{digest_of};

use crate::ScramVersion;
use crate::keys::Keys;
use mongo_mac::Tag;
use std::alloc::AllocError;
use std::fmt;
use std::marker::Model;

/// A salted password, and its keys in one version of SCRAM beside it, so that each login with it signs and derives no key
/// anew. A clause sees the salted password alone.
pub struct SaltedPassword {
    tag: Tag,
    keys: Keys,
}

// Dropped by a call, so that the proofs of its owners don't walk through its parts.
impl Drop for SaltedPassword {
    fn drop(self) {
        let SaltedPassword { tag: _, keys: _ } = self;
    }
}

impl Model for SaltedPassword {
    ghost use Rattle.std.specs.Prelude.{ℕ, List};
    ghost use Rattle.mongo_scram.specs.Keys.{AreKeysOf};

    ghost Value = { List ℕ };

    ghost view = { λ s. s.tag };

    ghost invariant = { λ s. AreKeysOf s.tag s.keys };
}

impl SaltedPassword {
    /// The salted password that is this tag, for logins by this version.
    pub fn new(version: ScramVersion, tag: Tag) -> SaltedPassword
        ensures { result ≡ tag }
    {
        SaltedPassword {
            keys: Keys::new(version, &tag),
            tag,
        }
    }

    /// The salted password.
    pub fn tag(&self) -> &Tag
        ensures { result.now ≡ self.now }
    {
        &self.tag
    }

    /// A copy of the salted password and its keys. It takes no memory.
    pub fn copy(&self) -> SaltedPassword
        ensures { result ≡ self.now }
    {
        SaltedPassword {
            tag: self.tag,
            keys: self.keys.copy(),
        }
    }

    /// The client's proof in this version (RFC 5802, section 3, `ClientProof`). By the version that it was made for it
    /// derives no key.
    pub fn proof(&self, version: &ScramVersion, auth_message: &[u8]) -> Tag
        ensures { result ≡ proof (digest_of version.now) self.now auth_message.now }
    {
        if self.keys.version == *version {
            self.keys.proof(auth_message)
        } else {
            Keys::new(*version, &self.tag).proof(auth_message)
        }
    }

    /// The server's verifier in this version (RFC 5802, section 3, `ServerSignature`). By the version that it was made for
    /// it derives no key.
    pub fn verifier(&self, version: &ScramVersion, auth_message: &[u8]) -> Tag
        ensures { result ≡ verifier (digest_of version.now) self.now auth_message.now }
    {
        if self.keys.version == *version {
            self.keys.verifier(auth_message)
        } else {
            Keys::new(*version, &self.tag).verifier(auth_message)
        }
    }
}

// The map asks its values for this where it is copied.
impl Clone for SaltedPassword {
    ghost use Rattle.std.specs.Prelude.{◌≡◌};

    ghost is_clone = { λ salted copy. copy ≡ salted };

    fn clone(&self) -> Result<SaltedPassword, AllocError> {
        Ok(self.copy())
    }
}

// A salted password stands for the password, so nothing of it is shown.
impl fmt::Debug for SaltedPassword {
    ghost use Rattle.std.specs.Prelude.{Some, codes};

    ghost debug_output = { λ _. Some (codes "SaltedPassword { .. }") };

    fn fmt<W: fmt::Write>(&self, f: &mut fmt::Formatter<W>) -> fmt::Result {
        f.write_str("SaltedPassword { .. }")
    }
}
