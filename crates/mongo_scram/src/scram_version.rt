ghost use Rattle.std.specs.Prelude.{◌≡◌, ◌+◌, ◌≤◌, length};
ghost use Rattle.mongo_mac.specs.Hi.{hi_of};
ghost use Rattle.mongo_scram.specs.Commands.{mechanism_of};
ghost use Rattle.mongo_scram.specs.Version.{digest_of, digest_length, version_name};

use mongo_mac::{Sha1Fn, Sha256Fn, Steps, Tag, digest, hi};
use mongo_sasl::AuthMechanism;
use std::fmt;
use std::sync::ledger::Ledger;

/// A version of SCRAM, by its hash function H.
#[derive(Clone, Copy, Debug, PartialEq, Eq)]
pub enum ScramVersion {
    /// SCRAM-SHA-1 (RFC 5802).
    Sha1,
    /// SCRAM-SHA-256 (RFC 7677).
    Sha256,
}

impl ScramVersion {
    /// The mechanism that logs in by this version.
    pub fn mechanism(&self) -> AuthMechanism
        ensures { result ≡ mechanism_of self.now }
    {
        match self {
            ScramVersion::Sha1 => AuthMechanism::ScramSha1,
            ScramVersion::Sha256 => AuthMechanism::ScramSha256,
        }
    }

    // The name of the mechanism, `SCRAM-SHA-1` or `SCRAM-SHA-256`.
    pub(crate) fn name(&self) -> &'static str
        ensures { result.now ≡ version_name self.now }
    {
        self.mechanism().as_str()
    }

    /// H(text): the digest of the text by the version's hash function.
    pub fn h(&self, text: &[u8]) -> Tag
        ensures value { result ≡ digest_of self.now text.now }
        ensures len { length result ≡ digest_length self.now }
    {
        match self {
            ScramVersion::Sha1 => digest::<Sha1Fn>(text),
            ScramVersion::Sha256 => digest::<Sha256Fn>(text),
        }
    }

    // Hi(text, salt, i), by exactly i steps.
    pub(crate) fn hi<G: Ledger>(
        &self,
        text: &[u8],
        salt: &[u8],
        i: u32,
        steps: &mut Steps<G>,
    ) -> Tag
        requires { 1 ≤ i }
        ensures value { result ≡ hi_of (digest_of self.now) text.now salt.now i }
        ensures cost { steps.new ≡ steps.old + i }
    {
        match self {
            ScramVersion::Sha1 => hi::<Sha1Fn, G>(text, salt, i, steps),
            ScramVersion::Sha256 => hi::<Sha256Fn, G>(text, salt, i, steps),
        }
    }
}

impl fmt::Display for ScramVersion {
    ghost use Rattle.std.specs.Prelude.{Some};

    ghost output = { λ version. Some (version_name version) };

    fn fmt<W: fmt::Write>(&self, f: &mut fmt::Formatter<W>) -> fmt::Result {
        f.write_str(self.name())
    }
}
