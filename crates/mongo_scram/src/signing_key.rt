ghost use Rattle.std.specs.Prelude.{◌≡◌, ℕ, List, length};
ghost use Rattle.mongo_mac.specs.Hmac.{hmac_of};
ghost use Rattle.mongo_scram.specs.SigningKey.{IsKeyOf};
ghost use Rattle.mongo_scram.specs.Version.{digest_of, digest_length};
ghost use Rattle.mongo_scram.specs.declared.scram_version.ScramVersion.{ScramVersion as Version};

use crate::ScramVersion;
use mongo_mac::{HmacKey, Sha1Fn, Sha256Fn, Tag};

/// A key of HMAC by a version's hash function, as HMAC uses it: with its two blocks absorbed, so that to sign a text hashes
/// the text and no key.
#[derive(Drop)]
pub enum SigningKey {
    /// A key of SCRAM-SHA-1.
    Sha1(HmacKey<Sha1Fn>),
    /// A key of SCRAM-SHA-256.
    Sha256(HmacKey<Sha256Fn>),
}

impl SigningKey {
    /// The blocks of `key`, which may have any length.
    pub fn new(version: ScramVersion, key: &[u8]) -> SigningKey
        ensures { IsKeyOf version key.now result }
    {
        match version {
            ScramVersion::Sha1 => SigningKey::Sha1(HmacKey::new(key)),
            ScramVersion::Sha256 => SigningKey::Sha256(HmacKey::new(key)),
        }
    }

    /// HMAC(key, text) by the version's hash function (RFC 2104).
    pub fn mac(&self, text: &[u8]) -> Tag
        ensures value { (version : Version) (key : List ℕ) → IsKeyOf version key self.now →
            result ≡ hmac_of (digest_of version) key text.now }
        ensures len { (version : Version) (key : List ℕ) → IsKeyOf version key self.now →
            length result ≡ digest_length version }
    {
        match self {
            SigningKey::Sha1(key) => key.mac(text),
            SigningKey::Sha256(key) => key.mac(text),
        }
    }

    /// A copy of the key. It takes no memory.
    pub fn copy(&self) -> SigningKey
        ensures { result ≡ self.now }
    {
        match self {
            SigningKey::Sha1(key) => SigningKey::Sha1(key.copy()),
            SigningKey::Sha256(key) => SigningKey::Sha256(key.copy()),
        }
    }
}
