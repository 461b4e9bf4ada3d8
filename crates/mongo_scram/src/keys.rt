ghost use Rattle.std.specs.Prelude.{◌≡◌, length};
ghost use Rattle.mongo_scram.specs.SigningKey.{IsKeyOf, IsKeyOf-prop};
ghost use Rattle.mongo_scram.specs.Version.{digest_length};

use crate::ScramVersion;
use crate::signing_key::SigningKey;
use mongo_mac::{Tag, xor};

/// The keys of a user, from the salted password (RFC 5802, section 3): a client signs with them, and a server keeps them.
///
/// With StoredKey and ServerKey alone a server finds ClientKey in a proof and hashes it, and would take a proof of another
/// key with the same digest. ClientKey is kept beside them, so that exactly one proof is taken. Beside StoredKey and
/// ServerKey stand the blocks that HMAC makes of them, so that to sign hashes what is signed and nothing else.
#[derive(Drop)]
pub struct Keys {
    /// The version of SCRAM.
    pub version: ScramVersion,
    /// ClientKey.
    pub client_key: Tag,
    /// StoredKey := H(ClientKey).
    pub stored_key: Tag,
    /// ServerKey.
    pub server_key: Tag,
    // StoredKey and ServerKey, as HMAC uses them.
    stored: SigningKey,
    server: SigningKey,
    pub ghost fits: { length client_key ≡ digest_length version },
    pub ghost stored_is: { IsKeyOf version stored_key stored } by { IsKeyOf-prop version stored_key stored },
    pub ghost server_is: { IsKeyOf version server_key server } by { IsKeyOf-prop version server_key server },
}

impl Keys {
    ghost use Rattle.std.specs.Prelude.{◌≡◌};
    ghost use Rattle.mongo_scram.specs.Keys.{AreKeysOf, proof_under, verifier_under};

    /// The keys of a salted password.
    #[tactic(auto, unfolding(crate::specs::Messages::client_key, crate::specs::Messages::server_key))]
    pub fn new(version: ScramVersion, salted: &Tag) -> Keys
        ensures version { result.version ≡ version }
        ensures keys { AreKeysOf salted.now result }
    {
        let salted = SigningKey::new(version, salted.as_bytes());
        let client_key = salted.mac(b"Client Key");
        let stored_key = version.h(client_key.as_bytes());
        let server_key = salted.mac(b"Server Key");
        Keys {
            stored: SigningKey::new(version, stored_key.as_bytes()),
            server: SigningKey::new(version, server_key.as_bytes()),
            version,
            client_key,
            stored_key,
            server_key,
        }
    }

    /// ClientProof := ClientKey XOR ClientSignature, with ClientSignature := HMAC(StoredKey, AuthMessage).
    pub fn proof(&self, auth_message: &[u8]) -> Tag
        ensures { result ≡ proof_under self.now auth_message.now }
    {
        let signature = self.stored.mac(auth_message);
        xor(&self.client_key, &signature)
    }

    /// ServerSignature := HMAC(ServerKey, AuthMessage).
    pub fn verifier(&self, auth_message: &[u8]) -> Tag
        ensures { result ≡ verifier_under self.now auth_message.now }
    {
        self.server.mac(auth_message)
    }

    /// A copy of the keys. It takes no memory.
    pub fn copy(&self) -> Keys
        ensures { result ≡ self.now }
    {
        Keys {
            version: self.version,
            client_key: self.client_key,
            stored_key: self.stored_key,
            server_key: self.server_key,
            stored: self.stored.copy(),
            server: self.server.copy(),
        }
    }
}
