use mongo_bson::{BsonFault, Text, copy_of};
use std::alloc::Global;
use std::fmt;

/// The credentials that a user of AWS signs with. No text that this library writes shows any of them but what is meant for the
/// server: the access key, the session token and a signature.
#[derive(Drop)]
pub struct AwsCredentials {
    /// The access key id, which names the user.
    pub access_key: Text,
    /// The secret access key, which never leaves the client.
    pub secret_key: Text,
    /// The token of a session, where the credentials are temporary.
    pub session_token: Option<Text>,
}

impl AwsCredentials {
    ghost use Rattle.std.specs.Prelude.{◌≡◌, IfOk, IfErr};

    /// A copy of the credentials.
    pub fn try_clone(&self, alloc: Global) -> Result<AwsCredentials, BsonFault>
        ensures copied { IfOk result (λ credentials. credentials ≡ self.now) }
        ensures refused { IfErr result (λ fault. fault ≡ BsonFault.OutOfMemory) }
    {
        Ok(AwsCredentials {
            access_key: self.access_key.try_clone(alloc)?,
            secret_key: self.secret_key.try_clone(alloc)?,
            session_token: copy_of(alloc, &self.session_token)?,
        })
    }
}

/// Nothing of the credentials is shown.
impl fmt::Debug for AwsCredentials {
    ghost use Rattle.std.specs.Prelude.{Some, codes};

    ghost debug_output = { λ _. Some (codes "AwsCredentials(\"REDACTED\")") };

    fn fmt<W: fmt::Write>(&self, f: &mut fmt::Formatter<W>) -> fmt::Result {
        f.write_str("AwsCredentials(\"REDACTED\")")
    }
}
