ghost use Rattle.std.specs.Prelude.{◌≡◌, IfOk, IfErr};
ghost use Rattle.mongo_wire.specs.declared.error.ErrorKind.TheVariants.{OutOfMemory};
ghost use Rattle.mongo_aws.specs.SigningKey.{signing_key, hmac_sha256};

use mongo_bson::Bytes;
use mongo_mac::{Sha256Fn, Tag, hmac};
use mongo_wire::Error;
use std::alloc::Global;

// What a secret key is begun with.
const KEY_PREFIX: &[u8] = b"AWS4";

/// What each scope ends with.
pub(crate) const SCOPE_END: &str = "aws4_request";

/// The key of a signature, for a day (`YYYYMMDD`), a region and a service, of 32 bytes (AWS Signature Version 4, "Derive a signing key"):
/// HMAC-SHA-256 from the secret key on, over these and `aws4_request`, one after the other.
///
/// Want of memory is the only refusal.
#[tactic(auto, unfolding(crate::specs::SigningKey::signing_key))]
pub fn signing_key(
    alloc: Global,
    secret_key: &str,
    day: &str,
    region: &str,
    service: &str,
) -> Result<Tag, Error>
    ensures key { IfOk result (λ key. key ≡ signing_key secret_key.now day.now region.now service.now) }
    ensures refused { IfErr result (λ e. e.kind ≡ OutOfMemory) }
{
    let mut secret = Bytes::from_slice(alloc, KEY_PREFIX)?;
    secret.extend_from_slice(secret_key.as_bytes())?;
    let date_key = hmac_sha256(secret.as_bytes(), day);
    let region_key = hmac_sha256(date_key.as_bytes(), region);
    let service_key = hmac_sha256(region_key.as_bytes(), service);
    Ok(hmac_sha256(service_key.as_bytes(), SCOPE_END))
}

/// HMAC-SHA-256 of a text.
#[tactic(auto, unfolding(crate::specs::SigningKey::hmac_sha256))]
pub(crate) fn hmac_sha256(key: &[u8], text: &str) -> Tag
    ensures { result ≡ hmac_sha256 key.now text.now }
{
    hmac::<Sha256Fn>(key, text.as_bytes())
}
