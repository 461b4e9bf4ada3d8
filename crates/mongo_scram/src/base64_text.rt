// Base64 (RFC 4648, section 4) of what messages carry: the nonce, the salt, the proof and the verifier.

ghost use Rattle.std.specs.Prelude.{◌≡◌, IfOk, string_bytes};
ghost use Rattle.mongo_scram.specs.Base64.{base64_of, Decodes};

use base64::DecodeAllocError;
use base64::engine::general_purpose::STANDARD;
use mongo_bson::Bytes;
use std::alloc::{AllocError, Global};

/// The base64 text of `bytes`. A refusal is want of memory.
#[tactic(auto, unfolding(crate::specs::Base64::base64_of))]
pub fn encoded(alloc: Global, bytes: &[u8]) -> Result<String, AllocError>
    ensures { IfOk result (λ text. string_bytes text ≡ base64_of bytes.now) }
{
    STANDARD.encode(alloc, bytes)
}

/// The bytes whose base64 text this is; None exactly where there are none. A refusal is want of memory.
#[tactic(auto, unfolding(crate::specs::Base64::base64_of))]
pub fn decoded(alloc: Global, text: &[u8]) -> Result<Option<Bytes>, AllocError>
    ensures { IfOk result (Decodes text.now) }
{
    match STANDARD.decode(alloc, text) {
        Ok(bytes) => Ok(Some(Bytes::from_vec(bytes))),
        Err(DecodeAllocError::OutOfMemory) => Err(AllocError),
        Err(_) => Ok(None),
    }
}
