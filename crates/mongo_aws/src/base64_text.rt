// Base64 (RFC 4648, section 4) of the server's nonce.

ghost use Rattle.std.specs.Prelude.{◌≡◌, IfOk, string_bytes};
ghost use Rattle.mongo_aws.specs.Base64.{base64_of};

use base64::engine::general_purpose::STANDARD;
use std::alloc::{AllocError, Global};

/// The base64 text of `bytes`. A refusal is want of memory.
#[tactic(auto, unfolding(crate::specs::Base64::base64_of))]
pub(crate) fn encoded(alloc: Global, bytes: &[u8]) -> Result<String, AllocError>
    ensures { IfOk result (λ text. string_bytes text ≡ base64_of bytes.now) }
{
    STANDARD.encode(alloc, bytes)
}
