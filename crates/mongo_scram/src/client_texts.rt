// The texts of a client's messages (RFC 5802, sections 3 and 7). The name as a message has it, and a proof's base64, have memory of
// their own. Each is refused for want of memory alone.

ghost use Rattle.std.specs.Prelude.{◌≡◌, ◌++◌, IfOk, string_bytes};
ghost use Rattle.mongo_scram.specs.Attributes.{after_comma, proof_attribute};
ghost use Rattle.mongo_scram.specs.Base64.{base64_of};
ghost use Rattle.mongo_scram.specs.Messages.{open_message, no_proof, transcript};

use crate::attributes::{BOUND_NONCE, GS2_HEADER, NEXT_NONCE, NEXT_PROOF, USER_NAME};
use crate::base64_text::encoded;
use crate::user_name::saslname;
use mongo_mac::Tag;
use std::alloc::{AllocError, Global};

/// `n,,n=` the user name `,r=` the nonce.
#[tactic(auto, unfolding(crate::specs::Messages::bare_message, crate::specs::Messages::open_message))]
pub fn open_text(alloc: Global, username: &str, nonce: &str) -> Result<String, AllocError>
    ensures { IfOk result (λ text. string_bytes text ≡ open_message username.now nonce.now) }
{
    let name = saslname(alloc, username)?;
    [GS2_HEADER, USER_NAME, name.as_str(), NEXT_NONCE, nonce].concat(alloc)
}

/// What both sides sign (RFC 5802, section 3, `AuthMessage`): the client's first message without its GS2 header, the server's
/// first, and the client's last, of the server's nonce, without its proof, parted by commas. A refusal is want of memory.
#[tactic(auto, unfolding(crate::specs::Messages::transcript, crate::specs::Messages::no_proof))]
pub fn transcript_text(
    alloc: Global,
    bare: &str,
    server_first: &str,
    nonce: &str,
) -> Result<String, AllocError>
    ensures { IfOk result (λ text. string_bytes text ≡ transcript bare.now server_first.now nonce.now) }
{
    [bare, ",", server_first, ",", BOUND_NONCE, nonce].concat(alloc)
}

/// `c=biws,r=` the nonce `,p=` the proof in base64.
#[tactic(auto, unfolding(crate::specs::Messages::no_proof))]
pub fn close_text(alloc: Global, nonce: &str, proof: &Tag) -> Result<String, AllocError>
    ensures { IfOk result (λ text. string_bytes text ≡ no_proof nonce.now ++ (after_comma proof_attribute ++ base64_of proof.now)) }
{
    let proof = encoded(alloc, proof.as_bytes())?;
    [BOUND_NONCE, nonce, NEXT_PROOF, proof.as_str()].concat(alloc)
}
