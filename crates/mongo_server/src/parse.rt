// What the client says, cut at its commas (RFC 5802, sections 5.1 and 7).

ghost use Rattle.std.specs.Prelude.{◌≡◌, ◌≢◌, ◌↔◌, ℕ, ◌++◌, ◌∷◌, List, MatchOption, IfOk, IfErr, IsTrue};
ghost use Rattle.mongo_scram.specs.ServerMessages.{HasNo};
ghost use Rattle.mongo_server.specs.ClientMessages.{IsNonce, IsClientFirst};
ghost use Rattle.mongo_server.specs.Parsed.{HoldsClientFirst, HoldsClientFinal, ClientFinalUnread};

use crate::fault::ServerFault;
use crate::user_name::is_saslname;
use memchr::memrchr;
use mongo_bson::Bytes;
use mongo_scram::attributes::{BOUND_NONCE, GS2_HEADER, NONCE, PROOF, USER_NAME};
use mongo_scram::{cut, decoded};
use std::alloc::Global;
use std::str;

/// What a client's first message says, borrowed from it.
#[derive(Clone, Copy)]
pub struct ClientFirstParts<'a> {
    /// The message without its GS2 header (`client-first-message-bare`).
    pub bare: &'a str,
    /// The user name as the message carries it.
    pub saslname: &'a str,
    /// The client's nonce.
    pub nonce: &'a str,
}

/// What a client's last message says.
#[derive(Drop)]
pub struct ClientFinalParts<'a> {
    /// The nonce.
    pub nonce: &'a [u8],
    /// The proof.
    pub proof: Bytes,
}

/// Reads a client's first message: `n,,n=` user name `,r=` nonce. None where the bytes are none. It takes no memory.
pub fn read_client_first(message: &[u8]) -> Option<ClientFirstParts<'_>>
    ensures { MatchOption result
        ((username nonce : List ℕ) → IsClientFirst message.now username nonce → ⊥)
        (HoldsClientFirst message.now) }
{
    let Ok(message) = str::from_utf8(message) else {
        return None;
    };
    let Some(bare) = message.strip_prefix(GS2_HEADER) else {
        return None;
    };
    let Some(attributes) = bare.strip_prefix(USER_NAME) else {
        return None;
    };
    let Some((saslname, attribute)) = cut(attributes, ',') else {
        return None;
    };
    let Some(nonce) = attribute.strip_prefix(NONCE) else {
        return None;
    };
    if !is_saslname(saslname) {
        return None;
    }
    if !is_nonce(nonce) {
        return None;
    }
    Some(ClientFirstParts {
        bare,
        saslname,
        nonce,
    })
}

/// Reads a client's last message: `c=biws,r=` nonce `,p=` proof in base64.
///
/// `Malformed` where the bytes are none.
pub fn read_client_final(alloc: Global, message: &[u8]) -> Result<ClientFinalParts<'_>, ServerFault>
    ensures read { IfOk result (HoldsClientFinal message.now) }
    ensures refused { IfErr result (ClientFinalUnread message.now) }
{
    let Some(attributes) = after(message, BOUND_NONCE) else {
        return Err(ServerFault::Malformed);
    };
    let Some((nonce, attribute)) = cut_last(attributes) else {
        return Err(ServerFault::Malformed);
    };
    let Some(text) = after(attribute, PROOF) else {
        return Err(ServerFault::Malformed);
    };
    match decoded(alloc, text)? {
        Some(proof) => Ok(ClientFinalParts { nonce, proof }),
        None => Err(ServerFault::Malformed),
    }
}

// What follows the bytes of `front` at the front.
fn after<'a>(bytes: &'a [u8], front: &str) -> Option<&'a [u8]>
    ensures { MatchOption result ((rest : List ℕ) → bytes.now ≢ front.now ++ rest)
        (λ rest. bytes.now ≡ front.now ++ rest.now) }
{
    bytes.strip_prefix(front.as_bytes())
}

// What stands before the last comma, and behind it.
fn cut_last(bytes: &[u8]) -> Option<(&[u8], &[u8])>
    ensures { MatchOption result (HasNo 0x2C bytes.now)
        (λ p. HasNo 0x2C p.1.now × (bytes.now ≡ p.0.now ++ (0x2C ∷ p.1.now))) }
{
    match memrchr(b',', bytes) {
        Some(at) => Some((&bytes[..at], &bytes[at + 1..])),
        None => None,
    }
}

/// Whether the text is printable ASCII without a comma, as a nonce is and what a server adds to one.
pub fn is_nonce(text: &str) -> bool
    ensures { IsTrue result ↔ IsNonce text.now }
{
    text.as_bytes()
        .iter()
        .all(|byte| 0x20 <= *byte && *byte <= 0x7E && *byte != b',')
}
