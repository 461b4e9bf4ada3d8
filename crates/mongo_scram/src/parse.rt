// What the server says, cut at its commas (RFC 5802, sections 5.1 and 7).

ghost use Rattle.std.specs.Prelude.{◌≡◌, ◌≢◌, ℕ, ◌<◌, ◌++◌, ◌∷◌, List, MatchOption, IfOk, IfErr};
ghost use Rattle.mongo_scram.specs.ServerMessages.{HasNo, BeginsWithParts, IsBeforeComma, SaysFinal};
ghost use Rattle.mongo_scram.specs.Parsed.{HoldsServerFirst, FirstRefused, ServerFinalUnread};

use crate::attributes::{ERROR, ITERATION_COUNT, NONCE, SALT, VERIFIER};
use crate::base64_text::decoded;
use crate::server_final::ServerFinalBody;
use mongo_bson::{Bytes, Text};
use mongo_sasl::refused;
use mongo_wire::{AuthFault, Error};
use std::alloc::Global;

/// What a server first message says, its texts borrowed from it.
#[derive(Drop)]
pub struct ServerFirstParts<'a> {
    /// The nonce, the client's with the server's behind it.
    pub nonce: &'a str,
    /// The salt.
    pub salt: Bytes,
    /// The iteration count.
    pub i: u32,
}

/// Reads a server first message: `r=` nonce, `s=` salt in base64, `i=` iteration count, and extensions that are passed
/// over, parted by commas.
///
/// `Malformed` where a part is missing, has another key, or the salt is no base64; else `CountUnreadable` where the count
/// is no decimal number below 2^32.
pub fn read_server_first<'a>(alloc: Global, message: &'a str) -> Result<ServerFirstParts<'a>, Error>
    ensures first { IfOk result (HoldsServerFirst message.now) }
    ensures refused { IfErr result (λ e. FirstRefused message.now e.kind) }
{
    let Some(parts) = message_parts(message) else {
        return Err(refused(AuthFault::Malformed));
    };
    let Some(nonce) = attribute_value(parts.first, NONCE) else {
        return Err(refused(AuthFault::Malformed));
    };
    let Some(salt_text) = attribute_value(parts.second, SALT) else {
        return Err(refused(AuthFault::Malformed));
    };
    let Some(salt) = decoded(alloc, salt_text.as_bytes())? else {
        return Err(refused(AuthFault::Malformed));
    };
    let Some(count) = attribute_value(parts.third, ITERATION_COUNT) else {
        return Err(refused(AuthFault::Malformed));
    };
    match count.parse::<u32>() {
        Ok(i) => Ok(ServerFirstParts { nonce, salt, i }),
        Err(_) => Err(refused(AuthFault::CountUnreadable)),
    }
}

/// Reads a server final message: `e=` and the error's text, or `v=` and the verifier in base64; everything behind the
/// equals sign belongs to it.
///
/// `Malformed` where it is neither.
pub fn read_server_final(alloc: Global, message: &str) -> Result<ServerFinalBody, Error>
    ensures says { IfOk result (SaysFinal message.now) }
    ensures refused { IfErr result (λ e. ServerFinalUnread message.now e.kind) }
{
    if let Some(text) = attribute_value(message, ERROR) {
        return Ok(ServerFinalBody::Error(Text::from_slice(alloc, text)?));
    }
    match attribute_value(message, VERIFIER) {
        Some(text) => {
            let verifier = decoded(alloc, text.as_bytes())?;
            Ok(ServerFinalBody::Verifier(verifier))
        }
        None => Err(refused(AuthFault::Malformed)),
    }
}

// The value of an attribute with this key, which is a letter and `=`.
fn attribute_value<'a>(part: &'a str, key: &str) -> Option<&'a str>
    ensures { MatchOption result ((value : List ℕ) → part.now ≢ key.now ++ value)
        (λ value. part.now ≡ key.now ++ value.now) }
{
    part.strip_prefix(key)
}

// The first three parts of a message.
#[derive(Clone, Copy)]
struct Parts<'a> {
    first: &'a str,
    second: &'a str,
    third: &'a str,
}

fn message_parts(message: &str) -> Option<Parts<'_>>
    ensures { MatchOption result
        ((first second third : List ℕ) → BeginsWithParts message.now first second third → ⊥)
        (λ parts. BeginsWithParts message.now parts.first.now parts.second.now parts.third.now) }
{
    let Some((first, rest)) = cut(message, ',') else {
        return None;
    };
    let Some((second, rest)) = cut(rest, ',') else {
        return None;
    };
    let third = before_comma(rest);
    Some(Parts {
        first,
        second,
        third,
    })
}

/// What stands before the first `mark`, a character of ASCII, and behind it; None exactly where there is none. It takes no
/// memory.
pub fn cut(text: &str, mark: char) -> Option<(&str, &str)>
    requires { mark < 128 }
    ensures { MatchOption result (HasNo mark text.now)
        (λ p. HasNo mark p.0.now × (text.now ≡ p.0.now ++ (mark ∷ p.1.now))) }
{
    text.split_once(mark)
}

// The text up to its first comma, or all of it.
fn before_comma(text: &str) -> &str
    ensures { IsBeforeComma text.now result.now }
{
    match cut(text, ',') {
        Some((before, _)) => before,
        None => text,
    }
}
