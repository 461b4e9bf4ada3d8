// The user name in a message (RFC 5802, section 5.1, `saslname`), read from the other side.

ghost use Rattle.std.specs.Prelude.{◌≡◌, ◌≢◌, ℕ, List, ◌++◌, ◌⊎◌, ◌↔◌, IsTrue, MatchOption};
ghost use Rattle.mongo_scram.specs.ServerMessages.{HasNo};
ghost use Rattle.mongo_scram.specs.UserName.{comma_code, equals_code};
ghost use Rattle.mongo_server.specs.ClientMessages.{IsSaslName};

use mongo_scram::attributes::{COMMA_CODE, EQUALS_CODE};
use mongo_scram::cut;

/// Whether the text, which holds no comma, is a user name as a message carries it: each `=` in it is that of a `=3D` or a
/// `=2C`. It takes no memory.
pub fn is_saslname(text: &str) -> bool
    requires { HasNo 0x2C text.now }
    ensures { IsTrue result ↔ IsSaslName text.now }
{
    let mut rest = text;
    while let Some((_, code)) = cut(rest, '=') {
        let Some(after) = after_code(code) else {
            return false;
        };
        rest = after;
    }
    true
}

// What follows `3D` or `2C` at the front.
fn after_code(text: &str) -> Option<&str>
    ensures { MatchOption result
        ((rest : List ℕ) → (text.now ≢ equals_code ++ rest) × (text.now ≢ comma_code ++ rest))
        (λ rest. (text.now ≡ equals_code ++ rest.now) ⊎ (text.now ≡ comma_code ++ rest.now)) }
{
    match text.strip_prefix(EQUALS_CODE) {
        Some(rest) => Some(rest),
        None => text.strip_prefix(COMMA_CODE),
    }
}
