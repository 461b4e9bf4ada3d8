// The user name in a message (RFC 5802, section 5.1, `saslname`).

ghost use Rattle.std.specs.Prelude.{◌≡◌, ◌∷◌, ◌++◌, IfOk, OnOk, string_bytes, encode_utf8};
ghost use Rattle.mongo_scram.specs.UserName.{escaped};

use crate::attributes::{COMMA_CODE, EQUALS_CODE};
use mongo_bson::Text;
use std::alloc::{AllocError, Global};

/// The name as a message carries it, `=` as `=3D` and `,` as `=2C`, since both have a meaning there. A refusal is want of
/// memory.
pub fn saslname(alloc: Global, name: &str) -> Result<Text, AllocError>
    ensures { IfOk result (λ text. text ≡ escaped name.now) }
{
    let mut text = String::with_capacity(alloc, name.len())?;
    for character in name.chars() {
        push_character(&mut text, character)?;
    }
    Ok(Text::from_string(text))
}

#[tactic(auto, using(crate::proofs::Escaped::other_character))]
fn push_character(text: &mut String, character: char) -> Result<(), AllocError>
    ensures { OnOk result (string_bytes text.new ≡ string_bytes text.old ++ escaped (encode_utf8 character)) }
{
    if character == '=' {
        push_escape(text, EQUALS_CODE)
    } else if character == ',' {
        push_escape(text, COMMA_CODE)
    } else {
        text.push(character)
    }
}

fn push_escape(text: &mut String, code: &str) -> Result<(), AllocError>
    ensures { OnOk result (string_bytes text.new ≡ string_bytes text.old ++ (0x3D ∷ code.now)) }
{
    text.push('=')?;
    text.push_str(code)
}
