//! A line of the report: its name, its words, each after one space, and a line feed.
ghost use Rattle.std.specs.Prelude.{◌≡◌, ◌++◌, [], ◌∷◌, OnOk, option_map};
ghost use Rattle.hex.specs.Hex.{encode_lower};
ghost use Rattle.mongo_settings.specs.Line.{text_word, spelled_or_dash};

use itoa::{Buffer, Integer};
use std::alloc::AllocError;

/// Appends the name of a line.
pub fn begin_line(out: &mut Vec<u8>, name: &str) -> Result<(), AllocError>
    ensures { OnOk result (out.new.items ≡ out.old.items ++ name.now) }
{
    out.extend_from_slice(name.as_bytes())
}

/// Appends the line feed that ends a line.
pub fn end_line(out: &mut Vec<u8>) -> Result<(), AllocError>
    ensures { OnOk result (out.new.items ≡ out.old.items ++ 10 ∷ []) }
{
    out.extend_from_slice(b"\n")
}

/// Appends a word after a space.
pub fn push_word(out: &mut Vec<u8>, word: &str) -> Result<(), AllocError>
    ensures { OnOk result (out.new.items ≡ out.old.items ++ 32 ∷ word.now) }
{
    out.extend_from_slice(b" ")?;
    out.extend_from_slice(word.as_bytes())
}

/// Appends a word, or `-` where it is absent, after a space.
pub fn push_optional_word(out: &mut Vec<u8>, word: Option<&str>) -> Result<(), AllocError>
    ensures { OnOk result (out.new.items ≡ out.old.items ++ 32 ∷ spelled_or_dash (λ w. w) (option_map (λ w. w.now) word.entry)) }
{
    match word {
        Some(word) => push_word(out, word),
        None => push_word(out, "-"),
    }
}

/// Appends a number in decimal after a space.
pub fn push_number<I: Integer>(out: &mut Vec<u8>, number: I) -> Result<(), AllocError>
    ensures { OnOk result (out.new.items ≡ out.old.items ++ 32 ∷ I.text number) }
{
    let mut buffer = Buffer::new();
    push_word(out, buffer.format(number))
}

/// Appends a number in decimal, or `-` where it is absent, after a space.
pub fn push_optional_number<I: Integer>(
    out: &mut Vec<u8>,
    number: Option<I>,
) -> Result<(), AllocError>
    ensures { OnOk result (out.new.items ≡ out.old.items ++ 32 ∷ spelled_or_dash I.text number) }
{
    match number {
        Some(number) => push_number(out, number),
        None => push_word(out, "-"),
    }
}

/// Appends bytes in lower-case hex after a space.
pub fn push_hex(out: &mut Vec<u8>, bytes: &[u8]) -> Result<(), AllocError>
    ensures { OnOk result (out.new.items ≡ out.old.items ++ 32 ∷ encode_lower bytes.now) }
{
    out.extend_from_slice(b" ")?;
    push_digits(out, bytes)
}

#[tactic(auto, unfolding(hex::specs::Hex::encode_with))]
fn push_digits(out: &mut Vec<u8>, bytes: &[u8]) -> Result<(), AllocError>
    ensures { OnOk result (out.new.items ≡ out.old.items ++ encode_lower bytes.now) }
{
    for byte in bytes {
        out.extend_from_slice(&hex_digits(*byte))?;
    }
    Ok(())
}

// the two digits of a byte
fn hex_digits(byte: u8) -> [u8; 2]
    ensures { result ≡ encode_lower (byte ∷ []) }
{
    let mut digits = [0u8; 2];
    match hex::encode_to_slice([byte], &mut digits) {
        Ok(()) => digits,
        Err(_) => unreachable!(),
    }
}

/// Appends the bytes of a text in lower-case hex, or the word `empty` for no bytes, after a space.
pub fn push_text(out: &mut Vec<u8>, text: &[u8]) -> Result<(), AllocError>
    ensures { OnOk result (out.new.items ≡ out.old.items ++ 32 ∷ text_word text.now) }
{
    if text.is_empty() {
        push_word(out, "empty")
    } else {
        push_hex(out, text)
    }
}

/// Appends the bytes of a text, or `-` where it is absent, after a space.
pub fn push_optional_text(out: &mut Vec<u8>, text: Option<&[u8]>) -> Result<(), AllocError>
    ensures { OnOk result (out.new.items ≡ out.old.items ++ 32 ∷ spelled_or_dash text_word (option_map (λ t. t.now) text.entry)) }
{
    match text {
        Some(text) => push_text(out, text),
        None => push_word(out, "-"),
    }
}
