ghost use Rattle.std.specs.Prelude.{◌≡◌, ◌≢◌, IsTrue, MatchOption, take, ⊤};
ghost use Rattle.std.specs.List.{All};
ghost use Rattle.std.specs.Str.{IsAscii, IsUtf8};
ghost use Rattle.mongo_bson.specs.Reading.{IsFirstZero, BeginsWithCstring, HasNoCstring};

// Where the first zero stands, and whether each byte before it is below 128.
#[derive(Clone, Copy, Drop)]
pub(crate) struct CstringEnd {
    pub(crate) at: usize,
    pub(crate) is_ascii: bool,
}

/// The text of the cstring at the front, and the bytes after the zero that ends it.
///
/// None where no zero stands, or what stands before the first isn't UTF-8. It takes no memory.
pub fn take_cstring<'a>(bytes: &'a [u8]) -> Option<(&'a str, &'a [u8])>
    ensures { MatchOption result (HasNoCstring bytes.now) (λ p. BeginsWithCstring bytes.now p.0.now p.1.now) }
{
    let end = cstring_end(bytes)?;
    let (front, rest) = bytes.split_at(end.at);
    match text_of_cstring(front, end.is_ascii) {
        Some(text) => {
            let (_zero, after) = rest.split_at(1);
            Some((text, after))
        }
        None => None,
    }
}

// The bytes as a text. Most keys are ASCII, and need no second look.
fn text_of_cstring<'a>(front: &'a [u8], is_ascii: bool) -> Option<&'a str>
    requires { IsTrue is_ascii → IsAscii front.now }
    ensures { MatchOption result (IsUtf8 front.now → ⊥) (λ text. (text.now ≡ front.now) × IsUtf8 front.now) }
{
    if is_ascii {
        return Some(unsafe { str::from_utf8_unchecked(front) });
    }
    str::from_utf8(front).ok()
}

// The end of the cstring at the front, in one pass that also sees whether what stands before it is ASCII.
pub(crate) fn cstring_end(bytes: &[u8]) -> Option<CstringEnd>
    ensures zero { MatchOption result (All (λ b. b ≢ 0) bytes.now) (λ end. IsFirstZero bytes.now end.at) }
    ensures ascii { MatchOption result ⊤ (λ end. IsTrue end.is_ascii → IsAscii (take end.at bytes.now)) }
{
    let mut joined = 0;
    for (i, b) in bytes.iter().enumerate() {
        if *b == 0 {
            return Some(CstringEnd {
                at: i,
                is_ascii: joined < 0x80,
            });
        }
        joined |= *b;
    }
    None
}
