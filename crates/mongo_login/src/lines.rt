//! Lines of a report.
ghost use Rattle.std.specs.Prelude.{◌≡◌, ◌++◌, ◌∷◌, [], ℕ, List, OnOk, decimal};
ghost use Rattle.std.specs.List.{AllByRecursion, concat};
ghost use Rattle.mongo_settings.specs.Line.{line};
ghost use Rattle.mongo_settings.specs.Report.{CountsItself, front_length};
ghost use Rattle.mongo_login.specs.Proxy.{frame_line, frame_lines};

use mongo_settings::{begin_line, end_line, push_hex, push_number};
use mongo_wire::Header;
use std::alloc::AllocError;

/// Appends a line of a name and a number.
pub fn push_count(text: &mut Vec<u8>, name: &str, number: u64) -> Result<(), AllocError>
    ensures { OnOk result (text.new.items ≡ text.old.items ++ line name.now (decimal number ∷ [])) }
{
    begin_line(text, name)?;
    push_number(text, number)?;
    end_line(text)
}

/// Appends a line of a name and a word.
pub fn push_word(text: &mut Vec<u8>, name: &str, word: &str) -> Result<(), AllocError>
    ensures { OnOk result (text.new.items ≡ text.old.items ++ line name.now (word.now ∷ [])) }
{
    begin_line(text, name)?;
    begin_line(text, " ")?;
    begin_line(text, word)?;
    end_line(text)
}

/// Appends a line for each frame that these bytes are: the name and the frame in hex.
///
/// The frames are told apart by the lengths that they begin with.
pub fn push_frames(out: &mut Vec<u8>, name: &str, bytes: &[u8]) -> Result<(), AllocError>
    ensures { OnOk result ((frames : List (List ℕ)) → AllByRecursion CountsItself frames → bytes.now ≡ concat frames → out.new.items ≡ out.old.items ++ frame_lines name.now frames) }
{
    let mut rest = bytes;
    'frames: while let Some(length) = front_length(rest) {
        let (frame, more) = rest.split_at(length);
        push_frame(out, name, frame)?;
        rest = more;
    }
    Ok(())
}

// The length of the frame that the bytes begin with, where all of it is there.
fn front_length(bytes: &[u8]) -> Option<usize>
    ensures { result ≡ front_length bytes.now }
{
    if bytes.len() < Header::LENGTH {
        return None;
    }
    let length = u32::from_le_bytes([bytes[0], bytes[1], bytes[2], bytes[3]]) as usize;
    if length < Header::LENGTH || bytes.len() < length {
        return None;
    }
    Some(length)
}

#[tactic(auto, unfolding(crate::specs::Proxy::frame_line))]
fn push_frame(out: &mut Vec<u8>, name: &str, frame: &[u8]) -> Result<(), AllocError>
    ensures { OnOk result (out.new.items ≡ out.old.items ++ frame_line name.now frame.now) }
{
    begin_line(out, name)?;
    push_hex(out, frame)?;
    end_line(out)
}
