//! The lines of the bytes that went over the link.
ghost use Rattle.std.specs.Prelude.{◌≡◌, ◌++◌, ℕ, None, List, OnOk};
ghost use Rattle.std.specs.List.{AllByRecursion, concat};
ghost use Rattle.mongo_settings.specs.Report.{CountsItself, front_length, sent_line, sent_lines, read_count_line};

use crate::report::line::{begin_line, end_line, push_hex, push_number};
use mongo_wire::Header;
use std::alloc::AllocError;

/// Appends a line for each frame that was written: `sent` and the frame in hex.
///
/// The frames are told apart by the lengths that they begin with. What isn't frames at the end is left out.
pub fn push_sent(out: &mut Vec<u8>, written: &[u8]) -> Result<(), AllocError>
    ensures { OnOk result ((frames : List (List ℕ)) (rest : List ℕ) → AllByRecursion CountsItself frames → front_length rest ≡ None → written.now ≡ concat frames ++ rest
        → out.new.items ≡ out.old.items ++ sent_lines frames) }
{
    let mut rest = written;
    'frames: while let Some(length) = front_length(rest) {
        let (frame, more) = rest.split_at(length);
        push_frame(out, frame)?;
        rest = more;
    }
    Ok(())
}

// The length of the frame that the bytes begin with, where all of it is there.
fn front_length(bytes: &[u8]) -> Option<usize>
    ensures { result ≡ front_length bytes.now }
{
    if bytes.len() < Header::LENGTH {
        return None;
    }
    let length = u32::from_le_bytes([bytes[0], bytes[1], bytes[2], bytes[3]]) as usize;
    if length < Header::LENGTH || bytes.len() < length {
        return None;
    }
    Some(length)
}

#[tactic(auto, unfolding(crate::specs::Report::sent_line))]
fn push_frame(out: &mut Vec<u8>, frame: &[u8]) -> Result<(), AllocError>
    ensures { OnOk result (out.new.items ≡ out.old.items ++ sent_line frame.now) }
{
    begin_line(out, "sent")?;
    push_hex(out, frame)?;
    end_line(out)
}

/// Appends the line of how many bytes of the replies were taken.
#[tactic(auto, unfolding(crate::specs::Report::read_count_line))]
pub fn push_read(out: &mut Vec<u8>, count: usize) -> Result<(), AllocError>
    ensures { OnOk result (out.new.items ≡ out.old.items ++ read_count_line count) }
{
    begin_line(out, "read")?;
    push_number(out, count)?;
    end_line(out)
}
