//! The lines of a refusal.
ghost use Rattle.std.specs.Prelude.{◌≡◌, ◌++◌, OnOk};
ghost use Rattle.mongo_settings.specs.Report.{kind_line, reason_line, code_line, text_line, cause_lines};

use crate::report::line::{
    begin_line, end_line, push_optional_number, push_optional_text, push_optional_word, push_word,
};
use crate::report::names::{code_of, error_text, kind_name, reason_name};
use mongo_wire::ErrorKind;
use std::alloc::AllocError;

/// Appends the lines of a refusal's cause: its name, the name of the fault inside, the server's number and the text that
/// it carries, `-` where it has none.
pub fn push_cause(out: &mut Vec<u8>, kind: &ErrorKind) -> Result<(), AllocError>
    ensures { OnOk result (out.new.items ≡ out.old.items ++ cause_lines kind.now) }
{
    push_kind(out, kind)?;
    push_reason(out, kind)?;
    push_code(out, kind)?;
    push_carried_text(out, kind)
}

#[tactic(auto, unfolding(crate::specs::Report::kind_line))]
fn push_kind(out: &mut Vec<u8>, kind: &ErrorKind) -> Result<(), AllocError>
    ensures { OnOk result (out.new.items ≡ out.old.items ++ kind_line kind.now) }
{
    begin_line(out, "kind")?;
    push_word(out, kind_name(kind))?;
    end_line(out)
}

#[tactic(auto, unfolding(crate::specs::Report::reason_line))]
fn push_reason(out: &mut Vec<u8>, kind: &ErrorKind) -> Result<(), AllocError>
    ensures { OnOk result (out.new.items ≡ out.old.items ++ reason_line kind.now) }
{
    begin_line(out, "reason")?;
    push_optional_word(out, reason_name(kind))?;
    end_line(out)
}

#[tactic(auto, unfolding(crate::specs::Report::code_line))]
fn push_code(out: &mut Vec<u8>, kind: &ErrorKind) -> Result<(), AllocError>
    ensures { OnOk result (out.new.items ≡ out.old.items ++ code_line kind.now) }
{
    begin_line(out, "code")?;
    push_optional_number(out, code_of(kind))?;
    end_line(out)
}

#[tactic(auto, unfolding(crate::specs::Report::text_line))]
fn push_carried_text(out: &mut Vec<u8>, kind: &ErrorKind) -> Result<(), AllocError>
    ensures { OnOk result (out.new.items ≡ out.old.items ++ text_line kind.now) }
{
    begin_line(out, "text")?;
    push_optional_text(out, error_text(kind))?;
    end_line(out)
}
