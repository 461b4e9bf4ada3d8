//! Rows of texts, and what has to hold of each: a run of the program ends and prints as its row says.
use super::{faulty_end, run_as};
use mongo_settings::Status;
use std::alloc::{AllocError, Global};
use std::test::Fail;

// What a row says of a run.
#[derive(Clone, Copy)]
pub(super) enum RowForm {
    // A name, settings, the status and the report.
    Whole,
    // A name, the hex of the reply bytes, the status, and the lines that follow the hello's.
    Replies,
    // Settings, the status and what is written.
    Settings,
    // Settings of many logins, the status and what is written.
    Batch,
    // Frames of two sides, the status and what is written.
    Proxy,
    // Words, the calls of the source and of the sink that fail, the status, and how much of the text is left.
    Faults,
    // Words that read nothing, the status and what is written.
    Words,
}

// The line of the hello that a run without a login sends.
const SENT: &str =
    "sent ec0000000000000000000000dd0700000000000000d70000001069734d617374657200010000000868656c6c6f4f6b0001026261636b70726573737572650002000000320003636c69656e74008f000000036472697665720034000000026e616d6500120000006d6f6e676f2d727573742d647269766572000276657273696f6e0006000000332e392e310000036f73002e000000027479706500060000006c696e7578000261726368697465637475726500070000007838365f3634000002706c6174666f726d000e000000726174746c65202f2073796e63000002246462000600000061646d696e0000\n";

// What stands before the first arrow of a row and behind it.
pub(super) fn parts<'a>(row: &'a str) -> (&'a str, &'a str) {
    row.split_once(" => ").unwrap_or((row, ""))
}

pub(super) fn name_of(status: Status) -> &'static str {
    match status {
        Status::Done => "Done",
        Status::Refused => "Refused",
        Status::BadSettings => "BadSettings",
        Status::Usage => "Usage",
        Status::SourceFault => "SourceFault",
        Status::SinkFault => "SinkFault",
        Status::NoMemory => "NoMemory",
        Status::NotBuilt => "NotBuilt",
    }
}

// A byte of a row as it is printed: a bar stands for the end of a line.
fn printed_byte(byte: Option<&u8>) -> Option<u8> {
    match byte {
        Some(b'|') => Some(b'\n'),
        Some(byte) => Some(*byte),
        None => None,
    }
}

// Whether a report is just these lines of a row.
fn is_report(report: &[u8], lines: &[u8]) -> bool {
    if report.len() != lines.len() {
        return false;
    }
    for at in 0..report.len() {
        if report.get(at).copied() != printed_byte(lines.get(at)) {
            return false;
        }
    }
    true
}

// Whether the report is a line and then just these of a row.
fn is_report_after(line: &str, report: &[u8], lines: &str) -> bool {
    match report.strip_prefix(line.as_bytes()) {
        Some(rest) => is_report(rest, lines.as_bytes()),
        None => false,
    }
}

// Whether a task on this text ends so, and prints this line and then just those of a row.
fn ends_so(
    alloc: Global,
    task: &str,
    text: &[u8],
    status: &str,
    sent: &str,
    lines: &str,
) -> Result<bool, Fail> {
    let (ended, report) = run_as(alloc, task, text)?;
    Ok(name_of(ended) == status && is_report_after(sent, report.as_slice(), lines))
}

// The settings of reply bytes.
fn settings(alloc: Global, replies: &str) -> Result<Vec<u8>, AllocError> {
    let mut text = Vec::from_slice(alloc, b"{\"host\": \"localhost\", \"replies\": [\"")?;
    text.extend_from_slice(replies.as_bytes())?;
    text.extend_from_slice(b"\"]}")?;
    Ok(text)
}

fn replies_end_so(alloc: Global, replies: &str, status: &str, lines: &str) -> Result<bool, Fail> {
    let text = settings(alloc, replies)?;
    ends_so(alloc, "rehearse", text.as_slice(), status, SENT, lines)
}

// Whether the run of a row ends and prints so.
fn holds(alloc: Global, form: RowForm, row: &str) -> Result<bool, Fail> {
    let (first, rest) = parts(row);
    let (second, rest) = parts(rest);
    match form {
        RowForm::Settings => ends_so(alloc, "rehearse", first.as_bytes(), second, "", rest),
        RowForm::Batch => ends_so(alloc, "batch", first.as_bytes(), second, "", rest),
        RowForm::Proxy => ends_so(alloc, "proxy", first.as_bytes(), second, "", rest),
        RowForm::Words => ends_so(alloc, first, &[], second, "", rest),
        RowForm::Whole => {
            let (status, lines) = parts(rest);
            ends_so(alloc, "rehearse", second.as_bytes(), status, "", lines)
        }
        RowForm::Replies => {
            let (status, lines) = parts(rest);
            replies_end_so(alloc, second, status, lines)
        }
        RowForm::Faults => {
            let (sink_fails, wanted) = parts(rest);
            faulty_end(alloc, first, second, sink_fails, wanted)
        }
    }
}

// Fails at a row whose run ends or prints otherwise.
pub(super) fn check_rows(alloc: Global, form: RowForm, rows: &str) -> Result<(), Fail> {
    for row in rows.lines() {
        if !holds(alloc, form, row)? {
            return Err(Fail::new(format_args!("{row}")));
        }
    }
    Ok(())
}
