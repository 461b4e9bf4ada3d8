ghost use Rattle.std.specs.Prelude.{◌<◌};

mod logins;

use super::run_counted;
use logins::{By, fault_at, recorded};
use mongo_bson::Bytes;
use mongo_settings::Status;
use mongo_wire::FailingLink;
use std::alloc::{AllocError, Global};
use std::marker::Brand;
use std::sync::ledger::Blank;
use std::test::Fail;

// What a run leaves: how it ended, the sink of its report, and how many bytes of the link are unread.
#[derive(Drop)]
struct Left {
    status: Status,
    sink: FailingLink,
    unread: usize,
}

// Runs over a link that gives these bytes, moves so many at a time, and fails at the call of this number; the report's sink does at
// the call of the other.
fn run_over(
    alloc: Global,
    input: Bytes,
    most: usize,
    link_fails: usize,
    sink_fails: usize,
) -> Result<Left, AllocError>
    requires { 0 < most }
{
    let (link_fails, sink_fails) = schedules(alloc, link_fails, sink_fails)?;
    let link = FailingLink::new(alloc, input, link_fails, most);
    let mut sink = FailingLink::new(alloc, Bytes::new(alloc), sink_fails, 4096);
    let (status, link) = run_at(alloc, Vec::new(alloc), link, &mut sink);
    let unread = link.left().len();
    Ok(Left {
        status,
        sink,
        unread,
    })
}

fn run_at(
    alloc: Global,
    words: Vec<String>,
    link: FailingLink,
    sink: &mut FailingLink,
) -> (Status, FailingLink) {
    run_counted::<_, _, Brand>(alloc, words, link, sink, Blank::new(1))
}

// The schedules of a link and of a sink that fail at the calls of these numbers.
fn schedules(
    alloc: Global,
    link_fails: usize,
    sink_fails: usize,
) -> Result<(Bytes, Bytes), AllocError> {
    let link_fails = failing_at(alloc, link_fails)?;
    Ok((link_fails, failing_at(alloc, sink_fails)?))
}

// No call, or that of this number.
fn failing_at(alloc: Global, call: usize) -> Result<Bytes, AllocError> {
    if call >= NEVER {
        return Ok(Bytes::new(alloc));
    }
    let mut calls = vec![in alloc; 0u8; call]?;
    calls.push(1)?;
    Ok(Bytes::from_vec(calls))
}

const NEVER: usize = 1000;

// How a run ended.
#[derive(Clone, Copy, Debug, PartialEq, Eq)]
struct Ended {
    status: Status,
    // Whether its report is just the wanted one.
    is_told: bool,
    unread: usize,
}

// Whether a report is just these parts, one after another.
fn are_parts(report: &[u8], parts: [&'static str; 3]) -> bool {
    let mut rest = report;
    for part in parts {
        match rest.strip_prefix(part.as_bytes()) {
            Some(after) => rest = after,
            None => return false,
        }
    }
    rest.is_empty()
}

// The line of a login, padded with blanks to so many bytes, its replies, and what follows them.
fn input_of(alloc: Global, by: By, length: usize, followed_by: &[u8]) -> Result<Bytes, AllocError> {
    let login = recorded(by);
    let mut input = Vec::from_slice(alloc, login.line.as_bytes())?;
    input.resize(login.line.len().max(length), b' ')?;
    input.push(b'\n')?;
    input.extend_from_slice(login.replies)?;
    input.extend_from_slice(followed_by)?;
    Ok(Bytes::from_vec(input))
}

// Logs in over a link that moves so many bytes at a time and fails at the call of this number, and compares the report with these
// parts.
fn log_in(
    alloc: Global,
    by: By,
    most: usize,
    link_fails: usize,
    report: [&'static str; 3],
) -> Result<Ended, AllocError>
    requires { 0 < most }
{
    let input = input_of(alloc, by, 0, b"")?;
    let left = run_over(alloc, input, most, link_fails, NEVER)?;
    Ok(Ended {
        status: left.status,
        is_told: are_parts(left.sink.written(), report),
        unread: left.unread,
    })
}

// Fails where a login over such a link doesn't end as a fault at that call does.
fn check_login(alloc: Global, by: By, most: usize, link_fails: usize) -> Result<(), Fail>
    requires { 0 < most }
{
    let wanted = fault_at(recorded(by), link_fails);
    let ended = log_in(alloc, by, most, link_fails, wanted.report)?;
    let as_wanted = Ended {
        status: wanted.status,
        is_told: true,
        unread: wanted.unread,
    };
    if ended == as_wanted {
        Ok(())
    } else {
        Err(Fail::new(format_args!("{by:?} by {most}, failing at {link_fails}: {ended:?}")))
    }
}

// The same at each call of a login, and where none fails.
fn check_faults(alloc: Global, by: By) -> Result<(), Fail> {
    for call in 0..recorded(by).line.len().saturating_add(14) {
        check_login(alloc, by, 4096, call)?;
    }
    Ok(())
}

#[test]
fn the_report_is_that_of_a_rehearsal(rt: HostRuntime) -> Result<(), Fail> {
    check_login(rt.alloc(), By::Plain, 1, NEVER)?;
    check_login(rt.alloc(), By::Plain, 7, NEVER)?;
    check_login(rt.alloc(), By::Scram, 1, NEVER)?;
    check_login(rt.alloc(), By::Scram, 7, NEVER)
}

// How a login by PLAIN ends, whose line is so long and whose replies are followed by this, and how many bytes are unread.
fn plain_end(
    alloc: Global,
    most: usize,
    length: usize,
    followed_by: &[u8],
) -> Result<(Status, usize), AllocError>
    requires { 0 < most }
{
    let input = input_of(alloc, By::Plain, length, followed_by)?;
    let left = run_over(alloc, input, most, NEVER, NEVER)?;
    Ok((left.status, left.unread))
}

#[test]
fn nothing_past_the_last_reply_is_read(rt: HostRuntime) -> Result<(), Fail> {
    let alloc = rt.alloc();
    assert!(rt; plain_end(alloc, 1, 0, b"more")? == (Status::Done, 4));
    assert!(rt; plain_end(alloc, 7, 0, b"more")? == (Status::Done, 4));
    assert!(rt; plain_end(alloc, 4096, 0, b"more")? == (Status::Done, 4));
    Ok(())
}

#[test]
fn a_fault_at_each_call_of_plain_is_told(rt: HostRuntime) -> Result<(), Fail> {
    check_faults(rt.alloc(), By::Plain)
}

#[test]
fn a_fault_at_each_call_of_scram_is_told(rt: HostRuntime) -> Result<(), Fail> {
    check_faults(rt.alloc(), By::Scram)
}

// Bytes of which each bar ends a line, the call of the report's sink that fails, the status, and whether an end is told or nothing.
const LINES: &str = r#" => none => BadSettings => nothing
|{"host":"a"} => none => BadSettings => nothing
{"host":"a","replies":["00"]}| => none => BadSettings => nothing
{"host":"a","moment":1}| => none => NotBuilt => nothing
{"host":"a","replies":[]}| => none => Refused => end
{"host":"a"} => none => Refused => end
{"host":"a"} => first => SinkFault => nothing
{"host":"a"} => second => SinkFault => end"#;

const END: &str = "read 0\nrefused\nphase PreHello\nkind EndOfInput\nreason -\ncode -\ntext -\n";

// What stands before the first arrow of a row and behind it.
fn parts<'a>(row: &'a str) -> (&'a str, &'a str) {
    row.split_once(" => ").unwrap_or((row, "no arrow"))
}

fn bytes_of(alloc: Global, text: &str) -> Result<Bytes, AllocError> {
    let mut bytes = Vec::new(alloc);
    for byte in text.bytes() {
        bytes.push(if byte == b'|' { b'\n' } else { byte })?;
    }
    Ok(Bytes::from_vec(bytes))
}

fn call_of(word: &str) -> usize {
    match word {
        "first" => 0,
        "second" => 1,
        _ => NEVER,
    }
}

fn status_of(word: &str) -> Status {
    match word {
        "BadSettings" => Status::BadSettings,
        "NotBuilt" => Status::NotBuilt,
        "Refused" => Status::Refused,
        _ => Status::SinkFault,
    }
}

// Whether a report ends with that end, or has nothing.
fn tells(report: &[u8], word: &str) -> bool {
    match word {
        "end" => report.ends_with(END.as_bytes()),
        _ => report.is_empty(),
    }
}

// Whether a run ends as a row says.
fn is_ended_so(alloc: Global, row: &str) -> Result<bool, AllocError> {
    let (text, rest) = parts(row);
    let (sink_fails, rest) = parts(rest);
    let (status, told) = parts(rest);
    let left = run_over(
        alloc,
        bytes_of(alloc, text)?,
        4096,
        NEVER,
        call_of(sink_fails),
    )?;
    Ok(left.status == status_of(status) && tells(left.sink.written(), told))
}

#[test]
fn the_line_and_the_sink_decide_too(rt: HostRuntime) -> Result<(), Fail> {
    for row in LINES.lines() {
        assert!(rt; is_ended_so(rt.alloc(), row)?, "{row}");
    }
    Ok(())
}

#[test]
fn blanks_to_the_maximum_are_settings(rt: HostRuntime) -> Result<(), Fail> {
    let unread = recorded(By::Plain).replies.len().saturating_add(1);
    let at_maximum = plain_end(rt.alloc(), 4096, 4_194_304, b"")?;
    assert!(rt; at_maximum == (Status::Done, 0));
    let past_maximum = plain_end(rt.alloc(), 4096, 4_194_305, b"")?;
    assert!(rt; past_maximum == (Status::BadSettings, unread));
    Ok(())
}

// How a run with a word ends.
fn end_with_word(alloc: Global, word: &str) -> Result<Status, AllocError> {
    let mut words = Vec::new(alloc);
    words.push(String::from_str(alloc, word)?)?;
    let link = FailingLink::new(alloc, Bytes::new(alloc), Bytes::new(alloc), 1);
    let mut sink = FailingLink::new(alloc, Bytes::new(alloc), Bytes::new(alloc), 1);
    let (status, _link) = run_at(alloc, words, link, &mut sink);
    Ok(status)
}

#[test]
fn words_are_refused(rt: HostRuntime) -> Result<(), Fail> {
    assert!(rt; end_with_word(rt.alloc(), "rehearse")? == Status::Usage);
    Ok(())
}
