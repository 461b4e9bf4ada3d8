ghost use Rattle.std.specs.Prelude.{◌<◌};

mod login;
mod second;

use login::{EMPTY, FIRST, LAST, PING_AFTER, REPLIES, USERS, Wanted, fault_at, left_at, whole};
use mongo_bson::{BsonFault, Bytes};
use mongo_service::ServeStatus;
use mongo_service::run::run_counted;
use mongo_wire::{FailingLink, MemoryLink};
use second::{ANSWERED, ASKED, TWO, report_of_two};
use std::alloc::Global;
use std::marker::Brand;
use std::sync::ledger::Blank;
use std::test::Fail;

// Settings of one user, and their line's end.
const SETTINGS: &[u8] =
    b"{\"users\":[{\"name\":\"user\",\"password\":\"pencil\",\"mechanisms\":[\"SCRAM-SHA-1\"],\"salts\":[\"ad0f\"],\"count\":4096}],\"nonce\":\"srv\"}\n";

const PING: &[u8] =
    b"3\0\0\0\x07\0\0\0\0\0\0\0\xdd\x07\0\0\0\0\0\0\0\x1e\0\0\0\x10ping\0\x01\0\0\0\x02$db\0\x06\0\0\0admin\0\0";

// What a client sends, by the names that the tests have for it.
fn piece(name: &str) -> &'static [u8] {
    match name {
        "settings" => SETTINGS,
        "users" => USERS,
        "first" => FIRST,
        "last" => LAST,
        "empty" => EMPTY,
        "ping" => PING,
        "ping-after" => PING_AFTER,
        "get" => b"GET / HTTP/1.1\r\n",
        // the front of a header, and of the frame of the login's last message
        "cut-header" => b"3\0\0\0\x07",
        "cut-last-header" => b"\xaf\0\0\0l",
        "cut-last" => {
            b"\xaf\0\0\0l\0\0\0\0\0\0\0\xdd\x07\0\0\0\0\0\0\0\x9a\0\0\0\x10saslContinue\0"
        }
        // an OP_COMPRESSED, an OP_MSG of 48000001 bytes, and an OP_QUERY of 15
        "compressed" => b"\x10\0\0\0\x01\0\0\0\0\0\0\0\xdc\x07\0\0",
        "too-long" => b"\x01l\xdc\x02\x01\0\0\0\0\0\0\0\xdd\x07\0\0",
        "short-query" => b"\x0f\0\0\0\x01\0\0\0\0\0\0\0\xd4\x07\0\0",
        // an OP_QUERY of ping, and one of hello on another database
        "query-of-ping" => {
            b"6\0\0\0\x01\0\0\0\0\0\0\0\xd4\x07\0\0\x04\0\0\0admin.$cmd\0\0\0\0\0\xff\xff\xff\xff\x0f\0\0\0\x10ping\0\x01\0\0\0\0"
        }
        "query-on-test" => {
            b"6\0\0\0\x01\0\0\0\0\0\0\0\xd4\x07\0\0\x04\0\0\0test.$cmd\0\0\0\0\0\xff\xff\xff\xff\x10\0\0\0\x10hello\0\x01\0\0\0\0"
        }
        // an OP_MSG of 48000000 bytes, but for the zeros at its end: a ping with a binary of 47999956
        "greatest" => {
            b"\0l\xdc\x02\x07\0\0\0\0\0\0\0\xdd\x07\0\0\0\0\0\0\0\xebk\xdc\x02\x10ping\0\x01\0\0\0\x05b\0\xd4k\xdc\x02\0"
        }
        _ => b"",
    }
}

// What these words name, one after another.
fn joined(alloc: Global, names: &str) -> Result<Bytes, BsonFault> {
    let mut bytes = Bytes::new(alloc);
    for name in names.split_whitespace() {
        bytes.extend_from_slice(piece(name))?;
    }
    Ok(bytes)
}

// The two calls of the program, so that its contract is cited here alone.
fn run_in_memory(alloc: Global, link: &mut MemoryLink, report: &mut MemoryLink) -> ServeStatus {
    run_counted::<_, _, Brand>(alloc, &[], link, report, Blank::new(1))
}

fn run_failing(alloc: Global, link: &mut FailingLink, report: &mut MemoryLink) -> ServeStatus {
    run_counted::<_, _, Brand>(alloc, &[], link, report, Blank::new(1))
}

// A report that says nothing yet.
fn silent(alloc: Global) -> MemoryLink {
    MemoryLink::new(alloc, Bytes::new(alloc))
}

// Whether this is the last line that a report says, or the end of it.
fn says(report: &MemoryLink, line: &str) -> bool {
    match report.written().split_last() {
        Some((b'\n', said)) => said.ends_with(line.as_bytes()),
        _ => false,
    }
}

// How the program ends over this link, and whether it says the line.
fn ends_on(alloc: Global, link: &mut MemoryLink, line: &str) -> (ServeStatus, bool) {
    let mut report = silent(alloc);
    let status = run_in_memory(alloc, link, &mut report);
    (status, says(&report, line))
}

// The same on these bytes.
fn ends(alloc: Global, input: Bytes, line: &str) -> (ServeStatus, bool) {
    let mut link = MemoryLink::new(alloc, input);
    ends_on(alloc, &mut link, line)
}

// What a client sends after the settings, and what is said of it; all but the first two break the protocol.
const LINES: &str = " => the client ended its stream
ping => the client ended its stream
cut-header => the stream ended within a frame
get => what came is no frame of this protocol
compressed => what came is no frame of this protocol
too-long => what came is no frame of this protocol
short-query => what came is no frame of this protocol
query-of-ping => an OP_QUERY asked for another command than hello
query-on-test => what came is no frame of this protocol";

// Whether the program says the line of a row, and ends as what the row's client sent is left.
fn is_line(alloc: Global, row: &str) -> Result<bool, BsonFault> {
    let (name, line) = row.split_once(" => ").unwrap_or((row, "no arrow"));
    let mut input = joined(alloc, "settings")?;
    input.extend_from_slice(piece(name))?;
    let status = match name {
        "" | "ping" => ServeStatus::Ended,
        _ => ServeStatus::Broken,
    };
    Ok(ends(alloc, input, line) == (status, true))
}

#[test]
fn bytes_decide_how_it_ends(rt: HostRuntime) -> Result<(), Fail> {
    for row in LINES.lines() {
        assert!(rt; is_line(rt.alloc(), row)?, "at {row}");
    }
    Ok(())
}

// Whether a line with this end and a ping after it is no settings.
fn is_no_settings(alloc: Global, line: &str, end: &str) -> Result<bool, BsonFault> {
    let mut input = Bytes::from_slice(alloc, line.as_bytes())?;
    input.extend_from_slice(end.as_bytes())?;
    input.extend_from_slice(PING)?;
    let ended = ends(alloc, input, "the first line is no settings");
    Ok(ended == (ServeStatus::BadSettings, true))
}

const NO_SETTINGS: &str = r#"{}
{"users":[],"nonce":""}
{"users":[],"nonce":"a,b"}
{"users":[{"name":"u","password":"p","mechanisms":["PLAIN"],"salts":["00"],"count":4096}],"nonce":"s"}
{"users":[{"name":"u","password":"p","mechanisms":["SCRAM-SHA-1"],"salts":[],"count":4096}],"nonce":"s"}
{"users":[{"name":"u","password":"p","mechanisms":["SCRAM-SHA-1"],"salts":["0"],"count":4096}],"nonce":"s"}
{"users":[{"name":"u","password":"p","mechanisms":["SCRAM-SHA-1"],"salts":["00"],"count":4095}],"nonce":"s"}
{"users":[{"name":"u","password":"p","mechanisms":["SCRAM-SHA-1"],"salts":["00"],"count":4294967296}],"nonce":"s"}"#;

#[test]
fn lines_that_are_no_settings(rt: HostRuntime) -> Result<(), Fail> {
    let alloc = rt.alloc();
    assert!(rt; is_no_settings(alloc, "", "")? && is_no_settings(alloc, "{}", "")?);
    for line in NO_SETTINGS.lines() {
        assert!(rt; is_no_settings(alloc, line, "\n")?, "at {line}");
    }
    Ok(())
}

// Fails at the call of this number after those that read settings of so many bytes, a byte each, or at none.
fn failing_at(alloc: Global, settings: usize, call: usize) -> Result<Bytes, BsonFault> {
    if call >= NEVER {
        return Ok(Bytes::new(alloc));
    }
    let mut calls = vec![in alloc; 0; settings.saturating_add(call)]?;
    calls.push(1)?;
    Ok(Bytes::from_vec(calls))
}

const NEVER: usize = 1000;

// How the program ends on a ping over this link, and whether it says the line.
fn ends_over(alloc: Global, mut link: FailingLink, line: &str) -> (ServeStatus, bool) {
    let mut report = silent(alloc);
    let status = run_failing(alloc, &mut link, &mut report);
    (status, says(&report, line))
}

// The same over one that moves at most so many bytes, and fails at the call of this number after those that read the settings.
fn ends_failing(
    alloc: Global,
    call: usize,
    most: usize,
    line: &str,
) -> Result<(ServeStatus, bool), BsonFault>
    requires { 0 < most }
{
    let failing = failing_at(alloc, SETTINGS.len(), call)?;
    let input = joined(alloc, "settings ping")?;
    Ok(ends_over(alloc, FailingLink::new(alloc, input, failing, most), line))
}

#[test]
fn links_that_fail(rt: HostRuntime) -> Result<(), Fail> {
    for call in 0..4 {
        let line = if call < 2 {
            "the link failed to give bytes"
        } else {
            "the link failed to take bytes"
        };
        let ended = ends_failing(rt.alloc(), call, 4096, line)?;
        assert!(rt; ended == (ServeStatus::Broken, true), "at {call}");
    }
    // a byte at a time
    let ended = ends_failing(rt.alloc(), NEVER, 1, "the client ended its stream")?;
    assert!(rt; ended == (ServeStatus::Ended, true));
    Ok(())
}

// The settings and the greatest frame.
fn greatest_frame(alloc: Global) -> Result<Bytes, BsonFault> {
    let zeros = vec![in alloc; 0; 47_999_957]?;
    let mut input = joined(alloc, "settings greatest")?;
    input.extend_from_slice(zeros.as_slice())?;
    Ok(input)
}

// The reply to it, laid out by Python's `struct` as OP_MSG and BSON 1.1 say: the first, to the id 7. Nobody has logged in, so it is the
// error 13 of MongoDB's list, as a ping before a login has it in the run that `crates/mongo_serve` stores.
const UNAUTHORIZED: &[u8] =
    b"w\0\0\0\x01\0\0\0\x07\0\0\0\xdd\x07\0\0\0\0\0\0\0b\0\0\0\x01ok\0\0\0\0\0\0\0\0\0\x02errmsg\0 \0\0\0Command requires authentication\0\x10code\0\x0d\0\0\0\x02codeName\0\x0d\0\0\0Unauthorized\0\0";

#[test]
fn greatest_frame_is_answered(rt: HostRuntime) -> Result<(), Fail> {
    let mut link = MemoryLink::new(rt.alloc(), greatest_frame(rt.alloc())?);
    let ended = ends_on(rt.alloc(), &mut link, "the client ended its stream");
    assert!(rt; ended == (ServeStatus::Ended, true));
    assert!(rt; link.written() == UNAUTHORIZED);
    Ok(())
}

// How a run over a link ended.
#[derive(Clone, Copy, Debug, PartialEq, Eq)]
struct Ended {
    status: ServeStatus,
    // Whether the report is just the wanted one.
    is_told: bool,
    // Whether just the wanted bytes of the replies were written.
    is_answered: bool,
}

// Whether the report is just these two lines.
fn is_told(report: &MemoryLink, lines: [&'static str; 2]) -> bool {
    let [first, second] = lines;
    match report.written().strip_prefix(first.as_bytes()) {
        Some(rest) => rest == second.as_bytes(),
        None => false,
    }
}

// Whether just so many bytes of the replies were written.
fn is_answered(link: &FailingLink, count: usize) -> bool {
    link.written().len() == count && REPLIES.starts_with(link.written())
}

// Serves a client over this link, and compares what comes of it.
fn served(alloc: Global, mut link: FailingLink, wanted: Wanted) -> Ended {
    let mut report = silent(alloc);
    let status = run_failing(alloc, &mut link, &mut report);
    Ended {
        status,
        is_told: is_told(&report, wanted.report),
        is_answered: is_answered(&link, wanted.written),
    }
}

// Serves a client that sends these pieces, on a link that moves at most so many bytes and fails at the call of this number after
// those that read the settings.
fn serve_client(
    alloc: Global,
    pieces: &str,
    most: usize,
    fails: usize,
    wanted: Wanted,
) -> Result<Ended, BsonFault>
    requires { 0 < most }
{
    let failing = failing_at(alloc, USERS.len(), fails)?;
    let input = joined(alloc, pieces)?;
    Ok(served(alloc, FailingLink::new(alloc, input, failing, most), wanted))
}

// Fails where a client isn't served as is wanted.
fn check_served(
    alloc: Global,
    pieces: &str,
    most: usize,
    fails: usize,
    wanted: Wanted,
) -> Result<(), Fail>
    requires { 0 < most }
{
    let ended = serve_client(alloc, pieces, most, fails, wanted)?;
    let as_wanted = Ended {
        status: wanted.status,
        is_told: true,
        is_answered: true,
    };
    if ended == as_wanted {
        Ok(())
    } else {
        Err(Fail::new(format_args!("{pieces} by {most}, failing at {fails}: {ended:?}")))
    }
}

// The settings, and what a client sends that logs in and asks for a ping.
const CLIENT: &str = "users first last empty ping-after";

#[test]
fn a_fault_at_each_call_of_a_login_is_told(rt: HostRuntime) -> Result<(), Fail> {
    for call in 0..27 {
        check_served(rt.alloc(), CLIENT, 4096, call, fault_at(call))?;
    }
    Ok(())
}

#[test]
fn the_next_client_is_served_whole(rt: HostRuntime) -> Result<(), Fail> {
    for place in 0..5 {
        let (pieces, wanted) = left_at(place);
        check_served(rt.alloc(), pieces, 4096, NEVER, wanted)?;
        check_served(rt.alloc(), CLIENT, 4096, NEVER, whole())?;
    }
    Ok(())
}

#[test]
fn a_login_a_few_bytes_at_a_time(rt: HostRuntime) -> Result<(), Fail> {
    check_served(rt.alloc(), CLIENT, 1, NEVER, whole())?;
    check_served(rt.alloc(), CLIENT, 2, NEVER, whole())?;
    check_served(rt.alloc(), CLIENT, 17, NEVER, whole())
}

// The settings of two users, and the first so many of what a client sends that asks for both.
fn sent_by_two(alloc: Global, pieces: usize) -> Result<Bytes, BsonFault> {
    let mut input = Bytes::from_slice(alloc, TWO)?;
    for piece in ASKED.iter().take(pieces) {
        input.extend_from_slice(piece)?;
    }
    Ok(input)
}

// Whether just the first so many replies were written.
fn are_answers(link: &MemoryLink, pieces: usize) -> bool {
    let mut rest = link.written();
    for reply in ANSWERED.iter().take(pieces) {
        match rest.strip_prefix(*reply) {
            Some(after) => rest = after,
            None => return false,
        }
    }
    rest.is_empty()
}

// Serves the client that sends so many pieces, and compares what comes of it.
fn answers_two(alloc: Global, input: Bytes, pieces: usize) -> Ended {
    let mut link = MemoryLink::new(alloc, input);
    let mut report = silent(alloc);
    let status = run_in_memory(alloc, &mut link, &mut report);
    Ended {
        status,
        is_told: is_told(&report, report_of_two(pieces)),
        is_answered: are_answers(&link, pieces),
    }
}

#[test]
fn each_user_has_its_own_mechanisms_and_login(rt: HostRuntime) -> Result<(), Fail> {
    let wanted = Ended {
        status: ServeStatus::Ended,
        is_told: true,
        is_answered: true,
    };
    for pieces in 1..7 {
        let ended = answers_two(rt.alloc(), sent_by_two(rt.alloc(), pieces)?, pieces);
        assert!(rt; ended == wanted, "at {pieces}: {ended:?}");
    }
    Ok(())
}
