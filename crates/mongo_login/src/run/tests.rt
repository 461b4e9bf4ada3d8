ghost use Rattle.std.specs.Prelude.{◌<◌};

mod batches;
mod logins;
mod million;
mod proxies;
mod rows;
mod vectors;

use super::run_counted;
use mongo_bson::{BsonFault, Bytes};
use mongo_settings::Status;
use mongo_wire::FailingLink;
use rows::{RowForm, check_rows, name_of, parts};
use std::alloc::{AllocError, Global};
use std::marker::Brand;
use std::sync::ledger::Blank;
use std::test::Fail;

// A standalone server answers: `ok` 1.0 and the two sizes.
const STANDALONE: &str =
    "{\"host\":\"localhost\",\"replies\":[\"560000000100000000000000dd070000000000000041000000016f6b00000000000000f03f106d617842736f6e4f626a65637453697a650000000001106d61784d65737361676553697a65427974657300006cdc0200\"]}";

// The same reply without its last byte.
const CUT: &str =
    "{\"host\":\"localhost\",\"replies\":[\"560000000100000000000000dd070000000000000041000000016f6b00000000000000f03f106d617842736f6e4f626a65637453697a650000000001106d61784d65737361676553697a65427974657300006cdc02\"]}";

// A link of which a call moves so many bytes at most.
fn link_by(
    alloc: Global,
    input: &[u8],
    failing: &[u8],
    most: usize,
) -> Result<FailingLink, BsonFault>
    requires { 0 < most }
{
    let input = Bytes::from_slice(alloc, input)?;
    let failing = Bytes::from_slice(alloc, failing)?;
    Ok(FailingLink::new(alloc, input, failing, most))
}

// A source of this text and a sink, each of which fails at the calls of its schedule and moves so many bytes at most.
fn links(
    alloc: Global,
    text: &[u8],
    source_fails: &[u8],
    sink_fails: &[u8],
    most: usize,
) -> Result<(FailingLink, FailingLink), BsonFault>
    requires { 0 < most }
{
    let source = link_by(alloc, text, source_fails, most)?;
    let sink = link_by(alloc, &[], sink_fails, most)?;
    Ok((source, sink))
}

// The words of a text, apart by blanks.
fn words_of(alloc: Global, text: &str) -> Result<Vec<String>, AllocError> {
    let mut words = Vec::new(alloc);
    for word in text.split_whitespace() {
        words.push(String::from_str(alloc, word)?)?;
    }
    Ok(words)
}

fn status_of(
    alloc: Global,
    words: Vec<String>,
    source: &mut FailingLink,
    sink: &mut FailingLink,
) -> Status {
    run_counted::<_, _, Brand>(alloc, words, source, sink, Blank::new(1))
}

// How a task ends on this text, and what it wrote.
fn run_as(alloc: Global, task: &str, text: &[u8]) -> Result<(Status, Vec<u8>), Fail> {
    let words = words_of(alloc, task)?;
    let (mut source, mut sink) = links(alloc, text, &[], &[], 4096)?;
    let status = status_of(alloc, words, &mut source, &mut sink);
    Ok((status, Vec::from_slice(alloc, sink.written())?))
}

// How `rehearse` ends on this text, and whether it writes nothing.
fn end_on(alloc: Global, text: &[u8]) -> Result<(Status, bool), Fail> {
    let (status, written) = run_as(alloc, "rehearse", text)?;
    Ok((status, written.is_empty()))
}

// Texts and how they end, all of which write nothing.
const SETTINGS: &str = r#" => BadSettings
{} => BadSettings
{"host":"a","port":1.5} => BadSettings
{"host":"a","moment":1} => NotBuilt
{"host":"a","hosts":1,"moment":1} => BadSettings
{"host":"a","replies":["0"]} => BadSettings"#;

#[test]
fn settings_decide_how_it_ends(rt: HostRuntime) -> Result<(), Fail> {
    let alloc = rt.alloc();
    assert!(rt; end_on(alloc, STANDALONE.as_bytes())? == (Status::Done, false));
    assert!(rt; end_on(alloc, CUT.as_bytes())? == (Status::Refused, false));
    check_rows(alloc, RowForm::Settings, SETTINGS)
}

// How settings end that blanks fill to so many bytes.
fn padded_end(alloc: Global, length: usize) -> Result<Status, Fail> {
    let mut text = Vec::from_slice(alloc, STANDALONE.as_bytes())?;
    text.resize(length, b' ')?;
    let (status, _is_silent) = end_on(alloc, text.as_slice())?;
    Ok(status)
}

#[test]
fn blanks_to_the_maximum_are_settings(rt: HostRuntime) -> Result<(), Fail> {
    assert!(rt; padded_end(rt.alloc(), 4_194_304)? == Status::Done);
    assert!(rt; padded_end(rt.alloc(), 4_194_305)? == Status::BadSettings);
    Ok(())
}

// The schedule of a row: no call fails, the first does, or the second.
fn schedule(fails: &str) -> &'static [u8] {
    match fails {
        "first" => &[1],
        "second" => &[0, 1],
        _ => &[],
    }
}

// How a run of these words ends on links of 16 bytes a call that fail so, and how much of the text is left.
fn failing_end(
    alloc: Global,
    words: &str,
    source_fails: &[u8],
    sink_fails: &[u8],
) -> Result<(Status, usize), Fail> {
    let words = words_of(alloc, words)?;
    let text = STANDALONE.as_bytes();
    let (mut source, mut sink) = links(alloc, text, source_fails, sink_fails, 16)?;
    let status = status_of(alloc, words, &mut source, &mut sink);
    Ok((status, source.left().len()))
}

// How much of the text that is.
fn left_of(left: &str) -> usize {
    let all = STANDALONE.len();
    match left {
        "all" => all,
        "all but 16" => all.saturating_sub(16),
        _ => 0,
    }
}

// Whether a run of these words ends as is wanted on links that fail so.
fn faulty_end(
    alloc: Global,
    words: &str,
    source_fails: &str,
    sink_fails: &str,
    wanted: &str,
) -> Result<bool, Fail> {
    let (status, left) = parts(wanted);
    let (source_fails, sink_fails) = (schedule(source_fails), schedule(sink_fails));
    let (ended, is_left) = failing_end(alloc, words, source_fails, sink_fails)?;
    Ok(name_of(ended) == status && is_left == left_of(left))
}

// Words, the calls of the source and of the sink that fail, the status, and how much of the text was left then: all that followed
// a fault.
const FAULTS: &str = "rehearse x => none => none => Usage => all
 => none => none => Usage => all
proxy x => none => none => Usage => all
proxy => second => none => SourceFault => all but 16
rehearse => first => none => SourceFault => all
rehearse => second => none => SourceFault => all but 16
rehearse => none => first => SinkFault => nothing
rehearse => none => second => SinkFault => nothing";

#[test]
fn faults_and_words_decide_too(rt: HostRuntime) -> Result<(), Fail> {
    check_rows(rt.alloc(), RowForm::Faults, FAULTS)
}

// Settings of many logins, how they end, and what is written.
const BATCHES: &str = r#"{"logins":[]} => Done => rounds 0|
{"logins":{}} => BadSettings
{"host":"a"} => BadSettings
{"logins":[],"host":"a"} => BadSettings
{"logins":[{"host":"a","moment":1},{}]} => NotBuilt
{"logins":[{},{"host":"a","moment":1}]} => BadSettings"#;

#[test]
fn batches_are_judged_login_by_login(rt: HostRuntime) -> Result<(), Fail> {
    check_rows(rt.alloc(), RowForm::Batch, BATCHES)
}
