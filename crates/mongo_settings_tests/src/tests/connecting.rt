ghost use Rattle.std.specs.Prelude.{◌≡◌, ◌<◌};
ghost use Rattle.mongo_establish.specs.Speculation.{SpeaksFor};

use mongo_establish::{Bytes, LoginState, MemoryLink};
use mongo_mac::Steps;
use mongo_settings::{
    PreparedLogin, Rehearsal, Settings, connect, prepare, report_outcome, settings_of, write_report,
};
use serde_json::Value;
use std::alloc::{AllocError, Global};
use std::marker::Brand;
use std::sync::ledger::{Blank, Ledger};

// The hello with the id 0, a frame by BSON 1.1 and the OP_MSG specification, as a report tells it.
const SENT: &[u8] =
    b"sent ec0000000000000000000000dd0700000000000000d70000001069734d617374657200010000000868656c6c6f4f6b0001026261636b70726573737572650002000000320003636c69656e74008f000000036472697665720034000000026e616d6500120000006d6f6e676f2d727573742d647269766572000276657273696f6e0006000000332e392e310000036f73002e000000027479706500060000006c696e7578000261726368697465637475726500070000007838365f3634000002706c6174666f726d000e000000726174746c65202f2073796e63000002246462000600000061646d696e0000\n";

// Settings, and what their report tells after the hello: of a standalone server, and of one that answers nothing.
const TOLD: [(&str, &str); 2] = [
    (
        "{\"host\":\"h\",\"replies\":[\"560000000100000000000000dd070000000000000041000000016f6b00000000000000f03f106d617842736f6e4f626a65637453697a650000000001106d61784d65737361676553697a65427974657300006cdc0200\"]}",
        "read 86\nok\ntype Standalone\nwire - -\nmechs -\nsession -\nsizes 16777216 100000 48000000\nhello-ok false\nservice -\ngeneration normal 0\nserver-id -\n",
    ),
    (
        "{\"host\":\"h\"}",
        "read 0\nrefused\nphase PreHello\nkind EndOfInput\nreason -\ncode -\ntext -\n",
    ),
];

// Makes the connection of a login over a link, with a counter of its own, of the ledger that `blank` opens, and reports it.
fn told_over<G: Ledger>(
    blank: Blank,
    alloc: Global,
    login: PreparedLogin,
    link: &mut MemoryLink,
    state: &mut LoginState,
) -> Result<Rehearsal, AllocError>
    requires name { blank.name ≡ G.name }
    requires parts { blank.parts ≡ G.parts }
    requires has_a_part { 0 < G.parts }
    requires spoken { SpeaksFor login.credential }
{
    let total = link.left().len();
    let mut steps = Steps::<G>::new(blank);
    let ended = connect(alloc, login, link, state, &mut steps);
    let taken = total.saturating_sub(link.left().len());
    report_outcome(alloc, link.written(), taken, ended)
}

// Makes the connection that settings ask for over a link that holds their reply bytes, and reports it.
fn connected_with<G: Ledger>(
    blank: Blank,
    alloc: Global,
    settings: Settings,
) -> Result<Rehearsal, AllocError>
    requires name { blank.name ≡ G.name }
    requires parts { blank.parts ≡ G.parts }
    requires has_a_part { 0 < G.parts }
    requires spoken { SpeaksFor settings.credential }
{
    let (login, replies) = prepare(alloc, settings)?;
    let mut link = MemoryLink::new(alloc, replies);
    let mut state = LoginState::new(alloc);
    told_over::<G>(blank, alloc, login, &mut link, &mut state)
}

// Whether a report that is written to a sink tells this after the hello.
fn tells(alloc: Global, report: &[u8], wanted: &[u8]) -> bool {
    let mut sink = MemoryLink::new(alloc, Bytes::new(alloc));
    write_report(&mut sink, report).is_ok() && sink.written().strip_prefix(SENT) == Some(wanted)
}

// Whether a text is settings whose connection is told so.
fn is_told(alloc: Global, text: &str, wanted: &str) -> bool {
    let Ok(value) = Value::from_slice(alloc, text.as_bytes()) else {
        return false;
    };
    let Ok(settings) = settings_of(alloc, &value) else {
        return false;
    };
    match connected_with::<Brand>(Blank::new(1), alloc, settings) {
        Ok(rehearsal) => tells(alloc, rehearsal.report.as_slice(), wanted.as_bytes()),
        Err(_) => false,
    }
}

#[test]
fn connections_over_a_link_are_told(rt: HostRuntime) {
    for (text, wanted) in TOLD {
        assert!(rt; is_told(rt.alloc(), text, wanted), "{text}");
    }
}
