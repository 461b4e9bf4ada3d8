//! The top call.
ghost use Rattle.std.specs.Prelude.{◌≡◌, ◌<◌, ℕ, length};
ghost use Rattle.mongo_settings.specs.Run.{run_of};
ghost use Rattle.mongo_settings.specs.Status.{StepsAfter};
ghost use Rattle.mongo_settings.specs.Task.{steps_of};
ghost use Rattle.mongo_connect.specs.Run.{Ends, ConnectRunEnds, ConnectDecided};

#[cfg(test)]
mod tests;

use crate::connecting::connect_over;
use crate::input::read_line;
use crate::settings::settings_of_line;
use mongo_establish::{Link, Sink, SinkError};
use mongo_mac::Steps;
use mongo_settings::{InputError, SettingsError, Status, write_report};
use std::alloc::Global;
use std::sync::ledger::{Blank, Ledger};

/// The program's one call: reads settings from the first line of `link`, makes the connection that they ask for over what follows,
/// and writes the report of it to `report`. The link is handed back.
///
/// It takes no words. The whole report is made before its first byte is written.
pub fn run<L: Link, K: Sink, G: Ledger>(
    alloc: Global,
    words: Vec<String>,
    link: L,
    report: &mut K,
    steps: &mut Steps<G>,
) -> (Status, L)
    // How it ends, a row a status: done, what was printed, sent and taken are exactly those of the settings' one report, and the
    // steps rise by the rounds of the key that it derives from.
    ensures ends { ConnectRunEnds L.state K.state (length words.items) (steps_of steps.old steps.new) (run_of link result.1 report.old report.new) result.0 }
    // Where nothing fails, the words, the line and what follows it decide.
    ensures decided { ConnectDecided L.state K.state (length words.items) (run_of link result.1 report.old report.new) result.0 }
    ensures steps { StepsAfter result.0 steps.old steps.new }
{
    if words.is_empty() {
        run_line(alloc, link, report, steps)
    } else {
        (Status::Usage, link)
    }
}

/// [`run`] with a counter of its own, of the ledger that `blank` opens.
pub fn run_counted<L: Link, K: Sink, G: Ledger>(
    alloc: Global,
    words: Vec<String>,
    link: L,
    report: &mut K,
    blank: Blank,
) -> (Status, L)
    requires name { blank.name ≡ G.name }
    requires parts { blank.parts ≡ G.parts }
    requires has_a_part { 0 < G.parts }
    ensures ends { (steps : ℕ) × ConnectRunEnds L.state K.state (length words.items) (steps_of 0 steps) (run_of link result.1 report.old report.new) result.0 }
    ensures decided { ConnectDecided L.state K.state (length words.items) (run_of link result.1 report.old report.new) result.0 }
{
    let mut steps = Steps::<G>::new(blank);
    run(alloc, words, link, report, &mut steps)
}

// Makes the connection that the first line of the link asks for.
fn run_line<L: Link, K: Sink, G: Ledger>(
    alloc: Global,
    mut link: L,
    report: &mut K,
    steps: &mut Steps<G>,
) -> (Status, L)
    ensures ends { Ends L.state K.state (steps_of steps.old steps.new) (run_of link result.1 report.old report.new) result.0 }
    ensures steps { StepsAfter result.0 steps.old steps.new }
{
    let line = match read_line(alloc, &mut link) {
        Ok(line) => line,
        Err(InputError::Fault) => return (Status::SourceFault, link),
        Err(InputError::OutOfMemory) => return (Status::NoMemory, link),
    };
    let settings = match settings_of_line(alloc, line.as_slice()) {
        Ok(settings) => settings,
        Err(SettingsError::BadSettings) => return (Status::BadSettings, link),
        Err(SettingsError::NotBuilt) => return (Status::NotBuilt, link),
        Err(SettingsError::OutOfMemory) => return (Status::NoMemory, link),
    };
    let (connected, link) = connect_over(alloc, settings, link, steps);
    let Ok(rehearsal) = connected else {
        return (Status::NoMemory, link);
    };
    match write_report(report, rehearsal.report.as_slice()) {
        Ok(()) => (Status::after(rehearsal.status), link),
        Err(SinkError::Failed) => (Status::SinkFault, link),
        Err(SinkError::OutOfMemory) => (Status::NoMemory, link),
    }
}
