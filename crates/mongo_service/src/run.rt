//! The top call.

ghost use Rattle.std.specs.Prelude.{◌≡◌, ◌<◌, ℕ, length};
ghost use Rattle.mongo_service.specs.Report.{report_text};
ghost use Rattle.mongo_service.specs.Run.{status_of_fault, ServingEnds, ServeRunEnds, EndsReporting};

use crate::fault::ServeFault;
use crate::report::report_text;
use crate::respond::send_bytes;
use crate::serve::{Served, serve};
use crate::settings_line::{LineError, read_serve_settings};
use crate::status::ServeStatus;
use mongo_mac::Steps;
use mongo_wire::{Link, Sink};
use std::alloc::Global;
use std::sync::ledger::{Blank, Ledger};

/// Reads settings from the link's first line, serves the client that follows it, and says on `report` how that ended. Where the report
/// fails, the status alone says it; where memory runs out for the report, the status is `NoMemory`.
///
/// It takes no words: where there are any, nothing is read or written.
pub fn run<L: Link, K: Sink, G: Ledger>(
    alloc: Global,
    words: &[String],
    link: &mut L,
    report: &mut K,
    steps: &mut Steps<G>,
) -> ServeStatus
    ensures ends { ServeRunEnds (length words.now) (record { old = L.state link.old; new = L.state link.new; report_old = K.state report.old; report_new = K.state report.new; steps_old = steps.old; steps_new = steps.new }) result }
{
    if words.is_empty() {
        serve_line(alloc, link, report, steps)
    } else {
        ServeStatus::Usage
    }
}

/// [`run`] with a counter of its own, of the ledger that `blank` opens.
pub fn run_counted<L: Link, K: Sink, G: Ledger>(
    alloc: Global,
    words: &[String],
    link: &mut L,
    report: &mut K,
    blank: Blank,
) -> ServeStatus
    requires name { blank.name ≡ G.name }
    requires parts { blank.parts ≡ G.parts }
    requires has_a_part { 0 < G.parts }
    ensures { (steps : ℕ) × ServeRunEnds (length words.now) (record { old = L.state link.old; new = L.state link.new; report_old = K.state report.old; report_new = K.state report.new; steps_old = 0; steps_new = steps }) result }
{
    let mut steps = Steps::<G>::new(blank);
    run(alloc, words, link, report, &mut steps)
}

// Serves the client by the settings of the first line.
fn serve_line<L: Link, K: Sink, G: Ledger>(
    alloc: Global,
    link: &mut L,
    report: &mut K,
    steps: &mut Steps<G>,
) -> ServeStatus
    ensures ends { ServingEnds (record { old = L.state link.old; new = L.state link.new; report_old = K.state report.old; report_new = K.state report.new; steps_old = steps.old; steps_new = steps.new }) result }
{
    let settings = match read_serve_settings(alloc, link) {
        Ok(settings) => settings,
        Err(LineError::BadSettings) => {
            return say(
                report,
                b"the first line is no settings\n",
                ServeStatus::BadSettings,
            );
        }
        Err(LineError::Fault) => {
            return say(
                report,
                b"the link failed within the first line\n",
                ServeStatus::Broken,
            );
        }
        Err(LineError::OutOfMemory) => {
            return say(report, b"out of memory\n", ServeStatus::NoMemory);
        }
    };
    let served = serve(alloc, &settings, link, steps);
    tell(alloc, report, &served)
}

fn status_of_fault(fault: Option<ServeFault>) -> ServeStatus
    ensures { result ≡ status_of_fault fault }
{
    match fault {
        None => ServeStatus::Ended,
        Some(ServeFault::OutOfMemory) => ServeStatus::NoMemory,
        Some(_) => ServeStatus::Broken,
    }
}

// Says how a stream was left, and answers how the run ends.
fn tell<K: Sink>(alloc: Global, report: &mut K, served: &Served) -> ServeStatus
    ensures { EndsReporting (K.state report.old) (K.state report.new) (report_text served.now) (status_of_fault served.now.fault) result }
{
    match report_text(alloc, served) {
        Ok(text) => say(report, text.as_bytes(), status_of_fault(served.fault)),
        Err(_) => ServeStatus::NoMemory,
    }
}

// Says a line or more on the report, and answers how the run ends: as it is to, also where the report fails, but for want of memory.
fn say<K: Sink>(report: &mut K, text: &[u8], wanted: ServeStatus) -> ServeStatus
    ensures { EndsReporting (K.state report.old) (K.state report.new) text.now wanted result }
{
    match send_bytes(report, text) {
        Ok(()) => wanted,
        Err(ServeFault::WriteFault) => wanted,
        Err(ServeFault::OutOfMemory) => ServeStatus::NoMemory,
        Err(_) => unreachable!(),
    }
}
