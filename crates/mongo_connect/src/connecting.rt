//! One establishment over a link, and the report of it.
ghost use Rattle.std.specs.Prelude.{◌≡◌, ◌≤◌, ℕ, List, IfOk, OnErr};
ghost use Rattle.mongo_wire.specs.Outside.{Unfailed};
ghost use Rattle.mongo_establish.specs.Speculation.{SpeaksFor};
ghost use Rattle.mongo_settings.specs.Task.{steps_of};
ghost use Rattle.mongo_connect.specs.Connecting.{IsConnectionReported, IsUnreported, ReportsConnection, TellsBytes};

use crate::origin::Origin;
use crate::recording::Recording;
use mongo_establish::{Link, LoginState};
use mongo_mac::Steps;
use mongo_settings::{Rehearsal, Settings, connect, prepare, report_outcome};
use std::alloc::{AllocError, Global};
use std::marker::Brand;
use std::sync::ledger::Ledger;

/// Makes the connection that settings ask for over a link, which is handed back, and reports what was sent, what was taken, and how
/// it ended.
pub fn connect_over<L: Link, G: Ledger>(
    alloc: Global,
    settings: Settings,
    link: L,
    steps: &mut Steps<G>,
) -> (Result<Rehearsal, AllocError>, L)
    requires spoken { SpeaksFor settings.credential }
    // Over any link the report says how the establishment ended, what was written and how much was taken, and the steps rise by
    // what it derived.
    ensures told { IfOk result.0 (IsConnectionReported settings (steps_of steps.old steps.new) (L.state link) (L.state result.1)) }
    // Over one that tells its bytes and doesn't fail it is that of a rehearsal on them, and the link is left as it says.
    ensures rehearsed { (bytes : List ℕ) → TellsBytes (L.state link) bytes → Unfailed (L.state link) (L.state result.1) → IfOk result.0 (ReportsConnection settings bytes (steps_of steps.old steps.new) (L.state link) (L.state result.1)) }
    ensures untold { OnErr result.0 (IsUnreported settings (steps_of steps.old steps.new) (L.state link) (L.state result.1)) }
    ensures steps { steps.old ≤ steps.new }
{
    record_over::<L, Brand, G>(alloc, settings, link, steps)
}

// The same, of a link that means what `O` says as its recording begins.
fn record_over<L: Link, O: Origin, G: Ledger>(
    alloc: Global,
    settings: Settings,
    link: L,
    steps: &mut Steps<G>,
) -> (Result<Rehearsal, AllocError>, L)
    requires spoken { SpeaksFor settings.credential }
    requires origin { O.origin ≡ L.state link }
    ensures told { IfOk result.0 (IsConnectionReported settings (steps_of steps.old steps.new) (L.state link) (L.state result.1)) }
    ensures untold { OnErr result.0 (IsUnreported settings (steps_of steps.old steps.new) (L.state link) (L.state result.1)) }
    ensures steps { steps.old ≤ steps.new }
{
    let mut recording = Recording::<L, O>::new(alloc, link);
    let told = report_over(alloc, settings, &mut recording, steps);
    (told, recording.into_link())
}

// Makes the connection over a recording that has recorded nothing, and reports it.
fn report_over<L: Link, O: Origin, G: Ledger>(
    alloc: Global,
    settings: Settings,
    recording: &mut Recording<L, O>,
    steps: &mut Steps<G>,
) -> Result<Rehearsal, AllocError>
    requires spoken { SpeaksFor settings.credential }
    requires fresh { L.state recording.old.link ≡ O.origin }
    ensures told { IfOk result (IsConnectionReported settings (steps_of steps.old steps.new) O.origin (L.state recording.new.link)) }
    ensures untold { OnErr result (IsUnreported settings (steps_of steps.old steps.new) O.origin (L.state recording.new.link)) }
    ensures steps { steps.old ≤ steps.new }
{
    let (login, _replies) = prepare(alloc, settings)?;
    let mut state = LoginState::new(alloc);
    let ended = connect(alloc, login, recording, &mut state, steps);
    report_outcome(alloc, recording.written(), recording.taken(), ended)
}
