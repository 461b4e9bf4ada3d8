//! One establishment, over reply bytes in memory or another link, and the report of it.
ghost use Rattle.std.specs.Prelude.{◌≡◌, ◌≤◌, ℕ, List, IfOk};
ghost use Rattle.mongo_scram.specs.Costs.{ledgers};
ghost use Rattle.mongo_establish.specs.Speculation.{SpeaksFor};
ghost use Rattle.mongo_settings.specs.Rehearsal.{IsReport};
ghost use Rattle.mongo_settings.specs.Costs.{CostsAsReported};
ghost use Rattle.mongo_settings.specs.Task.{ReportsOne, steps_of};

mod login;
mod reporting;

use crate::settings::Settings;
pub use login::{PreparedLogin, connect, prepare};
use mongo_establish::{LoginState, MemoryLink};
use mongo_mac::Steps;
pub use reporting::report_outcome;
use std::alloc::{AllocError, Global};
use std::sync::ledger::Ledger;

/// How a rehearsal came out.
#[derive(Clone, Copy, Debug, PartialEq, Eq)]
pub enum RehearsalStatus {
    /// The connection was made.
    Accepted,
    /// It was refused for another cause than memory.
    Refused,
}

impl RehearsalStatus {
    ghost use Rattle.std.specs.Prelude.{◌≡◌};
    ghost use Rattle.mongo_settings.specs.Batch.{both};

    // Accepted where both are.
    pub(crate) fn and(self, other: RehearsalStatus) -> RehearsalStatus
        ensures { result ≡ both self other }
    {
        match self {
            RehearsalStatus::Accepted => other,
            RehearsalStatus::Refused => RehearsalStatus::Refused,
        }
    }
}

/// A rehearsal that was made.
#[derive(Debug, Drop)]
pub struct Rehearsal {
    /// How it came out.
    pub status: RehearsalStatus,
    /// The text of its report.
    pub report: Vec<u8>,
}

/// Makes a connection over the reply bytes of the settings, and reports what was sent, what was taken, and how it ended.
pub fn rehearse<G: Ledger>(
    alloc: Global,
    settings: Settings,
    steps: &mut Steps<G>,
) -> Result<Rehearsal, AllocError>
    requires spoken { SpeaksFor settings.credential }
    // The steps rise by the rounds of the key that the reply bytes lead to.
    ensures reported { IfOk result (λ rehearsal. ReportsOne settings (steps_of steps.old steps.new) rehearsal.status rehearsal.report.items) }
    // Settings have no other report.
    ensures only { IfOk result (λ rehearsal. (text : List ℕ) → IsReport settings text → text ≡ rehearsal.report.items) }
    ensures steps { steps.old ≤ steps.new }
{
    let mut state = LoginState::new(alloc);
    rehearse_with(alloc, settings, &mut state, steps)
}

// Makes a connection as [`rehearse`] does, with the salted passwords of the logins before.
pub(crate) fn rehearse_with<G: Ledger>(
    alloc: Global,
    settings: Settings,
    state: &mut LoginState,
    steps: &mut Steps<G>,
) -> Result<Rehearsal, AllocError>
    requires spoken { SpeaksFor settings.credential }
    // The report is that of the settings, whatever logins were made before.
    ensures cost { IfOk result (CostsAsReported settings (ledgers steps.old state.old.salted) (ledgers steps.new state.new.salted)) }
    ensures steps { steps.old ≤ steps.new }
{
    let (login, replies) = prepare(alloc, settings)?;
    let mut link = MemoryLink::new(alloc, replies);
    let total = link.left().len();
    let ended = connect(alloc, login, &mut link, state, steps);
    let taken = total - link.left().len();
    report_outcome(alloc, link.written(), taken, ended)
}
