//! Logins that are rehearsed one after another and share one cache of salted passwords.
ghost use Rattle.std.specs.Prelude.{◌≡◌, ◌++◌, ◌≤◌, All, IfOk, OnOk};
ghost use Rattle.mongo_scram.specs.Costs.{ledgers};
ghost use Rattle.mongo_establish.specs.Speculation.{SpeaksFor};
ghost use Rattle.mongo_settings.specs.Batch.{IsLoginSpoken, rounds_line};
ghost use Rattle.mongo_settings.specs.Costs.{JoinsReport};
ghost use Rattle.mongo_settings.specs.Task.{ReportsMany, steps_of};

use crate::rehearsal::{Rehearsal, RehearsalStatus, rehearse_with};
use crate::report::line::{begin_line, end_line, push_number};
use crate::settings::Settings;
use mongo_bson::Items;
use mongo_establish::LoginState;
use mongo_mac::Steps;
use std::alloc::{AllocError, Global};
use std::sync::ledger::Ledger;

/// Makes the connections that the logins ask for, one after another with one cache of salted passwords, and reports each, and
/// at the end how many rounds of Hi they derived. It is accepted where each of them is.
pub fn rehearse_all<G: Ledger>(
    alloc: Global,
    logins: Items<Settings>,
    steps: &mut Steps<G>,
) -> Result<Rehearsal, AllocError>
    requires spoken { All IsLoginSpoken logins }
    // The reports are those of the logins alone, and each key was derived once until a login with it was accepted.
    ensures batch { IfOk result (λ rehearsal. ReportsMany logins (steps_of steps.old steps.new) rehearsal.status rehearsal.report.items) }
    ensures steps { steps.old ≤ steps.new }
{
    let mut state = LoginState::new(alloc);
    let mut batch = Rehearsal {
        status: RehearsalStatus::Accepted,
        report: Vec::new(alloc),
    };
    for settings in logins.into_vec() {
        rehearse_next(alloc, settings, &mut state, &mut batch, steps)?;
    }
    push_rounds(&mut batch.report, state.salted.rounds())?;
    Ok(batch)
}

// Rehearses one login more, and joins its report to those before.
fn rehearse_next<G: Ledger>(
    alloc: Global,
    settings: Settings,
    state: &mut LoginState,
    batch: &mut Rehearsal,
    steps: &mut Steps<G>,
) -> Result<(), AllocError>
    requires spoken { SpeaksFor settings.credential }
    ensures joined { OnOk result (JoinsReport settings (ledgers steps.old state.old.salted) (ledgers steps.new state.new.salted) batch.old batch.new) }
    ensures steps { steps.old ≤ steps.new }
{
    let rehearsal = rehearse_with(alloc, settings, state, steps)?;
    batch.report.extend_from_slice(rehearsal.report.as_slice())?;
    batch.status = batch.status.and(rehearsal.status);
    Ok(())
}

// Appends the line of how many rounds were derived.
#[tactic(auto, unfolding(crate::specs::Batch::rounds_line))]
fn push_rounds(out: &mut Vec<u8>, rounds: u64) -> Result<(), AllocError>
    ensures { OnOk result (out.new.items ≡ out.old.items ++ rounds_line rounds) }
{
    begin_line(out, "rounds")?;
    push_number(out, rounds)?;
    end_line(out)
}
