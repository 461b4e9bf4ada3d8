//! `generate`: logins against a server of the program's own.
ghost use Rattle.std.specs.Prelude.{◌≡◌, ◌≤◌, IfOk};
ghost use Rattle.mongo_settings.specs.Task.{steps_of};
ghost use Rattle.mongo_settings.specs.declared.rehearsal.RehearsalStatus.TheVariants.{Accepted};
ghost use Rattle.mongo_login.specs.Generated.{generated_text, ReportsLogins};
ghost use Rattle.mongo_login.specs.Words.{maximum_logins};

use crate::lines::push_count;
use mongo_generate::{Generated, generate};
use mongo_mac::Steps;
use mongo_settings::{Rehearsal, RehearsalStatus, begin_line, end_line, push_hex};
use std::alloc::{AllocError, Global};
use std::sync::ledger::Ledger;

/// Makes so many logins with one cache, and reports them.
pub fn make_logins<G: Ledger>(
    alloc: Global,
    count: u32,
    steps: &mut Steps<G>,
) -> Result<Rehearsal, AllocError>
    requires within { count ≤ maximum_logins }
    ensures accepted { IfOk result (λ made. made.status ≡ Accepted) }
    ensures reported { IfOk result (λ made. ReportsLogins count (steps_of steps.old steps.new) made.report.items) }
    ensures steps { steps.old ≤ steps.new }
{
    let generated = generate(alloc, count, steps)?;
    Ok(Rehearsal {
        status: RehearsalStatus::Accepted,
        report: report(alloc, &generated)?,
    })
}

// The lines of logins that were made: how many there were, how many of them both sides accepted, the rounds of Hi that the client
// derived, and the SHA-256 of their last messages.
fn report(alloc: Global, generated: &Generated) -> Result<Vec<u8>, AllocError>
    ensures { IfOk result (λ text. text.items ≡ generated_text generated.now) }
{
    let mut text = Vec::new(alloc);
    push_count(&mut text, "logins", generated.logins.into())?;
    push_count(&mut text, "accepted", generated.accepted.into())?;
    push_count(&mut text, "rounds", generated.rounds)?;
    begin_line(&mut text, "digest")?;
    push_hex(&mut text, &generated.digest)?;
    end_line(&mut text)?;
    Ok(text)
}
