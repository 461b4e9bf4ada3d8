//! What is rehearsed: the login of settings, or the logins of a batch.
ghost use Rattle.std.specs.Prelude.{◌≤◌, IfOk};
ghost use Rattle.mongo_settings.specs.Settings.{Gives};

use crate::batch::rehearse_all;
use crate::rehearsal::{Rehearsal, rehearse};
use crate::settings::{Settings, SettingsError, read_logins, read_settings};
use mongo_bson::Items;
use mongo_mac::Steps;
use std::alloc::{AllocError, Global};
use std::sync::ledger::Ledger;

/// What a text of settings is for.
#[derive(Clone, Copy, Debug, PartialEq, Eq)]
pub enum Task {
    /// It is the settings of one login.
    Rehearse,
    /// It is an object whose one key `logins` holds an array of settings.
    Batch,
}

/// The logins that a text asks for.
#[derive(Debug, Drop)]
pub enum Logins {
    /// One.
    One(Settings),
    /// Those of a batch, in their order.
    Many(Items<Settings>),
}

impl Logins {
    ghost use Rattle.std.specs.Prelude.{◌≤◌, IfOk};
    ghost use Rattle.mongo_settings.specs.Settings.{Gives};
    ghost use Rattle.mongo_settings.specs.Task.{asks_of, judged_as, AreSpoken, Reports, steps_of};

    /// Reads the logins that a text asks for, in UTF-8.
    ///
    /// Refusals, in this order: `BadSettings` where the text is longer than 4194304 bytes, isn't JSON or holds a float; where
    /// a batch is no object whose one key `logins` holds an array; those of [`crate::settings_of`] for each login in turn.
    #[tactic(auto, unfolding(crate::specs::Task::judged_as))]
    pub fn read(alloc: Global, task: Task, text: &[u8]) -> Result<Logins, SettingsError>
        ensures logins { Gives asks_of result (judged_as task text.now) }
        ensures spoken { IfOk result (λ logins. AreSpoken (asks_of logins)) }
    {
        match task {
            Task::Rehearse => Ok(Logins::One(read_settings(alloc, text)?)),
            Task::Batch => Ok(Logins::Many(read_logins(alloc, text)?)),
        }
    }

    /// Makes the connections that the logins ask for over their reply bytes, and reports what was sent, what was taken, and
    /// how each ended. Those of a batch share one cache of salted passwords; at its end stands how many rounds of Hi they
    /// derived.
    pub fn rehearse<G: Ledger>(
        self,
        alloc: Global,
        steps: &mut Steps<G>,
    ) -> Result<Rehearsal, AllocError>
        requires spoken { AreSpoken (asks_of self) }
        ensures reported { IfOk result (λ rehearsal. Reports (asks_of self) (steps_of steps.old steps.new) rehearsal.status rehearsal.report.items) }
        ensures steps { steps.old ≤ steps.new }
    {
        match self {
            Logins::One(settings) => rehearse(alloc, settings, steps),
            Logins::Many(logins) => rehearse_all(alloc, logins, steps),
        }
    }
}
