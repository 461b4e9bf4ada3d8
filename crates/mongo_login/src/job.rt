//! The jobs: what a command reads, and what it does with it. A command has one arm in each match.
ghost use Rattle.std.specs.Prelude.{◌≤◌, IfOk};
ghost use Rattle.mongo_settings.specs.Settings.{Gives};
ghost use Rattle.mongo_settings.specs.Task.{steps_of};
ghost use Rattle.mongo_login.specs.Job.{asks_of, judged_as, AreSpoken, Reports};

use crate::generated::make_logins;
use crate::proxy::{ProxySettings, read_proxy, relay_in_memory};
use mongo_mac::Steps;
use mongo_settings::{Logins, Rehearsal, SettingsError, Task};
use std::alloc::{AllocError, Global};
use std::sync::ledger::Ledger;

/// What a text that is read is for.
#[derive(Clone, Copy, Debug, PartialEq, Eq)]
pub enum Job {
    /// It has the settings of logins.
    Login(Task),
    /// It has the frames of two sides, which are relayed.
    Proxy,
}

/// What is asked for.
#[derive(Debug, Drop)]
pub enum Asked {
    /// Logins by settings.
    Logins(Logins),
    /// A relay.
    Relay(ProxySettings),
    /// So many logins against a server of the program's own, 1000 at most.
    Made(u32),
}

impl Asked {
    /// Reads what a text in UTF-8 asks for.
    ///
    /// Refusals: those of [`Logins::read`], those of [`read_proxy`].
    #[tactic(auto, unfolding(crate::specs::Job::judged_as))]
    pub fn read(alloc: Global, job: Job, text: &[u8]) -> Result<Asked, SettingsError>
        ensures asked { Gives asks_of result (judged_as job text.now) }
        ensures spoken { IfOk result (λ asked. AreSpoken (asks_of asked)) }
    {
        match job {
            Job::Login(task) => Ok(Asked::Logins(Logins::read(alloc, task, text)?)),
            Job::Proxy => Ok(Asked::Relay(read_proxy(alloc, text)?)),
        }
    }

    /// Does what is asked for, and reports it.
    pub fn report<G: Ledger>(
        self,
        alloc: Global,
        steps: &mut Steps<G>,
    ) -> Result<Rehearsal, AllocError>
        requires spoken { AreSpoken (asks_of self) }
        ensures reported { IfOk result (λ made. Reports (asks_of self) (steps_of steps.old steps.new) made.status made.report.items) }
        ensures steps { steps.old ≤ steps.new }
    {
        match self {
            Asked::Logins(logins) => logins.rehearse(alloc, steps),
            Asked::Relay(settings) => relay_in_memory(alloc, settings),
            Asked::Made(count) => make_logins(alloc, count, steps),
        }
    }
}
