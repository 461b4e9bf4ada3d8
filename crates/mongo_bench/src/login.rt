//! Logins of one user against one server, with one cache of salted passwords.
ghost use Rattle.std.specs.Prelude.{◌≡◌, ◌≢◌, ◌+◌, ◌≤◌, IfOk, OnOk};
ghost use Rattle.mongo_bench.specs.Task.{HasPrinted, Costs};
ghost use Rattle.mongo_bench.specs.Work.{only_logged_in};

use crate::peers::Peers;
use crate::run::{BenchStatus, RanTask};
use crate::task::{BenchTask, Hash};
use crate::walking::write_number;
use crate::work::{Passed, log_in_repeatedly};
use mongo_mac::Steps;
use std::alloc::{AllocError, Global};
use std::io::Write;
use std::sync::ledger::Ledger;

/// Makes so many logins, one after another with one cache, against one server, and writes how many both sides accepted.
pub fn run_logins<W: Write, G: Ledger>(
    alloc: Global,
    hash: Hash,
    count: u32,
    out: &mut W,
    steps: &mut Steps<G>,
) -> RanTask
    requires { 1 ≤ count }
    ensures done { result.status ≡ BenchStatus.Done → HasPrinted (BenchTask.Login hash count) (W.contents out.old) (W.contents out.new) }
    ensures work { result.status ≡ BenchStatus.Done → result.work ≡ only_logged_in count }
    ensures cost { Costs (BenchTask.Login hash count) result.status steps.old steps.new }
    ensures ran { result.status ≢ BenchStatus.Usage }
{
    match make_logins(alloc, hash, count, steps) {
        Ok(passed) => RanTask::written(write_number(passed.last, out), passed.work),
        Err(_) => RanTask::without_memory(),
    }
}

// So many logins: how many both sides accepted.
fn make_logins<G: Ledger>(
    alloc: Global,
    hash: Hash,
    count: u32,
    steps: &mut Steps<G>,
) -> Result<Passed<usize>, AllocError>
    requires { 1 ≤ count }
    ensures accepted { IfOk result (λ passed. passed.last ≡ count) }
    ensures work { IfOk result (λ passed. passed.work ≡ only_logged_in count) }
    ensures cost { OnOk result (steps.new ≡ steps.old + 8192) }
    ensures steps { steps.old ≤ steps.new }
{
    let mut peers = Peers::new(alloc, hash, steps)?;
    log_in_repeatedly(alloc, &mut peers, count, steps)
}
