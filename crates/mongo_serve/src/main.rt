//! `mongo_serve`: a server over one stream that lets MongoDB drivers log in by SCRAM, and answers `hello`, `ping`, `buildInfo` and
//! `endSessions`.
//!
//! Standard input has one line of settings and then the client's bytes, standard output takes the replies, and standard error says how
//! it ended. The call that serves is [`run_counted`] of `mongo_service`, and its clauses say what each end means.
#![tactic(auto)]

use mongo_service::ServeStatus;
use mongo_service::run::run_counted;
use mongo_wire::{StdLink, StdSink};
use std::alloc::AllocGlobal;
use std::marker::Brand;
use std::process::ExitCode;
use std::rt::Env;
use std::sync::ledger::Blank;
use std::{env, io};

/// Serves the client on standard input and output, and ends with the run's status; with 6 where the words after the program's name
/// can't be had.
fn main(rt: HostRuntime) -> ExitCode {
    let status = match words_of(&rt) {
        Ok(words) => run_counted::<_, _, Brand>(
            rt.alloc(),
            &words,
            &mut StdLink::new(rt.stdin(), rt.stdout()),
            &mut StdSink::new(rt.stderr()),
            Blank::new(1),
        ),
        Err(_) => ServeStatus::NoMemory,
    };
    ExitCode::from(status)
}

/// The words after the program's name.
fn words_of(rt: &(impl Env + AllocGlobal)) -> io::Result<Vec<String>> {
    Ok(env::args(rt)?.skip(1).collect(rt.alloc())?)
}
