//! `mongo_login`: the part of a MongoDB driver that turns a fresh byte stream into a described connection and logs it
//! in, rehearsed on reply bytes that are handed in.
//!
//! - `mongo_login rehearse` reads the settings of one login from standard input and writes its report to standard output.
//! - `mongo_login batch` reads those of many, which share one cache of salted passwords, and writes their reports and the
//!   rounds that were derived.
//! - `mongo_login proxy` reads what a client sends and what a server answers, relays the frames between them, and writes what each was
//!   sent.
//! - `mongo_login generate N` reads nothing, makes N logins against a server in memory and writes their count and digest.
//!
//! The call that does it is [`run::run`], and its clauses say what each end means.
#![tactic(auto)]

mod cause;
mod generated;
mod input;
mod job;
mod lines;
mod object;
mod proxy;
mod run;
mod words;

use mongo_establish::{StdSink, StdSource};
use mongo_settings::Status;
use run::run_counted;
use std::alloc::AllocGlobal;
use std::marker::Brand;
use std::process::ExitCode;
use std::rt::Env;
use std::sync::ledger::Blank;
use std::{env, io};

/// Runs the command that the words name on standard input and standard output, and ends with its status; with 6 where
/// the words can't be had.
fn main(rt: HostRuntime) -> ExitCode {
    let status = match words_of(&rt) {
        Ok(words) => run_counted::<_, _, Brand>(
            rt.alloc(),
            words,
            &mut StdSource::new(rt.stdin()),
            &mut StdSink::new(rt.stdout()),
            Blank::new(1),
        ),
        Err(_) => Status::NoMemory,
    };
    ExitCode::from(status)
}

/// The words after the program's name.
fn words_of(rt: &(impl Env + AllocGlobal)) -> io::Result<Vec<String>> {
    Ok(env::args(rt)?.skip(1).collect(rt.alloc())?)
}
