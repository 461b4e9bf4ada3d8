//! `mongo_connect`: one login of a MongoDB driver over a real stream.
//!
//! The first line of standard input is settings, those of `mongo_login rehearse` without reply bytes; what follows are the
//! server's bytes. Standard output takes the frames, standard error the report. The call that does it is [`run::run`], and its
//! clauses say what each end means. Nothing of the server's bytes is asked for before the frames that they answer are written
//! (its tests show this).
#![tactic(auto)]

mod connecting;
mod input;
mod origin;
mod recording;
mod run;
mod settings;

use mongo_establish::{StdLink, StdSink};
use mongo_settings::Status;
use run::run_counted;
use std::alloc::AllocGlobal;
use std::marker::Brand;
use std::process::ExitCode;
use std::rt::Env;
use std::sync::ledger::Blank;
use std::{env, io};

/// Makes the connection over standard input and standard output, reports it on standard error, and ends with the status; with 6
/// where the words after the program's name can't be had.
fn main(rt: HostRuntime) -> ExitCode {
    let Ok(words) = words_of(&rt) else {
        return ExitCode::from(Status::NoMemory);
    };
    let (status, _link) = run_counted::<_, _, Brand>(
        rt.alloc(),
        words,
        StdLink::new(rt.stdin(), rt.stdout()),
        &mut StdSink::new(rt.stderr()),
        Blank::new(1),
    );
    ExitCode::from(status)
}

/// The words after the program's name.
fn words_of(rt: &(impl Env + AllocGlobal)) -> io::Result<Vec<String>> {
    Ok(env::args(rt)?.skip(1).collect(rt.alloc())?)
}
