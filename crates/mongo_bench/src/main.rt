//! The program of the benchmark: it runs one task and prints what the task derives.
//!
//! - `hi-sha1 COUNT` and `hi-sha256 COUNT` print the hex of Hi (RFC 5802, section 2.2) of a fixed
//!   password and salt, after COUNT steps. `bench/hi` measures them.
//! - `iterate SHAPE COUNT` and `readable SHAPE COUNT` pass COUNT times over a document and print what the last pass found;
//!   `document SHAPE` prints its bytes. SHAPE is `nested` or `flat`, of nearly 16 MiB, or `too-deep`, which is not readable.
//!   `bench/iterate` measures the first two.
//! - `frames write|read|read-owned 100|10000|16777216 COUNT` writes or reads COUNT frames of that size over memory and
//!   prints how many bytes the last one had. `bench/frames` measures them.
//! - `insert COUNT` builds COUNT times the command of an insert of 1,000 documents with every argument that a command can
//!   carry, and prints how many bytes its document has. `bench/command` measures it.
//! - `login SHA1|SHA256 COUNT` makes COUNT logins of one user by SCRAM against a server core, over links in memory and with one
//!   cache, and prints how many both sides accepted. `bench/login` measures it.
#![tactic(auto)]

mod building;
mod documents;
mod frames;
mod insert;
mod login;
mod peers;
mod run;
mod slice_source;
mod task;
mod walking;
mod work;

use run::{BenchStatus, run_counted};
use std::marker::Brand;
use std::process::ExitCode;
use std::rt::Env;
use std::sync::ledger::Blank;
use std::{env, io};

/// Runs the task that the words name, prints its result on standard output, and ends with its status.
fn main(rt: HostRuntime) -> ExitCode {
    let status = match words_of(&rt) {
        Ok(words) => {
            run_counted::<_, Brand>(rt.alloc(), &words, &mut rt.stdout(), Blank::new(1)).status
        }
        Err(_) => BenchStatus::NoMemory,
    };
    ExitCode::from(status.code())
}

/// The words after the program's name.
fn words_of(rt: &(impl Env + AllocGlobal)) -> io::Result<Vec<String>> {
    Ok(env::args(rt)?.skip(1).collect(rt.alloc())?)
}
