ghost use Rattle.std.specs.Prelude.{◌≡◌, ◌<◌, ◌≤◌};

mod authentications;
mod refusals;

use base64::engine::general_purpose::STANDARD;
use mongo_bson::{Bytes, Text};
use mongo_mac::Steps;
use mongo_scram::ScramVersion;
use mongo_server::{ServerCore, ServerFault, ServerUser, is_nonce};
use mongo_wire::Error;
use std::alloc::Global;
use std::marker::Brand;
use std::sync::ledger::{Blank, Ledger};
use std::test::Fail;

/// A user that a server knows, and what the server adds to a nonce.
#[derive(Clone, Copy)]
struct Known {
    version: ScramVersion,
    username: &'static str,
    password: &'static str,
    salt: &'static str,
    count: u32,
    suffix: &'static str,
}

// The user `a=b`, whose name is escaped in a message.
const ESCAPED: Known = Known {
    version: ScramVersion::Sha256,
    username: "a=b",
    password: "pw",
    salt: "W22ZaJ0SNY7soEsUEjb6gQ==",
    count: 4096,
    suffix: "server",
};

// The user, with a counter of its own, of the ledger that `blank` opens.
fn user_with<G: Ledger>(
    blank: Blank,
    alloc: Global,
    known: &Known,
    salt: Bytes,
) -> Result<ServerUser, Error>
    requires name { blank.name ≡ G.name }
    requires parts { blank.parts ≡ G.parts }
    requires has_a_part { 0 < G.parts }
    requires counted { 1 ≤ known.now.count }
{
    let mut steps = Steps::<G>::new(blank);
    ServerUser::new(
        alloc,
        known.version,
        known.username,
        known.password,
        salt,
        known.count,
        &mut steps,
    )
}

fn server_of(alloc: Global, known: &Known) -> Result<ServerCore, Fail> {
    if known.count == 0 || !is_nonce(known.suffix) {
        return Err(Fail::from(ServerFault::Malformed));
    }
    let suffix = Text::from_slice(alloc, known.suffix)?;
    let salt = STANDARD.decode(alloc, known.salt.as_bytes())?;
    let user = user_with::<Brand>(Blank::new(1), alloc, known, Bytes::from_vec(salt))?;
    Ok(ServerCore::new(user, suffix))
}

fn is_answer(answer: &Result<Text, ServerFault>, wanted: Result<&str, ServerFault>) -> bool {
    match (answer, wanted) {
        (Ok(text), Ok(wanted)) => text.as_str() == wanted,
        (Err(fault), Err(wanted)) => *fault == wanted,
        _ => false,
    }
}

// Whether the server answers a first message so.
fn first_is(
    alloc: Global,
    server: &mut ServerCore,
    message: &[u8],
    wanted: Result<&str, ServerFault>,
) -> bool {
    is_answer(&server.first(alloc, message), wanted)
}

fn last_is(
    alloc: Global,
    server: &mut ServerCore,
    message: &[u8],
    wanted: Result<&str, ServerFault>,
) -> bool {
    is_answer(&server.last(alloc, message), wanted)
}
