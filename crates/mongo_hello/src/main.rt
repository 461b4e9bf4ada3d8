//! `mongo_hello`: logs in over standard input and output, as a program would over any stream.
//!
//! Standard input has 64 random bytes, drawn anew for each run, and then the server's bytes. Standard output takes the
//! client's frames. Status 0 says that it is connected, and that `user` is logged in unless the server calls itself an arbiter; status 1
//! that the login was refused, or that the random bytes weren't there.
#![tactic(auto)]

ghost use Rattle.std.specs.Prelude.{◌≡◌, ◌<◌, IsSome, IfOk, IfErr};
ghost use Rattle.mongo_wire.specs.declared.error.ErrorKind.TheVariants.{OutOfMemory};
ghost use Rattle.mongo_hello.specs.Hello.{hello_server, hello_user, hello_spec};

use mongo_establish::{
    ClientOptions, ConnectionEstablisher, Credential, DEFAULT_MAX_ITERATIONS, Error, Link,
    LoginInputs, LoginState, Nonces, PendingConnection, PoolGeneration, PooledConnection,
    ServerAddress, StdLink, Steps, Text, TopologySpec,
};
use std::alloc::Global;
use std::io;
use std::io::Read;
use std::marker::Brand;
use std::process::ExitCode;
use std::sync::ledger::{Blank, Ledger};

/// Logs in over standard input and output.
fn main(rt: HostRuntime) -> ExitCode {
    let mut input = rt.stdin();
    let Ok(nonces) = drawn(&mut input) else {
        return ExitCode::FAILURE;
    };
    let mut link = StdLink::new(input, rt.stdout());
    match connected::<_, Brand>(rt.alloc(), &mut link, nonces, Blank::new(1)) {
        Ok(_pooled) => ExitCode::SUCCESS,
        Err(_) => ExitCode::FAILURE,
    }
}

/// The nonces of one login: the next 64 bytes of `reader`. They have to be random, and no other login may use them.
fn drawn<R: Read>(reader: &mut R) -> io::Result<Nonces> {
    let mut first = [0; 32];
    let mut second = [0; 32];
    reader.read_exact(&mut first)?;
    reader.read_exact(&mut second)?;
    Ok(Nonces { first, second })
}

/// A connection to `db.example.net` over a fresh link, by a login of `user`, with a counter of its own, of the ledger that `blank` opens.
fn connected<L: Link, G: Ledger>(
    alloc: Global,
    link: &mut L,
    nonces: Nonces,
    blank: Blank,
) -> Result<PooledConnection, Error>
    requires name { blank.name ≡ G.name }
    requires parts { blank.parts ≡ G.parts }
    requires has_a_part { 0 < G.parts }
    ensures address { IfOk result (λ pooled. pooled.connection.address ≡ hello_server) }
    ensures id { IfOk result (λ pooled. pooled.connection.id ≡ 1) }
    ensures described { IfOk result (λ pooled. IsSome pooled.connection.stream_description) }
{
    let host = Text::from_slice(alloc, "db.example.net")?;
    let pending = PendingConnection {
        id: 1,
        address: ServerAddress::Tcp { host, port: None },
        generation: PoolGeneration::Normal(0),
    };
    let credential = credential(alloc)?;
    let spec = spec(alloc)?;
    let establisher = ConnectionEstablisher::from_spec(alloc, &spec)?;
    let mut state = LoginState::new(alloc);
    let mut steps = Steps::<G>::new(blank);
    match establisher.establish_connection(
        alloc,
        pending,
        link,
        Some(&credential),
        &mut state,
        &LoginInputs::of_nonces(nonces),
        &mut steps,
    ) {
        Ok(pooled) => Ok(pooled),
        Err(refused) => Err(refused.cause),
    }
}

/// Who logs in.
fn credential(alloc: Global) -> Result<Credential, Error>
    ensures user { IfOk result (λ credential. credential ≡ hello_user) }
    ensures refused { IfErr result (λ e. e.kind ≡ OutOfMemory) }
{
    let username = Text::from_slice(alloc, "user")?;
    let password = Text::from_slice(alloc, "pencil")?;
    Ok(
        Credential::new()
            .username(Some(username))
            .password(Some(password)),
    )
}

/// What the client is made of.
fn spec(alloc: Global) -> Result<TopologySpec, Error>
    ensures spec { IfOk result (λ spec. spec ≡ hello_spec) }
    ensures refused { IfErr result (λ e. e.kind ≡ OutOfMemory) }
{
    let options = ClientOptions::new(alloc)?;
    TopologySpec::of_client(alloc, options, DEFAULT_MAX_ITERATIONS)
}
