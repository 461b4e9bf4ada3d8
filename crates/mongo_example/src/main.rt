//! `mongo_example`: how a connection pool uses `mongo_establish`. It makes two connections of one pool, over replies that
//! were recorded, and prints what a pool keeps of each.
//!
//! [`pool::Pool`] has what the connections of a pool share. [`Pool::establish`] is the call to read: a connection that it
//! gives has a description, on which [`connection_line`] relies.
#![tactic(auto)]

ghost use Rattle.std.specs.Prelude.{◌≡◌, ◌<◌, IsSome};

mod pool;
mod recorded;

use mongo_establish::{
    Bytes, DEFAULT_PORT, Error, MemoryLink, PooledConnection, ServerAddress, Steps,
};
use pool::Pool;
use recorded::{Recorded, recordings};
use std::alloc::{AllocError, Global};
use std::marker::Brand;
use std::process::ExitCode;
use std::sync::ledger::{Blank, Ledger};

/// Prints the lines of two connections. Status 1 says that one was refused, or that they couldn't be printed.
fn main(rt: HostRuntime) -> ExitCode {
    match two_connections::<Brand>(rt.alloc(), Blank::new(1)) {
        Ok(lines) => match print!(rt; "{lines}") {
            Ok(()) => ExitCode::SUCCESS,
            Err(_) => ExitCode::FAILURE,
        },
        Err(_) => ExitCode::FAILURE,
    }
}

/// The lines of two connections that a pool makes one after another, with a counter of their own, of the ledger that
/// `blank` opens.
fn two_connections<G: Ledger>(alloc: Global, blank: Blank) -> Result<String, Error>
    requires name { blank.name ≡ G.name }
    requires parts { blank.parts ≡ G.parts }
    requires has_a_part { 0 < G.parts }
{
    let mut steps = Steps::<G>::new(blank);
    let mut pool = Pool::new(alloc)?;
    lines_of_two(alloc, &mut pool, &mut steps)
}

/// The lines of the pool's next two connections.
fn lines_of_two<G: Ledger>(
    alloc: Global,
    pool: &mut Pool,
    steps: &mut Steps<G>,
) -> Result<String, Error> {
    let mut lines = String::new(alloc);
    for server in &recordings() {
        let line = connect(alloc, pool, server, steps)?;
        lines.push_str(line.as_str())?;
    }
    Ok(lines)
}

/// Makes the pool's next connection, over what a server answered, and gives its line.
fn connect<G: Ledger>(
    alloc: Global,
    pool: &mut Pool,
    server: &Recorded,
    steps: &mut Steps<G>,
) -> Result<String, Error> {
    let replies = Bytes::from_slice(alloc, server.replies)?;
    let mut link = MemoryLink::new(alloc, replies);
    let pending = pool.next_pending(alloc)?;
    let before = pool.rounds();
    match pool.establish(alloc, pending, &mut link, &server.inputs, steps) {
        Ok(pooled) => {
            let derived = pool.rounds() - before;
            Ok(connection_line(alloc, &pooled, derived)?)
        }
        Err(refused) => Err(refused.cause),
    }
}

/// What a pool keeps of a connection that is ready for commands, and how many rounds its login derived.
fn connection_line(
    alloc: Global,
    pooled: &PooledConnection,
    derived: u64,
) -> Result<String, AllocError>
    requires described { IsSome pooled.now.connection.stream_description }
{
    let connection = &pooled.connection;
    let Some(description) = &connection.stream_description else {
        unreachable!()
    };
    let place = written_address(alloc, &connection.address)?;
    format!(in alloc;
        "connection {} to {place}, generation {:?}\n  {:?}, documents of {} bytes, messages of {} bytes, {} writes in a batch\n  {derived} rounds derived\n",
        connection.id,
        pooled.generation,
        description.initial_server_type,
        description.max_bson_object_size,
        description.max_message_size_bytes,
        description.max_write_batch_size
    )
}

/// An address as people write it.
fn written_address(alloc: Global, address: &ServerAddress) -> Result<String, AllocError> {
    match address {
        ServerAddress::Tcp { host, port } => {
            format!(in alloc; "{}:{}", host.as_str(), port.unwrap_or(DEFAULT_PORT))
        }
        ServerAddress::Unix { path } => format!(in alloc; "{}", path.as_str()),
    }
}
