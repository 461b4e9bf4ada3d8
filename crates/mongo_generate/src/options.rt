ghost use Rattle.std.specs.Prelude.{◌≡◌, IfOk, IfErr};
ghost use Rattle.mongo_wire.specs.declared.error.ErrorKind.TheVariants.{OutOfMemory};
ghost use Rattle.mongo_establish.specs.Options.{options_of, options_of_establisher};
ghost use Rattle.mongo_generate.specs.Options.{handshaker_options};

use mongo_bson::{BsonFault, Text};
use mongo_establish::{
    ClientOptions, ConnectionEstablisher, DEFAULT_MAX_ITERATIONS, Error, TopologySpec,
    want_of_memory,
};
use mongo_meta::{Environment, OsMetadata, Variables};
use std::alloc::{AllocError, Global};

/// A client that says no more of itself than it has to, and follows the default of iterations at most.
#[derive(Debug, Drop)]
pub struct Client {
    pub(crate) establisher: ConnectionEstablisher,
    pub ghost options: { options_of_establisher establisher ≡ handshaker_options },
}

impl Client {
    /// The client.
    pub fn new(alloc: Global) -> Result<Client, AllocError> {
        match establisher(alloc) {
            Ok(establisher) => Ok(Client { establisher }),
            Err(error) => Err(want_of_memory(error)),
        }
    }
}

fn establisher(alloc: Global) -> Result<ConnectionEstablisher, Error>
    ensures options { IfOk result (λ establisher. options_of_establisher establisher ≡ handshaker_options) }
    ensures refused { IfErr result (λ e. e.kind ≡ OutOfMemory) }
{
    let spec = spec(alloc)?;
    ConnectionEstablisher::from_spec(alloc, &spec)
}

fn spec(alloc: Global) -> Result<TopologySpec, Error>
    ensures options { IfOk result (λ spec. options_of spec ≡ handshaker_options) }
    ensures refused { IfErr result (λ e. e.kind ≡ OutOfMemory) }
{
    let options = ClientOptions::new(alloc)?;
    TopologySpec::of_client(alloc, options, DEFAULT_MAX_ITERATIONS)
}
