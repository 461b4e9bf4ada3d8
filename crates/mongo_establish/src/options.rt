ghost use Rattle.std.specs.Prelude.{◌≡◌, IfOk, IfErr};
ghost use Rattle.mongo_wire.specs.declared.error.ErrorKind.TheVariants.{OutOfMemory};

use mongo_command::ServerApi;
use mongo_meta::{ClientMetadata, ClientOptions};
use mongo_sasl::AuthOptions;
use mongo_wire::Error;
use std::alloc::Global;

/// The greatest iteration count that is followed where the options name none.
pub const DEFAULT_MAX_ITERATIONS: u32 = 10_000_000;

/// What a client is made of: its options, and the metadata that they come to.
#[derive(Debug)]
pub struct TopologySpec {
    /// The client's options.
    pub options: ClientOptions,
    /// What the client says of itself.
    pub metadata: ClientMetadata,
    /// The most iterations by which a SCRAM login derives its key.
    pub max_iterations: u32,
}

// Dropped by a call, so that the proofs of its owners don't walk through its parts.
impl Drop for TopologySpec {
    fn drop(self) {
        let TopologySpec {
            options: _,
            metadata: _,
            max_iterations: _,
        } = self;
    }
}

impl TopologySpec {
    ghost use Rattle.std.specs.Prelude.{◌≡◌, IfOk, IfErr};
    ghost use Rattle.mongo_establish.specs.Options.{client_spec};

    /// What a client with these options is made of, which follows so many iterations at most.
    pub fn of_client(
        alloc: Global,
        options: ClientOptions,
        max_iterations: u32,
    ) -> Result<TopologySpec, Error>
        ensures spec { IfOk result (λ spec. spec ≡ client_spec options max_iterations) }
        ensures refused { IfErr result (λ e. e.kind ≡ OutOfMemory) }
    {
        let metadata = ClientMetadata::from_options(alloc, &options)?;
        Ok(TopologySpec {
            options,
            metadata,
            max_iterations,
        })
    }

    /// A copy.
    pub fn try_clone(&self, alloc: Global) -> Result<TopologySpec, Error>
        ensures copied { IfOk result (λ spec. spec ≡ self.now) }
        ensures refused { IfErr result (λ e. e.kind ≡ OutOfMemory) }
    {
        let metadata = self.metadata.try_clone(alloc)?;
        Ok(TopologySpec {
            options: self.options.try_clone(alloc)?,
            metadata,
            max_iterations: self.max_iterations,
        })
    }
}

/// What the handshakes of a client are made of.
#[derive(Debug)]
pub struct HandshakerOptions {
    /// The stable API that the hello asks for.
    pub server_api: Option<ServerApi>,
    /// Whether a load balancer stands before the servers.
    pub load_balanced: bool,
    /// What the commands of a login carry.
    pub auth_options: AuthOptions,
    /// What the client says of itself.
    pub metadata: ClientMetadata,
    /// The most iterations by which a SCRAM login derives its key.
    pub max_iterations: u32,
}

// Dropped by a call, so that the proofs of its owners don't walk through its parts.
impl Drop for HandshakerOptions {
    fn drop(self) {
        let HandshakerOptions {
            server_api: _,
            load_balanced: _,
            auth_options: _,
            metadata: _,
            max_iterations: _,
        } = self;
    }
}

impl HandshakerOptions {
    /// A copy.
    pub fn try_clone(&self, alloc: Global) -> Result<HandshakerOptions, Error>
        ensures copied { IfOk result (λ options. options ≡ self.now) }
        ensures refused { IfErr result (λ e. e.kind ≡ OutOfMemory) }
    {
        Ok(HandshakerOptions {
            server_api: self.server_api,
            load_balanced: self.load_balanced,
            auth_options: self.auth_options,
            metadata: self.metadata.try_clone(alloc)?,
            max_iterations: self.max_iterations,
        })
    }
}

/// What an establisher is made of.
#[derive(Debug, Drop)]
pub struct EstablisherOptions {
    /// The options of its handshakes.
    pub handshake_options: HandshakerOptions,
}

impl EstablisherOptions {
    ghost use Rattle.std.specs.Prelude.{◌≡◌, IfOk, IfErr};
    ghost use Rattle.mongo_establish.specs.Options.{options_of};

    /// The options of a client's establishers.
    pub fn from_spec(alloc: Global, spec: &TopologySpec) -> Result<EstablisherOptions, Error>
        ensures options { IfOk result (λ options. options.handshake_options ≡ options_of spec.now) }
        ensures refused { IfErr result (λ e. e.kind ≡ OutOfMemory) }
    {
        let auth_options = auth_options_from_options(alloc, &spec.options)?;
        Ok(EstablisherOptions {
            handshake_options: HandshakerOptions {
                server_api: spec.options.server_api,
                load_balanced: spec.options.load_balanced,
                auth_options,
                metadata: spec.metadata.try_clone(alloc)?,
                max_iterations: spec.max_iterations,
            },
        })
    }

    /// A copy.
    pub fn try_clone(&self, alloc: Global) -> Result<EstablisherOptions, Error>
        ensures copied { IfOk result (λ options. options ≡ self.now) }
        ensures refused { IfErr result (λ e. e.kind ≡ OutOfMemory) }
    {
        Ok(EstablisherOptions {
            handshake_options: self.handshake_options.try_clone(alloc)?,
        })
    }
}

/// What a client's options say of every login: the stable API. It takes no memory today.
pub fn auth_options_from_options(
    _alloc: Global,
    options: &ClientOptions,
) -> Result<AuthOptions, Error>
    ensures options { IfOk result (λ auth. auth.server_api ≡ options.now.server_api) }
    ensures refused { IfErr result (λ e. e.kind ≡ OutOfMemory) }
{
    Ok(AuthOptions {
        server_api: options.server_api,
    })
}
