ghost use Rattle.std.specs.Prelude.{◌≡◌, None, IfOk, IfErr};
ghost use Rattle.mongo_wire.specs.declared.error.ErrorKind.TheVariants.{OutOfMemory};
ghost use Rattle.mongo_establish.specs.Options.{options_of_establisher};
ghost use Rattle.mongo_example.specs.Example.{example_user, example_spec, example_handshake};

use mongo_establish::{
    ClientOptions, ConnectionEstablisher, Credential, DEFAULT_MAX_ITERATIONS, Environment, Error,
    EstablishError, Link, LoginInputs, LoginState, OsMetadata, PendingConnection, PoolGeneration,
    PooledConnection, ServerAddress, Steps, Text, TopologySpec, Variables,
};
use std::alloc::Global;
use std::sync::ledger::Ledger;

/// What the connections to one server share: how they are made, who logs in, and the keys of logins that were accepted.
#[derive(Drop)]
pub struct Pool {
    establisher: ConnectionEstablisher,
    address: ServerAddress,
    credential: Credential,
    state: LoginState,
    generation: u32,
    next_id: u32,
    // the mechanism is negotiated
    ghost negotiated: { credential.mechanism ≡ None },
}

impl Pool {
    ghost use Rattle.std.specs.Prelude.{◌≡◌, ◌+◌, ◌-◌, ◌^◌, ◌≤◌, min, [], IfOk, IfErr, OnOk, OnErr};
    ghost use Rattle.mongo_wire.specs.declared.error.ErrorKind.TheVariants.{OutOfMemory};
    ghost use Rattle.mongo_scram.specs.Cache.{rounds_of};
    ghost use Rattle.mongo_scram.specs.Costs.{ledgers};
    ghost use Rattle.mongo_establish.specs.declared.generation.PoolGeneration.TheVariants.{Normal};
    ghost use Rattle.mongo_establish.specs.Ending.{EndsEstablishment};
    ghost use Rattle.mongo_establish.specs.Setup.{checkpoint_with};
    ghost use Rattle.mongo_example.specs.Pool.{IsFresh, IsReady, KeepsPool, setup_by_pool};

    /// A pool for `user` at `db.example.net`, of generation 7, that has made no connection.
    pub fn new(alloc: Global) -> Result<Pool, Error>
        ensures fresh { IfOk result IsFresh }
        ensures refused { IfErr result (λ e. e.kind ≡ OutOfMemory) }
    {
        let host = Text::from_slice(alloc, "db.example.net")?;
        let credential = credential(alloc)?;
        let establisher = establisher(alloc)?;
        Ok(Pool {
            establisher,
            address: ServerAddress::Tcp { host, port: None },
            credential,
            state: LoginState::new(alloc),
            generation: 7,
            next_id: 1,
        })
    }

    /// The connection that the pool makes next: its number is the pool's next.
    pub fn next_pending(&mut self, alloc: Global) -> Result<PendingConnection, Error>
        ensures id { IfOk result (λ pending. pending.id ≡ self.old.next_id) }
        ensures address { IfOk result (λ pending. pending.address ≡ self.old.address) }
        ensures generation { IfOk result (λ pending. pending.generation ≡ Normal self.old.generation) }
        ensures counted { OnOk result (self.new ≡ record self.old { next_id = min (self.old.next_id + 1) (2 ^ 32 - 1) }) }
        ensures unchanged { OnErr result (self.new ≡ self.old) }
        ensures refused { IfErr result (λ e. e.kind ≡ OutOfMemory) }
    {
        let address = self.address.try_clone(alloc)?;
        let id = self.next_id;
        self.next_id = id.saturating_add(1);
        Ok(PendingConnection {
            id,
            address,
            generation: PoolGeneration::Normal(self.generation),
        })
    }

    /// Makes a connection over a fresh link. What it promises, and how it refuses, is what
    /// [`ConnectionEstablisher::establish_connection`] says, for a login of the pool's user.
    pub fn establish<L: Link, G: Ledger>(
        &mut self,
        alloc: Global,
        pending: PendingConnection,
        link: &mut L,
        inputs: &LoginInputs,
        steps: &mut Steps<G>,
    ) -> Result<PooledConnection, EstablishError>
        ensures ready { IfOk result (IsReady pending) }
        // All that `establish_connection` promises: of the connection or the refusal, of the link, of the counter and of the keys.
        ensures ended { EndsEstablishment [] (setup_by_pool self.old pending inputs.now.nonces)
            (checkpoint_with (L.state link.old) self.old.state steps.old) (checkpoint_with (L.state link.new) self.new.state steps.new) result }
        // The pool's rounds don't fall.
        ensures rounds { rounds_of self.old.state.salted ≤ rounds_of self.new.state.salted }

        // The rest of the pool is as it was, its next number among it.
        ensures rest { KeepsPool self.old self.new }
    {
        self.establisher.establish_connection(
            alloc,
            pending,
            link,
            Some(&self.credential),
            &mut self.state,
            inputs,
            steps,
        )
    }

    /// How many rounds all logins of the pool derived.
    pub fn rounds(&self) -> u64
        ensures { result ≡ rounds_of self.now.state.salted }
    {
        self.state.salted.rounds()
    }
}

// Who logs in.
fn credential(alloc: Global) -> Result<Credential, Error>
    ensures user { IfOk result (λ credential. credential ≡ example_user) }
    ensures refused { IfErr result (λ e. e.kind ≡ OutOfMemory) }
{
    let username = Text::from_slice(alloc, "user")?;
    let password = Text::from_slice(alloc, "pencil")?;
    Ok(
        Credential::new()
            .username(Some(username))
            .password(Some(password)),
    )
}

// What makes the connections: it holds the hello that they have in common.
fn establisher(alloc: Global) -> Result<ConnectionEstablisher, Error>
    ensures options { IfOk result (λ establisher. options_of_establisher establisher ≡ example_handshake) }
    ensures refused { IfErr result (λ e. e.kind ≡ OutOfMemory) }
{
    let spec = spec(alloc)?;
    ConnectionEstablisher::from_spec(alloc, &spec)
}

// What the client is made of.
fn spec(alloc: Global) -> Result<TopologySpec, Error>
    ensures spec { IfOk result (λ spec. spec ≡ example_spec) }
    ensures refused { IfErr result (λ e. e.kind ≡ OutOfMemory) }
{
    let options = ClientOptions::new(alloc)?;
    TopologySpec::of_client(alloc, options, DEFAULT_MAX_ITERATIONS)
}
