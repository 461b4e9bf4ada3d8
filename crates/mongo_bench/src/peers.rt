ghost use Rattle.std.specs.Prelude.{◌≡◌};
ghost use Rattle.mongo_bench.specs.Login.{number_of_hash};

use crate::task::Hash;
use mongo_establish::LoginState;
use mongo_generate::{Client, UserLogin, generated_server};
use mongo_mac::Steps;
use mongo_server::ServerCore;
use std::alloc::{AllocError, Global};
use std::sync::ledger::Ledger;

/// A client that logs in as one user again and again, and the server that knows this user.
pub struct Peers {
    hash: Hash,
    client: Client,
    login: UserLogin,
    server: ServerCore,
    state: LoginState,
}

// Dropped by a call, so that the proofs of its owners don't walk through its parts.
impl Drop for Peers {
    fn drop(self) {
        let Peers {
            hash: _,
            client: _,
            login: _,
            server: _,
            state: _,
        } = self;
    }
}

impl Peers {
    ghost use Rattle.std.specs.Prelude.{◌≡◌, ◌+◌, ◌≤◌, [], IfOk, OnOk};
    ghost use Rattle.mongo_scram.specs.Cache.{entries_of};
    ghost use Rattle.mongo_scram.specs.Costs.{ledgers};
    ghost use Rattle.mongo_establish.specs.KeyCosts.{StoresKey};
    ghost use Rattle.mongo_bench.specs.Login.{bench_key, AreReady};

    /// The user of the first generated login over this hash, whose server derives its keys by 4096 steps. Nothing is kept from
    /// one login to the next yet.
    pub fn new<G: Ledger>(
        alloc: Global,
        hash: Hash,
        steps: &mut Steps<G>,
    ) -> Result<Peers, AllocError>
        ensures hash { IfOk result (λ peers. peers.hash ≡ hash) }
        ensures ready { IfOk result AreReady }
        ensures empty { IfOk result (λ peers. entries_of peers.state.salted ≡ []) }
        ensures cost { OnOk result (steps.new ≡ steps.old + 4096) }
        ensures steps { steps.old ≤ steps.new }
    {
        let number = number_of_hash(hash);
        let client = Client::new(alloc)?;
        let login = UserLogin::generated(alloc, number)?;
        let server = generated_server(alloc, number, steps)?;
        let state = LoginState::new(alloc);
        Ok(Peers {
            hash,
            client,
            login,
            server,
            state,
        })
    }

    /// One login more, which both sides accept.
    pub fn log_in<G: Ledger>(
        &mut self,
        alloc: Global,
        steps: &mut Steps<G>,
    ) -> Result<(), AllocError>
        requires ready { AreReady self.old }
        ensures ready { AreReady self.new }
        ensures takes { OnOk result (StoresKey (bench_key self.old.hash) (ledgers steps.old self.old.state.salted) (ledgers steps.new self.new.state.salted)) }
        ensures hash { self.new.hash ≡ self.old.hash }
        ensures steps { steps.old ≤ steps.new }
    {
        match self.client.log_in(alloc, &self.login, &mut self.server, &mut self.state, steps)? {
            Some(_acceptance) => Ok(()),
            None => unreachable!(),
        }
    }
}

// The number of the first generated login over this hash.
fn number_of_hash(hash: Hash) -> u32
    ensures { result ≡ number_of_hash hash }
{
    match hash {
        Hash::Sha1 => 0,
        Hash::Sha256 => 1,
    }
}
