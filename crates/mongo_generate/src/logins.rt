ghost use Rattle.std.specs.Prelude.{◌≡◌, ◌+◌, ◌-◌, ◌^◌, ◌<◌, ◌≤◌, ◌++◌, ℕ, List, Some, IsSome, IfOk, OnOk};
ghost use Rattle.sha2.specs.Hashers.{Holds256};
ghost use Rattle.mongo_scram.specs.Costs.{ledgers};
ghost use Rattle.mongo_establish.specs.KeyCosts.{StoresKey};
ghost use Rattle.mongo_server.specs.Authentication.{Authentication};
ghost use Rattle.mongo_generate.specs.Acceptance.{acceptance_of};
ghost use Rattle.mongo_generate.specs.Generated.{authentication_at, last_messages, IsGenerated};
ghost use Rattle.mongo_generate.specs.Login.{key_of};

use crate::{Acceptance, Client, UserLogin, generated_server};
use mongo_establish::LoginState;
use mongo_mac::Steps;
use sha2::{Digest, Sha256};
use std::alloc::{AllocError, Global};
use std::sync::ledger::Ledger;

/// What came of logins.
#[derive(Clone, Copy, Debug)]
pub struct Generated {
    /// How many there were.
    pub logins: u32,
    /// How many of them both sides accepted.
    pub accepted: u32,
    /// The rounds of Hi that the client derived.
    pub rounds: u64,
    /// The SHA-256 of all last messages, joined: login after login, the client's and then the server's.
    pub digest: [u8; 32],
}

/// Makes the logins of the numbers below `count`, one after another with one cache of salted passwords, each against a
/// server of its own. There are 1000 at most.
///
/// Both sides accept each of them.
pub fn generate<G: Ledger>(
    alloc: Global,
    count: u32,
    steps: &mut Steps<G>,
) -> Result<Generated, AllocError>
    requires { count ≤ 1000 }
    ensures generated { IfOk result (IsGenerated count steps.old steps.new) }
    ensures steps { steps.old ≤ steps.new }
{
    let client = Client::new(alloc)?;
    let mut state = LoginState::new(alloc);
    let mut accepted = 0;
    let mut hasher = Sha256::new();
    for number in 0..count {
        let met = log_in_numbered(alloc, &client, number, &mut state, steps)?;
        tally(met, &mut accepted, &mut hasher);
    }
    Ok(Generated {
        logins: count,
        accepted,
        rounds: state.salted.rounds(),
        digest: hasher.finalize(),
    })
}

// Counts a login that both sides accepted, and takes its last messages into the digest.
fn tally(met: Option<Acceptance>, accepted: &mut u32, hasher: &mut Sha256)
    requires few { accepted.old < 2 ^ 32 - 1 }
    requires met { IsSome met }
    ensures counted { (x : Authentication) → met ≡ Some (acceptance_of x) → accepted.new ≡ accepted.old + 1 }
    ensures digested { (x : Authentication) (before : List ℕ) → met ≡ Some (acceptance_of x) → Holds256 hasher.old before → Holds256 hasher.new (before ++ last_messages x) }
{
    let Some(acceptance) = met else {
        unreachable!()
    };
    *accepted += 1;
    hasher.update(acceptance.client_final.as_bytes());
    hasher.update(acceptance.server_final.as_bytes());
}

// The login of this number, against the server that knows its user.
fn log_in_numbered<G: Ledger>(
    alloc: Global,
    client: &Client,
    number: u32,
    state: &mut LoginState,
    steps: &mut Steps<G>,
) -> Result<Option<Acceptance>, AllocError>
    ensures accepted { IfOk result (λ met. met ≡ Some (acceptance_of (authentication_at number))) }
    // The server derives the key, and then the client does where it has no entry.
    ensures takes { OnOk result (StoresKey (key_of (authentication_at number)) (ledgers (steps.old + 4096) state.old.salted) (ledgers steps.new state.new.salted)) }
    ensures steps { steps.old ≤ steps.new }
{
    let login = UserLogin::generated(alloc, number)?;
    let mut server = generated_server(alloc, number, steps)?;
    client.log_in(alloc, &login, &mut server, state, steps)
}
