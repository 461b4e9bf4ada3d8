//! A login that is ready, and the establishment of its connection.
ghost use Rattle.std.specs.Prelude.{◌≡◌, ◌≤◌, [], IfOk, IfErr};
ghost use Rattle.mongo_wire.specs.declared.error.ErrorKind.TheVariants.{OutOfMemory};
ghost use Rattle.mongo_scram.specs.Costs.{ledgers};
ghost use Rattle.mongo_establish.specs.Ending.{EndsEstablishment};
ghost use Rattle.mongo_establish.specs.Options.{client_spec, options_of, options_of_establisher};
ghost use Rattle.mongo_establish.specs.Setup.{start_of, checkpoint_with};
ghost use Rattle.mongo_establish.specs.Speculation.{SpeaksFor};
ghost use Rattle.mongo_settings.specs.Login.{setup_by, HasSetupOf};

use crate::settings::Settings;
use mongo_bson::Bytes;
use mongo_establish::{
    ClientOptions, ConnectionEstablisher, Credential, Error, EstablishError, Link, LoginInputs,
    LoginState, PendingConnection, PooledConnection, RequestIds, TopologySpec, want_of_memory,
};
use mongo_mac::Steps;
use std::alloc::{AllocError, Global};
use std::sync::ledger::Ledger;

/// All that is handed to one establishment but its link.
#[derive(Drop)]
pub struct PreparedLogin {
    /// What makes the connection.
    pub establisher: ConnectionEstablisher,
    /// The connection that is asked for.
    pub pending: PendingConnection,
    /// Who logs in, if anyone.
    pub credential: Option<Credential>,
    /// What is drawn for the login.
    pub inputs: LoginInputs,
    /// The ids of its commands.
    pub ids: RequestIds,
}

/// Makes the login of the settings ready, and hands on their reply bytes.
pub fn prepare(alloc: Global, settings: Settings) -> Result<(PreparedLogin, Bytes), AllocError>
    ensures login { IfOk result (λ ready. HasSetupOf settings ready.0) }
    ensures replies { IfOk result (λ ready. ready.1 ≡ settings.replies) }
{
    let Settings {
        pending,
        replies,
        credential,
        nonces,
        first_id,
        options,
        max_iterations,
    } = settings;
    let establisher = match establisher(alloc, options, max_iterations) {
        Ok(establisher) => establisher,
        Err(error) => return Err(want_of_memory(error)),
    };
    let login = PreparedLogin {
        establisher,
        pending,
        credential,
        inputs: LoginInputs::of_nonces(nonces),
        ids: RequestIds::new(first_id),
    };
    Ok((login, replies))
}

// The establisher of a client with these options.
fn establisher(
    alloc: Global,
    options: ClientOptions,
    max_iterations: u32,
) -> Result<ConnectionEstablisher, Error>
    ensures options { IfOk result (λ establisher. options_of_establisher establisher ≡ options_of (client_spec options max_iterations)) }
    ensures refused { IfErr result (λ e. e.kind ≡ OutOfMemory) }
{
    let spec = TopologySpec::of_client(alloc, options, max_iterations)?;
    ConnectionEstablisher::from_spec(alloc, &spec)
}

/// Makes the connection of a login over a fresh link, with the salted passwords of the logins before.
pub fn connect<L: Link, G: Ledger>(
    alloc: Global,
    login: PreparedLogin,
    link: &mut L,
    state: &mut LoginState,
    steps: &mut Steps<G>,
) -> Result<PooledConnection, EstablishError>
    requires spoken { SpeaksFor login.credential }
    // All that `establish_connection` promises, of what the login asks for.
    ensures ended { EndsEstablishment [] (setup_by login)
        (start_of (setup_by login) (L.state link.old) (ledgers steps.old state.old.salted)) (checkpoint_with (L.state link.new) state.new steps.new) result }
    ensures steps { steps.old ≤ steps.new }
{
    let PreparedLogin {
        establisher,
        pending,
        credential,
        inputs,
        ids,
    } = login;
    state.ids = ids;
    establisher.establish_connection(
        alloc,
        pending,
        link,
        credential.as_ref(),
        state,
        &inputs,
        steps,
    )
}
