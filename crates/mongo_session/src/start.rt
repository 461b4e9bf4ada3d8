//! How a login begins: which account the client's first message is of, and the server's answer to it.

ghost use Rattle.std.specs.Prelude.{◌≡◌, ◌≢◌, ◌↔◌, None, IsTrue, IfOk, IfErr, OnOk, OnErr};
ghost use Rattle.mongo_server.specs.ClientMessages.{IsNonce};
ghost use Rattle.mongo_session.specs.Costs.{KeyRounds, StartRounds, CostsAtMost, CostsRounds};
ghost use Rattle.mongo_session.specs.Started.{NamesUser, Suits, FindsAccount, StartsFor, StartsBy};
ghost use Rattle.mongo_bson.specs.declared.fault.BsonFault.TheVariants.{OutOfMemory};
ghost use Rattle.mongo_wire.specs.declared.error.ErrorKind.TheVariants.{OutOfMemory as WantOfMemory};

use crate::request::StartRequest;
use crate::serve_settings::{Account, ServeSettings};
use crate::session::PendingLogin;
use mongo_bson::{BsonFault, Text};
use mongo_mac::Steps;
use mongo_scram::attributes::{GS2_HEADER, NEXT_NONCE, USER_NAME};
use mongo_scram::{ScramVersion, saslname};
use mongo_server::{ServerCore, ServerFault, ServerUser};
use mongo_wire::{Error, ErrorKind};
use std::alloc::{AllocError, Global};
use std::sync::ledger::Ledger;

/// A login that began, and the server's first message in it.
#[derive(Drop)]
pub struct StartedLogin {
    /// The login.
    pub login: PendingLogin,
    /// The message.
    pub answer: Text,
}

/// Opens the login that a `saslStart` asks for: that of the first account of its mechanism whose user the client's first message
/// names. None where there is no such account, where its mechanism doesn't take its password, and where the message's nonce isn't one.
pub fn start_login<G: Ledger>(
    alloc: Global,
    settings: &ServeSettings,
    start: StartRequest<'_>,
    steps: &mut Steps<G>,
) -> Result<Option<StartedLogin>, BsonFault>
    ensures opened { IfOk result (StartsBy settings.now start.entry) }
    ensures refused { IfErr result (λ fault. fault ≡ OutOfMemory) }
    // The key of the account that is found is derived, also where the message is refused after that.
    ensures cost { OnOk result (CostsRounds (StartRounds settings.now start.entry) steps.old steps.new) }
    ensures at_most { OnErr result (CostsAtMost (StartRounds settings.now start.entry) steps.old steps.new) }
{
    let (Some(version), Some(payload)) = (start.version, start.payload) else {
        return Ok(None);
    };
    match account_named(alloc, settings.accounts.as_slice(), version, payload)? {
        Some(account) => start_for(
            alloc,
            account,
            settings.suffix.as_str(),
            payload,
            start.skips_empty_exchange,
            steps,
        ),
        None => Ok(None),
    }
}

// The first account of that mechanism whose user the client's first message names.
fn account_named<'a>(
    alloc: Global,
    accounts: &'a [Account],
    version: ScramVersion,
    payload: &[u8],
) -> Result<Option<&'a Account>, AllocError>
    ensures { IfOk result (FindsAccount accounts.now version payload.now) }
{
    'looking: for account in accounts {
        if suits(alloc, account, version, payload)? {
            return Ok(Some(account));
        }
    }
    Ok(None)
}

fn suits(
    alloc: Global,
    account: &Account,
    version: ScramVersion,
    payload: &[u8],
) -> Result<bool, AllocError>
    ensures { IfOk result (λ is. IsTrue is ↔ Suits version payload.now account.now) }
{
    if account.version == version {
        names(alloc, account.name.as_str(), payload)
    } else {
        Ok(false)
    }
}

// Whether a client's first message begins as one of that user does (RFC 5802, section 7).
fn names(alloc: Global, name: &str, payload: &[u8]) -> Result<bool, AllocError>
    ensures { IfOk result (λ is. IsTrue is ↔ NamesUser payload.now name.now) }
{
    let carried = saslname(alloc, name)?;
    let mut front = String::from_str(alloc, GS2_HEADER)?;
    front.push_str(USER_NAME)?;
    front.push_str(carried.as_str())?;
    front.push_str(NEXT_NONCE)?;
    Ok(payload.starts_with(front.as_bytes()))
}

// The login of an account. The account's key is derived here.
fn start_for<G: Ledger>(
    alloc: Global,
    account: &Account,
    suffix: &str,
    payload: &[u8],
    skips_empty_exchange: bool,
    steps: &mut Steps<G>,
) -> Result<Option<StartedLogin>, BsonFault>
    requires { IsNonce suffix.now }
    ensures opened { IfOk result (StartsFor account.now suffix.now payload.now skips_empty_exchange) }
    ensures refused { IfErr result (λ fault. fault ≡ OutOfMemory) }
    ensures cost { OnOk result (CostsRounds (KeyRounds account.now) steps.old steps.new) }
    ensures at_most { OnErr result (CostsAtMost (KeyRounds account.now) steps.old steps.new) }
{
    let salt = account.salt.try_clone(alloc)?;
    let user = match ServerUser::new(
        alloc,
        account.version,
        account.name.as_str(),
        account.password.as_str(),
        salt,
        account.count,
        steps,
    ) {
        Ok(user) => user,
        Err(error) => return no_login(error),
    };
    let mut core = ServerCore::new(user, Text::from_slice(alloc, suffix)?);
    match core.first(alloc, payload) {
        Ok(answer) => Ok(Some(StartedLogin {
            login: PendingLogin {
                core,
                name: account.name.try_clone(alloc)?,
                skips_empty_exchange,
                is_proved: false,
            },
            answer,
        })),
        Err(fault) => match fault {
            ServerFault::OutOfMemory => Err(BsonFault::OutOfMemory),
            _ => Ok(None),
        },
    }
}

// What becomes of a login whose account's password its mechanism doesn't take. The error is dropped here, once.
fn no_login(error: Error) -> Result<Option<StartedLogin>, BsonFault>
    ensures none { IfOk result (λ found. (found ≡ None) × (error.kind ≢ WantOfMemory)) }
    ensures memory { IfErr result (λ fault. fault ≡ OutOfMemory) }
{
    no_login_by(&error.kind)
}

// The same by reference.
fn no_login_by(kind: &ErrorKind) -> Result<Option<StartedLogin>, BsonFault>
    ensures none { IfOk result (λ found. (found ≡ None) × (kind.now ≢ WantOfMemory)) }
    ensures memory { IfErr result (λ fault. fault ≡ OutOfMemory) }
{
    match kind {
        ErrorKind::OutOfMemory => Err(BsonFault::OutOfMemory),
        _ => Ok(None),
    }
}
