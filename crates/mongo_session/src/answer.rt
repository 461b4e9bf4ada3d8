//! One step of a session: a request, and the reply to it.

ghost use Rattle.std.specs.Prelude.{◌≡◌, ◌↔◌, ℕ, List, [], ◌∷◌, ◌++◌, IsTrue, IfOk, IfErr, OnOk, OnErr};
ghost use Rattle.mongo_session.specs.Accounts.{AreMechanismsOf, ListsAccounts, HasAccount, IsOf};
ghost use Rattle.mongo_session.specs.Answers.{guarded_by, AnswersCarried, AnswersHello, IsAnswer, login_reply};
ghost use Rattle.mongo_session.specs.Costs.{CarriedRounds, RequestRounds, CostsAtMost, CostsRounds};
ghost use Rattle.mongo_session.specs.Login.{Remembers};
ghost use Rattle.mongo_session.specs.Requests.{CarriesLogin, IsHello, SaysRequest, SaysHello};
ghost use Rattle.mongo_bson.specs.declared.fault.BsonFault.TheVariants.{OutOfMemory};

use crate::reply::{HelloAnswer, Mechanisms, RefusedCommand, Reply, SaslReply};
use crate::request::{Hello, Request, StartRequest};
use crate::serve_settings::{Account, ServeSettings};
use crate::session::Session;
use mongo_bson::{BsonFault, Text};
use mongo_mac::Steps;
use mongo_scram::ScramVersion;
use std::alloc::Global;
use std::sync::ledger::Ledger;

/// Answers a request.
pub fn answer_request<G: Ledger>(
    alloc: Global,
    settings: &ServeSettings,
    session: &mut Session,
    request: Request<'_>,
    steps: &mut Steps<G>,
) -> Result<Reply, BsonFault>
    // Who is logged in afterwards has sent the messages of a login, this request among them.
    ensures remembers { (requests : List (List ℕ)) (document : List ℕ) → Remembers settings.now requests session.old → SaysRequest document request.entry → OnOk result (Remembers settings.now (requests ++ document ∷ []) session.new) }
    // How it is answered, and which commands of a login are refused.
    ensures answered { IfOk result (IsAnswer settings.now session.old request.entry session.new) }
    ensures kept { OnErr result (session.new.user ≡ session.old.user) }
    ensures refused { IfErr result (λ fault. fault ≡ OutOfMemory) }
    // What is derived for it; where memory ran out, at most that.
    ensures cost { OnOk result (CostsRounds (RequestRounds settings.now request.entry) steps.old steps.new) }
    ensures at_most { OnErr result (CostsAtMost (RequestRounds settings.now request.entry) steps.old steps.new) }
{
    match request {
        Request::Hello(hello) => Ok(Reply::Hello(answer_hello(
            alloc, settings, session, hello, steps,
        )?)),
        Request::SaslStart(start) => Ok(login_reply(session.start(alloc, settings, start, steps)?)),
        Request::SaslContinue(next) => Ok(login_reply(session.go_on(alloc, next)?)),
        Request::Ping => Ok(guarded(session, Reply::Done)),
        Request::BuildInfo => Ok(guarded(session, Reply::BuildInfo)),
        Request::EndSessions => Ok(guarded(session, Reply::Done)),
        Request::Other(name) => {
            let name = Text::from_slice(alloc, name)?;
            Ok(guarded(
                session,
                Reply::Refused(RefusedCommand::CommandNotFound(name)),
            ))
        }
    }
}

/// Answers a hello, and begins the login that it carries.
pub fn answer_hello<G: Ledger>(
    alloc: Global,
    settings: &ServeSettings,
    session: &mut Session,
    hello: Hello<'_>,
    steps: &mut Steps<G>,
) -> Result<HelloAnswer, BsonFault>
    ensures remembers { (requests : List (List ℕ)) (document : List ℕ) → Remembers settings.now requests session.old → SaysHello document hello.entry → Remembers settings.now (requests ++ document ∷ []) session.new }
    ensures answered { IfOk result (AnswersHello settings.now session.old hello.entry session.new) }
    ensures user { session.new.user ≡ session.old.user }
    ensures refused { IfErr result (λ fault. fault ≡ OutOfMemory) }
    ensures cost { OnOk result (CostsRounds (CarriedRounds settings.now hello.entry.speculation) steps.old steps.new) }
    ensures at_most { OnErr result (CostsAtMost (CarriedRounds settings.now hello.entry.speculation) steps.old steps.new) }
{
    let speculation = begin(alloc, settings, session, hello.speculation, steps)?;
    Ok(HelloAnswer {
        is_legacy: hello.is_legacy,
        mechanisms: mechanisms_of(settings.accounts.as_slice(), hello.mechanisms_of),
        speculation,
    })
}

// Begins the login that a hello carries, where it carries one.
fn begin<G: Ledger>(
    alloc: Global,
    settings: &ServeSettings,
    session: &mut Session,
    speculation: Option<StartRequest<'_>>,
    steps: &mut Steps<G>,
) -> Result<Option<SaslReply>, BsonFault>
    ensures remembers { (requests : List (List ℕ)) (document : List ℕ) → Remembers settings.now requests session.old → IsHello document → CarriesLogin document speculation.entry →
        Remembers settings.now (requests ++ document ∷ []) session.new }
    ensures answered { IfOk result (AnswersCarried settings.now session.old speculation.entry session.new) }
    ensures user { session.new.user ≡ session.old.user }
    ensures refused { IfErr result (λ fault. fault ≡ OutOfMemory) }
    ensures cost { OnOk result (CostsRounds (CarriedRounds settings.now speculation.entry) steps.old steps.new) }
    ensures at_most { OnErr result (CostsAtMost (CarriedRounds settings.now speculation.entry) steps.old steps.new) }
{
    match speculation {
        Some(start) => session.start(alloc, settings, start, steps),
        None => Ok(None),
    }
}

// The mechanisms of the user that is asked for; None where no account is the user's, and where none is asked for.
fn mechanisms_of(accounts: &[Account], user: Option<&str>) -> Option<Mechanisms>
    ensures { AreMechanismsOf accounts.now user.entry result }
{
    match user {
        Some(user) => mechanisms_of_user(accounts, user),
        None => None,
    }
}

fn mechanisms_of_user(accounts: &[Account], user: &str) -> Option<Mechanisms>
    ensures { ListsAccounts accounts.now user.now result }
{
    let by_sha1 = has_account(accounts, user, ScramVersion::Sha1);
    let by_sha256 = has_account(accounts, user, ScramVersion::Sha256);
    match (by_sha1, by_sha256) {
        (true, true) => Some(Mechanisms::Both),
        (true, false) => Some(Mechanisms::Sha1),
        (false, true) => Some(Mechanisms::Sha256),
        (false, false) => None,
    }
}

fn has_account(accounts: &[Account], user: &str, version: ScramVersion) -> bool
    ensures { IsTrue result ↔ HasAccount accounts.now user.now version }
{
    'looking: for account in accounts {
        if is_of(account, user, version) {
            return true;
        }
    }
    false
}

fn is_of(account: &Account, user: &str, version: ScramVersion) -> bool
    ensures { IsTrue result ↔ IsOf user.now version account.now }
{
    account.version == version && account.name.as_str() == user
}

// What a login's command is answered.
fn login_reply(message: Option<SaslReply>) -> Reply
    ensures { result ≡ login_reply message }
{
    match message {
        Some(message) => Reply::Sasl(message),
        None => Reply::Refused(RefusedCommand::AuthenticationFailed),
    }
}

// The reply where somebody is logged in.
fn guarded(session: &Session, reply: Reply) -> Reply
    ensures { result ≡ guarded_by session.now.user reply }
{
    match &session.user {
        Some(_user) => reply,
        None => Reply::Refused(RefusedCommand::Unauthorized),
    }
}
