//! A client's session: who is logged in, and the login that goes on.

use crate::reply::SaslReply;
use crate::request::{ContinueRequest, StartRequest};
use crate::serve_settings::ServeSettings;
use crate::start::start_login;
use mongo_bson::{BsonFault, Text};
use mongo_mac::Steps;
use mongo_server::{ServerCore, ServerFault};
use std::alloc::Global;
use std::sync::ledger::Ledger;

/// A login that goes on: the server has answered the client's first message.
#[derive(Drop)]
pub struct PendingLogin {
    /// The server of the user that logs in; its conversation has begun.
    pub core: ServerCore,
    /// The user's name.
    pub name: Text,
    /// Whether the login ends with the server's last message, with no empty exchange after it.
    pub skips_empty_exchange: bool,
    /// Whether the client has proved its key, so that an empty message ends the login.
    pub is_proved: bool,
}

/// Who is logged in, and the login that goes on.
#[derive(Drop)]
pub struct Session {
    /// The user that is logged in.
    pub user: Option<Text>,
    /// The login that goes on.
    pub login: Option<PendingLogin>,
}

impl Session {
    ghost use Rattle.std.specs.Prelude.{◌≡◌, ℕ, true, List, [], ◌∷◌, ◌++◌, None, IfSome, IfOk, IfErr, OnOk, OnErr};
    ghost use Rattle.mongo_session.specs.Costs.{StartRounds, CostsAtMost, CostsRounds};
    ghost use Rattle.mongo_session.specs.Last.{AnswersLast, AnswersEmpty};
    ghost use Rattle.mongo_session.specs.Login.{HasLoggedIn, IsPendingLogin, Remembers};
    ghost use Rattle.mongo_session.specs.Requests.{BringsStart, SaysContinue, SaysSaslContinue};
    ghost use Rattle.mongo_session.specs.Sasl.{AnswersStart, AnswersContinue};
    ghost use Rattle.mongo_session.specs.declared.serve_settings.ServeSettings.{ServeSettings as SettingsValue};
    ghost use Rattle.mongo_bson.specs.declared.fault.BsonFault.TheVariants.{OutOfMemory};

    /// Nobody is logged in, and no login goes on.
    pub fn new() -> Session
        ensures nobody { result.user ≡ None }
        ensures none { result.login ≡ None }
    {
        Session {
            user: None,
            login: None,
        }
    }

    /// Begins a login, in place of one that went on, and answers the client's first message by the server's. None where it is refused:
    /// an unknown mechanism or user, another message than a client's first, or a password that the mechanism doesn't take.
    pub fn start<G: Ledger>(
        &mut self,
        alloc: Global,
        settings: &ServeSettings,
        start: StartRequest<'_>,
        steps: &mut Steps<G>,
    ) -> Result<Option<SaslReply>, BsonFault>
        // Of all that the client sent, the session knows a login that this request begins, and who is logged in already.
        ensures remembers { (requests : List (List ℕ)) (document : List ℕ) → Remembers settings.now requests self.old → BringsStart document start.entry → Remembers settings.now (requests ++ document ∷ []) self.new }
        ensures answered { IfOk result (AnswersStart settings.now start.entry self.new) }
        ensures user { self.new.user ≡ self.old.user }
        ensures refused { IfErr result (λ fault. fault ≡ OutOfMemory) }
        ensures cost { OnOk result (CostsRounds (StartRounds settings.now start.entry) steps.old steps.new) }
        ensures at_most { OnErr result (CostsAtMost (StartRounds settings.now start.entry) steps.old steps.new) }
    {
        self.login = None;
        match start_login(alloc, settings, start, steps)? {
            Some(opened) => {
                self.login = Some(opened.login);
                Ok(Some(SaslReply {
                    is_done: false,
                    payload: opened.answer,
                }))
            }
            None => Ok(None),
        }
    }

    /// Goes on with the login: answers the client's last message by the server's, and then an empty one by an empty one, which a login
    /// may skip; the user is logged in with the last answer. None where it is refused: none goes on, or the message isn't the one that
    /// the client owes; then the login is given up.
    pub fn go_on(
        &mut self,
        alloc: Global,
        next: ContinueRequest<'_>,
    ) -> Result<Option<SaslReply>, BsonFault>
        ensures remembers { (settings : SettingsValue) (requests : List (List ℕ)) (document : List ℕ) → Remembers settings requests self.old → SaysContinue document next.entry → Remembers settings (requests ++ document ∷ []) self.new }
        ensures answered { IfOk result (AnswersContinue self.old next.entry self.new) }
        ensures kept { OnErr result (self.new.user ≡ self.old.user) }
        ensures refused { IfErr result (λ fault. fault ≡ OutOfMemory) }
    {
        let (Some(login), Some(payload)) = (self.login.take(), next.payload) else {
            return Ok(None);
        };
        if !next.is_of_conversation {
            return Ok(None);
        }
        if login.is_proved {
            return self.end(alloc, login, payload);
        }
        self.prove(alloc, login, payload)
    }

    // The client's last message.
    fn prove(
        &mut self,
        alloc: Global,
        login: PendingLogin,
        payload: &[u8],
    ) -> Result<Option<SaslReply>, BsonFault>
        requires { self.old.login ≡ None }
        ensures remembers { (settings : SettingsValue) (requests : List (List ℕ)) (document : List ℕ) → IfSome self.old.user (λ name. HasLoggedIn settings name requests) → IsPendingLogin settings requests login → SaysSaslContinue document payload.now →
            Remembers settings (requests ++ document ∷ []) self.new }
        ensures answered { IfOk result (AnswersLast self.old login payload.now self.new) }
        ensures kept { OnErr result (self.new.user ≡ self.old.user) }
        ensures refused { IfErr result (λ fault. fault ≡ OutOfMemory) }
    {
        let PendingLogin {
            mut core,
            name,
            skips_empty_exchange,
            is_proved: _,
        } = login;
        match core.last(alloc, payload) {
            Ok(answer) => {
                if skips_empty_exchange {
                    self.user = Some(name);
                    return Ok(Some(SaslReply {
                        is_done: true,
                        payload: answer,
                    }));
                }
                self.login = Some(PendingLogin {
                    core,
                    name,
                    skips_empty_exchange,
                    is_proved: true,
                });
                Ok(Some(SaslReply {
                    is_done: false,
                    payload: answer,
                }))
            }
            Err(fault) => match fault {
                ServerFault::OutOfMemory => Err(BsonFault::OutOfMemory),
                _ => Ok(None),
            },
        }
    }

    // The empty message of a client whose key is proved.
    fn end(
        &mut self,
        alloc: Global,
        login: PendingLogin,
        payload: &[u8],
    ) -> Result<Option<SaslReply>, BsonFault>
        requires none { self.old.login ≡ None }
        requires proved { login.is_proved ≡ true }
        ensures remembers { (settings : SettingsValue) (requests : List (List ℕ)) (document : List ℕ) → IfSome self.old.user (λ name. HasLoggedIn settings name requests) → IsPendingLogin settings requests login →
            Remembers settings (requests ++ document ∷ []) self.new }
        ensures answered { IfOk result (AnswersEmpty self.old login payload.now self.new) }
        ensures kept { OnErr result (self.new.user ≡ self.old.user) }
        ensures refused { IfErr result (λ fault. fault ≡ OutOfMemory) }
    {
        if !payload.is_empty() {
            return Ok(None);
        }
        let answer = Text::from_slice(alloc, "")?;
        self.user = Some(login.name);
        Ok(Some(SaslReply {
            is_done: true,
            payload: answer,
        }))
    }
}
