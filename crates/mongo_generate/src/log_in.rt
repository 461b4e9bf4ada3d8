//! One login: a client against a server.
ghost use Rattle.std.specs.Prelude.{◌≡◌, None, Some, codes, IfSome, IfOk, OnOk, MatchOption};
ghost use Rattle.mongo_command.specs.declared.server_address.ServerAddress.TheVariants.{Tcp};
ghost use Rattle.mongo_wire.specs.declared.error.ErrorKind.TheVariants.{OutOfMemory};
ghost use Rattle.mongo_establish.specs.declared.generation.PoolGeneration.TheVariants.{Normal};
ghost use Rattle.mongo_server.specs.Authentication.{Authentication, close_of};
ghost use Rattle.mongo_server.specs.Server.{Serves, HasBegun};
ghost use Rattle.mongo_generate.specs.Acceptance.{acceptance_of, IsAcceptedAs, IsTakenBy, AreAuthenticationReplies};
ghost use Rattle.mongo_generate.specs.Login.{IsAuthenticationClient};
ghost use Rattle.mongo_generate.specs.Replies.{AreServerReplies};

use crate::replies::replies_of;
use crate::written::client_final;
use crate::{Acceptance, Client, UserLogin};
use mongo_bson::Bytes;
use mongo_establish::{
    Error, ErrorKind, EstablishError, LoginState, MemoryLink, PendingConnection, PoolGeneration,
    PooledConnection, RequestIds, ServerAddress, Text, want_of_memory,
};
use mongo_mac::Steps;
use mongo_server::{ServerCore, ServerFault};
use std::alloc::{AllocError, Global};
use std::sync::ledger::Ledger;

impl Client {
    ghost use Rattle.std.specs.Prelude.{◌≡◌, ◌≤◌, Some, IfSome, IfOk, OnOk, MatchOption};
    ghost use Rattle.mongo_scram.specs.Costs.{ledgers};
    ghost use Rattle.mongo_establish.specs.KeyCosts.{StoresKey};
    ghost use Rattle.mongo_server.specs.Authentication.{Authentication, close_of};
    ghost use Rattle.mongo_server.specs.Server.{Serves};
    ghost use Rattle.mongo_generate.specs.Acceptance.{acceptance_of, IsTakenBy, AreAuthenticationReplies};
    ghost use Rattle.mongo_generate.specs.Login.{IsAuthenticationClient, KeepsEntries, key_of};
    ghost use Rattle.mongo_generate.specs.Replies.{AreServerReplies};
    ghost use Rattle.mongo_generate.specs.Written.{CarriesPayloadLast, CarriesAnyLast};

    /// Lets the client log in to the server, over a link in memory. Where both are of one authentication that is possible (`IsPossible` of
    /// `specs/Login.antt`), both accept, and the answer is their last messages; None comes only elsewhere. Of any answer the server has
    /// taken the client's message, and owes the other one.
    ///
    /// However it ends, the cache keeps its entries, and one key's is added at most.
    pub fn log_in<G: Ledger>(
        &self,
        alloc: Global,
        login: &UserLogin,
        server: &mut ServerCore,
        state: &mut LoginState,
        steps: &mut Steps<G>,
    ) -> Result<Option<Acceptance>, AllocError>
        // Where both are of one possible authentication, both accept.
        ensures accepted { (x : Authentication) → IsAuthenticationClient x login.now → Serves server.old x → IfOk result (λ met. met ≡ Some (acceptance_of x)) }
        // Its key is derived where it has no entry, and has one then.
        ensures takes { (x : Authentication) → IsAuthenticationClient x login.now → Serves server.old x → OnOk result (StoresKey (key_of x) (ledgers steps.old state.old.salted) (ledgers steps.new state.new.salted)) }
        // However it ends, and whichever user the server has, no entry is lost, and one key's is added at most.
        ensures keeps { KeepsEntries (ledgers steps.old state.old.salted) (ledgers steps.new state.new.salted) }
        // Whatever the server, what is answered it has taken, and owes.
        ensures taken { IfOk result (λ met. IfSome met (IsTakenBy server.new)) }
        ensures serves { (x : Authentication) → Serves server.old x → Serves server.new x }
        ensures steps { steps.old ≤ steps.new }
    {
        let Some(replies) = heard(alloc, login, server)? else {
            return Ok(None);
        };
        let Some(client_final) = self.close(alloc, login, replies, state, steps)? else {
            return Ok(None);
        };
        acceptance(alloc, server, client_final)
    }

    // Logs in over a link that gives these replies of a server. The client's last message, or None where the client refuses.
    fn close<G: Ledger>(
        &self,
        alloc: Global,
        login: &UserLogin,
        replies: Bytes,
        state: &mut LoginState,
        steps: &mut Steps<G>,
    ) -> Result<Option<Bytes>, AllocError>
        requires replies { AreServerReplies replies }
        ensures closes { (x : Authentication) → IsAuthenticationClient x login.now → AreAuthenticationReplies x replies → IfOk result (λ client_final. client_final ≡ Some (close_of x)) }
        ensures takes { (x : Authentication) → IsAuthenticationClient x login.now → AreAuthenticationReplies x replies → OnOk result (StoresKey (key_of x) (ledgers steps.old state.old.salted) (ledgers steps.new state.new.salted)) }
        ensures keeps { KeepsEntries (ledgers steps.old state.old.salted) (ledgers steps.new state.new.salted) }
        ensures steps { steps.old ≤ steps.new }
    {
        match self.establish(alloc, login, replies, state, steps)? {
            Some(written) => Ok(Some(client_final(alloc, written)?)),
            None => Ok(None),
        }
    }

    // Logs in over a link that gives these replies of a server. The bytes that were written, or None where the client refuses.
    fn establish<G: Ledger>(
        &self,
        alloc: Global,
        login: &UserLogin,
        replies: Bytes,
        state: &mut LoginState,
        steps: &mut Steps<G>,
    ) -> Result<Option<Bytes>, AllocError>
        requires replies { AreServerReplies replies }
        // Whoever the server's user is, two frames were written, and the second carries a payload.
        ensures carried { IfOk result (λ written. IfSome written CarriesAnyLast) }
        ensures written { (x : Authentication) → IsAuthenticationClient x login.now → AreAuthenticationReplies x replies → IfOk result (λ written. MatchOption written ⊥ (CarriesPayloadLast (close_of x))) }
        ensures takes { (x : Authentication) → IsAuthenticationClient x login.now → AreAuthenticationReplies x replies → OnOk result (StoresKey (key_of x) (ledgers steps.old state.old.salted) (ledgers steps.new state.new.salted)) }
        ensures keeps { KeepsEntries (ledgers steps.old state.old.salted) (ledgers steps.new state.new.salted) }
        ensures steps { steps.old ≤ steps.new }
    {
        let pending = pending(alloc)?;
        let mut link = MemoryLink::new(alloc, replies);
        state.ids = RequestIds::new(0);
        let ended = self.establisher.establish_connection(
            alloc,
            pending,
            &mut link,
            Some(&login.credential),
            state,
            &login.inputs,
            steps,
        );
        if !is_accepted(ended)? {
            return Ok(None);
        }
        Ok(Some(link.into_written()))
    }
}

// Both last messages where the server takes the client's, and None where it refuses that.
fn acceptance(
    alloc: Global,
    server: &mut ServerCore,
    client_final: Bytes,
) -> Result<Option<Acceptance>, AllocError>
    ensures accepted { (x : Authentication) → HasBegun server.old x → client_final ≡ close_of x → IfOk result (λ met. met ≡ Some (acceptance_of x)) }
    ensures taken { IfOk result (λ met. IfSome met (IsTakenBy server.new)) }
    ensures unchanged { server.new ≡ server.old }
{
    match server.last(alloc, client_final.as_bytes()) {
        Ok(server_final) => Ok(Some(Acceptance {
            client_final,
            server_final,
        })),
        Err(ServerFault::OutOfMemory) => Err(AllocError),
        Err(_) => Ok(None),
    }
}

// Whether a connection was made.
fn is_accepted(ended: Result<PooledConnection, EstablishError>) -> Result<bool, AllocError>
    ensures { IfOk result (IsAcceptedAs ended) }
{
    has_logged_in(&ended)
}

// The same by reference: what owns the end lets all of its parts go once.
fn has_logged_in(ended: &Result<PooledConnection, EstablishError>) -> Result<bool, AllocError>
    ensures { IfOk result (IsAcceptedAs ended.now) }
{
    match ended {
        Ok(_) => Ok(true),
        Err(refusal) => match refusal.cause.kind {
            ErrorKind::OutOfMemory => Err(AllocError),
            _ => Ok(false),
        },
    }
}

// The replies of a server that heard the client's first message. A server of the login's authentication gives them.
fn heard(
    alloc: Global,
    login: &UserLogin,
    server: &mut ServerCore,
) -> Result<Option<Bytes>, AllocError>
    ensures replies { IfOk result (λ replies. IfSome replies AreServerReplies) }
    ensures heard { (x : Authentication) → IsAuthenticationClient x login.now → Serves server.old x → IfOk result (λ replies. MatchOption replies ⊥ (AreAuthenticationReplies x)) }
    ensures begun { (x : Authentication) → IsAuthenticationClient x login.now → Serves server.old x → OnOk result (HasBegun server.new x) }
    ensures serves { (x : Authentication) → Serves server.old x → Serves server.new x }
{
    let first = match server.first(alloc, login.client_first.as_bytes()) {
        Ok(first) => first,
        Err(ServerFault::OutOfMemory) => return Err(AllocError),
        Err(_) => return Ok(None),
    };
    let last = match server.expected_final(alloc) {
        Ok(last) => last,
        Err(ServerFault::OutOfMemory) => return Err(AllocError),
        // a conversation has begun
        Err(_) => unreachable!(),
    };
    match replies_of(alloc, first.as_bytes(), last.as_bytes()) {
        Ok(replies) => Ok(Some(replies)),
        Err(error) => no_replies(error),
    }
}

// No replies where a message doesn't fit into one; want of memory is handed on.
fn no_replies(refusal: Error) -> Result<Option<Bytes>, AllocError>
    ensures none { IfOk result (λ replies. replies ≡ None) }
    ensures too_long { OnOk result (refusal.kind ≡ OutOfMemory → ⊥) }
{
    none_for(&refusal.kind)
}

// By reference, for the same reason.
fn none_for(kind: &ErrorKind) -> Result<Option<Bytes>, AllocError>
    ensures none { IfOk result (λ replies. replies ≡ None) }
    ensures too_long { OnOk result (kind.now ≡ OutOfMemory → ⊥) }
{
    match kind {
        ErrorKind::OutOfMemory => Err(AllocError),
        _ => Ok(None),
    }
}

// A connection to `localhost`.
fn pending(alloc: Global) -> Result<PendingConnection, AllocError>
    ensures address { IfOk result (λ pending. pending.address ≡ Tcp (codes "localhost") None) }
    ensures generation { IfOk result (λ pending. pending.generation ≡ Normal 0) }
{
    let host = match Text::from_slice(alloc, "localhost") {
        Ok(host) => host,
        Err(fault) => return Err(want_of_memory(fault.into())),
    };
    Ok(PendingConnection {
        id: 0,
        address: ServerAddress::Tcp { host, port: None },
        generation: PoolGeneration::Normal(0),
    })
}
