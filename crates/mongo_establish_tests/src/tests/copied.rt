// Copies of what establishments give and of what logins share.
ghost use Rattle.std.specs.Prelude.{◌≡◌, ◌<◌};

use super::failing::talk_of;
use super::frames::{COMMAND_ERROR, NUMBERED, STANDALONE};
use super::{
    Answered, PoolKind, SEVENTH, Who, establisher, generation, given, inputs, link_of,
    made_in_memory, new_state, pending,
};
use mongo_establish::{
    ConnectionEstablisher, ConnectionGeneration, Error, EstablishError, HandshakePhase, LoginState,
    MemoryLink, PooledConnection, Steps,
};
use std::alloc::Global;
use std::fmt::Debug;
use std::marker::Brand;
use std::sync::ledger::{Blank, Ledger};
use std::test::Fail;

// What is copied, for functions that are generic over it.
trait Copied: Debug + Drop {
    fn copy(&self, alloc: Global) -> Result<Self, Error>;
}

impl Copied for PooledConnection {
    fn copy(&self, alloc: Global) -> Result<PooledConnection, Error> {
        self.try_clone(alloc)
    }
}

impl Copied for EstablishError {
    fn copy(&self, alloc: Global) -> Result<EstablishError, Error> {
        self.try_clone(alloc)
    }
}

impl Copied for HandshakePhase {
    fn copy(&self, alloc: Global) -> Result<HandshakePhase, Error> {
        self.try_clone(alloc)
    }
}

// Whether a copy is printed as the value is, and says this.
fn is_copied<T: Copied>(alloc: Global, value: &T, says: &str) -> Result<bool, Fail> {
    let copy = given(value.copy(alloc))?;
    let text = format!(in alloc; "{copy:?}")?;
    let is_same = text.as_str() == format!(in alloc; "{value:?}")?.as_str();
    Ok(is_same && text.as_str().find(says).is_some())
}

// The same of what a call gives, or of the error that refuses it.
fn is_answer_copied<R: Copied, E: Copied>(
    alloc: Global,
    answer: Result<R, E>,
    says: &str,
) -> Result<bool, Fail> {
    let call = Answered { answer };
    match &call.answer {
        Ok(made) => is_copied(alloc, made, says),
        Err(error) => is_copied(alloc, error, says),
    }
}

// The same of an establishment for nobody, which says what the row at this place does, with a counter of its own, of the ledger that
// `blank` opens.
fn is_made_copied<G: Ledger>(
    blank: Blank,
    alloc: Global,
    establisher: &ConnectionEstablisher,
    pool: PoolKind,
    link: &mut MemoryLink,
    place: u8,
) -> Result<bool, Fail>
    requires name { blank.name ≡ G.name }
    requires parts { blank.parts ≡ G.parts }
    requires has_a_part { 0 < G.parts }
{
    let pending = pending(alloc, pool)?;
    let mut state = new_state(alloc);
    let mut steps = Steps::<G>::new(blank);
    let answer = establisher.establish_connection(
        alloc,
        pending,
        link,
        None,
        &mut state,
        &inputs(),
        &mut steps,
    );
    let (_, _, says) = row_at(place);
    is_answer_copied(alloc, answer, says)
}

// A pool, a reply, and what the copy of the connection or of the error says of it.
type Row = (PoolKind, &'static [u8], &'static str);

fn row_at(place: u8) -> Row {
    match place {
        0 => (PoolKind::Normal, &NUMBERED, "server_id: Some(42)"),
        1 => (
            PoolKind::Normal,
            &COMMAND_ERROR,
            "PreHello { generation: Normal(7) }",
        ),
        2 => (
            PoolKind::Balanced(Some(8)),
            &COMMAND_ERROR,
            "PreHello { generation: LoadBalanced(",
        ),
        _ => (
            PoolKind::Balanced(Some(8)),
            &STANDALONE,
            "PostHello { generation: Normal(0) }",
        ),
    }
}

fn is_row_copied(alloc: Global, place: u8) -> Result<bool, Fail> {
    let (pool, reply, _) = row_at(place);
    let establisher = establisher(alloc)?;
    let mut link = link_of(alloc, reply)?;
    is_made_copied::<Brand>(Blank::new(1), alloc, &establisher, pool, &mut link, place)
}

#[test]
fn what_an_establishment_gives_is_copied(rt: HostRuntime) -> Result<(), Fail> {
    for place in 0..4 {
        assert!(rt; is_row_copied(rt.alloc(), place)?, "{place}");
    }
    Ok(())
}

#[test]
fn a_phase_is_copied_with_its_generation(rt: HostRuntime) -> Result<(), Fail> {
    let generation = generation(rt.alloc(), PoolKind::Normal)?;
    let before = HandshakePhase::PreHello { generation };
    assert!(rt; is_copied(rt.alloc(), &before, "PreHello { generation: Normal(7) }")?);
    let generation = ConnectionGeneration::Normal(9);
    let after = HandshakePhase::PostHello { generation };
    assert!(rt; is_copied(rt.alloc(), &after, "PostHello { generation: Normal(9) }")?);
    Ok(())
}

// Whether a login that hears this is accepted, and the state has this next id then, and one key of 4096 rounds.
fn logs_in(
    alloc: Global,
    heard: &[u8],
    state: &mut LoginState,
    next_id: i32,
) -> Result<bool, Fail> {
    let mut link = link_of(alloc, heard)?;
    let made = made_in_memory(alloc, Who::Negotiated, PoolKind::Normal, &mut link, state)?;
    Ok(made.told == ("none", 0, SEVENTH) && has_one_key(state, next_id))
}

fn has_one_key(state: &LoginState, next_id: i32) -> bool {
    state.ids.next() == next_id && state.salted.rounds() == 4096 && state.salted.len() == 1
}

// Whether a copy of a state with one key serves the next login without a derivation, and leaves the state as it was.
fn is_state_copied(alloc: Global, heard: &[u8]) -> Result<bool, Fail> {
    let mut state = new_state(alloc);
    let is_first = logs_in(alloc, heard, &mut state, 2)?;
    let mut copy = given(state.try_clone(alloc))?;
    let is_second = logs_in(alloc, heard, &mut copy, 4)?;
    Ok(is_first && is_second && has_one_key(&state, 2))
}

#[test]
fn a_copy_of_what_logins_share_has_the_keys(rt: HostRuntime) -> Result<(), Fail> {
    let talk = talk_of(rt.alloc(), 0)?;
    assert!(rt; is_state_copied(rt.alloc(), talk.heard.as_slice())?);
    Ok(())
}
