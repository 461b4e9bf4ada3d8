ghost use Rattle.std.specs.Prelude.{◌≡◌, ◌<◌, option_copied};
ghost use Rattle.mongo_establish.specs.Speculation.{SpeaksFor};

use super::causes::cause_of;
use super::failing::{Talk, end_at, failing_at, talk_of, who_of};
use super::handed_on::first_of;
use super::{Answered, Tells, Who, address, establisher_options, given, inputs, new_state, user};
use mongo_establish::{
    AuthMechanism, ClientFirst, Connection, Credential, Error, FailingLink, Handshaker, LoginState,
    RequestIds, Sink, Source, Steps,
};
use std::alloc::Global;
use std::marker::Brand;
use std::sync::ledger::{Blank, Ledger};
use std::test::Fail;

/// How a handshake or a command ended: its cause by name.
type Cause = &'static str;

impl Tells<Cause> for Error {
    fn told(&self) -> Cause {
        cause_of(self).0
    }
}

// The cause of a refusal, or that there was none.
fn fault_of<R: Drop, E: Tells<Cause> + Drop>(answer: Result<R, E>) -> Cause {
    let call = Answered { answer };
    match &call.answer {
        Ok(_) => "none",
        Err(error) => error.told(),
    }
}

fn handshaker(alloc: Global) -> Result<Handshaker, Fail> {
    given(Handshaker::new(alloc, establisher_options(alloc)?.handshake_options))
}

// The command of a login of one, which asks nothing of the server's hello.
fn first_of_x509(alloc: Global) -> Result<Option<ClientFirst>, Fail> {
    let user = user(alloc, Who::X509)?;
    first_of(alloc, AuthMechanism::MongoDbX509, &user)
}

// What a command over the connection is answered.
fn answer_to_next(
    alloc: Global,
    connection: &mut Connection,
    link: &mut FailingLink,
    ids: &mut RequestIds,
    first: Option<ClientFirst>,
) -> Cause {
    let Some(ClientFirst::X509(command)) = first else {
        return "another";
    };
    fault_of(connection.send_message(alloc, link, ids, command))
}

// Whether the next command is answered by this fault, and nothing is done.
fn is_answered_again(
    alloc: Global,
    connection: &mut Connection,
    link: &mut FailingLink,
    state: &mut LoginState,
    wanted: Cause,
) -> Result<bool, Fail> {
    let first = first_of_x509(alloc)?;
    let id = state.ids.next();
    let said = link.written().len();
    let left = link.left().len();
    let cause = answer_to_next(alloc, connection, link, &mut state.ids, first);
    Ok(
        cause == wanted
            && state.ids.next() == id
            && link.written().len() == said
            && link.left().len() == left,
    )
}

// Whether a handshake of this login, of whose calls this one fails, has to end so, and leaves the connection as it has to:
// unusable, where the link failed.
fn is_left_so(
    alloc: Global,
    connection: &mut Connection,
    login: u8,
    call: usize,
    link: &mut FailingLink,
    state: &mut LoginState,
    cause: Cause,
) -> Result<bool, Fail> {
    let (wanted, ..) = end_at(login, call, 0, 0).told;
    if cause != wanted {
        return Ok(false);
    }
    if wanted == "none" {
        return Ok(true);
    }
    is_answered_again(alloc, connection, link, state, wanted)
}

// Whether a handshake ends so, and leaves its connection as it has to. The connection is its own, with a counter of the ledger
// that `blank` opens. It is the last that is made, and one call asks all of it, so that there is one way out that drops it.
fn keeps_with<G: Ledger>(
    blank: Blank,
    alloc: Global,
    handshaker: &Handshaker,
    credential: Option<&Credential>,
    login: u8,
    call: usize,
    link: &mut FailingLink,
    state: &mut LoginState,
) -> Result<bool, Fail>
    requires name { blank.name ≡ G.name }
    requires parts { blank.parts ≡ G.parts }
    requires has_a_part { 0 < G.parts }
    requires spoken { SpeaksFor (option_copied credential) }
{
    let mut connection = Connection::new(address(alloc)?, 5);
    let mut steps = Steps::<G>::new(blank);
    let cause = fault_of(handshaker.handshake(
        alloc,
        &mut connection,
        link,
        credential,
        state,
        &inputs(),
        &mut steps,
    ));
    is_left_so(alloc, &mut connection, login, call, link, state, cause)
}

fn keeps_by<G: Ledger>(
    blank: Blank,
    alloc: Global,
    handshaker: &Handshaker,
    login: u8,
    call: usize,
    link: &mut FailingLink,
    state: &mut LoginState,
) -> Result<bool, Fail>
    requires name { blank.name ≡ G.name }
    requires parts { blank.parts ≡ G.parts }
    requires has_a_part { 0 < G.parts }
{
    match who_of(login) {
        Who::Nobody => { keeps_with::<G>(blank, alloc, handshaker, None, login, call, link, state) }
        who => {
            let user = user(alloc, who)?;
            keeps_with::<G>(
                blank,
                alloc,
                handshaker,
                Some(&user),
                login,
                call,
                link,
                state,
            )
        }
    }
}

fn keeps_over<G: Ledger>(
    blank: Blank,
    alloc: Global,
    login: u8,
    call: usize,
    link: &mut FailingLink,
    state: &mut LoginState,
) -> Result<bool, Fail>
    requires name { blank.name ≡ G.name }
    requires parts { blank.parts ≡ G.parts }
    requires has_a_part { 0 < G.parts }
{
    let handshaker = handshaker(alloc)?;
    keeps_by::<G>(blank, alloc, &handshaker, login, call, link, state)
}

fn over_failing(
    alloc: Global,
    login: u8,
    call: usize,
    link: &mut FailingLink,
    state: &mut LoginState,
) -> Result<bool, Fail> {
    keeps_over::<Brand>(Blank::new(1), alloc, login, call, link, state)
}

// Whether a handshake over a link of whose calls just this one fails leaves the connection unusable.
fn is_kept(
    alloc: Global,
    login: u8,
    talk: &Talk,
    call: usize,
    state: &mut LoginState,
) -> Result<bool, Fail> {
    let mut link = failing_at(alloc, talk.heard.as_slice(), call)?;
    state.ids = RequestIds::new(0);
    over_failing(alloc, login, call, &mut link, state)
}

#[test]
fn a_fault_of_the_link_is_answered_again(rt: HostRuntime) -> Result<(), Fail> {
    // a run for each byte and for each flush, and one that no call fails: that comes first, and puts the key into the cache
    for (login, runs) in [(0, 1203), (1, 1346), (2, 324)] {
        let talk = talk_of(rt.alloc(), login)?;
        let mut state = new_state(rt.alloc());
        for call in (0..runs).rev() {
            let kept = is_kept(rt.alloc(), login, &talk, call, &mut state)?;
            assert!(rt; kept, "login {login} at {call}");
        }
    }
    Ok(())
}
