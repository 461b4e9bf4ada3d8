ghost use Rattle.std.specs.Prelude.{◌≡◌, ◌<◌, Some, option_copied, IfOk};
ghost use Rattle.mongo_establish.specs.Speculation.{SpeaksFor};

mod causes;
mod copied;
mod cut_replies;
mod ends;
mod failing;
mod frames;
mod generations;
mod handed_on;
mod kept_faults;
mod long_replies;
mod monitoring;
mod replies;
mod unsent;

use causes::cause_of;
use mongo_establish::{
    AuthMechanism, Bytes, ClientMetadata, ClientOptions, Connection, ConnectionEstablisher,
    ConnectionGeneration, Credential, Environment, EstablishError, EstablisherOptions, FailingLink,
    Generations, HandshakePhase, Link, LoginInputs, LoginState, MemoryLink, Moment, Nonces,
    ObjectId, OsMetadata, PendingConnection, PoolGeneration, PooledConnection, RequestIds,
    SaltedCache, ServerAddress, ServerApi, ServerType, Steps, StreamDescription, Text,
    TopologySpec, Variables,
};
use std::alloc::Global;
use std::fmt::Debug;
use std::marker::Brand;
use std::sync::ledger::{Blank, Ledger};
use std::test::Fail;

/// Who logs in: nobody, or `user`, whose password is `pencil`, by the mechanism that is negotiated or by one of one command; or one
/// with that password and no name.
#[derive(Clone, Copy)]
enum Who {
    Nobody,
    Nameless,
    Negotiated,
    Plain,
    X509,
    X509WithPassword,
}

/// The pool: of the generation 7, or behind a load balancer, where the service of the bytes 0 to 11 has this number or none.
#[derive(Clone, Copy)]
enum PoolKind {
    Normal,
    Balanced(Option<u32>),
}

// What a call gives, or its error as why the test fails. An `Error` is large where a proof holds it, and so is a connection: this
// and `ended` are generic over both, so no proof of a test holds either.
fn given<T: Drop, E: Debug + Drop>(answer: Result<T, E>) -> Result<T, Fail> {
    Ok(answer?)
}

// What is told of what a call gives, or of the error that refuses it.
trait Tells<T> {
    fn told(&self) -> T;
}

/// How a call was answered. Its drop is one call.
#[derive(Drop)]
struct Answered<T, E> {
    answer: Result<T, E>,
}

// What is told of an answer.
fn ended<T, R: Tells<T> + Drop, E: Tells<T> + Drop>(answer: Result<R, E>) -> T {
    let call = Answered { answer };
    match &call.answer {
        Ok(made) => made.told(),
        Err(error) => error.told(),
    }
}

// Puts these pieces at the end, one after another.
fn push_all(bytes: &mut Vec<u8>, pieces: &[&[u8]]) -> Result<(), Fail> {
    for piece in pieces {
        bytes.extend_from_slice(piece)?;
    }
    Ok(())
}

fn joined(alloc: Global, pieces: &[&[u8]]) -> Result<Vec<u8>, Fail> {
    let mut bytes = Vec::new(alloc);
    push_all(&mut bytes, pieces)?;
    Ok(bytes)
}

// A link that gives these bytes.
fn link_of(alloc: Global, replies: &[u8]) -> Result<MemoryLink, Fail> {
    Ok(MemoryLink::new(alloc, Bytes::from_slice(alloc, replies)?))
}

// Services of which that of the bytes 0 to 11 has this number.
fn services(alloc: Global, number: u32) -> Result<Generations, Fail> {
    let mut generations = Generations::new(alloc);
    given(generations.insert(ObjectId([0, 1, 2, 3, 4, 5, 6, 7, 8, 9, 10, 11]), number))?;
    Ok(generations)
}

fn generation(alloc: Global, pool: PoolKind) -> Result<PoolGeneration, Fail> {
    match pool {
        PoolKind::Normal => Ok(PoolGeneration::Normal(7)),
        PoolKind::Balanced(None) => Ok(PoolGeneration::LoadBalanced(Generations::new(alloc))),
        PoolKind::Balanced(Some(number)) => {
            Ok(PoolGeneration::LoadBalanced(services(alloc, number)?))
        }
    }
}

fn address(alloc: Global) -> Result<ServerAddress, Fail> {
    let host = Text::from_slice(alloc, "localhost")?;
    Ok(ServerAddress::Tcp { host, port: None })
}

fn first_pending(alloc: Global, pool: PoolKind) -> Result<PendingConnection, Fail> {
    let address = address(alloc)?;
    Ok(PendingConnection {
        id: 5,
        address,
        generation: generation(alloc, pool)?,
    })
}

// The fifth connection of a pool, a copy.
fn pending(alloc: Global, pool: PoolKind) -> Result<PendingConnection, Fail> {
    given(first_pending(alloc, pool)?.try_clone(alloc))
}

// A client that asks for this stable API, and says no more of itself than it has to.
fn options(alloc: Global, server_api: Option<ServerApi>) -> Result<ClientOptions, Fail> {
    let mut options = given(ClientOptions::new(alloc))?;
    options.server_api = server_api;
    Ok(options)
}

fn metadata_of(alloc: Global, options: &ClientOptions) -> Result<ClientMetadata, Fail> {
    given(ClientMetadata::from_options(alloc, options))
}

fn spec(alloc: Global) -> Result<TopologySpec, Fail> {
    let options = options(alloc, None)?;
    Ok(TopologySpec {
        metadata: metadata_of(alloc, &options)?,
        options,
        max_iterations: 10_000_000,
    })
}

fn options_of(alloc: Global, spec: &TopologySpec) -> Result<EstablisherOptions, Fail> {
    given(EstablisherOptions::from_spec(alloc, spec))
}

// Those of a copy of the specification.
fn establisher_options(alloc: Global) -> Result<EstablisherOptions, Fail> {
    let spec = given(spec(alloc)?.try_clone(alloc))?;
    options_of(alloc, &spec)
}

// An establisher of a copy of its options.
fn first_establisher(alloc: Global) -> Result<ConnectionEstablisher, Fail> {
    let options = given(establisher_options(alloc)?.try_clone(alloc))?;
    given(ConnectionEstablisher::new(alloc, options))
}

// A copy of it.
fn establisher(alloc: Global) -> Result<ConnectionEstablisher, Fail> {
    given(first_establisher(alloc)?.try_clone(alloc))
}

fn text(alloc: Global, given: &str) -> Result<Option<Text>, Fail> {
    Ok(Some(Text::from_slice(alloc, given)?))
}

fn password(alloc: Global, who: Who) -> Result<Option<Text>, Fail> {
    match who {
        Who::X509 => Ok(None),
        _ => text(alloc, "pencil"),
    }
}

fn user(alloc: Global, who: Who) -> Result<Credential, Fail>
    ensures spoken { IfOk result (λ user. SpeaksFor (Some user)) }
{
    let mechanism = match who {
        Who::Plain => Some(AuthMechanism::Plain),
        Who::X509 | Who::X509WithPassword => Some(AuthMechanism::MongoDbX509),
        _ => None,
    };
    let username = match who {
        Who::Nameless => None,
        _ => text(alloc, "user")?,
    };
    let password = password(alloc, who)?;
    let made = Credential::new().username(username);
    Ok(made.password(password).mechanism(mechanism))
}

fn new_state(alloc: Global) -> LoginState {
    LoginState {
        salted: SaltedCache::new(alloc),
        ids: RequestIds::new(0),
    }
}

// Nonces of 32 bytes of 0 and of 1.
fn inputs() -> LoginInputs {
    let Some(moment) = Moment::new(0) else {
        unreachable!()
    };
    LoginInputs {
        nonces: Nonces {
            first: [0; 32],
            second: [1; 32],
        },
        moment,
    }
}

// Establishes a connection, with a counter of its own, of the ledger that `blank` opens. This and the two below make one value
// each and hand on a reference, so that none holds several while more may fail.
fn made_with<L: Link, G: Ledger>(
    blank: Blank,
    alloc: Global,
    establisher: &ConnectionEstablisher,
    credential: Option<&Credential>,
    pool: PoolKind,
    link: &mut L,
    state: &mut LoginState,
) -> Result<Made, Fail>
    requires name { blank.name ≡ G.name }
    requires parts { blank.parts ≡ G.parts }
    requires has_a_part { 0 < G.parts }
    requires spoken { SpeaksFor (option_copied credential) }
{
    let pending = pending(alloc, pool)?;
    let mut steps = Steps::<G>::new(blank);
    Ok(ended(establisher.establish_connection(
        alloc,
        pending,
        link,
        credential,
        state,
        &inputs(),
        &mut steps,
    )))
}

fn made_by<L: Link, G: Ledger>(
    blank: Blank,
    alloc: Global,
    establisher: &ConnectionEstablisher,
    who: Who,
    pool: PoolKind,
    link: &mut L,
    state: &mut LoginState,
) -> Result<Made, Fail>
    requires name { blank.name ≡ G.name }
    requires parts { blank.parts ≡ G.parts }
    requires has_a_part { 0 < G.parts }
{
    match who {
        Who::Nobody => { made_with::<L, G>(blank, alloc, establisher, None, pool, link, state) }
        _ => {
            let user = user(alloc, who)?;
            made_with::<L, G>(blank, alloc, establisher, Some(&user), pool, link, state)
        }
    }
}

fn made_over<L: Link, G: Ledger>(
    blank: Blank,
    alloc: Global,
    who: Who,
    pool: PoolKind,
    link: &mut L,
    state: &mut LoginState,
) -> Result<Made, Fail>
    requires name { blank.name ≡ G.name }
    requires parts { blank.parts ≡ G.parts }
    requires has_a_part { 0 < G.parts }
{
    let establisher = establisher(alloc)?;
    made_by::<L, G>(blank, alloc, &establisher, who, pool, link, state)
}

fn made_in_memory(
    alloc: Global,
    who: Who,
    pool: PoolKind,
    link: &mut MemoryLink,
    state: &mut LoginState,
) -> Result<Made, Fail> {
    made_over::<MemoryLink, Brand>(Blank::new(1), alloc, who, pool, link, state)
}

fn made_over_failing(
    alloc: Global,
    who: Who,
    pool: PoolKind,
    link: &mut FailingLink,
    state: &mut LoginState,
) -> Result<Made, Fail> {
    made_over::<FailingLink, Brand>(Blank::new(1), alloc, who, pool, link, state)
}

/// How an establishment ended: its cause by name and number, and the generation of the connection, where the hello was
/// answered.
type Told = (&'static str, i32, Option<ConnectionGeneration>);

const SEVENTH: Option<ConnectionGeneration> = Some(ConnectionGeneration::Normal(7));

/// What a connection has beside what each to a standalone server has: its session timeout, and the server's number for it.
type Described = (Option<u64>, Option<i64>);

/// What an establishment gave: how it ended, and what the connection has, where it is one to a standalone server.
#[derive(Clone, Copy)]
struct Made {
    told: Told,
    described: Option<Described>,
}

impl Tells<Made> for PooledConnection {
    fn told(&self) -> Made {
        Made {
            told: ("none", 0, Some(self.generation)),
            described: described_by(&self.connection),
        }
    }
}

impl Tells<Made> for EstablishError {
    fn told(&self) -> Made {
        Made {
            told: told_at(&self.handshake_phase, cause_of(&self.cause)),
            described: None,
        }
    }
}

// What a refusal with this cause tells that came so far.
fn told_at(phase: &HandshakePhase, cause: (&'static str, i32)) -> Told {
    let (name, number) = cause;
    match phase {
        HandshakePhase::PreHello {
            generation: PoolGeneration::Normal(7),
        } => (name, number, None),
        HandshakePhase::PreHello { .. } => ("another pool", number, None),
        HandshakePhase::PostHello { generation } => (name, number, Some(*generation)),
    }
}

fn described_by(connection: &Connection) -> Option<Described> {
    let Some(description) = &connection.stream_description else {
        return None;
    };
    let is_so = connection.id == 5
        && connection.oidc_token_gen_id == 0
        && connection.fault().is_none()
        && is_standalone(description);
    is_so.then_some((description.logical_session_timeout, connection.server_id))
}

fn is_standalone(description: &StreamDescription) -> bool {
    description.initial_server_type == ServerType::Standalone
        && description.max_bson_object_size == 16_777_216
        && description.max_write_batch_size == 100_000
        && description.max_message_size_bytes == 48_000_000
        && description.max_wire_version == None
        && !description.hello_ok
}
