ghost use Rattle.std.specs.Prelude.{◌≡◌, ◌<◌};

use super::{fault_of, given, kind_name, reply};
use mongo_bson::{BsonFault, Bytes, Text};
use mongo_command::{Connection, ServerAddress};
use mongo_mac::Steps;
use mongo_sasl::Credential;
use mongo_scram::{ClientFirst, FirstRound, SaltedCache, SaltedKey, ScramVersion};
use mongo_wire::{Error, FailingLink, FrameBuffer, Link, MemoryLink, RequestIds};
use std::alloc::Global;
use std::marker::Brand;
use std::sync::ledger::{Blank, Ledger};
use std::test::Fail;

// The login by SCRAM-SHA-1 whose nonce is 32 bytes of 1: its two commands, as ids 1 and 2, and their replies.
const START: &[u8] =
    b"\xbb\0\0\0\x01\0\0\0\0\0\0\0\xdd\x07\0\0\0\0\0\0\0\xa6\0\0\0\x10saslStart\0\x01\0\0\0\x02mechanism\0\x0c\0\0\0SCRAM-SHA-1\0\x05payload\0\x38\0\0\0\0n,,n=user,r=AQEBAQEBAQEBAQEBAQEBAQEBAQEBAQEBAQEBAQEBAQE=\x03options\0\x19\0\0\0\x08skipEmptyExchange\0\x01\0\x02$db\0\x06\0\0\0admin\0\0";

const CONTINUE: &[u8] =
    b"\xb4\0\0\0\x02\0\0\0\0\0\0\0\xdd\x07\0\0\0\0\0\0\0\x9f\0\0\0\x10saslContinue\0\x01\0\0\0\x10conversationId\0\x01\0\0\0\x05payload\0\x57\0\0\0\0c=biws,r=AQEBAQEBAQEBAQEBAQEBAQEBAQEBAQEBAQEBAQEBAQE=srv,p=BFzm0muAQtwQOjURMMJFxMR5D7Q=\x02$db\0\x06\0\0\0admin\0\0";

const CHALLENGE: &[u8] =
    b"\xa2\0\0\0\x01\0\0\0\0\0\0\0\xdd\x07\0\0\0\0\0\0\0\x8d\0\0\0\x01ok\0\0\0\0\0\0\0\xf0?\x10conversationId\0\x01\0\0\0\x08done\0\0\x05payload\0\x53\0\0\0\0r=AQEBAQEBAQEBAQEBAQEBAQEBAQEBAQEBAQEBAQEBAQE=srv,s=W22ZaJ0SNY7soEsUEjb6gQ==,i=4096\0";

const ACCEPTED: &[u8] =
    b"m\0\0\0\x01\0\0\0\0\0\0\0\xdd\x07\0\0\0\0\0\0\0\x58\0\0\0\x01ok\0\0\0\0\0\0\0\xf0?\x10conversationId\0\x01\0\0\0\x08done\0\x01\x05payload\0\x1e\0\0\0\0v=aUCtyleaGTvV5HNlYplfkdpArKI=\0";

// The login by SCRAM-SHA-256 that goes on from a first round, by a nonce of 32 bytes of 0: its command, as id 1, and its
// reply; another verifier; and the right one before the conversation is done.
const CLOSE: &[u8] =
    b"\xc4\0\0\0\x01\0\0\0\0\0\0\0\xdd\x07\0\0\0\0\0\0\0\xaf\0\0\0\x10saslContinue\0\x01\0\0\0\x10conversationId\0\x01\0\0\0\x05payload\0\x67\0\0\0\0c=biws,r=AAAAAAAAAAAAAAAAAAAAAAAAAAAAAAAAAAAAAAAAAAA=srv,p=OU2L2xelBirmoVm4wPmh4bnaHDkvawjgY5VhsfceUdQ=\x02$db\0\x06\0\0\0admin\0\0";

const RIGHT: &[u8] =
    b"}\0\0\0\x01\0\0\0\0\0\0\0\xdd\x07\0\0\0\0\0\0\0\x68\0\0\0\x01ok\0\0\0\0\0\0\0\xf0?\x10conversationId\0\x01\0\0\0\x08done\0\x01\x05payload\0\x2e\0\0\0\0v=GU1A69Cdt0AqzGlp0kUmRIJxcJmERkI8U5Lse1KUKhk=\0";

const WRONG: &[u8] =
    b"}\0\0\0\x01\0\0\0\0\0\0\0\xdd\x07\0\0\0\0\0\0\0\x68\0\0\0\x01ok\0\0\0\0\0\0\0\xf0?\x10conversationId\0\x01\0\0\0\x08done\0\x01\x05payload\0\x2e\0\0\0\0v=GU1A69Cdt0AqzGlp0kUmRIJxcJmERkI8U5Lse1KUKhg=\0";

const UNDONE: &[u8] =
    b"}\0\0\0\x01\0\0\0\0\0\0\0\xdd\x07\0\0\0\0\0\0\0\x68\0\0\0\x01ok\0\0\0\0\0\0\0\xf0?\x10conversationId\0\x01\0\0\0\x08done\0\0\x05payload\0\x2e\0\0\0\0v=GU1A69Cdt0AqzGlp0kUmRIJxcJmERkI8U5Lse1KUKhk=\0";

// The same as `other`, by Python's hashlib and hmac.
const CLOSE_OF_OTHER: &[u8] =
    b"\xc4\0\0\0\x01\0\0\0\0\0\0\0\xdd\x07\0\0\0\0\0\0\0\xaf\0\0\0\x10saslContinue\0\x01\0\0\0\x10conversationId\0\x01\0\0\0\x05payload\0g\0\0\0\0c=biws,r=AAAAAAAAAAAAAAAAAAAAAAAAAAAAAAAAAAAAAAAAAAA=srv,p=p/TYB3y7mMktThmpSHdF3YcN/EgU0q93Q5OR9hy205A=\x02$db\0\x06\0\0\0admin\0\0";

const RIGHT_FOR_OTHER: &[u8] =
    b"}\0\0\0\x01\0\0\0\0\0\0\0\xdd\x07\0\0\0\0\0\0\0h\0\0\0\x01ok\0\0\0\0\0\0\0\xf0?\x10conversationId\0\x01\0\0\0\x08done\0\x01\x05payload\0.\0\0\0\0v=7v93EEcjQAhBatWHBcKxHrvLC3n6pRY3Fnh9o1c7XtA=\0";

/// A login: its user name and password, its version, and the replies to it.
#[derive(Clone, Copy)]
struct Login {
    username: Option<&'static str>,
    password: Option<&'static str>,
    version: ScramVersion,
    replies: [&'static [u8]; 2],
}

/// What comes of it: the fault that it is refused for, the commands that it says, and the entries and rounds of the cache
/// after it.
#[derive(Clone, Copy)]
struct End {
    fault: &'static str,
    commands: [&'static [u8]; 2],
    entries: usize,
    rounds: u64,
}

const BY_SHA_1: Login = Login {
    username: Some("user"),
    password: Some("pencil"),
    version: ScramVersion::Sha1,
    replies: [CHALLENGE, ACCEPTED],
};

fn answered(
    username: Option<&'static str>,
    password: Option<&'static str>,
    reply: &'static [u8],
) -> Login {
    Login {
        username,
        password,
        version: ScramVersion::Sha256,
        replies: [reply, b""],
    }
}

// Logins with one cache, one after another: a key is derived until a login with it was accepted. Two users with one
// password have two keys.
fn login_at(place: u8) -> Login {
    let user = Some("user");
    let pencil = Some("pencil");
    match place {
        0 => answered(user, pencil, WRONG),
        1 => answered(user, pencil, RIGHT),
        2 => answered(user, pencil, RIGHT),
        3 => answered(user, pencil, UNDONE),
        4 => answered(Some("other"), pencil, RIGHT_FOR_OTHER),
        5 => BY_SHA_1,
        6 => answered(None, None, RIGHT),
        7 => answered(user, None, RIGHT),
        8 => answered(user, Some("p\u{e9}\u{7f}"), RIGHT),
        _ => answered(user, Some("p\u{7f}"), RIGHT),
    }
}

fn end_at(place: u8) -> End {
    let closed = |fault, command, entries, rounds| End {
        fault,
        commands: [command, b""],
        entries,
        rounds,
    };
    match place {
        0 => closed("Verifier", CLOSE, 0, 4096),
        1 => closed("none", CLOSE, 1, 8192),
        2 => closed("none", CLOSE, 1, 8192),
        3 => closed("NotCompleted", CLOSE, 1, 8192),
        4 => closed("none", CLOSE_OF_OTHER, 2, 12288),
        5 => End {
            commands: [START, CONTINUE],
            ..closed("none", b"", 3, 16384)
        },
        6 => closed("NoUsername", b"", 3, 16384),
        7 => closed("NoPassword", b"", 3, 16384),
        8 => closed("PasswordNotAscii", b"", 3, 16384),
        _ => closed("PasswordControl", b"", 3, 16384),
    }
}

fn text(alloc: Global, given: Option<&str>) -> Result<Option<Text>, BsonFault> {
    match given {
        Some(given) => Ok(Some(Text::from_slice(alloc, given)?)),
        None => Ok(None),
    }
}

fn credential(alloc: Global, login: &Login) -> Result<Credential, BsonFault> {
    let username = text(alloc, login.username)?;
    let password = text(alloc, login.password)?;
    Ok(Credential {
        username,
        password,
        ..Credential::new()
    })
}

// A round that went with a hello, by a nonce of 32 bytes of 0.
fn first_round(alloc: Global, login: &Login) -> Result<FirstRound, Error> {
    let username = login.username.unwrap_or("");
    let server_first = reply(
        alloc,
        1,
        1,
        false,
        b"r=AAAAAAAAAAAAAAAAAAAAAAAAAAAAAAAAAAAAAAAAAAA=srv,s=W22ZaJ0SNY7soEsUEjb6gQ==,i=4096",
    )?;
    Ok(FirstRound {
        client_first: ClientFirst::new(alloc, "admin", username, true, None, &[0; 32])?,
        server_first,
    })
}

// A copy of it.
fn copied_round(alloc: Global, login: &Login) -> Result<FirstRound, Error> {
    let round = first_round(alloc, login)?;
    round.try_clone(alloc)
}

fn round_of(alloc: Global, login: &Login) -> Result<Option<FirstRound>, Error> {
    match login.version {
        ScramVersion::Sha1 => Ok(None),
        ScramVersion::Sha256 => Ok(Some(copied_round(alloc, login)?)),
    }
}

fn connection(alloc: Global) -> Result<Connection, BsonFault> {
    let host = Text::from_slice(alloc, "localhost")?;
    Ok(Connection::new(ServerAddress::Tcp { host, port: None }, 1))
}

/// What a login takes beside its link and its cache.
#[derive(Drop)]
struct Session {
    user: Credential,
    connection: Connection,
    ids: RequestIds,
    buffer: FrameBuffer,
    round: Option<FirstRound>,
}

fn new_session(alloc: Global, login: &Login) -> Result<Session, Fail> {
    let round = given(round_of(alloc, login))?;
    let connection = connection(alloc)?;
    Ok(Session {
        user: credential(alloc, login)?,
        round,
        connection,
        ids: RequestIds::new(1),
        buffer: FrameBuffer::new(alloc),
    })
}

// Logs in over the link, with a counter of its own, of the ledger that `blank` opens, and says the fault.
fn fault_with<L: Link, G: Ledger>(
    blank: Blank,
    alloc: Global,
    version: ScramVersion,
    session: &mut Session,
    link: &mut L,
    cache: &mut SaltedCache,
) -> &'static str
    requires name { blank.name ≡ G.name }
    requires parts { blank.parts ≡ G.parts }
    requires has_a_part { 0 < G.parts }
{
    let mut steps = Steps::<G>::new(blank);
    let Session {
        user,
        connection,
        ids,
        buffer,
        round,
    } = session;
    fault_of(version.authenticate_stream(
        alloc,
        connection,
        link,
        ids,
        buffer,
        user,
        None,
        round.take(),
        &[1; 32],
        10_000_000,
        cache,
        &mut steps,
    ))
}

// The fault that the connection keeps.
fn kept_by(connection: &Connection) -> &'static str {
    match connection.fault() {
        Some(kind) => kind_name(kind),
        None => "none",
    }
}

// What a login was refused for, and the fault that its connection keeps after it.
#[derive(Clone, Copy)]
struct RefusedLogin {
    fault: &'static str,
    kept: &'static str,
}

// Whether the buffer holds the login's last reply after its header, and has taken each of its replies.
fn holds_replies(login: &Login, buffer: &FrameBuffer) -> bool {
    let (last, count) = match login.version {
        ScramVersion::Sha1 => (login.replies[1], 2),
        ScramVersion::Sha256 => (login.replies[0], 1),
    };
    let held = buffer.as_bytes();
    buffer.frames() == count && last.len() == held.len() + 16 && last.ends_with(held)
}

// The fault; of a login that is accepted another one where the buffer isn't as it has to be.
fn fault_beside(fault: &'static str, login: &Login, buffer: &FrameBuffer) -> &'static str {
    if fault != "none" || holds_replies(login, buffer) {
        fault
    } else {
        "another buffer"
    }
}

fn fault_over<L: Link, G: Ledger>(
    blank: Blank,
    alloc: Global,
    login: &Login,
    link: &mut L,
    cache: &mut SaltedCache,
) -> Result<RefusedLogin, Fail>
    requires name { blank.name ≡ G.name }
    requires parts { blank.parts ≡ G.parts }
    requires has_a_part { 0 < G.parts }
{
    let mut session = new_session(alloc, login)?;
    let fault = fault_with::<L, G>(blank, alloc, login.version, &mut session, link, cache);
    let fault = fault_beside(fault, login, &session.buffer);
    Ok(RefusedLogin {
        fault,
        kept: kept_by(&session.connection),
    })
}

fn fault_in_memory(
    alloc: Global,
    login: &Login,
    link: &mut MemoryLink,
    cache: &mut SaltedCache,
) -> Result<RefusedLogin, Fail> {
    fault_over::<MemoryLink, Brand>(Blank::new(1), alloc, login, link, cache)
}

fn fault_over_failing(
    alloc: Global,
    login: &Login,
    link: &mut FailingLink,
    cache: &mut SaltedCache,
) -> Result<RefusedLogin, Fail> {
    fault_over::<FailingLink, Brand>(Blank::new(1), alloc, login, link, cache)
}

fn heard_by(alloc: Global, login: &Login) -> Result<Bytes, BsonFault> {
    let mut heard = Bytes::from_slice(alloc, login.replies[0])?;
    heard.extend_from_slice(login.replies[1])?;
    Ok(heard)
}

fn is_joined(said: &[u8], commands: &[&[u8]; 2]) -> bool {
    match said.strip_prefix(commands[0]) {
        Some(rest) => rest == commands[1],
        None => false,
    }
}

// Whether a login over a link that doesn't fail ends so; its connection keeps no fault.
fn ends_so(alloc: Global, login: &Login, end: &End, cache: &mut SaltedCache) -> Result<bool, Fail> {
    let mut link = MemoryLink::new(alloc, heard_by(alloc, login)?);
    let refusal = fault_in_memory(alloc, login, &mut link, cache)?;
    Ok(
        refusal.fault == end.fault
            && refusal.kept == "none"
            && is_joined(link.written(), &end.commands)
            && cache.len() == end.entries
            && cache.rounds() == end.rounds,
    )
}

// A link that moves one byte a call, of which just this one fails.
fn failing_at(alloc: Global, call: usize) -> Result<FailingLink, Fail> {
    let mut schedule = Vec::new(alloc);
    schedule.resize(call, 0)?;
    schedule.push(1)?;
    let heard = heard_by(alloc, &BY_SHA_1)?;
    Ok(FailingLink::new(alloc, heard, Bytes::from_vec(schedule), 1))
}

// The fault of a login by SCRAM-SHA-1 of whose calls just this one fails, the fault that its connection keeps, and the rounds
// and entries of a new cache after it.
fn end_where_one_fails(
    alloc: Global,
    call: usize,
) -> Result<(&'static str, &'static str, u64, usize), Fail> {
    let mut link = failing_at(alloc, call)?;
    let mut cache = SaltedCache::new(alloc);
    let refusal = fault_over_failing(alloc, &BY_SHA_1, &mut link, &mut cache)?;
    Ok((refusal.fault, refusal.kept, cache.rounds(), cache.len()))
}

// Fails where a cache isn't new, or one of the logins ends otherwise, each of them with a copy of the cache that the login before
// it left.
fn check_logins(alloc: Global, cache: &mut SaltedCache) -> Result<(), Fail> {
    if !cache.is_empty() || cache.rounds() != 0 {
        return Err(Fail::from("no new cache"));
    }
    for place in 0..10 {
        *cache = given(cache.try_clone(alloc))?;
        if !ends_so(alloc, &login_at(place), &end_at(place), cache)? {
            return Err(Fail::new(format_args!("{place}")));
        }
    }
    Ok(())
}

#[test]
fn logins_with_one_cache(rt: HostRuntime) -> Result<(), Fail> {
    let mut cache = SaltedCache::new(rt.alloc());
    check_logins(rt.alloc(), &mut cache)
}

// What the login is refused for where just this call fails, which is what its connection keeps, and the rounds and entries of the
// cache after it: calls to a link that moves one byte a call are 187 writes and a flush, 162 reads, 180 writes and a flush, 109 reads.
fn end_at_call(call: usize) -> (&'static str, &'static str, u64, usize) {
    match call {
        0..=187 => ("WriteFault", "WriteFault", 0, 0),
        188..=349 => ("ReadFault", "ReadFault", 0, 0),
        350..=530 => ("WriteFault", "WriteFault", 4096, 0),
        531..=639 => ("ReadFault", "ReadFault", 4096, 0),
        _ => ("none", "none", 4096, 1),
    }
}

// The first and the last of each kind of call.
#[test]
fn a_link_that_fails(rt: HostRuntime) -> Result<(), Fail> {
    for call in [0, 187, 188, 349, 350, 530, 531, 639, 640] {
        let end = end_where_one_fails(rt.alloc(), call)?;
        assert!(rt; end == end_at_call(call), "at {call}: {end:?}");
    }
    Ok(())
}

fn is_shown_as(alloc: Global, key: &SaltedKey, text: &str) -> bool {
    match format!(in alloc; "{key:?}") {
        Ok(shown) => shown.as_str() == text,
        Err(_) => false,
    }
}

fn is_copied(alloc: Global, key: &SaltedKey) -> bool {
    match key.try_clone(alloc) {
        Ok(copy) => copy == *key,
        Err(_) => false,
    }
}

// No text of a key is shown, its copy is the same key, and a new cache has no entry.
fn is_hidden(alloc: Global, key: &SaltedKey) -> bool {
    is_shown_as(alloc, key, "SaltedKey { .. }")
        && is_copied(alloc, key)
        && SaltedCache::new(alloc).get(key).is_none()
}

fn one_key(alloc: Global) -> Result<SaltedKey, BsonFault> {
    Ok(SaltedKey {
        version: ScramVersion::Sha256,
        username: Text::from_slice(alloc, "user")?,
        password: Text::from_slice(alloc, "pencil")?,
        salt: Bytes::from_slice(alloc, b"\x01")?,
        count: 4096,
    })
}

#[test]
fn a_key_is_not_shown(rt: HostRuntime) -> Result<(), Fail> {
    let key = one_key(rt.alloc())?;
    assert!(rt; is_hidden(rt.alloc(), &key));
    Ok(())
}
