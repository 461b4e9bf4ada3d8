use super::ends::{End, end_of, is_same_end};
use super::frames::{HELLO, STANDALONE};
use super::{PoolKind, SEVENTH, Who, made_over_failing, new_state};
use mongo_bson::Bytes;
use mongo_establish::{LoginState, RequestIds};
use mongo_wire::{FailingLink, Sink, Source};
use std::alloc::Global;
use std::test::Fail;

// What a client says that logs in as `user` with the password `pencil`, by nonces of 32 bytes of 0 and of 1: its hello,
// the end of the login by SCRAM-SHA-256 that went with it, and the two commands of a login by SCRAM-SHA-1.
pub(super) const HELLO_OF_USER: &[u8; 463] =
    b"\xcf\x01\0\0\0\0\0\0\0\0\0\0\xdd\x07\0\0\0\0\0\0\0\xba\x01\0\0\x10isMaster\0\x01\0\0\0\x08helloOk\0\x01\x02backpressure\0\x02\0\0\0\x32\0\x02saslSupportedMechs\0\x0b\0\0\0admin.user\0\x03speculativeAuthenticate\0\xa7\0\0\0\x10saslStart\0\x01\0\0\0\x02mechanism\0\x0e\0\0\0SCRAM-SHA-256\0\x05payload\0\x38\0\0\0\0n,,n=user,r=AAAAAAAAAAAAAAAAAAAAAAAAAAAAAAAAAAAAAAAAAAA=\x03options\0\x19\0\0\0\x08skipEmptyExchange\0\x01\0\x02db\0\x06\0\0\0admin\0\0\x03client\0\x8f\0\0\0\x03driver\0\x34\0\0\0\x02name\0\x12\0\0\0mongo-rust-driver\0\x02version\0\x06\0\0\0\x33.9.1\0\0\x03os\0.\0\0\0\x02type\0\x06\0\0\0linux\0\x02architecture\0\x07\0\0\0x86_64\0\0\x02platform\0\x0e\0\0\0rattle / sync\0\0\x02$db\0\x06\0\0\0admin\0\0";

const CLOSE: &[u8; 196] =
    b"\xc4\0\0\0\x01\0\0\0\0\0\0\0\xdd\x07\0\0\0\0\0\0\0\xaf\0\0\0\x10saslContinue\0\x01\0\0\0\x10conversationId\0\x01\0\0\0\x05payload\0g\0\0\0\0c=biws,r=AAAAAAAAAAAAAAAAAAAAAAAAAAAAAAAAAAAAAAAAAAA=srv,p=OU2L2xelBirmoVm4wPmh4bnaHDkvawjgY5VhsfceUdQ=\x02$db\0\x06\0\0\0admin\0\0";

const START: &[u8; 187] =
    b"\xbb\0\0\0\x01\0\0\0\0\0\0\0\xdd\x07\0\0\0\0\0\0\0\xa6\0\0\0\x10saslStart\0\x01\0\0\0\x02mechanism\0\x0c\0\0\0SCRAM-SHA-1\0\x05payload\0\x38\0\0\0\0n,,n=user,r=AQEBAQEBAQEBAQEBAQEBAQEBAQEBAQEBAQEBAQEBAQE=\x03options\0\x19\0\0\0\x08skipEmptyExchange\0\x01\0\x02$db\0\x06\0\0\0admin\0\0";

const CONTINUE: &[u8; 180] =
    b"\xb4\0\0\0\x02\0\0\0\0\0\0\0\xdd\x07\0\0\0\0\0\0\0\x9f\0\0\0\x10saslContinue\0\x01\0\0\0\x10conversationId\0\x01\0\0\0\x05payload\0W\0\0\0\0c=biws,r=AQEBAQEBAQEBAQEBAQEBAQEBAQEBAQEBAQEBAQEBAQE=srv,p=BFzm0muAQtwQOjURMMJFxMR5D7Q=\x02$db\0\x06\0\0\0admin\0\0";

// What servers answer: to the hello, with and without an answer to its login; and to each command after it.
const CHALLENGED: &[u8; 416] =
    b"\xa0\x01\0\0\x01\0\0\0\0\0\0\0\xdd\x07\0\0\0\0\0\0\0\x8b\x01\0\0\x01ok\0\0\0\0\0\0\0\xf0?\x10maxBsonObjectSize\0\0\0\0\x01\x10maxMessageSizeBytes\0\0l\xdc\x02\x08isWritablePrimary\0\x01\x02setName\0\x04\0\0\0rs0\0\x10minWireVersion\0\0\0\0\0\x10maxWireVersion\0\x19\0\0\0\x10logicalSessionTimeoutMinutes\0\x1e\0\0\0\x04saslSupportedMechs\0-\0\0\0\x020\0\x0c\0\0\0SCRAM-SHA-1\0\x021\0\x0e\0\0\0SCRAM-SHA-256\0\0\x03speculativeAuthenticate\0\x81\0\0\0\x10conversationId\0\x01\0\0\0\x08done\0\0\x05payload\0S\0\0\0\0r=AAAAAAAAAAAAAAAAAAAAAAAAAAAAAAAAAAAAAAAAAAA=srv,s=W22ZaJ0SNY7soEsUEjb6gQ==,i=4096\0\0";

const CLOSED: &[u8; 125] =
    b"}\0\0\0\x01\0\0\0\0\0\0\0\xdd\x07\0\0\0\0\0\0\0h\0\0\0\x01ok\0\0\0\0\0\0\0\xf0?\x10conversationId\0\x01\0\0\0\x08done\0\x01\x05payload\0.\0\0\0\0v=GU1A69Cdt0AqzGlp0kUmRIJxcJmERkI8U5Lse1KUKhk=\0";

pub(super) const NEGOTIATED: &[u8; 241] =
    b"\xf1\0\0\0\x01\0\0\0\0\0\0\0\xdd\x07\0\0\0\0\0\0\0\xdc\0\0\0\x01ok\0\0\0\0\0\0\0\xf0?\x10maxBsonObjectSize\0\0\0\0\x01\x10maxMessageSizeBytes\0\0l\xdc\x02\x08isWritablePrimary\0\x01\x02setName\0\x04\0\0\0rs0\0\x10minWireVersion\0\0\0\0\0\x10maxWireVersion\0\x19\0\0\0\x10logicalSessionTimeoutMinutes\0\x1e\0\0\0\x04saslSupportedMechs\0\x18\0\0\0\x020\0\x0c\0\0\0SCRAM-SHA-1\0\0\0";

pub(super) const CHALLENGE: &[u8; 162] =
    b"\xa2\0\0\0\x01\0\0\0\0\0\0\0\xdd\x07\0\0\0\0\0\0\0\x8d\0\0\0\x01ok\0\0\0\0\0\0\0\xf0?\x10conversationId\0\x01\0\0\0\x08done\0\0\x05payload\0S\0\0\0\0r=AQEBAQEBAQEBAQEBAQEBAQEBAQEBAQEBAQEBAQEBAQE=srv,s=W22ZaJ0SNY7soEsUEjb6gQ==,i=4096\0";

pub(super) const ACCEPTED: &[u8; 109] =
    b"m\0\0\0\x01\0\0\0\0\0\0\0\xdd\x07\0\0\0\0\0\0\0X\0\0\0\x01ok\0\0\0\0\0\0\0\xf0?\x10conversationId\0\x01\0\0\0\x08done\0\x01\x05payload\0\x1e\0\0\0\0v=aUCtyleaGTvV5HNlYplfkdpArKI=\0";

// The commands and replies of establishments: two logins, one that goes on from the answer to its hello and one that
// starts after it; and a hello without a login.
pub(super) fn exchanges_of(login: u8) -> &'static [(&'static [u8], &'static [u8])] {
    match login {
        0 => &[(HELLO_OF_USER, CHALLENGED), (CLOSE, CLOSED)],
        1 => &[
            (HELLO_OF_USER, NEGOTIATED),
            (START, CHALLENGE),
            (CONTINUE, ACCEPTED),
        ],
        _ => &[(&HELLO, &STANDALONE)],
    }
}

pub(super) fn who_of(login: u8) -> Who {
    match login {
        0 | 1 => Who::Negotiated,
        _ => Who::Nobody,
    }
}

/// All that a login says, and all that it hears.
#[derive(Drop)]
pub(super) struct Talk {
    pub said: Vec<u8>,
    pub heard: Vec<u8>,
}

pub(super) fn talk_of(alloc: Global, login: u8) -> Result<Talk, Fail> {
    let mut said = Vec::new(alloc);
    let mut heard = Vec::new(alloc);
    for (command, reply) in exchanges_of(login) {
        said.extend_from_slice(command)?;
        heard.extend_from_slice(reply)?;
    }
    Ok(Talk { said, heard })
}

// The end of a login over a link that moves one byte a call, of which just this one fails: commands and replies pass in
// turn, and each command is flushed. The cache has these rounds and entries then.
pub(super) fn end_at(login: u8, call: usize, rounds: u64, entries: usize) -> End {
    let mut end = End {
        told: ("none", 0, None),
        next_id: 0,
        said: 0,
        heard: 0,
        rounds,
        entries,
    };
    let mut left = call;
    let mut generation = None;
    for (command, reply) in exchanges_of(login) {
        end.next_id = end.next_id.saturating_add(1);
        end.said = end.said.saturating_add(left.min(command.len()));
        if left <= command.len() {
            end.told = ("WriteFault", 0, generation);
            return end;
        }
        left -= command.len() + 1;
        end.heard = end.heard.saturating_add(left.min(reply.len()));
        if left < reply.len() {
            end.told = ("ReadFault", 0, generation);
            return end;
        }
        left -= reply.len();
        generation = SEVENTH;
    }
    end.told = ("none", 0, generation);
    end
}

// A link that gives these bytes and moves one byte a call, of which just this one fails.
pub(super) fn failing_at(alloc: Global, heard: &[u8], call: usize) -> Result<FailingLink, Fail> {
    let mut schedule = Vec::new(alloc);
    schedule.resize(call, 0)?;
    schedule.push(1)?;
    let input = Bytes::from_slice(alloc, heard)?;
    Ok(FailingLink::new(alloc, input, Bytes::from_vec(schedule), 1))
}

// Whether a login of whose calls just this one fails ends so. It says a front of all that it would say, and leaves what it
// hasn't heard.
fn ends_so(
    alloc: Global,
    login: u8,
    talk: &Talk,
    call: usize,
    wanted: &End,
    state: &mut LoginState,
) -> Result<bool, Fail> {
    let mut link = failing_at(alloc, talk.heard.as_slice(), call)?;
    state.ids = RequestIds::new(0);
    let made = made_over_failing(alloc, who_of(login), PoolKind::Normal, &mut link, state)?;
    let told = made.told;
    let taken = talk.heard.len().saturating_sub(link.left().len());
    let end = end_of(told, state, link.written().len(), taken);
    Ok(
        is_same_end(&end, wanted)
            && talk.said.as_slice().starts_with(link.written())
            && talk.heard.as_slice().ends_with(link.left())
            && (link.write_faults() == 1) == (told.0 == "WriteFault")
            && (link.read_faults() == 1) == (told.0 == "ReadFault"),
    )
}

#[test]
fn each_call_that_fails_is_told(rt: HostRuntime) -> Result<(), Fail> {
    // a run for each byte and for each flush, and one that no call fails: that comes first, and puts the key into the cache
    for (login, runs, rounds, entries) in [(0, 1203, 4096, 1), (1, 1346, 4096, 1), (2, 324, 0, 0)] {
        let talk = talk_of(rt.alloc(), login)?;
        let mut state = new_state(rt.alloc());
        for call in (0..runs).rev() {
            let wanted = end_at(login, call, rounds, entries);
            let ends = ends_so(rt.alloc(), login, &talk, call, &wanted, &mut state)?;
            assert!(rt; ends, "login {login} at {call}");
        }
    }
    Ok(())
}

// A login, a call of it that fails, and the rounds and entries of a new cache after it: the key is derived once the
// challenge was heard, and kept once the login was accepted.
#[test]
fn a_key_is_derived_where_a_login_needs_it(rt: HostRuntime) -> Result<(), Fail> {
    for (login, call, rounds, entries) in [
        (0, 879, 0, 0),
        (0, 880, 4096, 0),
        (0, 1201, 4096, 0),
        (0, 1202, 4096, 1),
        (1, 1054, 0, 0),
        (1, 1055, 4096, 0),
        (1, 1344, 4096, 0),
        (1, 1345, 4096, 1),
    ] {
        let talk = talk_of(rt.alloc(), login)?;
        let wanted = end_at(login, call, rounds, entries);
        let mut state = new_state(rt.alloc());
        let ends = ends_so(rt.alloc(), login, &talk, call, &wanted, &mut state)?;
        assert!(rt; ends, "login {login} at {call}");
    }
    Ok(())
}
