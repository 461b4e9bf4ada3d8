//! A login that a client makes, with a ping after it, and what a fault at each call of it comes to.

ghost use Rattle.std.specs.Prelude.{◌+◌, ◌≤◌};

use mongo_service::ServeStatus;

// The line of settings, with its end.
pub(super) const USERS: &[u8] =
    b"{\"users\": [{\"name\": \"user\", \"password\": \"pencil\", \"mechanisms\": [\"SCRAM-SHA-1\", \"SCRAM-SHA-256\"], \"salts\": [\"ad0f59637337b4178ebf71354c3542e3\", \"5b6d99689d12358eeca04b141236fa81\"], \"count\": 4096}], \"nonce\": \"3rfcNHYJY1ZVvWVs7j\"}\n";

// What the client sends: its messages of a login by SCRAM-SHA-1, the empty one that ends it, and a ping. These frames and those of the
// replies are what Python's `struct` makes by BSON 1.1 and the OP_MSG specification; the client's proof and the server's verifier, by
// RFC 5802 with the password as MongoDB's SCRAM-SHA-1 has it, are those of its `hashlib` and `hmac`. They stand in the run that is stored
// in `crates/mongo_serve`, its files `stdin` and `stdout`, too.
pub(super) const FIRST: &[u8] =
    b"\x85\0\0\0k\0\0\0\0\0\0\0\xdd\x07\0\0\0\0\0\0\0p\0\0\0\x10saslStart\0\x01\0\0\0\x02mechanism\0\x0c\0\0\0SCRAM-SHA-1\0\x05payload\0$\0\0\0\0n,,n=user,r=fyko+d2lbbFgONRv9qkxdawL\x02$db\0\x06\0\0\0admin\0\0";

pub(super) const LAST: &[u8] =
    b"\xaf\0\0\0l\0\0\0\0\0\0\0\xdd\x07\0\0\0\0\0\0\0\x9a\0\0\0\x10saslContinue\0\x01\0\0\0\x10conversationId\0\x01\0\0\0\x05payload\0R\0\0\0\0c=biws,r=fyko+d2lbbFgONRv9qkxdawL3rfcNHYJY1ZVvWVs7j,p=8Sxwlcg4GaWiLyPAqfdP+Dc/uZc=\x02$db\0\x06\0\0\0admin\0\0";

pub(super) const EMPTY: &[u8] =
    b"]\0\0\0m\0\0\0\0\0\0\0\xdd\x07\0\0\0\0\0\0\0H\0\0\0\x10saslContinue\0\x01\0\0\0\x10conversationId\0\x01\0\0\0\x05payload\0\0\0\0\0\0\x02$db\0\x06\0\0\0admin\0\0";

pub(super) const PING_AFTER: &[u8] =
    b"W\0\0\0h\0\0\0\0\0\0\0\xdd\x07\0\0\0\0\0\0\0B\0\0\0\x10ping\0\x01\0\0\0\x03lsid\0\x1e\0\0\0\x05id\0\x10\0\0\0\0xxxxxxxxxxxxxxxx\0\x02$db\0\x06\0\0\0admin\0\0";

// The replies, of 157, 109, 79 and 38 bytes, numbered from 1. The stored run has them under other numbers.
pub(super) const REPLIES: &[u8] =
    b"\x9d\0\0\0\x01\0\0\0k\0\0\0\xdd\x07\0\0\0\0\0\0\0\x88\0\0\0\x10conversationId\0\x01\0\0\0\x08done\0\0\x05payload\0N\0\0\0\0r=fyko+d2lbbFgONRv9qkxdawL3rfcNHYJY1ZVvWVs7j,s=rQ9ZY3M3tBeOv3E1TDVC4w==,i=4096\x01ok\0\0\0\0\0\0\0\xf0?\0m\0\0\0\x02\0\0\0l\0\0\0\xdd\x07\0\0\0\0\0\0\0X\0\0\0\x10conversationId\0\x01\0\0\0\x08done\0\0\x05payload\0\x1e\0\0\0\0v=l2cJuLOMTtUpn4D0JaKJLWFvUIM=\x01ok\0\0\0\0\0\0\0\xf0?\0O\0\0\0\x03\0\0\0m\0\0\0\xdd\x07\0\0\0\0\0\0\0:\0\0\0\x10conversationId\0\x01\0\0\0\x08done\0\x01\x05payload\0\0\0\0\0\0\x01ok\0\0\0\0\0\0\0\xf0?\0&\0\0\0\x04\0\0\0h\0\0\0\xdd\x07\0\0\0\0\0\0\0\x11\0\0\0\x01ok\0\0\0\0\0\0\0\xf0?\0";

const NOBODY: &str = "nobody was logged in\n";

const USER: &str = "logged in: \"user\"\n";

const GIVES: &str = "the link failed to give bytes\n";

const TAKES: &str = "the link failed to take bytes\n";

const CUT: &str = "the stream ended within a frame\n";

const NO_FRAME: &str = "what came is no frame of this protocol\n";

// How a run is to end.
#[derive(Clone, Copy)]
pub(super) struct Wanted {
    pub(super) status: ServeStatus,
    // The report's lines: who is logged in, and how the stream ended.
    pub(super) report: [&'static str; 2],
    // How many bytes of the replies are written.
    pub(super) written: usize,
}

// What a fault at the call of this number comes to, counted from the first after the settings.
//
// A turn reads the frame's header and its rest, writes the reply in three pieces (its header of 16 bytes, its flags and section kind
// of 5, its document) and flushes it. The second frame is longer than the first, so its rest comes in two reads: one into the
// memory that the first took, and one behind it. The user is logged in once the empty message was read, call 14. After four
// turns a read finds the stream's end, and there is no further call.
pub(super) fn fault_at(call: usize) -> Wanted {
    match call {
        0 | 1 => broken(NOBODY, GIVES, 0),
        2..=5 => broken(NOBODY, TAKES, written_at(call - 2, 0, 157)),
        6 | 7 | 8 => broken(NOBODY, GIVES, 157),
        9..=12 => broken(NOBODY, TAKES, written_at(call - 9, 157, 266)),
        13 | 14 => broken(NOBODY, GIVES, 266),
        15..=18 => broken(USER, TAKES, written_at(call - 15, 266, 345)),
        19 | 20 => broken(USER, GIVES, 345),
        21..=24 => broken(USER, TAKES, written_at(call - 21, 345, 383)),
        25 => broken(USER, GIVES, 383),
        _ => whole(),
    }
}

// How many bytes of the replies are written as this call of a reply fails, counted from the first. The reply lies between these
// places.
fn written_at(call: usize, start: usize, end: usize) -> usize
    requires { start + 21 ≤ end }
{
    match call {
        0 => start,
        1 => start + 16,
        2 => start + 21,
        _ => end,
    }
}

fn broken(user: &'static str, end: &'static str, written: usize) -> Wanted {
    Wanted {
        status: ServeStatus::Broken,
        report: [user, end],
        written,
    }
}

fn ended(user: &'static str, written: usize) -> Wanted {
    Wanted {
        status: ServeStatus::Ended,
        report: [user, "the client ended its stream\n"],
        written,
    }
}

// Nothing fails: the whole login and the ping are answered.
pub(super) fn whole() -> Wanted {
    ended(USER, 383)
}

// What a client sends that isn't done, by number, and how it is left: it ends its stream after the first reply; within the header of
// its second frame, and within its document; after its key is proved; and it speaks another protocol after the login.
pub(super) fn left_at(place: usize) -> (&'static str, Wanted) {
    match place {
        0 => ("users first", ended(NOBODY, 157)),
        1 => ("users first cut-last-header", broken(NOBODY, CUT, 157)),
        2 => ("users first cut-last", broken(NOBODY, CUT, 157)),
        3 => ("users first last", ended(NOBODY, 266)),
        _ => ("users first last empty get", broken(USER, NO_FRAME, 345)),
    }
}
