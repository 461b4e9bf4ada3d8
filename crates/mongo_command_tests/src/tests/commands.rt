use super::failing::{Told, new_connection, send_message};
use super::given;
use super::notation::document;
use super::rows::{RowCheck, check_rows, parts, wants};
use mongo_bson::{Bytes, ObjectId, RawDocumentBuf, RawValue, Text};
use mongo_command::{
    AwaitableHelloOptions, Command, Connection, ServerApi, ServerApiVersion, TopologyVersion,
    document_of, hello_command,
};
use mongo_wire::{Error, MemoryLink, RequestIds};
use std::alloc::Global;
use std::test::Fail;

const SERVER_API: ServerApi = ServerApi {
    version: ServerApiVersion::V1,
    strict: Some(true),
    deprecation_errors: Some(false),
};

// The document of a command.
fn command_document(alloc: Global, command: &Command) -> Result<RawDocumentBuf, Fail> {
    given(command.to_document(alloc))
}

// Whether the document of a command has these fields.
fn has_fields(alloc: Global, command: &Command, fields: &str) -> Result<bool, Fail> {
    let wanted = document(alloc, fields)?;
    Ok(command_document(alloc, command)?.as_bytes() == wanted.as_bytes())
}

// A command of this body to the database `admin`.
fn command(alloc: Global, body: RawDocumentBuf) -> Result<Command, Fail> {
    given(Command::new_raw(alloc, "ping", "admin", body))
}

// Sets the last arguments of a command, the last one first.
fn set_last(alloc: Global, command: &mut Command, inner: &RawDocumentBuf) -> Result<(), Fail> {
    command.set_recovery_token(inner.try_clone(alloc)?);
    command.set_write_concern(inner.try_clone(alloc)?);
    command.set_after_cluster_time(Some((9, 8)));
    command.set_read_concern_level(Text::from_slice(alloc, "local")?);
    command.set_autocommit();
    Ok(())
}

// Sets the first, the last one first, and the session twice.
fn set_first(alloc: Global, command: &mut Command, inner: &RawDocumentBuf) -> Result<(), Fail> {
    command.set_start_transaction();
    command.set_txn_number(7);
    command.set_read_preference(inner.try_clone(alloc)?);
    command.set_server_api(&SERVER_API);
    command.set_cluster_time(inner.try_clone(alloc)?);
    command.set_session(RawDocumentBuf::new(alloc)?);
    command.set_session(inner.try_clone(alloc)?);
    Ok(())
}

// The time that a read comes after has the seconds 9 and the count 8 within the second, which comes first.
const ALL: &str =
    "ping=int:1 $db=text:admin lsid={ x=int:1 } $clusterTime={ x=int:1 } apiVersion=text:1 apiStrict=true apiDeprecationErrors=false $readPreference={ x=int:1 } txnNumber=long:7 startTransaction=true autocommit=false readConcern={ level=text:local afterClusterTime=timestamp:38654705672 } writeConcern={ x=int:1 } recoveryToken={ x=int:1 }";

const WITHOUT_CONCERNS: &str =
    "ping=int:1 $db=text:admin lsid={ x=int:1 } $clusterTime={ x=int:1 } apiVersion=text:1 apiStrict=true apiDeprecationErrors=false $readPreference={ x=int:1 } txnNumber=long:7 startTransaction=true autocommit=false recoveryToken={ x=int:1 }";

// The command `ping` with nothing set.
fn ping(alloc: Global) -> Result<Command, Fail> {
    command(alloc, document(alloc, "ping=int:1")?)
}

fn set_all(alloc: Global, command: &mut Command) -> Result<(), Fail> {
    let inner = document(alloc, "x=int:1")?;
    set_last(alloc, command, &inner)?;
    set_first(alloc, command, &inner)
}

// The command `ping` with everything set.
fn all_set(alloc: Global) -> Result<Command, Fail> {
    with(alloc, ping(alloc), Setting::All)
}

// A copy of it.
fn copy_of_all(alloc: Global) -> Result<Command, Fail> {
    copied(alloc, all_set(alloc), None)
}

// A copy of it with memory for more.
fn roomy_copy_of_all(alloc: Global) -> Result<Command, Fail> {
    copied(alloc, all_set(alloc), Some(100))
}

// It without its concerns.
fn all_but_concerns(alloc: Global) -> Result<Command, Fail> {
    let mut command = all_set(alloc)?;
    command.clear_concerns();
    Ok(command)
}

#[test]
fn fields_stand_in_their_order_whatever_that_of_the_calls(rt: HostRuntime) -> Result<(), Fail> {
    let copy = copy_of_all(rt.alloc());
    wants_fields(rt.alloc(), "a copy", copy, ALL)?;
    let roomy = roomy_copy_of_all(rt.alloc());
    wants_fields(rt.alloc(), "a copy with memory for more", roomy, ALL)?;
    let cleared = all_but_concerns(rt.alloc());
    wants_fields(rt.alloc(), "without concerns", cleared, WITHOUT_CONCERNS)
}

const SNAPSHOT: &str =
    "ping=int:1 $db=text:admin readConcern={ level=text:snapshot atClusterTime=timestamp:38654705672 }";

// The command `ping` that reads the snapshot of a time.
fn snapshot(alloc: Global) -> Result<Command, Fail> {
    with(alloc, ping(alloc), Setting::Snapshot)
}

#[test]
fn a_snapshot_has_its_time(rt: HostRuntime) -> Result<(), Fail> {
    assert!(rt; is_given(rt.alloc(), snapshot(rt.alloc()), SNAPSHOT, false)?);
    Ok(())
}

// The bytes of `{ping: 1, $db: "admin"}`, by BSON 1.1: the tables' notation is one of them.
const PING: &[u8] = b"\x1e\0\0\0\x10ping\0\x01\0\0\0\x02$db\0\x06\0\0\0admin\0\0";

// The hello that is sent first, by the handshake specification and BSON 1.1.
const HELLO: &[u8] =
    b"\x40\0\0\0\x10isMaster\0\x01\0\0\0\x08helloOk\0\x01\x02backpressure\0\x02\0\0\x002\0\x02$db\0\x06\0\0\0admin\0\0";

// A state of a server that a hello waits to see changed.
const AWAITED: AwaitableHelloOptions = AwaitableHelloOptions {
    topology_version: TopologyVersion {
        process_id: ObjectId([7; 12]),
        counter: 9,
    },
    max_await_time_ms: 10_000,
};

// Whether a word is true or false, or none.
fn boolean(word: &str) -> Option<bool> {
    match word {
        "true" => Some(true),
        "false" => Some(false),
        _ => None,
    }
}

// The hello of a row's words: whether a load balancer answers, whether the server said that it knows hello, and whether a
// server API is given or the hello waits.
fn hello(alloc: Global, words: &str) -> Result<Command, Error> {
    let mut words = words.split_whitespace();
    let load_balanced = boolean(words.next().unwrap_or(""));
    let hello_ok = boolean(words.next().unwrap_or(""));
    let (api, awaited) = match words.next() {
        Some("api") => (Some(SERVER_API), None),
        Some("await") => (None, Some(AWAITED)),
        _ => (None, None),
    };
    hello_command(alloc, api.as_ref(), load_balanced, hello_ok, awaited)
}

// Whether the row's hello has the fields behind the arrow, and may be answered more than once exactly where it waits.
fn is_hello(alloc: Global, row: &str) -> Result<bool, Fail> {
    let (words, fields) = parts(row);
    is_given(
        alloc,
        given(hello(alloc, words)),
        fields,
        words.ends_with("await"),
    )
}

// What is set in a command.
#[derive(Clone, Copy)]
enum Setting {
    All,
    Snapshot,
}

fn set_snapshot(alloc: Global, command: &mut Command) -> Result<(), Fail> {
    given(command.set_snapshot_read_concern(alloc, Some((9, 8))))
}

// What is asked of a command, in functions that are generic over it, so that no other proof holds one.
trait Asked: Sized {
    fn set(&mut self, alloc: Global, setting: Setting) -> Result<(), Fail>;

    // A copy, with memory for so many more bytes where it is asked for.
    fn copy(&self, alloc: Global, room: Option<usize>) -> Result<Self, Fail>;

    // Whether it has these fields, and whether it may be answered more than once exactly where it waits.
    fn has(&self, alloc: Global, fields: &str, waits: bool) -> Result<bool, Fail>;
}

impl Asked for Command {
    fn set(&mut self, alloc: Global, setting: Setting) -> Result<(), Fail> {
        match setting {
            Setting::All => set_all(alloc, self),
            Setting::Snapshot => set_snapshot(alloc, self),
        }
    }

    fn copy(&self, alloc: Global, room: Option<usize>) -> Result<Command, Fail> {
        match room {
            Some(room) => given(self.try_clone_with_room(alloc, room)),
            None => given(self.try_clone(alloc)),
        }
    }

    fn has(&self, alloc: Global, fields: &str, waits: bool) -> Result<bool, Fail> {
        let has_fields = has_fields(alloc, self, fields)?;
        Ok(has_fields && self.exhaust_allowed == waits)
    }
}

fn with<A: Asked + Drop>(
    alloc: Global,
    command: Result<A, Fail>,
    setting: Setting,
) -> Result<A, Fail> {
    let mut command = command?;
    command.set(alloc, setting)?;
    Ok(command)
}

fn copied<A: Asked + Drop>(
    alloc: Global,
    command: Result<A, Fail>,
    room: Option<usize>,
) -> Result<A, Fail> {
    let command = command?;
    command.copy(alloc, room)
}

// Fails where a command that was made so doesn't have these fields.
fn wants_fields<A: Asked + Drop>(
    alloc: Global,
    name: &str,
    command: Result<A, Fail>,
    fields: &str,
) -> Result<(), Fail> {
    let has_fields = is_given(alloc, command, fields, false)?;
    wants(name, has_fields, "other fields")
}

// Whether a command that was made is so.
fn is_given<A: Asked + Drop>(
    alloc: Global,
    command: Result<A, Fail>,
    fields: &str,
    waits: bool,
) -> Result<bool, Fail> {
    let command = command?;
    command.has(alloc, fields, waits)
}

const HELLOS: &str = "true - - => hello=int:1 backpressure=text:2 $db=text:admin
false - - => isMaster=int:1 helloOk=true backpressure=text:2 $db=text:admin
- - - => isMaster=int:1 helloOk=true backpressure=text:2 $db=text:admin
- false - => isMaster=int:1 backpressure=text:2 $db=text:admin
- true - => hello=int:1 backpressure=text:2 $db=text:admin
- false api => hello=int:1 backpressure=text:2 $db=text:admin apiVersion=text:1 apiStrict=true apiDeprecationErrors=false
- true await => hello=int:1 backpressure=text:2 topologyVersion={ processId=id:7 counter=long:9 } maxAwaitTimeMS=long:10000 $db=text:admin";

// Sends the hello of these words, which nothing answers, and gives how that ended.
fn told_of_hello(
    alloc: Global,
    connection: &mut Connection,
    link: &mut MemoryLink,
    words: &str,
) -> Result<Told, Fail> {
    let mut ids = RequestIds::new(0);
    let hello = given(hello(alloc, words))?;
    Ok(send_message(alloc, connection, link, &mut ids, hello))
}

// Whether what was written of the hello of these words has the flag that more than one answer may come, bit 16, exactly where
// it waits.
fn has_flags(written: &[u8], words: &str) -> bool {
    let flags = if words.ends_with("await") {
        b"\0\0\x01\0"
    } else {
        b"\0\0\0\0"
    };
    written.get(16..20) == Some(flags)
}

// Whether the hello of these words is written so over a connection.
fn is_written(alloc: Global, connection: &mut Connection, words: &str) -> Result<bool, Fail> {
    let mut link = MemoryLink::new(alloc, Bytes::new(alloc));
    let told = told_of_hello(alloc, connection, &mut link, words)?;
    Ok(told == Told::EndOfInput && has_flags(link.written(), words))
}

// Whether the row's hello is written so.
fn is_flagged(alloc: Global, row: &str) -> Result<bool, Fail> {
    let (words, _) = parts(row);
    is_sent(alloc, new_connection(alloc), words)
}

// Whether a connection writes the hello of these words so, where there is one.
trait Sends {
    fn is_sent(&mut self, alloc: Global, words: &str) -> Result<bool, Fail>;
}

impl Sends for Connection {
    fn is_sent(&mut self, alloc: Global, words: &str) -> Result<bool, Fail> {
        is_written(alloc, self, words)
    }
}

fn is_sent<S: Sends + Drop>(
    alloc: Global,
    connection: Result<S, Fail>,
    words: &str,
) -> Result<bool, Fail> {
    let mut connection = connection?;
    connection.is_sent(alloc, words)
}

// Whether the message of the first hello has this document.
fn is_sent_as(alloc: Global, document: &[u8]) -> Result<bool, Fail> {
    let hello = given(hello(alloc, ""))?;
    let message = given(hello.into_message(alloc))?;
    Ok(message.document_payload.as_bytes() == document)
}

// Whether the document of these fields has these bytes.
fn is_spelled(alloc: Global, fields: &str, bytes: &[u8]) -> Result<bool, Fail> {
    Ok(document(alloc, fields)?.as_bytes() == bytes)
}

// A hello has its fields, and is written with its flags.
#[derive(Clone, Copy)]
struct Hellos;

impl RowCheck for Hellos {
    fn check(self, alloc: Global, row: &str) -> Result<(), Fail> {
        wants(row, is_hello(alloc, row)?, "another command")?;
        wants(row, is_flagged(alloc, row)?, "other flags")
    }
}

#[test]
fn a_hello_has_the_name_that_the_server_knows(rt: HostRuntime) -> Result<(), Fail> {
    check_rows(rt.alloc(), Hellos, HELLOS)?;
    assert!(rt; is_sent_as(rt.alloc(), HELLO)?);
    assert!(rt; is_spelled(rt.alloc(), "ping=int:1 $db=text:admin", PING)?);
    Ok(())
}

// The document of a field, none and another.
fn document_of_two(alloc: Global) -> Result<RawDocumentBuf, Fail> {
    let fields = [
        Some(("ping", RawValue::Int32(1))),
        None,
        Some(("$db", RawValue::Str("admin"))),
    ];
    given(document_of(alloc, &fields))
}

/// Fields are written in their order, and one that is none adds nothing.
#[test]
fn fields_that_are_there_are_written(rt: HostRuntime) -> Result<(), Fail> {
    assert_eq!(rt; document_of_two(rt.alloc())?.as_bytes(), PING);
    Ok(())
}
