use super::notation::{document, document_behind};
use super::rows::{RowCheck, check_rows, parts, wants_piece, wants_whole};
use super::{Answered, hello_reply, printed};
use mongo_bson::{RawDocument, RawValue};
use mongo_command::{Fields, HelloReply};
use std::alloc::{AllocError, Global};
use std::test::Fail;

// What the reply of these fields says as the reply to a hello, as it is printed.
fn told(alloc: Global, fields: &str) -> Result<String, Fail> {
    printed(alloc, hello_reply(alloc, document(alloc, fields)?))
}

// What is asked of a reply.
#[derive(Clone, Copy)]
enum Asked {
    // What it says holds a piece: a row has the piece behind the reply's fields and an arrow.
    Told,
    // The same of a row of fields beside the required ones.
    ToldBeside,
    // It is refused where it has these fields beside the required ones.
    RefusedBeside,
    // The field of a row takes the values that the row has, and refuses each other one.
    Kinds,
    // A code makes a command error beside `ok` of this value.
    Coded,
    // `ok` of this value alone is no hello.
    Bare,
}

impl RowCheck for Asked {
    fn check(self, alloc: Global, row: &str) -> Result<(), Fail> {
        match self {
            Asked::Told => is_told(alloc, row),
            Asked::ToldBeside => is_told_beside(alloc, row),
            Asked::RefusedBeside => is_no_hello_beside(alloc, row),
            Asked::Kinds => check_rows(alloc, KindOf { row }, VALUES),
            Asked::Coded => is_coded(alloc, row),
            Asked::Bare => is_bare(alloc, row),
        }
    }
}

fn is_told(alloc: Global, row: &str) -> Result<(), Fail> {
    let (fields, piece) = parts(row);
    wants_piece(row, piece, told(alloc, fields)?)
}

// What is said of a reply that is refused as no hello.
const NO_HELLO: &str = "Err(Error { kind: InvalidResponse(Hello) })";

fn is_no_hello(alloc: Global, fields: &str) -> Result<(), Fail> {
    wants_whole(fields, NO_HELLO, told(alloc, fields)?)
}

// The fields that a successful hello has to have, `ok: 1.0` and two sizes.
const REQUIRED: &str =
    "ok=double:3ff0000000000000 maxBsonObjectSize=int:16777216 maxMessageSizeBytes=int:48000000";

// What such a hello says, with the bytes of its document by BSON 1.1.
const TOLD: &str =
    r#"Ok(HelloReply { server_address: Unix { path: Text { text: "/server.sock" } }, command_response: HelloCommandResponse { is_writable_primary: None, is_master: None, hello_ok: None, hosts: None, passives: None, arbiters: None, msg: None, me: None, compressors: None, set_version: None, set_name: None, hidden: None, secondary: None, arbiter_only: None, is_replica_set: None, logical_session_timeout_minutes: None, last_write: None, min_wire_version: None, max_wire_version: None, tags: None, election_id: None, primary: None, sasl_supported_mechs: None, speculative_authenticate: None, max_bson_object_size: 16777216, max_message_size_bytes: 48000000, max_write_batch_size: None, service_id: None, topology_version: None, connection_id: None }, raw_command_response: RawDocumentBuf { held: [65, 0, 0, 0, 1, 111, 107, 0, 0, 0, 0, 0, 0, 0, 240, 63, 16, 109, 97, 120, 66, 115, 111, 110, 79, 98, 106, 101, 99, 116, 83, 105, 122, 101, 0, 0, 0, 0, 1, 16, 109, 97, 120, 77, 101, 115, 115, 97, 103, 101, 83, 105, 122, 101, 66, 121, 116, 101, 115, 0, 0, 108, 220, 2, 0] }, cluster_time: None })"#;

// A row for each field, and for the forms that it may have.
const FIELDS: &str = r#"isWritablePrimary=true => is_writable_primary: Some(true)
ismaster=false => is_master: Some(false)
helloOk=true => hello_ok: Some(true)
hidden=false => hidden: Some(false)
secondary=true => secondary: Some(true)
arbiterOnly=false => arbiter_only: Some(false)
isreplicaset=true => is_replica_set: Some(true)
msg=text:isdbgrid => , msg: Some(Text { text: "isdbgrid" })
me=text:a:1 => , me: Some(Text { text: "a:1" })
setName=text:set => set_name: Some(Text { text: "set" })
primary=text: => , primary: Some(Text { text: "" })
setVersion=long:-2 => set_version: Some(-2)
minWireVersion=int:6 => min_wire_version: Some(6)
maxWireVersion=int:25 => max_wire_version: Some(25)
logicalSessionTimeoutMinutes=int:30 => logical_session_timeout_minutes: Some(30)
maxWriteBatchSize=int:-7 => max_write_batch_size: Some(-7)
connectionId=long:9000000000 => connection_id: Some(9000000000)
electionId=id:1 => election_id: Some(ObjectId([1, 1, 1, 1, 1, 1, 1, 1, 1, 1, 1, 1]))
serviceId=id:2 => service_id: Some(ObjectId([2, 2, 2, 2, 2, 2, 2, 2, 2, 2, 2, 2]))
hosts=[ ] => hosts: Some(Items { held: [] })
hosts=[ 0=text:a:1 ] => hosts: Some(Items { held: [Text { text: "a:1" }] })
hosts=[ 0=text:b:2 1=text: 2=text:a:1 ] => hosts: Some(Items { held: [Text { text: "b:2" }, Text { text: "" }, Text { text: "a:1" }] })
passives=[ 0=text:b:2 1=text:a:1 ] => passives: Some(Items { held: [Text { text: "b:2" }, Text { text: "a:1" }] })
arbiters=[ 0=text:b:2 1=text:a:1 ] => arbiters: Some(Items { held: [Text { text: "b:2" }, Text { text: "a:1" }] })
compression=[ 0=text:zstd ] => compressors: Some(Items { held: [Text { text: "zstd" }] })
saslSupportedMechs=[ 0=text:SCRAM-SHA-256 1=text:SCRAM-SHA-1 ] => sasl_supported_mechs: Some(Items { held: [Text { text: "SCRAM-SHA-256" }, Text { text: "SCRAM-SHA-1" }] })
tags={ dc=text:east =text: dc=text:west } => tags: Some(Items { held: [MemberTag { key: Text { text: "dc" }, value: Text { text: "east" } }, MemberTag { key: Text { text: "" }, value: Text { text: "" } }, MemberTag { key: Text { text: "dc" }, value: Text { text: "west" } }] })
speculativeAuthenticate={ done=false } => speculative_authenticate: Some(RawDocumentBuf { held: [12, 0, 0, 0, 8, 100, 111, 110, 101, 0, 0, 0] })
$clusterTime={ done=false } => , cluster_time: Some(RawDocumentBuf { held: [12, 0, 0, 0, 8, 100, 111, 110, 101, 0, 0, 0] }) })
lastWrite={ lastWriteDate=date:5 } => last_write: Some(LastWrite { last_write_date: 5 })
lastWrite={ x=null lastWriteDate=date:5 lastWriteDate=null } => last_write: Some(LastWrite { last_write_date: 5 })
topologyVersion={ processId=id:7 counter=long:9 } => topology_version: Some(TopologyVersion { process_id: ObjectId([7, 7, 7, 7, 7, 7, 7, 7, 7, 7, 7, 7]), counter: 9 })
topologyVersion={ counter=long:9 processId=id:7 counter=null processId=null } => topology_version: Some(TopologyVersion { process_id: ObjectId([7, 7, 7, 7, 7, 7, 7, 7, 7, 7, 7, 7]), counter: 9 })
setVersion=long:2147483647 => set_version: Some(2147483647)
setVersion=long:-2147483648 => set_version: Some(-2147483648)
minWireVersion=long:2147483647 => min_wire_version: Some(2147483647)
minWireVersion=long:-2147483648 => min_wire_version: Some(-2147483648)
maxWireVersion=long:2147483647 => max_wire_version: Some(2147483647)
maxWireVersion=long:-2147483648 => max_wire_version: Some(-2147483648)
code=int:18 => Ok(
code=int:18 helloOk=int:1 => Err(Error { kind: Command(CommandError { code: 18,"#;

fn is_told_beside(alloc: Global, row: &str) -> Result<(), Fail> {
    let whole = format!(in alloc; "{REQUIRED} {row}")?;
    is_told(alloc, whole.as_str())
}

#[test]
fn each_field_of_a_hello_is_read(rt: HostRuntime) -> Result<(), Fail> {
    wants_whole(REQUIRED, TOLD, told(rt.alloc(), REQUIRED)?)?;
    check_rows(rt.alloc(), Asked::ToldBeside, FIELDS)
}

// Fields that aren't what a hello has, each of which takes a reply that has all else.
const REFUSED: &str = "ok=int:1
$clusterTime=int:1 helloOk=true helloOk=true
hosts=[ 0=text:a:1 1=null ]
passives=[ 0=text:a:1 1=null ]
arbiters=[ 0=text:a:1 1=null ]
compression=[ 0=text:a:1 1=null ]
saslSupportedMechs=[ 0=text:a:1 1=null ]
tags={ dc=text:east n=int:1 }
lastWrite={ lastWriteDate=null lastWriteDate=date:5 }
lastWrite={ lastWriteDate=int:5 }
lastWrite={ opTime=date:5 }
topologyVersion={ processId=id:7 }
topologyVersion={ counter=long:9 }
topologyVersion={ processId=id:7 counter=null }
setVersion=long:2147483648
setVersion=long:-2147483649
minWireVersion=long:2147483648
minWireVersion=long:-2147483649
maxWireVersion=long:2147483648
maxWireVersion=long:-2147483649
logicalSessionTimeoutMinutes=int:-1
logicalSessionTimeoutMinutes=long:-1";

fn is_no_hello_beside(alloc: Global, row: &str) -> Result<(), Fail> {
    let whole = format!(in alloc; "{REQUIRED} {row}")?;
    is_no_hello(alloc, whole.as_str())
}

#[test]
fn other_fields_are_refused(rt: HostRuntime) -> Result<(), Fail> {
    check_rows(rt.alloc(), Asked::RefusedBeside, REFUSED)
}

// A value of each kind of BSON that has a meaning here, and of some that have none.
const VALUES: &str = "double:3ff0000000000000
text:text
{
[
binary:1
id:1
true
date:1
null
int:1
long:1
timestamp:1
undefined";

// Each field and the values that it takes. An empty document holds neither a date nor a topology version.
const TAKEN: &str = "isWritablePrimary true null
ismaster true null
helloOk true null
hosts [ null
passives [ null
arbiters [ null
msg text:text null
me text:text null
compression [ null
setVersion int:1 long:1 null
setName text:text null
hidden true null
secondary true null
arbiterOnly true null
isreplicaset true null
logicalSessionTimeoutMinutes int:1 long:1 null
lastWrite null
minWireVersion int:1 long:1 null
maxWireVersion int:1 long:1 null
tags { null
electionId id:1 null
primary text:text null
saslSupportedMechs [ null
speculativeAuthenticate { null
maxWriteBatchSize int:1 long:1 null
serviceId id:1 null
topologyVersion null
connectionId int:1 long:1 null
$clusterTime { null
maxBsonObjectSize int:1 long:1
maxMessageSizeBytes int:1 long:1
ok double:3ff0000000000000 int:1 long:1";

// What ends a value that this word begins.
fn end_of(value: &str) -> &'static str {
    match value {
        "{" => "}",
        "[" => "]",
        _ => "",
    }
}

// The required fields but the one under this key, each behind a blank.
fn required_but(alloc: Global, key: &str) -> Result<String, Fail> {
    let mut fields = String::new(alloc);
    for field in REQUIRED.split_whitespace() {
        if !field.starts_with(key) {
            push_field(&mut fields, field)?;
        }
    }
    Ok(fields)
}

fn push_field(fields: &mut String, field: &str) -> Result<(), AllocError> {
    fields.push_str(" ")?;
    fields.push_str(field)
}

// What a reply says with this value under this key, and with those of the required fields that have another.
fn told_with(alloc: Global, key: &str, value: &str) -> Result<String, Fail> {
    let fields = required_but(alloc, key)?;
    let end = end_of(value);
    let whole = format!(in alloc; "{fields} {key}={value} {end}")?;
    told(alloc, whole.as_str())
}

fn has_word(words: &str, wanted: &str) -> bool {
    for word in words.split_whitespace() {
        if word == wanted {
            return true;
        }
    }
    false
}

// A field takes a value where its row has it, and else refuses it.
#[derive(Clone, Copy)]
struct KindOf<'a> {
    row: &'a str,
}

impl RowCheck for KindOf<'_> {
    fn check(self, alloc: Global, value: &str) -> Result<(), Fail> {
        takes_its_kind(alloc, self.row, value)
    }
}

fn takes_its_kind(alloc: Global, row: &str, value: &str) -> Result<(), Fail> {
    let (key, taken) = row.split_once(' ').unwrap_or((row, ""));
    let told = told_with(alloc, key, value)?;
    let is_taken = told.as_str() != NO_HELLO;
    if is_taken == has_word(taken, value) {
        Ok(())
    } else {
        Err(Fail::new(format_args!("{row}: {value}: told {told}")))
    }
}

#[test]
fn each_field_takes_its_kinds(rt: HostRuntime) -> Result<(), Fail> {
    check_rows(rt.alloc(), Asked::Kinds, TAKEN)
}

// Replies that have no success, and what they say. `ok` is 1 where it is 1 + 2^-52, and it is neither 0.5 nor 2.
const OTHERS: &str =
    r#"ok=double:0 errmsg=text:Failed. code=int:18 codeName=text:AuthenticationFailed errorLabels=[ 0=text:Transient 1=text:Network ] => Err(Error { kind: Command(CommandError { code: 18, code_name: Text { text: "AuthenticationFailed" }, message: Text { text: "Failed." }, labels: Items { held: [Text { text: "Transient" }, Text { text: "Network" }] } }) })
ok=double:0 code=long:-5 => Err(Error { kind: Command(CommandError { code: -5, code_name: Text { text: "" }, message: Text { text: "" }, labels: Items { held: [] } }) })
ok=double:0 code=int:18 errorLabels=null => Err(Error { kind: Command(CommandError { code: 18, code_name: Text { text: "" }, message: Text { text: "" }, labels: Items { held: [] } }) })
code=int:18 => InvalidResponse(Hello)
ok=double:0 => InvalidResponse(Hello)
ok=double:0 code=null => InvalidResponse(Hello)
ok=double:0 code=double:4032000000000000 => InvalidResponse(Hello)
ok=double:0 code=long:2147483648 => InvalidResponse(Hello)
ok=double:0 code=int:18 errmsg=null => InvalidResponse(Hello)
ok=double:0 code=int:18 codeName=null => InvalidResponse(Hello)
ok=double:0 code=int:18 errmsg=int:1 => InvalidResponse(Hello)
ok=double:0 code=int:18 errorLabels=int:1 => InvalidResponse(Hello)
ok=double:0 code=int:18 x=int:1 x=int:1 => InvalidResponse(Hello)
maxBsonObjectSize=int:5 maxMessageSizeBytes=int:5 => InvalidResponse(Hello)
ok=int:1 maxMessageSizeBytes=int:5 => InvalidResponse(Hello)
ok=int:1 maxBsonObjectSize=int:5 => InvalidResponse(Hello)
ok=int:2 maxBsonObjectSize=int:5 maxMessageSizeBytes=int:5 => InvalidResponse(Hello)
ok=long:0 maxBsonObjectSize=int:5 maxMessageSizeBytes=int:5 => InvalidResponse(Hello)
ok=double:3fe0000000000000 maxBsonObjectSize=int:5 maxMessageSizeBytes=int:5 => InvalidResponse(Hello)
ok=double:3ff0000000000001 maxBsonObjectSize=int:5 maxMessageSizeBytes=int:5 => Ok("#;

fn is_coded(alloc: Global, ok: &str) -> Result<(), Fail> {
    let end = end_of(ok);
    let row = format!(in alloc; "ok={ok} {end} code=int:18 => Command(CommandError {{ code: 18,")?;
    is_told(alloc, row.as_str())
}

fn is_bare(alloc: Global, ok: &str) -> Result<(), Fail> {
    let end = end_of(ok);
    let fields = format!(in alloc; "ok={ok} {end}")?;
    is_no_hello(alloc, fields.as_str())
}

#[test]
fn other_replies_are_command_errors_or_no_hellos(rt: HostRuntime) -> Result<(), Fail> {
    check_rows(rt.alloc(), Asked::Told, OTHERS)?;
    // `ok` of any kind makes a command error
    check_rows(rt.alloc(), Asked::Coded, VALUES)?;
    check_rows(rt.alloc(), Asked::Bare, VALUES)
}

// Each element of a key of six digits and a text of this length takes 161 bytes, so that 300,000 make 48 MB.
const FILLER: &str =
    "0123456789012345678901234567890123456789012345678901234567890123456789012345678901234567890123456789012345678901234567890123456789012345678901234567";

// What is asked of a hello: the greatest frame that it says.
trait Framed {
    fn greatest(&self) -> i32;
}

impl Framed for HelloReply {
    fn greatest(&self) -> i32 {
        self.command_response.max_message_size_bytes
    }
}

// The greatest frame that a hello says, or none where it is refused.
fn greatest_frame<F: Framed + Drop, E: Drop>(answer: Result<F, E>) -> Option<i32> {
    let hello = Answered { answer };
    match &hello.answer {
        Ok(reply) => Some(reply.greatest()),
        Err(_) => None,
    }
}

#[test]
fn a_reply_of_many_unknown_keys_is_answered_in_time(rt: HostRuntime) -> Result<(), Fail> {
    let document = document_behind(rt.alloc(), 100_000..400_000, FILLER, REQUIRED)?;
    assert!(rt; document.as_bytes().len() > 48_000_000);
    let frame = greatest_frame(hello_reply(rt.alloc(), document));
    assert_eq!(rt; frame, Some(48_000_000));
    Ok(())
}

// Whether the fields of a document have these values under these keys.
fn has_values(
    alloc: Global,
    document: RawDocument<'_>,
    wanted: &[(&str, Option<RawValue<'_>>)],
) -> bool {
    let Ok(fields) = Fields::of(alloc, document) else {
        return false;
    };
    for (key, value) in wanted {
        if fields.value(key) != *value {
            return false;
        }
    }
    true
}

// Of 600,001 elements, more than entries are kept of.
#[test]
fn a_document_of_many_elements_is_read_by_its_keys(rt: HostRuntime) -> Result<(), Fail> {
    let document = document_behind(rt.alloc(), 100_000..700_000, "x", "ok=true")?;
    let text = Some(RawValue::Str("x"));
    assert!(rt;
        has_values(
            rt.alloc(),
            document.borrow(),
            &[
                ("100000", text),
                ("699999", text),
                ("ok", Some(RawValue::Bool(true))),
                ("700000", None),
            ]
        )
    );
    Ok(())
}
