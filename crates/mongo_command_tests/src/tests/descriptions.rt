use super::notation::document;
use super::rows::{RowCheck, check_rows, parts, wants_piece};
use super::{Answered, given, hello_reply, response, text_of};
use mongo_bson::{Bytes, RawDocumentBuf, Text};
use mongo_command::{
    HelloCommandResponse, HelloReply, MemberTag, RawCommandResponse, ServerAddress,
    StreamDescription, Tags,
};
use mongo_wire::{Error, MemoryLink, Message};
use std::alloc::Global;
use std::fmt::Debug;
use std::test::Fail;

// The description that a hello gives.
fn described(alloc: Global, hello: &HelloReply) -> Result<StreamDescription, Error> {
    StreamDescription::from_hello_reply(alloc, hello)
}

// A description and whether its server takes a write again, as they are printed.
fn described_as(alloc: Global, description: &StreamDescription) -> Result<String, Fail> {
    let retries = description.supports_retryable_writes();
    Ok(format!(in alloc; "{description:?}, retries: {retries}")?)
}

// What is asked of the value that a call gives: what it tells, whether it is copied, and what is told where it is refused.
trait Asked {
    fn told(&self, alloc: Global) -> Result<String, Fail>;

    fn is_copied(&self, alloc: Global) -> Result<bool, Fail>;

    fn refused<E: Debug>(alloc: Global, error: &E) -> Result<String, Fail>;
}

impl Asked for StreamDescription {
    fn told(&self, alloc: Global) -> Result<String, Fail> {
        described_as(alloc, self)
    }

    fn is_copied(&self, alloc: Global) -> Result<bool, Fail> {
        is_copy(alloc, self, self.try_clone(alloc))
    }

    fn refused<E: Debug>(alloc: Global, error: &E) -> Result<String, Fail> {
        text_of(alloc, error)
    }
}

// A hello is asked for the description that it gives.
impl Asked for HelloReply {
    fn told(&self, alloc: Global) -> Result<String, Fail> {
        told(alloc, described(alloc, self))
    }

    fn is_copied(&self, alloc: Global) -> Result<bool, Fail> {
        is_copied_whole(alloc, self)
    }

    fn refused<E: Debug>(_: Global, _: &E) -> Result<String, Fail> {
        Err(Fail::new("no hello"))
    }
}

fn told<A: Asked + Drop, E: Debug + Drop>(
    alloc: Global,
    answer: Result<A, E>,
) -> Result<String, Fail> {
    let call = Answered { answer };
    match &call.answer {
        Ok(given) => given.told(alloc),
        Err(error) => A::refused(alloc, error),
    }
}

// Whether there is a value, which is copied.
fn is_copied<A: Asked + Drop, E: Drop>(alloc: Global, answer: Result<A, E>) -> Result<bool, Fail> {
    let call = Answered { answer };
    match &call.answer {
        Ok(given) => given.is_copied(alloc),
        Err(_) => Ok(false),
    }
}

// The document of a successful hello of these fields and the two sizes that it has to have.
fn hello_document(alloc: Global, fields: &str) -> Result<RawDocumentBuf, Fail> {
    let whole = format!(in alloc;
        "ok=int:1 maxBsonObjectSize=int:16777216 maxMessageSizeBytes=int:48000000 {fields}"
    )?;
    document(alloc, whole.as_str())
}

// What the description of a server says by the hello of these fields.
fn told_of(alloc: Global, fields: &str) -> Result<String, Fail> {
    told(alloc, hello_reply(alloc, hello_document(alloc, fields)?))
}

// The description holds a piece: a row has the piece behind the hello's fields and an arrow.
#[derive(Clone, Copy)]
struct Describes;

impl RowCheck for Describes {
    fn check(self, alloc: Global, row: &str) -> Result<(), Fail> {
        let (fields, piece) = parts(row);
        wants_piece(row, piece, told_of(alloc, fields)?)
    }
}

const DESCRIPTIONS: &str =
    r#" => StreamDescription { server_address: Unix { path: Text { text: "/server.sock" } }, initial_server_type: Standalone, max_wire_version: None, min_wire_version: None, sasl_supported_mechs: None, logical_session_timeout: None, max_bson_object_size: 16777216, max_write_batch_size: 100000, hello_ok: false, max_message_size_bytes: 48000000, service_id: None }, retries: false
helloOk=true minWireVersion=int:1 maxWireVersion=int:25 maxWriteBatchSize=int:7 serviceId=id:2 => max_wire_version: Some(25), min_wire_version: Some(1), sasl_supported_mechs: None, logical_session_timeout: None, max_bson_object_size: 16777216, max_write_batch_size: 7, hello_ok: true, max_message_size_bytes: 48000000, service_id: Some(ObjectId([2,
saslSupportedMechs=[ 0=text:PLAIN ] => sasl_supported_mechs: Some(Items { held: [Text { text: "PLAIN" }] })
msg=text:other => initial_server_type: Standalone
isWritablePrimary=true => initial_server_type: Standalone
msg=text:isdbgrid => initial_server_type: Mongos
setName=text:set msg=text:isdbgrid => initial_server_type: Mongos
setName=text:set isWritablePrimary=true => initial_server_type: RsPrimary
setName=text:set ismaster=true => initial_server_type: RsPrimary
setName=text:set isWritablePrimary=false secondary=true => initial_server_type: RsSecondary
setName=text:set arbiterOnly=true => initial_server_type: RsArbiter
setName=text:set hidden=true secondary=true => initial_server_type: RsOther
setName=text:set => initial_server_type: RsOther
isreplicaset=true => initial_server_type: RsGhost
isreplicaset=false => initial_server_type: Standalone
logicalSessionTimeoutMinutes=long:0 => logical_session_timeout: Some(0)
logicalSessionTimeoutMinutes=long:30 => logical_session_timeout: Some(1800)
logicalSessionTimeoutMinutes=long:307445734561825860 => logical_session_timeout: Some(18446744073709551600)
logicalSessionTimeoutMinutes=long:307445734561825861 => Error { kind: InvalidResponse(SessionTimeout) }
msg=text:isdbgrid logicalSessionTimeoutMinutes=int:30 maxWireVersion=int:6 => retries: true
msg=text:isdbgrid logicalSessionTimeoutMinutes=int:30 maxWireVersion=int:5 => retries: false
msg=text:isdbgrid logicalSessionTimeoutMinutes=int:30 => retries: false
msg=text:isdbgrid maxWireVersion=int:6 => retries: false
logicalSessionTimeoutMinutes=int:30 maxWireVersion=int:6 => retries: false"#;

#[test]
fn a_server_is_described_by_its_hello(rt: HostRuntime) -> Result<(), Fail> {
    check_rows(rt.alloc(), Describes, DESCRIPTIONS)
}

// A server's address by its host and port.
fn tcp(alloc: Global, host: &str, port: Option<u16>) -> Result<ServerAddress, Fail> {
    Ok(ServerAddress::Tcp {
        host: Text::from_slice(alloc, host)?,
        port,
    })
}

// Whether the host `host` without a port has this address.
fn has_address(alloc: Global, address: &ServerAddress) -> Result<bool, Fail> {
    Ok(tcp(alloc, "host", None)? == *address)
}

fn is_at(alloc: Global, host: &str, port: Option<u16>) -> Result<bool, Fail> {
    let address = tcp(alloc, host, port)?;
    has_address(alloc, &address)
}

// Whether it has another address than the socket of its name.
fn is_no_path(alloc: Global) -> Result<bool, Fail> {
    let path = Text::from_slice(alloc, "host")?;
    differs(alloc, &ServerAddress::Unix { path })
}

fn differs(alloc: Global, address: &ServerAddress) -> Result<bool, Fail> {
    Ok(tcp(alloc, "host", None)? != *address)
}

#[test]
fn an_absent_port_is_the_default_one(rt: HostRuntime) -> Result<(), Fail> {
    assert!(rt; is_at(rt.alloc(), "host", Some(27017))?);
    assert!(rt; !is_at(rt.alloc(), "host", Some(27018))?);
    assert!(rt; !is_at(rt.alloc(), "other", None)?);
    assert!(rt; is_no_path(rt.alloc())?);
    Ok(())
}

// Whether two values are printed alike.
fn is_alike<T: Debug>(alloc: Global, one: &T, other: &T) -> Result<bool, Fail> {
    let text = format!(in alloc; "{one:?}")?;
    Ok(format!(in alloc; "{other:?}")?.as_str() == text.as_str())
}

// Whether there is a copy of a value, which is printed as the value is.
fn is_copy<T: Debug + Drop, E: Drop>(
    alloc: Global,
    value: &T,
    answer: Result<T, E>,
) -> Result<bool, Fail> {
    let copied = Answered { answer };
    match &copied.answer {
        Ok(copy) => is_alike(alloc, value, copy),
        Err(_) => Ok(false),
    }
}

fn is_hello_copied(alloc: Global, hello: &HelloReply) -> Result<bool, Fail> {
    is_copy(alloc, hello, hello.try_clone(alloc))
}

fn are_fields_copied(alloc: Global, fields: &HelloCommandResponse) -> Result<bool, Fail> {
    is_copy(alloc, fields, fields.try_clone(alloc))
}

fn is_address_copied(alloc: Global, address: &ServerAddress) -> Result<bool, Fail> {
    is_copy(alloc, address, address.try_clone(alloc))
}

fn is_tag_copied(alloc: Global, tag: &MemberTag) -> Result<bool, Fail> {
    is_copy(alloc, tag, tag.try_clone(alloc))
}

// Whether there is a first tag, which is copied.
fn is_first_copied(alloc: Global, tags: &Option<Tags>) -> Result<bool, Fail> {
    match tags {
        Some(tags) => match tags.get(0) {
            Some(tag) => is_tag_copied(alloc, tag),
            None => Ok(false),
        },
        None => Ok(false),
    }
}

// Whether a hello is copied, and each of its parts, and the description that it gives.
fn is_copied_whole(alloc: Global, hello: &HelloReply) -> Result<bool, Fail> {
    let fields = &hello.command_response;
    Ok(
        is_hello_copied(alloc, hello)?
            && are_fields_copied(alloc, fields)?
            && is_address_copied(alloc, &hello.server_address)?
            && is_first_copied(alloc, &fields.tags)?
            && is_copied(alloc, described(alloc, hello))?,
    )
}

#[test]
fn a_hello_is_copied(rt: HostRuntime) -> Result<(), Fail> {
    let fields =
        "hosts=[ 0=text:a:1 ] msg=text:m tags={ dc=text:east } saslSupportedMechs=[ 0=text:PLAIN ] serviceId=id:2 $clusterTime={ }";
    let document = hello_document(rt.alloc(), fields)?;
    assert!(rt; is_copied(rt.alloc(), hello_reply(rt.alloc(), document))?);
    Ok(())
}

// Whether a copy of a reply has its document and its address.
fn is_reply_copied(alloc: Global, reply: &RawCommandResponse) -> Result<bool, Fail> {
    let copy = reply.try_clone(alloc)?;
    Ok(copy.as_bytes() == reply.as_bytes() && copy.source_address() == reply.source_address())
}

// Whether the reply of these fields is copied.
fn is_copied_of(alloc: Global, fields: &str) -> Result<bool, Fail> {
    let reply = response(alloc, document(alloc, fields)?)?;
    is_reply_copied(alloc, &reply)
}

/// A copy of a reply has the bytes of its document and its address.
#[test]
fn a_reply_is_copied(rt: HostRuntime) -> Result<(), Fail> {
    assert!(rt; is_copied_of(rt.alloc(), "ok=int:1")?);
    Ok(())
}

// A frame of the document `{ok: 1}`, laid out by the OP_MSG specification and BSON 1.1.
const FRAME: &[u8] =
    b"\x22\0\0\0\x01\0\0\0\0\0\0\0\xdd\x07\0\0\0\0\0\0\0\x0d\0\0\0\x10ok\0\x01\0\0\0\0";

// The reply that its message is, from the socket `/s`.
fn reply_by_message(alloc: Global) -> Result<RawCommandResponse, Fail> {
    let path = Text::from_slice(alloc, "/s")?;
    let mut link = MemoryLink::new(alloc, Bytes::from_slice(alloc, FRAME)?);
    let message = given(Message::read_from(alloc, &mut link, None))?;
    Ok(RawCommandResponse::new(ServerAddress::Unix { path }, message))
}

fn is_from_socket(reply: &RawCommandResponse) -> bool {
    match reply.source_address() {
        ServerAddress::Unix { path } => path.as_str() == "/s",
        ServerAddress::Tcp { .. } => false,
    }
}

/// A message that came is a reply of its body, which the reply gives back.
#[test]
fn a_message_is_a_reply_of_its_body(rt: HostRuntime) -> Result<(), Fail> {
    let reply = reply_by_message(rt.alloc())?;
    assert!(rt; is_from_socket(&reply));
    assert!(rt; reply.into_raw_document_buf().as_bytes() == &FRAME[21..]);
    Ok(())
}
