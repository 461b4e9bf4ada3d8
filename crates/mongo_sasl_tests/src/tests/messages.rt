use super::{Answered, bytes, is_fault};
use mongo_bson::{BsonFault, OwnedValue, RawDocument, RawDocumentBuf, RawValue, Text};
use mongo_command::{
    Command, ServerApi, ServerApiVersion, boolean_field, document_of, int64_field,
};
use mongo_sasl::x509::build_client_first;
use mongo_sasl::{AuthMechanism, Credential, SaslContinue, SaslResponse, SaslStart, SaslView};
use mongo_wire::Error;
use std::alloc::Global;

// A reply's document, by BSON 1.1, and the fault that its readers answer, or the server's text; "none" where it is read.
fn reply_at(place: u8) -> (&'static [u8], &'static str) {
    match place {
        // one without `ok`
        0 => (
            b"1\0\0\0\x10conversationId\0\x01\0\0\0\x08done\0\x01\x05payload\0\x03\0\0\0\0v=x\0",
            "none",
        ),
        // in another order
        1 => (
            b"=\0\0\0\x01ok\0\0\0\0\0\0\0\xf0?\x05payload\0\x03\0\0\0\0v=x\x08done\0\x01\x10conversationId\0\x01\0\0\0\0",
            "none",
        ),
        // the int32 1, and a text that says nothing
        2 => (
            b"J\0\0\0\x10ok\0\x01\0\0\0\x10conversationId\0\x01\0\0\0\x08done\0\x01\x05payload\0\x03\0\0\0\0v=x\x02errmsg\0\x05\0\0\0busy\0\0",
            "none",
        ),
        // the int64 1, and an id without a value
        3 => (
            b"9\0\0\0\x12ok\0\x01\0\0\0\0\0\0\0\x0aconversationId\0\x08done\0\x01\x05payload\0\x03\0\0\0\0v=x\0",
            "none",
        ),
        // failures: the int32 0, the double 2.0, the int64 -1
        4 => (
            b"J\0\0\0\x10ok\0\0\0\0\0\x02errmsg\0\x05\0\0\0busy\0\x10conversationId\0\x01\0\0\0\x08done\0\x01\x05payload\0\x03\0\0\0\0v=x\0",
            "busy",
        ),
        5 => (
            b"\"\0\0\0\x01ok\0\0\0\0\0\0\0\0@\x02errmsg\0\x05\0\0\0busy\0\0",
            "busy",
        ),
        6 => (
            b"$\0\0\0\x12ok\0\xff\xff\xff\xff\xff\xff\xff\xff\x02errmsg\0\x01\0\0\0\0\x0adone\0\0",
            "",
        ),
        // one that says no text, and one whose text is a number
        7 => (
            b"=\0\0\0\x01ok\0\0\0\0\0\0\0\0@\x10conversationId\0\x01\0\0\0\x08done\0\x01\x05payload\0\x03\0\0\0\0v=x\0",
            "Authentication failure",
        ),
        8 => (
            b"1\0\0\0\x01ok\0\0\0\0\0\0\0\0@\x10errmsg\0\x01\0\0\0\x10conversationId\0\x01\0\0\0\0",
            "Authentication failure",
        ),
        // a key twice, before a failure
        9 => (
            b"b\0\0\0\x01ok\0\0\0\0\0\0\0\0@\x02errmsg\0\x05\0\0\0busy\0\x10conversationId\0\x01\0\0\0\x10conversationId\0\x01\0\0\0\x08done\0\x01\x05payload\0\x03\0\0\0\0v=x\0",
            "Malformed",
        ),
        // the double 1.5, a truth value, and no value
        10 => (
            b"N\0\0\0\x01ok\0\0\0\0\0\0\0\xf8?\x02errmsg\0\x05\0\0\0busy\0\x10conversationId\0\x01\0\0\0\x08done\0\x01\x05payload\0\x03\0\0\0\0v=x\0",
            "Malformed",
        ),
        11 => (
            b"G\0\0\0\x08ok\0\x01\x02errmsg\0\x05\0\0\0busy\0\x10conversationId\0\x01\0\0\0\x08done\0\x01\x05payload\0\x03\0\0\0\0v=x\0",
            "Malformed",
        ),
        12 => (
            b"5\0\0\0\x0aok\0\x10conversationId\0\x01\0\0\0\x08done\0\x01\x05payload\0\x03\0\0\0\0v=x\0",
            "Malformed",
        ),
        // no id, no truth value, a number for one, no message, one of another subtype, and a text for one
        13 => (
            b")\0\0\0\x01ok\0\0\0\0\0\0\0\xf0?\x08done\0\x01\x05payload\0\x03\0\0\0\0v=x\0",
            "Malformed",
        ),
        14 => (
            b"6\0\0\0\x01ok\0\0\0\0\0\0\0\xf0?\x10conversationId\0\x01\0\0\0\x05payload\0\x03\0\0\0\0v=x\0",
            "Malformed",
        ),
        15 => (
            b"@\0\0\0\x01ok\0\0\0\0\0\0\0\xf0?\x10conversationId\0\x01\0\0\0\x10done\0\x01\0\0\0\x05payload\0\x03\0\0\0\0v=x\0",
            "Malformed",
        ),
        16 => (
            b",\0\0\0\x01ok\0\0\0\0\0\0\0\xf0?\x10conversationId\0\x01\0\0\0\x08done\0\x01\0",
            "Malformed",
        ),
        17 => (
            b"=\0\0\0\x01ok\0\0\0\0\0\0\0\xf0?\x10conversationId\0\x01\0\0\0\x08done\0\x01\x05payload\0\x03\0\0\0\x05v=x\0",
            "Malformed",
        ),
        18 => (
            b"=\0\0\0\x01ok\0\0\0\0\0\0\0\xf0?\x10conversationId\0\x01\0\0\0\x08done\0\x01\x02payload\0\x04\0\0\0v=x\0\0",
            "Malformed",
        ),
        _ => (b"\x05\0\0\0\0", "Malformed"),
    }
}

// Whether both readers of a reply answer this of a document.
fn is_answered(alloc: Global, document: &[u8], wanted: &str) -> bool {
    match RawDocument::from_bytes(document) {
        Ok(reply) => {
            is_fault(SaslView::parse(alloc, reply), wanted)
                && is_fault(SaslResponse::parse(alloc, reply), wanted)
        }
        Err(_) => false,
    }
}

#[test]
fn replies_are_read_or_refused(rt: HostRuntime) {
    for place in 0..20 {
        let (reply, wanted) = reply_at(place);
        assert!(rt; is_answered(rt.alloc(), reply, wanted), "{place}");
    }
}

// { conversationId: int64 258, done: false, payload: generic binary 01 02 }, by BSON 1.1.
const REPLY: &[u8] =
    b"4\0\0\0\x12conversationId\0\x02\x01\0\0\0\0\0\0\x08done\0\0\x05payload\0\x02\0\0\0\0\x01\x02\0";

const ID: &[u8] = b"\x02\x01\0\0\0\0\0\0";

const MESSAGE: &[u8] = b"\x01\x02";

// Whether that is said: the kind and the bytes of the conversation's id, whether the conversation is done, and the message.
fn is_reply(kind: u8, id: &[u8], done: bool, message: &[u8]) -> bool {
    kind == 0x12 && id == ID && !done && message == MESSAGE
}

// What says what a reply does.
trait SaysReply {
    // Whether it says what the reply above does.
    fn says_it(&self) -> bool;
}

// What can be copied.
trait HasCopy {
    // Whether a copy says what the reply above does.
    fn copy_says_it(&self, alloc: Global) -> bool;
}

impl<'b> SaysReply for SaslView<'b> {
    fn says_it(&self) -> bool {
        is_reply(
            self.conversation_kind,
            self.conversation_bytes,
            self.done,
            self.payload,
        )
    }
}

impl<'b> HasCopy for SaslView<'b> {
    fn copy_says_it(&self, alloc: Global) -> bool {
        is_said(self.to_response(alloc))
    }
}

impl SaysReply for SaslResponse {
    fn says_it(&self) -> bool {
        let id = &self.conversation_id;
        is_reply(
            id.kind,
            id.bytes.as_bytes(),
            self.done,
            self.payload.as_bytes(),
        )
    }
}

impl HasCopy for SaslResponse {
    fn copy_says_it(&self, alloc: Global) -> bool {
        is_said(self.try_clone(alloc))
    }
}

// Whether what a call gives says what the reply above does.
fn is_said<T: SaysReply + Drop, E: Drop>(answer: Result<T, E>) -> bool {
    let answered = Answered { answer };
    match &answered.answer {
        Ok(reply) => reply.says_it(),
        Err(_) => false,
    }
}

// Whether its copy says so too.
fn is_said_twice<T: SaysReply + HasCopy + Drop, E: Drop>(
    alloc: Global,
    answer: Result<T, E>,
) -> bool {
    let answered = Answered { answer };
    match &answered.answer {
        Ok(reply) => reply.says_it() && reply.copy_says_it(alloc),
        Err(_) => false,
    }
}

// Whether both readers of a reply, and their copies, say what the reply above does.
fn is_read(alloc: Global, document: &[u8]) -> bool {
    match RawDocument::from_bytes(document) {
        Ok(reply) => {
            is_said_twice(alloc, SaslView::parse(alloc, reply))
                && is_said_twice(alloc, SaslResponse::parse(alloc, reply))
        }
        Err(_) => false,
    }
}

// Whether the fields of the reply make its document.
fn is_built(alloc: Global) -> bool {
    let fields = [
        int64_field("conversationId", 258),
        boolean_field("done", false),
        Some(("payload", RawValue::Binary(0, MESSAGE))),
    ];
    match document_of(alloc, &fields) {
        Ok(document) => document.as_bytes() == REPLY,
        Err(_) => false,
    }
}

#[test]
fn a_reply_says_its_conversation_and_message(rt: HostRuntime) {
    assert!(rt; is_read(rt.alloc(), REPLY));
    assert!(rt; is_built(rt.alloc()));
}

const API: ServerApi = ServerApi {
    version: ServerApiVersion::V1,
    strict: None,
    deprecation_errors: None,
};

// A copy of a start, and of a step.
fn start(
    alloc: Global,
    source: &str,
    mechanism: AuthMechanism,
    payload: &[u8],
    server_api: Option<ServerApi>,
) -> Result<SaslStart, BsonFault> {
    let source = Text::from_slice(alloc, source)?;
    let payload = bytes(alloc, payload)?;
    SaslStart::new(source, mechanism, payload, server_api).try_clone(alloc)
}

fn step(alloc: Global) -> Result<SaslContinue, BsonFault> {
    let source = Text::from_slice(alloc, "orders")?;
    let payload = bytes(alloc, b"\0u\0p")?;
    let id = OwnedValue {
        kind: 0x12,
        bytes: bytes(alloc, ID)?,
    };
    SaslContinue::new(source, id, payload, Some(API)).try_clone(alloc)
}

// A command of a login.
fn command_at(alloc: Global, place: u8) -> Result<Command, Error> {
    match place {
        0 => start(alloc, "orders", AuthMechanism::ScramSha256, b"n,,", None)?.into_command(alloc),
        1 => start(
            alloc,
            "$external",
            AuthMechanism::Plain,
            b"\0u\0p",
            Some(API),
        )?
        .into_command(alloc),
        2 => step(alloc)?.into_command(alloc),
        _ => build_client_first(alloc, &Credential::new(), None),
    }
}

// What is sent, or the document that it is sent as.
trait IsSent {
    // Whether it has this name, where it has one, and is sent as this document.
    fn is_sent_as(&self, alloc: Global, name: &str, document: &[u8]) -> bool;
}

impl IsSent for Command {
    fn is_sent_as(&self, alloc: Global, name: &str, document: &[u8]) -> bool {
        self.name.as_str() == name && is_sent(alloc, self.to_document(alloc), name, document)
    }
}

impl IsSent for RawDocumentBuf {
    fn is_sent_as(&self, _alloc: Global, _name: &str, document: &[u8]) -> bool {
        self.as_bytes() == document
    }
}

// Whether what a call gives has this name and is sent as this document.
fn is_sent<T: IsSent + Drop, E: Drop>(
    alloc: Global,
    answer: Result<T, E>,
    name: &str,
    document: &[u8],
) -> bool {
    let answered = Answered { answer };
    match &answered.answer {
        Ok(sent) => sent.is_sent_as(alloc, name, document),
        Err(_) => false,
    }
}

fn is_command(alloc: Global, place: u8, name: &str, document: &[u8]) -> bool {
    is_sent(alloc, command_at(alloc, place), name, document)
}

// The name and the document of each: a start by SCRAM, which has no empty exchange; one by PLAIN with the server API; a
// step; and what asks a server to take a certificate that says the name.
fn document_at(place: u8) -> (&'static str, &'static [u8]) {
    match place {
        0 => (
            "saslStart",
            b"t\0\0\0\x10saslStart\0\x01\0\0\0\x02mechanism\0\x0e\0\0\0SCRAM-SHA-256\0\x05payload\0\x03\0\0\0\0n,,\x03options\0\x19\0\0\0\x08skipEmptyExchange\0\x01\0\x02$db\0\x07\0\0\0orders\0\0",
        ),
        1 => (
            "saslStart",
            b"`\0\0\0\x10saslStart\0\x01\0\0\0\x02mechanism\0\x06\0\0\0PLAIN\0\x05payload\0\x04\0\0\0\0\0u\0p\x02$db\0\x0a\0\0\0$external\0\x02apiVersion\0\x02\0\0\0\x31\0\0",
        ),
        2 => (
            "saslContinue",
            b"c\0\0\0\x10saslContinue\0\x01\0\0\0\x12conversationId\0\x02\x01\0\0\0\0\0\0\x05payload\0\x04\0\0\0\0\0u\0p\x02$db\0\x07\0\0\0orders\0\x02apiVersion\0\x02\0\0\0\x31\0\0",
        ),
        _ => (
            "authenticate",
            b"F\0\0\0\x10authenticate\0\x01\0\0\0\x02mechanism\0\x0d\0\0\0MONGODB-X509\0\x02$db\0\x0a\0\0\0$external\0\0",
        ),
    }
}

#[test]
fn commands_of_a_login_are_these_documents(rt: HostRuntime) {
    for place in 0..4 {
        let (name, document) = document_at(place);
        assert!(rt; is_command(rt.alloc(), place, name, document), "{place}");
    }
}
