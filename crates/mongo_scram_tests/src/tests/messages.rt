ghost use Rattle.std.specs.Prelude.{◌≡◌, ◌<◌, ◌≤◌};

use super::{NamesFault, fault_of, given, reply};
use base64::engine::general_purpose::STANDARD;
use mongo_bson::Text;
use mongo_command::{Command, ServerApi, ServerApiVersion};
use mongo_mac::{Sha1Fn, Steps, Tag, hi};
use mongo_scram::{
    ClientFinal, ClientFirst, Keys, ScramVersion, ServerFinal, ServerFirst, nonce_text, saslname,
};
use mongo_wire::Error;
use std::alloc::{AllocError, Global};
use std::marker::Brand;
use std::sync::ledger::{Blank, Ledger};
use std::test::Fail;

/// How the password becomes what Hi takes.
#[derive(Clone, Copy)]
enum Prepared {
    /// As RFC 5802 has it.
    Plain,
    /// As the mechanism of MongoDB has it.
    Mechanism,
}

/// A whole conversation.
#[derive(Clone, Copy)]
struct Authentication<'a> {
    version: ScramVersion,
    prepared: Prepared,
    username: &'a str,
    password: &'a str,
    nonce: &'a str,
    open: &'a str,
    server_first: &'a str,
    close: &'a str,
    verifier: &'a str,
}

// The conversations of RFC 5802, section 5, of RFC 7677, section 3, of SCRAM-SHA-1 in the MongoDB authentication
// specification, and, by Python's hashlib and hmac, one whose user name is escaped and one with a nonce of 32 bytes of 1.
//
// A row has the version, how the password is prepared, the user name, the password and the nonce, and the messages.
const CONVERSATIONS: &str =
    "sha1 plain user pencil fyko+d2lbbFgONRv9qkxdawL n,,n=user,r=fyko+d2lbbFgONRv9qkxdawL r=fyko+d2lbbFgONRv9qkxdawL3rfcNHYJY1ZVvWVs7j,s=QSXCR+Q6sek8bf92,i=4096 c=biws,r=fyko+d2lbbFgONRv9qkxdawL3rfcNHYJY1ZVvWVs7j,p=v0X8v3Bz2T0CJGbJQyF0X+HI4Ts= v=rmF9pqV8S7suAoZWja4dJRkFsKQ=
sha256 mechanism user pencil rOprNGfwEbeRWgbNEkqO n,,n=user,r=rOprNGfwEbeRWgbNEkqO r=rOprNGfwEbeRWgbNEkqO%hvYDpWUa2RaTCAfuxFIlj)hNlF$k0,s=W22ZaJ0SNY7soEsUEjb6gQ==,i=4096 c=biws,r=rOprNGfwEbeRWgbNEkqO%hvYDpWUa2RaTCAfuxFIlj)hNlF$k0,p=dHzbZapWIk4jUhN+Ute9ytag9zjfMHgsqmmiz7AndVQ= v=6rriTRBi23WpRR/wtup+mMhUZUn/dB5nLTJRsjl95G4=
sha1 mechanism user pencil fyko+d2lbbFgONRv9qkxdawL n,,n=user,r=fyko+d2lbbFgONRv9qkxdawL r=fyko+d2lbbFgONRv9qkxdawLHo+Vgk7qvUOKUwuWLIWg4l/9SraGMHEE,s=rQ9ZY3MntBeuP3E1TDVC4w==,i=10000 c=biws,r=fyko+d2lbbFgONRv9qkxdawLHo+Vgk7qvUOKUwuWLIWg4l/9SraGMHEE,p=MC2T8BvbmWRckDw8oWl5IVghwCY= v=UMWeI25JD1yNYZRMpZ4VHvhZ9e0=
sha256 mechanism a=b,c pw nonce n,,n=a=3Db=2Cc,r=nonce r=nonceserver,s=W22ZaJ0SNY7soEsUEjb6gQ==,i=4096 c=biws,r=nonceserver,p=Z1JRkER3nOOZexlGyu4OxqClSWkPose2EwBQOKDKMv8= v=AAmyEJy9Yddx+Mmy5GVpjuTBbLVFkaFfA34muj/pbpQ=
sha1 mechanism user pencil AQEBAQEBAQEBAQEBAQEBAQEBAQEBAQEBAQEBAQEBAQE= n,,n=user,r=AQEBAQEBAQEBAQEBAQEBAQEBAQEBAQEBAQEBAQEBAQE= r=AQEBAQEBAQEBAQEBAQEBAQEBAQEBAQEBAQEBAQEBAQE=srv,s=W22ZaJ0SNY7soEsUEjb6gQ==,i=4096 c=biws,r=AQEBAQEBAQEBAQEBAQEBAQEBAQEBAQEBAQEBAQEBAQE=srv,p=BFzm0muAQtwQOjURMMJFxMR5D7Q= v=aUCtyleaGTvV5HNlYplfkdpArKI=";

// The conversation of these words.
fn authentication_of<'a>(row: &'a str) -> Authentication<'a> {
    let mut words = row.split_whitespace();
    let version = match words.next() {
        Some("sha1") => ScramVersion::Sha1,
        _ => ScramVersion::Sha256,
    };
    let prepared = match words.next() {
        Some("plain") => Prepared::Plain,
        _ => Prepared::Mechanism,
    };
    Authentication {
        version,
        prepared,
        username: words.next().unwrap_or(""),
        password: words.next().unwrap_or(""),
        nonce: words.next().unwrap_or(""),
        open: words.next().unwrap_or(""),
        server_first: words.next().unwrap_or(""),
        close: words.next().unwrap_or(""),
        verifier: words.next().unwrap_or(""),
    }
}

// The server's first message, as a reply carries it.
fn server_first(alloc: Global, ok: i32, done: bool, message: &[u8]) -> Result<ServerFirst, Error> {
    let document = reply(alloc, 1, ok, done, message)?;
    ServerFirst::parse(alloc, document.borrow())
}

// The server's last message, as a reply of the conversation of this number carries it.
fn server_final(alloc: Global, number: i32, message: &[u8]) -> Result<ServerFinal, Error> {
    let document = reply(alloc, number, 1, true, message)?;
    ServerFinal::parse(alloc, document.borrow())
}

// A copy of it, with a copy of what that says.
fn copied_final(alloc: Global, number: i32, message: &[u8]) -> Result<ServerFinal, Error> {
    let last = server_final(alloc, number, message)?;
    with_copied_body(alloc, last.try_clone(alloc)?)
}

fn with_copied_body(alloc: Global, last: ServerFinal) -> Result<ServerFinal, Error> {
    let body = last.body.try_clone(alloc)?;
    Ok(ServerFinal { body, ..last })
}

// What carries a server's first message, the message, and what a client with the nonce `nonce` and the ceiling 10000000 answers it:
// messages with which nothing is wrong, and then those of two faults, of which the one that stands first is named. `~` stands for
// a byte that is no text.
const FIRST_MESSAGES: &str = "ok => r=nonceserver,s=W22ZaJ0SNY7soEsUEjb6gQ==,i=4096 => none
ok => r=nonce,s=,i=+4096,x=more => none
ok => r=nonce,s=,i=10000000 => none
failed => r=nonce,s=,i=x => Refused
ok =>  => Malformed
ok => v= => Malformed
ok => e=no such user => Malformed
ok => r=n~,s=,i=4096 => Malformed
ok => r=nonce,s=W22ZaJ0SNY7soEsUEjb6gQ== => Malformed
ok => n=nonce,s=,i=4096 => Malformed
ok => r=nonce,t=,i=4096 => Malformed
ok => r=nonce,s=W22ZaJ0SNY7soEsUEjb6gR==,i=4096 => Malformed
ok => r=nonce,s=,j=4096 => Malformed
ok => r=nonce,s=*,i=x => Malformed
ok => r=nonce,s=,i= => CountUnreadable
ok => r=nonce,s=,i=4096x => CountUnreadable
ok => r=nonce,s=,i=-4096 => CountUnreadable
ok => r=nonce,s=,i=4294967296 => CountUnreadable
ended => r=other,s=,i=1 => EndedEarly
ok => r=other,s=,i=1 => Nonce
ok => r=nonc,s=,i=4096 => Nonce
ok => r=nonce,s=,i=42 => CountLow
ok => r=nonce,s=,i=4095 => CountLow
ok => r=nonce,s=,i=10000001 => CountHigh";

// What stands before the first arrow of a row and behind it.
fn parts<'a>(row: &'a str) -> (&'a str, &'a str) {
    row.split_once(" => ").unwrap_or((row, "no arrow"))
}

// The bytes of a message of a row.
fn message_of(alloc: Global, text: &str) -> Result<Vec<u8>, AllocError> {
    let mut message = Vec::new(alloc);
    for byte in text.bytes() {
        message.push(if byte == b'~' { 0xff } else { byte })?;
    }
    Ok(message)
}

// What a client with that nonce and that ceiling answers the message.
impl NamesFault for ServerFirst {
    fn fault(&self) -> &'static str {
        fault_of(self.validate("nonce", 10_000_000))
    }
}

// What the client answers the message, by what carries it: a reply of `ok`, one of a failure, or one that ends the conversation.
fn first_is_answered(alloc: Global, carrier: &str, message: &[u8]) -> &'static str {
    let ok = if carrier == "failed" { 0 } else { 1 };
    fault_of(server_first(alloc, ok, carrier == "ended", message))
}

// Fails where the client answers the message of a row otherwise.
fn check_first(alloc: Global, row: &str) -> Result<(), Fail> {
    let (carrier, rest) = parts(row);
    let (message, fault) = parts(rest);
    let message = message_of(alloc, message)?;
    wants(
        row,
        first_is_answered(alloc, carrier, message.as_slice()),
        fault,
    )
}

fn wants(row: &str, told: &str, fault: &str) -> Result<(), Fail> {
    if told == fault {
        Ok(())
    } else {
        Err(Fail::new(format_args!("{row}: told {told}")))
    }
}

#[test]
fn server_first_messages(rt: HostRuntime) -> Result<(), Fail> {
    for row in FIRST_MESSAGES.lines() {
        check_first(rt.alloc(), row)?;
    }
    Ok(())
}

fn is_read(first: &ServerFirst) -> bool {
    first.conversation_id.kind == 0x10
        && first.conversation_id.bytes.as_bytes() == [1, 0, 0, 0].as_slice()
        && first.done
        && first.message.as_str() == "r=nonce,s=AQI=,i=+5,x=more"
        && first.nonce.as_str() == "nonce"
        && first.salt.as_bytes() == [1, 2].as_slice()
        && first.i == 5
}

fn copy_is_read(alloc: Global, first: &ServerFirst) -> Result<bool, Fail> {
    Ok(is_read(&given(first.try_clone(alloc))?))
}

#[test]
fn a_server_first_message_is_read(rt: HostRuntime) -> Result<(), Fail> {
    let first = given(server_first(rt.alloc(), 1, true, b"r=nonce,s=AQI=,i=+5,x=more"))?;
    assert!(rt; is_read(&first) && copy_is_read(rt.alloc(), &first)?);
    Ok(())
}

/// What a client has when it has said all.
#[derive(Drop)]
struct ClientSide {
    open: ClientFirst,
    close: ClientFinal,
}

fn client_first(alloc: Global, username: &str, nonce: &str) -> Result<ClientFirst, Error> {
    ClientFirst::with_nonce(alloc, "admin", username, false, None, nonce)
}

// The salted password of a row, with a counter of its own, of the ledger that `blank` opens.
fn salted_with<G: Ledger>(
    alloc: Global,
    blank: Blank,
    row: &Authentication<'_>,
    first: &ServerFirst,
) -> Result<Tag, Error>
    requires name { blank.name ≡ G.name }
    requires parts { blank.parts ≡ G.parts }
    requires has_a_part { 0 < G.parts }
    requires counted { 1 ≤ first.now.i }
{
    let mut steps = Steps::<G>::new(blank);
    let salt = first.salt.as_bytes();
    match row.prepared {
        Prepared::Plain => Ok(hi::<Sha1Fn, G>(row.password.as_bytes(), salt, first.i, &mut steps)),
        Prepared::Mechanism => row.version.compute_salted_password(
            alloc,
            row.username,
            row.password,
            first.i,
            salt,
            &mut steps,
        ),
    }
}

// The same; None where the count is 0 or the password is refused.
fn salted_of(alloc: Global, row: &Authentication<'_>, first: &ServerFirst) -> Option<Tag> {
    if first.i == 0 {
        return None;
    }
    salted_with::<Brand>(alloc, Blank::new(1), row, first).ok()
}

fn closed(
    alloc: Global,
    row: &Authentication<'_>,
    salted: &Tag,
    open: ClientFirst,
    first: &ServerFirst,
) -> Result<ClientSide, Error> {
    let close = ClientFinal::new(alloc, "admin", salted, &open, first, &row.version, None)?;
    Ok(ClientSide { open, close })
}

/// What a client has, and the salted password.
type Held = (Tag, ClientSide);

// A row's conversation up to the client's last message.
fn conversation_of(alloc: Global, row: &Authentication<'_>) -> Result<Held, Fail> {
    let first = given(server_first(alloc, 1, false, row.server_first.as_bytes()))?;
    conversation_after(alloc, row, &first)
}

// The same where the server's first message was read.
fn conversation_after(
    alloc: Global,
    row: &Authentication<'_>,
    first: &ServerFirst,
) -> Result<Held, Fail> {
    let Some(salted) = salted_of(alloc, row, first) else {
        return Err(Fail::from("no salted password"));
    };
    let open = given(client_first(alloc, row.username, row.nonce))?;
    let conversation = given(closed(alloc, row, &salted, open, first))?;
    Ok((salted, conversation))
}

fn is_encoded(alloc: Global, tag: &Tag, text: Option<&str>) -> bool {
    match STANDARD.encode(alloc, tag.as_bytes()) {
        Ok(encoded) => text == Some(encoded.as_str()),
        Err(_) => false,
    }
}

// Whether the keys sign what the messages of the row hold.
fn signs_so(alloc: Global, row: &Authentication<'_>, keys: &Keys, transcript: &[u8]) -> bool {
    let proof = match row.close.split_once(",p=") {
        Some((_, proof)) => Some(proof),
        None => None,
    };
    is_encoded(alloc, &keys.proof(transcript), proof)
        && is_encoded(
            alloc,
            &keys.verifier(transcript),
            row.verifier.strip_prefix("v="),
        )
}

// What the client of a row's conversation answers a copy of the last message.
fn final_answer(
    alloc: Global,
    version: &ScramVersion,
    held: &Held,
    number: i32,
    message: &[u8],
) -> Result<(), Error> {
    let (salted, conversation) = held;
    copied_final(alloc, number, message)?.validate(salted, &conversation.close, version)
}

// The fault of that answer.
fn final_fault(
    alloc: Global,
    version: &ScramVersion,
    held: &Held,
    number: i32,
    message: &[u8],
) -> &'static str {
    fault_of(final_answer(alloc, version, held, number, message))
}

// Fails where a row's conversation isn't as it stands.
fn check_conversation(alloc: Global, row: &str) -> Result<(), Fail> {
    let authentication = authentication_of(row);
    let held = conversation_of(alloc, &authentication)?;
    let stands = if is_as_it_stands(alloc, &authentication, &held)? {
        "so"
    } else {
        "otherwise"
    };
    wants(row, stands, "so")
}

#[test]
fn conversations_of_the_standards(rt: HostRuntime) -> Result<(), Fail> {
    for row in CONVERSATIONS.lines() {
        check_conversation(rt.alloc(), row)?;
    }
    Ok(())
}

fn copy_closes(alloc: Global, close: &ClientFinal, message: &str) -> Result<bool, Fail> {
    Ok(given(close.try_clone(alloc))?.message() == message)
}

// Whether the messages are the row's, the client's first after the header of RFC 5802 for no channel binding, its last as a payload and
// in its copy too, and the server's last is taken.
fn is_as_it_stands(alloc: Global, row: &Authentication<'_>, held: &Held) -> Result<bool, Fail> {
    let (salted, conversation) = held;
    let transcript = conversation.close.auth_message().as_bytes();
    let stands = conversation.open.message() == row.open
        && conversation.open.gs2_header() == "n,,"
        && conversation.close.message() == row.close
        && conversation.close.payload() == row.close.as_bytes()
        && signs_so(alloc, row, &Keys::new(row.version, salted), transcript)
        && final_fault(alloc, &row.version, held, 1, row.verifier.as_bytes()) == "none";
    Ok(stands && copy_closes(alloc, &conversation.close, row.close)?)
}

// The conversation that a server's last message names, the message, and what the client of the first conversation answers it.
const FINAL_MESSAGES: &str = "1 => v=rmF9pqV8S7suAoZWja4dJRkFsKQ= => none
1 => v=rmF9pqV8S7suAoZWja4dJRkFsKU= => Verifier
1 => v=rmF9 => Verifier
1 => v=rmF9pqV8S7suAoZWja4dJRkFsKQ => Malformed
1 => e=other-error => ServerError
2 => v=rmF9pqV8S7suAoZWja4dJRkFsKQ= => Conversation
2 => e=other-error => Conversation
2 =>  => Malformed
2 => e => Malformed
2 => v => Malformed
2 => x= => Malformed
2 => =v => Malformed
2 => ve= => Malformed
2 => v=~ => Malformed
2 => r=n,s=,i=4096 => Malformed";

// Fails where the client answers the message of a row otherwise.
fn check_final(alloc: Global, held: &Held, row: &str) -> Result<(), Fail> {
    let (number, rest) = parts(row);
    let (message, fault) = parts(rest);
    let number = if number == "1" { 1 } else { 2 };
    let message = message_of(alloc, message)?;
    let told = final_fault(alloc, &ScramVersion::Sha1, held, number, message.as_slice());
    wants(row, told, fault)
}

// What has to hold of the client of the first conversation.
fn check_held(alloc: Global, held: &Held) -> Result<(), Fail> {
    for row in FINAL_MESSAGES.lines() {
        check_final(alloc, held, row)?;
    }
    let (_, conversation) = held;
    if is_shown_as(alloc, &conversation.close, "ClientFinal { .. }")
        && is_continued(alloc, &conversation.close, CLOSING)?
    {
        Ok(())
    } else {
        Err(Fail::from("shown, or another command"))
    }
}

#[test]
fn server_final_messages(rt: HostRuntime) -> Result<(), Fail> {
    let first = CONVERSATIONS.lines().next().unwrap_or("");
    let held = conversation_of(rt.alloc(), &authentication_of(first))?;
    check_held(rt.alloc(), &held)
}

// A proof is never shown.
fn is_shown_as(alloc: Global, close: &ClientFinal, text: &str) -> bool {
    match format!(in alloc; "{close:?}") {
        Ok(shown) => shown.as_str() == text,
        Err(_) => false,
    }
}

// The first message that goes with a hello, by a nonce of 32 bytes of 0.
const WITH_HELLO: &[u8] =
    b"\xa7\0\0\0\x10saslStart\0\x01\0\0\0\x02mechanism\0\x0e\0\0\0SCRAM-SHA-256\0\x05payload\0\x38\0\0\0\0n,,n=user,r=AAAAAAAAAAAAAAAAAAAAAAAAAAAAAAAAAAAAAAAAAAA=\x03options\0\x19\0\0\0\x08skipEmptyExchange\0\x01\0\x02db\0\x06\0\0\0admin\0\0";

// The end of a command on `orders` that declares the server API.
const DECLARED: &[u8] = b"\x02$db\0\x07\0\0\0orders\0\x02apiVersion\0\x02\0\0\x001\0\0";

fn ends_with(alloc: Global, command: &Command, end: &[u8]) -> Result<bool, Fail> {
    let document = given(command.to_document(alloc))?;
    Ok(document.as_bytes().ends_with(end) || command.body.as_bytes() == end)
}

// The command of the first conversation's last message, BSON 1.1.
const CLOSING: &[u8] =
    b"\x9a\0\0\0\x10saslContinue\0\x01\0\0\0\x10conversationId\0\x01\0\0\0\x05payload\0R\0\0\0\0c=biws,r=fyko+d2lbbFgONRv9qkxdawL3rfcNHYJY1ZVvWVs7j,p=v0X8v3Bz2T0CJGbJQyF0X+HI4Ts=\x02$db\0\x06\0\0\0admin\0\0";

fn is_continued(alloc: Global, close: &ClientFinal, document: &[u8]) -> Result<bool, Fail> {
    ends_with(alloc, &given(close.to_command(alloc))?, document)
}

// The first message of `user` with this source, by a nonce of 32 bytes of 0.
fn first_of_user(
    alloc: Global,
    source: &str,
    with_hello: bool,
    api: Option<ServerApi>,
) -> Result<ClientFirst, Fail> {
    given(ClientFirst::new(alloc, source, "user", with_hello, api, &[0; 32]))
}

// Whether the command of that message ends so. One that declares no server API goes with a hello.
fn is_sent(
    alloc: Global,
    source: &str,
    api: Option<ServerApi>,
    version: ScramVersion,
    end: &[u8],
) -> Result<bool, Fail> {
    let with_hello = api.is_none();
    let first = first_of_user(alloc, source, with_hello, api)?;
    ends_with(alloc, &given(first.to_command(alloc, &version))?, end)
}

#[test]
fn commands_of_a_first_message(rt: HostRuntime) -> Result<(), Fail> {
    let api = Some(ServerApi {
        version: ServerApiVersion::V1,
        strict: None,
        deprecation_errors: None,
    });
    assert!(rt; is_sent(rt.alloc(), "orders", api, ScramVersion::Sha1, DECLARED)?);
    assert!(rt; is_sent(rt.alloc(), "admin", None, ScramVersion::Sha256, WITH_HELLO)?);
    Ok(())
}

fn copy_is(alloc: Global, first: &ClientFirst, message: &str) -> Result<bool, Fail> {
    Ok(given(first.try_clone(alloc))?.message() == message)
}

// Whether the user's first message is this, and its copy's too.
fn is_message(alloc: Global, username: &str, message: &str) -> Result<bool, Fail> {
    let first = given(client_first(alloc, username, "x"))?;
    Ok(first.message() == message && copy_is(alloc, &first, message)?)
}

// Whether a call gives this text.
fn is_text<E: Drop>(made: Result<Text, E>, text: &str) -> bool {
    match made.ok() {
        Some(made) => made.as_str() == text,
        None => false,
    }
}

#[test]
fn names_and_nonces_are_spelled(rt: HostRuntime) {
    assert!(rt; is_text(saslname(rt.alloc(), "a=b,c"), "a=3Db=2Cc"));
    assert!(rt;
        is_text(
            nonce_text(rt.alloc(), &[1; 32]),
            "AQEBAQEBAQEBAQEBAQEBAQEBAQEBAQEBAQEBAQEBAQE="
        )
    );
}

// A user name, and the first message of that user by the nonce `x`.
const USER_NAMES: &str = "a=b => n,,n=a=3Db,r=x
=,= => n,,n==3D=2C=3D,r=x
\u{fc}, => n,,n=\u{fc}=2C,r=x";

// Fails where a row's user has another first message.
fn check_user_name(alloc: Global, row: &str) -> Result<(), Fail> {
    let (username, message) = parts(row);
    let stands = if is_message(alloc, username, message)? {
        "so"
    } else {
        "otherwise"
    };
    wants(row, stands, "so")
}

#[test]
fn user_names_are_escaped(rt: HostRuntime) -> Result<(), Fail> {
    for row in USER_NAMES.lines() {
        check_user_name(rt.alloc(), row)?;
    }
    Ok(())
}
