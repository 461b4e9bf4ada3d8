use super::rows::{RowCheck, check_rows, given_text, parts, spelled, words};
use super::{CredentialTexts, bytes, credential, given, is_fault};
use mongo_bson::{BsonFault, Text};
use mongo_command::{Connection, ServerAddress};
use mongo_sasl::{Credential, plain, x509};
use mongo_wire::{Error, FrameBuffer, MemoryLink, RequestIds};
use std::alloc::Global;
use std::test::Fail;

// The commands of `user` with the password `pencil` and of `CN=a`, as id 1.
const START: &[u8] =
    b"k\0\0\0\x01\0\0\0\0\0\0\0\xdd\x07\0\0\0\0\0\0\0V\0\0\0\x10saslStart\0\x01\0\0\0\x02mechanism\0\x06\0\0\0PLAIN\0\x05payload\0\x0c\0\0\0\0\0user\0pencil\x02$db\0\x0a\0\0\0$external\0\0";

const AUTHENTICATE: &[u8] =
    b"n\0\0\0\x01\0\0\0\0\0\0\0\xdd\x07\0\0\0\0\0\0\0Y\0\0\0\x10authenticate\0\x01\0\0\0\x02mechanism\0\x0d\0\0\0MONGODB-X509\0\x02username\0\x05\0\0\0CN=a\0\x02$db\0\x0a\0\0\0$external\0\0";

/// What a login is by: PLAIN, X.509, or X.509 that the server has answered in its hello.
#[derive(Clone, Copy)]
enum By {
    Plain,
    X509,
    Answered,
}

/// A login: what it is by, who logs in, what it hears, the fault that it ends with, and all that it says.
#[derive(Clone, Copy)]
struct Row<'a> {
    by: By,
    user: CredentialTexts<'a>,
    heard: &'a [u8],
    fault: &'a str,
    said: &'static [u8],
}

// PLAIN: a reply that ends the conversation and one that doesn't, a failure, a key that stands twice, a success without its fields,
// and none; and credentials that lack a part, of which the name is missed first.
//
// A row has what the login is by, the user and the password, what is heard, what is said, and the fault.
const BY_PLAIN: &str =
    r#"plain user pencil => O\0\0\0\x01\0\0\0\0\0\0\0\xdd\x07\0\0\0\0\0\0\0:\0\0\0\x01ok\0\0\0\0\0\0\0\xf0?\x10conversationId\0\x01\0\0\0\x08done\0\x01\x05payload\0\0\0\0\0\0\0 => start => none
plain user pencil => O\0\0\0\x01\0\0\0\0\0\0\0\xdd\x07\0\0\0\0\0\0\0:\0\0\0\x01ok\0\0\0\0\0\0\0\xf0?\x10conversationId\0\x01\0\0\0\x08done\0\0\x05payload\0\0\0\0\0\0\0 => start => Malformed
plain user pencil => 5\0\0\0\x01\0\0\0\0\0\0\0\xdd\x07\0\0\0\0\0\0\0 \0\0\0\x01ok\0\0\0\0\0\0\0\0\0\x02errmsg\0\x03\0\0\0no\0\0 => start => no
plain user pencil => 2\0\0\0\x01\0\0\0\0\0\0\0\xdd\x07\0\0\0\0\0\0\0\x1d\0\0\0\x01ok\0\0\0\0\0\0\0\xf0?\x01ok\0\0\0\0\0\0\0\xf0?\0 => start => Malformed
plain user pencil => &\0\0\0\x01\0\0\0\0\0\0\0\xdd\x07\0\0\0\0\0\0\0\x11\0\0\0\x01ok\0\0\0\0\0\0\0\xf0?\0 => start => Malformed
plain user pencil =>  => start => EndOfInput
plain - pencil =>  => nothing => NoUsername
plain - - =>  => nothing => NoUsername
plain user - =>  => nothing => NoPassword"#;

// X.509, by `ok`: the double 1.0, the int32 1, none, 0.0, 1.5, a text, and 1.0 twice; and after an answer in the hello nothing is said.
const BY_X509: &str =
    r#"x509 CN=a - => &\0\0\0\x01\0\0\0\0\0\0\0\xdd\x07\0\0\0\0\0\0\0\x11\0\0\0\x01ok\0\0\0\0\0\0\0\xf0?\0 => authenticate => none
x509 CN=a - => "\0\0\0\x01\0\0\0\0\0\0\0\xdd\x07\0\0\0\0\0\0\0\x0d\0\0\0\x10ok\0\x01\0\0\0\0 => authenticate => none
x509 CN=a - => \x1a\0\0\0\x01\0\0\0\0\0\0\0\xdd\x07\0\0\0\0\0\0\0\x05\0\0\0\0 => authenticate => X509Failed
x509 CN=a - => &\0\0\0\x01\0\0\0\0\0\0\0\xdd\x07\0\0\0\0\0\0\0\x11\0\0\0\x01ok\0\0\0\0\0\0\0\0\0\0 => authenticate => X509Failed
x509 CN=a - => &\0\0\0\x01\0\0\0\0\0\0\0\xdd\x07\0\0\0\0\0\0\0\x11\0\0\0\x01ok\0\0\0\0\0\0\0\xf8?\0 => authenticate => X509Failed
x509 CN=a - => $\0\0\0\x01\0\0\0\0\0\0\0\xdd\x07\0\0\0\0\0\0\0\x0f\0\0\0\x02ok\0\x02\0\0\01\0\0 => authenticate => X509Failed
x509 CN=a - => 2\0\0\0\x01\0\0\0\0\0\0\0\xdd\x07\0\0\0\0\0\0\0\x1d\0\0\0\x01ok\0\0\0\0\0\0\0\xf0?\x01ok\0\0\0\0\0\0\0\xf0?\0 => authenticate => Malformed
answered CN=a - =>  => nothing => none"#;

/// A connection, its link and what else a login changes.
#[derive(Drop)]
struct Session {
    connection: Connection,
    link: MemoryLink,
    ids: RequestIds,
    buffer: FrameBuffer,
}

fn connection(alloc: Global) -> Result<Connection, BsonFault> {
    let host = Text::from_slice(alloc, "localhost")?;
    Ok(Connection::new(ServerAddress::Tcp { host, port: None }, 1))
}

fn new_session(alloc: Global, heard: &[u8]) -> Result<Session, BsonFault> {
    let heard = bytes(alloc, heard)?;
    Ok(Session {
        connection: connection(alloc)?,
        link: MemoryLink::new(alloc, heard),
        ids: RequestIds::new(1),
        buffer: FrameBuffer::new(alloc),
    })
}

fn plain_answer(alloc: Global, session: &mut Session, user: &Credential) -> Result<(), Error> {
    let Session {
        connection,
        link,
        ids,
        buffer,
    } = session;
    plain::authenticate_stream(alloc, connection, link, ids, buffer, user, None)
}

fn x509_answer(
    alloc: Global,
    session: &mut Session,
    user: &Credential,
    answered: bool,
) -> Result<(), Error> {
    let Session {
        connection,
        link,
        ids,
        buffer,
    } = session;
    x509::authenticate_stream(alloc, connection, link, ids, buffer, user, None, answered)
}

// Whether the user's login ends with the row's fault.
fn ends_so(alloc: Global, row: &Row<'_>, session: &mut Session, user: &Credential) -> bool {
    match row.by {
        By::Plain => is_fault(plain_answer(alloc, session, user), row.fault),
        By::X509 => is_fault(x509_answer(alloc, session, user, false), row.fault),
        By::Answered => is_fault(x509_answer(alloc, session, user, true), row.fault),
    }
}

// Whether the buffer holds what was heard after its header, as one frame; of nothing, nothing.
fn holds(buffer: &FrameBuffer, heard: &[u8]) -> bool {
    let held = buffer.as_bytes();
    if heard.is_empty() {
        buffer.frames() == 0 && held.is_empty()
    } else {
        buffer.frames() == 1 && heard.len() == held.len() + 16 && heard.ends_with(held)
    }
}

// Whether a session has said just that, and has heard all, which its buffer holds.
fn is_left_so(session: &Session, row: &Row<'_>) -> bool {
    session.link.written() == row.said
        && session.link.left().is_empty()
        && holds(&session.buffer, row.heard)
}

// Whether a login ends so, says just that and hears all.
fn is_so(alloc: Global, row: &Row<'_>) -> Result<bool, BsonFault> {
    let user = credential(alloc, row.user)?;
    let mut session = new_session(alloc, row.heard)?;
    let ends = ends_so(alloc, row, &mut session, &user);
    Ok(ends && is_left_so(&session, row))
}

fn way_of(word: &str) -> By {
    match word {
        "plain" => By::Plain,
        "x509" => By::X509,
        _ => By::Answered,
    }
}

fn said(word: &str) -> &'static [u8] {
    match word {
        "start" => START,
        "authenticate" => AUTHENTICATE,
        _ => b"",
    }
}

// Whether the login of these words ends with a fault, says just that and hears all.
fn is_login<'a>(
    alloc: Global,
    who: &'a str,
    heard: &'a [u8],
    said: &'static [u8],
    fault: &'a str,
) -> Result<bool, BsonFault> {
    let (way, user) = words(who);
    let (username, password) = words(user);
    let row = Row {
        by: way_of(way),
        user: (given_text(username), None, given_text(password)),
        heard,
        fault,
        said,
    };
    is_so(alloc, &row)
}

/// A login goes as its row says.
#[derive(Clone, Copy)]
struct Logins;

impl RowCheck for Logins {
    fn told(self, alloc: Global, row: &str) -> Result<String, Fail> {
        let (who, rest) = parts(row);
        let (heard, rest) = parts(rest);
        let (said_word, fault) = parts(rest);
        let heard = spelled(alloc, heard)?;
        let told = if is_login(alloc, who, heard.as_slice(), said(said_word), fault)? {
            fault
        } else {
            "otherwise"
        };
        Ok(String::from_str(alloc, told)?)
    }
}

#[test]
fn logins_of_one_command(rt: HostRuntime) -> Result<(), Fail> {
    check_rows(rt.alloc(), Logins, BY_PLAIN)?;
    check_rows(rt.alloc(), Logins, BY_X509)
}

// Whether the message of a user is this, RFC 4616.
fn is_message(alloc: Global, username: &str, password: &str, message: &[u8]) -> Result<bool, Fail> {
    let payload = given(plain::payload_bytes(alloc, username, password))?;
    Ok(payload.as_bytes() == message)
}

#[test]
fn a_message_has_two_zeros(rt: HostRuntime) -> Result<(), Fail> {
    assert!(rt;
        is_message(
            rt.alloc(),
            "tim",
            "tanstaaftanstaaf",
            b"\0tim\0tanstaaftanstaaf"
        )?
    );
    assert!(rt; is_message(rt.alloc(), "", "", b"\0\0")?);
    Ok(())
}
