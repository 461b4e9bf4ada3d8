mod logins;
mod messages;

use mongo_bson::{BsonFault, RawDocumentBuf, RawValue};
use mongo_wire::{AuthFault, Error, ErrorKind};
use std::alloc::Global;
use std::fmt::Debug;
use std::test::Fail;

// What a call gives, or its error as why the test fails. An `Error` is large where a proof holds it, so it is held here alone and
// behind the references of those that ask what it is.
fn given<T: Drop, E: Debug + Drop>(answer: Result<T, E>) -> Result<T, Fail> {
    Ok(answer?)
}

// What comes of a call: the name of the fault that it is refused for, or "none".
trait NamesFault {
    fn fault(&self) -> &'static str;
}

impl NamesFault for () {
    fn fault(&self) -> &'static str {
        "none"
    }
}

impl NamesFault for Error {
    fn fault(&self) -> &'static str {
        name_of(self)
    }
}

// How a call was answered, for functions that are generic over what it gives and over the error.
#[derive(Drop)]
struct Answered<T, E> {
    answer: Result<T, E>,
}

fn fault_of<T: NamesFault + Drop, E: NamesFault + Drop>(answer: Result<T, E>) -> &'static str {
    let answered = Answered { answer };
    match &answered.answer {
        Ok(made) => made.fault(),
        Err(error) => error.fault(),
    }
}

// A reply to a command of a login, in the conversation of this number.
fn reply(
    alloc: Global,
    number: i32,
    ok: i32,
    done: bool,
    payload: &[u8],
) -> Result<RawDocumentBuf, BsonFault> {
    let mut document = RawDocumentBuf::new(alloc)?;
    document.append("conversationId", RawValue::Int32(number))?;
    document.append("ok", RawValue::Int32(ok))?;
    document.append("done", RawValue::Bool(done))?;
    document.append("payload", RawValue::Binary(0, payload))?;
    Ok(document)
}

// The name of the fault that a login was refused for.
fn name_of(error: &Error) -> &'static str {
    kind_name(&error.kind)
}

fn kind_name(kind: &ErrorKind) -> &'static str {
    match kind {
        ErrorKind::Authentication(fault) => fault_name(fault),
        ErrorKind::PasswordNotAscii => "PasswordNotAscii",
        ErrorKind::ReadFault => "ReadFault",
        ErrorKind::WriteFault => "WriteFault",
        _ => "another",
    }
}

fn fault_name(fault: &AuthFault) -> &'static str {
    match fault {
        AuthFault::NoUsername => "NoUsername",
        AuthFault::NoPassword => "NoPassword",
        AuthFault::Refused(_) => "Refused",
        AuthFault::Malformed => "Malformed",
        AuthFault::CountUnreadable => "CountUnreadable",
        AuthFault::EndedEarly => "EndedEarly",
        AuthFault::Nonce => "Nonce",
        AuthFault::CountLow => "CountLow",
        AuthFault::CountHigh => "CountHigh",
        AuthFault::Conversation => "Conversation",
        AuthFault::ServerError(_) => "ServerError",
        AuthFault::Verifier => "Verifier",
        AuthFault::PasswordControl => "PasswordControl",
        AuthFault::NotCompleted => "NotCompleted",
        _ => "another",
    }
}
