mod credentials;
mod logins;
mod messages;
mod rows;
mod rules;

use mongo_bson::{BsonFault, Bytes, Text};
use mongo_sasl::Credential;
use mongo_wire::{AuthFault, Error, ErrorKind};
use std::alloc::Global;
use std::fmt::Debug;
use std::test::Fail;

fn bytes(alloc: Global, given: &[u8]) -> Result<Bytes, BsonFault> {
    Bytes::from_slice(alloc, given)
}

fn text(alloc: Global, given: Option<&str>) -> Result<Option<Text>, BsonFault> {
    match given {
        Some(given) => Ok(Some(Text::from_slice(alloc, given)?)),
        None => Ok(None),
    }
}

/// A user name, a source and a password.
type CredentialTexts<'a> = (Option<&'a str>, Option<&'a str>, Option<&'a str>);

fn credential(alloc: Global, parts: CredentialTexts<'_>) -> Result<Credential, BsonFault> {
    let (username, source, password) = parts;
    let username = text(alloc, username)?;
    let source = text(alloc, source)?;
    let password = text(alloc, password)?;
    Ok(Credential {
        username,
        source,
        password,
        ..Credential::new()
    })
}

// What a call gives, or its error as why the test fails. An `Error` is large where a proof holds it, so it is held here alone and
// behind the references of those that ask what it is.
fn given<T: Drop, E: Debug + Drop>(answer: Result<T, E>) -> Result<T, Fail> {
    Ok(answer?)
}

// How a call was answered, for functions that are generic over what it gives and over the error, so that no proof of a test holds
// either.
#[derive(Drop)]
struct Answered<T, E> {
    answer: Result<T, E>,
}

// How a call ended that was refused.
trait NamesFault {
    fn fault(&self) -> &str;
}

impl NamesFault for Error {
    fn fault(&self) -> &str {
        fault_of(self)
    }
}

// Whether a call ended with this fault; one that wasn't refused ended with "none".
fn is_fault<T: Drop, E: NamesFault + Drop>(answer: Result<T, E>, fault: &str) -> bool {
    let answered = Answered { answer };
    match &answered.answer {
        Ok(_) => fault == "none",
        Err(refused) => refused.fault() == fault,
    }
}

// The name of the fault that a login or a reply was refused for, or what the server says of it.
fn fault_of(refused: &Error) -> &str {
    match &refused.kind {
        ErrorKind::Authentication(AuthFault::NoUsername) => "NoUsername",
        ErrorKind::Authentication(AuthFault::NoPassword) => "NoPassword",
        ErrorKind::Authentication(AuthFault::Malformed) => "Malformed",
        ErrorKind::Authentication(AuthFault::X509Failed) => "X509Failed",
        ErrorKind::Authentication(AuthFault::Refused(text)) => text.as_str(),
        ErrorKind::EndOfInput => "EndOfInput",
        _ => "another",
    }
}
