mod messages;
mod signatures;

use mongo_wire::{AuthFault, Error, ErrorKind};
use std::fmt::Debug;
use std::test::Fail;

// What a call gives, or its error as why the test fails. An `Error` is large where a proof holds it, so it is held here alone and
// behind the references of those that ask what it is.
fn given<T: Drop, E: Debug + Drop>(answer: Result<T, E>) -> Result<T, Fail> {
    Ok(answer?)
}

// What comes of a call: the name of the fault that it is refused for, or "none".
trait NamesFault {
    fn fault(&self) -> &'static str;
}

impl NamesFault for () {
    fn fault(&self) -> &'static str {
        "none"
    }
}

impl NamesFault for Error {
    fn fault(&self) -> &'static str {
        kind_name(&self.kind)
    }
}

// How a call was answered, for functions that are generic over what it gives and over the error.
#[derive(Drop)]
struct Answered<T, E> {
    answer: Result<T, E>,
}

fn fault_of<T: NamesFault + Drop, E: NamesFault + Drop>(answer: Result<T, E>) -> &'static str {
    let answered = Answered { answer };
    match &answered.answer {
        Ok(made) => made.fault(),
        Err(error) => error.fault(),
    }
}

fn kind_name(kind: &ErrorKind) -> &'static str {
    match kind {
        ErrorKind::Authentication(fault) => fault_name(fault),
        _ => "another",
    }
}

fn fault_name(fault: &AuthFault) -> &'static str {
    match fault {
        AuthFault::Refused(_) => "Refused",
        AuthFault::Malformed => "Malformed",
        AuthFault::EndedEarly => "EndedEarly",
        AuthFault::Nonce => "Nonce",
        AuthFault::AwsNonceLength => "AwsNonceLength",
        AuthFault::AwsHostEmpty => "AwsHostEmpty",
        AuthFault::AwsHostLong => "AwsHostLong",
        AuthFault::AwsHostLabel => "AwsHostLabel",
        AuthFault::AwsHostCharacter => "AwsHostCharacter",
        AuthFault::AwsCredentialCharacter => "AwsCredentialCharacter",
        _ => "another",
    }
}

// What stands before the first arrow of a row and behind it.
fn parts<'a>(row: &'a str) -> (&'a str, &'a str) {
    row.split_once(" => ").unwrap_or((row, "no arrow"))
}

// Fails where a row's call was told otherwise.
fn wants(row: &str, told: &str, wanted: &str) -> Result<(), Fail> {
    if told == wanted {
        Ok(())
    } else {
        Err(Fail::new(format_args!("{row}: told {told}")))
    }
}
