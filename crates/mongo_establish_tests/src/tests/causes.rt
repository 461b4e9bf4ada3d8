use mongo_establish::{ArgumentFault, AuthFault, CommandError, Error, ErrorKind, ResponseFault};

// The name of a cause, and its number where it has one.
pub(super) fn cause_of(error: &Error) -> (&'static str, i32) {
    cause_by(&error.kind)
}

fn cause_by(kind: &ErrorKind) -> (&'static str, i32) {
    match kind {
        ErrorKind::ReadFault => ("ReadFault", 0),
        ErrorKind::WriteFault => ("WriteFault", 0),
        ErrorKind::EndOfInput => ("EndOfInput", 0),
        ErrorKind::IncompatibleServer => ("IncompatibleServer", 0),
        ErrorKind::InvalidResponse(fault) => response_fault(fault),
        ErrorKind::InvalidArgument(fault) => (argument_fault(*fault), 0),
        ErrorKind::Authentication(fault) => (auth_fault(fault), 0),
        ErrorKind::Command(error) => (command_error(error), error.code),
        _ => ("another", 0),
    }
}

fn argument_fault(fault: ArgumentFault) -> &'static str {
    match fault {
        ArgumentFault::CheckedFailure => "CheckedFailure",
        ArgumentFault::TooLong => "TooLong",
        ArgumentFault::X509Password => "X509Password",
        _ => "another",
    }
}

fn auth_fault(fault: &AuthFault) -> &'static str {
    match fault {
        AuthFault::NoUsername => "NoUsername",
        AuthFault::Verifier => "Verifier",
        AuthFault::Malformed => "Malformed",
        AuthFault::X509Failed => "X509Failed",
        _ => "another",
    }
}

// That of an error with the message `no` and nothing else but its code.
fn command_error(error: &CommandError) -> &'static str {
    let is_carried = error.message.as_str() == "no"
        && error.code_name.as_str() == ""
        && error.labels.is_empty();
    if is_carried { "Command" } else { "another" }
}

fn response_fault(fault: &ResponseFault) -> (&'static str, i32) {
    match fault {
        ResponseFault::OpCode(code) => ("OpCode", *code),
        ResponseFault::OverMaximum => ("OverMaximum", 0),
        ResponseFault::Compressed => ("Compressed", 0),
        ResponseFault::NotMessage => ("NotMessage", 0),
        ResponseFault::Sections => ("Sections", 0),
        ResponseFault::Hello => ("Hello", 0),
        ResponseFault::SessionTimeout => ("SessionTimeout", 0),
        _ => ("another", 0),
    }
}
