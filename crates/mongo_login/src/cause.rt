//! The words of a refusal's cause, which `mongo_settings` keeps to itself.
ghost use Rattle.std.specs.Prelude.{◌≡◌, ◌++◌, OnOk, option_map};
ghost use Rattle.mongo_settings.specs.Names.{kind_name, argument_name, response_name, auth_name, reason_name};
ghost use Rattle.mongo_settings.specs.Report.{kind_line, reason_line};

use crate::lines::push_word;
use mongo_wire::{ArgumentFault, AuthFault, ErrorKind, ResponseFault};
use std::alloc::AllocError;

/// Appends the lines of a cause: its name, and the name of the fault inside, `-` where it has none.
pub fn push_cause(out: &mut Vec<u8>, kind: &ErrorKind) -> Result<(), AllocError>
    ensures { OnOk result (out.new.items ≡ out.old.items ++ (kind_line kind.now ++ reason_line kind.now)) }
{
    push_kind(out, kind)?;
    push_reason(out, kind)
}

#[tactic(auto, unfolding(mongo_settings::specs::Report::kind_line))]
fn push_kind(out: &mut Vec<u8>, kind: &ErrorKind) -> Result<(), AllocError>
    ensures { OnOk result (out.new.items ≡ out.old.items ++ kind_line kind.now) }
{
    push_word(out, "kind", kind_name(kind))
}

#[tactic(auto, unfolding(mongo_settings::specs::Report::reason_line))]
fn push_reason(out: &mut Vec<u8>, kind: &ErrorKind) -> Result<(), AllocError>
    ensures { OnOk result (out.new.items ≡ out.old.items ++ reason_line kind.now) }
{
    match reason_name(kind) {
        Some(name) => push_word(out, "reason", name),
        None => push_word(out, "reason", "-"),
    }
}

// The name of a cause.
fn kind_name(kind: &ErrorKind) -> &'static str
    ensures { result.now ≡ kind_name kind.now }
{
    match kind {
        ErrorKind::InvalidArgument(_) => "InvalidArgument",
        ErrorKind::InvalidResponse(_) => "InvalidResponse",
        ErrorKind::Command(_) => "Command",
        ErrorKind::Authentication(_) => "Authentication",
        ErrorKind::IncompatibleServer => "IncompatibleServer",
        ErrorKind::Write(_) => "Write",
        ErrorKind::InsertMany(_) => "InsertMany",
        ErrorKind::ReadFault => "ReadFault",
        ErrorKind::WriteFault => "WriteFault",
        ErrorKind::EndOfInput => "EndOfInput",
        ErrorKind::Callback(_) => "Callback",
        ErrorKind::PasswordNotAscii => "PasswordNotAscii",
        ErrorKind::OutOfMemory => "OutOfMemory",
    }
}

// The name of the fault inside a cause.
fn reason_name(kind: &ErrorKind) -> Option<&'static str>
    ensures { option_map (λ name. name.now) result ≡ reason_name kind.now }
{
    match kind {
        ErrorKind::InvalidArgument(fault) => Some(argument_name(fault)),
        ErrorKind::InvalidResponse(fault) => Some(response_name(fault)),
        ErrorKind::Authentication(fault) => Some(auth_name(fault)),
        _ => None,
    }
}

fn argument_name(fault: &ArgumentFault) -> &'static str
    ensures { result.now ≡ argument_name fault.now }
{
    match fault {
        ArgumentFault::CheckedFailure => "CheckedFailure",
        ArgumentFault::MaximumNegative => "MaximumNegative",
        ArgumentFault::TooLong => "TooLong",
        ArgumentFault::SequenceTooLong => "SequenceTooLong",
        ArgumentFault::IdentifierHasZero => "IdentifierHasZero",
        ArgumentFault::Bson(_) => "Bson",
        ArgumentFault::MechanismUnknown => "MechanismUnknown",
        ArgumentFault::MechanismGssapi => "MechanismGssapi",
        ArgumentFault::PropertiesMalformed => "PropertiesMalformed",
        ArgumentFault::ScramUsername => "ScramUsername",
        ArgumentFault::X509Password => "X509Password",
        ArgumentFault::X509Source => "X509Source",
        ArgumentFault::PlainUsername => "PlainUsername",
        ArgumentFault::PlainUsernameEmpty => "PlainUsernameEmpty",
        ArgumentFault::PlainPassword => "PlainPassword",
        ArgumentFault::AwsUriCredentials => "AwsUriCredentials",
        ArgumentFault::OidcProperty => "OidcProperty",
        ArgumentFault::OidcCallbackWithEnvironment => "OidcCallbackWithEnvironment",
        ArgumentFault::OidcResourceMissing => "OidcResourceMissing",
        ArgumentFault::OidcResourceGiven => "OidcResourceGiven",
        ArgumentFault::OidcSource => "OidcSource",
        ArgumentFault::OidcPassword => "OidcPassword",
        ArgumentFault::OidcEnvironment => "OidcEnvironment",
        ArgumentFault::OidcHostsNotArray => "OidcHostsNotArray",
    }
}

fn response_name(fault: &ResponseFault) -> &'static str
    ensures { result.now ≡ response_name fault.now }
{
    match fault {
        ResponseFault::OpCode(_) => "OpCode",
        ResponseFault::OverMaximum => "OverMaximum",
        ResponseFault::Compressed => "Compressed",
        ResponseFault::NotMessage => "NotMessage",
        ResponseFault::Sections => "Sections",
        ResponseFault::Body => "Body",
        ResponseFault::Hello => "Hello",
        ResponseFault::SessionTimeout => "SessionTimeout",
        ResponseFault::NoN => "NoN",
        ResponseFault::NNotNumber => "NNotNumber",
    }
}

fn auth_name(fault: &AuthFault) -> &'static str
    ensures { result.now ≡ auth_name fault.now }
{
    match fault {
        AuthFault::NoUsername => "NoUsername",
        AuthFault::NoPassword => "NoPassword",
        AuthFault::PropertiesGiven => "PropertiesGiven",
        AuthFault::MongoDbCr => "MongoDbCr",
        AuthFault::Refused(_) => "Refused",
        AuthFault::Malformed => "Malformed",
        AuthFault::EndedEarly => "EndedEarly",
        AuthFault::Nonce => "Nonce",
        AuthFault::CountUnreadable => "CountUnreadable",
        AuthFault::CountLow => "CountLow",
        AuthFault::CountHigh => "CountHigh",
        AuthFault::Conversation => "Conversation",
        AuthFault::ServerError(_) => "ServerError",
        AuthFault::Verifier => "Verifier",
        AuthFault::NotCompleted => "NotCompleted",
        AuthFault::PasswordControl => "PasswordControl",
        AuthFault::X509Failed => "X509Failed",
        AuthFault::AwsSource => "AwsSource",
        AuthFault::AwsNonceLength => "AwsNonceLength",
        AuthFault::AwsHostEmpty => "AwsHostEmpty",
        AuthFault::AwsHostLong => "AwsHostLong",
        AuthFault::AwsHostLabel => "AwsHostLabel",
        AuthFault::AwsHostCharacter => "AwsHostCharacter",
        AuthFault::AwsCredentialCharacter => "AwsCredentialCharacter",
        AuthFault::AwsNoProvider => "AwsNoProvider",
        AuthFault::AddressNotTcp => "AddressNotTcp",
        AuthFault::AllowedHostsNotTexts => "AllowedHostsNotTexts",
        AuthFault::HostNotAllowed => "HostNotAllowed",
        AuthFault::NoCallback => "NoCallback",
        AuthFault::EnvironmentUnsupported => "EnvironmentUnsupported",
        AuthFault::ReauthenticationUnsupported => "ReauthenticationUnsupported",
    }
}
