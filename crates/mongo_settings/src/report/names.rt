//! The words of the report for each cause of a refusal.
ghost use Rattle.std.specs.Prelude.{◌≡◌, option_map};
ghost use Rattle.mongo_settings.specs.Names.{kind_name, argument_name, response_name, auth_name, reason_name, error_code, auth_text, error_text};

use mongo_wire::{ArgumentFault, AuthFault, ErrorKind, ResponseFault};

/// The name of a cause.
pub fn kind_name(kind: &ErrorKind) -> &'static str
    ensures { result.now ≡ kind_name kind.now }
{
    match kind {
        ErrorKind::InvalidArgument(_) => "InvalidArgument",
        ErrorKind::InvalidResponse(_) => "InvalidResponse",
        ErrorKind::Command(_) => "Command",
        ErrorKind::Authentication(_) => "Authentication",
        ErrorKind::IncompatibleServer => "IncompatibleServer",
        ErrorKind::Write(_) => "Write",
        ErrorKind::InsertMany(_) => "InsertMany",
        ErrorKind::ReadFault => "ReadFault",
        ErrorKind::WriteFault => "WriteFault",
        ErrorKind::EndOfInput => "EndOfInput",
        ErrorKind::Callback(_) => "Callback",
        ErrorKind::PasswordNotAscii => "PasswordNotAscii",
        ErrorKind::OutOfMemory => "OutOfMemory",
    }
}

/// The name of the fault inside a cause.
pub fn reason_name(kind: &ErrorKind) -> Option<&'static str>
    ensures { option_map (λ name. name.now) result ≡ reason_name kind.now }
{
    match kind {
        ErrorKind::InvalidArgument(fault) => Some(argument_name(fault)),
        ErrorKind::InvalidResponse(fault) => Some(response_name(fault)),
        ErrorKind::Authentication(fault) => Some(auth_name(fault)),
        _ => None,
    }
}

/// The server's number for its error.
pub fn code_of(kind: &ErrorKind) -> Option<i32>
    ensures { result ≡ error_code kind.now }
{
    match kind {
        ErrorKind::Command(error) => Some(error.code),
        _ => None,
    }
}

/// The text that a cause carries.
pub fn error_text(kind: &ErrorKind) -> Option<&[u8]>
    ensures { option_map (λ text. text.now) result ≡ error_text kind.now }
{
    match kind {
        ErrorKind::Command(error) => Some(error.message.as_bytes()),
        ErrorKind::Authentication(fault) => auth_text(fault),
        ErrorKind::Callback(text) => Some(text.as_bytes()),
        _ => None,
    }
}

fn auth_text(fault: &AuthFault) -> Option<&[u8]>
    ensures { option_map (λ text. text.now) result ≡ auth_text fault.now }
{
    match fault {
        AuthFault::Refused(text) | AuthFault::ServerError(text) => Some(text.as_bytes()),
        _ => None,
    }
}

fn argument_name(fault: &ArgumentFault) -> &'static str
    ensures { result.now ≡ argument_name fault.now }
{
    match fault {
        ArgumentFault::CheckedFailure => "CheckedFailure",
        ArgumentFault::MaximumNegative => "MaximumNegative",
        ArgumentFault::TooLong => "TooLong",
        ArgumentFault::SequenceTooLong => "SequenceTooLong",
        ArgumentFault::IdentifierHasZero => "IdentifierHasZero",
        ArgumentFault::Bson(_) => "Bson",
        ArgumentFault::MechanismUnknown => "MechanismUnknown",
        ArgumentFault::MechanismGssapi => "MechanismGssapi",
        ArgumentFault::PropertiesMalformed => "PropertiesMalformed",
        ArgumentFault::ScramUsername => "ScramUsername",
        ArgumentFault::X509Password => "X509Password",
        ArgumentFault::X509Source => "X509Source",
        ArgumentFault::PlainUsername => "PlainUsername",
        ArgumentFault::PlainUsernameEmpty => "PlainUsernameEmpty",
        ArgumentFault::PlainPassword => "PlainPassword",
        ArgumentFault::AwsUriCredentials => "AwsUriCredentials",
        ArgumentFault::OidcProperty => "OidcProperty",
        ArgumentFault::OidcCallbackWithEnvironment => "OidcCallbackWithEnvironment",
        ArgumentFault::OidcResourceMissing => "OidcResourceMissing",
        ArgumentFault::OidcResourceGiven => "OidcResourceGiven",
        ArgumentFault::OidcSource => "OidcSource",
        ArgumentFault::OidcPassword => "OidcPassword",
        ArgumentFault::OidcEnvironment => "OidcEnvironment",
        ArgumentFault::OidcHostsNotArray => "OidcHostsNotArray",
    }
}

fn response_name(fault: &ResponseFault) -> &'static str
    ensures { result.now ≡ response_name fault.now }
{
    match fault {
        ResponseFault::OpCode(_) => "OpCode",
        ResponseFault::OverMaximum => "OverMaximum",
        ResponseFault::Compressed => "Compressed",
        ResponseFault::NotMessage => "NotMessage",
        ResponseFault::Sections => "Sections",
        ResponseFault::Body => "Body",
        ResponseFault::Hello => "Hello",
        ResponseFault::SessionTimeout => "SessionTimeout",
        ResponseFault::NoN => "NoN",
        ResponseFault::NNotNumber => "NNotNumber",
    }
}

fn auth_name(fault: &AuthFault) -> &'static str
    ensures { result.now ≡ auth_name fault.now }
{
    match fault {
        AuthFault::NoUsername => "NoUsername",
        AuthFault::NoPassword => "NoPassword",
        AuthFault::PropertiesGiven => "PropertiesGiven",
        AuthFault::MongoDbCr => "MongoDbCr",
        AuthFault::Refused(_) => "Refused",
        AuthFault::Malformed => "Malformed",
        AuthFault::EndedEarly => "EndedEarly",
        AuthFault::Nonce => "Nonce",
        AuthFault::CountUnreadable => "CountUnreadable",
        AuthFault::CountLow => "CountLow",
        AuthFault::CountHigh => "CountHigh",
        AuthFault::Conversation => "Conversation",
        AuthFault::ServerError(_) => "ServerError",
        AuthFault::Verifier => "Verifier",
        AuthFault::NotCompleted => "NotCompleted",
        AuthFault::PasswordControl => "PasswordControl",
        AuthFault::X509Failed => "X509Failed",
        AuthFault::AwsSource => "AwsSource",
        AuthFault::AwsNonceLength => "AwsNonceLength",
        AuthFault::AwsHostEmpty => "AwsHostEmpty",
        AuthFault::AwsHostLong => "AwsHostLong",
        AuthFault::AwsHostLabel => "AwsHostLabel",
        AuthFault::AwsHostCharacter => "AwsHostCharacter",
        AuthFault::AwsCredentialCharacter => "AwsCredentialCharacter",
        AuthFault::AwsNoProvider => "AwsNoProvider",
        AuthFault::AddressNotTcp => "AddressNotTcp",
        AuthFault::AllowedHostsNotTexts => "AllowedHostsNotTexts",
        AuthFault::HostNotAllowed => "HostNotAllowed",
        AuthFault::NoCallback => "NoCallback",
        AuthFault::EnvironmentUnsupported => "EnvironmentUnsupported",
        AuthFault::ReauthenticationUnsupported => "ReauthenticationUnsupported",
    }
}
