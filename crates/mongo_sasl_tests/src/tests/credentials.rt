use super::{CredentialTexts, bytes, credential, given, text};
use mongo_bson::{BsonFault, RawDocumentBuf};
use mongo_sasl::{AuthMechanism, Credential, Moment};
use mongo_wire::ArgumentFault;
use std::alloc::Global;
use std::test::Fail;

const ANN: CredentialTexts<'static> = (Some("ann"), Some("orders"), Some("pencil"));

fn is_shown_as(alloc: Global, user: &Credential, text: &str) -> bool {
    match format!(in alloc; "{user:?}") {
        Ok(shown) => shown.as_str() == text,
        Err(_) => false,
    }
}

fn is_copied(alloc: Global, user: &Credential) -> bool {
    match user.try_clone(alloc) {
        Ok(copy) => copy == *user,
        Err(_) => false,
    }
}

fn properties(alloc: Global) -> Result<RawDocumentBuf, BsonFault> {
    RawDocumentBuf::from_bytes(bytes(alloc, b"\x0b\0\0\0\x0aCASE\0\0")?)
}

// A credential with properties beside all else.
fn whole(alloc: Global) -> Result<Credential, BsonFault> {
    let properties = properties(alloc)?;
    let mut made = credential(alloc, ANN)?;
    made.mechanism = Some(AuthMechanism::Plain);
    made.mechanism_properties = Some(properties);
    Ok(made)
}

// The same, its source and what follows set by calls.
fn set_whole(alloc: Global) -> Result<Credential, BsonFault> {
    let properties = properties(alloc)?;
    let source = text(alloc, Some("orders"))?;
    let made = credential(alloc, (Some("ann"), None, Some("pencil")))?;
    Ok(
        made.source(source)
            .mechanism(Some(AuthMechanism::Plain))
            .mechanism_properties(Some(properties)),
    )
}

#[test]
fn each_part_of_a_credential_is_set_by_its_call(rt: HostRuntime) -> Result<(), Fail> {
    assert!(rt; set_whole(rt.alloc())? == whole(rt.alloc())?);
    Ok(())
}

// Whether nothing of a credential is shown, its copy is it, and it is another than none.
fn is_hidden(alloc: Global, user: &Credential) -> bool {
    is_shown_as(alloc, user, "Credential(\"REDACTED\")")
        && is_copied(alloc, user)
        && user.resolved_source() == "$external"
}

// Whether a credential isn't the one that says nothing.
fn says_something(user: &Credential) -> bool {
    let none = Credential::new();
    *user != none && none.resolved_source() == "admin"
}

#[test]
fn nothing_of_a_credential_is_shown(rt: HostRuntime) -> Result<(), Fail> {
    let ann = whole(rt.alloc())?;
    assert!(rt; is_hidden(rt.alloc(), &ann) && says_something(&ann));
    Ok(())
}

// The hello of an empty document, as a credential asks in it.
fn asking(alloc: Global, user: &Credential) -> Result<RawDocumentBuf, Fail> {
    let mut hello = RawDocumentBuf::new(alloc)?;
    given(user.append_needed_mechanism_negotiation(alloc, &mut hello))?;
    Ok(hello)
}

// Whether a credential of these parts and this mechanism makes a hello of an empty document this.
fn asks(
    alloc: Global,
    parts: CredentialTexts<'_>,
    mechanism: Option<AuthMechanism>,
    wanted: &[u8],
) -> Result<bool, Fail> {
    let user = Credential {
        mechanism,
        ..credential(alloc, parts)?
    };
    Ok(asking(alloc, &user)?.as_bytes() == wanted)
}

// Who is asked for: a user without a mechanism, one with a mechanism, and none.
#[test]
fn mechanisms_are_asked_for(rt: HostRuntime) -> Result<(), Fail> {
    const ASKED: &[u8] = b"'\0\0\0\x02saslSupportedMechs\0\x0a\0\0\0admin.ann\0\0";
    const SILENT: &[u8] = b"\x05\0\0\0\0";
    let scram = Some(AuthMechanism::ScramSha1);
    assert!(rt; asks(rt.alloc(), ANN, None, ASKED)?);
    assert!(rt; asks(rt.alloc(), ANN, scram, SILENT)?);
    assert!(rt; asks(rt.alloc(), (None, None, None), None, SILENT)?);
    Ok(())
}

// Each mechanism, its name, and its source without and with a database of the connection string.
fn mechanism_at(place: u8) -> (AuthMechanism, &'static str, &'static str, &'static str) {
    match place {
        0 => (AuthMechanism::MongoDbCr, "MONGODB-CR", "admin", "orders"),
        1 => (AuthMechanism::ScramSha1, "SCRAM-SHA-1", "admin", "orders"),
        2 => (
            AuthMechanism::ScramSha256,
            "SCRAM-SHA-256",
            "admin",
            "orders",
        ),
        3 => (
            AuthMechanism::MongoDbX509,
            "MONGODB-X509",
            "$external",
            "$external",
        ),
        4 => (AuthMechanism::Plain, "PLAIN", "$external", "orders"),
        5 => (
            AuthMechanism::MongoDbAws,
            "MONGODB-AWS",
            "$external",
            "$external",
        ),
        _ => (
            AuthMechanism::MongoDbOidc,
            "MONGODB-OIDC",
            "$external",
            "$external",
        ),
    }
}

// Whether the mechanism of a place has its name and its sources.
fn has_name_and_sources(place: u8) -> bool {
    let (mechanism, name, source, source_of_orders) = mechanism_at(place);
    reads_as(name, Ok(mechanism))
        && mechanism.as_str() == name
        && mechanism.default_source(None) == source
        && mechanism.default_source(Some("orders")) == source_of_orders
}

#[test]
fn mechanisms_have_names_and_sources(rt: HostRuntime) {
    for place in 0..7 {
        assert!(rt; has_name_and_sources(place), "{place}");
    }
}

fn reads_as(name: &str, wanted: Result<AuthMechanism, ArgumentFault>) -> bool {
    name.parse::<AuthMechanism>() == wanted
}

#[test]
fn other_names_are_refused(rt: HostRuntime) {
    for (name, wanted) in [
        ("GSSAPI", ArgumentFault::MechanismGssapi),
        ("", ArgumentFault::MechanismUnknown),
        ("scram-sha-256", ArgumentFault::MechanismUnknown),
        ("PLAIN ", ArgumentFault::MechanismUnknown),
    ] {
        assert!(rt; reads_as(name, Err(wanted)), "{name}");
    }
}

// From the year 0 to the end of 9998.
#[test]
fn moments_are_of_the_years_0_to_9998(rt: HostRuntime) {
    for (ms, built) in [
        (-62_167_219_200_001, false),
        (-62_167_219_200_000, true),
        (253_370_764_799_999, true),
        (253_370_764_800_000, false),
    ] {
        let moment = Moment::new(ms).map(|moment| moment.ms());
        assert_eq!(rt; moment, built.then_some(ms));
    }
}
