use super::rows::{RowCheck, check_rows, given_text, parts, printed, spelled, words};
use super::{CredentialTexts, bytes, credential};
use mongo_bson::{BsonFault, RawDocumentBuf};
use mongo_sasl::{AuthMechanism, Credential};
use mongo_wire::ArgumentFault;
use std::alloc::Global;
use std::test::Fail;

/// What a mechanism answers of a credential.
type Judged = Result<(), ArgumentFault>;

fn answer_of(name: &str, given: &Credential, callback_given: bool) -> Judged {
    let mechanism: AuthMechanism = name.parse()?;
    mechanism.validate_credential(given, callback_given)
}

fn parts_judged(
    alloc: Global,
    mechanism: &str,
    parts: CredentialTexts<'_>,
) -> Result<Judged, BsonFault> {
    let given = credential(alloc, parts)?;
    Ok(answer_of(mechanism, &given, true))
}

// A mechanism, a user name, a source and a password, and the first rule that they break.
const PARTS: &str = "MONGODB-CR - - - => Ok(())
SCRAM-SHA-1 - - pencil => Err(ScramUsername)
SCRAM-SHA-256 '' - - => Ok(())
MONGODB-X509 ann $external - => Ok(())
MONGODB-X509 - orders - => Err(X509Source)
MONGODB-X509 - orders pencil => Err(X509Password)
PLAIN ann orders pencil => Ok(())
PLAIN - - - => Err(PlainUsername)
PLAIN '' - - => Err(PlainUsernameEmpty)
PLAIN ann - - => Err(PlainPassword)
MONGODB-AWS - orders - => Ok(())
MONGODB-AWS ann - - => Err(AwsUriCredentials)
MONGODB-AWS - - pencil => Err(AwsUriCredentials)
MONGODB-OIDC ann $external - => Ok(())
MONGODB-OIDC - orders pencil => Err(OidcSource)
MONGODB-OIDC - - pencil => Err(OidcPassword)";

/// What a mechanism answers of the parts of a row.
#[derive(Clone, Copy)]
struct GivenParts;

impl RowCheck for GivenParts {
    fn told(self, alloc: Global, row: &str) -> Result<String, Fail> {
        let (who, _) = parts(row);
        let (mechanism, who) = words(who);
        let (username, who) = words(who);
        let (source, password) = words(who);
        let texts = (
            given_text(username),
            given_text(source),
            given_text(password),
        );
        printed(alloc, &parts_judged(alloc, mechanism, texts)?)
    }
}

#[test]
fn parts_are_judged_in_their_order(rt: HostRuntime) -> Result<(), Fail> {
    check_rows(rt.alloc(), GivenParts, PARTS)
}

// A credential of these properties alone, or of a source and a password that break rules behind them.
fn with_properties(
    alloc: Global,
    properties: &[u8],
    broken_behind: bool,
) -> Result<Credential, BsonFault> {
    let properties = RawDocumentBuf::from_bytes(bytes(alloc, properties)?)?;
    let parts = if broken_behind {
        (None, Some("orders"), Some("pencil"))
    } else {
        (None, None, None)
    };
    let mut given = credential(alloc, parts)?;
    given.mechanism_properties = Some(properties);
    Ok(given)
}

fn properties_judged(
    alloc: Global,
    mechanism: &str,
    properties: &[u8],
    callback_given: bool,
    broken_behind: bool,
) -> Result<Judged, BsonFault> {
    let given = with_properties(alloc, properties, broken_behind)?;
    Ok(answer_of(mechanism, &given, callback_given))
}

// A mechanism, whether a callback is given, whether source and password break rules too, the properties, and the first rule that is
// broken: of AWS; properties that OIDC has; each rule before those behind it; the first of two properties of one name; and a truth
// value that is neither 0 nor 1.
const PROPERTIES: &str =
    r#"MONGODB-AWS - - => \x1b\0\0\0\x02TOKEN_RESOURCE\0\x02\0\0\0r\0\0 => Ok(())
MONGODB-AWS - - => 4\0\0\0\x02TOKEN_RESOURCE\0\x02\0\0\0r\0\x02AWS_SESSION_TOKEN\0\x02\0\0\0t\0\0 => Err(AwsUriCredentials)
MONGODB-OIDC callback - => \x05\0\0\0\0 => Ok(())
MONGODB-OIDC - - => 2\0\0\0\x02ENVIRONMENT\0\x06\0\0\0azure\0\x02TOKEN_RESOURCE\0\x02\0\0\0r\0\0 => Ok(())
MONGODB-OIDC - - => 0\0\0\0\x02TOKEN_RESOURCE\0\x02\0\0\0r\0\x02ENVIRONMENT\0\x04\0\0\0gcp\0\0 => Ok(())
MONGODB-OIDC - - => \x1a\0\0\0\x02ENVIRONMENT\0\x04\0\0\0k8s\0\0 => Ok(())
MONGODB-OIDC callback - => \x16\0\0\0\x10ENVIRONMENT\0\x01\0\0\0\0 => Ok(())
MONGODB-OIDC callback broken => _\0\0\0\x02ALLOWED_HOSTS\0\x02\0\0\0h\0\x02ENVIRONMENT\0\x05\0\0\0test\0\x02TOKEN_RESOURCE\0\x02\0\0\0r\0\x02AWS_SESSION_TOKEN\0\x02\0\0\0t\0\0 => Err(OidcProperty)
MONGODB-OIDC callback broken => F\0\0\0\x02ALLOWED_HOSTS\0\x02\0\0\0h\0\x02ENVIRONMENT\0\x05\0\0\0test\0\x02TOKEN_RESOURCE\0\x02\0\0\0r\0\0 => Err(OidcCallbackWithEnvironment)
MONGODB-OIDC - broken => /\0\0\0\x02ENVIRONMENT\0\x04\0\0\0gcp\0\x02ALLOWED_HOSTS\0\x02\0\0\0h\0\0 => Err(OidcResourceMissing)
MONGODB-OIDC - - => \x1c\0\0\0\x02ENVIRONMENT\0\x06\0\0\0azure\0\0 => Err(OidcResourceMissing)
MONGODB-OIDC - broken => F\0\0\0\x02ALLOWED_HOSTS\0\x02\0\0\0h\0\x02ENVIRONMENT\0\x05\0\0\0test\0\x02TOKEN_RESOURCE\0\x02\0\0\0r\0\0 => Err(OidcResourceGiven)
MONGODB-OIDC callback - => \x1b\0\0\0\x02TOKEN_RESOURCE\0\x02\0\0\0r\0\0 => Err(OidcResourceGiven)
MONGODB-OIDC - broken => 0\0\0\0\x02ALLOWED_HOSTS\0\x02\0\0\0h\0\x02ENVIRONMENT\0\x05\0\0\0test\0\0 => Err(OidcSource)
MONGODB-OIDC - - => 0\0\0\0\x02ALLOWED_HOSTS\0\x02\0\0\0h\0\x02ENVIRONMENT\0\x05\0\0\0test\0\0 => Err(OidcEnvironment)
MONGODB-OIDC - - => \x1a\0\0\0\x02ALLOWED_HOSTS\0\x02\0\0\0h\0\0 => Err(OidcHostsNotArray)
MONGODB-OIDC - - => 0\0\0\0\x02ENVIRONMENT\0\x04\0\0\0k8s\0\x02ENVIRONMENT\0\x05\0\0\0test\0\0 => Ok(())
MONGODB-AWS callback broken => \x09\0\0\0\x08f\0\x02\0 => Err(PropertiesMalformed)
MONGODB-OIDC callback broken => \x09\0\0\0\x08f\0\x02\0 => Err(PropertiesMalformed)
MONGODB-X509 callback broken => \x09\0\0\0\x08f\0\x02\0 => Err(X509Password)"#;

/// What a mechanism answers of the properties of a row.
#[derive(Clone, Copy)]
struct GivenProperties;

impl RowCheck for GivenProperties {
    fn told(self, alloc: Global, row: &str) -> Result<String, Fail> {
        let (who, rest) = parts(row);
        let (mechanism, who) = words(who);
        let (callback, broken) = words(who);
        let (properties, _) = parts(rest);
        let properties = spelled(alloc, properties)?;
        let judged = properties_judged(
            alloc,
            mechanism,
            properties.as_slice(),
            callback == "callback",
            broken == "broken",
        )?;
        printed(alloc, &judged)
    }
}

#[test]
fn properties_are_judged_in_their_order(rt: HostRuntime) -> Result<(), Fail> {
    check_rows(rt.alloc(), GivenProperties, PROPERTIES)
}
