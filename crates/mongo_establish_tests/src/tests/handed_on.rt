use super::failing::HELLO_OF_USER;
use super::{Who, address, given, options, user};
use mongo_establish::{
    AuthMechanism, ClientFirst, ClientOptions, Credential, ServerApi, ServerApiVersion,
    auth_options_from_options, build_speculative_client_first,
};
use std::alloc::Global;
use std::test::Fail;

// `authenticate: 1`, `mechanism: "MONGODB-X509"` and `username: "user"`, as BSON 1.1 lays a document out.
const AUTHENTICATE: &[u8] =
    b"F\0\0\0\x10authenticate\0\x01\0\0\0\x02mechanism\0\x0d\0\0\0MONGODB-X509\0\x02username\0\x05\0\0\0user\0\0";

// The first message of a user's login by this mechanism, which asks nothing of the server's hello.
pub(super) fn first_of(
    alloc: Global,
    mechanism: AuthMechanism,
    user: &Credential,
) -> Result<Option<ClientFirst>, Fail> {
    let address = address(alloc)?;
    given(build_speculative_client_first(alloc, &mechanism, user, &address, &[0; 32]))
}

// What goes with a hello.
trait Goes {
    fn is_document(&self, alloc: Global, wanted: &[u8]) -> Result<bool, Fail>;
}

impl Goes for ClientFirst {
    fn is_document(&self, alloc: Global, wanted: &[u8]) -> Result<bool, Fail> {
        Ok(
            first_is(alloc, self, wanted)?
                && first_is(alloc, &given(self.try_clone(alloc))?, wanted)?,
        )
    }
}

fn first_is(alloc: Global, first: &ClientFirst, wanted: &[u8]) -> Result<bool, Fail> {
    Ok(given(first.to_document(alloc))?.as_bytes() == wanted)
}

// Whether there is a first message of this document, or none.
fn is_first<F: Goes + Drop>(
    alloc: Global,
    first: Result<Option<F>, Fail>,
    wanted: Option<&[u8]>,
) -> Result<bool, Fail> {
    match (&first?, wanted) {
        (Some(first), Some(wanted)) => first.is_document(alloc, wanted),
        (None, None) => Ok(true),
        _ => Ok(false),
    }
}

// Whether the user's first message by this mechanism is this document.
fn goes_first(
    alloc: Global,
    mechanism: AuthMechanism,
    wanted: Option<&[u8]>,
) -> Result<bool, Fail> {
    let user = user(alloc, Who::Negotiated)?;
    is_first(alloc, first_of(alloc, mechanism, &user), wanted)
}

#[test]
fn a_first_message_is_the_one_that_a_hello_carries(rt: HostRuntime) -> Result<(), Fail> {
    let carried = HELLO_OF_USER.get(129..296);
    assert!(rt; goes_first(rt.alloc(), AuthMechanism::ScramSha256, carried)?);
    assert!(rt; goes_first(rt.alloc(), AuthMechanism::MongoDbX509, Some(AUTHENTICATE))?);
    assert!(rt; goes_first(rt.alloc(), AuthMechanism::Plain, None)?);
    Ok(())
}

const STRICT: ServerApi = ServerApi {
    version: ServerApiVersion::V1,
    strict: Some(true),
    deprecation_errors: None,
};

// The stable API that a login's commands carry.
fn api_of(alloc: Global, options: &ClientOptions) -> Result<Option<ServerApi>, Fail> {
    Ok(given(auth_options_from_options(alloc, options))?.server_api)
}

// Whether a login's commands carry the stable API that a client's options give.
fn carries(alloc: Global, api: Option<ServerApi>) -> Result<bool, Fail> {
    let options = options(alloc, api)?;
    let carried = api_of(alloc, &options);
    drop(options);
    Ok(carried? == api)
}

#[test]
fn a_login_carries_its_clients_stable_api(rt: HostRuntime) -> Result<(), Fail> {
    assert!(rt; carries(rt.alloc(), None)?);
    assert!(rt; carries(rt.alloc(), Some(STRICT))?);
    Ok(())
}
