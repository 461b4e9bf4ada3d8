//! The login of a number, and the server that knows its user.
ghost use Rattle.std.specs.Prelude.{◌≡◌, ◌+◌, ◌≤◌, ◌++◌, decimal, IfOk, IfErr, OnOk};
ghost use Rattle.mongo_wire.specs.declared.error.ErrorKind.TheVariants.{OutOfMemory};
ghost use Rattle.mongo_server.specs.Server.{Serves};
ghost use Rattle.mongo_generate.specs.Generated.{version_at, authentication_at, nonces_at};
ghost use Rattle.mongo_generate.specs.Login.{IsAuthenticationClient};

use crate::UserLogin;
use itoa::Buffer;
use mongo_bson::{BsonFault, Bytes, Text};
use mongo_establish::{Error, Nonces, ScramVersion, want_of_memory};
use mongo_mac::Steps;
use mongo_server::{ServerCore, ServerUser};
use std::alloc::{AllocError, Global};
use std::sync::ledger::Ledger;

// The iteration count of each login.
const COUNT: u32 = 4096;

impl UserLogin {
    ghost use Rattle.std.specs.Prelude.{◌≡◌, IfOk};
    ghost use Rattle.mongo_generate.specs.Generated.{authentication_at, nonces_at};
    ghost use Rattle.mongo_generate.specs.Login.{IsAuthenticationClient};

    /// The login of this number: by SCRAM-SHA-1 where it is even, else by SCRAM-SHA-256; user `u` and the number modulo 7,
    /// password `p` and the number modulo 3; the first nonce is 32 bytes of the number modulo 256, and the second of the
    /// next number.
    pub fn generated(alloc: Global, number: u32) -> Result<UserLogin, AllocError>
        ensures login { IfOk result (IsAuthenticationClient (authentication_at number)) }
        ensures nonces { IfOk result (λ login. login.inputs.nonces ≡ nonces_at number) }
    {
        match numbered_login(alloc, number) {
            Ok(login) => Ok(login),
            Err(error) => Err(want_of_memory(error)),
        }
    }
}

fn numbered_login(alloc: Global, number: u32) -> Result<UserLogin, Error>
    ensures login { IfOk result (IsAuthenticationClient (authentication_at number)) }
    ensures nonces { IfOk result (λ login. login.inputs.nonces ≡ nonces_at number) }
    ensures refused { IfErr result (λ e. e.kind ≡ OutOfMemory) }
{
    let username = username_at(alloc, number)?;
    let password = password_at(alloc, number)?;
    let nonces = Nonces {
        first: [(number % 256) as u8; 32],
        second: [((number % 256 + 1) % 256) as u8; 32],
    };
    UserLogin::of_user(
        alloc,
        version_at(number),
        username.as_str(),
        password.as_str(),
        nonces,
    )
}

/// The server that knows the user of the login of this number, by a salt of 16 bytes of the number modulo 5 and 4096
/// iterations, which are 4096 steps here. It puts `srv` behind a client's nonce.
pub fn generated_server<G: Ledger>(
    alloc: Global,
    number: u32,
    steps: &mut Steps<G>,
) -> Result<ServerCore, AllocError>
    ensures serves { IfOk result (λ server. Serves server (authentication_at number)) }
    ensures cost { OnOk result (steps.new ≡ steps.old + 4096) }
    ensures steps { steps.old ≤ steps.new }
{
    match numbered_server(alloc, number, steps) {
        Ok(server) => Ok(server),
        Err(error) => Err(want_of_memory(error)),
    }
}

fn numbered_server<G: Ledger>(
    alloc: Global,
    number: u32,
    steps: &mut Steps<G>,
) -> Result<ServerCore, Error>
    ensures serves { IfOk result (λ server. Serves server (authentication_at number)) }
    ensures refused { IfErr result (λ e. e.kind ≡ OutOfMemory) }
    ensures cost { OnOk result (steps.new ≡ steps.old + 4096) }
    ensures steps { steps.old ≤ steps.new }
{
    let username = username_at(alloc, number)?;
    let password = password_at(alloc, number)?;
    let user = ServerUser::new(
        alloc,
        version_at(number),
        username.as_str(),
        password.as_str(),
        Bytes::from_slice(alloc, &[(number % 5) as u8; 16])?,
        COUNT,
        steps,
    )?;
    Ok(ServerCore::new(user, Text::from_slice(alloc, "srv")?))
}

fn version_at(number: u32) -> ScramVersion
    ensures { result ≡ version_at number }
{
    if number % 2 == 0 {
        ScramVersion::Sha1
    } else {
        ScramVersion::Sha256
    }
}

fn username_at(alloc: Global, number: u32) -> Result<Text, BsonFault>
    ensures text { IfOk result (λ text. text ≡ (authentication_at number).username) }
    ensures refused { IfErr result (λ fault. fault ≡ BsonFault.OutOfMemory) }
{
    lettered(alloc, "u", number % 7)
}

fn password_at(alloc: Global, number: u32) -> Result<Text, BsonFault>
    ensures text { IfOk result (λ text. text ≡ (authentication_at number).password) }
    ensures refused { IfErr result (λ fault. fault ≡ BsonFault.OutOfMemory) }
{
    lettered(alloc, "p", number % 3)
}

// A letter and a number.
fn lettered(alloc: Global, letter: &str, number: u32) -> Result<Text, BsonFault>
    ensures text { IfOk result (λ text. text ≡ letter.now ++ decimal number) }
    ensures refused { IfErr result (λ fault. fault ≡ BsonFault.OutOfMemory) }
{
    let mut text = Text::from_slice(alloc, letter)?;
    let mut digits = Buffer::new();
    text.push_str(digits.format(number))?;
    Ok(text)
}
