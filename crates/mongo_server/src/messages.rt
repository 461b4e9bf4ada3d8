// What the server says (RFC 5802, sections 3 and 5.1).

ghost use Rattle.std.specs.Prelude.{◌≡◌, ◌++◌, IfOk, IfErr, OnOk};
ghost use Rattle.base64.specs.GeneralPurpose.{IsBytes};
ghost use Rattle.mongo_server.specs.ServerTexts.{server_first, server_final};
ghost use Rattle.mongo_server.specs.declared.fault.ServerFault.TheVariants.{OutOfMemory};

use crate::fault::ServerFault;
use itoa::Buffer;
use mongo_bson::Text;
use mongo_mac::Tag;
use mongo_scram::attributes::{NEXT_ITERATION_COUNT, NEXT_SALT, NONCE, VERIFIER};
use mongo_scram::encoded;
use std::alloc::Global;

/// The client's nonce and the server's suffix joined.
pub fn joined_nonce(alloc: Global, nonce: &str, suffix: &str) -> Result<Text, ServerFault>
    ensures text { IfOk result (λ text. text ≡ nonce.now ++ suffix.now) }
    ensures refused { IfErr result (λ fault. fault ≡ OutOfMemory) }
{
    Ok(Text::from_string([nonce, suffix].concat(alloc)?))
}

/// The server's first message: `r=` nonce `,s=` salt in base64 `,i=` iteration count.
pub fn server_first_text(
    alloc: Global,
    nonce: &str,
    salt: &[u8],
    count: u32,
) -> Result<Text, ServerFault>
    ensures text { IfOk result (λ text. text ≡ server_first nonce.now salt.now count) }
    ensures bytes { OnOk result (IsBytes salt.now) }
    ensures refused { IfErr result (λ fault. fault ≡ OutOfMemory) }
{
    let salt = encoded(alloc, salt)?;
    let mut digits = Buffer::new();
    let text = [
        NONCE,
        nonce,
        NEXT_SALT,
        salt.as_str(),
        NEXT_ITERATION_COUNT,
        digits.format(count),
    ]
    .concat(alloc)?;
    Ok(Text::from_string(text))
}

/// The server's last message: `v=` and the verifier in base64.
pub fn server_final_text(alloc: Global, verifier: &Tag) -> Result<Text, ServerFault>
    ensures text { IfOk result (λ text. text ≡ server_final verifier.now) }
    ensures refused { IfErr result (λ fault. fault ≡ OutOfMemory) }
{
    let verifier = encoded(alloc, verifier.as_bytes())?;
    Ok(Text::from_string([VERIFIER, verifier.as_str()].concat(alloc)?))
}
