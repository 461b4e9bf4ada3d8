ghost use Rattle.std.specs.Prelude.{◌≡◌, IfOk, IfErr};
ghost use Rattle.mongo_wire.specs.declared.error.ErrorKind.TheVariants.{OutOfMemory};
ghost use Rattle.mongo_aws.specs.ClientFirst.{client_first};

use crate::keys::{BINDING, CLIENT_NONCE};
use mongo_bson::{GENERIC, RawDocumentBuf, RawValue};
use mongo_command::document_of;
use mongo_wire::Error;
use std::alloc::Global;

// No channel binding: the character `n`, as the specification writes it.
const NO_BINDING: i32 = 110;

/// The client's first message, `{r: nonce, p: 110}`: the nonce as a binary of the generic subtype, and that it binds no channel.
///
/// Want of memory is the only refusal.
pub fn client_first_payload(alloc: Global, nonce: &[u8; 32]) -> Result<RawDocumentBuf, Error>
    ensures payload { IfOk result (λ payload. payload ≡ client_first nonce.now) }
    ensures refused { IfErr result (λ e. e.kind ≡ OutOfMemory) }
{
    let nonce = Some((CLIENT_NONCE, RawValue::Binary(GENERIC, nonce)));
    let binding = Some((BINDING, RawValue::Int32(NO_BINDING)));
    let payload = document_of(alloc, &[nonce, binding])?;
    Ok(payload)
}
