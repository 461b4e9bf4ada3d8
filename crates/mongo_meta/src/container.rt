ghost use Rattle.std.specs.Prelude.{◌≡◌, IfOk, IfErr};
ghost use Rattle.mongo_meta.specs.Providers.{container_in};

use crate::Environment;
use crate::keys::RUNTIME;
use mongo_bson::{BsonFault, RawDocumentBuf, RawValue};
use mongo_command::document_of;
use std::alloc::Global;

// The container that the client runs in: what runs it and what manages it, or None where neither is seen.
pub(crate) fn container_in(
    alloc: Global,
    env: &Environment,
) -> Result<Option<RawDocumentBuf>, BsonFault>
    ensures container { IfOk result (λ container. container ≡ container_in env.now) }
    ensures refused { IfErr result (λ fault. fault ≡ BsonFault.OutOfMemory) }
{
    let docker = Some((RUNTIME, RawValue::Str("docker")));
    let kubernetes = Some(("orchestrator", RawValue::Str("kubernetes")));
    match (env.dockerenv, env.is_set("KUBERNETES_SERVICE_HOST")) {
        (true, true) => Ok(Some(document_of(alloc, &[docker, kubernetes])?)),
        (true, false) => Ok(Some(document_of(alloc, &[docker])?)),
        (false, true) => Ok(Some(document_of(alloc, &[kubernetes])?)),
        (false, false) => Ok(None),
    }
}
