ghost use Rattle.std.specs.Prelude.{◌≡◌, Some, IfOk, IfErr};
ghost use Rattle.mongo_wire.specs.declared.error.ErrorKind.TheVariants.{OutOfMemory};

use crate::ClientFirst;
use mongo_bson::RawDocumentBuf;
use mongo_wire::Error;
use std::alloc::Global;

/// A first round that went with the hello: what the client said, and the server's answer to it.
#[derive(Debug, Drop)]
pub struct FirstRound {
    /// The client's first message.
    pub client_first: ClientFirst,
    /// The document that carries the server's first message.
    pub server_first: RawDocumentBuf,
}

impl FirstRound {
    ghost use Rattle.mongo_scram.specs.Client.{SameFirst, speculated_of};

    /// A copy of the round.
    pub fn try_clone(&self, alloc: Global) -> Result<FirstRound, Error>
        ensures client { IfOk result (λ round. SameFirst round.client_first self.now.client_first) }
        ensures said { IfOk result (λ round. speculated_of (Some round) ≡ speculated_of (Some self.now)) }
        ensures refused { IfErr result (λ e. e.kind ≡ OutOfMemory) }
    {
        Ok(FirstRound {
            client_first: self.client_first.try_clone(alloc)?,
            server_first: self.server_first.try_clone(alloc)?,
        })
    }
}
