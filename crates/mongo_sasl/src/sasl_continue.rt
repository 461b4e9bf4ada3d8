use crate::commands::login_command;
use crate::keys::SASL_CONTINUE;
use crate::login_bodies::continue_body;
use mongo_bson::{BsonFault, Bytes, OwnedValue, Text};
use mongo_command::{Command, ServerApi};
use mongo_wire::Error;
use std::alloc::Global;

/// A later command of a login: the conversation's id, as the server gave it, and the client's next message.
#[derive(Debug, Drop)]
pub struct SaslContinue {
    source: Text,
    conversation_id: OwnedValue,
    payload: Bytes,
    server_api: Option<ServerApi>,
}

impl SaslContinue {
    ghost use Rattle.std.specs.Prelude.{◌≡◌, IfOk, IfErr};
    ghost use Rattle.mongo_command.specs.Exchange.{DocumentRefused};
    ghost use Rattle.mongo_sasl.specs.Commands.{continue_body, continue_command};

    /// The next step of a login on a database, the source of the user.
    pub fn new(
        source: Text,
        conversation_id: OwnedValue,
        payload: Bytes,
        server_api: Option<ServerApi>,
    ) -> SaslContinue
        ensures { result ≡ record { source = source; conversation_id = conversation_id; payload = payload; server_api = server_api } }
    {
        SaslContinue {
            source,
            conversation_id,
            payload,
            server_api,
        }
    }

    /// The command: `saslContinue: 1`, the conversation's id and the payload, a generic binary; on the source, with the
    /// server API.
    ///
    /// `Bson(TooLong)` where the body would pass 2147483647 bytes.
    pub fn into_command(self, alloc: Global) -> Result<Command, Error>
        ensures command { IfOk result (λ command. command ≡ continue_command self) }
        ensures refused { IfErr result (λ e. DocumentRefused e.kind (continue_body self.conversation_id self.payload)) }
    {
        let body = continue_body(alloc, &self.conversation_id, &self.payload)?;
        login_command(
            alloc,
            SASL_CONTINUE,
            self.source.as_str(),
            body,
            self.server_api,
        )
    }

    /// A copy of the step.
    pub fn try_clone(&self, alloc: Global) -> Result<SaslContinue, BsonFault>
        ensures copied { IfOk result (λ step. step ≡ self.now) }
        ensures refused { IfErr result (λ fault. fault ≡ BsonFault.OutOfMemory) }
    {
        Ok(SaslContinue {
            source: self.source.try_clone(alloc)?,
            conversation_id: self.conversation_id.try_clone(alloc)?,
            payload: self.payload.try_clone(alloc)?,
            server_api: self.server_api,
        })
    }
}
