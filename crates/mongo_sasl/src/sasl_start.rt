use crate::AuthMechanism;
use crate::commands::login_command;
use crate::keys::SASL_START;
use crate::login_bodies::start_body;
use mongo_bson::{BsonFault, Bytes, Text};
use mongo_command::{Command, ServerApi};
use mongo_wire::Error;
use std::alloc::Global;

/// The first command of a login: the mechanism and the client's first message.
#[derive(Debug, Drop)]
pub struct SaslStart {
    source: Text,
    mechanism: AuthMechanism,
    payload: Bytes,
    server_api: Option<ServerApi>,
}

impl SaslStart {
    ghost use Rattle.std.specs.Prelude.{◌≡◌, IfOk, IfErr};
    ghost use Rattle.mongo_command.specs.Exchange.{DocumentRefused};
    ghost use Rattle.mongo_sasl.specs.Commands.{start_body, start_command};

    /// The start of a login on a database, the source of the user.
    pub fn new(
        source: Text,
        mechanism: AuthMechanism,
        payload: Bytes,
        server_api: Option<ServerApi>,
    ) -> SaslStart
        ensures { result ≡ record { source = source; mechanism = mechanism; payload = payload; server_api = server_api } }
    {
        SaslStart {
            source,
            mechanism,
            payload,
            server_api,
        }
    }

    /// The command: `saslStart: 1`, the mechanism's name and the payload, a generic binary, and for SCRAM
    /// `options: {skipEmptyExchange: true}`; on the source, with the server API.
    ///
    /// `Bson(TooLong)` where the body would pass 2147483647 bytes.
    pub fn into_command(self, alloc: Global) -> Result<Command, Error>
        ensures command { IfOk result (λ command. command ≡ start_command self) }
        ensures refused { IfErr result (λ e. DocumentRefused e.kind (start_body self.mechanism self.payload)) }
    {
        let body = start_body(alloc, self.mechanism, &self.payload)?;
        login_command(
            alloc,
            SASL_START,
            self.source.as_str(),
            body,
            self.server_api,
        )
    }

    /// A copy of the start.
    pub fn try_clone(&self, alloc: Global) -> Result<SaslStart, BsonFault>
        ensures copied { IfOk result (λ start. start ≡ self.now) }
        ensures refused { IfErr result (λ fault. fault ≡ BsonFault.OutOfMemory) }
    {
        Ok(SaslStart {
            source: self.source.try_clone(alloc)?,
            mechanism: self.mechanism,
            payload: self.payload.try_clone(alloc)?,
            server_api: self.server_api,
        })
    }
}
