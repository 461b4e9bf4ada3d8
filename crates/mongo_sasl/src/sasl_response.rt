use crate::SaslView;
use mongo_bson::{BsonFault, Bytes, OwnedValue, RawDocument};
use mongo_wire::Error;
use std::alloc::Global;

/// What the reply to a command of a login says.
#[derive(Debug, Drop)]
pub struct SaslResponse {
    /// The conversation that the reply is of: a value of any kind.
    pub conversation_id: OwnedValue,
    /// Whether the conversation is done.
    pub done: bool,
    /// The server's message.
    pub payload: Bytes,
}

impl SaslResponse {
    ghost use Rattle.std.specs.Prelude.{◌≡◌, IfOk, IfErr};
    ghost use Rattle.mongo_sasl.specs.Reply.{IsSaslReply, SaslRefused};

    /// Reads the reply to a command of a login, with the refusals of [`SaslView::parse`].
    pub fn parse(alloc: Global, response: RawDocument<'_>) -> Result<SaslResponse, Error>
        ensures read { IfOk result (IsSaslReply response.entry.bytes.now) }
        ensures refused { IfErr result (λ e. SaslRefused response.entry.bytes.now e.kind) }
    {
        match SaslView::parse(alloc, response) {
            Ok(view) => Ok(view.to_response(alloc)?),
            Err(refused) => Err(refused),
        }
    }

    /// A copy of what the reply says.
    pub fn try_clone(&self, alloc: Global) -> Result<SaslResponse, BsonFault>
        ensures copied { IfOk result (λ response. response ≡ self.now) }
        ensures refused { IfErr result (λ fault. fault ≡ BsonFault.OutOfMemory) }
    {
        Ok(SaslResponse {
            conversation_id: self.conversation_id.try_clone(alloc)?,
            done: self.done,
            payload: self.payload.try_clone(alloc)?,
        })
    }
}
