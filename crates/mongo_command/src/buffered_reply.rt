ghost use Rattle.std.specs.Prelude.{◌≡◌};
ghost use Rattle.mongo_wire.specs.Buffer.{held_document};
ghost use Rattle.mongo_command.specs.Exchange.{HoldsReply};

use mongo_bson::RawDocument;
use mongo_wire::FrameBuffer;

/// The document of the reply that the buffer holds.
pub fn held_reply(buffer: &FrameBuffer) -> RawDocument<'_>
    requires { HoldsReply buffer.now }
    ensures { result.bytes.now ≡ held_document buffer.now }
{
    match buffer.message() {
        Some(message) => message.document_payload,
        None => unreachable!(),
    }
}
