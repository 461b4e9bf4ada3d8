//! What is said of a stream's end, for people.

ghost use Rattle.std.specs.Prelude.{◌≡◌, IfOk};
ghost use Rattle.mongo_service.specs.Report.{report_text, user_line, ending_line};

use crate::fault::ServeFault;
use crate::serve::Served;
use mongo_bson::{BsonFault, Text};
use std::alloc::Global;

/// Two lines: who was logged in, and how the stream ended.
pub fn report_text(alloc: Global, served: &Served) -> Result<Text, BsonFault>
    ensures { IfOk result (λ text. text ≡ report_text served.now) }
{
    let mut text = user_line(alloc, &served.user)?;
    text.push_str(end_of(served.fault))?;
    Ok(text)
}

// Who was logged in.
fn user_line(alloc: Global, user: &Option<Text>) -> Result<Text, BsonFault>
    ensures { IfOk result (λ text. text ≡ user_line user.now) }
{
    match user {
        Some(name) => {
            let mut text = Text::from_slice(alloc, "logged in: \"")?;
            text.push_str(name.as_str())?;
            text.push_str("\"\n")?;
            Ok(text)
        }
        None => Text::from_slice(alloc, "nobody was logged in\n"),
    }
}

// How the stream ended.
fn end_of(fault: Option<ServeFault>) -> &'static str
    ensures { result.now ≡ ending_line fault }
{
    match fault {
        None => "the client ended its stream\n",
        Some(ServeFault::ReadFault) => "the link failed to give bytes\n",
        Some(ServeFault::WriteFault) => "the link failed to take bytes\n",
        Some(ServeFault::CutFrame) => "the stream ended within a frame\n",
        Some(ServeFault::NoFrame) => "what came is no frame of this protocol\n",
        Some(ServeFault::NoHello) => "an OP_QUERY asked for another command than hello\n",
        Some(ServeFault::ReplyTooLong) => "a reply is too long\n",
        Some(ServeFault::TooManyRequests) => "too many requests came\n",
        Some(ServeFault::OutOfMemory) => "out of memory\n",
    }
}
