ghost use Rattle.std.specs.Prelude.{◌≡◌, ◌↔◌, All, IsTrue, option_copied, IfOk, IfErr};
ghost use Rattle.mongo_command.specs.Response.{reply_document};
ghost use Rattle.mongo_command.specs.WriteReply.{SaysOfWrite, insert_failure, WriteReplyRefused};
ghost use Rattle.mongo_exec.specs.Reply.{Said, IsInsertReply, IsPlaceIn, ReplyRefused};
ghost use Rattle.mongo_exec.specs.Told.{told_errors, told_concern, Tells, TellsOf};

use mongo_command::{RawCommandResponse, command_body};
use mongo_wire::{
    Error, ErrorKind, IndexedWriteError, InsertManyError, ResponseFault, WriteConcernError,
};
use std::alloc::Global;

// What the reply to the insert of a batch tells: how many documents the server counts, and what it refused, where it did.
#[derive(Debug, Drop)]
pub(crate) struct BatchReply {
    pub(crate) count: u64,
    pub(crate) refused: Option<InsertManyError>,
}

impl BatchReply {
    // The refused writes, by their places in the batch.
    pub(crate) fn errors(&self) -> &[IndexedWriteError]
        ensures { result.now ≡ told_errors self.now }
    {
        match &self.refused {
            Some(refused) => match &refused.write_errors {
                Some(errors) => errors.as_slice(),
                None => &[],
            },
            None => &[],
        }
    }

    // The write concern that wasn't met, where one wasn't.
    pub(crate) fn concern(&self) -> Option<&WriteConcernError>
        ensures { option_copied result ≡ told_concern self.now }
    {
        match &self.refused {
            Some(refused) => refused.write_concern_error.as_ref(),
            None => None,
        }
    }

    // Whether it counts and names no more than so many documents.
    fn is_of(&self, documents: usize) -> bool
        ensures { IsTrue result ↔ TellsOf documents self.now }
    {
        self.count <= documents as u64 && are_places_in(self.errors(), documents)
    }
}

// Whether each place is one of a list of so many.
fn are_places_in(errors: &[IndexedWriteError], many: usize) -> bool
    ensures { IsTrue result ↔ All (IsPlaceIn many) errors.now }
{
    'placing: for error in errors {
        if error.index as usize >= many {
            return false;
        }
    }
    true
}

// What a reply tells of the insert of so many documents.
//
// The refusals of `command_body`, then those of `extract_n`, then `InvalidResponse(Body)` where the refused writes aren't
// told of as they have to be, or where more documents are counted than there are, or a place is past them.
pub(crate) fn read_insert_reply(
    alloc: Global,
    response: &RawCommandResponse,
    documents: usize,
) -> Result<BatchReply, Error>
    ensures read { IfOk result (λ told. (said : Said) × IsInsertReply documents (reply_document response.now) said × Tells told said) }
    ensures within { IfOk result (TellsOf documents) }
    ensures refused { IfErr result (λ e. ReplyRefused e.kind documents (reply_document response.now)) }
{
    command_body(alloc, response)?;
    let count = response.extract_n()?;
    let refused = refused_writes(alloc, response)?;
    let told = BatchReply { count, refused };
    if told.is_of(documents) {
        Ok(told)
    } else {
        Err(ErrorKind::InvalidResponse(ResponseFault::Body).into())
    }
}

// What a reply says was refused, where something was.
fn refused_writes(
    alloc: Global,
    response: &RawCommandResponse,
) -> Result<Option<InsertManyError>, Error>
    ensures said { IfOk result (SaysOfWrite insert_failure (reply_document response.now)) }
    ensures refused { IfErr result (λ e. WriteReplyRefused e.kind (reply_document response.now)) }
{
    match response.validate_insert_many(alloc) {
        Ok(()) => Ok(None),
        Err(
            Error {
                kind: ErrorKind::InsertMany(refused),
            },
        ) => Ok(Some(refused)),
        Err(error) => Err(error),
    }
}
