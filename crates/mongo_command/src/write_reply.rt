ghost use Rattle.std.specs.Prelude.{◌≡◌, None, option_copied, IfOk, IfErr, OnOk};
ghost use Rattle.mongo_wire.specs.declared.error.ErrorKind.TheVariants.{Write};
ghost use Rattle.mongo_command.specs.WriteReply.{IsWriteReply, WriteReplyRefused, first_error, first_cause, write_failure, insert_failure, SaysOfWrite, SingleWriteRefused, InsertManyRefused, Validates};

use crate::command_reply::refused_as;
use crate::field::FieldFault;
use crate::fields::Fields;
use crate::keys::ERROR_LABELS;
use crate::table::{Table, read_table};
use mongo_bson::{BsonFault, RawDocument};
use mongo_wire::{
    Error, ErrorKind, InsertManyError, ResponseFault, WriteConcernError, WriteError, WriteErrors,
    WriteFailure, WriteFailureCause,
};
use std::alloc::Global;

impl Table for InsertManyError {
    ghost use Rattle.mongo_command.specs.WriteReply.{IsWriteReplyTable};

    ghost table = { IsWriteReplyTable };

    fn of_fields(fields: &Fields<'_>) -> Result<InsertManyError, FieldFault> {
        let write_errors = fields.optional("writeErrors")?;
        let write_concern_error = fields.optional("writeConcernError")?;
        let labels = fields.labels(ERROR_LABELS)?;
        Ok(InsertManyError {
            write_errors,
            write_concern_error,
            labels,
        })
    }
}

// Whether a single write was done, by the reply to it.
pub(crate) fn single_write(alloc: Global, document: RawDocument<'_>) -> Result<(), Error>
    ensures done { OnOk result (SaysOfWrite write_failure document.entry.bytes.now None) }
    ensures refused { IfErr result (λ e. SingleWriteRefused e.kind document.entry.bytes.now) }
{
    let reply = read_write_reply(alloc, document)?;
    told_of_write(alloc, &reply)
}

// Whether a single write was done, by what the reply to it says.
fn told_of_write(alloc: Global, reply: &InsertManyError) -> Result<(), Error>
    ensures { Validates Write (write_failure reply.now) result }
{
    match failure_of_write(alloc, reply)? {
        Some(failure) => Err(ErrorKind::Write(failure).into()),
        None => Ok(()),
    }
}

// Whether an insert of many documents was done, by the reply to it.
pub(crate) fn insert_many(alloc: Global, document: RawDocument<'_>) -> Result<(), Error>
    ensures done { OnOk result (SaysOfWrite insert_failure document.entry.bytes.now None) }
    ensures refused { IfErr result (λ e. InsertManyRefused e.kind document.entry.bytes.now) }
{
    let reply = read_write_reply(alloc, document)?;
    if reply.write_errors.is_some() || reply.write_concern_error.is_some() {
        Err(ErrorKind::InsertMany(reply).into())
    } else {
        Ok(())
    }
}

// What the reply to a write says of the refused writes and of the write concern.
//
// `InvalidResponse(Body)` where it isn't such a reply.
fn read_write_reply(alloc: Global, document: RawDocument<'_>) -> Result<InsertManyError, Error>
    ensures reply { IfOk result (IsWriteReply document.entry.bytes.now) }
    ensures refused { IfErr result (λ e. WriteReplyRefused e.kind document.entry.bytes.now) }
{
    match read_table(alloc, document) {
        Ok(reply) => Ok(reply),
        Err(fault) => Err(refused_as(ResponseFault::Body, fault)),
    }
}

// Why a single write was refused, where it was, by the reply to it.
fn failure_of_write(
    alloc: Global,
    reply: &InsertManyError,
) -> Result<Option<WriteFailure>, BsonFault>
    ensures failure { IfOk result (λ failure. failure ≡ write_failure reply.now) }
    ensures refused { IfErr result (λ fault. fault ≡ BsonFault.OutOfMemory) }
{
    match cause_of_write(alloc, reply)? {
        Some(cause) => Ok(Some(WriteFailure {
            cause,
            labels: reply.labels.try_clone(alloc)?,
        })),
        None => Ok(None),
    }
}

// The first write error, else the write concern error, where one is there.
fn cause_of_write(
    alloc: Global,
    reply: &InsertManyError,
) -> Result<Option<WriteFailureCause>, BsonFault>
    ensures cause { IfOk result (λ cause. cause ≡ first_cause (first_error reply.now.write_errors) reply.now.write_concern_error) }
    ensures refused { IfErr result (λ fault. fault ≡ BsonFault.OutOfMemory) }
{
    match first_error(&reply.write_errors) {
        Some(error) => Ok(Some(WriteFailureCause::WriteError(error.try_clone(alloc)?))),
        None => cause_of_concern(alloc, &reply.write_concern_error),
    }
}

// The write concern error as a cause, where it is there.
fn cause_of_concern(
    alloc: Global,
    error: &Option<WriteConcernError>,
) -> Result<Option<WriteFailureCause>, BsonFault>
    ensures cause { IfOk result (λ cause. cause ≡ first_cause None error.now) }
    ensures refused { IfErr result (λ fault. fault ≡ BsonFault.OutOfMemory) }
{
    match error {
        Some(error) => Ok(Some(WriteFailureCause::WriteConcernError(error.try_clone(alloc)?))),
        None => Ok(None),
    }
}

// The first write error, where there is one.
fn first_error(errors: &Option<WriteErrors>) -> Option<&WriteError>
    ensures { option_copied result ≡ first_error errors.now }
{
    match errors {
        Some(errors) => match errors.get(0) {
            Some(indexed) => Some(&indexed.error),
            None => None,
        },
        None => None,
    }
}
