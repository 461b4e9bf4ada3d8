ghost use Rattle.mongo_command.specs.Fields.{Answers};
ghost use Rattle.mongo_command.specs.WriteReply.{HoldsWriteErrors};

use crate::field::{FieldFault, FieldValue};
use crate::fields::Fields;
use crate::keys::{CODE, CODE_NAME, ERR_INFO, ERRMSG, ERROR_LABELS};
use crate::table::{Table, read_table};
use mongo_bson::{RawDocument, RawValue};
use mongo_wire::{IndexedWriteError, WriteConcernError, WriteError, WriteErrors};
use std::alloc::Global;

impl Table for IndexedWriteError {
    ghost use Rattle.mongo_command.specs.WriteReply.{IsWriteErrorTable};

    ghost table = { IsWriteErrorTable };

    fn of_fields(fields: &Fields<'_>) -> Result<IndexedWriteError, FieldFault> {
        let index = fields.required("index")?;
        let code = fields.required(CODE)?;
        let code_name = fields.optional(CODE_NAME)?;
        let message = fields.text_or_empty(ERRMSG)?;
        let details = fields.optional(ERR_INFO)?;
        let error = WriteError {
            code,
            code_name,
            message,
            details,
        };
        Ok(IndexedWriteError { index, error })
    }
}

impl Table for WriteConcernError {
    ghost use Rattle.mongo_command.specs.WriteReply.{IsConcernErrorTable};

    ghost table = { IsConcernErrorTable };

    fn of_fields(fields: &Fields<'_>) -> Result<WriteConcernError, FieldFault> {
        let code = fields.required(CODE)?;
        let code_name = fields.text_or_empty(CODE_NAME)?;
        let message = fields.text_or_empty(ERRMSG)?;
        let details = fields.optional(ERR_INFO)?;
        let labels = fields.texts_or_empty(ERROR_LABELS)?;
        Ok(WriteConcernError {
            code,
            code_name,
            message,
            details,
            labels,
        })
    }
}

impl FieldValue for IndexedWriteError {
    ghost use Rattle.mongo_command.specs.WriteReply.{ReadsWriteError};

    ghost reads = { ReadsWriteError };

    fn read(alloc: Global, value: RawValue<'_>) -> Result<IndexedWriteError, FieldFault> {
        match value {
            RawValue::Document(document) => read_table(alloc, document),
            _ => Err(FieldFault::Unreadable),
        }
    }
}

impl FieldValue for WriteConcernError {
    ghost use Rattle.mongo_command.specs.WriteReply.{ReadsConcernError};

    ghost reads = { ReadsConcernError };

    fn read(alloc: Global, value: RawValue<'_>) -> Result<WriteConcernError, FieldFault> {
        match value {
            RawValue::Document(document) => read_table(alloc, document),
            _ => Err(FieldFault::Unreadable),
        }
    }
}

impl FieldValue for WriteErrors {
    ghost use Rattle.mongo_command.specs.WriteReply.{ReadsWriteErrors};

    ghost reads = { ReadsWriteErrors };

    fn read(alloc: Global, value: RawValue<'_>) -> Result<WriteErrors, FieldFault> {
        match value {
            RawValue::Array(array) => write_errors_in(alloc, array),
            _ => Err(FieldFault::Unreadable),
        }
    }
}

// The write errors of an array of write errors alone.
fn write_errors_in(alloc: Global, array: RawDocument<'_>) -> Result<WriteErrors, FieldFault>
    ensures { Answers HoldsWriteErrors array.entry.bytes.now result }
{
    let mut errors = WriteErrors::new(alloc);
    for item in array.iter() {
        let Ok((_index, value)) = item else {
            return Err(FieldFault::Unreadable);
        };
        let error = IndexedWriteError::read(alloc, value)?;
        errors.push(error)?;
    }
    Ok(errors)
}
