ghost use Rattle.std.specs.Prelude.{List};
ghost use Rattle.mongo_bson.specs.Document.{Element};
ghost use Rattle.mongo_command.specs.Fields.{Answers, AreFields};
ghost use Rattle.mongo_command.specs.Field.{HoldsTable};

use crate::field::FieldFault;
use crate::fields::Fields;
use mongo_bson::RawDocument;
use std::alloc::Global;

// A value that is read from the fields of a document by a table of its own.
pub(crate) trait Table {
    // the elements whose table says the value
    ghost table: { List Element → Self → Type 0 };

    // The value that the fields say.
    fn of_fields(fields: &Fields<'_>) -> Result<Self, FieldFault>
        ensures { (elements : List Element) → AreFields elements fields.now → Answers table elements result };
}

// The value that a well-formed document says by a table.
//
// `Unreadable` exactly where it isn't well formed or the table says none.
pub(crate) fn read_table<T: Table>(
    alloc: Global,
    document: RawDocument<'_>,
) -> Result<T, FieldFault>
    ensures { Answers (HoldsTable T.table) document.entry.bytes.now result }
{
    match Fields::of_well_formed(alloc, document) {
        Ok(fields) => T::of_fields(&fields),
        Err(fault) => Err(fault),
    }
}
