ghost use Rattle.std.specs.Prelude.{◌≡◌, ◌⊎◌, ◌++◌, ◌∷◌, MatchOption};
ghost use Rattle.mongo_command.specs.Fields.{Answers};
ghost use Rattle.mongo_cursor.specs.Batch.{IsNamespace, HasNoDot};

use mongo_bson::{RawValue, Text};
use mongo_command::{FieldFault, FieldValue};
use std::alloc::Global;

// What stands between the names of a database and a collection.
const DOT: char = '.';

/// The collection that a cursor is in, and its database.
#[derive(Debug, Drop)]
pub(crate) struct Namespace {
    pub(crate) db: Text,
    pub(crate) collection: Text,
}

impl FieldValue for Namespace {
    ghost use Rattle.mongo_cursor.specs.Batch.{ReadsNamespace};

    ghost reads = { ReadsNamespace };

    fn read(alloc: Global, value: RawValue<'_>) -> Result<Namespace, FieldFault> {
        match value {
            RawValue::Str(text) => namespace_of(alloc, text),
            _ => Err(FieldFault::Unreadable),
        }
    }
}

// The namespace that a text means.
fn namespace_of(alloc: Global, text: &str) -> Result<Namespace, FieldFault>
    ensures { Answers IsNamespace text.now result }
{
    match cut_at_dot(text) {
        Some((db, collection)) if !db.is_empty() => Ok(Namespace {
            db: Text::from_slice(alloc, db)?,
            collection: Text::from_slice(alloc, collection)?,
        }),
        _ => Err(FieldFault::Unreadable),
    }
}

// What stands before the first dot of a text and behind it, or None where it has none.
fn cut_at_dot<'a>(text: &'a str) -> Option<(&'a str, &'a str)>
    ensures { MatchOption result (HasNoDot text.now) (λ p. HasNoDot p.0.now × (text.now ≡ p.0.now ++ (0x2E ∷ p.1.now))) }
{
    text.split_once(DOT)
}
