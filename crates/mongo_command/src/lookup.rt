ghost use Rattle.std.specs.Prelude.{◌≡◌, List};
ghost use Rattle.mongo_bson.specs.Document.{Element, IsDocument};
ghost use Rattle.mongo_command.specs.Field.{field_of, IsFilled};
ghost use Rattle.mongo_command.specs.Fields.{IsValueOf, first_entry};

use mongo_bson::{RawDocument, RawValue};

// The value of the first element of a key, or None where the document has none.
pub(crate) fn value_in<'a>(document: RawDocument<'a>, key: &str) -> Option<RawValue<'a>>
    requires { IsFilled document.bytes.now }
    ensures { (elements : List Element) → IsDocument document.entry.bytes.now elements → IsValueOf (field_of key.now elements) result }
{
    match document.get(key) {
        Ok(found) => found,
        Err(_) => unreachable!(),
    }
}

// The value of the first entry of a key.
pub(crate) fn value_of_key<'a>(
    entries: &[(&'a str, RawValue<'a>)],
    key: &str,
) -> Option<RawValue<'a>>
    ensures { result ≡ first_entry key.now entries.now }
{
    for (name, value) in entries {
        if *name == key {
            return Some(*value);
        }
    }
    None
}
