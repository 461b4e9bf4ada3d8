//! The properties of a mechanism: a JSON object, as a BSON document.
ghost use Rattle.std.specs.Prelude.{◌≡◌, ◌+◌, ℕ, List, Some, OnOk, IfErr};
ghost use Rattle.std.specs.Fmt.{decimal};
ghost use Rattle.serde_json.specs.View.{view, items_view, members_view};
ghost use Rattle.mongo_bson.specs.Framed.{IsFramed};
ghost use Rattle.mongo_bson.specs.Value.{element_of};
ghost use Rattle.mongo_settings.specs.Kinds.{Means};
ghost use Rattle.mongo_settings.specs.Properties.{plain_element, property_element, keyed, array_in, document_in, IsPut, CannotPut};

use crate::settings::SettingsError;
use crate::settings::reading::SettingValue;
use mongo_bson::{RawArrayBuf, RawDocumentBuf, RawValue};
use serde_json::{Map, Value};
use std::alloc::Global;

/// An object whose values are texts, numbers that an int64 holds, or arrays of these.
impl SettingValue for RawDocumentBuf {
    ghost use Rattle.mongo_settings.specs.Properties.{properties_in};

    ghost meaning = { properties_in };

    fn read(alloc: Global, value: &Value) -> Result<RawDocumentBuf, SettingsError> {
        match value.as_object() {
            Some(members) => properties_document(alloc, members),
            None => Err(SettingsError::BadSettings),
        }
    }
}

// The document of an object's members, in the order of its keys.
fn properties_document(
    alloc: Global,
    members: &Map<String, Value>,
) -> Result<RawDocumentBuf, SettingsError>
    ensures { Means (λ d. d) result (document_in (members_view members.now.entries)) }
{
    let mut document = RawDocumentBuf::new(alloc)?;
    for (key, value) in members.iter() {
        put_property(alloc, &mut document, key.as_str(), value)?;
    }
    Ok(document)
}

// Puts a property at the end of the document. A refusal leaves the document as it was.
fn put_property(
    alloc: Global,
    document: &mut RawDocumentBuf,
    key: &str,
    value: &Value,
) -> Result<(), SettingsError>
    ensures put { OnOk result (IsPut (keyed key.now (property_element key.now (view value.now))) document.old document.new) }
    ensures framed { OnOk result (IsFramed document.new) }
    ensures refused { IfErr result (λ e. CannotPut e (keyed key.now (property_element key.now (view value.now))) document.old) }
{
    match value.as_array() {
        Some(items) => {
            let array = array_of(alloc, items.as_slice())?;
            put_value(document, key, RawValue::Array(array.borrow()))
        }
        None => put_value(document, key, plain_value(value)?),
    }
}

fn put_value(
    document: &mut RawDocumentBuf,
    key: &str,
    value: RawValue<'_>,
) -> Result<(), SettingsError>
    ensures put { OnOk result (IsPut (keyed key.now (Some (element_of key.now value.entry))) document.old document.new) }
    ensures framed { OnOk result (IsFramed document.new) }
    ensures refused { IfErr result (λ e. CannotPut e (keyed key.now (Some (element_of key.now value.entry))) document.old) }
{
    match document.append(key, value) {
        Ok(()) => Ok(()),
        Err(fault) => Err(SettingsError::from(fault)),
    }
}

// The array of these items.
fn array_of(alloc: Global, items: &[Value]) -> Result<RawArrayBuf, SettingsError>
    ensures { Means (λ a. a.document) result (array_in (items_view items.now)) }
{
    let mut array = RawArrayBuf::new(alloc)?;
    for item in items {
        push_item(&mut array, item)?;
    }
    Ok(array)
}

// Puts an item at the end of the array. A refusal leaves the array as it was.
fn push_item(array: &mut RawArrayBuf, item: &Value) -> Result<(), SettingsError>
    ensures put { OnOk result (IsPut (plain_element (decimal array.old.count) (view item.now)) array.old.document array.new.document) }
    ensures counted { OnOk result (array.new.count ≡ array.old.count + 1) }
    ensures refused { IfErr result (λ e. CannotPut e (plain_element (decimal array.old.count) (view item.now)) array.old.document) }
{
    array.push(plain_value(item)?)?;
    Ok(())
}

// The text or the number that a value is.
fn plain_value(value: &Value) -> Result<RawValue<'_>, SettingsError>
    ensures { (key : List ℕ) → Means (element_of key) result (plain_element key (view value.now)) }
{
    if let Some(text) = value.as_str() {
        return Ok(RawValue::Str(text));
    }
    match value.as_i64() {
        Some(number) => Ok(RawValue::Int64(number)),
        None => Err(SettingsError::BadSettings),
    }
}
