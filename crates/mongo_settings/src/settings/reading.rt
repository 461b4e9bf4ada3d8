//! How the value of a key is read.
ghost use Rattle.std.specs.Prelude.{◌≡◌, Option, map};
ghost use Rattle.serde_json.specs.Data.{Data};
ghost use Rattle.serde_json.specs.View.{view, items_view, members_view};
ghost use Rattle.mongo_settings.specs.Kinds.{optional, required, object_of, each_key, is_among, two_in, two_of, Means};

use crate::settings::SettingsError;
use serde_json::{Map, Value};
use std::alloc::Global;

/// A kind of value that a key of settings can have.
pub trait SettingValue {
    // what a value of JSON means; None where it is of another kind
    ghost meaning: { Data → Option Self };

    /// What a value means. `BadSettings` exactly where it is of another kind.
    fn read(alloc: Global, value: &Value) -> Result<Self, SettingsError>
        ensures { Means (λ v. v) result (meaning (view value.now)) };
}

/// What the value of a key means; None where the object hasn't the key. `BadSettings` exactly where it has the key with
/// a value of another kind.
pub fn optional<T: SettingValue>(
    alloc: Global,
    object: &Value,
    key: &str,
) -> Result<Option<T>, SettingsError>
    ensures { Means (λ v. v) result (optional key.now T.meaning (view object.now)) }
{
    match object.get(key) {
        Some(value) => match T::read(alloc, value) {
            Ok(value) => Ok(Some(value)),
            Err(error) => Err(error),
        },
        None => Ok(None),
    }
}

/// What the value of a key means that has to be there. `BadSettings` exactly where the object hasn't the key, or has it
/// with a value of another kind.
pub fn required<T: SettingValue>(
    alloc: Global,
    object: &Value,
    key: &str,
) -> Result<T, SettingsError>
    ensures { Means (λ v. v) result (required key.now T.meaning (view object.now)) }
{
    match object.get(key) {
        Some(value) => T::read(alloc, value),
        None => Err(SettingsError::BadSettings),
    }
}

/// Judges the keys of an object: `BadSettings` exactly where the value is no object, or has a key that isn't among these.
pub fn judge_object(value: &Value, names: &[&str]) -> Result<(), SettingsError>
    ensures { Means (λ u. u) result (object_of (map (λ name. name.now) names.now) (view value.now)) }
{
    match value.as_object() {
        Some(members) if has_only(members, names) => Ok(()),
        _ => Err(SettingsError::BadSettings),
    }
}

#[tactic(auto, unfolding(crate::specs::Kinds::each_key))]
fn has_only(members: &Map<String, Value>, names: &[&str]) -> bool
    ensures { result ≡ each_key (is_among (map (λ name. name.now) names.now)) (members_view members.now.entries) }
{
    for (key, _member) in members.iter() {
        if !is_among(names, key.as_str()) {
            return false;
        }
    }
    true
}

#[tactic(auto, unfolding(crate::specs::Kinds::is_among))]
fn is_among(names: &[&str], name: &str) -> bool
    ensures { result ≡ is_among (map (λ one. one.now) names.now) name.now }
{
    for one in names {
        if *one == name {
            return true;
        }
    }
    false
}

/// The two values of an array. `BadSettings` exactly where the value is no array, or has another number of them.
pub fn two_in(value: &Value) -> Result<(&Value, &Value), SettingsError>
    ensures { Means (λ two. (view two.0.now, view two.1.now)) result (two_in (view value.now)) }
{
    match value.as_array() {
        Some(items) => two_of(items.as_slice()),
        None => Err(SettingsError::BadSettings),
    }
}

fn two_of(items: &[Value]) -> Result<(&Value, &Value), SettingsError>
    ensures { Means (λ two. (view two.0.now, view two.1.now)) result (two_of (items_view items.now)) }
{
    match items {
        [first, second] => Ok((first, second)),
        _ => Err(SettingsError::BadSettings),
    }
}
