//! Reading a command's object: the text of one JSON object in UTF-8, and the values of its keys.
//!
//! Want of memory may come in place of any answer here.
ghost use Rattle.std.specs.Prelude.{◌≡◌, ◌-◌, ◌/◌, ◌≤◌, map, length, take, IfErr, OnOk};
ghost use Rattle.serde_json.specs.View.{view, items_view, members_view};
ghost use Rattle.serde_json.specs.Written.{has_float};
ghost use Rattle.mongo_settings.specs.Kinds.{each_key, hex_bytes, hex_of, int32_in, is_among, joined_hex, joined_hex_in, object_of, optional, or_absent, required, IsHexJoined, Means, MeansNothing};
ghost use Rattle.mongo_settings.specs.Settings.{Gives, json_of, value_judged};

use mongo_bson::Bytes;
use mongo_settings::{MAXIMUM_SETTINGS_LENGTH, SettingsError};
use serde_json::{Category, Map, Value};
use std::alloc::Global;

/// The value of a text. `BadSettings` where it is longer than 4194304 bytes, isn't JSON in UTF-8 or holds a float.
#[tactic(auto, unfolding(mongo_settings::specs::Settings::value_judged))]
pub fn value_of(alloc: Global, text: &[u8]) -> Result<Value, SettingsError>
    ensures { Gives view result (value_judged text.now) }
{
    if text.len() > MAXIMUM_SETTINGS_LENGTH {
        return Err(SettingsError::BadSettings);
    }
    let value = json_of(alloc, text)?;
    if holds_float(&value) {
        return Err(SettingsError::BadSettings);
    }
    Ok(value)
}

#[tactic(auto, unfolding(mongo_settings::specs::Settings::json_of))]
fn json_of(alloc: Global, text: &[u8]) -> Result<Value, SettingsError>
    ensures { Gives view result (json_of text.now) }
{
    match Value::from_slice(alloc, text) {
        Ok(value) => Ok(value),
        Err(error) => match error.classify() {
            Category::Memory => Err(SettingsError::OutOfMemory),
            _ => Err(SettingsError::BadSettings),
        },
    }
}

// Whether the value is a float, or holds one at any depth.
fn holds_float(value: &Value) -> bool
    ensures { result ≡ has_float (view value.now) }
{
    match value {
        Value::Number(number) => number.is_f64(),
        Value::Array(items) => {
            for item in items {
                if holds_float(item) {
                    return true;
                }
            }
            false
        }
        Value::Object(members) => {
            for (_key, member) in members.iter() {
                if holds_float(member) {
                    return true;
                }
            }
            false
        }
        Value::Null | Value::Bool(_) | Value::String(_) => false,
    }
}

/// Judges the keys of an object: `BadSettings` exactly where the value is no object, or has a key that isn't among these.
pub fn judge_keys(value: &Value, names: &[&str]) -> Result<(), SettingsError>
    ensures { Means (λ u. u) result (object_of (map (λ name. name.now) names.now) (view value.now)) }
{
    match value.as_object() {
        Some(members) if has_only(members, names) => Ok(()),
        _ => Err(SettingsError::BadSettings),
    }
}

#[tactic(auto, unfolding(mongo_settings::specs::Kinds::each_key))]
fn has_only(members: &Map<String, Value>, names: &[&str]) -> bool
    ensures { result ≡ each_key (is_among (map (λ name. name.now) names.now)) (members_view members.now.entries) }
{
    for (key, _member) in members.iter() {
        if !is_among(names, key.as_str()) {
            return false;
        }
    }
    true
}

#[tactic(auto, unfolding(mongo_settings::specs::Kinds::is_among))]
fn is_among(names: &[&str], name: &str) -> bool
    ensures { result ≡ is_among (map (λ one. one.now) names.now) name.now }
{
    for one in names {
        if *one == name {
            return true;
        }
    }
    false
}

/// The int32 that a key has, or this where it is absent. `BadSettings` exactly where the key's value is another.
pub fn int32_or(object: &Value, key: &str, absent: i32) -> Result<i32, SettingsError>
    ensures { Means (λ n. n) result (or_absent absent (optional key.now int32_in (view object.now))) }
{
    match object.get(key) {
        Some(value) => int32_of(value),
        None => Ok(absent),
    }
}

fn int32_of(value: &Value) -> Result<i32, SettingsError>
    ensures { Means (λ n. n) result (int32_in (view value.now)) }
{
    match value.as_i64() {
        Some(number) => match i32::try_from(number) {
            Ok(number) => Ok(number),
            Err(_) => Err(SettingsError::BadSettings),
        },
        None => Err(SettingsError::BadSettings),
    }
}

/// The bytes of the hex texts in a key's array, joined. `BadSettings` exactly where the object hasn't the key, or has it with a value
/// of another kind.
pub fn joined_hex_in(alloc: Global, object: &Value, key: &str) -> Result<Bytes, SettingsError>
    ensures { Means (λ bytes. bytes) result (required key.now joined_hex_in (view object.now)) }
{
    match object.get(key) {
        Some(value) => joined_hex_of(alloc, value),
        None => Err(SettingsError::BadSettings),
    }
}

fn joined_hex_of(alloc: Global, value: &Value) -> Result<Bytes, SettingsError>
    ensures { Means (λ bytes. bytes) result (joined_hex_in (view value.now)) }
{
    match value.as_array() {
        Some(items) => joined_hex(alloc, items.as_slice()),
        None => Err(SettingsError::BadSettings),
    }
}

#[tactic(auto, unfolding(mongo_settings::specs::Kinds::joined_hex))]
fn joined_hex(alloc: Global, items: &[Value]) -> Result<Bytes, SettingsError>
    ensures { Means (λ b. b) result (joined_hex (items_view items.now)) }
{
    let mut joined = Vec::new(alloc);
    for item in items {
        push_hex_bytes(&mut joined, item)?;
    }
    Ok(Bytes::from_vec(joined))
}

// Appends the bytes of a hex text, whose digits are an even number of either case. A refusal may leave other bytes at the end.
fn push_hex_bytes(joined: &mut Vec<u8>, value: &Value) -> Result<(), SettingsError>
    ensures pushed { OnOk result (IsHexJoined (hex_bytes (view value.now)) joined.old.items joined.new.items) }
    ensures refused { IfErr result (λ e. MeansNothing e (hex_bytes (view value.now))) }
{
    let Some(text) = value.as_str() else {
        return Err(SettingsError::BadSettings);
    };
    let at = joined.len();
    joined.resize(at + text.len() / 2, 0)?;
    decode_at(joined.as_mut_slice(), at, text)
}

// Writes the bytes of a hex text over those from a place to the end.
fn decode_at(bytes: &mut [u8], at: usize, text: &str) -> Result<(), SettingsError>
    requires place { at ≤ length bytes.old }
    requires room { length bytes.old - at ≡ length text.now / 2 }
    ensures decoded { OnOk result (IsHexJoined (hex_of text.now) (take at bytes.old) bytes.new) }
    ensures refused { IfErr result (λ e. MeansNothing e (hex_of text.now)) }
{
    match hex::decode_to_slice(text, &mut bytes[at..]) {
        Ok(()) => Ok(()),
        Err(_) => Err(SettingsError::BadSettings),
    }
}
