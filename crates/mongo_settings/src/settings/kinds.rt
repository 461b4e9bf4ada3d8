//! The plain kinds of values.
ghost use Rattle.std.specs.Prelude.{◌≡◌, ◌≤◌, ◌-◌, ◌/◌, ℕ, length, take, IfSome, IfErr, OnOk};
ghost use Rattle.serde_json.specs.View.{view, items_view};
ghost use Rattle.mongo_settings.specs.Kinds.{number_from, hex_of, hex_bytes, joined_hex, nonce_in, IsHexJoined, Means, MeansNothing};

use crate::settings::SettingsError;
use crate::settings::reading::{SettingValue, two_in};
use hex::FromHex;
use mongo_bson::{Bytes, Text};
use mongo_establish::Nonces;
use mongo_scram::MIN_ITERATION_COUNT;
use serde_json::Value;
use std::alloc::Global;
use std::marker::Model;

/// A text.
impl SettingValue for Text {
    ghost use Rattle.serde_json.specs.Find.{as_str};

    ghost meaning = { as_str };

    fn read(alloc: Global, value: &Value) -> Result<Text, SettingsError> {
        let Some(text) = value.as_str() else {
            return Err(SettingsError::BadSettings);
        };
        match String::from_str(alloc, text) {
            Ok(text) => Ok(Text::from_string(text)),
            Err(_) => Err(SettingsError::OutOfMemory),
        }
    }
}

/// A boolean.
impl SettingValue for bool {
    ghost use Rattle.serde_json.specs.Find.{as_bool};

    ghost meaning = { as_bool };

    fn read(_alloc: Global, value: &Value) -> Result<bool, SettingsError> {
        match value.as_bool() {
            Some(boolean) => Ok(boolean),
            None => Err(SettingsError::BadSettings),
        }
    }
}

/// A whole number that an int32 holds.
impl SettingValue for i32 {
    ghost use Rattle.mongo_settings.specs.Kinds.{int32_in};

    ghost meaning = { int32_in };

    fn read(_alloc: Global, value: &Value) -> Result<i32, SettingsError> {
        match value.as_i64() {
            Some(number) => match i32::try_from(number) {
                Ok(number) => Ok(number),
                Err(_) => Err(SettingsError::BadSettings),
            },
            None => Err(SettingsError::BadSettings),
        }
    }
}

/// A whole number from 0 to 65535.
impl SettingValue for u16 {
    ghost use Rattle.mongo_settings.specs.Kinds.{port_in};

    ghost meaning = { port_in };

    fn read(_alloc: Global, value: &Value) -> Result<u16, SettingsError> {
        match number_from(value, 0, u16::MAX as u64) {
            Some(number) => Ok(number as u16),
            None => Err(SettingsError::BadSettings),
        }
    }
}

/// A whole number from 0 to 4294967295.
impl SettingValue for u32 {
    ghost use Rattle.mongo_settings.specs.Kinds.{uint32_in};

    ghost meaning = { uint32_in };

    fn read(_alloc: Global, value: &Value) -> Result<u32, SettingsError> {
        match number_from(value, 0, u32::MAX as u64) {
            Some(number) => Ok(number as u32),
            None => Err(SettingsError::BadSettings),
        }
    }
}

/// The most iterations of a login: from 4096 to 4294967295. Contracts see the number.
#[derive(Debug, Drop)]
pub struct Iterations {
    count: u32,
}

impl Model for Iterations {
    ghost Value = { ℕ };

    ghost view = { λ i. i.count };
}

impl Iterations {
    /// How many there are.
    pub fn count(&self) -> u32
        ensures { result ≡ self.now }
    {
        self.count
    }
}

/// A whole number from 4096 to 4294967295.
impl SettingValue for Iterations {
    ghost use Rattle.mongo_settings.specs.Kinds.{iterations_in};

    ghost meaning = { iterations_in };

    fn read(_alloc: Global, value: &Value) -> Result<Iterations, SettingsError> {
        match number_from(value, MIN_ITERATION_COUNT as u64, u32::MAX as u64) {
            Some(count) => Ok(Iterations {
                count: count as u32,
            }),
            None => Err(SettingsError::BadSettings),
        }
    }
}

// The whole number from a minimum to a maximum that a value is.
fn number_from(value: &Value, minimum: u64, maximum: u64) -> Option<u64>
    ensures number { result ≡ number_from minimum maximum (view value.now) }
    ensures within { IfSome result (λ number. number ≤ maximum) }
{
    match value.as_u64() {
        Some(number) if minimum <= number && number <= maximum => Some(number),
        _ => None,
    }
}

/// An array of hex texts, whose bytes are joined.
impl SettingValue for Bytes {
    ghost use Rattle.mongo_settings.specs.Kinds.{joined_hex_in};

    ghost meaning = { joined_hex_in };

    fn read(alloc: Global, value: &Value) -> Result<Bytes, SettingsError> {
        match value.as_array() {
            Some(items) => joined_hex(alloc, items.as_slice()),
            None => Err(SettingsError::BadSettings),
        }
    }
}

#[tactic(auto, unfolding(crate::specs::Kinds::joined_hex))]
fn joined_hex(alloc: Global, items: &[Value]) -> Result<Bytes, SettingsError>
    ensures { Means (λ b. b) result (joined_hex (items_view items.now)) }
{
    let mut joined = Vec::new(alloc);
    for item in items {
        push_hex_bytes(&mut joined, item)?;
    }
    Ok(Bytes::from_vec(joined))
}

// Appends the bytes of a hex text, whose digits are an even number of either case. A refusal may leave other bytes at the end.
fn push_hex_bytes(joined: &mut Vec<u8>, value: &Value) -> Result<(), SettingsError>
    ensures pushed { OnOk result (IsHexJoined (hex_bytes (view value.now)) joined.old.items joined.new.items) }
    ensures refused { IfErr result (λ e. MeansNothing e (hex_bytes (view value.now))) }
{
    let Some(text) = value.as_str() else {
        return Err(SettingsError::BadSettings);
    };
    let at = joined.len();
    joined.resize(at + text.len() / 2, 0)?;
    decode_at(joined.as_mut_slice(), at, text)
}

// Writes the bytes of a hex text over those from a place to the end.
fn decode_at(bytes: &mut [u8], at: usize, text: &str) -> Result<(), SettingsError>
    requires place { at ≤ length bytes.old }
    requires room { length bytes.old - at ≡ length text.now / 2 }
    ensures decoded { OnOk result (IsHexJoined (hex_of text.now) (take at bytes.old) bytes.new) }
    ensures refused { IfErr result (λ e. MeansNothing e (hex_of text.now)) }
{
    match hex::decode_to_slice(text, &mut bytes[at..]) {
        Ok(()) => Ok(()),
        Err(_) => Err(SettingsError::BadSettings),
    }
}

/// An array of two nonces, each 32 bytes by 64 hex digits.
impl SettingValue for Nonces {
    ghost use Rattle.mongo_settings.specs.Kinds.{nonces_in};

    ghost meaning = { nonces_in };

    fn read(_alloc: Global, value: &Value) -> Result<Nonces, SettingsError> {
        let (first, second) = two_in(value)?;
        Ok(Nonces {
            first: nonce(first)?,
            second: nonce(second)?,
        })
    }
}

fn nonce(value: &Value) -> Result<[u8; 32], SettingsError>
    ensures { Means (λ n. n) result (nonce_in (view value.now)) }
{
    let Some(text) = value.as_str() else {
        return Err(SettingsError::BadSettings);
    };
    match <[u8; 32] as FromHex>::from_hex(text) {
        Ok(nonce) => Ok(nonce),
        Err(_) => Err(SettingsError::BadSettings),
    }
}
