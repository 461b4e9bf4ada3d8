//! Settings as text: one JSON object.
//!
//! ```text
//! {"users": [{"name": "user", "password": "pencil", "mechanisms": ["SCRAM-SHA-1", "SCRAM-SHA-256"],
//!             "salts": ["ad0f5963..", "5b6d9968.."], "count": 4096}],
//!  "nonce": "3rfcNHYJY1ZVvWVs7j"}
//! ```
//!
//! A user has a salt for each of its mechanisms, in hex, and one iteration count, 4096 to 4294967295. `nonce` is what the server
//! adds to a client's nonce: printable ASCII without a comma, and at least one character.

ghost use Rattle.std.specs.Prelude.{◌≡◌, ◌≤◌, map, IfSome, IfOk, IfErr, OnOk, IsTrue};
ghost use Rattle.serde_json.specs.View.{view, items_view};
ghost use Rattle.mongo_scram.specs.Validity.{least_count};
ghost use Rattle.mongo_server.specs.ClientMessages.{IsNonce};
ghost use Rattle.mongo_session.specs.ServeSettings.{text_under, items_in, count_in, scram_version_in, salt_in, is_suffix, suffix_in, json_in, account_values, account_in, accounts_of_user, accounts_of, settings_values, settings_meant, HaveAtEnd, AnswersMeaning, HasNoMeaning};
ghost use Rattle.mongo_session.specs.declared.serve_settings.reading.ServeSettingsError.TheVariants.{OutOfMemory};
ghost use Rattle.mongo_bson.specs.declared.fault.BsonFault.TheVariants.{OutOfMemory as WantOfMemory};

use super::{Account, Accounts, ServeSettings};
use crate::request::version_named;
use hex::FromHexError;
use mongo_bson::{BsonFault, Bytes, Text};
use mongo_scram::{MIN_ITERATION_COUNT, ScramVersion};
use mongo_server::is_nonce;
use serde_json::{Category, Value};
use std::alloc::Global;

/// Why a text is no settings.
#[derive(Clone, Copy, Debug, PartialEq, Eq)]
pub enum ServeSettingsError {
    /// The text is no settings.
    BadSettings,
    /// Memory ran out.
    OutOfMemory,
}

impl From<BsonFault> for ServeSettingsError {
    ghost from_gives = { λ fault error. fault ≡ WantOfMemory → error ≡ OutOfMemory };

    fn from(fault: BsonFault) -> ServeSettingsError {
        match fault {
            BsonFault::OutOfMemory => ServeSettingsError::OutOfMemory,
            _ => ServeSettingsError::BadSettings,
        }
    }
}

/// The settings that a text is.
///
/// `BadSettings` exactly where it is none, want of memory aside: it isn't JSON in UTF-8, a key is absent or has a value of another
/// kind, a user has not as many salts as mechanisms, a mechanism is neither SCRAM-SHA-1 nor SCRAM-SHA-256, a salt isn't hex, a count
/// isn't within its bounds, or the nonce is empty or isn't printable. Other keys are passed over. A user without mechanisms has no
/// account, and its other keys but `salts` aren't read.
#[tactic(auto, unfolding(crate::specs::ServeSettings::settings_meant, crate::specs::ServeSettings::serve_settings_in))]
pub fn serve_settings_of(alloc: Global, text: &[u8]) -> Result<ServeSettings, ServeSettingsError>
    ensures { AnswersMeaning settings_values result (settings_meant text.now) }
{
    let value = json_in(alloc, text)?;
    let suffix = suffix_in(&value)?;
    let users = items_in(&value, "users")?;
    let accounts = accounts_of(alloc, users)?;
    Ok(ServeSettings {
        accounts,
        suffix: Text::from_slice(alloc, suffix)?,
    })
}

// What is put behind a client's nonce.
fn suffix_in(value: &Value) -> Result<&str, ServeSettingsError>
    ensures said { AnswersMeaning (λ suffix. suffix.now) result (suffix_in (view value.now)) }
    ensures printable { IfOk result (λ suffix. IsNonce suffix.now) }
{
    let nonce = text_under(value, "nonce")?;
    if is_suffix(nonce) {
        Ok(nonce)
    } else {
        Err(ServeSettingsError::BadSettings)
    }
}

// Whether a text can be put behind a client's nonce.
fn is_suffix(nonce: &str) -> bool
    ensures said { result ≡ is_suffix nonce.now }
    ensures printable { IsTrue result → IsNonce nonce.now }
{
    !nonce.is_empty() && is_nonce(nonce)
}

// The accounts of users, one after another.
fn accounts_of(alloc: Global, users: &[Value]) -> Result<Accounts, ServeSettingsError>
    ensures { AnswersMeaning (λ accounts. map account_values accounts) result (accounts_of (items_view users.now)) }
{
    let mut accounts = Accounts::new(alloc);
    'users: for user in users {
        push_accounts(alloc, &mut accounts, user)?;
    }
    Ok(accounts)
}

// Adds a user's accounts, one for each mechanism.
#[tactic(auto, unfolding(crate::specs::ServeSettings::accounts_of_user))]
fn push_accounts(
    alloc: Global,
    accounts: &mut Accounts,
    user: &Value,
) -> Result<(), ServeSettingsError>
    ensures added { OnOk result (HaveAtEnd (accounts_of_user (view user.now)) accounts.old accounts.new) }
    ensures refused { IfErr result (λ error. HasNoMeaning error (accounts_of_user (view user.now))) }
{
    let mechanisms = items_in(user, "mechanisms")?;
    let salts = items_in(user, "salts")?;
    if mechanisms.len() != salts.len() {
        return Err(ServeSettingsError::BadSettings);
    }
    'pairs: for at in 0..mechanisms.len() {
        let account = account_of(alloc, user, &mechanisms[at], &salts[at])?;
        accounts.push(account)?;
    }
    Ok(())
}

// A user's account by a mechanism, with its salt.
#[tactic(auto, unfolding(crate::specs::ServeSettings::account_in))]
fn account_of(
    alloc: Global,
    user: &Value,
    mechanism: &Value,
    salt: &Value,
) -> Result<Account, ServeSettingsError>
    ensures { AnswersMeaning account_values result (account_in (view user.now) (view mechanism.now) (view salt.now)) }
{
    let name = text_under(user, "name")?;
    let password = text_under(user, "password")?;
    let Some(count) = count_in(user) else {
        return Err(ServeSettingsError::BadSettings);
    };
    Ok(Account {
        name: Text::from_slice(alloc, name)?,
        password: Text::from_slice(alloc, password)?,
        version: version_of(mechanism)?,
        salt: salt_of(alloc, salt)?,
        count,
    })
}

fn json_in(alloc: Global, text: &[u8]) -> Result<Value, ServeSettingsError>
    ensures { AnswersMeaning view result (json_in text.now) }
{
    match Value::from_slice(alloc, text) {
        Ok(value) => Ok(value),
        Err(error) => match error.classify() {
            Category::Memory => Err(ServeSettingsError::OutOfMemory),
            _ => Err(ServeSettingsError::BadSettings),
        },
    }
}

// The text of a key.
fn text_under<'a>(value: &'a Value, key: &str) -> Result<&'a str, ServeSettingsError>
    ensures { AnswersMeaning (λ text. text.now) result (text_under key.now (view value.now)) }
{
    match value.get(key) {
        Some(member) => match member.as_str() {
            Some(text) => Ok(text),
            None => Err(ServeSettingsError::BadSettings),
        },
        None => Err(ServeSettingsError::BadSettings),
    }
}

// The array of a key.
fn items_in<'a>(value: &'a Value, key: &str) -> Result<&'a [Value], ServeSettingsError>
    ensures { AnswersMeaning (λ items. items_view items.now) result (items_in key.now (view value.now)) }
{
    match value.get(key) {
        Some(member) => match member.as_array() {
            Some(items) => Ok(items.as_slice()),
            None => Err(ServeSettingsError::BadSettings),
        },
        None => Err(ServeSettingsError::BadSettings),
    }
}

// A user's iteration count.
fn count_in(user: &Value) -> Option<u32>
    ensures count { result ≡ count_in (view user.now) }
    ensures least { IfSome result (λ count. least_count ≤ count) }
{
    match user.get("count") {
        Some(count) => match count.as_u64() {
            Some(count) if MIN_ITERATION_COUNT as u64 <= count && count <= u32::MAX as u64 => {
                Some(count as u32)
            }
            _ => None,
        },
        None => None,
    }
}

// The mechanism of this name.
fn version_of(name: &Value) -> Result<ScramVersion, ServeSettingsError>
    ensures { AnswersMeaning (λ version. version) result (scram_version_in (view name.now)) }
{
    match name.as_str() {
        Some(name) => match version_named(name) {
            Some(version) => Ok(version),
            None => Err(ServeSettingsError::BadSettings),
        },
        None => Err(ServeSettingsError::BadSettings),
    }
}

// The bytes of a text of hex.
fn salt_of(alloc: Global, salt: &Value) -> Result<Bytes, ServeSettingsError>
    ensures { AnswersMeaning (λ bytes. bytes) result (salt_in (view salt.now)) }
{
    let Some(text) = salt.as_str() else {
        return Err(ServeSettingsError::BadSettings);
    };
    match hex::decode(alloc, text) {
        Ok(bytes) => Ok(Bytes::from_vec(bytes)),
        Err(FromHexError::OutOfMemory) => Err(ServeSettingsError::OutOfMemory),
        Err(_) => Err(ServeSettingsError::BadSettings),
    }
}
