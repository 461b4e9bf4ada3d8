//! Settings: the text of one JSON object.
ghost use Rattle.std.specs.Prelude.{◌≡◌, IfOk};
ghost use Rattle.serde_json.specs.View.{view};
ghost use Rattle.mongo_establish.specs.Speculation.{SpeaksFor};
ghost use Rattle.mongo_settings.specs.Settings.{holds_or_bad, json_of, value_judged, judged, settings_of, Gives};

mod credential;
mod environment;
mod floats;
mod keys;
mod kinds;
mod logins;
mod mechanism;
mod members;
mod options;
mod pending;
mod properties;
mod reading;

use floats::holds_float;
use keys::judge_keys;
pub use logins::read_logins;
use mechanism::judge_mechanism;
use mongo_bson::{BsonFault, Bytes};
use mongo_establish::{Nonces, PendingConnection};
use mongo_meta::ClientOptions;
use mongo_sasl::Credential;
use reading::SettingValue;
use serde_json::{Category, Value};
use std::alloc::{AllocError, Global};

/// The greatest length of a text of settings, in bytes.
pub const MAXIMUM_SETTINGS_LENGTH: usize = 4_194_304;

/// What a rehearsal is told.
#[derive(Debug, Drop)]
pub struct Settings {
    /// The connection that is asked for.
    pub pending: PendingConnection,
    /// The bytes that the server answers.
    pub replies: Bytes,
    /// Who logs in, if anyone.
    pub credential: Option<Credential>,
    /// The nonces of the login.
    pub nonces: Nonces,
    /// The id of the first command.
    pub first_id: i32,
    /// What the client is made of.
    pub options: ClientOptions,
    /// The most iterations by which a SCRAM login derives its key.
    pub max_iterations: u32,
}

/// Why a text is no settings.
#[derive(Clone, Copy, Debug, PartialEq, Eq)]
pub enum SettingsError {
    /// The text is no settings.
    BadSettings,
    /// A key, or the mechanism of a credential, isn't built yet.
    NotBuilt,
    /// Memory ran out.
    OutOfMemory,
}

impl From<AllocError> for SettingsError {
    ghost use Rattle.mongo_settings.specs.declared.settings.SettingsError.TheVariants.{OutOfMemory};

    ghost from_gives = { λ _ e. e ≡ OutOfMemory };

    fn from(_error: AllocError) -> SettingsError {
        SettingsError::OutOfMemory
    }
}

/// A fault of BSON but want of memory is that of a value that no document can hold.
impl From<BsonFault> for SettingsError {
    ghost use Rattle.mongo_settings.specs.Kinds.{error_of};

    ghost from_gives = { λ fault error. error ≡ error_of fault };

    fn from(fault: BsonFault) -> SettingsError {
        match fault {
            BsonFault::OutOfMemory => SettingsError::OutOfMemory,
            _ => SettingsError::BadSettings,
        }
    }
}

/// Reads settings: the text of one JSON object in UTF-8.
///
/// Refusals, in this order: `BadSettings` where the text is longer than 4194304 bytes, isn't JSON or holds a float; those
/// of [`settings_of`].
#[tactic(auto, unfolding(crate::specs::Settings::judged))]
pub fn read_settings(alloc: Global, text: &[u8]) -> Result<Settings, SettingsError>
    ensures settings { Gives (λ s. s) result (judged text.now) }
    ensures spoken { IfOk result (λ s. SpeaksFor s.credential) }
{
    let value = value_judged(alloc, text)?;
    settings_of(alloc, &value)
}

// The value of a text that isn't too long and holds no float.
#[tactic(auto, unfolding(crate::specs::Settings::value_judged))]
fn value_judged(alloc: Global, text: &[u8]) -> Result<Value, SettingsError>
    ensures { Gives view result (value_judged text.now) }
{
    check(text.len() <= MAXIMUM_SETTINGS_LENGTH)?;
    let value = json_of(alloc, text)?;
    check(!holds_float(&value))?;
    Ok(value)
}

/// The settings that a JSON value is.
///
/// Refusals, in this order: `BadSettings` where it is no object or has a key that the format hasn't; `NotBuilt` where it
/// has a key that isn't read yet, or its credential names a mechanism that isn't spoken yet; `BadSettings` where a key's
/// value is of another kind, or not just one of `host` and `unix` is there.
#[tactic(auto, unfolding(crate::specs::Settings::settings_of))]
pub fn settings_of(alloc: Global, value: &Value) -> Result<Settings, SettingsError>
    ensures settings { Gives (λ s. s) result (settings_of (view value.now)) }
    // A credential's mechanism is one that is spoken.
    ensures spoken { IfOk result (λ s. SpeaksFor s.credential) }
{
    judge_keys(value)?;
    judge_mechanism(value)?;
    Settings::read(alloc, value)
}

// a rule of settings
fn check(holds: bool) -> Result<(), SettingsError>
    ensures { result ≡ holds_or_bad holds }
{
    if holds {
        Ok(())
    } else {
        Err(SettingsError::BadSettings)
    }
}

// the value of a text of JSON in UTF-8
#[tactic(auto, unfolding(crate::specs::Settings::json_of))]
fn json_of(alloc: Global, text: &[u8]) -> Result<Value, SettingsError>
    ensures { Gives view result (json_of text.now) }
{
    match Value::from_slice(alloc, text) {
        Ok(value) => Ok(value),
        Err(error) => match error.classify() {
            Category::Memory => Err(SettingsError::OutOfMemory),
            _ => Err(SettingsError::BadSettings),
        },
    }
}
