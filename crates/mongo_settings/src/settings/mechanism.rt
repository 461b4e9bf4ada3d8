//! The mechanism that a credential names.
ghost use Rattle.std.specs.Prelude.{◌≡◌};
ghost use Rattle.serde_json.specs.View.{view};
ghost use Rattle.mongo_settings.specs.Settings.{mechanism_judged};
ghost use Rattle.mongo_settings.specs.Credential.{mechanism_named, mechanism_in, named_mechanism};

use crate::settings::reading::SettingValue;
use crate::settings::{SettingsError, keys};
use mongo_establish::is_spoken;
use mongo_sasl::AuthMechanism;
use serde_json::Value;
use std::alloc::Global;

/// Judges the mechanism that the credential of an object names: `NotBuilt` where there is one and a login by it isn't
/// built yet.
pub fn judge_mechanism(object: &Value) -> Result<(), SettingsError>
    ensures { result ≡ mechanism_judged (named_mechanism (view object.now)) }
{
    match named_mechanism(object) {
        Some(mechanism) if !is_spoken(mechanism) => Err(SettingsError::NotBuilt),
        _ => Ok(()),
    }
}

fn named_mechanism(object: &Value) -> Option<AuthMechanism>
    ensures { result ≡ named_mechanism (view object.now) }
{
    let credential = object.get(keys::CREDENTIAL)?;
    let name = credential.get(keys::MECHANISM)?;
    mechanism_in(name)
}

/// The name of a mechanism.
impl SettingValue for AuthMechanism {
    ghost use Rattle.mongo_settings.specs.Credential.{mechanism_in};

    ghost meaning = { mechanism_in };

    fn read(_alloc: Global, value: &Value) -> Result<AuthMechanism, SettingsError> {
        match mechanism_in(value) {
            Some(mechanism) => Ok(mechanism),
            None => Err(SettingsError::BadSettings),
        }
    }
}

fn mechanism_in(value: &Value) -> Option<AuthMechanism>
    ensures { result ≡ mechanism_in (view value.now) }
{
    match value.as_str() {
        Some(name) => mechanism_named(name),
        None => None,
    }
}

fn mechanism_named(name: &str) -> Option<AuthMechanism>
    ensures { result ≡ mechanism_named name.now }
{
    match name.parse::<AuthMechanism>() {
        Ok(mechanism) => Some(mechanism),
        Err(_) => None,
    }
}
