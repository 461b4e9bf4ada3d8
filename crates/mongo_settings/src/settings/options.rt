//! What settings say of the client.
ghost use Rattle.serde_json.specs.View.{view};
ghost use Rattle.serde_json.specs.Find.{as_str};
ghost use Rattle.mongo_meta.specs.Options.{default_os};
ghost use Rattle.mongo_settings.specs.Keys.{os_setting_key};
ghost use Rattle.mongo_settings.specs.Kinds.{optional, or_absent, Means};
ghost use Rattle.mongo_settings.specs.Options.{load_balanced_in, os_in};

use crate::settings::reading::{SettingValue, judge_object, optional, required};
use crate::settings::{SettingsError, keys};
use mongo_bson::Text;
use mongo_command::{ServerApi, ServerApiVersion, both};
use mongo_meta::{
    ClientOptions, DEFAULT_PLATFORM, DEFAULT_PLATFORM_SHORT, DriverInfo, Environment, OsMetadata,
};
use serde_json::Value;
use std::alloc::Global;

/// The keys of an object of settings that speak of the client, together.
impl SettingValue for ClientOptions {
    ghost use Rattle.mongo_settings.specs.Options.{client_options_in};

    ghost meaning = { client_options_in };

    #[tactic(auto, unfolding(crate::specs::Options::client_options_in))]
    fn read(alloc: Global, value: &Value) -> Result<ClientOptions, SettingsError> {
        let server_api = optional::<ServerApi>(alloc, value, keys::SERVER_API)?;
        let load_balanced = is_load_balanced(alloc, value)?;
        let platforms = both(
            text_or(alloc, value, keys::PLATFORM, DEFAULT_PLATFORM),
            text_or(alloc, value, keys::PLATFORM_SHORT, DEFAULT_PLATFORM_SHORT),
        );
        let client = both(
            Environment::read(alloc, value),
            optional::<Text>(alloc, value, keys::APP_NAME),
        );
        let library = both(
            optional::<DriverInfo>(alloc, value, keys::DRIVER_INFO),
            os_or_default(alloc, value),
        );
        let (texts, (driver_info, os)) = both(both(platforms, client), library)?;
        let ((platform, platform_short), (environment, app_name)) = texts;
        Ok(ClientOptions {
            app_name,
            driver_info,
            server_api,
            load_balanced,
            os,
            platform,
            platform_short,
            environment,
        })
    }
}

/// Whether the server is behind a load balancer: not where the object hasn't the key.
pub fn is_load_balanced(alloc: Global, object: &Value) -> Result<bool, SettingsError>
    ensures { Means (λ b. b) result (load_balanced_in (view object.now)) }
{
    let load_balanced = optional::<bool>(alloc, object, keys::LOAD_BALANCED)?;
    Ok(load_balanced.unwrap_or(false))
}

// The text of a key, or this one where the object hasn't the key.
fn text_or(alloc: Global, object: &Value, key: &str, default: &str) -> Result<Text, SettingsError>
    ensures { Means (λ t. t) result (or_absent default.now (optional key.now as_str (view object.now))) }
{
    match optional::<Text>(alloc, object, key)? {
        Some(text) => Ok(text),
        None => Ok(Text::from_slice(alloc, default)?),
    }
}

fn os_or_default(alloc: Global, object: &Value) -> Result<OsMetadata, SettingsError>
    ensures { Means (λ os. os) result (or_absent default_os (optional os_setting_key os_in (view object.now))) }
{
    match optional::<OsMetadata>(alloc, object, keys::OS)? {
        Some(os) => Ok(os),
        None => Ok(OsMetadata::new(alloc)?),
    }
}

/// An object with what a library says of itself: its name, and its version and platform, which are optional.
impl SettingValue for DriverInfo {
    ghost use Rattle.mongo_settings.specs.Options.{driver_info_in};

    ghost meaning = { driver_info_in };

    #[tactic(auto, unfolding(crate::specs::Options::driver_info_in))]
    fn read(alloc: Global, value: &Value) -> Result<DriverInfo, SettingsError> {
        judge_object(value, &keys::DRIVER_INFO_KEYS)?;
        let name = required::<Text>(alloc, value, keys::NAME)?;
        let version = optional::<Text>(alloc, value, keys::VERSION)?;
        let platform = optional::<Text>(alloc, value, keys::PLATFORM)?;
        Ok(DriverInfo {
            name,
            version,
            platform,
        })
    }
}

/// An object with what there is to say of an operating system: its type, and its name, architecture and version, which
/// are optional.
impl SettingValue for OsMetadata {
    ghost use Rattle.mongo_settings.specs.Options.{os_in};

    ghost meaning = { os_in };

    #[tactic(auto, unfolding(crate::specs::Options::os_in))]
    fn read(alloc: Global, value: &Value) -> Result<OsMetadata, SettingsError> {
        judge_object(value, &keys::OS_KEYS)?;
        let os_type = required::<Text>(alloc, value, keys::TYPE)?;
        let name = optional::<Text>(alloc, value, keys::NAME)?;
        let architecture = optional::<Text>(alloc, value, keys::ARCHITECTURE)?;
        let version = optional::<Text>(alloc, value, keys::VERSION)?;
        Ok(OsMetadata {
            os_type,
            name,
            architecture,
            version,
        })
    }
}

/// An object with the stable API: its version, and the two optional booleans.
impl SettingValue for ServerApi {
    ghost use Rattle.mongo_settings.specs.Options.{server_api_in};

    ghost meaning = { server_api_in };

    #[tactic(auto, unfolding(crate::specs::Options::server_api_in))]
    fn read(alloc: Global, value: &Value) -> Result<ServerApi, SettingsError> {
        judge_object(value, &keys::SERVER_API_KEYS)?;
        let version = required::<ServerApiVersion>(alloc, value, keys::VERSION)?;
        let strict = optional::<bool>(alloc, value, keys::STRICT)?;
        let deprecation_errors = optional::<bool>(alloc, value, keys::DEPRECATION_ERRORS)?;
        Ok(ServerApi {
            version,
            strict,
            deprecation_errors,
        })
    }
}

/// The text of the version.
impl SettingValue for ServerApiVersion {
    ghost use Rattle.mongo_settings.specs.Options.{version_in};

    ghost meaning = { version_in };

    fn read(_alloc: Global, value: &Value) -> Result<ServerApiVersion, SettingsError> {
        match value.as_str() {
            Some(text) if text == ServerApiVersion::V1.as_str() => Ok(ServerApiVersion::V1),
            _ => Err(SettingsError::BadSettings),
        }
    }
}
