//! The keys of settings and of the objects in them.
ghost use Rattle.std.specs.Prelude.{◌≡◌, map};
ghost use Rattle.serde_json.specs.View.{view, members_view};
ghost use Rattle.mongo_settings.specs.Settings.{keys_judged, members_judged};
ghost use Rattle.mongo_settings.specs.Keys.{key_row, support_in, support_of};

use crate::settings::SettingsError;
use serde_json::{Map, Value};

// ---- keys of settings

pub const HOST: &str = "host";

pub const REPLIES: &str = "replies";

pub const PORT: &str = "port";

pub const UNIX: &str = "unix";

pub const ID: &str = "id";

pub const GENERATION: &str = "generation";

pub const LOAD_BALANCED: &str = "load_balanced";

pub const GENERATIONS: &str = "generations";

pub const APP_NAME: &str = "app_name";

pub const DRIVER_INFO: &str = "driver_info";

pub const SERVER_API: &str = "server_api";

pub const OS: &str = "os";

pub const PLATFORM: &str = "platform";

pub const PLATFORM_SHORT: &str = "platform_short";

pub const ENVIRONMENT: &str = "environment";

pub const DOCKERENV: &str = "dockerenv";

pub const CREDENTIAL: &str = "credential";

pub const NONCES: &str = "nonces";

pub const MOMENT: &str = "moment";

pub const FIRST_ID: &str = "first_id";

pub const MAX_ITERATIONS: &str = "max_iterations";

pub const CALLBACK: &str = "callback";

pub const TOKENS: &str = "tokens";

pub const AWS: &str = "aws";

/// Whether the value of a key is read.
#[derive(Clone, Copy, Debug, PartialEq, Eq)]
pub enum Support {
    /// It is.
    Built,
    /// It isn't yet.
    Later,
}

// The keys of settings.
const KEYS: [(&str, Support); 24] = [
    (HOST, Support::Built),
    (REPLIES, Support::Built),
    (PORT, Support::Built),
    (UNIX, Support::Built),
    (ID, Support::Built),
    (GENERATION, Support::Built),
    (LOAD_BALANCED, Support::Built),
    (GENERATIONS, Support::Built),
    (APP_NAME, Support::Built),
    (DRIVER_INFO, Support::Built),
    (SERVER_API, Support::Built),
    (OS, Support::Built),
    (PLATFORM, Support::Built),
    (PLATFORM_SHORT, Support::Built),
    (ENVIRONMENT, Support::Built),
    (DOCKERENV, Support::Built),
    (CREDENTIAL, Support::Built),
    (NONCES, Support::Built),
    (MOMENT, Support::Later),
    (FIRST_ID, Support::Built),
    (MAX_ITERATIONS, Support::Built),
    (CALLBACK, Support::Later),
    (TOKENS, Support::Later),
    (AWS, Support::Later),
];

// ---- the key of a batch

pub const LOGINS: &str = "logins";

/// The keys of a batch.
pub const BATCH_KEYS: [&str; 1] = [LOGINS];

// ---- keys of `credential`

pub const USERNAME: &str = "username";

pub const SOURCE: &str = "source";

pub const PASSWORD: &str = "password";

pub const MECHANISM: &str = "mechanism";

pub const PROPERTIES: &str = "properties";

/// The keys of a credential.
pub const CREDENTIAL_KEYS: [&str; 5] = [USERNAME, SOURCE, PASSWORD, MECHANISM, PROPERTIES];

// ---- keys of `driver_info`, `os` and `server_api`, of which `platform` is one of settings too

pub const NAME: &str = "name";

pub const VERSION: &str = "version";

pub const TYPE: &str = "type";

pub const ARCHITECTURE: &str = "architecture";

pub const STRICT: &str = "strict";

pub const DEPRECATION_ERRORS: &str = "deprecation_errors";

/// The keys of what a library says of itself.
pub const DRIVER_INFO_KEYS: [&str; 3] = [NAME, VERSION, PLATFORM];

/// The keys of what there is to say of an operating system.
pub const OS_KEYS: [&str; 4] = [TYPE, NAME, ARCHITECTURE, VERSION];

/// The keys of the stable API.
pub const SERVER_API_KEYS: [&str; 3] = [VERSION, STRICT, DEPRECATION_ERRORS];

// ---- which of them settings may have

/// Judges the keys of an object: `BadSettings` where the value is no object or has a key that the format hasn't, and
/// then `NotBuilt` where it has one that isn't read yet.
#[tactic(auto, unfolding(crate::specs::Settings::keys_judged))]
pub fn judge_keys(value: &Value) -> Result<(), SettingsError>
    ensures { result ≡ keys_judged (view value.now) }
{
    match value.as_object() {
        Some(members) => judge_members(members),
        None => Err(SettingsError::BadSettings),
    }
}

#[tactic(auto, unfolding(crate::specs::Kinds::each_key))]
fn judge_members(members: &Map<String, Value>) -> Result<(), SettingsError>
    ensures { result ≡ members_judged (members_view members.now.entries) }
{
    let mut all_built = true;
    for (key, _member) in members.iter() {
        match support_of(key.as_str()) {
            Some(Support::Built) => {}
            Some(Support::Later) => all_built = false,
            None => return Err(SettingsError::BadSettings),
        }
    }
    if all_built {
        Ok(())
    } else {
        Err(SettingsError::NotBuilt)
    }
}

// Whether the value of a key is read; None where the format hasn't the key.
fn support_of(key: &str) -> Option<Support>
    ensures { result ≡ support_of key.now }
{
    support_in(&KEYS, key)
}

#[tactic(auto, unfolding(crate::specs::Keys::support_in))]
fn support_in(keys: &[(&str, Support)], name: &str) -> Option<Support>
    ensures { result ≡ support_in (map (λ row. key_row row.0.now row.1) keys.now) name.now }
{
    for row in keys {
        if row.0 == name {
            return Some(row.1);
        }
    }
    None
}
