ghost use Rattle.std.specs.Prelude.{◌≡◌, unwrap_or};
ghost use Rattle.mongo_establish.specs.Options.{default_max_iterations};
ghost use Rattle.mongo_settings.specs.Meaning.{default_nonces};

use crate::settings::kinds::Iterations;
use crate::settings::reading::{SettingValue, optional};
use crate::settings::{Settings, SettingsError, keys};
use mongo_bson::Bytes;
use mongo_establish::{DEFAULT_MAX_ITERATIONS, Nonces, PendingConnection};
use mongo_meta::ClientOptions;
use mongo_sasl::Credential;
use serde_json::Value;
use std::alloc::Global;

/// The keys of an object of settings together.
impl SettingValue for Settings {
    ghost use Rattle.mongo_settings.specs.Meaning.{settings_in};

    ghost meaning = { settings_in };

    #[tactic(auto, unfolding(crate::specs::Meaning::settings_in))]
    fn read(alloc: Global, value: &Value) -> Result<Settings, SettingsError> {
        // What owns no memory is read first, and what owns most last: each refusal lets go of what was read before it.
        let nonces = optional::<Nonces>(alloc, value, keys::NONCES)?;
        let first_id = optional::<i32>(alloc, value, keys::FIRST_ID)?;
        let iterations = optional::<Iterations>(alloc, value, keys::MAX_ITERATIONS)?;
        let replies = optional::<Bytes>(alloc, value, keys::REPLIES)?;
        let pending = PendingConnection::read(alloc, value)?;
        let credential = optional::<Credential>(alloc, value, keys::CREDENTIAL)?;
        let options = ClientOptions::read(alloc, value)?;
        Ok(Settings {
            pending,
            replies: replies.unwrap_or(Bytes::new(alloc)),
            credential,
            nonces: nonces.unwrap_or(default_nonces()),
            first_id: first_id.unwrap_or(0),
            options,
            max_iterations: iterations_or_default(iterations),
        })
    }
}

// The nonces where settings name none: 32 bytes 0, and 32 bytes 1.
fn default_nonces() -> Nonces
    ensures { result ≡ default_nonces }
{
    Nonces {
        first: [0; 32],
        second: [1; 32],
    }
}

fn iterations_or_default(iterations: Option<Iterations>) -> u32
    ensures { result ≡ unwrap_or iterations default_max_iterations }
{
    match iterations {
        Some(iterations) => iterations.count(),
        None => DEFAULT_MAX_ITERATIONS,
    }
}
