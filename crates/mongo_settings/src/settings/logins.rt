//! The logins of a batch.
ghost use Rattle.std.specs.Prelude.{All, IfOk};
ghost use Rattle.serde_json.specs.View.{items_view};
ghost use Rattle.mongo_settings.specs.Settings.{Gives};
ghost use Rattle.mongo_settings.specs.Logins.{each_settings, logins_of, logins_judged};
ghost use Rattle.mongo_settings.specs.Batch.{IsLoginSpoken};

use crate::settings::reading::judge_object;
use crate::settings::{Settings, SettingsError, keys, settings_of, value_judged};
use mongo_bson::Items;
use serde_json::Value;
use std::alloc::Global;

/// Reads the logins of a batch: the text of one JSON object in UTF-8, whose one key is `logins`, an array of settings.
///
/// Refusals, in this order: `BadSettings` where the text is longer than 4194304 bytes, isn't JSON, holds a float, or is no
/// such object; those of [`settings_of`] for each of the array's values in turn.
#[tactic(auto, unfolding(crate::specs::Logins::logins_judged, crate::specs::Logins::logins_of))]
pub fn read_logins(alloc: Global, text: &[u8]) -> Result<Items<Settings>, SettingsError>
    ensures logins { Gives (λ logins. logins) result (logins_judged text.now) }
    ensures spoken { IfOk result (λ logins. All IsLoginSpoken logins) }
{
    let value = value_judged(alloc, text)?;
    judge_object(&value, &keys::BATCH_KEYS)?;
    match value.get(keys::LOGINS) {
        Some(logins) => match logins.as_array() {
            Some(values) => each_settings(alloc, values.as_slice()),
            None => Err(SettingsError::BadSettings),
        },
        None => Err(SettingsError::BadSettings),
    }
}

// The settings that the values are, one after another.
fn each_settings(alloc: Global, values: &[Value]) -> Result<Items<Settings>, SettingsError>
    ensures settings { Gives (λ logins. logins) result (each_settings (items_view values.now)) }
    ensures spoken { IfOk result (λ logins. All IsLoginSpoken logins) }
{
    let mut logins = Items::new(alloc);
    for value in values {
        let settings = settings_of(alloc, value)?;
        logins.push(settings)?;
    }
    Ok(logins)
}
