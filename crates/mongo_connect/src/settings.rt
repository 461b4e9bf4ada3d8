//! The settings of a connection: those of a rehearsal that bring no reply bytes.
ghost use Rattle.std.specs.Prelude.{IfOk};
ghost use Rattle.mongo_establish.specs.Speculation.{SpeaksFor};
ghost use Rattle.mongo_settings.specs.Settings.{Gives};
ghost use Rattle.mongo_connect.specs.Settings.{line_judged};

use mongo_settings::{Settings, SettingsError, read_settings};
use std::alloc::Global;

/// Reads the settings of a line.
///
/// Refusals, in this order: those of [`read_settings`]; `BadSettings` where they bring reply bytes, which come from the
/// link here.
#[tactic(auto, unfolding(crate::specs::Settings::line_judged))]
pub fn settings_of_line(alloc: Global, line: &[u8]) -> Result<Settings, SettingsError>
    ensures settings { Gives (λ s. s) result (line_judged line.now) }
    ensures spoken { IfOk result (λ s. SpeaksFor s.credential) }
{
    let settings = read_settings(alloc, line)?;
    if !settings.replies.as_bytes().is_empty() {
        return Err(SettingsError::BadSettings);
    }
    Ok(settings)
}
