use crate::settings::reading::{SettingValue, judge_object, optional};
use crate::settings::{SettingsError, keys};
use mongo_bson::{RawDocumentBuf, Text};
use mongo_sasl::{AuthMechanism, Credential};
use serde_json::Value;
use std::alloc::Global;

/// An object with the parts of a credential, each of them optional.
impl SettingValue for Credential {
    ghost use Rattle.mongo_settings.specs.Credential.{credential_in};

    ghost meaning = { credential_in };

    #[tactic(auto, unfolding(crate::specs::Credential::credential_in))]
    fn read(alloc: Global, value: &Value) -> Result<Credential, SettingsError> {
        judge_object(value, &keys::CREDENTIAL_KEYS)?;
        let username = optional::<Text>(alloc, value, keys::USERNAME)?;
        let source = optional::<Text>(alloc, value, keys::SOURCE)?;
        let password = optional::<Text>(alloc, value, keys::PASSWORD)?;
        let mechanism = optional::<AuthMechanism>(alloc, value, keys::MECHANISM)?;
        let mechanism_properties = optional::<RawDocumentBuf>(alloc, value, keys::PROPERTIES)?;
        Ok(Credential {
            username,
            source,
            password,
            mechanism,
            mechanism_properties,
        })
    }
}
