//! What settings say of where the client runs.
ghost use Rattle.serde_json.specs.View.{items_view};
ghost use Rattle.mongo_settings.specs.Kinds.{Means};
ghost use Rattle.mongo_settings.specs.Options.{variables_of};

use crate::settings::reading::{SettingValue, optional, two_in};
use crate::settings::{SettingsError, keys};
use mongo_bson::Text;
use mongo_meta::{Environment, Variable, Variables};
use serde_json::Value;
use std::alloc::Global;

/// The keys of an object of settings that speak of the environment, together.
impl SettingValue for Environment {
    ghost use Rattle.mongo_settings.specs.Options.{environment_in};

    ghost meaning = { environment_in };

    #[tactic(auto, unfolding(crate::specs::Options::environment_in))]
    fn read(alloc: Global, value: &Value) -> Result<Environment, SettingsError> {
        let variables = optional::<Variables>(alloc, value, keys::ENVIRONMENT)?;
        let dockerenv = optional::<bool>(alloc, value, keys::DOCKERENV)?;
        Ok(Environment {
            variables: variables.unwrap_or(Variables::new(alloc)),
            dockerenv: dockerenv.unwrap_or(false),
        })
    }
}

/// An array of pairs of texts: names and values.
impl SettingValue for Variables {
    ghost use Rattle.mongo_settings.specs.Options.{variables_in};

    ghost meaning = { variables_in };

    fn read(alloc: Global, value: &Value) -> Result<Variables, SettingsError> {
        match value.as_array() {
            Some(items) => variables_of(alloc, items.as_slice()),
            None => Err(SettingsError::BadSettings),
        }
    }
}

#[tactic(auto, unfolding(crate::specs::Options::variables_of))]
fn variables_of(alloc: Global, items: &[Value]) -> Result<Variables, SettingsError>
    ensures { Means (λ v. v) result (variables_of (items_view items.now)) }
{
    let mut variables = Variables::new(alloc);
    for item in items {
        variables.push(Variable::read(alloc, item)?)?;
    }
    Ok(variables)
}

/// An array of two texts: a name and a value.
impl SettingValue for Variable {
    ghost use Rattle.mongo_settings.specs.Options.{variable_in};

    ghost meaning = { variable_in };

    fn read(alloc: Global, value: &Value) -> Result<Variable, SettingsError> {
        let (name, value) = two_in(value)?;
        Ok(Variable {
            name: Text::read(alloc, name)?,
            value: Text::read(alloc, value)?,
        })
    }
}
