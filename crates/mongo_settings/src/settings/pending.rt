//! What settings say of the connection that is asked for.
ghost use Rattle.std.specs.Prelude.{[]};
ghost use Rattle.serde_json.specs.View.{members_view};
ghost use Rattle.mongo_settings.specs.Kinds.{Means};
ghost use Rattle.mongo_settings.specs.Pending.{service_in, with_members};

use crate::settings::options::is_load_balanced;
use crate::settings::reading::{SettingValue, optional};
use crate::settings::{SettingsError, keys};
use hex::FromHex;
use mongo_bson::Text;
use mongo_establish::{Generations, ObjectId, PendingConnection, PoolGeneration, ServerAddress};
use serde_json::{Map, Value};
use std::alloc::Global;

/// The keys of an object of settings that speak of the connection, together.
impl SettingValue for PendingConnection {
    ghost use Rattle.mongo_settings.specs.Pending.{pending_in};

    ghost meaning = { pending_in };

    #[tactic(auto, unfolding(crate::specs::Pending::pending_in))]
    fn read(alloc: Global, value: &Value) -> Result<PendingConnection, SettingsError> {
        let address = ServerAddress::read(alloc, value)?;
        let id = optional::<u32>(alloc, value, keys::ID)?;
        let generation = PoolGeneration::read(alloc, value)?;
        Ok(PendingConnection {
            id: id.unwrap_or(1),
            address,
            generation,
        })
    }
}

/// The keys of an object of settings that say where the server is: its host, perhaps with a port, or the path of its
/// Unix socket, and not both.
impl SettingValue for ServerAddress {
    ghost use Rattle.mongo_settings.specs.Pending.{address_in};

    ghost meaning = { address_in };

    #[tactic(auto, unfolding(crate::specs::Pending::address_in))]
    fn read(alloc: Global, value: &Value) -> Result<ServerAddress, SettingsError> {
        let host = optional::<Text>(alloc, value, keys::HOST)?;
        let port = optional::<u16>(alloc, value, keys::PORT)?;
        let path = optional::<Text>(alloc, value, keys::UNIX)?;
        match (host, path) {
            (Some(host), None) => Ok(ServerAddress::Tcp { host, port }),
            (None, Some(path)) => Ok(ServerAddress::Unix { path }),
            _ => Err(SettingsError::BadSettings),
        }
    }
}

/// The keys of an object of settings that say of which generation the pool's connections are: one number for all, or behind
/// a load balancer a number for each service.
impl SettingValue for PoolGeneration {
    ghost use Rattle.mongo_settings.specs.Pending.{generation_in};

    ghost meaning = { generation_in };

    #[tactic(auto, unfolding(crate::specs::Pending::generation_in))]
    fn read(alloc: Global, value: &Value) -> Result<PoolGeneration, SettingsError> {
        let number = optional::<u32>(alloc, value, keys::GENERATION)?;
        let load_balanced = is_load_balanced(alloc, value)?;
        let generations = optional::<Generations>(alloc, value, keys::GENERATIONS)?;
        if load_balanced {
            Ok(PoolGeneration::LoadBalanced(generations.unwrap_or(Generations::new(alloc))))
        } else {
            Ok(PoolGeneration::Normal(number.unwrap_or(0)))
        }
    }
}

/// An object from the ids of services, each 24 hex digits, to their numbers. Of two keys that name one id the later counts.
impl SettingValue for Generations {
    ghost use Rattle.mongo_settings.specs.Pending.{generations_in};

    ghost meaning = { generations_in };

    fn read(alloc: Global, value: &Value) -> Result<Generations, SettingsError> {
        match value.as_object() {
            Some(members) => generations_of(alloc, members),
            None => Err(SettingsError::BadSettings),
        }
    }
}

#[tactic(auto, unfolding(crate::specs::Pending::with_members))]
fn generations_of(alloc: Global, members: &Map<String, Value>) -> Result<Generations, SettingsError>
    ensures { Means (λ g. g) result (with_members [] (members_view members.now.entries)) }
{
    let mut generations = Generations::new(alloc);
    for (key, value) in members.iter() {
        let service_id = service_in(key.as_str())?;
        let number = u32::read(alloc, value)?;
        let Some(()) = generations.insert(service_id, number).ok() else {
            return Err(SettingsError::OutOfMemory);
        };
    }
    Ok(generations)
}

// The id of a service, by 24 hex digits of either case.
fn service_in(text: &str) -> Result<ObjectId, SettingsError>
    ensures { Means (λ id. id) result (service_in text.now) }
{
    match <[u8; 12] as FromHex>::from_hex(text) {
        Ok(bytes) => Ok(ObjectId(bytes)),
        Err(_) => Err(SettingsError::BadSettings),
    }
}
