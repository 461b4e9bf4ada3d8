ghost use Rattle.std.specs.Prelude.{◌≡◌, [], IfOk, IfErr, OnOk, OnErr};
ghost use Rattle.mongo_wire.specs.declared.error.ErrorKind.TheVariants.{OutOfMemory};
ghost use Rattle.mongo_establish.specs.Generation.{number_of, SetsNumber};

use mongo_bson::ObjectId;
use mongo_command::StreamDescription;
use mongo_wire::Error;
use std::alloc::Global;
use std::collections::BTreeMap;
use std::marker::Model;

/// The generations of the services behind a load balancer: a number for an id, in the order of the ids' bytes.
#[derive(Debug, Drop)]
pub struct Generations {
    entries: BTreeMap<[u8; 12], u32>,
}

impl Model for Generations {
    ghost use Rattle.std.specs.Prelude.{ℕ, List};

    ghost Value = { List (List ℕ × ℕ) };

    ghost view = { λ g. g.entries.entries };
}

impl Generations {
    /// No generations. It takes no memory.
    pub fn new(alloc: Global) -> Generations
        ensures { result ≡ [] }
    {
        Generations {
            entries: BTreeMap::new(alloc),
        }
    }

    /// Sets the number of a service. A refusal leaves the numbers as they were.
    pub fn insert(&mut self, service_id: ObjectId, generation: u32) -> Result<(), Error>
        ensures set { OnOk result (SetsNumber service_id generation self.old self.new) }
        ensures unchanged { OnErr result (self.new ≡ self.old) }
        ensures refused { IfErr result (λ e. e.kind ≡ OutOfMemory) }
    {
        self.entries.insert(service_id.0, generation)?;
        Ok(())
    }

    /// The number of a service; None where it has none.
    pub fn get(&self, service_id: ObjectId) -> Option<u32>
        ensures { result ≡ number_of service_id self.now }
    {
        self.entries.get(&service_id.0).copied()
    }

    /// A copy.
    pub fn try_clone(&self, _alloc: Global) -> Result<Generations, Error>
        ensures copied { IfOk result (λ generations. generations ≡ self.now) }
        ensures refused { IfErr result (λ e. e.kind ≡ OutOfMemory) }
    {
        Ok(Generations {
            entries: self.entries.clone()?,
        })
    }
}

/// The generation of a pool's connections: a number, or one for each service behind a load balancer.
#[derive(Debug, Drop)]
pub enum PoolGeneration {
    /// One number for all.
    Normal(u32),
    /// A number for each service.
    LoadBalanced(Generations),
}

/// The generation of one connection.
#[derive(Clone, Copy, Debug, PartialEq)]
pub enum ConnectionGeneration {
    /// The pool's number.
    Normal(u32),
    /// The number of the service that answered.
    LoadBalanced {
        /// The number, 0 where the pool has none for the service.
        generation: u32,
        /// The service.
        service_id: ObjectId,
    },
}

impl PoolGeneration {
    ghost use Rattle.std.specs.Prelude.{◌≡◌, ◌↔◌, IsTrue, IfOk, IfErr};
    ghost use Rattle.mongo_wire.specs.declared.error.ErrorKind.TheVariants.{OutOfMemory};
    ghost use Rattle.mongo_establish.specs.Generation.{NamesService, generation_of};

    /// A copy.
    pub fn try_clone(&self, alloc: Global) -> Result<PoolGeneration, Error>
        ensures copied { IfOk result (λ generation. generation ≡ self.now) }
        ensures refused { IfErr result (λ e. e.kind ≡ OutOfMemory) }
    {
        match self {
            PoolGeneration::Normal(number) => Ok(PoolGeneration::Normal(*number)),
            PoolGeneration::LoadBalanced(generations) => {
                Ok(PoolGeneration::LoadBalanced(generations.try_clone(alloc)?))
            }
        }
    }

    // The generation of a connection to the server that is described so.
    pub(crate) fn of_connection(&self, description: &StreamDescription) -> ConnectionGeneration
        ensures { result ≡ generation_of self.now description.now }
    {
        match (self, description.service_id) {
            (PoolGeneration::Normal(number), _) => ConnectionGeneration::Normal(*number),
            (PoolGeneration::LoadBalanced(_), None) => ConnectionGeneration::Normal(0),
            (PoolGeneration::LoadBalanced(generations), Some(service_id)) => {
                ConnectionGeneration::LoadBalanced {
                    generation: generations.get(service_id).unwrap_or(0),
                    service_id,
                }
            }
        }
    }

    // Whether the server names its service, where a load balancer stands before it.
    pub(crate) fn names_service(&self, description: &StreamDescription) -> bool
        ensures { IsTrue result ↔ NamesService self.now description.now }
    {
        match self {
            PoolGeneration::Normal(_) => true,
            PoolGeneration::LoadBalanced(_) => description.service_id.is_some(),
        }
    }
}
