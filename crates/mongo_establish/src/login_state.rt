use mongo_sasl::Moment;
use mongo_scram::SaltedCache;
use mongo_wire::{Error, RequestIds};
use std::alloc::Global;

/// What logins share, and each of them may change.
#[derive(Drop)]
pub struct LoginState {
    /// The salted passwords of logins that were accepted.
    pub salted: SaltedCache,
    /// The ids of the commands.
    pub ids: RequestIds,
}

impl LoginState {
    ghost use Rattle.std.specs.Prelude.{◌≡◌, [], pos, IfOk, IfErr};
    ghost use Rattle.mongo_scram.specs.Cache.{entries_of, rounds_of};
    ghost use Rattle.mongo_wire.specs.declared.error.ErrorKind.TheVariants.{OutOfMemory};

    /// What logins share of which none was made. The ids begin at 0. It takes no memory.
    pub fn new(alloc: Global) -> LoginState
        ensures entries { entries_of result.salted ≡ [] }
        ensures rounds { rounds_of result.salted ≡ 0 }
        ensures ids { result.ids ≡ pos 0 }
    {
        LoginState {
            salted: SaltedCache::new(alloc),
            ids: RequestIds::new(0),
        }
    }

    /// A copy: the salted passwords, and ids that go on from the same one. From here on each counts and keeps for itself, so
    /// logins with both may draw the same ids: each belongs to connections of its own.
    pub fn try_clone(&self, alloc: Global) -> Result<LoginState, Error>
        ensures entries { IfOk result (λ state. entries_of state.salted ≡ entries_of self.now.salted) }
        ensures rounds { IfOk result (λ state. rounds_of state.salted ≡ rounds_of self.now.salted) }
        ensures ids { IfOk result (λ state. state.ids ≡ self.now.ids) }
        ensures refused { IfErr result (λ e. e.kind ≡ OutOfMemory) }
    {
        Ok(LoginState {
            salted: self.salted.try_clone(alloc)?,
            ids: RequestIds::new(self.ids.next()),
        })
    }
}

/// The nonces of a login: 32 random bytes each.
#[derive(Clone, Copy, Debug, Drop)]
pub struct Nonces {
    /// That of the first message that goes with the hello.
    pub first: [u8; 32],
    /// That of a first message after it.
    pub second: [u8; 32],
}

/// What is drawn anew for each login.
#[derive(Clone, Copy, Debug, Drop)]
pub struct LoginInputs {
    /// Its nonces.
    pub nonces: Nonces,
    /// The time at which it begins.
    pub moment: Moment,
}

impl LoginInputs {
    ghost use Rattle.std.specs.Prelude.{◌≡◌, pos};
    ghost use Rattle.mongo_sasl.specs.Moment.{milliseconds_of};

    /// These nonces. The time is that of 1970: no mechanism that is spoken asks for it.
    pub fn of_nonces(nonces: Nonces) -> LoginInputs
        ensures nonces { result.nonces ≡ nonces }
        ensures moment { milliseconds_of result.moment ≡ pos 0 }
    {
        let Some(moment) = Moment::new(0) else {
            unreachable!()
        };
        LoginInputs { nonces, moment }
    }
}
