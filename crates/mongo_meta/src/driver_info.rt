ghost use Rattle.std.specs.Prelude.{◌≡◌, ◌↔◌, IsTrue, Contains, IfOk, IfErr};

use mongo_bson::{BsonFault, Items, Text, TryClone, copy_of};
use mongo_command::both;
use std::alloc::Global;

/// What a library that stands on the driver says of itself.
#[derive(Debug, Drop, PartialEq)]
pub struct DriverInfo {
    /// The library's name.
    pub name: Text,
    /// The library's version.
    pub version: Option<Text>,
    /// What the library runs on.
    pub platform: Option<Text>,
}

impl DriverInfo {
    /// A copy.
    pub fn try_clone(&self, alloc: Global) -> Result<DriverInfo, BsonFault>
        ensures copied { IfOk result (λ info. info ≡ self.now) }
        ensures refused { IfErr result (λ fault. fault ≡ BsonFault.OutOfMemory) }
    {
        let texts = both(
            copy_of(alloc, &self.version),
            copy_of(alloc, &self.platform),
        );
        let (name, (version, platform)) = both(self.name.try_clone(alloc), texts)?;
        Ok(DriverInfo {
            name,
            version,
            platform,
        })
    }
}

impl TryClone for DriverInfo {
    fn try_clone(&self, alloc: Global) -> Result<DriverInfo, BsonFault> {
        DriverInfo::try_clone(self, alloc)
    }
}

/// The libraries that added themselves, in their order.
pub type DriverInfos = Items<DriverInfo>;

// Whether a library is among these.
pub(crate) fn holds(infos: &[DriverInfo], info: &DriverInfo) -> bool
    ensures { IsTrue result ↔ Contains infos.now info.now }
{
    for known in infos {
        if known == info {
            return true;
        }
    }
    false
}
