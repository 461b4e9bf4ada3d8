ghost use Rattle.std.specs.Prelude.{◌≡◌, ℕ, ◌+◌, ◌-◌, ◌^◌, ◌<◌, [], length, min, List, All, Contains, IfOk, IfErr, IfSome, IfNone, OnOk, OnErr, IsTrue, ◌↔◌};
ghost use Rattle.mongo_scram.specs.Entry.{IsSaltedEntry};
ghost use Rattle.mongo_wire.specs.declared.error.ErrorKind.TheVariants.{OutOfMemory};

use crate::ScramVersion;
use crate::salted_password::SaltedPassword;
use mongo_bson::{BsonFault, Bytes, Text};
use mongo_mac::Tag;
use mongo_wire::Error;
use std::alloc::{AllocError, Global};
use std::cmp::Ordering;
use std::collections::BTreeMap;
use std::fmt;

/// What a salted password is derived from.
pub struct SaltedKey {
    /// The version of SCRAM.
    pub version: ScramVersion,
    /// The user name, as the credential has it.
    pub username: Text,
    /// The password, as the credential has it.
    pub password: Text,
    /// The salt.
    pub salt: Bytes,
    /// The iteration count.
    pub count: u32,
}

// Dropped by a call, so that the proofs of its owners don't walk through its parts.
impl Drop for SaltedKey {
    fn drop(self) {
        let SaltedKey {
            version: _,
            username: _,
            password: _,
            salt: _,
            count: _,
        } = self;
    }
}

impl SaltedKey {
    ghost use Rattle.std.specs.Prelude.{◌≡◌, IfOk, IfErr};

    /// A copy of the key.
    pub fn try_clone(&self, alloc: Global) -> Result<SaltedKey, BsonFault>
        ensures copied { IfOk result (λ key. key ≡ self.now) }
        ensures refused { IfErr result (λ fault. fault ≡ BsonFault.OutOfMemory) }
    {
        Ok(SaltedKey {
            version: self.version,
            username: self.username.try_clone(alloc)?,
            password: self.password.try_clone(alloc)?,
            salt: self.salt.try_clone(alloc)?,
            count: self.count,
        })
    }
}

// The map asks its keys for this where it is copied.
impl Clone for SaltedKey {
    ghost use Rattle.std.specs.Prelude.{◌≡◌};

    ghost is_clone = { λ key copy. copy ≡ key };

    fn clone(&self) -> Result<SaltedKey, AllocError> {
        match self.try_clone(self.username.allocator()) {
            Ok(key) => Ok(key),
            Err(_) => Err(AllocError),
        }
    }
}

// A password's text is never shown.
impl fmt::Debug for SaltedKey {
    ghost use Rattle.std.specs.Prelude.{Some, codes};

    ghost debug_output = { λ _. Some (codes "SaltedKey { .. }") };

    fn fmt<W: fmt::Write>(&self, f: &mut fmt::Formatter<W>) -> fmt::Result {
        f.write_str("SaltedKey { .. }")
    }
}

impl Ord for SaltedKey {
    ghost use Rattle.std.proofs.Common.{rules};
    ghost use Rattle.std.specs.Cmp.Rules.{comparing};
    ghost use Rattle.mongo_scram.specs.KeyOrder.{key_cmp, key_cmp-total};

    ghost cmp = { key_cmp };

    ghost total = { key_cmp-total };

    ghost matches_partial_cmp = { Prim.search (comparing, rules) };

    ghost matches_eq = { Prim.search (comparing, rules) };

    fn cmp(&self, other: &SaltedKey) -> Ordering {
        self.count
            .cmp(&other.count)
            .then(self.salt.as_bytes().cmp(other.salt.as_bytes()))
            .then(self.username.as_bytes().cmp(other.username.as_bytes()))
            .then(self.password.as_bytes().cmp(other.password.as_bytes()))
            .then(
                self.version
                    .name()
                    .as_bytes()
                    .cmp(other.version.name().as_bytes()),
            )
    }
}

impl PartialOrd for SaltedKey {
    ghost use Rattle.std.specs.Cmp.{partial_order_from_total};
    ghost use Rattle.std.specs.Ordering.{as_partial_cmp};
    ghost use Rattle.mongo_scram.specs.KeyOrder.{key_cmp, key_cmp-total};

    ghost partial_cmp = { as_partial_cmp key_cmp };

    ghost laws = { partial_order_from_total key_cmp-total };

    fn partial_cmp(&self, other: &SaltedKey) -> Option<Ordering> {
        Some(self.cmp(other))
    }
}

impl PartialEq for SaltedKey {
    ghost use Rattle.std.specs.Cmp.{eq_by_cmp_equiv, partial_equiv_from_equiv};
    ghost use Rattle.std.specs.Ordering.{eq_by_cmp};
    ghost use Rattle.std.specs.Prelude.{◌≡◌, ◌↔◌, IsTrue};
    ghost use Rattle.mongo_scram.specs.Entry.{salted_of};
    ghost use Rattle.mongo_scram.specs.KeyOrder.{key_cmp, key_cmp-total};

    ghost eq = { eq_by_cmp key_cmp };

    ghost laws = { partial_equiv_from_equiv (eq_by_cmp_equiv key_cmp-total) };

    /// Whether both are one key. Equal keys have one salted password.
    fn eq(&self, other: &SaltedKey) -> bool
        ensures eq { result ≡ eq_by_cmp key_cmp self.now other.now }
        ensures same { IsTrue result ↔ (self.now ≡ other.now) }
        ensures salted { IsTrue result → salted_of self.now ≡ salted_of other.now }
    {
        self.cmp(other).is_eq()
    }
}

impl Eq for SaltedKey {
    ghost use Rattle.std.specs.Cmp.{eq_by_cmp_equiv};
    ghost use Rattle.mongo_scram.specs.KeyOrder.{key_cmp-total};

    ghost laws = { eq_by_cmp_equiv key_cmp-total };
}

/// The salted passwords of logins that were accepted, each under its whole key, so that the next login with the key
/// derives nothing. Finding a key takes a logarithm of their number.
#[derive(Drop)]
pub struct SaltedCache {
    entries: BTreeMap<SaltedKey, SaltedPassword>,
    rounds: u64,
    pub ghost salted: { All IsSaltedEntry entries.entries },
    pub ghost within: { rounds < 2 ^ 64 },
}

impl SaltedCache {
    ghost use Rattle.mongo_scram.specs.Cache.{entries_of, rounds_of, Adds};
    ghost use Rattle.mongo_scram.specs.Entry.{salted_of, IsUsable};

    /// A cache with no entry, whose logins have derived nothing. It takes no memory.
    pub fn new(alloc: Global) -> SaltedCache
        ensures entries { entries_of result ≡ [] }
        ensures rounds { rounds_of result ≡ 0 }
    {
        SaltedCache {
            entries: BTreeMap::new(alloc),
            rounds: 0,
        }
    }

    /// The salted password of a key; None exactly where the key has no entry.
    pub fn get(&self, key: &SaltedKey) -> Option<&Tag>
        ensures found { IfSome result (λ tag. Contains (entries_of self.now) (key.now, tag.now)) }
        ensures salted { IfSome result (λ tag. tag.now ≡ salted_of key.now) }
        ensures usable { IfSome result (λ _. IsUsable key.now) }
        ensures absent { IfNone result ((tag : List ℕ) → Contains (entries_of self.now) (key.now, tag) → ⊥) }
    {
        match self.entry(key) {
            Some(salted) => Some(salted.tag()),
            None => None,
        }
    }

    // The same with the keys beside it.
    pub(crate) fn entry(&self, key: &SaltedKey) -> Option<&SaltedPassword>
        ensures found { IfSome result (λ salted. Contains (entries_of self.now) (key.now, salted.now)) }
        ensures salted { IfSome result (λ salted. salted.now ≡ salted_of key.now) }
        ensures usable { IfSome result (λ _. IsUsable key.now) }
        ensures absent { IfNone result ((tag : List ℕ) → Contains (entries_of self.now) (key.now, tag) → ⊥) }
    {
        self.entries.get(key)
    }

    /// The number of entries.
    pub fn len(&self) -> usize
        ensures { result ≡ length (entries_of self.now) }
    {
        self.entries.len()
    }

    /// Whether there is no entry.
    pub fn is_empty(&self) -> bool
        ensures { IsTrue result ↔ (entries_of self.now ≡ []) }
    {
        self.entries.is_empty()
    }

    /// A copy of the cache: its entries, and the rounds that were derived so far. It derives nothing, and what is put in
    /// later or derived is that cache's alone.
    pub fn try_clone(&self, _alloc: Global) -> Result<SaltedCache, BsonFault>
        ensures entries { IfOk result (λ cache. entries_of cache ≡ entries_of self.now) }
        ensures rounds { IfOk result (λ cache. rounds_of cache ≡ rounds_of self.now) }
        ensures refused { IfErr result (λ fault. fault ≡ BsonFault.OutOfMemory) }
    {
        Ok(SaltedCache {
            entries: self.entries.clone()?,
            rounds: self.rounds,
        })
    }

    /// How many rounds of Hi the logins with this cache have derived; it stays at 18446744073709551615.
    pub fn rounds(&self) -> u64
        ensures { result ≡ rounds_of self.now }
    {
        self.rounds
    }

    // Puts a key in that has no entry, with its salted password. Want of memory leaves the entries as they were.
    pub(crate) fn insert(&mut self, key: SaltedKey, salted: SaltedPassword) -> Result<(), Error>
        requires usable { IsUsable key }
        requires salted { salted ≡ salted_of key }
        requires absent { (other : List ℕ) → Contains (entries_of self.old) (key, other) → ⊥ }
        ensures added { OnOk result (Adds (entries_of self.old) (entries_of self.new) (key, salted)) }
        ensures unchanged { OnErr result (entries_of self.new ≡ entries_of self.old) }
        ensures rounds { rounds_of self.new ≡ rounds_of self.old }
        ensures refused { IfErr result (λ e. e.kind ≡ OutOfMemory) }
    {
        self.entries.insert(key, salted)?;
        Ok(())
    }

    // Counts the rounds that a login has derived.
    pub(crate) fn add_rounds(&mut self, count: u32)
        ensures rounds { rounds_of self.new ≡ min (rounds_of self.old + count) (2 ^ 64 - 1) }
        ensures entries { entries_of self.new ≡ entries_of self.old }
    {
        self.rounds = self.rounds.saturating_add(u64::from(count));
    }
}
