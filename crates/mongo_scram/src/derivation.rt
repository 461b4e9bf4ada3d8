// The derivation of a login: the key that the server's first message asks for, and its salted password.

ghost use Rattle.std.specs.Prelude.{◌≡◌, ◌⊎◌, ◌≤◌, IfOk, IfErr, OnOk, OnErr};
ghost use Rattle.mongo_wire.specs.declared.error.ErrorKind.TheVariants.{OutOfMemory};
ghost use Rattle.mongo_scram.specs.Cache.{entries_of, rounds_of, Adds};
ghost use Rattle.mongo_scram.specs.Client.{user_of};
ghost use Rattle.mongo_scram.specs.Costs.{ledgers, HasEntry, Counts, Derives, CostsNothing, key_for};
ghost use Rattle.mongo_scram.specs.Entry.{salted_of, IsUsable};
ghost use Rattle.mongo_scram.specs.Key.{PasswordRow};
ghost use Rattle.mongo_scram.specs.Plan.{AnswerRow};
ghost use Rattle.mongo_scram.specs.Login.{IsAnswered};

use crate::auth_info::ClientAuthInfo;
use crate::cache::{SaltedCache, SaltedKey};
use crate::salted_password::SaltedPassword;
use crate::scram_version::ScramVersion;
use crate::server_first::ServerFirst;
use mongo_bson::Text;
use mongo_mac::Steps;
use mongo_wire::Error;
use std::alloc::Global;
use std::sync::ledger::Ledger;

/// A key, and its salted password.
#[derive(Drop)]
pub struct Derived {
    /// The key.
    pub key: SaltedKey,
    /// Its salted password.
    pub salted: SaltedPassword,
}

/// Goes on from the server's first message, as a client with this nonce that derives by at most `max_iterations` iterations: the
/// salted password is looked up by its whole key, and derived where it has no entry.
///
/// Refusals, in this order: those of [`ServerFirst::validate`] and of [`ScramVersion::compute_salted_password`]. They take
/// no step.
pub fn answer<G: Ledger>(
    alloc: Global,
    version: ScramVersion,
    user: &ClientAuthInfo<'_>,
    nonce: &str,
    max_iterations: u32,
    server_first: &ServerFirst,
    cache: &mut SaltedCache,
    steps: &mut Steps<G>,
) -> Result<Derived, Error>
    ensures key { IfOk result (λ derived. derived.key ≡ key_for version (user_of user.now) server_first.now) }
    ensures answered { IfOk result (λ derived. IsAnswered server_first.now nonce.now max_iterations derived.key derived.salted (ledgers steps.old cache.old) (ledgers steps.new cache.new)) }
    ensures refused { IfErr result (λ e. AnswerRow server_first.now nonce.now max_iterations version (user_of user.now).password e.kind ⊎ (e.kind ≡ OutOfMemory)) }
    ensures no_cost { OnErr result (CostsNothing (ledgers steps.old cache.old) (ledgers steps.new cache.new)) }
{
    server_first.validate(nonce, max_iterations)?;
    let key = key_of(alloc, version, user, server_first)?;
    let salted = salted_password(alloc, &key, cache, steps)?;
    Ok(Derived { key, salted })
}

// The key that a server's first message asks for.
fn key_of(
    alloc: Global,
    version: ScramVersion,
    user: &ClientAuthInfo<'_>,
    server_first: &ServerFirst,
) -> Result<SaltedKey, Error>
    ensures key { IfOk result (λ key. key ≡ key_for version (user_of user.now) server_first.now) }
    ensures refused { IfErr result (λ e. e.kind ≡ OutOfMemory) }
{
    Ok(SaltedKey {
        version,
        username: Text::from_slice(alloc, user.username)?,
        password: Text::from_slice(alloc, user.password)?,
        salt: server_first.salt.try_clone(alloc)?,
        count: server_first.i,
    })
}

// The salted password of a key: that of its entry, or else derived and its rounds counted.
fn salted_password<G: Ledger>(
    alloc: Global,
    key: &SaltedKey,
    cache: &mut SaltedCache,
    steps: &mut Steps<G>,
) -> Result<SaltedPassword, Error>
    requires { 1 ≤ key.now.count }
    ensures salted { IfOk result (λ salted. salted ≡ salted_of key.now) }
    ensures usable { OnOk result (IsUsable key.now) }
    ensures derived { OnOk result (Derives key.now (ledgers steps.old cache.old) (ledgers steps.new cache.new)) }
    ensures entries { entries_of cache.new ≡ entries_of cache.old }
    ensures refused { IfErr result (λ e. PasswordRow key.now.version key.now.password e.kind) }
    ensures no_cost { OnErr result (Counts 0 (ledgers steps.old cache.old) (ledgers steps.new cache.new)) }
{
    match cache.entry(key) {
        Some(salted) => Ok(salted.copy()),
        None => derive(alloc, key, cache, steps),
    }
}

// The salted password of a key, derived and its rounds counted.
fn derive<G: Ledger>(
    alloc: Global,
    key: &SaltedKey,
    cache: &mut SaltedCache,
    steps: &mut Steps<G>,
) -> Result<SaltedPassword, Error>
    requires { 1 ≤ key.now.count }
    ensures salted { IfOk result (λ salted. salted ≡ salted_of key.now) }
    ensures usable { OnOk result (IsUsable key.now) }
    ensures counts { OnOk result (Counts key.now.count (ledgers steps.old cache.old) (ledgers steps.new cache.new)) }
    ensures entries { entries_of cache.new ≡ entries_of cache.old }
    ensures refused { IfErr result (λ e. PasswordRow key.now.version key.now.password e.kind) }
    ensures no_cost { OnErr result (Counts 0 (ledgers steps.old cache.old) (ledgers steps.new cache.new)) }
{
    let tag = key.version.compute_salted_password(
        alloc,
        key.username.as_str(),
        key.password.as_str(),
        key.count,
        key.salt.as_bytes(),
        steps,
    )?;
    cache.add_rounds(key.count);
    Ok(SaltedPassword::new(key.version, tag))
}

/// Puts a key in with its salted password, where it has no entry. A refusal leaves the entries as they were.
pub fn keep(cache: &mut SaltedCache, derived: Derived) -> Result<(), Error>
    requires usable { IsUsable derived.key }
    requires salted { derived.salted ≡ salted_of derived.key }
    ensures kept { OnOk result ((HasEntry cache.old derived.key × (entries_of cache.new ≡ entries_of cache.old)) ⊎ Adds (entries_of cache.old) (entries_of cache.new) (derived.key, salted_of derived.key)) }
    ensures unchanged { OnErr result (entries_of cache.new ≡ entries_of cache.old) }
    ensures rounds { rounds_of cache.new ≡ rounds_of cache.old }
    ensures refused { IfErr result (λ e. e.kind ≡ OutOfMemory) }
{
    let Derived { key, salted } = derived;
    match cache.entry(&key) {
        Some(_) => Ok(()),
        None => cache.insert(key, salted),
    }
}
