ghost use Rattle.std.specs.Prelude.{◌≡◌, ℕ, ◌+◌, ◌≤◌, List, ◌++◌, length};
ghost use Rattle.mongo_mac.specs.Hi.{first_index, hi_of, hi_under};
ghost use Rattle.mongo_mac.specs.Hmac.{hmac_of, mac_of, pads_of};

use crate::block::{INNER_BYTE, OUTER_BYTE, key_block, with_pad};
use crate::hash_fn::HashFn;
use crate::steps::Steps;
use crate::tag::{Tag, xor};
use std::marker::Model;
use std::sync::ledger::Ledger;

/// INT(1), the index of the first block, most significant byte first (RFC 5802, section 2.2).
const FIRST_INDEX: [u8; 4] = [0, 0, 0, 1];

/// A key as HMAC uses it: the two blocks K XOR ipad and K XOR opad, and no key. Beside each it
/// keeps a value of the hash function that has absorbed it, so that the HMAC of a short text costs
/// two compressions and not four (RFC 2104, section 4). A clause sees the two blocks.
#[derive(Drop)]
pub struct HmacKey<H: HashFn> {
    inner: [u8; 64],
    outer: [u8; 64],
    inner_absorbed: H,
    outer_absorbed: H,
}

impl<H: HashFn> Model for HmacKey<H> {
    ghost use Rattle.mongo_mac.specs.Hmac.{Pads};

    ghost Value = { Pads };

    ghost view = { λ k. record { inner = k.inner; outer = k.outer } };

    ghost invariant = { λ k. H.holds k.inner_absorbed k.inner × H.holds k.outer_absorbed k.outer };
}

impl<H: HashFn> HmacKey<H> {
    /// The blocks of `key`, which may have any length.
    pub fn new(key: &[u8]) -> HmacKey<H>
        ensures { result ≡ pads_of H.digest key.now }
    {
        let block = key_block::<H>(key);
        let inner = with_pad(&block, INNER_BYTE);
        let outer = with_pad(&block, OUTER_BYTE);
        HmacKey {
            inner_absorbed: absorbed::<H>(&inner),
            outer_absorbed: absorbed::<H>(&outer),
            inner,
            outer,
        }
    }

    /// A copy of the blocks. It takes no memory.
    pub fn copy(&self) -> HmacKey<H>
        ensures { result ≡ self.now }
    {
        HmacKey {
            inner: self.inner,
            outer: self.outer,
            inner_absorbed: self.inner_absorbed.copy(),
            outer_absorbed: self.outer_absorbed.copy(),
        }
    }

    /// The block K XOR ipad.
    pub fn inner(&self) -> &[u8; 64]
        ensures { result.now ≡ self.now.inner }
    {
        &self.inner
    }

    /// The block K XOR opad.
    pub fn outer(&self) -> &[u8; 64]
        ensures { result.now ≡ self.now.outer }
    {
        &self.outer
    }

    /// The HMAC of `input` under this key.
    pub fn mac(&self, input: &[u8]) -> Tag
        ensures value { result ≡ mac_of H.digest self.now input.now }
        ensures len { length result ≡ H.OUT }
    {
        let mut inner = self.inner_absorbed.copy();
        inner.add(input);
        self.finish(inner)
    }

    /// Hi(K, salt, count) under this key (RFC 5802, section 2.2): U1 XOR U2 XOR .. XOR U`count`, by
    /// exactly `count` steps, of which there is one at least.
    pub fn hi<G: Ledger>(&self, salt: &[u8], count: u32, steps: &mut Steps<G>) -> Tag
        requires { 1 ≤ count }
        ensures value { result ≡ hi_under (mac_of H.digest self.now) salt.now count }
        ensures len { length result ≡ H.OUT }
        ensures cost { steps.new ≡ steps.old + count }
    {
        let mut last = self.first(salt, steps);
        let mut all = last;
        for _round in 1..count {
            last = self.next(&last, steps);
            all = xor(&all, &last);
        }
        all
    }

    // U1, which is a step.
    fn first<G: Ledger>(&self, salt: &[u8], steps: &mut Steps<G>) -> Tag
        ensures value { result ≡ mac_of H.digest self.now (salt.now ++ first_index) }
        ensures len { length result ≡ H.OUT }
        ensures cost { steps.new ≡ steps.old + 1 }
    {
        steps.tick();
        let mut inner = self.inner_absorbed.copy();
        inner.add(salt);
        inner.add(&FIRST_INDEX);
        self.finish(inner)
    }

    // U(j + 1) from Uj, which is a step.
    fn next<G: Ledger>(&self, last: &Tag, steps: &mut Steps<G>) -> Tag
        ensures value { result ≡ mac_of H.digest self.now last.now }
        ensures len { length result ≡ H.OUT }
        ensures cost { steps.new ≡ steps.old + 1 }
    {
        steps.tick();
        self.mac(last.as_bytes())
    }

    // The HMAC of the text that `inner` has absorbed behind the inner block.
    fn finish(&self, inner: H) -> Tag
        ensures value { (text : List ℕ) → H.holds inner (self.now.inner ++ text) →
            result ≡ mac_of H.digest self.now text }
        ensures len { (text : List ℕ) → H.holds inner (self.now.inner ++ text) →
            length result ≡ H.OUT }
    {
        let mut outer = self.outer_absorbed.copy();
        outer.add(inner.finish().as_bytes());
        outer.finish()
    }
}

/// The HMAC of `input` under `key`, which may have any length (RFC 2104, section 2).
pub fn hmac<H: HashFn>(key: &[u8], input: &[u8]) -> Tag
    ensures value { result ≡ hmac_of H.digest key.now input.now }
    ensures len { length result ≡ H.OUT }
{
    HmacKey::<H>::new(key).mac(input)
}

/// Hi(password, salt, count) (RFC 5802, section 2.2): U1 XOR U2 XOR .. XOR U`count`, by exactly
/// `count` steps, of which there is one at least.
pub fn hi<H: HashFn, G: Ledger>(
    password: &[u8],
    salt: &[u8],
    count: u32,
    steps: &mut Steps<G>,
) -> Tag
    requires { 1 ≤ count }
    ensures value { result ≡ hi_of H.digest password.now salt.now count }
    ensures len { length result ≡ H.OUT }
    ensures cost { steps.new ≡ steps.old + count }
{
    HmacKey::<H>::new(password).hi(salt, count, steps)
}

// The hash function after it has absorbed `block`.
fn absorbed<H: HashFn>(block: &[u8]) -> H
    ensures { H.holds result block.now }
{
    let mut hash = H::start();
    hash.add(block);
    hash
}
