ghost use Rattle.std.specs.Prelude.{◌≡◌, ◌==◌, ℕ, ◌≤◌, length, Some, codes};
ghost use Rattle.std.specs.Cmp.Lexicographic.{pointwise};
ghost use Rattle.std.specs.Cmp.Rules.{comparing};
ghost use Rattle.std.proofs.Common.{rules};
ghost use Rattle.mongo_mac.specs.Bytes.{xor_bytes};

use crate::compare::are_same_bytes;
use std::fmt;
use std::marker::Model;

/// A digest, an HMAC or a derived key: at most 32 bytes in a store of its own, so that it takes no
/// memory. A clause sees the list of those bytes.
#[derive(Clone, Copy)]
pub struct Tag {
    // The bytes, and zeros behind them, so that two tags with the same bytes are one value.
    store: [u8; 32],
    len: usize,
}

impl Model for Tag {
    ghost use Rattle.std.specs.Prelude.{ℕ, List, take, length, refl};
    ghost use Rattle.mongo_mac.specs.TagStore.{IsZeroFilled, store_of, length_held, store_of_held};

    ghost Value = { List ℕ };

    ghost view = { λ t. take t.len t.store };

    ghost invariant = { λ t. IsZeroFilled t.store t.len };

    ghost inverse = { λ bytes. record { store = store_of bytes; len = length bytes } };

    ghost inverse_ok = { λ t z.
        Prim.rw (store_of_held t.store t.len z, length_held t.store t.len z) refl };
}

impl Tag {
    /// The tag of the bytes `bytes`.
    pub fn from_slice(bytes: &[u8]) -> Tag
        requires { length bytes.now ≤ 32 }
        ensures { result ≡ bytes.now }
    {
        let mut store = [0; 32];
        store[..bytes.len()].copy_from_slice(bytes);
        Tag {
            store,
            len: bytes.len(),
        }
    }

    /// The bytes of the tag, at most 32.
    pub fn as_bytes(&self) -> &[u8]
        ensures value { result.now ≡ self.now }
        ensures short { length self.now ≤ 32 }
    {
        &self.store[..self.len]
    }
}

// A tag may be a secret, so its comparison looks at each byte.
impl PartialEq for Tag {
    ghost eq = { pointwise ◌==◌ };

    ghost laws = { Prim.search (comparing, rules) };

    fn eq(&self, other: &Tag) -> bool {
        are_same_bytes(self.as_bytes(), other.as_bytes())
    }
}

impl Eq for Tag {
    ghost laws = { Prim.search (comparing, rules) };
}

// A tag may be a key, so its bytes are not shown.
impl fmt::Debug for Tag {
    ghost debug_output = { λ _. Some (codes "Tag { .. }") };

    fn fmt<W: fmt::Write>(&self, f: &mut fmt::Formatter<W>) -> fmt::Result {
        f.write_str("Tag { .. }")
    }
}

/// The XOR of two tags of one length, byte by byte.
pub fn xor(a: &Tag, b: &Tag) -> Tag
    requires { length a.now ≡ length b.now }
    ensures value { result ≡ xor_bytes a.now b.now }
    ensures len { length result ≡ length a.now }
{
    // Over the whole stores, whose length is fixed: their zeros stay zeros.
    let mut store = [0; 32];
    xor_into(&mut store, &a.store, &b.store);
    Tag { store, len: a.len }
}

/// Writes the XOR of `left` and `right` into `out`, all three of one length.
pub(crate) fn xor_into(out: &mut [u8], left: &[u8], right: &[u8])
    requires left_fits { length left.now ≡ length out.old }
    requires right_fits { length right.now ≡ length out.old }
    ensures { out.new ≡ xor_bytes left.now right.now }
{
    for i in 0..out.len() {
        out[i] = left[i] ^ right[i];
    }
}
