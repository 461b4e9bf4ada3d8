//! HMAC (RFC 2104) and the key derivation Hi (RFC 5802, section 2.2), over SHA-1 and SHA-256.
//!
//! A key becomes a block of 64 bytes, K: the key itself, or its digest if it is longer, and zeros
//! behind. Then, with ipad the byte 0x36 and opad the byte 0x5C repeated 64 times,
//!
//! ```text
//! HMAC(K, text)    = H(K XOR opad, H(K XOR ipad, text))
//! U1               = HMAC(str, salt + INT(1)), with INT(1) the bytes 0, 0, 0, 1
//! U(j + 1)         = HMAC(str, Uj)
//! Hi(str, salt, i) = U1 XOR U2 XOR .. XOR Ui
//! ```
//!
//! `hmac` and `hi` are these, and `HmacKey` keeps the two blocks K XOR ipad and K XOR opad for many
//! texts under one key, with the hash function already run over both. `HashFn` is H, which gives a
//! `Tag`.
//!
//! Proved: each call gives exactly the bytes of these equations over the digests that `sha1` and
//! `sha2` state (FIPS 180-4), `hi` counts exactly `count` steps on the `Steps` that it is handed,
//! and no call takes memory.
#![tactic(auto)]

mod block;
mod compare;
mod hash_fn;
mod key;
mod sha;
mod steps;
mod tag;

pub use compare::are_same_bytes;
pub use hash_fn::{HashFn, digest};
pub use key::{HmacKey, hi, hmac};
pub use sha::{Sha1Fn, Sha256Fn};
pub use steps::Steps;
pub use tag::{Tag, xor};
