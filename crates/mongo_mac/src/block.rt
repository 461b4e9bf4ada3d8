// The blocks of a key (RFC 2104, section 2).

ghost use Rattle.std.specs.Prelude.{◌≡◌, ◌-◌, ◌≤◌, ◌++◌, length, replicate};
ghost use Rattle.mongo_mac.specs.Bytes.{xor_bytes};
ghost use Rattle.mongo_mac.specs.Hmac.{key_block};

use crate::hash_fn::{HashFn, digest};
use crate::tag::xor_into;

// The length of a block of the hash function in bytes (B of RFC 2104).
const BLOCK_LEN: usize = 64;

// The byte that ipad repeats.
pub(crate) const INNER_BYTE: u8 = 0x36;

// The byte that opad repeats.
pub(crate) const OUTER_BYTE: u8 = 0x5C;

// The key as one block: hashed first if it is longer, and filled with zeros.
pub(crate) fn key_block<H: HashFn>(key: &[u8]) -> [u8; 64]
    ensures { result ≡ key_block H.digest key.now }
{
    if key.len() > BLOCK_LEN {
        zero_filled(digest::<H>(key).as_bytes())
    } else {
        zero_filled(key)
    }
}

// The bytes of `key`, and zeros behind them to a block.
fn zero_filled(key: &[u8]) -> [u8; 64]
    requires { length key.now ≤ 64 }
    ensures { result ≡ key.now ++ replicate (64 - length key.now) 0 }
{
    let mut block = [0; 64];
    block[..key.len()].copy_from_slice(key);
    block
}

// The XOR of a block with the byte `pad` repeated.
pub(crate) fn with_pad(block: &[u8; 64], pad: u8) -> [u8; 64]
    ensures { result ≡ xor_bytes block.now (replicate 64 pad) }
{
    let mut out = [0; 64];
    xor_into(&mut out, block, &[pad; 64]);
    out
}
