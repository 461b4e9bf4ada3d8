ghost use Rattle.std.proofs.Common.{arith};
ghost use Rattle.sha1.specs.Sha1.{Holds, sha1};
ghost use Rattle.sha2.specs.Hashers.{Holds256};
ghost use Rattle.sha2.specs.Sha256.{sha256};
ghost use Rattle.mongo_mac.specs.Digests.{length-sha1, length-sha256};

use crate::hash_fn::HashFn;
use crate::tag::Tag;
use sha1::Sha1;
use sha2::{Digest, Sha256};

/// SHA-1 (FIPS 180-4), with a digest of 20 bytes.
#[derive(Drop)]
pub struct Sha1Fn(Sha1);

impl HashFn for Sha1Fn {
    ghost digest = { sha1 };

    ghost holds = { λ s bytes. Holds s.0 bytes };

    ghost OUT = { 20 };

    ghost length_out = { length-sha1 };

    ghost short = { Prim.omega arith };

    const OUT: usize = 20;

    fn start() -> Sha1Fn {
        Sha1Fn(Sha1::new())
    }

    fn add(&mut self, piece: &[u8]) {
        self.0.update(piece);
    }

    fn copy(&self) -> Sha1Fn {
        Sha1Fn(self.0.clone().unwrap())
    }

    fn finish(self) -> Tag {
        Tag::from_slice(&self.0.finalize())
    }
}

/// SHA-256 (FIPS 180-4), with a digest of 32 bytes.
#[derive(Drop)]
pub struct Sha256Fn(Sha256);

impl HashFn for Sha256Fn {
    ghost digest = { sha256 };

    ghost holds = { λ s bytes. Holds256 s.0 bytes };

    ghost OUT = { 32 };

    ghost length_out = { length-sha256 };

    ghost short = { Prim.omega arith };

    const OUT: usize = 32;

    fn start() -> Sha256Fn {
        Sha256Fn(Sha256::new())
    }

    fn add(&mut self, piece: &[u8]) {
        self.0.update(piece);
    }

    fn copy(&self) -> Sha256Fn {
        Sha256Fn(self.0.clone().unwrap())
    }

    fn finish(self) -> Tag {
        Tag::from_slice(&self.0.finalize())
    }
}
