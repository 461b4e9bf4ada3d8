ghost use Rattle.std.specs.Prelude.{◌≡◌, ◌<◌, ◌≤◌};

use mongo_generate::{Generated, generate};
use mongo_mac::Steps;
use std::alloc::{AllocError, Global};
use std::marker::Brand;
use std::sync::ledger::{Blank, Ledger};
use std::test::Fail;

// So many logins, with a counter of their own, of the ledger that `blank` opens.
fn generated<G: Ledger>(blank: Blank, alloc: Global, count: u32) -> Result<Generated, AllocError>
    requires name { blank.name ≡ G.name }
    requires parts { blank.parts ≡ G.parts }
    requires has_a_part { 0 < G.parts }
    requires few { count ≤ 1000 }
{
    let mut steps = Steps::<G>::new(blank);
    generate(alloc, count, &mut steps)
}

// How many logins, the rounds of Hi, 4096 for each of their keys, and the digest, by Python's hashlib and hmac.
const LOGINS: [(u32, u64, [u8; 32]); 3] = [
    (
        0,
        0,
        *b"\xe3\xb0\xc4\x42\x98\xfc\x1c\x14\x9a\xfb\xf4\xc8\x99\x6f\xb9\x24\x27\xae\x41\xe4\x64\x9b\x93\x4c\xa4\x95\x99\x1b\x78\x52\xb8\x55",
    ),
    (
        1,
        4096,
        *b"\xda\xc4\xfa\xd7\x06\x8e\x70\x6a\xcb\x0c\x89\x11\x98\x8f\xb5\xfb\x0e\x12\x3b\xb7\x15\x10\xd2\x11\x38\xcf\xe8\x2b\x06\xf0\xd3\x22",
    ),
    (
        7,
        28672,
        *b"\x6f\x72\x3b\xf6\x1f\xef\xd5\x8b\xeb\xac\xe9\x01\xd8\x45\x4f\x19\x16\x03\x79\x00\x39\xc8\x7d\x17\x71\x6c\x18\xcb\xf5\x8d\x2f\x4c",
    ),
];

#[test]
fn both_sides_accept(rt: HostRuntime) -> Result<(), Fail> {
    for (count, rounds, digest) in LOGINS {
        let found = generated::<Brand>(Blank::new(1), rt.alloc(), count)?;
        assert_eq!(rt; found.logins, count);
        assert_eq!(rt; found.accepted, count);
        assert_eq!(rt; found.rounds, rounds);
        assert_eq!(rt; found.digest, digest);
    }
    Ok(())
}
