ghost use Rattle.std.specs.Prelude.{◌≡◌, ◌<◌, ◌≤◌};

use mongo_mac::{
    HashFn, HmacKey, Sha1Fn, Sha256Fn, Steps, Tag, are_same_bytes, digest, hi, hmac, xor,
};
use std::alloc::{AllocError, Global};
use std::marker::Brand;
use std::sync::ledger::{Blank, Ledger};
use std::test::Fail;

/// A text under a key, and its HMACs.
struct Mac {
    key: &'static [u8],
    text: &'static [u8],
    sha1: &'static str,
    sha256: &'static str,
}

const LONG_KEY_TEXT: &[u8] = b"Test Using Larger Than Block-Size Key - Hash Key First";

// RFC 2202 and RFC 4231. Where these have no row for a length of key, the values are those of
// Python's `hmac`.
const MACS: [Mac; 7] = [
    Mac {
        key: b"Jefe",
        text: b"what do ya want for nothing?",
        sha1: "effcdf6ae5eb2fa2d27416d5f184df9c259a7c79",
        sha256: "5bdcc146bf60754e6a042426089575c75a003f089d2739839dec58b964ec3843",
    },
    Mac {
        key: &[0x0B; 20],
        text: b"Hi There",
        sha1: "b617318655057264e28bc0b6fb378c8ef146be00",
        sha256: "b0344c61d8db38535ca8afceaf0bf12b881dc200c9833da726e9376c2e32cff7",
    },
    Mac {
        key: &[
            1, 2, 3, 4, 5, 6, 7, 8, 9, 10, 11, 12, 13, 14, 15, 16, 17, 18, 19, 20, 21, 22, 23, 24,
            25,
        ],
        text: &[0xCD; 50],
        sha1: "4c9007f4026250c6bc8414f9bf50c86c2d7235da",
        sha256: "82558a389a443c0ea4cc819899f2083a85f0faa3e578f8077a2e3ff46729665b",
    },
    Mac {
        key: &[0xAA; 64],
        text: LONG_KEY_TEXT,
        sha1: "070a98992c4c1a83474cb780fc564608df3cf503",
        sha256: "84332a7580ed3cf75de83c644c8d2c1c262ad90e0190e5c5ae4b82b2102e8e75",
    },
    Mac {
        key: &[0xAA; 65],
        text: LONG_KEY_TEXT,
        sha1: "b5a88a552cdd7545b07b117d31e4be33c2ddcd57",
        sha256: "c62955a96944ff68deabbc0eab6192065c1c55bb8ddee16151ed5337f911eab9",
    },
    Mac {
        key: &[0xAA; 131],
        text: LONG_KEY_TEXT,
        sha1: "90d0dace1c1bdc957339307803160335bde6df2b",
        sha256: "60e431591ee0b67f0d8a26aacbf5b77f8e0bc6213728c5140546040f0ee37f54",
    },
    Mac {
        key: b"",
        text: b"",
        sha1: "fbdb1d1b18aa6c08324b7d64b71fb76370690e1d",
        sha256: "b613679a0814d9ec772f95d778c35fc5ff1697c493715653c6c712144292c5ad",
    },
];

#[test]
fn hmac_of_the_rfc_vectors(rt: HostRuntime) -> Result<(), Fail> {
    for mac in &MACS {
        wants(rt.alloc(), &hmac::<Sha1Fn>(mac.key, mac.text), mac.sha1)?;
        wants(rt.alloc(), &sha256_by_copy(mac.key, mac.text), mac.sha256)?;
    }
    Ok(())
}

/// The HMAC under a copy of the key.
fn sha256_by_copy(key: &[u8], text: &[u8]) -> Tag {
    HmacKey::<Sha256Fn>::new(key).copy().mac(text)
}

/// A derivation, and its results.
struct Derivation {
    password: &'static [u8],
    salt: &'static [u8],
    count: u32,
    sha1: &'static str,
    sha256: &'static str,
}

// SHA-1: RFC 6070. SHA-256: the first block of RFC 7914, section 11. The rest are Python's
// `hashlib.pbkdf2_hmac`.
const DERIVATIONS: [Derivation; 6] = [
    Derivation {
        password: b"password",
        salt: b"salt",
        count: 1,
        sha1: "0c60c80f961f0e71f3a9b524af6012062fe037a6",
        sha256: "120fb6cffcf8b32c43e7225256c4f837a86548c92ccc35480805987cb70be17b",
    },
    Derivation {
        password: b"password",
        salt: b"salt",
        count: 2,
        sha1: "ea6c014dc72d6f8ccd1ed92ace1d41f0d8de8957",
        sha256: "ae4d0c95af6b46d32d0adff928f06dd02a303f8ef3c251dfd6e2d85a95474c43",
    },
    Derivation {
        password: b"password",
        salt: b"salt",
        count: 4096,
        sha1: "4b007901b765489abead49d926f721d065a429c1",
        sha256: "c5e478d59288c841aa530db6845c4c8d962893a001ce4e11a4963873aa98134a",
    },
    Derivation {
        password: b"passwd",
        salt: b"salt",
        count: 1,
        sha1: "69f429426698f069a2e17caa3343645db305765c",
        sha256: "55ac046e56e3089fec1691c22544b605f94185216dde0465e68b9d57c20dacbc",
    },
    Derivation {
        password: b"Password",
        salt: b"NaCl",
        count: 80_000,
        sha1: "14faf3c943860f0f543d94c449ae7fe1223afa88",
        sha256: "4ddcd8f60b98be21830cee5ef22701f9641a4418d04c0414aeff08876b34ab56",
    },
    Derivation {
        password: b"",
        salt: b"",
        count: 2,
        sha1: "620c000a06fed9c10bca11516b3ac0228d671700",
        sha256: "97398411d6aea43a77acef92226ab8278d4db0668bd1d7a76a725f7680ac45c5",
    },
];

#[test]
fn hi_of_the_rfc_vectors(rt: HostRuntime) -> Result<(), Fail> {
    for row in &DERIVATIONS {
        assert!(rt; 1 <= row.count);
        let sha1 = derived::<Sha1Fn, Brand>(Blank::new(1), row.password, row.salt, row.count);
        wants(rt.alloc(), &sha1, row.sha1)?;
        let sha256 = derived::<Sha256Fn, Brand>(Blank::new(1), row.password, row.salt, row.count);
        wants(rt.alloc(), &sha256, row.sha256)?;
    }
    Ok(())
}

/// Whether a block is `front` and then this byte to its end.
fn is_filled(block: &[u8; 64], front: [u8; 4], byte: u8) -> bool {
    block.starts_with(&front) && block.ends_with(&[byte; 60])
}

#[test]
fn blocks_of_jefe(rt: HostRuntime) {
    let key = HmacKey::<Sha256Fn>::new(b"Jefe");
    assert!(rt; is_filled(key.inner(), [0x7C, 0x53, 0x50, 0x53], 0x36));
    assert!(rt; is_filled(key.outer(), [0x16, 0x39, 0x3A, 0x39], 0x5C));
}

/// The digest of `abc`, which comes in pieces and by a copy too.
fn sha256_in_pieces() -> Tag {
    let mut hash = Sha256Fn::start();
    hash.add(b"a");
    let mut copy = hash.copy();
    hash.add(b"other text");
    copy.add(b"bc");
    copy.finish()
}

#[test]
fn digests_and_their_xor(rt: HostRuntime) -> Result<(), Fail> {
    // FIPS 180-4
    let sha1 = "a9993e364706816aba3e25717850c26c9cd0d89d";
    let sha256 = "ba7816bf8f01cfea414140de5dae2223b00361a396177a9cb410ff61f20015ad";
    wants(rt.alloc(), &digest::<Sha1Fn>(b"abc"), sha1)?;
    wants(rt.alloc(), &sha256_in_pieces(), sha256)?;
    let mixed = xor(
        &Tag::from_slice(&[0b1100, 0xFF, 0]),
        &Tag::from_slice(&[0b1010, 0xFF, 7]),
    );
    assert!(rt; mixed == Tag::from_slice(&[0b0110, 0, 7]));
    // The text of a tag that may be a key shows none of its bytes.
    assert!(rt; format!(in rt.alloc(); "{mixed:?}")?.as_str() == "Tag { .. }");
    Ok(())
}

#[test]
fn bytes_that_differ_anywhere_are_not_the_same(rt: HostRuntime) {
    let rows: [(&[u8], &[u8], bool); 6] = [
        (b"", b"", true),
        (b"verifier", b"verifier", true),
        (b"verifier", b"Verifier", false),
        (b"verifier", b"verifies", false),
        (b"verifier", b"verify", false),
        (b"verify", b"verifier", false),
    ];
    for (left, right, same) in &rows {
        assert!(rt; are_same_bytes(left, right) == *same);
    }
}

/// Hi with a counter of its own, of the ledger that `blank` opens.
fn derived<H: HashFn, G: Ledger>(blank: Blank, password: &[u8], salt: &[u8], count: u32) -> Tag
    requires name { blank.name ≡ G.name }
    requires parts { blank.parts ≡ G.parts }
    requires has_a_part { 0 < G.parts }
    requires least { 1 ≤ count }
{
    let mut steps = Steps::<G>::new(blank);
    hi::<H, G>(password, salt, count, &mut steps)
}

/// The bytes of a tag as lower-case hex.
fn hex_of(alloc: Global, tag: &Tag) -> Result<String, AllocError> {
    let mut text = String::new(alloc);
    for byte in tag.as_bytes() {
        text.push_str(format!(in alloc; "{byte:02x}")?.as_str())?;
    }
    Ok(text)
}

/// Fails where the bytes of a tag aren't these.
fn wants(alloc: Global, tag: &Tag, wanted: &str) -> Result<(), Fail> {
    let hex = hex_of(alloc, tag)?;
    if hex.as_str() == wanted {
        Ok(())
    } else {
        Err(Fail::new(format_args!("{hex} in place of {wanted}")))
    }
}
