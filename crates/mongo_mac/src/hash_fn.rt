ghost use Rattle.std.specs.Prelude.{◌≡◌, ℕ, ◌≤◌, List, [], ◌++◌, length};

use crate::tag::Tag;

/// A hash function H with blocks of 64 bytes and a digest of at most 32, as HMAC takes it (RFC
/// 2104, section 2). A value in use has absorbed bytes; a clause says which by `holds`, since the
/// value keeps less than it was given.
pub trait HashFn: Drop {
    // The digest of a list of bytes.
    ghost digest: { List ℕ → List ℕ };

    // The value has absorbed these bytes.
    ghost holds: { Self → List ℕ → Type 0 };

    // The length of a digest in bytes.
    ghost OUT: { ℕ };

    /// The length of a digest in bytes (L of RFC 2104).
    const OUT: usize;

    /// A value that has absorbed nothing.
    fn start() -> Self
        ensures { holds result [] };

    /// Absorbs `piece` behind what was absorbed before.
    fn add(&mut self, piece: &[u8])
        ensures { (bytes : List ℕ) → holds self.old bytes → holds self.new (bytes ++ piece.now) };

    /// A copy, which goes on from the same bytes. It takes no memory.
    fn copy(&self) -> Self
        ensures { result ≡ self.now };

    /// The digest of all bytes that were absorbed.
    fn finish(self) -> Tag
        ensures { (bytes : List ℕ) → holds self bytes → result ≡ digest bytes };

    // Each digest has that length.
    ghost length_out: { (bytes : List ℕ) → length (digest bytes) ≡ OUT };

    // A digest fits a tag.
    ghost short: { OUT ≤ 32 };
}

/// The digest of `bytes`.
pub fn digest<H: HashFn>(bytes: &[u8]) -> Tag
    ensures value { result ≡ H.digest bytes.now }
    ensures len { length result ≡ H.OUT }
{
    let mut hash = H::start();
    hash.add(bytes);
    hash.finish()
}
