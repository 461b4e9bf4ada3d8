ghost use Rattle.std.specs.Prelude.{◌≡◌, ◌↔◌, IsTrue};

/// Whether two lists of bytes are one. Of lists of one length each byte is looked at, whatever the
/// first ones are, so that the answer to a guess at a secret says nothing of how far the guess was
/// right. Their lengths are no secret.
pub fn are_same_bytes(left: &[u8], right: &[u8]) -> bool
    ensures { IsTrue result ↔ (left.now ≡ right.now) }
{
    if left.len() != right.len() {
        return false;
    }
    let mut difference = 0;
    for i in 0..left.len() {
        difference |= left[i] ^ right[i];
    }
    difference == 0
}
