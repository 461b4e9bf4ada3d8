ghost use Rattle.std.specs.Prelude.{MatchOption};
ghost use Rattle.mongo_bson.specs.Reading.{BeginsWithDocument, HasNoDocument};

use crate::RawDocument;
use crate::shape::document_len;

/// The document at the front, and the bytes after it. Its elements are judged as they are read.
///
/// None where the bytes have no length field, where it is below 5 or counts more bytes than are there, or where the last of
/// those isn't zero. It takes no memory.
pub fn take_document<'a>(bytes: &'a [u8]) -> Option<(RawDocument<'a>, &'a [u8])>
    ensures { MatchOption result (HasNoDocument bytes.now) (λ p. BeginsWithDocument bytes.now p.0.bytes.now p.1.now) }
{
    let size = document_len(bytes)?;
    let (document, rest) = bytes.split_at(size);
    Some((RawDocument { bytes: document }, rest))
}
