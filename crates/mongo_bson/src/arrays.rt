ghost use Rattle.std.specs.Prelude.{◌≡◌, ◌+◌, ◌-◌, ◌^◌, ◌<◌, ◌↔◌, length, IsOk, IfOk, IfErr, IsErrOf};
ghost use Rattle.std.specs.Fmt.{decimal};
ghost use Rattle.mongo_bson.specs.Framed.{maximum_length};
ghost use Rattle.mongo_bson.specs.Array.{IsArrayOf, GrowsBy, array_of, document_entries};
ghost use Rattle.mongo_bson.specs.Refusals.{PushRefuses, HadMemory};

use crate::{BsonFault, Documents, RawArrayBuf, RawValue};
use mongo_num::{Checked, NumFault, num_decimal_digits};
use std::alloc::Global;

/// The array of the documents, in their order.
///
/// `TooLong` where it would pass 2147483647 bytes. Want of memory may stand in the place of any answer.
pub fn to_raw_bson_array(alloc: Global, documents: &Documents) -> Result<RawArrayBuf, BsonFault>
    ensures array { IfOk result (λ array. IsArrayOf array.document array.count (document_entries documents.now)) }
    ensures too_long { IsErrOf result BsonFault.TooLong ↔ (HadMemory result × (maximum_length < length (array_of (document_entries documents.now)))) }
    ensures refused { IfErr result PushRefuses }
{
    let mut array = RawArrayBuf::new(alloc)?;
    for document in documents.as_slice() {
        match array.push(RawValue::Document(document.borrow())) {
            Ok(()) => {}
            Err(fault) => return Err(fault),
        }
    }
    Ok(array)
}

/// The array of the documents, in their order, for a caller that is done with them.
///
/// `TooLong` as by [`to_raw_bson_array`].
pub fn vec_to_raw_array_buf(alloc: Global, documents: Documents) -> Result<RawArrayBuf, BsonFault>
    ensures array { IfOk result (λ array. IsArrayOf array.document array.count (document_entries documents)) }
    ensures too_long { IsErrOf result BsonFault.TooLong ↔ (HadMemory result × (maximum_length < length (array_of (document_entries documents)))) }
    ensures refused { IfErr result PushRefuses }
{
    to_raw_bson_array(alloc, &documents)
}

/// How many bytes an array grows by when a document of `doc_len` bytes is put at its end under the number `index`: a
/// kind byte, the number's decimal digits, a zero and the document.
///
/// `Failed` where that doesn't fit a `usize`.
pub fn array_entry_size_bytes(index: usize, doc_len: usize) -> Result<usize, NumFault>
    ensures size { IfOk result (λ size. size ≡ 2 + length (decimal index) + doc_len) }
    ensures fits { IsOk result ↔ (2 + length (decimal index) + doc_len < 2 ^ 64) }
    ensures growth { IfOk result (GrowsBy index doc_len) }
    ensures failed { IfErr result (λ fault. fault ≡ NumFault.Failed) }
{
    (Checked::new(2) + num_decimal_digits(index) + doc_len).get()
}
