ghost use Rattle.std.specs.Prelude.{◌≡◌, ◌+◌, ◌-◌, ◌^◌, ◌≤◌, ◌↔◌, min, length, IsTrue, IfSome, IfNone, IfOk, IfErr};
ghost use Rattle.std.specs.List.{AllByRecursion};
ghost use Rattle.mongo_bson.specs.Framed.{maximum_length};
ghost use Rattle.mongo_wire.specs.Frame.{IsSection};
ghost use Rattle.mongo_wire.specs.Header.{maximum_of};
ghost use Rattle.mongo_wire.specs.Message.{Fits, ArgumentRow, frame_length, sections_of, checksum_bytes};
ghost use Rattle.mongo_wire.specs.Measure.{IsWithoutZero, HasIdentifier, HasCountedSize, HoldsDocuments, sequences_bytes};

use crate::message::DEFAULT_MAX_MESSAGE_SIZE_BYTES;
use crate::{ArgumentFault, DocumentSequence, Header, Message};

// How many bytes the flags take.
pub(crate) const FLAGS_LENGTH: usize = 4;

// Where a frame's flags end and its sections begin.
pub(crate) const FLAGS_END: usize = Header::LENGTH + FLAGS_LENGTH;

// How many bytes a section's kind takes.
pub(crate) const KIND_LENGTH: usize = 1;

// How many bytes a checksum takes.
pub(crate) const CHECKSUM_LENGTH: usize = 4;

// The length of the message's frame, where it can be written within the maximum.
//
// Refusals, in this order: `IdentifierHasZero`, `SequenceTooLong`, `MaximumNegative`, `TooLong`.
pub(crate) fn measured(message: &Message, maximum: Option<i32>) -> Result<u32, ArgumentFault>
    ensures fits { IfOk result (λ _. Fits (maximum_of maximum) message.now) }
    ensures counted { IfOk result (λ length. length ≡ frame_length message.now) }
    ensures short { IfOk result (λ length. length ≤ maximum_length) }
    ensures sections { IfOk result (λ _. AllByRecursion IsSection (sections_of message.now)) }
    ensures refused { IfErr result (λ fault. ArgumentRow fault (maximum_of maximum) message.now) }
{
    let sequences = message.document_sequences.as_slice();
    if !are_named(sequences) {
        return Err(ArgumentFault::IdentifierHasZero);
    }
    let Some(size) = sequences_size(sequences) else {
        return Err(ArgumentFault::SequenceTooLong);
    };
    let maximum = maximum.unwrap_or(DEFAULT_MAX_MESSAGE_SIZE_BYTES);
    if maximum < 0 {
        return Err(ArgumentFault::MaximumNegative);
    }
    let body = message.document_payload.as_bytes().len();
    let length = whole_length(body, size, message.checksum);
    if length > maximum as u64 {
        return Err(ArgumentFault::TooLong);
    }
    Ok(length as u32)
}

// The length of a frame whose body and sequences are this long, or 2^64 - 1 where it is longer.
fn whole_length(body: usize, sequences: u64, checksum: Option<u32>) -> u64
    requires { body ≤ maximum_length }
    ensures { result ≡ min (21 + body + sequences + length (checksum_bytes checksum)) (2 ^ 64 - 1) }
{
    let with_body = FLAGS_END + KIND_LENGTH + body;
    let rest = match checksum {
        Some(_) => with_body + CHECKSUM_LENGTH,
        None => with_body,
    };
    sequences.saturating_add(rest as u64)
}

// Whether no identifier holds a zero byte.
pub(crate) fn are_named(sequences: &[DocumentSequence]) -> bool
    ensures without_zero { IsTrue result ↔ AllByRecursion IsWithoutZero sequences.now }
    ensures named { IsTrue result → AllByRecursion HasIdentifier sequences.now }
{
    'naming: for sequence in sequences {
        if !is_named(sequence) {
            return false;
        }
    }
    true
}

// Whether the identifier holds no zero byte.
fn is_named(sequence: &DocumentSequence) -> bool
    ensures without_zero { IsTrue result ↔ IsWithoutZero sequence.now }
    ensures named { IsTrue result → HasIdentifier sequence.now }
{
    let identifier = sequence.identifier.as_str();
    !identifier.as_bytes().contains(&0)
}

// How many bytes the sections of the sequences take, or 2^64 - 1 where it is more. None where a sequence's size is none
// that an int32 counts.
fn sequences_size(sequences: &[DocumentSequence]) -> Option<u64>
    ensures size { IfSome result (λ size. size ≡ min (length (sequences_bytes sequences.now)) (2 ^ 64 - 1)) }
    ensures counted { IfSome result (λ _. AllByRecursion HasCountedSize sequences.now) }
    ensures documents { IfSome result (λ _. AllByRecursion HoldsDocuments sequences.now) }
    ensures none { IfNone result (¬ AllByRecursion HasCountedSize sequences.now) }
{
    let mut size: u64 = 0;
    'summing: for sequence in sequences {
        let Some(own) = sequence.size() else {
            return None;
        };
        size = size.saturating_add((KIND_LENGTH + own as usize) as u64);
    }
    Some(size)
}
