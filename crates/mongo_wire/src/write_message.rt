ghost use Rattle.std.specs.Prelude.{◌≡◌, ◌+◌, ◌^◌, ◌<◌, ◌≤◌, [], ◌∷◌, ◌++◌, bit_and, length, FitsSigned, IfSome, IfErr, OnOk};
ghost use Rattle.std.specs.Int.{w32};
ghost use Rattle.std.specs.Io.KnownBytes.{Appends};
ghost use Rattle.std.specs.List.{AllByRecursion};
ghost use Rattle.mongo_bson.specs.Framed.{maximum_length};
ghost use Rattle.mongo_wire.specs.Outside.{WritesOn, WriteStops};
ghost use Rattle.mongo_wire.specs.Frame.{sequence_bytes, int32, uint32, message_code, known_flags};
ghost use Rattle.mongo_wire.specs.Message.{frame_length, before_checksum, checksum_bytes};
ghost use Rattle.mongo_wire.specs.Measure.{HasCountedSize, documents_bytes, sequence_section, sequences_bytes};

use crate::header::numbers_bytes;
use crate::sections::{BODY_KIND, SEQUENCE_KIND};
use crate::writing::{write_out, write_pieces};
use crate::{DocumentSequence, Error, Message, MessageFlags, OpCode, Sink};
use mongo_bson::RawDocumentBuf;

// Writes a message's frame as far as its checksum, which isn't written, where its sequences are counted: its header, its
// flags with the first section's kind, its body and its sequences, each as it lies.
//
// `WriteFault` where the sink failed, `OutOfMemory` where it wanted memory; a front of these bytes is written then.
pub(crate) fn write_before_checksum<K: Sink>(
    sink: &mut K,
    message: &Message,
    request_id: i32,
    length: u32,
) -> Result<(), Error>
    requires counted { length ≡ frame_length message.now }
    requires short { length ≤ maximum_length }
    requires sizes { AllByRecursion HasCountedSize message.now.document_sequences }
    ensures written { OnOk result (Appends (K.state sink.old).written (K.state sink.new).written (before_checksum request_id message.now)) }
    ensures writes { OnOk result ((K.state sink.new).write_faults ≡ (K.state sink.old).write_faults) }
    ensures refused { IfErr result (λ e. WriteStops e.kind (K.state sink.old) (K.state sink.new) (before_checksum request_id message.now)) }
    ensures numbers { FitsSigned w32 message.now.response_to }
    ensures on { WritesOn (K.state sink.old) (K.state sink.new) }
{
    let header = message_header(length, request_id, message.response_to);
    let start = section_start(message.flags);
    write_pieces(sink, &header, &start, message.document_payload.as_bytes())?;
    write_sequences(sink, message.document_sequences.as_slice())
}

// The header of an OP_MSG of this length.
pub(crate) fn message_header(length: u32, request_id: i32, response_to: i32) -> [u8; 16]
    requires { length ≤ maximum_length }
    ensures { result ≡ uint32 length ++ (int32 request_id ++ (int32 response_to ++ uint32 message_code)) }
{
    numbers_bytes(
        length as i32,
        request_id,
        response_to,
        OpCode::Message.number(),
    )
}

// The flags and the kind byte of the section that holds the body.
fn section_start(flags: MessageFlags) -> [u8; 5]
    ensures { result ≡ uint32 (bit_and flags.0 known_flags) ++ (0 ∷ []) }
{
    let [f0, f1, f2, f3] = flags.word().to_le_bytes();
    [f0, f1, f2, f3, BODY_KIND]
}

// Writes the sections of the sequences, one after another.
fn write_sequences<K: Sink>(sink: &mut K, sequences: &[DocumentSequence]) -> Result<(), Error>
    requires { AllByRecursion HasCountedSize sequences.now }
    ensures written { OnOk result (Appends (K.state sink.old).written (K.state sink.new).written (sequences_bytes sequences.now)) }
    ensures writes { OnOk result ((K.state sink.new).write_faults ≡ (K.state sink.old).write_faults) }
    ensures refused { IfErr result (λ e. WriteStops e.kind (K.state sink.old) (K.state sink.new) (sequences_bytes sequences.now)) }
    ensures on { WritesOn (K.state sink.old) (K.state sink.new) }
{
    'sending: for sequence in sequences {
        write_sequence(sink, sequence)?;
    }
    Ok(())
}

// Writes the section of a sequence: its kind and size, its identifier and a zero, its documents.
fn write_sequence<K: Sink>(sink: &mut K, sequence: &DocumentSequence) -> Result<(), Error>
    requires { HasCountedSize sequence.now }
    ensures written { OnOk result (Appends (K.state sink.old).written (K.state sink.new).written (sequence_section sequence.now)) }
    ensures writes { OnOk result ((K.state sink.new).write_faults ≡ (K.state sink.old).write_faults) }
    ensures refused { IfErr result (λ e. WriteStops e.kind (K.state sink.old) (K.state sink.new) (sequence_section sequence.now)) }
    ensures on { WritesOn (K.state sink.old) (K.state sink.new) }
{
    let start = sequence_start(sequence);
    write_pieces(sink, &start, sequence.identifier.as_bytes(), &[0])?;
    write_documents(sink, sequence.documents.as_slice())
}

// The kind byte of a sequence's section, and its size.
fn sequence_start(sequence: &DocumentSequence) -> [u8; 5]
    requires { HasCountedSize sequence.now }
    ensures { result ≡ 1 ∷ uint32 (4 + length (sequence_bytes sequence.now)) }
{
    match sequence.size() {
        Some(size) => {
            let [s0, s1, s2, s3] = size.to_le_bytes();
            [SEQUENCE_KIND, s0, s1, s2, s3]
        }
        None => unreachable!(),
    }
}

// Writes the documents, one after another.
fn write_documents<K: Sink>(sink: &mut K, documents: &[RawDocumentBuf]) -> Result<(), Error>
    ensures written { OnOk result (Appends (K.state sink.old).written (K.state sink.new).written (documents_bytes documents.now)) }
    ensures writes { OnOk result ((K.state sink.new).write_faults ≡ (K.state sink.old).write_faults) }
    ensures refused { IfErr result (λ e. WriteStops e.kind (K.state sink.old) (K.state sink.new) (documents_bytes documents.now)) }
    ensures on { WritesOn (K.state sink.old) (K.state sink.new) }
{
    'sending: for document in documents {
        write_out(sink, document.as_bytes())?;
    }
    Ok(())
}

// Writes the checksum, where there is one.
pub(crate) fn write_checksum<K: Sink>(sink: &mut K, checksum: Option<u32>) -> Result<(), Error>
    ensures written { OnOk result (Appends (K.state sink.old).written (K.state sink.new).written (checksum_bytes checksum)) }
    ensures writes { OnOk result ((K.state sink.new).write_faults ≡ (K.state sink.old).write_faults) }
    ensures refused { IfErr result (λ e. WriteStops e.kind (K.state sink.old) (K.state sink.new) (checksum_bytes checksum)) }
    ensures fits { IfSome checksum (λ sum. sum < 2 ^ 32) }
    ensures on { WritesOn (K.state sink.old) (K.state sink.new) }
{
    match checksum {
        Some(sum) => write_out(sink, &sum.to_le_bytes()),
        None => Ok(()),
    }
}
