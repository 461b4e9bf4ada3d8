//! What a client wrote.
ghost use Rattle.std.specs.Prelude.{◌≡◌, ℕ, pos, ◌≤ℤ◌, List, ◌++◌, length, IfOk, OnOk, MatchResult};
ghost use Rattle.mongo_wire.specs.declared.fault.FrameFault.TheVariants.{OutOfMemory};
ghost use Rattle.mongo_wire.specs.Buffer.{HoldsFrame};
ghost use Rattle.mongo_wire.specs.Bytes.{first_maximum};
ghost use Rattle.mongo_wire.specs.Frame.{Frame, IsFrame};
ghost use Rattle.mongo_wire.specs.Memory.{bytes_left};
ghost use Rattle.mongo_command.specs.Exchange.{HoldsReply};
ghost use Rattle.mongo_generate.specs.Written.{IsBinaryOf, CarriesPayload, CarriesPayloadLast, CarriesAnyLast};

use mongo_bson::{Bytes, RawDocument, RawValue};
use mongo_command::held_reply;
use mongo_establish::want_of_memory;
use mongo_sasl::keys::PAYLOAD;
use mongo_wire::{FrameBuffer, FrameFault, MemoryLink};
use std::alloc::{AllocError, Global};

/// The client's last message: the payload of the command in the second frame.
pub fn client_final(alloc: Global, written: Bytes) -> Result<Bytes, AllocError>
    requires carried { CarriesAnyLast written }
    ensures found { (payload : List ℕ) → CarriesPayloadLast payload written → IfOk result (λ found. found ≡ payload) }
{
    let mut link = MemoryLink::new(alloc, written);
    let mut buffer = FrameBuffer::new(alloc);
    match take_second(&mut link, &mut buffer) {
        Ok(()) => copied_payload(alloc, held_reply(&buffer)),
        Err(fault) => match fault {
            FrameFault::OutOfMemory => Err(AllocError),
            // both frames are there
            _ => unreachable!(),
        },
    }
}

// Takes two frames, and holds the second.
fn take_second(link: &mut MemoryLink, buffer: &mut FrameBuffer) -> Result<(), FrameFault>
    ensures second { (payload : List ℕ) (carries : CarriesPayloadLast payload (bytes_left link.old)) →
        MatchResult result (λ _. HoldsFrame carries.second carries.second_parts buffer.new) (λ fault. fault ≡ OutOfMemory) }
    ensures holds { OnOk result (HoldsReply buffer.new) }
{
    match take_next(link, buffer) {
        Ok(()) => take_next(link, buffer),
        Err(fault) => Err(fault),
    }
}

// Takes the next frame, and holds it.
fn take_next(link: &mut MemoryLink, buffer: &mut FrameBuffer) -> Result<(), FrameFault>
    ensures next { (frame rest : List ℕ) (parts : Frame) → bytes_left link.old ≡ frame ++ rest → IsFrame frame parts → pos (length frame) ≤ℤ first_maximum →
        MatchResult result (λ _. HoldsFrame frame parts buffer.new × (bytes_left link.new ≡ rest)) (λ fault. fault ≡ OutOfMemory) }
    ensures holds { OnOk result (HoldsReply buffer.new) }
{
    match buffer.take_frame(link, None) {
        Ok(()) => Ok(()),
        Err(fault) => Err(fault),
    }
}

// The bytes of the binary value under `payload`.
fn copied_payload(alloc: Global, document: RawDocument<'_>) -> Result<Bytes, AllocError>
    requires carried { (payload : List ℕ) × CarriesPayload payload document.bytes.now }
    ensures found { (payload : List ℕ) → CarriesPayload payload document.entry.bytes.now → IfOk result (λ found. found ≡ payload) }
{
    match document.get(PAYLOAD) {
        Ok(Some(value)) => binary_content(alloc, value),
        // it carries one
        Ok(None) => unreachable!(),
        // it is a document
        Err(_) => unreachable!(),
    }
}

// The bytes of a binary value.
fn binary_content(alloc: Global, value: RawValue<'_>) -> Result<Bytes, AllocError>
    requires binary { (content : List ℕ) × IsBinaryOf content value }
    ensures found { (content : List ℕ) → IsBinaryOf content value.entry → IfOk result (λ found. found ≡ content) }
{
    let RawValue::Binary(_, content) = value else {
        unreachable!()
    };
    match Bytes::from_slice(alloc, content) {
        Ok(content) => Ok(content),
        Err(fault) => Err(want_of_memory(fault.into())),
    }
}
