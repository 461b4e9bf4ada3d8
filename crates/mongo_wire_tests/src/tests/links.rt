use super::{EMPTY_MESSAGE, Told, empty_message, failing_link, given, giving, read_end, written};
use bitflags::Flags;
use mongo_wire::{MemoryLink, Message, Sink, Source};
use std::alloc::Global;
use std::test::Fail;

#[test]
fn empty_message_is_26_bytes(rt: HostRuntime) -> Result<(), Fail> {
    let alloc = rt.alloc();
    let seen = written(alloc, empty_message(alloc), None, 7, &EMPTY_MESSAGE)?;
    assert!(rt; seen == (Told::Done, true, 7));
    Ok(())
}

// Whether the message has the empty body and nothing else, its sequences aside, and no request id.
fn is_plain(message: &Message) -> bool {
    message.document_payload.as_bytes() == [5, 0, 0, 0, 0].as_slice()
        && message.response_to == 0
        && message.flags.bits() == 0
        && message.checksum.is_none()
        && message.request_id.is_none()
}

// Whether the message has no sequence, or just `documents` of one document.
fn has_sequences(message: &Message, count: usize) -> bool {
    match message.document_sequences.as_slice() {
        [] => count == 0,
        [sequence] => {
            count == 1
                && sequence.identifier.as_str() == "documents"
                && sequence.documents.len() == 1
        }
        _ => false,
    }
}

// Whether the source gives such a message.
fn gives_plain(alloc: Global, source: &mut MemoryLink, sequences: usize) -> Result<bool, Fail> {
    let message = given(Message::read_from(alloc, source, None))?;
    Ok(is_plain(&message) && has_sequences(&message, sequences))
}

// Whether a link of these bytes gives such a message, and how much is left.
pub(crate) fn plain_read(
    alloc: Global,
    bytes: &[u8],
    sequences: usize,
) -> Result<(bool, usize), Fail> {
    let mut link = giving(alloc, bytes)?;
    let is_plain = gives_plain(alloc, &mut link, sequences)?;
    Ok((is_plain, link.left().len()))
}

#[test]
fn empty_message_is_read_back(rt: HostRuntime) -> Result<(), Fail> {
    assert!(rt; plain_read(rt.alloc(), &EMPTY_MESSAGE, 0)? == (true, 0));
    Ok(())
}

// What is seen of a read of the empty message that fails at just this call: how it ends, the count of faults, and how much
// is left.
fn read_failing(alloc: Global, call: usize) -> Result<(Told, u64, usize), Fail> {
    let mut link = failing_link(alloc, &EMPTY_MESSAGE, call, 1)?;
    let told = read_end(alloc, &mut link);
    Ok((told, link.read_faults(), link.left().len()))
}

#[test]
fn a_read_that_fails_at_any_call_is_told(rt: HostRuntime) -> Result<(), Fail> {
    for call in 0..27 {
        let wanted = if call < 26 {
            (Told::ReadFault, 1, 26 - call)
        } else {
            (Told::Done, 0, 0)
        };
        assert_eq!(rt; read_failing(rt.alloc(), call)?, wanted);
    }
    Ok(())
}

// How many bytes are left of a link, and how many were written to it.
fn sizes(link: &MemoryLink) -> (usize, usize) {
    (link.left().len(), link.written().len())
}

// The same once two bytes were read and one was written, once the link was rewound, and once it was cleared.
fn rewound_and_cleared(link: &mut MemoryLink) -> [(usize, usize); 3] {
    let _read = link.read(&mut [0; 2]);
    let _wrote = link.write(&[4]);
    let used = sizes(link);
    link.rewind();
    let rewound = sizes(link);
    link.clear_written();
    [used, rewound, sizes(link)]
}

#[test]
fn a_link_is_rewound_and_cleared(rt: HostRuntime) -> Result<(), Fail> {
    let mut link = giving(rt.alloc(), &[1, 2, 3])?;
    assert!(rt; rewound_and_cleared(&mut link) == [(1, 1), (3, 1), (3, 0)]);
    Ok(())
}
