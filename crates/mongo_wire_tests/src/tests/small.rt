use super::{
    Told, end, failing_link, given, giving, message_over, message_with_sequence, one_sequence,
    or_told,
};
use mongo_bson::RawDocumentBuf;
use mongo_wire::{
    ArgumentFault, Header, MemoryLink, OpCode, RequestIds, ResponseFault, Sink, Source,
    SyncCountReader, SyncLittleEndianRead, read_document_bytes,
};
use std::alloc::Global;
use std::test::Fail;

// A header of 26 bytes, the id 5 and the answer to -2, by the OP_MSG specification.
const HEADER: [u8; 16] = [
    0x1a, 0, 0, 0, 5, 0, 0, 0, 0xfe, 0xff, 0xff, 0xff, 0xdd, 0x07, 0, 0,
];

const READ_HEADER: Header = Header {
    length: 26,
    request_id: 5,
    response_to: -2,
    op_code: OpCode::Message,
};

#[test]
fn a_header_is_16_bytes(rt: HostRuntime) {
    assert!(rt; READ_HEADER.encode() == HEADER);
    assert!(rt; Header::decode(&HEADER) == Ok(READ_HEADER));
}

// The next header of a source, or why none is read.
pub(crate) fn next_header<S: Source>(source: &mut S) -> Result<Header, Told> {
    or_told(Header::read_from(source))
}

// What is seen where the header is written to a link that gives its bytes, three a call, and is read from it: how the write
// ends, whether its bytes were written, what is read, and how much is left.
fn there_and_back(alloc: Global) -> Result<(Told, bool, Result<Header, Told>, usize), Fail> {
    let mut link = failing_link(alloc, &HEADER, 1000, 3)?;
    let told = end(READ_HEADER.write_to(&mut link));
    let is_written = link.written() == HEADER.as_slice();
    let read = next_header(&mut link);
    Ok((told, is_written, read, link.left().len()))
}

#[test]
fn a_header_is_written_and_read_back(rt: HostRuntime) -> Result<(), Fail> {
    let seen = there_and_back(rt.alloc())?;
    assert!(rt; seen == (Told::Done, true, Ok(READ_HEADER), 0));
    Ok(())
}

#[test]
fn an_unknown_op_code_is_told_after_16_bytes(rt: HostRuntime) -> Result<(), Fail> {
    let mut link = giving(rt.alloc(), &[1; 17])?;
    let unknown = Told::Response(ResponseFault::OpCode(0x0101_0101));
    assert!(rt; next_header(&mut link) == Err(unknown));
    assert!(rt; link.left().len() == 1);
    Ok(())
}

// The next three numbers, or why one isn't read.
fn numbers(reader: &mut SyncCountReader<MemoryLink>) -> Result<(i32, u32, u8), Told> {
    let signed = or_told(reader.read_i32_sync())?;
    let unsigned = or_told(reader.read_u32_sync())?;
    let byte = or_told(reader.read_u8_sync())?;
    Ok((signed, unsigned, byte))
}

// What is seen of ten bytes: three numbers and how many bytes they took, and how the read of a fourth ends, with the source's count
// of ends and the bytes that it took.
type Counted = (Result<(i32, u32, u8), Told>, u64, Told, u64, u64);

fn counted(alloc: Global) -> Result<Counted, Fail> {
    let bytes = [0xfe, 0xff, 0xff, 0xff, 1, 2, 3, 0x84, 7, 9];
    let mut reader = SyncCountReader::new(giving(alloc, &bytes)?);
    let read = numbers(&mut reader);
    let taken = reader.bytes_read();
    let fourth = end(reader.read_u32_sync());
    Ok((read, taken, fourth, reader.ends(), reader.bytes_read()))
}

#[test]
fn numbers_have_their_low_byte_first(rt: HostRuntime) -> Result<(), Fail> {
    let seen = counted(rt.alloc())?;
    assert!(rt; seen == (Ok((-2, 0x8403_0201, 7)), 9, Told::EndOfInput, 1, 10));
    Ok(())
}

// How the read of the next document ends.
pub(crate) fn document_end<S: Source>(alloc: Global, source: &mut S) -> Told {
    end(read_document_bytes(alloc, source))
}

// How the read of a document of this length ends, and how many of its six bytes are left.
fn document_seen(alloc: Global, length: u8) -> Result<(Told, usize), Fail> {
    let mut link = giving(alloc, &[length, 0, 0, 0, 0, 0xff])?;
    let told = document_end(alloc, &mut link);
    Ok((told, link.left().len()))
}

#[test]
fn a_document_is_read_by_its_length(rt: HostRuntime) -> Result<(), Fail> {
    let refused = Told::Argument(ArgumentFault::CheckedFailure);
    assert!(rt; document_seen(rt.alloc(), 5)? == (Told::Done, 1));
    assert!(rt; document_seen(rt.alloc(), 3)? == (refused, 2));
    Ok(())
}

// `{documents: [{}]}`, by BSON 1.1.
const COMMAND_DOCUMENT: [u8; 29] = [
    0x1d, 0, 0, 0, 4, 0x64, 0x6f, 0x63, 0x75, 0x6d, 0x65, 0x6e, 0x74, 0x73, 0, 0x0d, 0, 0, 0, 3,
    0x30, 0, 5, 0, 0, 0, 0, 0, 0,
];

fn joined_document(alloc: Global) -> Result<RawDocumentBuf, Fail> {
    let message = message_with_sequence(alloc)?;
    given(message.get_raw_command_document(alloc))
}

#[test]
fn a_sequence_is_an_array_of_the_command_document(rt: HostRuntime) -> Result<(), Fail> {
    let document = joined_document(rt.alloc())?;
    assert!(rt; document.as_bytes() == COMMAND_DOCUMENT.as_slice());
    Ok(())
}

// How the command document is made whose sequence has this identifier.
fn joined_end(alloc: Global, identifier: &str) -> Result<Told, Fail> {
    let message = message_over(alloc, one_sequence(alloc, identifier)?)?;
    Ok(end(message.get_raw_command_document(alloc)))
}

#[test]
fn an_identifier_with_a_zero_is_no_key_of_the_command_document(
    rt: HostRuntime,
) -> Result<(), Fail> {
    let refused = Told::Argument(ArgumentFault::IdentifierHasZero);
    assert!(rt; joined_end(rt.alloc(), "a\0b")? == refused);
    Ok(())
}

#[test]
fn request_ids_go_round(rt: HostRuntime) {
    let mut ids = RequestIds::new(2_147_483_647);
    let drawn = [ids.draw(), ids.draw(), ids.next()];
    assert_eq!(rt; drawn, [2_147_483_647, -2_147_483_648, -2_147_483_647]);
}
