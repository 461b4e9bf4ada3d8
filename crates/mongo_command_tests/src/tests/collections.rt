use super::notation::document;
use super::rows::{wants, wants_whole};
use super::{given, printed};
use mongo_bson::{Bytes, Documents, RawArrayBuf, RawDocumentBuf, Text};
use mongo_command::{Command, RawDocumentCollection};
use mongo_wire::{MemoryLink, Message, RequestIds};
use std::alloc::Global;
use std::test::Fail;

// Puts an empty document in, and gives what it was to add.
fn put<C: RawDocumentCollection>(
    collection: &mut C,
    index: usize,
    empty: RawDocumentBuf,
) -> Result<usize, Fail> {
    let added = given(C::bytes_added(index, &empty))?;
    given(collection.push(empty))?;
    Ok(added)
}

// Puts so many empty documents in, and gives the sum of what they were to add.
fn fill<C: RawDocumentCollection>(
    alloc: Global,
    collection: &mut C,
    count: usize,
) -> Result<usize, Fail> {
    let mut sum: usize = 0;
    for index in 0..count {
        sum = sum.saturating_add(put(collection, index, RawDocumentBuf::new(alloc)?)?);
    }
    Ok(sum)
}

// An insert that carries nothing yet.
fn insert(alloc: Global) -> Result<Command, Fail> {
    let body = document(alloc, "insert=text:c")?;
    given(Command::new_raw(alloc, "insert", "d", body))
}

// The frame of a message.
fn frame(alloc: Global, message: &Message) -> Result<Bytes, Fail> {
    let mut link = MemoryLink::new(alloc, Bytes::new(alloc));
    given(message.write_op_msg_to(alloc, &mut link, None, &mut RequestIds::new(0)))?;
    Ok(Bytes::from_slice(alloc, link.written())?)
}

// The frame of a command's message.
fn frame_of(alloc: Global, command: Command) -> Result<Bytes, Fail> {
    let message = given(command.into_message(alloc))?;
    frame(alloc, &message)
}

// What is done with an insert, in functions that are generic over it, so that no other proof holds a command.
trait Carries {
    fn add<C: RawDocumentCollection>(&mut self, alloc: Global, collection: C) -> Result<(), Fail>;

    fn add_one(&mut self, alloc: Global) -> Result<(), Fail>;

    fn add_under_zero(&mut self, alloc: Global, array: RawArrayBuf) -> Result<String, Fail>;

    fn into_frame(self, alloc: Global) -> Result<Bytes, Fail>;
}

impl Carries for Command {
    fn add<C: RawDocumentCollection>(&mut self, alloc: Global, collection: C) -> Result<(), Fail> {
        given(collection.add_to_command(alloc, "documents", self))
    }

    fn add_one(&mut self, alloc: Global) -> Result<(), Fail> {
        add_one(alloc, self)
    }

    fn add_under_zero(&mut self, alloc: Global, array: RawArrayBuf) -> Result<String, Fail> {
        printed(alloc, array.add_to_command(alloc, "a\0b", self))
    }

    fn into_frame(self, alloc: Global) -> Result<Bytes, Fail> {
        frame_of(alloc, self)
    }
}

// The frame of an insert that carries the collection.
fn frame_with<I: Carries + Drop, C: RawDocumentCollection + Drop>(
    alloc: Global,
    insert: Result<I, Fail>,
    collection: C,
) -> Result<Bytes, Fail> {
    let mut insert = insert?;
    insert.add(alloc, collection)?;
    insert.into_frame(alloc)
}

// The frame of an insert to which a sequence of one empty document was added by its name.
fn frame_with_one<I: Carries + Drop>(
    alloc: Global,
    insert: Result<I, Fail>,
) -> Result<Bytes, Fail> {
    let mut insert = insert?;
    insert.add_one(alloc)?;
    insert.into_frame(alloc)
}

// The frame of an insert that carries the collection, after so many empty documents were put in, and what they were to add.
fn carried<C: RawDocumentCollection + Drop>(
    alloc: Global,
    mut collection: C,
    count: usize,
) -> Result<(Bytes, usize), Fail> {
    let sum = fill(alloc, &mut collection, count)?;
    Ok((frame_with(alloc, insert(alloc), collection)?, sum))
}

// The same beside the document.
fn in_sequence(alloc: Global, count: usize) -> Result<(Bytes, usize), Fail> {
    carried(alloc, Documents::new(alloc), count)
}

// The same in the document.
fn in_array(alloc: Global, count: usize) -> Result<(Bytes, usize), Fail> {
    carried(alloc, RawArrayBuf::new(alloc)?, count)
}

// A frame is as long as this without a document: a header of 16 bytes, 5 of flags and the kind, a body of 30; beside it a
// section of 15 bytes, or in it an array of 16.
const SEQUENCE_FRAME: usize = 66;

const ARRAY_FRAME: usize = 67;

// How long the frame is that carries so many documents, and what they were to add: beside its document and in it.
fn sizes(alloc: Global, count: usize) -> Result<[usize; 4], Fail> {
    let [beside, added_beside] = size(in_sequence(alloc, count)?);
    let [inside, added_inside] = size(in_array(alloc, count)?);
    Ok([beside, added_beside, inside, added_inside])
}

fn size(carried: (Bytes, usize)) -> [usize; 2] {
    [carried.0.as_bytes().len(), carried.1]
}

// Fails where so many documents add something else than this, beside the document and in it.
fn add(alloc: Global, count: usize, beside: usize, inside: usize) -> Result<(), Fail> {
    let sizes = sizes(alloc, count)?;
    let wanted = [
        SEQUENCE_FRAME.saturating_add(beside),
        beside,
        ARRAY_FRAME.saturating_add(inside),
        inside,
    ];
    if sizes == wanted {
        Ok(())
    } else {
        Err(Fail::new(format_args!("{count}: {sizes:?}, not {wanted:?}")))
    }
}

#[test]
fn documents_add_what_they_were_to_add(rt: HostRuntime) -> Result<(), Fail> {
    // An element of an array has a kind byte, the digits of its number, a zero and the document.
    for (count, beside, inside) in [
        (0, 0, 0),
        (1, 5, 8),
        (10, 50, 80),
        (11, 55, 89),
        (100, 500, 890),
        (101, 505, 900),
    ] {
        add(rt.alloc(), count, beside, inside)?;
    }
    Ok(())
}

// Adds a sequence of one empty document to a command.
fn add_one(alloc: Global, command: &mut Command) -> Result<(), Fail> {
    let mut documents = Documents::new(alloc);
    documents.push(RawDocumentBuf::new(alloc)?)?;
    let name = Text::from_slice(alloc, "documents")?;
    given(command.add_document_sequence(name, documents))
}

// Both frames with one document, laid out by the OP_MSG specification and BSON 1.1.
const BESIDE: &[u8] =
    b"\x47\0\0\0\0\0\0\0\0\0\0\0\xdd\x07\0\0\0\0\0\0\0\x1e\0\0\0\x02insert\0\x02\0\0\0c\0\x02$db\0\x02\0\0\0d\0\0\x01\x13\0\0\0documents\0\x05\0\0\0\0";

const INSIDE: &[u8] =
    b"\x4b\0\0\0\0\0\0\0\0\0\0\0\xdd\x07\0\0\0\0\0\0\0\x36\0\0\0\x02insert\0\x02\0\0\0c\0\x04documents\0\x0d\0\0\0\x030\0\x05\0\0\0\0\0\x02$db\0\x02\0\0\0d\0\0";

// Fails where the frame that was made so has other bytes than these.
fn wants_frame(name: &str, frame: Result<Bytes, Fail>, wanted: &[u8]) -> Result<(), Fail> {
    let frame = frame?;
    wants(name, frame.as_bytes() == wanted, "another frame")
}

// The frame alone.
fn frame_in(carried: Result<(Bytes, usize), Fail>) -> Result<Bytes, Fail> {
    let (frame, _sum) = carried?;
    Ok(frame)
}

#[test]
fn a_sequence_stands_behind_the_document_and_an_array_in_it(rt: HostRuntime) -> Result<(), Fail> {
    let alloc = rt.alloc();
    wants_frame(
        "a collection beside",
        frame_in(in_sequence(alloc, 1)),
        BESIDE,
    )?;
    let named = frame_with_one(alloc, insert(alloc));
    wants_frame("a sequence by its name", named, BESIDE)?;
    wants_frame("a collection inside", frame_in(in_array(alloc, 1)), INSIDE)
}

// How an array is answered that is to stand under a name with a zero, and the frame of the insert then.
fn under_zero<I: Carries + Drop>(
    alloc: Global,
    insert: Result<I, Fail>,
) -> Result<(String, Bytes), Fail> {
    let mut insert = insert?;
    let told = insert.add_under_zero(alloc, RawArrayBuf::new(alloc)?)?;
    Ok((told, insert.into_frame(alloc)?))
}

// The frame of an insert that carries nothing: a header of 16 bytes, 5 of flags and the kind, and that body of 30.
const BARE: &[u8] =
    b"\x33\0\0\0\0\0\0\0\0\0\0\0\xdd\x07\0\0\0\0\0\0\0\x1e\0\0\0\x02insert\0\x02\0\0\0c\0\x02$db\0\x02\0\0\0d\0\0";

#[test]
fn an_array_under_a_name_with_a_zero_is_refused(rt: HostRuntime) -> Result<(), Fail> {
    let alloc = rt.alloc();
    let (told, frame) = under_zero(alloc, insert(alloc))?;
    let fault = "Err(Error { kind: InvalidArgument(Bson(KeyHasZero)) })";
    wants_whole("an array", fault, told)?;
    wants_frame("nothing", Ok(frame), BARE)
}
