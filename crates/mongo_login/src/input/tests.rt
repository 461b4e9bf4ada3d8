use super::read_input;
use mongo_bson::Bytes;
use mongo_wire::MemoryLink;
use std::alloc::{AllocError, Global};
use std::test::Fail;

// So many bytes, numbered from 0 to 250 again and again, so that no piece of a power of two has the bytes of another.
fn numbered(alloc: Global, count: usize) -> Result<Vec<u8>, AllocError> {
    let mut bytes = Vec::new(alloc);
    for place in 0..count {
        bytes.push((place % 251) as u8)?;
    }
    Ok(bytes)
}

#[test]
fn an_input_of_many_pieces_is_read_whole(rt: HostRuntime) -> Result<(), Fail> {
    let input = numbered(rt.alloc(), 10_000)?;
    let given = Bytes::from_slice(rt.alloc(), input.as_slice())?;
    let mut link = MemoryLink::new(rt.alloc(), given);
    let Ok(held) = read_input(rt.alloc(), &mut link) else {
        return Err(Fail::from("the input"));
    };
    assert!(rt; held.as_slice() == input.as_slice());
    assert!(rt; link.left().is_empty());
    Ok(())
}
