// Refusals before the hello: nothing is written or read, and no id is drawn.
use super::frames::STANDALONE;
use super::{Made, PoolKind, Told, Who, link_of, made_in_memory, new_state};
use mongo_establish::{LoginState, MemoryLink};
use mongo_wire::{Sink, Source};
use std::alloc::Global;
use std::test::Fail;

// What is seen of an establishment: how it ends, the next id, and how many bytes are written and left.
type Seen = (Told, i32, usize, usize);

fn seen(made: Made, link: &MemoryLink, state: &LoginState) -> Seen {
    (
        made.told,
        state.ids.next(),
        link.written().len(),
        link.left().len(),
    )
}

fn seen_of_nameless(alloc: Global) -> Result<Seen, Fail> {
    let mut state = new_state(alloc);
    let mut link = link_of(alloc, &STANDALONE)?;
    let made = made_in_memory(
        alloc,
        Who::Nameless,
        PoolKind::Normal,
        &mut link,
        &mut state,
    )?;
    Ok(seen(made, &link, &state))
}

#[test]
fn a_user_without_a_name_is_refused(rt: HostRuntime) -> Result<(), Fail> {
    assert!(rt; seen_of_nameless(rt.alloc())? == (("NoUsername", 0, None), 0, 0, 86));
    Ok(())
}
