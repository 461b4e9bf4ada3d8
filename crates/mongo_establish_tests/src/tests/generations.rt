use super::given;
use mongo_establish::{Generations, ObjectId, PoolGeneration};
use std::alloc::Global;
use std::test::Fail;

// Numbers of services, of which one is set twice.
fn numbered(alloc: Global) -> Result<Generations, Fail> {
    let mut generations = Generations::new(alloc);
    for (byte, number) in [(2, 7), (1, 5), (2, 8), (3, 0)] {
        given(generations.insert(ObjectId([byte; 12]), number))?;
    }
    Ok(generations)
}

fn number_of(generations: &Generations, byte: u8) -> Option<u32> {
    generations.get(ObjectId([byte; 12]))
}

fn has_numbers(generations: &Generations) -> bool {
    number_of(generations, 0) == None
        && number_of(generations, 1) == Some(5)
        && number_of(generations, 2) == Some(8)
        && number_of(generations, 3) == Some(0)
}

fn is_numbered(pool: &PoolGeneration) -> bool {
    match pool {
        PoolGeneration::LoadBalanced(generations) => has_numbers(generations),
        PoolGeneration::Normal(_) => false,
    }
}

fn copy_is_numbered(alloc: Global, pool: &PoolGeneration) -> Result<bool, Fail> {
    Ok(is_numbered(&given(pool.try_clone(alloc))?))
}

fn alone_is_numbered(alloc: Global, generations: &Generations) -> Result<bool, Fail> {
    Ok(has_numbers(&given(generations.try_clone(alloc))?))
}

#[test]
fn a_service_has_the_number_that_was_set_last(rt: HostRuntime) -> Result<(), Fail> {
    let generations = numbered(rt.alloc())?;
    assert!(rt; alone_is_numbered(rt.alloc(), &generations)?);
    let pool = PoolGeneration::LoadBalanced(generations);
    assert!(rt; is_numbered(&pool) && copy_is_numbered(rt.alloc(), &pool)?);
    Ok(())
}
