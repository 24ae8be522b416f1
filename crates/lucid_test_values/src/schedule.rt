ghost use Rattle.std.specs.Prelude.{◌<◌, length};

use crate::told::{first_false, none_wrong};
use lucid_schedule::*;
use std::alloc::{AllocError, Global};
use std::test::Fail;

// One pick through the trait, as the engine makes it.
fn picked<P: Pick>(pick: &mut P, ready: &[usize]) -> usize
    requires { 0 < length ready.now }
{
    pick.pick(ready)
}

// One pick by a picker that is owned, and then let go of.
fn picked_once<P: Pick>(mut pick: P, ready: &[usize]) -> usize
    requires { 0 < length ready.now }
{
    pick.pick(ready)
}

// Numbers are used in order, and then place 0.
fn wrong_of_listed(alloc: Global) -> Result<Option<usize>, AllocError> {
    let mut listed = Listed::make(vec![in alloc; 1, 5, 2]?);
    let facts = [1, 2, 2, 0, 0].map(|want| picked(&mut listed, &[4, 9, 2]) == want);
    Ok(first_false(&facts))
}

// A run owns its picker.
fn picked_by_listed(alloc: Global) -> Result<usize, AllocError> {
    let listed = Listed::make(vec![in alloc; 4]?);
    Ok(picked_once(listed, &[4, 9, 2]))
}

// The newest and the oldest stand at the ends.
#[test]
fn picks(rt: HostRuntime) -> Result<(), Fail> {
    let facts = [
        picked(&mut Newest, &[7]) == 0,
        picked(&mut Newest, &[4, 9, 2]) == 2,
        picked(&mut Oldest, &[7]) == 0,
        picked(&mut Oldest, &[4, 9, 2]) == 0,
        picked_once(Newest, &[4, 9, 2]) == 2,
        picked_by_listed(rt.alloc())? == 1,
        wrong_of_listed(rt.alloc())?.is_none(),
    ];
    none_wrong(first_false(&facts), "picks")
}
