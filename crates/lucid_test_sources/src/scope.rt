//! The calls with ample memory.
use crate::told::{first_false, must};
use crate::tree::tree_of;
use lucid_scope::{Binding, ScopeRefusal, Scoped, resolve, resolve_owned};
use std::alloc::Global;
use std::test::Fail;

// What is not so of a tree that is the name `y` at byte 3, which is the one input.
fn first_wrong(scoped: &Scoped) -> Option<usize> {
    let is_y = match scoped.inputs() {
        [only] => only.bytes() == b"y".as_slice(),
        _ => false,
    };
    first_false(&[
        scoped.tree().at == 3,
        is_y,
        scoped.binding(3) == Some(Binding::Input { stream: 0 }),
        scoped.binding(0).is_none(),
    ])
}

fn wrong_name(alloc: Global) -> Result<Option<usize>, Fail> {
    let tree = tree_of(alloc, b"   y")?;
    match resolve_owned(alloc, tree) {
        Ok(scoped) => Ok(first_wrong(&scoped)),
        Err(_) => Ok(Some(4)),
    }
}

fn refused_call(alloc: Global) -> Result<Option<ScopeRefusal>, Fail> {
    let called = tree_of(alloc, b"f(y)")?;
    Ok(resolve(alloc, &called).err())
}

// A free name is an input, and no function.
#[test]
fn free_names(rt: HostRuntime) -> Result<(), Fail> {
    let wrong = wrong_name(rt.alloc())?;
    let refused = refused_call(rt.alloc())?;
    let is_so = wrong.is_none() && matches!(refused, Some(ScopeRefusal::NoFunction { at: 0 }));
    must(is_so, "free names")
}
