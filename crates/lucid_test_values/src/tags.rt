ghost use Rattle.std.specs.Prelude.{IfOk};
ghost use Rattle.lucid_tags.specs.Known.{IsKnown};

use crate::told::{first_false, none_wrong};
use indexmap::IndexMap;
use lucid_tags::*;
use std::alloc::{AllocError, Global};
use std::test::Fail;

const MANY: u64 = 1_000_000;

// A name in a context, at a space and a time.
#[derive(Clone, Copy, PartialEq, Eq, Hash)]
struct Key {
    name: u32,
    tag: Tag,
    time: u64,
}

fn one_tag(tags: &mut Tags) -> Result<[bool; 3], AllocError> {
    let root = tags.root();
    let call = tags.enter_call(root, 3, root)?;
    let again = tags.enter_call(root, 3, root)?;
    let frozen = tags.enter_frozen(root, 5)?;
    Ok([
        again == call,
        frozen != call,
        tags.frame(frozen) == Some(Frame::Frozen { time: 5 }),
    ])
}

fn frames(tags: &mut Tags) -> Result<[bool; 7], AllocError> {
    let root = tags.root();
    let outer = tags.enter_frozen(root, 7)?;
    let caller = tags.enter_frozen(outer, 8)?;
    let inner = tags.enter_call(outer.at_space(4), 3, caller.at_space(9))?;
    let level = tags.level(inner);
    let cut = if level == 2 {
        tags.cut(inner, 1)
    } else {
        inner
    };
    Ok([
        inner.space() == 4,
        level == 2,
        tags.frame(inner) == Some(Frame::Call { place: 3, caller }),
        cut == outer.at_space(4),
        tags.cut(inner, 0) == root.at_space(4),
        tags.frame(root).is_none(),
        tags.count() == 4,
    ])
}

// The same, and that nothing is known but the root once all is reset.
fn frames_and_a_reset(tags: &mut Tags) -> Result<[bool; 2], AllocError> {
    let facts = frames(tags)?;
    let root = tags.root();
    tags.reset();
    Ok([
        first_false(&facts).is_none(),
        (tags.count(), tags.root()) == (1, root),
    ])
}

fn numbers(tags: &mut Tags) -> Result<[bool; 5], AllocError> {
    let root = tags.root();
    let outer = tags.enter_frozen(root, 7)?;
    let inner = tags.enter_call(root, 3, outer)?;
    Ok([
        root.number() == 0,
        outer.number() == 1,
        inner.at_space(4).number() == 2,
        tags.count() > 2 && tags.numbered(2) == inner,
        tags.cut(inner, 0).number() == 0,
    ])
}

fn key_at(tag: Tag) -> Key {
    Key {
        name: 1,
        tag,
        time: 6,
    }
}

// The value of the context frozen at 5, where that of each context is its key's.
fn value_at(tags: &mut Tags, values: &mut IndexMap<Key, u64>) -> Result<Option<u64>, AllocError> {
    let root = tags.root();
    let tag = tags.enter_frozen(root, 5)?;
    for (tag, value) in [(root, 0), (tag, 1), (tag.at_space(1), 2)] {
        values.insert(key_at(tag), value)?;
    }
    let key = key_at(tags.enter_frozen(root, 5)?);
    Ok(values.get(&key).copied())
}

fn value_of_a_key(alloc: Global) -> Result<Option<u64>, AllocError> {
    value_at(&mut Tags::make(alloc), &mut IndexMap::new(alloc))
}

fn wrong_tag(alloc: Global) -> Result<Option<usize>, AllocError> {
    Ok(first_false(&one_tag(&mut Tags::make(alloc))?))
}

fn wrong_frame(alloc: Global) -> Result<Option<usize>, AllocError> {
    Ok(first_false(&frames_and_a_reset(&mut Tags::make(alloc))?))
}

fn wrong_number(alloc: Global) -> Result<Option<usize>, AllocError> {
    Ok(first_false(&numbers(&mut Tags::make(alloc))?))
}

#[test]
fn contexts(rt: HostRuntime) -> Result<(), Fail> {
    let alloc = rt.alloc();
    let facts = [
        wrong_tag(alloc)?.is_none(),
        wrong_frame(alloc)?.is_none(),
        wrong_number(alloc)?.is_none(),
        value_of_a_key(alloc)? == Some(1),
    ];
    none_wrong(first_false(&facts), "contexts")
}

// Enters contexts one in another.
fn nest(tags: &mut Tags, many: u64) -> Result<Tag, AllocError>
    ensures { IfOk result (λ tag. IsKnown tags.new tag) }
{
    let mut tag = tags.root();
    for time in 0..many {
        tag = tags.enter_frozen(tag, time)?;
    }
    Ok(tag)
}

// Enters contexts side by side, and gives the last.
fn spread(tags: &mut Tags, many: u32) -> Result<Tag, AllocError> {
    let root = tags.root();
    let mut tag = root;
    for place in 0..many {
        tag = tags.enter_call(root, place, root)?;
    }
    Ok(tag)
}

fn nested_twice(tags: &mut Tags) -> Result<[bool; 4], AllocError> {
    let first = nest(tags, MANY)?;
    let tag = nest(tags, MANY)?;
    let level = tags.level(tag);
    let half = if level == MANY {
        tags.cut(tag, 500_000)
    } else {
        tag
    };
    Ok([
        tag == first,
        tags.count() == MANY + 1,
        level == MANY,
        tags.frame(half) == Some(Frame::Frozen { time: 499_999 }),
    ])
}

fn spread_twice(tags: &mut Tags) -> Result<[bool; 2], AllocError> {
    let first = spread(tags, 1_000_000)?;
    let again = spread(tags, 1_000_000)?;
    Ok([again == first, tags.count() == MANY + 1])
}

// What is wrong of a million contexts in one another, and side by side.
fn wrong_nested(alloc: Global) -> Result<Option<usize>, AllocError> {
    Ok(first_false(&nested_twice(&mut Tags::make(alloc))?))
}

fn wrong_spread(alloc: Global) -> Result<Option<usize>, AllocError> {
    Ok(first_false(&spread_twice(&mut Tags::make(alloc))?))
}

#[test]
fn a_million_contexts(rt: HostRuntime) -> Result<(), Fail> {
    none_wrong(wrong_nested(rt.alloc())?, "in one another")?;
    none_wrong(wrong_spread(rt.alloc())?, "side by side")
}
