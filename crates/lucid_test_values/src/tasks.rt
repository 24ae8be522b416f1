ghost use Rattle.std.specs.Prelude.{◌≡◌, ℕ, ◌<◌, IfSome, IsTrue, Some};
ghost use Rattle.lucid_tasks.specs.Rows.{row_at, state_of, is_ready, IsRow, HaveThree, Idle};

use crate::told::{first_false, none_wrong};
use lucid_tags::{Tag, Tags};
use lucid_tasks::*;
use lucid_value::Value;
use std::alloc::Global;
use std::test::Fail;

const MANY: u64 = 1_000_000;

fn task_at(tag: Tag, time: u64) -> Task {
    Task {
        node: 1,
        depth: 9,
        tag,
        time,
    }
}

// The slot of the newest ready row.
fn newest(tasks: &Tasks) -> Option<usize>
    ensures ready { IfSome result (λ slot. IsTrue (is_ready (row_at tasks.now slot))) }
    ensures row { IfSome result (λ slot. IsRow tasks.now slot) }
    ensures three { HaveThree tasks.now }
{
    tasks.ready().last().copied()
}

// The number of a value.
fn number(value: Option<&Value>) -> Option<i128> {
    match value {
        Some(Value::Int(n)) => Some(*n),
        _ => None,
    }
}

// The same, where a part of the row is idle.
fn newest_idle(tasks: &Tasks, index: u32) -> Option<usize>
    requires { index < 3 }
    ensures ready { IfSome result (λ slot. IsTrue (is_ready (row_at tasks.now slot))) }
    ensures row { IfSome result (λ slot. IsRow tasks.now slot) }
    ensures idle { IfSome result (λ slot. state_of tasks.now (record { slot = slot; index = index }) ≡ Some Idle) }
{
    let slot = newest(tasks)?;
    match tasks.got(slot, index) {
        Some(_) => None,
        None => Some(slot),
    }
}

// Whether a part of the newest ready row was idle and took the value.
fn given(tasks: &mut Tasks, index: u32, n: i128) -> bool
    requires { index < 3 }
{
    match newest_idle(tasks, index) {
        Some(slot) => tasks
            .give(Some(Part { slot, index }), Value::Int(n))
            .is_none(),
        None => false,
    }
}

// The value that a part of the newest ready row had until now, and whether it has none then.
fn took(tasks: &mut Tasks, index: u32) -> Option<i128>
    requires { index < 3 }
{
    let slot = newest(tasks)?;
    let taken = tasks.take(Part { slot, index });
    let slot = newest(tasks)?;
    match tasks.got(slot, index) {
        Some(_) => None,
        None => number(taken.as_ref()),
    }
}

// What is wrong of a part of a root that is asked for and settled, of its child and then of the root; nothing where a row isn't there.
fn wrong_of_settling(tasks: &mut Tasks, tag: Tag) -> Option<[Option<usize>; 2]> {
    let begun = tasks.ask(None, task_at(tag, 0), None).ok();
    let slot = newest_idle(tasks, 1)?;
    let part = Part { slot, index: 1 };
    let asked = tasks.ask(Some(part), task_at(tag, 1), None).ok();
    let child = newest(tasks)?;
    let of_child = [
        begun == Some(slot),
        asked == Some(child),
        tasks.parent(child) == Some(part),
        tasks.key(child).is_none(),
        tasks.settle(child, Value::Int(5)).is_none(),
    ];
    let again = newest(tasks)?;
    let of_root = [
        again == slot,
        tasks.parent(again).is_none(),
        number(tasks.got(again, 1)) == Some(5),
        number(tasks.got(again, 0)).is_none(),
    ];
    Some([first_false(&of_child), first_false(&of_root)])
}

// What is wrong of parts that are given without a row.
fn wrong_of_given(tasks: &mut Tasks, tag: Tag) -> Option<Option<usize>> {
    let asked = tasks.ask(None, task_at(tag, 0), None).is_ok();
    let first = given(tasks, 0, 7);
    let ready = tasks.ready().len() == 1;
    let third = given(tasks, 2, 8);
    let slot = newest(tasks)?;
    Some(first_false(&[
        asked,
        first,
        ready,
        third,
        newest_idle(tasks, 0).is_none(),
        number(tasks.got(slot, 0)) == Some(7),
        number(tasks.got(slot, 1)).is_none(),
        number(tasks.got(slot, 2)) == Some(8),
    ]))
}

// What is wrong of values that are moved out.
fn wrong_of_taken(tasks: &mut Tasks, tag: Tag) -> Option<usize> {
    first_false(&[
        tasks.ask(None, task_at(tag, 0), None).is_ok(),
        given(tasks, 0, 0),
        given(tasks, 1, 1),
        given(tasks, 2, 2),
        took(tasks, 1) == Some(1),
        took(tasks, 0) == Some(0),
        took(tasks, 2) == Some(2),
    ])
}

// What is wrong of a row with a key.
fn wrong_of_a_key(tasks: &mut Tasks, tag: Tag) -> Option<Option<usize>> {
    let key = Key {
        name: 4,
        tag,
        time: 6,
    };
    let asked = tasks.ask(None, task_at(tag, 6), Some(key)).is_ok();
    let slot = newest(tasks)?;
    Some(first_false(&[
        asked,
        tasks.task(slot) == task_at(tag, 6),
        tasks.cursor(slot) == Cursor { time: 0, count: 0 },
        tasks.key(slot) == Some(key),
        tasks.ready().len() == 1,
    ]))
}

// What is wrong of a cursor that is set, of a root that is settled, and of a forest that is cleared.
fn wrong_of_a_cursor(tasks: &mut Tasks, tag: Tag) -> Option<Option<usize>> {
    let asked = tasks.ask(None, task_at(tag, 0), None).is_ok();
    let root = newest(tasks)?;
    let cursor = Cursor { time: 3, count: 2 };
    tasks.set_cursor(root, cursor);
    let root = newest(tasks)?;
    let kept = tasks.cursor(root) == cursor;
    let value = tasks.settle(root, Value::Int(4));
    let settled = [
        asked,
        kept,
        number(value.as_ref()) == Some(4),
        newest(tasks).is_none(),
        tasks.ask(None, task_at(tag, 1), None).is_ok(),
    ];
    tasks.clear();
    Some(first_false(&[first_false(&settled).is_none(), tasks.ready().is_empty()]))
}

// Each is of tasks of its own, owned by a function of its own: all that are owned at once are dropped together, at a high price.
fn settles(alloc: Global, tag: Tag) -> bool {
    wrong_of_settling(&mut Tasks::make(alloc), tag) == Some([None, None])
}

fn gives(alloc: Global, tag: Tag) -> bool {
    wrong_of_given(&mut Tasks::make(alloc), tag) == Some(None)
}

fn takes(alloc: Global, tag: Tag) -> bool {
    wrong_of_taken(&mut Tasks::make(alloc), tag).is_none()
}

fn keeps_a_key(alloc: Global, tag: Tag) -> bool {
    wrong_of_a_key(&mut Tasks::make(alloc), tag) == Some(None)
}

fn keeps_a_cursor(alloc: Global, tag: Tag) -> bool {
    wrong_of_a_cursor(&mut Tasks::make(alloc), tag) == Some(None)
}

#[test]
fn rows_of_tasks(rt: HostRuntime) -> Result<(), Fail> {
    let alloc = rt.alloc();
    let tag = Tags::make(alloc).root();
    let facts = [
        settles(alloc, tag),
        gives(alloc, tag),
        takes(alloc, tag),
        keeps_a_key(alloc, tag),
        keeps_a_cursor(alloc, tag),
    ];
    none_wrong(first_false(&facts), "tasks")
}

// Asks for a task at each time from 1 on, each below the one before: the first time that is refused.
fn nested(tasks: &mut Tasks, tag: Tag) -> Option<u64> {
    for time in 1..MANY {
        let Some(slot) = newest_idle(tasks, 0) else {
            return Some(time);
        };
        let part = Part { slot, index: 0 };
        if tasks.ask(Some(part), task_at(tag, time), None).is_err() {
            return Some(time);
        }
    }
    None
}

// Settles these tasks, the newest first: the number of the first that is another one, or that leads nowhere.
fn settled(tasks: &mut Tasks) -> Option<u64> {
    for number in 1..MANY {
        let Some(slot) = newest(tasks) else {
            return Some(number);
        };
        let time = tasks.task(slot).time;
        if time != MANY - number || tasks.settle(slot, Value::Int(1)).is_some() {
            return Some(number);
        }
    }
    None
}

// Whether so many tasks are asked for and settled, and then the root, behind which there is none.
fn million(tasks: &mut Tasks, tag: Tag) -> Option<[bool; 5]> {
    let begun = tasks.ask(None, task_at(tag, 0), None).is_ok();
    let nested = nested(tasks, tag).is_none();
    let settled = settled(tasks).is_none();
    let root = newest(tasks)?;
    let value = tasks.settle(root, Value::Int(2));
    Some([
        begun,
        nested,
        settled,
        value.is_some(),
        newest(tasks).is_none(),
    ])
}

#[test]
fn a_million_tasks_one_below_the_other(rt: HostRuntime) {
    let tag = Tags::make(rt.alloc()).root();
    let facts = million(&mut Tasks::make(rt.alloc()), tag);
    assert_eq!(rt; facts, Some([true; 5]));
}
