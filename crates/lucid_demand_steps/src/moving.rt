//! What only moves the point is gone through before a row is made.
ghost use Rattle.std.specs.Prelude.{◌≡◌, ◌⊎◌, ◌<◌, ◌^◌, List, suc, option_map, IfSome, IfOk, OnOk, OnErr};
ghost use Rattle.lucid_tree.specs.Members.{In};
ghost use Rattle.lucid_tags.specs.Contexts.{Context};
ghost use Rattle.lucid_tags.specs.Known.{IsKnown, IsOneForOne, KeepsKnown};
ghost use Rattle.lucid_equations.specs.Programs.{table_of};
ghost use Rattle.lucid_demand_steps.specs.Tasks.{plain_task};
ghost use Rattle.lucid_demand_steps.specs.Parts as parts;
ghost use Rattle.lucid_demand_steps.specs.Aims.{EntersUnknown};

use lucid_equations::{Node, Program};
use lucid_tags::Tags;
use lucid_tasks::Task;
use lucid_tree::LAST;
use std::alloc::AllocError;

// The task of a part, at another time.
#[inline(always)]
fn at_time(task: Task, part: u32, time: u64) -> Task
    ensures { result ≡ record task { node = part; time = time } }
{
    Task {
        node: part,
        time,
        ..task
    }
}

// The task of a part, at a time and a space.
#[inline(always)]
pub(crate) fn at_point(task: Task, part: u32, time: u64, space: u64) -> Task
    requires { space < 2 ^ 63 }
    ensures task { (known : List Context) → plain_task known result ≡ record (plain_task known task) { node = part; time = time; space = space } }
    ensures known { (known : List Context) → IsKnown known task.tag → IsKnown known result.tag }
{
    Task {
        node: part,
        tag: task.tag.at_space(space),
        time,
        ..task
    }
}

// A task after its node, where that only moves the point: one part at one point, in one context.
#[inline(always)]
fn moved(program: &Program, tags: &mut Tags, task: Task) -> Result<Option<Task>, AllocError>
    requires task { parts.IsTask (table_of program.now) (plain_task tags.old task) }
    requires known { IsKnown tags.old task.tag }
    ensures moved { IfOk result (λ next. option_map (plain_task tags.new) next ≡ parts.moved (table_of program.now) (plain_task tags.old task)) }
    ensures next_known { IfOk result (λ next. IfSome next (λ y. IsKnown tags.new y.tag)) }
    ensures entered { (c : Context) → In c tags.new → In c tags.old ⊎ In c (parts.passed_contexts (table_of program.now) 1 (plain_task tags.old task)) }
    ensures unknown { OnErr result (EntersUnknown tags.old (parts.passed_contexts (table_of program.now) 1 (plain_task tags.old task))) }
    ensures keeps { KeepsKnown tags.old tags.new }
    ensures one_for_one { IsOneForOne tags.old → IsOneForOne tags.new }
{
    let space = task.tag.space();
    let time = task.time;
    Ok(match program.node(task.node) {
        Node::First { of } => Some(at_time(task, of, 0)),
        Node::Next { of } if time < LAST => Some(at_time(task, of, time + 1)),
        Node::Fby { left, .. } if time == 0 => Some(at_time(task, left, 0)),
        Node::Fby { right, .. } => Some(at_time(task, right, time - 1)),
        Node::Initial { of } => Some(at_point(task, of, time, 0)),
        Node::Succ { of } if space < LAST => Some(at_point(task, of, time, space + 1)),
        Node::Sby { left, .. } if space == 0 => Some(at_point(task, left, time, 0)),
        Node::Sby { right, .. } => Some(at_point(task, right, time, space - 1)),
        Node::Freeze { subject } => Some(Task {
            node: subject,
            tag: tags.enter_frozen(task.tag, time)?,
            ..task
        }),
        _ => None,
    })
}

/// The task after everything that only moves the point. Each move leads to a lower node, so it ends. It is refused for want of memory alone.
#[inline(always)]
pub fn moved_on(program: &Program, tags: &mut Tags, task: Task) -> Result<Task, AllocError>
    requires task { parts.IsTask (table_of program.now) (plain_task tags.old task) }
    requires known { IsKnown tags.old task.tag }
    ensures passed { IfOk result (λ y. plain_task tags.new y ≡ parts.passed (table_of program.now) (plain_task tags.old task)) }
    ensures passed_known { IfOk result (λ y. IsKnown tags.new y.tag) }

    // No context becomes known but those of the frozen times on the way. It is refused only where one of them isn't known.
    ensures entered { (c : Context) → In c tags.new → In c tags.old ⊎ In c (parts.passed_contexts (table_of program.now) (suc task.node) (plain_task tags.old task)) }
    ensures unknown { OnErr result (EntersUnknown tags.old (parts.passed_contexts (table_of program.now) (suc task.node) (plain_task tags.old task))) }
    ensures keeps { KeepsKnown tags.old tags.new }
    ensures one_for_one { IsOneForOne tags.old → IsOneForOne tags.new }
{
    let mut task = task;
    while let Some(next) = moved(program, tags, task)? {
        task = next;
    }
    Ok(task)
}
