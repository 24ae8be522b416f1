//! What a frozen time, a reference or a call goes on with.
ghost use Rattle.std.specs.Prelude.{◌≡◌, ◌<◌, ◌≤◌, Some, length, IfOk, OnOk, IfSome};
ghost use Rattle.lucid_tree.specs.Rows.{last};
ghost use Rattle.lucid_tags.specs.Contexts.{cut};
ghost use Rattle.lucid_tags.specs.Known.{IsOneForOne, KeepsKnown, context_of};
ghost use Rattle.lucid_equations.specs.NumberAims.{name_number_aim};
ghost use Rattle.lucid_equations.specs.Datons.{called_from};
ghost use Rattle.lucid_equations.specs.Programs.{table_of};
ghost use Rattle.lucid_equations.specs.Ranges.{EachBelow, NodeNames, sizes};
ghost use Rattle.lucid_equations.specs.Rows.{actual_at, parts};
ghost use Rattle.lucid_cert_rules.specs.Follows.{onward};
ghost use Rattle.lucid_cert_rules.specs.Checking.{IsOfContext, AreTimes, ArePlaces, IsWithin, PassesOn, going, row_onward};

use lucid_equations::{Entry, Node, Program};
use lucid_tags::{Frame, Tag, Tags};
use std::alloc::AllocError;

/// The node of a number in a context at a time.
#[derive(Clone, Copy)]
pub struct Position {
    pub node: u32,
    pub context: Tag,
    pub time: u64,
}

// The actual of a call place, if it has one of that index.
fn actual(program: &Program, place: u32, index: u32) -> Option<u32>
    ensures number { result ≡ actual_at (table_of program.now) place index }
    ensures within { IfSome result (λ node. node < length (table_of program.now).nodes) }
{
    if place < program.places() && index < program.actuals(place) {
        Some(program.actual(place, index))
    } else {
        None
    }
}

// In its own context, a plain name or a function goes on with its body there, a parameter with its actual in the caller's context, and a
// current name with its body in the context round its frame, at the time that the frame has frozen.
fn by_frame(program: &Program, tags: &Tags, name: u32, context: Tag, time: u64) -> Option<Position>
    requires name { name < length (table_of program.now).names }
    requires there { IsOfContext tags.now context }
    ensures at { going tags.now result ≡ onward (name_number_aim (table_of program.now) name (Some (context_of tags.now context)) time) }
    ensures there { IfSome result (λ p. IsOfContext tags.now p.context) }
    ensures within { AreTimes tags.now → time ≤ last → IfSome result (IsWithin (table_of program.now)) }
{
    match (program.entry(name), tags.frame(context)) {
        (Entry::Plain { body } | Entry::Called { body }, _) => Some(Position {
            node: body,
            context,
            time,
        }),
        (Entry::Parameter { index }, Some(Frame::Call { place, caller })) => {
            let node = actual(program, place, index)?;
            Some(Position {
                node,
                context: caller,
                time,
            })
        }
        (Entry::Current { body }, Some(Frame::Frozen { time })) => Some(Position {
            node: body,
            context: tags.cut(context, (tags.level(context) - 1) as u32),
            time,
        }),
        _ => None,
    }
}

// A reference, by its name and its level.
#[derive(Clone, Copy)]
struct Named {
    name: u32,
    level: u32,
}

// What the reference of a name goes on with: nothing where its context has too few frames, or a frame of another kind.
fn by_name(
    program: &Program,
    tags: &Tags,
    named: Named,
    context: Tag,
    time: u64,
) -> Option<Position>
    requires name { named.name < length (table_of program.now).names }
    requires there { IsOfContext tags.now context }
    ensures at { going tags.now result ≡ onward (name_number_aim (table_of program.now) named.name (cut named.level (context_of tags.now context)) time) }
    ensures there { IfSome result (λ p. IsOfContext tags.now p.context) }
    ensures within { AreTimes tags.now → time ≤ last → IfSome result (IsWithin (table_of program.now)) }
{
    if u64::from(named.level) > tags.level(context) {
        return None;
    }
    let outer = tags.cut(context, named.level);
    by_frame(program, tags, named.name, outer, time)
}

// A call, by its name, its place and its level.
#[derive(Clone, Copy)]
struct Called {
    name: u32,
    place: u32,
    level: u32,
}

// What a call goes on with.
fn by_call(
    program: &Program,
    tags: &mut Tags,
    call: Called,
    context: Tag,
    time: u64,
) -> Result<Option<Position>, AllocError>
    requires name { call.name < length (table_of program.now).names }
    requires there { IsOfContext tags.old context }
    ensures at { IfOk result (λ at. going tags.new at ≡ onward (name_number_aim (table_of program.now) call.name
        (called_from call.place (context_of tags.old context) (cut call.level (context_of tags.old context))) time)) }
    ensures there { IfOk result (λ at. IfSome at (λ p. IsOfContext tags.new p.context)) }
    ensures keeps { KeepsKnown tags.old tags.new }
    ensures once { IsOneForOne tags.old → IsOneForOne tags.new }
    ensures times { AreTimes tags.old → OnOk result (AreTimes tags.new) }
    ensures places { call.place < length (table_of program.now).places → ArePlaces (length (table_of program.now).places) tags.old
        → OnOk result (ArePlaces (length (table_of program.now).places) tags.new) }
    ensures within { AreTimes tags.old → time ≤ last → IfOk result (λ at. IfSome at (IsWithin (table_of program.now))) }
{
    if u64::from(call.level) > tags.level(context) {
        return Ok(None);
    }
    let base = tags.cut(context, call.level);
    let inner = tags.enter_call(base, call.place, context)?;
    Ok(by_frame(program, tags, call.name, inner, time))
}

/// What a node goes on with in a context at a time, if it is a frozen time, a reference or a call that leads somewhere.
pub fn onward(
    program: &Program,
    tags: &mut Tags,
    node: Node,
    context: Tag,
    time: u64,
) -> Result<Option<Position>, AllocError>
    requires in_range { NodeNames (sizes (table_of program.now)) node }
    requires there { IsOfContext tags.old context }
    requires passes { PassesOn node }
    ensures at { IfOk result (λ at. going tags.new at ≡ row_onward (table_of program.now) node (context_of tags.old context) time) }
    ensures there { IfOk result (λ at. IfSome at (λ p. IsOfContext tags.new p.context)) }
    ensures keeps { KeepsKnown tags.old tags.new }
    ensures once { IsOneForOne tags.old → IsOneForOne tags.new }
    ensures times { AreTimes tags.old → time ≤ last → OnOk result (AreTimes tags.new) }
    ensures places { ArePlaces (length (table_of program.now).places) tags.old → OnOk result (ArePlaces (length (table_of program.now).places) tags.new) }
    ensures within { AreTimes tags.old → time ≤ last → EachBelow (length (table_of program.now).nodes) (parts node) → IfOk result (λ at. IfSome at (IsWithin (table_of program.now))) }
{
    match node {
        Node::Freeze { subject } => {
            let inner = tags.enter_frozen(context, time)?;
            Ok(Some(Position {
                node: subject,
                context: inner,
                time,
            }))
        }
        Node::Refer { name, level } => {
            let named = Named { name, level };
            Ok(by_name(program, tags, named, context, time))
        }
        Node::Call { name, place, level } => {
            let call = Called { name, place, level };
            by_call(program, tags, call, context, time)
        }
        _ => unreachable!(),
    }
}
