//! What a reference goes on with.
ghost use Rattle.std.specs.Prelude.{◌≡◌, ◌≢◌, ◌<◌, ◌≤◌, ◌⊎◌, ℕ, true, false, None, Some, length, IfSome, IfOk, OnOk, OnErr};
ghost use Rattle.lucid_tree.specs.Members.{In};
ghost use Rattle.lucid_tree.specs.Levels.{nowhere};
ghost use Rattle.lucid_tags.specs.Contexts.{Context, call_frame, frames, cut};
ghost use Rattle.lucid_tags.specs.Known.{IsKnown, IsOneForOne, KeepsKnown, context_of, space_of};
ghost use Rattle.lucid_equations.specs.Nodes.{refer};
ghost use Rattle.lucid_equations.specs.Datons as aims;
ghost use Rattle.lucid_equations.specs.Rows.{actual_at};
ghost use Rattle.lucid_equations.specs.Programs.{table_of, program_equations};
ghost use Rattle.lucid_demand_steps.specs.Tasks.{plain_task};
ghost use Rattle.lucid_demand_steps.specs.Aims.{plain_aim, IsAim, IsOfDaton, IsOfUnknown};

use lucid_equations::{Entry, Program};
use lucid_tags::{Frame, Tag, Tags};
use lucid_tasks::{Key, Task};
use std::alloc::AllocError;

/// A daton, by its key, and the node, the context and the time that it goes on with.
#[derive(Clone, Copy)]
pub struct Aim {
    /// The daton's key.
    pub key: Key,
    /// The node of the body.
    pub body: u32,
    /// The context and the space of the body.
    pub tag: Tag,
    /// The time of the body.
    pub time: u64,
}

impl Aim {
    /// The task of the body, with so many references to look through.
    #[inline(always)]
    pub fn task(&self, depth: u32) -> Task
        ensures { result ≡ record { node = self.now.body; tag = self.now.tag; time = self.now.time; depth = depth } }
    {
        Task {
            node: self.body,
            tag: self.tag,
            time: self.time,
            depth,
        }
    }
}

// In its own context, a plain name or a function goes on with its body there, a parameter with its actual in the caller's context, and a
// current name with its body in the context round its frame, at the time that the frame has frozen.
#[inline(always)]
fn by_frame(program: &Program, tags: &Tags, name: u32, tag: Tag, time: u64) -> Option<Aim>
    requires name { name < length (table_of program.now).names }
    requires known { IsKnown tags.now tag }
    ensures aim { plain_aim (table_of program.now) tags.now result ≡ aims.name_aim (program_equations program.now) name (Some (context_of tags.now tag)) time }
    ensures there { IfSome result (IsAim (table_of program.now) tags.now (space_of tag)) }
    ensures own { IfSome result (λ a. a.key.tag ≡ tag) }
{
    match program.entry(name) {
        Entry::Plain { body } | Entry::Called { body } => Some(Aim {
            key: Key { name, tag, time },
            body,
            tag,
            time,
        }),
        Entry::Parameter { index } => {
            let Some(Frame::Call { place, caller }) = tags.frame(tag) else {
                return None;
            };
            let body = actual(program, place, index)?;
            Some(Aim {
                key: Key { name, tag, time },
                body,
                tag: caller.at_space(tag.space()),
                time,
            })
        }
        Entry::Current { body } => {
            let Some(Frame::Frozen { time: frozen }) = tags.frame(tag) else {
                return None;
            };
            let outer = tags.cut(tag, (tags.level(tag) - 1) as u32);
            Some(Aim {
                key: Key { name, tag, time: 0 },
                body,
                tag: outer,
                time: frozen,
            })
        }
    }
}

// The actual of a call place, if it has one of that index.
#[inline(always)]
fn actual(program: &Program, place: u32, index: u32) -> Option<u32>
    ensures actual { result ≡ actual_at (table_of program.now) place index }
    ensures there { IfSome result (λ n. n < length (table_of program.now).nodes) }
{
    if place < program.places() && index < program.actuals(place) {
        Some(program.actual(place, index))
    } else {
        None
    }
}

// The context of the outermost frames, at the same space. Most names stand in the context in which they are looked for.
#[inline(always)]
fn outer(tags: &Tags, tag: Tag, level: u32) -> Tag
    requires known { IsKnown tags.now tag }
    requires level { level ≤ frames (context_of tags.now tag) }
    ensures known { IsKnown tags.now result }
    ensures context { cut level (context_of tags.now tag) ≡ Some (context_of tags.now result) }
    ensures space { space_of result ≡ space_of tag }
{
    if u64::from(level) == tags.level(tag) {
        tag
    } else {
        tags.cut(tag, level)
    }
}

/// A reference to a name.
#[derive(Clone, Copy)]
pub struct Named {
    /// The number of the name.
    pub name: u32,
    /// How many of the outermost frames the name's own context keeps.
    pub level: u32,
}

/// A call of a name.
#[derive(Clone, Copy)]
pub struct Called {
    /// The number of the name.
    pub name: u32,
    /// The number of the call's place.
    pub place: u32,
    /// How many of the outermost frames the name's own context keeps.
    pub level: u32,
}

/// What the reference of a name goes on with: nothing where its context has too few frames, or a frame of another kind.
#[inline(always)]
pub fn name_aim(program: &Program, tags: &Tags, named: Named, tag: Tag, time: u64) -> Option<Aim>
    requires name { named.name < length (table_of program.now).names }
    requires known { IsKnown tags.now tag }
    ensures aim { plain_aim (table_of program.now) tags.now result ≡ aims.reference_aim (program_equations program.now) (refer named.name named.level) (context_of tags.now tag) time }
    ensures there { IfSome result (IsAim (table_of program.now) tags.now (space_of tag)) }
{
    if u64::from(named.level) > tags.level(tag) {
        return None;
    }
    let kept = outer(tags, tag, named.level);
    by_frame(program, tags, named.name, kept, time)
}

// Whether a call of the name at the place leads somewhere, whoever calls it and when.
#[inline(always)]
fn leads(program: &Program, name: u32, place: u32) -> bool
    requires name { name < length (table_of program.now).names }
    ensures somewhere { result ≡ true → (caller base : Context) (time : ℕ)
        → aims.name_aim (program_equations program.now) name (Some (call_frame place caller base)) time ≢ nowhere }
    ensures nowhere { result ≡ false → (caller base : Context) (time : ℕ)
        → aims.name_aim (program_equations program.now) name (Some (call_frame place caller base)) time ≡ nowhere }
{
    match program.entry(name) {
        Entry::Plain { .. } | Entry::Called { .. } => true,
        Entry::Parameter { index } => actual(program, place, index).is_some(),
        Entry::Current { .. } => false,
    }
}

/// What a call goes on with: nothing where it leads nowhere. It is looked at before its context is entered, so that no context becomes known for
/// nothing. It is refused for want of memory alone.
pub fn call_aim(
    program: &Program,
    tags: &mut Tags,
    call: Called,
    tag: Tag,
    time: u64,
) -> Result<Option<Aim>, AllocError>
    requires name { call.name < length (table_of program.now).names }
    requires known { IsKnown tags.old tag }
    ensures aim { IfOk result (λ o. plain_aim (table_of program.now) tags.new o
        ≡ aims.call_aim (program_equations program.now) call.name call.place call.level (context_of tags.old tag) time) }
    ensures there { IfOk result (λ o. IfSome o (IsAim (table_of program.now) tags.new (space_of tag))) }
    // No context becomes known but that of its daton, and none where it leads nowhere.
    ensures entered { IfOk result (λ o. (c : Context) → In c tags.new → In c tags.old ⊎ IsOfDaton tags.new o c) }
    // It is refused only where that context isn't known, and then no context becomes known.
    ensures unknown { OnErr result (IsOfUnknown tags.old (aims.call_aim (program_equations program.now) call.name call.place call.level (context_of tags.old tag) time)) }
    ensures err { OnErr result (tags.new ≡ tags.old) }
    ensures keeps { KeepsKnown tags.old tags.new }
    ensures one_for_one { IsOneForOne tags.new }
{
    if u64::from(call.level) > tags.level(tag) || !leads(program, call.name, call.place) {
        return Ok(None);
    }
    let base = tags.cut(tag, call.level);
    let inner = tags.enter_call(base, call.place, tag)?;
    Ok(by_frame(program, tags, call.name, inner, time))
}
