//! Tags: contexts as small values, each with a space; and keys of datons.
//!
//! A context is the list of the frames in which an equation is evaluated. Each context is stored once, as a frame over another
//! context, and a tag names it by a number. So tags are compared in place of contexts, and no context is ever copied.
#![tactic(auto)]

ghost use Rattle.std.specs.Prelude.{◌≡◌, ◌<◌, ◌≤◌, ◌*◌, ◌+◌, ◌^◌, ◌↔◌, ◌∷◌, [], length, IsNone, IfSome, IfOk, OnOk, OnErr};

use crate::rows::{Row, RowFrame, Table};
pub use hashing::KeyHasher;
use std::alloc::{AllocError, Global};
use std::marker::Model;

mod hashing;
pub mod laws;
mod rows;

// How many values the low half of a space has.
const HALF: u64 = 1 << 32;

/// A context, by its number in the `Tags` that gave the tag, and a space.
///
/// The space stands in two halves, so that a tag has 12 bytes and no padding, and a key 24: a store has a key for each value. The number
/// comes last, so that a tag is copied by the pieces it is written in: the two halves together, and the number.
#[derive(Clone, Copy, PartialEq, Eq, Hash, Debug)]
pub struct Tag {
    space_high: u32,
    space_low: u32,
    number: u32,
    ghost in_range: { space_high < 2 ^ 31 },
    ghost low_in_range: { space_low < 2 ^ 32 },
}

/// The key of a daton: a name in a context, at a space and a time.
#[derive(Clone, Copy, PartialEq, Eq, Hash, Debug)]
pub struct Key {
    /// The number of the name.
    pub name: u32,
    /// The context and the space.
    pub tag: Tag,
    /// The time.
    pub time: u64,
}

/// The innermost frame of a context.
#[derive(Clone, Copy, PartialEq, Eq, Hash, Debug)]
pub enum Frame {
    /// A call at a place of the program, from the caller's context. The caller has space 0.
    Call { place: u32, caller: Tag },
    /// A block whose current values are those at this time.
    Frozen { time: u64 },
}

impl Tag {
    ghost use Rattle.lucid_tags.specs.Known.{number_of, space_of};

    // A context at space 0.
    fn of_context(number: u32) -> Tag
        ensures context { number_of result ≡ number }
        ensures space { space_of result ≡ 0 }
    {
        Tag {
            number,
            space_high: 0,
            space_low: 0,
        }
    }

    // Another context at the same space.
    fn with_number(self, number: u32) -> Tag
        ensures context { number_of result ≡ number }
        ensures space { space_of result ≡ space_of self }
    {
        Tag {
            number,
            space_high: self.space_high,
            space_low: self.space_low,
        }
    }

    /// The number of the context: its place in the order in which contexts became known, from 0 for the empty one. The number of a
    /// known tag is below the number of known contexts.
    pub fn number(self) -> u32
        ensures { result ≡ number_of self }
    {
        self.number
    }

    /// The space.
    pub fn space(self) -> u64
        ensures space { result ≡ space_of self }
        ensures in_range { result < 2 ^ 63 }
    {
        u64::from(self.space_high) * HALF + u64::from(self.space_low)
    }

    /// The same context at another space.
    pub fn at_space(self, space: u64) -> Tag
        requires { space < 2 ^ 63 }
        ensures context { number_of result ≡ number_of self }
        ensures space { space_of result ≡ space }
    {
        Tag {
            number: self.number,
            space_high: (space / HALF) as u32,
            space_low: (space % HALF) as u32,
        }
    }
}

/// The contexts that are known, and a tag for each of them at each space.
pub struct Tags {
    table: Table,
}

// Not derived: a derived one is proved again wherever one is dropped.
impl Drop for Tags {
    fn drop(self) {
        let Tags { table } = self;
    }
}

impl Model for Tags {
    ghost use Rattle.std.specs.Prelude.{List};
    ghost use Rattle.lucid_tags.specs.Contexts.{Context};
    ghost use Rattle.lucid_tags.specs.ContextCode.{known_code};

    ghost Value = { List Context };

    ghost coded = { known_code };

    ghost use Rattle.lucid_tags.specs.Rows.{contexts, AreRows};

    ghost view = { λ t. contexts t.table.rows.keys };

    ghost invariant = { λ t. AreRows t.table.rows.keys t.table.depths.items };
}

impl Tags {
    ghost use Rattle.lucid_tags.specs.Contexts.{root, call_frame, frozen_frame, frames, cut};
    ghost use Rattle.lucid_tags.specs.Rows.{with_frame, CallerBelow};
    ghost use Rattle.lucid_tags.specs.Known.{root_tag, space_of, context_of, IsKnown, IsOneForOne, IsUnknown, KeepsKnown, AddsAtMost, IsInnermost, HasLowerCaller, number_of};

    /// Only the empty context is known. Nothing is allocated.
    pub fn make(alloc: Global) -> Tags
        ensures known { result ≡ root ∷ [] }
        ensures one_for_one { IsOneForOne result }
    {
        Tags {
            table: Table::make(alloc),
        }
    }

    /// The empty context at space 0.
    pub fn root(&self) -> Tag
        ensures tag { result ≡ root_tag }
        ensures known { IsKnown self.now result }
        ensures context { context_of self.now result ≡ root }
        ensures one_for_one { IsOneForOne self.now }
    {
        let _table = &self.table;
        Tag::of_context(0)
    }

    /// The known context of a number, at space 0.
    pub fn numbered(&self, number: u32) -> Tag
        requires { number < length self.now }
        ensures context { number_of result ≡ number }
        ensures space { space_of result ≡ 0 }
        ensures known { IsKnown self.now result }
        ensures one_for_one { IsOneForOne self.now }
    {
        let _table = &self.table;
        Tag::of_context(number)
    }

    // The context of the base with a frame added, at the base's space.
    fn enter(&mut self, base: Tag, frame: RowFrame) -> Result<Tag, AllocError>
        requires base { IsKnown self.old base }
        requires caller { CallerBelow (length self.old) frame }
        ensures known { IfOk result (λ tag. IsKnown self.new tag) }
        ensures context { IfOk result (λ tag. context_of self.new tag ≡ with_frame self.old frame (context_of self.old base)) }
        ensures space { IfOk result (λ tag. space_of tag ≡ space_of base) }
        ensures added { OnOk result (AddsAtMost self.old self.new (with_frame self.old frame (context_of self.old base))) }
        ensures unknown { OnErr result (IsUnknown self.old (with_frame self.old frame (context_of self.old base))) }
        ensures err { OnErr result (self.new ≡ self.old) }
        ensures keeps { KeepsKnown self.old self.new }
        ensures one_for_one { IsOneForOne self.new }
    {
        let row = Row {
            base: base.number,
            frame,
        };
        let number = self.table.intern(row)?;
        Ok(base.with_number(number))
    }

    /// The context of the base with the frame of a call added, at the base's space. The caller's space doesn't count.
    pub fn enter_call(&mut self, base: Tag, place: u32, caller: Tag) -> Result<Tag, AllocError>
        requires base { IsKnown self.old base }
        requires caller { IsKnown self.old caller }
        ensures known { IfOk result (λ tag. IsKnown self.new tag) }
        ensures context { IfOk result (λ tag. context_of self.new tag ≡ call_frame place (context_of self.old caller) (context_of self.old base)) }
        ensures space { IfOk result (λ tag. space_of tag ≡ space_of base) }

        // A context that is known already is never refused.
        ensures unknown { OnErr result (IsUnknown self.old (call_frame place (context_of self.old caller) (context_of self.old base))) }

        // No other context becomes known, and none at a refusal. Known tags keep what they stand for.
        ensures added { OnOk result (AddsAtMost self.old self.new (call_frame place (context_of self.old caller) (context_of self.old base))) }
        ensures err { OnErr result (self.new ≡ self.old) }
        ensures keeps { KeepsKnown self.old self.new }
        ensures one_for_one { IsOneForOne self.new }
    {
        let caller = caller.number;
        self.enter(base, RowFrame::Call { place, caller })
    }

    /// The context of the base with a frozen time added, at the base's space.
    pub fn enter_frozen(&mut self, base: Tag, time: u64) -> Result<Tag, AllocError>
        requires { IsKnown self.old base }
        ensures known { IfOk result (λ tag. IsKnown self.new tag) }
        ensures context { IfOk result (λ tag. context_of self.new tag ≡ frozen_frame time (context_of self.old base)) }
        ensures space { IfOk result (λ tag. space_of tag ≡ space_of base) }

        // A context that is known already is never refused.
        ensures unknown { OnErr result (IsUnknown self.old (frozen_frame time (context_of self.old base))) }

        // No other context becomes known, and none at a refusal. Known tags keep what they stand for.
        ensures added { OnOk result (AddsAtMost self.old self.new (frozen_frame time (context_of self.old base))) }
        ensures err { OnErr result (self.new ≡ self.old) }
        ensures keeps { KeepsKnown self.old self.new }
        ensures one_for_one { IsOneForOne self.new }
    {
        self.enter(base, RowFrame::Frozen { time })
    }

    /// The context of the outermost `level` frames, at the same space.
    pub fn cut(&self, tag: Tag, level: u32) -> Tag
        requires known { IsKnown self.now tag }
        requires level { level ≤ frames (context_of self.now tag) }
        ensures known { IsKnown self.now result }
        ensures context { cut level (context_of self.now tag) ≡ Some (context_of self.now result) }
        ensures space { space_of result ≡ space_of tag }

        // A context further out became known earlier.
        ensures no_higher { number_of result ≤ number_of tag }
        ensures lower { level < frames (context_of self.now tag) → number_of result < number_of tag }
        ensures one_for_one { IsOneForOne self.now }
    {
        tag.with_number(self.table.cut_to(tag.number, level))
    }

    /// The number of frames.
    pub fn level(&self, tag: Tag) -> u64
        requires { IsKnown self.now tag }
        ensures level { result ≡ frames (context_of self.now tag) }
        ensures in_range { result < 2 ^ 32 }
        ensures one_for_one { IsOneForOne self.now }
    {
        u64::from(self.table.depth_of(tag.number).level)
    }

    /// The innermost frame, or `None` where the context is empty.
    pub fn frame(&self, tag: Tag) -> Option<Frame>
        requires { IsKnown self.now tag }
        ensures empty { IsNone result ↔ (context_of self.now tag ≡ root) }
        ensures innermost { IfSome result (λ frame. IsInnermost self.now frame (context_of self.now tag)) }

        // The caller's context became known earlier.
        ensures lower { IfSome result (λ frame. HasLowerCaller (number_of tag) frame) }
        ensures one_for_one { IsOneForOne self.now }
    {
        let table = &self.table;
        if tag.number == 0 {
            return None;
        }
        Some(match table.row_of(tag.number).frame {
            RowFrame::Call { place, caller } => Frame::Call {
                place,
                caller: Tag::of_context(caller),
            },
            RowFrame::Frozen { time } => Frame::Frozen { time },
        })
    }

    /// The number of known contexts, the empty one included.
    pub fn count(&self) -> u64
        ensures count { result ≡ length self.now }
        ensures one_for_one { IsOneForOne self.now }
    {
        self.table.len() as u64 + 1
    }

    /// Forgets all contexts but the empty one. The memory is kept.
    pub fn reset(&mut self)
        ensures known { self.new ≡ root ∷ [] }
        ensures one_for_one { IsOneForOne self.new }
    {
        if self.table.len() > 0 {
            self.table.clear();
        }
    }
}
