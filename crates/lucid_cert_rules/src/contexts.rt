//! The contexts of a certificate, as tags.
ghost use Rattle.std.specs.Prelude.{◌≡◌, ℕ, ◌∷◌, [], Some, None, IfOk, IfSome, length, map, option_map, get_or};
ghost use Rattle.std.specs.List.{AllByRecursion};
ghost use Rattle.lucid_tags.specs.Contexts.{root};
ghost use Rattle.lucid_tags.specs.Known.{HasLowerCaller, IsInnermost, IsKnown, IsOneForOne, KeepsKnown, context_of, number_of};
ghost use Rattle.lucid_equations.specs.Programs.{table_of};
ghost use Rattle.lucid_cert_rules.specs.WhyText.{context_row};
ghost use Rattle.lucid_cert_rules.specs.WhyTexts.{MayShow};
ghost use Rattle.lucid_cert_rules.specs.Follows.{row_context, contexts_behind};
ghost use Rattle.lucid_cert_rules.specs.Checking.{IsOfContext, AreOfContexts, AreTimes, ArePlaces, contexts_of, known_before};

use crate::ContextRow;
use lucid_equations::Program;
use lucid_tags::{Frame, Tag, Tags};
use lucid_tree::LAST;
use std::alloc::{AllocError, Global};

/// The context of a number, where it is there and good.
pub fn context_at(contexts: &[Option<Tag>], number: u32) -> Option<Tag>
    ensures { result ≡ get_or contexts.now number None }
{
    match contexts.get(number as usize) {
        Some(context) => *context,
        None => None,
    }
}

// The context of a row, by those of lower numbers, where there are so many call places.
fn enter(
    tags: &mut Tags,
    contexts: &[Option<Tag>],
    places: u32,
    row: ContextRow,
) -> Result<Option<Tag>, AllocError>
    requires { AreOfContexts tags.old contexts.now }
    ensures context { IfOk result (λ made. option_map (context_of tags.new) made ≡ row_context places (contexts_of tags.old contexts.now) row) }
    ensures there { IfOk result (λ made. IfSome made (IsOfContext tags.new)) }
    ensures keeps { KeepsKnown tags.old tags.new }
    ensures once { IsOneForOne tags.old → IsOneForOne tags.new }
{
    match row {
        ContextRow::Call {
            base,
            place,
            caller,
        } => match (context_at(contexts, base), context_at(contexts, caller)) {
            (Some(base), Some(caller)) if place < places => {
                Ok(Some(tags.enter_call(base, place, caller)?))
            }
            _ => Ok(None),
        },
        ContextRow::Frozen { base, time } => match context_at(contexts, base) {
            Some(base) if time <= LAST => Ok(Some(tags.enter_frozen(base, time)?)),
            _ => Ok(None),
        },
    }
}

/// The contexts of the rows, behind the empty one. A call's is one only at a call place of the program.
pub fn enter_all(
    alloc: Global,
    program: &Program,
    tags: &mut Tags,
    rows: &[ContextRow],
) -> Result<Vec<Option<Tag>>, AllocError>
    requires { IsOneForOne tags.old }
    ensures contexts { IfOk result (λ made. contexts_of tags.new made.items ≡ contexts_behind (length (table_of program.now).places) (Some root ∷ []) rows.now) }
    ensures there { IfOk result (λ made. AreOfContexts tags.new made.items) }
    ensures once { IsOneForOne tags.new }
{
    let places = program.places();
    let mut contexts = Vec::new(alloc);
    contexts.push(Some(tags.root()))?;
    for row in rows {
        let context = enter(tags, contexts.as_slice(), places, *row)?;
        contexts.push(context)?;
    }
    Ok(contexts)
}

// The row of a context that has a frame, by those that became known before it.
fn row_of(tags: &Tags, tag: Tag, frame: Frame) -> ContextRow
    requires known { IsKnown tags.now tag }
    requires innermost { IsInnermost tags.now frame (context_of tags.now tag) }
    requires lower { HasLowerCaller (number_of tag) frame }
    requires times { AreTimes tags.now }
    ensures context { (places : ℕ) → ArePlaces places tags.now → row_context places (known_before tags.now (number_of tag)) result ≡ Some (context_of tags.now tag) }
    ensures shown { MayShow (context_row result) }
{
    let base = tags.cut(tag, (tags.level(tag) - 1) as u32).number();
    match frame {
        Frame::Call { place, caller } => ContextRow::Call {
            base,
            place,
            caller: caller.number(),
        },
        Frame::Frozen { time } => ContextRow::Frozen { base, time },
    }
}

/// The rows of the known contexts but the empty one, in the order in which they became known. More than have numbers are want of memory.
pub fn rows_of(alloc: Global, tags: &Tags) -> Result<Vec<ContextRow>, AllocError>
    requires { AreTimes tags.now }
    ensures contexts { IfOk result (λ rows. (places : ℕ) → ArePlaces places tags.now → contexts_behind places (Some root ∷ []) rows.items ≡ map Some tags.now) }
    ensures shown { IfOk result (λ rows. AllByRecursion (λ r. MayShow (context_row r)) rows.items) }
{
    // The first known context is the empty one.
    let _ = tags.root();
    let mut rows = Vec::new(alloc);
    let count = tags.count();
    for number in 1..count {
        let Ok(at) = u32::try_from(number) else {
            return Err(AllocError);
        };
        let tag = tags.numbered(at);
        let Some(frame) = tags.frame(tag) else {
            unreachable!()
        };
        rows.push(row_of(tags, tag, frame))?;
    }
    Ok(rows)
}
