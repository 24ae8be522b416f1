//! What is said of a value that is too deep.
ghost use Rattle.std.specs.Prelude.{◌≡◌, ◌≢◌, ◌+◌, ◌*◌, ◌≤◌, ◌++◌, length, codes, decimal, IfOk, OnOk};
ghost use Rattle.std.specs.Option.{SomeIff};
ghost use Rattle.lucid_scope.specs.Scoped.{scoped_tree, scoped_binding};
ghost use Rattle.lucid_cycles.specs.Judgments.{IsJudgment, IsJudgeRefusal};
ghost use Rattle.lucid_cycles.specs.Laws.{IsDefinedAsJudged};
ghost use Rattle.lucid_explain_source.specs.Accepted.{IsProgram};
ghost use Rattle.lucid_explain_run.specs.Depths.{enough_text, cycle_advice, is_search, is_call, place_advice, unjudged_advice, greater_advice, meaning_text, judged_text, refusal_text, unjudged_text, TellsDepth};

use lucid_cycles::{JudgeRefusal, Judgment, judge};
use lucid_explain_places::put_number;
use lucid_explain_source::{begins, name_front, scoped_of};
use lucid_scope::Scoped;
use lucid_value::is_reserved;
use std::alloc::{AllocError, Global};

const MOST_DEPTH: u64 = 1_000_000;

// The depth at a time, where it may be given.
fn depth_at(factor: u64, time: u64, add: u64) -> Option<u64>
    ensures { SomeIff result (factor * time + add ≤ 1000000) (factor * time + add) }
{
    let depth = factor.checked_mul(time)?.checked_add(add)?;
    if depth <= MOST_DEPTH {
        Some(depth)
    } else {
        None
    }
}

// Appends that the depth is enough for the time.
fn put_given(text: &mut Vec<u8>, depth: u64, time: u64) -> Result<(), AllocError>
    ensures { OnOk result (text.new.items ≡ text.old.items ++ (codes "So --depth " ++ (decimal depth ++ (codes " is enough for time " ++ (decimal time ++ codes ".\n"))))) }
{
    put_number(text, b"So --depth ", depth)?;
    put_number(text, b" is enough for time ", time)?;
    text.extend_from_slice(b".\n")
}

// Appends that no depth that is enough for the time may be given.
fn put_greater(text: &mut Vec<u8>, time: u64) -> Result<(), AllocError>
    ensures { OnOk result (text.new.items ≡ text.old.items ++ (codes "For time " ++ (decimal time ++ codes " that is more than the greatest --depth, 1000000.\n"))) }
{
    put_number(text, b"For time ", time)?;
    text.extend_from_slice(b" that is more than the greatest --depth, 1000000.\n")
}

// Appends what a depth of `factor * t + add` means for the time.
fn put_enough(text: &mut Vec<u8>, factor: u64, add: u64, time: u64) -> Result<(), AllocError>
    ensures { OnOk result (text.new.items ≡ text.old.items ++ enough_text (factor * time + add) time) }
{
    match depth_at(factor, time, add) {
        Some(depth) => put_given(text, depth, time),
        None => put_greater(text, time),
    }
}

// What is said of a cycle without delay.
fn cycle_advice() -> &'static [u8]
    ensures { result.now ≡ cycle_advice }
{
    b"A value of these names needs one of them at the same time or at a later one: so there may be no depth that is enough. `X fby Y` is X at time 0, and then Y of one time before; `next X` is X of one time later. So `x = 0 fby x + 1` begins with 0 and goes on, and `x = 0 fby 1 fby x + next x` begins with two values. In `x = 1 fby x * next n` each x has the n of its own time.\n"
}

// Whether the word is a search.
fn is_search(word: &[u8]) -> bool
    ensures { result ≡ is_search word.now }
{
    word == b"whenever".as_slice()
        || word == b"wvr".as_slice()
        || word == b"asa".as_slice()
        || word == b"upon".as_slice()
}

// Whether the rest of a source begins with a name, which is the word, and directly behind it a parenthesis.
fn is_call(word: &[u8], rest: &[u8]) -> bool
    requires { length word.now ≤ length rest.now }
    ensures { result ≡ is_call word.now rest.now }
{
    !word.is_empty() && !is_reserved(word) && begins(&rest[word.len()..], b"(")
}

// What is said of a depth by the word with which the rest of a source begins where it isn't judged.
fn place_advice(word: &[u8], rest: &[u8]) -> &'static [u8]
    requires { length word.now ≤ length rest.now }
    ensures { result.now ≡ place_advice word.now rest.now }
{
    if is_search(word) {
        b"\nHere is a search: it looks at times below the depth limit alone. If its test is never true again, no depth is enough: --count asks for the lines that there are. If it is true later:\n"
    } else if is_call(word, rest) {
        b"\nHere is a function: one that calls itself without an end has no value at any depth. An `if` that doesn't call it gives an end, once its test is true: for an x below 0 that counts down, `x eq 0` never is, and `x <= 0` is.\n"
    } else {
        b"\nSo no depth is told for this program.\n"
    }
}

// What is said of a depth by why a program isn't judged.
fn unjudged_advice(source: &[u8], refusal: &JudgeRefusal) -> &'static [u8]
    ensures { result.now ≡ unjudged_advice source.now refusal.now }
{
    match refusal {
        JudgeRefusal::Outside { at } => {
            let rest = &source[source.len().min(*at as usize)..];
            place_advice(name_front(rest), rest)
        }
        JudgeRefusal::TooMany => b"\nSo no depth is told for this program.\n",
        JudgeRefusal::NoMemory => b"",
    }
}

// Appends what a judgment means for the value at the time.
fn put_meaning(text: &mut Vec<u8>, judgment: &Judgment, time: u64) -> Result<(), AllocError>
    ensures { OnOk result (text.new.items ≡ text.old.items ++ meaning_text time judgment.now) }
{
    match judgment {
        Judgment::Enough { factor, add, .. } => put_enough(text, *factor, *add, time),
        Judgment::Cycle { .. } => text.extend_from_slice(cycle_advice()),
    }
}

// Appends a judgment, and what it means for the value at the time.
fn put_judged(
    alloc: Global,
    text: &mut Vec<u8>,
    scoped: &Scoped,
    judgment: &Judgment,
    time: u64,
) -> Result<(), AllocError>
    ensures { OnOk result (text.new.items ≡ text.old.items ++ judged_text (scoped_tree scoped.now) time judgment.now) }
{
    text.extend_from_slice(b"`--cycles` says: ")?;
    judgment.show(alloc, scoped, text)?;
    put_meaning(text, judgment, time)
}

// Appends why a program isn't judged.
fn put_refusal(text: &mut Vec<u8>, refusal: &JudgeRefusal) -> Result<(), AllocError>
    ensures { OnOk result (text.new.items ≡ text.old.items ++ refusal_text refusal.now) }
{
    match refusal {
        JudgeRefusal::Outside { at } => put_number(text, b"not judged at ", u64::from(*at)),
        JudgeRefusal::TooMany => text.extend_from_slice(b"too many names"),
        JudgeRefusal::NoMemory => text.extend_from_slice(b"no memory"),
    }
}

/// A value that is too deep at a depth limit, and its time.
#[derive(Clone, Copy, Debug, PartialEq, Eq)]
pub struct TooDeep {
    pub limit: u32,
    pub time: u64,
}

// That a depth may be given which is greater, or that the limit is the greatest.
fn greater_advice(limit: u32) -> &'static [u8]
    ensures { result.now ≡ greater_advice limit }
{
    if u64::from(limit) < MOST_DEPTH {
        b"A greater --depth may be enough, up to 1000000.\n"
    } else {
        b"The limit is the greatest --depth already, 1000000.\n"
    }
}

// Appends what it means for a depth that a program isn't judged.
fn put_advice(
    text: &mut Vec<u8>,
    source: &[u8],
    limit: u32,
    refusal: &JudgeRefusal,
) -> Result<(), AllocError>
    ensures { OnOk result (text.new.items ≡ text.old.items ++ (unjudged_advice source.now refusal.now ++ greater_advice limit)) }
{
    text.extend_from_slice(unjudged_advice(source, refusal))?;
    text.extend_from_slice(greater_advice(limit))
}

// Appends why a program isn't judged, and what that means.
fn put_unjudged(
    text: &mut Vec<u8>,
    source: &[u8],
    limit: u32,
    refusal: &JudgeRefusal,
) -> Result<(), AllocError>
    ensures { OnOk result (text.new.items ≡ text.old.items ++ unjudged_text source.now limit refusal.now) }
{
    text.extend_from_slice(b"`--cycles` says: ")?;
    put_refusal(text, refusal)?;
    put_advice(text, source, limit, refusal)
}

// What is said of a source by its judgment.
fn text_of_judgment(
    alloc: Global,
    source: &[u8],
    scoped: &Scoped,
    judgment: &Judgment,
    deep: TooDeep,
) -> Result<Vec<u8>, AllocError>
    requires program { IsProgram source.now (scoped_tree scoped.now) }
    requires judged { IsJudgment (scoped_tree scoped.now) (scoped_binding scoped.now) judgment.now }
    requires enough { IsDefinedAsJudged (scoped_tree scoped.now) judgment.now }
    ensures { IfOk result (λ text. TellsDepth source.now deep.limit deep.time text.items) }
{
    let mut text = Vec::new(alloc);
    put_judged(alloc, &mut text, scoped, judgment, deep.time)?;
    Ok(text)
}

// What is said of a source that isn't judged.
fn text_of_refusal(
    alloc: Global,
    source: &[u8],
    scoped: &Scoped,
    refusal: &JudgeRefusal,
    deep: TooDeep,
) -> Result<Vec<u8>, AllocError>
    requires program { IsProgram source.now (scoped_tree scoped.now) }
    requires known { refusal.now ≢ JudgeRefusal.NoMemory }
    requires refused { IsJudgeRefusal (scoped_tree scoped.now) refusal.now }
    ensures { IfOk result (λ text. TellsDepth source.now deep.limit deep.time text.items) }
{
    let mut text = Vec::new(alloc);
    put_unjudged(&mut text, source, deep.limit, refusal)?;
    Ok(text)
}

// What is said of a source by what its names belong to.
fn text_of_scoped(
    alloc: Global,
    source: &[u8],
    scoped: &Scoped,
    deep: TooDeep,
) -> Result<Vec<u8>, AllocError>
    requires { IsProgram source.now (scoped_tree scoped.now) }
    ensures { IfOk result (λ text. TellsDepth source.now deep.limit deep.time text.items) }
{
    match judge(alloc, scoped) {
        Ok(judgment) => text_of_judgment(alloc, source, scoped, &judgment, deep),
        Err(JudgeRefusal::NoMemory) => Err(AllocError),
        Err(refusal) => text_of_refusal(alloc, source, scoped, &refusal, deep),
    }
}

/// What is said of a source whose value at the time is too deep at the limit: what `--cycles` says of it, and the depth that is enough for the
/// time, where one is. Nothing of a source that is refused.
pub fn explain_depth(alloc: Global, source: &[u8], deep: TooDeep) -> Result<Vec<u8>, AllocError>
    ensures { IfOk result (λ text. TellsDepth source.now deep.limit deep.time text.items) }
{
    match scoped_of(alloc, source)? {
        Some(scoped) => text_of_scoped(alloc, source, &scoped, deep),
        None => Ok(Vec::new(alloc)),
    }
}
