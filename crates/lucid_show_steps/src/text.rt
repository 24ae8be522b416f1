//! The text of a run's steps.
ghost use Rattle.std.specs.Prelude.{◌≡◌, ◌≤◌, ◌++◌, ◌==◌, OnOk, IfOk, codes, decimal, length, min, not};
ghost use Rattle.std.specs.List.{prefix_len};
ghost use Rattle.std.specs.Option.{option_copied};
ghost use Rattle.lucid_value.specs.ValueText.{value_text};
ghost use Rattle.lucid_value.specs.View.{plain};
ghost use Rattle.lucid_show_steps.specs.Steps.{plain_step, plain_steps};
ghost use Rattle.lucid_show_steps.specs.Texts.{front_text, short_text, known_text, name_text, other_text, key_text, first_line, other_lines, line_text, step_text, values_in, is_told, text_in, told_of, told_after, left_after, after, run_text};

use crate::names::Names;
use crate::step::Step;
use itoa::Buffer;
use lucid_store::Key;
use lucid_value::Value;
use std::alloc::{AllocError, Global};

// How many bytes of a value's text are shown, and how many of one that is longer.
const MOST_BYTES: usize = 24;

const FRONT_BYTES: usize = 20;

const UNSEEN: &[u8] = b"(What is computed after the last turn of the policy isn't seen.)\n";

// What was done so far, and what is left.
#[derive(Clone, Copy)]
struct SoFar<'a> {
    // How many values are told as computed, and as found.
    computed: u64,
    found: u64,
    // How many lines of values may still be told, and how many values aren't told.
    room: u64,
    out: u64,
    // The lines of the run that aren't told yet.
    lines: &'a [u8],
}

// Appends the digits of a number.
fn put_digits(to: &mut Vec<u8>, number: u64) -> Result<(), AllocError>
    ensures { OnOk result (to.new.items ≡ to.old.items ++ decimal number) }
{
    to.extend_from_slice(Buffer::new().format(number).as_bytes())
}

// Appends a word, a number and an end.
fn put_counted(to: &mut Vec<u8>, word: &[u8], number: u64, end: &[u8]) -> Result<(), AllocError>
    ensures { OnOk result (to.new.items ≡ to.old.items ++ (word.now ++ (decimal number ++ end.now))) }
{
    to.extend_from_slice(word)?;
    put_digits(to, number)?;
    to.extend_from_slice(end)
}

// Appends the front of a long text.
#[tactic(auto, unfolding(crate::specs::Texts::front_text))]
fn put_front(to: &mut Vec<u8>, text: &[u8]) -> Result<(), AllocError>
    requires { 20 ≤ length text.now }
    ensures { OnOk result (to.new.items ≡ to.old.items ++ front_text text.now) }
{
    to.extend_from_slice(&text[..FRONT_BYTES])?;
    put_counted(to, b".. (", text.len() as u64, b" bytes)")
}

// Appends a text, shortened where it is long.
#[tactic(auto, unfolding(crate::specs::Texts::short_text))]
fn put_short(to: &mut Vec<u8>, text: &[u8]) -> Result<(), AllocError>
    ensures { OnOk result (to.new.items ≡ to.old.items ++ short_text text.now) }
{
    if text.len() <= MOST_BYTES {
        to.extend_from_slice(text)
    } else {
        put_front(to, text)
    }
}

// Appends the text of a value, and an end.
fn put_value(alloc: Global, to: &mut Vec<u8>, value: &Value) -> Result<(), AllocError>
    ensures { OnOk result (to.new.items ≡ to.old.items ++ (codes ": " ++ (short_text (value_text (plain value.now)) ++ codes "\n"))) }
{
    let mut text = Vec::new(alloc);
    value.show(alloc, &mut text)?;
    to.extend_from_slice(b": ")?;
    put_short(to, &text)?;
    to.extend_from_slice(b"\n")
}

// Appends a name; where it isn't known, its number.
#[tactic(auto, unfolding(crate::specs::Texts::known_text))]
fn put_known(to: &mut Vec<u8>, number: u32, name: Option<&[u8]>) -> Result<(), AllocError>
    ensures { OnOk result (to.new.items ≡ to.old.items ++ known_text number (option_copied name.entry)) }
{
    match name {
        Some(name) => to.extend_from_slice(name),
        None => put_counted(to, b"name ", u64::from(number), b""),
    }
}

// Appends the name of a number.
#[tactic(auto, unfolding(crate::specs::Texts::name_text))]
fn put_name(to: &mut Vec<u8>, names: &Option<Names>, number: u32) -> Result<(), AllocError>
    ensures { OnOk result (to.new.items ≡ to.old.items ++ name_text names.now number) }
{
    match names {
        Some(names) => put_known(to, number, names.name(number)),
        None => put_known(to, number, None),
    }
}

// Appends a word, a number and an end, where the number isn't 0.
#[tactic(auto, unfolding(crate::specs::Texts::other_text))]
fn put_other(to: &mut Vec<u8>, word: &[u8], number: u64, end: &[u8]) -> Result<(), AllocError>
    ensures { OnOk result (to.new.items ≡ to.old.items ++ other_text word.now number end.now) }
{
    if number == 0 {
        Ok(())
    } else {
        put_counted(to, word, number, end)
    }
}

// Appends the name of a key at its time, and its space and its context where they aren't the first.
#[tactic(auto, unfolding(crate::specs::Texts::key_text))]
fn put_key(to: &mut Vec<u8>, names: &Option<Names>, key: Key) -> Result<(), AllocError>
    ensures { OnOk result (to.new.items ≡ to.old.items ++ key_text names.now key) }
{
    put_name(to, names, key.name)?;
    put_counted(to, b" at ", key.time, b"")?;
    put_other(to, b" space ", key.tag.space(), b"")?;
    put_other(to, b" in context ", u64::from(key.tag.number()), b"")
}

// Appends what a step does, with a key.
fn put_keyed(
    to: &mut Vec<u8>,
    names: &Option<Names>,
    word: &[u8],
    key: Key,
) -> Result<(), AllocError>
    ensures { OnOk result (to.new.items ≡ to.old.items ++ (word.now ++ key_text names.now key)) }
{
    to.extend_from_slice(word)?;
    put_key(to, names, key)
}

// How many bytes the first line has.
fn line_length(lines: &[u8]) -> usize
    ensures value { result ≡ prefix_len (λ b. not (b == 10)) lines.now }
    ensures within { result ≤ length lines.now }
{
    lines.iter().take_while(|byte| **byte != b'\n').count()
}

// The first line.
#[tactic(auto, unfolding(crate::specs::Texts::first_line))]
fn first_line(lines: &[u8]) -> &[u8]
    ensures { result.now ≡ first_line lines.now }
{
    &lines[..line_length(lines)]
}

// What is left behind the first line.
#[tactic(auto, unfolding(crate::specs::Texts::other_lines))]
fn other_lines(lines: &[u8]) -> &[u8]
    ensures { result.now ≡ other_lines lines.now }
{
    &lines[lines.len().min(line_length(lines) + 1)..]
}

// Appends the first line that is left, with how much was done so far.
#[tactic(auto, unfolding(crate::specs::Texts::line_text))]
fn put_line(to: &mut Vec<u8>, so_far: SoFar<'_>) -> Result<(), AllocError>
    ensures { OnOk result (to.new.items ≡ to.old.items ++ line_text (told_of so_far.entry)) }
{
    to.extend_from_slice(b"writes ")?;
    put_short(to, first_line(so_far.lines))?;
    put_counted(to, b"   (", so_far.computed, b" computed, ")?;
    put_counted(to, b"", so_far.found, b" found")?;
    put_other(to, b", ", so_far.out, b" left out")?;
    to.extend_from_slice(b")\n")
}

// Appends a step.
#[tactic(auto, unfolding(crate::specs::Texts::step_text))]
fn put_step(
    alloc: Global,
    to: &mut Vec<u8>,
    names: &Option<Names>,
    step: &Step,
    so_far: SoFar<'_>,
) -> Result<(), AllocError>
    ensures { OnOk result (to.new.items ≡ to.old.items ++ step_text names.now (told_of so_far.entry) (plain_step step.now)) }
{
    match step {
        Step::Asks { time } => put_counted(to, b"asks for the value at ", *time, b"\n"),
        Step::Computes { key, value } => {
            put_keyed(to, names, b"  computes ", *key)?;
            put_value(alloc, to, value)
        }
        Step::ComputesAgain { key, value } => {
            put_keyed(to, names, b"  computes again ", *key)?;
            put_value(alloc, to, value)
        }
        Step::Finds { key, value } => {
            put_keyed(to, names, b"  finds ", *key)?;
            put_value(alloc, to, value)
        }
        Step::Drops { key } => {
            put_keyed(to, names, b"  drops ", *key)?;
            to.extend_from_slice(b"\n")
        }
        Step::DropsMore { count } => put_counted(to, b"  drops values: ", *count, b"\n"),
        Step::Writes { .. } => put_line(to, so_far),
        Step::LeavesOut { .. } => Ok(()),
        Step::Unseen => to.extend_from_slice(UNSEEN),
    }
}

// How many values a step is of.
#[tactic(auto, unfolding(crate::specs::Texts::values_in))]
fn values_in(step: &Step) -> u64
    ensures { result ≡ values_in (plain_step step.now) }
{
    match step {
        Step::Asks { .. } | Step::Writes { .. } | Step::Unseen => 0,
        Step::DropsMore { count } | Step::LeavesOut { count } => *count,
        _ => 1,
    }
}

// Whether a step is told: where it is of no value, or there is room for its line.
#[tactic(auto, unfolding(crate::specs::Texts::is_told))]
fn is_told(step: &Step, so_far: SoFar<'_>) -> bool
    ensures { result ≡ is_told (told_of so_far.entry) (plain_step step.now) }
{
    match step {
        Step::LeavesOut { .. } => false,
        _ => values_in(step) == 0 || so_far.room != 0,
    }
}

// Appends a step, where it is told.
#[tactic(auto, unfolding(crate::specs::Texts::text_in))]
fn put_told(
    alloc: Global,
    to: &mut Vec<u8>,
    names: &Option<Names>,
    step: &Step,
    so_far: SoFar<'_>,
) -> Result<(), AllocError>
    ensures { OnOk result (to.new.items ≡ to.old.items ++ text_in names.now (told_of so_far.entry) (plain_step step.now)) }
{
    if is_told(step, so_far) {
        put_step(alloc, to, names, step, so_far)
    } else {
        Ok(())
    }
}

// What was done and is left after a step that is told.
#[tactic(auto, unfolding(crate::specs::Texts::told_after))]
fn told_after<'a>(step: &Step, so_far: SoFar<'a>) -> SoFar<'a>
    ensures { told_of result ≡ told_after (told_of so_far.entry) (plain_step step.now) }
{
    let room = so_far.room.saturating_sub(1);
    match step {
        Step::Computes { .. } | Step::ComputesAgain { .. } => SoFar {
            computed: so_far.computed.saturating_add(1),
            room,
            ..so_far
        },
        Step::Finds { .. } => SoFar {
            found: so_far.found.saturating_add(1),
            room,
            ..so_far
        },
        Step::Drops { .. } | Step::DropsMore { .. } => SoFar { room, ..so_far },
        Step::Writes { .. } => SoFar {
            lines: other_lines(so_far.lines),
            ..so_far
        },
        _ => so_far,
    }
}

// The same of a step that isn't told.
#[tactic(auto, unfolding(crate::specs::Texts::left_after))]
fn left_after<'a>(step: &Step, so_far: SoFar<'a>) -> SoFar<'a>
    ensures { told_of result ≡ left_after (told_of so_far.entry) (plain_step step.now) }
{
    SoFar {
        out: so_far.out.saturating_add(values_in(step)),
        ..so_far
    }
}

// What was done and is left after a step.
#[tactic(auto, unfolding(crate::specs::Texts::after))]
fn after<'a>(step: &Step, so_far: SoFar<'a>) -> SoFar<'a>
    ensures { told_of result ≡ after (told_of so_far.entry) (plain_step step.now) }
{
    if is_told(step, so_far) {
        told_after(step, so_far)
    } else {
        left_after(step, so_far)
    }
}

/// The text of steps, with the lines that were written, and so many lines of values at most.
#[tactic(auto, using(crate::proofs::Told::told_more))]
pub(crate) fn steps_text(
    alloc: Global,
    names: &Option<Names>,
    steps: &[Step],
    lines: &[u8],
    most: u32,
) -> Result<Vec<u8>, AllocError>
    ensures { IfOk result (λ text. text.items ≡ run_text names.now most (plain_steps steps.now) lines.now) }
{
    let mut text = Vec::new(alloc);
    let mut so_far = SoFar {
        computed: 0,
        found: 0,
        room: u64::from(most),
        out: 0,
        lines,
    };
    for step in steps {
        put_told(alloc, &mut text, names, step, so_far)?;
        so_far = after(step, so_far);
    }
    put_other(&mut text, b".. (values left out: ", so_far.out, b")\n")?;
    Ok(text)
}
