//! A run that is noted.
ghost use Rattle.std.specs.Prelude.{◌≡◌, false, IfOk, OnErr, OnOk, map};
ghost use Rattle.std.specs.String.{string_bytes};
ghost use Rattle.lucid_ports.specs.Limits.{most_asked};
ghost use Rattle.lucid_words.specs.Asked.{words_asked};
ghost use Rattle.lucid_words.specs.Numbers.{IsFromTo};
ghost use Rattle.lucid_retire.specs.Policies.{keeps_all, empties_all, most_held};
ghost use Rattle.lucid_session.specs.Runs.{policy_view};
ghost use Rattle.lucid_ports.specs.Told.{told};
ghost use Rattle.lucid_top.specs.Policies.{policy_asked, policy_named, policy_by};
ghost use Rattle.lucid_show_steps.specs.Turns.{noted};
ghost use Rattle.lucid_show_steps.specs.Steps.{steps_of};
ghost use Rattle.lucid_show_steps.specs.Texts.{run_text};
ghost use Rattle.lucid_show_steps.specs.Runs.{RunsAsLucid};

use crate::log::Log;
use crate::names::Names;
use crate::noting::{Noting, NotingPick, NotingSink};
use crate::steps::steps_of;
use crate::text::steps_text;
use lucid_ports::{Places, Sink};
use lucid_report::Status;
use lucid_retire::{Ages, Keep, Last, Nothing, Policy};
use lucid_top::lucid_under;
use lucid_words::{PolicyWord, Words, WordsRefusal, read_words};
use std::alloc::{AllocError, Global};
use std::cell::RefCell;

// How many turns of the policy by age there are from one sweep to the next.
const TURNS_BETWEEN_SWEEPS: u32 = 1000;

// How many turns and picks are noted for each line of a value that may be told.
const NOTES_OF_A_LINE: usize = 10;

// The policy that the words ask for.
fn policy_of(alloc: Global, words: &Words) -> Result<Policy, AllocError>
    requires { IsFromTo 1 most_asked words.now.room }
    ensures asked { IfOk result (λ policy. policy ≡ policy_asked words.now.policy words.now.age words.now.room) }
    ensures named { IfOk result (λ policy. policy_view keeps_all empties_all most_held policy ≡ policy_named words.now.policy words.now.age words.now.room) }
{
    match words.policy {
        PolicyWord::Keep => Ok(Policy::Keep(Keep)),
        PolicyWord::Nothing => Ok(Policy::Nothing(Nothing)),
        PolicyWord::Ages => Ok(Policy::Ages(Ages::make(TURNS_BETWEEN_SWEEPS, words.age))),
        PolicyWord::Last => Ok(Policy::Last(Last::make(alloc, words.room)?)),
    }
}

// The same of words that may be refused, with which nothing is run.
fn policy_by(alloc: Global, words: &[String]) -> Result<Policy, AllocError>
    ensures { IfOk result (λ policy. policy_view keeps_all empties_all most_held policy ≡ policy_by (words_asked (map string_bytes words.now))) }
{
    match read_words(alloc, words) {
        Ok(words) => policy_of(alloc, &words),
        Err(WordsRefusal::Usage) => Ok(Policy::Keep(Keep)),
        Err(WordsRefusal::NoMemory) => Err(AllocError),
    }
}

/// A run that was noted: how it ended, its lines, and its notes.
#[derive(Drop)]
pub struct Noted {
    pub status: Status,
    pub lines: Vec<u8>,
    pub log: Log,
}

/// Does what `lucid` does with these words, and notes what is seen of the run: as much as so many lines of values may tell, of which the rest is
/// only counted. An error is want of memory, and then nothing is done.
pub fn run_noted<P: Places, E: Sink>(
    alloc: Global,
    words: &[String],
    most: u32,
    places: &mut P,
    report: &mut E,
) -> Result<Noted, AllocError>
    requires { (P.world places.old).reached ≡ 0 }
    ensures runs { IfOk result (λ noted. RunsAsLucid (words_asked (map string_bytes words.now)) (P.world places.old) (P.world places.new)
        (told E.written E.faults E.late report.old) (told E.written E.faults E.late report.new) noted.lines.items noted.status) }
    ensures undone { OnErr result (P.world places.new ≡ P.world places.old) }
{
    let policy = policy_by(alloc, words)?;
    let log = RefCell::new(Log::make(alloc, NOTES_OF_A_LINE.saturating_mul(most as usize)));
    let mut out = NotingSink::make(alloc, &log);
    let status = lucid_under(
        alloc,
        words,
        Noting::make(policy, &log),
        NotingPick::make(&log),
        places,
        &mut out,
        report,
    );
    let lines = out.into_bytes();
    Ok(Noted {
        status,
        lines,
        log: log.into_inner(),
    })
}

/// The text of a run that was noted, with the names of its program where these are known, and so many lines of values at most. It is refused where
/// there was no memory for a note, and for want of memory alone.
pub fn text_of(
    alloc: Global,
    run: &Noted,
    names: &Option<Names>,
    most: u32,
) -> Result<Vec<u8>, AllocError>
    ensures text { IfOk result (λ text. text.items ≡ run_text names.now most (steps_of (noted run.now.log)) run.now.lines.items) }
    ensures whole { OnOk result (run.now.log.lacks ≡ false) }
{
    if run.log.lacks() {
        return Err(AllocError);
    }
    let steps = steps_of(alloc, run.log.events())?;
    steps_text(alloc, names, &steps, &run.lines, most)
}
