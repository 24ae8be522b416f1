//! Running a program.
ghost use Rattle.std.specs.Prelude.{◌≡◌, ◌≢◌, ◌≤◌, ◌<◌, ◌⊎◌, ℕ, AllPairs, length, map, option_map, IfOk};
ghost use Rattle.lucid_tree.specs.Members.{In};
ghost use Rattle.lucid_ports.specs.Faults.{AsksNoneLate, EndsAtItsFault};
ghost use Rattle.lucid_ports.specs.Limits.{most_asked};
ghost use Rattle.lucid_equations.specs.Programs.{table_of};
ghost use Rattle.lucid_words.specs.Asked.{plain_words};
ghost use Rattle.lucid_words.specs.Numbers.{IsFromTo};
ghost use Rattle.lucid_retire.specs.Policies.{keeps_all, empties_all, most_held};
ghost use Rattle.lucid_inputs.specs.Inputs.{streams, most_bytes};
ghost use Rattle.lucid_inputs.specs.Streams.{all_bytes, fresh_stream};
ghost use Rattle.lucid_demand_steps.specs.Engine.{AreAskable};
ghost use Rattle.lucid_session.specs.Runs.{policy_view, run_view, OnTooLarge};
ghost use Rattle.lucid_ports.specs.Told.{told};
ghost use Rattle.lucid_session.specs.Sessions.{Promises};
ghost use Rattle.lucid_top.specs.Tasks.{wants_figures};
ghost use Rattle.lucid_top.specs.Asked.{columns_asked};
ghost use Rattle.lucid_top.specs.Places.{AreUnread, CountsNoRead, CountsNoWrite};
ghost use Rattle.lucid_top.specs.Programs.{program_subject, program_counted};
ghost use Rattle.lucid_top.specs.Policies.{policy_named, policy_asked};
ghost use Rattle.lucid_top.specs.Runs.{viewed, under, most_input_bytes, table_program, RanSo};
ghost use Rattle.lucid_top.specs.Running.{RunComesOnly, IsRunStop, IsLargeStop};

use crate::terms::{Choices, Reached, Terms};
use lucid_equations::Program;
use lucid_inputs::{Inputs, fresh_fits};
use lucid_ports::{Places, RunFault, Sink, Summary};
use lucid_report::{Done, Stop};
use lucid_retire::{Ages, Keep, Last, Nothing, Policy, Retire};
use lucid_schedule::Pick;
use lucid_session::{run, run_columns};
use lucid_value::Name;
use lucid_words::{PolicyWord, Source, Words};
use std::alloc::{AllocError, Global};

// How many bytes of an input may be read: one more than it may have.
const MOST_INPUT_BYTES: u64 = 268_435_456;

// How many turns of the policy by age there are from one sweep to the next.
const TURNS_BETWEEN_SWEEPS: u32 = 1000;

/// Inputs at these places, of which nothing is read.
pub fn unread_inputs(alloc: Global, numbers: Vec<u32>) -> Result<Inputs, AllocError>
    requires { AllPairs (λ a b. a ≢ b) numbers.items }
    ensures streams { IfOk result (λ inputs. streams inputs ≡ map fresh_stream numbers.items) }
    ensures most { IfOk result (λ inputs. most_bytes inputs ≡ most_input_bytes) }
{
    Inputs::make(alloc, numbers, MOST_INPUT_BYTES)
}

/// The policy that the words ask for.
pub fn policy_of(alloc: Global, words: &Words) -> Result<Policy, AllocError>
    requires { IsFromTo 1 most_asked words.now.room }
    ensures asked { IfOk result (λ policy. policy ≡ policy_asked words.now.policy words.now.age words.now.room) }
    ensures named { IfOk result (λ policy. policy_view keeps_all empties_all most_held policy ≡ policy_named words.now.policy words.now.age words.now.room) }
{
    match words.policy {
        PolicyWord::Keep => Ok(Policy::Keep(Keep)),
        PolicyWord::Nothing => Ok(Policy::Nothing(Nothing)),
        PolicyWord::Ages => Ok(Policy::Ages(Ages::make(TURNS_BETWEEN_SWEEPS, words.age))),
        PolicyWord::Last => Ok(Policy::Last(Last::make(alloc, words.room)?)),
    }
}

// Whether the figures of a run are reported: where `--stats` is given, and of a made program.
fn wants_figures(words: &Words) -> bool
    ensures { result ≡ wants_figures (plain_words words.now) }
{
    match words.source {
        Source::Made(_) => true,
        Source::File(_) => words.stats,
    }
}

/// An input is too large.
pub fn large_stop(inputs: &[Name], stream: u32) -> Stop
    requires { stream < length inputs.now }
    ensures { IsLargeStop inputs.now stream result }
{
    match inputs[stream as usize].copy() {
        Ok(name) => Stop::TooLarge { stream, name },
        Err(_) => Stop::NoMemory,
    }
}

// Why a run stopped, with the name of an input that is too large.
fn run_stop(inputs: &[Name], fault: RunFault, stats: bool) -> Stop
    requires { OnTooLarge fault (λ number. number < length inputs.now) }
    ensures { IsRunStop inputs.now stats fault result }
{
    match fault {
        RunFault::TooDeep {
            time,
            lost,
            cleared,
        } => Stop::TooDeep {
            time,
            lost,
            cleared,
            stats,
        },
        RunFault::ReadFault => Stop::ReadFault,
        RunFault::WriteFault => Stop::WriteFault,
        RunFault::TooLarge { stream } => large_stop(inputs, stream),
        RunFault::NoMemory => Stop::NoMemory,
    }
}

// Runs the program's root; or where there are columns, its root at as many spaces, side by side.
fn run_streams<R: Retire, S: Pick, P: Places, K: Sink>(
    terms: Terms<'_, R, S>,
    program: Program,
    inputs: Inputs,
    places: &mut P,
    out: &mut K,
) -> Result<Summary, RunFault>
    requires columns { length (plain_words terms.words.now).columns ≤ 16 }
    requires asked { option_map (λ names. names.now) terms.columns ≡ columns_asked (plain_words terms.words.now) }
    requires streams { length (streams inputs) ≡ length (table_of program).inputs }
    requires askable { AreAskable (streams inputs) (P.world places.old) }
    ensures { Promises (program_subject (table_program (plain_words terms.entry.words.now) (table_of program))) (program_counted (table_program (plain_words terms.entry.words.now) (table_of program)))
        (run_view terms.entry.words.now.options (policy_view R.keeps R.empties R.most terms.entry.choices.policy) (table_of program) inputs (P.world places.old) (P.world places.new) (told K.written K.faults K.late out.old) (told K.written K.faults K.late out.new)) result }
{
    let Terms {
        alloc,
        words,
        columns,
        choices,
    } = terms;
    let Choices { policy, pick } = choices;
    let options = &words.options;
    match columns {
        None => run(alloc, program, places, inputs, out, policy, pick, options),
        Some(names) => {
            let columns = names.len() as u32;
            run_columns(
                alloc, program, columns, places, inputs, out, policy, pick, options,
            )
        }
    }
}

/// Runs the program over the places of its inputs.
pub fn run_program<R: Retire, S: Pick, P: Places, K: Sink>(
    terms: Terms<'_, R, S>,
    program: Program,
    reached: Reached<'_>,
    places: &mut P,
    out: &mut K,
) -> Result<Done, Stop>
    requires columns { length (plain_words terms.words.now).columns ≤ 16 }
    requires asked { option_map (λ names. names.now) terms.columns ≡ columns_asked (plain_words terms.words.now) }
    requires names { reached.names.now ≡ (table_of program).inputs }
    requires count { length reached.numbers.items ≡ length reached.names.now }
    requires differ { AllPairs (λ a b. a ≢ b) reached.numbers.items }
    requires unread { AreUnread reached.numbers.items (P.world places.old) }
    ensures ran { RanSo (table_program (plain_words terms.entry.words.now) (table_of program))
        (under (policy_view R.keeps R.empties R.most terms.entry.choices.policy) (viewed (plain_words terms.entry.words.now) reached.entry.names.now reached.entry.numbers.items (P.world places.old) (P.world places.new) (told K.written K.faults K.late out.old) (told K.written K.faults K.late out.new)))
        result }
    ensures comes_only { RunComesOnly (policy_view R.keeps R.empties R.most terms.entry.choices.policy) (plain_words terms.entry.words.now) reached.entry.names.now (P.world places.old).faults (P.world places.new).faults (K.faults out.old) (K.faults out.new) result }
    ensures reached { (P.world places.new).reached ≡ (P.world places.old).reached }
    ensures asked { (P.world places.new).asked ≡ (P.world places.old).asked }
    ensures others { (k : ℕ) → In k reached.entry.numbers.items ⊎ ((P.world places.new).place k ≡ (P.world places.old).place k) }
    ensures bytes { (k : ℕ) → option_map all_bytes ((P.world places.new).place k).contents ≡ option_map all_bytes ((P.world places.old).place k).contents }
    ensures faults { (P.world places.old).faults ≤ (P.world places.new).faults }
    ensures counts_no_read { CountsNoRead result (P.world places.old) (P.world places.new) }
    ensures counts_no_write { CountsNoWrite result (K.faults out.old) (K.faults out.new) }
    ensures read_late { AsksNoneLate (P.world places.old) (P.world places.new) }
    ensures write_late { EndsAtItsFault (K.faults out.old) (K.late out.old) (K.late out.new) }
{
    // For the proof: inputs of which nothing is read fit their places.
    fresh_fits();
    let Reached { names, numbers } = reached;
    let inputs = unread_inputs(terms.alloc, numbers)?;
    let stats = wants_figures(terms.words);
    match run_streams(terms, program, inputs, places, out) {
        Ok(summary) => Ok(Done::Ran { summary, stats }),
        Err(fault) => Err(run_stop(names, fault, stats)),
    }
}
