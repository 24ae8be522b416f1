//! Runs of the program that the words name: of its tree, of columns of it, or of its table.
ghost use Rattle.std.specs.Prelude.{◌≡◌, ◌≢◌, ◌≤◌, ℕ, Some, length, option_map};
ghost use Rattle.lucid_scan.specs.Refusals.{most_source_bytes};
ghost use Rattle.lucid_words.specs.Asked.{plain_words};
ghost use Rattle.lucid_words.specs.Plain.{plain_source};
ghost use Rattle.lucid_ports.specs.Faults.{AsksNoneLate, EndsAtItsFault};
ghost use Rattle.lucid_ports.specs.Told.{told};
ghost use Rattle.lucid_equations.specs.Programs.{table_of};
ghost use Rattle.lucid_session.specs.Runs.{policy_view};
ghost use Rattle.lucid_top.specs.declared.task.Task.{Task};
ghost use Rattle.lucid_top.specs.Tasks.{form_of};
ghost use Rattle.lucid_top.specs.Asked.{columns_asked};
ghost use Rattle.lucid_top.specs.Sources.{first_place};
ghost use Rattle.lucid_top.specs.Files.{files_for};
ghost use Rattle.lucid_top.specs.Names.{AsksFront};
ghost use Rattle.lucid_top.specs.Places.{CountsNoRead, CountsNoWrite, ReadsSource};
ghost use Rattle.lucid_top.specs.Coming.{Does, MayBegin};
ghost use Rattle.lucid_top.specs.Parts.{call_of, ComesOfRun};

use crate::files::{copied_names, input_files};
use crate::places::reach_files;
use crate::reading::{columns_of, flat_program, program_of};
use crate::running::run_program;
use crate::task::Form;
use crate::terms::{Reached, Terms};
use lucid_columns::laws::columns_are_spaces;
use lucid_compile::compile;
use lucid_equations::Program;
use lucid_ports::{Places, Sink};
use lucid_report::{Done, Stop};
use lucid_retire::Retire;
use lucid_schedule::Pick;
use lucid_session::laws::{figures_carry, same_streams_run_alike};
use lucid_value::Name;

// Runs the program over the files that the words give its inputs, which have these names.
fn run_inputs<R: Retire, S: Pick, P: Places, K: Sink>(
    terms: Terms<'_, R, S>,
    names: &[Name],
    program: Program,
    places: &mut P,
    out: &mut K,
) -> Result<Done, Stop>
    requires columns { length (plain_words terms.words.now).columns ≤ 16 }
    requires asked { option_map (λ names. names.now) terms.columns ≡ columns_asked (plain_words terms.words.now) }
    requires names { names.now ≡ (table_of program).inputs }
    requires few { length names.now ≤ most_source_bytes }
    requires one { (P.world places.old).reached ≤ 1 }
    ensures comes { ComesOfRun (policy_view R.keeps R.empties R.most terms.entry.choices.policy) (plain_words terms.entry.words.now) (table_of program) (P.world places.old) (P.world places.new) (told K.written K.faults K.late out.old) (told K.written K.faults K.late out.new) result }
    ensures asks { AsksFront (files_for (table_of program).inputs (plain_words terms.entry.words.now).given) (P.world places.old) (P.world places.new) }
    ensures counts_no_read { CountsNoRead result (P.world places.old) (P.world places.new) }
    ensures counts_no_write { CountsNoWrite result (K.faults out.old) (K.faults out.new) }
    ensures read_late { AsksNoneLate (P.world places.old) (P.world places.new) }
    ensures write_late { EndsAtItsFault (K.faults out.old) (K.late out.old) (K.late out.new) }
    ensures within { (most : ℕ) → (P.world places.old).reached ≡ first_place (plain_source terms.entry.words.now.source)
        → ReadsSource most (plain_source terms.entry.words.now.source) (P.world places.old) → ReadsSource most (plain_source terms.entry.words.now.source) (P.world places.new) }
{
    let words = terms.words;
    let files = input_files(terms.alloc, names, &words.given)?;
    let numbers = reach_files(terms.alloc, places, &files)?;
    run_program(terms, program, Reached { names, numbers }, places, out)
}

// Runs the tree of the source that the words name.
fn run_tree<R: Retire, S: Pick, P: Places, K: Sink>(
    terms: Terms<'_, R, S>,
    places: &mut P,
    out: &mut K,
) -> Result<Done, Stop>
    requires may { MayBegin terms.words.now Task.Run (P.world places.old) }
    requires form { form_of (plain_words terms.words.now) ≢ Form.Flat }
    requires asked { option_map (λ names. names.now) terms.columns ≡ columns_asked (plain_words terms.words.now) }
    ensures { Does (call_of P.world K.written K.faults K.late (policy_view R.keeps R.empties R.most terms.entry.choices.policy) (Some (plain_words terms.entry.words.now)) places.old places.new out.old out.new) result }
{
    // For the proof: what a run of the table does, and its figures, are those of the tree that it was compiled from.
    same_streams_run_alike();
    figures_carry();
    let scoped = program_of(terms.alloc, terms.words, places)?;
    let program = compile(terms.alloc, &scoped)?;
    run_inputs(terms, scoped.inputs(), program, places, out)
}

/// Runs the columns of the tree of the source that the words name.
pub fn columns_task<R: Retire, S: Pick, P: Places, K: Sink>(
    terms: Terms<'_, R, S>,
    places: &mut P,
    out: &mut K,
) -> Result<Done, Stop>
    requires may { MayBegin terms.words.now Task.Columns (P.world places.old) }
    requires asked { option_map (λ names. names.now) terms.columns ≡ columns_asked (plain_words terms.words.now) }
    ensures { Does (call_of P.world K.written K.faults K.late (policy_view R.keeps R.empties R.most terms.entry.choices.policy) (Some (plain_words terms.entry.words.now)) places.old places.new out.old out.new) result }
{
    // For the proof: the figures of the table's run are those of the tree, and each column is what the tree has at the column's space.
    figures_carry();
    columns_are_spaces();
    let scoped = columns_of(terms.alloc, terms.words, places)?;
    let program = compile(terms.alloc, &scoped)?;
    run_inputs(terms, scoped.inputs(), program, places, out)
}

// Runs the table of the source that the words name.
fn run_table<R: Retire, S: Pick, P: Places, K: Sink>(
    terms: Terms<'_, R, S>,
    places: &mut P,
    out: &mut K,
) -> Result<Done, Stop>
    requires may { MayBegin terms.words.now Task.Run (P.world places.old) }
    requires form { form_of (plain_words terms.words.now) ≡ Form.Flat }
    requires asked { option_map (λ names. names.now) terms.columns ≡ columns_asked (plain_words terms.words.now) }
    ensures { Does (call_of P.world K.written K.faults K.late (policy_view R.keeps R.empties R.most terms.entry.choices.policy) (Some (plain_words terms.entry.words.now)) places.old places.new out.old out.new) result }
{
    let program = flat_program(terms.alloc, terms.words, places)?;
    let names = copied_names(terms.alloc, program.table().inputs.items())?;
    run_inputs(terms, &names, program, places, out)
}

/// Runs the program that the words name, whose source has this form.
pub fn run_task<R: Retire, S: Pick, P: Places, K: Sink>(
    terms: Terms<'_, R, S>,
    form: Form,
    places: &mut P,
    out: &mut K,
) -> Result<Done, Stop>
    requires may { MayBegin terms.words.now Task.Run (P.world places.old) }
    requires form { form ≡ form_of (plain_words terms.words.now) }
    requires asked { option_map (λ names. names.now) terms.columns ≡ columns_asked (plain_words terms.words.now) }
    ensures { Does (call_of P.world K.written K.faults K.late (policy_view R.keeps R.empties R.most terms.entry.choices.policy) (Some (plain_words terms.entry.words.now)) places.old places.new out.old out.new) result }
{
    match form {
        Form::Flat => run_table(terms, places, out),
        Form::Text | Form::Made => run_tree(terms, places, out),
    }
}
