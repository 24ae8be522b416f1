//! The texts that are written of a program, and the tasks that write them.
ghost use Rattle.std.specs.Prelude.{◌≡◌, ◌≤◌, Some, length};
ghost use Rattle.lucid_tree.specs.WellMade.{IsWellMade};
ghost use Rattle.lucid_print.specs.Canonical.{canonical};
ghost use Rattle.lucid_scan.specs.Refusals.{most_source_bytes};
ghost use Rattle.lucid_scope.specs.Scoped.{scoped_tree, scoped_inputs};
ghost use Rattle.lucid_cycles.specs.JudgmentLine.{judgment_line};
ghost use Rattle.lucid_ports.specs.Faults.{EndsAtItsFault};
ghost use Rattle.lucid_ports.specs.Told.{told};
ghost use Rattle.lucid_words.specs.Asked.{plain_words};
ghost use Rattle.lucid_session.specs.Runs.{PolicyView};
ghost use Rattle.lucid_top.specs.declared.task.Task.{Task};
ghost use Rattle.lucid_top.specs.Judged.{AreResolved};
ghost use Rattle.lucid_top.specs.Places.{CountsNoWrite};
ghost use Rattle.lucid_top.specs.Texts.{IsFlatForm};
ghost use Rattle.lucid_top.specs.Writing.{WritesOnly};
ghost use Rattle.lucid_top.specs.Coming.{Does, MayBegin};
ghost use Rattle.lucid_top.specs.Parts.{call_of};

use crate::reading::{program_of, tree_of};
use lucid_compile::compile;
use lucid_cycles::{Judgment, judge};
use lucid_flat::show_flat;
use lucid_ports::{Places, PortFault, Sink, write_whole};
use lucid_print::print_tree;
use lucid_report::{Done, Stop};
use lucid_scope::Scoped;
use lucid_tree::Tree;
use lucid_words::Words;
use std::alloc::Global;

/// Writes the text.
pub fn write_out<K: Sink>(text: &[u8], out: &mut K) -> Result<Done, Stop>
    ensures writes { WritesOnly (λ written. written ≡ text.now) (told K.written K.faults K.late out.old) (told K.written K.faults K.late out.new) result }
    ensures counts_no_write { CountsNoWrite result (K.faults out.old) (K.faults out.new) }
    ensures late { EndsAtItsFault (K.faults out.old) (K.late out.old) (K.late out.new) }
{
    match write_whole(out, text) {
        Ok(()) => Ok(Done::Written),
        Err(PortFault::Failed) => Err(Stop::WriteFault),
        Err(PortFault::NoMemory) => Err(Stop::NoMemory),
    }
}

/// Writes the canonical source.
pub fn print_program<K: Sink>(alloc: Global, tree: &Tree, out: &mut K) -> Result<Done, Stop>
    requires { IsWellMade tree.now }
    ensures writes { WritesOnly (λ text. text ≡ canonical tree.now) (told K.written K.faults K.late out.old) (told K.written K.faults K.late out.new) result }
    ensures counts_no_write { CountsNoWrite result (K.faults out.old) (K.faults out.new) }
    ensures late { EndsAtItsFault (K.faults out.old) (K.late out.old) (K.late out.new) }
{
    let mut text = Vec::new(alloc);
    print_tree(alloc, tree, &mut text)?;
    write_out(&text, out)
}

/// Writes the line of a judgment.
pub fn write_judgment<K: Sink>(
    alloc: Global,
    scoped: &Scoped,
    judgment: &Judgment,
    out: &mut K,
) -> Result<Done, Stop>
    ensures writes { WritesOnly (λ line. line ≡ judgment_line (scoped_tree scoped.now) judgment.now) (told K.written K.faults K.late out.old) (told K.written K.faults K.late out.new) result }
    ensures counts_no_write { CountsNoWrite result (K.faults out.old) (K.faults out.new) }
    ensures late { EndsAtItsFault (K.faults out.old) (K.late out.old) (K.late out.new) }
{
    let mut line = Vec::new(alloc);
    judgment.show(alloc, scoped, &mut line)?;
    write_out(&line, out)
}

/// Writes the flat form.
pub fn write_flat<K: Sink>(alloc: Global, scoped: &Scoped, out: &mut K) -> Result<Done, Stop>
    requires resolved { AreResolved scoped.now }
    requires few { length (scoped_inputs scoped.now) ≤ most_source_bytes }
    ensures writes { WritesOnly (IsFlatForm (scoped_tree scoped.now)) (told K.written K.faults K.late out.old) (told K.written K.faults K.late out.new) result }
    ensures counts_no_write { CountsNoWrite result (K.faults out.old) (K.faults out.new) }
    ensures late { EndsAtItsFault (K.faults out.old) (K.late out.old) (K.late out.new) }
{
    let program = compile(alloc, scoped)?;
    let mut text = Vec::new(alloc);
    show_flat(alloc, program.table(), &mut text)?;
    write_out(&text, out)
}

/// Prints the program that the words name.
pub fn print_task<P: Places, K: Sink>(
    alloc: Global,
    words: &Words,
    places: &mut P,
    out: &mut K,
) -> Result<Done, Stop>
    requires { MayBegin words.now Task.Print (P.world places.old) }
    ensures { (policy : PolicyView) → Does (call_of P.world K.written K.faults K.late policy (Some (plain_words words.now)) places.old places.new out.old out.new) result }
{
    let tree = tree_of(alloc, words, places)?;
    print_program(alloc, &tree, out)
}

/// Judges the cycles of the program that the words name.
pub fn cycles_task<P: Places, K: Sink>(
    alloc: Global,
    words: &Words,
    places: &mut P,
    out: &mut K,
) -> Result<Done, Stop>
    requires { MayBegin words.now Task.Cycles (P.world places.old) }
    ensures { (policy : PolicyView) → Does (call_of P.world K.written K.faults K.late policy (Some (plain_words words.now)) places.old places.new out.old out.new) result }
{
    let scoped = program_of(alloc, words, places)?;
    let judgment = judge(alloc, &scoped)?;
    write_judgment(alloc, &scoped, &judgment, out)
}

/// Writes the flat form of the program that the words name.
pub fn flat_task<P: Places, K: Sink>(
    alloc: Global,
    words: &Words,
    places: &mut P,
    out: &mut K,
) -> Result<Done, Stop>
    requires { MayBegin words.now Task.Flat (P.world places.old) }
    ensures { (policy : PolicyView) → Does (call_of P.world K.written K.faults K.late policy (Some (plain_words words.now)) places.old places.new out.old out.new) result }
{
    let scoped = program_of(alloc, words, places)?;
    write_flat(alloc, &scoped, out)
}
