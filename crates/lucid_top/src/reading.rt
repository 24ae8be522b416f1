//! Reading the source that the words name: as a tree, this with what its names belong to, or a table.
ghost use Rattle.std.specs.Prelude.{◌≡◌, ◌+◌, ◌<◌, ◌≤◌, All, length, IfOk, IfErr};
ghost use Rattle.lucid_scan.specs.Refusals.{most_source_bytes};
ghost use Rattle.lucid_tree.specs.WellMade.{places as all_places, IsWellMade};
ghost use Rattle.lucid_words.specs.Asked.{plain_words};
ghost use Rattle.lucid_words.specs.Plain.{plain_source};
ghost use Rattle.lucid_words.specs.Numbers.{MadeIsFromTo};
ghost use Rattle.lucid_scope.specs.Scoped.{scoped_tree, scoped_inputs};
ghost use Rattle.lucid_equations.specs.Programs.{table_of};
ghost use Rattle.lucid_top.specs.Judged.{RefusesText, AreResolved};
ghost use Rattle.lucid_top.specs.Flat.{most_flat_bytes, RefusesFlat};
ghost use Rattle.lucid_top.specs.Places.{HasRead, SpeltBySource, FlatBySource, IsAccepted, IsAcceptedBeside, IsSourceStop, IsProgramStop, IsColumnsStop};

use crate::flat::read_program;
use crate::judging::{read_tree, resolve_beside, resolve_names};
use crate::places::read_source;
use lucid_equations::Program;
use lucid_ports::Places;
use lucid_report::Stop;
use lucid_scope::Scoped;
use lucid_tree::Tree;
use lucid_words::Words;
use std::alloc::Global;

// One byte more than a source may have, as a text and in the flat form.
const PAST_SOURCE: usize = 1_048_577;

const PAST_FLAT: usize = 67_108_865;

/// The tree of the source that the words name.
pub fn tree_of<P: Places>(alloc: Global, words: &Words, places: &mut P) -> Result<Tree, Stop>
    requires made { MadeIsFromTo 1 10000 words.now.source }
    requires none { (P.world places.old).reached ≡ 0 }
    ensures spelt { IfOk result (SpeltBySource (plain_source words.now.source) (P.world places.old)) }
    ensures well_made { IfOk result IsWellMade }
    ensures few_nodes { IfOk result (λ tree. length (all_places tree) ≤ most_source_bytes) }
    ensures placed { IfOk result (λ tree. All (λ at. at < most_source_bytes) (all_places tree)) }
    ensures reading { HasRead (most_source_bytes + 1) (plain_source words.now.source) (P.world places.old) (P.world places.new) result }
    ensures stopped { IfErr result (IsSourceStop RefusesText (plain_source words.now.source) (P.world places.old) (P.world places.new)) }
{
    let source = read_source(alloc, &words.source, PAST_SOURCE, places)?;
    read_tree(alloc, &source)
}

/// The tree of the source that the words name, with what its names belong to.
pub fn program_of<P: Places>(alloc: Global, words: &Words, places: &mut P) -> Result<Scoped, Stop>
    requires made { MadeIsFromTo 1 10000 words.now.source }
    requires none { (P.world places.old).reached ≡ 0 }
    ensures accepted { IfOk result (λ scoped. IsAccepted (plain_source words.now.source) (P.world places.old) (scoped_tree scoped)) }
    ensures resolved { IfOk result AreResolved }
    ensures reading { HasRead (most_source_bytes + 1) (plain_source words.now.source) (P.world places.old) (P.world places.new) result }
    ensures stopped { IfErr result (IsProgramStop (plain_source words.now.source) (P.world places.old) (P.world places.new)) }
{
    let tree = tree_of(alloc, words, places)?;
    resolve_names(alloc, tree)
}

/// The tree of the source with the columns as its subject that the words name, and what its names belong to. The names of the tree as it is read
/// are looked at first.
pub fn columns_of<P: Places>(alloc: Global, words: &Words, places: &mut P) -> Result<Scoped, Stop>
    requires made { MadeIsFromTo 1 10000 words.now.source }
    requires columns { length (plain_words words.now).columns ≤ 16 }
    requires none { (P.world places.old).reached ≡ 0 }
    ensures accepted { IfOk result (λ scoped. IsAcceptedBeside (plain_source words.now.source) (P.world places.old) (plain_words words.now).columns (scoped_tree scoped) (scoped_inputs scoped)) }
    ensures resolved { IfOk result AreResolved }
    ensures reading { HasRead (most_source_bytes + 1) (plain_source words.now.source) (P.world places.old) (P.world places.new) result }
    ensures stopped { IfErr result (IsColumnsStop (plain_source words.now.source) (plain_words words.now).columns (P.world places.old) (P.world places.new)) }
{
    let tree = tree_of(alloc, words, places)?;
    resolve_beside(alloc, tree, &words.columns)
}

/// The program of the table of the source, in the flat form, that the words name.
pub fn flat_program<P: Places>(
    alloc: Global,
    words: &Words,
    places: &mut P,
) -> Result<Program, Stop>
    requires made { MadeIsFromTo 1 10000 words.now.source }
    requires none { (P.world places.old).reached ≡ 0 }
    ensures spelt { IfOk result (λ program. FlatBySource (plain_source words.now.source) (P.world places.old) (table_of program)) }
    ensures reading { HasRead (most_flat_bytes + 1) (plain_source words.now.source) (P.world places.old) (P.world places.new) result }
    ensures stopped { IfErr result (IsSourceStop RefusesFlat (plain_source words.now.source) (P.world places.old) (P.world places.new)) }
{
    let source = read_source(alloc, &words.source, PAST_FLAT, places)?;
    read_program(alloc, &source)
}
