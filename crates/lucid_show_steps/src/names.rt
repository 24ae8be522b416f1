//! The names of a program's table.
ghost use Rattle.std.specs.Prelude.{◌≡◌, ◌≤◌, IfOk, IfErr, length};
ghost use Rattle.std.specs.List.{prefix_len};
ghost use Rattle.lucid_value.specs.Names.{is_name_byte};
ghost use Rattle.lucid_tree.specs.WellMade.{IsWellMade};
ghost use Rattle.lucid_compile.specs.Origins.{origins_of};
ghost use Rattle.lucid_top.specs.Judged.{Spelt, RefusesText, RefusesNames};
ghost use Rattle.std.specs.Option.{option_copied};
ghost use Rattle.lucid_report.specs.Refusals.{IsRefusalOf};
ghost use Rattle.lucid_show_steps.specs.Names.{name_front, name_within, name_in, PlacesOf, NamesOf, RefusesSource};

use lucid_compile::find_origins;
use lucid_parse::parse;
use lucid_report::Stop;
use lucid_scan::scan;
use lucid_scope::resolve_owned;
use lucid_tree::Tree;
use lucid_value::is_name_byte;
use std::alloc::Global;

/// The source of a program, and where the names of its table stand there, by their numbers.
#[derive(Drop)]
pub struct Names {
    source: Vec<u8>,
    places: Vec<u32>,
}

// The tree that a source spells.
fn read_tree(alloc: Global, source: &[u8]) -> Result<Tree, Stop>
    ensures spelt { IfOk result (Spelt source.now) }
    ensures well_made { IfOk result IsWellMade }
    ensures refused { IfErr result (IsRefusalOf (RefusesText source.now)) }
{
    let tokens = scan(alloc, source)?;
    let tree = parse(alloc, source, &tokens)?;
    Ok(tree)
}

// Where the names of a tree's table come from.
fn places_of(alloc: Global, tree: Tree) -> Result<Vec<u32>, Stop>
    requires { IsWellMade tree }
    ensures places { IfOk result (λ places. places.items ≡ (origins_of tree).names) }
    ensures refused { IfErr result (IsRefusalOf (RefusesNames tree)) }
{
    let scoped = resolve_owned(alloc, tree)?;
    let origins = find_origins(alloc, &scoped)?;
    Ok(origins.names)
}

// Where the names of the program of a source stand.
fn places_in(alloc: Global, source: &[u8]) -> Result<Vec<u32>, Stop>
    ensures places { IfOk result (λ places. PlacesOf source.now places.items) }
    ensures refused { IfErr result (IsRefusalOf (RefusesSource source.now)) }
{
    let tree = read_tree(alloc, source)?;
    let places = places_of(alloc, tree)?;
    Ok(places)
}

/// The names of the program of a source.
pub fn names_of(alloc: Global, source: Vec<u8>) -> Result<Names, Stop>
    ensures names { IfOk result (NamesOf source.items) }
    ensures refused { IfErr result (IsRefusalOf (RefusesSource source.items)) }
{
    let places = places_in(alloc, &source)?;
    Ok(Names { source, places })
}

// How many bytes the name has with which the rest of a source begins.
fn name_length(rest: &[u8]) -> usize
    ensures value { result ≡ prefix_len is_name_byte rest.now }
    ensures within { result ≤ length rest.now }
{
    rest.iter().take_while(|byte| is_name_byte(**byte)).count()
}

// The name with which the rest of a source begins.
#[tactic(auto, unfolding(crate::specs::Names::name_front))]
fn name_front(rest: &[u8]) -> &[u8]
    ensures { result.now ≡ name_front rest.now }
{
    &rest[..name_length(rest)]
}

// The name that stands at a place of a source.
#[tactic(auto, unfolding(crate::specs::Names::name_within))]
fn name_within(source: &[u8], at: usize) -> Option<&[u8]>
    ensures { option_copied result ≡ name_within source.now at }
{
    if at > source.len() {
        return None;
    }
    Some(name_front(&source[at..]))
}

impl Names {
    /// The name of a number, as it stands in the source.
    #[tactic(auto, unfolding(crate::specs::Names::name_in))]
    pub(crate) fn name(&self, number: u32) -> Option<&[u8]>
        ensures { option_copied result ≡ name_in self.now number }
    {
        match self.places.get(number as usize) {
            Some(at) => name_within(&self.source, *at as usize),
            None => None,
        }
    }
}
