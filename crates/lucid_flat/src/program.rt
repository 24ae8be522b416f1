//! The program of a table, where the table is sound.
ghost use Rattle.std.specs.Prelude.{◌≡◌, ◌≤◌, ◌↔◌, length, true, IfOk, IfErr};
ghost use Rattle.lucid_equations.specs.Programs.{table_of};
ghost use Rattle.lucid_equations.specs.Sound.{StandsIn, IsSound, most_inputs};
ghost use Rattle.lucid_flat.specs.WrongRows.{RowsAreRight, IsTableRefused};
ghost use Rattle.lucid_flat.specs.declared.program.BuildRefusal.TheVariants.{NoMemory};

use crate::names::{first_wrong_name, stands_in};
use crate::nest::{Nest, first_wrong_scope};
use crate::nodes::first_wrong_node;
use crate::places::first_wrong_place;
use lucid_equations::{Program, Table};
use std::alloc::{AllocError, Global};
use thiserror::Error;

/// Why a table is no program: its first wrong row, in the order scopes, nodes, names, call places, root.
#[derive(Debug, Drop, Error)]
pub enum BuildRefusal {
    /// A scope's row is wrong, or there are no scopes.
    #[error("flat scope {at} is wrong")]
    Scope { at: u32 },
    /// A node's row is wrong.
    #[error("flat node {at} is wrong")]
    Node { at: u32 },
    /// A name's row is wrong.
    #[error("flat name {at} is wrong")]
    Name { at: u32 },
    /// A call place's row is wrong.
    #[error("flat place {at} is wrong")]
    Place { at: u32 },
    /// The root doesn't stand in scope 0, or inputs have one name, or there are too many of them.
    #[error("flat root is wrong")]
    Root,
    /// Want of memory.
    #[error("no memory")]
    NoMemory,
}

impl From<AllocError> for BuildRefusal {
    ghost from_gives = { λ _ made. made ≡ NoMemory };

    fn from(_error: AllocError) -> BuildRefusal {
        BuildRefusal::NoMemory
    }
}

const MOST_INPUTS: usize = 1_048_576;

// The first wrong row but the root's.
fn check_rows(alloc: Global, table: &Table) -> Result<(), BuildRefusal>
    ensures right { IfOk result (λ _. RowsAreRight table.now) }
    ensures refused { IfErr result (IsTableRefused table.now) }
{
    let scopes = table.scopes.items();
    if scopes.is_empty() {
        return Err(BuildRefusal::Scope { at: 0 });
    }
    if let Some(at) = first_wrong_scope(scopes) {
        return Err(BuildRefusal::Scope { at });
    }
    let nest = Nest::make(alloc, scopes)?;
    if let Some(at) = first_wrong_node(table, &nest) {
        return Err(BuildRefusal::Node { at });
    }
    if let Some(at) = first_wrong_name(table) {
        return Err(BuildRefusal::Name { at });
    }
    match first_wrong_place(alloc, table)? {
        Some(at) => Err(BuildRefusal::Place { at }),
        None => Ok(()),
    }
}

// Whether the root stands in scope 0, and there are not too many inputs.
fn is_root_right(table: &Table) -> bool
    ensures { (result ≡ true) ↔ (StandsIn table.now.nodes 0 table.now.root × (length table.now.inputs ≤ most_inputs)) }
{
    stands_in(table.nodes.items(), 0, table.root) && table.inputs.items().len() <= MOST_INPUTS
}

/// The program of a sound table. Another table has none, and the first wrong row is told.
pub fn build(alloc: Global, table: Table) -> Result<Program, BuildRefusal>
    ensures program { IfOk result (λ program. table_of program ≡ table) }
    ensures sound { IfOk result (λ _. IsSound table) }
    ensures refused { IfErr result (IsTableRefused table) }
{
    check_rows(alloc, &table)?;
    if !is_root_right(&table) {
        return Err(BuildRefusal::Root);
    }
    match Program::make(alloc, table)? {
        Some(program) => Ok(program),
        None => Err(BuildRefusal::Root),
    }
}
