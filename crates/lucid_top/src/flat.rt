//! Judging a source in the flat form: its length, its lines and the rows of its table, in this order.
ghost use Rattle.std.specs.Prelude.{IfOk, IfErr};
ghost use Rattle.lucid_equations.specs.Programs.{table_of};
ghost use Rattle.lucid_top.specs.Flat.{SpellsTable, RefusesFlat};
ghost use Rattle.lucid_report.specs.Refusals.{IsRefusalOf};

use lucid_equations::Program;
use lucid_flat::{build, read_flat};
use lucid_report::{Refusal, Stop};
use std::alloc::Global;

// How many bytes a source in the flat form may have.
const MOST_FLAT_BYTES: usize = 67_108_864;

/// The program of the table that the source spells.
pub fn read_program(alloc: Global, source: &[u8]) -> Result<Program, Stop>
    ensures spelt { IfOk result (λ program. SpellsTable source.now (table_of program)) }
    ensures refused { IfErr result (IsRefusalOf (RefusesFlat source.now)) }
{
    if source.len() > MOST_FLAT_BYTES {
        return Err(Stop::Refused(Refusal::TooLong));
    }
    let table = read_flat(alloc, source)?;
    let program = build(alloc, table)?;
    Ok(program)
}
