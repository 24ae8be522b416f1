//! The grid of a demand.
ghost use Rattle.std.specs.Prelude.{◌≡◌, ◌-◌, length, IfOk};
ghost use Rattle.lucid_show_grid.specs.Grids.{plain_grid};
ghost use Rattle.lucid_show_outline.specs.Views.{view_of};
ghost use Rattle.lucid_show_drawing.specs.Drawings.{IsGridOf, roles_at};
ghost use Rattle.lucid_show_drawing.specs.Panels.{plain_roles};

use crate::arrows::arrows;
use crate::asked::{add_tests, arranged, told_whole, whole_count};
use crate::looked::{boxes, looked_at, tests};
use crate::panels::panels;
use crate::roles::Roles;
use lucid_cert_rules::{Cell, outline};
use lucid_show_grid::Grid;
use lucid_show_outline::{Source, chosen};
use std::alloc::AllocError;

// What boxes are, where the output is the judgment of a number and these are the tests.
fn roles(source: &Source<'_>, number: u64, tests: &[u64]) -> Result<Roles, AllocError>
    ensures { IfOk result (λ roles. plain_roles roles ≡ roles_at (view_of source.now) number tests.now) }
{
    Ok(Roles {
        outputs: looked_at(source, Cell::Named { judgment: number })?,
        tests: boxes(source, tests)?,
    })
}

/// The grid of the last judgment, with so many values and tests at most: those of the names that are chosen that its outline tells first, and behind
/// them the tests.
pub fn grid(source: &Source<'_>, most: u32) -> Result<Grid, AllocError>
    ensures { IfOk result (λ grid. IsGridOf (view_of source.now) most (length (view_of source.now).judgments - 1) (plain_grid grid)) }
{
    let output = source.last();
    let mut heading = Vec::new(source.alloc());
    source.put_heading(&mut heading, output)?;
    let tests = tests(source)?;
    let mut entries = outline(source.alloc(), source.table(), source.judgments(), output)?;
    add_tests(source, &mut entries, &tests)?;
    let told = chosen(source, &entries)?;
    let all = told_whole(source, &told)?;
    let shown = arranged(all, most as usize)?;
    let left_out = whole_count(&entries).saturating_sub(shown.len()) as u64;
    let roles = roles(source, output, &tests)?;
    Ok(Grid {
        heading,
        panels: panels(source, &roles, &shown)?,
        arrows: arrows(source, &shown)?,
        left_out,
    })
}
