//! The arrows of a grid.
ghost use Rattle.std.specs.Prelude.{◌≡◌, ◌++◌, map, IfOk, OnOk};
ghost use Rattle.indexmap.specs.IndexMap.{get};
ghost use Rattle.lucid_show_outline.specs.Views.{view_of};
ghost use Rattle.lucid_show_drawing.specs.Arrows.{AreArrows, cells_of};
ghost use Rattle.lucid_show_drawing.specs.Orders.{ArePlaces, arrows_by, place_in};

use crate::asked::Asked;
use crate::looked::looked_at;
use indexmap::IndexMap;
use lucid_cert_rules::Cell;
use lucid_show_grid::Arrow;
use lucid_show_outline::Source;
use std::alloc::{AllocError, Global};

// The numbers of values, by their cells.
fn places(alloc: Global, shown: &[Asked]) -> Result<IndexMap<Cell, usize>, AllocError>
    ensures { IfOk result (λ places. ArePlaces (cells_of shown.now) (place_in places)) }
{
    let mut places = IndexMap::new(alloc);
    for (number, asked) in shown.iter().enumerate() {
        places.insert(asked.cell, number)?;
    }
    Ok(places)
}

// Adds the arrows from the value of a number to those of these cells, as far as they are drawn.
fn add_arrows(
    arrows: &mut Vec<Arrow>,
    places: &IndexMap<Cell, usize>,
    from: usize,
    cells: &[Cell],
) -> Result<(), AllocError>
    ensures { OnOk result (arrows.new.items ≡ arrows.old.items ++ arrows_by (place_in places.now) from cells.now) }
{
    for cell in cells {
        if let Some(to) = places.get(cell) {
            arrows.push(Arrow { from, to: *to })?;
        }
    }
    Ok(())
}

/// The arrows between values that are shown, each of which has its number in this order.
pub(crate) fn arrows(source: &Source<'_>, shown: &[Asked]) -> Result<Vec<Arrow>, AllocError>
    ensures { IfOk result (λ arrows. AreArrows (view_of source.now) (cells_of shown.now) 0 (cells_of shown.now) arrows.items) }
{
    let places = places(source.alloc(), shown)?;
    let mut arrows = Vec::new(source.alloc());
    for (from, asked) in shown.iter().enumerate() {
        let looked = looked_at(source, asked.cell)?;
        add_arrows(&mut arrows, &places, from, looked.as_slice())?;
    }
    Ok(arrows)
}
