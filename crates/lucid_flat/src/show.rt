//! The text of a table.
ghost use Rattle.std.specs.Prelude.{◌≡◌, ◌++◌, IfOk, OnOk, OnErr};
ghost use Rattle.lucid_flat.specs.FlatText.{root_row, flat_text};
ghost use Rattle.lucid_flat.specs.FlatTables.{HasOneRoot, RowFits, HasText};
ghost use Rattle.lucid_flat.specs.Shown.{line_of};

use crate::lines::put_lines;
use crate::put::put_number;
use lucid_equations::Table;
use std::alloc::{AllocError, Global};

fn put_root(to: &mut Vec<u8>, root: u32) -> Result<(), AllocError>
    ensures line { OnOk result (to.new.items ≡ to.old.items ++ line_of (root_row root)) }
    ensures fits { RowFits (root_row root) }
{
    to.extend_from_slice(b"root")?;
    put_number(to, root)?;
    to.extend_from_slice(b"\n")
}

// The text of a table.
fn text_of(alloc: Global, table: &Table) -> Result<Vec<u8>, AllocError>
    requires { HasOneRoot table.now }
    ensures text { IfOk result (λ text. text.items ≡ flat_text table.now) }
    ensures has { OnOk result (HasText table.now) }
{
    let mut text = Vec::from_slice(alloc, b"lucid flat 1\n")?;
    put_lines(alloc, &mut text, &table.scopes.items()[1..])?;
    put_lines(alloc, &mut text, table.inputs.items())?;
    put_lines(alloc, &mut text, table.constants.items())?;
    put_lines(alloc, &mut text, table.nodes.items())?;
    put_lines(alloc, &mut text, table.names.items())?;
    put_lines(alloc, &mut text, table.places.items())?;
    put_root(&mut text, table.root)?;
    Ok(text)
}

/// Appends the text of a table whose scope 0 is the one root. It is made whole first, so that a refusal leaves `to` as it was.
pub fn show_flat(alloc: Global, table: &Table, to: &mut Vec<u8>) -> Result<(), AllocError>
    requires { HasOneRoot table.now }
    ensures text { OnOk result (to.new.items ≡ to.old.items ++ flat_text table.now) }
    ensures has { OnOk result (HasText table.now) }
    ensures unchanged { OnErr result (to.new.items ≡ to.old.items) }
{
    let text = text_of(alloc, table)?;
    to.extend_from_slice(text.as_slice())
}
