//! The trees of sources.
ghost use Rattle.std.specs.Prelude.{IfOk};
ghost use Rattle.lucid_tree.specs.WellMade.{IsWellMade};

use lucid_parse::parse;
use lucid_scan::scan;
use lucid_tree::Tree;
use std::alloc::Global;
use std::test::Fail;

/// The tree that a source spells.
pub(crate) fn tree_of(alloc: Global, source: &[u8]) -> Result<Tree, Fail>
    ensures { IfOk result (λ tree. IsWellMade tree) }
{
    let tokens = scan(alloc, source)?;
    Ok(parse(alloc, source, &tokens)?)
}
