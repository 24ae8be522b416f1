//! Whether names differ.
ghost use Rattle.std.specs.Prelude.{◌≡◌, ◌↔◌, true, IfOk};
ghost use Rattle.lucid_tree.specs.Members.{AllDiffer};

use lucid_value::Name;
use std::alloc::{AllocError, Global};
use std::collections::BTreeSet;

/// Whether no name stands in the list twice. An ordered set tells the names apart, so that the time is that of n log n comparisons
/// whatever the n names are.
pub(crate) fn do_differ(alloc: Global, names: &[Name]) -> Result<bool, AllocError>
    ensures { IfOk result (λ differ. (differ ≡ true) ↔ AllDiffer names.now) }
{
    let mut earlier = BTreeSet::new(alloc);
    for name in names {
        if !earlier.insert(name.bytes())? {
            return Ok(false);
        }
    }
    Ok(true)
}
