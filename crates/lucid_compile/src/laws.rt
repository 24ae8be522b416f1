//! The promise of compiled tables, as the contract of a function that does nothing.
ghost use Rattle.lucid_compile.specs.Promise.{CompiledTablesKeepTrees};

/// A table that has what each part of a tree needs has the tree's approximations, also with held values, consults the same, and
/// counts the same.
pub fn compiled_tables_keep_trees()
    ensures { CompiledTablesKeepTrees }
{}
