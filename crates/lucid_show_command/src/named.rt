//! Which names a program has.
ghost use Rattle.std.specs.Prelude.{◌≡◌, IfOk};
ghost use Rattle.std.specs.Option.{option_copied};
ghost use Rattle.lucid_scope.specs.Scoped.{scoped_tree, scoped_inputs};
ghost use Rattle.lucid_explain_source.specs.Scopes.{all_defs, lent};
ghost use Rattle.lucid_show_command.specs.Named.{is_one_of, parameters_of, is_headed, is_defined, has_name, first_unknown};

use lucid_explain_source::find_everywhere;
use lucid_scope::Scoped;
use lucid_tree::{Def, DefKind};
use lucid_value::Name;
use std::alloc::{AllocError, Global};

// Whether it is one of these.
#[tactic(auto, unfolding(crate::specs::Named::is_one_of))]
fn is_one_of(names: &[Name], name: &Name) -> bool
    ensures { result ≡ is_one_of names.now name.now }
{
    for other in names {
        if other.bytes() == name.bytes() {
            return true;
        }
    }
    false
}

// Whether it is a parameter of a definition.
#[tactic(auto, unfolding(crate::specs::Named::parameters_of))]
fn is_parameter(kind: &DefKind, name: &Name) -> bool
    ensures { result ≡ is_one_of (parameters_of kind.now) name.now }
{
    match kind {
        DefKind::Function { parameters, .. } => is_one_of(parameters.items(), name),
        DefKind::Plain { .. } => is_one_of(&[], name),
        DefKind::Current { .. } => is_one_of(&[], name),
    }
}

// Whether a definition is of the name, or has a parameter of the name.
#[tactic(auto, unfolding(crate::specs::Named::is_headed))]
fn is_headed(def: &Def, name: &Name) -> bool
    ensures { result ≡ is_headed def.now name.now }
{
    def.name.bytes() == name.bytes() || is_parameter(&def.kind, name)
}

// Whether one of the definitions is or has.
#[tactic(auto, unfolding(crate::specs::Named::is_defined))]
fn is_defined(defs: &[&Def], name: &Name) -> bool
    ensures { result ≡ is_defined (lent defs.now) name.now }
{
    for def in defs {
        if is_headed(def, name) {
            return true;
        }
    }
    false
}

// Whether a program with these definitions and these inputs has the name.
#[tactic(auto, unfolding(crate::specs::Named::has_name))]
fn has_name(defs: &[&Def], inputs: &[Name], name: &Name) -> bool
    ensures { result ≡ has_name (lent defs.now) inputs.now name.now }
{
    is_defined(defs, name) || is_one_of(inputs, name)
}

// The first of the names that it hasn't.
fn first_unknown<'a>(defs: &[&Def], inputs: &[Name], names: &'a [Name]) -> Option<&'a Name>
    ensures { option_copied result ≡ first_unknown (lent defs.now) inputs.now names.entry.now }
{
    for name in names {
        if !has_name(defs, inputs, name) {
            return Some(name);
        }
    }
    None
}

/// The first of the names that the program hasn't: none of its definitions, of their parameters and of its inputs has that name.
pub(crate) fn unknown_name<'a>(
    alloc: Global,
    scoped: &Scoped,
    names: &'a [Name],
) -> Result<Option<&'a Name>, AllocError>
    ensures { IfOk result (λ found. option_copied found ≡ first_unknown (all_defs (scoped_tree scoped.now)) (scoped_inputs scoped.now) names.entry.now) }
{
    let mut defs = Vec::new(alloc);
    find_everywhere(&mut defs, scoped.tree())?;
    Ok(first_unknown(&defs, scoped.inputs(), names))
}
