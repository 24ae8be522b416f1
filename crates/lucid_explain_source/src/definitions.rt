//! The definitions of a tree, as they are told.
ghost use Rattle.std.specs.Prelude.{◌≡◌, ◌≤◌, ◌++◌, length, take, min, codes, OnOk};
ghost use Rattle.std.specs.List.{join_by};
ghost use Rattle.lucid_scan.specs.Refusals.{most_source_bytes};
ghost use Rattle.lucid_explain_source.specs.Definitions.{cut_text, name_text, others_text, names_text, parameters_text, head_text, spot_text, definition_text};

use lucid_explain_places::put_where;
use lucid_tree::{Def, DefKind};
use lucid_value::Name;
use std::alloc::AllocError;

// So many bytes of a name are told, and so many parameters.
const MOST_BYTES: usize = 160;

const MOST_PARAMETERS: usize = 20;

// What stands for the bytes of a name behind the first.
fn cut_text(name: &[u8]) -> &'static [u8]
    ensures { result.now ≡ cut_text name.now }
{
    if name.len() <= MOST_BYTES { b"" } else { b".." }
}

// The first bytes of a name, as many as are told.
fn front_of(name: &[u8]) -> &[u8]
    ensures { result.now ≡ take 160 name.now }
{
    &name[..MOST_BYTES.min(name.len())]
}

/// Appends a name: whole, or of one that is longer than 160 bytes the first 160, and `..`.
#[tactic(auto, unfolding(crate::specs::Definitions::name_text))]
pub fn put_name(text: &mut Vec<u8>, name: &[u8]) -> Result<(), AllocError>
    ensures { OnOk result (text.new.items ≡ text.old.items ++ name_text name.now) }
{
    text.extend_from_slice(front_of(name))?;
    text.extend_from_slice(cut_text(name))
}

// Appends names, parted by a comma and a blank.
fn put_names(text: &mut Vec<u8>, names: &[Name]) -> Result<(), AllocError>
    ensures { OnOk result (text.new.items ≡ text.old.items ++ join_by name_text (codes ", ") names.now) }
{
    if let Some((first, others)) = names.split_first() {
        put_name(text, first.bytes())?;
        for other in others {
            text.extend_from_slice(b", ")?;
            put_name(text, other.bytes())?;
        }
    }
    Ok(())
}

// What stands for the parameters behind the first.
fn others_text(names: &[Name]) -> &'static [u8]
    ensures { result.now ≡ others_text names.now }
{
    if names.len() <= MOST_PARAMETERS {
        b""
    } else {
        b", .."
    }
}

// The first of the names, as many as are told.
fn first_of(names: &[Name]) -> &[Name]
    ensures { result.now ≡ take 20 names.now }
{
    &names[..MOST_PARAMETERS.min(names.len())]
}

// Appends the first of the names, and what stands for others.
fn put_first(text: &mut Vec<u8>, names: &[Name]) -> Result<(), AllocError>
    ensures { OnOk result (text.new.items ≡ text.old.items ++ names_text names.now) }
{
    put_names(text, first_of(names))?;
    text.extend_from_slice(others_text(names))
}

// Appends parameters in parentheses.
fn put_list(text: &mut Vec<u8>, names: &[Name]) -> Result<(), AllocError>
    ensures { OnOk result (text.new.items ≡ text.old.items ++ (codes "(" ++ (names_text names.now ++ codes ")"))) }
{
    text.extend_from_slice(b"(")?;
    put_first(text, names)?;
    text.extend_from_slice(b")")
}

// Appends the parameters of a definition.
fn put_parameters(text: &mut Vec<u8>, kind: &DefKind) -> Result<(), AllocError>
    ensures { OnOk result (text.new.items ≡ text.old.items ++ parameters_text kind.now) }
{
    match kind {
        DefKind::Function { parameters, .. } => put_list(text, parameters.items()),
        DefKind::Plain { .. } | DefKind::Current { .. } => Ok(()),
    }
}

// Appends the name and the parameters of a definition.
fn put_head(text: &mut Vec<u8>, def: &Def) -> Result<(), AllocError>
    ensures { OnOk result (text.new.items ≡ text.old.items ++ head_text def.now) }
{
    put_name(text, def.name.bytes())?;
    put_parameters(text, &def.kind)
}

// Appends where a definition stands.
fn put_spot(text: &mut Vec<u8>, source: &[u8], at: u32) -> Result<(), AllocError>
    requires { length source.now ≤ most_source_bytes }
    ensures { OnOk result (text.new.items ≡ text.old.items ++ spot_text source.now (min (length source.now) at)) }
{
    let at = source.len().min(at as usize);
    put_where(text, b" is defined in line ", source, at)
}

/// Appends a definition's head, and where it stands.
pub fn put_definition(text: &mut Vec<u8>, source: &[u8], def: &Def) -> Result<(), AllocError>
    requires { length source.now ≤ most_source_bytes }
    ensures { OnOk result (text.new.items ≡ text.old.items ++ definition_text source.now def.now) }
{
    put_head(text, def)?;
    put_spot(text, source, def.at)
}
