//! What is said of inputs that have no file.
ghost use Rattle.std.specs.Prelude.{◌≡◌, ◌-◌, ◌+◌, ◌≤◌, [], ◌∷◌, ◌++◌, ◌↔◌, List, length, find, min, Contains, Some, ℕ, ◌<◌, IfOk, IfSome, IfNone, IsTrue, OnOk};
ghost use Rattle.std.specs.Option.{option_copied, option_to_list};
ghost use Rattle.std.specs.List.{slice_get, flat_map};
ghost use Rattle.lucid_scan.specs.Refusals.{most_source_bytes};
ghost use Rattle.lucid_scope.specs.Scoped.{scoped_tree, scoped_inputs};
ghost use Rattle.lucid_explain_source.specs.Accepted.{IsProgram};
ghost use Rattle.lucid_explain_run.specs.declared.inputs.Lacking.{Lacking as Told};
ghost use Rattle.lucid_explain_run.specs.Inputs.{StandsAt, StandsFirst, is_alike, is_edited, is_near, nearest, gives_name, first_named, IsLacking, IsWanted, AreFirst, AreLacking, near_text, spelled_text, outside_text, elsewhere_text, meant_text, first_text, lacking_text, word_text, inputs_text, TellsInputs, named_text, free_text, TellsFree};
ghost use Rattle.lucid_explain_source.specs.Definitions.{name_text};
ghost use Rattle.lucid_explain_source.specs.Scopes.{lent, in_scope, all_defs};

use lucid_explain_places::{is_capital, put_where};
use lucid_explain_source::{
    find_everywhere, find_in_scope, has_parameter, put_definition, put_name, scoped_of,
};
use lucid_scope::{Binding, Scoped};
use lucid_tree::Def;
use lucid_value::Name;
use std::alloc::{AllocError, Global};
use strsim::generic_levenshtein;

// The most inputs that are told.
const MOST_TOLD: usize = 6;

// Names that are longer aren't compared.
const MOST_COMPARED: usize = 40;

/// An input that has no file.
#[derive(Clone, Copy)]
pub struct Lacking<'a> {
    pub name: &'a Name,
    /// Where the name stands first.
    pub at: u32,
    /// A definition in scope there whose name differs by little.
    pub near: Option<&'a Def>,
    /// A definition of the name, or of a function that has it as a parameter: neither is in scope there.
    pub elsewhere: Option<&'a Def>,
    /// Whether it is a reserved word but for capital letters.
    pub is_capital: bool,
}

/// Which inputs are sought: those of a program that have no file among those given, and stand before the end.
#[derive(Clone, Copy)]
pub(crate) struct Sought<'a> {
    pub(crate) scoped: &'a Scoped,
    pub(crate) given: &'a [Name],
    pub(crate) end: u32,
}

// Whether the name at the place belongs to the input of this number.
fn stands_at(scoped: &Scoped, stream: u32, at: u32) -> bool
    ensures yes { IsTrue result → StandsAt scoped.now stream at }
    ensures no { StandsAt scoped.now stream at → IsTrue result }
{
    match scoped.binding(at) {
        Some(Binding::Input { stream: other }) => other == stream,
        _ => false,
    }
}

// The first place before the end at which a name belongs to the input of this number.
fn first_place(scoped: &Scoped, stream: u32, end: u32) -> Option<u32>
    ensures first { IfSome result (λ at. StandsFirst scoped.now stream at) }
    ensures none { IfNone result ((at : ℕ) → at < end → StandsAt scoped.now stream at → ⊥) }
{
    for at in 0..end {
        if stands_at(scoped, stream, at) {
            return Some(at);
        }
    }
    None
}

// Whether the two names differ by capital letters alone.
fn is_alike(alloc: Global, name: &[u8], other: &[u8]) -> Result<bool, AllocError>
    ensures { IfOk result (λ b. b ≡ is_alike name.now other.now) }
{
    let small = name.to_ascii_lowercase(alloc)?;
    let other_small = other.to_ascii_lowercase(alloc)?;
    Ok(small.as_slice() == other_small.as_slice())
}

// Whether the two names differ by so many letters at most, and both have others besides.
fn is_edited(alloc: Global, name: &[u8], other: &[u8], most: usize) -> Result<bool, AllocError>
    requires few { most ≤ 2 }
    requires short { length name.now ≤ 40 }
    requires other_short { length other.now ≤ 40 }
    ensures { IfOk result (λ b. b ≡ is_edited most name.now other.now) }
{
    let edits = generic_levenshtein(alloc, name, other)?;
    Ok(edits <= most && 2 * edits < name.len().min(other.len()))
}

// Whether the two names differ by little.
fn is_near(alloc: Global, name: &[u8], other: &[u8], most: usize) -> Result<bool, AllocError>
    requires { most ≤ 2 }
    ensures { IfOk result (λ b. b ≡ is_near most name.now other.now) }
{
    if name.len().max(other.len()) > MOST_COMPARED {
        return Ok(false);
    }
    Ok(is_alike(alloc, name, other)? || is_edited(alloc, name, other, most)?)
}

// The first definition whose name differs by so many letters at most.
fn find_near<'a>(
    alloc: Global,
    defs: &[&'a Def],
    name: &[u8],
    most: usize,
) -> Result<Option<&'a Def>, AllocError>
    requires { most ≤ 2 }
    ensures { IfOk result (λ found. option_copied found ≡ find (λ d. is_near most name.now d.name) (lent defs.now)) }
{
    for def in defs {
        if is_near(alloc, name, def.name.bytes(), most)? {
            return Ok(Some(*def));
        }
    }
    Ok(None)
}

// The first definition whose name differs by a letter, or else by two.
fn find_nearest<'a>(
    alloc: Global,
    defs: &[&'a Def],
    name: &[u8],
) -> Result<Option<&'a Def>, AllocError>
    ensures { IfOk result (λ found. option_copied found ≡ nearest name.now (lent defs.now)) }
{
    match find_near(alloc, defs, name, 1)? {
        Some(def) => Ok(Some(def)),
        None => find_near(alloc, defs, name, 2),
    }
}

// The definition in scope at the place whose name is nearest.
fn near_of<'a>(
    alloc: Global,
    scoped: &'a Scoped,
    name: &[u8],
    at: u32,
) -> Result<Option<&'a Def>, AllocError>
    ensures { IfOk result (λ found. option_copied found ≡ nearest name.now (in_scope at (scoped_tree scoped.entry.now))) }
{
    let mut defs = Vec::new(alloc);
    find_in_scope(&mut defs, scoped.tree(), at)?;
    let near = find_nearest(alloc, &defs, name)?;
    Ok(near)
}

// Whether this defines the name, or a function that has it as a parameter.
fn gives_name(name: &[u8], def: &Def) -> bool
    ensures { result ≡ gives_name name.now def.now }
{
    def.name.bytes() == name || has_parameter(&def.kind, name)
}

// The first definition that does so.
fn find_named<'a>(defs: &[&'a Def], name: &[u8]) -> Option<&'a Def>
    ensures { option_copied result ≡ first_named name.now (lent defs.now) }
{
    for def in defs {
        if gives_name(name, def) {
            return Some(*def);
        }
    }
    None
}

// The first of the whole tree.
fn elsewhere_of<'a>(
    alloc: Global,
    scoped: &'a Scoped,
    name: &[u8],
) -> Result<Option<&'a Def>, AllocError>
    ensures { IfOk result (λ found. option_copied found ≡ first_named name.now (all_defs (scoped_tree scoped.entry.now))) }
{
    let mut defs = Vec::new(alloc);
    find_everywhere(&mut defs, scoped.tree())?;
    let elsewhere = find_named(&defs, name);
    Ok(elsewhere)
}

// The input of this number, which has this name, as one without a file; none where it stands nowhere.
fn lacking_of<'a>(
    alloc: Global,
    sought: &Sought<'a>,
    name: &'a Name,
    stream: u32,
) -> Result<Option<Lacking<'a>>, AllocError>
    requires named { slice_get (scoped_inputs sought.now.scoped.now) stream ≡ Some name.now }
    requires free { Contains sought.now.given.now name.now → ⊥ }
    ensures lacking { IfOk result (λ found. IfSome found (IsLacking sought.now.scoped.now sought.now.given.now stream)) }
    ensures named { IfOk result (λ found. IfSome found (λ l. l.name.now ≡ name.entry.now)) }
    ensures none { IfOk result (λ found. IfNone found (IsWanted sought.now.scoped.now sought.now.given.now sought.now.end stream name.entry.now → ⊥)) }
{
    let Some(at) = first_place(sought.scoped, stream, sought.end) else {
        return Ok(None);
    };
    let near = near_of(alloc, sought.scoped, name.bytes(), at)?;
    let elsewhere = elsewhere_of(alloc, sought.scoped, name.bytes())?;
    let is_capital = is_capital(alloc, name.bytes())?;
    Ok(Some(Lacking {
        name,
        at,
        near,
        elsewhere,
        is_capital,
    }))
}

// Whether a file is given for the name.
fn is_given(given: &[Name], name: &Name) -> bool
    ensures { IsTrue result ↔ Contains given.now name.now }
{
    given.iter().any(|other| other.same(name))
}

// The same where there is room and no file is given for it.
fn lacking_if<'a>(
    alloc: Global,
    sought: &Sought<'a>,
    name: &'a Name,
    stream: u32,
    room: usize,
) -> Result<Option<Lacking<'a>>, AllocError>
    requires { slice_get (scoped_inputs sought.now.scoped.now) stream ≡ Some name.now }
    ensures few { IfOk result (λ found. length (option_to_list found) ≤ room) }
    ensures first { IfOk result (λ found. (names : List (List ℕ)) (those : List Told)
        → AreFirst sought.now.scoped.now sought.now.given.now sought.now.end (room - length (option_to_list found)) (stream + 1) names those
        → AreFirst sought.now.scoped.now sought.now.given.now sought.now.end room stream (name.entry.now ∷ names) (option_to_list found ++ those)) }
{
    if room == 0 {
        return Ok(None);
    }
    if is_given(sought.given, name) {
        return Ok(None);
    }
    match lacking_of(alloc, sought, name, stream)? {
        Some(lacking) => Ok(Some(lacking)),
        None => Ok(None),
    }
}

// Adds an input, where there is one.
fn add_lacking<'a>(
    those: &mut Vec<Lacking<'a>>,
    lacking: Option<Lacking<'a>>,
) -> Result<(), AllocError>
    ensures { OnOk result (those.new.items ≡ those.old.items ++ option_to_list lacking.entry) }
{
    match lacking {
        Some(lacking) => {
            those.push(lacking)?;
            Ok(())
        }
        None => Ok(()),
    }
}

/// The inputs that are sought, or the first six of them.
pub(crate) fn all_lacking<'a>(
    alloc: Global,
    sought: &Sought<'a>,
) -> Result<Vec<Lacking<'a>>, AllocError>
    requires { length (scoped_inputs sought.now.scoped.now) ≤ most_source_bytes }
    ensures { IfOk result (λ those. AreLacking sought.now.scoped.now sought.now.given.now sought.now.end those.items) }
{
    let mut those = Vec::new(alloc);
    let mut stream = 0;
    for name in sought.scoped.inputs() {
        let room = MOST_TOLD - those.len();
        let lacking = lacking_if(alloc, sought, name, stream, room)?;
        add_lacking(&mut those, lacking)?;
        stream += 1;
    }
    Ok(those)
}

// Appends a definition whose name is near, or else the other text.
fn put_near(
    text: &mut Vec<u8>,
    source: &[u8],
    other: &[u8],
    near: Option<&Def>,
) -> Result<(), AllocError>
    requires { length source.now ≤ most_source_bytes }
    ensures { OnOk result (text.new.items ≡ text.old.items ++ near_text source.now other.now near.entry) }
{
    match near {
        Some(def) => {
            text.extend_from_slice(b"It may be misspelt: ")?;
            put_definition(text, source, def)
        }
        None => text.extend_from_slice(other),
    }
}

// Appends how a name is meant that may be misspelt, or else the other text.
#[tactic(auto, unfolding(crate::specs::Inputs::spelled_text))]
fn put_spelled(
    text: &mut Vec<u8>,
    source: &[u8],
    other: &[u8],
    lacking: &Lacking<'_>,
) -> Result<(), AllocError>
    requires { length source.now ≤ most_source_bytes }
    ensures { OnOk result (text.new.items ≡ text.old.items ++ spelled_text source.now other.now lacking.now) }
{
    if lacking.is_capital {
        return text.extend_from_slice(
            b"It may be misspelt: reserved words have small letters, as `true`.\n",
        );
    }
    put_near(text, source, other, lacking.near)
}

// Appends a definition that isn't in scope.
fn put_outside(text: &mut Vec<u8>, source: &[u8], def: &Def) -> Result<(), AllocError>
    requires { length source.now ≤ most_source_bytes }
    ensures { OnOk result (text.new.items ≡ text.old.items ++ outside_text source.now def.now) }
{
    text.extend_from_slice(
        b"A name is in scope in the block that defines it, and a parameter in the right side of its function. The right side of `is current` stands outside the block: what it names is defined there, behind a `where` of its own. ",
    )?;
    put_definition(text, source, def)
}

// Appends the definition that gives the name of an input out of scope, where there is one, or else what may be meant.
fn put_elsewhere(
    text: &mut Vec<u8>,
    source: &[u8],
    other: &[u8],
    lacking: &Lacking<'_>,
    elsewhere: Option<&Def>,
) -> Result<(), AllocError>
    requires { length source.now ≤ most_source_bytes }
    ensures { OnOk result (text.new.items ≡ text.old.items ++ elsewhere_text source.now other.now lacking.now elsewhere.entry) }
{
    match elsewhere {
        Some(def) => put_outside(text, source, def),
        None => put_spelled(text, source, other, lacking),
    }
}

/// Appends what may be meant by the name of an input, or else the other text.
#[tactic(auto, unfolding(crate::specs::Inputs::meant_text))]
pub(crate) fn put_meant(
    text: &mut Vec<u8>,
    source: &[u8],
    other: &[u8],
    lacking: &Lacking<'_>,
) -> Result<(), AllocError>
    requires { length source.now ≤ most_source_bytes }
    ensures { OnOk result (text.new.items ≡ text.old.items ++ meant_text source.now other.now lacking.now) }
{
    put_elsewhere(text, source, other, lacking, lacking.elsewhere)
}

// Appends the name of an input, and where it stands first.
fn put_stands(text: &mut Vec<u8>, source: &[u8], name: &Name, at: u32) -> Result<(), AllocError>
    requires { length source.now ≤ most_source_bytes }
    ensures { OnOk result (text.new.items ≡ text.old.items ++ (name_text name.now ++ first_text source.now (min (length source.now) at))) }
{
    put_name(text, name.bytes())?;
    let at = source.len().min(at as usize);
    put_where(text, b" stands first in line ", source, at)
}

// Appends what is said of an input.
fn put_lacking(text: &mut Vec<u8>, source: &[u8], lacking: &Lacking<'_>) -> Result<(), AllocError>
    requires { length source.now ≤ most_source_bytes }
    ensures { OnOk result (text.new.items ≡ text.old.items ++ lacking_text source.now lacking.now) }
{
    put_stands(text, source, lacking.name, lacking.at)?;
    put_meant(text, source, b"", lacking)
}

// Appends the words that give files.
fn put_words(text: &mut Vec<u8>, those: &[Lacking<'_>]) -> Result<(), AllocError>
    ensures { OnOk result (text.new.items ≡ text.old.items ++ flat_map word_text those.now) }
{
    for lacking in those {
        text.extend_from_slice(b" ")?;
        put_name(text, lacking.name.bytes())?;
        text.extend_from_slice(b"=FILE")?;
    }
    Ok(())
}

// Appends what is said of each.
fn put_all(text: &mut Vec<u8>, source: &[u8], those: &[Lacking<'_>]) -> Result<(), AllocError>
    requires { length source.now ≤ most_source_bytes }
    ensures { OnOk result (text.new.items ≡ text.old.items ++ flat_map (lacking_text source.now) those.now) }
{
    for lacking in those {
        put_lacking(text, source, lacking)?;
    }
    Ok(())
}

// Appends what is said of inputs without a file.
fn put_inputs(text: &mut Vec<u8>, source: &[u8], those: &[Lacking<'_>]) -> Result<(), AllocError>
    requires { length source.now ≤ most_source_bytes }
    ensures { OnOk result (text.new.items ≡ text.old.items ++ inputs_text source.now those.now) }
{
    text.extend_from_slice(
        b"A name that nothing defines is an input. One of them may be read from the standard input; give each other a file:",
    )?;
    put_words(text, those)?;
    text.extend_from_slice(b"\n")?;
    put_all(text, source, those)?;
    text.extend_from_slice(b"If a word is meant, it stands between two \", as in \"red\".\n")
}

// What is said of the inputs of a source by what its names belong to.
fn text_of(
    alloc: Global,
    source: &[u8],
    scoped: &Scoped,
    given: &[Name],
) -> Result<Vec<u8>, AllocError>
    requires short { length source.now ≤ most_source_bytes }
    requires program { IsProgram source.now (scoped_tree scoped.now) }
    requires few { length (scoped_inputs scoped.now) ≤ most_source_bytes }
    ensures { IfOk result (λ text. TellsInputs source.now given.now text.items) }
{
    let sought = Sought {
        scoped,
        given,
        end: source.len() as u32,
    };
    let those = all_lacking(alloc, &sought)?;
    let mut text = Vec::new(alloc);
    put_inputs(&mut text, source, &those)?;
    Ok(text)
}

/// What is said of the inputs of a source for which no file is given: their names, where they stand first, and the words that give files.
/// Nothing of a source that is refused.
pub fn explain_inputs(alloc: Global, source: &[u8], given: &[Name]) -> Result<Vec<u8>, AllocError>
    ensures { IfOk result (λ text. TellsInputs source.now given.now text.items) }
{
    match scoped_of(alloc, source)? {
        Some(scoped) => text_of(alloc, source, &scoped, given),
        None => Ok(Vec::new(alloc)),
    }
}

// Appends inputs as those of a program.
fn put_named(text: &mut Vec<u8>, source: &[u8], those: &[Lacking<'_>]) -> Result<(), AllocError>
    requires { length source.now ≤ most_source_bytes }
    ensures { OnOk result (text.new.items ≡ text.old.items ++ named_text source.now those.now) }
{
    text.extend_from_slice(b"The inputs of the program:\n")?;
    put_all(text, source, those)
}

// Appends the inputs of a program, or that there is none.
fn put_free(text: &mut Vec<u8>, source: &[u8], those: &[Lacking<'_>]) -> Result<(), AllocError>
    requires { length source.now ≤ most_source_bytes }
    ensures { OnOk result (text.new.items ≡ text.old.items ++ free_text source.now those.now) }
{
    if those.is_empty() {
        text.extend_from_slice(b"The program has no input.\n")
    } else {
        put_named(text, source, those)
    }
}

// What is said of all inputs of a source by what its names belong to.
fn text_of_free(alloc: Global, source: &[u8], scoped: &Scoped) -> Result<Vec<u8>, AllocError>
    requires short { length source.now ≤ most_source_bytes }
    requires program { IsProgram source.now (scoped_tree scoped.now) }
    requires few { length (scoped_inputs scoped.now) ≤ most_source_bytes }
    ensures { IfOk result (λ text. TellsFree source.now text.items) }
{
    let sought = Sought {
        scoped,
        given: &[],
        end: source.len() as u32,
    };
    let those = all_lacking(alloc, &sought)?;
    let mut text = Vec::new(alloc);
    put_free(&mut text, source, &those)?;
    Ok(text)
}

/// The inputs of a source, at most six, and where each stands first. Nothing of a source that is refused.
pub fn explain_free(alloc: Global, source: &[u8]) -> Result<Vec<u8>, AllocError>
    ensures { IfOk result (λ text. TellsFree source.now text.items) }
{
    match scoped_of(alloc, source)? {
        Some(scoped) => text_of_free(alloc, source, &scoped),
        None => Ok(Vec::new(alloc)),
    }
}
