//! What is said of a tree whose names are refused.
ghost use Rattle.std.specs.Prelude.{◌≡◌, ◌≤◌, ◌∷◌, ◌++◌, List, Bool, find, length, IfOk, OnOk};
ghost use Rattle.std.specs.Option.{option_copied};
ghost use Rattle.std.specs.List.{list_any, prefix_len};
ghost use Rattle.lucid_value.specs.Plain.{same_bytes};
ghost use Rattle.lucid_value.specs.Names.{is_name_byte};
ghost use Rattle.lucid_value.specs.Reading.{is_blank};
ghost use Rattle.lucid_tree.specs.declared.tree.Def.{Def as PlainDef};
ghost use Rattle.lucid_scan.specs.Refusals.{most_source_bytes};
ghost use Rattle.lucid_explain_source.specs.Names.{name_front, name_at, is_function, is_plain, fits, told_text, advised_text, heads, is_before, headed, has_parameter, is_parameter, twice_advice, parameter_advice, found_text, again_text, twice_text, is_printing, is_length, made_advice, foreign_advice, called_advice, no_function_text, not_function_text, past_name, past_blanks, is_handed, is_function_text, refusal_at, said_text, names_text};
ghost use Rattle.lucid_explain_source.specs.Scopes.{lent};

use crate::characters::begins;
use crate::definitions::put_definition;
use crate::scopes::{find_in_scope, is_headed};
use lucid_explain_places::{is_capital, put_place};
use lucid_scope::ScopeRefusal;
use lucid_tree::{Def, DefKind, Tree};
use lucid_value::{Name, is_blank, is_name_byte};
use std::alloc::{AllocError, Global};

/// The most definitions that are told.
pub(crate) const MOST_TOLD: usize = 6;

const PARAMETER: &[u8] = b"A list of parameters has each name once.\n";

const NOT_FUNCTION: &[u8] =
    b"What this name stands for here has no parameters: write it without arguments. The value of n at time 3 is `n attime 3`, and a product is written with `*`, as in `n * (n + 1)`.\n";

const CALLED_PARAMETER: &[u8] =
    b"What this name stands for here has no parameters. A parameter is a stream, and a function can't be handed over: call one by its own name, as `square(square(n))`. The value of n at time 3 is `n attime 3`, and a product is written with `*`, as in `n * (n + 1)`.\n";

/// Which definitions are told.
#[derive(Clone, Copy)]
pub(crate) enum Wanted {
    /// The functions.
    Functions,
    /// Those of plain names, which may be columns.
    Columns,
    /// Those of the name.
    Named,
    /// Those of the name that are no functions.
    Plainly,
}

/// What is advised at a place, and which definitions are told behind it, at most so many.
#[derive(Clone, Copy)]
pub(crate) struct Advice {
    pub(crate) says: &'static [u8],
    pub(crate) wanted: Wanted,
    pub(crate) most: usize,
}

const NO_PARAMETERS: Advice = Advice {
    says: NOT_FUNCTION,
    wanted: Wanted::Plainly,
    most: 1,
};

const IS_FUNCTION: Advice = Advice {
    says: b"This is a function: its arguments stand behind it in parentheses. A function is no value: it can't be an argument itself.\n",
    wanted: Wanted::Named,
    most: 1,
};

const HANDED: Advice = Advice {
    says: b"A function can't be an argument: write the calls out, as `square(square(n))`. Where its value is meant, its own arguments stand behind it in parentheses.\n",
    wanted: Wanted::Named,
    most: 1,
};

const ARITY: Advice = Advice {
    says: b"A call has as many arguments as the function has parameters.\n",
    wanted: Wanted::Named,
    most: 1,
};

// How many bytes of a name stand at the beginning.
fn len_of_name(rest: &[u8]) -> usize
    ensures value { result ≡ prefix_len is_name_byte rest.now }
    ensures within { result ≤ length rest.now }
{
    rest.iter().take_while(|byte| is_name_byte(**byte)).count()
}

/// The bytes of a name with which the rest of a source begins.
pub fn name_front(rest: &[u8]) -> &[u8]
    ensures value { result.now ≡ name_front rest.entry.now }
    ensures within { length result.now ≤ length rest.entry.now }
{
    &rest[..len_of_name(rest)]
}

// The name at the place.
fn name_at(source: &[u8], at: u32) -> &[u8]
    ensures { result.now ≡ name_at source.now at }
{
    name_front(&source[source.len().min(at as usize)..])
}

fn is_function(kind: &DefKind) -> bool
    ensures { result ≡ is_function kind.now }
{
    match kind {
        DefKind::Function { .. } => true,
        DefKind::Plain { .. } | DefKind::Current { .. } => false,
    }
}

fn is_plain(kind: &DefKind) -> bool
    ensures { result ≡ is_plain kind.now }
{
    match kind {
        DefKind::Plain { .. } => true,
        DefKind::Function { .. } | DefKind::Current { .. } => false,
    }
}

// Whether the definition is told.
fn fits(wanted: Wanted, name: &[u8], def: &Def) -> bool
    ensures { result ≡ fits wanted name.now def.now }
{
    match wanted {
        Wanted::Functions => is_function(&def.kind),
        Wanted::Columns => is_plain(&def.kind),
        Wanted::Named => def.name.bytes() == name,
        Wanted::Plainly => def.name.bytes() == name && !is_function(&def.kind),
    }
}

// Appends the definition, where it is told and there is room; and answers how much room is left.
fn put_one(
    text: &mut Vec<u8>,
    source: &[u8],
    def: &Def,
    is_told: bool,
    room: usize,
) -> Result<usize, AllocError>
    requires { length source.now ≤ most_source_bytes }
    ensures { IfOk result (λ left. (fit : PlainDef → Bool) (rest : List PlainDef) → fit def.now ≡ is_told
        → text.new.items ++ told_text source.now fit left rest ≡ text.old.items ++ told_text source.now fit room (def.now ∷ rest)) }
{
    if room > 0 && is_told {
        put_definition(text, source, def)?;
        Ok(room - 1)
    } else {
        Ok(room)
    }
}

// Appends the first of the definitions that are told with an advice at a place.
fn put_told(
    text: &mut Vec<u8>,
    source: &[u8],
    defs: &[&Def],
    at: u32,
    advice: &Advice,
) -> Result<(), AllocError>
    requires { length source.now ≤ most_source_bytes }
    ensures { OnOk result (text.new.items ≡ text.old.items ++ told_text source.now (fits advice.now.wanted (name_at source.now at)) advice.now.most (lent defs.now)) }
{
    let name = name_at(source, at);
    let mut room = advice.most;
    for def in defs {
        room = put_one(text, source, def, fits(advice.wanted, name, def), room)?;
    }
    Ok(())
}

/// Appends an advice at a place, and the first of the definitions that are told with it.
pub(crate) fn put_advised(
    text: &mut Vec<u8>,
    source: &[u8],
    defs: &[&Def],
    at: u32,
    advice: &Advice,
) -> Result<(), AllocError>
    requires { length source.now ≤ most_source_bytes }
    ensures { OnOk result (text.new.items ≡ text.old.items ++ advised_text source.now (lent defs.now) at advice.now.says.now advice.now.wanted advice.now.most) }
{
    text.extend_from_slice(advice.says)?;
    put_told(text, source, defs, at, advice)
}

// The definitions whose own name stands at the place.
fn heads<'a>(alloc: Global, defs: &[&'a Def], at: u32) -> Result<Vec<&'a Def>, AllocError>
    ensures { IfOk result (λ those. lent those.items ≡ heads at (lent defs.now)) }
{
    let mut those = Vec::new(alloc);
    for def in defs {
        if def.at == at {
            those.push(*def)?;
        }
    }
    Ok(those)
}

// Whether one of these has the name.
fn has_name(these: &[&Def], name: &[u8]) -> bool
    ensures { result ≡ list_any (λ other. same_bytes other.name name.now) (lent these.now) }
{
    for other in these {
        if other.name.bytes() == name {
            return true;
        }
    }
    false
}

// Whether the definition stands before the place, and one of these has its name too.
fn is_before(these: &[&Def], at: u32, def: &Def) -> bool
    ensures { result ≡ is_before at (lent these.now) def.now }
{
    def.at < at && has_name(these, def.name.bytes())
}

// The first that stands before the place, of a name that one of these has too.
fn find_before<'a>(defs: &[&'a Def], these: &[&Def], at: u32) -> Option<&'a Def>
    ensures { option_copied result ≡ find (is_before at (lent these.now)) (lent defs.now) }
{
    for def in defs {
        if is_before(these, at, def) {
            return Some(*def);
        }
    }
    None
}

// The first whose own name, or a parameter of which, stands at the place.
fn headed<'a>(defs: &[&'a Def], at: u32) -> Option<&'a Def>
    ensures { option_copied result ≡ headed at (lent defs.now) }
{
    for def in defs {
        if is_headed(def, at) {
            return Some(*def);
        }
    }
    None
}

// Appends a definition, where one was found.
fn put_found(text: &mut Vec<u8>, source: &[u8], found: Option<&Def>) -> Result<(), AllocError>
    requires { length source.now ≤ most_source_bytes }
    ensures { OnOk result (text.new.items ≡ text.old.items ++ found_text source.now (option_copied found.entry)) }
{
    match found {
        Some(def) => put_definition(text, source, def),
        None => Ok(()),
    }
}

// Appends that a name stands again among the parameters of a function.
fn put_among(text: &mut Vec<u8>, source: &[u8], among: Option<&Def>) -> Result<(), AllocError>
    requires { length source.now ≤ most_source_bytes }
    ensures { OnOk result (text.new.items ≡ text.old.items ++ (parameter_advice ++ found_text source.now (option_copied among.entry))) }
{
    text.extend_from_slice(PARAMETER)?;
    put_found(text, source, among)
}

// What is said of a second definition of a name.
#[tactic(auto, unfolding(crate::specs::Names::twice_advice))]
fn twice_advice() -> &'static [u8]
    ensures { result.now ≡ twice_advice }
{
    b"A block defines a name once, for all times, as in `n = 0 fby n + 1;`. Before this place stands another definition of it:\n"
}

// Appends that a name stands again: behind the definition of it that stands before, or among the parameters of a function.
fn put_again(
    text: &mut Vec<u8>,
    source: &[u8],
    before: Option<&Def>,
    among: Option<&Def>,
) -> Result<(), AllocError>
    requires { length source.now ≤ most_source_bytes }
    ensures { OnOk result (text.new.items ≡ text.old.items ++ again_text source.now (option_copied before.entry) (option_copied among.entry)) }
{
    match before {
        Some(def) => {
            text.extend_from_slice(twice_advice())?;
            put_definition(text, source, def)
        }
        None => put_among(text, source, among),
    }
}

// Appends what is said of a place at which a name stands again.
fn put_twice(
    alloc: Global,
    text: &mut Vec<u8>,
    source: &[u8],
    defs: &[&Def],
    at: u32,
) -> Result<(), AllocError>
    requires { length source.now ≤ most_source_bytes }
    ensures { OnOk result (text.new.items ≡ text.old.items ++ twice_text source.now (lent defs.now) at) }
{
    let those = heads(alloc, defs, at)?;
    put_again(
        text,
        source,
        find_before(defs, &those, at),
        headed(defs, at),
    )
}

// Whether the name is one of these.
fn is_among(name: &[u8], names: &[Name]) -> bool
    ensures { result ≡ list_any (λ n. same_bytes n name.now) names.now }
{
    for other in names {
        if other.bytes() == name {
            return true;
        }
    }
    false
}

/// Whether the definition is a function with a parameter of the name.
pub fn has_parameter(kind: &DefKind, name: &[u8]) -> bool
    ensures { result ≡ has_parameter name.now kind.now }
{
    match kind {
        DefKind::Function { parameters, .. } => is_among(name, parameters.items()),
        DefKind::Plain { .. } | DefKind::Current { .. } => false,
    }
}

// Whether one of them is.
fn is_parameter(defs: &[&Def], name: &[u8]) -> bool
    ensures { result ≡ is_parameter name.now (lent defs.now) }
{
    for def in defs {
        if has_parameter(&def.kind, name) {
            return true;
        }
    }
    false
}

// Whether other languages print so.
fn is_printing(name: &[u8]) -> bool
    ensures { result ≡ is_printing name.now }
{
    name == b"print".as_slice()
        || name == b"println".as_slice()
        || name == b"printf".as_slice()
        || name == b"write".as_slice()
}

// Whether other languages ask so how many items a list has.
fn is_length(name: &[u8]) -> bool
    ensures { result ≡ is_length name.now }
{
    name == b"len".as_slice() || name == b"size".as_slice()
}

// What is said of the name of a function that isn't in scope, which makes a value in another language.
#[tactic(auto, unfolding(crate::specs::Names::made_advice))]
fn made_advice(name: &[u8]) -> &'static [u8]
    ensures { result.now ≡ made_advice name.now }
{
    if name == b"sum".as_slice() {
        b"No function of this name is in scope here. The sum of x so far is s, with `s = x fby s + next x;`.\n"
    } else if name == b"range".as_slice() {
        b"No function of this name is in scope here. 0, 1, 2, .. is n, with `n = 0 fby n + 1;`, and --count N says how many are written.\n"
    } else if name == b"str".as_slice() {
        b"No function of this name is in scope here. The string of an integer or a word x is `mkstring x`.\n"
    } else {
        b"No function of this name is in scope here: define it, or mend its spelling.\n"
    }
}

// What is said of the name of such a function, which another language may have.
#[tactic(auto, unfolding(crate::specs::Names::foreign_advice))]
fn foreign_advice(name: &[u8]) -> &'static [u8]
    ensures { result.now ≡ foreign_advice name.now }
{
    if is_printing(name) {
        b"No function of this name is in scope here. None is needed to print: a program writes the values of its subject, with which it begins.\n"
    } else if is_length(name) {
        b"No function of this name is in scope here. How many items a list l has is `length l`.\n"
    } else {
        made_advice(name)
    }
}

// What is said of the name of such a function, which may be a reserved word but for capital letters.
fn called_advice(alloc: Global, name: &[u8]) -> Result<&'static [u8], AllocError>
    ensures { IfOk result (λ text. text.now ≡ called_advice name.now) }
{
    if is_capital(alloc, name)? {
        return Ok(
            b"Reserved words are spelled in small letters: `if n > 3 then 1 else 0 fi`, `n mod 2`, `next n`, `nth(l, 2)`.\n",
        );
    }
    Ok(foreign_advice(name))
}

// Appends what is said of a call of a function that isn't in scope.
fn put_no_function(
    alloc: Global,
    text: &mut Vec<u8>,
    source: &[u8],
    defs: &[&Def],
    at: u32,
) -> Result<(), AllocError>
    requires { length source.now ≤ most_source_bytes }
    ensures { OnOk result (text.new.items ≡ text.old.items ++ no_function_text source.now (lent defs.now) at) }
{
    let advice = Advice {
        says: called_advice(alloc, name_at(source, at))?,
        wanted: Wanted::Functions,
        most: MOST_TOLD,
    };
    put_advised(text, source, defs, at, &advice)
}

// Appends what is said of a call of what is no function.
fn put_not_function(
    text: &mut Vec<u8>,
    source: &[u8],
    defs: &[&Def],
    at: u32,
) -> Result<(), AllocError>
    requires { length source.now ≤ most_source_bytes }
    ensures { OnOk result (text.new.items ≡ text.old.items ++ not_function_text source.now (lent defs.now) at) }
{
    if is_parameter(defs, name_at(source, at)) {
        text.extend_from_slice(CALLED_PARAMETER)
    } else {
        put_advised(text, source, defs, at, &NO_PARAMETERS)
    }
}

// What stands behind a name with which the rest of a source begins.
fn past_name(rest: &[u8]) -> &[u8]
    ensures { result.now ≡ past_name rest.entry.now }
{
    &rest[len_of_name(rest)..]
}

// How many blanks stand at the beginning.
fn len_of_blanks(rest: &[u8]) -> usize
    ensures value { result ≡ prefix_len is_blank rest.now }
    ensures within { result ≤ length rest.now }
{
    rest.iter().take_while(|byte| is_blank(**byte)).count()
}

// What stands behind those.
fn past_blanks(rest: &[u8]) -> &[u8]
    ensures { result.now ≡ past_blanks rest.entry.now }
{
    &rest[len_of_blanks(rest)..]
}

// Whether the name with which the rest of a source begins may be an argument.
fn is_handed(rest: &[u8]) -> bool
    ensures { result ≡ is_handed rest.now }
{
    let behind = past_blanks(past_name(rest));
    begins(behind, b",") || begins(behind, b")")
}

// Appends what is said of the name of a function without arguments.
fn put_is_function(
    text: &mut Vec<u8>,
    source: &[u8],
    defs: &[&Def],
    at: u32,
) -> Result<(), AllocError>
    requires { length source.now ≤ most_source_bytes }
    ensures { OnOk result (text.new.items ≡ text.old.items ++ is_function_text source.now (lent defs.now) at) }
{
    if is_handed(&source[source.len().min(at as usize)..]) {
        put_advised(text, source, defs, at, &HANDED)
    } else {
        put_advised(text, source, defs, at, &IS_FUNCTION)
    }
}

// Appends what is said of a refusal, by the definitions in scope at its place.
fn put_said(
    alloc: Global,
    text: &mut Vec<u8>,
    source: &[u8],
    defs: &[&Def],
    refusal: &ScopeRefusal,
) -> Result<(), AllocError>
    requires { length source.now ≤ most_source_bytes }
    ensures { OnOk result (text.new.items ≡ text.old.items ++ said_text source.now (lent defs.now) refusal.now) }
{
    match refusal {
        ScopeRefusal::Twice { at } => put_twice(alloc, text, source, defs, *at),
        ScopeRefusal::NoFunction { at } => put_no_function(alloc, text, source, defs, *at),
        ScopeRefusal::NotFunction { at } => put_not_function(text, source, defs, *at),
        ScopeRefusal::IsFunction { at } => put_is_function(text, source, defs, *at),
        ScopeRefusal::Arity { at, .. } => put_advised(text, source, defs, *at, &ARITY),
        ScopeRefusal::NoMemory => Ok(()),
    }
}

// The place of a refusal.
fn place_of(refusal: &ScopeRefusal) -> u32
    ensures { result ≡ refusal_at refusal.now }
{
    match refusal {
        ScopeRefusal::Twice { at }
        | ScopeRefusal::NoFunction { at }
        | ScopeRefusal::NotFunction { at }
        | ScopeRefusal::IsFunction { at }
        | ScopeRefusal::Arity { at, .. } => *at,
        ScopeRefusal::NoMemory => 0,
    }
}

/// What is said of a tree whose names are refused: the place; what is wrong there; and the definition with which it is at odds, or the functions
/// in scope.
pub(crate) fn text_of_names(
    alloc: Global,
    file: &[u8],
    source: &[u8],
    tree: &Tree,
    refusal: &ScopeRefusal,
) -> Result<Vec<u8>, AllocError>
    requires { length source.now ≤ most_source_bytes }
    ensures { IfOk result (λ text. text.items ≡ names_text file.now source.now tree.now refusal.now) }
{
    let at = place_of(refusal);
    let mut defs = Vec::new(alloc);
    find_in_scope(&mut defs, tree, at)?;
    let mut text = Vec::new(alloc);
    put_place(&mut text, file, source, source.len().min(at as usize))?;
    put_said(alloc, &mut text, source, &defs, refusal)?;
    Ok(text)
}
