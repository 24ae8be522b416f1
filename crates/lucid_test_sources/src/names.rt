//! What the names of sources belong to. Each row is worked out by hand from the rules of scopes.
use crate::told::must;
use crate::tree::tree_of;
use lucid_scope::{Binding, ScopeRefusal, Scoped, resolve_owned};
use std::alloc::{AllocError, Global};
use std::test::Fail;

/// A source, and as text what its names belong to, with the inputs, or the fault. So `4 plain 12` says that the name at byte 4 is
/// the plain name that is defined at byte 12.
type Row = (&'static str, &'static str);

// The place of a name and what the name belongs to: the kind and the numbers of the binding.
fn tell(text: &mut String, at: u32, binding: Binding) -> Result<(), AllocError> {
    match binding {
        Binding::Plain { def } => write!(text, "{at} plain {def}; "),
        Binding::Parameter { def, index } => write!(text, "{at} parameter {def} {index}; "),
        Binding::Current { def } => write!(text, "{at} current {def}; "),
        Binding::Function { def } => write!(text, "{at} function {def}; "),
        Binding::Input { stream } => write!(text, "{at} input {stream}; "),
    }
}

// Each name with a place below the end, in order.
fn bindings(alloc: Global, scoped: &Scoped, end: u32) -> Result<String, AllocError> {
    let mut text = String::new(alloc);
    for at in 0..end {
        if let Some(binding) = scoped.binding(at) {
            tell(&mut text, at, binding)?;
        }
    }
    Ok(text)
}

// Each name, and then the inputs.
fn names(alloc: Global, scoped: &Scoped, end: u32) -> Result<String, Fail> {
    let mut text = bindings(alloc, scoped, end)?;
    text.push_str("inputs")?;
    for name in scoped.inputs() {
        text.push(' ')?;
        text.push_str(str::from_utf8(name.bytes())?)?;
    }
    Ok(text)
}

// The names of a source are resolved.
fn scoped(alloc: Global, source: &[u8]) -> Result<Result<Scoped, ScopeRefusal>, Fail> {
    Ok(resolve_owned(alloc, tree_of(alloc, source)?))
}

// What the names of a source belong to, or the fault.
fn resolved(alloc: Global, source: &[u8]) -> Result<String, Fail> {
    let end = u32::try_from(source.len())?;
    match scoped(alloc, source)? {
        Ok(scoped) => names(alloc, &scoped, end),
        Err(refusal) => Ok(refusal.to_string(alloc)?),
    }
}

fn resolves_so(alloc: Global, source: &str, expected: &str) -> Result<bool, Fail> {
    Ok(resolved(alloc, source.as_bytes())?.as_str() == expected)
}

fn each_resolves(alloc: Global, rows: &[Row]) -> Result<(), Fail> {
    for (source, expected) in rows {
        must(resolves_so(alloc, source, expected)?, source)?;
    }
    Ok(())
}

// Blocks one in another and side by side: the innermost definition of a name hides those outside.
static NESTED: [Row; 18] = [
    ("b + a + b", "0 input 0; 4 input 1; 8 input 0; inputs b a"),
    ("x where x = y; end", "0 plain 8; 12 input 0; inputs y"),
    ("x where x = x; end", "0 plain 8; 12 plain 8; inputs"),
    (
        "x where x = y; y = x; end",
        "0 plain 8; 12 plain 15; 19 plain 8; inputs",
    ),
    (
        "x where y = 1; x = y; end",
        "0 plain 15; 19 plain 8; inputs",
    ),
    ("x where end", "0 input 0; inputs x"),
    ("x where end where x = 1; end", "0 plain 18; inputs"),
    ("x where x = 1; end where x = 2; end", "0 plain 8; inputs"),
    (
        "x where y = 1; end where x = y; end",
        "0 plain 25; 29 input 0; inputs y",
    ),
    (
        "x where x = x where x = 1; end; end",
        "0 plain 8; 12 plain 20; inputs",
    ),
    (
        "(x where x = 1; end) + x",
        "1 plain 9; 23 input 0; inputs x",
    ),
    (
        "x + (x where x = 1; end) where x = 2; end",
        "0 plain 31; 5 plain 13; inputs",
    ),
    (
        "x where x = (y where y = x; end) + y; end",
        "0 plain 8; 13 plain 21; 25 plain 8; 35 input 0; inputs y",
    ),
    (
        "x + y where x = z where z = 1; end; y = z; end",
        "0 plain 12; 4 plain 36; 16 plain 24; 40 input 0; inputs z",
    ),
    (
        "x where x = y where y = x where x = y; end; end; end",
        "0 plain 8; 12 plain 20; 24 plain 32; 36 plain 20; inputs",
    ),
    (
        "x where x = y where y = x where z = y; end; end; end",
        "0 plain 8; 12 plain 20; 24 plain 8; 36 plain 20; inputs",
    ),
    (
        "c + a where a = b + c; end",
        "0 input 0; 4 plain 12; 16 input 1; 20 input 0; inputs c b",
    ),
    (
        "if a then b else c fi fby nth(l, i) asa a",
        "3 input 0; 10 input 1; 17 input 2; 30 input 3; 33 input 4; 40 input 0; inputs a b c l i",
    ),
];

// Parameters are seen in their function's right side alone, where they hide outer names.
static FUNCTIONS: [Row; 18] = [
    (
        "f(1) where f(x) = x; end",
        "0 function 11; 18 parameter 11 0; inputs",
    ),
    (
        "f(1, 2) where f(x, y) = y - x; end",
        "0 function 14; 24 parameter 14 1; 28 parameter 14 0; inputs",
    ),
    (
        "f(x) where f(x) = x; x = 1; end",
        "0 function 11; 2 plain 21; 18 parameter 11 0; inputs",
    ),
    (
        "f(x) where f(x) = x; end",
        "0 function 11; 2 input 0; 18 parameter 11 0; inputs x",
    ),
    (
        "f(1) + x where f(y) = y; x = y; end",
        "0 function 15; 7 plain 25; 22 parameter 15 0; 29 input 0; inputs y",
    ),
    (
        "f(1) where f(x) = x + y; y = x; end",
        "0 function 11; 18 parameter 11 0; 22 plain 25; 29 input 0; inputs x",
    ),
    (
        "f(1) where f(f) = f; end",
        "0 function 11; 18 parameter 11 0; inputs",
    ),
    (
        "f(5) where f(n) = if n < 1 then 0 else f(n - 1) fi; end",
        "0 function 11; 21 parameter 11 0; 39 function 11; 41 parameter 11 0; inputs",
    ),
    (
        "f(g(1)) where f(x) = x; g(x) = f(x); end",
        "0 function 14; 2 function 24; 21 parameter 14 0; 31 function 14; 33 parameter 24 0; inputs",
    ),
    (
        "f(y) where f(x) = x; y = f(y); end",
        "0 function 11; 2 plain 21; 18 parameter 11 0; 25 function 11; 27 plain 21; inputs",
    ),
    (
        "f(1) where f(x) = g(x) where g(y) = x + y; end; end",
        "0 function 11; 18 function 29; 20 parameter 11 0; 36 parameter 11 0; 40 parameter 29 0; inputs",
    ),
    (
        "f(1) where f(x) = g(x) where g(x) = x; end; end",
        "0 function 11; 18 function 29; 20 parameter 11 0; 36 parameter 29 0; inputs",
    ),
    (
        "f(1) where f(x) = x where x = 2; end; end",
        "0 function 11; 18 plain 26; inputs",
    ),
    (
        "f(1) where f(x) = y where y = x; end; end",
        "0 function 11; 18 plain 26; 30 parameter 11 0; inputs",
    ),
    (
        "f(1) where f(x) = f(x, 2) where f(a, b) = b; end; end",
        "0 function 11; 18 function 32; 20 parameter 11 0; 42 parameter 32 1; inputs",
    ),
    (
        "f(1) where f(x) = f where f = x; end; end",
        "0 function 11; 18 plain 26; 30 parameter 11 0; inputs",
    ),
    (
        "x where x = f(x) where f(y) = x + y; end; end",
        "0 plain 8; 12 function 23; 14 plain 8; 30 plain 8; 34 parameter 23 0; inputs",
    ),
    (
        "f(x where x = 1; end) where f(x) = x; end",
        "0 function 28; 2 plain 10; 35 parameter 28 0; inputs",
    ),
];

// The right side of a current name stands outside the block of its definition.
static CURRENTS: [Row; 15] = [
    (
        "x where x is current y; end",
        "0 current 8; 21 input 0; inputs y",
    ),
    (
        "x where x is current x; end",
        "0 current 8; 21 input 0; inputs x",
    ),
    (
        "x where x is current x; end where x = 1; end",
        "0 current 8; 21 plain 34; inputs",
    ),
    (
        "x + y where x is current y; y = 1; end",
        "0 current 12; 4 plain 28; 25 input 0; inputs y",
    ),
    (
        "y where y = x + 1; x is current 2; end",
        "0 plain 8; 12 current 19; inputs",
    ),
    (
        "x where x is current y where y = x; end; end",
        "0 current 8; 21 plain 29; 33 input 0; inputs x",
    ),
    (
        "x where x is current x where x is current x; end; end",
        "0 current 8; 21 current 29; 42 input 0; inputs x",
    ),
    (
        "x where x is current 1; end where x is current 2; end",
        "0 current 8; inputs",
    ),
    (
        "x where x = y where y is current x; end; end",
        "0 plain 8; 12 current 20; 33 plain 8; inputs",
    ),
    (
        "f(1) where f(n) = n where n is current n; end; end",
        "0 function 11; 18 current 26; 39 parameter 11 0; inputs",
    ),
    (
        "f(1) where f(a) = a + n; n is current m; m = 2; end",
        "0 function 11; 18 parameter 11 0; 22 current 25; 38 input 0; inputs m",
    ),
    (
        "n where n is current f(n); end where f(x) = x; n = 1; end",
        "0 current 8; 21 function 37; 23 plain 47; 44 parameter 37 0; inputs",
    ),
    (
        "f(n) where f(n) = n; n is current n; end",
        "0 function 11; 2 current 21; 18 parameter 11 0; 34 input 0; inputs n",
    ),
    (
        "x + p where y = q; x is current r; end",
        "0 current 19; 4 input 0; 16 input 1; 32 input 2; inputs p q r",
    ),
    (
        "x where x is current y; y is current x; end",
        "0 current 8; 21 input 0; 37 input 1; inputs y x",
    ),
];

// Names that are no functions or functions of other numbers of arguments, and names that are defined twice.
static FAULTS: [Row; 12] = [
    ("f(1)", "no such function at 0"),
    ("f(1) where f = 2; end", "not a function at 0"),
    ("f where f(x) = x; end", "function without arguments at 0"),
    (
        "f(1, 2) where f(x) = x; end",
        "wrong number of arguments at 0: 1 wanted, 2 given",
    ),
    ("x where x = 1; x = 2; end", "defined twice at 15"),
    ("x where x = 1; x = 2; x = 3; end", "defined twice at 15"),
    ("x where x is current 1; x = 2; end", "defined twice at 24"),
    ("x where x = 1; x(y) = y; end", "defined twice at 15"),
    ("f(1) where f(x) = x; f = 2; end", "defined twice at 21"),
    ("f(1) where f = 2; f(x) = x; end", "not a function at 0"),
    ("f(1, 2) where f(x, x) = x; end", "defined twice at 19"),
    (
        "f(1, 2, 3) where f(x, y, x) = f; end",
        "defined twice at 25",
    ),
];

// Faults inside blocks and arguments, and the least of several.
static MORE_FAULTS: [Row; 12] = [
    ("x(1) where x is current 1; end", "not a function at 0"),
    ("f(1) where f(x) = x(1); end", "not a function at 18"),
    ("x(1) where f(x) = x; end", "no such function at 0"),
    (
        "f(1) where f(x) = f(x) where f = 2; end; end",
        "not a function at 18",
    ),
    (
        "f(1) where f(x) = f(x) where f(a, b) = a; end; end",
        "wrong number of arguments at 18: 2 wanted, 1 given",
    ),
    (
        "n where n is current f(1); f(x) = x; end",
        "no such function at 21",
    ),
    (
        "f(f) where f(x) = x; end",
        "function without arguments at 2",
    ),
    (
        "n where n is current n; end where n(x) = x; end",
        "function without arguments at 21",
    ),
    (
        "f(1, f) where f(x) = x; end",
        "wrong number of arguments at 0: 1 wanted, 2 given",
    ),
    (
        "f where x is current g(1); f(y) = y; end",
        "function without arguments at 0",
    ),
    ("x where x = h(1); x = 2; end", "no such function at 12"),
    (
        "x where y = 1; y = f(1); x is current f(1); end",
        "defined twice at 15",
    ),
];

// The head of 390 blocks one in another, each in the right side of a definition.
fn heads(alloc: Global) -> Result<String, AllocError> {
    let mut source = String::from_str(alloc, "x where x = 1; y = ")?;
    for _ in 0..388 {
        source.push_str("x where y = ")?;
    }
    source.push_str("x where ")?;
    Ok(source)
}

// The innermost block has 100,000 definitions, and in each stands a name of the outermost one. The source, and the place of the last of them.
fn deep_source(alloc: Global) -> Result<(String, u32), Fail> {
    let mut source = heads(alloc)?;
    for i in 0..100_000 {
        write!(source, "v{i}=x;")?;
    }
    let last = u32::try_from(source.len().saturating_sub(2))?;
    source.push_str("end")?;
    source.push_str(&"; end".repeat(alloc, 389)?)?;
    Ok((source, last))
}

// Whether the name at that place is the outermost one, and there is no input.
fn is_the_outermost(scoped: &Scoped, last: u32) -> bool {
    scoped.binding(last) == Some(Binding::Plain { def: 8 }) && scoped.inputs().is_empty()
}

fn resolves_to_the_outermost(alloc: Global, source: &[u8], last: u32) -> Result<bool, Fail> {
    match scoped(alloc, source)? {
        Ok(scoped) => Ok(is_the_outermost(&scoped, last)),
        Err(_) => Ok(false),
    }
}

fn finds_the_outermost(alloc: Global) -> Result<bool, Fail> {
    let (source, last) = deep_source(alloc)?;
    resolves_to_the_outermost(alloc, source.as_bytes(), last)
}

#[test]
fn names_are_resolved(rt: HostRuntime) -> Result<(), Fail> {
    let alloc = rt.alloc();
    each_resolves(alloc, &NESTED)?;
    each_resolves(alloc, &FUNCTIONS)?;
    each_resolves(alloc, &CURRENTS)?;
    each_resolves(alloc, &FAULTS)?;
    each_resolves(alloc, &MORE_FAULTS)?;
    must(
        finds_the_outermost(alloc)?,
        "many definitions in deep blocks",
    )
}
