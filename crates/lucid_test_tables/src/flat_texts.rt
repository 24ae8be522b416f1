//! Texts that are tables' or certificates', the text of rows that are made by hand, and scopes that nest.
ghost use Rattle.std.specs.Prelude.{IfOk};
ghost use Rattle.lucid_flat.specs.FlatTables.{HasOneRoot};

use crate::told::{first_false, must, none_wrong};
use lucid_cert_rules::{read_why, show_why};
use lucid_equations::{
    Entry, NameRow, NameRows, Node, NodeRow, NodeRows, Numbers32, PlaceRow, PlaceRows, ScopeKind,
    ScopeRow, ScopeRows, Table,
};
use lucid_flat::{FlatRefusal, build, read_flat, show_flat};
use lucid_ops::Op;
use std::alloc::Global;
use std::test::Fail;

// Texts of tables, sound or not. In the first the one node is a constant, in the second a reference to a name that isn't there.
static TEXTS: [&str; 6] = [
    "lucid flat 1\nconst 1\nnode 0 const 0\nroot 0\n",
    "lucid flat 1\nconst 1\nnode 0 refer 0 0\nroot 0\n",
    "lucid flat 1\nroot 4294967295\n",
    "lucid flat 1\nscope 4294967295 frozen\ninput end_1\ninput end_1\nroot 0\n",
    "lucid flat 1\nplace 0 0\nplace 4294967295 4294967295 4294967295\nroot 0\n",
    "lucid flat 1\nconst -170141183460469231731687303715884105727\nconst true\nconst dog\nconst `it is'\nconst [% 1 [% %] %]\nconst eod\nconst error\nroot 0\n",
];

// Whether the table of a text has this text again.
fn is_shown_again(alloc: Global, text: &[u8]) -> Result<bool, Fail> {
    let table = read_flat(alloc, text)?;
    let mut again = Vec::new(alloc);
    show_flat(alloc, &table, &mut again)?;
    Ok(again.as_slice() == text)
}

// Texts of certificates, right or not.
static CERTIFICATES: [&str; 4] = [
    "j 0 0 0 0 0 5\n",
    "c 0 4294967295 0\nz 1 9223372036854775807\nj 7 2 9223372036854775807 0 0 [% 1 `a b' [% %] %]\nj 8 0 3 0 2 0 0 eod\n",
    "j 1 1 0 0 1 4294967295 error\n",
    "z 0 0\nj 0 9 0 0 0 `j 0'\n",
];

// The same of a certificate.
fn is_certificate_again(alloc: Global, text: &[u8]) -> Result<bool, Fail> {
    let why = read_why(alloc, text)?;
    let mut again = Vec::new(alloc);
    show_why(alloc, &why, &mut again)?;
    Ok(again.as_slice() == text)
}

#[test]
fn texts_are_shown_again(rt: HostRuntime) -> Result<(), Fail> {
    for text in &TEXTS {
        must(is_shown_again(rt.alloc(), text.as_bytes())?, text)?;
    }
    for text in &CERTIFICATES {
        must(is_certificate_again(rt.alloc(), text.as_bytes())?, text)?;
    }
    Ok(())
}

/// A node, and its words: the form, and the numbers in the order of the fields.
type NodeWords = (Node, &'static str);

static NODES: [NodeWords; 19] = [
    (Node::Const { constant: 1 }, "const 1"),
    (Node::Input { stream: 2 }, "input 2"),
    (
        Node::If {
            test: 3,
            yes: 4,
            no: 5,
        },
        "if 3 4 5",
    ),
    (Node::And { left: 6, right: 7 }, "and 6 7"),
    (Node::Or { left: 6, right: 7 }, "or 6 7"),
    (Node::First { of: 8 }, "first 8"),
    (Node::Next { of: 8 }, "next 8"),
    (Node::Fby { left: 6, right: 7 }, "fby 6 7"),
    (Node::Whenever { left: 6, right: 7 }, "whenever 6 7"),
    (Node::Asa { left: 6, right: 7 }, "asa 6 7"),
    (Node::Upon { left: 6, right: 7 }, "upon 6 7"),
    (Node::Attime { left: 6, right: 7 }, "attime 6 7"),
    (Node::Initial { of: 8 }, "initial 8"),
    (Node::Succ { of: 8 }, "succ 8"),
    (Node::Sby { left: 6, right: 7 }, "sby 6 7"),
    (Node::Atspace { left: 6, right: 7 }, "atspace 6 7"),
    (Node::Freeze { subject: 8 }, "freeze 8"),
    (Node::Refer { name: 9, level: 10 }, "refer 9 10"),
    (
        Node::Call {
            name: 9,
            place: 11,
            level: 10,
        },
        "call 9 11 10",
    ),
];

/// A data operator, and its word.
type OpWord = (Op, &'static str);

static OPS: [OpWord; 35] = [
    (Op::Add, "add"),
    (Op::Sub, "sub"),
    (Op::Mul, "mul"),
    (Op::Div, "div"),
    (Op::Mod, "mod"),
    (Op::Pow, "pow"),
    (Op::Neg, "neg"),
    (Op::Abs, "abs"),
    (Op::Eq, "eq"),
    (Op::Ne, "ne"),
    (Op::Lt, "lt"),
    (Op::Le, "le"),
    (Op::Gt, "gt"),
    (Op::Ge, "ge"),
    (Op::Cmp, "cmp"),
    (Op::Not, "not"),
    (Op::Head, "head"),
    (Op::Tail, "tail"),
    (Op::Cons, "cons"),
    (Op::Append, "append"),
    (Op::Join, "join"),
    (Op::Length, "length"),
    (Op::Substr, "substr"),
    (Op::Nth, "nth"),
    (Op::MakeWord, "makeword"),
    (Op::MakeString, "makestring"),
    (Op::IsInt, "isint"),
    (Op::IsWord, "isword"),
    (Op::IsString, "isstring"),
    (Op::IsList, "islist"),
    (Op::IsTruth, "istruth"),
    (Op::IsNull, "isnull"),
    (Op::IsAtom, "isatom"),
    (Op::IsEod, "iseod"),
    (Op::IsError, "iserror"),
];

// The nodes above and their lines are appended.
fn push_forms(nodes: &mut Vec<NodeRow>, lines: &mut String) -> Result<(), Fail> {
    for (node, words) in &NODES {
        nodes.push(NodeRow {
            scope: 2,
            node: *node,
        })?;
        writeln!(lines, "node 2 {words}")?;
    }
    Ok(())
}

// A node of each operator and its line are appended.
fn push_operators(nodes: &mut Vec<NodeRow>, lines: &mut String) -> Result<(), Fail> {
    for (op, word) in &OPS {
        let node = Node::Apply {
            op: *op,
            args: [12, 13, 14],
        };
        nodes.push(NodeRow { scope: 1, node })?;
        writeln!(lines, "node 1 apply {word} 12 13 14")?;
    }
    Ok(())
}

// The nodes above, and one of each operator; their lines are appended.
fn each_node(alloc: Global, lines: &mut String) -> Result<NodeRows, Fail> {
    let mut nodes = Vec::new(alloc);
    push_forms(&mut nodes, lines)?;
    push_operators(&mut nodes, lines)?;
    if nodes.len() > 100 {
        return Err(Fail::new("too many nodes"));
    }
    Ok(NodeRows::from_vec(nodes))
}

// A name of each kind; their lines are appended.
fn each_name(alloc: Global, lines: &mut String) -> Result<NameRows, Fail> {
    let kinds = [
        Entry::Plain { body: 15 },
        Entry::Parameter { index: 16 },
        Entry::Current { body: 17 },
        Entry::Called { body: 18 },
    ];
    let names = kinds.map(|kind| NameRow { scope: 3, kind });
    lines.push_str("plain 3 15\nparameter 3 16\ncurrent 3 17\ncalled 3 18\n")?;
    Ok(NameRows::from_vec(Vec::from_array(alloc, names)?))
}

// A call place with two actuals.
fn one_place(alloc: Global, lines: &mut String) -> Result<PlaceRows, Fail> {
    let actuals = Numbers32::from_vec(Vec::from_array(alloc, [21, 22])?);
    let mut places = Vec::new(alloc);
    places.push(PlaceRow {
        scope: 19,
        name: 20,
        actuals,
    })?;
    lines.push_str("place 19 20 21 22\n")?;
    Ok(PlaceRows::from_vec(places))
}

// The table gets a node of each form, a name of each kind and a call place; their lines are appended.
fn put_rows(alloc: Global, table: &mut Table, lines: &mut String) -> Result<(), Fail>
    requires { HasOneRoot table.old }
    ensures { HasOneRoot table.new }
{
    table.nodes = each_node(alloc, lines)?;
    table.names = each_name(alloc, lines)?;
    table.places = one_place(alloc, lines)?;
    Ok(())
}

// The lines of scopes, inputs and constants, and the root's behind all others.
const FRONT: &str = "lucid flat 1\nscope 23 called\nscope 24 frozen\ninput x\nconst 25\n";

const ROOT: &str = "root 26\n";

// The table of the first lines and the last one.
fn front(alloc: Global) -> Result<Table, Fail>
    ensures { IfOk result (λ table. HasOneRoot table) }
{
    let text = format!(in alloc; "{FRONT}{ROOT}")?;
    Ok(read_flat(alloc, text.as_bytes())?)
}

// The number of the first scope that isn't as these lines say, or 3 where the root isn't.
fn wrong_scope(table: &Table) -> Option<usize> {
    match table.scopes.items() {
        [root, called, frozen] => first_false(&[
            root.parent == 0 && matches!(root.kind, ScopeKind::Root),
            called.parent == 23 && matches!(called.kind, ScopeKind::Called),
            frozen.parent == 24 && matches!(frozen.kind, ScopeKind::Frozen),
            table.root == 26,
        ]),
        _ => Some(4),
    }
}

// The same of the table of those lines alone.
fn wrong_front(alloc: Global) -> Result<Option<usize>, Fail> {
    Ok(wrong_scope(&front(alloc)?))
}

// Whether the text of that table has the lines of its rows between the first ones and the last one.
fn has_lines_of(alloc: Global, table: &mut Table, lines: &mut String) -> Result<bool, Fail>
    requires { HasOneRoot table.old }
{
    put_rows(alloc, table, lines)?;
    lines.push_str(ROOT)?;
    let mut text = Vec::new(alloc);
    show_flat(alloc, table, &mut text)?;
    Ok(text.as_slice() == lines.as_bytes())
}

fn has_lines(alloc: Global) -> Result<bool, Fail> {
    let mut table = front(alloc)?;
    let mut lines = String::from_str(alloc, FRONT)?;
    has_lines_of(alloc, &mut table, &mut lines)
}

// A sound table of four scopes: a plain name that is a call of a function, whose right side is its parameter; a frozen time with a current name;
// their sum. The fourth scope has no rows.
const SOUND: &[u8] =
    b"lucid flat 1\nscope 0 called\nscope 0 frozen\nscope 2 called\ninput x\ninput y\nconst 1\nnode 0 input 1\n\
    node 1 refer 1 1\nnode 0 call 2 0 0\nnode 2 refer 3 1\nnode 0 freeze 3\nnode 0 refer 0 0\nnode 0 apply add 4 5 0\nplain 0 2\n\
    parameter 1 0\ncalled 1 1\ncurrent 2 0\nplace 0 2 0\nroot 6\n";

// The root of the program of that table, and how many nodes it has; nothing where the table is refused.
fn of_sound(alloc: Global) -> Result<Option<(u32, u32)>, Fail> {
    let Ok(program) = build(alloc, read_flat(alloc, SOUND)?) else {
        return Ok(None);
    };
    Ok(Some((program.root(), program.nodes())))
}

// Its scopes with a root scope in the place of the fourth: no text has a second one.
fn with_second_root(alloc: Global, scopes: &ScopeRows) -> Result<ScopeRows, Fail> {
    let mut scopes = Vec::from_slice(alloc, scopes.items())?;
    scopes.pop();
    scopes.push(ScopeRow {
        parent: 2,
        kind: ScopeKind::Root,
    })?;
    Ok(ScopeRows::from_vec(scopes))
}

// That table with such scopes.
fn of_two_roots(alloc: Global) -> Result<Table, Fail> {
    let mut table = read_flat(alloc, SOUND)?;
    table.scopes = with_second_root(alloc, &table.scopes)?;
    Ok(table)
}

// Whether scopes nest: that table is refused in these words.
fn is_refused(alloc: Global) -> Result<bool, Fail> {
    match build(alloc, of_two_roots(alloc)?) {
        Ok(_) => Ok(false),
        Err(why) => Ok(why.to_string(alloc)?.as_str() == "flat scope 3 is wrong"),
    }
}

fn is_told_so(alloc: Global, refusal: &FlatRefusal, wanted: &str) -> Result<bool, Fail> {
    Ok(refusal.to_string(alloc)?.as_str() == wanted)
}

#[test]
fn fields_in_their_order_and_scopes_that_nest(rt: HostRuntime) -> Result<(), Fail> {
    let alloc = rt.alloc();
    let facts = [
        wrong_front(alloc)?.is_none(),
        has_lines(alloc)?,
        is_told_so(
            alloc,
            &FlatRefusal::Form { line: 3 },
            "line 3 is no flat line",
        )?,
        is_told_so(alloc, &FlatRefusal::NoMemory, "no memory")?,
        of_sound(alloc)? == Some((6, 7)),
        is_refused(alloc)?,
    ];
    none_wrong(first_false(&facts), "fields and scopes")
}
