//! Environments as the evaluator has them: on the stack, by references into the tree.
ghost use Rattle.std.specs.Option.{option_map};
ghost use Rattle.std.specs.Prelude.{◌≡◌};
ghost use Rattle.lucid_tree.specs.Env.{same_name, definition, param, tree_at, name_target};
ghost use Rattle.lucid_test_programs.specs.View.{found_of, found_in, first_of, kept, env_of, going, going_of, calling, calling_of};

use lucid_tree::{Def, DefKind, Defs, Names, Places32, Tree, Trees};
use lucid_value::Name;

#[derive(Drop)]
pub enum Env<'a> {
    Empty,
    Scope {
        defs: &'a Defs,
        frozen: Option<u64>,
        rest: &'a Env<'a>,
    },
    Args {
        names: &'a Names,
        places: &'a Places32,
        actuals: &'a Trees,
        caller: &'a Env<'a>,
        rest: &'a Env<'a>,
    },
}

/// The first definition of a name.
#[derive(Drop)]
pub enum Found<'a> {
    Absent,
    Plain(&'a Tree),
    Function(&'a Names, &'a Places32, &'a Tree),
    Current(&'a Tree),
}

/// What a name goes on with.
pub enum Target<'a> {
    Element(u64),
    Goes {
        tree: &'a Tree,
        env: &'a Env<'a>,
        time: u64,
    },
    Lost,
}

// The two names have the same bytes.
pub fn same(left: &Name, right: &Name) -> bool
    ensures { result ≡ same_name left.now right.now }
{
    left.bytes() == right.bytes()
}

// The first definition of the name.
fn first<'a>(name: &Name, defs: &'a Defs) -> Option<&'a Def>
    ensures { first_of result ≡ definition name.now defs.now }
{
    for d in defs.items() {
        if same(name, &d.name) {
            return Some(d);
        }
    }
    None
}

fn told<'a>(def: &'a Def) -> Found<'a>
    ensures { found_of result ≡ kept (found_in def.now.at def.now.kind) }
{
    match &def.kind {
        DefKind::Plain { right } => Found::Plain(right),
        DefKind::Function {
            parameters,
            places,
            right,
        } => Found::Function(parameters, places, right),
        DefKind::Current { right } => Found::Current(right),
    }
}

pub fn find<'a>(name: &Name, defs: &'a Defs) -> Found<'a>
    ensures { found_of result ≡ kept (definition name.now defs.now) }
{
    match first(name, defs) {
        Some(d) => told(d),
        None => Found::Absent,
    }
}

// The number of the first parameter of that name.
fn named_place(name: &Name, names: &Names) -> Option<usize>
    ensures { result ≡ param name.now names.now }
{
    names.items().iter().position(|n| same(name, n))
}

// The actual of that number.
fn tree_in<'a>(actuals: &'a Trees, i: usize) -> Option<&'a Tree>
    ensures { option_map (λ e. e.now) result ≡ tree_at actuals.now i }
{
    let trees = actuals.items();
    if i < trees.len() {
        Some(&trees[i])
    } else {
        None
    }
}

// What the name goes on with at a time, from the innermost entry on.
pub fn goal_of<'a>(name: &Name, env: &'a Env<'a>, t: u64) -> Target<'a>
    ensures { going_of name.now result ≡ going (name_target name.now (env_of env.now) t) }
{
    match env {
        Env::Empty => Target::Element(t),
        Env::Scope { defs, frozen, rest } => match find(name, defs) {
            Found::Absent => goal_of(name, rest, t),
            Found::Plain(tree) => Target::Goes { tree, env, time: t },
            Found::Function(_, _, _) => Target::Lost,
            Found::Current(tree) => match frozen {
                Some(u) => Target::Goes {
                    tree,
                    env: rest,
                    time: *u,
                },
                None => Target::Lost,
            },
        },
        Env::Args {
            names,
            actuals,
            caller,
            rest,
            ..
        } => match named_place(name, names) {
            None => goal_of(name, rest, t),
            Some(i) => match tree_in(actuals, i) {
                Some(tree) => Target::Goes {
                    tree,
                    env: caller,
                    time: t,
                },
                None => Target::Lost,
            },
        },
    }
}

/// The function of a name, with the environment from its block on.
pub enum Callee<'a> {
    Is {
        names: &'a Names,
        places: &'a Places32,
        tree: &'a Tree,
        env: &'a Env<'a>,
    },
    Lost,
}

// The function that the name belongs to, from the innermost entry on.
pub fn callee_of<'a>(name: &Name, env: &'a Env<'a>) -> Callee<'a>
    ensures { calling_of result ≡ calling name.now (env_of env.now) }
{
    match env {
        Env::Empty => Callee::Lost,
        Env::Scope { defs, rest, .. } => match find(name, defs) {
            Found::Absent => callee_of(name, rest),
            Found::Function(names, places, tree) => Callee::Is {
                names,
                places,
                tree,
                env,
            },
            _ => Callee::Lost,
        },
        Env::Args { names, rest, .. } => match named_place(name, names) {
            None => callee_of(name, rest),
            Some(_) => Callee::Lost,
        },
    }
}
