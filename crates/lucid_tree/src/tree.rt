//! Trees of expressions and their blocks of definitions.
ghost use Rattle.std.specs.Prelude.{◌≡◌};
ghost use Rattle.lucid_tree.specs.Lists.{trees_of};
ghost use Rattle.lucid_tree.specs.DefsView.{defs_of};

use crate::lists::{Names, Places32};
use lucid_ops::Op;
use lucid_value::{Name, Value};
use std::marker::Model;

/// A node of a program, with the place of its own token as a byte offset in the source: the operator, the name, the
/// constant, `if` or `where`. The place of a definition is that of its name.
#[cycle(tree)]
#[derive(Drop)]
pub struct Tree {
    pub at: u32,
    pub kind: Kind,
}

/// What a node is, with its parts.
#[cycle(tree)]
#[derive(Drop)]
pub enum Kind {
    /// A constant.
    Const(Value),
    /// A name without arguments.
    Name(Name),
    /// `name(arguments)`: a call of a function.
    Call {
        name: Name,
        args: Trees,
    },
    /// A data operator on its arguments.
    Apply {
        op: Op,
        args: Trees,
    },
    /// `if test then yes else no fi`.
    If {
        test: Box<Tree>,
        yes: Box<Tree>,
        no: Box<Tree>,
    },
    /// `left and right`.
    And(Box<Tree>, Box<Tree>),
    /// `left or right`.
    Or(Box<Tree>, Box<Tree>),
    /// `first part`.
    First(Box<Tree>),
    /// `next part`.
    Next(Box<Tree>),
    /// `left fby right`.
    Fby(Box<Tree>, Box<Tree>),
    /// `left whenever right`.
    Whenever(Box<Tree>, Box<Tree>),
    /// `left asa right`.
    Asa(Box<Tree>, Box<Tree>),
    /// `left upon right`.
    Upon(Box<Tree>, Box<Tree>),
    /// `left attime right`.
    Attime(Box<Tree>, Box<Tree>),
    /// `initial part`.
    Initial(Box<Tree>),
    /// `succ part`.
    Succ(Box<Tree>),
    /// `left sby right`.
    Sby(Box<Tree>, Box<Tree>),
    /// `left atspace right`.
    Atspace(Box<Tree>, Box<Tree>),
    /// `subject where definitions end`.
    Scope(Box<Block>),
}

/// A list of trees: the arguments of a call or of a data operator.
#[cycle(tree)]
#[derive(Drop)]
pub struct Trees {
    items: Vec<Tree>,
}

impl Model for Trees {
    ghost use Rattle.lucid_tree.specs.Tree.{PlainTrees};
    ghost use Rattle.lucid_tree.specs.Codes.{coded_trees};

    ghost Value = { PlainTrees };

    ghost coded = { coded_trees };

    ghost use Rattle.std.specs.Prelude.{◌+◌, ◌*◌};
    ghost use Rattle.lucid_tree.specs.Size.{nodes_in};
    ghost use Rattle.lucid_tree.specs.Lists.{trees_of};

    ghost view = { λ l. trees_of l.items.items };

    ghost size = { λ es. 2 * nodes_in es + 1 };

    ghost use Rattle.lucid_tree.specs.TreesFall.{most_le-nodes};
    ghost use Rattle.std.proofs.Common.{arith};

    ghost size_decreases = { λ a h. omega (arith, most_le-nodes a.items.items) };
}

impl Trees {
    /// The list of these items. It takes no memory.
    pub fn from_vec(items: Vec<Tree>) -> Trees
        ensures { result ≡ trees_of items.items }
    {
        Trees { items }
    }

    /// The items, in order.
    pub fn items(&self) -> &[Tree]
        ensures { trees_of result.now ≡ self.now }
    {
        self.items.as_slice()
    }
}

/// A block: its subject, and the definitions of its scope.
#[cycle(tree)]
#[derive(Drop)]
pub struct Block {
    pub subject: Tree,
    pub defs: Defs,
}

/// The definitions of a block, in order.
#[cycle(tree)]
#[derive(Drop)]
pub struct Defs {
    items: Vec<Def>,
}

impl Model for Defs {
    ghost use Rattle.lucid_tree.specs.Tree.{PlainDefs};
    ghost use Rattle.lucid_tree.specs.Codes.{coded_defs};

    ghost Value = { PlainDefs };

    ghost coded = { coded_defs };

    ghost use Rattle.std.specs.Prelude.{◌+◌, ◌*◌};
    ghost use Rattle.lucid_tree.specs.Size.{nodes_in_defs};
    ghost use Rattle.lucid_tree.specs.DefsView.{defs_of};

    ghost view = { λ l. defs_of l.items.items };

    ghost size = { λ ds. 2 * nodes_in_defs ds + 1 };

    ghost use Rattle.lucid_tree.specs.DefsFall.{most_le-nodes_in_defs};
    ghost use Rattle.std.proofs.Common.{arith};

    ghost size_decreases = { λ a h. omega (arith, most_le-nodes_in_defs a.items.items) };
}

impl Defs {
    /// The list of these items. It takes no memory.
    pub fn from_vec(items: Vec<Def>) -> Defs
        ensures { result ≡ defs_of items.items }
    {
        Defs { items }
    }

    /// The items, in order.
    pub fn items(&self) -> &[Def]
        ensures { defs_of result.now ≡ self.now }
    {
        self.items.as_slice()
    }
}

/// A definition, with the place of its name.
#[cycle(tree)]
#[derive(Drop)]
pub struct Def {
    pub at: u32,
    pub name: Name,
    pub kind: DefKind,
}

/// What a definition defines its name as.
#[cycle(tree)]
#[derive(Drop)]
pub enum DefKind {
    /// `name = right`.
    Plain {
        right: Tree,
    },
    /// `name(parameters) = right`, with the places of the parameters.
    Function {
        parameters: Names,
        places: Places32,
        right: Tree,
    },
    /// `name is current right`.
    Current {
        right: Tree,
    },
}

impl Model for Tree {
    ghost use Rattle.lucid_tree.specs.Tree.{PlainTree};
    ghost use Rattle.lucid_tree.specs.Codes.{coded_tree};

    ghost Value = { PlainTree };

    ghost coded = { coded_tree };

    ghost use Rattle.lucid_tree.specs.View.{tree_of};
    ghost use Rattle.lucid_tree.specs.Size.{nodes};

    ghost view = { λ t. tree_of t.at t.kind };

    ghost use Rattle.std.specs.Prelude.{◌*◌};

    ghost size = { λ e. 2 * nodes e };

    ghost use Rattle.std.proofs.Common.{arith};

    ghost size_decreases = { λ a h. Prim.grind (arith) };
}
