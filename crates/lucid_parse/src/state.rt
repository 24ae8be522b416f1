//! What the parser keeps while it reads. `N` is what it holds of a name, and `V` of a constant's value.

use crate::Operator;
use lucid_value::{Name, Value};
use std::alloc::AllocError;

/// What a definition defines its name as.
#[derive(Clone, Copy)]
pub enum Defines {
    Plain,
    Function,
    Current,
}

/// A called operator, its place, and the least level that the place of the whole form allows.
#[derive(Clone, Copy)]
pub struct CalledOperator {
    pub op: Operator,
    pub at: u32,
    pub allowed: u8,
}

/// A definition: the place of its block, its own place and its name.
#[derive(Copy)]
pub struct Definition<N> {
    pub block: u32,
    pub at: u32,
    pub name: N,
}

// Not derived: a derived one is proved field by field.
impl<N: Copy> Clone for Definition<N> {
    fn clone(&self) -> Result<Definition<N>, AllocError> {
        Ok(*self)
    }
}

/// What is open round the operand that is read. `at` is the place of a form, and `allowed` the least level that the place of the
/// whole form allows.
#[derive(Copy)]
pub enum Frame<N> {
    /// An operator between or before its operands, the last of which is read.
    Operator { op: Operator, at: u32, allowed: u8 },
    /// A parenthesis.
    Parenthesis { allowed: u8 },
    /// An `if` whose condition is read.
    Test { at: u32, allowed: u8 },
    /// An `if` where what stands between its `then` and its `else` is read.
    Yes { at: u32, allowed: u8 },
    /// An `if` where what stands behind its `else` is read.
    No { at: u32, allowed: u8 },
    /// A call whose arguments before this one are written.
    Arguments { at: u32, name: N, allowed: u8 },
    /// A called operator, with the number of operands behind this one.
    Operands { called: CalledOperator, more: u8 },
    /// The right side of a definition.
    RightSide(Defines, Definition<N>),
}

// Not derived: a derived one is proved variant by variant.
impl<N: Copy> Clone for Frame<N> {
    fn clone(&self) -> Result<Frame<N>, AllocError> {
        Ok(*self)
    }
}

/// What comes next. `at` is the place of a form, `allowed` the least level that the place of the form allows, and `block` the
/// place of a block.
#[derive(Copy)]
pub enum Focus<N> {
    /// An operand of this level or a tighter one.
    Await { allowed: u8 },
    /// What follows a name.
    Named { at: u32, name: N, allowed: u8 },
    /// The parenthesis of a called operator.
    Opens(CalledOperator),
    /// What follows an operand of this level.
    Have { level: u8, allowed: u8 },
    /// A definition or the end of the block.
    Heads { block: u32 },
    /// What follows the name of a definition.
    Headed(Definition<N>),
    /// The same behind `is`.
    Frozen(Definition<N>),
    /// The next parameter of a definition.
    Names(Definition<N>),
    /// A comma or the end of its parameters.
    Listed(Definition<N>),
    /// The equals sign behind its parameters.
    Ready(Definition<N>),
}

// Not derived: a derived one is proved variant by variant.
impl<N: Copy> Clone for Focus<N> {
    fn clone(&self) -> Result<Focus<N>, AllocError> {
        Ok(*self)
    }
}

/// A node of the tree that is read, with its place. Nodes are written behind their parts.
#[derive(Copy)]
pub enum Item<N, V> {
    Const { at: u32, value: V },
    Name { at: u32, name: N },
    /// An operator, or `if`, of as many trees before it as it has operands.
    Operator { op: Operator, at: u32 },
    /// An empty list of arguments.
    NoTrees,
    /// The tree before it goes to the end of the list of arguments before that.
    More,
    /// A call of the list of arguments before it.
    Call { at: u32, name: N },
    /// An empty list of parameters.
    NoNames,
    /// A parameter, which goes to the end of the list before it.
    Param { at: u32, name: N },
    /// An empty list of definitions.
    NoDefs,
    /// A definition, which goes to the end of the list before it; its right side is the tree before it.
    Def { defines: Defines, at: u32, name: N },
    /// A block of the tree and of the list of definitions before it.
    Block { at: u32 },
}

// Not derived: a derived one is proved variant by variant.
impl<N: Copy, V: Copy> Clone for Item<N, V> {
    fn clone(&self) -> Result<Item<N, V>, AllocError> {
        Ok(*self)
    }
}

/// A node that borrows its name or its value.
pub type BorrowedItem<'a> = Item<&'a Name, &'a Value>;
