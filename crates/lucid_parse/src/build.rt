//! A tree from its nodes.

ghost use Rattle.std.specs.Prelude.{◌≡◌, ◌≤◌, List, [], ◌∷◌, IfOk};
ghost use Rattle.lucid_value.specs.View.{plain};
ghost use Rattle.lucid_tree.specs.Tree.{PlainTree};
ghost use Rattle.lucid_tree.specs.WellMade.{depth, most_tree_depth};
ghost use Rattle.lucid_parse.specs.Grammar.{Spells, PlacedTerminal};
ghost use Rattle.lucid_parse.specs.Fill.{fill_item};
ghost use Rattle.lucid_parse.specs.Flat.{written};
ghost use Rattle.lucid_parse.specs.Views.{items_of, name_now, value_now};
ghost use Rattle.lucid_parse.specs.Build.{all_items, kind_on, Describes, Lengthens, Takes, no_piles, plain_piles, put_on, Puts};

use crate::Operator;
use crate::state::{BorrowedItem, Defines, Item};
use lucid_lists::Stack;
use lucid_tree::{Block, Def, DefKind, Defs, Kind, Names, Places32, Tree, Trees};
use lucid_value::{Name, Value};
use std::alloc::{AllocError, Global};

/// The trees, the lists of trees, of parameters and their places, and of definitions that no node has taken yet.
#[derive(Drop)]
pub struct Piles {
    trees: Stack<Tree>,
    lists: Stack<Vec<Tree>>,
    names: Stack<Vec<Name>>,
    places: Stack<Vec<u32>>,
    blocks: Stack<Vec<Def>>,
}

// Takes so many trees off the pile, and answers them in order, or nothing where there are too few.
fn pop_parts(
    alloc: Global,
    trees: &mut Stack<Tree>,
    count: u8,
) -> Result<Option<Vec<Tree>>, AllocError>
    ensures { IfOk result (λ parts. Takes count trees.old parts trees.new) }
{
    let mut parts = Vec::new(alloc);
    for i in 0..count {
        let Some(tree) = trees.pop() else {
            return Ok(None);
        };
        parts.push(tree)?;
    }
    parts.reverse();
    Ok(Some(parts))
}

// Puts an item at the end of the list on top of a pile, and answers whether there is one.
fn push_to_top<T: Drop>(lists: &mut Stack<Vec<T>>, item: T) -> Result<bool, AllocError>
    ensures { Lengthens result item lists.old lists.new }
{
    let Some(mut list) = lists.pop() else {
        return Ok(false);
    };
    list.push(item)?;
    lists.push(list)?;
    Ok(true)
}

// What the definition of a function says of its name; its parameters and its right side are taken off the piles, or nothing is
// answered where one is lacking.
fn describe_function(
    trees: &mut Stack<Tree>,
    names: &mut Stack<Vec<Name>>,
    places: &mut Stack<Vec<u32>>,
) -> Option<DefKind>
    ensures { Describes result trees.new names.new places.new (kind_on Defines.Function trees.old (all_items names.old) (all_items places.old)) }
{
    let parameters = Names::from_vec(names.pop()?);
    let places = Places32::from_vec(places.pop()?);
    let right = trees.pop()?;
    Some(DefKind::Function {
        parameters,
        places,
        right,
    })
}

// The same of a definition of any kind.
fn describe(
    trees: &mut Stack<Tree>,
    names: &mut Stack<Vec<Name>>,
    places: &mut Stack<Vec<u32>>,
    defines: Defines,
) -> Option<DefKind>
    ensures { Describes result trees.new names.new places.new (kind_on defines trees.old (all_items names.old) (all_items places.old)) }
{
    match defines {
        Defines::Plain => Some(DefKind::Plain {
            right: trees.pop()?,
        }),
        Defines::Current => Some(DefKind::Current {
            right: trees.pop()?,
        }),
        Defines::Function => describe_function(trees, names, places),
    }
}

impl Piles {
    fn new(alloc: Global) -> Piles
        ensures { plain_piles result ≡ no_piles }
    {
        Piles {
            trees: Stack::new(alloc),
            lists: Stack::new(alloc),
            names: Stack::new(alloc),
            places: Stack::new(alloc),
            blocks: Stack::new(alloc),
        }
    }

    fn put_const(&mut self, alloc: Global, at: u32, value: &Value) -> Result<bool, AllocError>
        ensures { Puts result self.new (put_on (Item.Const at (plain value.now)) (plain_piles self.old)) }
    {
        let kind = Kind::Const(value.copy(alloc)?);
        self.trees.push(Tree { at, kind })?;
        Ok(true)
    }

    fn put_name(&mut self, at: u32, name: &Name) -> Result<bool, AllocError>
        ensures { Puts result self.new (put_on (Item.Name at name.now) (plain_piles self.old)) }
    {
        let kind = Kind::Name(name.copy()?);
        self.trees.push(Tree { at, kind })?;
        Ok(true)
    }

    fn put_operator(&mut self, alloc: Global, op: Operator, at: u32) -> Result<bool, AllocError>
        ensures { Puts result self.new (put_on (Item.Operator op at) (plain_piles self.old)) }
    {
        let Some(parts) = pop_parts(alloc, &mut self.trees, op.row().arity)? else {
            return Ok(false);
        };
        self.trees.push(op.form(alloc, at, parts)?)?;
        Ok(true)
    }

    fn put_no_trees(&mut self, alloc: Global) -> Result<bool, AllocError>
        ensures { Puts result self.new (put_on Item.NoTrees (plain_piles self.old)) }
    {
        self.lists.push(Vec::new(alloc))?;
        Ok(true)
    }

    fn put_more(&mut self) -> Result<bool, AllocError>
        ensures { Puts result self.new (put_on Item.More (plain_piles self.old)) }
    {
        let Some(tree) = self.trees.pop() else {
            return Ok(false);
        };
        push_to_top(&mut self.lists, tree)
    }

    fn put_call(&mut self, at: u32, name: &Name) -> Result<bool, AllocError>
        ensures { Puts result self.new (put_on (Item.Call at name.now) (plain_piles self.old)) }
    {
        let Some(items) = self.lists.pop() else {
            return Ok(false);
        };
        let kind = Kind::Call {
            name: name.copy()?,
            args: Trees::from_vec(items),
        };
        self.trees.push(Tree { at, kind })?;
        Ok(true)
    }

    fn put_no_names(&mut self, alloc: Global) -> Result<bool, AllocError>
        ensures { Puts result self.new (put_on Item.NoNames (plain_piles self.old)) }
    {
        self.names.push(Vec::new(alloc))?;
        self.places.push(Vec::new(alloc))?;
        Ok(true)
    }

    fn put_param(&mut self, at: u32, name: &Name) -> Result<bool, AllocError>
        ensures { Puts result self.new (put_on (Item.Param at name.now) (plain_piles self.old)) }
    {
        if !push_to_top(&mut self.names, name.copy()?)? {
            return Ok(false);
        }
        push_to_top(&mut self.places, at)
    }

    fn put_no_defs(&mut self, alloc: Global) -> Result<bool, AllocError>
        ensures { Puts result self.new (put_on Item.NoDefs (plain_piles self.old)) }
    {
        self.blocks.push(Vec::new(alloc))?;
        Ok(true)
    }

    fn put_def(&mut self, defines: Defines, at: u32, name: &Name) -> Result<bool, AllocError>
        ensures { Puts result self.new (put_on (Item.Def defines at name.now) (plain_piles self.old)) }
    {
        let name = name.copy()?;
        let kind = describe(&mut self.trees, &mut self.names, &mut self.places, defines);
        let Some(kind) = kind else {
            return Ok(false);
        };
        push_to_top(&mut self.blocks, Def { at, name, kind })
    }

    fn put_block(&mut self, alloc: Global, at: u32) -> Result<bool, AllocError>
        ensures { Puts result self.new (put_on (Item.Block at) (plain_piles self.old)) }
    {
        let Some(items) = self.blocks.pop() else {
            return Ok(false);
        };
        let Some(subject) = self.trees.pop() else {
            return Ok(false);
        };
        let defs = Defs::from_vec(items);
        let kind = Kind::Scope(Box::new(alloc, Block { subject, defs })?);
        self.trees.push(Tree { at, kind })?;
        Ok(true)
    }

    /// Puts a node onto the piles, which takes its parts from them, and answers whether they were there.
    fn put(&mut self, alloc: Global, item: BorrowedItem<'_>) -> Result<bool, AllocError>
        ensures { Puts result self.new (put_on (fill_item name_now value_now item.entry) (plain_piles self.old)) }
    {
        match item {
            Item::Const { at, value } => self.put_const(alloc, at, value),
            Item::Name { at, name } => self.put_name(at, name),
            Item::Operator { op, at } => self.put_operator(alloc, op, at),
            Item::NoTrees => self.put_no_trees(alloc),
            Item::More => self.put_more(),
            Item::Call { at, name } => self.put_call(at, name),
            Item::NoNames => self.put_no_names(alloc),
            Item::Param { at, name } => self.put_param(at, name),
            Item::NoDefs => self.put_no_defs(alloc),
            Item::Def { defines, at, name } => self.put_def(defines, at, name),
            Item::Block { at } => self.put_block(alloc, at),
        }
    }
}

/// The tree that the nodes are those of. A tree of depth over 400 is never built.
pub fn build(alloc: Global, items: &[BorrowedItem<'_>]) -> Result<Tree, AllocError>
    requires { (terminals : List PlacedTerminal) × (spelled : PlainTree) × Spells 0 terminals spelled × (items_of items.now ≡ written [] spelled) × (depth spelled ≤ most_tree_depth) }
    ensures { IfOk result (λ tree. (terminals : List PlacedTerminal) → (spelled : PlainTree) → Spells 0 terminals spelled → items_of items.now ≡ written [] spelled → tree ≡ spelled) }
{
    let mut piles = Piles::new(alloc);
    for item in items {
        let there = piles.put(alloc, *item)?;
        prove!(there);
    }
    match piles.trees.pop() {
        Some(tree) => Ok(tree),
        None => unreachable!(),
    }
}
