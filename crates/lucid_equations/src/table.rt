//! Equation tables, and the programs that they are.
use crate::lists::{NameRows, NodeRows, PlaceRows, ScopeRows, Values};
use lucid_tree::Names;

/// An equation table: lists of rows, which name each other by number, and the number of the root.
pub struct Table {
    /// The scopes in which rows stand.
    pub scopes: ScopeRows,
    /// The names of the inputs.
    pub inputs: Names,
    pub constants: Values,
    pub nodes: NodeRows,
    pub names: NameRows,
    /// The call places.
    pub places: PlaceRows,
    /// The number of the node whose value is the program's.
    pub root: u32,
}

// Not derived: a derived one is proved again wherever one is dropped.
impl Drop for Table {
    fn drop(self) {
        let Table {
            scopes,
            inputs,
            constants,
            nodes,
            names,
            places,
            root,
        } = self;
    }
}
