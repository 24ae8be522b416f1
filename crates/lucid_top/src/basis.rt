//! What a certificate is of.

use lucid_equations::Program;
use lucid_value::Name;
use lucid_words::Words;
use std::alloc::Global;

/// What a certificate is of: a program and the names of its inputs, by words that give these their files.
#[derive(Clone, Copy)]
pub struct Basis<'a> {
    pub alloc: Global,
    pub words: &'a Words,
    pub names: &'a [Name],
    pub program: &'a Program,
}
