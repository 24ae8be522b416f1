//! The rows of a certificate.
use crate::lists::{ContextRows, JudgmentRows};
use lucid_lists::Numbers;
use lucid_value::Value;

/// How a context comes of earlier ones, each by its number. Context 0 is the empty one, which has no row; the first row's is number 1.
#[derive(Clone, Copy)]
pub enum ContextRow {
    /// The base with the frame of a call added, from a call place and a caller's context.
    Call { base: u32, place: u32, caller: u32 },
    /// The base with a frozen time added.
    Frozen { base: u32, time: u64 },
}

/// A judgment: in a context, by its number, a node has a value at a time and a space, because of the judgments that it uses, which are
/// numbered from 0.
#[derive(Drop)]
pub struct JudgmentRow {
    pub node: u32,
    pub context: u32,
    pub time: u64,
    pub space: u64,
    pub uses: Numbers,
    pub value: Value,
}

/// A certificate: why its last judgment holds.
#[derive(Drop)]
pub struct Why {
    pub contexts: ContextRows,
    pub judgments: JudgmentRows,
}
