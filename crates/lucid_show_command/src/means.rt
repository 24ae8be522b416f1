//! What a command works with.
use lucid_explain_report::Outlook;
use std::alloc::Global;

/// What a command works with beside its words: memory, and the files as they are read again.
#[derive(Drop)]
pub struct Means<'a, F: Outlook> {
    pub alloc: Global,
    pub outlook: &'a F,
}
