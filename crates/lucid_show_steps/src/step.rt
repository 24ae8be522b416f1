//! The steps of a run.
use lucid_store::Key;
use lucid_value::Value;

/// A step of a run.
#[derive(Drop)]
pub enum Step {
    /// The program's value at a time is asked for.
    Asks { time: u64 },
    /// A value is computed, and put into the store.
    Computes { key: Key, value: Value },
    /// A value is computed that the store holds, since it was asked for before it was put there.
    ComputesAgain { key: Key, value: Value },
    /// A value is found in the store.
    Finds { key: Key, value: Value },
    /// A value is dropped.
    Drops { key: Key },
    /// So many values are dropped whose keys aren't told.
    DropsMore { count: u64 },
    /// The line of a time is written.
    Writes { time: u64 },
    /// So many values were computed, found or dropped, of which nothing else is told.
    LeavesOut { count: u64 },
    /// What is put into the store after the policy's last turn isn't seen.
    Unseen,
}
