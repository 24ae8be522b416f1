//! What is noted.
use lucid_store::Key;
use lucid_value::Value;

/// The key that was touched since the last turn, and its value.
#[derive(Drop)]
pub struct Touched {
    pub key: Key,
    pub value: Value,
    /// Whether the store holds more keys than after the last turn: then the value was put there. Else it was found, or put once more.
    pub added: bool,
}

/// What is noted of a run.
#[derive(Drop)]
pub enum Event {
    /// A turn of the policy: what was touched before it, and the keys that it dropped, with the number of those that aren't told.
    Turn {
        touched: Option<Touched>,
        dropped: Vec<Key>,
        more: u64,
    },
    /// A waiting row is picked, which then takes a step.
    Pick,
    /// A line is written.
    Line,
    /// So many values were touched or dropped, of which nothing else is noted.
    LeftOut {
        count: u64,
    },
}
