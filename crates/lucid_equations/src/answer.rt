//! What a part's value tells a form.
ghost use Rattle.std.specs.Prelude.{◌≡◌};
ghost use Rattle.lucid_value.specs.View.{plain};
ghost use Rattle.lucid_equations.specs.Steps.{answer_of, IsPoint};

use lucid_tree::LAST;
use lucid_value::Value;

/// What a part's value tells: a truth, a time or a space, the end of data, or any other value.
#[derive(Clone, Copy)]
pub enum Answer {
    Holds(bool),
    At(u64),
    Ended,
    Other,
}

impl Answer {
    /// What this value tells.
    #[inline(always)]
    pub fn of(value: &Value) -> Answer
        ensures answer { result ≡ answer_of (plain value.now) }
        ensures point { IsPoint result }
    {
        match value {
            Value::Truth(holds) => Answer::Holds(*holds),
            Value::Int(n) if *n >= 0 && *n <= i128::from(LAST) => Answer::At(*n as u64),
            Value::Eod => Answer::Ended,
            _ => Answer::Other,
        }
    }
}
