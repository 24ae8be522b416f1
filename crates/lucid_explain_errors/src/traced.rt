//! What is traced.
ghost use Rattle.std.specs.Prelude.{◌≡◌};
ghost use Rattle.lucid_value.specs.View.{plain};
ghost use Rattle.lucid_explain_errors.specs.Traced.{is_traced, traced_of};

use lucid_value::Value;

/// What is traced: why a value is this.
#[derive(Clone, Copy, Debug, PartialEq, Eq)]
pub enum Traced {
    /// The value written `error`.
    Error,
    /// The end of data.
    End,
}

impl Traced {
    /// Whether the value is what is traced.
    pub fn fits(self, value: &Value) -> bool
        ensures { result ≡ is_traced self (plain value.now) }
    {
        match self {
            Traced::Error => matches!(value, Value::Fault),
            Traced::End => matches!(value, Value::Eod),
        }
    }

    /// What is traced of a value, if anything.
    pub fn of(value: &Value) -> Option<Traced>
        ensures { result ≡ traced_of (plain value.now) }
    {
        match value {
            Value::Fault => Some(Traced::Error),
            Value::Eod => Some(Traced::End),
            Value::Int(_) | Value::Truth(_) | Value::Word(_) | Value::Text(_) | Value::List(_) =>
                None,
        }
    }
}
