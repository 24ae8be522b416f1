//! What holds of ways. The functions do nothing: their contracts are the laws.
ghost use Rattle.lucid_explain_errors.specs.Laws.{WaysKeepTheValue, ValuesAriseAtTheEnd};

/// Each judgment on a way has the value that is traced, if the first has it.
pub fn ways_keep_the_value()
    ensures { WaysKeepTheValue }
{}

/// No earlier judgment that the last one uses has it.
pub fn values_arise_at_the_end()
    ensures { ValuesAriseAtTheEnd }
{}
