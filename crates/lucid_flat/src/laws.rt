//! Laws of texts. The functions do nothing: each one's contract is the law.
ghost use Rattle.lucid_flat.specs.Laws.{OneTable};

use lucid_texts::one_value;

/// No bytes are the text of two tables.
pub fn one_table()
    ensures { OneTable }
{
    one_value();
}
