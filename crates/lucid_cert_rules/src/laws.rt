//! Laws of texts. The functions do nothing: each one's contract is the law.
ghost use Rattle.lucid_cert_rules.specs.Laws.{OneWhy};

use lucid_texts::one_value;

/// No bytes are the text of two certificates.
pub fn one_why()
    ensures { OneWhy }
{
    one_value();
}
