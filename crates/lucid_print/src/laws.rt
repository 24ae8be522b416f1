//! What canonical sources are read as. The function does nothing: its contract is the law.
ghost use Rattle.lucid_print.specs.Again.{CanonicalIsReadAgain};

use lucid_parse::laws::{terminals_are_unique, terminals_spell_one_tree};
use lucid_scan::laws::{
    texts_are_longest, texts_begin_no_gap, tokens_are_not_refused, tokens_stand,
};
use lucid_value::text_is_read;

/// Where the canonical source of a tree that was parsed isn't too long, scanning and parsing it gives that tree, up to places.
pub fn canonical_is_read_again()
    ensures { CanonicalIsReadAgain }
{
    text_is_read();
    texts_are_longest();
    texts_begin_no_gap();
    tokens_stand();
    tokens_are_not_refused();
    terminals_are_unique();
    terminals_spell_one_tree();
}
