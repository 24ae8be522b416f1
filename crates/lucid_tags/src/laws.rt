//! Laws of equal tags, keys and contexts. A function does nothing: its contract is the law.
ghost use Rattle.lucid_tags.specs.EqualityDecides.{SameContextIsEquality, SameKeyIsEquality, SameTagIsEquality};

/// Two tags are equal exactly where their contexts' numbers and their spaces are.
pub fn same_tag_is_equality()
    ensures { SameTagIsEquality }
{}

/// Two contexts are equal exactly where they are the same frame by frame.
pub fn same_context_is_equality()
    ensures { SameContextIsEquality }
{}

/// Two keys are equal exactly where their names, their tags and their times are.
pub fn same_key_is_equality()
    ensures { SameKeyIsEquality }
{}
