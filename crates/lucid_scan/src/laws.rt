//! What holds of the tokens and the refusals of every source. The functions do nothing: each one's contract is the law.
ghost use Rattle.lucid_scan.specs.Laws.{TokensAreUnique, TokensAreNotRefused, RefusalIsUnique, TokensAreInOrder, TokensAreFew, TokensStand, TextsAreLongest, TextsBeginNoGap};

use lucid_value::one_list_front;

/// A source has at most one list of tokens.
pub fn tokens_are_unique()
    ensures { TokensAreUnique }
{}

/// A source that has tokens and isn't too long is refused for want of memory alone.
pub fn tokens_are_not_refused()
    ensures { TokensAreNotRefused }
{}

/// Want of memory apart, a source has at most one refusal.
pub fn refusal_is_unique()
    ensures { RefusalIsUnique }
{}

/// The spans of tokens aren't empty, are in order and lie within the source.
pub fn tokens_are_in_order()
    ensures { TokensAreInOrder }
{}

/// There are at most as many tokens as bytes.
pub fn tokens_are_few()
    ensures { TokensAreFew }
{}

/// Each token's span is a text of its kind.
pub fn tokens_stand()
    ensures { TokensStand }
{}

/// A token's text that stops is the longest token where it stands.
pub fn texts_are_longest()
    ensures { TextsAreLongest }
{
    one_list_front();
}

/// No token begins with a blank or a comment.
pub fn texts_begin_no_gap()
    ensures { TextsBeginNoGap }
{}
