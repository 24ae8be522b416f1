//! The words of the data operators in the flat form.
ghost use Rattle.std.specs.Prelude.{◌≡◌, true, map};
ghost use Rattle.std.specs.List.{find, list_all};
ghost use Rattle.std.specs.Str.{bytes_eq};
ghost use Rattle.lucid_flat.specs.FlatText.{op_word};
ghost use Rattle.lucid_flat.specs.Forms.{op_in, is_own, op_of};

use lucid_ops::Op;

/// A data operator, and its word.
#[derive(Clone, Copy)]
pub(crate) struct OpWord {
    pub(crate) op: Op,
    word: &'static [u8],
}

macro_rules! named {
    ($op:ident, $word:literal) => {
        OpWord {
            op: Op::$op,
            word: $word,
        }
    };
}

/// All data operators, in their order.
pub(crate) const OPS: [OpWord; 35] = [
    named!(Add, b"add"),
    named!(Sub, b"sub"),
    named!(Mul, b"mul"),
    named!(Div, b"div"),
    named!(Mod, b"mod"),
    named!(Pow, b"pow"),
    named!(Neg, b"neg"),
    named!(Abs, b"abs"),
    named!(Eq, b"eq"),
    named!(Ne, b"ne"),
    named!(Lt, b"lt"),
    named!(Le, b"le"),
    named!(Gt, b"gt"),
    named!(Ge, b"ge"),
    named!(Cmp, b"cmp"),
    named!(Not, b"not"),
    named!(Head, b"head"),
    named!(Tail, b"tail"),
    named!(Cons, b"cons"),
    named!(Append, b"append"),
    named!(Join, b"join"),
    named!(Length, b"length"),
    named!(Substr, b"substr"),
    named!(Nth, b"nth"),
    named!(MakeWord, b"makeword"),
    named!(MakeString, b"makestring"),
    named!(IsInt, b"isint"),
    named!(IsWord, b"isword"),
    named!(IsString, b"isstring"),
    named!(IsList, b"islist"),
    named!(IsTruth, b"istruth"),
    named!(IsNull, b"isnull"),
    named!(IsAtom, b"isatom"),
    named!(IsEod, b"iseod"),
    named!(IsError, b"iserror"),
];

/// The word of an operator.
pub(crate) fn op_word(op: Op) -> &'static [u8]
    ensures { result.now ≡ op_word op }
{
    OPS[op as usize].word
}

fn has_word(row: OpWord, word: &[u8]) -> bool
    ensures { result ≡ bytes_eq row.word.now word.now }
{
    row.word == word
}

// The first of some rows that has the word.
fn row_among(word: &[u8], rows: &[OpWord]) -> Option<OpWord>
    ensures { result ≡ find (λ r. bytes_eq r.word.now word.now) rows.now }
{
    rows.iter().copied().find(|row| has_word(*row, word))
}

// The operator of the first such row.
fn op_among(word: &[u8], rows: &[OpWord]) -> Option<Op>
    ensures { list_all is_own rows.now ≡ true → result ≡ find (λ op. bytes_eq (op_word op) word.now) (map op_in rows.now) }
{
    match row_among(word, rows) {
        Some(row) => Some(row.op),
        None => None,
    }
}

/// The operator of a word, if it is one's.
pub(crate) fn op_of(word: &[u8]) -> Option<Op>
    ensures { result ≡ op_of word.now }
{
    op_among(word, &OPS)
}
