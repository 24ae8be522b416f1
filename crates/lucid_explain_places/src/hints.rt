//! What was probably meant at a place where the tokens go wrong.
ghost use Rattle.std.specs.Prelude.{◌≡◌, ◌==◌, ℕ, ◌||◌, IfOk};
ghost use Rattle.std.specs.Char.{is_ascii_alphabetic, is_ascii_digit};
ghost use Rattle.lucid_explain_places.specs.Around.{plain_around};
ghost use Rattle.lucid_explain_places.specs.Hints.{has, is_open, is_whole, is_closing, is_comparison, is_elif, is_step, is_part_word, lacks_operand, is_capital, begins_with, is_product, breaks_line, has_return, has_comment, is_swallowed, is_behind_parameter, open_hint, whole_hint, alone_hint, equals_hint, line_hint, is_argument, definition_hint, is_shift, is_prefix, ends_subject, is_postfix, is_values, is_ended, is_defining, is_second, is_asked, is_factor, missing_hint, part_hint, lacking_hint, is_inner, inner_hint, is_parted, is_listed, is_unopened, unopened_hint, last_hint, ending_hint, closing_hint, end_hint, head_hint, is_parameter, parameter_hint, is_between, is_infix, is_ahead, goes_ahead, first_hint, is_remnant, is_cut, place_hint, is_previous, is_moment, foreign_hint, is_loop, are_next, is_joining, joining_hint, is_looping, spoken_hint, behind_hint, reads, is_behind_block, are_both, arrow_hint, pair_hint, continues, is_dashed, is_in_remark, is_remark, chains, is_astray, astray_hint, word_hint, operator_hint, is_frozen, frozen_hint, is_cut_off, token_hint, hint, is_apart, stands_bare};

use crate::around::Around;
use crate::candidates::Candidate;
use crate::shown::len_in_line;
use lucid_ops::Form as Fixity;
use lucid_parse::Operator;
use lucid_value::is_reserved;
use std::alloc::{AllocError, Global};

// Whether a token with the text may stand at the place.
fn has(text: &[u8], those: &[Candidate]) -> bool
    ensures { result ≡ has text.now those.now }
{
    those.iter().any(|candidate| candidate.text == text)
}

// Whether this is the word, and the other one may stand there.
fn reads(read: &[u8], word: &[u8], other: &[u8], those: &[Candidate]) -> bool
    ensures { result ≡ reads read.now word.now other.now those.now }
{
    read == word && has(other, those)
}

// Whether a definition, an `if` or a parenthesis is open, and what ends it or goes on with it may stand there.
fn is_open(those: &[Candidate]) -> bool
    ensures { result ≡ is_open those.now }
{
    has(b";", those)
        || has(b"then", those)
        || has(b"else", those)
        || has(b"fi", those)
        || has(b")", those)
        || has(b",", those)
}

// Whether an expression ends before the place, and nothing is open.
fn is_whole(those: &[Candidate]) -> bool
    ensures { result ≡ is_whole those.now }
{
    has(b"where", those) && !is_open(those)
}

// Whether this ends an expression, or is the end of the source.
fn is_closing(read: &[u8]) -> bool
    ensures { result ≡ is_closing read.now }
{
    matches!(read, b";" | b"end" | b")" | b"," | b"fi" | b"")
}

fn is_comparison(read: &[u8]) -> bool
    ensures { result ≡ is_comparison read.now }
{
    matches!(read, b"<" | b">" | b"<=" | b">=" | b"eq" | b"ne")
}

// Whether this is how other languages write `else if`.
fn is_elif(read: &[u8]) -> bool
    ensures { result ≡ is_elif read.now }
{
    read == b"elif".as_slice() || read == b"elsif".as_slice() || read == b"elseif".as_slice()
}

// Whether other languages write this before a `=` that changes a value.
fn is_step(read: &[u8]) -> bool
    ensures { result ≡ is_step read.now }
{
    matches!(read, b"+" | b"-" | b"*")
}

// Whether an expression stands behind the word, and it is no operator.
fn is_part_word(read: &[u8]) -> bool
    ensures { result ≡ is_part_word read.now }
{
    read == b"if".as_slice()
        || read == b"then".as_slice()
        || read == b"else".as_slice()
        || read == b"current".as_slice()
}

// Whether this is a reserved word and an operator, behind which an expression may stand.
fn lacks_operand(before: &[u8], those: &[Candidate]) -> bool
    ensures { result ≡ lacks_operand before.now those.now }
{
    has(b"1", those) && is_reserved(before) && !is_part_word(before)
}

/// Whether this is a reserved word but for capital letters.
pub fn is_capital(alloc: Global, text: &[u8]) -> Result<bool, AllocError>
    ensures { IfOk result (λ b. b ≡ is_capital text.now) }
{
    let small = text.to_ascii_lowercase(alloc)?;
    Ok(is_reserved(&small) && !is_reserved(text))
}

// Whether this begins with a digit.
fn begins_number(text: &[u8]) -> bool
    ensures { result ≡ begins_with is_ascii_digit text.now }
{
    match text {
        [] => false,
        [first, ..] => first.is_ascii_digit(),
    }
}

// Whether this begins with a letter.
fn begins_name(text: &[u8]) -> bool
    ensures { result ≡ begins_with is_ascii_alphabetic text.now }
{
    match text {
        [] => false,
        [first, ..] => first.is_ascii_alphabetic(),
    }
}

// Whether this is a number, and directly behind it a name.
fn is_product(around: &Around<'_>) -> bool
    ensures { result ≡ is_product (plain_around around.now) }
{
    around.gap.is_empty()
        && begins_number(around.before)
        && begins_name(around.read)
        && !is_reserved(around.read)
}

// Whether a line ends there.
fn breaks_line(gap: &[u8]) -> bool
    ensures { result ≡ breaks_line gap.now }
{
    gap.iter().any(|byte| *byte == b'\n')
}

// Whether a byte 13 stands there.
fn has_return(gap: &[u8]) -> bool
    ensures { result ≡ has_return gap.now }
{
    gap.iter().any(|byte| *byte == b'\r')
}

// Whether a comment begins there in the line of the token before.
fn has_comment(gap: &[u8]) -> bool
    ensures { result ≡ has_comment gap.now }
{
    gap[..len_in_line(gap)].iter().any(|byte| *byte == b'/')
}

// Whether a comment begins there that goes on to the end of the source, past a byte 13.
fn is_swallowed(gap: &[u8]) -> bool
    ensures { result ≡ is_swallowed gap.now }
{
    has_comment(gap) && has_return(gap) && !breaks_line(gap)
}

// Whether this stands behind a parameter.
fn is_behind_parameter(those: &[Candidate]) -> bool
    ensures { result ≡ is_behind_parameter those.now }
{
    has(b")", those) && !has(b"+", those)
}

// A hint where a parenthesis is open.
fn open_hint(read: &[u8]) -> &'static [u8]
    ensures { result.now ≡ open_hint read.now }
{
    if read == b",".as_slice() {
        b"Parentheses that are no call have one expression in them: a list is `x :: y :: []`. Reserved words, as `if` and `next`, are no functions: a choice is written `if .. then .. else .. fi`, and the value of n two times later `next next n`.\n"
    } else {
        b"A `(` stands open before this: its `)` is missing.\n"
    }
}

// A hint at what ends nothing, where the program may end.
fn whole_hint(around: &Around<'_>) -> &'static [u8]
    ensures { result.now ≡ whole_hint (plain_around around.now) }
{
    if around.read == b")".as_slice() {
        b"Before this no `(` is open: leave it out.\n"
    } else if around.read == b",".as_slice() {
        b"A program has one subject. Names of its block are written side by side by `--columns x,y`. Tests are joined by `and`, and values by `::`, as in `x :: y :: []`.\n"
    } else if around.read == b"fi".as_slice() {
        b"Before this no `if` is open: leave the `fi` out.\n"
    } else if around.before == b"end".as_slice() {
        b"Before this the program is whole: leave out what stands behind.\n"
    } else if around.read == b";".as_slice() {
        b"Behind a definition alone stands `;`: leave it out.\n"
    } else {
        b"Before this no `where` is open: leave the `end` out.\n"
    }
}

// A hint at a `=` alone.
fn alone_hint(read: &[u8], those: &[Candidate]) -> &'static [u8]
    ensures { result.now ≡ alone_hint read.now those.now }
{
    if has(b"end", those) {
        b"The name that is defined is missing before this.\n"
    } else if is_whole(those) {
        b"A program begins with an expression, and its definitions stand behind `where`: `n where n = 1; end`. To compare, write `eq`.\n"
    } else if is_behind_parameter(those) {
        open_hint(read)
    } else if has(b";", those) {
        b"A definition has one name and one `=`: two are written `x = 0; y = 0;`. To compare, write `eq`.\n"
    } else {
        b"`=` stands in definitions alone: to compare, write `eq`.\n"
    }
}

// A hint at a `=`.
#[tactic(auto, unfolding(crate::specs::Hints::equals_hint))]
fn equals_hint(around: &Around<'_>, those: &[Candidate]) -> &'static [u8]
    ensures { result.now ≡ equals_hint (plain_around around.now) those.now }
{
    if around.before.is_empty() {
        b"A program begins with an expression, and no `=` stands before it.\n"
    } else if around.after == b">".as_slice() {
        b"To compare, write `>=`.\n"
    } else if around.after == b"<".as_slice() {
        b"To compare, write `<=`.\n"
    } else if around.after == b"=".as_slice() {
        b"To compare, write `eq`.\n"
    } else if around.before == b"=".as_slice() {
        b"A definition has one name and one `=`: two are written `x = 0; y = 0;`. To compare, write `eq`.\n"
    } else {
        alone_hint(around.read, those)
    }
}

// A hint in a definition.
#[tactic(auto, unfolding(crate::specs::Hints::definition_hint))]
fn definition_hint(read: &[u8], those: &[Candidate]) -> &'static [u8]
    ensures { result.now ≡ definition_hint read.now those.now }
{
    if reads(read, b",", b";", those) {
        b"Each definition ends with `;`. Tests are joined by `and`, and values by `::`, as in `x :: y :: []`.\n"
    } else if has(b";", those) {
        b"Each definition ends with `;`, the last one before `end` too.\n"
    } else if is_closing(read) && has(b"end", those) {
        b"Behind `where` come the definitions, and then `end`.\n"
    } else if reads(read, b"where", b"end", those) {
        b"One `where` stands before all definitions of a block, and before the `where` of an inner block stands no `;`.\n"
    } else if has(b"end", those) && is_reserved(read) {
        b"This word is reserved: no name is spelled so.\n"
    } else if has(b"1", those) {
        b"An expression is missing before this.\n"
    } else {
        b""
    }
}

// A hint at a `;` that lacks at the end of a line.
fn line_hint(gap: &[u8]) -> &'static [u8]
    ensures { result.now ≡ line_hint gap.now }
{
    if has_comment(gap) {
        b"Whole division is `div`: what stands behind `//` is a comment. Or is the `;` missing before it?\n"
    } else {
        b"Is the `;` missing at the end of the line before?\n"
    }
}

// Whether this stands behind a name, and before no `=`: an argument was meant.
fn is_argument(around: &Around<'_>, those: &[Candidate]) -> bool
    ensures { result ≡ is_argument (plain_around around.now) those.now }
{
    has(b"(", those) && !has(b"1", those) && around.after != b"=".as_slice()
}

// Whether two numbers stand there, where a program may end.
fn is_values(around: &Around<'_>, those: &[Candidate]) -> bool
    ensures { result ≡ is_values (plain_around around.now) those.now }
{
    is_whole(those) && begins_number(around.before) && begins_number(around.read)
}

// Whether this stands behind a block that may be the whole program.
fn is_ended(around: &Around<'_>, those: &[Candidate]) -> bool
    ensures { result ≡ is_ended (plain_around around.now) those.now }
{
    is_whole(those) && around.before == b"end".as_slice()
}

// Whether a definition stands there, where none may stand.
fn is_defining(around: &Around<'_>, those: &[Candidate]) -> bool
    ensures { result ≡ is_defining (plain_around around.now) those.now }
{
    is_whole(those) && (breaks_line(around.gap) || around.after == b"=".as_slice())
}

// Whether this is a second subject, in a line of its own before `where`.
fn is_second(around: &Around<'_>, those: &[Candidate]) -> bool
    ensures { result ≡ is_second (plain_around around.now) those.now }
{
    is_whole(those) && (breaks_line(around.gap) && around.after == b"where".as_slice())
}

// Whether this is `eod` or `error` as a function.
fn is_asked(around: &Around<'_>) -> bool
    ensures { result ≡ is_asked (plain_around around.now) }
{
    (around.before == b"eod".as_slice() || around.before == b"error".as_slice())
        && around.read == b"(".as_slice()
}

// Whether this is a number, and behind it a name that begins no definition.
fn is_factor(around: &Around<'_>) -> bool
    ensures { result ≡ is_factor (plain_around around.now) }
{
    begins_number(around.before)
        && begins_name(around.read)
        && !is_reserved(around.read)
        && around.after != b"=".as_slice()
}

// Whether this is one of the commonest operators that stand before what they take.
fn is_shift(read: &[u8]) -> bool
    ensures { result ≡ is_shift read.now }
{
    read == b"first".as_slice() || read == b"next".as_slice()
}

// Whether this is one of those, or one that takes a list: they too stand before what they take.
fn is_prefix(read: &[u8]) -> bool
    ensures { result ≡ is_prefix read.now }
{
    is_shift(read)
        || read == b"hd".as_slice()
        || read == b"tl".as_slice()
        || read == b"length".as_slice()
}

// Whether this ends an expression, or its definitions begin.
fn ends_subject(after: &[u8]) -> bool
    ensures { result ≡ ends_subject after.now }
{
    is_closing(after) || after == b"where".as_slice()
}

// Whether this is such an operator behind an expression, and nothing stands behind it that it could take.
fn is_postfix(around: &Around<'_>, those: &[Candidate]) -> bool
    ensures { result ≡ is_postfix (plain_around around.now) those.now }
{
    is_prefix(around.read) && ends_subject(around.after) && has(b"+", those)
}

// A hint at an operator that lacks before the place, or at the end of a definition.
fn missing_hint(around: &Around<'_>, those: &[Candidate]) -> &'static [u8]
    ensures { result.now ≡ missing_hint (plain_around around.now) those.now }
{
    if is_postfix(around, those) {
        b"This operator stands before what it takes, as in `next n`.\n"
    } else if is_argument(around, those) {
        b"Is an operator or `where` missing before this, or misspelt? Arguments stand in parentheses, as in `f(x)`, and a string of words as `two words'.\n"
    } else if is_factor(around) {
        b"Is an operator missing before this, or misspelt? A product is written `2 * n`, a value and then others `0 fby n`, and the value of n two times later `next next n`.\n"
    } else {
        definition_hint(around.read, those)
    }
}

// A hint at a token that lacks before the place in an `if` or a call.
#[tactic(auto, unfolding(crate::specs::Hints::part_hint))]
fn part_hint(around: &Around<'_>, those: &[Candidate]) -> &'static [u8]
    ensures { result.now ≡ part_hint (plain_around around.now) those.now }
{
    if is_asked(around) {
        b"`eod` and `error` are values: whether n is one of them is asked by `iseod n` and `iserror n`.\n"
    } else if has(b"then", those) {
        b"Behind the test of an `if` stands `then`.\n"
    } else if has(b"else", those) {
        b"Is `else` missing before this, or an operator? A choice is written `if .. then .. else .. fi`, and a call `f(x)`.\n"
    } else if has(b"fi", those) {
        b"Is `fi` missing before this, or an operator? Each `if` ends with a `fi` of its own, and a call is written `f(x)`.\n"
    } else if has(b",", those) {
        b"Is a `,` or a `)` missing before this? A call is written `f(x, y)`.\n"
    } else {
        missing_hint(around, those)
    }
}

// A hint at a token that lacks before the place.
fn lacking_hint(around: &Around<'_>, those: &[Candidate]) -> &'static [u8]
    ensures { result.now ≡ lacking_hint (plain_around around.now) those.now }
{
    if has(b";", those) && breaks_line(around.gap) {
        line_hint(around.gap)
    } else if is_ended(around, those) {
        whole_hint(around)
    } else if is_values(around, those) {
        b"Two numbers stand here, and no operator between them. Values of an input stand in a file of their own: `NAME=FILE` behind the program.\n"
    } else if is_second(around, those) {
        b"A program has one subject: `n :: m :: []` is one, and `--columns n,m` writes names of its block side by side.\n"
    } else if is_defining(around, those) {
        b"Is `where` missing before the definitions?\n"
    } else {
        part_hint(around, those)
    }
}

// Whether the source ends behind a block in a definition.
fn is_inner(around: &Around<'_>, those: &[Candidate]) -> bool
    ensures { result ≡ is_inner (plain_around around.now) those.now }
{
    has(b";", those) && around.read.is_empty() && around.before == b"end".as_slice()
}

// A hint where a definition goes on, and what stands there doesn't.
fn inner_hint(around: &Around<'_>, those: &[Candidate]) -> &'static [u8]
    ensures { result.now ≡ inner_hint (plain_around around.now) those.now }
{
    if is_inner(around, those) {
        b"Each `where` has an `end` of its own: one is missing. Here the last `end` ends an inner block: where that is whole before, write `end;` there, and else `; end` here.\n"
    } else if around.read == b"fi".as_slice() && has(b";", those) {
        b"In this definition no `if` is open: leave the `fi` out, or end the definition with `;`.\n"
    } else {
        definition_hint(around.read, those)
    }
}

// Whether a `;` stands before `else` or `fi`.
fn is_parted(around: &Around<'_>) -> bool
    ensures { result ≡ is_parted (plain_around around.now) }
{
    around.read == b";".as_slice()
        && (around.after == b"else".as_slice() || around.after == b"fi".as_slice())
}

// Whether a comma stands between two numbers.
fn is_listed(around: &Around<'_>) -> bool
    ensures { result ≡ is_listed (plain_around around.now) }
{
    around.read == b",".as_slice() && begins_number(around.before) && begins_number(around.after)
}

// Whether this is a `)` behind an expression, in a definition or an `if` that has no `(` open.
fn is_unopened(read: &[u8], those: &[Candidate]) -> bool
    ensures { result ≡ is_unopened read.now those.now }
{
    reads(read, b")", b"where", those) && is_open(those) && !has(b")", those)
}

// A hint at such a `)`.
fn unopened_hint(those: &[Candidate]) -> &'static [u8]
    ensures { result.now ≡ unopened_hint those.now }
{
    if has(b";", those) {
        b"In this definition no `(` is open: leave the `)` out, or end the definition with `;`, and its block with `end`.\n"
    } else if has(b"else", those) {
        b"In this `if` no `(` is open: leave the `)` out, or end the `if` with `else` and `fi`. To keep some values alone, write `n whenever n > 3`.\n"
    } else {
        b"In this `if` no `(` is open: leave the `)` out, or end the `if`, which has `then`, `else` and `fi`.\n"
    }
}

// A hint at a `fi` that lacks.
fn last_hint(before: &[u8]) -> &'static [u8]
    ensures { result.now ≡ last_hint before.now }
{
    if before == b"end".as_slice() {
        b"Each `if` ends with a `fi` of its own. A `where` between an `if` and its `fi` defines names for the part alone in which it stands.\n"
    } else {
        b"Each `if` ends with a `fi` of its own.\n"
    }
}

// A hint where an expression ends, and no `if` is open.
#[tactic(auto, unfolding(crate::specs::Hints::ending_hint))]
fn ending_hint(around: &Around<'_>, those: &[Candidate]) -> &'static [u8]
    ensures { result.now ≡ ending_hint (plain_around around.now) those.now }
{
    if reads(around.read, b";", b",", those) {
        b"A `(` stands open before this: its `)` is missing, or a `,` between two arguments, as in `f(x, y)`.\n"
    } else if has(b")", those) {
        open_hint(around.read)
    } else if is_listed(around) {
        b"No `,` stands here between numbers: there are no real numbers, a stream is `1 fby 2 fby 3`, and a list `[% 1 2 3 %]`.\n"
    } else if is_whole(those) {
        whole_hint(around)
    } else {
        inner_hint(around, those)
    }
}

// A hint where an expression ends that may not end there, or the program goes on that may end.
fn closing_hint(around: &Around<'_>, those: &[Candidate]) -> &'static [u8]
    ensures { result.now ≡ closing_hint (plain_around around.now) those.now }
{
    if is_parted(around) {
        b"Before `else` and `fi` stands no `;`.\n"
    } else if is_unopened(around.read, those) {
        unopened_hint(those)
    } else if has(b"fi", those) {
        last_hint(around.before)
    } else if has(b"else", those) {
        b"An `if` has an `else`, and ends with `fi`. To keep some values alone, write `n whenever n > 3`.\n"
    } else {
        ending_hint(around, those)
    }
}

// A hint where something ends, or a token lacks.
fn end_hint(around: &Around<'_>, those: &[Candidate]) -> &'static [u8]
    ensures { result.now ≡ end_hint (plain_around around.now) those.now }
{
    if is_closing(around.read) {
        closing_hint(around, those)
    } else {
        lacking_hint(around, those)
    }
}

// A hint behind the name of a definition.
#[tactic(auto, unfolding(crate::specs::Hints::head_hint))]
fn head_hint(around: &Around<'_>) -> &'static [u8]
    ensures { result.now ≡ head_hint (plain_around around.now) }
{
    if is_step(around.read) && around.after == b"=".as_slice() {
        b"A name is defined once, for all times: `n = 0 fby n + 1;`.\n"
    } else if around.read == b"-".as_slice() && around.gap.is_empty() {
        b"A name has letters, digits and `_` alone.\n"
    } else if around.read == b"::".as_slice() {
        b"Kinds of values aren't declared: behind the name stands `=`, and then what it is.\n"
    } else if is_comparison(around.read) {
        b"A definition begins with the name that it defines, and then `=`: `n = 1;`. A condition on times stands behind `whenever`, as in `n whenever n > 3`.\n"
    } else if around.read.is_empty() {
        b"Behind `where` come the definitions, and then `end`.\n"
    } else {
        b"A definition begins with the name that it defines, and then `=`: `n = 1;`. Parameters stand in parentheses: `f(x) = x + 1;`.\n"
    }
}

// Whether the parameters of a function stand there.
fn is_parameter(those: &[Candidate]) -> bool
    ensures { result ≡ is_parameter those.now }
{
    has(b"x", those) && !(has(b"1", those) || has(b"end", those))
}

// A hint at a parameter.
fn parameter_hint(read: &[u8]) -> &'static [u8]
    ensures { result.now ≡ parameter_hint read.now }
{
    if is_reserved(read) {
        b"This word is reserved: no name is spelled so.\n"
    } else {
        b"A parameter is a name. What depends on it is written with `if`; a stream that begins with 0 is `n = 0 fby n + 1;`, without parentheses.\n"
    }
}

// Whether an operator that is written so stands between two expressions.
fn is_between(form: Option<Fixity>) -> bool
    ensures { result ≡ is_between form }
{
    match form {
        Some(Fixity::Between) => true,
        Some(Fixity::Before) | Some(Fixity::Called) | None => false,
    }
}

// Whether this is an operator that stands between two expressions.
fn is_infix(read: &[u8]) -> bool
    ensures { result ≡ is_infix read.now }
{
    match Operator::find(read) {
        Some(operator) => is_between(operator.row().form),
        None => false,
    }
}

// Whether an operator that is written so stands before what it takes.
fn is_ahead(form: Option<Fixity>) -> bool
    ensures { result ≡ is_ahead form }
{
    match form {
        Some(Fixity::Before) => true,
        Some(Fixity::Between) | Some(Fixity::Called) | None => false,
    }
}

// Whether this is an operator that stands before what it takes.
fn goes_ahead(read: &[u8]) -> bool
    ensures { result ≡ goes_ahead read.now }
{
    match Operator::find(read) {
        Some(operator) => is_ahead(operator.row().form),
        None => false,
    }
}

// A hint at the first token, or where there is none.
fn first_hint(read: &[u8]) -> &'static [u8]
    ensures { result.now ≡ first_hint read.now }
{
    if read.is_empty() {
        b"The program has no token: it is empty, or has blanks and comments alone. Is its file saved?\n"
    } else {
        b"A program begins with an expression, and its definitions stand behind `where`: `n where n = 1; end`.\n"
    }
}

// Whether this follows the end of a definition, and begins none with its name.
fn is_remnant(around: &Around<'_>) -> bool
    ensures { result ≡ is_remnant (plain_around around.now) }
{
    around.before == b";".as_slice() && around.after != b"=".as_slice()
}

// Whether such a thing is an operator between two expressions.
fn is_cut(around: &Around<'_>) -> bool
    ensures { result ≡ is_cut (plain_around around.now) }
{
    is_remnant(around) && is_infix(around.read)
}

// A hint by where the place stands.
#[tactic(auto, unfolding(crate::specs::Hints::place_hint))]
fn place_hint(around: &Around<'_>, those: &[Candidate]) -> &'static [u8]
    ensures { result.now ≡ place_hint (plain_around around.now) those.now }
{
    if is_cut(around) {
        b"This operator stands between two expressions, as `fby` in `0 fby n`: before it stands no `;`.\n"
    } else if has(b"1", those) && is_infix(around.read) {
        b"This operator stands between two expressions, as `fby` in `0 fby n`.\n"
    } else if around.before.is_empty() {
        first_hint(around.read)
    } else if has(b"is", those) {
        head_hint(around)
    } else if is_parameter(those) {
        parameter_hint(around.read)
    } else {
        end_hint(around, those)
    }
}

// Whether this is how other languages write the value before.
fn is_previous(around: &Around<'_>) -> bool
    ensures { result ≡ is_previous (plain_around around.now) }
{
    around.before == b"prev".as_slice()
        || around.before == b"pre".as_slice()
        || (around.before == b"last".as_slice()
            && begins_name(around.read)
            && !is_reserved(around.read)
            && !breaks_line(around.gap))
}

// Whether a definition was to begin with the time of a value.
fn is_moment(around: &Around<'_>, those: &[Candidate]) -> bool
    ensures { result ≡ is_moment (plain_around around.now) those.now }
{
    has(b"end", those) && around.after != b"=".as_slice() && is_shift(around.read)
}

// A hint at words of other languages, where a program goes on.
fn foreign_hint(around: &Around<'_>, those: &[Candidate]) -> &'static [u8]
    ensures { result.now ≡ foreign_hint (plain_around around.now) those.now }
{
    if has(b"where", those) && around.before == b"let".as_slice() {
        b"There is no `let`: definitions stand behind `where`, as in `n where n = 1; end`.\n"
    } else if has(b"where", those) && around.before == b"head".as_slice() {
        b"The first item of a list l is `hd l`, and the others are `tl l`.\n"
    } else if has(b"where", those) && is_previous(around) {
        b"The value of n one time before is `(0 fby n)`, which is 0 at first.\n"
    } else if is_moment(around, those) {
        b"A name is defined once, for all times: `n = 0 fby n + 1;`.\n"
    } else {
        place_hint(around, those)
    }
}

// Whether other languages begin a loop so.
fn is_loop(before: &[u8]) -> bool
    ensures { result ≡ is_loop before.now }
{
    before == b"for".as_slice() || before == b"while".as_slice()
}

// Whether these are the token at the place and the one behind it.
fn are_next(around: &Around<'_>, read: &[u8], after: &[u8]) -> bool
    ensures { result ≡ are_next (plain_around around.now) read.now after.now }
{
    around.read == read && around.after == after
}

// Whether this is the word, where a program goes on: it begins neither a line nor a definition.
fn is_joining(around: &Around<'_>, word: &[u8], those: &[Candidate]) -> bool
    ensures { result ≡ is_joining (plain_around around.now) word.now those.now }
{
    reads(around.read, word, b"where", those)
        && (!breaks_line(around.gap) && around.after != b"=".as_slice())
}

// A hint at words that other languages write between two expressions.
#[tactic(auto, unfolding(crate::specs::Hints::joining_hint))]
fn joining_hint(around: &Around<'_>, those: &[Candidate]) -> &'static [u8]
    ensures { result.now ≡ joining_hint (plain_around around.now) those.now }
{
    if is_joining(around, b"at", those) {
        b"The value of n at time 3 is `n attime 3`.\n"
    } else if is_joining(around, b"until", those) || is_joining(around, b"while", those) {
        b"A run ends where the subject is `eod`, as in `if n > 5 then eod else n fi`, or by --count N.\n"
    } else if is_joining(around, b"equals", those) {
        b"To compare, write `eq`.\n"
    } else {
        foreign_hint(around, those)
    }
}

// Whether a loop stands there, or one behind an expression.
fn is_looping(around: &Around<'_>, those: &[Candidate]) -> bool
    ensures { result ≡ is_looping (plain_around around.now) those.now }
{
    (has(b"where", those) && is_loop(around.before)) || is_joining(around, b"for", those)
}

// A hint at words of a text, where an operator lacks.
#[tactic(auto, unfolding(crate::specs::Hints::spoken_hint))]
fn spoken_hint(around: &Around<'_>, those: &[Candidate]) -> &'static [u8]
    ensures { result.now ≡ spoken_hint (plain_around around.now) those.now }
{
    if are_next(around, b"followed", b"by") {
        b"`followed by` is written `fby`, as in `0 fby n`.\n"
    } else if are_next(around, b"as", b"soon") {
        b"`as soon as` is written `asa`, as in `n asa n > 3`.\n"
    } else if is_looping(around, those) {
        b"There are no loops: `n = 0 fby n + 1;` defines the values of all times, `n * n` has their squares, and --count N says how many are written.\n"
    } else {
        joining_hint(around, those)
    }
}

// A hint by the token before.
fn behind_hint(around: &Around<'_>, those: &[Candidate]) -> &'static [u8]
    ensures { result.now ≡ behind_hint (plain_around around.now) those.now }
{
    if around.before == b"is".as_slice() {
        b"Behind `is` stands `current`: a definition is written with `=`.\n"
    } else if around.before == b"return".as_slice() {
        b"There is no `return`: the right side of `=` is the value.\n"
    } else if around.before == b"print".as_slice() {
        b"There is no `print`: a program writes the values of its subject, with which it begins.\n"
    } else if is_product(around) {
        b"A product is written with `*`, as in `2 * n`. A number has digits alone.\n"
    } else {
        spoken_hint(around, those)
    }
}

// Whether this is an operator behind a block.
fn is_behind_block(around: &Around<'_>) -> bool
    ensures { result ≡ is_behind_block (plain_around around.now) }
{
    around.before == b"end".as_slice() && is_infix(around.read)
}

// Whether these are the token before the place and the one at it.
fn are_both(around: &Around<'_>, before: &[u8], read: &[u8]) -> bool
    ensures { result ≡ are_both (plain_around around.now) before.now read.now }
{
    around.before == before && around.read == read
}

// A hint at an arrow.
fn arrow_hint(around: &Around<'_>, those: &[Candidate]) -> &'static [u8]
    ensures { result.now ≡ arrow_hint (plain_around around.now) those.now }
{
    if are_both(around, b"=", b">") {
        b"A definition is written with `=` alone, as in `f(x) = x + 1;`.\n"
    } else if are_both(around, b"-", b">") {
        b"There is no `->`: a function is written `f(x) = x + 1;`, and for `0 -> pre n + 1` write `0 fby n + 1`.\n"
    } else {
        behind_hint(around, those)
    }
}

// A hint by both.
#[tactic(auto, unfolding(crate::specs::Hints::pair_hint))]
fn pair_hint(around: &Around<'_>, those: &[Candidate]) -> &'static [u8]
    ensures { result.now ≡ pair_hint (plain_around around.now) those.now }
{
    if are_both(around, b"+", b"+") {
        b"There is no `++`: write `n + 1`. Lists are joined by `<>`, and strings by `^`.\n"
    } else if are_both(around, b"(", b")") {
        b"A function has one argument at least: what has none is a plain name, without parentheses.\n"
    } else if reads(around.read, b"+", b"1", those) {
        b"No `+` stands before a number: write `1`.\n"
    } else if is_behind_block(around) {
        b"A block before an operator stands in parentheses: `(n where n = 1; end) + 1`.\n"
    } else {
        arrow_hint(around, those)
    }
}

// Whether an `else` may stand where this stands for `else if`.
fn continues(read: &[u8], those: &[Candidate]) -> bool
    ensures { result ≡ continues read.now those.now }
{
    is_elif(read) && has(b"else", those)
}

// Whether a comment was to begin with two `-`.
fn is_dashed(around: &Around<'_>, those: &[Candidate]) -> bool
    ensures { result ≡ is_dashed (plain_around around.now) those.now }
{
    around.read == b"-".as_slice() && (has(b"end", those) || around.after == b"-".as_slice())
}

// Whether such a comment begins the line of the token before.
fn is_in_remark(around: &Around<'_>) -> bool
    ensures { result ≡ is_in_remark (plain_around around.now) }
{
    around.line.starts_with(b"--")
}

// Whether other languages begin a comment so.
fn is_remark(around: &Around<'_>, those: &[Candidate]) -> bool
    ensures { result ≡ is_remark (plain_around around.now) those.now }
{
    are_both(around, b"(", b"*") || is_dashed(around, those) || is_in_remark(around)
}

// Whether this compares what is compared already.
fn chains(read: &[u8], those: &[Candidate]) -> bool
    ensures { result ≡ chains read.now those.now }
{
    is_comparison(read) && has(b"+", those)
}

// Whether this is `then` or `else` behind an expression, in a definition, a parenthesis or a whole program that has no `if` open.
fn is_astray(read: &[u8], those: &[Candidate]) -> bool
    ensures { result ≡ is_astray read.now those.now }
{
    (read == b"then".as_slice() || read == b"else".as_slice())
        && has(b"+", those)
        && !(has(b"then", those) || has(b"else", those) || has(b"fi", those))
}

// A hint at such a word.
fn astray_hint(those: &[Candidate]) -> &'static [u8]
    ensures { result.now ≡ astray_hint those.now }
{
    if has(b")", those) {
        b"A `(` stands open before this: its `)` is missing.\n"
    } else if has(b";", those) {
        b"In this definition no `if` is open: a choice is written `if .. then .. else .. fi`. What follows a first value stands behind `fby`, as in `0 fby n`.\n"
    } else {
        b"Before this no `if` is open: a choice is written `if .. then .. else .. fi`. What follows a first value stands behind `fby`, as in `0 fby n`.\n"
    }
}

// A hint by the token, where it is a word.
fn word_hint(around: &Around<'_>, those: &[Candidate]) -> &'static [u8]
    ensures { result.now ≡ word_hint (plain_around around.now) those.now }
{
    if reads(around.read, b"if", b"where", those) {
        b"A choice is written `if .. then .. else .. fi`.\n"
    } else if reads(around.read, b"when", b"where", those) {
        b"A condition on times stands behind `whenever`, as in `n whenever n > 3`, and definitions stand behind `where`.\n"
    } else if continues(around.read, those) {
        b"Write `else if .. then .. else .. fi fi`: each `if` ends with a `fi` of its own.\n"
    } else if is_remark(around, those) {
        b"A comment begins with `//`.\n"
    } else if is_astray(around.read, those) {
        astray_hint(those)
    } else {
        pair_hint(around, those)
    }
}

// A hint by the token, where it is an operator.
#[tactic(auto, unfolding(crate::specs::Hints::operator_hint))]
fn operator_hint(around: &Around<'_>, those: &[Candidate]) -> &'static [u8]
    ensures { result.now ≡ operator_hint (plain_around around.now) those.now }
{
    if chains(around.read, those) {
        b"Comparisons don't chain: write `1 < n and n < 5`.\n"
    } else if reads(around.read, b"not", b"1", those) {
        b"Here `not` stands in parentheses, as in `a eq (not b)`.\n"
    } else if reads(around.read, b"not", b"+", those) {
        b"What differs is written with `ne`, as in `n ne 3`.\n"
    } else {
        word_hint(around, those)
    }
}

// Whether this is a word of a definition that freezes a value.
fn is_frozen(read: &[u8]) -> bool
    ensures { result ≡ is_frozen read.now }
{
    read == b"current".as_slice() || read == b"is".as_slice()
}

// A hint at such a word.
fn frozen_hint(read: &[u8]) -> &'static [u8]
    ensures { result.now ≡ frozen_hint read.now }
{
    if read == b"current".as_slice() {
        b"Write `k is current n;`, without `=`.\n"
    } else {
        b"To compare, write `eq`. `k is current n;` defines a plain name, behind `where`.\n"
    }
}

// Whether the source ends there with a comment that was to end before.
fn is_cut_off(around: &Around<'_>) -> bool
    ensures { result ≡ is_cut_off (plain_around around.now) }
{
    around.read.is_empty() && is_swallowed(around.gap)
}

// A hint by the token.
fn token_hint(around: &Around<'_>, those: &[Candidate]) -> &'static [u8]
    ensures { result.now ≡ token_hint (plain_around around.now) those.now }
{
    if is_cut_off(around) {
        b"Here lines end with a carriage return (byte 13) alone, and a comment goes on past it: save the file with line ends of Unix (LF).\n"
    } else if around.read == b"=".as_slice() {
        equals_hint(around, those)
    } else if is_frozen(around.read) {
        frozen_hint(around.read)
    } else {
        operator_hint(around, those)
    }
}

/// What was probably meant at the place.
pub(crate) fn hint(
    alloc: Global,
    around: &Around<'_>,
    those: &[Candidate],
) -> Result<&'static [u8], AllocError>
    ensures { IfOk result (λ text. text.now ≡ hint (plain_around around.now) those.now) }
{
    if is_capital(alloc, around.before)? || is_capital(alloc, around.read)? {
        return Ok(b"Reserved words are spelled in small letters, as `where` and `if`.\n");
    }
    Ok(token_hint(around, those))
}

// Whether something is said of the place itself, though an operator lacks what it takes.
fn is_apart(around: &Around<'_>, those: &[Candidate]) -> bool
    ensures { result ≡ is_apart (plain_around around.now) those.now }
{
    is_cut_off(around) || around.read == b"not".as_slice() || is_remark(around, those)
}

/// Whether the word before the place is an operator, and what it takes lacks.
#[tactic(auto, unfolding(crate::specs::Hints::stands_bare))]
pub(crate) fn stands_bare(around: &Around<'_>, those: &[Candidate]) -> bool
    ensures { result ≡ stands_bare (plain_around around.now) those.now }
{
    lacks_operand(around.before, those)
        && (goes_ahead(around.before) || !is_infix(around.read))
        && !is_apart(around, those)
}
