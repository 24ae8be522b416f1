//! What is said of a call that was stopped, by the reason alone.
ghost use Rattle.std.specs.Prelude.{◌≡◌};
ghost use Rattle.lucid_explain_report.specs.Stops.{store_text, given_text, refusal_text, stop_text};

use lucid_report::{Refusal, Stop};

// What is said of a value that is too deep, where the figures are told.
fn store_text(cleared: u64, stats: bool) -> &'static [u8]
    ensures { result.now ≡ store_text cleared stats }
{
    if !stats {
        b""
    } else if cleared == 0 {
        b"The store wasn't cleared.\n"
    } else {
        b"The store was cleared on the way: more than 1,000,000 contexts were known. So values were computed anew, which wants more depth.\n"
    }
}

// What is said of a name for which a word gives a file.
#[tactic(auto, unfolding(crate::specs::Stops::given_text))]
fn given_text(name: &[u8]) -> &'static [u8]
    ensures { result.now ≡ given_text name.now }
{
    if name == b"count".as_slice() || name == b"depth".as_slice() {
        b"An option begins with two minus signs, as --count=5: this word gives a file for a name, which in the program isn't free.\n"
    } else {
        b"A word gives a file for this name, but in the program it isn't free: leave the word out, or mend the name.\n"
    }
}

// What is said of a refusal.
fn refusal_text(refusal: &Refusal) -> &'static [u8]
    ensures { result.now ≡ refusal_text refusal.now }
{
    match refusal {
        Refusal::TooLong =>
            b"A source has at most 1,048,576 bytes, and in the flat form 67,108,864.\n",
        Refusal::TooNested { .. } =>
            b"This stands more than 400 levels deep: give an inner part a name of its own behind `where`.\n",
        Refusal::NoColumn { .. } =>
            b"A column is a name that the program's outermost block defines without parameters.\n",
        Refusal::NoFlatLine { .. } =>
            b"No table's text goes on with this line. What `lucid --flat` writes of a program has the right form.\n",
        Refusal::FlatScope { .. }
        | Refusal::FlatNode { .. }
        | Refusal::FlatName { .. }
        | Refusal::FlatPlace { .. } =>
            b"The row of this number, from 0 among those of its kind, doesn't fit the table. What `lucid --flat` writes of a program fits.\n",
        Refusal::FlatRoot =>
            b"The root, or a row of an input, doesn't fit the table. What `lucid --flat` writes of a program fits.\n",
        Refusal::NotJudged { .. } =>
            b"`--cycles` judges constants, data operators, `if`, `and`, `or`, `first`, `next`, `fby`, inputs, plain names and blocks of plain definitions: at the place stands something else.\n",
        Refusal::TooManyNames => b"`--cycles` judges programs of at most 2,000 plain names.\n",
        Refusal::NotFree { name } => given_text(name.bytes()),
        Refusal::GivenTwice { .. } =>
            b"Two words give a file for this name: leave one of them out.\n",
        Refusal::NoInput =>
            b"A name that nothing defines is an input. One of them may be read from the standard input; give each other a file, as in NAME=FILE. Often such a name is misspelt.\n",
        Refusal::CertificateTooLong => b"A certificate has at most 268,435,456 bytes.\n",
        Refusal::NoJudgment { .. } =>
            b"No certificate's text goes on with this line: a context stands in a line as `c BASE PLACE CALLER` or `z BASE TIME`, and behind all of these a judgment as `j NODE CONTEXT TIME SPACE K U .. VALUE`.\n",
        _ => b"",
    }
}

/// What is said of a call that was stopped, by the reason alone; nothing where there is nothing to say.
pub fn stop_text(stop: &Stop) -> &'static [u8]
    ensures { result.now ≡ stop_text stop.now }
{
    match stop {
        Stop::Refused(refusal) => refusal_text(refusal),
        Stop::ReadFault => b"",
        Stop::WriteFault =>
            b"The standard output can't be written: the disk may be full. Or a program that reads it has ended, as `head` does: that is no mistake.\n",
        Stop::TooDeep { cleared, stats, .. } => store_text(*cleared, *stats),
        Stop::TooLarge { .. } =>
            b"An element of this input that is needed ends past the bytes of it that may be read, 268,435,456.\n",
        Stop::Wrong { .. } =>
            b"The judgment of this number, from 0, isn't what its node gives from the judgments that it uses, or it is the last one and not that of the program itself. The certificate is false, or it is one of another program or of other inputs.\n",
        Stop::NoMemory =>
            b"There is not memory enough. A smaller --depth needs less, and so does --policy last with a small --room.\n",
    }
}
