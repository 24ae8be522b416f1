//! The headline of a program in source form, and calls of which it and the other clauses speak. Each is the contract of a function that does
//! nothing.
ghost use Rattle.lucid_top.specs.Headline.{HeadlineFollows};
ghost use Rattle.lucid_top.specs.Witness.{CountingIsAWitness, DepthIsAWitness, InputIsAWitness, CheckIsAWitness, MakingIsAWitness, ColumnsAreAWitness};

use lucid_scan::laws::texts_are_longest;
use lucid_value::text_is_read;

/// The headline follows from the clauses of the call.
pub fn headline_follows()
    ensures { HeadlineFollows }
{}

/// The headline speaks of the call that counts to three lines: it says which bytes it writes, also where a write fails, and that it is done
/// where no call fails.
pub fn counting_is_a_witness()
    ensures { CountingIsAWitness }
{
    texts_are_longest();
    text_is_read();
}

/// The headline speaks of the same call with a depth limit of 1: it isn't too deep at time 0.
pub fn depth_is_a_witness()
    ensures { DepthIsAWitness }
{
    texts_are_longest();
    text_is_read();
}

/// The headline speaks of a call over an input: it says which line it writes, and that no more is consumed than the line that it came from.
pub fn input_is_a_witness()
    ensures { InputIsAWitness }
{
    texts_are_longest();
}

/// The clauses speak of a call that checks a certificate: they say which line it writes, and that it is done where no call fails.
pub fn check_is_a_witness()
    ensures { CheckIsAWitness }
{
    texts_are_longest();
}

/// The clauses speak of a call that makes a certificate: they say of which value its text is, and that it is done where no call fails.
pub fn making_is_a_witness()
    ensures { MakingIsAWitness }
{
    texts_are_longest();
}

/// The clauses speak of a call that runs two columns: they say which bytes it writes, and that it is done where no call fails.
pub fn columns_are_a_witness()
    ensures { ColumnsAreAWitness }
{
    texts_are_longest();
    text_is_read();
}
