//! What the words ask for, from what `clap` found in them.
ghost use Rattle.std.specs.Prelude.{◌≡◌, ◌-◌, ◌^◌, ℕ, IfOk, codes, count_by, is_some, map, unwrap_or};
ghost use Rattle.clap.specs.Words.{first_of, found_of, rows_of};
ghost use Rattle.std.specs.String.{string_bytes};
ghost use Rattle.lucid_ports.specs.Limits.{most_asked};
ghost use Rattle.lucid_words.specs.Plain.{Answers, plain_given, plain_source};
ghost use Rattle.lucid_words.specs.Asked.{check_in, columns_in, given_in, plain_words, policy_in, source_in, words_in};
ghost use Rattle.lucid_words.specs.Rows.{is_set, number_given, modes_given, has_conflict};
ghost use Rattle.lucid_words.specs.Numbers.{HasNumbersInRange, IsFromTo, IsFromToIfGiven, MadeIsFromTo};

use crate::forms::{all_given, check_of, columns_of, policy_of, source_of};
use crate::{Given, PolicyWord, Source, Words, WordsRefusal};
use clap::ArgMatches;
use lucid_ports::Options;
use lucid_value::Name;
use std::alloc::Global;

// An option is used.
fn is_given(matches: &ArgMatches<'_>, name: &str) -> bool
    ensures { result ≡ is_some (first_of name.now (rows_of (found_of matches.now))) }
{
    match matches.get_str(name) {
        Some(_) => true,
        None => false,
    }
}

// A flag is used.
fn is_set(matches: &ArgMatches<'_>, name: &str) -> bool
    ensures { result ≡ is_set name.now (rows_of (found_of matches.now)) }
{
    match matches.get_str(name) {
        Some(value) => value == "true",
        None => false,
    }
}

// The number of an option.
fn number_of(matches: &ArgMatches<'_>, name: &str) -> Option<u32>
    ensures { result ≡ number_given 32 name.now (rows_of (found_of matches.now)) }
{
    matches.get_one::<u32>(name)
}

// The number of an option, or its default. Both are from 1 to `MAX_ASKED`.
fn number_or(matches: &ArgMatches<'_>, name: &str, default: u32) -> u32
    requires given { IsFromToIfGiven 1 most_asked (number_given 32 name.now (rows_of (found_of matches.now))) }
    requires default { IsFromTo 1 most_asked default }
    ensures range { IsFromTo 1 most_asked result }
    ensures value { result ≡ unwrap_or (number_given 32 name.now (rows_of (found_of matches.now))) default }
{
    number_of(matches, name).unwrap_or(default)
}

// How many of the options are given that exclude each other.
fn exclusive_count(matches: &ArgMatches<'_>) -> usize
    ensures { result ≡ count_by (λ given. given) (modes_given (rows_of (found_of matches.now))) }
{
    [
        is_set(matches, "print"),
        is_given(matches, "columns"),
        is_set(matches, "cycles"),
        is_given(matches, "why"),
        is_given(matches, "check"),
        is_set(matches, "flat"),
        is_set(matches, "from-flat"),
    ]
    .iter()
    .filter(|given| **given)
    .count()
}

// Two options are given of which each excludes the other.
fn has_conflict(matches: &ArgMatches<'_>) -> bool
    ensures { result ≡ has_conflict (rows_of (found_of matches.now)) }
{
    exclusive_count(matches) > 1 || is_given(matches, "make") && is_set(matches, "from-flat")
}

// The options of a run.
fn run_options(matches: &ArgMatches<'_>) -> Options
    requires { HasNumbersInRange (rows_of (found_of matches.now)) }
    ensures count { result.count ≡ unwrap_or (number_given 32 (codes "count") (rows_of (found_of matches.now))) 20 }
    ensures depth { result.depth ≡ unwrap_or (number_given 32 (codes "depth") (rows_of (found_of matches.now))) 100000 }
{
    Options {
        count: number_or(matches, "count", 20),
        depth: number_or(matches, "depth", 100_000),
    }
}

// The time of an option.
fn time_of(matches: &ArgMatches<'_>, name: &str) -> Option<u64>
    ensures { result ≡ number_given 64 name.now (rows_of (found_of matches.now)) }
{
    matches.get_one::<u64>(name)
}

fn source_in(alloc: Global, matches: &ArgMatches<'_>) -> Result<Source, WordsRefusal>
    requires { HasNumbersInRange (rows_of (found_of matches.now)) }
    ensures asked { Answers plain_source (source_in (rows_of (found_of matches.now))) result }
    ensures made { IfOk result (MadeIsFromTo 1 10000) }
{
    let made = number_of(matches, "make");
    source_of(alloc, matches.get_str("program"), made)
}

fn policy_in(matches: &ArgMatches<'_>) -> Result<PolicyWord, WordsRefusal>
    ensures { Answers (λ policy. policy) (policy_in (rows_of (found_of matches.now))) result }
{
    policy_of(matches.get_str("policy"))
}

fn given_in(alloc: Global, matches: &ArgMatches<'_>) -> Result<Vec<Given>, WordsRefusal>
    ensures { Answers (λ all. map plain_given all.items) (given_in (rows_of (found_of matches.now))) result }
{
    match matches.get_strs("input") {
        Some(texts) => all_given(alloc, texts),
        None => Ok(Vec::new(alloc)),
    }
}

fn columns_in(alloc: Global, matches: &ArgMatches<'_>) -> Result<Vec<Name>, WordsRefusal>
    ensures { Answers (λ columns. columns.items) (columns_in (rows_of (found_of matches.now))) result }
{
    columns_of(alloc, matches.get_str("columns"))
}

fn check_in(alloc: Global, matches: &ArgMatches<'_>) -> Result<String, WordsRefusal>
    ensures { Answers string_bytes (check_in (rows_of (found_of matches.now))) result }
{
    check_of(alloc, matches.get_str("check"))
}

/// What the words ask for.
pub fn words_of(alloc: Global, matches: &ArgMatches<'_>) -> Result<Words, WordsRefusal>
    requires { HasNumbersInRange (rows_of (found_of matches.now)) }
    ensures asked { Answers plain_words (words_in (rows_of (found_of matches.now))) result }
    ensures age { IfOk result (λ words. IsFromTo 1 most_asked words.age) }
    ensures room { IfOk result (λ words. IsFromTo 1 most_asked words.room) }
    ensures made { IfOk result (λ words. MadeIsFromTo 1 10000 words.source) }
    ensures time { IfOk result (λ words. IsFromToIfGiven 0 (2 ^ 63 - 1) words.why) }
{
    if has_conflict(matches) {
        return Err(WordsRefusal::Usage);
    }
    let source = source_in(alloc, matches)?;
    let policy = policy_in(matches)?;
    let given = given_in(alloc, matches)?;
    let columns = columns_in(alloc, matches)?;
    let check = check_in(alloc, matches)?;
    Ok(Words {
        source,
        given,
        options: run_options(matches),
        policy,
        age: number_or(matches, "age", 10),
        room: number_or(matches, "room", 10_000),
        stats: is_set(matches, "stats"),
        print: is_set(matches, "print"),
        columns,
        cycles: is_set(matches, "cycles"),
        why: time_of(matches, "why"),
        check,
        flat: is_set(matches, "flat"),
        from_flat: is_set(matches, "from-flat"),
    })
}
