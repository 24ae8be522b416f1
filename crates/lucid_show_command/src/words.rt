//! The words of the command that shows.
ghost use Rattle.std.specs.Prelude.{◌≡◌, ◌≢◌, false, ◌∷◌, ◌++◌, [], map, unwrap_or, option_map, codes, IfOk, OnOk};
ghost use Rattle.std.specs.String.{string_bytes};
ghost use Rattle.clap.specs.Words.{all_of, app_of, first_of, found_of, kind_of, rows_of, rule_of};
ghost use Rattle.lucid_words.specs.Asked.{plain_words};
ghost use Rattle.lucid_words.specs.Command.{flag, text_option, with_rules, positional_rules};
ghost use Rattle.lucid_words.specs.Rows.{is_set};
ghost use Rattle.lucid_words.specs.Plain.{Answers};
ghost use Rattle.lucid_show_command.specs.Words.{show_rules, steps_rules, show_command, given_words, text_or, words_for, is_why, certificate_asked, list_words, names_in, names_asked, of_program, of_given, is_given, has_value_option, has_run_option, beside_text, alone_text, value_shown, steps_shown, words_shown, asked, MayCertify, MayMake, MayShow, plain_wanted, plain_asked};

use crate::form::{Form, form_asked};
use crate::run_words::{Steps, steps_given};
use clap::error::ErrorKind;
use clap::{Arg, ArgAction, ArgMatches, Command};
use lucid_top::Task;
use lucid_value::Name;
use lucid_words::{Words, WordsRefusal, read_words};
use std::alloc::{AllocError, Global};
use std::mem;

/// What is asked for: words of `lucid` that make a certificate, the names whose values are told, which are all where there are none, and the
/// form in which they are.
#[derive(Drop)]
pub struct Wanted {
    pub words: Words,
    pub names: Vec<Name>,
    pub form: Form,
}

/// What is asked for.
#[derive(Drop)]
pub enum Asked {
    /// A value, by what it was computed from.
    Value(Wanted),
    /// A run, by its steps.
    Steps(Steps),
    /// Options that don't go together, by the line that tells so.
    Misplaced(&'static [u8]),
}

const BESIDE: &[u8] =
    b"usage: lucid_show --steps takes no --at, --as or --names: these are for one value\n";

const ALONE: &[u8] =
    b"usage: lucid_show takes --count, --policy, --age and --room with --steps alone\n";

// An option with any text as its value. Its id is its name.
fn text_option(alloc: Global, name: &'static str) -> Arg<'static>
    ensures rule { rule_of result ≡ text_option name.entry.now }
    ensures local { result.global ≡ false }
{
    Arg::new(alloc, name).long(name)
}

// A flag.
fn flag(alloc: Global, name: &'static str) -> Arg<'static>
    ensures rule { rule_of result ≡ flag name.entry.now }
    ensures local { result.global ≡ false }
{
    text_option(alloc, name).action(ArgAction::SetTrue)
}

// Adds the options of a value.
fn with_options<'a>(alloc: Global, command: Command<'a>) -> Result<Command<'a>, AllocError>
    ensures { IfOk result (λ c. app_of c ≡ with_rules (app_of command.entry) show_rules) }
{
    command
        .arg(text_option(alloc, "at"))?
        .arg(text_option(alloc, "as"))?
        .arg(text_option(alloc, "depth"))?
        .arg(text_option(alloc, "names"))?
        .arg(text_option(alloc, "cells"))
}

// Adds `--steps` and the options of a run.
fn with_steps<'a>(alloc: Global, command: Command<'a>) -> Result<Command<'a>, AllocError>
    ensures { IfOk result (λ c. app_of c ≡ with_rules (app_of command.entry) steps_rules) }
{
    command
        .arg(flag(alloc, "steps"))?
        .arg(text_option(alloc, "count"))?
        .arg(text_option(alloc, "policy"))?
        .arg(text_option(alloc, "age"))?
        .arg(text_option(alloc, "room"))
}

// Adds the program and the inputs.
fn with_positionals<'a>(alloc: Global, command: Command<'a>) -> Result<Command<'a>, AllocError>
    ensures { IfOk result (λ c. app_of c ≡ with_rules (app_of command.entry) positional_rules) }
{
    command
        .arg(Arg::new(alloc, "program"))?
        .arg(Arg::new(alloc, "input").action(ArgAction::Append))
}

// The whole command.
fn show_command<'a>(alloc: Global) -> Result<Command<'a>, AllocError>
    ensures { IfOk result (λ c. app_of c ≡ show_command) }
{
    let bare = Command::new(alloc, "lucid_show")
        .no_binary_name(true)
        .disable_help_flag(true)
        .disable_version_flag(true);
    let command = with_options(alloc, bare)?;
    let command = with_steps(alloc, command)?;
    with_positionals(alloc, command)
}

// Adds a word.
fn add_word(alloc: Global, words: &mut Vec<String>, word: &str) -> Result<(), AllocError>
    ensures { OnOk result (map string_bytes words.new.items ≡ map string_bytes words.old.items ++ word.now ∷ []) }
{
    words.push(String::from_str(alloc, word)?)?;
    Ok(())
}

/// Adds two words.
pub(crate) fn add_two(
    alloc: Global,
    words: &mut Vec<String>,
    first: &str,
    second: &str,
) -> Result<(), AllocError>
    ensures { OnOk result (map string_bytes words.new.items ≡ map string_bytes words.old.items ++ first.now ∷ second.now ∷ []) }
{
    add_word(alloc, words, first)?;
    add_word(alloc, words, second)
}

// Adds words.
fn add_words(alloc: Global, words: &mut Vec<String>, more: &[&str]) -> Result<(), AllocError>
    ensures { OnOk result (map string_bytes words.new.items ≡ map string_bytes words.old.items ++ map (λ word. word.now) more.now) }
{
    for word in more {
        add_word(alloc, words, word)?;
    }
    Ok(())
}

/// The text of an option, where it is given.
pub(crate) fn text_of<'a>(matches: &ArgMatches<'a>, name: &str) -> Option<&'a str>
    ensures { option_map (λ text. text.now) result ≡ first_of name.now (rows_of (found_of matches.now)) }
{
    matches.get_str(name)
}

/// The text of an option, or its default.
pub(crate) fn text_or<'a>(matches: &ArgMatches<'a>, name: &str, default: &'static str) -> &'a str
    ensures { result.now ≡ text_or name.now default.entry.now (rows_of (found_of matches.now)) }
{
    match matches.get_str(name) {
        Some(text) => text,
        None => default,
    }
}

// Whether an option is given.
fn is_given(matches: &ArgMatches<'_>, name: &str) -> bool
    ensures { result ≡ is_given name.now (rows_of (found_of matches.now)) }
{
    match matches.get_str(name) {
        Some(_) => true,
        None => false,
    }
}

// Whether a flag is set.
fn is_set(matches: &ArgMatches<'_>, name: &str) -> bool
    ensures { result ≡ is_set name.now (rows_of (found_of matches.now)) }
{
    match matches.get_str(name) {
        Some(value) => value == "true",
        None => false,
    }
}

/// Adds a word and a value, where this is given.
pub(crate) fn add_given(
    alloc: Global,
    words: &mut Vec<String>,
    word: &str,
    value: Option<&str>,
) -> Result<(), AllocError>
    ensures { OnOk result (map string_bytes words.new.items ≡ map string_bytes words.old.items ++ given_words word.now (option_map (λ text. text.now) value.entry)) }
{
    match value {
        Some(value) => add_two(alloc, words, word, value),
        None => Ok(()),
    }
}

/// Adds the inputs.
pub(crate) fn add_inputs(
    alloc: Global,
    words: &mut Vec<String>,
    matches: &ArgMatches<'_>,
) -> Result<(), AllocError>
    ensures { OnOk result (map string_bytes words.new.items
        ≡ map string_bytes words.old.items ++ unwrap_or (all_of (codes "input") (rows_of (found_of matches.now))) []) }
{
    match matches.get_strs("input") {
        Some(texts) => add_words(alloc, words, texts),
        None => Ok(()),
    }
}

// The words of the command that make a certificate of the value of a program.
#[tactic(auto, unfolding(crate::specs::Words::words_for))]
fn words_of(
    alloc: Global,
    matches: &ArgMatches<'_>,
    program: &str,
) -> Result<Vec<String>, AllocError>
    ensures { IfOk result (λ words. map string_bytes words.items ≡ words_for (rows_of (found_of matches.now)) program.now) }
{
    let mut words = Vec::new(alloc);
    let at = text_or(matches, "at", "4");
    add_two(alloc, &mut words, "--why", at)?;
    let cells = text_or(matches, "cells", "2000");
    add_two(alloc, &mut words, "--count", cells)?;
    add_given(alloc, &mut words, "--depth", text_of(matches, "depth"))?;
    add_two(alloc, &mut words, "--", program)?;
    add_inputs(alloc, &mut words, matches)?;
    Ok(words)
}

// Whether a certificate is asked for.
#[tactic(auto, unfolding(crate::specs::Words::is_why))]
fn is_why(task: Task) -> bool
    ensures { result ≡ is_why task }
{
    match task {
        Task::Why => true,
        _ => false,
    }
}

// The words, where they ask for a certificate.
fn read_certificate(alloc: Global, texts: &[String]) -> Result<Words, WordsRefusal>
    ensures asked { Answers plain_words (certificate_asked (map string_bytes texts.now)) result }
    ensures begins { IfOk result MayCertify }
{
    let words = read_words(alloc, texts)?;
    if !is_why(Task::of(&words)) {
        return Err(WordsRefusal::Usage);
    }
    Ok(words)
}

// The words that make a certificate of the value of a program.
fn read_program(
    alloc: Global,
    matches: &ArgMatches<'_>,
    program: &str,
) -> Result<Words, WordsRefusal>
    ensures asked { Answers plain_words (certificate_asked (words_for (rows_of (found_of matches.now)) program.now)) result }
    ensures begins { IfOk result MayCertify }
{
    let texts = words_of(alloc, matches, program)?;
    read_certificate(alloc, &texts)
}

// The words that list names, which `lucid` would take for columns.
fn words_of_list(alloc: Global, list: &str, program: &str) -> Result<Vec<String>, AllocError>
    ensures { IfOk result (λ words. map string_bytes words.items ≡ list_words list.now program.now) }
{
    let mut words = Vec::new(alloc);
    add_two(alloc, &mut words, "--columns", list)?;
    add_two(alloc, &mut words, "--", program)?;
    Ok(words)
}

// The names of a list.
fn names_in(alloc: Global, list: &str, program: &str) -> Result<Vec<Name>, WordsRefusal>
    ensures { Answers (λ names. names.items) (names_in list.now program.now) result }
{
    let texts = words_of_list(alloc, list, program)?;
    let mut words = read_words(alloc, &texts)?;
    Ok(mem::replace(&mut words.columns, Vec::new(alloc)))
}

// The names that are asked for.
fn names_asked(alloc: Global, list: Option<&str>, program: &str) -> Result<Vec<Name>, WordsRefusal>
    ensures { Answers (λ names. names.items) (names_asked (option_map (λ text. text.now) list.entry) program.now) result }
{
    match list {
        Some(list) => names_in(alloc, list, program),
        None => Ok(Vec::new(alloc)),
    }
}

// What is asked for of a program.
fn wanted_of(alloc: Global, matches: &ArgMatches<'_>, program: &str) -> Result<Wanted, WordsRefusal>
    ensures asked { Answers plain_wanted (of_program (rows_of (found_of matches.now)) program.now) result }
    ensures begins { IfOk result MayMake }
{
    let words = read_program(alloc, matches, program)?;
    let names = names_asked(alloc, text_of(matches, "names"), program)?;
    let Some(form) = form_asked(text_of(matches, "as")) else {
        return Err(WordsRefusal::Usage);
    };
    Ok(Wanted { words, names, form })
}

// The same of a program that may not be given.
fn read_given(
    alloc: Global,
    matches: &ArgMatches<'_>,
    program: Option<&str>,
) -> Result<Wanted, WordsRefusal>
    ensures asked { Answers plain_wanted (of_given (rows_of (found_of matches.now)) (option_map (λ text. text.now) program.entry)) result }
    ensures begins { IfOk result MayMake }
{
    match program {
        Some(program) => wanted_of(alloc, matches, program),
        None => Err(WordsRefusal::Usage),
    }
}

// Whether an option of a value alone is given.
fn has_value_option(matches: &ArgMatches<'_>) -> bool
    ensures { result ≡ has_value_option (rows_of (found_of matches.now)) }
{
    is_given(matches, "at") || is_given(matches, "as") || is_given(matches, "names")
}

// Whether an option of a run alone is given.
fn has_run_option(matches: &ArgMatches<'_>) -> bool
    ensures { result ≡ has_run_option (rows_of (found_of matches.now)) }
{
    is_given(matches, "count")
        || is_given(matches, "policy")
        || is_given(matches, "age")
        || is_given(matches, "room")
}

// What is asked for of a run, with `--steps`.
fn steps_in(alloc: Global, matches: &ArgMatches<'_>) -> Result<Asked, WordsRefusal>
    ensures asked { Answers plain_asked (steps_shown (rows_of (found_of matches.now))) result }
    ensures begins { IfOk result MayShow }
{
    if has_value_option(matches) {
        return Ok(Asked::Misplaced(BESIDE));
    }
    let steps = steps_given(alloc, matches, text_of(matches, "program"))?;
    Ok(Asked::Steps(steps))
}

// What is asked for of a value, without it.
fn value_in(alloc: Global, matches: &ArgMatches<'_>) -> Result<Asked, WordsRefusal>
    ensures asked { Answers plain_asked (value_shown (rows_of (found_of matches.now))) result }
    ensures begins { IfOk result MayShow }
{
    if has_run_option(matches) {
        return Ok(Asked::Misplaced(ALONE));
    }
    let wanted = read_given(alloc, matches, text_of(matches, "program"))?;
    Ok(Asked::Value(wanted))
}

// What is asked for, from what `clap` found.
fn asked_in(alloc: Global, matches: &ArgMatches<'_>) -> Result<Asked, WordsRefusal>
    ensures asked { Answers plain_asked (words_shown (rows_of (found_of matches.now))) result }
    ensures begins { IfOk result MayShow }
{
    if is_set(matches, "steps") {
        steps_in(alloc, matches)
    } else {
        value_in(alloc, matches)
    }
}

// Whatever `clap` refuses but for want of memory is usage.
fn refusal_of(error: &clap::Error) -> WordsRefusal
    ensures { result ≡ WordsRefusal.Usage → kind_of error.now ≢ ErrorKind.OutOfMemory }
{
    match error.kind() {
        ErrorKind::OutOfMemory => WordsRefusal::NoMemory,
        _ => WordsRefusal::Usage,
    }
}

/// Reads the words that follow the program's own name. The count of the words that make the certificate is how much is shown at most.
pub(crate) fn read_asked(alloc: Global, words: &[String]) -> Result<Asked, WordsRefusal>
    ensures asked { Answers plain_asked (asked (map string_bytes words.now)) result }
    ensures begins { IfOk result MayShow }
{
    let command = show_command(alloc)?;
    match command.try_get_matches_from(words) {
        Ok(matches) => asked_in(alloc, &matches),
        Err(error) => Err(refusal_of(&error)),
    }
}
