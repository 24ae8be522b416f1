//! The words of a run that is shown.
ghost use Rattle.std.specs.Prelude.{◌≡◌, map, option_map, IfOk};
ghost use Rattle.std.specs.String.{string_bytes};
ghost use Rattle.clap.specs.Words.{found_of, rows_of};
ghost use Rattle.lucid_words.specs.Asked.{plain_words};
ghost use Rattle.lucid_words.specs.Plain.{Answers};
ghost use Rattle.lucid_show_command.specs.Words.{run_words, is_run, run_asked, count_words, number_in, steps_of_program, steps_of_given, plain_steps};

use crate::words::{add_given, add_inputs, add_two, text_of, text_or};
use clap::ArgMatches;
use lucid_top::Task;
use lucid_words::{Words, WordsRefusal, read_words};
use std::alloc::{AllocError, Global};

/// What is asked for of a run: words of `lucid` that run a program, its file, and how many lines of values are told at most.
#[derive(Drop)]
pub struct Steps {
    pub words: Vec<String>,
    pub program: String,
    pub most: u32,
}

// The words of `lucid` that run a program.
#[tactic(auto, unfolding(crate::specs::Words::run_words))]
fn words_of_run(
    alloc: Global,
    matches: &ArgMatches<'_>,
    program: &str,
) -> Result<Vec<String>, AllocError>
    ensures { IfOk result (λ words. map string_bytes words.items ≡ run_words (rows_of (found_of matches.now)) program.now) }
{
    let mut words = Vec::new(alloc);
    add_given(alloc, &mut words, "--count", text_of(matches, "count"))?;
    add_given(alloc, &mut words, "--policy", text_of(matches, "policy"))?;
    add_given(alloc, &mut words, "--age", text_of(matches, "age"))?;
    add_given(alloc, &mut words, "--room", text_of(matches, "room"))?;
    add_given(alloc, &mut words, "--depth", text_of(matches, "depth"))?;
    add_two(alloc, &mut words, "--", program)?;
    add_inputs(alloc, &mut words, matches)?;
    Ok(words)
}

// Whether a run is asked for.
#[tactic(auto, unfolding(crate::specs::Words::is_run))]
fn is_run(task: Task) -> bool
    ensures { result ≡ is_run task }
{
    match task {
        Task::Run => true,
        _ => false,
    }
}

// The words, where they ask for a run.
fn read_run(alloc: Global, texts: &[String]) -> Result<Words, WordsRefusal>
    ensures { Answers plain_words (run_asked (map string_bytes texts.now)) result }
{
    let words = read_words(alloc, texts)?;
    if !is_run(Task::of(&words)) {
        return Err(WordsRefusal::Usage);
    }
    Ok(words)
}

// The words that `lucid` takes for a count of lines.
fn words_of_count(alloc: Global, number: &str, program: &str) -> Result<Vec<String>, AllocError>
    ensures { IfOk result (λ words. map string_bytes words.items ≡ count_words number.now program.now) }
{
    let mut words = Vec::new(alloc);
    add_two(alloc, &mut words, "--count", number)?;
    add_two(alloc, &mut words, "--", program)?;
    Ok(words)
}

// The number that is a count.
fn number_in(alloc: Global, number: &str, program: &str) -> Result<u32, WordsRefusal>
    ensures { Answers (λ number. number) (number_in number.now program.now) result }
{
    let texts = words_of_count(alloc, number, program)?;
    let words = read_words(alloc, &texts)?;
    Ok(words.options.count)
}

// What is asked for of a run of a program.
fn steps_of(alloc: Global, matches: &ArgMatches<'_>, program: &str) -> Result<Steps, WordsRefusal>
    ensures { Answers plain_steps (steps_of_program (rows_of (found_of matches.now)) program.now) result }
{
    let words = words_of_run(alloc, matches, program)?;
    read_run(alloc, &words)?;
    let most = number_in(alloc, text_or(matches, "cells", "2000"), program)?;
    let program = String::from_str(alloc, program)?;
    Ok(Steps {
        words,
        program,
        most,
    })
}

/// The same of a program that may not be given.
pub(crate) fn steps_given(
    alloc: Global,
    matches: &ArgMatches<'_>,
    program: Option<&str>,
) -> Result<Steps, WordsRefusal>
    ensures { Answers plain_steps (steps_of_given (rows_of (found_of matches.now)) (option_map (λ text. text.now) program.entry)) result }
{
    match program {
        Some(program) => steps_of(alloc, matches, program),
        None => Err(WordsRefusal::Usage),
    }
}
