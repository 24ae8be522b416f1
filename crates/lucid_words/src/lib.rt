//! The words of the command line: what the command was asked for, or that it was asked wrongly.
#![tactic(auto)]

ghost use Rattle.std.specs.Prelude.{◌≡◌, ◌≢◌, ◌-◌, ◌^◌, IfOk, map};
ghost use Rattle.std.specs.String.{string_bytes};
ghost use Rattle.clap.specs.Words.{kind_of};
ghost use Rattle.lucid_words.specs.Plain.{Answers};
ghost use Rattle.lucid_words.specs.Asked.{plain_words, words_asked};
ghost use Rattle.lucid_ports.specs.Limits.{most_asked};
ghost use Rattle.lucid_words.specs.Numbers.{IsFromTo, IsFromToIfGiven, MadeIsFromTo};

mod command;
mod forms;
mod reading;

use crate::command::lucid_command;
use crate::reading::words_of;
use clap::error::ErrorKind;
use lucid_ports::Options;
use lucid_value::{MakeRefusal, Name};
use std::alloc::{AllocError, Global};
use thiserror::Error;

/// Where the source of the program comes from.
#[derive(Drop)]
pub enum Source {
    /// The file of this name.
    File(String),
    /// The made program whose last name has this number.
    Made(u32),
}

/// A file that is given for an input of the program.
#[derive(Drop)]
pub struct Given {
    /// The name of the input.
    pub name: Name,
    /// The name of the file.
    pub file: String,
}

/// The retirement policy that the words ask for.
#[derive(Clone, Copy, Debug, PartialEq, Eq)]
pub enum PolicyWord {
    /// `keep`: nothing is dropped.
    Keep,
    /// `none`: nothing is held.
    Nothing,
    /// `age`: what was not touched for long is dropped.
    Ages,
    /// `last`: the values last touched are held.
    Last,
}

/// What the words ask for. An option that is not given has its default.
pub struct Words {
    /// The program.
    pub source: Source,
    /// The files of its inputs, in the order of the words.
    pub given: Vec<Given>,
    /// How many lines, and how deep.
    pub options: Options,
    /// `--policy`; `keep` where it is not given.
    pub policy: PolicyWord,
    /// `--age`; 10 where it is not given.
    pub age: u32,
    /// `--room`; 10,000 where it is not given.
    pub room: u32,
    /// `--stats`.
    pub stats: bool,
    /// `--print`.
    pub print: bool,
    /// The names of `--columns`, in order; none where it is not given.
    pub columns: Vec<Name>,
    /// `--cycles`.
    pub cycles: bool,
    /// The time of `--why`.
    pub why: Option<u64>,
    /// The file of `--check`; empty where it is not given.
    pub check: String,
    /// `--flat`.
    pub flat: bool,
    /// `--from-flat`.
    pub from_flat: bool,
}

// Not derived: a derived one is proved again wherever one is dropped.
impl Drop for Words {
    fn drop(self) {
        let Words {
            source,
            given,
            options,
            policy,
            age,
            room,
            stats,
            print,
            columns,
            cycles,
            why,
            check,
            flat,
            from_flat,
        } = self;
    }
}

/// Why words were not read.
#[derive(Clone, Copy, Debug, PartialEq, Eq, Error)]
pub enum WordsRefusal {
    /// They are not words of this command.
    #[error("usage")]
    Usage,
    /// Want of memory.
    #[error("no memory")]
    NoMemory,
}

impl From<AllocError> for WordsRefusal {
    ghost use Rattle.std.specs.Prelude.{◌≡◌};
    ghost use Rattle.lucid_words.specs.declared.WordsRefusal.TheVariants.{NoMemory};

    ghost from_gives = { λ _ made. made ≡ NoMemory };

    fn from(_error: AllocError) -> WordsRefusal {
        WordsRefusal::NoMemory
    }
}

impl From<MakeRefusal> for WordsRefusal {
    ghost use Rattle.lucid_words.specs.Refusal.{refusal_for};
    ghost use Rattle.std.specs.Prelude.{◌≡◌};

    ghost from_gives = { λ refusal made. made ≡ refusal_for refusal };

    fn from(refusal: MakeRefusal) -> WordsRefusal {
        match refusal {
            MakeRefusal::NotThat => WordsRefusal::Usage,
            MakeRefusal::NoMemory => WordsRefusal::NoMemory,
        }
    }
}

// Whatever `clap` refuses but for want of memory is usage.
fn refusal_of(error: &clap::Error) -> WordsRefusal
    ensures { result ≡ WordsRefusal.Usage → kind_of error.now ≢ ErrorKind.OutOfMemory }
{
    match error.kind() {
        ErrorKind::OutOfMemory => WordsRefusal::NoMemory,
        _ => WordsRefusal::Usage,
    }
}

/// Reads the words that follow the program's own name.
pub fn read_words(alloc: Global, words: &[String]) -> Result<Words, WordsRefusal>
    ensures asked { Answers plain_words (words_asked (map string_bytes words.now)) result }
    ensures count { IfOk result (λ words. IsFromTo 1 most_asked words.options.count) }
    ensures depth { IfOk result (λ words. IsFromTo 1 most_asked words.options.depth) }
    ensures age { IfOk result (λ words. IsFromTo 1 most_asked words.age) }
    ensures room { IfOk result (λ words. IsFromTo 1 most_asked words.room) }
    ensures made { IfOk result (λ words. MadeIsFromTo 1 10000 words.source) }
    ensures time { IfOk result (λ words. IsFromToIfGiven 0 (2 ^ 63 - 1) words.why) }
{
    let command = lucid_command(alloc)?;
    match command.try_get_matches_from(words) {
        Ok(matches) => words_of(alloc, &matches),
        Err(error) => Err(refusal_of(&error)),
    }
}
