//! What the words ask for, and the form of the source.
ghost use Rattle.std.specs.Prelude.{◌≡◌};
ghost use Rattle.lucid_words.specs.Asked.{plain_words};
ghost use Rattle.lucid_top.specs.Tasks.{task_of, form_of};
ghost use Rattle.lucid_top.specs.Asked.{task_in, IsSaidBy};

use lucid_value::Name;
use lucid_words::{Source, Words};

/// What the words ask for: a run, or one of the options that exclude each other.
#[derive(Clone, Copy, Debug, PartialEq, Eq)]
pub enum Task {
    /// The values of the program's stream.
    Run,
    /// `--print`: the canonical source.
    Print,
    /// `--columns`: the values of several names, side by side.
    Columns,
    /// `--cycles`: a depth that is enough, or a cycle.
    Cycles,
    /// `--why`: a certificate of the value at a time.
    Why,
    /// `--check`: whether a certificate is right.
    Check,
    /// `--flat`: the flat form.
    Flat,
}

/// The form of the source.
#[derive(Clone, Copy)]
pub enum Form {
    /// The text in a file.
    Text,
    /// The text of a made program.
    Made,
    /// `--from-flat`: the flat form in a file.
    Flat,
}

/// What the words ask for, with what belongs to it.
#[derive(Clone, Copy)]
pub enum Asked<'a> {
    /// A run, by a source of this form.
    Run(Form),
    Print,
    /// The values of these names.
    Columns(&'a [Name]),
    Cycles,
    /// A certificate of the value at this time.
    Why(u64),
    /// Whether the certificate in the file of this name is right.
    Check(&'a str),
    Flat,
}

impl Form {
    // The form of the source that the words name.
    fn of(words: &Words) -> Form
        ensures { result ≡ form_of (plain_words words.now) }
    {
        match &words.source {
            Source::Made(_) => Form::Made,
            Source::File(_) if words.from_flat => Form::Flat,
            Source::File(_) => Form::Text,
        }
    }
}

impl<'a> Asked<'a> {
    /// What the words ask for.
    pub fn of(words: &'a Words) -> Asked<'a>
        ensures task { task_in result ≡ task_of (plain_words words.entry.now) }
        ensures said { IsSaidBy (plain_words words.entry.now) result }
    {
        if words.print {
            Asked::Print
        } else if !words.columns.is_empty() {
            Asked::Columns(&words.columns)
        } else if words.cycles {
            Asked::Cycles
        } else if let Some(time) = words.why {
            Asked::Why(time)
        } else if !words.check.is_empty() {
            Asked::Check(&words.check)
        } else if words.flat {
            Asked::Flat
        } else {
            Asked::Run(Form::of(words))
        }
    }

    // The task alone.
    fn task(self) -> Task
        ensures { result ≡ task_in self.entry }
    {
        match self {
            Asked::Run(_) => Task::Run,
            Asked::Print => Task::Print,
            Asked::Columns(_) => Task::Columns,
            Asked::Cycles => Task::Cycles,
            Asked::Why(_) => Task::Why,
            Asked::Check(_) => Task::Check,
            Asked::Flat => Task::Flat,
        }
    }
}

impl Task {
    /// What the words ask for.
    pub fn of(words: &Words) -> Task
        ensures { result ≡ task_of (plain_words words.now) }
    {
        Asked::of(words).task()
    }
}
