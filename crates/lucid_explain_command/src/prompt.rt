//! What is said before an input is read from a terminal.
ghost use Rattle.std.specs.Prelude.{◌≡◌, false, map, Some, None, IfOk};
ghost use Rattle.std.specs.String.{string_bytes};
ghost use Rattle.lucid_words.specs.Asked.{plain_words, words_asked};
ghost use Rattle.lucid_explain_run.specs.Prompts.{TellsPrompt};
ghost use Rattle.lucid_explain_report.specs.Causes.{asks_columns};
ghost use Rattle.lucid_explain_report.specs.Files.{plain_again};
ghost use Rattle.lucid_explain_report.specs.Said.{names_given};
ghost use Rattle.lucid_explain_command.specs.Prompted.{asks_text, asks_lines, run_file, PromptsBy, IsPrompt};

use lucid_explain_report::{Again, Outlook, PAST_SOURCE, asks_columns, given_names};
use lucid_explain_run::explain_prompt;
use lucid_words::{Source, Words, WordsRefusal, read_words};
use std::alloc::{AllocError, Global};

// Whether the words ask for a text of the program.
fn asks_text(asked: &Words) -> bool
    ensures { result ≡ asks_text (plain_words asked.now) }
{
    asked.print || asked.cycles || asked.flat || asked.from_flat
}

/// Whether they ask for lines of values, and for no certificate.
pub(crate) fn asks_lines(asked: &Words) -> bool
    ensures { result ≡ asks_lines (plain_words asked.now) }
{
    !asks_text(asked) && asked.why.is_none() && asked.check.is_empty()
}

// What is said of a source before it is run with these words.
fn prompt_of_source(alloc: Global, asked: &Words, source: &[u8]) -> Result<Vec<u8>, AllocError>
    ensures { IfOk result (λ text. TellsPrompt source.now (names_given (plain_words asked.now).given) text.items) }
{
    let given = given_names(alloc, &asked.given)?;
    explain_prompt(alloc, source, &given)
}

// What is said of a program by what is seen of its file.
fn prompt_by_file(alloc: Global, asked: &Words, again: &Again) -> Result<Vec<u8>, AllocError>
    ensures { IfOk result (λ text. PromptsBy (plain_words asked.now) (plain_again again.now) text.items) }
{
    match again {
        Again::Bytes(source) => prompt_of_source(alloc, asked, source),
        Again::Unread => Ok(Vec::new(alloc)),
        Again::Gone => Ok(Vec::new(alloc)),
    }
}

// What is said of the program in the file of this name.
fn prompt_of_file<F: Outlook>(
    alloc: Global,
    words: &[String],
    asked: &Words,
    name: &str,
    outlook: &F,
) -> Result<Vec<u8>, AllocError>
    requires read { words_asked (map string_bytes words.now) ≡ Some (plain_words asked.now) }
    requires file { run_file (plain_words asked.now) ≡ Some name.now }
    ensures { IfOk result (λ text. IsPrompt (F.files outlook.now) (map string_bytes words.now) text.items) }
{
    let again = outlook.reread(alloc, name, PAST_SOURCE)?;
    prompt_by_file(alloc, asked, &again)
}

// Nothing is said of a call that runs no program of a file.
fn prompt_of_none<F: Outlook>(
    alloc: Global,
    words: &[String],
    asked: &Words,
    outlook: &F,
) -> Vec<u8>
    requires read { words_asked (map string_bytes words.now) ≡ Some (plain_words asked.now) }
    requires no_file { run_file (plain_words asked.now) ≡ None }
    ensures { IsPrompt (F.files outlook.now) (map string_bytes words.now) result.items }
{
    Vec::new(alloc)
}

// What is said of a call that runs a program, or makes or checks a certificate of it.
fn prompt_of_run<F: Outlook>(
    alloc: Global,
    words: &[String],
    asked: &Words,
    outlook: &F,
) -> Result<Vec<u8>, AllocError>
    requires read { words_asked (map string_bytes words.now) ≡ Some (plain_words asked.now) }
    requires no_text { asks_text (plain_words asked.now) ≡ false }
    requires no_columns { asks_columns (plain_words asked.now) ≡ false }
    ensures { IfOk result (λ text. IsPrompt (F.files outlook.now) (map string_bytes words.now) text.items) }
{
    match &asked.source {
        Source::File(name) => prompt_of_file(alloc, words, asked, name, outlook),
        Source::Made(_) => Ok(prompt_of_none(alloc, words, asked, outlook)),
    }
}

// What is said of a call with words that were read.
fn prompt_of_call<F: Outlook>(
    alloc: Global,
    words: &[String],
    asked: &Words,
    outlook: &F,
) -> Result<Vec<u8>, AllocError>
    requires { words_asked (map string_bytes words.now) ≡ Some (plain_words asked.now) }
    ensures { IfOk result (λ text. IsPrompt (F.files outlook.now) (map string_bytes words.now) text.items) }
{
    if asks_text(asked) {
        Ok(prompt_of_none(alloc, words, asked, outlook))
    } else if asks_columns(asked) {
        Ok(prompt_of_none(alloc, words, asked, outlook))
    } else {
        prompt_of_run(alloc, words, asked, outlook)
    }
}

/// What is said before the call with these words is done, where the standard input is a terminal: which input is read from there.
pub(crate) fn text_of_prompt<F: Outlook>(
    alloc: Global,
    words: &[String],
    outlook: &F,
) -> Result<Vec<u8>, AllocError>
    ensures { IfOk result (λ text. IsPrompt (F.files outlook.now) (map string_bytes words.now) text.items) }
{
    match read_words(alloc, words) {
        Ok(asked) => prompt_of_call(alloc, words, &asked, outlook),
        Err(WordsRefusal::Usage) => Ok(Vec::new(alloc)),
        Err(WordsRefusal::NoMemory) => Err(AllocError),
    }
}
