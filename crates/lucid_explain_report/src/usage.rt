//! What is said of words that are refused.
ghost use Rattle.std.specs.Prelude.{◌≡◌, ℕ, ◌<◌, ◌≤◌, ◌+◌, ◌++◌, length, min, map, take, true, false, not, ◌==◌, IfOk, IfSome, IfNone, OnOk};
ghost use Rattle.std.specs.String.{string_bytes};
ghost use Rattle.std.specs.List.{prefix_len};
ghost use Rattle.lucid_explain_report.specs.Said.{goes_on, is_right_with, option_of, is_number_option, is_shown_option, has_equals, argument_advice, stands_alone, word_advice, wrong_text, texts_of, SaysWords};

use crate::faults::put_front;
use lucid_explain_source::begins;
use lucid_words::{WordsRefusal, read_words};
use std::alloc::{AllocError, Global};

// More words than this are not gone through.
const MOST_WORDS: usize = 100;

// Copies of words.
fn copies_of(alloc: Global, words: &[String]) -> Result<Vec<String>, AllocError>
    ensures { IfOk result (λ copies. map string_bytes copies.items ≡ map string_bytes words.now) }
{
    let mut copies = Vec::new(alloc);
    for word in words {
        copies.push(word.clone()?)?;
    }
    Ok(copies)
}

// Adds these words behind others.
fn add_words(alloc: Global, words: &mut Vec<String>, end: &[&str]) -> Result<(), AllocError>
    ensures { OnOk result (map string_bytes words.new.items ≡ map string_bytes words.old.items ++ texts_of end.now) }
{
    for word in end {
        words.push(String::from_str(alloc, word)?)?;
    }
    Ok(())
}

// Whether the words are right with these behind them.
fn is_right_with(alloc: Global, words: &[String], end: &[&str]) -> Result<bool, AllocError>
    ensures { IfOk result (λ b. b ≡ is_right_with (map string_bytes words.now) (texts_of end.now)) }
{
    let mut whole = copies_of(alloc, words)?;
    add_words(alloc, &mut whole, end)?;
    match read_words(alloc, &whole) {
        Ok(_) => Ok(true),
        Err(WordsRefusal::Usage) => Ok(false),
        Err(WordsRefusal::NoMemory) => Err(AllocError),
    }
}

// Whether one of the ends that are tried makes the words right.
fn goes_on(alloc: Global, words: &[String]) -> Result<bool, AllocError>
    ensures { IfOk result (λ b. b ≡ goes_on (map string_bytes words.now)) }
{
    Ok(
        is_right_with(alloc, words, &[])?
            || is_right_with(alloc, words, &["p"])?
            || is_right_with(alloc, words, &["1", "p"])?
            || is_right_with(alloc, words, &["1"])?
            || is_right_with(alloc, words, &["p", "p"])?
            || is_right_with(alloc, words, &["keep", "p"])?,
    )
}

// The number of the first word with which none of the ends that are tried makes the words right, among the first hundred.
fn first_wrong(alloc: Global, words: &[String]) -> Result<Option<usize>, AllocError>
    ensures within { IfOk result (λ found. IfSome found (λ k. (k < length words.now) × (k < 100))) }
    ensures wrong { IfOk result (λ found. IfSome found (λ k. goes_on (map string_bytes (take (k + 1) words.now)) ≡ false)) }
    ensures first { IfOk result (λ found. IfSome found (λ k. (j : ℕ) → j < k → goes_on (map string_bytes (take (j + 1) words.now)) ≡ true)) }
    ensures none { IfOk result (λ found. IfNone found ((j : ℕ) → j < min (length words.now) 100 → goes_on (map string_bytes (take (j + 1) words.now)) ≡ true)) }
{
    for count in 0..words.len().min(MOST_WORDS) {
        if !goes_on(alloc, &words[..count + 1])? {
            return Ok(Some(count));
        }
    }
    Ok(None)
}

// How many bytes stand before the `=` of a word.
fn len_of_option(word: &[u8]) -> usize
    ensures value { result ≡ prefix_len (λ b. not (b == 61)) word.now }
    ensures within { result ≤ length word.now }
{
    word.iter().take_while(|byte| **byte != b'=').count()
}

// What stands before the `=` of a word.
fn option_of(word: &[u8]) -> &[u8]
    ensures { result.now ≡ option_of word.now }
{
    &word[..len_of_option(word)]
}

// Whether this is an option with a number from 1 to 1000000.
fn is_number_option(option: &[u8]) -> bool
    ensures { result ≡ is_number_option option.now }
{
    option == b"--count".as_slice()
        || option == b"--depth".as_slice()
        || option == b"--age".as_slice()
        || option == b"--room".as_slice()
}

// Whether this is an option of `lucid_show` alone.
fn is_shown_option(option: &[u8]) -> bool
    ensures { result ≡ is_shown_option option.now }
{
    option == b"--at".as_slice()
        || option == b"--as".as_slice()
        || option == b"--names".as_slice()
        || option == b"--cells".as_slice()
        || option == b"--steps".as_slice()
}

// Whether a `=` stands in the word.
fn has_equals(word: &[u8]) -> bool
    ensures { result ≡ has_equals word.now }
{
    word.iter().any(|byte| *byte == b'=')
}

// What is said of a word that is no option.
fn argument_advice(word: &[u8]) -> &'static [u8]
    ensures { result.now ≡ argument_advice word.now }
{
    if begins(word, b"\xe2\x80") {
        b"An option begins with two plain minus signs, as --count.\n"
    } else if has_equals(word) {
        b"Before `=` stands the name of an input, and behind it its file, without blanks: `a=data.txt`.\n"
    } else {
        b"What an option wants stands behind it: of --count, --depth, --age and --room a number from 1 to 1000000, of --columns names as n,m, of --why a time. Then comes the program's file, and then NAME=FILE, as one word without blanks, for each input that has a file.\n"
    }
}

// Whether this word goes with no others.
fn stands_alone(word: &[u8]) -> bool
    ensures { result ≡ stands_alone word.now }
{
    word == b"--help".as_slice() || word == b"--version".as_slice()
}

// What is said of a word, by its beginning.
fn word_advice(word: &[u8]) -> &'static [u8]
    ensures { result.now ≡ word_advice word.now }
{
    let option = option_of(word);
    if word == b"-".as_slice() {
        b"No file is called `-`: the program stands in a file, and an input without NAME=FILE is read from the standard input.\n"
    } else if stands_alone(word) {
        b"`--help` and `--version` stand alone, as in `lucid_explain --help`.\n"
    } else if is_number_option(option) {
        b"This option has a number from 1 to 1000000, in digits alone, and is given once at most.\n"
    } else if option == b"--policy".as_slice() {
        b"The policies are keep, none, age and last, and the option is given once at most.\n"
    } else if is_shown_option(option) {
        b"This is an option of `lucid_show`, which shows how values are computed.\n"
    } else if begins(word, b"-") {
        b"The line above has the options, each of which is given once at most; of --print, --columns, --cycles, --why, --check, --flat and --from-flat one alone is given. --columns has names with commas between them, as n,m, and --why a time.\n"
    } else {
        argument_advice(word)
    }
}

// What is said of a word that doesn't go with those before it.
fn text_of_wrong(alloc: Global, word: &str) -> Result<Vec<u8>, AllocError>
    ensures { IfOk result (λ text. text.items ≡ wrong_text word.now) }
{
    let mut text = Vec::from_slice(alloc, b"This word doesn't go with those before it: ")?;
    put_front(&mut text, word.as_bytes())?;
    text.extend_from_slice(b"\n")?;
    text.extend_from_slice(word_advice(word.as_bytes()))?;
    Ok(text)
}

/// What is said of words that are refused: the first that doesn't go with those before it, or that something lacks behind them.
pub(crate) fn text_of_words(alloc: Global, words: &[String]) -> Result<Vec<u8>, AllocError>
    ensures { IfOk result (λ text. SaysWords (map string_bytes words.now) text.items) }
{
    match first_wrong(alloc, words)? {
        Some(number) => text_of_wrong(alloc, &words[number]),
        None => Vec::from_slice(
            alloc,
            b"Behind these words something lacks: the program's file, or what an option wants.\n",
        ),
    }
}
