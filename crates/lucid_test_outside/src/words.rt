use crate::told::{first_false, must, none_wrong};
use lucid_words::*;
use std::alloc::{AllocError, Global};
use std::test::Fail;

// The words of a line, which stand in it with one blank between two.
fn words_in(alloc: Global, line: &str) -> Result<Vec<String>, AllocError> {
    let mut words = Vec::new(alloc);
    for word in line.split(' ') {
        words.push(String::from_str(alloc, word)?)?;
    }
    Ok(words)
}

// What the words of a line ask for.
fn read_line(alloc: Global, line: &str) -> Result<Words, WordsRefusal> {
    read_words(alloc, words_in(alloc, line)?.as_slice())
}

// Which of the flags --stats, --print, --cycles, --flat and --from-flat are set.
fn flags_of(words: &Words) -> [bool; 5] {
    [
        words.stats,
        words.print,
        words.cycles,
        words.flat,
        words.from_flat,
    ]
}

// The numbers of --count, --depth, --age and --room.
fn numbers_of(words: &Words) -> [u32; 4] {
    [
        words.options.count,
        words.options.depth,
        words.age,
        words.room,
    ]
}

fn is_file(words: &Words, wanted: &str) -> bool {
    matches!(&words.source, Source::File(file) if file.as_str() == wanted)
}

// Whether the input of that number has this name and this file.
fn is_given(words: &Words, number: usize, name: &str, file: &str) -> bool {
    match words.given.get(number) {
        Some(given) => given.name.bytes() == name.as_bytes() && given.file.as_str() == file,
        None => false,
    }
}

// The first of the defaults that another value stands for.
fn first_other(words: &Words) -> Option<usize> {
    first_false(&[
        is_file(words, "p"),
        words.given.len() == 1,
        is_given(words, 0, "a", "f"),
        numbers_of(words) == [20, 100_000, 10, 10_000],
        words.policy == PolicyWord::Keep,
        flags_of(words) == [false; 5],
        words.columns.is_empty(),
        words.why.is_none(),
        words.check.is_empty(),
    ])
}

fn wrong_default(alloc: Global) -> Result<Option<usize>, WordsRefusal> {
    Ok(first_other(&read_line(alloc, "p a=f")?))
}

static NUMBERS: [(&str, [u32; 4]); 10] = [
    ("--count 1 p", [1, 100_000, 10, 10_000]),
    ("--count=1000000 p", [1_000_000, 100_000, 10, 10_000]),
    ("p --count +5", [5, 100_000, 10, 10_000]),
    ("--depth 1 p", [20, 1, 10, 10_000]),
    ("--depth 1000000 p", [20, 1_000_000, 10, 10_000]),
    ("--depth=007 p", [20, 7, 10, 10_000]),
    ("--age 1 p", [20, 100_000, 1, 10_000]),
    ("--age 1000000 p", [20, 100_000, 1_000_000, 10_000]),
    ("--room 1 p", [20, 100_000, 10, 1]),
    ("--room 1000000 p", [20, 100_000, 10, 1_000_000]),
];

static POLICIES: [(&str, PolicyWord); 4] = [
    ("--policy keep p", PolicyWord::Keep),
    ("--policy=none p", PolicyWord::Nothing),
    ("p --policy age", PolicyWord::Ages),
    ("--policy last p", PolicyWord::Last),
];

static FLAGS: [(&str, [bool; 5]); 5] = [
    ("p --stats", [true, false, false, false, false]),
    ("--print p", [false, true, false, false, false]),
    ("--cycles p", [false, false, true, false, false]),
    ("--flat p", [false, false, false, true, false]),
    ("--from-flat p a=f", [false, false, false, false, true]),
];

static FILES: [(&str, &str); 4] = [
    ("p --", "p"),
    ("-- -x", "-x"),
    ("--stats -- --stats", "--stats"),
    ("a=f", "a=f"),
];

fn is_made(words: &Words, wanted: u32) -> bool {
    matches!(&words.source, Source::Made(number) if *number == wanted)
}

static MADE: [(&str, u32); 3] = [
    ("--make 1", 1),
    ("--make=10000", 10_000),
    ("--make 5 --print", 5),
];

// Lines, the time of `--why`, and the file of `--check`.
static CERTIFICATES: [(&str, Option<u64>, &str); 4] = [
    ("--why 0 p", Some(0), ""),
    (
        "--why=9223372036854775807 p",
        Some(9_223_372_036_854_775_807),
        "",
    ),
    ("--check f p", None, "f"),
    ("--check=-f p", None, "-f"),
];

// What a line is to give.
#[derive(Clone, Copy)]
enum Given {
    Numbers([u32; 4]),
    Policy(PolicyWord),
    Flags([bool; 5]),
    File(&'static str),
    Made(u32),
    Certificate(Option<u64>, &'static str),
}

fn are(words: &Words, given: Given) -> bool {
    match given {
        Given::Numbers(numbers) => numbers_of(words) == numbers,
        Given::Policy(policy) => words.policy == policy,
        Given::Flags(flags) => flags_of(words) == flags,
        Given::File(file) => is_file(words, file),
        Given::Made(number) => is_made(words, number),
        Given::Certificate(why, check) => words.why == why && words.check.as_str() == check,
    }
}

fn gives(alloc: Global, line: &str, given: Given) -> Result<(), Fail> {
    must(are(&read_line(alloc, line)?, given), line)
}

fn is_column(words: &Words, number: usize, name: &str) -> bool {
    match words.columns.get(number) {
        Some(column) => column.bytes() == name.as_bytes(),
        None => false,
    }
}

// What is not so of three columns.
fn wrong_columns(words: &Words) -> Option<usize> {
    first_false(&[
        words.columns.len() == 3,
        is_column(words, 1, "b_1"),
        is_column(words, 2, "a"),
    ])
}

fn most_columns(alloc: Global) -> Result<usize, WordsRefusal> {
    let line = "--columns a,b,c,d,e,f,g,h,i,j,k,l,m,n,o,p p";
    Ok(read_line(alloc, line)?.columns.len())
}

fn wrong_of_columns(alloc: Global) -> Result<Option<usize>, WordsRefusal> {
    Ok(wrong_columns(&read_line(alloc, "--columns=a,b_1,a p")?))
}

// What is not so of options and inputs in any order.
fn wrong_mix(words: &Words) -> Option<usize> {
    first_false(&[
        words.stats,
        words.options.count == 5,
        words.given.len() == 2,
        is_given(words, 0, "a", "f=g"),
        is_given(words, 1, "b", "-h"),
    ])
}

fn wrong_of_a_mix(alloc: Global) -> Result<Option<usize>, WordsRefusal> {
    let line = "x --count 5 a=f=g --stats -- b=-h";
    Ok(wrong_mix(&read_line(alloc, line)?))
}

#[test]
fn lines_are_read(rt: HostRuntime) -> Result<(), Fail> {
    let alloc = rt.alloc();
    for (line, numbers) in &NUMBERS {
        gives(alloc, line, Given::Numbers(*numbers))?;
    }
    for (line, policy) in &POLICIES {
        gives(alloc, line, Given::Policy(*policy))?;
    }
    for (line, flags) in &FLAGS {
        gives(alloc, line, Given::Flags(*flags))?;
    }
    for (line, file) in &FILES {
        gives(alloc, line, Given::File(*file))?;
    }
    for (line, number) in &MADE {
        gives(alloc, line, Given::Made(*number))?;
    }
    for (line, why, check) in &CERTIFICATES {
        gives(alloc, line, Given::Certificate(*why, *check))?;
    }
    Ok(())
}

#[test]
fn defaults_columns_and_a_mix(rt: HostRuntime) -> Result<(), Fail> {
    let alloc = rt.alloc();
    must(most_columns(alloc)? == 16, "16 columns")?;
    none_wrong(wrong_default(alloc)?, "defaults")?;
    none_wrong(wrong_of_columns(alloc)?, "columns")?;
    none_wrong(wrong_of_a_mix(alloc)?, "a mix")
}
