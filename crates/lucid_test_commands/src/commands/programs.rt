//! The worked programs by the command.
use crate::commands::row::{Answer, Row, Way, call, passes_by, places_of};
use lucid_report::Status;
use lucid_test_programs::{Worked, in_contexts, over_inputs, over_space, over_time, without_value};
use std::alloc::{AllocError, Global};
use std::test::Fail;

// The words that run the program: to its end where that is told, and else for as many lines as values are told. Where it has two inputs, each
// has the file of its name.
fn words_of(alloc: Global, program: &Worked) -> Result<String, AllocError> {
    let mut words = if program.ends() {
        String::from_str(alloc, "p")?
    } else {
        format!(in alloc; "--count {} p", program.count())?
    };
    if program.inputs.len() > 1 {
        for (name, _) in program.inputs {
            words.push_str(&format!(in alloc; " {name}={name}")?)?;
        }
    }
    Ok(words)
}

// What the program is to do, by these words and over these files: it writes these lines, and consumes what it should.
fn row_of<'a>(
    program: &'a Worked,
    files: &'a [(&'a str, &'a str)],
    words: &'a str,
    lines: &'a str,
) -> Row<'a> {
    Row {
        name: program.name,
        words,
        source: program.source,
        inputs: files,
        reads: &[],
        writes: &[],
        status: Status::Done,
        out: lines,
        report: "",
        taken: program.consumed.get(..program.inputs.len()),
    }
}

fn passes_over(
    alloc: Global,
    program: &Worked,
    files: &[(&str, &str)],
    lines: &str,
    way: Way,
) -> Result<(), Fail> {
    let words = words_of(alloc, program)?;
    passes_by(alloc, &row_of(program, files, &words, lines), way)
}

// The only input is the standard input.
fn passes(alloc: Global, program: &Worked, lines: &str, way: Way) -> Result<(), Fail> {
    match program.inputs {
        [(_, bytes)] => passes_over(alloc, program, &[("-", *bytes)], lines, way),
        files => passes_over(alloc, program, files, lines, way),
    }
}

// Each of the programs passes by these ways.
fn each_passes(alloc: Global, programs: &[Worked], ways: &[Way]) -> Result<(), Fail> {
    for program in programs {
        let lines = program.lines(alloc)?;
        for way in ways {
            passes(alloc, program, &lines, *way)?;
        }
    }
    Ok(())
}

// Of those in contexts one has a subject that belongs to an inner block, which is no column.
#[test]
fn worked_programs(rt: HostRuntime) -> Result<(), Fail> {
    let alloc = rt.alloc();
    let ways = [Way::Source, Way::Flat, Way::Alone];
    each_passes(alloc, over_time(), &ways)?;
    each_passes(alloc, over_space(), &ways)?;
    each_passes(alloc, in_contexts(), &[Way::Source, Way::Flat])?;
    each_passes(alloc, over_inputs(), &ways)
}

// What is printed of a text.
fn printed(alloc: Global, text: &[u8]) -> Result<Answer, Fail> {
    let mut places = places_of(alloc, text, &[], &[])?;
    call(alloc, "--print p", &mut places, 100, &[])
}

// Whether the printed text of a source spells the same tree: it is printed as it is.
fn is_printed_again(alloc: Global, source: &str) -> Result<bool, Fail> {
    let text = printed(alloc, source.as_bytes())?;
    let again = printed(alloc, text.out.written())?;
    Ok(
        text.status == Status::Done
            && again.status == Status::Done
            && again.out.written() == text.out.written(),
    )
}

fn each_is_printed_again(alloc: Global, programs: &[Worked]) -> Result<(), Fail> {
    for program in programs {
        if !is_printed_again(alloc, program.source)? {
            return Err(Fail::new(format_args!("{} printed", program.name)));
        }
    }
    Ok(())
}

#[test]
fn worked_programs_printed(rt: HostRuntime) -> Result<(), Fail> {
    let alloc = rt.alloc();
    each_is_printed_again(alloc, over_time())?;
    each_is_printed_again(alloc, over_space())?;
    each_is_printed_again(alloc, in_contexts())?;
    each_is_printed_again(alloc, over_inputs())?;
    each_is_printed_again(alloc, without_value())
}
