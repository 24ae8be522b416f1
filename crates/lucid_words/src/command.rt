//! The command line as `clap` is told of it.
ghost use Rattle.std.specs.Prelude.{◌≡◌, [], ◌∷◌, IfOk, pos, false};
ghost use Rattle.clap.specs.Words.{Rule, app_of, rule_of};
ghost use Rattle.clap.specs.declared.builder.value_parser.ValueParser.TheVariants as vp;
ghost use Rattle.lucid_words.specs.Command.{AddsRules, text_option, number_option, time_option, flag, run_rules, mode_rules, positional_rules, bare_command, lucid_command};

use clap::builder::ValueParser;
use clap::{Arg, ArgAction, Command, value_parser};
use lucid_ports::MAX_ASKED;
use std::alloc::{AllocError, Global};

// An option with any text as its value. Its id is its name.
fn text_option(alloc: Global, name: &'static str) -> Arg<'static>
    ensures rule { rule_of result ≡ text_option name.entry.now }
    ensures local { result.global ≡ false }
{
    Arg::new(alloc, name).long(name)
}

// The parser of a number from 1 to `most`.
fn number_parser(most: u32) -> ValueParser<'static>
    ensures { result ≡ vp.Signed (pos 1) (pos most) }
{
    value_parser!(u32).range(1..=i64::from(most))
}

// An option with a number from 1 to `most`.
fn number_option(alloc: Global, name: &'static str, most: u32) -> Arg<'static>
    ensures rule { rule_of result ≡ number_option name.entry.now most }
    ensures local { result.global ≡ false }
{
    text_option(alloc, name).value_parser(number_parser(most))
}

// An option with a time.
fn time_option(alloc: Global, name: &'static str) -> Arg<'static>
    ensures rule { rule_of result ≡ time_option name.entry.now }
    ensures local { result.global ≡ false }
{
    text_option(alloc, name).value_parser(value_parser!(u64).range(0..=i64::MAX))
}

// A flag.
fn flag(alloc: Global, name: &'static str) -> Arg<'static>
    ensures rule { rule_of result ≡ flag name.entry.now }
    ensures local { result.global ≡ false }
{
    text_option(alloc, name).action(ArgAction::SetTrue)
}

// Adds an argument to a command, where this could be made. So those that add several take no branch while they own a command.
fn with<'a>(
    command: Result<Command<'a>, AllocError>,
    arg: Arg<'a>,
) -> Result<Command<'a>, AllocError>
    requires { arg.global ≡ false }
    ensures { (rule : Rule) → rule_of arg.entry ≡ rule → AddsRules (rule ∷ []) command.entry result }
{
    let command = command?;
    command.arg(arg)
}

// Adds an option with a number from 1 to `most`.
fn with_number<'a>(
    command: Result<Command<'a>, AllocError>,
    alloc: Global,
    name: &'static str,
    most: u32,
) -> Result<Command<'a>, AllocError>
    ensures { AddsRules (number_option name.entry.now most ∷ []) command.entry result }
{
    with(command, number_option(alloc, name, most))
}

// Adds an option with any text as its value.
fn with_text<'a>(
    command: Result<Command<'a>, AllocError>,
    alloc: Global,
    name: &'static str,
) -> Result<Command<'a>, AllocError>
    ensures { AddsRules (text_option name.entry.now ∷ []) command.entry result }
{
    with(command, text_option(alloc, name))
}

// Adds a flag.
fn with_flag<'a>(
    command: Result<Command<'a>, AllocError>,
    alloc: Global,
    name: &'static str,
) -> Result<Command<'a>, AllocError>
    ensures { AddsRules (flag name.entry.now ∷ []) command.entry result }
{
    with(command, flag(alloc, name))
}

// Adds the options of a run.
fn with_run_options<'a>(
    alloc: Global,
    command: Result<Command<'a>, AllocError>,
) -> Result<Command<'a>, AllocError>
    ensures { AddsRules run_rules command.entry result }
{
    let command = with_number(command, alloc, "count", MAX_ASKED);
    let command = with_number(command, alloc, "depth", MAX_ASKED);
    let command = with_text(command, alloc, "policy");
    let command = with_number(command, alloc, "age", MAX_ASKED);
    let command = with_number(command, alloc, "room", MAX_ASKED);
    with_flag(command, alloc, "stats")
}

// Adds the options that ask for something else than a run of one stream.
fn with_mode_options<'a>(
    alloc: Global,
    command: Result<Command<'a>, AllocError>,
) -> Result<Command<'a>, AllocError>
    ensures { AddsRules mode_rules command.entry result }
{
    let command = with_flag(command, alloc, "print");
    let command = with_number(command, alloc, "make", 10_000);
    let command = with_text(command, alloc, "columns");
    let command = with_flag(command, alloc, "cycles");
    let command = with(command, time_option(alloc, "why"));
    let command = with_text(command, alloc, "check");
    let command = with_flag(command, alloc, "flat");
    with_flag(command, alloc, "from-flat")
}

// Adds the program and the inputs.
fn with_positionals<'a>(
    alloc: Global,
    command: Result<Command<'a>, AllocError>,
) -> Result<Command<'a>, AllocError>
    ensures { AddsRules positional_rules command.entry result }
{
    let command = with(command, Arg::new(alloc, "program"));
    with(command, Arg::new(alloc, "input").action(ArgAction::Append))
}

// The command without an argument.
fn bare_command<'a>(alloc: Global) -> Command<'a>
    ensures { app_of result ≡ bare_command }
{
    Command::new(alloc, "lucid")
        .no_binary_name(true)
        .disable_help_flag(true)
        .disable_version_flag(true)
}

/// The whole command.
pub fn lucid_command<'a>(alloc: Global) -> Result<Command<'a>, AllocError>
    ensures { IfOk result (λ c. app_of c ≡ lucid_command) }
{
    let command = with_run_options(alloc, Ok(bare_command(alloc)));
    let command = with_mode_options(alloc, command);
    with_positionals(alloc, command)
}
