//! The arguments of a command line.
ghost use Rattle.std.specs.Option.{option_copied};
ghost use Rattle.std.specs.Prelude.{◌≡◌, ◌≢◌, ◌⊎◌, IfErr, drop, map};
ghost use Rattle.std.specs.String.{string_bytes};
ghost use Rattle.lucid_report.specs.Arguments.{text_asked, text_for};

use crate::refusal::Refusal;
use crate::stop::Stop;
use std::env;
use std::io::ErrorKind;

// Why there are no arguments: one isn't UTF-8, which is usage, or there was no memory.
fn no_arguments(kind: ErrorKind) -> Stop
    ensures usage { kind ≡ ErrorKind.InvalidData → result ≡ Stop.Refused Refusal.Usage }
    ensures memory { kind ≢ ErrorKind.InvalidData → result ≡ Stop.NoMemory }
    ensures either { (result ≡ Stop.Refused Refusal.Usage) ⊎ (result ≡ Stop.NoMemory) }
{
    match kind {
        ErrorKind::InvalidData => Stop::Refused(Refusal::Usage),
        _ => Stop::NoMemory,
    }
}

/// The arguments of the command line, the command's own name first. It is usage where one isn't UTF-8.
pub fn all_arguments(rt: &HostRuntime) -> Result<Vec<String>, Stop>
    ensures { IfErr result (λ stop. (stop ≡ Stop.Refused Refusal.Usage) ⊎ (stop ≡ Stop.NoMemory)) }
{
    match env::args(rt) {
        Ok(arguments) => Ok(arguments.collect(rt.alloc())?),
        Err(error) => Err(no_arguments(error.kind())),
    }
}

/// The words after the command's own name.
pub fn words_of(arguments: &[String]) -> &[String]
    ensures { result.now ≡ drop 1 arguments.now }
{
    match arguments {
        [_, words @ ..] => words,
        [] => &[],
    }
}

// The text for which a word asks.
fn text_for<'a>(help: &'a [u8], version: &'a [u8], word: &[u8]) -> Option<&'a [u8]>
    ensures { option_copied result ≡ text_for help.now version.now word.now }
{
    if word == b"--help".as_slice() {
        Some(help)
    } else if word == b"--version".as_slice() {
        Some(version)
    } else {
        None
    }
}

/// The text for which arguments ask, of which the first is the command's own name: with `--help` or `--version` alone.
pub fn text_asked<'a>(help: &'a [u8], version: &'a [u8], arguments: &[String]) -> Option<&'a [u8]>
    ensures { option_copied result ≡ text_asked help.now version.now (map string_bytes arguments.now) }
{
    match arguments {
        [_, word] => text_for(help, version, word.as_bytes()),
        _ => None,
    }
}
