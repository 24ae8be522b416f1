//! The texts of the two words of the command that it doesn't share with `lucid`.
ghost use Rattle.std.specs.Prelude.{◌≡◌, map};
ghost use Rattle.std.specs.String.{string_bytes};
ghost use Rattle.std.specs.Option.{option_copied};
ghost use Rattle.lucid_report.specs.Arguments.{text_asked};
ghost use Rattle.lucid_explain_command.specs.Help.{help_text, version_text};

pub(crate) const HELP: &[u8] =
    b"lucid_explain runs a pLucid program as lucid does, and explains what is wrong with it.\nusage: lucid_explain [options] PROGRAM [NAME=FILE]... | lucid_explain [options] --make N\nPROGRAM is the name of a file with a program, as `n where n = 0 fby n + 1; end`.\nNAME=FILE gives the lines of a file as the values of an input of this name.\n--count N writes N lines at most, from 1 to 1000000: 20 where it isn't given.\n--depth N is the depth limit, from 1 to 1000000: 100000 where it isn't given.\nThe other options are those of lucid: `man lucid` has them, and LANGUAGE.md the language.\nTUTORIAL.md teaches it from the beginning. ERRORS.md has all reports.\n";

const VERSION: &[u8] = b"lucid_explain 0.1.0\n";

/// The text for which the arguments of a command line ask, of which the first is the command's own name: with `--help` or `--version` alone.
pub fn text_asked(arguments: &[String]) -> Option<&'static [u8]>
    ensures { option_copied result ≡ text_asked help_text version_text (map string_bytes arguments.now) }
{
    lucid_report::text_asked(HELP, VERSION, arguments)
}
