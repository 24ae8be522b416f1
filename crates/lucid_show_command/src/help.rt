//! The texts of the two words of the command that it doesn't share with `lucid`.
ghost use Rattle.std.specs.Prelude.{◌≡◌, map};
ghost use Rattle.std.specs.String.{string_bytes};
ghost use Rattle.std.specs.Option.{option_copied};
ghost use Rattle.lucid_report.specs.Arguments.{text_asked};
ghost use Rattle.lucid_show_command.specs.Help.{help_text, version_text};

const HELP: &[u8] =
    b"lucid_show shows what a value of a pLucid program was computed from, or a run step by step.\n\
      usage: lucid_show [--at T] [--as outline|grid|svg] [--depth N] [--names LIST] [--cells N] PROGRAM [NAME=FILE]... | \
      lucid_show --steps [--count N] [--policy keep|none|age|last] [--age K] [--room N] [--depth N] [--cells N] PROGRAM [NAME=FILE]...\n\
      PROGRAM is the name of a file with a program, as `n where n = 0 fby n + 1; end`.\n\
      NAME=FILE gives the lines of a file as the values of an input of this name.\n\
      --at T shows the value at time T: at time 4 where it isn't given.\n\
      --as FORM shows lines one under another (outline, as where it isn't given), a grid of text (grid), or a picture with arrows (svg).\n\
      --depth N is the depth limit, from 1 to 1,000,000: 100,000 where it isn't given.\n\
      --names LIST shows the values of these names alone, parted by commas, as `f,g`.\n\
      --cells N shows N lines below the first, or N values, at most, from 1 to 1,000,000: 2,000 where it isn't given.\n\
      --steps shows a run: which values are computed, found in the store and dropped, and the lines that are written.\n\
      --count N, --policy WORD, --age K and --room N are those of lucid, for --steps alone.\n\
      `man lucid_show` tells how a line is read, and TUTORIAL.md teaches the language.\n";

const VERSION: &[u8] = b"lucid_show 0.1.0\n";

// What the command does, and what its words are.
#[tactic(auto, unfolding(crate::specs::Help::help_text))]
fn help() -> &'static [u8]
    ensures { result.now ≡ help_text }
{
    HELP
}

/// The text for which the arguments of a command line ask, of which the first is the command's own name: with `--help` or `--version` alone.
pub(crate) fn text_asked(arguments: &[String]) -> Option<&'static [u8]>
    ensures { option_copied result ≡ text_asked help_text version_text (map string_bytes arguments.now) }
{
    lucid_report::text_asked(help(), VERSION, arguments)
}
