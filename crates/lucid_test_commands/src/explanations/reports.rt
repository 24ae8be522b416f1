//! Reports with what explains them, over files in memory: a row for each line that is reported.
use crate::explanations::call::{OneFile, call, plain_call};
use lucid_report::Status;
use std::alloc::{AllocError, Global};
use std::test::Fail;

// What the command is asked, over the file `p` with the source, its status, and all that it reports.
#[derive(Clone, Copy)]
struct Row {
    words: &'static str,
    source: &'static str,
    status: Status,
    report: &'static str,
}

// Bytes that are no tokens.
static BYTES: [Row; 10] = [
    Row {
        words: "p",
        source: "1 / 2",
        status: Status::Refused,
        report: "bad byte at 2\np:1:3:\n1 / 2\n  ^\nDivision is `div`, and what it leaves over is `mod`. A comment begins with `//`.\n",
    },
    Row {
        words: "p",
        source: "1.5",
        status: Status::Refused,
        report: "bad byte at 1\np:1:2:\n1.5\n ^\nThere are no real numbers: write integers.\n",
    },
    Row {
        words: "p",
        source: "x where\r\n\tx = \"true\"; end",
        status: Status::Refused,
        report: "bad byte at 14\np:2:6:\n x = \"true\"; end\n     ^\nA word stands between two \", as in \"red\": a letter, then letters and digits. Integers, `true` and `false` stand without \", and other texts as `two words'.\n",
    },
    Row {
        words: "p",
        source: "[% 1, 2 %]",
        status: Status::Refused,
        report: "open text at 0\np:1:1:\n[% 1, 2 %]\n^\nA list of constants is written `[% 1 2 3 %]`, with blanks between its items and no commas. Of computed items it is `a :: b :: []`.\n",
    },
    Row {
        words: "p",
        source: "1 + `two",
        status: Status::Refused,
        report: "open text at 4\np:1:5:\n1 + `two\n    ^\nA string begins with a backquote and ends with ' in one line, as `two words'. It has printable ASCII alone, without these two.\n",
    },
    Row {
        words: "p",
        source: "170141183460469231731687303715884105728",
        status: Status::Refused,
        report: "number too big at 0\np:1:1:\n170141183460469231731687303715884105728\n^\nThe largest integer is 170141183460469231731687303715884105727, that is 2^127 - 1.\n",
    },
    Row {
        words: "p",
        source: "[1, 2]",
        status: Status::Refused,
        report: "bad byte at 0\np:1:1:\n[1, 2]\n^\nA list of constants is written `[% 1 2 3 %]`, with blanks between its items and no commas. Of computed items it is `a :: b :: []`.\n",
    },
    Row {
        words: "p",
        source: "a != b",
        status: Status::Refused,
        report: "bad byte at 2\np:1:3:\na != b\n  ^\nWrite `ne`.\n",
    },
    Row {
        words: "p",
        source: "x where x = 1; } end",
        status: Status::Refused,
        report: "bad byte at 15\np:1:16:\nx where x = 1; } end\n               ^\nParentheses group, definitions stand between `where` and `end`, and a function is written `f(x) = x + 1;`.\n",
    },
    Row {
        words: "p",
        source: "1 # one\n",
        status: Status::Refused,
        report: "bad byte at 2\np:1:3:\n1 # one\n  ^\nA comment begins with `//`.\n",
    },
];

// Tokens that spell no program.
static TOKENS: [Row; 7] = [
    Row {
        words: "p",
        source: "x where\n  x = 1 end\n",
        status: Status::Refused,
        report: "syntax at 16\np:2:9:\n  x = 1 end\n        ^\nHere stands `end`.\nWhat may stand here: `;`, `where`, an operator.\nEach definition ends with `;`, the last one before `end` too.\n",
    },
    Row {
        words: "p",
        source: "if x = 1 then 2 else 3 fi",
        status: Status::Refused,
        report: "syntax at 5\np:1:6:\nif x = 1 then 2 else 3 fi\n     ^\nHere stands `=`.\nWhat may stand here: `then`, `where`, an operator, `(`.\n`=` stands in definitions alone: to compare, write `eq`.\n",
    },
    Row {
        words: "p",
        source: "if 1 < 2 then 3 else 4\n;",
        status: Status::Refused,
        report: "syntax at 23\np:2:1:\n;\n^\nHere stands `;`.\nWhat may stand here: `fi`, `where`, an operator.\nEach `if` ends with a `fi` of its own.\n",
    },
    Row {
        words: "p",
        source: "if 1 < 2 then 3",
        status: Status::Refused,
        report: "syntax at 15\np:1:16:\nif 1 < 2 then 3\n               ^\nHere the source ends.\nWhat may stand here: `else`, `where`, an operator.\nAn `if` has an `else`, and ends with `fi`. To keep some values alone, write `n whenever n > 3`.\n",
    },
    Row {
        words: "p",
        source: "y where first = 1; end",
        status: Status::Refused,
        report: "syntax at 8\np:1:9:\ny where first = 1; end\n        ^\nHere stands `first`.\nWhat may stand here: `end`, a name.\nThis word is reserved: no name is spelled so.\n",
    },
    Row {
        words: "p",
        source: "x where x = 1;",
        status: Status::Refused,
        report: "syntax at 14\np:1:15:\nx where x = 1;\n              ^\nHere the source ends.\nWhat may stand here: `end`, a name.\nBehind `where` come the definitions, and then `end`.\n",
    },
    Row {
        words: "p",
        source: "",
        status: Status::Refused,
        report: "syntax at 0\np:1:1:\n\n^\nHere the source ends.\nWhat may stand here: a name, a number, `(`, `if`.\nThe program has no token: it is empty, or has blanks and comments alone. Is its file saved?\n",
    },
];

// Names that are at fault.
static NAMES: [Row; 18] = [
    Row {
        words: "p",
        source: "x where x = 1; x = 2; end",
        status: Status::Refused,
        report: "defined twice at 15\np:1:16:\nx where x = 1; x = 2; end\n               ^\nA block defines a name once, for all times, as in `n = 0 fby n + 1;`. Before this place stands another definition of it:\nx is defined in line 1, column 9.\n",
    },
    Row {
        words: "p",
        source: "f(1, 2) where f(x, x) = x; end",
        status: Status::Refused,
        report: "defined twice at 19\np:1:20:\nf(1, 2) where f(x, x) = x; end\n                   ^\nA list of parameters has each name once.\nf(x, x) is defined in line 1, column 15.\n",
    },
    Row {
        words: "p",
        source: "f(1, 2) where x = 1; f(x, x) = x; end",
        status: Status::Refused,
        report: "defined twice at 26\np:1:27:\nf(1, 2) where x = 1; f(x, x) = x; end\n                          ^\nA list of parameters has each name once.\nf(x, x) is defined in line 1, column 22.\n",
    },
    Row {
        words: "p",
        source: "g(1) where g(f) = f(2); f = 3; end",
        status: Status::Refused,
        report: "not a function at 18\np:1:19:\ng(1) where g(f) = f(2); f = 3; end\n                  ^\nWhat this name stands for here has no parameters. A parameter is a stream, and a function can't be handed over: call one by its own name, as `square(square(n))`. The value of n at time 3 is `n attime 3`, and a product is written with `*`, as in `n * (n + 1)`.\n",
    },
    Row {
        words: "p",
        source: "g(4) where f(x) = x; y = 1; end",
        status: Status::Refused,
        report: "no such function at 0\np:1:1:\ng(4) where f(x) = x; y = 1; end\n^\nNo function of this name is in scope here: define it, or mend its spelling.\nf(x) is defined in line 1, column 12.\n",
    },
    Row {
        words: "p",
        source: "g(1) + (y where f(x) = x; y = 2; end)",
        status: Status::Refused,
        report: "no such function at 0\np:1:1:\ng(1) + (y where f(x) = x; y = 2; end)\n^\nNo function of this name is in scope here: define it, or mend its spelling.\n",
    },
    Row {
        words: "p",
        source: "x where x is current g(1); g(a) = a; end",
        status: Status::Refused,
        report: "no such function at 21\np:1:22:\nx where x is current g(1); g(a) = a; end\n                     ^\nNo function of this name is in scope here: define it, or mend its spelling.\n",
    },
    Row {
        words: "p",
        source: "x(4) where x = 2; end",
        status: Status::Refused,
        report: "not a function at 0\np:1:1:\nx(4) where x = 2; end\n^\nWhat this name stands for here has no parameters: write it without arguments. The value of n at time 3 is `n attime 3`, and a product is written with `*`, as in `n * (n + 1)`.\nx is defined in line 1, column 12.\n",
    },
    Row {
        words: "p",
        source: "t(f, 2) where t(g, x) = x; f(x) = x; end",
        status: Status::Refused,
        report: "function without arguments at 2\np:1:3:\nt(f, 2) where t(g, x) = x; f(x) = x; end\n  ^\nA function can't be an argument: write the calls out, as `square(square(n))`. Where its value is meant, its own arguments stand behind it in parentheses.\nf(x) is defined in line 1, column 28.\n",
    },
    Row {
        words: "p",
        source: "t(2, f ) where t(x, g) = x; f(x) = x; end",
        status: Status::Refused,
        report: "function without arguments at 5\np:1:6:\nt(2, f ) where t(x, g) = x; f(x) = x; end\n     ^\nA function can't be an argument: write the calls out, as `square(square(n))`. Where its value is meant, its own arguments stand behind it in parentheses.\nf(x) is defined in line 1, column 29.\n",
    },
    Row {
        words: "p",
        source: "f where f(x) = x; end",
        status: Status::Refused,
        report: "function without arguments at 0\np:1:1:\nf where f(x) = x; end\n^\nThis is a function: its arguments stand behind it in parentheses. A function is no value: it can't be an argument itself.\nf(x) is defined in line 1, column 9.\n",
    },
    Row {
        words: "p",
        source: "f(1, 2) where\n  f(x) = x; end",
        status: Status::Refused,
        report: "wrong number of arguments at 0: 1 wanted, 2 given\np:1:1:\nf(1, 2) where\n^\nA call has as many arguments as the function has parameters.\nf(x) is defined in line 2, column 3.\n",
    },
    Row {
        words: "p",
        source: "print(n) where n = 1; f(x) = x; end",
        status: Status::Refused,
        report: "no such function at 0\np:1:1:\nprint(n) where n = 1; f(x) = x; end\n^\nNo function of this name is in scope here. None is needed to print: a program writes the values of its subject, with which it begins.\nf(x) is defined in line 1, column 23.\n",
    },
    Row {
        words: "p",
        source: "len([])",
        status: Status::Refused,
        report: "no such function at 0\np:1:1:\nlen([])\n^\nNo function of this name is in scope here. How many items a list l has is `length l`.\n",
    },
    Row {
        words: "p",
        source: "sum(n) where n = 1; end",
        status: Status::Refused,
        report: "no such function at 0\np:1:1:\nsum(n) where n = 1; end\n^\nNo function of this name is in scope here. The sum of x so far is s, with `s = x fby s + next x;`.\n",
    },
    Row {
        words: "p",
        source: "IF(1 < 2, 1, 0)",
        status: Status::Refused,
        report: "no such function at 0\np:1:1:\nIF(1 < 2, 1, 0)\n^\nReserved words are spelled in small letters: `if n > 3 then 1 else 0 fi`, `n mod 2`, `next n`, `nth(l, 2)`.\n",
    },
    Row {
        words: "p",
        source: "range(5)",
        status: Status::Refused,
        report: "no such function at 0\np:1:1:\nrange(5)\n^\nNo function of this name is in scope here. 0, 1, 2, .. is n, with `n = 0 fby n + 1;`, and --count N says how many are written.\n",
    },
    Row {
        words: "p",
        source: "str(1)",
        status: Status::Refused,
        report: "no such function at 0\np:1:1:\nstr(1)\n^\nNo function of this name is in scope here. The string of an integer or a word x is `mkstring x`.\n",
    },
];

// Inputs and columns.
static INPUTS: [Row; 9] = [
    Row {
        words: "p",
        source: "a + b",
        status: Status::Refused,
        report: "no input for two names\nA name that nothing defines is an input. One of them may be read from the standard input; give each other a file: a=FILE b=FILE\na stands first in line 1, column 1.\nb stands first in line 1, column 5.\nIf a word is meant, it stands between two \", as in \"red\".\n",
    },
    Row {
        words: "p",
        source: "summ + b where sum = 1; end",
        status: Status::Refused,
        report: "no input for two names\nA name that nothing defines is an input. One of them may be read from the standard input; give each other a file: summ=FILE b=FILE\nsumm stands first in line 1, column 1.\nIt may be misspelt: sum is defined in line 1, column 16.\nb stands first in line 1, column 8.\nIf a word is meant, it stands between two \", as in \"red\".\n",
    },
    Row {
        words: "p b=p",
        source: "a",
        status: Status::Usage,
        report: "no input is named b\nA word gives a file for this name, but in the program it isn't free: leave the word out, or mend the name.\nThe inputs of the program:\na stands first in line 1, column 1.\n",
    },
    Row {
        words: "p n=p",
        source: "n where n = 1; end",
        status: Status::Usage,
        report: "no input is named n\nA word gives a file for this name, but in the program it isn't free: leave the word out, or mend the name.\nThe program has no input.\n",
    },
    Row {
        words: "p count=5",
        source: "n where n = 1; end",
        status: Status::Usage,
        report: "no input is named count\nAn option begins with two minus signs, as --count=5: this word gives a file for a name, which in the program isn't free.\nThe program has no input.\n",
    },
    Row {
        words: "p",
        source: "if x then y else z where x = True; end fi",
        status: Status::Refused,
        report: "no input for two names\nA name that nothing defines is an input. One of them may be read from the standard input; give each other a file: x=FILE y=FILE z=FILE True=FILE\nx stands first in line 1, column 4.\nA name is in scope in the block that defines it, and a parameter in the right side of its function. The right side of `is current` stands outside the block: what it names is defined there, behind a `where` of its own. x is defined in line 1, column 26.\ny stands first in line 1, column 11.\nz stands first in line 1, column 18.\nTrue stands first in line 1, column 30.\nIt may be misspelt: reserved words have small letters, as `true`.\nIf a word is meant, it stands between two \", as in \"red\".\n",
    },
    Row {
        words: "p a=p a=p",
        source: "a",
        status: Status::Usage,
        report: "a is given twice\nTwo words give a file for this name: leave one of them out.\n",
    },
    Row {
        words: "--columns x,f p",
        source: "x where x = 1; f(y) = y; z = 2; end",
        status: Status::Refused,
        report: "no column f\nA column is a name that the program's outermost block defines without parameters.\nx is defined in line 1, column 9.\nz is defined in line 1, column 26.\n",
    },
    Row {
        words: "--columns x p",
        source: "1",
        status: Status::Refused,
        report: "no column x\nA column is a name that the program's outermost block defines without parameters.\n",
    },
];

// Words that are refused.
static WORDS: [Row; 13] = [
    Row {
        words: "",
        source: "1",
        status: Status::Usage,
        report: "usage: lucid [--count N] [--depth N] [--policy keep|none|age|last] [--age K] [--room N] [--stats] [--print] [--columns LIST] [--cycles] [--why T] [--check FILE] [--flat] [--from-flat] PROGRAM [NAME=FILE]... | lucid --make N\nlucid_explain runs a pLucid program as lucid does, and explains what is wrong with it.\nusage: lucid_explain [options] PROGRAM [NAME=FILE]... | lucid_explain [options] --make N\nPROGRAM is the name of a file with a program, as `n where n = 0 fby n + 1; end`.\nNAME=FILE gives the lines of a file as the values of an input of this name.\n--count N writes N lines at most, from 1 to 1000000: 20 where it isn't given.\n--depth N is the depth limit, from 1 to 1000000: 100000 where it isn't given.\nThe other options are those of lucid: `man lucid` has them, and LANGUAGE.md the language.\nTUTORIAL.md teaches it from the beginning. ERRORS.md has all reports.\n",
    },
    Row {
        words: "p --print --cycles",
        source: "1",
        status: Status::Usage,
        report: "usage: lucid [--count N] [--depth N] [--policy keep|none|age|last] [--age K] [--room N] [--stats] [--print] [--columns LIST] [--cycles] [--why T] [--check FILE] [--flat] [--from-flat] PROGRAM [NAME=FILE]... | lucid --make N\nThis word doesn't go with those before it: --cycles\nThe line above has the options, each of which is given once at most; of --print, --columns, --cycles, --why, --check, --flat and --from-flat one alone is given. --columns has names with commas between them, as n,m, and --why a time.\n",
    },
    Row {
        words: "--count 0 p",
        source: "1",
        status: Status::Usage,
        report: "usage: lucid [--count N] [--depth N] [--policy keep|none|age|last] [--age K] [--room N] [--stats] [--print] [--columns LIST] [--cycles] [--why T] [--check FILE] [--flat] [--from-flat] PROGRAM [NAME=FILE]... | lucid --make N\nThis word doesn't go with those before it: 0\nWhat an option wants stands behind it: of --count, --depth, --age and --room a number from 1 to 1000000, of --columns names as n,m, of --why a time. Then comes the program's file, and then NAME=FILE, as one word without blanks, for each input that has a file.\n",
    },
    Row {
        words: "p p a=f",
        source: "1",
        status: Status::Usage,
        report: "usage: lucid [--count N] [--depth N] [--policy keep|none|age|last] [--age K] [--room N] [--stats] [--print] [--columns LIST] [--cycles] [--why T] [--check FILE] [--flat] [--from-flat] PROGRAM [NAME=FILE]... | lucid --make N\nThis word doesn't go with those before it: p\nWhat an option wants stands behind it: of --count, --depth, --age and --room a number from 1 to 1000000, of --columns names as n,m, of --why a time. Then comes the program's file, and then NAME=FILE, as one word without blanks, for each input that has a file.\n",
    },
    Row {
        words: "p a=f --depth",
        source: "1",
        status: Status::Usage,
        report: "usage: lucid [--count N] [--depth N] [--policy keep|none|age|last] [--age K] [--room N] [--stats] [--print] [--columns LIST] [--cycles] [--why T] [--check FILE] [--flat] [--from-flat] PROGRAM [NAME=FILE]... | lucid --make N\nBehind these words something lacks: the program's file, or what an option wants.\n",
    },
    Row {
        words: "p --count=all",
        source: "1",
        status: Status::Usage,
        report: "usage: lucid [--count N] [--depth N] [--policy keep|none|age|last] [--age K] [--room N] [--stats] [--print] [--columns LIST] [--cycles] [--why T] [--check FILE] [--flat] [--from-flat] PROGRAM [NAME=FILE]... | lucid --make N\nThis word doesn't go with those before it: --count=all\nThis option has a number from 1 to 1000000, in digits alone, and is given once at most.\n",
    },
    Row {
        words: "p \u{2014}count=5",
        source: "1",
        status: Status::Usage,
        report: "usage: lucid [--count N] [--depth N] [--policy keep|none|age|last] [--age K] [--room N] [--stats] [--print] [--columns LIST] [--cycles] [--why T] [--check FILE] [--flat] [--from-flat] PROGRAM [NAME=FILE]... | lucid --make N\nThis word doesn't go with those before it: ???count=5\nAn option begins with two plain minus signs, as --count.\n",
    },
    Row {
        words: "p --policy=lru",
        source: "1",
        status: Status::Usage,
        report: "usage: lucid [--count N] [--depth N] [--policy keep|none|age|last] [--age K] [--room N] [--stats] [--print] [--columns LIST] [--cycles] [--why T] [--check FILE] [--flat] [--from-flat] PROGRAM [NAME=FILE]... | lucid --make N\nThis word doesn't go with those before it: --policy=lru\nThe policies are keep, none, age and last, and the option is given once at most.\n",
    },
    Row {
        words: "p --help",
        source: "1",
        status: Status::Usage,
        report: "usage: lucid [--count N] [--depth N] [--policy keep|none|age|last] [--age K] [--room N] [--stats] [--print] [--columns LIST] [--cycles] [--why T] [--check FILE] [--flat] [--from-flat] PROGRAM [NAME=FILE]... | lucid --make N\nThis word doesn't go with those before it: --help\n`--help` and `--version` stand alone, as in `lucid_explain --help`.\n",
    },
    Row {
        words: "p --counter=3",
        source: "1",
        status: Status::Usage,
        report: "usage: lucid [--count N] [--depth N] [--policy keep|none|age|last] [--age K] [--room N] [--stats] [--print] [--columns LIST] [--cycles] [--why T] [--check FILE] [--flat] [--from-flat] PROGRAM [NAME=FILE]... | lucid --make N\nThis word doesn't go with those before it: --counter=3\nThe line above has the options, each of which is given once at most; of --print, --columns, --cycles, --why, --check, --flat and --from-flat one alone is given. --columns has names with commas between them, as n,m, and --why a time.\n",
    },
    Row {
        words: "p -",
        source: "1",
        status: Status::Usage,
        report: "usage: lucid [--count N] [--depth N] [--policy keep|none|age|last] [--age K] [--room N] [--stats] [--print] [--columns LIST] [--cycles] [--why T] [--check FILE] [--flat] [--from-flat] PROGRAM [NAME=FILE]... | lucid --make N\nThis word doesn't go with those before it: -\nNo file is called `-`: the program stands in a file, and an input without NAME=FILE is read from the standard input.\n",
    },
    Row {
        words: "p data.txt=a",
        source: "1",
        status: Status::Usage,
        report: "usage: lucid [--count N] [--depth N] [--policy keep|none|age|last] [--age K] [--room N] [--stats] [--print] [--columns LIST] [--cycles] [--why T] [--check FILE] [--flat] [--from-flat] PROGRAM [NAME=FILE]... | lucid --make N\nThis word doesn't go with those before it: data.txt=a\nBefore `=` stands the name of an input, and behind it its file, without blanks: `a=data.txt`.\n",
    },
    Row {
        words: "p --at=3",
        source: "1",
        status: Status::Usage,
        report: "usage: lucid [--count N] [--depth N] [--policy keep|none|age|last] [--age K] [--room N] [--stats] [--print] [--columns LIST] [--cycles] [--why T] [--check FILE] [--flat] [--from-flat] PROGRAM [NAME=FILE]... | lucid --make N\nThis word doesn't go with those before it: --at=3\nThis is an option of `lucid_show`, which shows how values are computed.\n",
    },
];

// Runs that don't end well.
static RUNS: [Row; 8] = [
    Row {
        words: "p a=none",
        source: "a",
        status: Status::ReadFault,
        report: "read fault\nThis file can't be opened or read: none\n",
    },
    Row {
        words: "--depth 9 p",
        source: "x where x = x; end",
        status: Status::TooDeep,
        report: "too deep at time 0\n`--cycles` says: cycle x at 8: sum 0\nA value of these names needs one of them at the same time or at a later one: so there may be no depth that is enough. `X fby Y` is X at time 0, and then Y of one time before; `next X` is X of one time later. So `x = 0 fby x + 1` begins with 0 and goes on, and `x = 0 fby 1 fby x + next x` begins with two values. In `x = 1 fby x * next n` each x has the n of its own time.\n",
    },
    Row {
        words: "--depth 9 --stats p",
        source: "x where x = x; end",
        status: Status::TooDeep,
        report: "too deep at time 0 lost 0 cleared 0\n`--cycles` says: cycle x at 8: sum 0\nA value of these names needs one of them at the same time or at a later one: so there may be no depth that is enough. `X fby Y` is X at time 0, and then Y of one time before; `next X` is X of one time later. So `x = 0 fby x + 1` begins with 0 and goes on, and `x = 0 fby 1 fby x + next x` begins with two values. In `x = 1 fby x * next n` each x has the n of its own time.\nThe store wasn't cleared.\n",
    },
    Row {
        words: "--depth 1 p",
        source: "x where x = y + 1; y = 0 fby x; end",
        status: Status::TooDeep,
        report: "too deep at time 0\n`--cycles` says: depth 2 * t + 3\nSo --depth 3 is enough for time 0.\n",
    },
    Row {
        words: "--depth 3 p",
        source: "x attime 9 where x = 0 fby x + 1; end",
        status: Status::TooDeep,
        report: "too deep at time 0\n`--cycles` says: not judged at 2\nSo no depth is told for this program.\nA greater --depth may be enough, up to 1000000.\n",
    },
    Row {
        words: "--depth 9 p",
        source: "n whenever n < 0 where n = 0 fby n + 1; end",
        status: Status::TooDeep,
        report: "too deep at time 0\n`--cycles` says: not judged at 2\nHere is a search: it looks at times below the depth limit alone. If its test is never true again, no depth is enough: --count asks for the lines that there are. If it is true later:\nA greater --depth may be enough, up to 1000000.\n",
    },
    Row {
        words: "--depth 9 p",
        source: "c asa i eq n where i = 0 fby i + 1; c = n fby c * 2; end where n = 1 fby n + 1; end",
        status: Status::TooDeep,
        report: "too deep at time 0\n`--cycles` says: not judged at 2\nHere is a search: it looks at times below the depth limit alone. If its test is never true again, no depth is enough: --count asks for the lines that there are. If it is true later:\nA greater --depth may be enough, up to 1000000.\np:1:3:\nc asa i eq n where i = 0 fby i + 1; c = n fby c * 2; end where n = 1 fby n + 1; end\n  ^\n`asa` gives one value for all times. A block that is to begin anew at each time has `k is current n;`, and then k in place of n.\n",
    },
    Row {
        words: "--depth 9 p",
        source: "f(1) where f(x) = x * f(x - 1); end",
        status: Status::TooDeep,
        report: "too deep at time 0\n`--cycles` says: not judged at 0\nHere is a function: one that calls itself without an end has no value at any depth. An `if` that doesn't call it gives an end, once its test is true: for an x below 0 that counts down, `x eq 0` never is, and `x <= 0` is.\nA greater --depth may be enough, up to 1000000.\n",
    },
];

// What else is reported, or isn't.
static OTHERS: [Row; 10] = [
    Row {
        words: "--cycles p",
        source: "1 asa false",
        status: Status::Refused,
        report: "not judged at 2\np:1:3:\n1 asa false\n  ^\n`--cycles` judges constants, data operators, `if`, `and`, `or`, `first`, `next`, `fby`, inputs, plain names and blocks of plain definitions: at the place stands something else.\n",
    },
    Row {
        words: "--from-flat p",
        source: "x where x = 1; end",
        status: Status::Refused,
        report: "line 1 is no flat line\nNo table's text goes on with this line. What `lucid --flat` writes of a program has the right form.\n",
    },
    Row {
        words: "--from-flat p",
        source: "lucid flat 1\nscope 1 called\nconst 1\nnode 0 const 0\nroot 0\n",
        status: Status::Refused,
        report: "flat scope 1 is wrong\nThe row of this number, from 0 among those of its kind, doesn't fit the table. What `lucid --flat` writes of a program fits.\n",
    },
    Row {
        words: "--from-flat p",
        source: "lucid flat 1\nconst 1\nnode 0 refer 0 0\nroot 0\n",
        status: Status::Refused,
        report: "flat node 0 is wrong\nThe row of this number, from 0 among those of its kind, doesn't fit the table. What `lucid --flat` writes of a program fits.\n",
    },
    Row {
        words: "--from-flat p",
        source: "lucid flat 1\nconst 1\nnode 0 const 0\nplain 0 1\nroot 0\n",
        status: Status::Refused,
        report: "flat name 0 is wrong\nThe row of this number, from 0 among those of its kind, doesn't fit the table. What `lucid --flat` writes of a program fits.\n",
    },
    Row {
        words: "--from-flat p",
        source: "lucid flat 1\nconst 1\nnode 0 const 0\nplain 0 0\nplace 0 0\nroot 0\n",
        status: Status::Refused,
        report: "flat place 0 is wrong\nThe row of this number, from 0 among those of its kind, doesn't fit the table. What `lucid --flat` writes of a program fits.\n",
    },
    Row {
        words: "--from-flat p",
        source: "lucid flat 1\nconst 1\nnode 0 const 0\nroot 1\n",
        status: Status::Refused,
        report: "flat root is wrong\nThe root, or a row of an input, doesn't fit the table. What `lucid --flat` writes of a program fits.\n",
    },
    Row {
        words: "--why 0 p",
        source: "x where x = x; end",
        status: Status::TooDeep,
        report: "too deep at time 0\n`--cycles` says: cycle x at 8: sum 0\nA value of these names needs one of them at the same time or at a later one: so there may be no depth that is enough. `X fby Y` is X at time 0, and then Y of one time before; `next X` is X of one time later. So `x = 0 fby x + 1` begins with 0 and goes on, and `x = 0 fby 1 fby x + next x` begins with two values. In `x = 1 fby x * next n` each x has the n of its own time.\n",
    },
    Row {
        words: "--count 2 p",
        source: "1",
        status: Status::Done,
        report: "",
    },
    Row {
        words: "--stats --count 2 p",
        source: "1",
        status: Status::Done,
        report: "lines 2 held 0 lost 0 cleared 0\n",
    },
];

// Runs that write `error`, no line or 20 lines, and others of which nothing is said. In the fifth the input has the one line `hd a`.
static DONE: [Row; 10] = [
    Row {
        words: "p",
        source: "1 + \"dog\"",
        status: Status::Done,
        report: "The value at time 0 is `error`.\np:1:3:\n1 + \"dog\"\n  ^\nAt time 0 `+` gets 1 and dog: it wants two integers.\nStrings, as `red' and `blue', are joined by `^`, and lists by `<>`. \"red\" is a word, and words aren't joined. Each line of an input is a value, also a heading.\n",
    },
    Row {
        words: "p",
        source: "6 div (2 - n) where n = 0 fby n + 1; end",
        status: Status::Done,
        report: "The value at time 2 is `error`.\np:1:3:\n6 div (2 - n) where n = 0 fby n + 1; end\n  ^\nAt time 2 `div` gets 6 and 0: the divisor is 0.\n",
    },
    Row {
        words: "--count 2 p",
        source: "6 div (2 - n) where n = 0 fby n + 1; end",
        status: Status::Done,
        report: "",
    },
    Row {
        words: "--stats p",
        source: "hd [% %]",
        status: Status::Done,
        report: "lines 20 held 0 lost 0 cleared 0\nThe value at time 0 is `error`.\np:1:1:\nhd [% %]\n^\nAt time 0 `hd` gets [% %]: the list is empty.\n",
    },
    Row {
        words: "p a=p",
        source: "hd a",
        status: Status::Done,
        report: "The value at time 0 is `error`.\na at time 0 is `error`.\np:1:4:\nhd a\n   ^\nLine 1 of this input is no value, or it is `error` itself. A value is an integer, as -12, a word without quotes, as red, a string, as `two words', a list, as [% 1 2 %], `true` or `false`. Of an input x, `x whenever not iserror x` has the other lines, and `x whenever not iserror x and isint x` the integers.\nThe line is: hd a\nAs a string it is written `hd a'.\n",
    },
    Row {
        words: "p",
        source: "eod",
        status: Status::Done,
        report: "The value at time 0 is `eod`, the end of data: a run ends before it.\np:1:1:\neod\n^\nHere `eod` itself is written.\n",
    },
    Row {
        words: "p",
        source: "`error ' fby 1",
        status: Status::Done,
        report: "A run writes 20 lines where no count is given: with --count N it writes N, 1000000 at most.\n",
    },
    Row {
        words: "--count=20 p",
        source: "1",
        status: Status::Done,
        report: "",
    },
    Row {
        words: "--columns x,y p",
        source: "x where x = error; y = 1; end",
        status: Status::Done,
        report: "A run writes 20 lines where no count is given: with --count N it writes N, 1000000 at most.\n",
    },
    Row {
        words: "--print p",
        source: "error",
        status: Status::Done,
        report: "",
    },
];

// Runs of whose source something is noted, and their neighbours, of which nothing is.
static NOTED: [Row; 13] = [
    Row {
        words: "--count 2 p",
        source: "[% n m %] where m = n * n; n = 0 fby n + 1; end",
        status: Status::Done,
        report: "p:1:1:\n[% n m %] where m = n * n; n = 0 fby n + 1; end\n^\nA list between [% and %] has constants: m in it is the word m. Of computed items it is `x :: y :: []`.\n",
    },
    Row {
        words: "p",
        source: "[% n m %] where m = n * n; n = 0 fby n + 1; end",
        status: Status::Done,
        report: "A run writes 20 lines where no count is given: with --count N it writes N, 1000000 at most.\np:1:1:\n[% n m %] where m = n * n; n = 0 fby n + 1; end\n^\nA list between [% and %] has constants: m in it is the word m. Of computed items it is `x :: y :: []`.\n",
    },
    Row {
        words: "--count 2 p",
        source: "[% k `n n' 1 %] where n = 1; end",
        status: Status::Done,
        report: "",
    },
    Row {
        words: "--count 2 p",
        source: "[% k %] where n = 1; end",
        status: Status::Done,
        report: "",
    },
    Row {
        words: "--print p",
        source: "[% n m %] where m = n * n; n = 0 fby n + 1; end",
        status: Status::Done,
        report: "",
    },
    Row {
        words: "--count 2 p",
        source: "s where s = x fby s + x; x = 1 fby x + 2; end",
        status: Status::Done,
        report: "p:1:9:\ns where s = x fby s + x; x = 1 fby x + 2; end\n        ^\nBehind `fby` stands the value for the next time, made of values of this time. If x of that next time is meant, write `next x` there.\n",
    },
    Row {
        words: "--count 2 p",
        source: "s where s = x fby s + next x; x = 1 fby x + 2; end",
        status: Status::Done,
        report: "",
    },
    Row {
        words: "--count 2 p",
        source: "s where s = x fby s + 1; x = 1 fby x + 2; end",
        status: Status::Done,
        report: "",
    },
    Row {
        words: "--count 2 p",
        source: "a where a = r asa r > 0 where k is current n; r = k fby r + k; end; n = 1 fby n + 1; end",
        status: Status::Done,
        report: "",
    },
    Row {
        words: "--count 2 p",
        source: "f where f = r asa c eq 0 where c = n fby c - 1; r = 1 fby r * c; end; n = 3 fby n + 1; end",
        status: Status::Done,
        report: "p:1:15:\nf where f = r asa c eq 0 where c = n fby c - 1; r = 1 fby r * c; end; n = 3 fby n + 1; end\n              ^\n`asa` gives one value for all times. A block that is to begin anew at each time has `k is current n;`, and then k in place of n.\n",
    },
    Row {
        words: "--count 2 p",
        source: "c asa i eq 2 where k is current n; i = 0 fby i + 1; c = n fby c * 2; end where n = 1 fby n + 1; end",
        status: Status::Done,
        report: "p:1:57:\nc asa i eq 2 where k is current n; i = 0 fby i + 1; c = n fby c * 2; end where n = 1 fby n + 1; end\n                                                        ^\nHere the name goes on with the time of the block, where k is its value at the time outside: is k meant?\n",
    },
    Row {
        words: "--count 2 p",
        source: "f where f = r asa c eq 0 where k is current n; c = k fby c - 1; r = 1 fby r * c; end; n = 3 fby n + 1; end",
        status: Status::Done,
        report: "",
    },
    Row {
        words: "--count 2 p",
        source: "r asa c > 3 where c = m fby c + 1; m = 1; r = 0 fby r + c; end",
        status: Status::Done,
        report: "",
    },
];

// Whether the row is told so.
fn is_told(alloc: Global, row: &Row) -> Result<bool, AllocError> {
    let answer = plain_call(alloc, row.words, row.source.as_bytes())?;
    Ok(answer.tells(row.status, row.report))
}

// The rows are right.
fn each_passes(alloc: Global, rows: &[Row]) -> Result<(), Fail> {
    for row in rows {
        if !is_told(alloc, row)? {
            return Err(Fail::new(format_args!("{}: {}", row.words, row.source)));
        }
    }
    Ok(())
}

#[test]
fn reports_are_explained(rt: HostRuntime) -> Result<(), Fail> {
    let alloc = rt.alloc();
    each_passes(alloc, &BYTES)?;
    each_passes(alloc, &TOKENS)?;
    each_passes(alloc, &NAMES)?;
    each_passes(alloc, &INPUTS)?;
    each_passes(alloc, &WORDS)?;
    each_passes(alloc, &RUNS)?;
    each_passes(alloc, &OTHERS)?;
    each_passes(alloc, &DONE)?;
    each_passes(alloc, &NOTED)
}

// What is asked, of which source, and how the report begins at a terminal; it is empty where nothing is said.
static PROMPTS: [(&str, &str, &str); 13] = [
    (
        "p",
        "a",
        "The input a is read from here, a value on each line.\nIf no input is meant: define the name, or write a word between two \", as in \"red\".\nread fault\n",
    ),
    (
        "p a=p",
        "a + b",
        "The input b is read from here, a value on each line.\nIf no input is meant: define the name, or write a word between two \", as in \"red\".\nread fault\n",
    ),
    (
        "p",
        "N where n = 1; end",
        "The input N is read from here, a value on each line.\nIt may be misspelt: n is defined in line 1, column 9.\nread fault\n",
    ),
    (
        "p",
        "f where k is current f; f = k + 1; end",
        "The input f is read from here, a value on each line.\nA name is in scope in the block that defines it, and a parameter in the right side of its function. The right side of `is current` stands outside the block: what it names is defined there, behind a `where` of its own. f is defined in line 1, column 25.\nread fault\n",
    ),
    (
        "p",
        "f(1) where f(x) = y + 1; y = x * x; end",
        "The input x is read from here, a value on each line.\nA name is in scope in the block that defines it, and a parameter in the right side of its function. The right side of `is current` stands outside the block: what it names is defined there, behind a `where` of its own. f(x) is defined in line 1, column 12.\nread fault\n",
    ),
    (
        "p",
        "1 whenever True",
        "The input True is read from here, a value on each line.\nIt may be misspelt: reserved words have small letters, as `true`.\nread fault\n",
    ),
    (
        "p",
        "n // 2",
        "The input n is read from here, a value on each line.\nBehind it begins a comment, with `//`: whole division is `div`.\nread fault\n",
    ),
    (
        "p",
        "O + 1",
        "The input O is read from here, a value on each line.\nIf no input is meant: define the name. If 0 or 1 is meant: this is a letter.\nread fault\n",
    ),
    (
        "p",
        "1 :: nil",
        "The input nil is read from here, a value on each line.\nThe empty list is written `[]`.\nread fault\n",
    ),
    ("p sale=p", "sales * 2", "no input is named sale\n"),
    ("p a=p a=p", "a + b", "a is given twice\n"),
    ("--count 1 p", "1", ""),
    ("--print p", "a", ""),
];

// Whether a report begins so, and is empty where nothing is said.
fn begins_so(report: &[u8], wanted: &str) -> bool {
    report.starts_with(wanted.as_bytes()) && report.is_empty() == wanted.is_empty()
}

fn is_prompted(alloc: Global, words: &str, source: &str, report: &str) -> Result<bool, AllocError> {
    let outlook = OneFile {
        source: Some(source.as_bytes()),
        terminal: true,
    };
    let answer = call(alloc, words, source.as_bytes(), &outlook)?;
    Ok(begins_so(answer.report.written(), report))
}

#[test]
fn a_terminal_is_told_of(rt: HostRuntime) -> Result<(), Fail> {
    for (words, source, report) in PROMPTS {
        let is_so = is_prompted(rt.alloc(), words, source, report)?;
        assert!(rt; is_so, "{words}: {source}");
    }
    Ok(())
}
