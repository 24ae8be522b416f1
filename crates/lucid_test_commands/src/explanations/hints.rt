//! The hints that end a report, over sources in memory: a row for each.
use crate::explanations::call::plain_call;
use std::alloc::{AllocError, Global};
use std::test::Fail;

// A source, how its report begins, and how it ends.
#[derive(Clone, Copy)]
struct Ends {
    source: &'static [u8],
    begin: &'static str,
    end: &'static str,
}

// Tokens that go wrong, with the hint that ends the report.
static HINTS: [Ends; 44] = [
    Ends {
        source: b"n = 0 fby n + 1;",
        begin: "syntax at 2\n",
        end: ".\nA program begins with an expression, and its definitions stand behind `where`: `n where n = 1; end`. To compare, write `eq`.\n",
    },
    Ends {
        source: b"if x == 1 then 2 else 3 fi",
        begin: "syntax at 5\n",
        end: ".\nTo compare, write `eq`.\n",
    },
    Ends {
        source: b"n => 3",
        begin: "syntax at 2\n",
        end: ".\nTo compare, write `>=`.\n",
    },
    Ends {
        source: b"n =< 3",
        begin: "syntax at 2\n",
        end: ".\nTo compare, write `<=`.\n",
    },
    Ends {
        source: b"k where k = current n; end",
        begin: "syntax at 12\n",
        end: ".\nWrite `k is current n;`, without `=`.\n",
    },
    Ends {
        source: b"1 < n < 5",
        begin: "syntax at 6\n",
        end: ".\nComparisons don't chain: write `1 < n and n < 5`.\n",
    },
    Ends {
        source: b"p eq not p",
        begin: "syntax at 5\n",
        end: ".\nHere `not` stands in parentheses, as in `a eq (not b)`.\n",
    },
    Ends {
        source: b"1 if n < 3 else 2",
        begin: "syntax at 2\n",
        end: ".\nA choice is written `if .. then .. else .. fi`.\n",
    },
    Ends {
        source: b"if a then 1 elif b then 2 else 3 fi",
        begin: "syntax at 12\n",
        end: ".\nWrite `else if .. then .. else .. fi fi`: each `if` ends with a `fi` of its own.\n",
    },
    Ends {
        source: b"n where -- a clock\n n = 1; end",
        begin: "syntax at 8\n",
        end: ".\nA comment begins with `//`.\n",
    },
    Ends {
        source: b"n where n = 0 fby n++; end",
        begin: "syntax at 20\n",
        end: ".\nThere is no `++`: write `n + 1`. Lists are joined by `<>`, and strings by `^`.\n",
    },
    Ends {
        source: b"f() where f() = 3; end",
        begin: "syntax at 2\n",
        end: ".\nA function has one argument at least: what has none is a plain name, without parentheses.\n",
    },
    Ends {
        source: b"n where n is 0 fby n + 1; end",
        begin: "syntax at 13\n",
        end: ".\nBehind `is` stands `current`: a definition is written with `=`.\n",
    },
    Ends {
        source: b"f(1) where f(x) = return x * 2; end",
        begin: "syntax at 25\n",
        end: ".\nThere is no `return`: the right side of `=` is the value.\n",
    },
    Ends {
        source: b"2n",
        begin: "syntax at 1\n",
        end: ".\nA product is written with `*`, as in `2 * n`. A number has digits alone.\n",
    },
    Ends {
        source: b"where n = 1; end",
        begin: "syntax at 0\n",
        end: ".\nA program begins with an expression, and its definitions stand behind `where`: `n where n = 1; end`.\n",
    },
    Ends {
        source: b"// clock\r1\r",
        begin: "syntax at 11\n",
        end: ".\nHere lines end with a carriage return (byte 13) alone, and a comment goes on past it: save the file with line ends of Unix (LF).\n",
    },
    Ends {
        source: b"n where n += 1; end",
        begin: "syntax at 10\n",
        end: ".\nA name is defined once, for all times: `n = 0 fby n + 1;`.\n",
    },
    Ends {
        source: b"n where my-sum = 1; end",
        begin: "syntax at 10\n",
        end: ".\nA name has letters, digits and `_` alone.\n",
    },
    Ends {
        source: b"n where let n = 1; end",
        begin: "syntax at 12\n",
        end: ".\nA definition begins with the name that it defines, and then `=`: `n = 1;`. Parameters stand in parentheses: `f(x) = x + 1;`.\n",
    },
    Ends {
        source: b"f(1) where f(0) = 1; end",
        begin: "syntax at 13\n",
        end: ".\nA parameter is a name. What depends on it is written with `if`; a stream that begins with 0 is `n = 0 fby n + 1;`, without parentheses.\n",
    },
    Ends {
        source: b"length where length = 3; end",
        begin: "syntax at 7\n",
        end: ".\n`length` before this is an operator, behind which an expression stands. It is reserved: no name is spelled so.\n",
    },
    Ends {
        source: b"a where a = length * 2; end",
        begin: "syntax at 19\n",
        end: ".\n`length` before this is an operator, behind which an expression stands. It is reserved: no name is spelled so.\n",
    },
    Ends {
        source: b"a where a = length + 2; end",
        begin: "syntax at 19\n",
        end: ".\n`length` before this is an operator, behind which an expression stands. It is reserved: no name is spelled so.\n",
    },
    Ends {
        source: b"n where n = first fby n + 1; end",
        begin: "syntax at 18\n",
        end: ".\n`first` before this is an operator, behind which an expression stands. It is reserved: no name is spelled so.\n",
    },
    Ends {
        source: b"n where n = 0 fby; end",
        begin: "syntax at 17\n",
        end: ".\n`fby` before this is an operator, behind which an expression stands. It is reserved: no name is spelled so.\n",
    },
    Ends {
        source: b"1 where n = 1; end;",
        begin: "syntax at 18\n",
        end: ".\nBefore this the program is whole: leave out what stands behind.\n",
    },
    Ends {
        source: b"1 where n = 1; end\n2",
        begin: "syntax at 19\n",
        end: ".\nBefore this the program is whole: leave out what stands behind.\n",
    },
    Ends {
        source: b"(1))",
        begin: "syntax at 3\n",
        end: ".\nBefore this no `(` is open: leave it out.\n",
    },
    Ends {
        source: b"x, y where x = 1; y = 2; end",
        begin: "syntax at 1\n",
        end: ".\nA program has one subject. Names of its block are written side by side by `--columns x,y`. Tests are joined by `and`, and values by `::`, as in `x :: y :: []`.\n",
    },
    Ends {
        source: b"(1, 2)",
        begin: "syntax at 2\n",
        end: ".\nParentheses that are no call have one expression in them: a list is `x :: y :: []`. Reserved words, as `if` and `next`, are no functions: a choice is written `if .. then .. else .. fi`, and the value of n two times later `next next n`.\n",
    },
    Ends {
        source: b"f(1) where f(x = x; end",
        begin: "syntax at 15\n",
        end: ".\nA `(` stands open before this: its `)` is missing.\n",
    },
    Ends {
        source: b"n where not = 1; end",
        begin: "syntax at 8\n",
        end: ".\nThis word is reserved: no name is spelled so.\n",
    },
    Ends {
        source: b"f(1) where f(not) = 1; end",
        begin: "syntax at 13\n",
        end: ".\nThis word is reserved: no name is spelled so.\n",
    },
    Ends {
        source: b"n where n = 3end",
        begin: "syntax at 13\n",
        end: ".\nEach definition ends with `;`, the last one before `end` too.\n",
    },
    Ends {
        source: b"// clock\r\n",
        begin: "syntax at 10\n",
        end: ".\nThe program has no token: it is empty, or has blanks and comments alone. Is its file saved?\n",
    },
    Ends {
        source: b"n n = 1; end",
        begin: "syntax at 2\n",
        end: ".\nIs `where` missing before the definitions?\n",
    },
    Ends {
        source: b"(n + 1 where n = 1; end",
        begin: "syntax at 23\n",
        end: ".\nA `(` stands open before this: its `)` is missing.\n",
    },
    Ends {
        source: b"x + y where\n  x = 1\n  y = 2;\nend",
        begin: "syntax at 22\n",
        end: ".\nIs the `;` missing at the end of the line before?\n",
    },
    Ends {
        source: b"h where\n  h = n // 2;\n  n = 1;\nend",
        begin: "syntax at 24\n",
        end: ".\nWhole division is `div`: what stands behind `//` is a comment. Or is the `;` missing before it?\n",
    },
    Ends {
        source: b"n\n  n = 1;\nend",
        begin: "syntax at 4\n",
        end: ".\nIs `where` missing before the definitions?\n",
    },
    Ends {
        source: b"if n < 3 1 else 2 fi",
        begin: "syntax at 9\n",
        end: ".\nBehind the test of an `if` stands `then`.\n",
    },
    Ends {
        source: b"square n where square(x) = x * x; end",
        begin: "syntax at 7\n",
        end: ".\nIs an operator or `where` missing before this, or misspelt? Arguments stand in parentheses, as in `f(x)`, and a string of words as `two words'.\n",
    },
    Ends {
        source: b"x + y where x = y y = 2; end",
        begin: "syntax at 18\n",
        end: ".\nEach definition ends with `;`, the last one before `end` too.\n",
    },
];

// More of them. (One test over all is too much for one check.)
static MORE_HINTS: [Ends; 47] = [
    Ends {
        source: b"n Where n = 1; end",
        begin: "syntax at 2\n",
        end: ".\nReserved words are spelled in small letters, as `where` and `if`.\n",
    },
    Ends {
        source: b"If n > 3 Then 1 Else 0 Fi",
        begin: "syntax at 3\n",
        end: ".\nReserved words are spelled in small letters, as `where` and `if`.\n",
    },
    Ends {
        source: b"n; where n = 1; end",
        begin: "syntax at 1\n",
        end: ".\nBehind a definition alone stands `;`: leave it out.\n",
    },
    Ends {
        source: b"n fi where n = 1; end",
        begin: "syntax at 2\n",
        end: ".\nBefore this no `if` is open: leave the `fi` out.\n",
    },
    Ends {
        source: b"n end where n = 1; end",
        begin: "syntax at 2\n",
        end: ".\nBefore this no `where` is open: leave the `end` out.\n",
    },
    Ends {
        source: b"n where n = 1; end + 1",
        begin: "syntax at 19\n",
        end: ".\nA block before an operator stands in parentheses: `(n where n = 1; end) + 1`.\n",
    },
    Ends {
        source: b"x where x = y where y = 1; end fby 2; end",
        begin: "syntax at 31\n",
        end: ".\nA block before an operator stands in parentheses: `(n where n = 1; end) + 1`.\n",
    },
    Ends {
        source: b"n where n = 1; end -- one",
        begin: "syntax at 19\n",
        end: ".\nA comment begins with `//`.\n",
    },
    Ends {
        source: b"x + y where\n  x = 1 // one\n  y = 2;\nend",
        begin: "syntax at 29\n",
        end: ".\nWhole division is `div`: what stands behind `//` is a comment. Or is the `;` missing before it?\n",
    },
    Ends {
        source: b"y where y = x * x where x = 3; end",
        begin: "syntax at 34\n",
        end: ".\nEach `where` has an `end` of its own: one is missing. Here the last `end` ends an inner block: where that is whole before, write `end;` there, and else `; end` here.\n",
    },
    Ends {
        source: b"x where x = if true then 1 else 0 fi fi; end",
        begin: "syntax at 37\n",
        end: ".\nIn this definition no `if` is open: leave the `fi` out, or end the definition with `;`.\n",
    },
    Ends {
        source: b"x where x = y = 0; end",
        begin: "syntax at 14\n",
        end: ".\nA definition has one name and one `=`: two are written `x = 0; y = 0;`. To compare, write `eq`.\n",
    },
    Ends {
        source: b"n where // one\r n = 1;\r end\r",
        begin: "syntax at 28\n",
        end: ".\nHere lines end with a carriage return (byte 13) alone, and a comment goes on past it: save the file with line ends of Unix (LF).\n",
    },
    Ends {
        source: b"n where n = 1; edn",
        begin: "syntax at 18\n",
        end: ".\nBehind `where` come the definitions, and then `end`.\n",
    },
    Ends {
        source: b"n where n = 0 fby +1; end",
        begin: "syntax at 18\n",
        end: ".\nNo `+` stands before a number: write `1`.\n",
    },
    Ends {
        source: b"fby(0, n)",
        begin: "syntax at 0\n",
        end: ".\nThis operator stands between two expressions, as `fby` in `0 fby n`.\n",
    },
    Ends {
        source: b"let n = 1 in n",
        begin: "syntax at 4\n",
        end: ".\nThere is no `let`: definitions stand behind `where`, as in `n where n = 1; end`.\n",
    },
    Ends {
        source: b"head [% 1 2 %]",
        begin: "syntax at 5\n",
        end: ".\nThe first item of a list l is `hd l`, and the others are `tl l`.\n",
    },
    Ends {
        source: b"x is current n",
        begin: "syntax at 2\n",
        end: ".\nTo compare, write `eq`. `k is current n;` defines a plain name, behind `where`.\n",
    },
    Ends {
        source: b"f(2) where f(x) => x + 1; end",
        begin: "syntax at 17\n",
        end: ".\nA definition is written with `=` alone, as in `f(x) = x + 1;`.\n",
    },
    Ends {
        source: b"n where n = 0 -> pre n + 1; end",
        begin: "syntax at 15\n",
        end: ".\nThere is no `->`: a function is written `f(x) = x + 1;`, and for `0 -> pre n + 1` write `0 fby n + 1`.\n",
    },
    Ends {
        source: b"prev n where n = 1; end",
        begin: "syntax at 5\n",
        end: ".\nThe value of n one time before is `(0 fby n)`, which is 0 at first.\n",
    },
    Ends {
        source: b"n not eq 3 where n = 1; end",
        begin: "syntax at 2\n",
        end: ".\nWhat differs is written with `ne`, as in `n ne 3`.\n",
    },
    Ends {
        source: b"(* a clock *) n where n = 1; end",
        begin: "syntax at 1\n",
        end: ".\nA comment begins with `//`.\n",
    },
    Ends {
        source: b"n where n == 1; end",
        begin: "syntax at 11\n",
        end: ".\nA definition has one name and one `=`: two are written `x = 0; y = 0;`. To compare, write `eq`.\n",
    },
    Ends {
        source: b"n where first n = 0; next n = n + 1; end",
        begin: "syntax at 8\n",
        end: ".\nA name is defined once, for all times: `n = 0 fby n + 1;`.\n",
    },
    Ends {
        source: b"f(1 2) where f(x, y) = x + y; end",
        begin: "syntax at 4\n",
        end: ".\nIs a `,` or a `)` missing before this? A call is written `f(x, y)`.\n",
    },
    Ends {
        source: b"n + where n = 1; end",
        begin: "syntax at 4\n",
        end: ".\nAn expression is missing before this.\n",
    },
    Ends {
        source: b"1 +\n",
        begin: "syntax at 4\n",
        end: ".\nAn expression is missing before this.\n",
    },
    Ends {
        source: b"80\n90\n",
        begin: "syntax at 3\n",
        end: ".\nTwo numbers stand here, and no operator between them. Values of an input stand in a file of their own: `NAME=FILE` behind the program.\n",
    },
    Ends {
        source: b"n when n > 3 where n = 0 fby n + 1; end",
        begin: "syntax at 2\n",
        end: ".\nA condition on times stands behind `whenever`, as in `n whenever n > 3`, and definitions stand behind `where`.\n",
    },
    Ends {
        source: b"if eod(n) then 1 else 2 fi",
        begin: "syntax at 6\n",
        end: ".\n`eod` and `error` are values: whether n is one of them is asked by `iseod n` and `iserror n`.\n",
    },
    Ends {
        source: b"error(n)",
        begin: "syntax at 5\n",
        end: ".\n`eod` and `error` are values: whether n is one of them is asked by `iseod n` and `iserror n`.\n",
    },
    Ends {
        source: b"f(1; 2) where f(x, y) = x + y; end",
        begin: "syntax at 3\n",
        end: ".\nA `(` stands open before this: its `)` is missing, or a `,` between two arguments, as in `f(x, y)`.\n",
    },
    Ends {
        source: b"f(1, 2) where f(x; y) = x + y; end",
        begin: "syntax at 17\n",
        end: ".\nA `(` stands open before this: its `)` is missing, or a `,` between two arguments, as in `f(x, y)`.\n",
    },
    Ends {
        source: b"x where x = if true then 1 2 fi; end",
        begin: "syntax at 27\n",
        end: ".\nIs `else` missing before this, or an operator? A choice is written `if .. then .. else .. fi`, and a call `f(x)`.\n",
    },
    Ends {
        source: b"if true then 1 else 2 endif",
        begin: "syntax at 22\n",
        end: ".\nIs `fi` missing before this, or an operator? Each `if` ends with a `fi` of its own, and a call is written `f(x)`.\n",
    },
    Ends {
        source: b"next 2 n where n = 0 fby n + 1; end",
        begin: "syntax at 7\n",
        end: ".\nIs an operator missing before this, or misspelt? A product is written `2 * n`, a value and then others `0 fby n`, and the value of n two times later `next next n`.\n",
    },
    Ends {
        source: b"n where n = 0 followed by n + 1; end",
        begin: "syntax at 14\n",
        end: ".\n`followed by` is written `fby`, as in `0 fby n`.\n",
    },
    Ends {
        source: b"n where n = m; where m = 3; end",
        begin: "syntax at 15\n",
        end: ".\nOne `where` stands before all definitions of a block, and before the `where` of an inner block stands no `;`.\n",
    },
    Ends {
        source: b"n where n = 0,5; end",
        begin: "syntax at 13\n",
        end: ".\nNo `,` stands here between numbers: there are no real numbers, a stream is `1 fby 2 fby 3`, and a list `[% 1 2 3 %]`.\n",
    },
    Ends {
        source: b"if true then 1; else 0 fi",
        begin: "syntax at 14\n",
        end: ".\nBefore `else` and `fi` stands no `;`.\n",
    },
    Ends {
        source: b"if true then 1 else 0; fi",
        begin: "syntax at 21\n",
        end: ".\nBefore `else` and `fi` stands no `;`.\n",
    },
    Ends {
        source: b"if true then 1 else n where n = 0; end",
        begin: "syntax at 38\n",
        end: ".\nEach `if` ends with a `fi` of its own. A `where` between an `if` and its `fi` defines names for the part alone in which it stands.\n",
    },
    Ends {
        source: b"n where n :: Int; end",
        begin: "syntax at 10\n",
        end: ".\nKinds of values aren't declared: behind the name stands `=`, and then what it is.\n",
    },
    Ends {
        source: b"=n * 2 where n = 1; end",
        begin: "syntax at 0\n",
        end: ".\nA program begins with an expression, and no `=` stands before it.\n",
    },
    Ends {
        source: b"while n < 3 where n = 1; end",
        begin: "syntax at 6\n",
        end: ".\nThere are no loops: `n = 0 fby n + 1;` defines the values of all times, `n * n` has their squares, and --count N says how many are written.\n",
    },
];

// Bytes that are no tokens, the same.
static CHARACTERS: [Ends; 30] = [
    Ends {
        source: b"\xef\xbb\xbf1",
        begin: "bad byte at 0\n",
        end: "^\nA byte order mark stands here: save the file without it.\n",
    },
    Ends {
        source: b"\xff\xfe1\x00",
        begin: "bad byte at 0\n",
        end: "^\nThis file is UTF-16: save it as ASCII or UTF-8.\n",
    },
    Ends {
        source: b"1 +\xc2\xa02",
        begin: "bad byte at 3\n",
        end: "^\nA blank that doesn't break stands here: write a plain one.\n",
    },
    Ends {
        source: b"\xe2\x80\x9cred\xe2\x80\x9d",
        begin: "bad byte at 0\n",
        end: "^\nHere stands a typographic quotation mark: a word stands between two plain \", as in \"red\".\n",
    },
    Ends {
        source: b"\xe2\x80\x98two words\xe2\x80\x99",
        begin: "bad byte at 0\n",
        end: "^\nHere stands a typographic quotation mark: a string begins with a backquote and ends with a plain ', as `two words'.\n",
    },
    Ends {
        source: b"n \xe2\x80\x93 1",
        begin: "bad byte at 2\n",
        end: "^\nHere stands a dash: minus is the plain `-`.\n",
    },
    Ends {
        source: b"n \xe2\x89\xa4 3",
        begin: "bad byte at 2\n",
        end: "^\nWrite `<=`.\n",
    },
    Ends {
        source: b"n \xe2\x89\xa0 3",
        begin: "bad byte at 2\n",
        end: "^\nWrite `ne`.\n",
    },
    Ends {
        source: b"n \xc3\x97 3",
        begin: "bad byte at 2\n",
        end: "^\nA product is written with `*`.\n",
    },
    Ends {
        source: b"n \xc3\xb7 3",
        begin: "bad byte at 2\n",
        end: "^\nWhole division is `div`, and what it leaves over is `mod`.\n",
    },
    Ends {
        source: b"gr\xc3\xb6sse",
        begin: "bad byte at 2\n",
        end: "^\nOnly in comments may other bytes stand than printable ASCII, tabs and line ends. A name has the letters a to z and A to Z, digits and `_`.\n",
    },
    Ends {
        source: b"x' where x' = 1; end",
        begin: "bad byte at 1\n",
        end: "^\nA name has letters, digits and `_` alone, and a string has no ' in it.\n",
    },
    Ends {
        source: b"n[0]",
        begin: "bad byte at 1\n",
        end: "^\nThe value of n at time 2 is `n attime 2`, and item 2 of a list l, from 0, is `nth(l, 2)`.\n",
    },
    Ends {
        source: b"n /= 3",
        begin: "bad byte at 2\n",
        end: "^\nWrite `ne`.\n",
    },
    Ends {
        source: b"n `mod` 2",
        begin: "open text at 2\n",
        end: "^\nAn operator stands without quotation marks, as in `n mod 2`.\n",
    },
    Ends {
        source: b"f(3) where f = \\x; end",
        begin: "bad byte at 15\n",
        end: "^\nA function is written with a name, as `f(x) = x + 1;`.\n",
    },
    Ends {
        source: b"$n",
        begin: "bad byte at 0\n",
        end: "^\nA name begins with a letter, and has letters, digits and `_` alone.\n",
    },
    Ends {
        source: b"1_000",
        begin: "bad byte at 1\n",
        end: "^\nA name begins with a letter, and a number has digits alone.\n",
    },
    Ends {
        source: b"\"a\" & \"b\"",
        begin: "bad byte at 4\n",
        end: "^\nWrite `and`, and to join strings `^`.\n",
    },
    Ends {
        source: b"a | b",
        begin: "bad byte at 2\n",
        end: "^\nWrite `or`. Cases are told apart by `if .. then .. else .. fi`.\n",
    },
    Ends {
        source: b"n where n := 1; end",
        begin: "bad byte at 10\n",
        end: "^\nA definition is written with `=` and ends with `;`, as `n = 0 fby n + 1;` or `f(x) = x + 1;`, and `::` puts a value in front of a list. Behind a test stands `then`.\n",
    },
    Ends {
        source: b"\x00n\x00 ",
        begin: "bad byte at 0\n",
        end: "^\nA byte 0 stands here: the file may be UTF-16, or no text. Save it as ASCII or UTF-8.\n",
    },
    Ends {
        source: b"1 + 'dog'",
        begin: "bad byte at 4\n",
        end: "^\nA word stands between two \", as in \"red\". A string begins with a backquote and ends with ' in one line, as `two words'.\n",
    },
    Ends {
        source: b"n.next where n = 0 fby n + 1; end",
        begin: "bad byte at 1\n",
        end: "^\nNo `.` stands outside comments and strings: operators and functions stand before what they take, as in `next n` and `f(n)`.\n",
    },
    Ends {
        source: b"n where n = x.5; end",
        begin: "bad byte at 13\n",
        end: "^\nThere are no real numbers: write integers.\n",
    },
    Ends {
        source: b"n where n = (1 + 2]; end",
        begin: "bad byte at 18\n",
        end: "^\nBefore this no list is open: a `(` ends with `)`, and a list of constants with `%]`.\n",
    },
    Ends {
        source: b"lucid --count=5 program.lucid\nn",
        begin: "bad byte at 23\n",
        end: "^\nA program names no files: these stand in the command.\n",
    },
    Ends {
        source: b"// two\n12. n where n = 1; end",
        begin: "bad byte at 9\n",
        end: "^\nIs this the number of an exercise? It is no part of the program: leave it out.\n",
    },
    Ends {
        source: b"n where: n = 1; end",
        begin: "bad byte at 7\n",
        end: "^\nNo `:` stands behind `where`: the definitions come there, and then `end`.\n",
    },
    Ends {
        source: b"for n in range(5):\n",
        begin: "bad byte at 17\n",
        end: "^\nThere are no loops: `n = 0 fby n + 1;` defines the values of all times, `n * n` has their squares, and --count N says how many are written.\n",
    },
];

// Hints at slips of the pen, and at what is written so elsewhere.
static SLIPS: [Ends; 30] = [
    Ends {
        source: b"d as soon as d > 9 where d = 1 fby 2 * d; end",
        begin: "syntax at 2\n",
        end: ".\n`as soon as` is written `asa`, as in `n asa n > 3`.\n",
    },
    Ends {
        source: b"n while n < 5 where n = 0 fby n + 1; end",
        begin: "syntax at 2\n",
        end: ".\nA run ends where the subject is `eod`, as in `if n > 5 then eod else n fi`, or by --count N.\n",
    },
    Ends {
        source: b"x * x for x in n where n = 1; end",
        begin: "syntax at 6\n",
        end: ".\nThere are no loops: `n = 0 fby n + 1;` defines the values of all times, `n * n` has their squares, and --count N says how many are written.\n",
    },
    Ends {
        source: b"n where n > 3; end",
        begin: "syntax at 10\n",
        end: ".\nA definition begins with the name that it defines, and then `=`: `n = 1;`. A condition on times stands behind `whenever`, as in `n whenever n > 3`.\n",
    },
    Ends {
        source: b"n at 3 where n = 0 fby n + 1; end",
        begin: "syntax at 2\n",
        end: ".\nThe value of n at time 3 is `n attime 3`.\n",
    },
    Ends {
        source: b"n until n > 5 where n = 0 fby n + 1; end",
        begin: "syntax at 2\n",
        end: ".\nA run ends where the subject is `eod`, as in `if n > 5 then eod else n fi`, or by --count N.\n",
    },
    Ends {
        source: b"n equals 3 where n = 0 fby n + 1; end",
        begin: "syntax at 2\n",
        end: ".\nTo compare, write `eq`.\n",
    },
    Ends {
        source: b"n\nm where n = 1; m = 2; end",
        begin: "syntax at 2\n",
        end: ".\nA program has one subject: `n :: m :: []` is one, and `--columns n,m` writes names of its block side by side.\n",
    },
    Ends {
        source: b"x where x = a, b; a = 1; b = 2; end",
        begin: "syntax at 13\n",
        end: ".\nEach definition ends with `;`. Tests are joined by `and`, and values by `::`, as in `x :: y :: []`.\n",
    },
    Ends {
        source: b"-- a clock\nn where n = 1; end",
        begin: "syntax at 5\n",
        end: ".\nA comment begins with `//`.\n",
    },
    Ends {
        source: b"-- clock\nn where n = 1; end",
        begin: "syntax at 9\n",
        end: ".\nA comment begins with `//`.\n",
    },
    Ends {
        source: b"n where n = (1 + 2)); end",
        begin: "syntax at 19\n",
        end: ".\nIn this definition no `(` is open: leave the `)` out, or end the definition with `;`, and its block with `end`.\n",
    },
    Ends {
        source: b"if true then (1)) else 0 fi",
        begin: "syntax at 16\n",
        end: ".\nIn this `if` no `(` is open: leave the `)` out, or end the `if` with `else` and `fi`. To keep some values alone, write `n whenever n > 3`.\n",
    },
    Ends {
        source: b"if true then 1 else (0)) fi",
        begin: "syntax at 23\n",
        end: ".\nIn this `if` no `(` is open: leave the `)` out, or end the `if`, which has `then`, `else` and `fi`.\n",
    },
    Ends {
        source: b"f(if 1 < 2 then 1 else 0) where f(x) = x; end",
        begin: "syntax at 24\n",
        end: ".\nIn this `if` no `(` is open: leave the `)` out, or end the `if`, which has `then`, `else` and `fi`.\n",
    },
    Ends {
        source: b"(n where n = 1) + 1",
        begin: "syntax at 14\n",
        end: ".\nIn this definition no `(` is open: leave the `)` out, or end the definition with `;`, and its block with `end`.\n",
    },
    Ends {
        source: b"n where = 1; end",
        begin: "syntax at 8\n",
        end: ".\nThe name that is defined is missing before this.\n",
    },
    Ends {
        source: b"n where n = 0 then n + 1; end",
        begin: "syntax at 14\n",
        end: ".\nIn this definition no `if` is open: a choice is written `if .. then .. else .. fi`. What follows a first value stands behind `fby`, as in `0 fby n`.\n",
    },
    Ends {
        source: b"n whenever n > 3 else 0",
        begin: "syntax at 17\n",
        end: ".\nBefore this no `if` is open: a choice is written `if .. then .. else .. fi`. What follows a first value stands behind `fby`, as in `0 fby n`.\n",
    },
    Ends {
        source: b"if (1 < 2 then 1 else 0 fi",
        begin: "syntax at 10\n",
        end: ".\nA `(` stands open before this: its `)` is missing.\n",
    },
    Ends {
        source: b"n next where n = 1; end",
        begin: "syntax at 2\n",
        end: ".\nThis operator stands before what it takes, as in `next n`.\n",
    },
    Ends {
        source: b"f next n where f(x) = x; n = 1; end",
        begin: "syntax at 2\n",
        end: ".\nIs an operator or `where` missing before this, or misspelt? Arguments stand in parentheses, as in `f(x)`, and a string of words as `two words'.\n",
    },
    Ends {
        source: b"n where n = 0;\n  fby n + 1;\nend",
        begin: "syntax at 17\n",
        end: ".\nThis operator stands between two expressions, as `fby` in `0 fby n`: before it stands no `;`.\n",
    },
    Ends {
        source: b"n where n = 1; mod = 2; end",
        begin: "syntax at 15\n",
        end: ".\nThis word is reserved: no name is spelled so.\n",
    },
    Ends {
        source: b"n where n = 1; print n; end",
        begin: "syntax at 21\n",
        end: ".\nThere is no `print`: a program writes the values of its subject, with which it begins.\n",
    },
    Ends {
        source: b"print n where n = 1; end",
        begin: "syntax at 6\n",
        end: ".\nThere is no `print`: a program writes the values of its subject, with which it begins.\n",
    },
    Ends {
        source: b"n where n - 0 fby 1; end",
        begin: "syntax at 10\n",
        end: ".\nA definition begins with the name that it defines, and then `=`: `n = 1;`. Parameters stand in parentheses: `f(x) = x + 1;`.\n",
    },
    Ends {
        source: b"if n is 3 then 1 else 2 fi",
        begin: "syntax at 5\n",
        end: ".\nTo compare, write `eq`. `k is current n;` defines a plain name, behind `where`.\n",
    },
    Ends {
        source: b"x where x = last end",
        begin: "syntax at 17\n",
        end: ".\nEach definition ends with `;`, the last one before `end` too.\n",
    },
    Ends {
        source: b"n - last n where n = 1; end",
        begin: "syntax at 9\n",
        end: ".\nThe value of n one time before is `(0 fby n)`, which is 0 at first.\n",
    },
];

// The same of bytes that are no tokens.
static SIGNS: [Ends; 15] = [
    Ends {
        source: b"n ~= 3",
        begin: "bad byte at 2\n",
        end: "^\nWrite `ne`.\n",
    },
    Ends {
        source: b"!false",
        begin: "bad byte at 0\n",
        end: "^\nWrite `ne` for what differs, and `not` before a truth.\n",
    },
    Ends {
        source: b"1..10",
        begin: "bad byte at 1\n",
        end: "^\nThere are no ranges: `n = 0 fby n + 1;` is 0, 1, 2, .., and --count N says how many are written.\n",
    },
    Ends {
        source: b"n\xc2\xb2",
        begin: "bad byte at 1\n",
        end: "^\nA power is written with `**`, as in `n ** 2`.\n",
    },
    Ends {
        source: b"\xc2\xb4two words\xc2\xb4",
        begin: "bad byte at 0\n",
        end: "^\nHere stands a typographic quotation mark: a string begins with a backquote and ends with a plain ', as `two words'.\n",
    },
    Ends {
        source: b"true \xe2\x88\xa7 false",
        begin: "bad byte at 5\n",
        end: "^\nWrite `and`.\n",
    },
    Ends {
        source: b"\xc2\xacfalse",
        begin: "bad byte at 0\n",
        end: "^\nWrite `not` before a truth.\n",
    },
    Ends {
        source: b"~false",
        begin: "bad byte at 0\n",
        end: "^\nWrite `not` before a truth.\n",
    },
    Ends {
        source: b"n\xe2\x80\x8b where n = 1; end",
        begin: "bad byte at 1\n",
        end: "^\nA character that isn't seen stands here: leave it out.\n",
    },
    Ends {
        source: b"n where n = 1\xef\xbc\x9b end",
        begin: "bad byte at 13\n",
        end: "^\nA wide character stands here: write the plain one.\n",
    },
    Ends {
        source: b"n where n = [0..]; end",
        begin: "bad byte at 12\n",
        end: "^\nThere are no ranges: `n = 0 fby n + 1;` is 0, 1, 2, .., and --count N says how many are written.\n",
    },
    Ends {
        source: b"[1, 2]",
        begin: "bad byte at 0\n",
        end: "^\nA list of constants is written `[% 1 2 3 %]`, with blanks between its items and no commas. Of computed items it is `a :: b :: []`.\n",
    },
    Ends {
        source: b"{- a clock -}",
        begin: "bad byte at 0\n",
        end: "^\nA comment begins with `//`.\n",
    },
    Ends {
        source: b"node c() returns (n: int);",
        begin: "bad byte at 19\n",
        end: "^\nA program begins with an expression, and its definitions stand behind `where`: `n where n = 0 fby n + 1; f(x) = x + 1; end`.\n",
    },
    Ends {
        source: b"% a clock",
        begin: "bad byte at 0\n",
        end: "^\nWhat a division leaves over is `mod`. A comment begins with `//`.\n",
    },
];

// Whether a report begins and ends so.
fn has_ends(report: &[u8], row: &Ends) -> bool {
    report.starts_with(row.begin.as_bytes()) && report.ends_with(row.end.as_bytes())
}

fn ends_so(alloc: Global, row: &Ends) -> Result<bool, AllocError> {
    let answer = plain_call(alloc, "p", row.source)?;
    Ok(has_ends(answer.report.written(), row))
}

fn each_ends(alloc: Global, rows: &[Ends]) -> Result<(), Fail> {
    for row in rows {
        if !ends_so(alloc, row)? {
            return Err(Fail::new(format_args!("{:?} {}", row.source, row.end)));
        }
    }
    Ok(())
}

#[test]
fn hints_are_given(rt: HostRuntime) -> Result<(), Fail> {
    each_ends(rt.alloc(), &HINTS)
}

#[test]
fn more_hints_are_given(rt: HostRuntime) -> Result<(), Fail> {
    each_ends(rt.alloc(), &MORE_HINTS)
}

#[test]
fn characters_are_told(rt: HostRuntime) -> Result<(), Fail> {
    each_ends(rt.alloc(), &CHARACTERS)
}

#[test]
fn slips_are_told(rt: HostRuntime) -> Result<(), Fail> {
    each_ends(rt.alloc(), &SLIPS)
}

#[test]
fn signs_are_told(rt: HostRuntime) -> Result<(), Fail> {
    each_ends(rt.alloc(), &SIGNS)
}
