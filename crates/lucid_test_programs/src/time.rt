//! Programs over time, without inputs.
use crate::sources::{
    ADVANCE, COUNTING, DOUBLING_TEXT, FACTORIAL, FALSE_AND, FIBONACCI, GROWING_LIST, LAST_TIME,
    LONG_ADVANCE, MADE_NAMES, NESTED_ITERATION, THIRDS, THREE_NAMES, TWO_SUMS, VALUE_AT_A_TIME,
};
use crate::worked::{PLAIN, Worked};

static OVER_TIME: [Worked; 32] = [
    Worked {
        name: "constant",
        source: "1",
        values: &["1", "1", "1"],
        ..PLAIN
    },
    // 0, 1, 2, ..
    // It needs a name for each time through the present one.
    Worked {
        name: "counting up",
        source: COUNTING,
        values: &["0", "1", "2", "3", "4"],
        enough: 6,
        least: &[1, 2, 3, 4, 5],
        held: 5,
        ..PLAIN
    },
    // The Fibonacci numbers. Of the first seven f is held at 0 to 6, and g at 0 to 5.
    Worked {
        name: "two names that need each other",
        source: FIBONACCI,
        values: &["0", "1", "1", "2", "3", "5", "8"],
        later: &["13"],
        enough: 9,
        held: 13,
        ..PLAIN
    },
    // The numbers that 3 divides. Of the first four n is held at 0 to 9.
    // 3t is found at the time 3t, which is below 3t + 1.
    Worked {
        name: "every third number",
        source: THIRDS,
        values: &["0", "3", "6", "9"],
        later: &["12"],
        enough: 14,
        least: &[1, 4, 7, 10],
        held: 10,
        ..PLAIN
    },
    // Numbers that go on behind truths: x is held at 0 to 2, and p at 0 to 3.
    // It needs the larger of the time and of what the number there needs.
    Worked {
        name: "advance upon truths",
        source: ADVANCE,
        values: &["0", "1", "1", "2", "2"],
        enough: 9,
        least: &[1, 2, 2, 3, 4],
        held: 7,
        ..PLAIN
    },
    // A search that ends at once at each time.
    Worked {
        name: "advance at each time",
        source: LONG_ADVANCE,
        values: &["0", "1", "2"],
        enough: 4,
        least: &[1, 2, 3],
        held: 3,
        ..PLAIN
    },
    Worked {
        name: "value at a time",
        source: VALUE_AT_A_TIME,
        values: &["3", "2", "1", "0", "error", "error"],
        enough: 8,
        held: 6,
        ..PLAIN
    },
    // x at 0 to 18
    Worked {
        name: "search at falling times",
        source: "(x whenever x mod 3 eq 0) attime 6 - x where x = 0 fby x + 1; end",
        values: &["18", "15", "12", "9", "6", "3", "0"],
        enough: 20,
        held: 19,
        ..PLAIN
    },
    // x at 0 to 6, and p at 0 to 5
    Worked {
        name: "advance at falling times",
        source: "(x upon p) attime 6 - x where x = 0 fby x + 1; p = true fby false fby p; end",
        values: &["3", "3", "2", "2", "1", "1", "0"],
        enough: 10,
        held: 13,
        ..PLAIN
    },
    // The factorials: at each outer time n is constant inside, and i and f go on from 0 until i has come to it. k is held at 0 to 4, and at each
    // outer time t one n, and i and f at 0 to t.
    // n is a name more than k.
    Worked {
        name: "nested iteration",
        source: NESTED_ITERATION,
        values: &["1", "1", "2", "6", "24"],
        enough: 8,
        least: &[2, 3, 4, 5, 6],
        held: 40,
        ..PLAIN
    },
    // The factorials by recursion: n is held at 0 to 4, and at each time t the function and its parameter in t + 1 contexts.
    // It makes t + 1 calls, each with its parameter, before it comes to the outer n.
    Worked {
        name: "recursive function",
        source: FACTORIAL,
        values: &["1", "1", "2", "6", "24"],
        enough: 16,
        least: &[3, 6, 9, 12, 15],
        held: 35,
        ..PLAIN
    },
    // Two running sums. Of the first three x and y are held at 0 to 2, and in each call at these times the function, s and z.
    Worked {
        name: "two calls of one function",
        source: TWO_SUMS,
        values: &["11", "23", "36"],
        later: &["50", "65"],
        enough: 12,
        held: 24,
        ..PLAIN
    },
    // n at 0 to 2, and at each of these times the function and its two parameters
    Worked {
        name: "two parameters",
        source: "f(n, 10) where f(x, y) = y - x; n = 0 fby n + 1; end",
        values: &["10", "9", "8"],
        enough: 6,
        held: 12,
        ..PLAIN
    },
    // A list that gets an item more at each time: x is held at 0 to 2, and i at 0 and 1.
    Worked {
        name: "growing list",
        source: GROWING_LIST,
        values: &["[% %]", "[% 0 %]", "[% 1 0 %]"],
        enough: 5,
        held: 5,
        ..PLAIN
    },
    // A text that doubles at each time.
    Worked {
        name: "doubling text",
        source: DOUBLING_TEXT,
        values: &["`a'", "`aa'", "`aaaa'", "`aaaaaaaa'"],
        enough: 5,
        held: 4,
        ..PLAIN
    },
    // The made program of greatest number 2: v2 is held at 0 to 4, v1 at 0 to 3, and v0 at 0 to 2.
    Worked {
        name: "three made names",
        source: MADE_NAMES,
        values: &["1", "2", "4", "8", "15"],
        enough: 8,
        held: 12,
        ..PLAIN
    },
    // A program that has two further names.
    Worked {
        name: "first of three names",
        source: THREE_NAMES,
        values: &["1", "2", "3"],
        enough: 4,
        least: &[1, 2, 3],
        held: 3,
        ..PLAIN
    },
    // The end of data, and what comes behind it, are held too.
    Worked {
        name: "name that ends early",
        source: "c where a = 1 fby a + 1; b = a * a; c = 5 fby eod; end",
        values: &["5", "eod", "eod"],
        enough: 2,
        least: &[1, 1, 1],
        held: 3,
        ..PLAIN
    },
    Worked {
        name: "constant that ends",
        source: "1 fby eod",
        values: &["1", "eod"],
        ..PLAIN
    },
    Worked {
        name: "right side of `and`",
        source: FALSE_AND,
        values: &["false"],
        enough: 3,
        ..PLAIN
    },
    Worked {
        name: "right side of `or`",
        source: "true or x where x = x; end",
        values: &["true"],
        enough: 3,
        ..PLAIN
    },
    Worked {
        name: "the other branch",
        source: "if false then x else 2 fi where x = x; end",
        values: &["2"],
        enough: 3,
        ..PLAIN
    },
    Worked {
        name: "search that meets no truth",
        source: "1 whenever 5",
        values: &["error", "error"],
        enough: 2,
        ..PLAIN
    },
    Worked {
        name: "search that ends",
        source: "1 asa (false fby eod)",
        values: &["eod", "eod"],
        enough: 3,
        ..PLAIN
    },
    Worked {
        name: "end of data before an error",
        source: "eod + error",
        values: &["eod"],
        ..PLAIN
    },
    Worked {
        name: "what comes behind the last time",
        source: "(next 1) attime 9223372036854775807",
        values: &["error"],
        ..PLAIN
    },
    Worked {
        name: "the last time",
        source: LAST_TIME,
        values: &["2"],
        ..PLAIN
    },
    Worked {
        name: "past the last time",
        source: "1 attime 9223372036854775808",
        values: &["error", "error", "error"],
        ..PLAIN
    },
    Worked {
        name: "the widest integer",
        source: "2 ** 126 + (2 ** 126 - 1)",
        values: &["170141183460469231731687303715884105727"],
        ..PLAIN
    },
    Worked {
        name: "an integer too wide",
        source: "2 ** 127",
        values: &["error"],
        ..PLAIN
    },
    Worked {
        name: "absolute value and three-way comparison",
        source: "abs (0 - 5) cmp 3",
        values: &["1"],
        ..PLAIN
    },
    Worked {
        name: "absolute value of a truth",
        source: "abs true",
        values: &["error"],
        ..PLAIN
    },
];

/// Programs over time, without inputs.
pub fn over_time() -> &'static [Worked] {
    &OVER_TIME
}
