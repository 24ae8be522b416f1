//! Programs over space, without inputs.
use crate::worked::{PLAIN, Worked};

static OVER_SPACE: [Worked; 9] = [
    // p at 0 to 5 and space 2, at 0 to 4 and space 1, at 0 to 3 and space 0. It needs a name for each time through the present one.
    Worked {
        name: "binomial numbers",
        source: "p atspace 2 where p = (1 sby 0) fby (1 sby p + succ p); end",
        values: &["0", "0", "1", "3", "6", "10"],
        enough: 8,
        least: &[1, 2, 3, 4, 5, 6],
        held: 15,
        ..PLAIN
    },
    Worked {
        name: "initial",
        source: "initial x + x where x = 4 sby 9; end",
        values: &["8"],
        enough: 2,
        held: 1,
        ..PLAIN
    },
    Worked {
        name: "succ",
        source: "succ x where x = 4 sby 9; end",
        values: &["9"],
        enough: 2,
        held: 1,
        ..PLAIN
    },
    // two times, four spaces
    Worked {
        name: "powers over space",
        source: "x atspace 3 where x = 1 sby x * 2; end",
        values: &["8", "8"],
        enough: 6,
        held: 8,
        ..PLAIN
    },
    // initial succ x is x at space 1
    Worked {
        name: "initial of succ",
        source: "(initial succ x) atspace 5 where x = 4 sby 9; end",
        values: &["9"],
        enough: 2,
        held: 1,
        ..PLAIN
    },
    // succ initial x is x at space 0
    Worked {
        name: "succ of initial",
        source: "(succ initial x) atspace 5 where x = 4 sby 9; end",
        values: &["4"],
        enough: 2,
        held: 1,
        ..PLAIN
    },
    Worked {
        name: "a space that is none",
        source: "x atspace 0 - 1 where x = 1; end",
        values: &["error"],
        enough: 2,
        ..PLAIN
    },
    Worked {
        name: "behind the last space",
        source: "(succ 1) atspace 9223372036854775807",
        values: &["error"],
        ..PLAIN
    },
    // At space 0 each p is true, at space 1 each second one, so w is t and 2 * t + 1: w at two spaces and four times, x and p at space 0 at four
    // times, x, p and q at eight times.
    Worked {
        name: "searches at two spaces",
        source: "w + 100 * succ w where w = x whenever p; x = 0 fby x + 1; p = true sby q; q = false fby not q; end",
        values: &["100", "301", "502", "703"],
        enough: 14,
        held: 40,
        ..PLAIN
    },
];

/// Programs over space, without inputs.
pub fn over_space() -> &'static [Worked] {
    &OVER_SPACE
}
