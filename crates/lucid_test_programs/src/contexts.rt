//! Programs with calls and current names, without inputs.
use crate::sources::NESTED_CURRENT;
use crate::worked::{PLAIN, Worked};

static IN_CONTEXTS: [Worked; 8] = [
    // At each time t the function, its parameter, n, and s at 0 to t; and k at 0 to 3.
    Worked {
        name: "current name inside a function",
        source: "f(k) where f(x) = s where n is current x; s = n fby s + 1; end; k = 0 fby k + 10; end",
        values: &["0", "11", "22", "33"],
        enough: 14,
        held: 26,
        ..PLAIN
    },
    // At each time the function, its parameter, n and k.
    Worked {
        name: "function that looks at a current name",
        source: "f(1) where f(x) = x + n; n is current k; end where k = 0 fby k + 1; end",
        values: &["1", "2", "3"],
        enough: 8,
        held: 12,
        ..PLAIN
    },
    // The function and its first parameter.
    Worked {
        name: "unused parameter whose actual is itself",
        source: "f(1, x) where f(u, v) = u + 1; x = x; end",
        values: &["2", "2"],
        enough: 4,
        held: 4,
        ..PLAIN
    },
    Worked {
        name: "unused parameter whose actual is a search without end",
        source: "f(1, 1 asa false) where f(u, v) = u + 1; end",
        values: &["2", "2"],
        enough: 4,
        held: 4,
        ..PLAIN
    },
    Worked {
        name: "call in a call",
        source: "f(g(3)) where f(x) = x + 1; g(x) = x * 2; end",
        values: &["7"],
        enough: 6,
        held: 4,
        ..PLAIN
    },
    // A name of an outer block is the same one inside.
    Worked {
        name: "name of an outer block",
        source: "(x + y where y = x; end) where x = 1 fby x + 1; end",
        values: &["2", "4", "6"],
        enough: 6,
        held: 6,
        ..PLAIN
    },
    // A current name of a current name: m and n are held at each time, and k at 0 to 2. Each time enters two contexts.
    Worked {
        name: "current name of a current name",
        source: NESTED_CURRENT,
        values: &["0", "1", "2"],
        enough: 7,
        held: 9,
        ..PLAIN
    },
    // x, the two names y and k at each time.
    Worked {
        name: "current name of a block with a current name",
        source: "x + y where x is current (y where y is current k + 1; end); y = 10; end where k = 0 fby k + 1; end",
        values: &["11", "12", "13"],
        enough: 7,
        held: 12,
        ..PLAIN
    },
];

/// Programs with calls and current names, without inputs.
pub fn in_contexts() -> &'static [Worked] {
    &IN_CONTEXTS
}
