//! Programs without a value at time 0, whatever the limit.
use crate::sources::{NO_VALUE, SEARCH_WITHOUT_END};
use crate::worked::{PLAIN, Worked};

static UNDEFINED: [Worked; 2] = [
    Worked {
        name: "name that is itself",
        source: NO_VALUE,
        ..PLAIN
    },
    Worked {
        name: "search without end",
        source: SEARCH_WITHOUT_END,
        ..PLAIN
    },
];

/// Programs without a value at time 0, whatever the limit.
pub fn without_value() -> &'static [Worked] {
    &UNDEFINED
}
