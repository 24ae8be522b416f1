//! Grids.

/// What a box is in a demand.
#[derive(Clone, Copy)]
pub enum Kind {
    /// It needed other values.
    Inner,
    /// It needed no other value.
    Leaf,
    /// It is a test of a search, which is true or isn't.
    Test { holds: bool },
}

/// A value: its time, what it is, whether the output needed it itself, its text, and what is told of it where it is pointed at.
#[derive(Drop)]
pub struct Mark {
    pub time: u64,
    pub kind: Kind,
    pub is_output: bool,
    pub value: Vec<u8>,
    pub told: Vec<u8>,
}

/// A line of a panel: a name, or a test's text, and its values.
#[derive(Drop)]
pub struct Line {
    pub label: Vec<u8>,
    pub marks: Vec<Mark>,
}

/// A panel: what its context is, the times across, and its lines.
#[derive(Drop)]
pub struct Panel {
    pub title: Vec<u8>,
    pub times: Vec<u64>,
    pub lines: Vec<Line>,
}

/// An arrow from a value to one that it needed. Values are numbered from 0: panel by panel, line by line.
#[derive(Clone, Copy)]
pub struct Arrow {
    pub from: usize,
    pub to: usize,
}

/// A grid: its heading, its panels, its arrows, and how many values are left out of it.
#[derive(Drop)]
pub struct Grid {
    pub heading: Vec<u8>,
    pub panels: Vec<Panel>,
    pub arrows: Vec<Arrow>,
    pub left_out: u64,
}
