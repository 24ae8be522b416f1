// How much a call takes or shows at once.
ghost use Rattle.std.specs.Prelude.{◌≤◌};

// The number of bytes that a piece may have: one at least, so that each call gets on.
#[derive(Clone, Copy)]
pub(crate) struct PieceLimit {
    pub(crate) bytes: usize,
    ghost some: { 1 ≤ bytes },
}
