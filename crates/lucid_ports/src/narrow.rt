// A reader that shows little at a time.
ghost use Rattle.std.specs.Prelude.{◌≡◌, ◌≤◌};
ghost use Rattle.lucid_ports.specs.Narrow.{narrowed, NarrowsPiece};
ghost use Rattle.lucid_ports.specs.NarrowParts.{narrow_inner, narrow_most};

use crate::piece_limit::PieceLimit;
use crate::{Places, PortFault};
use std::alloc::Global;

/// A reader that shows no more than a few bytes at a time of what another one shows.
#[derive(Drop)]
pub struct Narrow<P> {
    inner: P,
    most: PieceLimit,
}

impl<P: Places> Narrow<P> {
    /// The same places, of which no piece has more than `most` bytes.
    pub fn make(inner: P, most: usize) -> Narrow<P>
        requires { 1 ≤ most }
        ensures inner { narrow_inner result ≡ inner }
        ensures most { narrow_most result ≡ most }
    {
        Narrow {
            inner,
            most: PieceLimit { bytes: most },
        }
    }
}

impl<P: Places> Places for Narrow<P> {
    ghost world = { λ n. narrowed (narrow_most n) (P.world (narrow_inner n)) };

    ghost reach_gives = { λ old name result new. P.reach_gives (narrow_inner old) name result (narrow_inner new) × (narrow_most new ≡ narrow_most old) };

    // The piece is the front of one that the inner reader shows.
    ghost fill_gives = { λ old place result new. NarrowsPiece (narrow_most old) (λ inner. P.fill_gives (narrow_inner old) place inner (narrow_inner new)) result
        × (narrow_most new ≡ narrow_most old) };

    ghost consume_gives = { λ old place n new. P.consume_gives (narrow_inner old) place n (narrow_inner new) × (narrow_most new ≡ narrow_most old) };

    fn reach(&mut self, alloc: Global, name: &str) -> Result<u32, PortFault> {
        self.inner.reach(alloc, name)
    }

    fn fill(&mut self, place: u32) -> Result<&[u8], PortFault> {
        let most = self.most.bytes;
        let piece = self.inner.fill(place)?;
        let shown = most.min(piece.len());
        Ok(&piece[..shown])
    }

    fn consume(&mut self, place: u32, n: usize) {
        self.inner.consume(place, n);
    }
}
