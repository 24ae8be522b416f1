//! Places that keep what is consumed of the first of them, which is that of the source.
ghost use Rattle.std.specs.Prelude.{◌≡◌, ◌↔◌, ◌<◌, [], OnOk, OnErr, IfSome, IsErrOf, length};
ghost use Rattle.std.specs.Io.{StartsWith};
ghost use Rattle.std.proofs.Props.{props};
ghost use Rattle.lucid_ports.specs.World.{IsShown};
ghost use Rattle.lucid_explain_command.specs.Keeping.{plain_kept, plain_piece, KeepsPlace, KeepsFirst, CallsAt, short_place, remembered, IsRead};

use crate::kept::Kept;
use crate::piece::Piece;
use lucid_ports::{Places, PortFault};
use std::alloc::Global;

/// The same places. What is consumed of the first of them is kept.
///
/// Each call is one call of theirs, and nothing is read ahead.
#[derive(Drop)]
pub struct Remembering<P: Places> {
    inner: P,
    kept: Kept,
    // Of another place, as it is shown: what has a fact of its fields can't lend on what one of them lends.
    piece: Piece,
    ghost keeps: { KeepsFirst (P.world inner) (plain_kept kept) } by { Prim.hlevel props },
}

// Keeps a piece of the first place, to be shown, where nothing is shown.
fn read_piece<P: Places>(inner: &mut P, kept: &mut Kept) -> Result<(), PortFault>
    requires reached { 0 < (P.world inner.old).reached }
    requires empty { (plain_kept kept.old).shown ≡ [] }
    requires keeps { KeepsPlace ((P.world inner.old).place 0) (plain_kept kept.old) }
    ensures keeps { KeepsPlace ((P.world inner.new).place 0) (plain_kept kept.new) }
    ensures contents { ((P.world inner.new).place 0).contents ≡ ((P.world inner.old).place 0).contents }
    ensures end { OnOk result (IfSome ((P.world inner.old).place 0).contents (λ c. ((plain_kept kept.new).shown ≡ []) ↔ (c.left ≡ []))) }
    ensures refused { OnErr result (plain_kept kept.new ≡ plain_kept kept.old) }
    ensures call { CallsAt 0 (IsErrOf result PortFault.Failed) (P.world inner.old) (P.world inner.new) }
{
    let piece = inner.fill(0)?;
    kept.add(piece)?;
    Ok(())
}

// Does so, unless something is shown already.
fn look<P: Places>(inner: &mut P, kept: &mut Kept) -> Result<(), PortFault>
    requires reached { 0 < (P.world inner.old).reached }
    requires keeps { KeepsPlace ((P.world inner.old).place 0) (plain_kept kept.old) }
    ensures keeps { KeepsPlace ((P.world inner.new).place 0) (plain_kept kept.new) }
    ensures contents { ((P.world inner.new).place 0).contents ≡ ((P.world inner.old).place 0).contents }
    ensures end { OnOk result (IfSome ((P.world inner.old).place 0).contents (λ c. ((plain_kept kept.new).shown ≡ []) ↔ (c.left ≡ []))) }
    ensures refused { OnErr result (plain_kept kept.new ≡ plain_kept kept.old) }
    ensures call { CallsAt 0 (IsErrOf result PortFault.Failed) (P.world inner.old) (P.world inner.new) }
{
    if kept.shown().is_empty() {
        read_piece(inner, kept)
    } else {
        // So the places count this call too, where it comes late.
        inner.consume(0, 0);
        Ok(())
    }
}

// Copies a piece of what is left at a place.
fn copy_piece<P: Places>(inner: &mut P, place: u32, piece: &mut Piece) -> Result<(), PortFault>
    requires { place < (P.world inner.old).reached }
    ensures front { OnOk result (IfSome ((P.world inner.old).place place).contents (λ c. StartsWith c.left (plain_piece piece.new))) }
    ensures end { OnOk result (IfSome ((P.world inner.old).place place).contents (λ c. (plain_piece piece.new ≡ []) ↔ (c.left ≡ []))) }
    ensures shown { OnOk result (IsShown (length (plain_piece piece.new)) (short_place ((P.world inner.old).place place)) (short_place ((P.world inner.new).place place))) }
    ensures refused { OnErr result ((P.world inner.new).place place ≡ (P.world inner.old).place place) }
    ensures call { CallsAt place (IsErrOf result PortFault.Failed) (P.world inner.old) (P.world inner.new) }
{
    let shown = inner.fill(place)?;
    piece.copy(shown);
    Ok(())
}

impl<P: Places> Remembering<P> {
    /// The same places, of which none is reached yet.
    pub fn make(alloc: Global, inner: P) -> Remembering<P>
        requires { (P.world inner).reached ≡ 0 }
        ensures inner { result.inner ≡ inner }
        ensures none { (P.world result.inner).reached ≡ 0 }
    {
        Remembering {
            inner,
            kept: Kept::nothing(alloc),
            piece: Piece::nothing(),
        }
    }

    /// What was consumed of the place that was reached first, as that of the source is.
    pub(crate) fn read(&self) -> &[u8]
        ensures value { result.now ≡ (plain_kept self.now.kept).taken }
        ensures read { IsRead (remembered (plain_kept self.now.kept) (P.world self.now.inner)) result.now }
    {
        self.kept.taken()
    }
}

impl<P: Places> Places for Remembering<P> {
    ghost world = { λ r. remembered (plain_kept r.kept) (P.world r.inner) };

    fn reach(&mut self, alloc: Global, name: &str) -> Result<u32, PortFault> {
        let number = self.inner.reach(alloc, name)?;
        self.kept.begin(number);
        Ok(number)
    }

    fn fill(&mut self, place: u32) -> Result<&[u8], PortFault> {
        if place == 0 {
            look(&mut self.inner, &mut self.kept)?;
            self.kept.renew();
            Ok(self.kept.shown())
        } else {
            copy_piece(&mut self.inner, place, &mut self.piece)?;
            Ok(self.piece.shown())
        }
    }

    fn consume(&mut self, place: u32, n: usize) {
        self.inner.consume(place, n);
        if place == 0 {
            self.kept.consume(n);
        }
    }
}
