// Reading a place by pieces.
ghost use Rattle.std.specs.Prelude.{◌≡◌, ◌<◌, ◌≤◌, ◌+◌, ◌++◌, ℕ, [], take, IfOk, IfSome, OnErr, IsErrOf, option_map, vec_len};
ghost use Rattle.lucid_ports.specs.Faults.{AsksNoneLate, CountsNoFaultUnless, Rises};
ghost use Rattle.lucid_ports.specs.World.{World, advanced, KeepsOthers};

use crate::{Places, PortFault};
use std::alloc::Global;

/// Reads a place by pieces, to its end or to `most` bytes.
pub fn read_at_most<P: Places>(
    alloc: Global,
    places: &mut P,
    place: u32,
    most: usize,
) -> Result<Vec<u8>, PortFault>
    requires { place < (P.world places.old).reached }

    // The bytes are the first that were left, and they are consumed.
    ensures bytes { IfOk result (λ bytes. IfSome ((P.world places.old).place place).contents (λ c. bytes.items ≡ take most c.left)) }
    ensures bound { IfOk result (λ bytes. vec_len bytes ≤ most) }
    ensures consumed { IfOk result (λ bytes. ((P.world places.new).place place).contents ≡ option_map (advanced (vec_len bytes)) ((P.world places.old).place place).contents) }

    // Whatever the answer, no more is consumed, and nothing else changes.
    ensures in_order { (n : ℕ) × (n ≤ most) × (((P.world places.new).place place).contents ≡ option_map (advanced n) ((P.world places.old).place place).contents) }
    ensures reached { (P.world places.new).reached ≡ (P.world places.old).reached }
    ensures others { KeepsOthers place (P.world places.old) (P.world places.new) }

    ensures failed { IsErrOf result PortFault.Failed → Rises (P.world places.old).faults (P.world places.new).faults }
    ensures counts_no_fault { CountsNoFaultUnless (IsErrOf result PortFault.Failed) (P.world places.old).faults (P.world places.new).faults }
    ensures late { AsksNoneLate (P.world places.old) (P.world places.new) }
{
    let mut bytes = Vec::new(alloc);
    while bytes.len() < most {
        let room = most - bytes.len();
        let taken = take_piece(places, place, room, &mut bytes)?;
        if taken == 0 {
            return Ok(bytes);
        }
    }
    Ok(bytes)
}

// Reads one piece, of which it takes no more than `room` bytes, and gives their number: none at the end.
fn take_piece<P: Places>(
    places: &mut P,
    place: u32,
    room: usize,
    bytes: &mut Vec<u8>,
) -> Result<usize, PortFault>
    requires { place < (P.world places.old).reached }
    ensures bound { IfOk result (λ n. n ≤ room) }
    ensures bytes { IfOk result (λ n. IfSome ((P.world places.old).place place).contents (λ c. bytes.new.items ≡ bytes.old.items ++ take n c.left)) }
    ensures len { IfOk result (λ n. vec_len bytes.new ≡ vec_len bytes.old + n) }
    ensures end { IfOk result (λ n. IfSome ((P.world places.old).place place).contents (λ c. n ≡ 0 → 0 < room → c.left ≡ [])) }
    ensures consumed { IfOk result (λ n. ((P.world places.new).place place).contents ≡ option_map (advanced n) ((P.world places.old).place place).contents) }
    ensures refused { OnErr result (((P.world places.new).place place).contents ≡ ((P.world places.old).place place).contents) }
    ensures reached { (P.world places.new).reached ≡ (P.world places.old).reached }
    ensures others { KeepsOthers place (P.world places.old) (P.world places.new) }
    ensures failed { IsErrOf result PortFault.Failed → Rises (P.world places.old).faults (P.world places.new).faults }
    ensures counts_no_fault { CountsNoFaultUnless (IsErrOf result PortFault.Failed) (P.world places.old).faults (P.world places.new).faults }
    ensures late { AsksNoneLate (P.world places.old) (P.world places.new) }
{
    let piece = places.fill(place)?;
    let n = room.min(piece.len());
    bytes.extend_from_slice(&piece[..n])?;
    places.consume(place, n);
    Ok(n)
}
