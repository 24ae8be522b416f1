//! The walk by which a certificate is made: judgment by judgment, each after those that it uses.
ghost use Rattle.std.specs.Prelude.{◌≡◌, ◌<◌, ◌^◌, length};
ghost use Rattle.lucid_equations.specs.Programs.{table_of};
ghost use Rattle.lucid_inputs.specs.Inputs.{streams};
ghost use Rattle.lucid_demand_steps.specs.Engine.{AreAskable};
ghost use Rattle.lucid_cert.specs.Certified.{Made};
ghost use Rattle.lucid_cert.specs.Drawn.{AsDemanded};

use crate::maker::Maker;
use crate::making::Spot;
use lucid_cert_rules::Why;
use lucid_demand_steps::DemandFault;
use lucid_equations::Program;
use lucid_inputs::Inputs;
use lucid_ports::Places;
use std::alloc::Global;

/// The certificate of a program's value at a time, at space 0. `limit` is how many references deep it may look.
///
/// More judgments, contexts or steps than are counted are want of memory.
pub fn certify<P: Places>(
    alloc: Global,
    program: &Program,
    places: &mut P,
    inputs: &mut Inputs,
    time: u64,
    limit: u32,
) -> Result<Why, DemandFault>
    requires streams { length (streams inputs.old) ≡ length (table_of program.now).inputs }
    requires askable { AreAskable (streams inputs.old) (P.world places.old) }
    requires time { time < 2 ^ 63 }
    requires limit { 0 < limit }
    ensures made { Made (table_of program.now) inputs.old inputs.new (P.world places.old) (P.world places.new) time result }
    ensures demanded { AsDemanded (table_of program.now) inputs.old inputs.new (P.world places.new) time limit result }
{
    // The names of the inputs differ.
    let _ = program.table();
    // For the proof: no two streams are read from one place.
    lucid_inputs::places_differ();
    let mut maker = Maker::new(alloc, program);
    let root = maker.root(time);
    let spot = Spot { at: root, space: 0 };
    maker.start(places, inputs, spot, limit)?;
    'walk: for _ in 0..u64::MAX {
        let Some(making) = maker.innermost() else {
            return Ok(maker.finish(root)?);
        };
        maker.step(places, inputs, making)?;
    }
    Err(DemandFault::NoMemory)
}
