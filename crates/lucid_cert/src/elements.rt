//! The elements of inputs, read for judgments.
ghost use Rattle.std.specs.Prelude.{◌<◌, length, IfOk};
ghost use Rattle.lucid_value.specs.View.{plain};
ghost use Rattle.lucid_value.specs.declared.Value.{Value as Element};
ghost use Rattle.lucid_inputs.specs.Inputs.{streams, stream_at};
ghost use Rattle.lucid_inputs.specs.Reading.{GivesElement};
ghost use Rattle.lucid_demand_steps.specs.Engine.{AreAskable};
ghost use Rattle.lucid_cert.specs.Reads.{ReadsElement};

use lucid_demand_steps::DemandFault;
use lucid_inputs::Inputs;
use lucid_ports::Places;
use lucid_value::Value;
use std::alloc::Global;

/// The element of an input at a time. The stream is read on for it.
pub(crate) fn element<P: Places>(
    alloc: Global,
    places: &mut P,
    inputs: &mut Inputs,
    stream: u32,
    time: u64,
) -> Result<Value, DemandFault>
    requires stream { stream < length (streams inputs.old) }
    requires askable { AreAskable (streams inputs.old) (P.world places.old) }
    ensures reads { ReadsElement Element inputs.old inputs.new stream time (P.world places.old) (P.world places.new) result }
    ensures element { IfOk result (λ v. GivesElement (stream_at inputs.new stream) time (plain v)) }
{
    Ok(inputs.element(places, stream, time)?.copy(alloc)?)
}
