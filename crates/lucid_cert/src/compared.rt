//! The elements of inputs, compared.
ghost use Rattle.std.specs.Prelude.{◌<◌, length};
ghost use Rattle.lucid_value.specs.View.{plain};
ghost use Rattle.lucid_inputs.specs.Inputs.{streams};
ghost use Rattle.lucid_demand_steps.specs.Engine.{AreAskable};
ghost use Rattle.lucid_cert.specs.CheckReads.{ReadsElement, TellsSame};

use crate::fault::CheckFault;
use lucid_inputs::Inputs;
use lucid_ports::Places;
use lucid_value::Value;

/// Whether the element of an input at a time is this value. The stream is read on for it.
pub(crate) fn is_element<P: Places>(
    inputs: &mut Inputs,
    places: &mut P,
    stream: u32,
    time: u64,
    value: &Value,
) -> Result<bool, CheckFault>
    requires stream { stream < length (streams inputs.old) }
    requires askable { AreAskable (streams inputs.old) (P.world places.old) }
    ensures reads { ReadsElement inputs.old inputs.new stream time (P.world places.old) (P.world places.new) result }
    ensures same { TellsSame inputs.new stream time (plain value.now) result }
{
    Ok(inputs.element(places, stream, time)?.same(value))
}
