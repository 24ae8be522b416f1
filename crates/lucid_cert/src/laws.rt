//! The law of certificates that are made, as the contract of a function that does nothing.
ghost use Rattle.lucid_cert.specs.Laws.{MadeIsFoundRight};

use lucid_inputs::keeps_within;

/// A certificate that is made is found right by each check over inputs that hold the same, unless a call fails or there is no memory.
pub fn made_is_found_right()
    ensures { MadeIsFoundRight }
{
    keeps_within();
}
