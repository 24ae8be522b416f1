//! The law of what is shown, as the contract of a function that does nothing.
ghost use Rattle.lucid_show_command.specs.Meant.{WhatIsShownIsMeant};

use lucid_cert_rules::following_laws::what_follows_is_meant;
use lucid_cert_rules::one_why;

/// What is shown comes from a certificate that is right, and each value in it is one of the piece that it is told for.
pub fn what_is_shown_is_meant()
    ensures { WhatIsShownIsMeant }
{
    what_follows_is_meant();
    one_why();
}
