//! The law of certificates, as the contract of a function that does nothing.
ghost use Rattle.lucid_cert_rules.specs.Meant.{WhatFollowsIsMeant};

use lucid_equations::laws::{
    aims_go_by_numbers, approximations_stay, freezing_is_the_subject_there, parts_are_their_nodes,
    references_are_one_more,
};

/// What follows is meant, and the limit can be read off the certificate.
pub fn what_follows_is_meant()
    ensures { WhatFollowsIsMeant }
{
    approximations_stay();
    parts_are_their_nodes();
    freezing_is_the_subject_there();
    aims_go_by_numbers();
    references_are_one_more();
}
