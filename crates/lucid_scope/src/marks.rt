//! What the descent notes at the places of names.
use crate::table::Owner;
use lucid_value::Name;

/// What stands at a place.
#[derive(Drop)]
pub(crate) struct Mark {
    pub(crate) at: u32,
    pub(crate) what: What,
}

/// A name, a call with its number of arguments, or the name of a definition or parameter that an earlier one has.
#[derive(Drop)]
pub(crate) enum What {
    Named {
        name: Name,
        owner: Option<Owner>,
    },
    Called {
        name: Name,
        owner: Option<Owner>,
        given: usize,
    },
    Again,
}
