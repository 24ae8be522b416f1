//! Lists of names and of places.
use lucid_lists::Items;
use lucid_value::Name;

/// A list of names: the parameters of a function, or the names of inputs.
pub type Names = Items<Name>;

/// A list of places, as byte offsets in a source.
pub type Places32 = Items<u32>;
