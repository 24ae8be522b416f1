//! What holds of all sources. The function does nothing: its contract is the law.
ghost use Rattle.lucid_explain_places.specs.Positions.{PositionsTellPlaces};

/// A line and a column tell the place: no two places of a source have both.
pub fn positions_tell_places()
    ensures { PositionsTellPlaces }
{}
