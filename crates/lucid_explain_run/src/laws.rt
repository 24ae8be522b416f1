//! What holds of the parts of every tree. The functions do nothing: their contracts are the laws.
ghost use Rattle.lucid_explain_run.specs.Laws.{FoundPartsStandThere, PartsAreFound};

/// What is found at a place is a part whose own place it is.
pub fn found_parts_stand_there()
    ensures { FoundPartsStandThere }
{}

/// Of a tree that is well made each part is found at its own place.
pub fn parts_are_found()
    ensures { PartsAreFound }
{}
