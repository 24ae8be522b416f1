//! The laws of sound tables: no reference that a run of one meets leads nowhere. Each is the contract of a function that does nothing.
ghost use Rattle.lucid_flat.specs.Astray.{FramesAreMissed, UnsoundTablesGoAstray};
ghost use Rattle.lucid_flat.specs.SoundLaws.{DatonsOfSoundTablesFit, DatonsOfSoundTablesHaveTheirFrames, ReferencesOfSoundTablesLead, WhatIsMetIsVisited, WhatIsVisitedIsMet};

/// What is met is what is visited: a node that is met visits nothing that the root doesn't visit, and each reference that the root visits is
/// that of a node that is met.
pub fn met_nodes_are_visited()
    ensures visited { WhatIsMetIsVisited }
    ensures met { WhatIsVisitedIsMet }
{}

/// Each reference that is met in a sound table leads somewhere, and each daton that is visited has a frame for each scope round its name,
/// the innermost one of the kind that its entry wants.
pub fn references_of_sound_tables_lead()
    ensures lead { ReferencesOfSoundTablesLead }
    ensures fit { DatonsOfSoundTablesFit }
    ensures frames { DatonsOfSoundTablesHaveTheirFrames }
{}

/// A table that breaks a rule of sound tables may meet a reference that leads nowhere: one for each of the first seven does. It may also visit a
/// daton without the frame that its entry wants.
pub fn unsound_tables_go_astray()
    ensures nowhere { UnsoundTablesGoAstray }
    ensures no_frame { FramesAreMissed }
{}
