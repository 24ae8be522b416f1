//! Laws of streams. The functions do nothing: each one's contract is the law.
ghost use Rattle.lucid_inputs.specs.Laws.{AskedAgain, ElementsFit, FreshFits, KeepsWithin, PlacesDiffer};

/// Each element that a stream has read is that of all bytes of a place that it fits, and where its end was met there is
/// none past the last.
pub fn elements_fit()
    ensures { ElementsFit }
{}

/// A stream of which nothing is read fits a place just reached.
pub fn fresh_fits()
    ensures { FreshFits }
{}

/// Whatever the places tell, no more bytes of a stream are consumed than may be, and fewer where its end was met; and of a partly
/// read line no more are kept than its first 4,194,305 bytes.
pub fn keeps_within()
    ensures { KeepsWithin }
{}

/// No two streams are read from one place.
pub fn places_differ()
    ensures { PlacesDiffer }
{}

/// Where each stream may be asked, each may be asked again after one of them is read on, whatever was answered.
pub fn asked_again()
    ensures { AskedAgain }
{}
