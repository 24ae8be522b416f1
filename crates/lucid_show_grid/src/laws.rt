//! Laws of grids. The functions do nothing: each one's contract is the law.
ghost use Rattle.lucid_show_grid.specs.Laws.{EscapedIsPlain, EscapedNamesBytes, LinesFit, ValuesStand, BoxesApart};

/// What has a meaning between tags doesn't stand there as it is.
pub fn escaped_is_plain()
    ensures { EscapedIsPlain }
{}

/// Where an `&` stands between tags, it begins the name of a byte.
pub fn escaped_names_bytes()
    ensures { EscapedNamesBytes }
{}

/// Lines of text are 100 columns wide at most, where a name and one value have room in as many.
pub fn lines_fit()
    ensures { LinesFit }
{}

/// In lines of text each value stands at its time.
pub fn values_stand()
    ensures { ValuesStand }
{}

/// No box covers another.
pub fn boxes_apart()
    ensures { BoxesApart }
{}
