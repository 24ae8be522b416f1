//! The law of checks, as the contract of a function that does nothing.
ghost use Rattle.lucid_cert.specs.CheckLaws.{RightIsNotWrong};

/// A certificate that is right is found wrong nowhere.
pub fn right_is_not_wrong()
    ensures { RightIsNotWrong }
{}
