//! The law of needs, as the contract of a function that does nothing.
ghost use Rattle.lucid_cert_rules.specs.NeedLaws.{NeedsAreReached};

/// What is found to be needed is reached through judgments that ask for nothing, and whatever is reached asks for what is found.
pub fn needs_are_reached()
    ensures { NeedsAreReached }
{}
