//! Sample programs: their values at several points, and what they demand. Each is the contract of a function that does nothing.
ghost use Rattle.lucid_tree.specs.DemandSamples.{ConsultedLines, ReferredNames, EnteredEnvironments, HeldValues};
ghost use Rattle.lucid_tree.specs.EquationSamples.{SidesOfEquations};
ghost use Rattle.lucid_tree.specs.Samples.{CountingUp, NamesThatNeedEachOther, EveryThirdNumber, AdvanceUponTruths, ValuesAtATime, NestedIteration, RunningCounts, RecursiveFunction, TwoCallsOfOneFunction, WhatIsNotLookedAt, BinomialNumbers, InitialAndSucc, LastTimeAndSpace};

/// Counting up.
pub fn counting_up()
    ensures { CountingUp }
{}

/// Two names that need each other.
pub fn names_that_need_each_other()
    ensures { NamesThatNeedEachOther }
{}

/// Every third number.
pub fn every_third_number()
    ensures { EveryThirdNumber }
{}

/// Advance upon truths.
pub fn advance_upon_truths()
    ensures { AdvanceUponTruths }
{}

/// Value at a time; where the time is none, an error.
pub fn values_at_a_time()
    ensures { ValuesAtATime }
{}

/// Nested iteration: at each time an inner block counts up to that time.
pub fn nested_iteration()
    ensures { NestedIteration }
{}

/// Running counts over an input: how often the line has come so far.
pub fn running_counts()
    ensures { RunningCounts }
{}

/// A recursive function.
pub fn recursive_function()
    ensures { RecursiveFunction }
{}

/// Two calls of one function.
pub fn two_calls_of_one_function()
    ensures { TwoCallsOfOneFunction }
{}

/// What is not looked at, a search that a value ends, and end of data before error.
pub fn what_is_not_looked_at()
    ensures { WhatIsNotLookedAt }
{}

/// Binomial numbers over space: those of one space, and those of one time.
pub fn binomial_numbers()
    ensures { BinomialNumbers }
{}

/// `initial` and `succ`.
pub fn initial_and_succ()
    ensures { InitialAndSucc }
{}

/// The last time and the last space.
pub fn last_time_and_space()
    ensures { LastTimeAndSpace }
{}

/// Both sides of the equations of searches.
pub fn sides_of_equations()
    ensures { SidesOfEquations }
{}

/// What is consulted, and what the added number changes.
pub fn consulted_lines()
    ensures { ConsultedLines }
{}

/// What is referred to.
pub fn referred_names()
    ensures { ReferredNames }
{}

/// What is entered.
pub fn entered_environments()
    ensures { EnteredEnvironments }
{}

/// Held values cost no limit.
pub fn held_values()
    ensures { HeldValues }
{}
