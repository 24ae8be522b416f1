//! The laws of the meaning, and of the plans by which the forms are read. Each is the contract of a function that does nothing.
ghost use Rattle.lucid_tree.specs.Laws.{ApproximationsStay, OneValueIsMeant, OneOutput, PlainNames, Calls, Parameters, CurrentNames, FreeNames, FirstOfFby, NextOfFby, AsaIsFirstOfWhenever, InitialOfSby, SuccOfSby, SameAtEverySpace, WheneverEquation, UponEquation, ConsultsGrowWithLimit, ConsultsGrowWithAdded};
ghost use Rattle.lucid_tree.specs.PlanLaws.{WaysGoOver, WaysJoin, WaysAreOfOneLimit, RestsKeepTheValue, RestsAreDefined, NextLooksAreDefined, NothingLeftIsUndefined, NextLooksAreTaken, NextLooksAreAmong, NextLooksAreAmongFromSomeOn, LooksAreOnTheWay, CountsStay, CountsAreOfTruths, RestsBeginAtThePlan, CountsLeadSearches};

/// A defined approximation is the same at each greater limit, and so at most one value is meant, and one output is there.
pub fn approximations_stay()
    ensures stay { ApproximationsStay }
    ensures one_value { OneValueIsMeant }
    ensures one_output { OneOutput }
{}

/// A name at one more is what it stands for: a plain name its right side, a parameter its actual, a current name its right
/// side at the frozen time, a call the function's right side with its actuals. Each means what that means.
pub fn names_mean_right_sides()
    ensures plain_names { PlainNames }
    ensures calls { Calls }
    ensures parameters { Parameters }
    ensures current_names { CurrentNames }
    ensures free_names { FreeNames }
{}

/// `first` and `next` undo `fby`, `next` below the last time.
pub fn first_and_next_undo_fby()
    ensures first { FirstOfFby }
    ensures next { NextOfFby }
{}

/// `initial` and `succ` undo `sby`, `succ` below the last space.
pub fn initial_and_succ_undo_sby()
    ensures initial { InitialOfSby }
    ensures succ { SuccOfSby }
{}

/// An expression without space forms is the same at every space.
pub fn spaceless_is_same_everywhere()
    ensures { SameAtEverySpace }
{}

/// What is consulted only grows, with the limit and with the added number.
pub fn consulted_only_grows()
    ensures with_limit { ConsultsGrowWithLimit }
    ensures with_added { ConsultsGrowWithAdded }
{}

/// A way from a plan to its rest goes over to a reader that knows more, and ways join; where its values are each of some limit,
/// it is a way of one limit.
pub fn ways_go_over_and_join()
    ensures over { WaysGoOver }
    ensures join { WaysJoin }
    ensures one_limit { WaysAreOfOneLimit }
{}

/// Where a reader has the values on the way, the plan and its rest have one value.
pub fn rests_keep_the_value()
    ensures { RestsKeepTheValue }
{}

/// Where a plan is defined by a reader that never differs from what is meant, so is its rest, and each look that stands next; a
/// plan of which nothing is left has no value.
pub fn rests_are_defined()
    ensures rest { RestsAreDefined }
    ensures next { NextLooksAreDefined }
    ensures nothing { NothingLeftIsUndefined }
{}

/// The looks that stand next are taken by the limit, and are among those that the plan traces; a plan that comes to a value
/// looks nowhere but on the way.
pub fn next_looks_are_traced()
    ensures taken { NextLooksAreTaken }
    ensures among { NextLooksAreAmong }
    ensures from_some_on { NextLooksAreAmongFromSomeOn }
    ensures on_the_way { LooksAreOnTheWay }
{}

/// `asa` is `first` of `whenever`.
pub fn asa_is_first_of_whenever()
    ensures { AsaIsFirstOfWhenever }
{}

/// `whenever` and `upon` are what their equations say, `whenever` at one more, `upon` at each limit of at least its time.
pub fn search_equations()
    ensures whenever { WheneverEquation }
    ensures upon { UponEquation }
{}

/// A count of true values stays, and is one of truths; it leads a search to its time, and a search begins at its plan.
pub fn counts_lead_searches()
    ensures stay { CountsStay }
    ensures truths { CountsAreOfTruths }
    ensures begin { RestsBeginAtThePlan }
    ensures lead { CountsLeadSearches }
{}
