//! The laws of nodes. Each is the contract of a function that does nothing.
ghost use Rattle.lucid_equations.specs.Laws.{NodeApproximationsStay, NodesMeanOneValue, ReferencesGoByDatons, CallsGoByDatons, NodesGoByDatons, HeldValuesGiveMeantValues, MoreHeldValuesKeepValues, DefinedVisitsStay, NeededDatons, VisitsGrowWithLimit, VisitsGrowWithAdded, MoreVisitsMore, AddedIsLimit, CallsEnterTheirContexts, SameDatonIsEquality};
ghost use Rattle.lucid_equations.specs.MoreElements.{MoreElementsKeepValues, MoreElementsKeepMeanings, MoreElementsKeepHeldMeant, MoreElementsVisitMore, MoreElementsConsultMore, MoreElementsVisitTheSame, MoreElementsNeedTheSame};
ghost use Rattle.lucid_equations.specs.Moving.{SixFormsOnlyMove, MovingKeepsValues, MovingVisitsTheSame, MovingNeedsTheSame, FreezingKeepsValues, FreezingEnters, FreezingNeedsTheSame};
ghost use Rattle.lucid_equations.specs.Needs.{VisitedDatonsHaveValues, VisitedIsNeeded, NeedsOfDatonsAreNeeded, ReferencesHaveValues, ElementsHaveValues, NowhereHasNoValue, ReferencesVisit, ElementsAreLookedUp, ReferencesNeedNoMore, ReferencesNeedAll};
ghost use Rattle.lucid_equations.specs.Parts.{PartsAreReadByNumber, PartsAreVisitedByNumber, LooksAreVisited, FormsNeedWhatLooksNeed};
ghost use Rattle.lucid_equations.specs.Rows.{MadeIsRead, ReadIsMade};
ghost use Rattle.lucid_equations.specs.RowParts.{RowsAreTheirNodes, PartsAreLower, PartsAreTheirNodes, PartsReadTheirNodes, PartsVisitTheirNodes};
ghost use Rattle.lucid_equations.specs.NumberAims.{NodesGoByNumbers, DatonsGoByNumbers, AimsLeadToNodes};
ghost use Rattle.lucid_equations.specs.Looks.{PartsNeverLose, PartsNeverDiffer, NextLooksAreVisited, NextLooksAreVisitedFromSomeOn, NeedsAreOfTheWay};
ghost use Rattle.lucid_equations.specs.Steps.{StepsAreOfPlans};

/// A defined approximation is the same at each greater limit, and so at most one value is meant.
pub fn approximations_stay()
    ensures stay { NodeApproximationsStay }
    ensures one_value { NodesMeanOneValue }
{}

/// What a reference goes on with rests on its daton alone.
pub fn references_go_by_datons()
    ensures references { ReferencesGoByDatons }
    ensures calls { CallsGoByDatons }
    ensures nodes { NodesGoByDatons }
{}

/// Held values that are meant give only values that are meant, and more of them keep each value.
pub fn held_values_are_meant()
    ensures meant { HeldValuesGiveMeantValues }
    ensures more { MoreHeldValuesKeepValues }
{}

/// Where an approximation is defined, each greater one visits the same, and so needs the same datons.
pub fn defined_visits_stay()
    ensures stay { DefinedVisitsStay }
    ensures needed { NeededDatons }
{}

/// What is visited only grows, with the limit and with the added number, and an added number is no more than a limit.
pub fn visits_only_grow()
    ensures with_limit { VisitsGrowWithLimit }
    ensures with_added { VisitsGrowWithAdded }
    ensures more { MoreVisitsMore }
    ensures at_sum { AddedIsLimit }
{}

/// Where more elements are known and none differs, values and meanings stay, also with held values, and what was visited and consulted
/// still is; where there was a value, the same is visited, and so the same datons are needed.
pub fn more_elements_keep_values()
    ensures values { MoreElementsKeepValues }
    ensures meanings { MoreElementsKeepMeanings }
    ensures held { MoreElementsKeepHeldMeant }
    ensures visits { MoreElementsVisitMore }
    ensures consults { MoreElementsConsultMore }
    ensures same { MoreElementsVisitTheSame }
    ensures needed { MoreElementsNeedTheSame }
{}

/// `first`, `next` below the last time, `fby`, `initial`, `succ` below the last space and `sby` only move the point.
pub fn six_forms_only_move()
    ensures { SixFormsOnlyMove }
{}

/// What only moves the point is its part there, at the same limits: by its values, also with held ones, by what it visits, and by
/// what it needs.
pub fn moving_is_the_part_there()
    ensures values { MovingKeepsValues }
    ensures visits { MovingVisitsTheSame }
    ensures needed { MovingNeedsTheSame }
{}

/// A frozen time is its subject in the context that it enters.
pub fn freezing_is_the_subject_there()
    ensures values { FreezingKeepsValues }
    ensures visits { FreezingEnters }
    ensures needed { FreezingNeedsTheSame }
{}

/// Whatever a call goes on with, it enters the context in which its daton stands.
pub fn calls_enter_their_contexts()
    ensures { CallsEnterTheirContexts }
{}

/// Equal datons are told by a test.
pub fn same_daton_is_equality()
    ensures { SameDatonIsEquality }
{}

/// A reference is at one more what it goes on with: by its values, also with held ones, by what it visits, and by what it needs.
pub fn references_are_one_more()
    ensures values { ReferencesHaveValues }
    ensures elements { ElementsHaveValues }
    ensures none { NowhereHasNoValue }
    ensures visits { ReferencesVisit }
    ensures looked_up { ElementsAreLookedUp }
    ensures no_more { ReferencesNeedNoMore }
    ensures all { ReferencesNeedAll }
{}

/// Where an approximation is defined, each daton that it visits has its value by the same limit; what a node with a meaning visits
/// is needed, and so is what a needed daton needs.
pub fn visited_datons_have_values()
    ensures values { VisitedDatonsHaveValues }
    ensures visited { VisitedIsNeeded }
    ensures needed { NeedsOfDatonsAreNeeded }
{}

/// A part is read and visited by its number, and what a look of a form visits and needs, the form does.
pub fn forms_do_what_looks_do()
    ensures read { PartsAreReadByNumber }
    ensures visited { PartsAreVisitedByNumber }
    ensures visits { LooksAreVisited }
    ensures needs { FormsNeedWhatLooksNeed }
{}

/// What is read of parts never gets lost, and never differs from what they mean.
pub fn parts_are_read_rightly()
    ensures never_lose { PartsNeverLose }
    ensures never_differ { PartsNeverDiffer }
{}

/// What the looks that stand next visit, the form visits, with each added number from some on; what it needs, the looks on the way
/// to its value need.
pub fn forms_do_what_the_way_does()
    ensures next { NextLooksAreVisited }
    ensures from_some_on { NextLooksAreVisitedFromSomeOn }
    ensures needs { NeedsAreOfTheWay }
{}

/// In a table in range, rows are their nodes, the parts of a form are the nodes of lower numbers that its row names, and they are
/// read and visited as these.
pub fn parts_are_their_nodes()
    ensures rows { RowsAreTheirNodes }
    ensures lower { PartsAreLower }
    ensures nodes { PartsAreTheirNodes }
    ensures values { PartsReadTheirNodes }
    ensures visits { PartsVisitTheirNodes }
{}

/// What a node of a table in range, and a daton, goes on with is the plain aim of its aim by numbers, whose number is a node's.
pub fn aims_go_by_numbers()
    ensures nodes { NodesGoByNumbers }
    ensures datons { DatonsGoByNumbers }
    ensures lead { AimsLeadToNodes }
{}

/// What is read of the node that is made of a form is the form with its parts, and the node that is made of what is read is the node.
#[tactic(auto, using(crate::proofs::Formed::made_is_read, crate::proofs::Formed::read_is_made))]
pub fn forms_are_read_as_made()
    ensures read { MadeIsRead }
    ensures made { ReadIsMade }
{}

/// The steps of a form are those of its plan: where its search stands, what is left of the plan is the form's first step, and what is done
/// by the value of its look.
pub fn steps_are_of_plans()
    ensures { StepsAreOfPlans }
{}
