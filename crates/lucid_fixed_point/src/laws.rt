//! The meaning of programs as the least solution of equations between streams. Each law is the contract of a function that does nothing.
ghost use Rattle.std.specs.Prelude.{ℕ, suc, Option, List, ◌↔◌};
ghost use Rattle.lucid_value.specs.Plain.{PlainValue};
ghost use Rattle.lucid_tree.specs.Tree.{Head, PlainTree, PlainDefs};
ghost use Rattle.lucid_tree.specs.Levels.{Elements};
ghost use Rattle.lucid_tree.specs.Env.{Env, empty, scope};
ghost use Rattle.lucid_fixed_point.specs.Streams.{Streams, Meanings, operator, least, union, union_of};
ghost use Rattle.lucid_fixed_point.specs.Denotation.{denotation, equations, meanings};
ghost use Rattle.lucid_fixed_point.specs.Order.{EachWithin, Within, IsChain, IsContinuous, IsMonotone, PointsWithin, IsSingle, AreSingle};
ghost use Rattle.lucid_tree.specs.Output.{Output};
ghost use Rattle.lucid_fixed_point.specs.Rules.{Derives};
ghost use Rattle.lucid_fixed_point.specs.Equalities.{EquationsOfTheBook};
ghost use Rattle.lucid_fixed_point.specs.Families.{Family, Solves, by_family, LinesOf};
ghost use Rattle.lucid_fixed_point.specs.Contexts.{Context, fill, DenoteTheSame};
ghost use Rattle.lucid_fixed_point.specs.Unfolding.{NamesUnfold, CallsUnfold, FirstOfFbyInPrograms};
ghost use Rattle.lucid_fixed_point.specs.Programs.{TwoNamesTakeTurns, TheFunctionTakesTurns, TheNestedIsTrue};
ghost use Rattle.lucid_fixed_point.specs.Operators.{OperatesAsTheBook};
ghost use Rattle.lucid_fixed_point.specs.Laws.{DenotationIsDerivation, DenotationIsMeaning, SolvesThere, LiesThere, SolutionHasTheBlock, DenotationsGrowWithInputs, DenotationsNeedSomeInputs};

/// Streams by their numbers, and others that have all that these have.
pub trait Ordered {
    ghost lower: { Streams };

    ghost upper: { Streams };

    ghost within: { EachWithin lower upper };
}

/// Each form's operator is monotone.
pub fn operators_grow<O: Ordered>()
    ensures { (f : Head) → Within (operator f O.lower) (operator f O.upper) }
{}

/// What some of the operators are, said of streams.
pub fn operators_are_those_of_the_book<A: Arguments>()
    ensures { OperatesAsTheBook A.streams }
{}

/// The equations of the book hold between streams.
pub fn equations_of_the_book_hold<A: Arguments>()
    ensures { EquationsOfTheBook (A.streams 0) (A.streams 1) }
{}

/// Each function that a program defines is monotone.
pub fn functions_grow<O: Ordered>()
    ensures { (b : Elements) (env : Env) (n : List ℕ) → Within ((meanings b env).map n O.lower) ((meanings b env).map n O.upper) }
{}

/// A chain of streams by their numbers.
pub trait Chain {
    ghost links: { ℕ → Streams };

    ghost rising: { IsChain links };
}

/// Each form's operator preserves unions of chains.
pub fn operators_are_continuous<C: Chain>()
    ensures { (f : Head) (t s : ℕ) (v : PlainValue) → operator f (union_of C.links) t s v ↔ ((k : ℕ) × operator f (C.links k) t s v) }
{}

/// Each function that a program defines preserves unions of chains.
pub fn functions_are_continuous<C: Chain>()
    ensures { (b : Elements) (env : Env) (n : List ℕ) (t s : ℕ) (v : PlainValue)
        → (meanings b env).map n (union_of C.links) t s v ↔ ((k : ℕ) × (meanings b env).map n (C.links k) t s v) }
{}

/// What names mean, and more of it, with monotone functions.
pub trait OrderedMeanings {
    ghost lower: { Meanings };

    ghost upper: { Meanings };

    ghost within: { PointsWithin lower upper };

    ghost monotone: { IsMonotone upper };
}

/// What a tree denotes grows with what the names mean.
pub fn denotations_grow<M: OrderedMeanings>()
    ensures { (e : PlainTree) → Within (denotation e M.lower) (denotation e M.upper) }
{}

/// A chain of what names mean, with continuous functions.
pub trait ChainOfMeanings {
    ghost links: { ℕ → Meanings };

    ghost rising: { (k : ℕ) → PointsWithin (links k) (links (suc k)) };

    ghost continuous: { (k : ℕ) → IsContinuous (links k) };
}

/// What a tree denotes preserves unions of chains.
pub fn denotations_are_continuous<C: ChainOfMeanings>()
    ensures { (e : PlainTree) (t s : ℕ) (v : PlainValue) → denotation e (union C.links) t s v ↔ ((k : ℕ) × denotation e (C.links k) t s v) }
{}

/// What the names outside a block mean: their functions are monotone and continuous.
pub trait Outside {
    ghost means: { Meanings };

    ghost continuous: { IsContinuous means };
}

/// The streams of a call's arguments.
pub trait Arguments {
    ghost streams: { Streams };
}

/// What a block's names mean solves its equations.
pub fn blocks_solve_their_equations<O: Outside, A: Arguments>()
    ensures { (ds : PlainDefs) (z : Option ℕ) → SolvesThere (equations ds z O.means) (least (equations ds z O.means)) A.streams }
{}

/// So does what the names of a block's scope mean, in each environment.
pub fn scopes_solve_their_equations<A: Arguments>()
    ensures { (b : Elements) (ds : PlainDefs) (z : Option ℕ) (rest : Env)
        → SolvesThere (equations ds z (meanings b rest)) (meanings b (scope ds z rest)) A.streams }
{}

/// What a block's names could mean: whatever its equations give of it stands in it.
pub trait Solution {
    ghost definitions: { PlainDefs };

    ghost opened: { Option ℕ };

    ghost outside: { Meanings };

    ghost monotone: { IsMonotone outside };

    ghost means: { Meanings };

    ghost solves: { PointsWithin (equations definitions opened outside means) means };
}

/// What a block's names mean lies in each solution of its equations.
pub fn blocks_have_least_solutions<S: Solution, A: Arguments>()
    ensures { LiesThere (least (equations S.definitions S.opened S.outside)) S.means A.streams }
{}

/// So a block has only what its subject has in each solution.
pub fn solutions_have_what_a_block_has<S: Solution>()
    ensures { SolutionHasTheBlock S.definitions S.opened S.outside S.means }
{}

/// Streams of at most one value at a point, by their numbers.
pub trait Single {
    ghost streams: { Streams };

    ghost single: { AreSingle streams };
}

/// Each form's operator gives at most one value at a point.
pub fn operators_are_single<A: Single>()
    ensures { (f : Head) → IsSingle (operator f A.streams) }
{}

/// So does each function that a program defines.
pub fn functions_are_single<A: Single>()
    ensures { (b : Elements) (env : Env) (n : List ℕ) → IsSingle ((meanings b env).map n A.streams) }
{}

/// A tree denotes at most one value at a point.
pub fn denotations_are_single()
    ensures { (b : Elements) (env : Env) (e : PlainTree) → IsSingle (denotation e (meanings b env)) }
{}

/// What a tree denotes grows with the inputs.
pub fn denotations_grow_with_inputs()
    ensures { DenotationsGrowWithInputs }
{}

/// What a tree denotes over a chain of inputs, it denotes over some one of them.
pub fn denotations_need_some_inputs()
    ensures { DenotationsNeedSomeInputs }
{}

/// Exactly what a tree denotes is derived.
pub fn denotation_is_derivation()
    ensures { DenotationIsDerivation }
{}

/// Exactly what a tree denotes is meant.
pub fn denotation_is_meaning()
    ensures { DenotationIsMeaning }
{}

/// A program over its inputs, and a family of streams and maps that solves the equations of all its blocks.
pub trait FamilyOfSolutions {
    ghost program: { PlainTree };

    ghost inputs: { Elements };

    ghost family: { Family };

    ghost solves: { Solves family program (meanings inputs empty) };
}

/// What is derived of a program, each family has that solves its equations.
pub fn solutions_have_what_is_derived<S: FamilyOfSolutions>()
    ensures { (t s : ℕ) (v : PlainValue) → Derives S.inputs S.program empty t s v → by_family S.family S.program (meanings S.inputs empty) t s v }
{}

/// The lines of a program's output are those of its stream by each such family.
pub fn solutions_have_the_lines<S: FamilyOfSolutions>()
    ensures { (k : ℕ) (bytes : List ℕ) → Output S.inputs S.program k bytes → LinesOf (by_family S.family S.program (meanings S.inputs empty)) k bytes }
{}

/// Two names that need each other take turns.
pub fn two_names_take_turns()
    ensures { TwoNamesTakeTurns }
{}

/// A function that calls itself takes turns.
pub fn the_function_takes_turns()
    ensures { TheFunctionTakesTurns }
{}

/// An iteration inside another one is always true.
pub fn the_nested_is_true()
    ensures { TheNestedIsTrue }
{}

/// Two trees that denote the same.
pub trait Same {
    ghost left: { PlainTree };

    ghost right: { PlainTree };

    ghost same: { DenoteTheSame left right };
}

/// Such trees may be exchanged in each program.
pub fn the_same_may_be_exchanged<S: Same>()
    ensures { (c : Context) (b : Elements) (env : Env) (t s : ℕ) (v : PlainValue)
        → Derives b (fill c S.left) env t s v ↔ Derives b (fill c S.right) env t s v }
{}

/// A name may be unfolded at any places of its scope where none is caught.
pub fn names_unfold()
    ensures { NamesUnfold }
{}

/// A call may be unfolded at any places of its block's subject where no name is caught.
pub fn calls_unfold()
    ensures { CallsUnfold }
{}

/// `first` undoes `fby` in each program.
pub fn first_of_fby_in_programs()
    ensures { FirstOfFbyInPrograms }
{}
