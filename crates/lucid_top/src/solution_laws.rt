//! The headline, said of each solution of the program's equations. Each law is the contract of a function that does nothing.
ghost use Rattle.lucid_fixed_point.specs.Families.{Family};
ghost use Rattle.lucid_report.specs.declared.status.Status.{Status};
ghost use Rattle.lucid_top.specs.Call.{Call};
ghost use Rattle.lucid_top.specs.Headline.{RunsProgram, Headline};
ghost use Rattle.lucid_top.specs.Solutions.{SolvesProgram, WritesItsLines, least_family, HasItsStream};
ghost use Rattle.lucid_top.specs.LeastFamily.{least-solves-program};

/// A call that runs a program.
pub trait Run {
    ghost call: { Call };

    ghost runs: { RunsProgram call };
}

/// A call that runs a program, and a family of streams and maps that solves the program's equations.
pub trait SolvedRun {
    ghost call: { Call };

    ghost runs: { RunsProgram call };

    ghost family: { Family };

    ghost solves: { SolvesProgram runs family };
}

/// Each run has such a family, the least one: what the names of each block mean.
impl<R: Run> SolvedRun for R {
    ghost call = { R.call };

    ghost runs = { R.runs };

    ghost family = { least_family };

    ghost solves = { least-solves-program R.call R.runs };
}

/// Where the headline holds, the lines that were written are those of each such family.
pub fn lines_are_those_of_solutions<R: SolvedRun>()
    ensures { (s : Status) (h : Headline R.runs s) → WritesItsLines R.runs s h R.family }
{}

/// By the least family the program's stream has exactly what the program has.
pub fn the_least_has_what_the_program_has<R: Run>()
    ensures { HasItsStream R.runs }
{}
