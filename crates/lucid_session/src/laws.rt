//! The laws of runs. Each is the contract of a function that does nothing.
ghost use Rattle.lucid_session.specs.Laws.{TreesWriteTheirOutput, SameStreamsRunAlike, FiguresCarry, OneStreamsPoints};

/// The output of a tree's stream is the output of the tree.
pub fn trees_write_their_output()
    ensures { TreesWriteTheirOutput }
{}

/// Of the same stream a run does the same. So what is promised of a program's table holds of the tree that it was compiled from.
pub fn same_streams_run_alike()
    ensures { SameStreamsRunAlike }
{}

/// The figures of a table's run are those of the tree that it was compiled from, in what is counted of that.
pub fn figures_carry()
    ensures { FiguresCarry }
{}

/// The values of one stream are demanded at space 0, at each time that is attempted.
pub fn one_streams_points()
    ensures { OneStreamsPoints }
{}
