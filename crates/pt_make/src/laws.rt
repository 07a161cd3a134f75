//! Theorems about made inputs and paced runs over them.

ghost use Rattle.pt_make.specs.Laws.{MadeGraphsCanRun, NothingIsMissed, RunsAreShort};

/// The graph can run: it is lawful, each cycle takes time, and each sender can send in time.
pub fn made_graphs_can_run()
    ensures { MadeGraphsCanRun }
{}

/// No platform makes all the claims that it may: each actor fires only at multiples of 100 microseconds.
pub fn made_runs_are_short()
    ensures { RunsAreShort }
{}

/// Nothing is missed: no reading is more than 46 microseconds after a tag, and `out` may act within 50.
pub fn made_runs_miss_nothing()
    ensures { NothingIsMissed }
{}
