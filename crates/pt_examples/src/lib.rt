//! Worked examples: if a definition is wrong, one of their numbers is refused.
//!
//! Read `specs/Programs.antt`, and then `specs/Worked.antt` and `specs/Readings.antt`.
#![tactic(auto)]

ghost use Rattle.pt_examples.specs.Readings.{LanesStandApart, LinkedReadings, PairedReading};
ghost use Rattle.pt_examples.specs.Smallest.{IsSmallestRun};
ghost use Rattle.pt_examples.specs.SmallestPaced.{IsPacedOne};
ghost use Rattle.pt_examples.specs.Worked.{AreWorked};

/// The tables of twelve runs of small programs.
pub fn worked_tables()
    ensures { AreWorked }
{}

/// Each lane of an actor waits for its own sensor alone, so each has a paced reading of its own.
pub fn lanes_stand_apart()
    ensures { LanesStandApart }
{}

/// A receiver waits for its sender's slack, the link's delay and the clock error.
pub fn linked_readings()
    ensures { LinkedReadings }
{}

/// One sensor with one row: its three turns are a legal and finished history, its one claim is the meaning, and the graph
/// and its rows satisfy the premises of the theorems.
pub fn smallest_run()
    ensures { IsSmallestRun }
{}

/// The beginning of a paced run of the same program: two rounds at 55 lead to reading 61, and the graph satisfies the
/// premises of the theorems about paced runs.
pub fn smallest_paced_run()
    ensures { IsPacedOne }
{}

/// If a pair of platforms states a clock error, it counts instead of the graph's.
pub fn paired_reading()
    ensures { PairedReading }
{}
