//! What every source of live rows promises.

use crate::fault::RowFault;
use std::sync::Wait;

/// What a sensor gives when it is asked.
#[derive(Clone, Copy, Debug, PartialEq, Eq)]
pub enum Fed {
    /// A row with its time, in microseconds, and its value.
    Row { time: u64, value: i64 },
    /// None yet.
    Nothing,
    /// No more will come.
    End,
    /// What came is no row.
    NoRow(RowFault),
    /// The file can't be read.
    Unreadable,
}

/// Rows of sensors that come while a run goes on. A sensor is named by the number of its actor in the graph, from 0.
///
/// A source may report the rows that it gave: then clauses speak of them, and else they claim nothing. It counts the reads that
/// failed.
pub trait Feeds: Drop {
    ghost use Rattle.std.specs.Prelude.{◌≡◌, ℕ, Option, List};
    ghost use Rattle.pt_types.specs.declared.rows.RowAt.{RowAt};
    ghost use Rattle.pt_feeds.specs.Given.{Gives, IsOnTime, faults_after};

    /// All rows that it gave, each seen at the reading at which it was asked, if it reports them.
    ghost given: { Self → Option (List RowAt) };

    /// The reads that failed so far. The count stays at the greatest `u64`.
    ghost faults: { Self → ℕ };

    /// The next row of a sensor at a reading, in microseconds. Waits for nothing, takes no memory.
    fn next(&mut self, sensor: u32, reading: u64) -> Fed
        ensures given { Gives (given self.old) sensor reading result (given self.new) }
        ensures on_time { IsOnTime reading result }
        ensures faults { faults self.new ≡ faults_after result (faults self.old) };

    /// Lets time pass until something came or `micros` have passed, or less.
    fn rest<R: Wait>(&mut self, rt: &R, micros: u64)
        ensures given { given self.new ≡ given self.old }
        ensures faults { faults self.new ≡ faults self.old };
}
