//! Where a run reads and where it writes, and what it goes by: a source of named contents, sinks of bytes, and clocks.
//!
//! A trait says what every source or sink promises. `Shelf` and `Page` are in memory: clauses can name what is read and
//! written. `FileSource` reads what an opener opens, and `OutSink` and `NotesSink` write to a writer: clauses name their bytes
//! where the opener or the writer reports its own. The system's files and streams don't.
//!
//! Read first: `Source::fetch`, `Sink::put` and `Clock::read`. The words of their clauses are in `specs/Causes.antt` and
//! `specs/Calls.antt`.
#![tactic(auto)]

mod clock;
mod command_line;
mod files;
mod outputs;
mod page;
mod shelf;
mod sink;
mod source;

/// How often a read or write that a signal interrupts is tried before it counts as failed.
const TRIES: u32 = u32::MAX;

pub use clock::{Clock, ListClock, MachineClock, StepClock, machine_clocks};
pub use command_line::words;
pub use files::{FileSource, Opener, SystemFiles};
pub use outputs::{NotesSink, OutSink};
pub use page::Page;
pub use shelf::Shelf;
pub use sink::{PutFault, Sink};
pub use source::{FetchFault, Source};
