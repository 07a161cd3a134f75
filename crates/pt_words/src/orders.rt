//! What a command line may ask for.

/// The clock that the platforms of a run read.
#[derive(Clone, Copy, Debug, PartialEq, Eq)]
pub enum ClockChoice {
    /// A clock paced by the events themselves.
    Paced,
    /// A clock that reads `start` first, and `step` more at each further reading, in microseconds.
    Step { start: u64, step: u64 },
    /// The clock of the machine.
    Machine,
}

/// A command on a graph.
#[derive(Clone, Copy, Debug, PartialEq, Eq)]
pub enum Command {
    /// Run it over the rows of its sensors with `workers` workers (1 to 64) and this clock, and write its tables and, if
    /// `log` is true, what each platform did.
    Run {
        workers: u32,
        clock: ClockChoice,
        log: bool,
    },
    /// Check whether it is admitted, and write the offset and the margin of each actor.
    Check,
    /// Write the tables of its meaning, whatever its bounds and slacks.
    Meaning,
    /// Write the least slacks with which it can run.
    Slacks,
}

/// A graph file, and the number of claims that a platform may make: 200,000 unless the words state another, from 200,000 to
/// 100,000,000. Where a command makes no claims it is 200,000.
#[derive(Clone, Copy, Debug, PartialEq, Eq)]
pub struct GraphFile<'a> {
    pub name: &'a str,
    pub claims: u64,
}

/// What a command line asks for.
#[derive(Clone, Copy, Debug, PartialEq, Eq)]
pub enum Order<'a> {
    /// A command on a graph file.
    Over {
        command: Command,
        graph: GraphFile<'a>,
    },
    /// A run of the input made from `number` (1 to 100), with `workers` workers (1 to 64).
    Make {
        number: u32,
        workers: u32,
    },
    /// A graph file as a file of version 2.
    Migrate {
        graph: GraphFile<'a>,
    },
    /// An audit: whether the file `log` is what a run of the graph file writes, with the log.
    Audit {
        graph: GraphFile<'a>,
        log: &'a str,
    },
    /// A replay: a run of the graph file, with the lags and transits that the file `air` says, with `workers` workers
    /// (1 to 64), and with the log if `log` is true.
    Replay {
        graph: GraphFile<'a>,
        air: &'a str,
        workers: u32,
        log: bool,
    },
}
