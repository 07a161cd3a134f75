//! The limits of a program (this project's own choice).

/// The most claims that a platform makes in a run, unless the command states another number.
pub const USUAL_CLAIMS: u64 = 200_000;

/// The greatest time of a file, in microseconds: some 31 years.
pub const MOST_TIME: u64 = 1_000_000_000_000_000;

/// The most bytes of a graph file.
pub const MOST_GRAPH_BYTES: usize = 1_048_576;

/// The most bytes of a log that is judged.
pub const MOST_LOG_BYTES: usize = 67_108_864;
