//! The top call: runs the command of a command line, with a source of files and sinks for output.
//!
//! `run GRAPH` reads the graph file and the rows of its sensors, runs all platforms by the clock that the words name, and writes
//! the table of every actuator. `make NUMBER` makes a graph and rows from a number and writes a summary. `migrate GRAPH`
//! writes the graph file as one of version 2, and `slacks GRAPH` the least slacks with which the graph can run. `audit GRAPH LOG`
//! judges a file that `run --log` wrote. `replay GRAPH AIR` runs a graph with the transit times and clock lags of a recorded
//! network. `specs/Due.antt` says how each call ends: at which stage it is refused, and why, or what it writes and what it leaves.
//! What holds of a run is in `specs/Headline.antt` and `specs/Runs.antt`, and what other commands must write in `specs/Written.antt`,
//! `specs/Making.antt`, `specs/Migrating.antt`, `specs/Auditing.antt` and `specs/Replaying.antt`. That an answer which known files decide
//! comes whenever it is due is in `specs/Exact.antt`. Which files are asked for is in `specs/Asks.antt`.
//!
//! Read first: `ptides`, then `specs/Headline.antt`. A run goes from `top` by `admission`, `run` or `paced_run`, and `engines` to
//! `outputs`. Only a run by clocks of its own may wait and start threads. All other orders are answered by `answer`, in `prompt`, which
//! returns, as the absence of that bound in it says.
#![tactic(auto)]

mod admission;
mod audit;
mod check;
mod engines;
mod fault;
mod fault_line;
mod last_file;
mod laws;
mod make;
mod meaning;
mod migrate;
mod notes;
mod outcome;
mod outputs;
mod own_run;
mod paced_run;
mod plan_laws;
mod prompt;
mod replay;
mod run;
mod slacks;
mod top;

pub use fault::Fault;
pub use laws::{
    calls_agree, replays_agree, replays_in_bounds_agree_with_runs, replays_in_bounds_do_as_paced,
    runs_agree, slack_runs_miss_nothing, usual_headline, writes_tables, written_logs_are_lawful,
};
pub use outcome::{Ending, Outcome};
pub use plan_laws::{finished_runs_agree, plan_runs_agree, step_runs_agree};
pub use prompt::answer;
pub use top::ptides;
