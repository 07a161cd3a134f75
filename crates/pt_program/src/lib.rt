//! What a program with given blocks does: the words of its command line, files, streams, clocks, and one call.
//!
//! It makes the real source, sinks and clocks. With `--blocks FILE` it adds the formulas of that file to the program's blocks
//! (`status_of_words`), and passes all of it to the top call, `ptides` of pt_run, whose clauses say what is written. A program makes
//! its blocks in `main`, calls `run` and ends with the status that it returns: `ptides` and `slow_blocks` are such programs.
//!
//! Read first: `run`, then `specs/Answers.antt`.
#![tactic(auto)]

mod answer;
mod call;
mod program;
mod reporting;

pub use answer::status_of_words;
pub use call::status;
pub use program::{NO_MEMORY, run};
