//! The program `ptides` with blocks of its own: `least`, and `slow`, which gives the same value a millisecond later.
//!
//! It is an example of how a program hands in blocks, and shows from when on several workers are faster than one. Its command line
//! is that of `ptides`. `bench/slow_blocks.py` makes its graphs and measures.
#![tactic(auto)]

mod slow;

use crate::slow::slow;
use pt_blocks::{Block, Blocks, least};
use pt_program::{NO_MEMORY, run};
use pt_types::Law;
use std::process::ExitCode;

fn main(rt: HostRuntime) -> ExitCode {
    let alloc = rt.alloc();
    let Ok(least_name) = String::from_str(alloc, "least") else {
        return ExitCode::from(NO_MEMORY);
    };
    let Ok(slow_name) = String::from_str(alloc, "slow") else {
        return ExitCode::from(NO_MEMORY);
    };
    // That each function gives the value of its law is proved here.
    let mut blocks = Blocks::new(alloc);
    let fast = blocks.add(Block::new(least_name, least, Law::Least));
    let long = blocks.add(Block::new(slow_name, slow, Law::Least));
    if fast.is_err() || long.is_err() {
        return ExitCode::from(NO_MEMORY);
    }
    ExitCode::from(run(&rt, &rt, &mut blocks))
}
