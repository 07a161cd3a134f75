//! Threads that do the work of a run.

use pt_blocks::Blocks;
use std::alloc::Global;
use std::sync::Wait;
use std::thread;
use std::thread::Threads;

/// What a run calls between the claim and the firing of each task, while no lock is held.
pub trait Gate {
    /// The task is claim `number` of this platform, counted from 0.
    fn at(&self, platform: u32, number: u64);
}

/// A gate that does nothing.
pub struct Open;

impl Gate for Open {
    fn at(&self, _platform: u32, _number: u64) {}
}

/// The work of a run, which several threads share.
pub(crate) trait SharedWork: Sync {
    /// Does one worker's part of the run. `first` is the worker's number, from 0, and gives the station at which it begins.
    fn work<G: Gate, R: Wait>(
        &self,
        rt: &R,
        alloc: Global,
        blocks: &Blocks,
        first: usize,
        gate: &G,
    );
}

/// Starts the workers and waits for them. If a thread can't be started, the caller does its part.
///
/// The stations are passed as a type parameter, since its bound `SharedWork` says that threads may share them.
pub(crate) fn run_workers<S: SharedWork, G: Gate + Sync, R: Threads + Wait + Sync>(
    rt: &R,
    alloc: Global,
    shared: &S,
    blocks: &Blocks,
    workers: u32,
    gate: &G,
) {
    thread::scope(thread::scope_env(), rt, |scope| {
        for w in 0..workers {
            let first = w as usize;
            if scope
                .spawn(move || shared.work(rt, alloc, blocks, first, gate))
                .is_err()
            {
                shared.work(rt, alloc, blocks, first, gate);
            }
        }
    });
}
