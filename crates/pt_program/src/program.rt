//! A program's command line, files, streams and clocks.

use crate::answer::status_of_words;
use pt_blocks::Blocks;
use pt_io::{FileSource, NotesSink, OutSink, SystemFiles, machine_clocks, words};
use std::io;
use std::sync::Wait;
use std::thread::Threads;

/// The status if there is not enough memory to begin.
pub const NO_MEMORY: u8 = 9;

/// The most platforms of a graph.
const MOST_PLATFORMS: usize = 16;

/// Runs the command of the program's command line with these blocks and those of its file of formulas, by the system's files and streams
/// and the machine's clock. Returns its status: 9 if there is not enough memory to begin. `waiting` is `rt` once more: threads are
/// started and waited for by a handle that only `main` can give.
pub fn run<R: Threads + Wait + Sync>(rt: &HostRuntime, waiting: &R, blocks: &mut Blocks) -> u8 {
    let Ok(words) = words(rt) else {
        return NO_MEMORY;
    };
    run_words(rt, waiting, words.as_slice(), blocks)
}

/// The status of the command of these words, by the system's files and streams and the machine's clock.
fn run_words<R: Threads + Wait + Sync>(
    rt: &HostRuntime,
    waiting: &R,
    words: &[String],
    blocks: &mut Blocks,
) -> u8 {
    let alloc = rt.alloc();
    let (stdout, stderr) = (rt.stdout(), rt.stderr());
    let Ok(mut out) = OutSink::new(alloc, io::writer(&stdout)) else {
        return NO_MEMORY;
    };
    let Ok(clocks) = machine_clocks(alloc, rt, MOST_PLATFORMS) else {
        return NO_MEMORY;
    };
    let mut notes = NotesSink::new(io::writer(&stderr));
    let mut source = FileSource::new(SystemFiles::new(rt));
    status_of_words(
        waiting,
        alloc,
        words,
        &mut source,
        &mut out,
        &mut notes,
        clocks,
        blocks,
    )
}
