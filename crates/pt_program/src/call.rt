//! The status of a call.

ghost use Rattle.std.specs.Prelude.{◌≡◌, length};
ghost use Rattle.pt_io.specs.Calls.{reading, writing};
ghost use Rattle.pt_program.specs.Answers.{Answered};
ghost use Rattle.pt_words.specs.Grammar.{order_of};

use pt_blocks::Blocks;
use pt_io::{Clock, Sink, Source};
use pt_run::ptides;
use std::alloc::Global;
use std::sync::Wait;
use std::thread::Threads;

/// The status of the command of these words, which is that of the call. The clocks are let go, and so is all that a run leaves.
pub fn status<S: Source, K: Sink, E: Sink, C: Clock + Send, R: Threads + Wait + Sync>(
    rt: &R,
    alloc: Global,
    words: &[String],
    source: &mut S,
    out: &mut K,
    notes: &mut E,
    clocks: Vec<C>,
    blocks: &Blocks,
) -> u8
    requires clocks { length clocks.items ≡ 16 }
    ensures { Answered result (order_of words.now) (S.contents source.old) blocks.now.listed.items
        (reading S.Source source.old source.new)
        (writing K.Sink out.old out.new) }
{
    let outcome = ptides(rt, alloc, words, source, out, notes, clocks, blocks);
    let status = outcome.status;
    outcome.discard();
    status
}
