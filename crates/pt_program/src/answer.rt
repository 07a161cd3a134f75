//! A command line with or without a file of formulas.

ghost use Rattle.std.specs.Prelude.{◌≡◌, IfOk, is_some, length, map, string_bytes};
ghost use Rattle.pt_io.specs.Calls.{reading, writing};
ghost use Rattle.pt_program.specs.Answers.{IsAnswer, IsAnswerOver, IsAnswerTo, order_in};
ghost use Rattle.pt_words.specs.Grammar.{order_of};

use crate::call::status;
use crate::reporting::{no_memory, report};
use pt_blocks::Blocks;
use pt_formula_file::{BlocksOption, add_formulas_of, blocks_option};
use pt_io::{Clock, Sink, Source};
use pt_words::order;
use std::alloc::{AllocError, Global};
use std::sync::Wait;
use std::thread::Threads;

/// The status of the command of these words. With `--blocks FILE` the formulas of that file are added to the blocks first: then it is 9
/// without memory, 7 if the file can't be read, 2 if it is refused, by a line on `notes`, and else that of the call with all these
/// blocks. Without the option it is that of the call.
pub fn status_of_words<S: Source, K: Sink, E: Sink, C: Clock + Send, R: Threads + Wait + Sync>(
    rt: &R,
    alloc: Global,
    words: &[String],
    source: &mut S,
    out: &mut K,
    notes: &mut E,
    clocks: Vec<C>,
    blocks: &mut Blocks,
) -> u8
    requires clocks { length clocks.items ≡ 16 }
    ensures { IsAnswer result words.now (S.contents source.old) blocks.old.listed.items
        (reading S.Source source.old source.new)
        (writing K.Sink out.old out.new)
        (writing E.Sink notes.old notes.new) }
{
    match blocks_option(alloc, words) {
        Ok(None) => status(rt, alloc, words, source, out, notes, clocks, blocks),
        Ok(Some(option)) => { status_with(rt, alloc, &option, source, out, notes, clocks, blocks) }
        Err(_) => no_memory(notes),
    }
}

/// The status of a command line with a file of formulas.
fn status_with<S: Source, K: Sink, E: Sink, C: Clock + Send, R: Threads + Wait + Sync>(
    rt: &R,
    alloc: Global,
    option: &BlocksOption,
    source: &mut S,
    out: &mut K,
    notes: &mut E,
    clocks: Vec<C>,
    blocks: &mut Blocks,
) -> u8
    requires clocks { length clocks.items ≡ 16 }
    ensures { IsAnswerTo (string_bytes option.now.file) result
        (order_in (map string_bytes option.now.words.items))
        (S.contents source.old) blocks.old.listed.items
        (reading S.Source source.old source.new)
        (writing K.Sink out.old out.new)
        (writing E.Sink notes.old notes.new) }
{
    let words = option.words.as_slice();
    match is_valid(alloc, words) {
        Ok(true) => status_over(rt, alloc, option, source, out, notes, clocks, blocks),
        Ok(false) => status(rt, alloc, words, source, out, notes, clocks, blocks),
        Err(_) => no_memory(notes),
    }
}

/// Whether these words are a valid command line.
fn is_valid(alloc: Global, words: &[String]) -> Result<bool, AllocError>
    ensures { IfOk result (λ valid. valid ≡ is_some (order_of words.now)) }
{
    let order = order(alloc, words)?;
    Ok(order.is_some())
}

/// The status of a valid command line with a file of formulas.
fn status_over<S: Source, K: Sink, E: Sink, C: Clock + Send, R: Threads + Wait + Sync>(
    rt: &R,
    alloc: Global,
    option: &BlocksOption,
    source: &mut S,
    out: &mut K,
    notes: &mut E,
    clocks: Vec<C>,
    blocks: &mut Blocks,
) -> u8
    requires clocks { length clocks.items ≡ 16 }
    ensures { IsAnswerOver (string_bytes option.now.file) result
        (order_of option.now.words.items)
        (S.contents source.old) blocks.old.listed.items
        (reading S.Source source.old source.new)
        (writing K.Sink out.old out.new)
        (writing E.Sink notes.old notes.new) }
{
    match add_formulas_of(alloc, source, option.file.as_str(), blocks) {
        Ok(()) => status(
            rt,
            alloc,
            option.words.as_slice(),
            source,
            out,
            notes,
            clocks,
            blocks,
        ),
        Err(fault) => report(alloc, notes, &fault),
    }
}
