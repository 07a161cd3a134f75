//! The top call.

ghost use Rattle.std.specs.Prelude.{◌≡◌, ◌≤◌, ◌≢◌, ◌↔◌, None, Some, [], flat_map, length};
ghost use Rattle.pt_io.specs.Calls.{reading, writing};
ghost use Rattle.pt_io.specs.Clocks.{viewed};
ghost use Rattle.pt_monitors.specs.Platforms.{missed_by};
ghost use Rattle.pt_run.specs.Asks.{AsksFrom, AsksOf};
ghost use Rattle.pt_run.specs.Clocks.{AreBack, AreBackFor};
ghost use Rattle.pt_run.specs.Complete.{IsComplete, IsCompleteByAnyClock};
ghost use Rattle.pt_run.specs.declared.fault.Fault.TheVariants.{Memory};
ghost use Rattle.pt_run.specs.Due.{IsDue, as_answer};
ghost use Rattle.pt_run.specs.Exact.{IsExact};
ghost use Rattle.pt_run.specs.InBounds.{IsCompleteInBounds};
ghost use Rattle.pt_run.specs.OverFiles.{HasHeadline};
ghost use Rattle.pt_run.specs.Statuses.{status_of};
ghost use Rattle.pt_words.specs.Grammar.{order_of, over};
ghost use Rattle.pt_words.specs.Claims.{HasFewClaims};
ghost use Rattle.pt_words.specs.Views.{file_in, in_words};
ghost use Rattle.pt_types.specs.Limits.{greatest_claims};
ghost use Rattle.pt_run.specs.Making.{ReportsOf};
ghost use Rattle.pt_run.specs.Prompt.{MakesFew, command_of};
ghost use Rattle.pt_run.specs.Replaying.{IsReplayHeadline};
ghost use Rattle.pt_run.specs.Reporting.{ReportsBy};
ghost use Rattle.pt_run.specs.Texts.{left_at, left_of, left_over};
ghost use Rattle.pt_run.specs.Counts.{LeavesReads, LeavesWrites};

use crate::admission::graph_at;
use crate::fault::Fault;
use crate::notes::report;
use crate::outcome::{Ending, Outcome};
use crate::own_run::{OwnRun, own_run_of};
use crate::prompt::answer;
use crate::run::run_graph;
use pt_blocks::Blocks;
use pt_io::{Clock, Sink, Source};
use pt_words::{Order, order};
use std::alloc::Global;
use std::sync::Wait;
use std::thread::Threads;

/// Runs the command of these words, those after the program's name: `run GRAPH`, `check GRAPH`, `meaning GRAPH`,
/// `make NUMBER`, `migrate GRAPH`, `slacks GRAPH`, `audit GRAPH LOG` or `replay GRAPH AIR`. With `--claims N` a platform may make N
/// claims, from 200,000, as without it, to 100,000,000, and the limits of sensor files, recordings and logs follow from N.
///
/// Files are read from the source by name; `make` reads none. The text goes to `out`, a line in each put. After a fault,
/// one line on `notes` says why; after a run with misses, one line for each. In a run by the machine's clock platform i reads
/// clock i of the 16 that are handed in; no other call reads them. `blocks` has the functions that actors may name.
///
/// This call may wait: a run by a clock of its own, `--clock step:..` or `--clock machine`, may go on forever if its clock stops.
/// Every other order is passed to `answer`, which takes no handle that allows waiting, so it returns.
pub fn ptides<S: Source, K: Sink, E: Sink, C: Clock + Send, R: Threads + Wait + Sync>(
    rt: &R,
    alloc: Global,
    words: &[String],
    source: &mut S,
    out: &mut K,
    notes: &mut E,
    clocks: Vec<C>,
    blocks: &Blocks,
) -> Outcome<C>
    requires clocks { length clocks.items ≡ 16 }
    ensures status { result.status ≡ status_of result.fault result.misses }
    // Which files the source was asked for, in order, if it reports them. None for `make`, and if the words are not valid; else the graph
    // file; for a run and `meaning` then the files of its sensors; for an audit and a replay these, and last the log or the recording. A
    // call asks for all of these, with three exceptions: if its graph is refused, for the graph file alone; if the file or the rows of a
    // sensor are refused, for the graph file and then the sensors' files up to that one, its own included; and if memory runs out, for
    // some or all of these, from the first on, or for none.
    ensures asks { AsksOf result.fault (order_of words.now)
        (S.contents source.old) blocks.now.listed.items
        (reading S.Source source.old source.new) }
    // The headline: what a run has written, what it leaves, by which readings, and why it stopped.
    ensures headline { HasHeadline result.fault
        (left_of result (order_of words.now) (viewed C.readings C.ahead clocks.items)
        (viewed C.readings C.ahead result.clocks.items)) (order_of words.now)
        (S.contents source.old) blocks.now.listed.items
        (writing K.Sink out.old out.new) }
    // The same of a replay: what it has written, what it leaves, by which lags and transits, and why it stopped.
    ensures replay_headline { IsReplayHeadline result.fault
        (left_of result (order_of words.now) (viewed C.readings C.ahead clocks.items)
        (viewed C.readings C.ahead result.clocks.items)) (order_of words.now)
        (S.contents source.old) blocks.now.listed.items
        (writing K.Sink out.old out.new) }
    // The status is 5 exactly if all was written and something was missed, and the misses are those of the recorded turns.
    ensures missed { (result.status ≡ 5) ↔ ((result.fault ≡ None) × (result.misses ≢ [])) }
    ensures misses { result.fault ≡ None →
        result.misses ≡ flat_map missed_by result.platforms.items }
    // All of it, for every command: at which stage it was refused, and why; or what it wrote and what it leaves.
    ensures due { IsDue (order_of words.now) (S.contents source.old) blocks.now.listed.items
        (as_answer result.fault
        (left_of result (order_of words.now) (viewed C.readings C.ahead clocks.items)
        (viewed C.readings C.ahead result.clocks.items))
        (reading S.Source source.old source.new)
        (writing K.Sink out.old out.new)) }
    // If the words and files with known contents decide which answer is due, the call ends with it, unless memory runs out or a read
    // fails. A cycle or a ring may then be another one, and instead of a text there may be a write fault. They decide each refusal of a
    // graph, of a sensor's rows, of a meaning that is too long, of a log and of a recording; and the texts of `check`, `meaning`,
    // `migrate`, `slacks` and `audit`. They do not decide how a run, a replay or `make` ends that is not refused so.
    ensures exact { IsExact result.fault (order_of words.now)
        (S.contents source.old) blocks.now.listed.items }
    // A paced run, with any number of workers and with the log or without, has the status that the meaning of its program gives, if its
    // files' contents are known, its graph is admitted, each sensor's file has rows, none of which is late, and no read and no write
    // fails: 0; or 5 if an actuator acts after its deadline; or 6 if a platform has more firings of units than it may claim, whatever its
    // actuators do; or else memory ran out, and the status is 9.
    ensures complete { IsComplete result.status (order_of words.now)
        (S.contents source.old) blocks.now.listed.items
        (reading S.Source source.old source.new)
        (writing K.Sink out.old out.new) }
    // So ends a replay of such a program whose recording breaks no stated bound, by the same cases.
    ensures complete_in_bounds { IsCompleteInBounds result.status (order_of words.now)
        (S.contents source.old) blocks.now.listed.items
        (reading S.Source source.old source.new)
        (writing K.Sink out.old out.new) }
    // By whatever clock, it finishes or its platforms show why not: by cases in `EndsAsShown`.
    ensures complete_by_any_clock { IsCompleteByAnyClock result.fault
        (left_of result (order_of words.now) (viewed C.readings C.ahead clocks.items)
        (viewed C.readings C.ahead result.clocks.items)) (order_of words.now)
        (S.contents source.old) blocks.now.listed.items
        (reading S.Source source.old source.new)
        (writing K.Sink out.old out.new) }
    // A read that failed, and a write, shows in the status: unless it is 7, 8 or 9 for that, the counts are as before the call.
    ensures reads { LeavesReads result.fault (S.faults source.old) (S.faults source.new) }
    ensures writes { LeavesWrites result.fault (K.faults out.old) (K.faults out.new) }
    // Unless memory ran out, the clocks come back: as many after a run by the machine's clock, else as they were.
    ensures clocks { result.fault ≢ Some Memory →
        AreBack (order_of words.now) result.fault clocks.items result.clocks.items }
    // Without a fault, all output is flushed.
    ensures flushed { result.fault ≡ None → K.flushed out.new }
    // What was put on `notes`.
    ensures notes { ReportsOf result.fault result.misses result.platforms.items (order_of words.now)
        (S.contents source.old) blocks.now.listed.items
        (writing E.Sink notes.old notes.new) }
{
    let mut handed = clocks;
    let ending = run_words(rt, alloc, words, source, out, notes, &mut handed, blocks);
    Outcome {
        status: ending.status,
        fault: ending.fault,
        misses: ending.misses,
        platforms: ending.platforms,
        clocks: handed,
    }
}

/// Runs the command of these words. The other clauses of `ptides` follow from these.
fn run_words<S: Source, K: Sink, E: Sink, C: Clock + Send, R: Threads + Wait + Sync>(
    rt: &R,
    alloc: Global,
    words: &[String],
    source: &mut S,
    out: &mut K,
    notes: &mut E,
    clocks: &mut Vec<C>,
    blocks: &Blocks,
) -> Ending
    requires clocks { length clocks.old.items ≡ 16 }
    ensures status { result.status ≡ status_of result.fault result.misses }
    ensures asks { AsksOf result.fault (order_of words.now)
        (S.contents source.old) blocks.now.listed.items
        (reading S.Source source.old source.new) }
    ensures due { IsDue (order_of words.now) (S.contents source.old) blocks.now.listed.items
        (as_answer result.fault
        (left_at result (order_of words.now) (viewed C.readings C.ahead clocks.old.items)
        (viewed C.readings C.ahead clocks.new.items))
        (reading S.Source source.old source.new)
        (writing K.Sink out.old out.new)) }
    ensures clocks { result.fault ≢ Some Memory →
        AreBack (order_of words.now) result.fault clocks.old.items clocks.new.items }
    ensures flushed { result.fault ≡ None → K.flushed out.new }
    ensures notes { ReportsOf result.fault result.misses result.platforms.items (order_of words.now)
        (S.contents source.old) blocks.now.listed.items
        (writing E.Sink notes.old notes.new) }
    ensures reads { LeavesReads result.fault (S.faults source.old) (S.faults source.new) }
    ensures writes { LeavesWrites result.fault (K.faults out.old) (K.faults out.new) }
{
    let fault = match order(alloc, words) {
        Ok(Some(order)) => {
            return run_order(rt, alloc, order, source, out, notes, clocks, blocks);
        }
        Ok(None) => Fault::Usage,
        Err(_) => Fault::Memory,
    };
    let fault = report(alloc, notes, fault, None);
    Ending::refused(alloc, fault)
}

/// Runs the command of this order: only a run by clocks of its own takes the handle that allows waiting.
fn run_order<S: Source, K: Sink, E: Sink, C: Clock + Send, R: Threads + Wait + Sync>(
    rt: &R,
    alloc: Global,
    order: Order,
    source: &mut S,
    out: &mut K,
    notes: &mut E,
    clocks: &mut Vec<C>,
    blocks: &Blocks,
) -> Ending
    requires clocks { length clocks.old.items ≡ 16 }
    requires few { HasFewClaims (in_words order) }
    requires number { MakesFew (in_words order) }
    ensures status { result.status ≡ status_of result.fault result.misses }
    ensures asks { AsksOf result.fault (Some (in_words order.entry))
        (S.contents source.old) blocks.now.listed.items
        (reading S.Source source.old source.new) }
    ensures due { IsDue (Some (in_words order.entry))
        (S.contents source.old) blocks.now.listed.items
        (as_answer result.fault
        (left_at result (Some (in_words order.entry)) (viewed C.readings C.ahead clocks.old.items)
        (viewed C.readings C.ahead clocks.new.items))
        (reading S.Source source.old source.new)
        (writing K.Sink out.old out.new)) }
    ensures clocks { result.fault ≢ Some Memory →
        AreBack (Some (in_words order.entry)) result.fault clocks.old.items clocks.new.items }
    ensures flushed { result.fault ≡ None → K.flushed out.new }
    ensures notes { ReportsOf result.fault result.misses result.platforms.items
        (Some (in_words order.entry)) (S.contents source.old) blocks.now.listed.items
        (writing E.Sink notes.old notes.new) }
    ensures reads { LeavesReads result.fault (S.faults source.old) (S.faults source.new) }
    ensures writes { LeavesWrites result.fault (K.faults out.old) (K.faults out.new) }
{
    match own_run_of(order) {
        Some(run) => run_by_own_clocks(rt, alloc, run, source, out, notes, clocks, blocks),
        None => answer(alloc, order, source, out, notes, blocks),
    }
}

/// Runs the graph in a file by clocks of its own.
fn run_by_own_clocks<S: Source, K: Sink, E: Sink, C: Clock + Send, R: Threads + Wait + Sync>(
    rt: &R,
    alloc: Global,
    run: OwnRun,
    source: &mut S,
    out: &mut K,
    notes: &mut E,
    clocks: &mut Vec<C>,
    blocks: &Blocks,
) -> Ending
    requires clocks { length clocks.old.items ≡ 16 }
    requires few { run.graph.claims ≤ greatest_claims }
    ensures status { result.status ≡ status_of result.fault result.misses }
    ensures asks { AsksFrom result.fault (S.contents source.old) blocks.now.listed.items
        (file_in run.entry.graph) (λ g. g.actors) [] (S.asked source.old) (S.asked source.new) }
    ensures due { IsDue (Some (over (command_of run.entry) (file_in run.entry.graph)))
        (S.contents source.old) blocks.now.listed.items
        (as_answer result.fault
        (left_over result (command_of run.entry) (viewed C.readings C.ahead clocks.old.items)
        (viewed C.readings C.ahead clocks.new.items))
        (reading S.Source source.old source.new)
        (writing K.Sink out.old out.new)) }
    ensures clocks { result.fault ≢ Some Memory →
        AreBackFor (command_of run.entry) result.fault clocks.old.items clocks.new.items }
    ensures flushed { result.fault ≡ None → K.flushed out.new }
    ensures notes { ReportsBy result.fault result.misses result.platforms.items
        (Some (command_of run.entry, file_in run.entry.graph))
        (S.contents source.old) blocks.now.listed.items
        (writing E.Sink notes.old notes.new) }
    ensures reads { LeavesReads result.fault (S.faults source.old) (S.faults source.new) }
    ensures writes { LeavesWrites result.fault (K.faults out.old) (K.faults out.new) }
{
    match graph_at(alloc, source, run.graph, blocks) {
        Ok(graph) => {
            run_graph(
                rt,
                alloc,
                run.workers,
                run.clock,
                run.log,
                graph,
                source,
                out,
                notes,
                clocks,
                blocks,
            )
        }
        Err(fault) => {
            let fault = report(alloc, notes, fault, None);
            Ending::refused(alloc, fault)
        }
    }
}
