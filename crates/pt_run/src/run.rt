//! The command `run`: a graph is planned and its platforms are opened (`admission`), they run (`engines`), and their outputs are made
//! and put (`outputs`). By a clock of its own a run may wait: it may go on forever if the clock stops.

ghost use Rattle.std.specs.Prelude.{◌≡◌, ◌≢◌, [], IfErr, IfOk, None, Some, length};
ghost use Rattle.std.specs.Arc.{arc_value};
ghost use Rattle.pt_io.specs.Calls.{reading, writing};
ghost use Rattle.pt_io.specs.Clocks.{viewed};
ghost use Rattle.pt_types.specs.Lawful.{IsLawful};
ghost use Rattle.pt_words.specs.declared.orders.Command.TheVariants.{Run};
ghost use Rattle.pt_run.specs.declared.fault.Fault.TheVariants.{Memory as NoMemory};
ghost use Rattle.pt_run.specs.Asks.{AsksOver};
ghost use Rattle.pt_run.specs.Clocks.{AreBackBy};
ghost use Rattle.pt_run.specs.Due.{IsDueFor, UnlessMemory, as_answer};
ghost use Rattle.pt_run.specs.Prompt.{choice_of};
ghost use Rattle.pt_run.specs.Readings.{read_by};
ghost use Rattle.pt_run.specs.Reporting.{Reports};
ghost use Rattle.pt_run.specs.Runs.{CauseOfStop, HasOutputs, read_with};
ghost use Rattle.pt_run.specs.Statuses.{status_of};
ghost use Rattle.pt_run.specs.Texts.{left_with, stop_in};
ghost use Rattle.pt_run.specs.Counts.{LeavesReads, LeavesWrites};

use crate::admission::{opened_of, planned};
use crate::engines::run_by;
use crate::fault::Fault;
use crate::outcome::{Ending, Stopped};
use crate::outputs::{Outputs, end_run, outputs_of};
use crate::own_run::OwnClock;
use pt_blocks::Blocks;
use pt_io::{Clock, Sink, Source};
use pt_offsets::Plan;
use pt_tags::Memory;
use pt_types::Graph;
use std::alloc::Global;
use std::sync::{Arc, Wait};
use std::thread::Threads;

/// Runs a graph over the files of its sensors by this clock. By the machine's clock it has as many workers, 1 to 64, and reads the
/// first of the clocks that are handed in, one for each platform; by the other clocks the number has no effect.
pub fn run_graph<S: Source, K: Sink, E: Sink, C: Clock + Send, R: Threads + Wait + Sync>(
    rt: &R,
    alloc: Global,
    workers: u32,
    clock: OwnClock,
    log: bool,
    graph: Graph,
    source: &mut S,
    out: &mut K,
    notes: &mut E,
    clocks: &mut Vec<C>,
    blocks: &Blocks,
) -> Ending
    requires lawful { IsLawful graph }
    requires clocks { length clocks.old.items ≡ 16 }
    ensures status { result.status ≡ status_of result.fault result.misses }
    ensures asks { AsksOver result.fault [] graph.actors [] (S.asked source.old)
        (S.asked source.new) }
    ensures due { UnlessMemory
        (as_answer result.fault
        (left_with result (read_by (choice_of clock) (viewed C.readings C.ahead clocks.old.items))
        (read_by (choice_of clock) (viewed C.readings C.ahead clocks.new.items)))
        (reading S.Source source.old source.new)
        (writing K.Sink out.old out.new))
        (IsDueFor (Run workers (choice_of clock) log) (S.contents source.old) graph []) }
    ensures clocks { result.fault ≢ Some NoMemory →
        AreBackBy (choice_of clock) result.fault clocks.old.items clocks.new.items }
    ensures flushed { result.fault ≡ None → K.flushed out.new }
    ensures notes { Reports result.fault result.misses (Some graph)
        (writing E.Sink notes.old notes.new) }
    ensures reads { LeavesReads result.fault (S.faults source.old) (S.faults source.new) }
    ensures writes { LeavesWrites result.fault (K.faults out.old) (K.faults out.new) }
{
    let plan = match planned(alloc, graph, notes) {
        Ok(plan) => plan,
        Err(ending) => return ending,
    };
    let ran = run_plan(
        rt, alloc, &plan, workers, clock, log, source, clocks, blocks,
    );
    end_run(alloc, plan.graph(), ran, out, notes)
}

/// Runs a plan over the files of its sensors by this clock: reads their rows, visits the platforms until all are finished or
/// one has a fault, and returns their tables and, if asked for, a page for their log.
fn run_plan<S: Source, C: Clock + Send, R: Threads + Wait + Sync>(
    rt: &R,
    alloc: Global,
    plan: &Arc<Plan>,
    workers: u32,
    clock: OwnClock,
    log: bool,
    source: &mut S,
    clocks: &mut Vec<C>,
    blocks: &Blocks,
) -> Result<Outputs, Stopped>
    requires clocks { length clocks.old.items ≡ 16 }
    ensures ran { IfOk result
        (HasOutputs (S.contents source.old)
        (read_with workers (choice_of clock) (viewed C.readings C.ahead clocks.old.items)
        (viewed C.readings C.ahead clocks.new.items)) (arc_value plan.now) log) }
    ensures stopped { IfErr result
        (λ s. CauseOfStop s (S.contents source.old)
        (read_with workers (choice_of clock) (viewed C.readings C.ahead clocks.old.items)
        (viewed C.readings C.ahead clocks.new.items)) (arc_value plan.now)
        (reading S.Source source.old source.new)) }
    ensures clocks { stop_in result ≢ Some NoMemory →
        AreBackBy (choice_of clock) (stop_in result) clocks.old.items clocks.new.items }
    ensures asks { AsksOver (stop_in result) [] (arc_value plan.now).graph.actors []
        (S.asked source.old) (S.asked source.new) }
    ensures reads { LeavesReads (stop_in result) (S.faults source.old) (S.faults source.new) }
{
    let platforms = match opened_of(alloc, plan, source) {
        Ok(platforms) => platforms,
        Err(fault) => return Err(Stopped::with_nothing(alloc, fault)),
    };
    match run_by(rt, alloc, platforms, workers, clock, clocks, blocks) {
        Ok(rounds) => outputs_of(alloc, plan, rounds, log, None),
        Err(Memory) => Err(Stopped::with_nothing(alloc, Fault::Memory)),
    }
}
