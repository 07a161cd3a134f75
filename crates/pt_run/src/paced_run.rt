//! A run by the paced clock. It goes as one by another clock does (`run`), but returns.

ghost use Rattle.std.specs.Prelude.{◌≡◌, [], IfErr, IfOk, None, Some};
ghost use Rattle.std.specs.Arc.{arc_value};
ghost use Rattle.pt_io.specs.Calls.{reading, writing};
ghost use Rattle.pt_types.specs.Lawful.{IsLawful};
ghost use Rattle.pt_words.specs.declared.orders.ClockChoice.TheVariants.{Paced};
ghost use Rattle.pt_words.specs.declared.orders.Command.TheVariants.{Run};
ghost use Rattle.pt_run.specs.Asks.{AsksOver};
ghost use Rattle.pt_run.specs.Due.{IsDueFor, UnlessMemory, answer_by};
ghost use Rattle.pt_run.specs.Reporting.{Reports};
ghost use Rattle.pt_run.specs.Runs.{CauseOfStop, HasOutputs, paced_run_clocks};
ghost use Rattle.pt_run.specs.Statuses.{status_of};
ghost use Rattle.pt_run.specs.Texts.{stop_in};
ghost use Rattle.pt_run.specs.Counts.{LeavesReads, LeavesWrites};

use crate::admission::{opened_of, planned};
use crate::engines::run_paced;
use crate::fault::Fault;
use crate::outcome::{Ending, Stopped};
use crate::outputs::{Outputs, end_run, outputs_of};
use pt_blocks::Blocks;
use pt_io::{Sink, Source};
use pt_offsets::Plan;
use pt_tags::Memory;
use pt_types::Graph;
use std::alloc::Global;
use std::sync::Arc;

/// Runs a graph over the files of its sensors by the paced clock. The number of workers, 1 to 64, has no effect.
pub fn run_paced_graph<S: Source, K: Sink, E: Sink>(
    alloc: Global,
    workers: u32,
    log: bool,
    graph: Graph,
    source: &mut S,
    out: &mut K,
    notes: &mut E,
    blocks: &Blocks,
) -> Ending
    requires { IsLawful graph }
    ensures status { result.status ≡ status_of result.fault result.misses }
    ensures asks { AsksOver result.fault [] graph.actors [] (S.asked source.old)
        (S.asked source.new) }
    ensures due { UnlessMemory
        (answer_by result (reading S.Source source.old source.new) (writing K.Sink out.old out.new))
        (IsDueFor (Run workers Paced log) (S.contents source.old) graph []) }
    ensures flushed { result.fault ≡ None → K.flushed out.new }
    ensures notes { Reports result.fault result.misses (Some graph)
        (writing E.Sink notes.old notes.new) }
    ensures reads { LeavesReads result.fault (S.faults source.old) (S.faults source.new) }
    ensures writes { LeavesWrites result.fault (K.faults out.old) (K.faults out.new) }
{
    let plan = match planned(alloc, graph, notes) {
        Ok(plan) => plan,
        Err(ending) => return ending,
    };
    let ran = run_paced_plan(alloc, &plan, workers, log, source, blocks);
    end_run(alloc, plan.graph(), ran, out, notes)
}

/// Runs a plan over the files of its sensors by the paced clock, and returns its outputs.
fn run_paced_plan<S: Source>(
    alloc: Global,
    plan: &Arc<Plan>,
    workers: u32,
    log: bool,
    source: &mut S,
    blocks: &Blocks,
) -> Result<Outputs, Stopped>
    ensures ran { IfOk result
        (HasOutputs (S.contents source.old) (paced_run_clocks workers) (arc_value plan.now) log) }
    ensures stopped { IfErr result
        (λ s. CauseOfStop s (S.contents source.old) (paced_run_clocks workers) (arc_value plan.now)
        (reading S.Source source.old source.new)) }
    ensures asks { AsksOver (stop_in result) [] (arc_value plan.now).graph.actors []
        (S.asked source.old) (S.asked source.new) }
    ensures reads { LeavesReads (stop_in result) (S.faults source.old) (S.faults source.new) }
{
    let platforms = match opened_of(alloc, plan, source) {
        Ok(platforms) => platforms,
        Err(fault) => return Err(Stopped::with_nothing(alloc, fault)),
    };
    match run_paced(alloc, platforms, blocks, workers) {
        Ok(rounds) => outputs_of(alloc, plan, rounds, log, None),
        Err(Memory) => Err(Stopped::with_nothing(alloc, Fault::Memory)),
    }
}
