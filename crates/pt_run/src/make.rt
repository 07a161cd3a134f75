//! The command `make`.

ghost use Rattle.std.specs.Prelude.{◌≡◌, ◌≤◌, IfOk, None, Some, string_bytes};
ghost use Rattle.std.specs.Arc.{arc_value};
ghost use Rattle.pt_io.specs.Calls.{Contents, SourceCall, writing};
ghost use Rattle.pt_offsets.specs.Plans.{IsAdmitted};
ghost use Rattle.pt_causality.specs.Ranked.{level_of};
ghost use Rattle.pt_sensors.specs.Places.{of_run};
ghost use Rattle.pt_rounds.specs.Outcome.{IsOutcome as IsPacedOutcome};
ghost use Rattle.pt_make.specs.Input.{made_graph as graph_made, made_rows as rows_made};
ghost use Rattle.pt_run.specs.Statuses.{status_of};
ghost use Rattle.pt_run.specs.Due.{IsDue, answer_by};
ghost use Rattle.pt_run.specs.Making.{IsMadeRun};
ghost use Rattle.pt_run.specs.Reporting.{Reports};
ghost use Rattle.pt_run.specs.Texts.{left_by};
ghost use Rattle.pt_words.specs.Grammar.{make as to_make};
ghost use Rattle.pt_run.specs.Counts.{LeavesWrites};

use crate::fault::{Fault, fault_of_plan};
use crate::notes::{report, report_write};
use crate::outcome::Ending;
use crate::outputs::put_text;
use pt_blocks::Blocks;
use pt_confluence::gather;
use pt_engine::Rounds;
use pt_io::Sink;
use pt_make::{made_graph, made_rows, summary};
use pt_monitors::missed;
use pt_offsets::{Plan, Unplanned, plan_of};
use pt_rounds::paced;
use pt_tags::Memory;
use pt_turn::{Platform, open_all};
use std::alloc::Global;
use std::sync::Arc;

/// A run over a made input: its summary and its platforms.
#[derive(Drop)]
struct MadeRun {
    summary: String,
    platforms: Vec<Platform>,
}

/// Makes an input from a number, runs it under the paced clock, and writes the summary.
///
/// Reads no file. The input can run, its rows are in time, and no run over it is too long or misses anything, so only a
/// failed write or running out of memory is a fault. The number of workers, 1 to 64, has no effect.
pub fn make<K: Sink, E: Sink>(
    alloc: Global,
    number: u32,
    workers: u32,
    out: &mut K,
    notes: &mut E,
    blocks: &Blocks,
) -> Ending
    requires { number ≤ 100 }
    ensures status { result.status ≡ status_of result.fault result.misses }
    ensures due { (contents : Contents) (r : SourceCall) →
        IsDue (Some (to_make number workers)) contents blocks.now.listed.items
        (answer_by result r (writing K.Sink out.old out.new)) }
    ensures flushed { result.fault ≡ None → K.flushed out.new }
    ensures notes { Reports result.fault result.misses None
        (writing E.Sink notes.old notes.new) }
    ensures writes { LeavesWrites result.fault (K.faults out.old) (K.faults out.new) }
{
    let Ok(MadeRun { summary, platforms }) = run_made(alloc, number, workers, blocks) else {
        let fault = report(alloc, notes, Fault::Memory, None);
        return Ending::refused(alloc, fault);
    };
    if put_text(out, summary.as_str().as_bytes()).is_err() {
        report_write(notes);
        return Ending::stopped(alloc, Fault::Write, platforms);
    }
    Ending::done(Vec::new(alloc), platforms)
}

/// Runs the input made from a number.
fn run_made(alloc: Global, number: u32, workers: u32, blocks: &Blocks) -> Result<MadeRun, Memory>
    requires { number ≤ 100 }
    ensures { IfOk result
        (λ made. IsMadeRun number made.platforms.items (string_bytes made.summary)) }
{
    let plan = made_plan(alloc, number)?;
    let plan = Arc::new(alloc, plan)?;
    let platforms = made_platforms(alloc, &plan, number, workers, blocks)?;
    let misses = missed(alloc, platforms.as_slice())?;
    let firings = gather(alloc, &plan, platforms.as_slice())?;
    let summary = summary(alloc, number, &firings, misses.len())?;
    Ok(MadeRun { summary, platforms })
}

/// The plan of the graph made from a number. Each of its cycles takes time, and each sender can send in time.
fn made_plan(alloc: Global, number: u32) -> Result<Plan, Memory>
    requires { number ≤ 100 }
    ensures graph { IfOk result (λ plan. plan.graph ≡ graph_made number) }
    ensures admitted { IfOk result IsAdmitted }
{
    let graph = made_graph(alloc, number)?;
    match plan_of(alloc, graph) {
        Ok(plan) => Ok(plan),
        Err(Unplanned { graph: _, fault }) => match fault_of_plan(fault) {
            Fault::Memory => Err(Memory),
            _ => unreachable!(),
        },
    }
}

/// The platforms of that plan after a paced run over the rows made from the number: all are finished.
fn made_platforms(
    alloc: Global,
    plan: &Arc<Plan>,
    number: u32,
    workers: u32,
    blocks: &Blocks,
) -> Result<Vec<Platform>, Memory>
    requires few { number ≤ 100 }
    requires graph { (arc_value plan.now).graph ≡ graph_made number }
    requires admitted { IsAdmitted (arc_value plan.now) }
    ensures { IfOk result
        (λ platforms. IsPacedOutcome (arc_value plan.now) (level_of (arc_value plan.now).ranks)
        (of_run (graph_made number) (rows_made number)) platforms.items None) }
{
    let entries = made_rows(alloc, number)?;
    let platforms = open_all(alloc, plan, entries)?;
    let Rounds { platforms, fault } = paced(alloc, platforms, blocks, workers)?;
    let Some(_) = fault else {
        return Ok(platforms);
    };
    // It would mean that a platform made all its claims, which none does.
    unreachable!()
}
