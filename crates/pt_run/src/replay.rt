//! The command `replay`.

ghost use Rattle.std.specs.Prelude.{◌≡◌, ◌≤◌, [], ◌∷◌, IfErr, IfOk, None, Some, flat_map, length, string_bytes};
ghost use Rattle.std.specs.Arc.{arc_value};
ghost use Rattle.pt_io.specs.Calls.{reading, writing};
ghost use Rattle.pt_types.specs.Lawful.{IsLawful};
ghost use Rattle.pt_semantics.specs.Rows.{FitRows};
ghost use Rattle.pt_causality.specs.Ranked.{level_of};
ghost use Rattle.pt_offsets.specs.Plans.{IsAdmitted};
ghost use Rattle.pt_sensors.specs.Listed.{rows_for};
ghost use Rattle.pt_sensors.specs.Places.{StandInPlace, of_run};
ghost use Rattle.pt_tables.specs.Misses.{miss_line};
ghost use Rattle.pt_replay.specs.Outcome.{IsOutcome as IsReplayOutcome};
ghost use Rattle.pt_run.specs.Asks.{AsksFrom, AsksOver};
ghost use Rattle.pt_run.specs.Due.{AfterAdmission, AfterAir, IsDue, IsReplayed, RefusesAsDue, StopsAsDue, UnlessMemory, answer_by};
ghost use Rattle.pt_run.specs.Replaying.{HasReplayed, IsRecorded};
ghost use Rattle.pt_run.specs.Reporting.{Reports, ReportsBy, paced_run};
ghost use Rattle.pt_run.specs.Statuses.{status_of};
ghost use Rattle.pt_run.specs.Texts.{fault_in, left_by, stop_in};
ghost use Rattle.pt_words.specs.Grammar.{replay as to_replay};
ghost use Rattle.pt_words.specs.Views.{file_in};
ghost use Rattle.pt_types.specs.Limits.{greatest_claims};
ghost use Rattle.pt_run.specs.Counts.{LeavesReads, LeavesWrites};

use crate::admission::{graph_at, planned};
use crate::fault::{Fault, fault_of_air};
use crate::last_file::{LastFile, RowsAndBytes, fetched};
use crate::notes::report;
use crate::outcome::{Ending, Stopped};
use crate::outputs::{Outputs, end_run, outputs_of};
use pt_air::read_air;
use pt_blocks::Blocks;
use pt_engine::Rounds;
use pt_io::{Sink, Source};
use pt_offsets::Plan;
use pt_replay::replayed;
use pt_sensors::SensorRows;
use pt_tags::Memory;
use pt_turn::open_all;
use pt_types::{Air, Graph};
use pt_words::GraphFile;
use std::alloc::Global;
use std::sync::Arc;

/// The rows of a plan's sensors, and the recording of its network.
#[derive(Drop)]
struct Inputs {
    entries: Vec<SensorRows>,
    air: Air,
}

/// Runs the graph in this file over the files of its sensors, with the lags of clocks and the transits of messages
/// that the file `air` says, in microseconds, and writes the tables of its actuators and, if `log` is true, its log.
///
/// No clock is read. Before the file `air`, the graph file and the sensors' files are read and refused as in a paced run, late rows
/// included. Then the fault is `ReadAir` or `Air` for that file, `LateAir` for a message that was late, `Long` for a platform that
/// needed too many claims, `Write` or `Memory`. Nothing depends on the number of workers, 1 to 64.
pub fn replay<S: Source, K: Sink, E: Sink>(
    alloc: Global,
    graph_file: GraphFile,
    air: &str,
    workers: u32,
    log: bool,
    source: &mut S,
    out: &mut K,
    notes: &mut E,
    blocks: &Blocks,
) -> Ending
    requires { graph_file.claims ≤ greatest_claims }
    ensures status { result.status ≡ status_of result.fault result.misses }
    ensures asks { AsksFrom result.fault (S.contents source.old) blocks.now.listed.items
        (file_in graph_file.entry) (λ g. g.actors) (air.now ∷ []) (S.asked source.old)
        (S.asked source.new) }
    ensures due { IsDue (Some (to_replay (file_in graph_file.entry) air.now workers log))
        (S.contents source.old) blocks.now.listed.items
        (answer_by result (reading S.Source source.old source.new)
        (writing K.Sink out.old out.new)) }
    ensures flushed { result.fault ≡ None → K.flushed out.new }
    ensures notes { ReportsBy result.fault result.misses result.platforms.items
        (Some (paced_run, file_in graph_file.entry)) (S.contents source.old) blocks.now.listed.items
        (writing E.Sink notes.old notes.new) }
    ensures reads { LeavesReads result.fault (S.faults source.old) (S.faults source.new) }
    ensures writes { LeavesWrites result.fault (K.faults out.old) (K.faults out.new) }
{
    match graph_at(alloc, source, graph_file, blocks) {
        Ok(graph) => replay_graph(alloc, graph, air, workers, log, source, out, notes, blocks),
        Err(fault) => {
            let fault = report(alloc, notes, fault, None);
            Ending::refused(alloc, fault)
        }
    }
}

/// Replays a graph with the recording in the file `air`.
fn replay_graph<S: Source, K: Sink, E: Sink>(
    alloc: Global,
    graph: Graph,
    air: &str,
    workers: u32,
    log: bool,
    source: &mut S,
    out: &mut K,
    notes: &mut E,
    blocks: &Blocks,
) -> Ending
    requires { IsLawful graph }
    ensures status { result.status ≡ status_of result.fault result.misses }
    ensures asks { AsksOver result.fault [] graph.actors (air.now ∷ []) (S.asked source.old)
        (S.asked source.new) }
    ensures due { UnlessMemory
        (answer_by result (reading S.Source source.old source.new) (writing K.Sink out.old out.new))
        (IsReplayed air.now log (S.contents source.old) graph []) }
    ensures flushed { result.fault ≡ None → K.flushed out.new }
    ensures notes { Reports result.fault result.misses (Some graph)
        (writing E.Sink notes.old notes.new) }
    ensures reads { LeavesReads result.fault (S.faults source.old) (S.faults source.new) }
    ensures writes { LeavesWrites result.fault (K.faults out.old) (K.faults out.new) }
{
    let plan = match planned(alloc, graph, notes) {
        Ok(plan) => plan,
        Err(ending) => return ending,
    };
    let ran = replay_of(alloc, &plan, air, workers, log, source, blocks);
    end_run(alloc, plan.graph(), ran, out, notes)
}

/// Replays a plan over the files of its sensors with the recording in the file `air`.
fn replay_of<S: Source>(
    alloc: Global,
    plan: &Arc<Plan>,
    air: &str,
    workers: u32,
    log: bool,
    source: &mut S,
    blocks: &Blocks,
) -> Result<Outputs, Stopped>
    ensures ran { IfOk result
        (HasReplayed (S.contents source.old) air.now (arc_value plan.now) log) }
    ensures lines { IfOk result
        (λ ran. string_bytes ran.lines ≡ flat_map
        (miss_line (arc_value plan.now).graph) ran.misses.items) }
    ensures stopped { IfErr result (λ s. StopsAsDue s.fault s.platforms.items
        (reading S.Source source.old source.new)
        (IsReplayed air.now log (S.contents source.old) (arc_value plan.now).graph [])) }
    ensures asks { AsksOver (stop_in result) [] (arc_value plan.now).graph.actors (air.now ∷ [])
        (S.asked source.old) (S.asked source.new) }
    ensures reads { LeavesReads (stop_in result) (S.faults source.old) (S.faults source.new) }
{
    let Inputs { entries, air } = match read_inputs(alloc, plan, air, source) {
        Ok(inputs) => inputs,
        Err(fault) => return Err(Stopped::with_nothing(alloc, fault)),
    };
    match run_over_air(alloc, plan, entries, &air, workers, blocks) {
        Ok(rounds) => outputs_of(alloc, plan, rounds, log, air.breach),
        Err(Memory) => Err(Stopped::with_nothing(alloc, Fault::Memory)),
    }
}

/// Reads the rows of a plan's sensors and then the file `air`.
fn read_inputs<S: Source>(
    alloc: Global,
    plan: &Arc<Plan>,
    air: &str,
    source: &mut S,
) -> Result<Inputs, Fault>
    ensures recorded { IfOk result
        (λ found. IsRecorded (S.contents source.old) air.now
        (arc_value plan.now) found.entries.items found.air) }
    ensures refused { IfErr result (λ f. RefusesAsDue f
        (reading S.Source source.old source.new)
        (λ a. AfterAdmission (S.contents source.old) (arc_value plan.now).graph [] a
        (λ p rows. AfterAir air.now (S.contents source.old) (arc_value plan.now).graph [] a ⊥))) }
    ensures asks { AsksOver (fault_in result) [] (arc_value plan.now).graph.actors (air.now ∷ [])
        (S.asked source.old) (S.asked source.new) }
    ensures reads { LeavesReads (fault_in result) (S.faults source.old) (S.faults source.new) }
{
    let RowsAndBytes { entries, bytes } = match fetched(alloc, plan, LastFile::Air, air, source) {
        Ok(found) => found,
        Err(fault) => return Err(fault),
    };
    match read_air(alloc, bytes.as_slice(), plan.graph()) {
        Ok(air) => Ok(Inputs { entries, air }),
        Err(fault) => Err(fault_of_air(fault)),
    }
}

/// Runs a plan over these rows with these lags and transits.
fn run_over_air(
    alloc: Global,
    plan: &Arc<Plan>,
    entries: Vec<SensorRows>,
    air: &Air,
    workers: u32,
    blocks: &Blocks,
) -> Result<Rounds, Memory>
    requires admitted { IsAdmitted (arc_value plan.now) }
    requires places { StandInPlace (arc_value plan.now).graph entries.items }
    requires fit { FitRows (arc_value plan.now).graph
        (of_run (arc_value plan.now).graph (rows_for entries.items)) }
    requires transits { length air.now.transits ≡ length (arc_value plan.now).graph.links }
    ensures { IfOk result
        (λ rounds. IsReplayOutcome (arc_value plan.now) (level_of (arc_value plan.now).ranks)
        (of_run (arc_value plan.now).graph
        (rows_for entries.items)) air.now rounds.platforms.items rounds.fault) }
{
    let platforms = open_all(alloc, plan, entries)?;
    replayed(alloc, platforms, air, blocks, workers)
}
