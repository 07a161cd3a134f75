//! What comes before a run: the graph file is read, the graph is planned, and its platforms are opened with the rows of its sensors.

ghost use Rattle.std.specs.Prelude.{◌≡◌, ◌≤◌, ◌<◌, IfOk, IfErr, Ok, Some, [], ◌∷◌, length};
ghost use Rattle.std.specs.Arc.{arc_value};
ghost use Rattle.pt_io.specs.Calls.{reading, writing};
ghost use Rattle.pt_types.specs.Lawful.{IsLawful};
ghost use Rattle.pt_types.specs.Limits.{greatest_claims};
ghost use Rattle.pt_offsets.specs.Plans.{IsAdmitted};
ghost use Rattle.pt_sensor_files.specs.Asked.{Asks};
ghost use Rattle.pt_sensor_files.specs.Bytes.{OfBytes};
ghost use Rattle.pt_run.specs.Asks.{AsksAlone, AsksOver};
ghost use Rattle.pt_words.specs.Views.{file_in};
ghost use Rattle.pt_run.specs.GraphFiles.{IsGraphOf, graph_by};
ghost use Rattle.pt_run.specs.Due.{AfterCycles, AfterFile, AfterOffsets, EndsRefused, RefusesAsDue};
ghost use Rattle.pt_run.specs.Reporting.{Reports};
ghost use Rattle.pt_run.specs.Runs.{HasOpened, LacksRows};
ghost use Rattle.pt_run.specs.Statuses.{status_of};
ghost use Rattle.pt_run.specs.Texts.{fault_in};
ghost use Rattle.pt_run.specs.Counts.{LeavesReads};

use crate::fault::{Fault, fault_of_graph, fault_of_plan, fault_of_rows};
use crate::notes::report;
use crate::outcome::Ending;
use pt_blocks::Blocks;
use pt_graph::read_graph;
use pt_io::{FetchFault, Sink, Source};
use pt_offsets::{Plan, Unplanned, plan_of};
use pt_sensor_files::{LateRows, recorded};
use pt_tags::Memory;
use pt_turn::{Platform, open_all};
use pt_types::{Graph, MOST_GRAPH_BYTES};
use pt_words::GraphFile;
use std::alloc::Global;
use std::sync::Arc;

/// The graph in this file, in which a platform may make the file's number of claims.
pub fn graph_at<S: Source>(
    alloc: Global,
    source: &mut S,
    graph_file: GraphFile,
    blocks: &Blocks,
) -> Result<Graph, Fault>
    requires { graph_file.claims ≤ greatest_claims }
    ensures graph { IfOk result
        (λ g. OfBytes (S.contents source.old graph_file.entry.name.now)
        (λ bytes. graph_by blocks.now.listed.items (file_in graph_file.entry) bytes ≡ Ok g)) }
    ensures defined { IfOk result (IsGraphOf blocks.now.listed.items (file_in graph_file.entry)) }
    ensures lawful { IfOk result IsLawful }
    ensures refused { IfErr result (λ f. RefusesAsDue f
        (reading S.Source source.old source.new)
        (λ a. AfterFile (S.contents source.old) blocks.now.listed.items (file_in graph_file.entry) a
        (λ g. ⊥))) }
    ensures keeps { S.contents source.new ≡ S.contents source.old }
    ensures grows { S.faults source.old ≤ S.faults source.new }
    ensures asks { IfOk result
        (λ g. Asks (S.asked source.old) (S.asked source.new) (graph_file.entry.name.now ∷ [])) }
    ensures asks_alone { IfErr result
        (λ f. AsksAlone (Some f) (file_in graph_file.entry) (S.asked source.old)
        (S.asked source.new)) }
    ensures reads { LeavesReads (fault_in result) (S.faults source.old) (S.faults source.new) }
{
    let bytes = match source.fetch(alloc, graph_file.name, MOST_GRAPH_BYTES) {
        Ok(bytes) => bytes,
        Err(FetchFault::Failed) => return Err(Fault::Read { sensor: None }),
        Err(FetchFault::Memory) => return Err(Fault::Memory),
    };
    match read_graph(alloc, bytes.as_slice(), blocks) {
        Ok(mut graph) => {
            graph.claims = graph_file.claims;
            Ok(graph)
        }
        Err(fault) => Err(fault_of_graph(fault)),
    }
}

/// The plan of a graph; or how a run ends that has none, with its fault reported.
pub fn planned<E: Sink>(alloc: Global, graph: Graph, notes: &mut E) -> Result<Arc<Plan>, Ending>
    requires { IsLawful graph }
    ensures plan { IfOk result (λ plan. (arc_value plan).graph ≡ graph) }
    ensures admitted { IfOk result (λ plan. IsAdmitted (arc_value plan)) }
    ensures quiet { IfOk result
        (λ plan. (E.faults notes.new ≡ E.faults notes.old)
        × (E.written notes.new ≡ E.written notes.old)) }
    ensures status { IfErr result (λ o. o.status ≡ status_of o.fault o.misses) }
    ensures refused { IfErr result
        (λ o. EndsRefused o (λ a. AfterCycles graph a (AfterOffsets graph a ⊥))) }
    ensures notes { IfErr result (λ o. Reports o.fault o.misses (Some graph)
        (writing E.Sink notes.old notes.new)) }
{
    let plan = match plan_of(alloc, graph) {
        Ok(plan) => plan,
        Err(Unplanned { graph, fault }) => {
            let fault = report(alloc, notes, fault_of_plan(fault), Some(&graph));
            return Err(Ending::refused(alloc, fault));
        }
    };
    match Arc::new(alloc, plan) {
        Ok(plan) => Ok(plan),
        Err(_) => {
            let fault = report(alloc, notes, Fault::Memory, None);
            Err(Ending::refused(alloc, fault))
        }
    }
}

/// The platforms of a plan, opened with the rows of its sensors' files, none of which is late.
pub fn opened_of<S: Source>(
    alloc: Global,
    plan: &Arc<Plan>,
    source: &mut S,
) -> Result<Vec<Platform>, Fault>
    ensures some { IfOk result (λ platforms. 0 < length platforms.items) }
    ensures few { IfOk result (λ platforms. length platforms.items ≤ 16) }
    ensures opened { IfOk result
        (λ platforms. HasOpened (S.contents source.old) (arc_value plan.now) platforms.items) }
    ensures fault { IfErr result (λ f. LacksRows f (S.contents source.old) (arc_value plan.now)
        (reading S.Source source.old source.new)) }
    ensures asks { AsksOver (fault_in result) [] (arc_value plan.now).graph.actors []
        (S.asked source.old) (S.asked source.new) }
    ensures keeps { S.contents source.new ≡ S.contents source.old }
    ensures grows { S.faults source.old ≤ S.faults source.new }
    ensures reads { LeavesReads (fault_in result) (S.faults source.old) (S.faults source.new) }
{
    let entries = match recorded(alloc, source, plan.graph(), LateRows::Refused) {
        Ok(entries) => entries,
        Err(fault) => return Err(fault_of_rows(fault)),
    };
    match open_all(alloc, plan, entries) {
        Ok(platforms) => Ok(platforms),
        Err(Memory) => Err(Fault::Memory),
    }
}
