//! The command `audit`.

ghost use Rattle.std.specs.Prelude.{◌≡◌, ◌≤◌, ◌↔◌, [], ◌∷◌, ℕ, IfOk, List, None, Some, true};
ghost use Rattle.std.specs.Arc.{arc_value};
ghost use Rattle.pt_io.specs.Calls.{reading, writing};
ghost use Rattle.pt_types.specs.Lawful.{IsLawful};
ghost use Rattle.pt_types.specs.declared.rows.Row.{Row};
ghost use Rattle.pt_semantics.specs.Rows.{FitRows};
ghost use Rattle.pt_offsets.specs.Plans.{IsAdmitted};
ghost use Rattle.pt_sensors.specs.Listed.{rows_for};
ghost use Rattle.pt_sensors.specs.Places.{StandInPlace, of_run};
ghost use Rattle.pt_confluence.specs.Gathered.{AreTables, HaveFinished};
ghost use Rattle.pt_run.specs.Asks.{AsksFrom, AsksOver};
ghost use Rattle.pt_run.specs.Auditing.{IsJudged, lawful_line};
ghost use Rattle.pt_run.specs.Due.{AnswersAsDue, IsAudited, IsDue, UnlessMemory, answer_by};
ghost use Rattle.pt_run.specs.Statuses.{status_of};
ghost use Rattle.pt_run.specs.Reporting.{Reports, ReportsBy, paced_run};
ghost use Rattle.pt_run.specs.Texts.{PutsOrReports, fault_in, left_by};
ghost use Rattle.pt_words.specs.Grammar.{audit as to_audit};
ghost use Rattle.pt_words.specs.Views.{file_in};
ghost use Rattle.pt_types.specs.Limits.{greatest_claims};
ghost use Rattle.pt_run.specs.Counts.{LeavesReads, LeavesWrites};

use crate::admission::{graph_at, planned};
use crate::fault::Fault;
use crate::last_file::{LastFile, RowsAndBytes, fetched};
use crate::notes::{report, report_write};
use crate::outcome::Ending;
use crate::outputs::put_text;
use pt_audit::{Verdict, Verification, verify};
use pt_blocks::Blocks;
use pt_confluence::tables_of;
use pt_io::{Sink, Source};
use pt_offsets::Plan;
use pt_sensors::SensorRows;
use pt_tags::Memory;
use pt_turn::Platform;
use pt_types::Graph;
use pt_words::GraphFile;
use std::alloc::Global;
use std::sync::Arc;

/// Judges whether the file `log` is what a run of the graph in this file writes, with the log, whatever its
/// clock and its workers; if it is, writes the line `lawful`.
///
/// No clock is read. Before the log, the graph file and the sensors' files are read and refused as in a run, late rows
/// included.
pub fn audit<S: Source, K: Sink, E: Sink>(
    alloc: Global,
    graph_file: GraphFile,
    log: &str,
    source: &mut S,
    out: &mut K,
    notes: &mut E,
    blocks: &Blocks,
) -> Ending
    requires { graph_file.claims ≤ greatest_claims }
    ensures status { result.status ≡ status_of result.fault result.misses }
    ensures asks { AsksFrom result.fault (S.contents source.old) blocks.now.listed.items
        (file_in graph_file.entry) (λ g. g.actors) (log.now ∷ []) (S.asked source.old)
        (S.asked source.new) }
    ensures due { IsDue (Some (to_audit (file_in graph_file.entry) log.now))
        (S.contents source.old) blocks.now.listed.items
        (answer_by result (reading S.Source source.old source.new)
        (writing K.Sink out.old out.new)) }
    ensures flushed { result.fault ≡ None → K.flushed out.new }
    ensures notes { ReportsBy result.fault result.misses result.platforms.items
        (Some (paced_run, file_in graph_file.entry)) (S.contents source.old) blocks.now.listed.items
        (writing E.Sink notes.old notes.new) }
    ensures reads { LeavesReads result.fault (S.faults source.old) (S.faults source.new) }
    ensures writes { LeavesWrites result.fault (K.faults out.old) (K.faults out.new) }
{
    match graph_at(alloc, source, graph_file, blocks) {
        Ok(graph) => audit_graph(alloc, graph, log, source, out, notes, blocks),
        Err(fault) => {
            let fault = report(alloc, notes, fault, None);
            Ending::refused(alloc, fault)
        }
    }
}

/// Judges a log of this graph.
fn audit_graph<S: Source, K: Sink, E: Sink>(
    alloc: Global,
    graph: Graph,
    log: &str,
    source: &mut S,
    out: &mut K,
    notes: &mut E,
    blocks: &Blocks,
) -> Ending
    requires { IsLawful graph }
    ensures status { result.status ≡ status_of result.fault result.misses }
    ensures asks { AsksOver result.fault [] graph.actors (log.now ∷ []) (S.asked source.old)
        (S.asked source.new) }
    ensures due { UnlessMemory
        (answer_by result (reading S.Source source.old source.new) (writing K.Sink out.old out.new))
        (IsAudited log.now (S.contents source.old) graph []) }
    ensures flushed { result.fault ≡ None → K.flushed out.new }
    ensures notes { Reports result.fault result.misses (Some graph)
        (writing E.Sink notes.old notes.new) }
    ensures reads { LeavesReads result.fault (S.faults source.old) (S.faults source.new) }
    ensures writes { LeavesWrites result.fault (K.faults out.old) (K.faults out.new) }
{
    let plan = match planned(alloc, graph, notes) {
        Ok(plan) => plan,
        Err(ending) => return ending,
    };
    let judged = judge(alloc, &plan, log, source, blocks);
    end_audit(alloc, plan.graph(), judged, out, notes)
}

/// Reads the rows of a plan's sensors and then the log, and says why the log is refused, if it is.
fn judge<S: Source>(
    alloc: Global,
    plan: &Arc<Plan>,
    log: &str,
    source: &mut S,
    blocks: &Blocks,
) -> Result<(), Fault>
    ensures due { AnswersAsDue (λ unit. lawful_line) result
        (reading S.Source source.old source.new)
        (IsAudited log.now (S.contents source.old) (arc_value plan.now).graph []) }
    ensures asks { AsksOver (fault_in result) [] (arc_value plan.now).graph.actors (log.now ∷ [])
        (S.asked source.old) (S.asked source.new) }
    ensures reads { LeavesReads (fault_in result) (S.faults source.old) (S.faults source.new) }
{
    let RowsAndBytes { entries, bytes } = match fetched(alloc, plan, LastFile::Log, log, source) {
        Ok(found) => found,
        Err(fault) => return Err(fault),
    };
    let verdict = match verdict_on(alloc, plan, entries, blocks, bytes.as_slice()) {
        Ok(verdict) => verdict,
        Err(Memory) => return Err(Fault::Memory),
    };
    match verdict {
        Verdict::Fine => Ok(()),
        _ => Err(Fault::Unlawful(verdict)),
    }
}

/// The verdict on a file: whether it is a lawful log of this plan over these rows, its tables included.
fn verdict_on(
    alloc: Global,
    plan: &Arc<Plan>,
    entries: Vec<SensorRows>,
    blocks: &Blocks,
    bytes: &[u8],
) -> Result<Verdict, Memory>
    requires admitted { IsAdmitted (arc_value plan.now) }
    requires places { StandInPlace (arc_value plan.now).graph entries.items }
    requires fit { FitRows (arc_value plan.now).graph
        (of_run (arc_value plan.now).graph (rows_for entries.items)) }
    ensures { IfOk result
        (IsJudged (arc_value plan.now)
        (of_run (arc_value plan.now).graph (rows_for entries.items)) bytes.now) }
{
    let Verification {
        verdict,
        log_at,
        platforms,
    } = verify(alloc, plan, entries, blocks, bytes)?;
    match verdict {
        Verdict::Fine => {
            if are_tables(alloc, plan, platforms.as_slice(), &bytes[..log_at])? {
                Ok(Verdict::Fine)
            } else {
                Ok(Verdict::Table)
            }
        }
        _ => Ok(verdict),
    }
}

/// Whether a text is the tables of finished platforms.
fn are_tables(
    alloc: Global,
    plan: &Plan,
    platforms: &[Platform],
    text: &[u8],
) -> Result<bool, Memory>
    ensures { IfOk result
        (λ same. (rows : ℕ → List Row) → HaveFinished plan.now rows platforms.now →
        (same ≡ true) ↔ AreTables plan.now rows text.now) }
{
    let tables = tables_of(alloc, plan, platforms)?;
    Ok(tables.as_str().as_bytes() == text)
}

/// Writes that a log is lawful, or reports why it is refused.
fn end_audit<K: Sink, E: Sink>(
    alloc: Global,
    graph: &Graph,
    judged: Result<(), Fault>,
    out: &mut K,
    notes: &mut E,
) -> Ending
    ensures status { result.status ≡ status_of result.fault result.misses }
    ensures gives { PutsOrReports (λ unit. lawful_line) judged result
        (writing K.Sink out.old out.new) }
    ensures flushed { result.fault ≡ None → K.flushed out.new }
    ensures notes { Reports result.fault result.misses (Some graph.now)
        (writing E.Sink notes.old notes.new) }
    ensures writes { LeavesWrites result.fault (K.faults out.old) (K.faults out.new) }
{
    if let Err(fault) = judged {
        let fault = report(alloc, notes, fault, Some(graph));
        return Ending::refused(alloc, fault);
    }
    if put_text(out, b"lawful\n").is_err() {
        report_write(notes);
        return Ending::refused(alloc, Fault::Write);
    }
    Ending::done(Vec::new(alloc), Vec::new(alloc))
}
