//! The orders that are answered without waiting: all but runs by clocks of their own.

ghost use Rattle.std.specs.Prelude.{◌≡◌, ◌≤◌, ◌≢◌, ◌↔◌, None, Some, [], flat_map, string_bytes};
ghost use Rattle.pt_io.specs.Calls.{reading, writing};
ghost use Rattle.pt_types.specs.Lawful.{IsLawful};
ghost use Rattle.pt_types.specs.Limits.{greatest_claims};
ghost use Rattle.pt_monitors.specs.Platforms.{missed_by};
ghost use Rattle.pt_words.specs.Claims.{HasFewClaims};
ghost use Rattle.pt_words.specs.Grammar.{over};
ghost use Rattle.pt_words.specs.Views.{file_in, in_words};
ghost use Rattle.pt_run.specs.Asks.{AsksFrom, AsksOf, AsksOver, actors_for};
ghost use Rattle.pt_run.specs.Complete.{IsComplete, IsCompleteByAnyClock};
ghost use Rattle.pt_run.specs.Due.{IsDue, IsDueFor, UnlessMemory, answer_by};
ghost use Rattle.pt_run.specs.Exact.{IsExact};
ghost use Rattle.pt_run.specs.InBounds.{IsCompleteInBounds};
ghost use Rattle.pt_run.specs.Making.{ReportsOf};
ghost use Rattle.pt_run.specs.OverFiles.{HasHeadline};
ghost use Rattle.pt_run.specs.Prompt.{IsPrompt, IsPromptFor, MakesFew};
ghost use Rattle.pt_run.specs.Replaying.{IsReplayHeadline};
ghost use Rattle.pt_run.specs.Reporting.{Reports, ReportsBy};
ghost use Rattle.pt_run.specs.Statuses.{status_of};
ghost use Rattle.pt_run.specs.Texts.{PutsOrReports, left_by};
ghost use Rattle.pt_run.specs.Counts.{LeavesReads, LeavesWrites};

use crate::admission::graph_at;
use crate::audit::audit;
use crate::check::check_answer;
use crate::fault::Fault;
use crate::make::make;
use crate::meaning::meaning_answer;
use crate::migrate::migrate;
use crate::notes::{report, report_write};
use crate::outcome::Ending;
use crate::outputs::put_text;
use crate::paced_run::run_paced_graph;
use crate::replay::replay;
use crate::slacks::slacks_answer;
use pt_blocks::Blocks;
use pt_io::{Sink, Source};
use pt_types::Graph;
use pt_words::{Command, GraphFile, Order};
use std::alloc::Global;

/// Answers an order that is not a run by a clock of its own, as `ptides` does. It takes no handle that allows waiting, so it returns.
///
/// The order is as words ask for it: the claims of its graph file and the number of a `make` are in their bounds. The clauses are
/// those of `ptides` for such an order, by the same names; a run is by the paced clock.
pub fn answer<S: Source, K: Sink, E: Sink>(
    alloc: Global,
    order: Order,
    source: &mut S,
    out: &mut K,
    notes: &mut E,
    blocks: &Blocks,
) -> Ending
    requires prompt { IsPrompt (in_words order) }
    requires few { HasFewClaims (in_words order) }
    requires number { MakesFew (in_words order) }
    ensures status { result.status ≡ status_of result.fault result.misses }
    ensures asks { AsksOf result.fault (Some (in_words order.entry))
        (S.contents source.old) blocks.now.listed.items
        (reading S.Source source.old source.new) }
    ensures headline { HasHeadline result.fault (left_by result) (Some (in_words order.entry))
        (S.contents source.old) blocks.now.listed.items
        (writing K.Sink out.old out.new) }
    ensures replay_headline { IsReplayHeadline result.fault
        (left_by result) (Some (in_words order.entry)) (S.contents source.old) blocks.now.listed.items
        (writing K.Sink out.old out.new) }
    ensures missed { (result.status ≡ 5) ↔ ((result.fault ≡ None) × (result.misses ≢ [])) }
    ensures misses { result.fault ≡ None →
        result.misses ≡ flat_map missed_by result.platforms.items }
    ensures due { IsDue (Some (in_words order.entry))
        (S.contents source.old) blocks.now.listed.items
        (answer_by result (reading S.Source source.old source.new)
        (writing K.Sink out.old out.new)) }
    ensures exact { IsExact result.fault (Some (in_words order.entry))
        (S.contents source.old) blocks.now.listed.items }
    ensures complete { IsComplete result.status (Some (in_words order.entry))
        (S.contents source.old) blocks.now.listed.items
        (reading S.Source source.old source.new)
        (writing K.Sink out.old out.new) }
    ensures complete_in_bounds { IsCompleteInBounds result.status (Some (in_words order.entry))
        (S.contents source.old) blocks.now.listed.items
        (reading S.Source source.old source.new)
        (writing K.Sink out.old out.new) }
    ensures complete_by_any_clock { IsCompleteByAnyClock result.fault
        (left_by result) (Some (in_words order.entry)) (S.contents source.old) blocks.now.listed.items
        (reading S.Source source.old source.new)
        (writing K.Sink out.old out.new) }
    ensures reads { LeavesReads result.fault (S.faults source.old) (S.faults source.new) }
    ensures writes { LeavesWrites result.fault (K.faults out.old) (K.faults out.new) }
    ensures flushed { result.fault ≡ None → K.flushed out.new }
    ensures notes { ReportsOf result.fault result.misses result.platforms.items
        (Some (in_words order.entry)) (S.contents source.old) blocks.now.listed.items
        (writing E.Sink notes.old notes.new) }
{
    answer_order(alloc, order, source, out, notes, blocks)
}

/// Answers an order. The other clauses of `answer` follow from these.
fn answer_order<S: Source, K: Sink, E: Sink>(
    alloc: Global,
    order: Order,
    source: &mut S,
    out: &mut K,
    notes: &mut E,
    blocks: &Blocks,
) -> Ending
    requires prompt { IsPrompt (in_words order) }
    requires few { HasFewClaims (in_words order) }
    requires number { MakesFew (in_words order) }
    ensures status { result.status ≡ status_of result.fault result.misses }
    ensures asks { AsksOf result.fault (Some (in_words order.entry))
        (S.contents source.old) blocks.now.listed.items
        (reading S.Source source.old source.new) }
    ensures due { IsDue (Some (in_words order.entry))
        (S.contents source.old) blocks.now.listed.items
        (answer_by result (reading S.Source source.old source.new)
        (writing K.Sink out.old out.new)) }
    ensures flushed { result.fault ≡ None → K.flushed out.new }
    ensures notes { ReportsOf result.fault result.misses result.platforms.items
        (Some (in_words order.entry)) (S.contents source.old) blocks.now.listed.items
        (writing E.Sink notes.old notes.new) }
    ensures reads { LeavesReads result.fault (S.faults source.old) (S.faults source.new) }
    ensures writes { LeavesWrites result.fault (K.faults out.old) (K.faults out.new) }
{
    match order {
        Order::Over { command, graph } => {
            answer_file(alloc, command, graph, source, out, notes, blocks)
        }
        Order::Make { number, workers } => make(alloc, number, workers, out, notes, blocks),
        Order::Migrate { graph } => migrate(alloc, graph, source, out, notes, blocks),
        Order::Audit { graph, log } => audit(alloc, graph, log, source, out, notes, blocks),
        Order::Replay {
            graph,
            air,
            workers,
            log,
        } => replay(alloc, graph, air, workers, log, source, out, notes, blocks),
    }
}

/// Answers a command on the graph in this file.
fn answer_file<S: Source, K: Sink, E: Sink>(
    alloc: Global,
    command: Command,
    graph_file: GraphFile,
    source: &mut S,
    out: &mut K,
    notes: &mut E,
    blocks: &Blocks,
) -> Ending
    requires prompt { IsPromptFor command }
    requires few { graph_file.claims ≤ greatest_claims }
    ensures status { result.status ≡ status_of result.fault result.misses }
    ensures asks { AsksFrom result.fault (S.contents source.old) blocks.now.listed.items
        (file_in graph_file.entry) (actors_for command) [] (S.asked source.old)
        (S.asked source.new) }
    ensures due { IsDue (Some (over command (file_in graph_file.entry)))
        (S.contents source.old) blocks.now.listed.items
        (answer_by result (reading S.Source source.old source.new)
        (writing K.Sink out.old out.new)) }
    ensures flushed { result.fault ≡ None → K.flushed out.new }
    ensures notes { ReportsBy result.fault result.misses result.platforms.items
        (Some (command, file_in graph_file.entry)) (S.contents source.old) blocks.now.listed.items
        (writing E.Sink notes.old notes.new) }
    ensures reads { LeavesReads result.fault (S.faults source.old) (S.faults source.new) }
    ensures writes { LeavesWrites result.fault (K.faults out.old) (K.faults out.new) }
{
    match graph_at(alloc, source, graph_file, blocks) {
        Ok(graph) => answer_command(alloc, command, graph, source, out, notes, blocks),
        Err(fault) => {
            let fault = report(alloc, notes, fault, None);
            Ending::refused(alloc, fault)
        }
    }
}

/// Answers a command on a graph.
fn answer_command<S: Source, K: Sink, E: Sink>(
    alloc: Global,
    command: Command,
    graph: Graph,
    source: &mut S,
    out: &mut K,
    notes: &mut E,
    blocks: &Blocks,
) -> Ending
    requires prompt { IsPromptFor command }
    requires lawful { IsLawful graph }
    ensures status { result.status ≡ status_of result.fault result.misses }
    ensures asks { AsksOver result.fault [] (actors_for command graph) [] (S.asked source.old)
        (S.asked source.new) }
    ensures due { UnlessMemory
        (answer_by result (reading S.Source source.old source.new) (writing K.Sink out.old out.new))
        (IsDueFor command (S.contents source.old) graph []) }
    ensures flushed { result.fault ≡ None → K.flushed out.new }
    ensures notes { Reports result.fault result.misses (Some graph)
        (writing E.Sink notes.old notes.new) }
    ensures reads { LeavesReads result.fault (S.faults source.old) (S.faults source.new) }
    ensures writes { LeavesWrites result.fault (K.faults out.old) (K.faults out.new) }
{
    match command {
        Command::Run {
            workers,
            clock: _,
            log,
        } => run_paced_graph(alloc, workers, log, graph, source, out, notes, blocks),
        Command::Check => {
            let answer = check_answer(alloc, &graph);
            put_answer(alloc, answer, &graph, out, notes)
        }
        Command::Meaning => {
            let answer = meaning_answer(alloc, source, &graph);
            put_answer(alloc, answer, &graph, out, notes)
        }
        Command::Slacks => {
            let answer = slacks_answer(alloc, &graph);
            put_answer(alloc, answer, &graph, out, notes)
        }
    }
}

/// Puts a text on `out`, or reports its fault.
fn put_answer<K: Sink, E: Sink>(
    alloc: Global,
    answer: Result<String, Fault>,
    graph: &Graph,
    out: &mut K,
    notes: &mut E,
) -> Ending
    ensures status { result.status ≡ status_of result.fault result.misses }
    ensures gives { PutsOrReports string_bytes answer result
        (writing K.Sink out.old out.new) }
    ensures flushed { result.fault ≡ None → K.flushed out.new }
    ensures notes { Reports result.fault result.misses (Some graph.now)
        (writing E.Sink notes.old notes.new) }
    ensures writes { LeavesWrites result.fault (K.faults out.old) (K.faults out.new) }
{
    let text = match answer {
        Ok(text) => text,
        Err(fault) => {
            let fault = report(alloc, notes, fault, Some(graph));
            return Ending::refused(alloc, fault);
        }
    };
    match put_text(out, text.as_str().as_bytes()) {
        Ok(()) => Ending::done(Vec::new(alloc), Vec::new(alloc)),
        Err(_) => {
            report_write(notes);
            Ending::refused(alloc, Fault::Write)
        }
    }
}
