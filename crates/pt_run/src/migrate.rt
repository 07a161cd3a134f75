//! The command `migrate`.

ghost use Rattle.std.specs.Prelude.{◌≡◌, [], IfOk, None, Some};
ghost use Rattle.pt_io.specs.Calls.{reading, writing};
ghost use Rattle.pt_run.specs.Asks.{AsksFrom};
ghost use Rattle.pt_run.specs.Due.{AnswersAsDue, IsDue, IsDueTo, answer_by};
ghost use Rattle.pt_run.specs.Migrating.{IsDefined, IsMigrated};
ghost use Rattle.pt_run.specs.Statuses.{status_of};
ghost use Rattle.pt_run.specs.Reporting.{Reports};
ghost use Rattle.pt_run.specs.Texts.{fault_in, left_by};
ghost use Rattle.pt_words.specs.Grammar.{migrate as to_migrate};
ghost use Rattle.pt_words.specs.Views.{file_in};
ghost use Rattle.pt_types.specs.Limits.{usual_claims};
ghost use Rattle.pt_run.specs.Counts.{LeavesReads, LeavesWrites};

use crate::admission::graph_at;
use crate::fault::Fault;
use crate::notes::{report, report_write};
use crate::outcome::Ending;
use crate::outputs::put_text;
use pt_blocks::Blocks;
use pt_graph_writer::graph_text;
use pt_io::{Sink, Source};
use pt_tags::Memory;
use pt_types::Graph;
use pt_words::GraphFile;
use std::alloc::Global;

/// Writes the graph in this file as a file of version 2: one line of compact JSON.
///
/// Only the graph file is read. The graph need not be able to run: a cycle that takes no time and a sender that can't send in
/// time are written as they are. A text of more than 1,048,576 bytes is written too, though no command reads it.
pub fn migrate<S: Source, K: Sink, E: Sink>(
    alloc: Global,
    graph_file: GraphFile,
    source: &mut S,
    out: &mut K,
    notes: &mut E,
    blocks: &Blocks,
) -> Ending
    requires { graph_file.claims ≡ usual_claims }
    ensures status { result.status ≡ status_of result.fault result.misses }
    ensures asks { AsksFrom result.fault (S.contents source.old) blocks.now.listed.items
        (file_in graph_file.entry) (λ g. []) [] (S.asked source.old) (S.asked source.new) }
    ensures due { IsDue (Some (to_migrate (file_in graph_file.entry)))
        (S.contents source.old) blocks.now.listed.items
        (answer_by result (reading S.Source source.old source.new)
        (writing K.Sink out.old out.new)) }
    ensures flushed { result.fault ≡ None → K.flushed out.new }
    ensures notes { Reports result.fault result.misses None
        (writing E.Sink notes.old notes.new) }
    ensures reads { LeavesReads result.fault (S.faults source.old) (S.faults source.new) }
    ensures writes { LeavesWrites result.fault (K.faults out.old) (K.faults out.new) }
{
    let text = match migrated(alloc, source, graph_file, blocks) {
        Ok(text) => text,
        Err(fault) => {
            let fault = report(alloc, notes, fault, None);
            return Ending::refused(alloc, fault);
        }
    };
    if put_text(out, text.as_slice()).is_err() {
        report_write(notes);
        return Ending::refused(alloc, Fault::Write);
    }
    Ending::done(Vec::new(alloc), Vec::new(alloc))
}

/// The line that `migrate` writes for the graph in this file.
fn migrated<S: Source>(
    alloc: Global,
    source: &mut S,
    graph_file: GraphFile,
    blocks: &Blocks,
) -> Result<Vec<u8>, Fault>
    requires { graph_file.claims ≡ usual_claims }
    ensures due { AnswersAsDue (λ text. text.items) result
        (reading S.Source source.old source.new)
        (IsDueTo (to_migrate (file_in graph_file.entry))
        (S.contents source.old) blocks.now.listed.items) }
    ensures asks { AsksFrom (fault_in result)
        (S.contents source.old) blocks.now.listed.items (file_in graph_file.entry) (λ g. []) []
        (S.asked source.old) (S.asked source.new) }
    ensures reads { LeavesReads (fault_in result) (S.faults source.old) (S.faults source.new) }
{
    let graph = match graph_at(alloc, source, graph_file, blocks) {
        Ok(graph) => graph,
        Err(fault) => return Err(fault),
    };
    match graph_line(alloc, &graph, blocks) {
        Ok(line) => Ok(line),
        Err(_) => Err(Fault::Memory),
    }
}

/// The text of a graph as a file of version 2, with its line feed.
fn graph_line(alloc: Global, graph: &Graph, blocks: &Blocks) -> Result<Vec<u8>, Memory>
    requires { IsDefined blocks.now.listed.items graph.now }
    ensures { IfOk result (λ line. IsMigrated graph.now blocks.now.listed.items line.items) }
{
    let mut line = graph_text(alloc, graph, blocks)?;
    line.push(b'\n')?;
    Ok(line)
}
