//! The outputs of a call: those of a run are made of its platforms, and put. Every text is put line by line, a log as it is made; the
//! lines of misses are put on the notes at once.

ghost use Rattle.std.specs.Prelude.{◌≡◌, ◌≢◌, ◌≤◌, ◌++◌, IfErr, IfOk, None, OnErr, OnOk, flat_map, string_bytes};
ghost use Rattle.std.specs.Arc.{arc_value};
ghost use Rattle.pt_io.specs.Calls.{writing};
ghost use Rattle.pt_io.specs.Causes.{Appends, AppendsPart, Rose};
ghost use Rattle.pt_tables.specs.Misses.{miss_line};
ghost use Rattle.pt_run.specs.Reporting.{Reports};
ghost use Rattle.pt_run.specs.Runs.{AreHeldIf, AreOutputs, IsOutput, IsStop, asked_log};
ghost use Rattle.pt_run.specs.Statuses.{status_of};
ghost use Rattle.pt_run.specs.Texts.{HasEnded, LeftAll, WroteRun};
ghost use Rattle.pt_run.specs.Counts.{LeavesWrites};

use crate::fault::{Fault, fault_of_turn};
use crate::notes::{report, report_write};
use crate::outcome::{Ending, Stopped};
use pt_confluence::tables_of;
use pt_engine::Rounds;
use pt_history::Miss;
use pt_io::{PutFault, Sink};
use pt_monitors::missed;
use pt_offsets::Plan;
use pt_tables::{miss_lines, platforms_hold, put_each_line, put_log};
use pt_tags::Memory;
use pt_turn::Platform;
use pt_types::Graph;
use std::alloc::Global;
use std::sync::Arc;

/// The outputs of a run that finished: the parts of its text, its misses and their lines, and its platforms.
#[derive(Drop)]
pub struct Outputs {
    /// The tables of the actuators.
    pub tables: String,
    /// Whether the log is asked for.
    pub log: bool,
    pub misses: Vec<Miss>,
    /// A line for each miss.
    pub lines: String,
    pub platforms: Vec<Platform>,
}

/// That 64 bits hold the numbers in all turns of some platforms, if the log is asked for.
fn platforms_hold_if(log: bool, platforms: &[Platform])
    ensures { AreHeldIf log platforms.now }
{
    if log {
        platforms_hold(platforms);
    }
}

/// The lines of misses.
fn lines_of(alloc: Global, plan: &Plan, misses: &[Miss]) -> Result<String, Memory>
    ensures { IfOk result
        (λ lines. string_bytes lines ≡ flat_map (miss_line plan.now.graph) misses.now) }
{
    let mut lines = String::new(alloc);
    miss_lines(&mut lines, plan.graph(), misses)?;
    Ok(lines)
}

/// The outputs of platforms after a run, or why it stopped. In a replay `breach` is the first row of its recording that breaks a
/// stated bound.
pub fn outputs_of(
    alloc: Global,
    plan: &Arc<Plan>,
    rounds: Rounds,
    log: bool,
    breach: Option<u32>,
) -> Result<Outputs, Stopped>
    ensures output { IfOk result
        (IsOutput rounds.fault (arc_value plan.now) log rounds.platforms.items) }
    ensures stop { IfErr result (IsStop breach rounds.fault rounds.platforms.items) }
{
    let Rounds { platforms, fault } = rounds;
    if let Some((platform, fault)) = fault {
        let fault = fault_of_turn(platform, breach, fault);
        return Err(Stopped { fault, platforms });
    }
    match all_outputs(alloc, plan, platforms, log) {
        Ok(outputs) => Ok(outputs),
        Err(Memory) => Err(Stopped::with_nothing(alloc, Fault::Memory)),
    }
}

/// All outputs of finished platforms.
fn all_outputs(
    alloc: Global,
    plan: &Arc<Plan>,
    platforms: Vec<Platform>,
    log: bool,
) -> Result<Outputs, Memory>
    ensures { IfOk result (AreOutputs (arc_value plan.now) log platforms.items) }
{
    let tables = tables_of(alloc, plan, platforms.as_slice())?;
    let misses = missed(alloc, platforms.as_slice())?;
    let lines = lines_of(alloc, plan, misses.as_slice())?;
    platforms_hold_if(log, platforms.as_slice());
    Ok(Outputs {
        tables,
        log,
        misses,
        lines,
        platforms,
    })
}

/// Writes the outputs of a run, or reports why it did not finish.
pub fn end_run<K: Sink, E: Sink>(
    alloc: Global,
    graph: &Graph,
    ran: Result<Outputs, Stopped>,
    out: &mut K,
    notes: &mut E,
) -> Ending
    ensures status { result.status ≡ status_of result.fault result.misses }
    ensures ended { HasEnded ran result (writing K.Sink out.old out.new) }
    ensures flushed { result.fault ≡ None → K.flushed out.new }
    ensures notes { IfOk ran
        (λ ran. string_bytes ran.lines ≡ flat_map (miss_line graph.now) ran.misses.items) →
        Reports result.fault result.misses (Some graph.now)
        (writing E.Sink notes.old notes.new) }
    ensures writes { LeavesWrites result.fault (K.faults out.old) (K.faults out.new) }
{
    match ran {
        Ok(outputs) => write_run(alloc, graph, outputs, out, notes),
        Err(Stopped { fault, platforms }) => report_stop(alloc, graph, fault, platforms, notes),
    }
}

/// Puts the text of a run on `out`, and the lines of its misses on `notes`.
fn write_run<K: Sink, E: Sink>(
    alloc: Global,
    graph: &Graph,
    ran: Outputs,
    out: &mut K,
    notes: &mut E,
) -> Ending
    ensures status { result.status ≡ status_of result.fault result.misses }
    ensures wrote { WroteRun ran result (writing K.Sink out.old out.new) }
    ensures flushed { result.fault ≡ None → K.flushed out.new }
    ensures notes { string_bytes ran.lines ≡ flat_map (miss_line graph.now) ran.misses.items →
        Reports result.fault result.misses (Some graph.now)
        (writing E.Sink notes.old notes.new) }
    ensures writes { LeavesWrites result.fault (K.faults out.old) (K.faults out.new) }
{
    let Outputs {
        tables,
        log,
        misses,
        lines,
        platforms,
    } = ran;
    if put_run(out, tables.as_str().as_bytes(), log, platforms.as_slice()).is_err() {
        report_write(notes);
        return Ending::stopped(alloc, Fault::Write, platforms);
    }
    let _ = put_whole(notes, lines.as_str().as_bytes());
    Ending::done(misses, platforms)
}

/// Reports a fault that leaves these platforms, if there is memory for its line.
fn report_stop<E: Sink>(
    alloc: Global,
    graph: &Graph,
    fault: Fault,
    platforms: Vec<Platform>,
    notes: &mut E,
) -> Ending
    ensures status { result.status ≡ status_of result.fault result.misses }
    ensures left { LeftAll fault platforms.items result }
    ensures fault { result.fault ≢ None }
    ensures notes { Reports result.fault result.misses (Some graph.now)
        (writing E.Sink notes.old notes.new) }
{
    match report(alloc, notes, fault, Some(graph)) {
        Fault::Memory => Ending::refused(alloc, Fault::Memory),
        fault => Ending::stopped(alloc, fault, platforms),
    }
}

/// Puts a text line by line and flushes the sink.
pub fn put_text<K: Sink>(out: &mut K, text: &[u8]) -> Result<(), PutFault>
    ensures all { OnOk result (Appends (K.written out.old) (K.written out.new) text.now) }
    ensures flushed { OnOk result (K.flushed out.new) }
    ensures uncounted { OnOk result (K.faults out.new ≡ K.faults out.old) }
    ensures part { OnErr result (AppendsPart (K.written out.old) (K.written out.new) text.now) }
    ensures failed { OnErr result (Rose (K.faults out.old) (K.faults out.new)) }
{
    put_each_line(out, text)?;
    out.flush()
}

/// Puts the tables of a run and then, if it is asked for, its log, and flushes the sink.
fn put_run<K: Sink>(
    out: &mut K,
    tables: &[u8],
    log: bool,
    platforms: &[Platform],
) -> Result<(), PutFault>
    ensures all { OnOk result
        (Appends (K.written out.old) (K.written out.new)
        (tables.now ++ asked_log log platforms.now)) }
    ensures flushed { OnOk result (K.flushed out.new) }
    ensures uncounted { OnOk result (K.faults out.new ≡ K.faults out.old) }
    ensures part { OnErr result
        (AppendsPart (K.written out.old) (K.written out.new)
        (tables.now ++ asked_log log platforms.now)) }
    ensures failed { OnErr result (Rose (K.faults out.old) (K.faults out.new)) }
{
    put_each_line(out, tables)?;
    put_log_if(out, log, platforms)?;
    out.flush()
}

/// Puts the log of platforms, if it is asked for.
fn put_log_if<K: Sink>(out: &mut K, log: bool, platforms: &[Platform]) -> Result<(), PutFault>
    ensures all { OnOk result
        (Appends (K.written out.old) (K.written out.new) (asked_log log platforms.now)) }
    ensures uncounted { OnOk result (K.faults out.new ≡ K.faults out.old) }
    ensures part { OnErr result
        (AppendsPart (K.written out.old) (K.written out.new) (asked_log log platforms.now)) }
    ensures failed { OnErr result (Rose (K.faults out.old) (K.faults out.new)) }
    ensures grows { K.faults out.old ≤ K.faults out.new }
{
    if !log {
        return Ok(());
    }
    put_log(out, platforms)
}

/// Puts a text in one put, or in none if it is empty.
fn put_whole<K: Sink>(out: &mut K, text: &[u8]) -> Result<(), PutFault>
    ensures all { OnOk result (Appends (K.written out.old) (K.written out.new) text.now) }
    ensures uncounted { OnOk result (K.faults out.new ≡ K.faults out.old) }
    ensures part { OnErr result (AppendsPart (K.written out.old) (K.written out.new) text.now) }
    ensures failed { OnErr result (Rose (K.faults out.old) (K.faults out.new)) }
    ensures grows { K.faults out.old ≤ K.faults out.new }
{
    if text.is_empty() {
        return Ok(());
    }
    out.put(text)
}
