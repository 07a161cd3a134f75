//! The parts of a document, with numbers instead of names.

ghost use Rattle.std.specs.Prelude.{◌≡◌, ℕ, List, Option, IfOk, map, option_map, option_and_then, unwrap_or, [], true};
ghost use Rattle.pt_types.specs.declared.kind.Law.TheVariants.{Least};
ghost use Rattle.pt_blocks.specs.Blocks.{law_at};
ghost use Rattle.pt_graph_text.specs.declared.kinds.KindText.TheVariants as text;
ghost use Rattle.pt_graph.specs.Index.{at_name};
ghost use Rattle.pt_graph.specs.Graphs.{small, number_or_0, number_and_law, emit_from, row_from, kind_from, with_ports, platform_number, actor_from, wire_from, link_from, pair_from, actors_of, is_number_kind};

use crate::blocks::find;
use crate::known::{index_of, number_at};
use pt_blocks::Named;
use pt_graph_text::{ActorText, Document, KindText, LinkText, PairText, RowText, WireText, Word};
use pt_tags::{List, Name};
use pt_types::{Actor, Kind, Law, Link, MachineRow, PairError, Wire};
use std::alloc::{AllocError, Global};
use std::collections::BTreeMap;

/// The names of the platforms.
pub fn platforms_of(alloc: Global, platforms: &[Word]) -> Result<Vec<Name>, AllocError>
    ensures { IfOk result (λ v. v.items ≡ platforms.now) }
{
    let mut done = Vec::new(alloc);
    for platform in platforms {
        done.push(copy(alloc, platform)?)?;
    }
    Ok(done)
}

/// The actors, with numbers of platforms and blocks.
pub fn actors_of(
    alloc: Global,
    listed: &[Named],
    document: &Document,
) -> Result<Vec<Actor>, AllocError>
    ensures { IfOk result (λ v. v.items ≡ actors_of listed.now document.now) }
{
    let platforms = &document.platforms;
    let actors = document.actors.as_slice();
    let mut done = Vec::new(alloc);
    for actor in actors {
        done.push(actor_from(alloc, listed, platforms, actor)?)?;
    }
    Ok(done)
}

fn actor_from(
    alloc: Global,
    listed: &[Named],
    platforms: &List<Word>,
    actor: &ActorText,
) -> Result<Actor, AllocError>
    ensures { IfOk result (λ a. a ≡ actor_from listed.now platforms.now actor.now) }
{
    let name = copy(alloc, &actor.name)?;
    let platform = platform_number(platforms, &actor.platform);
    let kind = kind_from(alloc, listed, &actor.kind)?;
    Ok(with_ports(name, platform, kind))
}

fn with_ports(name: Name, platform: u32, kind: Kind) -> Actor
    ensures { result ≡ with_ports name platform kind }
{
    let inputs = kind.visible_inputs();
    let outputs = kind.visible_outputs();
    Actor {
        name,
        platform,
        kind,
        inputs,
        outputs,
    }
}

/// A name of the graph with this text.
fn copy(alloc: Global, name: &Word) -> Result<Name, AllocError>
    ensures { IfOk result (λ n. n ≡ name.now) }
{
    Ok(Name::new(String::from_str(alloc, name.as_str())?))
}

fn kind_from(alloc: Global, listed: &[Named], kind: &KindText) -> Result<Kind, AllocError>
    ensures { IfOk result (λ k. k ≡ kind_from listed.now kind.now) }
{
    match kind {
        KindText::Sensor { file, bound } => sensor_from(alloc, file, *bound),
        KindText::Machine {
            start,
            outputs,
            rows,
        } => machine_from(alloc, listed, *start, *outputs, rows),
        KindText::Block { block } => block_from(alloc, listed, block),
        KindText::Lanes { cells } => lanes_from(alloc, cells),
        _ => Ok(number_kind_from(kind)),
    }
}

fn sensor_from(alloc: Global, file: &Word, bound: i64) -> Result<Kind, AllocError>
    ensures { IfOk result (λ k. k ≡ kind_from [] (text.Sensor file.now bound)) }
{
    Ok(Kind::Sensor {
        file: copy(alloc, file)?,
        bound: bound.unsigned_abs(),
    })
}

fn machine_from(
    alloc: Global,
    listed: &[Named],
    start: i64,
    outputs: i64,
    rows: &List<RowText>,
) -> Result<Kind, AllocError>
    ensures { IfOk result (λ k. k ≡ kind_from listed.now (text.Machine start outputs rows.now)) }
{
    Ok(Kind::Machine {
        start,
        outputs: small(outputs),
        rows: List::new(rows_from(alloc, listed, rows.as_slice())?),
    })
}

fn rows_from(
    alloc: Global,
    listed: &[Named],
    rows: &[RowText],
) -> Result<Vec<MachineRow>, AllocError>
    ensures { IfOk result (λ v. v.items ≡ map (row_from listed.now) rows.now) }
{
    let mut done = Vec::new(alloc);
    for row in rows {
        done.push(row_from(alloc, listed, row)?)?;
    }
    Ok(done)
}

#[tactic(auto, unfolding(crate::specs::Graphs::row_from))]
fn row_from(alloc: Global, listed: &[Named], row: &RowText) -> Result<MachineRow, AllocError>
    ensures { IfOk result (λ made. made ≡ row_from listed.now row.now) }
{
    let guard = guard_from(alloc, listed, &row.guard)?;
    Ok(MachineRow {
        state: row.state,
        low: row.low,
        high: row.high,
        next: row.next,
        emit: emit_from(row.emit),
        guard,
    })
}

fn emit_from(emit: Option<(i64, i64)>) -> Option<(u32, i64)>
    ensures { result ≡ option_map emit_from emit }
{
    match emit {
        Some((output, value)) => Some((small(output), value)),
        None => None,
    }
}

fn guard_from(
    alloc: Global,
    listed: &[Named],
    guard: &Option<Word>,
) -> Result<Option<(u32, Law)>, AllocError>
    ensures { IfOk result (λ made. made ≡ option_map (number_and_law listed.now) guard.now) }
{
    match guard {
        Some(name) => Ok(Some(block_of(alloc, listed, name)?)),
        None => Ok(None),
    }
}

/// The number and the law of the block with this name.
fn block_of(alloc: Global, listed: &[Named], name: &Word) -> Result<(u32, Law), AllocError>
    ensures { IfOk result (λ made. made ≡ number_and_law listed.now name.now) }
{
    let number = find(listed, name);
    let law = law_of(alloc, listed, number)?;
    Ok((number_or_0(number), law))
}

fn law_of(alloc: Global, listed: &[Named], number: Option<usize>) -> Result<Law, AllocError>
    ensures { IfOk result (λ law. law
        ≡ unwrap_or (option_and_then (law_at listed.now) number) Least) }
{
    match number {
        Some(number) => law_at(alloc, listed, number),
        None => Ok(Law::Least),
    }
}

fn law_at(alloc: Global, listed: &[Named], number: usize) -> Result<Law, AllocError>
    ensures { IfOk result (λ law. law ≡ unwrap_or (law_at listed.now number) Least) }
{
    match listed.get(number) {
        Some(block) => block.law.copy(alloc),
        None => Ok(Law::Least),
    }
}

fn block_from(alloc: Global, listed: &[Named], name: &Word) -> Result<Kind, AllocError>
    ensures { IfOk result (λ kind. kind ≡ kind_from listed.now (text.Block name.now)) }
{
    let (block, law) = block_of(alloc, listed, name)?;
    Ok(Kind::Block { block, law })
}

fn lanes_from(alloc: Global, cells: &List<i64>) -> Result<Kind, AllocError>
    ensures { IfOk result (λ k. k ≡ kind_from [] (text.Lanes cells.now)) }
{
    Ok(Kind::Lanes {
        cells: List::new(cells_from(alloc, cells.as_slice())?),
    })
}

fn cells_from(alloc: Global, cells: &[i64]) -> Result<Vec<u32>, AllocError>
    ensures { IfOk result (λ v. v.items ≡ map small cells.now) }
{
    cells.iter().map(|c| small(*c)).collect(alloc)
}

/// A kind without names and lists; the result for other kinds is not used.
fn number_kind_from(kind: &KindText) -> Kind
    ensures { is_number_kind kind.now ≡ true → result ≡ kind_from [] kind.now }
{
    match kind {
        KindText::Send { slack } => Kind::Send {
            slack: slack.unsigned_abs(),
        },
        KindText::Actuator { slack } => Kind::Actuator {
            slack: slack.unsigned_abs(),
        },
        KindText::Scale { num, den } => Kind::Scale {
            num: *num,
            den: *den,
        },
        KindText::Shift { by } => Kind::Shift { by: *by },
        KindText::Add => Kind::Add,
        KindText::Sub => Kind::Sub,
        KindText::Above { limit } => Kind::Above { limit: *limit },
        KindText::Merge { n } => Kind::Merge { n: small(*n) },
        KindText::Delay { d } => Kind::Delay {
            d: d.unsigned_abs(),
        },
        KindText::Count => Kind::Count,
        KindText::Sum => Kind::Sum,
        KindText::Latch => Kind::Latch,
        KindText::Every { start, period } => Kind::Every {
            start: start.unsigned_abs(),
            period: period.unsigned_abs(),
        },
        _ => Kind::Receive,
    }
}

/// A number of the file as a `u32`. Numbers in their ranges fit.
fn small(number: i64) -> u32
    ensures { result ≡ small number }
{
    number.unsigned_abs().min(u32::MAX as u64) as u32
}

fn number_or_0(number: Option<usize>) -> u32
    ensures { result ≡ number_or_0 number }
{
    number.unwrap_or(0).min(u32::MAX as usize) as u32
}

fn platform_number(platforms: &List<Word>, name: &Word) -> u32
    ensures { result ≡ platform_number platforms.now name.now }
{
    number_or_0(index_of(platforms.as_slice(), name.as_str()))
}

/// The wires of the file, with these numbers of actors.
pub fn wires_of<'a>(
    alloc: Global,
    numbers: &BTreeMap<&'a str, usize>,
    wires: &'a [WireText],
) -> Result<Vec<Wire>, AllocError>
    ensures { IfOk result (λ v. v.items ≡ map (wire_from (at_name numbers.now)) wires.now) }
{
    let mut done = Vec::new(alloc);
    for wire in wires {
        done.push(wire_from(numbers, wire))?;
    }
    Ok(done)
}

/// The links, with these numbers of actors.
pub fn links_of<'a>(
    alloc: Global,
    numbers: &BTreeMap<&'a str, usize>,
    links: &'a [LinkText],
) -> Result<Vec<Link>, AllocError>
    ensures { IfOk result (λ v. v.items ≡ map (link_from (at_name numbers.now)) links.now) }
{
    let mut done = Vec::new(alloc);
    for link in links {
        done.push(link_from(numbers, link))?;
    }
    Ok(done)
}

/// The pairs, with numbers of platforms.
pub fn pairs_of(alloc: Global, document: &Document) -> Result<Vec<PairError>, AllocError>
    ensures { IfOk result (λ v. v.items
        ≡ map (pair_from document.now.platforms) document.now.pairs) }
{
    let platforms = &document.platforms;
    let pairs = document.pairs.as_slice();
    pairs.iter().map(|p| pair_from(platforms, p)).collect(alloc)
}

fn wire_from<'a>(numbers: &BTreeMap<&'a str, usize>, wire: &'a WireText) -> Wire
    ensures { result ≡ wire_from (at_name numbers.now) wire.now }
{
    Wire {
        from: number_or_0(number_at(numbers, &wire.from)),
        output: small(wire.output),
        to: number_or_0(number_at(numbers, &wire.to)),
        input: small(wire.input),
    }
}

fn link_from<'a>(numbers: &BTreeMap<&'a str, usize>, link: &'a LinkText) -> Link
    ensures { result ≡ link_from (at_name numbers.now) link.now }
{
    Link {
        from: number_or_0(number_at(numbers, &link.from)),
        to: number_or_0(number_at(numbers, &link.to)),
        delay: link.delay.unsigned_abs(),
    }
}

fn pair_from(platforms: &List<Word>, pair: &PairText) -> PairError
    ensures { result ≡ pair_from platforms.now pair.now }
{
    PairError {
        a: platform_number(platforms, &pair.a),
        b: platform_number(platforms, &pair.b),
        error: pair.error.unsigned_abs(),
    }
}
