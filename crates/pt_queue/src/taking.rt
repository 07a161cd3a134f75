//! Taking the events of a unit at a tag, in one pass over the lines of its actor.

ghost use Rattle.std.specs.Prelude.{◌≡◌, ℕ, ◌+◌, ◌*◌, ◌<◌, ◌≤◌, ◌==◌, ◌++◌, [], None, false, not, filter, map, slice_set};
ghost use Rattle.std.specs.VecDeque.{deque_len, deque_capacity};
ghost use Rattle.pt_tags.specs.declared.tag.Tag.{Tag};
ghost use Rattle.pt_tags.specs.Tags.{same_tag};
ghost use Rattle.pt_types.specs.Ports.{at_port, when, eight, nothing};
ghost use Rattle.pt_queue.specs.Groups.{group_in};
ghost use Rattle.pt_queue.specs.Events.{waiting_in};
ghost use Rattle.pt_queue.specs.Lines.{AreInLines, TagsRise, all_of, first, line_at};
ghost use Rattle.pt_queue.specs.Scans.{is_at, least_from, sooner_first};

use crate::events::{has_events, least_among, remove_some, sooner, value_at};
use crate::groups::{Groups, group_in};
use crate::line::Taken;
use crate::lines::{Lines, line_number};
use pt_tags::Tag;
use pt_types::{Event, Ports, Unit};
use std::collections::VecDeque;

/// Which events are taken: those of a unit at a tag.
#[derive(Clone, Copy)]
struct Wanted {
    unit: Unit,
    tag: Tag,
}

/// Puts a value, if there is one, at a port that has none.
fn put(values: &mut Ports, port: u32, value: Option<i64>)
    requires port { port < 8 }
    requires none { at_port values.old port ≡ None }
    ensures { values.new ≡ slice_set values.old port value }
{
    match value {
        None => (),
        Some(value) => values.put(port, value),
    }
}

/// The lesser of the least tag so far and that of an event, if there is one.
fn sooner_first(best: Option<Tag>, event: Option<Event>) -> Option<Tag>
    ensures { result ≡ sooner_first best event }
{
    match event {
        None => best,
        Some(event) => sooner(best, event.tag),
    }
}

/// Takes the event of an input at a tag from its line. If there is none there, the value is that of a loose event.
///
/// Without `any_loose` no loose event waits at the actor, and none is looked for.
#[inline(always)]
fn take_value(
    lines: &mut Lines,
    table: &[Groups],
    loose: &VecDeque<Event>,
    any_loose: bool,
    actor: u32,
    port: u32,
    tag: Tag,
) -> Taken
    requires in_lines { AreInLines table.now lines.old }
    requires port { port < 8 }
    requires loose { any_loose ≡ false → (p : ℕ) (t : Tag) →
        waiting_in loose.now.items actor p t ≡ None }
    ensures value { result.value ≡ waiting_in (all_of lines.old ++ loose.now.items) actor port tag }
    ensures left { lines.new ≡ slice_set lines.old (8 * actor + port)
        (filter (λ e. not (same_tag tag e.tag)) (line_at lines.old (8 * actor + port))) }
    ensures next { result.next ≡ first (line_at lines.new (8 * actor + port)) }
    ensures in_order { TagsRise (line_at lines.new (8 * actor + port)) }
{
    let taken = lines.take(line_number(actor, port), tag);
    if !any_loose {
        return taken;
    }
    if taken.value.is_some() {
        return taken;
    }
    Taken {
        value: value_at(loose, actor, port, tag),
        next: taken.next,
    }
}

/// Takes the wanted event from the line of one input, if that input is one of the unit's. Returns the lesser of `so_far` and
/// the least tag that is left there.
#[inline(always)]
fn take_port(
    lines: &mut Lines,
    table: &[Groups],
    loose: &VecDeque<Event>,
    any_loose: bool,
    wanted: Wanted,
    port: u32,
    inputs: &mut Ports,
    so_far: Option<Tag>,
) -> Option<Tag>
    requires in_lines { AreInLines table.now lines.old }
    requires port { port < 8 }
    requires none { at_port inputs.old port ≡ None }
    requires loose { any_loose ≡ false → (p : ℕ) (t : Tag) →
        waiting_in loose.now.items wanted.unit.actor p t ≡ None }
    ensures lines { lines.new ≡ slice_set lines.old (8 * wanted.unit.actor + port)
        (filter (λ e. not (is_at table.now wanted.unit wanted.tag e))
        (line_at lines.old (8 * wanted.unit.actor + port))) }
    ensures inputs { inputs.new ≡ slice_set inputs.old port
        (when (group_in table.now wanted.unit.actor port == wanted.unit.group)
        (waiting_in (all_of lines.old ++ loose.now.items) wanted.unit.actor port wanted.tag)) }
    ensures least { result ≡ least_from table.now wanted.unit so_far
        (line_at lines.new (8 * wanted.unit.actor + port)) }
{
    if !any_loose && lines.is_empty(line_number(wanted.unit.actor, port)) {
        return so_far;
    }
    if group_in(table, wanted.unit.actor, port) != wanted.unit.group {
        return so_far;
    }
    let taken = take_value(
        lines,
        table,
        loose,
        any_loose,
        wanted.unit.actor,
        port,
        wanted.tag,
    );
    put(inputs, port, taken.value);
    sooner_first(so_far, taken.next)
}

/// A number below which are all inputs of an actor that have events; 8 if it has loose events.
fn end_of(lines: &Lines, any_loose: bool, actor: u32) -> u32
    ensures none { (p : ℕ) → result ≤ p → p < 8 → (line_at lines.now (8 * actor + p) ≡ [])
        × (any_loose ≡ false) }
    ensures few { result ≤ 8 }
{
    if any_loose {
        return 8;
    }
    lines.end(actor)
}

/// Takes the events of a unit at a tag from its lines, and returns the least tag that is left there. The values of loose
/// events count, but these stay.
///
/// It is compiled once for each value of `any_loose`, so that mostly nothing loose is asked for.
#[inline(always)]
fn take_from_lines(
    lines: &mut Lines,
    table: &[Groups],
    loose: &VecDeque<Event>,
    any_loose: bool,
    unit: Unit,
    tag: Tag,
    inputs: &mut Ports,
) -> Option<Tag>
    requires in_lines { AreInLines table.now lines.old }
    requires empty { inputs.old ≡ eight nothing }
    requires loose { any_loose ≡ false → (p : ℕ) (t : Tag) →
        waiting_in loose.now.items unit.actor p t ≡ None }
    ensures lines { lines.new ≡ map (filter (λ e. not (is_at table.now unit tag e))) lines.old }
    ensures inputs { inputs.new ≡ eight
        (λ p. when (group_in table.now unit.actor p == unit.group)
        (waiting_in (all_of lines.old ++ loose.now.items) unit.actor p tag)) }
    ensures least { result ≡ least_from table.now unit None (all_of lines.new) }
{
    let mut least = None;
    for port in 0..end_of(lines, any_loose, unit.actor) {
        least = take_port(
            lines,
            table,
            loose,
            any_loose,
            Wanted { unit, tag },
            port,
            inputs,
            least,
        );
    }
    least
}

/// As `take_events`, for an actor that has loose events.
#[inline(never)]
fn take_with_loose(
    lines: &mut Lines,
    loose: &mut VecDeque<Event>,
    table: &[Groups],
    unit: Unit,
    tag: Tag,
    inputs: &mut Ports,
) -> Option<Tag>
    requires in_lines { AreInLines table.now lines.old }
    requires empty { inputs.old ≡ eight nothing }
    ensures lines { lines.new ≡ map (filter (λ e. not (is_at table.now unit tag e))) lines.old }
    ensures loose { loose.new.items ≡ filter
        (λ e. not (is_at table.now unit tag e)) loose.old.items }
    ensures len { deque_len loose.new ≤ deque_len loose.old }
    ensures capacity { deque_capacity loose.new ≡ deque_capacity loose.old }
    ensures inputs { inputs.new ≡ eight
        (λ p. when (group_in table.now unit.actor p == unit.group)
        (waiting_in (all_of lines.old ++ loose.old.items) unit.actor p tag)) }
    ensures least { result ≡ least_from table.now unit None (all_of lines.new ++ loose.new.items) }
{
    let least = take_from_lines(lines, table, loose, true, unit, tag, inputs);
    remove_some(loose, table, unit, tag);
    least_among(table, loose, unit, least)
}

/// Takes the events of a unit at a tag, writes their values into `inputs`, and returns the least tag of those left.
#[inline(always)]
pub fn take_events(
    lines: &mut Lines,
    loose: &mut VecDeque<Event>,
    table: &[Groups],
    unit: Unit,
    tag: Tag,
    inputs: &mut Ports,
) -> Option<Tag>
    requires in_lines { AreInLines table.now lines.old }
    requires empty { inputs.old ≡ eight nothing }
    ensures lines { lines.new ≡ map (filter (λ e. not (is_at table.now unit tag e))) lines.old }
    ensures loose { loose.new.items ≡ filter
        (λ e. not (is_at table.now unit tag e)) loose.old.items }
    ensures len { deque_len loose.new ≤ deque_len loose.old }
    ensures capacity { deque_capacity loose.new ≡ deque_capacity loose.old }
    ensures inputs { inputs.new ≡ eight
        (λ p. when (group_in table.now unit.actor p == unit.group)
        (waiting_in (all_of lines.old ++ loose.old.items) unit.actor p tag)) }
    ensures least { result ≡ least_from table.now unit None (all_of lines.new ++ loose.new.items) }
{
    if has_events(loose, unit.actor) {
        return take_with_loose(lines, loose, table, unit, tag, inputs);
    }
    take_from_lines(lines, table, loose, false, unit, tag, inputs)
}
