//! The events that are in no line yet.

ghost use Rattle.std.specs.Prelude.{◌≡◌, ◌≤◌, ◌<◌, List, length, if◌then◌else◌};
ghost use Rattle.std.specs.VecDeque.{deque_len, deque_capacity};
ghost use Rattle.pt_semantics.specs.Lists.{Each};
ghost use Rattle.pt_queue.specs.declared.groups.Groups.{Groups};
ghost use Rattle.pt_queue.specs.Lines.{AreKept, first, joined_by, line_of_event, with_events};

use crate::lines::{Lines, line_number};
use pt_types::Event;
use std::collections::VecDeque;

/// Moves loose events into their lines, in order, up to the first that does not fit.
pub fn settle(lines: &mut Lines, loose: &mut VecDeque<Event>)
    requires { Each (λ e. line_of_event e < length lines.old) loose.old.items }
    ensures with_events { with_events lines.new loose.new.items
        ≡ with_events lines.old loose.old.items }
    ensures kept { (table : List Groups) → AreKept table lines.old loose.old.items →
        AreKept table lines.new loose.new.items }
    ensures len { deque_len loose.new ≤ deque_len loose.old }
    ensures capacity { deque_capacity loose.new ≡ deque_capacity loose.old }
{
    for _ in 0..loose.len() {
        let Some(event) = first(loose) else {
            return;
        };
        if !settle_one(lines, event) {
            return;
        }
        loose.pop_front();
    }
}

/// The first loose event.
fn first(loose: &VecDeque<Event>) -> Option<Event>
    ensures { result ≡ first loose.now.items }
{
    loose.front().copied()
}

/// Appends an event to its line, growing it if there is memory, and returns whether it did.
fn settle_one(lines: &mut Lines, event: Event) -> bool
    requires { line_of_event event < length lines.old }
    ensures { lines.new ≡ (if result then joined_by lines.old event else lines.old) }
{
    let line = line_number(event.actor, event.port);
    lines.grow(line);
    lines.push(line, event)
}

/// Makes room for one more event in each of these lines, as far as there is memory.
pub fn widen(lines: &mut Lines, short: &[usize])
    ensures { lines.new ≡ lines.old }
{
    for line in short {
        lines.widen(*line);
    }
}

/// Appends the number of a line, if there is room for it.
pub fn remember(short: &mut Vec<usize>, line: usize) {
    if short.len() < short.capacity() {
        short.push_reserved(line);
    }
}
