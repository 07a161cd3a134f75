//! The lines of all inputs.

ghost use Rattle.std.specs.Prelude.{◌≡◌, ℕ, ◌+◌, ◌*◌, ◌<◌, ◌≤◌, ◌==◌, [], not, filter, IfOk, length, replicate, slice_index_or, slice_set, if◌then◌else◌};
ghost use Rattle.pt_tags.specs.Tags.{same_tag};
ghost use Rattle.pt_queue.specs.Lines.{TagsRise, first, joined_by, line_at, line_of_event, value_on};

use crate::line::{Line, Taken};
use pt_tags::Tag;
use pt_types::Event;
use std::alloc::{AllocError, Global};
use std::marker::Model;

/// The line of an input: `8 * actor + port`.
pub fn line_number(actor: u32, port: u32) -> usize
    ensures { result ≡ 8 * actor + port }
{
    8 * actor as usize + port as usize
}

/// The lines of all inputs of all actors: input `p` of actor `a` has line `8 a + p`.
#[derive(Drop)]
pub struct Lines {
    lines: Vec<Line>,
    /// For each actor: of its inputs only those below this number ever had an event.
    ends: Vec<u32>,
}

impl Model for Lines {
    ghost use Rattle.std.specs.Prelude.{List};
    ghost use Rattle.pt_types.specs.declared.firing.Event.{Event};
    ghost use Rattle.pt_queue.specs.Lines.{AreCovered};

    ghost Value = { List (List Event) };

    ghost view = { λ l. l.lines.items };

    ghost invariant = { λ l. AreCovered l.lines.items l.ends.items };
}

/// Raises the number at a place to `end` if it is less.
fn raise(ends: &mut Vec<u32>, place: usize, end: u32)
    requires { place < length ends.old.items }
    ensures here { end ≤ slice_index_or ends.new.items place 0 }
    ensures all { (n : ℕ) → slice_index_or ends.old.items n 0 ≤ slice_index_or ends.new.items n 0 }
    ensures len { length ends.new.items ≡ length ends.old.items }
{
    if ends[place] < end {
        ends[place] = end;
    }
}

impl Lines {
    /// `count` empty lines.
    pub fn new(alloc: Global, count: usize) -> Result<Lines, AllocError>
        ensures { IfOk result (λ lines. lines ≡ replicate count []) }
    {
        let mut lines = Vec::new(alloc);
        for _ in 0..count {
            lines.push(Line::new(alloc))?;
        }
        let ends = vec![in alloc; 0u32; count / 8 + 1]?;
        Ok(Lines { lines, ends })
    }

    /// The event with the least tag in a line.
    pub fn first(&self, line: usize) -> Option<Event>
        ensures first { result ≡ first (line_at self.now line) }
        ensures in_order { TagsRise (line_at self.now line) }
    {
        match self.lines.get(line) {
            None => None,
            Some(line) => line.first(),
        }
    }

    /// A number below which are all inputs of an actor that have events; at most 8.
    pub fn end(&self, actor: u32) -> u32
        ensures none { (p : ℕ) → result ≤ p → p < 8 → line_at self.now (8 * actor + p) ≡ [] }
        ensures few { result ≤ 8 }
    {
        match self.ends.get(actor as usize) {
            None => 0,
            Some(end) => (*end).min(8),
        }
    }

    /// Whether a line has no events.
    pub fn is_empty(&self, line: usize) -> bool
        ensures { result ≡ (length (line_at self.now line) == 0) }
    {
        match self.lines.get(line) {
            None => true,
            Some(line) => line.is_empty(),
        }
    }

    /// Appends an event to its line, and returns whether it did. It does only if its tag is the greatest there and there is
    /// room. Allocates nothing.
    pub fn push(&mut self, line: usize, event: Event) -> bool
        requires line { line ≡ line_of_event event }
        requires there { line < length self.old }
        ensures { self.new ≡ (if result then joined_by self.old event else self.old) }
    {
        raise(&mut self.ends, line / 8, (line % 8) as u32 + 1);
        self.lines[line].push(event)
    }

    /// Makes room for one more event in a line. Without memory for it, nothing changes.
    pub fn grow(&mut self, line: usize)
        requires { line < length self.old }
        ensures { self.new ≡ self.old }
    {
        self.lines[line].grow();
    }

    /// Makes room for one more event in a line. Does nothing if there is no such line or no memory.
    pub fn widen(&mut self, line: usize)
        ensures { self.new ≡ self.old }
    {
        if line < self.lines.len() {
            self.lines[line].grow();
        }
    }

    /// Takes the event at a tag from a line, if there is one.
    #[inline(always)]
    pub fn take(&mut self, line: usize, tag: Tag) -> Taken
        ensures value { result.value ≡ value_on (line_at self.old line) tag }
        ensures left { self.new ≡ slice_set self.old line
            (filter (λ e. not (same_tag tag e.tag)) (line_at self.old line)) }
        ensures next { result.next ≡ first (line_at self.new line) }
        ensures in_order { TagsRise (line_at self.new line) }
    {
        if line >= self.lines.len() {
            return Taken {
                value: None,
                next: None,
            };
        }
        self.lines[line].take(tag)
    }
}
