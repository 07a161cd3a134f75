//! What the lines of a turn say of it.

ghost use Rattle.std.specs.Prelude.{◌≡◌, ℕ, IfOk, true};
ghost use Rattle.pt_types.specs.Lawful.{IsLawful};
ghost use Rattle.pt_semantics.specs.Turn.{Turn};
ghost use Rattle.pt_tables.specs.Log.{turn_lines};
ghost use Rattle.pt_audit.specs.Parsing.Hints.{AreHints, IsLoggable};

use crate::parse::entries::Entry;
use crate::parse::fields::cut;
use crate::parse::head::read_head;
use crate::parse::turn_lines::read_entries;
use pt_tags::Memory;
use pt_types::{Graph, OnLink};
use std::alloc::Global;

/// What the lines of a turn say of it, but for its rows and the tasks that it claimed.
#[derive(Drop)]
pub struct Hints {
    /// The number of its platform.
    pub platform: u32,
    /// Its first reading, in microseconds.
    pub first: u64,
    /// Its last reading, in microseconds.
    pub last: u64,
    /// How many turns were joined to it.
    pub count: u64,
    /// The number of the task of each result that it posted.
    pub posts: Vec<u64>,
    /// The messages that it took.
    pub taken: Vec<OnLink>,
    /// How many tasks it claimed.
    pub claims: usize,
    /// The messages that it sent.
    pub sent: Vec<OnLink>,
}

/// Reads what the lines of a turn say of it. The text of a turn gives what the turn has.
///
/// Another text is refused by `false`, or gives hints of no turn: a caller that makes a turn from them prints it and compares.
/// The hints are written over; their memory is used again.
pub fn read_hints(graph: &Graph, text: &[u8], hints: &mut Hints) -> Result<bool, Memory>
    requires lawful { IsLawful graph.now }
    ensures back { IfOk result
        (λ given. (p : ℕ) (t : Turn) → IsLoggable graph.now p t →
        text.now ≡ turn_lines graph.now p t → (given ≡ true) × AreHints p t hints.new) }
{
    hints.clear();
    let (line, rest) = cut(text, b'\n');
    let Some(head) = read_head(graph, line) else {
        return Ok(false);
    };
    if !read_entries(graph, rest, hints)? {
        return Ok(false);
    }
    hints.platform = head.platform;
    hints.first = head.first;
    hints.last = head.last;
    hints.count = head.count;
    Ok(true)
}

impl Hints {
    ghost use Rattle.pt_audit.specs.Parsing.Items.{nothing_yet, tally, with_line};
    ghost use Rattle.std.specs.Prelude.{◌<◌, ◌≤◌, ◌+◌, ◌^◌, OnOk};

    /// No hints; no memory is taken.
    pub fn new(alloc: Global) -> Hints
        ensures { tally result ≡ nothing_yet }
    {
        Hints {
            platform: 0,
            first: 0,
            last: 0,
            count: 0,
            posts: Vec::new(alloc),
            taken: Vec::new(alloc),
            claims: 0,
            sent: Vec::new(alloc),
        }
    }

    /// Adds what a line after the first says.
    pub(crate) fn add(&mut self, entry: Entry) -> Result<(), Memory>
        requires { self.old.claims + 1 < 2 ^ 64 }
        ensures tally { OnOk result (tally self.new ≡ with_line (tally self.old) entry) }
        ensures claims { self.new.claims ≤ self.old.claims + 1 }
    {
        match entry {
            Entry::Post(number) => self.posts.push(number)?,
            Entry::Row => {}
            Entry::Take(taken) => self.taken.push(taken)?,
            Entry::Claim => self.claims += 1,
            Entry::Sent(sent) => self.sent.push(sent)?,
        }
        Ok(())
    }

    /// Forgets what the lines after the first said.
    fn clear(&mut self)
        ensures { tally self.new ≡ nothing_yet }
    {
        self.posts.clear();
        self.taken.clear();
        self.claims = 0;
        self.sent.clear();
    }
}
