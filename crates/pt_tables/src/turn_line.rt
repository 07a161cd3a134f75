//! The first line of a turn, which many turns have in common.

ghost use Rattle.std.specs.Prelude.{◌≡◌, ◌≤◌, ◌++◌, ◌∷◌, [], List, ℕ, codes, length};
ghost use Rattle.pt_tables.specs.Log.{turn_line};
ghost use Rattle.pt_tables.specs.TurnLine.{HasHead, IsKeptLine};

use crate::line::LineBuffer;
use pt_history::Head;

/// The first line of some turn of a platform. Most turns have the same readings and count as the turn before, so that this
/// line is copied as a whole.
#[derive(Drop)]
pub(crate) struct TurnLine<'a> {
    pub platform: &'a str,
    /// What the lines of its turns begin with.
    pub head: LineBuffer,
    pub first: u64,
    pub last: u64,
    pub count: u64,
    pub line: LineBuffer,
}

impl<'a> TurnLine<'a> {
    /// The line of no turn: its numbers are 0.
    pub(crate) fn new(platform: &'a str) -> TurnLine<'a>
        requires { length platform.now ≤ 32 }
        ensures platform { result.platform.now ≡ platform.now }
        ensures kept { IsKeptLine result }
    {
        let mut line = TurnLine {
            platform,
            head: head_of(platform),
            first: 0,
            last: 0,
            count: 0,
            line: LineBuffer::empty(),
        };
        line.replace(0, 0, 0);
        line
    }

    /// Becomes the line of a turn with these readings and this count.
    #[inline(always)]
    pub(crate) fn renew(&mut self, head: Head)
        requires { IsKeptLine self.old }
        ensures platform { self.new.platform.now ≡ self.old.platform.now }
        ensures line { IsKeptLine self.new }
        ensures first { self.new.first ≡ head.first }
        ensures last { self.new.last ≡ head.last }
        ensures count { self.new.count ≡ head.count }
    {
        let Head { first, last, count } = head;
        if self.first != first || self.last != last || self.count != count {
            self.replace(first, last, count);
        }
    }

    /// Becomes the line of a turn with these readings and this count, which are other ones.
    #[inline(never)]
    fn replace(&mut self, first: u64, last: u64, count: u64)
        requires { HasHead self.old }
        ensures platform { self.new.platform.now ≡ self.old.platform.now }
        ensures line { IsKeptLine self.new }
        ensures first { self.new.first ≡ first }
        ensures last { self.new.last ≡ last }
        ensures count { self.new.count ≡ count }
    {
        self.first = first;
        self.last = last;
        self.count = count;
        write_turn_line(&mut self.line, &self.head, first, last, count);
    }
}

/// What the lines of the turns of a platform begin with: `turn,PLATFORM,`.
fn head_of(platform: &str) -> LineBuffer
    requires { length platform.now ≤ 32 }
    ensures { result ≡ codes "turn," ++ platform.now ++ 44 ∷ [] }
{
    let mut head = LineBuffer::empty();
    head.put(b',');
    head.text(platform);
    head.text("turn,");
    head
}

/// Writes the line of a turn, or of a run of quiet turns, where what it begins with is given.
#[inline(always)]
fn write_turn_line(line: &mut LineBuffer, head: &LineBuffer, first: u64, last: u64, count: u64)
    requires { length head.now ≤ 64 }
    ensures { (platform : List ℕ) → head.now ≡ codes "turn," ++ platform ++ 44 ∷ [] →
        line.new ≡ turn_line platform first last count }
{
    line.end();
    line.field(count);
    line.field(last);
    line.number(first);
    line.put_short(head);
}
