//! A reader of the turns of a platform, one after another.

ghost use Rattle.std.specs.Prelude.{◌≡◌, ◌<◌, ◌≤◌, length};
ghost use Rattle.pt_tables.specs.Reader.{HasComeTo};
ghost use Rattle.pt_tables.specs.TurnLine.{HasNumbersOf, IsKeptLine};

use crate::pen::Pen;
use crate::turn_line::TurnLine;
use crate::walk::{Walk, head_after};
use pt_history::History;

/// Reads a history turn by turn, and writes lines.
#[derive(Drop)]
pub(crate) struct Reader<'a> {
    /// The line of the last turn that was read, or of no turn.
    pub line: TurnLine<'a>,
    pub walk: Walk,
    pub pen: Pen,
}

impl<'a> Reader<'a> {
    /// A reader of the turns of a platform with this name, at the first turn.
    pub(crate) fn new(platform: &'a str, history: &History) -> Reader<'a>
        requires { length platform.now ≤ 32 }
        ensures platform { result.line.platform.now ≡ platform.now }
        ensures first { HasComeTo history.now.turns 0 result }
    {
        Reader {
            line: TurnLine::new(platform),
            walk: Walk::new(history),
            pen: Pen::new(),
        }
    }

    /// The line becomes that of the next turn.
    #[inline(always)]
    pub(crate) fn renew(&mut self, history: &History, number: usize)
        requires number { number < length history.now.turns }
        requires at { HasComeTo history.now.turns number self.old }
        ensures platform { self.new.line.platform.now ≡ self.old.line.platform.now }
        ensures line { IsKeptLine self.new.line }
        ensures head { HasNumbersOf history.now.turns number self.new.line }
        ensures walk { self.new.walk ≡ self.old.walk }
    {
        let head = head_after(history, &self.walk.levels, self.line.last, number);
        self.line.renew(head);
    }
}
