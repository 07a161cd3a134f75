//! The lists of a turn, whose lines are written one by one.

ghost use Rattle.std.specs.Prelude.{◌≡◌, ◌<◌, ◌≤◌, Some, length, slice_get};
ghost use Rattle.pt_semantics.specs.Turn.{Turn};
ghost use Rattle.pt_tables.specs.Names.{HasShortNames};
ghost use Rattle.pt_tables.specs.TurnLists.{AreListsOf, count_of, entry_lines};
ghost use Rattle.pt_tables.specs.Walk.{AreThrough, IsAtTurn};

use crate::lines::{write_claim, write_post, write_row, write_sent, write_taken};
use crate::pen::Pen;
use crate::walk::{Counts, Walk, rows_in, sent_in, taken_in};
use pt_history::History;
use pt_types::{Graph, OnLink, RowAt};

/// A list of a turn. Each of its items has a line.
#[derive(Clone, Copy, Debug, PartialEq, Eq)]
pub(crate) enum TurnList {
    Posted,
    Rows,
    Taken,
    Claimed,
    Sent,
}

/// The lists of a recorded turn.
#[derive(Drop)]
pub(crate) struct TurnLists<'a> {
    /// The number of the turn.
    pub number: usize,
    /// The results and claims of the turns before it.
    pub before: Counts,
    /// The same with its own.
    pub through: Counts,
    /// The rows that entered.
    pub rows: &'a [RowAt],
    /// The messages that it took.
    pub taken: &'a [OnLink],
    /// The messages that were sent after it.
    pub sent: &'a [OnLink],
}

impl<'a> TurnLists<'a> {
    /// The lists of the turn to which a walk has come, where the results and claims up to its end are counted.
    #[inline(always)]
    pub(crate) fn of(
        history: &'a History,
        walk: &Walk,
        number: usize,
        through: Counts,
    ) -> TurnLists<'a>
        requires number { number < length history.now.turns }
        requires walk { IsAtTurn history.now.turns number walk.now }
        requires through { AreThrough history.now.turns number through }
        ensures number { result.number ≡ number }
        ensures lists { AreListsOf history.now.turns result }
    {
        TurnLists {
            number,
            before: Counts {
                results: walk.results,
                claims: walk.claims,
            },
            through,
            rows: rows_in(history, &walk.levels, number),
            taken: taken_in(history, &walk.levels, number),
            sent: sent_in(history, &walk.levels, number),
        }
    }

    /// How many items a list has.
    #[inline(always)]
    pub(crate) fn count(&self, list: TurnList) -> usize
        requires results { self.now.before.results ≤ self.now.through.results }
        requires claims { self.now.before.claims ≤ self.now.through.claims }
        ensures { result ≡ count_of self.now list }
    {
        match list {
            TurnList::Posted => self.through.results - self.before.results,
            TurnList::Rows => self.rows.len(),
            TurnList::Taken => self.taken.len(),
            TurnList::Claimed => self.through.claims - self.before.claims,
            TurnList::Sent => self.sent.len(),
        }
    }

    /// Writes the line of an item.
    #[inline(always)]
    pub(crate) fn write(
        &self,
        pen: &mut Pen,
        graph: &Graph,
        history: &History,
        list: TurnList,
        index: usize,
    )
        requires number { self.now.number < length history.now.turns }
        requires lists { AreListsOf history.now.turns self.now }
        requires index { index < count_of self.now list }
        requires names { HasShortNames graph.now }
        ensures { (turn : Turn) → slice_get history.now.turns self.now.number ≡ Some turn →
            slice_get (entry_lines graph.now turn list) index ≡ Some pen.new.line }
    {
        match list {
            TurnList::Posted => write_post(
                &mut pen.line,
                history.result_mark(self.before.results + index),
            ),
            TurnList::Rows => write_row(&mut pen.line, graph, &self.rows[index]),
            TurnList::Taken => write_taken(&mut pen.line, graph, &self.taken[index]),
            TurnList::Claimed => write_claim(pen, graph, history.mark(self.before.claims + index)),
            TurnList::Sent => write_sent(&mut pen.line, graph, &self.sent[index]),
        }
    }
}
