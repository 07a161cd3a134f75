//! The lines of the turns of a platform. Each is put as it is made.

ghost use Rattle.std.specs.Prelude.{◌≡◌, ◌+◌, ◌<◌, OnErr, OnOk, Some, length, slice_get};
ghost use Rattle.pt_io.specs.Calls.{writing};
ghost use Rattle.pt_semantics.specs.Turn.{Turn};
ghost use Rattle.pt_tables.specs.Log.{history_lines, list_lines};
ghost use Rattle.pt_tables.specs.Names.{HasShortNames};
ghost use Rattle.pt_tables.specs.Putting.{IsPartPut, IsPut};
ghost use Rattle.pt_tables.specs.Reader.{HasComeTo};
ghost use Rattle.pt_tables.specs.TurnLists.{AreListsOf, all_lines, entry_lines, named_lines};

use crate::pen::Pen;
use crate::reader::Reader;
use crate::turn_lists::{TurnList, TurnLists};
use crate::walk::{counts_through, pass};
use pt_history::History;
use pt_io::{PutFault, Sink};
use pt_types::Graph;

/// Puts the lines of all turns of a platform.
pub(crate) fn put_turns<K: Sink>(
    out: &mut K,
    graph: &Graph,
    platform: u32,
    history: &History,
) -> Result<(), PutFault>
    requires { HasShortNames graph.now }
    ensures all { OnOk result (IsPut (writing K.Sink out.old out.new)
        (history_lines graph.now platform history.now.turns)) }
    ensures part { OnErr result (IsPartPut (writing K.Sink out.old out.new)
        (history_lines graph.now platform history.now.turns)) }
{
    let mut reader = Reader::new(graph.platform_name(platform), history);
    for number in 0..history.turns() {
        put_turn(out, &mut reader, graph, history, number)?;
    }
    Ok(())
}

/// Puts the lines of the next turn: its own, and then those of its lists.
#[inline(always)]
fn put_turn<K: Sink>(
    out: &mut K,
    reader: &mut Reader<'_>,
    graph: &Graph,
    history: &History,
    number: usize,
) -> Result<(), PutFault>
    requires number { number < length history.now.turns }
    requires at { HasComeTo history.now.turns number reader.old }
    requires names { HasShortNames graph.now }
    ensures platform { OnOk result (reader.new.line.platform.now ≡ reader.old.line.platform.now) }
    ensures at { OnOk result (HasComeTo history.now.turns (number + 1) reader.new) }
    ensures all { OnOk result ((turn : Turn) → slice_get history.now.turns number ≡ Some turn →
        IsPut (writing K.Sink out.old out.new)
        (named_lines graph.now reader.old.line.platform.now turn)) }
    ensures part { OnErr result ((turn : Turn) → slice_get history.now.turns number ≡ Some turn →
        IsPartPut (writing K.Sink out.old out.new)
        (named_lines graph.now reader.old.line.platform.now turn)) }
{
    reader.renew(history, number);
    let through = counts_through(&reader.walk, history, number);
    out.put(reader.line.line.as_bytes())?;
    let lists = TurnLists::of(history, &reader.walk, number, through);
    put_lists(out, &mut reader.pen, &lists, graph, history)?;
    pass(&mut reader.walk, history, number, through);
    Ok(())
}

/// Puts the lines of the lists of a turn.
#[inline(always)]
fn put_lists<K: Sink>(
    out: &mut K,
    pen: &mut Pen,
    lists: &TurnLists<'_>,
    graph: &Graph,
    history: &History,
) -> Result<(), PutFault>
    requires number { lists.now.number < length history.now.turns }
    requires lists { AreListsOf history.now.turns lists.now }
    requires names { HasShortNames graph.now }
    ensures all { OnOk result ((turn : Turn) →
        slice_get history.now.turns lists.now.number ≡ Some turn →
        IsPut (writing K.Sink out.old out.new) (list_lines graph.now turn)) }
    ensures part { OnErr result ((turn : Turn) →
        slice_get history.now.turns lists.now.number ≡ Some turn →
        IsPartPut (writing K.Sink out.old out.new) (list_lines graph.now turn)) }
{
    put_list(out, pen, lists, graph, history, TurnList::Posted)?;
    put_list(out, pen, lists, graph, history, TurnList::Rows)?;
    put_list(out, pen, lists, graph, history, TurnList::Taken)?;
    put_list(out, pen, lists, graph, history, TurnList::Claimed)?;
    put_list(out, pen, lists, graph, history, TurnList::Sent)
}

/// Puts the lines of the items of a list.
#[inline(always)]
fn put_list<K: Sink>(
    out: &mut K,
    pen: &mut Pen,
    lists: &TurnLists<'_>,
    graph: &Graph,
    history: &History,
    list: TurnList,
) -> Result<(), PutFault>
    requires number { lists.now.number < length history.now.turns }
    requires lists { AreListsOf history.now.turns lists.now }
    requires names { HasShortNames graph.now }
    ensures all { OnOk result ((turn : Turn) →
        slice_get history.now.turns lists.now.number ≡ Some turn →
        IsPut (writing K.Sink out.old out.new) (all_lines (entry_lines graph.now turn list))) }
    ensures part { OnErr result ((turn : Turn) →
        slice_get history.now.turns lists.now.number ≡ Some turn →
        IsPartPut (writing K.Sink out.old out.new) (all_lines (entry_lines graph.now turn list))) }
{
    for index in 0..lists.count(list) {
        lists.write(pen, graph, history, list, index);
        out.put(pen.line.as_bytes())?;
    }
    Ok(())
}
