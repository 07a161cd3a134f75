//! The lines of one turn, as text.

ghost use Rattle.std.specs.Prelude.{◌≡◌, ◌++◌, ◌<◌, OnOk, Some, length, option_map, slice_get, string_bytes};
ghost use Rattle.pt_types.specs.Lawful.{IsLawful};
ghost use Rattle.pt_semantics.specs.Turn.{Turn};
ghost use Rattle.pt_tables.specs.Log.{list_lines};
ghost use Rattle.pt_tables.specs.Names.{HasShortNames};
ghost use Rattle.pt_tables.specs.TurnLists.{AreListsOf, all_lines, entry_lines};

use crate::pen::Pen;
use crate::turn_lists::{TurnList, TurnLists};
use crate::walk::{Walk, counts_through};
use pt_history::History;
use pt_types::Graph;
use std::alloc::AllocError;

/// Appends the lines of the lists of one recorded turn: all its lines but the first.
pub fn push_lists(
    text: &mut String,
    graph: &Graph,
    history: &History,
    number: usize,
) -> Result<(), AllocError>
    requires lawful { IsLawful graph.now }
    requires number { number < length history.now.turns }
    ensures { OnOk result (option_map (λ turn. string_bytes text.old ++ list_lines graph.now turn)
        (slice_get history.now.turns number) ≡ Some (string_bytes text.new)) }
{
    let walk = Walk::at(history, number);
    let through = counts_through(&walk, history, number);
    let lists = TurnLists::of(history, &walk, number, through);
    let mut pen = Pen::new();
    let pen = &mut pen;
    push_list(text, pen, &lists, graph, history, TurnList::Posted)?;
    push_list(text, pen, &lists, graph, history, TurnList::Rows)?;
    push_list(text, pen, &lists, graph, history, TurnList::Taken)?;
    push_list(text, pen, &lists, graph, history, TurnList::Claimed)?;
    push_list(text, pen, &lists, graph, history, TurnList::Sent)
}

/// Appends the lines of the items of a list.
fn push_list(
    text: &mut String,
    pen: &mut Pen,
    lists: &TurnLists<'_>,
    graph: &Graph,
    history: &History,
    list: TurnList,
) -> Result<(), AllocError>
    requires number { lists.now.number < length history.now.turns }
    requires lists { AreListsOf history.now.turns lists.now }
    requires names { HasShortNames graph.now }
    ensures { OnOk result ((turn : Turn) →
        slice_get history.now.turns lists.now.number ≡ Some turn →
        string_bytes text.new ≡ string_bytes text.old
        ++ all_lines (entry_lines graph.now turn list)) }
{
    for index in 0..lists.count(list) {
        lists.write(pen, graph, history, list, index);
        text.push_str(pen.line.as_str())?;
    }
    Ok(())
}
