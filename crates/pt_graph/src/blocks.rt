//! The names of blocks.

ghost use Rattle.std.specs.Prelude.{◌≡◌, position, not};
ghost use Rattle.std.specs.List.{list_all};
ghost use Rattle.pt_graph_text.specs.declared.document.ActorText.{ActorText};
ghost use Rattle.pt_graph_text.specs.declared.document.RowText.{RowText};
ghost use Rattle.pt_blocks.specs.Blocks.{find_block};
ghost use Rattle.pt_graph.specs.EndFaults.{block_place, has_blocks, guard_has_block, has_name};

use crate::ranges::found;
use pt_blocks::Named;
use pt_graph_text::{ActorText, Document, KindText, Part, Place, RowText, Word};

/// The first actor that names an unknown block.
pub fn block_place(listed: &[Named], document: &Document) -> Option<Place>
    ensures { result ≡ block_place listed.now document.now }
{
    let actors = document.actors.as_slice();
    found(Part::Actor, lost(listed, actors))
}

fn lost(listed: &[Named], actors: &[ActorText]) -> Option<usize>
    ensures { result ≡ position (λ (a : ActorText). not (has_blocks listed.now a.kind)) actors.now }
{
    actors.iter().position(|a| !has_blocks(listed, &a.kind))
}

fn has_blocks(listed: &[Named], kind: &KindText) -> bool
    ensures { result ≡ has_blocks listed.now kind.now }
{
    match kind {
        KindText::Block { block } => has_name(listed, block),
        KindText::Machine { rows, .. } => guards_have_blocks(listed, rows.as_slice()),
        _ => true,
    }
}

fn guards_have_blocks(listed: &[Named], rows: &[RowText]) -> bool
    ensures { result ≡ list_all (λ (r : RowText). guard_has_block listed.now r.guard) rows.now }
{
    rows.iter().all(|row| guard_has_block(listed, &row.guard))
}

#[tactic(auto, unfolding(crate::specs::EndFaults::guard_has_block))]
fn guard_has_block(listed: &[Named], guard: &Option<Word>) -> bool
    ensures { result ≡ guard_has_block listed.now guard.now }
{
    match guard {
        Some(name) => has_name(listed, name),
        None => true,
    }
}

fn has_name(listed: &[Named], name: &Word) -> bool
    ensures { result ≡ has_name listed.now name.now }
{
    find(listed, name).is_some()
}

/// The number of the block with this name.
pub fn find(listed: &[Named], name: &Word) -> Option<usize>
    ensures { result ≡ find_block listed.now name.now }
{
    let name = name.as_str();
    listed.iter().position(|block| block.name.as_str() == name)
}
