//! The limits of the arrays of a file.

ghost use Rattle.std.specs.Prelude.{◌≡◌, nat_lt, map, sum, min, ◌-◌, ◌^◌};
ghost use Rattle.std.specs.List.{list_any};
ghost use Rattle.pt_graph_text.specs.declared.document.ActorText.{ActorText};
ghost use Rattle.pt_graph.specs.Limits.{too_many, most_actors, most_wires, machine_row_count, lane_cell_count};

use pt_graph_text::{ActorText, Document, GraphFault, KindText, Version, What};

/// The first array that is too long.
#[tactic(auto, unfolding(crate::specs::Limits::too_many))]
pub fn too_many(document: &Document) -> Option<GraphFault>
    ensures { result ≡ too_many document.now }
{
    if document.platforms.as_slice().len() > 16 {
        Some(GraphFault::TooMany(What::Platforms))
    } else if document.actors.as_slice().len() > most_actors(document.version) {
        Some(GraphFault::TooMany(What::Actors))
    } else if document.wires.as_slice().len() > most_wires(document.version) {
        Some(GraphFault::TooMany(What::Wires))
    } else if document.links.as_slice().len() > 64 {
        Some(GraphFault::TooMany(What::Links))
    } else if document.pairs.as_slice().len() > 120 {
        Some(GraphFault::TooMany(What::Pairs))
    } else if has_many_rows(document.actors.as_slice()) {
        Some(GraphFault::TooMany(What::Rows))
    } else if has_many_cells(document.actors.as_slice()) {
        Some(GraphFault::TooMany(What::Cells))
    } else {
        None
    }
}

fn most_actors(version: Version) -> usize
    ensures { result ≡ most_actors version }
{
    match version {
        Version::First => 256,
        Version::Second => 1024,
    }
}

fn most_wires(version: Version) -> usize
    ensures { result ≡ most_wires version }
{
    match version {
        Version::First => 1024,
        Version::Second => 4096,
    }
}

fn has_many_rows(actors: &[ActorText]) -> bool
    ensures { result ≡ list_any (λ (a : ActorText). nat_lt 64
        (machine_row_count a.kind)) actors.now }
{
    actors.iter().any(|actor| row_count(&actor.kind) > 64)
}

fn row_count(kind: &KindText) -> usize
    ensures { result ≡ machine_row_count kind.now }
{
    match kind {
        KindText::Machine { rows, .. } => rows.as_slice().len(),
        _ => 0,
    }
}

fn has_many_cells(actors: &[ActorText]) -> bool
    ensures { result ≡ nat_lt 1024 (sum
        (map (λ (a : ActorText). lane_cell_count a.kind) actors.now)) }
{
    cells_of_all(actors) > 1024
}

/// The number of cells of all lanes, at most the greatest `usize`.
fn cells_of_all(actors: &[ActorText]) -> usize
    ensures { result ≡ min (sum (map (λ (a : ActorText). lane_cell_count a.kind) actors.now))
        (2 ^ 64 - 1) }
{
    let mut total: usize = 0;
    for actor in actors {
        total = total.saturating_add(cell_count(&actor.kind));
    }
    total
}

fn cell_count(kind: &KindText) -> usize
    ensures { result ≡ lane_cell_count kind.now }
{
    match kind {
        KindText::Lanes { cells } => cells.as_slice().len(),
        _ => 0,
    }
}
