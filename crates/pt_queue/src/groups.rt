//! The groups of the inputs of each actor.

ghost use Rattle.std.specs.Prelude.{◌≡◌, ◌≤◌, IfOk};
ghost use Rattle.pt_types.specs.Lawful.{IsLawful};
ghost use Rattle.pt_semantics.specs.Units.{groups};
ghost use Rattle.pt_types.specs.Groups.{input_group};
ghost use Rattle.pt_queue.specs.Groups.{kind_groups, groups_at, group_in, AreGroups};

use pt_types::{Graph, Kind};
use std::alloc::{AllocError, Global};

/// How the inputs of an actor are grouped into units.
#[derive(Clone, Copy)]
pub struct Groups {
    /// The group of each of the eight inputs, hidden ones included.
    pub inputs: [u32; 8],
    /// The number of groups.
    pub count: u32,
}

/// The group of an input of an actor of this kind.
fn group(kind: &Kind, input: u32) -> u32
    requires few { groups kind.now ≤ 8 }
    ensures { result ≡ input_group kind.now input }
{
    kind.input_group(input) as u32
}

/// The number of groups of a kind.
fn count(kind: &Kind) -> u32
    requires few { groups kind.now ≤ 8 }
    ensures { result ≡ groups kind.now }
{
    match kind {
        Kind::Lanes { cells } => cells.as_slice().len() as u32,
        _ => 1,
    }
}

/// How the inputs of an actor of this kind are grouped.
fn groups_of(kind: &Kind) -> Groups
    requires few { groups kind.now ≤ 8 }
    ensures { result ≡ kind_groups kind.now }
{
    Groups {
        inputs: [
            group(kind, 0),
            group(kind, 1),
            group(kind, 2),
            group(kind, 3),
            group(kind, 4),
            group(kind, 5),
            group(kind, 6),
            group(kind, 7),
        ],
        count: count(kind),
    }
}

/// The groups of every actor of a graph.
pub fn all_groups(alloc: Global, graph: &Graph) -> Result<Vec<Groups>, AllocError>
    requires lawful { IsLawful graph.now }
    ensures { IfOk result (λ v. AreGroups graph.now v.items) }
{
    let mut groups = Vec::new(alloc);
    for actor in graph.actors.as_slice() {
        groups.push(groups_of(&actor.kind))?;
    }
    Ok(groups)
}

/// The number of groups of an actor; 1 past the table's end.
pub fn count_at(table: &[Groups], actor: u32) -> u32
    ensures { result ≡ (groups_at table.now actor).count }
{
    match table.get(actor as usize) {
        Some(groups) => groups.count,
        None => 1,
    }
}

/// The group of an input of an actor; 0 past the table's end.
pub fn group_in(table: &[Groups], actor: u32, input: u32) -> u32
    ensures { result ≡ group_in table.now actor input }
{
    match table.get(actor as usize) {
        Some(groups) => groups.inputs.get(input as usize).copied().unwrap_or(0),
        None => 0,
    }
}
