//! Lists of edges by actor.

ghost use Rattle.std.specs.Prelude.{◌≡◌, ◌∷◌, ◌++◌, [], IfOk, OnOk, replicate, slice_index_or, slice_set};

use pt_tags::List;
use pt_types::Edge;
use std::alloc::{AllocError, Global};
use std::marker::Model;

/// A list of edges for each of a number of actors. Contracts see these lists.
#[derive(Drop)]
pub struct EdgeLists {
    lists: Vec<Vec<Edge>>,
}

impl Model for EdgeLists {
    ghost use Rattle.std.specs.Prelude.{List};
    ghost use Rattle.pt_types.specs.declared.graph.Edge.{Edge};
    ghost use Rattle.pt_causality.specs.Wiring.{by_actor};

    ghost Value = { List (List Edge) };

    ghost view = { λ l. by_actor l.lists.items };
}

impl EdgeLists {
    /// An empty list for each of `count` actors.
    pub fn new(alloc: Global, count: usize) -> Result<EdgeLists, AllocError>
        ensures { IfOk result (λ lists. lists ≡ replicate count []) }
    {
        let mut lists = Vec::new(alloc);
        for _actor in 0..count {
            lists.push(Vec::new(alloc))?;
        }
        Ok(EdgeLists { lists })
    }

    /// Adds an edge at the end of an actor's list; does nothing if there is no such actor.
    pub fn add(&mut self, actor: u32, edge: Edge) -> Result<(), AllocError>
        ensures { OnOk result (self.new ≡ slice_set self.old actor
            (slice_index_or self.old actor [] ++ edge ∷ [])) }
    {
        if (actor as usize) < self.lists.len() {
            self.lists[actor as usize].push(edge)?;
        }
        Ok(())
    }

    /// The lists, by actor.
    pub fn into_lists(self, alloc: Global) -> Result<Vec<List<Edge>>, AllocError>
        ensures { IfOk result (λ lists. lists.items ≡ self) }
    {
        let EdgeLists { lists } = self;
        lists.into_iter().map(List::new).collect(alloc)
    }
}
