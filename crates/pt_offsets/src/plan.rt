//! A graph that can run.

ghost use Rattle.std.specs.Prelude.{◌≡◌, ℕ};
ghost use Rattle.pt_types.specs.declared.graph.Unit.{Unit};
ghost use Rattle.pt_types.specs.Lawful.{IsLawful};
ghost use Rattle.pt_semantics.specs.Bounds.{bound_of};
ghost use Rattle.pt_semantics.specs.Offsets.{HasOffset, IsFeasible};
ghost use Rattle.pt_semantics.specs.Ranks.{AreLevels, AreRanks};
ghost use Rattle.pt_causality.specs.Branches.{AreBranches};
ghost use Rattle.pt_causality.specs.Delays.{AreLeast, AreSmall, least_of};
ghost use Rattle.pt_causality.specs.Ranked.{level_of, rank_of};
ghost use Rattle.pt_offsets.specs.Timings.{actor_offset_of, bound_in, least_offset_in, margin_in, offset_of};
ghost use Rattle.pt_offsets.specs.Words.{IsLeastInWord};
ghost use Rattle.pt_offsets.specs.Margins.{HasActorOffset, HasMargin};
ghost use Rattle.pt_offsets.specs.Plans.{IsAdmitted};

use crate::table::Offsets;
use pt_causality::{Branches, Least, Ranks};
use pt_types::Graph;
use std::marker::Model;

/// An admitted graph, with its least delays, ranks, offsets and branches.
///
/// Contracts see the graph, the least delays, the ranks and the offsets. The type guarantees that the graph is admitted and
/// the other parts belong to it.
#[derive(Drop)]
pub struct Plan {
    graph: Graph,
    least: Least,
    ranks: Ranks,
    offsets: Offsets,
    branches: Branches,
}

impl Model for Plan {
    ghost use Rattle.pt_causality.specs.Branches.{AreBranches};
    ghost use Rattle.pt_offsets.specs.Plans.{Parts, IsAdmitted};

    ghost Value = { Parts };

    ghost view = { λ p. record {
      graph = p.graph;
      least = p.least;
      ranks = p.ranks;
      offsets = p.offsets;
    } };

    ghost invariant = { λ p. IsAdmitted
        (record { graph = p.graph; least = p.least; ranks = p.ranks; offsets = p.offsets })
        × AreBranches p.graph p.branches };
}

impl Plan {
    /// The plan of a graph, from its least delays, ranks, offsets and branches.
    pub fn new(
        graph: Graph,
        least: Least,
        ranks: Ranks,
        offsets: Offsets,
        branches: Branches,
    ) -> Plan
        requires lawful { IsLawful graph }
        requires least { AreLeast graph (least_of least) }
        requires small { AreSmall (least_of least) }
        requires ranks { AreRanks graph (rank_of ranks) }
        requires levels { AreLevels graph (level_of ranks) }
        requires offsets { (u : Unit) → HasOffset graph u (offset_of offsets u) }
        requires actors { (a : ℕ) → HasActorOffset graph a (actor_offset_of offsets a) }
        requires words { (word : ℕ) → IsLeastInWord graph word (least_offset_in offsets word) }
        requires bounds { (a : ℕ) → bound_in offsets a ≡ bound_of graph a }
        requires margins { (a : ℕ) → HasMargin graph a (margin_in offsets a) }
        requires feasible { IsFeasible graph }
        requires branches { AreBranches graph branches }
        ensures graph { result.graph ≡ graph }
        ensures least { result.least ≡ least }
        ensures ranks { result.ranks ≡ ranks }
        ensures offsets { result.offsets ≡ offsets }
    {
        Plan {
            graph,
            least,
            ranks,
            offsets,
            branches,
        }
    }

    /// The graph.
    pub fn graph(&self) -> &Graph
        ensures value { result.now ≡ self.now.graph }
        ensures admitted { IsAdmitted self.now }
    {
        &self.graph
    }

    /// The least delays between its units.
    pub fn least(&self) -> &Least
        ensures value { result.now ≡ self.now.least }
        ensures admitted { IsAdmitted self.now }
    {
        &self.least
    }

    /// The ranks and levels of its actors.
    pub fn ranks(&self) -> &Ranks
        ensures value { result.now ≡ self.now.ranks }
        ensures admitted { IsAdmitted self.now }
    {
        &self.ranks
    }

    /// The bounds, offsets and margins of its actors.
    pub fn offsets(&self) -> &Offsets
        ensures value { result.now ≡ self.now.offsets }
        ensures admitted { IsAdmitted self.now }
    {
        &self.offsets
    }

    /// Where the wires of each actor are among those of the graph.
    pub fn branches(&self) -> &Branches
        ensures { AreBranches self.now.graph result.now }
    {
        &self.branches
    }
}
