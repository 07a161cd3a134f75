//! What is computed for a graph before it runs, from its wires and links: its edges, the ranks and levels of its actors,
//! and the least delays between its units.
//!
//! - Edges: the wires, with hidden ones, and the links, each with
//!   the delay that it adds to a tag (`edges_of.rt`, `lists.rt`).
//! - Ranks and levels: the search walks back along the edges that take no time. An actor is done once all actors before it
//!   are; then its rank and its level are known. If a walk comes back to an actor that it has not left, there is a cycle
//!   that takes no time, and the graph is refused (`ranked.rt`, `ranking.rt`, `ring.rt`).
//! - Least delays: one search from each unit settles the units in the order of their delays (Dijkstra); its result is a row
//!   of the table (`delays.rt`, `shortest.rt`, `table.rt`).
//!
//! Read first: `causality`, then `AreRanks` in `specs/Ranks.antt` of pt_semantics and `specs/Delays.antt`.
#![tactic(auto)]

mod arcs;
mod before;
mod bits;
mod both;
mod branches;
mod cycle;
mod delays;
mod edges_of;
mod frontier;
mod incoming;
mod least;
mod lists;
mod places;
mod ranked;
mod ranking;
mod ranks;
mod ring;
mod row;
mod shortest;
mod table;
mod units;

pub use bits::{clear_bit, set_bit};
pub use both::causality;
pub use branches::{Branches, find_branches};
pub use cycle::CycleFault;
pub use delays::least_delays;
pub use edges_of::{all_edges, outgoing, weight, wire_edges};
pub use least::Least;
pub use lists::EdgeLists;
pub use ranked::ranks_of;
pub use ranks::Ranks;
pub use ring::rotate_to_least;
