//! The plain types that the definitions and the program share: the graph with its actors, wires and links,
//! and the values that actors, platforms and links exchange.
//!
//! This crate has types, lookups and limits only. Parts of a graph are named by their numbers, from 0 in file order.
//!
//! Read first: `Graph`, then `Kind`.
#![tactic(auto)]

mod air;
mod firing;
mod graph;
mod kind;
mod limits;
mod lookups;
mod ports;
mod rows;
mod units;

pub use air::{Air, InAir};
pub use firing::{ActorFiring, Done, Event, Fired, OnLink, Task};
pub use graph::{Actor, Edge, Graph, Link, PairError, Unit, Wire};
pub use kind::{Kind, Law, MachineRow};
pub use limits::{MOST_GRAPH_BYTES, MOST_LOG_BYTES, MOST_TIME, USUAL_CLAIMS};
pub use ports::Ports;
pub use rows::{Row, RowAt};
