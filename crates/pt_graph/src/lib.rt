//! Reads the graph file: gives the graph of a text, or its first fault.
//!
//! The text is decoded into a document (pt_graph_text). The document is checked, from limits to unknown names, each check
//! over all of it. Then names are replaced by numbers, and the wires, links and names of blocks are checked.
//!
//! Read first: `read_graph`, and `specs/GraphOf.antt`, which defines the graph of a text.
#![tactic(auto)]

mod blocks;
mod convert;
mod ends;
mod index;
mod known;
mod limits;
mod naming;
mod ranges;
mod reader;

pub use ends::ends_fit;
pub use pt_graph_text::{GraphFault, Part, Place, What, fault_line};
pub use pt_types::{Actor, Graph, Kind, Law, Link, MachineRow, PairError, Unit, Wire};
pub use reader::read_graph;
