//! Writes the graph file: gives the text of a graph, which the reader of graphs can read.
//!
//! Each part of a graph is encoded as a JSON value by an impl of one trait. The whole value is then written as text.
//!
//! Read first: `graph_text`, and `specs/Text.antt`, which defines the text of a graph.
#![tactic(auto)]

mod encode;
mod kinds;
mod members;
mod parts;
mod rows;
mod writer;

pub use writer::graph_text;
