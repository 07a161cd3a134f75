//! The graph file as it is written: its JSON value decoded into a typed document, and the lines of faults.
//!
//! A document has all members that a file must have, each of its JSON
//! type, and no others. Its names and numbers are not checked here.
//!
//! Read first: `Document`, and `specs/Whole.antt`, which defines the document of a JSON value.
#![tactic(auto)]

mod apart;
mod arrays;
mod decode;
mod document;
mod fault;
mod inner;
mod kinds;
mod lines;
mod number;
mod object;
mod reading;
mod short;
mod version;
mod whole;
mod word;

pub use decode::{Decode, Misfit, Stop};
pub use document::{ActorText, Document, LinkText, PairText, RowText, TopNumbers, WireText};
pub use fault::{GraphFault, Part, Place, What};
pub use kinds::KindText;
pub use lines::fault_line;
pub use version::{Version, version_of};
pub use whole::{place, read_document};
pub use word::Word;
