//! The words of a command line: reads them as an order, or refuses them.
//!
//! The first word is the command, and clap reads the others. Words that clap would read as a bundle of short options are
//! refused first. The grammar is `specs/Grammar.antt`, over the values that the words give (`specs/Said.antt`).
//!
//! Read first: `Order`, then `order`.
#![tactic(auto)]

mod laws;
mod orders;
mod reading;
mod short;
mod values;
mod words;

pub use laws::no_present_answer_changes;
pub use orders::{ClockChoice, Command, GraphFile, Order};
pub use words::order;
