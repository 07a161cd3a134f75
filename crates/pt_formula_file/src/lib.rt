//! The option `--blocks FILE`: a file of formulas whose names graphs use as blocks.
//!
//! `blocks_option` takes the option out of a command line. `add_formulas_of` fetches the file and adds a block for each formula
//! (`specs/Adding.antt`), or says why the file is refused: as text a fault is the line that reports it.
//!
//! Read first: `add_formulas`, then `specs/Adding.antt`.
#![tactic(auto)]

mod adding;
mod fault;
mod fetching;
mod option;

pub use adding::add_formulas;
pub use fault::{FormulaFault, NotAdded, status_of};
pub use fetching::add_formulas_of;
pub use option::{BlocksOption, blocks_option};
