//! Formulas of two numbers a and b: what they mean, how they are computed, and how they are read from text.
//!
//! A formula is a list of steps over a stack of numbers. `specs/Meaning.antt` says what a list of steps gives, `value` computes
//! it, and `specs/Tree.antt` has formulas as trees, with the words that they are written in.
//!
//! Read first: `Step`, then `value`.
#![tactic(auto)]

mod arithmetic;
mod evaluate;
mod file;
mod laws;
mod lexer;
mod lines;
mod step;
mod token;
mod words;

pub use evaluate::{MOST_STEPS, value};
pub use file::{FileFault, MOST_FORMULA_BYTES, Numbered, read_file};
pub use laws::{formulas_are_computed, formulas_are_read_back};
pub use lexer::{LexFault, Placed, Unknown, lex};
pub use lines::{Definition, LineFault, Wrong, read_line};
pub use step::{One, Step, Three, Two};
pub use token::{NamedFunction, Refusal, Token};
pub use words::{ParseFault, parse};
