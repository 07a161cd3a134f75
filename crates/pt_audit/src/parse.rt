//! Parses the log part of a file: cut into the blocks of its turns, and what the lines of a turn say of it.
//!
//! A file is cut into lines and blocks as in `specs/Parsing/Lines.antt`. `read_hints` reads back what the log writes of a turn, as in
//! `specs/Parsing/Hints.antt`, and nothing more is promised of it: a reader prints the turn that it makes again and compares.
//!
//! Read first: `log_at` and `Cursor`, then `read_hints`.

mod cursor;
mod entries;
mod fields;
mod head;
mod hints;
mod names;
mod numbers;
mod turn_lines;

pub use cursor::{Cursor, LogAt, TurnText, log_at};
pub use hints::{Hints, read_hints};
