//! Tests of what no clause says and no stored run shows: what the system's files and streams do, and that the
//! grammars of formulas, of their files, of the lines of sensors and of the words of a command line are those that are meant.
//!
//! A file is named by the crate that it tests. Tables of cases are lines of `pt_cases`, which are run and not proved.
#![tactic(auto)]

#[cfg(test)]
mod feeds_tests;
#[cfg(test)]
mod formula_file_tests;
#[cfg(test)]
mod formula_tests;
#[cfg(test)]
mod io_tests;
#[cfg(test)]
mod words_tests;
