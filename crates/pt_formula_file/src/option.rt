//! The option and the other words.

ghost use Rattle.std.specs.Prelude.{◌≡◌, ◌++◌, ◌∷◌, [], IfOk, OnOk, false, map, string_bytes};
ghost use Rattle.std.specs.List.{after_first, before_first};
ghost use Rattle.pt_formula_file.specs.Option.{behind, found, is_dashed, is_equals, named_by, named_next, needs_value, option_of, viewed};

use std::alloc::{AllocError, Global};

/// A file of formulas, and the other words of the command line.
#[derive(Drop)]
pub struct BlocksOption {
    pub file: String,
    pub words: Vec<String>,
}

/// The file that a command line names by `--blocks FILE` or `--blocks=FILE`, and its words without that; `None` if no word before a
/// `--` is such an option, if it names no file, and for `make`, which reads no graph. A second `--blocks` stays among the words.
///
/// `run g.json --blocks f.blocks --log` names `f.blocks`, and leaves `run g.json --log`.
pub fn blocks_option(alloc: Global, words: &[String]) -> Result<Option<BlocksOption>, AllocError>
    ensures { IfOk result (λ o. viewed o ≡ option_of (map string_bytes words.now)) }
{
    match words {
        [] => Ok(None),
        [verb, rest @ ..] => {
            if verb.as_str() == "make" {
                Ok(None)
            } else {
                found(alloc, verb, rest)
            }
        }
    }
}

/// Looks for the option among the words after the command.
fn found(alloc: Global, verb: &String, words: &[String]) -> Result<Option<BlocksOption>, AllocError>
    ensures { IfOk result (λ o. viewed o
        ≡ behind (string_bytes verb.now ∷ []) (found false (map string_bytes words.now))) }
{
    let mut before = Vec::new(alloc);
    keep(alloc, &mut before, verb)?;
    let mut is_value = false;
    for (at, word) in words.iter().enumerate() {
        if is_value {
            is_value = false;
            keep(alloc, &mut before, word)?;
        } else if word.as_str() == "--" {
            return Ok(None);
        } else if word.as_str() == "--blocks" {
            return named_next(alloc, before, &words[at + 1..]);
        } else {
            let (name, file) = halves(word.as_str());
            if name == "--blocks" {
                return named_by(alloc, before, file, &words[at + 1..]);
            }
            is_value = needs_value(word.as_str());
            keep(alloc, &mut before, word)?;
        }
    }
    Ok(None)
}

/// The file is the next word.
fn named_next(
    alloc: Global,
    before: Vec<String>,
    words: &[String],
) -> Result<Option<BlocksOption>, AllocError>
    ensures { IfOk result (λ o. viewed o
        ≡ behind (map string_bytes before.items) (named_next (map string_bytes words.now))) }
{
    match words {
        [] => Ok(None),
        [file, after @ ..] => {
            if is_dashed(file.as_str()) {
                Ok(None)
            } else {
                named_by(alloc, before, file.as_str(), after)
            }
        }
    }
}

/// The file has this name, and these words come after it.
fn named_by(
    alloc: Global,
    before: Vec<String>,
    file: &str,
    words: &[String],
) -> Result<Option<BlocksOption>, AllocError>
    ensures { IfOk result (λ o. viewed o
        ≡ behind (map string_bytes before.items) (named_by file.now (map string_bytes words.now))) }
{
    if file.len() == 0 {
        return Ok(None);
    }
    let mut others = before;
    for word in words {
        keep(alloc, &mut others, word)?;
    }
    let file = String::from_str(alloc, file)?;
    Ok(Some(BlocksOption {
        file,
        words: others,
    }))
}

/// Adds a copy of a word.
fn keep(alloc: Global, words: &mut Vec<String>, word: &String) -> Result<(), AllocError>
    ensures { OnOk result (map string_bytes words.new.items
        ≡ map string_bytes words.old.items ++ string_bytes word.now ∷ []) }
{
    let copy = String::from_str(alloc, word.as_str())?;
    words.push(copy)?;
    Ok(())
}

/// Whether the next word is the value of this option.
fn needs_value(word: &str) -> bool
    ensures { result ≡ needs_value word.now }
{
    word == "--workers" || word == "--clock" || word == "--claims"
}

fn is_dashed(word: &str) -> bool
    ensures { result ≡ is_dashed word.now }
{
    match word.as_bytes() {
        [first, _, ..] => *first == b'-',
        _ => false,
    }
}

/// What is before the first `=`, and what is after it; without a `=`, the whole and nothing.
fn halves(word: &str) -> (&str, &str)
    ensures before { result.0.now ≡ before_first is_equals word.now }
    ensures after { result.1.now ≡ after_first is_equals word.now }
{
    word.split_once('=').unwrap_or((word, ""))
}
