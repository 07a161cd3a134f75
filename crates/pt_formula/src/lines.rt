//! Lines of a file of formulas.

ghost use Rattle.std.specs.Prelude.{◌≡◌, ◌≤◌, length, drop, IfOk, Ok, Some};
ghost use Rattle.pt_formula.specs.Lines.{IsLine, equals_line, formula_line, is_name, line_of, name_line, place, trimmed_line, with_words, words_in};

use crate::lexer::{LexFault, Placed, Unknown, blanks_len, equals_next, is_letter, lex, name_len};
use crate::step::Step;
use crate::token::{Refusal, Token};
use crate::words::{ParseFault, parse};
use std::alloc::{AllocError, Global};

/// A name and the steps of its formula.
#[derive(Drop)]
pub struct Definition {
    pub name: Vec<u8>,
    pub steps: Vec<Step>,
}

/// Why a line is refused.
#[derive(Clone, Copy, Debug, PartialEq, Eq)]
pub enum Wrong {
    /// A name should stand here: 1 to 32 letters, digits and `_`, the first a letter.
    Name,
    /// `=` should stand here.
    Equals,
    /// This is no word of a formula.
    Word(Unknown),
    /// The words are no formula.
    Formula(Refusal),
}

/// Why a line is refused, and where.
#[derive(Clone, Copy, Debug, PartialEq, Eq)]
pub enum LineFault {
    /// Out of memory.
    Memory,
    /// At this byte of the line, from 0.
    At { at: usize, why: Wrong },
}

impl From<AllocError> for LineFault {
    ghost use Rattle.std.specs.Prelude.{◌≡◌};
    ghost use Rattle.pt_formula.specs.declared.lines.LineFault.TheVariants.{Memory};

    ghost from_gives = { λ _ fault. fault ≡ Memory };

    fn from(_refused: AllocError) -> LineFault {
        LineFault::Memory
    }
}

/// What a line defines; `None` if it has no more than a comment.
///
/// `twice = a * 2` defines `twice` with three steps. In `2a = b` a name is missing at byte 0, in `half = a /` a formula at byte 10.
pub fn read_line(alloc: Global, line: &[u8]) -> Result<Option<Definition>, LineFault>
    ensures { IsLine (line_of line.now) result }
{
    trimmed_line(alloc, line, blanks_len(line))
}

fn trimmed_line(alloc: Global, line: &[u8], at: usize) -> Result<Option<Definition>, LineFault>
    requires { at ≤ length line.now }
    ensures { IsLine (trimmed_line at (drop at line.now)) result }
{
    match &line[at..] {
        [] | [b'#', ..] => Ok(None),
        _ => name_line(alloc, line, at),
    }
}

fn name_line(alloc: Global, line: &[u8], at: usize) -> Result<Option<Definition>, LineFault>
    requires { at ≤ length line.now }
    ensures { IsLine (name_line at (drop at line.now)) result }
{
    let len = name_len(&line[at..]);
    let name = &line[at..at + len];
    if is_name(name) {
        equals_line(alloc, name, line, at + len)
    } else {
        Err(LineFault::At {
            at,
            why: Wrong::Name,
        })
    }
}

fn is_name(name: &[u8]) -> bool
    ensures { result ≡ is_name name.now }
{
    1 <= name.len() && name.len() <= 32 && is_letter(name[0])
}

fn equals_line(
    alloc: Global,
    name: &[u8],
    line: &[u8],
    at: usize,
) -> Result<Option<Definition>, LineFault>
    requires { at ≤ length line.now }
    ensures { IsLine (equals_line name.now at (drop at line.now)) result }
{
    let equals = at + blanks_len(&line[at..]);
    if equals_next(&line[equals..]) {
        formula_line(alloc, name, line, equals + 1)
    } else {
        Err(LineFault::At {
            at: equals,
            why: Wrong::Equals,
        })
    }
}

fn formula_line(
    alloc: Global,
    name: &[u8],
    line: &[u8],
    at: usize,
) -> Result<Option<Definition>, LineFault>
    requires { at ≤ length line.now }
    ensures { IsLine (formula_line name.now at (drop at line.now)) result }
{
    match lex(alloc, line, at) {
        Ok(words) => with_words(alloc, name, line.len(), words.as_slice()),
        Err(LexFault::Memory) => Err(LineFault::Memory),
        Err(LexFault::At { at, why }) => Err(LineFault::At {
            at,
            why: Wrong::Word(why),
        }),
    }
}

fn with_words(
    alloc: Global,
    name: &[u8],
    end: usize,
    placed: &[Placed],
) -> Result<Option<Definition>, LineFault>
    ensures { IsLine (with_words name.now end (Ok placed.now)) result }
{
    let words = words_in(alloc, placed)?;
    match parse(alloc, words.as_slice()) {
        Ok(steps) => defined(alloc, name, steps),
        Err(ParseFault::Memory) => Err(LineFault::Memory),
        Err(ParseFault::Refused { word, why }) => Err(LineFault::At {
            at: place(end, placed, word),
            why: Wrong::Formula(why),
        }),
    }
}

fn defined(alloc: Global, name: &[u8], steps: Vec<Step>) -> Result<Option<Definition>, LineFault>
    ensures { IsLine (Ok (Some (name.now, steps.items))) result }
{
    let name = Vec::from_slice(alloc, name)?;
    Ok(Some(Definition { name, steps }))
}

fn words_in(alloc: Global, placed: &[Placed]) -> Result<Vec<Token>, AllocError>
    ensures { IfOk result (λ words. words.items ≡ words_in placed.now) }
{
    placed.iter().map(|p| p.word).collect(alloc)
}

/// The place of a word; that of the end for the number after the last.
fn place(end: usize, placed: &[Placed], word: usize) -> usize
    ensures { result ≡ place end placed.now word }
{
    match placed.get(word) {
        Some(placed) => placed.at,
        None => end,
    }
}
