//! Files of formulas.

ghost use Rattle.std.specs.Prelude.{◌≡◌, ◌≤◌, ◌∷◌, ◌++◌, [], IfErr, OnOk, length, map};
ghost use Rattle.std.specs.List.{prefix_len};
ghost use Rattle.pt_formula.specs.Lines.{IsAfterLine, IsRead, in_line, line_of, read_from, viewed_line};

use crate::lines::{Definition, LineFault, Wrong, read_line};
use std::alloc::{AllocError, Global};

/// The most bytes of a file of formulas.
pub const MOST_FORMULA_BYTES: usize = 65_536;

/// What a line defines, and its number, from 1.
#[derive(Drop)]
pub struct Numbered {
    pub line: usize,
    pub definition: Definition,
}

/// Why a file is refused.
#[derive(Clone, Copy, Debug, PartialEq, Eq)]
pub enum FileFault {
    /// Out of memory.
    Memory,
    /// The line with this number, from 1, at this byte, from 0.
    Line { line: usize, at: usize, why: Wrong },
}

impl From<AllocError> for FileFault {
    ghost use Rattle.std.specs.Prelude.{◌≡◌};
    ghost use Rattle.pt_formula.specs.declared.file.FileFault.TheVariants.{Memory};

    ghost from_gives = { λ _ fault. fault ≡ Memory };

    fn from(_refused: AllocError) -> FileFault {
        FileFault::Memory
    }
}

/// What the lines of a file define, each with the number of its line, from 1. The first line that is refused is the fault.
pub fn read_file(alloc: Global, text: &[u8]) -> Result<Vec<Numbered>, FileFault>
    requires { length text.now ≤ 65536 }
    ensures { IsRead (read_from 1 0 text.now) result }
{
    let mut defined = Vec::new(alloc);
    let mut line = 1;
    let mut at = 0;
    while at < text.len() {
        let len = line_len(&text[at..]);
        if let Err(fault) = add_line(alloc, line, &text[at..at + len], &mut defined) {
            return Err(fault);
        }
        at += len + 1;
        line += 1;
    }
    Ok(defined)
}

/// Adds what a line defines.
fn add_line(
    alloc: Global,
    line: usize,
    text: &[u8],
    defined: &mut Vec<Numbered>,
) -> Result<(), FileFault>
    ensures { IsAfterLine line (line_of text.now) (map viewed_line defined.old.items)
        (map viewed_line defined.new.items) result }
{
    match read_line(alloc, text) {
        Ok(None) => Ok(()),
        Ok(Some(definition)) => add(defined, Numbered { line, definition }),
        Err(LineFault::Memory) => Err(FileFault::Memory),
        Err(LineFault::At { at, why }) => Err(FileFault::Line { line, at, why }),
    }
}

fn add(defined: &mut Vec<Numbered>, numbered: Numbered) -> Result<(), FileFault>
    ensures added { OnOk result (map viewed_line defined.new.items
        ≡ map viewed_line defined.old.items ++ viewed_line numbered ∷ []) }
    ensures memory { IfErr result (λ fault. fault ≡ FileFault.Memory) }
{
    match defined.push(numbered) {
        Ok(()) => Ok(()),
        Err(_) => Err(FileFault::Memory),
    }
}

fn line_len(text: &[u8]) -> usize
    ensures len { result ≡ prefix_len in_line text.now }
    ensures within { result ≤ length text.now }
{
    for (i, byte) in text.iter().enumerate() {
        if *byte == b'\n' {
            return i;
        }
    }
    text.len()
}
