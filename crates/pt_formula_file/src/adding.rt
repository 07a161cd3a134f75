//! Formulas become blocks.

ghost use Rattle.std.specs.Prelude.{◌≡◌, IfOk, IsAscii, map};
ghost use Rattle.pt_formula.specs.Lines.{viewed_line};
ghost use Rattle.pt_formula_file.specs.Adding.{IsAdded, blocks_of, fault_of_file, with_formula, with_formulas};
ghost use Rattle.pt_formula_file.specs.Fitting.{AreFit, IsFit};

use crate::fault::{FormulaFault, NotAdded};
use pt_blocks::{BlockFault, Blocks};
use pt_formula::{FileFault, MOST_FORMULA_BYTES, Numbered, read_file};
use pt_tags::{List, Name};
use std::alloc::{AllocError, Global};

/// Adds a block for each formula of a file with these bytes, in its order. All lines are read before names are looked at. After a
/// fault some of them may have been added.
///
/// `half = a / 2` adds a block `half` that gives half of its first input. `half = a /` is refused: line 1, byte 10, no value.
pub fn add_formulas(alloc: Global, blocks: &mut Blocks, text: &[u8]) -> Result<(), FormulaFault>
    ensures { IsAdded (blocks_of blocks.old.listed.items text.now) blocks.new.listed.items result }
{
    if text.len() > MOST_FORMULA_BYTES {
        return Err(FormulaFault::TooLong);
    }
    match read_file(alloc, text) {
        Ok(defined) => add_all(alloc, blocks, defined.as_slice()),
        Err(fault) => Err(fault_of_file(fault)),
    }
}

/// The fault of a file whose lines are refused.
fn fault_of_file(fault: FileFault) -> FormulaFault
    ensures { result ≡ fault_of_file fault }
{
    match fault {
        FileFault::Memory => FormulaFault::Memory,
        FileFault::Line { line, at, why } => FormulaFault::Line { line, at, why },
    }
}

/// Adds a block for each definition.
fn add_all(alloc: Global, blocks: &mut Blocks, defined: &[Numbered]) -> Result<(), FormulaFault>
    requires { AreFit (map viewed_line defined.now) }
    ensures { IsAdded (with_formulas blocks.old.listed.items (map viewed_line defined.now))
        blocks.new.listed.items result }
{
    for numbered in defined {
        add(alloc, blocks, numbered)?;
    }
    Ok(())
}

/// Adds a block for a definition.
fn add(alloc: Global, blocks: &mut Blocks, numbered: &Numbered) -> Result<(), FormulaFault>
    requires { IsFit (viewed_line numbered.now) }
    ensures { IsAdded (with_formula blocks.old.listed.items (viewed_line numbered.now))
        blocks.new.listed.items result }
{
    let name = name_of(alloc, numbered.definition.name.as_slice())?;
    let steps = Vec::from_slice(alloc, numbered.definition.steps.as_slice())?;
    match blocks.add_formula(name, List::new(steps)) {
        Ok(()) => Ok(()),
        Err(BlockFault::Memory) => Err(FormulaFault::Memory),
        Err(BlockFault::Repeated) => Err(FormulaFault::Block {
            line: numbered.line,
            why: NotAdded::Repeated,
        }),
        Err(BlockFault::Full) => Err(FormulaFault::Block {
            line: numbered.line,
            why: NotAdded::Full,
        }),
    }
}

/// The name with these letters.
fn name_of(alloc: Global, letters: &[u8]) -> Result<Name, AllocError>
    requires { IsAscii letters.now }
    ensures { IfOk result (λ name. name ≡ letters.now) }
{
    let text = String::from_utf8_lossy(alloc, letters)?;
    Ok(Name::new(text))
}
