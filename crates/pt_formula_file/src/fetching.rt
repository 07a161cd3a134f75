//! A file of formulas is fetched.

ghost use Rattle.std.specs.Prelude.{◌≡◌, ◌≤◌};
ghost use Rattle.pt_io.specs.Calls.{reading};
ghost use Rattle.pt_formula_file.specs.Fetching.{IsFetched};

use crate::adding::add_formulas;
use crate::fault::FormulaFault;
use pt_blocks::Blocks;
use pt_formula::MOST_FORMULA_BYTES;
use pt_io::{FetchFault, Source};
use std::alloc::Global;

/// Adds a block for each formula of this file, as `add_formulas`.
pub fn add_formulas_of<S: Source>(
    alloc: Global,
    source: &mut S,
    file: &str,
    blocks: &mut Blocks,
) -> Result<(), FormulaFault>
    ensures fetched { IsFetched (S.contents source.old) file.now blocks.old.listed.items
        blocks.new.listed.items (reading S.Source source.old source.new) result }
    ensures keeps { S.contents source.new ≡ S.contents source.old }
{
    match source.fetch(alloc, file, MOST_FORMULA_BYTES) {
        Ok(bytes) => add_formulas(alloc, blocks, bytes.as_slice()),
        Err(FetchFault::Failed) => Err(FormulaFault::Read),
        Err(FetchFault::Memory) => Err(FormulaFault::Memory),
    }
}
