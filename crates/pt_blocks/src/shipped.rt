//! The blocks that the program offers, and their functions.

ghost use Rattle.std.specs.Prelude.{◌≡◌, ◌++◌, ◌∷◌, ◌<◌, [], pos, negsuc, false, length, IfOk, OnOk};
ghost use Rattle.pt_semantics.specs.Laws.{law_value};
ghost use Rattle.pt_types.specs.declared.kind.Law.TheVariants.{Least, Greatest, Middle, Deadband, Weighted};
ghost use Rattle.pt_blocks.specs.Blocks.{has_block, named};
ghost use Rattle.pt_blocks.specs.Shipped.{shipped};

use crate::block::{Block, Function};
use crate::blocks::{BlockFault, Blocks};
use pt_tags::{Memory, Name};
use std::alloc::Global;

/// The blocks that the program offers, in the order of their numbers, 0 to 4: `least`, `greatest`, `clip100`, `dead5` and
/// `mean`. The caller makes their functions, each of its own law. For 9 and 2 they give 2, 9, 9, 7 and 5 (5.5, rounded down).
pub fn shipped_blocks(
    alloc: Global,
    least: Function,
    greatest: Function,
    clip100: Function,
    dead5: Function,
    mean: Function,
) -> Result<Blocks, Memory>
    requires least { least.law ≡ Least }
    requires greatest { greatest.law ≡ Greatest }
    requires clip100 { clip100.law ≡ Middle (negsuc 99) (pos 100) }
    requires dead5 { dead5.law ≡ Deadband (pos 5) }
    requires mean { mean.law ≡ Weighted (pos 1) (pos 2) }
    ensures listed { IfOk result (λ blocks. blocks.listed.items ≡ shipped) }
{
    let mut blocks = Blocks::new(alloc);
    add_named(alloc, &mut blocks, "least", least)?;
    add_named(alloc, &mut blocks, "greatest", greatest)?;
    add_named(alloc, &mut blocks, "clip100", clip100)?;
    add_named(alloc, &mut blocks, "dead5", dead5)?;
    add_named(alloc, &mut blocks, "mean", mean)?;
    Ok(blocks)
}

/// Adds a function by a name that no block has.
fn add_named(
    alloc: Global,
    blocks: &mut Blocks,
    name: &str,
    function: Function,
) -> Result<(), Memory>
    requires room { length blocks.old.listed.items < 64 }
    requires unnamed { has_block blocks.old.listed.items name.now ≡ false }
    ensures added { OnOk result (blocks.new.listed.items
        ≡ blocks.old.listed.items ++ named name.now function.law ∷ []) }
{
    let name = Name::new(String::from_str(alloc, name)?);
    match blocks.add(Block { name, function }) {
        Ok(()) => Ok(()),
        Err(BlockFault::Memory) => Err(Memory),
        Err(BlockFault::Repeated | BlockFault::Full) => unreachable!(),
    }
}

/// The lesser of a and b.
pub fn least(a: i64, b: i64) -> i64
    ensures { result ≡ law_value Least a b }
{
    a.min(b)
}

/// The greater of a and b.
pub fn greatest(a: i64, b: i64) -> i64
    ensures { result ≡ law_value Greatest a b }
{
    a.max(b)
}

/// a, raised to -100 or lowered to 100 if it is outside.
pub fn clip100(a: i64, b: i64) -> i64
    ensures { result ≡ law_value (Middle (negsuc 99) (pos 100)) a b }
{
    if a < -100 {
        -100
    } else if 100 < a {
        100
    } else {
        a
    }
}

/// 0 if a and b are at most 5 apart, else a minus b.
pub fn dead5(a: i64, b: i64) -> i64
    ensures { result ≡ law_value (Deadband (pos 5)) a b }
{
    if a.abs_diff(b) <= 5 {
        0
    } else {
        a.saturating_sub(b)
    }
}
