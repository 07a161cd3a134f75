//! Lookups by name and by input, in a map and a set: they stay fast in large files.

ghost use Rattle.std.specs.Prelude.{◌≡◌, ℕ, [], IfOk};
ghost use Rattle.pt_types.specs.Lawful.{repeated_from};
ghost use Rattle.pt_graph.specs.Known.{first_named};
ghost use Rattle.pt_graph.specs.Index.{at_name, IsFeedIndex};

use crate::known::HasName;
use pt_types::Wire;
use std::alloc::{AllocError, Global};
use std::collections::{BTreeMap, HashSet};

/// The number of each name. If two have one name, the map has the first.
pub fn numbers<'a, T: HasName>(
    alloc: Global,
    items: &'a [T],
) -> Result<BTreeMap<&'a str, usize>, AllocError>
    ensures { IfOk result (λ m. at_name m ≡ first_named T.name_of items.now) }
{
    let mut numbers = BTreeMap::new(alloc);
    for (i, item) in items.iter().enumerate() {
        let name = item.name();
        if !numbers.contains_key(&name) {
            numbers.insert(name, i)?;
        }
    }
    Ok(numbers)
}

/// The index of the first item that has the name of an earlier one.
pub fn repeated<T: HasName>(alloc: Global, items: &[T]) -> Result<Option<usize>, AllocError>
    ensures { IfOk result (λ r. r ≡ repeated_from T.name_of [] 0 items.now) }
{
    let mut numbers = BTreeMap::new(alloc);
    for (i, item) in items.iter().enumerate() {
        let name = item.name();
        if numbers.contains_key(&name) {
            return Ok(Some(i));
        }
        numbers.insert(name, i)?;
    }
    Ok(None)
}

/// Why there is no set of fed inputs.
#[derive(Clone, Copy, Debug, PartialEq, Eq)]
pub enum Twice {
    Memory,
    /// The index of the first wire that leads to the same input as an earlier one.
    At(usize),
}

/// The inputs to which wires lead, each as an actor and the input's number.
pub fn fed_inputs(alloc: Global, wires: &[Wire]) -> Result<HashSet<(usize, u32)>, Twice>
    ensures { IsFeedIndex wires.now result }
{
    let mut fed = HashSet::new(alloc);
    for (i, wire) in wires.iter().enumerate() {
        let input = (wire.to as usize, wire.input);
        if fed.contains(&input) {
            return Err(Twice::At(i));
        }
        let Ok(_added) = fed.insert(input) else {
            return Err(Twice::Memory);
        };
    }
    Ok(fed)
}
