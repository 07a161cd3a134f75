//! The units from which a path leads to each unit, as bits.

ghost use Rattle.std.specs.Prelude.{◌≡◌, ◌≤◌, IfOk, length};
ghost use Rattle.pt_types.specs.declared.graph.Unit.{Unit};
ghost use Rattle.pt_causality.specs.Before.{RowsAreListed, HaveMore, MayBeListed, MayHave};
ghost use Rattle.pt_causality.specs.Cells.{number_in, delay_row_at};

use crate::row::DelayRow;
use crate::units::Numbers;
use pt_types::Unit;
use std::alloc::{AllocError, Global};
use std::marker::Model;

/// The units from which a path leads to one unit: a bit for each unit, eight for each actor. Unit `8 * actor + group` has bit
/// `n % 64` of word `n / 64`. Contracts see the words.
#[derive(Drop)]
pub struct Before {
    words: Vec<u64>,
}

impl Model for Before {
    ghost use Rattle.std.specs.Prelude.{List, ℕ};

    ghost Value = { List ℕ };

    ghost view = { λ b. b.words.items };
}

impl Before {
    /// No units, with room for those of `actors` actors.
    fn new(alloc: Global, actors: usize) -> Result<Before, AllocError> {
        let words = vec![in alloc; 0u64; actors / 8 + 1]?;
        Ok(Before { words })
    }

    /// The words.
    pub fn words(&self) -> &[u64]
        ensures { result.now ≡ self.now }
    {
        self.words.as_slice()
    }

    /// Adds a unit, if there is room for it.
    fn add(&mut self, unit: Unit)
        ensures listed { MayHave self.new unit }
        ensures others { (x : Unit) → MayHave self.old x → MayHave self.new x }
    {
        let place = 8 * unit.actor as usize + unit.group as usize;
        let word = place / 64;
        if word >= self.words.len() {
            return;
        }
        self.words[word] |= 1 << (place % 64);
    }
}

/// As many empty lists as `count`, each with room for the units of `actors` actors.
fn none_listed(alloc: Global, count: usize, actors: usize) -> Result<Vec<Before>, AllocError> {
    let mut lists = Vec::new(alloc);
    for _ in 0..count {
        lists.push(Before::new(alloc, actors)?)?;
    }
    Ok(lists)
}

/// Adds a unit to the list of each place at which its row has a delay.
fn list_by_row(lists: &mut [Before], row: &DelayRow, unit: Unit)
    ensures listed { MayBeListed row.now lists.new unit }
    ensures others { HaveMore lists.old lists.new }
{
    for place in 0..lists.len() {
        if row.get(place).is_some() {
            let list = &mut lists[place];
            list.add(unit);
        }
    }
}

/// Adds a unit to the list of each unit to which a path leads from it.
fn list_unit(lists: &mut [Before], numbers: &Numbers, rows: &[DelayRow], unit: Unit)
    ensures listed { MayBeListed (delay_row_at rows.now
        (number_in numbers.now.firsts.items unit)) lists.new unit }
    ensures others { HaveMore lists.old lists.new }
{
    match rows.get(numbers.of(unit)) {
        Some(row) => list_by_row(lists, row, unit),
        None => (),
    }
}

/// Adds the units of an actor to these lists.
fn list_actor(lists: &mut [Before], numbers: &Numbers, rows: &[DelayRow], actor: u32)
    requires few { length rows.now ≤ 2048 }
    ensures listed { (x : Unit) → x.actor ≡ actor →
        MayBeListed (delay_row_at rows.now (number_in numbers.now.firsts.items x)) lists.new x }
    ensures others { HaveMore lists.old lists.new }
{
    for group in 0..numbers.groups(actor) {
        list_unit(lists, numbers, rows, Unit { actor, group });
    }
}

/// The units from which a path leads to each unit; lists are by the numbers of the units.
pub fn all_before(
    alloc: Global,
    numbers: &Numbers,
    rows: &[DelayRow],
) -> Result<Vec<Before>, AllocError>
    requires actors { length numbers.now.firsts.items ≤ 2048 }
    requires few { length rows.now ≤ 2048 }
    ensures { IfOk result (λ lists. RowsAreListed numbers.now.firsts.items rows.now lists.items) }
{
    let mut lists = none_listed(alloc, rows.len(), numbers.firsts.len())?;
    for actor in 0..numbers.firsts.len() {
        list_actor(&mut lists, numbers, rows, actor as u32);
    }
    Ok(lists)
}
