//! A row of delays, some of them absent.

ghost use Rattle.std.specs.Prelude.{◌≡◌, ◌<◌, ◌^◌, ℕ, IfOk, None, Some, length, slice_set};
ghost use Rattle.pt_causality.specs.Cells.{delay_at};

use pt_tags::Delay;
use std::alloc::{AllocError, Global};
use std::marker::Model;

/// A cell with the greatest time has no delay; so a cell takes 16 bytes.
const ABSENT: Delay = Delay {
    time: u64::MAX,
    step: 0,
};

/// An optional delay at each place. Contracts see a list of options.
#[derive(Drop)]
pub struct DelayRow {
    cells: Vec<Delay>,
}

impl Model for DelayRow {
    ghost use Rattle.std.specs.Prelude.{List as Items, Option as Maybe, map};
    ghost use Rattle.pt_tags.specs.declared.tag.Delay.{Delay as Time};
    ghost use Rattle.pt_causality.specs.Cells.{held_in};

    ghost Value = { Items (Maybe Time) };

    ghost view = { λ r. map held_in r.cells.items };
}

impl DelayRow {
    /// A row of `len` places without delays.
    pub fn new(alloc: Global, len: usize) -> Result<DelayRow, AllocError>
        ensures len { IfOk result (λ row. length row ≡ len) }
        ensures absent { IfOk result (λ row. (k : ℕ) → delay_at row k ≡ None) }
    {
        let cells = vec![in alloc; ABSENT; len]?;
        Ok(DelayRow { cells })
    }

    /// The delay at a place; `None` if there is none, or no such place.
    pub fn get(&self, place: usize) -> Option<Delay>
        ensures { result ≡ delay_at self.now place }
    {
        match self.cells.get(place) {
            Some(cell) if cell.time != u64::MAX => Some(*cell),
            _ => None,
        }
    }

    /// Sets the delay at a place.
    pub fn set(&mut self, place: usize, delay: Delay)
        requires within { place < length self.old }
        requires small { delay.time < 2 ^ 62 }
        ensures { self.new ≡ slice_set self.old place (Some delay) }
    {
        self.cells[place] = delay;
    }
}
