//! The table of least delays.

ghost use Rattle.std.specs.Prelude.{◌≡◌, ◌≤◌, IfOk, IfSome, length};
ghost use Rattle.pt_types.specs.Lawful.{IsLawful};
ghost use Rattle.pt_causality.specs.Before.{RowsAreListed};

use crate::arcs::arcs_by_unit;
use crate::before::{Before, all_before};
use crate::row::DelayRow;
use crate::table::all_rows;
use crate::units::Numbers;
use crate::wire_edges;
use pt_tags::Delay;
use pt_types::{Graph, Unit};
use std::alloc::{AllocError, Global};

/// The least delay from each unit to each other, over all paths of wires. (The rule is this project's own choice.)
#[derive(Drop)]
pub struct Least {
    numbers: Numbers,
    /// One row for each unit, one delay for each unit, by their numbers.
    rows: Vec<DelayRow>,
    /// By the number of the unit to which the paths lead; empty if there are no lists.
    before: Vec<Before>,
    ghost listed: { RowsAreListed numbers.firsts.items rows.items before.items },
    ghost few: { (length numbers.firsts.items ≤ 2048) × (length rows.items ≤ 2048) },
}

impl Least {
    ghost use Rattle.std.specs.Prelude.{ℕ};
    ghost use Rattle.pt_types.specs.declared.graph.Unit.{Unit};
    ghost use Rattle.pt_causality.specs.Delays.{least_of, number_of, AreLeast, AreSmall, HasAllBefore};

    /// Computes all least delays of a graph.
    pub(crate) fn new(alloc: Global, graph: &Graph) -> Result<Least, AllocError>
        requires lawful { IsLawful graph.now }
        ensures least { IfOk result (λ least. AreLeast graph.now (least_of least)) }
        ensures small { IfOk result (λ least. AreSmall (least_of least)) }
    {
        let numbers = Numbers::new(alloc, graph)?;
        let wires = wire_edges(alloc, graph)?;
        let arcs = arcs_by_unit(alloc, graph, &numbers, wires.as_slice())?;
        let rows = all_rows(alloc, arcs.as_slice())?;
        Ok(Least {
            numbers,
            rows,
            before: Vec::new(alloc),
        })
    }

    /// The same delays, with the units from which a path leads to each unit, if memory suffices for these.
    pub fn with_before(self, alloc: Global) -> Least
        ensures { least_of result ≡ least_of self }
    {
        let Least {
            numbers,
            rows,
            before,
        } = self;
        let before = all_before(alloc, &numbers, rows.as_slice()).unwrap_or(before);
        Least {
            numbers,
            rows,
            before,
        }
    }

    /// The least delay of all paths from `x` to `a`; `None` if no path leads from `x` to `a`.
    pub fn get(&self, x: Unit, a: Unit) -> Option<Delay>
        ensures { result ≡ least_of self.now x a }
    {
        self.get_from(self.number(x), a)
    }

    /// The number of a unit: who asks for many delays from one unit looks it up once.
    pub fn number(&self, x: Unit) -> usize
        ensures { result ≡ number_of self.now x }
    {
        self.numbers.of(x)
    }

    /// The least delay of all paths from the unit with this number to `a`; `None` if no path leads there.
    #[inline(always)]
    pub fn get_from(&self, number: usize, a: Unit) -> Option<Delay>
        ensures { (x : Unit) → number ≡ number_of self.now x → result ≡ least_of self.now x a }
    {
        let row = self.rows.get(number)?;
        row.get(self.numbers.of(a))
    }

    /// The units from which a path leads to `a`, perhaps with others, as bits: the unit with `8 * actor + group = n` has bit
    /// `n % 64` of word `n / 64`. `None` if they are not known: there are no lists.
    pub fn before(&self, a: Unit) -> Option<&[u64]>
        ensures { IfSome result (λ words. HasAllBefore self.now a words.now) }
    {
        match self.before.get(self.numbers.of(a)) {
            Some(before) => Some(before.words()),
            None => None,
        }
    }
}
