//! The units of a graph, numbered by actor and then by group.

ghost use Rattle.std.specs.Prelude.{◌≡◌, ◌-◌, ◌+◌, ◌≤◌, IfOk, length};
ghost use Rattle.pt_types.specs.Lawful.{IsLawful};
ghost use Rattle.pt_causality.specs.Cells.{first_in, number_in};

use pt_types::{Graph, Unit};
use std::alloc::{AllocError, Global};

/// A number for each unit, from 0 and without gaps.
#[derive(Drop)]
pub struct Numbers {
    /// The number of the first unit of each actor, and at the end `count`.
    pub firsts: Vec<u32>,
    /// The number of units.
    pub count: u32,
}

impl Numbers {
    ghost use Rattle.pt_causality.specs.Numbered.{AreNumbered};

    /// Numbers the units of a graph.
    pub fn new(alloc: Global, graph: &Graph) -> Result<Numbers, AllocError>
        requires { IsLawful graph.now }
        ensures numbered { IfOk result (AreNumbered graph.now) }
        ensures few { IfOk result (λ numbers. length numbers.firsts.items ≤ 2048) }
    {
        let mut firsts = Vec::new(alloc);
        let mut count = 0;
        for actor in 0..graph.actors.as_slice().len() {
            firsts.push(count)?;
            count += graph.groups(actor as u32);
        }
        firsts.push(count)?;
        Ok(Numbers { firsts, count })
    }

    /// The number of a unit; `u32::MAX`, which no unit has, if there is no such unit.
    #[tactic(auto, unfolding(crate::specs::Cells::number_in))]
    pub fn of(&self, unit: Unit) -> usize
        ensures { result ≡ number_in self.now.firsts.items unit }
    {
        let number = self.first(unit.actor as usize) as usize + unit.group as usize;
        if number < self.first(unit.actor as usize + 1) as usize {
            number
        } else {
            u32::MAX as usize
        }
    }

    /// The number of units of an actor.
    pub fn groups(&self, actor: u32) -> u32
        ensures { result ≡ first_in self.now.firsts.items
            (actor + 1) - first_in self.now.firsts.items actor }
    {
        self.first(actor as usize + 1)
            .saturating_sub(self.first(actor as usize))
    }

    /// The number of an actor's first unit; 0 if there is no such actor.
    fn first(&self, actor: usize) -> u32
        ensures { result ≡ first_in self.now.firsts.items actor }
    {
        match self.firsts.get(actor) {
            Some(first) => *first,
            None => 0,
        }
    }
}
