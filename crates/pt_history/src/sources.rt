//! Where the tasks of results are stored.

ghost use Rattle.std.specs.Prelude.{◌≡◌, ◌+◌, ◌<◌, ◌≤◌, ◌-◌, ◌++◌, ◌∷◌, [], OnOk, Some, length, map, slice_get, vec_len, vec_capacity};
ghost use Rattle.pt_history.specs.declared.sources.Source.TheVariants.{Claim};
ghost use Rattle.pt_history.specs.Sources.{sources_of};

use crate::numbers::push_number;
use crate::pieces::{MOST_ITEMS, widened};
use pt_tags::Memory;
use std::alloc::Global;
use std::marker::Model;

/// Where the task of a result is stored.
#[derive(Clone, Copy, Debug, PartialEq, Eq)]
pub(crate) enum Source {
    /// It is the claim with this index.
    Claim(u32),
    /// It is none of the claims that were recorded before, and is stored whole at this index.
    Other(u32),
}

/// A list of sources, and room reserved for more. Contracts see `items` and `spare`.
///
/// In each history that a platform makes all sources are claims, and mostly each is the claim with its own index. So the
/// first sources are only counted, up to the first that is another; of the next ones the indices of their claims are stored,
/// in 4 bytes each, up to the first source that is no claim; the sources from that one on are stored whole.
#[derive(Drop)]
pub(crate) struct Sources {
    /// The number of first sources of which each is the claim with its own index.
    in_order: usize,
    /// The indices of the sources after them, which are claims.
    claims: Vec<u32>,
    /// The sources after those.
    rest: Vec<Source>,
    spare: usize,
}

impl Model for Sources {
    ghost use Rattle.pt_history.specs.declared.sources.Source.{Source};
    ghost use Rattle.pt_history.specs.Indices.{RoomyItems};
    ghost use Rattle.pt_history.specs.Sources.{sources_of};
    ghost use Rattle.pt_history.specs.SourcesWhole.{AreStoredSources};

    ghost Value = { RoomyItems Source };

    ghost view = { λ s. record {
      items = sources_of s.in_order s.claims.items s.rest.items;
      spare = s.spare;
    } };

    ghost invariant = { AreStoredSources };
}

impl Sources {
    /// No sources and no room.
    pub fn new(alloc: Global) -> Sources
        ensures items { result.items ≡ [] }
        ensures spare { result.spare ≡ 0 }
    {
        Sources {
            in_order: 0,
            claims: Vec::new(alloc),
            rest: Vec::new(alloc),
            spare: 0,
        }
    }

    /// Reserves room for at least `more` more sources. It fails if memory runs out, or if the number of sources could reach
    /// 2^32.
    pub fn reserve(&mut self, more: usize) -> Result<(), Memory>
        ensures items { self.new.items ≡ self.old.items }
        ensures kept { self.old.spare ≤ self.new.spare }
        ensures room { OnOk result (more ≤ self.new.spare) }
    {
        if more >= MOST_ITEMS - self.len() {
            return Err(Memory);
        }
        widened(&mut self.claims, self.spare, more)?;
        widened(&mut self.rest, self.spare, more)?;
        self.spare = self.spare.max(more);
        Ok(())
    }

    /// Appends a source. Allocates nothing.
    pub fn push(&mut self, source: Source)
        requires { 0 < self.old.spare }
        ensures items { self.new.items ≡ self.old.items ++ source ∷ [] }
        ensures room { self.new.spare + 1 ≡ self.old.spare }
    {
        store(&mut self.in_order, &mut self.claims, &mut self.rest, source);
        self.spare -= 1;
    }

    /// The number of sources.
    pub fn len(&self) -> usize
        ensures { result ≡ length self.now.items }
    {
        self.in_order + self.claims.len() + self.rest.len()
    }

    /// Source `number`, counted from 0.
    pub fn get(&self, number: usize) -> Source
        requires { number < length self.now.items }
        ensures { slice_get self.now.items number ≡ Some result }
    {
        if number < self.in_order {
            return Source::Claim(number as u32);
        }
        stored(
            self.claims.as_slice(),
            self.rest.as_slice(),
            number - self.in_order,
        )
    }
}

/// Source `number` of those that are stored, counted from 0.
fn stored(claims: &[u32], rest: &[Source], number: usize) -> Source
    requires { number < length claims.now + length rest.now }
    ensures { slice_get (map Claim claims.now ++ rest.now) number ≡ Some result }
{
    if number < claims.len() {
        Source::Claim(claims[number])
    } else {
        rest[number - claims.len()]
    }
}

/// Appends a source: to the first ones if it is a claim and so are all others, or else to the rest. Only memory is saved by
/// that: `rest` alone would be right too.
fn store(in_order: &mut usize, claims: &mut Vec<u32>, rest: &mut Vec<Source>, source: Source)
    requires claims { vec_len claims.old < vec_capacity claims.old }
    requires rest { vec_len rest.old < vec_capacity rest.old }
    ensures items { sources_of in_order.new claims.new.items rest.new.items
        ≡ sources_of in_order.old claims.old.items rest.old.items ++ source ∷ [] }
    ensures claims_room { vec_capacity claims.old ≤ vec_capacity claims.new }
    ensures rest_room { vec_capacity rest.old ≤ vec_capacity rest.new }
    ensures few_claims { vec_len claims.new ≤ vec_len claims.old + 1 }
    ensures few_rest { vec_len rest.new ≤ vec_len rest.old + 1 }
    ensures few { in_order.new + vec_len claims.new + vec_len rest.new
        ≤ in_order.old + vec_len claims.old + vec_len rest.old + 1 }
{
    if rest.is_empty() {
        if let Source::Claim(number) = source {
            push_number(in_order, claims, number);
            return;
        }
    }
    rest.push_reserved(source);
}
