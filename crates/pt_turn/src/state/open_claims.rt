//! The open claims: those whose results are not posted yet.

ghost use Rattle.std.specs.Prelude.{◌≡◌, ◌+◌, ◌<◌, ◌≤◌, ◌==◌, ◌++◌, ◌∷◌, [], None, Some, filter, true, length, remove, IfSome, IsOk, MatchOption, OnOk, OnErr, option_map, slice_get};
ghost use Rattle.std.specs.Option.{is_some};
ghost use Rattle.std.specs.VecDeque.{deque_len, deque_capacity};
ghost use Rattle.pt_types.specs.declared.graph.Graph.{Graph};
ghost use Rattle.pt_semantics.specs.Lists.{Each};
ghost use Rattle.pt_semantics.specs.Platform.{put_busy};
ghost use Rattle.pt_semantics.specs.Units.{unit_of};
ghost use Rattle.pt_causality.specs.Units.{IsUnit};
ghost use Rattle.pt_turn.specs.Fields.Others.{is_other, IsPlaceOf};
ghost use Rattle.pt_turn.specs.Fields.State.{busy_in, IsOpen, IsFound};

use crate::state::fields::OpenClaim;
use crate::state::same::{same_task, same_unit};
use pt_tags::Memory;
use pt_types::{Task, Unit};
use std::alloc::Global;
use std::collections::VecDeque;
use std::marker::Model;

/// The open claims of a platform in the order in which they were made, at most one for each unit.
///
/// Contracts see the list of claims, and `spare`: how many more fit in memory. Results mostly come in the order of their
/// claims, so the claim to take out is usually the first.
#[derive(Drop)]
pub struct OpenClaims {
    claims: VecDeque<OpenClaim>,
    spare: usize,
}

impl Model for OpenClaims {
    ghost use Rattle.std.specs.Prelude.{◌+◌, ◌≤◌};
    ghost use Rattle.std.specs.VecDeque.{deque_len, deque_capacity};
    ghost use Rattle.pt_turn.specs.Fields.Unposted.{Unposted, AreOfDifferentUnits};

    ghost Value = { Unposted };

    ghost view = { λ o. record { items = o.claims.items; spare = o.spare } };

    ghost invariant = { λ o. AreOfDifferentUnits o.claims.items
        × (o.spare + deque_len o.claims ≤ deque_capacity o.claims) };
}

/// Whether the first open claim is that of a unit.
#[inline(always)]
fn is_first(claims: &VecDeque<OpenClaim>, unit: Unit) -> bool
    ensures { result ≡ true → IsPlaceOf claims.now.items unit (Some 0) }
{
    match claims.front() {
        Some(claim) => same_unit(claim.unit, unit),
        None => false,
    }
}

/// The unit of the first open claim, if it has this task.
#[inline(always)]
fn first_with(claims: &VecDeque<OpenClaim>, task: &Task) -> Option<Unit>
    ensures found { IfSome result (λ unit. IsFound claims.now.items task.now (Some unit)) }
    ensures place { IfSome result (λ unit. IsPlaceOf claims.now.items unit (Some 0)) }
{
    match claims.front() {
        Some(claim) if same_task(&claim.task, task) => Some(claim.unit),
        _ => None,
    }
}

/// The index of a unit's open claim, which is mostly the first; `None` if it has none.
#[inline(always)]
fn place_of(claims: &VecDeque<OpenClaim>, unit: Unit) -> Option<usize>
    ensures { IsPlaceOf claims.now.items unit result }
{
    if is_first(claims, unit) {
        return Some(0);
    }
    place_among(claims, unit)
}

/// The index of a unit's open claim, of all; `None` if it has none.
#[inline(never)]
fn place_among(claims: &VecDeque<OpenClaim>, unit: Unit) -> Option<usize>
    ensures { IsPlaceOf claims.now.items unit result }
{
    for place in 0..claims.len() {
        if same_unit(claims[place].unit, unit) {
            return Some(place);
        }
    }
    None
}

/// Removes the open claim at an index, which is mostly the first.
#[inline(always)]
fn remove_at(claims: &mut VecDeque<OpenClaim>, place: usize)
    requires { place < length claims.old.items }
    ensures items { claims.new.items ≡ remove claims.old.items place }
    ensures len { deque_len claims.new + 1 ≡ deque_len claims.old }
    ensures capacity { deque_capacity claims.old ≤ deque_capacity claims.new }
{
    if place == 0 {
        claims.pop_front();
        return;
    }
    claims.remove(place);
}

impl OpenClaims {
    /// No open claims.
    pub fn new(alloc: Global) -> OpenClaims
        ensures items { result.items ≡ [] }
        ensures spare { result.spare ≡ 0 }
    {
        OpenClaims {
            claims: VecDeque::new(alloc),
            spare: 0,
        }
    }

    /// Reserves memory for at least `count` more claims; an error leaves all unchanged.
    pub fn reserve(&mut self, count: usize) -> Result<(), Memory>
        ensures spare { OnOk result (count ≤ self.new.spare) }
        ensures no_less { self.old.spare ≤ self.new.spare }
        ensures items { self.new.items ≡ self.old.items }
        ensures refused { OnErr result (self.new ≡ self.old) }
        ensures there { count ≤ self.old.spare → IsOk result × (self.new ≡ self.old) }
    {
        if self.spare >= count {
            return Ok(());
        }
        self.claims.reserve(count)?;
        // All that fits is spare, so that the next calls find it there.
        self.spare = self.claims.capacity() - self.claims.len();
        Ok(())
    }

    /// Adds the open claim of a unit that has none. Allocates nothing.
    pub fn add(&mut self, claim: OpenClaim)
        requires spare { 0 < self.old.spare }
        requires free { busy_in self.old.items claim.unit ≡ None }
        ensures items { self.new.items ≡ self.old.items ++ claim ∷ [] }
        ensures busy { busy_in self.new.items
            ≡ put_busy (busy_in self.old.items) claim.unit (Some claim.task) }
        ensures open_claims { (g : Graph) → Each (IsOpen g self.old.items) self.old.items →
            claim.unit ≡ unit_of g claim.task → IsUnit g claim.unit
            → Each (IsOpen g self.new.items) self.new.items }
        ensures spare { self.new.spare + 1 ≡ self.old.spare }
    {
        self.spare -= 1;
        match self.claims.push_back(claim) {
            Ok(()) => (),
            Err(_) => unreachable!(),
        }
    }

    /// Removes the open claim with this task, which is mostly the first, and returns its unit; `None` if there is no such
    /// claim.
    #[inline(always)]
    pub fn take(&mut self, task: &Task) -> Option<Unit>
        ensures found { IsFound self.old.items task.now result }
        ensures items { MatchOption result (self.new ≡ self.old)
            (λ unit. self.new.items ≡ filter (is_other unit) self.old.items) }
        ensures busy { IfSome result (λ unit.
            busy_in self.new.items ≡ put_busy (busy_in self.old.items) unit None) }
        ensures open_claims { (g : Graph) → Each (IsOpen g self.old.items) self.old.items →
            Each (IsOpen g self.new.items) self.new.items }
        ensures spare { self.new.spare ≡ self.old.spare }
    {
        match first_with(&self.claims, task) {
            None => self.take_among(task),
            Some(unit) => {
                remove_at(&mut self.claims, 0);
                Some(unit)
            }
        }
    }

    /// The same for any open claim. Not inlined, so that the caller stays short.
    #[inline(never)]
    fn take_among(&mut self, task: &Task) -> Option<Unit>
        ensures found { IsFound self.old.items task.now result }
        ensures items { MatchOption result (self.new ≡ self.old)
            (λ unit. self.new.items ≡ filter (is_other unit) self.old.items) }
        ensures busy { IfSome result (λ unit.
            busy_in self.new.items ≡ put_busy (busy_in self.old.items) unit None) }
        ensures open_claims { (g : Graph) → Each (IsOpen g self.old.items) self.old.items →
            Each (IsOpen g self.new.items) self.new.items }
        ensures spare { self.new.spare ≡ self.old.spare }
    {
        match self.find_among(task) {
            None => None,
            Some(unit) => {
                self.close(unit);
                Some(unit)
            }
        }
    }

    /// Removes the open claim of a unit, if it has one.
    fn close(&mut self, unit: Unit)
        ensures items { self.new.items ≡ filter (is_other unit) self.old.items }
        ensures busy { busy_in self.new.items ≡ put_busy (busy_in self.old.items) unit None }
        ensures open_claims { (g : Graph) → Each (IsOpen g self.old.items) self.old.items →
            Each (IsOpen g self.new.items) self.new.items }
        ensures spare { self.new.spare ≡ self.old.spare }
    {
        match place_of(&self.claims, unit) {
            None => (),
            Some(place) => remove_at(&mut self.claims, place),
        }
    }

    /// The unit of the open claim, of all, with this task; `None` if there is no such claim.
    fn find_among(&self, task: &Task) -> Option<Unit>
        ensures { IsFound self.now.items task.now result }
    {
        for place in 0..self.claims.len() {
            let claim = &self.claims[place];
            if same_task(&claim.task, task) {
                return Some(claim.unit);
            }
        }
        None
    }

    /// Whether a unit has an open claim.
    pub fn has(&self, unit: Unit) -> bool
        ensures { result ≡ is_some (busy_in self.now.items unit) }
    {
        if self.claims.is_empty() {
            return false;
        }
        place_of(&self.claims, unit).is_some()
    }

    /// The number of open claims.
    pub fn len(&self) -> usize
        ensures { result ≡ length self.now.items }
    {
        self.claims.len()
    }

    /// Whether no claim is open.
    pub fn is_empty(&self) -> bool
        ensures { result ≡ (length self.now.items == 0) }
    {
        self.claims.is_empty()
    }

    /// Open claim `number`, from 0, in the order in which they were made.
    pub fn get(&self, number: usize) -> Option<&OpenClaim>
        ensures { option_map (λ claim. claim.now) result ≡ slice_get self.now.items number }
    {
        self.claims.get(number)
    }

    /// All open claims in order, as two slices.
    pub fn as_slices(&self) -> (&[OpenClaim], &[OpenClaim])
        ensures { result.0.now ++ result.1.now ≡ self.now.items }
    {
        self.claims.as_slices()
    }
}
