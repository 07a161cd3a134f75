//! Safe units, in the order in which they are claimed.

ghost use Rattle.std.specs.Prelude.{◌≡◌, ◌↔◌, true};
ghost use Rattle.pt_semantics.specs.Lists.{Each};
ghost use Rattle.pt_turn.specs.Claims.Fronts.{AreAllAhead, IsAhead, IsCutOff, IsInOrder, IsFrontPlace, IsInserted};

use arrayvec::ArrayVec;
use pt_queue::Waiting;

/// Whether a unit comes before another by tag, actor and group.
pub fn is_before(a: Waiting, b: Waiting) -> bool
    ensures { (result ≡ true) ↔ IsAhead a b }
{
    if a.tag.time != b.tag.time {
        return a.tag.time < b.tag.time;
    }
    if a.tag.step != b.tag.step {
        return a.tag.step < b.tag.step;
    }
    if a.unit.actor != b.unit.actor {
        return a.unit.actor < b.unit.actor;
    }
    a.unit.group < b.unit.group
}

/// How many of these units come before another one.
fn place_of(units: &[Waiting], next: Waiting) -> usize
    requires { IsInOrder units.now }
    ensures { IsFrontPlace next units.now result }
{
    for behind in 0..units.len() {
        let place = units.len() - behind;
        if is_before(units[place - 1], next) {
            return place;
        }
    }
    0
}

/// Whether all of these units come before another one: it is enough to ask the last.
fn all_come_before(units: &[Waiting], next: Waiting) -> bool
    requires { IsInOrder units.now }
    ensures { result ≡ true → Each (λ d. IsAhead d next) units.now }
{
    if units.is_empty() {
        return true;
    }
    is_before(units[units.len() - 1], next)
}

/// Inserts a unit at its place, and keeps the first 64.
#[inline(never)]
fn put_between(units: &mut ArrayVec<Waiting, 64>, next: Waiting)
    requires { IsInOrder units.old.items }
    ensures { IsInserted next units.old.items units.new.items }
{
    let place = place_of(units.as_slice(), next);
    if !units.is_full() {
        units.insert(place, next);
        return;
    }
    if place < units.len() {
        units.pop();
        units.insert(place, next);
    }
}

/// Inserts a unit in order, and keeps the first 64. Mostly it comes behind all of them.
pub fn put(units: &mut ArrayVec<Waiting, 64>, next: Waiting)
    requires { IsInOrder units.old.items }
    ensures { IsInserted next units.old.items units.new.items }
{
    if !units.is_full() && all_come_before(units.as_slice(), next) {
        units.push(next);
        return;
    }
    put_between(units, next);
}

/// Whether 64 units come before another one, so that `put` wouldn't keep it.
pub fn is_past_all(units: &ArrayVec<Waiting, 64>, next: Waiting) -> bool
    requires { IsInOrder units.now.items }
    ensures { result ≡ true → AreAllAhead next units.now.items }
{
    units.is_full() && all_come_before(units.as_slice(), next)
}

/// Whether a unit comes behind the cut, if there is one.
pub fn is_cut_off(cut: Option<Waiting>, next: Waiting) -> bool
    ensures { (result ≡ true) ↔ IsCutOff cut next }
{
    match cut {
        None => false,
        Some(cut) => is_before(cut, next),
    }
}
