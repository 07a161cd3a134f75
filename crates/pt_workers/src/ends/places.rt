//! Things with a number, and their places.

ghost use Rattle.std.specs.Prelude.{◌≡◌, ◌<◌, ◌≤◌, ◌^◌, ℕ, IfOk, Some, None, length, slice_get, vec_len};
ghost use Rattle.pt_workers.specs.LinkEnds.Places.{AreCollected, AreDistinct, AreLaid, PlaceIsFull, IsElsewhere, NumbersAreBelow};

use pt_tags::Memory;
use std::alloc::Global;

/// Takes the things of one owner out of their places, with their numbers. `owners` lists the owner of each number.
pub fn collect<T: Drop>(
    alloc: Global,
    owners: &[u32],
    owner: u32,
    places: &mut Vec<Option<T>>,
) -> Result<Vec<(u32, T)>, Memory>
    requires few { length owners.now ≤ 2 ^ 32 }
    requires full { (l : ℕ) → slice_get owners.now l ≡ Some owner → PlaceIsFull places.old.items l }
    ensures count { vec_len places.new ≡ vec_len places.old }
    ensures collected { IfOk result (λ things.
        AreCollected owners.now owner (length owners.now) places.old.items things.items) }
    ensures others { (l : ℕ) → IsElsewhere owners.now owner l →
        slice_get places.new.items l ≡ slice_get places.old.items l }
{
    let mut things = Vec::with_capacity(alloc, owners.len())?;
    for l in 0..owners.len() {
        if owners[l] == owner {
            let place = &mut places[l];
            let Some(thing) = place.take() else {
                unreachable!()
            };
            things.push_reserved((l as u32, thing));
        }
    }
    Ok(things)
}

/// Puts each thing into the place of its number.
pub fn lay<T: Drop>(mut things: Vec<(u32, T)>, places: &mut Vec<Option<T>>)
    requires within { NumbersAreBelow (vec_len places.old) things.items }
    requires distinct { AreDistinct things.items }
    ensures count { vec_len places.new ≡ vec_len places.old }
    ensures laid { AreLaid 0 things.items places.new.items }
    ensures others { (l : ℕ) → ((i : ℕ) (e : ℕ × _) → slice_get things.items i ≡ Some e → e.0 ≡ l →
        ⊥) → slice_get places.new.items l ≡ slice_get places.old.items l }
{
    while let Some((number, thing)) = things.pop() {
        let place = &mut places[number as usize];
        let _ = place.replace(thing);
    }
}
