//! The places of queued messages.

ghost use Rattle.std.specs.Prelude.{◌≡◌, ℕ, ◌+◌, ◌<◌, ◌≤◌, ◌==◌, Some, None, length, slice_set, vec_len, vec_capacity, if◌then◌else◌};
ghost use Rattle.pt_semantics.specs.Lists.{IsIn};
ghost use Rattle.pt_turn.specs.Fields.Slots.{IsChain, Stays, slots_joined, slot_at, walk};

use pt_tags::Message;

/// A place for a message: in the queue of a link, or free.
#[derive(Clone, Copy)]
pub struct Slot {
    pub message: Message,
    /// The link in whose queue it is; `None` if it is free.
    pub link: Option<u32>,
    /// The place of the next slot of that queue, or of the next free slot. That of the last one is any number.
    pub next: usize,
}

/// The queue of a link: the places of its first and its last slot, and how many it has. Without slots both are any numbers.
#[derive(Clone, Copy)]
pub struct Chain {
    pub first: usize,
    pub last: usize,
    pub count: usize,
}

/// The free slots: the place of the first, and how many there are.
#[derive(Clone, Copy)]
pub struct Free {
    pub first: usize,
    pub count: usize,
}

/// Puts a message of a link into a free slot, or into a new one if none is free, and returns its place. It is in no queue yet.
/// Allocates nothing.
pub fn put(slots: &mut Vec<Slot>, free: &mut Free, link: u32, message: Message) -> usize
    requires free { IsChain slots.old.items None free.old.first free.old.count }
    requires room { vec_len slots.old < vec_capacity slots.old + free.old.count }
    ensures placed { (result < length slots.new.items)
        × (slot_at slots.new.items result
        ≡ record { message = message; link = Some link; next = 0 }) }
    ensures others { (l k n : ℕ) → IsChain slots.old.items (Some l) k n →
        Stays slots.old.items slots.new.items (Some l) k n }
    ensures apart { (l k n : ℕ) → IsChain slots.old.items (Some l) k n →
        IsIn result (walk slots.old.items k n) → ⊥ }
    ensures free { IsChain slots.new.items None free.new.first free.new.count }
    ensures len { vec_len slots.new + free.old.count ≡ vec_len slots.old + free.new.count + 1 }
    ensures capacity { vec_capacity slots.old ≤ vec_capacity slots.new }
{
    let slot = Slot {
        message,
        link: Some(link),
        next: 0,
    };
    if free.count == 0 {
        let place = slots.len();
        slots.push_reserved(slot);
        return place;
    }
    let place = free.first;
    free.first = slots[place].next;
    free.count -= 1;
    slots[place] = slot;
    place
}

/// Joins the slot at a place to the end of a queue.
pub fn join(slots: &mut Vec<Slot>, queue: Chain, place: usize) -> Chain
    requires last { 0 < queue.count → queue.last < length slots.old.items }
    requires few { queue.count < vec_len slots.old }
    ensures slots { slots.new.items ≡
        (if queue.count == 0 then slots.old.items else slots_joined slots.old.items queue.last
        place) }
    ensures len { vec_len slots.new ≡ vec_len slots.old }
    ensures capacity { vec_capacity slots.old ≤ vec_capacity slots.new }
    ensures queue { result ≡ record {
      first = if queue.count == 0 then place else queue.first;
      last = place;
      count = queue.count + 1;
    } }
{
    let mut first = place;
    if queue.count != 0 {
        slots[queue.last].next = place;
        first = queue.first;
    }
    Chain {
        first,
        last: place,
        count: queue.count + 1,
    }
}
