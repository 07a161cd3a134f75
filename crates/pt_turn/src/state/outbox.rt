//! The outbox: the messages of a platform that are not sent yet.

ghost use Rattle.std.specs.Prelude.{◌≡◌, ℕ, ◌+◌, ◌<◌, ◌≤◌, ◌==◌, ◌++◌, ◌∷◌, [], IfOk, IsOk, OnErr, OnOk, MatchOption, length, slice_get, if◌then◌else◌};
ghost use Rattle.pt_semantics.specs.Closing.{on_link};

use crate::state::slots::{Chain, Free, Slot, join, put};
use pt_tags::{Memory, Message};
use std::alloc::Global;
use std::marker::Model;

/// The messages that a platform has not sent yet: a queue for each link of the graph.
///
/// Contracts see the messages link by link, the number of links, and `spare`: how many more messages fit in memory. The queues
/// share one memory, so that a message can be on any link. Each call takes the same time whatever the outbox holds.
#[derive(Drop)]
pub struct Outbox {
    slots: Vec<Slot>,
    free: Free,
    queues: Vec<Chain>,
    spare: usize,
}

impl Model for Outbox {
    ghost use Rattle.std.specs.Prelude.{◌≡◌, ◌+◌, ◌≤◌, None, length, vec_len, vec_capacity};
    ghost use Rattle.pt_turn.specs.Fields.Outbox.{OutboxView, items_of};
    ghost use Rattle.pt_turn.specs.Fields.Slots.{AreQueues, IsChain};

    ghost Value = { OutboxView };

    ghost view = { λ o. record {
      items = items_of o.slots.items o.queues.items;
      links = length o.queues.items;
      spare = o.spare;
    } };

    ghost invariant = { λ o. AreQueues o.slots.items o.queues.items
        × IsChain o.slots.items None o.free.first o.free.count
        × (length (items_of o.slots.items o.queues.items) + o.free.count ≡ vec_len o.slots)
        × (o.spare + vec_len o.slots ≤ vec_capacity o.slots + o.free.count) };
}

impl Outbox {
    /// An empty outbox for this number of links.
    pub fn new(alloc: Global, links: usize) -> Result<Outbox, Memory>
        ensures empty { IfOk result (λ outbox.
            outbox ≡ record { items = []; links = links; spare = 0 }) }
    {
        let none = Chain {
            first: 0,
            last: 0,
            count: 0,
        };
        Ok(Outbox {
            slots: Vec::new(alloc),
            free: Free { first: 0, count: 0 },
            queues: vec![in alloc; none; links]?,
            spare: 0,
        })
    }

    /// Whether it has no messages.
    pub fn is_empty(&self) -> bool
        ensures { result ≡ (length self.now.items == 0) }
    {
        self.len() == 0
    }

    /// The number of messages, on all links.
    pub fn len(&self) -> usize
        ensures { result ≡ length self.now.items }
    {
        self.slots.len() - self.free.count
    }

    /// The first message of a link; `None` if there is none.
    pub fn first(&self, link: u32) -> Option<Message>
        ensures { result ≡ slice_get (on_link link self.now.items) 0 }
    {
        let queue = self.queues.get(link as usize)?;
        if queue.count == 0 {
            return None;
        }
        Some(self.slots[queue.first].message)
    }

    /// Reserves memory for at least `count` more messages, each on any link; an error leaves all unchanged.
    pub fn reserve(&mut self, count: usize) -> Result<(), Memory>
        ensures spare { OnOk result (count ≤ self.new.spare) }
        ensures no_less { self.old.spare ≤ self.new.spare }
        ensures items { self.new.items ≡ self.old.items }
        ensures links { self.new.links ≡ self.old.links }
        ensures refused { OnErr result (self.new ≡ self.old) }
        ensures there { count ≤ self.old.spare → IsOk result × (self.new ≡ self.old) }
    {
        if self.spare >= count {
            return Ok(());
        }
        self.slots.reserve(count.saturating_sub(self.free.count))?;
        self.spare = count;
        Ok(())
    }

    /// Appends a message to the queue of a link. Allocates nothing.
    pub fn push_reserved(&mut self, link: u32, message: Message)
        requires link { link < self.old.links }
        requires spare { 0 < self.old.spare }
        ensures messages { (l : ℕ) → on_link l self.new.items
            ≡ on_link l self.old.items ++ (if l == link then message ∷ [] else []) }
        ensures len { length self.new.items ≡ length self.old.items + 1 }
        ensures links { self.new.links ≡ self.old.links }
        ensures spare { self.new.spare + 1 ≡ self.old.spare }
    {
        let place = put(&mut self.slots, &mut self.free, link, message);
        let queue = self.queues[link as usize];
        self.queues[link as usize] = join(&mut self.slots, queue, place);
        self.spare -= 1;
    }

    /// Takes the first message of a link; `None` if there is none.
    pub fn pop(&mut self, link: u32) -> Option<Message>
        ensures first { MatchOption result (on_link link self.old.items ≡ [])
            (λ message. on_link link self.old.items ≡ message ∷ on_link link self.new.items) }
        ensures others { (l : ℕ) → (l ≡ link → ⊥) →
            on_link l self.new.items ≡ on_link l self.old.items }
        ensures len { MatchOption result (self.new ≡ self.old)
            (λ _. length self.new.items + 1 ≡ length self.old.items) }
        ensures links { self.new.links ≡ self.old.links }
        ensures spare { self.new.spare ≡ self.old.spare }
    {
        let queue = *self.queues.get(link as usize)?;
        if queue.count == 0 {
            return None;
        }
        let slot = self.slots[queue.first];
        self.slots[queue.first] = Slot {
            message: slot.message,
            link: None,
            next: self.free.first,
        };
        self.free = Free {
            first: queue.first,
            count: self.free.count + 1,
        };
        self.queues[link as usize] = Chain {
            first: slot.next,
            last: queue.last,
            count: queue.count - 1,
        };
        Some(slot.message)
    }
}
