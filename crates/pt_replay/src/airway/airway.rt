//! The messages of a link on their way.

ghost use Rattle.std.specs.Prelude.{◌≡◌, ◌<◌, IfNone, IfSome, OnErr, OnOk, option_map, slice_get};
ghost use Rattle.pt_semantics.specs.Lists.{Each};
ghost use Rattle.pt_types.specs.declared.air.InAir.{InAir as OnWay};
ghost use Rattle.pt_semantics.specs.Arrivals.{NeverFall, events_with, first_arrived, left_after, empty_airway, airway_with, transit_of};

use pt_tags::{Memory, Message, TrueTime};
use pt_types::InAir;
use std::alloc::Global;
use std::collections::VecDeque;
use std::marker::Model;

/// The messages of a link on their way, the oldest first. Contracts see them with the arrival of the last one that was put, and
/// with the number of events that were put. Times are true times, in microseconds.
#[derive(Drop)]
pub struct Airway {
    on_way: VecDeque<InAir>,
    latest: u64,
    events: u64,
}

impl Model for Airway {
    ghost use Rattle.pt_semantics.specs.Arrivals.{AirwayView, NeverFall};

    ghost Value = { AirwayView };

    ghost view = { λ a. record { on_way = a.on_way.items; latest = a.latest; events = a.events } };

    ghost invariant = { λ a. NeverFall 0 a.on_way.items a.latest };
}

impl Airway {
    /// An airway on which nothing was put.
    pub fn new(alloc: Global) -> Airway
        ensures { result ≡ empty_airway }
    {
        Airway {
            on_way: VecDeque::new(alloc),
            latest: 0,
            events: 0,
        }
    }

    /// Puts a message on its way at a true time. `transits` are the recorded transits of the events of this link.
    ///
    /// An arrival that does not fit in 64 bits counts as out of memory.
    pub fn put(
        &mut self,
        now: TrueTime,
        transits: &[u64],
        delay: u64,
        message: Message,
    ) -> Result<(), Memory>
        ensures put { OnOk result (self.new ≡ airway_with now transits.now delay message self.old) }
        ensures unchanged { OnErr result (self.new ≡ self.old) }
    {
        let transit = transit_of(transits, delay, self.events, message);
        let Some(arrival) = now.checked_add(transit) else {
            return Err(Memory);
        };
        let Some(events) = events_with(self.events, message) else {
            return Err(Memory);
        };
        let arrives = arrival.max(self.latest);
        if self.on_way.push_back(InAir { arrives, message }).is_err() {
            return Err(Memory);
        }
        self.latest = arrives;
        self.events = events;
        Ok(())
    }

    /// Takes the oldest message, if it has arrived at this true time.
    pub fn arrived(&mut self, now: TrueTime) -> Option<Message>
        ensures first { result ≡ first_arrived now self.old.on_way }
        ensures left { self.new ≡ left_after now self.old }
        ensures later { IfNone result (Each (λ (m : OnWay). now < m.arrives) self.old.on_way) }
    {
        let first = *self.on_way.front()?;
        if first.arrives > now {
            return None;
        }
        self.on_way.pop_front();
        Some(first.message)
    }

    /// When the oldest message arrives. No other message arrives before it.
    pub fn next_arrival(&self) -> Option<u64>
        ensures next { result ≡ option_map (λ (m : OnWay). m.arrives)
            (slice_get self.now.on_way 0) }
        ensures order { NeverFall 0 self.now.on_way self.now.latest }
    {
        let first = self.on_way.front()?;
        Some(first.arrives)
    }
}

/// How long a message takes that is put after this number of events.
fn transit_of(transits: &[u64], delay: u64, events: u64, message: Message) -> u64
    ensures { result ≡ transit_of transits.now delay events message }
{
    match message {
        Message::Event { .. } => transits.get(events as usize).copied().unwrap_or(delay),
        Message::End => delay,
    }
}

/// The number of events with this message.
fn events_with(events: u64, message: Message) -> Option<u64>
    ensures { IfSome result (λ more. more ≡ events_with events message) }
{
    match message {
        Message::Event { .. } => events.checked_add(1),
        Message::End => Some(events),
    }
}
