//! Tags and delays: their order and their sums.

ghost use Rattle.std.specs.Prelude.{◌≡◌, ◌↔◌, IsTrue, IsSome, IfSome};
ghost use Rattle.pt_tags.specs.Tags.{plus, then, tag_lt, Before, Fits, FitsDelay};

/// A time of the model, in whole microseconds: when an event is meant to be (RTAS 2007).
pub type Time = u64;

/// What the clock of a platform shows, in whole microseconds.
///
/// It is compared with model times: that is how a platform decides what is safe to process.
pub type Reading = u64;

/// The time of a recorded network, in whole microseconds: the clock of a platform lags behind it.
pub type TrueTime = u64;

/// A tag: a place in model time, written `150.0`.
///
/// The derived order is by time and then by step (RTAS 2007 orders
/// events by timestamp; the step is this project's own choice).
#[derive(Clone, Copy, Debug, PartialEq, Eq, PartialOrd, Ord)]
pub struct Tag {
    pub time: Time,
    /// The microstep at that time, from 0.
    pub step: u64,
}

/// What an edge adds to a tag: microseconds and microsteps.
#[derive(Clone, Copy, Debug, PartialEq, Eq, PartialOrd, Ord)]
pub struct Delay {
    /// Microseconds.
    pub time: Time,
    /// Microsteps.
    pub step: u64,
}

impl Tag {
    /// The tag that is `delay` later, or `None` if its time or its step doesn't fit in a `u64`.
    ///
    /// 50.0 plus 100 microseconds is 150.0. 50.0 plus one step is 50.1.
    pub fn plus(self, delay: Delay) -> Option<Tag>
        ensures some { IsSome result ↔ Fits (plus self delay) }
        ensures sum { IfSome result (λ later. later ≡ plus self delay) }
    {
        let time = self.time.checked_add(delay.time)?;
        let step = self.step.checked_add(delay.step)?;
        Some(Tag { time, step })
    }

    /// Whether this tag comes before the other: by time, and by step at the same time.
    pub fn is_before(self, other: Tag) -> bool
        ensures test { result ≡ tag_lt self other }
        ensures order { IsTrue result ↔ Before self other }
    {
        self < other
    }
}

impl Delay {
    /// The sum of this delay and the next, or `None` if its time or its step doesn't fit in a `u64`.
    pub fn then(self, next: Delay) -> Option<Delay>
        ensures some { IsSome result ↔ FitsDelay (then self next) }
        ensures sum { IfSome result (λ both. both ≡ then self next) }
    {
        let time = self.time.checked_add(next.time)?;
        let step = self.step.checked_add(next.step)?;
        Some(Delay { time, step })
    }
}
