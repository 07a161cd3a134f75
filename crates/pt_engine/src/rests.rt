//! How long an engine rests. No contract depends on it.

use pt_tags::Reading;

/// A wait for a reading ends this much earlier, in microseconds, since a sleep takes longer than it should.
pub const SPARE: u64 = 150;

/// How much earlier than another rest a long one ends, in microseconds: the first visits after a long sleep are slow.
const EARLIER: u64 = 100;

/// A long rest is begun if nothing can happen for at least this long, in microseconds.
const LONG: u64 = 2_000;

/// A short rest is begun if nothing can happen for at least this long, in microseconds: a shorter one isn't worth its wake.
const SHORT: u64 = 500;

/// How many rests in a row have to end in time until short ones are begun.
const FIRST: u32 = 8;

/// After a rest that ended too late, this many times as many have to end in time until short ones are begun again.
const TIMES: u32 = 8;

/// A rest that was begun last.
#[derive(Clone, Copy, Debug)]
struct Rest {
    /// The reading for which it waits, in microseconds.
    awaited: Reading,
    /// The reading at which it has to be over, in microseconds.
    until: Reading,
}

/// The rests of an engine, by how its last ones ended.
///
/// A short rest saves little, and costs a deadline that is near if its wake comes late. So short rests are begun only where
/// several rests in a row ended in time.
#[derive(Clone, Copy, Debug)]
pub struct Rests {
    last: Option<Rest>,
    /// How many rests in a row ended in time.
    in_time: u32,
    /// How many of these it takes until short rests are begun.
    enough: u32,
}

impl Rests {
    /// Before the first rest.
    pub fn new() -> Rests {
        Rests {
            last: None,
            in_time: 0,
            enough: FIRST,
        }
    }

    /// Begins a rest, if it is worth one: returns the reading to wait for. Nothing can happen from the reading `now` to the
    /// reading `until`.
    ///
    /// From 10,000 to 15,000 it is 14,900.
    pub fn begin(&mut self, now: Reading, until: Reading) -> Option<Reading> {
        let idle = until.saturating_sub(now);
        let least = if self.in_time < self.enough {
            LONG
        } else {
            SHORT
        };
        if idle < least {
            return None;
        }
        let early = if idle < LONG { 0 } else { EARLIER };
        let awaited = until.saturating_sub(early);
        self.last = Some(Rest { awaited, until });
        Some(awaited)
    }

    /// Notes the reading of a visit: the first one after a rest shows whether that ended in time. A rest that something else
    /// ended shows nothing.
    pub fn visited(&mut self, reading: Reading) {
        let Some(rest) = self.last.take() else {
            return;
        };
        if reading > rest.until {
            self.in_time = 0;
            self.enough = self.enough.saturating_mul(TIMES);
        } else if reading >= rest.awaited.saturating_sub(SPARE) {
            self.in_time = self.in_time.saturating_add(1);
        }
    }
}
