//! How workers learn when to rest and when to end. No contract depends on it.

use pt_engine::{Rests, SPARE};
use pt_tags::Reading;
use std::sync::atomic::{AtomicU64, Ordering};
use std::sync::{Condvar, Wait};
use std::thread::yield_now;
use std::time::Duration;

/// The longest rest, in microseconds, or a tenth more where little would be left for another one. What happens meanwhile is
/// announced, so it only bounds what a lost announcement costs.
const LONGEST: u64 = 50_000;

/// How many quiet rounds a worker makes before it rests, if a result is awaited: most firings take less time than a rest.
const LOOKS: u64 = 64;

/// What a worker learns from a visit in which nothing happened.
#[derive(Clone, Copy, Debug)]
pub(crate) struct Quiet {
    /// Before this reading, in microseconds, nothing can happen on the platform, unless a result or a message comes.
    pub(crate) until: Reading,
    /// Whether a result is awaited.
    pub(crate) awaits: bool,
}

/// What a worker learns from a visit.
#[derive(Clone, Copy, Debug)]
pub(crate) struct Visited {
    /// The reading of the platform's last turn, in microseconds; 0 if it made none.
    pub(crate) reading: Reading,
    /// What there is to learn if nothing happened.
    pub(crate) quiet: Option<Quiet>,
}

/// How a visit ended, for the worker.
#[derive(Clone, Copy, Debug)]
pub(crate) enum VisitEnd {
    /// Something happened in its turn.
    On,
    Quiet(Quiet),
    Finished,
    Failed,
}

/// By these the workers know when to rest and when to end.
#[derive(Drop)]
pub(crate) struct Signs {
    unfinished: AtomicU64,
    stop: AtomicU64,
    /// Notified whenever something happened, so that a worker that rests looks again.
    news: Condvar,
}

impl Signs {
    /// Before the first visit of that many stations.
    pub(crate) fn new(stations: usize) -> Signs {
        Signs {
            unfinished: AtomicU64::new(stations as u64),
            stop: AtomicU64::new(0),
            news: Condvar::new(),
        }
    }

    /// Whether all platforms are finished, or a visit failed.
    pub(crate) fn ended(&self) -> bool {
        self.stop.load(Ordering::SeqCst) != 0 || self.unfinished.load(Ordering::SeqCst) == 0
    }

    /// Notes how a visit ended, and announces it if something happened.
    pub(crate) fn note(&self, end: VisitEnd) {
        match end {
            VisitEnd::Quiet(_) => return,
            VisitEnd::On => {}
            VisitEnd::Finished => {
                self.unfinished.fetch_sub(1, Ordering::SeqCst);
            }
            VisitEnd::Failed => self.stop.store(1, Ordering::SeqCst),
        }
        self.announce();
    }

    /// Wakes the workers that rest: something happened.
    pub(crate) fn announce(&self) {
        self.news.notify_all();
    }

    /// After a round in which nothing happened: rests while nothing can, unless something was announced since these rounds
    /// began, or lets other threads run if it is too early or too late for a rest. Returns what the next round begins with.
    pub(crate) fn rest<R: Wait>(&self, rt: &R, rests: &mut Rests, calm: Calm) -> Calm {
        let Some(micros) = calm.rest_with(rests) else {
            yield_now();
            return calm.next_round();
        };
        self.news
            .sleep(rt, calm.announced, Duration::from_micros(micros));
        Calm::new(self)
    }
}

/// The end of one rest from `now` on where nothing can happen until a reading: that reading, unless it is far.
fn one_rest(now: Reading, until: Reading) -> Reading {
    if until.saturating_sub(now) < LONGEST + LONGEST / 10 {
        until
    } else {
        now.saturating_add(LONGEST)
    }
}

/// The last visits of a worker, in which nothing happened.
#[derive(Clone, Copy, Debug)]
pub(crate) struct Calm {
    /// The visits of this round.
    visits: usize,
    /// The rounds before this one.
    rounds: u64,
    /// The latest reading of these visits, in microseconds.
    latest: Reading,
    /// Before this reading, in microseconds, nothing can happen on the platforms visited in this round.
    until: Reading,
    /// Whether a result is awaited on one of them.
    awaits: bool,
    /// How often something had been announced before the first round.
    announced: u64,
}

impl Calm {
    /// Before the first visit.
    pub(crate) fn new(signs: &Signs) -> Calm {
        Calm {
            visits: 0,
            rounds: 0,
            latest: 0,
            until: Reading::MAX,
            awaits: false,
            announced: signs.news.notifications(),
        }
    }

    /// With one more visit, at this reading.
    pub(crate) fn and(self, reading: Reading, quiet: Quiet) -> Calm {
        Calm {
            visits: self.visits.saturating_add(1),
            latest: self.latest.max(reading),
            until: self.until.min(quiet.until),
            awaits: self.awaits || quiet.awaits,
            ..self
        }
    }

    /// Whether all stations were visited in this round.
    pub(crate) fn is_round(&self, stations: usize) -> bool {
        self.visits >= stations
    }

    /// How long to rest now, in microseconds; `None` if it is too early or too late for a rest.
    fn rest_with(self, rests: &mut Rests) -> Option<u64> {
        if self.awaits && self.rounds < LOOKS {
            return None;
        }
        let awaited = rests.begin(self.latest, one_rest(self.latest, self.until))?;
        Some(awaited.saturating_sub(SPARE).saturating_sub(self.latest))
    }

    /// Before the next round.
    fn next_round(self) -> Calm {
        Calm {
            visits: 0,
            rounds: self.rounds.saturating_add(1),
            latest: 0,
            until: Reading::MAX,
            awaits: false,
            ..self
        }
    }
}
