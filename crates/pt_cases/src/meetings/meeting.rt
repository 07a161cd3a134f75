//! Where threads wait for each other, and where firings are counted.

use pt_workers::work::Gate;
use std::alloc::{AllocError, Global};
use std::sync::atomic::{AtomicU64, Ordering};
use std::thread::yield_now;

/// How many turns one waits for another at most.
const TURNS: u64 = 1_000_000;

/// How many have come, and how many of them saw another one.
#[derive(Drop)]
pub struct Meeting {
    come: AtomicU64,
    met: AtomicU64,
}

impl Meeting {
    /// Nobody has come.
    pub fn new() -> Meeting {
        Meeting {
            come: AtomicU64::new(0),
            met: AtomicU64::new(0),
        }
    }

    /// Comes; says whether as the first.
    pub fn come(&self) -> bool {
        self.come.fetch_add(1, Ordering::SeqCst) == 0
    }

    /// Waits until two have come, for at most `TURNS` turns, and lets other threads run at each.
    pub fn wait(&self) {
        for _ in 0..TURNS {
            if self.come.load(Ordering::SeqCst) > 1 {
                self.met.fetch_add(1, Ordering::SeqCst);
                return;
            }
            yield_now();
        }
    }

    /// How many saw another one.
    pub fn met(&self) -> u64 {
        self.met.load(Ordering::SeqCst)
    }
}

impl Gate for Meeting {
    /// The first firing waits for the second.
    fn at(&self, _platform: u32, _number: u64) {
        if self.come() {
            self.wait();
        }
    }
}

/// A meeting that counts the firings of each task, by the tasks' numbers.
#[derive(Drop)]
pub struct Sharing {
    meeting: Meeting,
    fired: Vec<AtomicU64>,
}

impl Sharing {
    /// Nobody has come, and none of `tasks` tasks was fired.
    pub fn new(alloc: Global, tasks: usize) -> Result<Sharing, AllocError> {
        let mut fired = Vec::new(alloc);
        for _ in 0..tasks {
            fired.push(AtomicU64::new(0))?;
        }
        Ok(Sharing {
            meeting: Meeting::new(),
            fired,
        })
    }

    /// How many saw another one.
    pub fn met(&self) -> u64 {
        self.meeting.met()
    }

    /// How many tasks were fired once, no more and no less.
    pub fn fired_once(&self) -> u64 {
        let mut once = 0u64;
        for count in self.fired.as_slice() {
            if count.load(Ordering::SeqCst) == 1 {
                once = once.saturating_add(1);
            }
        }
        once
    }

    /// How many firings there were.
    pub fn firings(&self) -> u64 {
        self.meeting.come.load(Ordering::SeqCst)
    }
}

impl Gate for Sharing {
    fn at(&self, platform: u32, number: u64) {
        if let Some(count) = self.fired.as_slice().get(number as usize) {
            count.fetch_add(1, Ordering::SeqCst);
        }
        self.meeting.at(platform, number);
    }
}
