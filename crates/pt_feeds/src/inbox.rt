//! Where a reader hands over what came, and the engine takes it.

use crate::arrivals::Arrival;
use crossbeam_queue::ArrayQueue;
use pt_tags::Memory;
use std::alloc::Global;
use std::sync::{Arc, Wait};
use std::thread::{Parker, sleep};
use std::time::{Clock, Duration};

/// How much may wait in an inbox.
const PLACES: usize = 256;

/// How long a reader sleeps before it tries again to hand over what came, in microseconds.
const PAUSE: u64 = 1_000;

/// What came of one sensor and was not taken yet, in order: at most 256 lines. One thread hands over, and another takes.
#[derive(Drop)]
pub struct Inbox {
    arrivals: ArrayQueue<Arrival>,
    /// Rung whenever something is handed over. All inboxes of a run have one bell.
    bell: Arc<Parker>,
}

impl Inbox {
    /// An empty inbox.
    pub fn new(alloc: Global, bell: Arc<Parker>) -> Result<Inbox, Memory> {
        let arrivals = ArrayQueue::new(alloc, PLACES)?;
        Ok(Inbox { arrivals, bell })
    }

    /// Hands over what came, and waits while the inbox is full.
    pub fn hand_over<R: Wait + Clock>(&self, rt: &R, arrival: Arrival) {
        let mut left = arrival;
        for _ in rt.forever() {
            match self.arrivals.push(rt, left) {
                Ok(()) => {
                    self.bell.unpark();
                    return;
                }
                Err(back) => left = back,
            }
            sleep(rt, Duration::from_micros(PAUSE));
        }
        unreachable!()
    }

    /// What came first, if something came.
    pub fn take<R: Wait>(&self, rt: &R) -> Option<Arrival> {
        self.arrivals.pop(rt)
    }
}
