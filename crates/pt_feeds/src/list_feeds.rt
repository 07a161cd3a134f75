//! Rows in memory.

ghost use Rattle.std.specs.Prelude.{◌==◌, ◌≡◌, position, ◌+◌, ◌≤◌, [], IfOk, vec_len, vec_capacity};
ghost use Rattle.pt_feeds.specs.Coming.{is_there, left_after, list_gives};
ghost use Rattle.pt_feeds.specs.Given.{IsOnTime, faults_after, given_after};

use crate::feeds::{Fed, Feeds};
use pt_tags::Memory;
use pt_types::{Row, RowAt};
use std::alloc::Global;
use std::sync::Wait;

/// What a sensor gives once, from a reading on, in microseconds.
#[derive(Clone, Copy, Debug, PartialEq, Eq)]
pub struct Coming {
    pub sensor: u32,
    /// The reading from which on it is there. A row isn't given before its time either.
    pub from: u64,
    pub what: Fed,
}

/// Rows in memory. Each sensor gives its own, in the order of the list, and then ends. It reports what it gave.
#[derive(Drop)]
pub struct ListFeeds {
    coming: Vec<Coming>,
    given: Vec<RowAt>,
    faults: u64,
    ghost fits: { vec_len given + vec_len coming ≤ vec_capacity given },
}

impl ListFeeds {
    /// A list that gave nothing yet. All memory is taken here.
    pub fn new(alloc: Global, coming: Vec<Coming>) -> Result<ListFeeds, Memory>
        ensures coming { IfOk result (λ l. l.coming ≡ coming) }
        ensures given { IfOk result (λ l. l.given.items ≡ []) }
        ensures faults { IfOk result (λ l. l.faults ≡ 0) }
    {
        let given = Vec::with_capacity(alloc, coming.len())?;
        Ok(ListFeeds {
            coming,
            given,
            faults: 0,
        })
    }

    /// The rows that it gave, each seen at the reading at which its sensor was asked.
    pub fn given(&self) -> &[RowAt]
        ensures { result.now ≡ self.now.given.items }
    {
        self.given.as_slice()
    }

    /// The index of the first that is to come of a sensor.
    fn first_of(&self, sensor: u32) -> Option<usize>
        ensures { result ≡ position (λ c. c.sensor == sensor) self.now.coming.items }
    {
        self.coming.iter().position(|c| c.sensor == sensor)
    }

    /// Records what is given.
    fn record(&mut self, sensor: u32, reading: u64, what: Fed)
        requires { vec_len self.old.given + vec_len self.old.coming + 1
            ≤ vec_capacity self.old.given }
        ensures given { self.new.given.items ≡ given_after self.old.given.items sensor reading what }
        ensures coming { self.new.coming ≡ self.old.coming }
        ensures faults { self.new.faults ≡ faults_after what self.old.faults }
    {
        match what {
            Fed::Row { time, value } => {
                let row = Row {
                    time,
                    seen: reading,
                    value,
                };
                self.given.push(RowAt { sensor, row }).unwrap();
            }
            Fed::Unreadable => self.faults = self.faults.saturating_add(1),
            _ => {}
        }
    }
}

/// Whether it can be given at a reading.
fn is_there(coming: Coming, reading: u64) -> bool
    ensures { result ≡ is_there reading coming }
{
    match coming.what {
        Fed::Row { time, .. } => coming.from <= reading && time <= reading,
        _ => coming.from <= reading,
    }
}

impl Feeds for ListFeeds {
    ghost use Rattle.std.specs.Prelude.{Some};

    ghost given = { λ l. Some l.given.items };

    ghost faults = { λ l. l.faults };

    fn next(&mut self, sensor: u32, reading: u64) -> Fed
        ensures gives { result ≡ list_gives self.old.coming.items sensor reading }
        ensures left { self.new.coming.items ≡ left_after self.old.coming.items sensor reading }
        ensures given { self.new.given.items
            ≡ given_after self.old.given.items sensor reading result }
        ensures on_time { IsOnTime reading result }
        ensures faults { self.new.faults ≡ faults_after result self.old.faults }
    {
        let Some(number) = self.first_of(sensor) else {
            return Fed::End;
        };
        let coming = self.coming[number];
        if !is_there(coming, reading) {
            return Fed::Nothing;
        }
        self.coming.remove(number);
        self.record(sensor, reading, coming.what);
        coming.what
    }

    fn rest<R: Wait>(&mut self, _rt: &R, _micros: u64) {}
}
