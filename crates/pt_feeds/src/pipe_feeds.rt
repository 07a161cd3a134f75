//! Rows that readers hand over while a run goes on.

ghost use Rattle.std.specs.Prelude.{◌≡◌, IfErr, IfOk, IfSome, None};
ghost use Rattle.pt_feeds.specs.Given.{IsNoRow, IsOnTime};
ghost use Rattle.pt_feeds.specs.Kept.{line_gives, line_keeps, row_gives, row_keeps};
ghost use Rattle.pt_feeds.specs.Lines.{row_of_line};

use crate::arrivals::Arrival;
use crate::columns::{Columns, columns_of};
use crate::fault::RowFault;
use crate::feeds::{Fed, Feeds};
use crate::inbox::Inbox;
use crate::sample::row_of_line;
use pt_tags::Memory;
use std::alloc::Global;
use std::sync::{Arc, Wait};
use std::thread::Parker;
use std::time::Duration;

/// The engine's side of one sensor.
#[derive(Drop)]
struct Lane {
    sensor: u32,
    inbox: Arc<Inbox>,
    /// As soon as the first line was taken.
    columns: Option<Columns>,
    /// The row that was taken before its time, in microseconds, with its value.
    early: Option<(u64, i64)>,
    /// Nothing more is taken.
    ended: bool,
}

impl Lane {
    /// What the sensor gives at a reading.
    fn next<R: Wait>(&mut self, rt: &R, reading: u64) -> Fed
        ensures on_time { IsOnTime reading result }
        ensures early { IfSome self.old.early (λ row. result ≡ row_gives reading row.0 row.1) }
        ensures keeps { IfSome self.old.early (λ row.
            self.new.early ≡ row_keeps reading row.0 row.1) }
    {
        if let Some((time, value)) = self.early {
            return self.row(time, value, reading);
        }
        if self.ended {
            return Fed::End;
        }
        let columns = match self.columns {
            Some(columns) => columns,
            None => match self.head(rt) {
                Ok(columns) => columns,
                Err(fed) => return fed,
            },
        };
        match self.inbox.take(rt) {
            None => Fed::Nothing,
            Some(Arrival::Line(line)) => self.line(columns, line.as_slice(), reading),
            Some(last) => self.end(last),
        }
    }

    /// The columns, by the first line; or what the sensor gives, if there is no head.
    fn head<R: Wait>(&mut self, rt: &R) -> Result<Columns, Fed>
        ensures no_row { IfErr result IsNoRow }
        ensures keeps { self.new.early ≡ self.old.early }
    {
        let line = match self.inbox.take(rt) {
            None => return Err(Fed::Nothing),
            Some(Arrival::Line(line)) => line,
            Some(Arrival::End) => return Err(self.no_row(RowFault::Header)),
            Some(last) => return Err(self.end(last)),
        };
        match columns_of(line.as_slice()) {
            Ok(columns) => {
                self.columns = Some(columns);
                Ok(columns)
            }
            Err(fault) => Err(self.no_row(fault)),
        }
    }

    /// What a line gives.
    fn line(&mut self, columns: Columns, line: &[u8], reading: u64) -> Fed
        requires { self.old.early ≡ None }
        ensures gives { result ≡ line_gives reading (row_of_line columns line.now) }
        ensures keeps { self.new.early ≡ line_keeps reading (row_of_line columns line.now) }
    {
        match row_of_line(columns, line) {
            Ok(sample) => self.row(sample.time.unwrap_or(reading), sample.value, reading),
            Err(fault) => self.no_row(fault),
        }
    }

    /// Gives a row, or keeps it for later if its time is ahead of the reading.
    fn row(&mut self, time: u64, value: i64, reading: u64) -> Fed
        ensures gives { result ≡ row_gives reading time value }
        ensures keeps { self.new.early ≡ row_keeps reading time value }
    {
        if time > reading {
            self.early = Some((time, value));
            return Fed::Nothing;
        }
        self.early = None;
        Fed::Row { time, value }
    }

    /// What the sensor gives at last.
    fn end(&mut self, last: Arrival) -> Fed
        ensures no_row { IsNoRow result }
        ensures keeps { self.new.early ≡ self.old.early }
    {
        match last {
            Arrival::TooLong => self.no_row(RowFault::TooLong),
            Arrival::NoLineFeed => self.no_row(RowFault::NoLineFeed),
            Arrival::Failed => {
                self.ended = true;
                Fed::Unreadable
            }
            Arrival::End | Arrival::Line(_) => {
                self.ended = true;
                Fed::End
            }
        }
    }

    /// What came is no row: nothing more is taken.
    fn no_row(&mut self, fault: RowFault) -> Fed
        ensures gives { result ≡ Fed.NoRow fault }
        ensures keeps { self.new.early ≡ self.old.early }
    {
        self.ended = true;
        Fed::NoRow(fault)
    }
}

/// Rows that threads read from named pipes, devices or plain files, each by `read_file`. It reports nothing.
///
/// A row whose time is ahead of the reading is kept until its time, and the lines after it wait. So each sensor has an inbox of its
/// own: one that is ahead holds back no other.
#[derive(Drop)]
pub struct PipeFeeds<R: Wait + Drop> {
    rt: R,
    lanes: Vec<Lane>,
    bell: Arc<Parker>,
    faults: u64,
}

impl<R: Wait + Drop> PipeFeeds<R> {
    /// No sensors yet.
    pub fn new(rt: R, alloc: Global) -> Result<PipeFeeds<R>, Memory>
        ensures { IfOk result (λ p. p.faults ≡ 0) }
    {
        let bell = Arc::new(alloc, Parker::new())?;
        Ok(PipeFeeds {
            rt,
            lanes: Vec::new(alloc),
            bell,
            faults: 0,
        })
    }

    /// One more sensor, by its number. What its reader hands over goes into the inbox.
    pub fn add(&mut self, alloc: Global, sensor: u32) -> Result<Arc<Inbox>, Memory>
        ensures { self.new.faults ≡ self.old.faults }
    {
        let bell = Arc::try_clone(&self.bell)?;
        let inbox = Arc::new(alloc, Inbox::new(alloc, bell)?)?;
        let theirs = Arc::try_clone(&inbox)?;
        self.lanes.push(Lane {
            sensor,
            inbox,
            columns: None,
            early: None,
            ended: false,
        })?;
        Ok(theirs)
    }
}

impl<R: Wait + Drop> Feeds for PipeFeeds<R> {
    ghost use Rattle.std.specs.Prelude.{None};

    ghost given = { λ p. None };

    ghost faults = { λ p. p.faults };

    fn next(&mut self, sensor: u32, reading: u64) -> Fed {
        let Some(number) = self.lanes.iter().position(|l| l.sensor == sensor) else {
            return Fed::End;
        };
        let fed = self.lanes[number].next(&self.rt, reading);
        if let Fed::Unreadable = fed {
            self.faults = self.faults.saturating_add(1);
        }
        fed
    }

    fn rest<W: Wait>(&mut self, rt: &W, micros: u64) {
        self.bell.park_timeout(rt, Duration::from_micros(micros));
    }
}
