//! What every clock promises, and the clocks in memory.

ghost use Rattle.std.specs.Prelude.{◌≡◌, ℕ, ◌*◌, ◌+◌, ◌-◌, ◌^◌, [], IfOk, Option, List, Some, false, length, min, true};
ghost use Rattle.pt_io.specs.Clocks.{nth_or_last, step_reading};

use pt_tags::Memory;
use std::alloc::Global;
use std::time::{Clock as SystemClock, Duration};

/// How much earlier than asked a clock of the machine ends a wait, in microseconds, since a sleep takes longer than it should.
const SPARE: u64 = 150;

/// Gives readings, in microseconds.
///
/// A clock may report the list of all readings that it handed out. Then clauses speak of it, and else they claim nothing. It may
/// stop reporting once it handed out 2^64 - 1 readings, which no memory counts further.
pub trait Clock: Drop {
    ghost use Rattle.std.specs.Prelude.{◌≡◌, ℕ, Option, List};
    ghost use Rattle.pt_io.specs.Clocks.{IsAsAhead, ReportsOneMore};

    /// All readings that it handed out, if it reports them.
    ghost readings: { Self → Option (List ℕ) };

    /// The reading of each number, counted from 0, where it is fixed ahead.
    ghost ahead: { Self → Option (ℕ → ℕ) };

    /// Another reading. No memory is taken.
    fn read(&mut self) -> u64
        ensures readings { ReportsOneMore (readings self.old) result (readings self.new) }
        ensures ahead { ahead self.new ≡ ahead self.old }
        ensures as_ahead { IsAsAhead (ahead self.old) (readings self.old) result };

    /// Whether its readings rise by themselves, so that an engine with nothing to do may let other processes run.
    fn rises_by_itself(&self) -> bool;

    /// Lets time pass until the clock reads about `until`, in microseconds, or less time. No reading is handed out.
    fn wait(&mut self, until: u64)
        ensures readings { readings self.new ≡ readings self.old }
        ensures ahead { ahead self.new ≡ ahead self.old };
}

/// Gives `start`, then each time `step` more, up to the greatest number.
#[derive(Drop)]
pub struct StepClock {
    start: u64,
    step: u64,
    next: u64,
    count: u64,
    reports: bool,
    ghost on_time: { reports ≡ true → next ≡ min (start + count * step) (2 ^ 64 - 1) },
}

impl StepClock {
    /// A clock that handed out nothing. No memory is taken.
    pub fn new(start: u64, step: u64) -> StepClock
        ensures readings { ⟦<StepClock as Clock>⟧.readings result ≡ Some [] }
        ensures ahead { ⟦<StepClock as Clock>⟧.ahead result ≡ Some (step_reading start step) }
    {
        StepClock {
            start,
            step,
            next: start,
            count: 0,
            reports: true,
        }
    }
}

impl Clock for StepClock {
    ghost use Rattle.std.specs.Prelude.{None, Some, if◌then◌else◌};
    ghost use Rattle.pt_io.specs.Clocks.{first_readings, step_reading};

    ghost readings = { λ c. if c.reports then Some (first_readings (step_reading c.start c.step) c.count) else None };

    ghost ahead = { λ c. Some (step_reading c.start c.step) };

    fn read(&mut self) -> u64 {
        let reading = self.next;
        if self.count == u64::MAX {
            self.reports = false;
        } else {
            self.count += 1;
            self.next = reading.saturating_add(self.step);
        }
        reading
    }

    fn rises_by_itself(&self) -> bool
        ensures { result ≡ false }
    {
        false
    }

    fn wait(&mut self, _until: u64) {}
}

/// Gives the readings of a list; after the last it repeats the last, and of an empty list it gives 0.
#[derive(Drop)]
pub struct ListClock {
    readings: Vec<u64>,
    count: u64,
    reports: bool,
}

impl ListClock {
    /// A clock that handed out nothing. No memory is taken.
    pub fn new(readings: Vec<u64>) -> ListClock
        ensures readings { ⟦<ListClock as Clock>⟧.readings result ≡ Some [] }
        ensures ahead { ⟦<ListClock as Clock>⟧.ahead result ≡ Some (nth_or_last readings.items) }
    {
        ListClock {
            readings,
            count: 0,
            reports: true,
        }
    }
}

impl Clock for ListClock {
    ghost use Rattle.std.specs.Prelude.{None, Some, if◌then◌else◌};
    ghost use Rattle.pt_io.specs.Clocks.{first_readings, nth_or_last};

    ghost readings = { λ c. if c.reports then Some (first_readings (nth_or_last c.readings.items) c.count) else None };

    ghost ahead = { λ c. Some (nth_or_last c.readings.items) };

    fn read(&mut self) -> u64 {
        let reading = nth_or_last(self.readings.as_slice(), self.count);
        if self.count == u64::MAX {
            self.reports = false;
        } else {
            self.count += 1;
        }
        reading
    }

    fn rises_by_itself(&self) -> bool
        ensures { result ≡ false }
    {
        false
    }

    fn wait(&mut self, _until: u64) {}
}

/// The reading of that number, counted from 0; past the end the last one, and 0 where there is none.
fn nth_or_last(readings: &[u64], number: u64) -> u64
    ensures { result ≡ nth_or_last readings.now number }
{
    if number < readings.len() as u64 {
        return readings[number as usize];
    }
    if readings.is_empty() {
        return 0;
    }
    readings[readings.len() - 1]
}

/// The machine's monotone clock, from when this one was made.
///
/// It reports no readings: no clause can say what a machine's clock gives. If it can't be read, it gives its last reading again.
#[derive(Drop)]
pub struct MachineClock<R: SystemClock + Drop> {
    clock: R,
    made: Duration,
    last: u64,
}

impl<R: SystemClock + Drop> MachineClock<R> {
    /// A clock that begins at 0 now. No memory is taken.
    pub fn new(clock: R) -> MachineClock<R>
        ensures clock { result.clock ≡ clock }
        ensures last { result.last ≡ 0 }
    {
        let made = match clock.monotonic() {
            Ok(made) => made,
            Err(_) => Duration::ZERO,
        };
        MachineClock {
            clock,
            made,
            last: 0,
        }
    }
}

impl<R: SystemClock + Drop> Clock for MachineClock<R> {
    ghost use Rattle.std.specs.Prelude.{None};

    ghost readings = { λ c. None };

    ghost ahead = { λ c. None };

    fn read(&mut self) -> u64 {
        if let Ok(now) = self.clock.monotonic() {
            let micros = now.saturating_sub(self.made).as_micros();
            if micros <= u64::MAX as u128 {
                self.last = micros as u64;
            }
        }
        self.last
    }

    fn rises_by_itself(&self) -> bool
        ensures { result ≡ true }
    {
        true
    }

    fn wait(&mut self, until: u64) {
        let early = until.saturating_sub(SPARE);
        let now = self.read();
        if now < early {
            self.clock.sleep(Duration::from_micros(early - now));
        }
    }
}

/// `count` clocks of the machine. Each begins at 0 now.
pub fn machine_clocks<R: SystemClock>(
    alloc: Global,
    clock: &R,
    count: usize,
) -> Result<Vec<MachineClock<&R>>, Memory>
    ensures { IfOk result (λ clocks. length clocks.items ≡ count) }
{
    let mut clocks = Vec::with_capacity(alloc, count)?;
    while clocks.len() < count {
        clocks.push(MachineClock::new(clock))?;
    }
    Ok(clocks)
}
