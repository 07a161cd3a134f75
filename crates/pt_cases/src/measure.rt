//! Measures the reader of sensor rows and the firing of kinds.
//!
//! What was computed goes to standard output, and how long it took to standard error, in microseconds.
//! `bench/run.sh` compares both with a plain program.

ghost use Rattle.std.specs.Prelude.{◌≤◌, IsTrue};
ghost use Rattle.pt_types.specs.Kinds.{kind_is_lawful};

use pt_actors::{Inputs, fire_kind};
use pt_sensors::{file_limits, read_rows};
use pt_tags::List;
use pt_types::{Kind, Law, MachineRow, USUAL_CLAIMS};
use std::alloc::{AllocError, Global};
use std::io;
use std::time::Instant;

/// The rows and the firings of one part; a hundred parts have as many rows as a sensor may have.
const ROWS: u64 = 1_000;

const FIRINGS: u64 = 10_000;

const MOST_PARTS: u64 = 100;

/// How often the rows are read.
const READINGS: u32 = 5;

/// A file of this many rows, each number as long as it may be.
fn text(alloc: Global, rows: u64) -> Result<String, AllocError>
    requires { rows ≤ 100000 }
{
    let mut text = String::from_str(alloc, "time,seen,value\n")?;
    for i in 1..rows + 1 {
        write!(
            text,
            "00000{:015},0000{:016},-{:020}\n",
            i * 1_000_000_000,
            i * 10_000_000_000,
            i
        )?;
    }
    Ok(text)
}

/// How many rows a file has, read again and again.
fn rows(alloc: Global, text: &str) -> usize {
    let mut count = 0;
    for _ in 0..READINGS {
        count = match read_rows(alloc, file_limits(USUAL_CLAIMS), text.as_bytes()) {
            Ok(rows) => rows.as_slice().len(),
            Err(_) => 0,
        };
    }
    count
}

/// The sum of what a kind gives, fired again and again in the state that it came to.
fn firings(kind: &Kind, count: u64) -> i64
    requires { IsTrue (kind_is_lawful kind.now) }
{
    let mut state = 0;
    let mut total = 0i64;
    for i in 0..count {
        let a = (i % 1000) as i64;
        let inputs = Inputs::from_values([
            Some(a),
            Some(state),
            None,
            None,
            None,
            None,
            None,
            None,
        ]);
        let fired = fire_kind(kind, state, &inputs);
        state = fired.state;
        total = total.wrapping_add(fired.outputs.get(0).unwrap_or(0));
    }
    total
}

/// What was computed so far, and how many firings each kind gets.
#[derive(Drop)]
struct Measures {
    text: String,
    firings: u64,
}

impl Measures {
    /// Reads a file of this many rows and fires all kinds.
    fn measure(&mut self, rt: &HostRuntime, rows: u64) -> io::Result<()>
        requires { rows ≤ 100000 }
    {
        let file = text(rt.alloc(), rows)?;
        let read = self.read(rt, file.as_str());
        drop(file);
        read?;
        self.fire_plain(rt)?;
        self.fire_machine(rt)?;
        self.fire_lanes(rt)
    }

    /// Reads the rows of a file; keeps their number, and says the time.
    fn read(&mut self, rt: &HostRuntime, file: &str) -> io::Result<()> {
        let start = Instant::now(rt)?;
        let count = rows(rt.alloc(), file);
        let time = start.elapsed(rt)?.as_micros();
        write!(self.text, "rows {count}\n")?;
        eprintln!(rt; "rows {time}")
    }

    /// Fires the kinds that have no list.
    fn fire_plain(&mut self, rt: &HostRuntime) -> io::Result<()> {
        let law = Law::Weighted { num: 1, den: 2 };
        self.fire(rt, "scale", Kind::Scale { num: 3, den: 2 })?;
        self.fire(rt, "add", Kind::Add)?;
        self.fire(rt, "sum", Kind::Sum)?;
        self.fire(rt, "merge", Kind::Merge { n: 2 })?;
        self.fire(rt, "delay", Kind::Delay { d: 100 })?;
        self.fire(rt, "block", Kind::Block { block: 0, law })
    }

    /// Fires a machine that goes through three states.
    fn fire_machine(&mut self, rt: &HostRuntime) -> io::Result<()> {
        let row = |state, next| MachineRow {
            state,
            low: 0,
            high: 500,
            next,
            emit: Some((0, next)),
            guard: None,
        };
        let rows = vec![in rt.alloc(); row(0, 1), row(1, 2), row(2, 0)]?;
        let machine = Kind::Machine {
            start: 0,
            outputs: 1,
            rows: List::new(rows),
        };
        self.fire(rt, "machine", machine)
    }

    /// Fires lanes with two cells.
    fn fire_lanes(&mut self, rt: &HostRuntime) -> io::Result<()> {
        let cells = List::new(vec![in rt.alloc(); 1, 1]?);
        self.fire(rt, "lanes", Kind::Lanes { cells })
    }

    /// Fires a kind; keeps its sum, and says the time.
    fn fire(&mut self, rt: &HostRuntime, name: &str, kind: Kind) -> io::Result<()>
        requires { IsTrue (kind_is_lawful kind) }
    {
        let fired = self.time(rt, name, &kind);
        drop(kind);
        fired
    }

    /// Keeps the sum of a kind's firings, and says how long they took.
    fn time(&mut self, rt: &HostRuntime, name: &str, kind: &Kind) -> io::Result<()>
        requires { IsTrue (kind_is_lawful kind.now) }
    {
        let start = Instant::now(rt)?;
        let total = firings(kind, self.firings);
        let time = start.elapsed(rt)?.as_micros();
        write!(self.text, "{name} {total}\n")?;
        eprintln!(rt; "{name} {time}")
    }
}

/// Measures a number of parts, at least one and at most a hundred; gives what was computed.
pub fn measured(rt: &HostRuntime, parts: u64) -> io::Result<String> {
    let parts = parts.max(1).min(MOST_PARTS);
    let mut measures = Measures {
        text: String::new(rt.alloc()),
        firings: parts * FIRINGS,
    };
    measures.measure(rt, parts * ROWS)?;
    Ok(measures.text)
}
