//! Commands over files in memory, and what each of them left.
//!
//! `file NAME LINES` gives a file these lines, which spaces separate; `fetch N` and `put N` let a call of the next command
//! fail; `clock N READINGS` gives clock N of the next command these readings, of which it repeats the last; `puts COMMAND` lets
//! each put of a command fail in turn; and any other line is a command.

ghost use Rattle.std.specs.Prelude.{◌≡◌, IfOk, length};

use crate::files::{Files, push_lines};
use crate::puts::fail_each_put;
use pt_blocks::Blocks;
use pt_history::Miss;
use pt_io::{ListClock, Page, Shelf};
use pt_run::{Outcome, ptides};
use pt_tags::Memory;
use std::alloc::{AllocError, Global};
use std::sync::Wait;
use std::thread::Threads;

const ROOM: usize = 4_194_304;

/// How many clocks a command gets.
const CLOCKS: usize = 16;

/// The readings of a clock.
#[derive(Drop)]
struct Readings {
    clock: usize,
    readings: Vec<u64>,
}

/// The blocks and the files, which calls of the next command fail, and what its clocks read.
#[derive(Drop)]
pub struct CommandScript {
    blocks: Blocks,
    files: Files,
    fetch: Option<u64>,
    put: Option<(u64, usize)>,
    clocks: Vec<Readings>,
}

impl CommandScript {
    /// With these blocks, no files, and no call that fails.
    pub fn new(alloc: Global, blocks: Blocks) -> CommandScript {
        CommandScript {
            blocks,
            files: Files::new(alloc),
            fetch: None,
            put: None,
            clocks: Vec::new(alloc),
        }
    }

    /// Does what a line says; gives what there is to write.
    pub fn follow<R: Threads + Wait + Sync>(
        &mut self,
        rt: &R,
        alloc: Global,
        line: &str,
    ) -> Result<String, AllocError> {
        if let Some(file) = line.strip_prefix("file ") {
            self.give(alloc, file)?;
            return Ok(String::new(alloc));
        }
        if let Some(number) = line.strip_prefix("fetch ") {
            self.fetch = number.parse().ok();
            return Ok(String::new(alloc));
        }
        if let Some(put) = line.strip_prefix("put ") {
            self.put = failing_put(put);
            return Ok(String::new(alloc));
        }
        if let Some(clock) = line.strip_prefix("clock ") {
            self.set(alloc, clock)?;
            return Ok(String::new(alloc));
        }
        if let Some(command) = line.strip_prefix("puts ") {
            return fail_each_put(self, rt, alloc, command);
        }
        self.run(rt, alloc, line)
    }

    /// Gives a file its lines.
    fn give(&mut self, alloc: Global, text: &str) -> Result<(), AllocError> {
        let (name, lines) = text.split_once(' ').unwrap_or((text, ""));
        let name = String::from_str(alloc, name)?;
        let mut content = String::new(alloc);
        push_lines(&mut content, lines)?;
        self.files.give(name, content)
    }

    /// Gives a clock its readings.
    fn set(&mut self, alloc: Global, text: &str) -> Result<(), AllocError> {
        let (clock, rest) = text.split_once(' ').unwrap_or((text, ""));
        let readings = readings_in(alloc, rest)?;
        let clock = clock.parse().unwrap_or(0);
        self.clocks.push(Readings { clock, readings })?;
        Ok(())
    }

    /// Runs a command; from then on no call fails, and no clock has readings.
    fn run<R: Threads + Wait + Sync>(
        &mut self,
        rt: &R,
        alloc: Global,
        line: &str,
    ) -> Result<String, AllocError> {
        let mut pages = empty_pages(alloc, self.put)?;
        let ran = self.run_onto(rt, alloc, line, &mut pages);
        self.fetch = None;
        self.put = None;
        self.clocks.clear();
        drop(pages);
        ran
    }

    /// Runs a command that writes to these pages; gives what there is to write.
    fn run_onto<R: Threads + Wait + Sync>(
        &self,
        rt: &R,
        alloc: Global,
        line: &str,
        pages: &mut Pages,
    ) -> Result<String, AllocError> {
        let outcome = self.outcome(rt, alloc, line, pages)?;
        report(alloc, line, pages, outcome)
    }

    /// Runs a command that writes to these pages.
    pub(crate) fn outcome<R: Threads + Wait + Sync>(
        &self,
        rt: &R,
        alloc: Global,
        line: &str,
        pages: &mut Pages,
    ) -> Result<Outcome<ListClock>, AllocError> {
        let words = words(alloc, line)?;
        let clocks = clocks(alloc, self.clocks.as_slice())?;
        let mut source = self.source(alloc)?;
        Ok(ptides(
            rt,
            alloc,
            words.as_slice(),
            &mut source,
            &mut pages.out,
            &mut pages.notes,
            clocks,
            &self.blocks,
        ))
    }

    /// The files, with the call that fails.
    fn source(&self, alloc: Global) -> Result<Shelf, AllocError> {
        let failing = match self.fetch {
            Some(number) => vec![in alloc; number]?,
            None => Vec::new(alloc),
        };
        self.files.shelf(alloc, failing)
    }
}

/// Where a command writes.
#[derive(Drop)]
pub(crate) struct Pages {
    pub(crate) out: Page,
    pub(crate) notes: Page,
}

/// Empty pages; this call of the first one fails.
pub(crate) fn empty_pages(alloc: Global, put: Option<(u64, usize)>) -> Result<Pages, AllocError> {
    let notes = page(alloc, None)?;
    let out = page(alloc, put)?;
    Ok(Pages { out, notes })
}

/// The readings of a text, separated by spaces.
fn readings_in(alloc: Global, text: &str) -> Result<Vec<u64>, AllocError> {
    let mut readings = Vec::new(alloc);
    for reading in text.split(' ') {
        if let Ok(reading) = reading.parse() {
            readings.push(reading)?;
        }
    }
    Ok(readings)
}

/// The number of a put that fails, from 0, and how many bytes it takes, 0 if that isn't given.
fn failing_put(text: &str) -> Option<(u64, usize)> {
    let (number, bytes) = text.split_once(' ').unwrap_or((text, "0"));
    Some((number.parse().ok()?, bytes.parse().ok()?))
}

fn page(alloc: Global, put: Option<(u64, usize)>) -> Result<Page, AllocError> {
    let mut failing = Vec::new(alloc);
    if let Some(put) = put {
        failing.push(put)?;
    }
    match Page::new(alloc, ROOM, failing) {
        Ok(page) => Ok(page),
        Err(Memory) => Err(AllocError),
    }
}

/// The clocks of a command: those that were given readings, and else clocks that always read 0.
fn clocks(alloc: Global, given: &[Readings]) -> Result<Vec<ListClock>, AllocError>
    ensures { IfOk result (λ clocks. length clocks.items ≡ 16) }
{
    let mut clocks = Vec::with_capacity(alloc, CLOCKS)?;
    while clocks.len() < CLOCKS {
        let clock = clock_of(alloc, given, clocks.len())?;
        clocks.push(clock)?;
    }
    Ok(clocks)
}

/// The clock of that number.
fn clock_of(alloc: Global, given: &[Readings], number: usize) -> Result<ListClock, AllocError> {
    let mut readings = Vec::new(alloc);
    for it in given {
        if it.clock == number {
            readings = it.readings.clone()?;
        }
    }
    Ok(ListClock::new(readings))
}

fn words(alloc: Global, line: &str) -> Result<Vec<String>, AllocError> {
    let mut words = Vec::new(alloc);
    for word in line.split(' ') {
        if !word.is_empty() {
            words.push(String::from_str(alloc, word)?)?;
        }
    }
    Ok(words)
}

/// The command, all that it wrote, its status, its misses and the number of platforms.
fn report(
    alloc: Global,
    line: &str,
    pages: &Pages,
    outcome: Outcome<ListClock>,
) -> Result<String, AllocError> {
    let mut text = String::new(alloc);
    let reported = push_report(alloc, &mut text, line, pages, &outcome);
    outcome.discard();
    reported?;
    Ok(text)
}

fn push_report(
    alloc: Global,
    text: &mut String,
    line: &str,
    pages: &Pages,
    outcome: &Outcome<ListClock>,
) -> Result<(), AllocError> {
    write!(text, "$ {line}\n")?;
    push_bytes(alloc, text, pages.out.bytes())?;
    push_bytes(alloc, text, pages.notes.bytes())?;
    let (status, platforms) = (outcome.status, outcome.platforms.len());
    write!(text, "status {status}, platforms {platforms}\n")?;
    for miss in outcome.misses.as_slice() {
        push_miss(text, *miss)?;
    }
    Ok(())
}

fn push_bytes(alloc: Global, text: &mut String, bytes: &[u8]) -> Result<(), AllocError> {
    let lossy = String::from_utf8_lossy(alloc, bytes)?;
    text.push_str(&lossy)
}

fn push_miss(text: &mut String, miss: Miss) -> Result<(), AllocError> {
    let Miss {
        actor,
        tag,
        reading,
        limit,
    } = miss;
    let (time, step) = (tag.time, tag.step);
    write!(
        text,
        "miss of actor {actor} at {time}.{step}, reading {reading}, limit {limit}\n"
    )
}
