//! Tables of cases, one program for all of them: the first word of each line of its input says which.
//!
//! `graph JSON` writes `ok` or the first fault of a graph, `delays JSON` its least delays, `margins JSON` its margins, and
//! `readings JSON` the readings of its platforms. `command LINE` is a line of a script of commands over files in memory, and
//! `platform LINE` one of a script that drives platforms turn by turn. `meet firing JSON` and the like are runs by
//! threads. `measure N` measures the reader of rows and the firing of kinds. A line that begins with `#` is a heading, which is written as it is.
//!
//! `stdin` has the tables and `stdout` what each line must give. That was worked out by hand, but for random graphs, of
//! which only `agree` says something.
#![tactic(auto)]

mod commands;
mod delays;
mod files;
mod graphs;
mod margins;
mod measure;
mod meetings;
mod plans;
mod platforms;
mod puts;
mod readings;

use commands::CommandScript;
use platforms::PlatformScript;
use pt_blocks::{Block, Blocks, dead5};
use pt_types::Law;
use std::alloc::AllocError;
use std::io;
use std::sync::Wait;
use std::thread::Threads;

/// What a line is for.
enum Word {
    Heading,
    Graph,
    Delays,
    Margins,
    Readings,
    Command,
    Platform,
    Meet,
    Measure,
}

impl Word {
    /// What the first word of a line says; none where it is no word of this program.
    fn from_name(name: &str) -> Option<Word> {
        let word = match name {
            "graph" => Word::Graph,
            "delays" => Word::Delays,
            "margins" => Word::Margins,
            "readings" => Word::Readings,
            "command" => Word::Command,
            "platform" => Word::Platform,
            "meet" => Word::Meet,
            "measure" => Word::Measure,
            _ if name.starts_with('#') => Word::Heading,
            _ => return None,
        };
        Some(word)
    }
}

/// What the tables share, and both scripts as far as they went.
#[derive(Drop)]
struct Tables {
    blocks: Blocks,
    commands: CommandScript,
    platforms: PlatformScript,
}

fn main(rt: HostRuntime) -> io::Result<()> {
    let alloc = rt.alloc();
    // Commands have one block: the difference of both, if they are more than 5 apart.
    let name = String::from_str(alloc, "dead5")?;
    let mut blocks = Blocks::new(alloc);
    let added = match blocks.add(Block::new(name, dead5, Law::Deadband { width: 5 })) {
        Ok(()) => Ok(()),
        Err(_) => Err(AllocError),
    };
    added?;
    let mut tables = Tables {
        blocks: Blocks::new(alloc),
        commands: CommandScript::new(alloc, blocks),
        platforms: PlatformScript::new(alloc),
    };
    answer_all(&rt, &rt, &mut tables)
}

/// Writes what the lines of the input give.
fn answer_all<R: Threads + Wait + Sync>(
    rt: &HostRuntime,
    waiting: &R,
    tables: &mut Tables,
) -> io::Result<()> {
    for line in rt.lines(rt.alloc()) {
        write_answer(rt, waiting, tables, line)?;
    }
    Ok(())
}

/// Writes what a line gives, if it could be read.
fn write_answer<R: Threads + Wait + Sync>(
    rt: &HostRuntime,
    waiting: &R,
    tables: &mut Tables,
    line: io::Result<String>,
) -> io::Result<()> {
    let line = line?;
    let text = answer(rt, waiting, tables, line.as_str());
    drop(line);
    let text = text?;
    print!(rt; "{text}")
}

/// The text that a line gives. A command may wait: a run by a clock that doesn't rise goes on forever.
fn answer<R: Threads + Wait + Sync>(
    rt: &HostRuntime,
    waiting: &R,
    tables: &mut Tables,
    line: &str,
) -> io::Result<String> {
    let alloc = rt.alloc();
    let (name, rest) = line.split_once(' ').unwrap_or((line, ""));
    let Some(word) = Word::from_name(name) else {
        return Ok(format!(in alloc; "no such word: {line}\n")?);
    };
    let text = match word {
        Word::Heading => format!(in alloc; "{line}\n")?,
        Word::Graph => graphs::verdict(alloc, rest, &tables.blocks)?,
        Word::Delays => delays::table(alloc, rest, &tables.blocks)?,
        Word::Margins => margins::verdict(alloc, rest, &tables.blocks)?,
        Word::Readings => readings::readings(alloc, rest, &tables.blocks)?,
        Word::Command => tables.commands.follow(waiting, alloc, rest)?,
        Word::Platform => tables.platforms.follow(alloc, rest, &tables.blocks)?,
        Word::Meet => meetings::meet(waiting, alloc, rest, &tables.blocks)?,
        Word::Measure => measure::measured(rt, rest.parse().unwrap_or(0))?,
    };
    Ok(text)
}
