//! A script that makes the turns of platforms one by one, and what each turn did.
//!
//! `graph JSON` and `rows FILE ROWS` give a graph and the rows of its sensors' files, and `open` opens its platforms.
//! `turn PLATFORM READING` makes a turn with the results of all that its platform claimed and with the messages that were
//! sent to it, but for the actors of `hold` and the links of `keep`, up to `free`. `again` does so with all results again
//! that were posted before. `seeds N` makes N random graphs, and compares through many turns of each what its platforms
//! claim with what a plain search by the definition does.

mod arrivals;
mod comparison;
mod drawing;
mod game;
mod paths;
mod random;
mod report;
mod search;
mod turns;

use crate::files::{Files, push_lines};
use crate::platforms::comparison::compare;
use crate::platforms::game::Game;
use crate::platforms::report::push_turn;
use pt_actors::Task;
use pt_blocks::Blocks;
use pt_tags::Reading;
use std::alloc::{AllocError, Global};

/// The graph and the files that were given, the platforms, and what is held back.
#[derive(Drop)]
pub struct PlatformScript {
    graph: String,
    files: Files,
    game: Option<Game>,
    /// The actors whose results are held back.
    held: Vec<u32>,
    /// The links whose messages are.
    kept: Vec<u32>,
    /// The tasks of all results that were posted.
    posted: Vec<Task>,
}

/// The first two numbers of a text, separated by spaces.
fn two_numbers(text: &str) -> Option<(u64, u64)> {
    let mut first = None;
    for word in text.split(' ') {
        if let Ok(number) = word.parse::<u64>() {
            match first {
                None => first = Some(number),
                Some(first) => return Some((first, number)),
            }
        }
    }
    None
}

impl PlatformScript {
    /// Nothing was given yet.
    pub fn new(alloc: Global) -> PlatformScript {
        PlatformScript {
            graph: String::new(alloc),
            files: Files::new(alloc),
            game: None,
            held: Vec::new(alloc),
            kept: Vec::new(alloc),
            posted: Vec::new(alloc),
        }
    }

    /// Does what a line says; gives what there is to write.
    pub fn follow(
        &mut self,
        alloc: Global,
        line: &str,
        blocks: &Blocks,
    ) -> Result<String, AllocError> {
        let (word, rest) = line.split_once(' ').unwrap_or((line, ""));
        match word {
            "graph" => self.graph = String::from_str(alloc, rest)?,
            "rows" => self.give(alloc, rest)?,
            "open" => return self.open(alloc, blocks),
            "hold" => push_numbers(&mut self.held, rest)?,
            "keep" => push_numbers(&mut self.kept, rest)?,
            "free" => {
                self.held.clear();
                self.kept.clear();
            }
            "seeds" => return seeds(alloc, rest, blocks),
            "turn" => return self.turn(alloc, line, rest, false, blocks),
            "again" => return self.turn(alloc, line, rest, true, blocks),
            _ => return format!(in alloc; "no such word: {line}\n"),
        }
        Ok(String::new(alloc))
    }

    /// Gives a sensor's file its rows.
    fn give(&mut self, alloc: Global, text: &str) -> Result<(), AllocError> {
        let (name, rows) = text.split_once(' ').unwrap_or((text, ""));
        let name = String::from_str(alloc, name)?;
        let content = rows_file(alloc, rows)?;
        self.files.give(name, content)
    }

    /// Opens the platforms; no file is left, and nothing is held back.
    fn open(&mut self, alloc: Global, blocks: &Blocks) -> Result<String, AllocError> {
        self.game = Game::open(alloc, self.graph.as_str(), &self.files, blocks)?;
        self.files.clear();
        self.held.clear();
        self.kept.clear();
        self.posted.clear();
        String::from_str(
            alloc,
            if self.game.is_some() {
                "opened\n"
            } else {
                "not opened\n"
            },
        )
    }

    /// Makes a turn; where that is asked, with all results again that were posted before.
    fn turn(
        &mut self,
        alloc: Global,
        line: &str,
        rest: &str,
        again: bool,
        blocks: &Blocks,
    ) -> Result<String, AllocError> {
        let Some((number, reading)) = two_numbers(rest) else {
            return format!(in alloc; "{line}: no platform and reading\n");
        };
        let Ok(number) = u32::try_from(number) else {
            return format!(in alloc; "{line}: no platform\n");
        };
        if self.game.is_none() {
            return format!(in alloc; "{line}: not open\n");
        }
        let made = self.play(alloc, number, reading, again, blocks)?;
        let mut text = format!(in alloc; "{line} ")?;
        self.push_turn(&mut text, number, made)?;
        Ok(text)
    }

    /// Makes a turn of a game; says whether one was made.
    fn play(
        &mut self,
        alloc: Global,
        number: u32,
        reading: Reading,
        again: bool,
        blocks: &Blocks,
    ) -> Result<bool, AllocError> {
        let Some(game) = &mut self.game else {
            return Ok(false);
        };
        let (held, kept) = (self.held.as_slice(), self.kept.as_slice());
        let before = tasks_if(again, self.posted.as_slice());
        match game.play(alloc, number, reading, held, kept, before, blocks)? {
            None => Ok(false),
            Some(played) => {
                let posted = tasks_if(!again, played.posted.as_slice());
                match self.posted.extend_from_slice(posted) {
                    Ok(()) => Ok(true),
                    Err(_) => Err(AllocError),
                }
            }
        }
    }

    /// Appends what a turn did.
    fn push_turn(&self, text: &mut String, number: u32, made: bool) -> Result<(), AllocError> {
        match &self.game {
            Some(game) => push_turn(text, game, number, made),
            None => Ok(()),
        }
    }
}

/// These tasks if they are wanted, and else none.
fn tasks_if(wanted: bool, tasks: &[Task]) -> &[Task] {
    if wanted { tasks } else { &[] }
}

/// The file of a sensor with these rows, separated by spaces.
fn rows_file(alloc: Global, rows: &str) -> Result<String, AllocError> {
    let mut content = String::from_str(alloc, "time,seen,value\n")?;
    push_lines(&mut content, rows)?;
    Ok(content)
}

/// Compares platforms with the plain search, through the graphs of the first seeds.
fn seeds(alloc: Global, rest: &str, blocks: &Blocks) -> Result<String, AllocError> {
    let mut text = String::new(alloc);
    let count = rest.parse::<u64>().unwrap_or(0);
    for seed in 0..count {
        compare(alloc, &mut text, seed, blocks)?;
    }
    Ok(text)
}

/// Appends the small numbers of a text, separated by spaces.
fn push_numbers(numbers: &mut Vec<u32>, text: &str) -> Result<(), AllocError> {
    for word in text.split(' ') {
        if let Ok(number) = word.parse::<u32>() {
            numbers.push(number)?;
        }
    }
    Ok(())
}
