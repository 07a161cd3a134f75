//! Platforms beside the plain search, through many turns of a random graph.

use crate::platforms::drawing::{Drawn, draw};
use crate::platforms::game::{Game, Played};
use crate::platforms::random::Random;
use crate::platforms::report::push_claim;
use crate::platforms::search::Plain;
use pt_actors::Task;
use pt_blocks::Blocks;
use pt_tags::Reading;
use pt_types::{Graph, RowAt};
use std::alloc::{AllocError, Global};

/// How many turns are made of each graph.
const TURNS: u32 = 300;

/// How a comparison went.
#[derive(Drop)]
struct Tally {
    turns: u32,
    claims: u64,
    /// What was different, where something was.
    different: Option<String>,
}

/// A turn of the platform with this number, at this reading.
#[derive(Clone, Copy)]
struct Step {
    number: u32,
    reading: Reading,
}

/// Compares through the turns of the graph of a seed, and appends how that went.
pub fn compare(
    alloc: Global,
    text: &mut String,
    seed: u64,
    blocks: &Blocks,
) -> Result<(), AllocError> {
    let mut random = Random::new(seed);
    let drawn = draw(alloc, &mut random)?;
    compare_drawn(alloc, text, seed, &drawn, &mut random, blocks)
}

/// The same with the graph that was drawn.
fn compare_drawn(
    alloc: Global,
    text: &mut String,
    seed: u64,
    drawn: &Drawn,
    random: &mut Random,
    blocks: &Blocks,
) -> Result<(), AllocError> {
    let Some(mut game) = Game::open(alloc, drawn.text.as_str(), &drawn.files, blocks)? else {
        let graph = drawn.text.as_str();
        return write!(text, "seed {seed}: no plan for {graph}\n");
    };
    let compared = compare_games(alloc, &mut game, drawn.rows.as_slice(), random, blocks);
    drop(game);
    push_tally(text, seed, &compared?)
}

/// Makes turns of the platforms and of the plain search; how that went.
fn compare_games(
    alloc: Global,
    game: &mut Game,
    rows: &[RowAt],
    random: &mut Random,
    blocks: &Blocks,
) -> Result<Tally, AllocError> {
    let mut plains = plains(alloc, game.plan.graph(), rows)?;
    go_on(alloc, game, &mut plains, random, blocks)
}

/// What both platforms have by the definition.
fn plains(alloc: Global, graph: &Graph, rows: &[RowAt]) -> Result<Vec<Plain>, AllocError> {
    let mut plains = Vec::new(alloc);
    for platform in 0..2u32 {
        plains.push(Plain::new(alloc, graph, platform, rows)?)?;
    }
    Ok(plains)
}

/// Appends how a comparison went.
fn push_tally(text: &mut String, seed: u64, tally: &Tally) -> Result<(), AllocError> {
    let (turns, claims) = (tally.turns, tally.claims);
    match &tally.different {
        None => write!(text, "seed {seed}: {turns} turns, {claims} claims, agree\n"),
        Some(how) => write!(text, "seed {seed}: turn {turns} {how}\n"),
    }
}

/// Makes turns of the platforms and of the plain search until they differ or all turns are made.
fn go_on(
    alloc: Global,
    game: &mut Game,
    plains: &mut Vec<Plain>,
    random: &mut Random,
    blocks: &Blocks,
) -> Result<Tally, AllocError> {
    let mut tally = Tally {
        turns: 0,
        claims: 0,
        different: None,
    };
    let mut clock = 0u64;
    for _ in 0..TURNS {
        let number = if random.below(2) == 0 { 0u32 } else { 1u32 };
        clock = clock.saturating_add(random.below(7));
        let reading = clock.saturating_add(random.below(3));
        let step = Step { number, reading };
        tally.go_on(alloc, game, plains, random, step, blocks)?;
        if tally.different.is_some() {
            break;
        }
    }
    Ok(tally)
}

impl Tally {
    /// Makes a turn of a platform and of the plain search.
    fn go_on(
        &mut self,
        alloc: Global,
        game: &mut Game,
        plains: &mut Vec<Plain>,
        random: &mut Random,
        step: Step,
        blocks: &Blocks,
    ) -> Result<(), AllocError> {
        let played = play(alloc, game, random, step, blocks)?;
        self.turns = self.turns.saturating_add(1);
        let plain = plains.as_mut_slice().get_mut(step.number as usize);
        match (played, plain) {
            (Some(played), Some(plain)) => {
                let judged = self.judge(alloc, game.plan.graph(), plain, step.reading, &played);
                drop(played);
                judged
            }
            _ => {
                self.different = Some(String::from_str(alloc, "refused")?);
                Ok(())
            }
        }
    }

    /// Makes a turn of the plain search, and compares what it claims with what a platform claimed.
    fn judge(
        &mut self,
        alloc: Global,
        graph: &Graph,
        plain: &mut Plain,
        reading: Reading,
        played: &Played,
    ) -> Result<(), AllocError> {
        let wanted = search(alloc, graph, plain, reading, played)?;
        self.claims = self.claims.saturating_add(wanted.len() as u64);
        if wanted.as_slice() != played.claimed.as_slice() {
            self.different = Some(difference(
                alloc,
                graph,
                wanted.as_slice(),
                played.claimed.as_slice(),
            )?);
        }
        Ok(())
    }
}

/// Makes a turn of a platform, with some of the tasks and of the messages held back.
fn play(
    alloc: Global,
    game: &mut Game,
    random: &mut Random,
    step: Step,
    blocks: &Blocks,
) -> Result<Option<Played>, AllocError> {
    let held = held_back(alloc, game, random)?;
    let kept = few_of(alloc, 2, random)?;
    game.play(
        alloc,
        step.number,
        step.reading,
        held.as_slice(),
        kept.as_slice(),
        &[],
        blocks,
    )
}

/// What the plain search claims in the turn that was made.
fn search(
    alloc: Global,
    graph: &Graph,
    plain: &mut Plain,
    reading: Reading,
    played: &Played,
) -> Result<Vec<Task>, AllocError> {
    for done in played.results.as_slice() {
        plain.post(graph, done)?;
    }
    plain.turn(alloc, graph, reading, played.messages.as_slice())
}

/// The actors of some of the tasks that were not posted yet.
fn held_back(alloc: Global, game: &Game, random: &mut Random) -> Result<Vec<u32>, AllocError> {
    let mut held = Vec::new(alloc);
    for one in game.unposted.as_slice() {
        if random.below(4) == 0 {
            held.push(one.task.actor)?;
        }
    }
    Ok(held)
}

/// Some of the first numbers.
fn few_of(alloc: Global, count: u32, random: &mut Random) -> Result<Vec<u32>, AllocError> {
    let mut few = Vec::new(alloc);
    for number in 0..count {
        if random.below(5) == 0 {
            few.push(number)?;
        }
    }
    Ok(few)
}

/// What the plain search claimed, and what the platform did.
fn difference(
    alloc: Global,
    graph: &Graph,
    wanted: &[Task],
    claimed: &[Task],
) -> Result<String, AllocError> {
    let mut text = String::new(alloc);
    push_claims(&mut text, "the search:", graph, wanted)?;
    push_claims(&mut text, "; the platform:", graph, claimed)?;
    Ok(text)
}

/// Appends who claimed, and what.
fn push_claims(
    text: &mut String,
    who: &str,
    graph: &Graph,
    tasks: &[Task],
) -> Result<(), AllocError> {
    text.push_str(who)?;
    for task in tasks {
        push_claim(text, graph, task.number, task.actor, task.tag)?;
    }
    Ok(())
}
