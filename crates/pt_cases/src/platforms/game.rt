//! The platforms of a plan, turn by turn.

use crate::files::Files;
use crate::plans::{opened, plan_of};
use crate::platforms::arrivals::leads_to;
use crate::platforms::turns::{Made, make_turn, send_all};
use pt_actors::{Done, Task};
use pt_blocks::Blocks;
use pt_offsets::Plan;
use pt_tags::Reading;
use pt_turn::Platform;
use pt_types::{Graph, OnLink};
use std::alloc::{AllocError, Global};
use std::sync::Arc;

/// A task whose result was not posted yet, and its platform.
#[derive(Drop, Clone, Copy)]
pub struct Unposted {
    pub platform: u32,
    pub task: Task,
}

impl Unposted {
    /// Whether this is a task of a platform, and of none of these actors.
    fn is_free(&self, number: u32, held: &[u32]) -> bool {
        self.platform == number && !held.contains(&self.task.actor)
    }
}

/// What a turn was given and what it claimed.
#[derive(Drop)]
pub struct Played {
    pub posted: Vec<Task>,
    pub results: Vec<Done>,
    pub messages: Vec<OnLink>,
    pub claimed: Vec<Task>,
}

/// The platforms, what was claimed and not posted, and the messages on their way.
#[derive(Drop)]
pub struct Game {
    pub plan: Arc<Plan>,
    pub platforms: Vec<Platform>,
    pub unposted: Vec<Unposted>,
    pub messages: Vec<OnLink>,
}

impl Game {
    /// The platforms of a graph, opened with the rows of these files; none where they can't be.
    pub fn open(
        alloc: Global,
        text: &str,
        files: &Files,
        blocks: &Blocks,
    ) -> Result<Option<Game>, AllocError> {
        let Some(plan) = plan_of(alloc, text, blocks) else {
            return Ok(None);
        };
        let plan = Arc::new(alloc, plan)?;
        match opened_with(alloc, &plan, files)? {
            Some(platforms) => Ok(Some(Game {
                plan,
                platforms,
                unposted: Vec::new(alloc),
                messages: Vec::new(alloc),
            })),
            None => Ok(None),
        }
    }

    /// The tasks of a platform that were not posted yet, but for those of these actors, which stay.
    fn take_tasks(
        &mut self,
        alloc: Global,
        number: u32,
        held: &[u32],
    ) -> Result<Vec<Task>, AllocError> {
        let mut taken = Vec::new(alloc);
        for one in self.unposted.as_slice() {
            if one.is_free(number, held) {
                taken.push(one.task)?;
            }
        }
        self.unposted.retain(|one| !one.is_free(number, held));
        Ok(taken)
    }

    /// The messages on their way to a platform, but for those on these links, which stay.
    fn take_messages(
        &mut self,
        alloc: Global,
        number: u32,
        kept: &[u32],
    ) -> Result<Vec<OnLink>, AllocError> {
        let graph = self.plan.graph();
        let mut taken = Vec::new(alloc);
        for message in self.messages.as_slice() {
            if comes(graph, number, message, kept) {
                taken.push(*message)?;
            }
        }
        self.messages
            .retain(|message| !comes(graph, number, message, kept));
        Ok(taken)
    }

    /// Makes a turn of a platform with the results of its tasks, these tasks' again and the messages on their way, but for
    /// what is held back, and sends. None where there is no such platform, or where these messages may not come.
    pub fn play(
        &mut self,
        alloc: Global,
        number: u32,
        reading: Reading,
        held: &[u32],
        kept: &[u32],
        again: &[Task],
        blocks: &Blocks,
    ) -> Result<Option<Played>, AllocError> {
        let mut posted = self.take_tasks(alloc, number, held)?;
        posted.extend_from_slice(again)?;
        let messages = self.take_messages(alloc, number, kept)?;
        let made = self.make(
            alloc,
            number,
            reading,
            posted.as_slice(),
            messages.as_slice(),
            blocks,
        )?;
        match made {
            Some(Made { results, claimed }) => Ok(Some(Played {
                posted,
                results,
                messages,
                claimed,
            })),
            None => Ok(None),
        }
    }

    /// Makes a turn of a platform with the results of these tasks and these messages, and sends. None where there is no such
    /// platform, or where these messages may not come.
    fn make(
        &mut self,
        alloc: Global,
        number: u32,
        reading: Reading,
        posted: &[Task],
        messages: &[OnLink],
        blocks: &Blocks,
    ) -> Result<Option<Made>, AllocError> {
        let Some(platform) = self.platforms.as_mut_slice().get_mut(number as usize) else {
            return Ok(None);
        };
        let made = make_turn(alloc, platform, reading, posted, messages, blocks)?;
        self.send(alloc, number, &made)?;
        Ok(made)
    }

    /// Sends what a platform has to send, and adds what it claimed in a turn to what was not posted yet.
    fn send(&mut self, alloc: Global, number: u32, made: &Option<Made>) -> Result<(), AllocError> {
        if let Some(platform) = self.platforms.as_mut_slice().get_mut(number as usize) {
            send_all(alloc, platform, &mut self.messages)?;
        }
        if let Some(made) = made {
            for task in made.claimed.as_slice() {
                self.unposted.push(Unposted {
                    platform: number,
                    task: *task,
                })?;
            }
        }
        Ok(())
    }
}

/// The platforms of a plan, opened with the rows of these files; none where a file is refused.
fn opened_with(
    alloc: Global,
    plan: &Arc<Plan>,
    files: &Files,
) -> Result<Option<Vec<Platform>>, AllocError> {
    let source = files.shelf(alloc, Vec::new(alloc))?;
    opened(alloc, plan, source)
}

/// Whether a message comes to a platform, and its link is none of these.
fn comes(graph: &Graph, number: u32, message: &OnLink, kept: &[u32]) -> bool {
    leads_to(graph, number, message.link) && !kept.contains(&message.link)
}
