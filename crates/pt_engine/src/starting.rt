//! An engine's pipes and pending results at the start of a run.

ghost use Rattle.std.specs.Prelude.{◌≡◌, [], IfOk, OnOk, length, replicate};
ghost use Rattle.pt_turn.specs.All.{AreNew};
ghost use Rattle.pt_engine.specs.Asked.{HaveLegalHistories, result_lists};

use pt_actors::Done;
use pt_links::Pipe;
use pt_tags::Memory;
use pt_turn::Platform;
use std::alloc::Global;

/// `count` empty pipes.
pub fn pipes(alloc: Global, count: usize) -> Result<Vec<Pipe>, Memory>
    ensures { IfOk result (λ pipes. pipes.items ≡ replicate count []) }
{
    let mut pipes = Vec::new(alloc);
    for _ in 0..count {
        if pipes.push(Pipe::new()).is_err() {
            return Err(Memory);
        }
    }
    Ok(pipes)
}

/// An empty list of results for each platform. No platform has made a turn, so each is still in its opening state.
pub fn no_results(alloc: Global, platforms: &[Platform]) -> Result<Vec<Vec<Done>>, Memory>
    requires fresh { AreNew platforms.now }
    ensures none { IfOk result (λ lists.
        result_lists lists.items ≡ replicate (length platforms.now) []) }
    ensures legal { OnOk result (HaveLegalHistories platforms.now) }
{
    let mut lists = Vec::new(alloc);
    for i in 0..platforms.len() {
        let turns = platforms[i].history().turns();
        prove!(turns == 0);
        if lists.push(Vec::new(alloc)).is_err() {
            return Err(Memory);
        }
    }
    Ok(lists)
}
