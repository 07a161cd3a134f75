//! A log verified by platforms that were just opened.

ghost use Rattle.std.specs.Prelude.{◌≡◌, [], ℕ, None, IfOk, List, OnOk, replicate};
ghost use Rattle.pt_types.specs.declared.rows.Row.{Row};
ghost use Rattle.pt_turn.specs.All.{AreNew, AreReady};
ghost use Rattle.pt_confluence.specs.Gathered.{AreLegal, HaveFinished};
ghost use Rattle.pt_audit.specs.Verdicts.{IsVerdictOn};
ghost use Rattle.pt_audit.specs.declared.verdict.Verdict.TheVariants.{Fine};

use crate::blocks::verify_blocks;
use crate::finishing::verdict_after;
use crate::order::Order;
use crate::parse::Cursor;
use crate::turn::Tools;
use crate::verdict::Verdict;
use pt_blocks::Blocks;
use pt_offsets::Plan;
use pt_tags::{Memory, Message};
use pt_turn::Platform;
use std::alloc::Global;

/// The verdict on a log, and the platforms after its turns.
#[derive(Drop)]
pub(crate) struct VerifiedLog {
    pub verdict: Verdict,
    pub platforms: Vec<Platform>,
}

/// Verifies a log, and says what it is.
pub(crate) fn verify_log(
    alloc: Global,
    plan: &Plan,
    platforms: Vec<Platform>,
    blocks: &Blocks,
    log: Cursor,
) -> Result<VerifiedLog, Memory>
    requires ready { (rows : ℕ → List Row) × AreReady plan.now rows platforms.items }
    ensures verdict { (rows : ℕ → List Row) → AreReady plan.now rows platforms.items →
        IfOk result (λ ended. IsVerdictOn plan.now rows log.entry ended.verdict) }
    ensures fine { (rows : ℕ → List Row) → AreReady plan.now rows platforms.items →
        IfOk result (λ ended. ended.verdict ≡ Fine →
        HaveFinished plan.now rows ended.platforms.items) }
{
    let mut platforms = platforms;
    have_not_moved(platforms.as_slice());
    let mut last = none_taken(alloc, plan.graph().links.as_slice().len())?;
    let mut order = Order {
        platform: 0,
        before: None,
        last: None,
    };
    let mut tools = Tools::new(alloc, blocks);
    let stop = verify_blocks(
        plan,
        platforms.as_mut_slice(),
        &mut order,
        last.as_mut_slice(),
        &mut tools,
        log,
    )?;
    let verdict = verdict_after(alloc, plan.graph(), platforms.as_slice(), stop)?;
    Ok(VerifiedLog { verdict, platforms })
}

/// For each link that no message was taken.
fn none_taken(alloc: Global, links: usize) -> Result<Vec<Option<Message>>, Memory>
    ensures { IfOk result (λ last. last.items ≡ replicate links None) }
{
    let mut last = Vec::new(alloc);
    for _ in 0..links {
        last.push(None)?;
    }
    Ok(last)
}

/// That platforms which have made no turn are in their opening states.
fn have_not_moved(platforms: &[Platform])
    requires fresh { AreNew platforms.now }
    ensures legal { AreLegal platforms.now }
{
    for i in 0..platforms.len() {
        let turns = platforms[i].history().turns();
        prove!(turns == 0);
    }
}
