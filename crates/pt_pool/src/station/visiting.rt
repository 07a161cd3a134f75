//! A visit of a linked platform and its board.

ghost use Rattle.std.specs.Prelude.{◌≡◌, ◌+◌, ◌≤◌, ◌++◌, None, Some, OnErr, OnOk, vec_len, vec_capacity};
ghost use Rattle.pt_turn.specs.Posts.Posted.{AreDone};
ghost use Rattle.pt_pool.specs.LinkedPlatform.{plan_graph};
ghost use Rattle.pt_pool.specs.Stations.Stations.{StationAnswers};

use crate::facts::show_admitted;
use crate::station::collecting::{RESULTS_A_VISIT, collect_all};
use crate::station::placing::place_all;
use crate::{LinkedPlatform, Run, VisitFault};
use pt_actors::{Done, Tasks};
use pt_board::{Board, Keeper};
use pt_io::Clock;
use pt_tags::Memory;
use std::alloc::Global;
use std::sync::Wait;

/// Reserves memory for 32 results, and for `most` tasks in case no slot is free.
fn make_room(results: &mut Vec<Done>, tasks: &mut Tasks, most: usize) -> Result<(), Memory>
    ensures results { (results.new.items ≡ results.old.items)
        × (vec_len results.new ≡ vec_len results.old) }
    ensures tasks { tasks.new.tasks ≡ tasks.old.tasks }
    ensures room { OnOk result ((vec_len results.new + 32 ≤ vec_capacity results.new)
        × (most ≤ tasks.new.spare)) }
{
    results.reserve(RESULTS_A_VISIT)?;
    tasks.reserve(most)
}

/// Visits a linked platform with the results that wait and those that are collected from the board, and places what it claimed.
pub(crate) fn visit_over<J: Run, C: Clock, R: Wait>(
    rt: &R,
    alloc: Global,
    linked: &mut LinkedPlatform<J, C>,
    board: &Board,
    keeper: &mut Keeper,
    results: &mut Vec<Done>,
    claimed: &mut Tasks,
    most: usize,
    tasks: &mut Tasks,
) -> Result<(), VisitFault>
    requires no_fault { linked.old.platform.fault ≡ None }
    requires most { (1 ≤ most) × (most ≤ 32) }
    requires table { keeper.old.table ≡ board.now.table }
    requires graph { keeper.old.knows.graph ≡ Some (plan_graph J.plan) }
    requires done { AreDone (plan_graph J.plan) results.old.items }
    requires few { keeper.old.next ≤ linked.old.platform.claims }
    ensures answer { StationAnswers result most
        (plan_graph J.plan) linked.old linked.new keeper.old keeper.new results.old.items
        results.new.items tasks.old.tasks tasks.new.tasks }
{
    show_admitted(linked.platform());
    let Ok(()) = make_room(results, tasks, most) else {
        linked.give_up();
        return Err(VisitFault::Memory);
    };
    collect_all(board, keeper, results);
    claimed.clear();
    match linked.visit(rt, alloc, results.as_slice(), most, claimed) {
        Ok(()) => {
            results.clear();
            place_all(board, keeper, claimed.as_slice(), tasks);
            Ok(())
        }
        Err(VisitFault::Turn(fault)) => {
            results.clear();
            place_all(board, keeper, claimed.as_slice(), tasks);
            Err(VisitFault::Turn(fault))
        }
        Err(VisitFault::Memory) => Err(VisitFault::Memory),
    }
}
