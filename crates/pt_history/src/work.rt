//! Claims and their results, stored flat.

ghost use Rattle.std.specs.Prelude.{◌≡◌, ◌+◌, ◌<◌, ◌≤◌, ◌^◌, ◌++◌, ◌∷◌, [], IfSome, OnOk, Some, length, max, option_map, slice_get, vec_len, vec_capacity};
ghost use Rattle.pt_history.specs.Tasks.{mark_of};
ghost use Rattle.pt_history.specs.Works.{SourcesAreWithin, IsStored, done_of, task_at};

use crate::cells::{Cells, parts_of};
use crate::claims::{Claims, Mark, mark_of};
use crate::pieces::{MOST_ITEMS, widened};
use crate::sources::{Source, Sources};
use pt_tags::Memory;
use pt_types::{Done, Fired, Task};
use std::alloc::Global;
use std::marker::Model;

/// A compact list of claims and one of results, and room reserved for more.
///
/// The task of a result is mostly the claim of its number, and is not stored again.
#[derive(Drop)]
pub(crate) struct Work {
    claims: Claims,
    sources: Sources,
    others: Vec<Task>,
    /// The outputs of each result, and the state after it.
    fired: Cells,
    spare: usize,
}

impl Model for Work {
    ghost use Rattle.std.specs.Prelude.{◌≡◌, ◌+◌, ◌<◌, ◌≤◌, ◌^◌, length, vec_len, vec_capacity};
    ghost use Rattle.pt_history.specs.Works.{SourcesAreWithin, RoomyWork, dones_of};
    ghost use Rattle.pt_history.specs.WorkWhole.{IsWork};

    ghost Value = { RoomyWork };

    ghost view = { λ w. record {
      tasks = w.claims.tasks;
      dones = dones_of w.claims.tasks w.others.items w.sources.items w.fired.cells;
      spare_tasks = w.claims.spare;
      spare_dones = w.spare;
    } };

    ghost invariant = { IsWork };
}

impl Work {
    /// No claims, no results and no room.
    pub fn new(alloc: Global) -> Work
        ensures { result ≡ record { tasks = []; dones = []; spare_tasks = 0; spare_dones = 0 } }
    {
        Work {
            claims: Claims::new(alloc),
            sources: Sources::new(alloc),
            others: Vec::new(alloc),
            fired: Cells::new(alloc),
            spare: 0,
        }
    }

    /// Reserves room for at least this many more claims and results. It fails if memory runs out, or if the number of claims or
    /// that of results could reach 2^32.
    pub fn reserve(&mut self, claims: usize, results: usize) -> Result<(), Memory>
        ensures tasks { self.new.tasks ≡ self.old.tasks }
        ensures dones { self.new.dones ≡ self.old.dones }
        ensures kept { (self.old.spare_tasks ≤ self.new.spare_tasks)
            × (self.old.spare_dones ≤ self.new.spare_dones) }
        ensures bound { (self.new.spare_tasks ≤ max self.old.spare_tasks claims)
            × (self.new.spare_dones ≤ max self.old.spare_dones results) }
        ensures room { OnOk result ((claims ≤ self.new.spare_tasks)
            × (results ≤ self.new.spare_dones)) }
    {
        if results >= MOST_ITEMS - self.others.len() {
            return Err(Memory);
        }
        self.sources.reserve(results)?;
        widened(&mut self.others, self.spare, results)?;
        self.claims.reserve(claims)?;
        self.fired.reserve(results)?;
        self.spare = self.spare.max(results);
        Ok(())
    }

    /// Appends a claim. Allocates nothing.
    #[inline(always)]
    fn claim(&mut self, task: &Task)
        requires { 0 < self.old.spare_tasks }
        ensures tasks { self.new.tasks ≡ self.old.tasks ++ task.now ∷ [] }
        ensures dones { self.new.dones ≡ self.old.dones }
        ensures claims { self.new.spare_tasks + 1 ≡ self.old.spare_tasks }
        ensures results { self.new.spare_dones ≡ self.old.spare_dones }
    {
        self.claims.push(task);
    }

    /// Appends claims. Allocates nothing.
    pub fn claim_all(&mut self, tasks: &[Task])
        requires { length tasks.now ≤ self.old.spare_tasks }
        ensures tasks { self.new.tasks ≡ self.old.tasks ++ tasks.now }
        ensures dones { self.new.dones ≡ self.old.dones }
        ensures claims { self.new.spare_tasks + length tasks.now ≡ self.old.spare_tasks }
        ensures results { self.new.spare_dones ≡ self.old.spare_dones }
    {
        if tasks.len() == 1 {
            self.claim(&tasks[0]);
            return;
        }
        self.claim_each(tasks);
    }

    /// Does the same as `claim_all`, one by one. Not inlined, since mostly there is one claim.
    #[inline(never)]
    fn claim_each(&mut self, tasks: &[Task])
        requires { length tasks.now ≤ self.old.spare_tasks }
        ensures tasks { self.new.tasks ≡ self.old.tasks ++ tasks.now }
        ensures dones { self.new.dones ≡ self.old.dones }
        ensures claims { self.new.spare_tasks + length tasks.now ≡ self.old.spare_tasks }
        ensures results { self.new.spare_dones ≡ self.old.spare_dones }
    {
        for task in tasks {
            self.claim(task);
        }
    }

    /// Appends a result. Allocates nothing.
    fn post(&mut self, done: &Done)
        requires { 0 < self.old.spare_dones }
        ensures tasks { self.new.tasks ≡ self.old.tasks }
        ensures dones { self.new.dones ≡ self.old.dones ++ done.now ∷ [] }
        ensures claims { self.new.spare_tasks ≡ self.old.spare_tasks }
        ensures results { self.new.spare_dones + 1 ≡ self.old.spare_dones }
    {
        let source = source_of(&mut self.claims, &mut self.others, &done.task);
        self.sources.push(source);
        self.fired.push(&done.fired.outputs, done.fired.state);
        self.spare -= 1;
    }

    /// Appends results. Allocates nothing.
    pub fn post_all(&mut self, dones: &[Done])
        requires { length dones.now ≤ self.old.spare_dones }
        ensures tasks { self.new.tasks ≡ self.old.tasks }
        ensures dones { self.new.dones ≡ self.old.dones ++ dones.now }
        ensures claims { self.new.spare_tasks ≡ self.old.spare_tasks }
        ensures results { self.new.spare_dones + length dones.now ≡ self.old.spare_dones }
    {
        for done in dones {
            self.post(done);
        }
    }

    /// The number of claims.
    pub fn claims(&self) -> usize
        ensures { result ≡ length self.now.tasks }
    {
        self.claims.len()
    }

    /// Claim `number`, counted from 0.
    pub fn task(&self, number: usize) -> Task
        requires { number < length self.now.tasks }
        ensures { slice_get self.now.tasks number ≡ Some result }
    {
        self.claims.get(number)
    }

    /// Claim `number`, counted from 0, without its inputs and its state.
    pub fn mark(&self, number: usize) -> Mark
        requires { number < length self.now.tasks }
        ensures { option_map mark_of (slice_get self.now.tasks number) ≡ Some result }
    {
        self.claims.mark(number)
    }

    /// The number of results.
    pub fn results(&self) -> usize
        ensures { result ≡ length self.now.dones }
    {
        self.sources.len()
    }

    /// The task of result `number`, counted from 0, without its inputs and its state.
    pub fn done_mark(&self, number: usize) -> Mark
        requires { number < length self.now.dones }
        ensures { option_map (λ done. mark_of done.task) (slice_get self.now.dones number)
            ≡ Some result }
    {
        mark_at(
            &self.claims,
            self.others.as_slice(),
            self.sources.get(number),
        )
    }

    /// Result `number`, counted from 0.
    pub fn done(&self, number: usize) -> Done
        requires { number < length self.now.dones }
        ensures { slice_get self.now.dones number ≡ Some result }
    {
        let task = task_at(
            &self.claims,
            self.others.as_slice(),
            self.sources.get(number),
        );
        done_of(task, &self.fired.get(number))
    }
}

/// The result of a task with these outputs and this state.
fn done_of(task: Task, cells: &[Option<i64>; 9]) -> Done
    ensures { result ≡ done_of task cells.now }
{
    let (outputs, state) = parts_of(cells);
    Done {
        task,
        fired: Fired { state, outputs },
    }
}

/// Stores the task of a result: as the claim of its number if it is that, or else whole. Allocates nothing.
fn source_of(claims: &mut Claims, others: &mut Vec<Task>, task: &Task) -> Source
    requires room { vec_len others.old < vec_capacity others.old }
    requires fits { length others.old.items + 1 < 2 ^ 32 }
    ensures claims { claims.new ≡ claims.old }
    ensures stored { IsStored claims.old.tasks others.old.items others.new.items task.now result }
    ensures room { vec_capacity others.old ≤ vec_capacity others.new }
{
    if let Some(number) = claim_of(claims, task) {
        return Source::Claim(number);
    }
    let number = others.len() as u32;
    others.push_reserved(*task);
    Source::Other(number)
}

/// The number of the claim that is this task; `None` if the claim of its number is another, or if there is none.
fn claim_of(claims: &mut Claims, task: &Task) -> Option<u32>
    ensures is { IfSome result (λ number. slice_get claims.old.tasks number ≡ Some task.now) }
    ensures unchanged { claims.new ≡ claims.old }
{
    if task.number >= claims.len() as u64 || task.number > u32::MAX as u64 {
        return None;
    }
    let number = task.number as usize;
    if claims.is(number, task) {
        Some(number as u32)
    } else {
        None
    }
}

/// The task of a result.
fn task_at(claims: &Claims, others: &[Task], source: Source) -> Task
    requires { SourcesAreWithin (length claims.now.tasks) (length others.now) (source ∷ []) }
    ensures { result ≡ task_at claims.now.tasks others.now source }
{
    match source {
        Source::Claim(number) => claims.get(number as usize),
        Source::Other(number) => others[number as usize],
    }
}

/// The task of a result, without its inputs and its state.
fn mark_at(claims: &Claims, others: &[Task], source: Source) -> Mark
    requires { SourcesAreWithin (length claims.now.tasks) (length others.now) (source ∷ []) }
    ensures { result ≡ mark_of (task_at claims.now.tasks others.now source) }
{
    match source {
        Source::Claim(number) => claims.mark(number as usize),
        Source::Other(number) => mark_of(&others[number as usize]),
    }
}
