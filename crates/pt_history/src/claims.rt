//! Claims, stored flat.

ghost use Rattle.std.specs.Prelude.{◌≡◌, ◌+◌, ◌<◌, ◌≤◌, ◌++◌, ◌∷◌, [], OnOk, Some, length, max, option_map, slice_get, true};
ghost use Rattle.pt_history.specs.Tasks.{mark_of, task_of_cells};

use crate::cells::{Cells, parts_of};
use crate::marks::Marks;
use pt_tags::{Memory, Tag};
use pt_types::Task;
use std::alloc::Global;
use std::marker::Model;

/// A claim without its inputs and its state.
#[derive(Clone, Copy, Debug, PartialEq, Eq)]
pub struct Mark {
    pub tag: Tag,
    /// The number of claims that its platform made before it.
    pub number: u64,
    pub actor: u32,
}

/// A compact list of claims, and room reserved for more. Contracts see `tasks` and `spare`.
#[derive(Drop)]
pub(crate) struct Claims {
    marks: Marks,
    /// The inputs and the state of each.
    cells: Cells,
    spare: usize,
}

impl Model for Claims {
    ghost use Rattle.std.specs.Prelude.{◌≡◌, ◌≤◌, length};
    ghost use Rattle.pt_history.specs.Tasks.{RoomyTasks, tasks_of_cells};

    ghost Value = { RoomyTasks };

    ghost view = { λ c. record {
      tasks = tasks_of_cells c.marks.items c.cells.cells;
      spare = c.spare;
    } };

    ghost invariant = { λ c. (length c.marks.items ≡ length c.cells.cells)
        × (c.spare ≤ c.marks.spare) × (c.spare ≤ c.cells.spare) };
}

impl Claims {
    /// No claims and no room.
    pub fn new(alloc: Global) -> Claims
        ensures { result ≡ record { tasks = []; spare = 0 } }
    {
        Claims {
            marks: Marks::new(alloc),
            cells: Cells::new(alloc),
            spare: 0,
        }
    }

    /// Reserves room for at least `claims` more claims. It fails if memory runs out, or if the number of claims could reach 2^32.
    pub fn reserve(&mut self, claims: usize) -> Result<(), Memory>
        ensures tasks { self.new.tasks ≡ self.old.tasks }
        ensures kept { self.old.spare ≤ self.new.spare }
        ensures bound { self.new.spare ≤ max self.old.spare claims }
        ensures room { OnOk result (claims ≤ self.new.spare) }
    {
        self.marks.reserve(claims)?;
        self.cells.reserve(claims)?;
        self.spare = self.spare.max(claims);
        Ok(())
    }

    /// Appends a claim. Allocates nothing.
    #[inline(always)]
    pub fn push(&mut self, task: &Task)
        requires { 0 < self.old.spare }
        ensures tasks { self.new.tasks ≡ self.old.tasks ++ task.now ∷ [] }
        ensures room { self.new.spare + 1 ≡ self.old.spare }
    {
        self.cells.push(&task.inputs, task.state);
        self.marks.add(mark_of(task));
        self.spare -= 1;
    }

    /// The number of claims.
    pub fn len(&self) -> usize
        ensures { result ≡ length self.now.tasks }
    {
        self.marks.len()
    }

    /// Claim `number`, counted from 0.
    pub fn get(&self, number: usize) -> Task
        requires { number < length self.now.tasks }
        ensures { slice_get self.now.tasks number ≡ Some result }
    {
        task_of(self.marks.at(number), &self.cells.get(number))
    }

    /// Whether claim `number` is this task. Nothing is read that isn't compared.
    pub fn is(&mut self, number: usize, task: &Task) -> bool
        requires { number < length self.old.tasks }
        ensures same { result ≡ true → slice_get self.old.tasks number ≡ Some task.now }
        ensures unchanged { self.new ≡ self.old }
    {
        same_mark(self.marks.at(number), mark_of(task))
            && self.cells.is(number, &task.inputs, task.state)
    }

    /// Claim `number`, counted from 0, without its inputs and its state.
    pub fn mark(&self, number: usize) -> Mark
        requires { number < length self.now.tasks }
        ensures { option_map mark_of (slice_get self.now.tasks number) ≡ Some result }
    {
        self.marks.at(number)
    }
}

/// A claim without its inputs and its state.
pub(crate) fn mark_of(task: &Task) -> Mark
    ensures { result ≡ mark_of task.now }
{
    Mark {
        tag: task.tag,
        number: task.number,
        actor: task.actor,
    }
}

/// Whether two marks are equal.
fn same_mark(first: Mark, second: Mark) -> bool
    ensures { result ≡ true → first ≡ second }
{
    first == second
}

/// The claim with these inputs and this state.
fn task_of(mark: Mark, cells: &[Option<i64>; 9]) -> Task
    ensures { result ≡ task_of_cells mark cells.now }
{
    let (inputs, state) = parts_of(cells);
    Task {
        number: mark.number,
        actor: mark.actor,
        tag: mark.tag,
        inputs,
        state,
    }
}
