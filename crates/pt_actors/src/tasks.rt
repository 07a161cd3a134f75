//! A list of tasks with reserved room.

ghost use Rattle.std.specs.Prelude.{◌≡◌, ◌+◌, ◌<◌, ◌≤◌, [], ◌∷◌, ◌++◌, ◌==◌, length, slice_get, IsOk, OnOk, OnErr, option_map};
ghost use Rattle.pt_actors.specs.Room.{Roomy};

use pt_tags::Memory;
use pt_types::Task;
use std::alloc::Global;
use std::marker::Model;
use std::mem;

/// A list of tasks, with reserved room for more. Contracts see `tasks` and `spare`, the number of tasks that still fit.
#[derive(Drop)]
pub struct Tasks {
    items: Vec<Task>,
    room: usize,
}

impl Model for Tasks {
    ghost use Rattle.std.specs.Prelude.{◌+◌, ◌≤◌, vec_len, vec_capacity};
    ghost use Rattle.pt_actors.specs.Room.{Roomy};

    ghost Value = { Roomy };

    ghost view = { λ t. record { tasks = t.items.items; spare = t.room } };

    ghost invariant = { λ t. vec_len t.items + t.room ≤ vec_capacity t.items };
}

impl Tasks {
    /// An empty list without room.
    pub fn new(alloc: Global) -> Tasks
        ensures tasks { result.tasks ≡ [] }
        ensures spare { result.spare ≡ 0 }
    {
        Tasks {
            items: Vec::new(alloc),
            room: 0,
        }
    }

    /// Reserves room for at least `n` more tasks. If memory runs out, nothing is changed.
    pub fn reserve(&mut self, n: usize) -> Result<(), Memory>
        ensures tasks { self.new.tasks ≡ self.old.tasks }
        ensures spare { OnOk result (n ≤ self.new.spare) }
        ensures kept { self.old.spare ≤ self.new.spare }
        ensures unchanged { OnErr result (self.new ≡ self.old) }
        ensures there { n ≤ self.old.spare → IsOk result × (self.new ≡ self.old) }
    {
        if self.room >= n {
            return Ok(());
        }
        self.items.reserve(n)?;
        self.room = n;
        Ok(())
    }

    /// Removes all tasks and reserves room for at least `n`. If memory runs out, they are removed too.
    #[inline(always)]
    pub fn renew(&mut self, n: usize) -> Result<(), Memory>
        ensures tasks { self.new.tasks ≡ [] }
        ensures spare { OnOk result (n ≤ self.new.spare) }
    {
        self.items.clear();
        if self.items.capacity() < n {
            self.items.reserve(n)?;
        }
        self.room = n;
        Ok(())
    }

    /// Appends a task, which uses one place of the room. It takes no memory.
    pub fn push(&mut self, task: Task)
        requires { 0 < self.old.spare }
        ensures tasks { self.new.tasks ≡ self.old.tasks ++ task ∷ [] }
        ensures spare { self.new.spare + 1 ≡ self.old.spare }
    {
        match self.items.push(task) {
            Ok(()) => self.room -= 1,
            Err(_) => unreachable!(),
        }
    }

    /// Appends tasks, each of which uses one place of the room. It takes no memory.
    pub fn extend(&mut self, more: &[Task])
        requires { length more.now ≤ self.old.spare }
        ensures tasks { self.new.tasks ≡ self.old.tasks ++ more.now }
        ensures spare { self.new.spare + length more.now ≡ self.old.spare }
    {
        match self.items.extend_from_slice(more) {
            Ok(()) => self.room -= more.len(),
            Err(_) => unreachable!(),
        }
    }

    /// Moves the tasks of a list behind these, which uses the room, and leaves the list empty. It takes no memory. No task is
    /// copied if there was none before: the two exchange their memory.
    #[inline(always)]
    pub fn append(&mut self, more: &mut Vec<Task>)
        requires { length more.old.items ≤ self.old.spare }
        ensures tasks { self.new.tasks ≡ self.old.tasks ++ more.old.items }
        ensures empty { more.new.items ≡ [] }
    {
        if self.items.is_empty() {
            mem::swap(&mut self.items, more);
            self.room = 0;
            return;
        }
        self.extend(more.as_slice());
        more.clear();
    }

    /// The number of tasks.
    pub fn len(&self) -> usize
        ensures { result ≡ length self.now.tasks }
    {
        self.items.len()
    }

    /// Whether there are no tasks.
    pub fn is_empty(&self) -> bool
        ensures { result ≡ (length self.now.tasks == 0) }
    {
        self.items.is_empty()
    }

    /// The task at an index, from 0; `None` if there is none.
    pub fn get(&self, i: usize) -> Option<&Task>
        ensures { option_map (λ t. t.now) result ≡ slice_get self.now.tasks i }
    {
        self.items.as_slice().get(i)
    }

    /// All tasks.
    pub fn as_slice(&self) -> &[Task]
        ensures { result.now ≡ self.now.tasks }
    {
        self.items.as_slice()
    }

    /// Removes all tasks; their places become room.
    pub fn clear(&mut self)
        ensures tasks { self.new.tasks ≡ [] }
        ensures spare { self.new.spare ≡ self.old.spare + length self.old.tasks }
    {
        self.room += self.items.len();
        self.items.clear();
    }
}
