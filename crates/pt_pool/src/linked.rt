//! A platform with its clock and the ends of its links.

ghost use Rattle.std.specs.Prelude.{◌≡◌, ◌<◌, ◌≤◌, [], None, Some, length, false, true};
ghost use Rattle.pt_turn.specs.Posts.Posted.{AreDone};
ghost use Rattle.pt_pool.specs.LinkedPlatform.{IsOfRun, plan_graph};
ghost use Rattle.pt_pool.specs.Answers.{AnswersVisit, LinkedRefused, answer_of};

use crate::facts::show_running;
use crate::run::Run;
use crate::visiting::visit_platform;
use pt_actors::{Done, Tasks};
use pt_io::Clock;
use pt_links::{Inlet, Outlet};
use pt_turn::{Platform, TurnFault};
use std::alloc::Global;
use std::marker::{Model, PhantomData};
use std::sync::Wait;
use thiserror::Error;

/// Why a visit gave up.
#[derive(Clone, Copy, Debug, PartialEq, Eq, Error)]
pub enum VisitFault {
    /// The turn of the visit ended with this fault.
    #[error(transparent)]
    Turn(TurnFault),
    #[error("memory")]
    Memory,
}

/// The parts of a linked platform.
#[derive(Drop)]
pub struct Parts<C: Clock> {
    pub platform: Platform,
    pub clock: C,
    pub outlets: Vec<(u32, Outlet)>,
    pub inlets: Vec<(u32, Inlet)>,
}

/// A platform of a run, with its clock and the ends of its links.
#[derive(Drop)]
pub struct LinkedPlatform<J: Run, C: Clock> {
    platform: Platform,
    clock: C,
    outlets: Vec<(u32, Outlet)>,
    inlets: Vec<(u32, Inlet)>,
    /// Whether a visit gave up for want of memory.
    marked: bool,
    of: PhantomData<J>,
}

impl<J: Run, C: Clock> Model for LinkedPlatform<J, C> {
    ghost use Rattle.pt_pool.specs.LinkedPlatform.{IsOfRun, LinkedPlatformView};

    ghost Value = { LinkedPlatformView };

    ghost view = { λ s. record {
      platform = s.platform;
      readings = C.readings s.clock;
      outs = s.outlets.items;
      ins = s.inlets.items;
      marked = s.marked;
    } };

    ghost invariant = { λ s. IsOfRun J.plan J.rows J.link (J.began s.platform.number)
        (J.fixed s.platform.number) (C.ahead s.clock)
        (C.readings s.clock) s.platform s.outlets.items s.inlets.items s.marked };
}

/// The result of a visit, from the fault of its turn.
fn answer(fault: Option<TurnFault>) -> Result<(), VisitFault>
    ensures { result ≡ answer_of fault }
{
    match fault {
        None => Ok(()),
        Some(fault) => Err(VisitFault::Turn(fault)),
    }
}

impl<J: Run, C: Clock> LinkedPlatform<J, C> {
    /// A linked platform of these parts. No memory is taken.
    pub fn new(
        platform: Platform,
        clock: C,
        outlets: Vec<(u32, Outlet)>,
        inlets: Vec<(u32, Inlet)>,
    ) -> LinkedPlatform<J, C>
        requires kept { IsOfRun J.plan J.rows J.link (J.began platform.number)
            (J.fixed platform.number) (C.ahead clock)
            (C.readings clock) platform outlets.items inlets.items false }
        ensures { result ≡ record {
          platform = platform;
          readings = C.readings clock;
          outs = outlets.items;
          ins = inlets.items;
          marked = false;
        } }
    {
        LinkedPlatform {
            platform,
            clock,
            outlets,
            inlets,
            marked: false,
            of: PhantomData,
        }
    }

    /// Its platform, which belongs to the run's plan.
    pub fn platform(&self) -> &Platform
        ensures platform { result.now ≡ self.now.platform }
        ensures below { result.now.number < length (plan_graph J.plan).platforms }
        ensures plan { J.plan ≡ Some result.now.plan }
    {
        &self.platform
    }

    /// Whether a visit gave up for want of memory.
    pub fn marked(&self) -> bool
        ensures { result ≡ self.now.marked }
    {
        self.marked
    }

    /// Whether the readings of its clock rise by themselves, so that a worker with nothing to do may let time pass.
    pub fn rises_by_itself(&self) -> bool {
        self.clock.rises_by_itself()
    }

    /// Its parts, and that they belong to the run.
    pub fn into_parts(self) -> Parts<C>
        ensures kept { IsOfRun J.plan J.rows J.link (J.began result.platform.number)
            (J.fixed result.platform.number) (C.ahead result.clock)
            (C.readings result.clock) result.platform result.outlets.items result.inlets.items
            self.marked }
        ensures same { self ≡ record {
          platform = result.platform;
          readings = C.readings result.clock;
          outs = result.outlets.items;
          ins = result.inlets.items;
          marked = self.marked;
        } }
    {
        let LinkedPlatform {
            platform,
            clock,
            outlets,
            inlets,
            marked: _,
            of: _,
        } = self;
        Parts {
            platform,
            clock,
            outlets,
            inlets,
        }
    }

    /// One visit: reads the clock, takes at most 64 messages from each incoming link, makes one turn, and sends what is pending
    /// on each outgoing link until its outbox is empty, the link is full, or 64 messages were sent. If memory runs out, no
    /// message is taken, no turn is made, and the linked platform is marked.
    ///
    /// Of 70 messages that came on a link, a visit takes 64 and the next visit 6.
    pub fn visit<R: Wait>(
        &mut self,
        rt: &R,
        alloc: Global,
        done: &[Done],
        most: usize,
        tasks: &mut Tasks,
    ) -> Result<(), VisitFault>
        requires no_fault { self.old.platform.fault ≡ None }
        requires most { (1 ≤ most) × (most ≤ 64) }
        requires done { AreDone self.old.platform.plan.graph done.now }
        ensures number { self.new.platform.number ≡ self.old.platform.number }
        ensures answer { AnswersVisit result most done.now self.old self.new tasks.old.tasks
            tasks.new.tasks }
    {
        let marked = self.marked;
        show_running(&self.platform);
        let reading = self.clock.read();
        self.marked = true;
        let Ok(()) = visit_platform(
            rt,
            alloc,
            &mut self.platform,
            self.outlets.as_mut_slice(),
            self.inlets.as_mut_slice(),
            reading,
            done,
            most,
            tasks,
        ) else {
            return Err(VisitFault::Memory);
        };
        self.marked = marked;
        answer(self.platform.fault())
    }

    /// Gives up a visit before anything was done, for want of memory: the clock hands out one reading, and the linked platform is marked.
    pub fn give_up(&mut self)
        ensures { LinkedRefused self.old self.new [] [] }
    {
        let _ = self.clock.read();
        self.marked = true;
    }
}
