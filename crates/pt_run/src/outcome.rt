//! How a call ends.

ghost use Rattle.std.specs.Prelude.{◌≡◌, [], None, Some};
ghost use Rattle.pt_run.specs.Written.{leaves_nothing};
ghost use Rattle.pt_run.specs.Statuses.{status_of};
ghost use Rattle.pt_run.specs.Texts.{left_by, left_by_run};

use crate::fault::{Fault, status_of};
use pt_history::Miss;
use pt_tags::List;
use pt_turn::Platform;
use std::alloc::Global;

/// How a call ended, and what a run left.
#[derive(Drop)]
pub struct Outcome<C> {
    /// 0 if all was written, 5 if in addition something was missed, else the status of the fault.
    pub status: u8,
    pub fault: Option<Fault>,
    /// All misses: platform by platform, turn by turn, results before messages. Empty unless the status is 5.
    pub misses: List<Miss>,
    /// The platforms as the run left them, in the order of the graph; none if no run began or memory ran out.
    pub platforms: Vec<Platform>,
    /// The clocks that were handed in, in their order. If memory ran out, they may be missing.
    pub clocks: Vec<C>,
}

impl<C: Drop> Outcome<C> {
    /// Lets go of all that is left. A program that does so by this call doesn't prove once more that it can.
    pub fn discard(self) {
        drop(self);
    }
}

/// Why a run did not finish, and the platforms that it leaves: none if it did not begin, or if memory ran out.
#[derive(Drop)]
pub struct Stopped {
    pub fault: Fault,
    pub platforms: Vec<Platform>,
}

impl Stopped {
    /// A run that leaves no platforms.
    pub(crate) fn with_nothing(alloc: Global, fault: Fault) -> Stopped
        ensures fault { result.fault ≡ fault }
        ensures nothing { result.platforms.items ≡ [] }
    {
        Stopped {
            fault,
            platforms: Vec::new(alloc),
        }
    }
}

/// How a call ended, without the clocks.
#[derive(Drop)]
pub struct Ending {
    pub status: u8,
    pub fault: Option<Fault>,
    pub misses: List<Miss>,
    pub platforms: Vec<Platform>,
}

impl Ending {
    /// A call that ended with a fault before a run began.
    pub(crate) fn refused(alloc: Global, fault: Fault) -> Ending
        ensures status { result.status ≡ status_of result.fault result.misses }
        ensures fault { result.fault ≡ Some fault }
        ensures left { left_by result ≡ leaves_nothing }
    {
        Ending {
            status: status_of(&fault),
            fault: Some(fault),
            misses: List::new(Vec::new(alloc)),
            platforms: Vec::new(alloc),
        }
    }

    /// A call that ended with a fault and left these platforms.
    pub(crate) fn stopped(alloc: Global, fault: Fault, platforms: Vec<Platform>) -> Ending
        ensures status { result.status ≡ status_of result.fault result.misses }
        ensures fault { result.fault ≡ Some fault }
        ensures left { left_by result ≡ left_by_run [] platforms.items }
    {
        Ending {
            status: status_of(&fault),
            fault: Some(fault),
            misses: List::new(Vec::new(alloc)),
            platforms,
        }
    }

    /// A call that wrote everything, with the misses and the platforms of its run.
    pub(crate) fn done(misses: Vec<Miss>, platforms: Vec<Platform>) -> Ending
        ensures status { result.status ≡ status_of result.fault result.misses }
        ensures fault { result.fault ≡ None }
        ensures left { left_by result ≡ left_by_run misses.items platforms.items }
    {
        Ending {
            status: if misses.is_empty() { 0 } else { 5 },
            fault: None,
            misses: List::new(misses),
            platforms,
        }
    }
}
