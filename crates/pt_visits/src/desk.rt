//! The buffers of a visit.

use pt_actors::Tasks;
use pt_types::OnLink;
use std::alloc::Global;

/// The messages and the tasks of the current visit. All visits of an engine reuse its memory.
#[derive(Drop)]
pub struct Desk {
    pub taken: Vec<OnLink>,
    pub tasks: Tasks,
}

impl Desk {
    /// An empty desk. Allocates nothing.
    pub fn new(alloc: Global) -> Desk {
        Desk {
            taken: Vec::new(alloc),
            tasks: Tasks::new(alloc),
        }
    }
}
