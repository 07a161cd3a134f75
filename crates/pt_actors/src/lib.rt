//! What actors do: how each kind fires, and the tasks with their results.
//!
//! The result of a firing is `fired` in `specs/Firing.antt` of pt_semantics; the value of a block or a guard is
//! `law_value` in its `specs/Laws.antt`. Values are 64-bit numbers, and arithmetic on them saturates.
//!
//! Read first: `fire`.
#![tactic(auto)]

mod arithmetic;
mod done;
mod firing;
mod lanes;
mod law;
mod machine;
mod stored;
mod tasks;

pub use done::Done;
pub use firing::{fire, fire_into, fire_kind, fire_onto};
pub use law::law_value;
pub use pt_types::{Fired, Ports as Inputs, Task};
pub use tasks::Tasks;
