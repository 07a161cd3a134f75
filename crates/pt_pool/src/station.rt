//! Stations: a linked platform with a board, through which its tasks go to other threads.
//!
//! A visit collects results from the board, visits the linked platform with them, and places the tasks that it claimed on the board.
//!
//! Read first: `Station`, then `specs/Stations/Stations.antt`.

mod boards;
mod collecting;
mod placing;
mod station;
mod visiting;

pub use boards::Boards;
pub use station::Station;
