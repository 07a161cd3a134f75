//! What is recorded of a network: the lags of clocks, and how long messages take.

use pt_tags::{List, Message, TrueTime};

/// The recorded lags of clocks and transit times of messages, in microseconds.
#[derive(Drop)]
pub struct Air {
    /// How far the clock of each platform lags behind true time, by the number of the platform; 0 if no row states it.
    pub lags: List<u64>,
    /// The transits of the messages of each link, by the number of the link, in file order.
    pub transits: List<List<u64>>,
    /// The first row that breaks a stated bound, from 1.
    pub breach: Option<u32>,
}

/// A message on its way.
#[derive(Clone, Copy, Debug, PartialEq, Eq)]
pub struct InAir {
    /// The true time at which it arrives, in microseconds.
    pub arrives: TrueTime,
    pub message: Message,
}
