//! Numbers that look random, the same from the same seed.

#[derive(Drop)]
pub struct Random {
    state: u64,
}

impl Random {
    pub fn new(seed: u64) -> Random {
        Random { state: seed }
    }

    /// A number below `end`, and 0 where that is 0.
    pub fn below(&mut self, end: u64) -> u64 {
        self.state = self
            .state
            .wrapping_mul(6364136223846793005)
            .wrapping_add(1442695040888963407);
        let number = self.state >> 33;
        if end == 0 { 0 } else { number % end }
    }
}
