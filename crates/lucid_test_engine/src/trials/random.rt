//! Numbers by a linear congruential generator: the same at each run of the tests.
ghost use Rattle.std.specs.Prelude.{◌<◌};

/// The numbers that follow a seed.
#[derive(Clone, Copy)]
pub struct Random {
    pub state: u64,
}

impl Random {
    /// The next number, below the bound; 0 where that is 0.
    pub fn below(&mut self, bound: u32) -> u32
        ensures { 0 < bound → result < bound }
    {
        self.state = self
            .state
            .wrapping_mul(6_364_136_223_846_793_005)
            .wrapping_add(1_442_695_040_888_963_407);
        let high = (self.state >> 32) as u32;
        if bound == 0 { 0 } else { high % bound }
    }
}
