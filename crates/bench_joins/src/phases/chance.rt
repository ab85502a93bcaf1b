//! Numbers as they come by chance.
ghost use Rattle.std.specs.Prelude.{◌<◌};

/// Numbers of a linear congruence modulo 2 ^ 64; each start gives a sequence of its own.
#[derive(Clone, Copy)]
pub struct Chance {
    state: u64,
}

impl Chance {
    /// The sequence of a start.
    pub fn new(start: u64) -> Chance {
        let mut chance = Chance { state: start };
        chance.step();
        chance.step();
        chance
    }

    /// Goes on by one number.
    fn step(&mut self) {
        self.state = self
            .state
            .wrapping_mul(6_364_136_223_846_793_005)
            .wrapping_add(1_442_695_040_888_963_407);
    }

    /// The next number, below a limit that isn't 0.
    pub fn below(&mut self, limit: u64) -> u64
        requires { 0 < limit }
        ensures { result < limit }
    {
        self.step();
        (self.state >> 33) % limit
    }

    /// A sequence for another thread.
    pub fn fork(&mut self) -> Chance {
        self.step();
        Chance::new(self.state)
    }
}
