//! Numbers of a generator, that a run can be repeated by.
ghost use Rattle.std.specs.Prelude.{◌<◌};

/// Numbers by a linear congruential generator: x becomes x * 6364136223846793005 + 1442695040888963407
/// modulo 2^64, and a draw is what x divided by 2^33 leaves when it is divided by `k`.
#[derive(Drop)]
pub struct Draws {
    state: u64,
}

impl Draws {
    pub fn new(seed: u64) -> Draws {
        Draws { state: seed }
    }

    /// The next number.
    pub fn below(&mut self, k: u64) -> u64
        requires { 0 < k }
        ensures { result < k }
    {
        self.state = self
            .state
            .wrapping_mul(6_364_136_223_846_793_005)
            .wrapping_add(1_442_695_040_888_963_407);
        (self.state >> 33) % k
    }
}
