//! A linear congruential generator. `bench/container_peer.cpp` draws the same numbers.
ghost use Rattle.std.specs.Prelude.{◌≡◌, ◌<◌, ◌==◌, ℕ};
ghost use Rattle.mi_random.specs.Draws.{drawn, number_below};

use std::marker::Model;

/// A linear congruential generator, which is its state.
#[derive(Drop)]
pub struct Random {
    state: u64,
}

impl Model for Random {
    ghost Value = { ℕ };

    ghost view = { λ r. r.state };
}

impl Random {
    /// The generator of a seed, which is any number. Those of the same seed draw the same numbers.
    pub fn new(seed: u64) -> Random
        ensures { result ≡ seed }
    {
        Random { state: seed }
    }

    /// A number below n; zero where n is.
    pub fn below(&mut self, n: u64) -> u64
        ensures below { 0 < n → result < n }
        ensures number { result ≡ number_below n (drawn self.old) }
        ensures state { self.new ≡ drawn self.old }
    {
        self.state = self
            .state
            .wrapping_mul(6_364_136_223_846_793_005)
            .wrapping_add(1_442_695_040_888_963_407);
        (self.state >> 33) % n.max(1)
    }

    /// True once in n times, and always where n is zero.
    pub fn is_one_in(&mut self, n: u64) -> bool
        ensures answer { result ≡ (number_below n (drawn self.old) == 0) }
        ensures state { self.new ≡ drawn self.old }
    {
        self.below(n) == 0
    }
}
