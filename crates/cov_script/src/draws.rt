// The pseudo random numbers of the generated script.
ghost use Rattle.std.specs.Prelude.{◌≡◌, ◌<◌, ◌%◌};
ghost use Rattle.cov_script.specs.Draws.{next_state, drawn};

use std::marker::Model;

const MULTIPLIER: u64 = 6364136223846793005;

const INCREMENT: u64 = 1442695040888963407;

/// A linear congruential generator: a state of 64 bits, of which each step gives the upper 31 as a number.
#[derive(Drop)]
pub(crate) struct Draws {
    state: u64,
}

impl Model for Draws {
    ghost use Rattle.std.specs.Prelude.{ℕ};

    ghost Value = { ℕ };

    ghost view = { λ d. d.state };

    ghost inverse = { λ n. record { state = n } };
}

impl Draws {
    pub(crate) fn new(seed: u64) -> Draws
        ensures { result ≡ seed }
    {
        Draws { state: seed }
    }

    /// What a bound leaves of the next number.
    pub(crate) fn below(&mut self, bound: u32) -> u32
        requires { 0 < bound }
        ensures next { self.new ≡ next_state self.old }
        ensures drawn { result ≡ drawn self.new % bound }
        ensures bounded { result < bound }
    {
        self.state = self.state.wrapping_mul(MULTIPLIER).wrapping_add(INCREMENT);
        (self.state >> 33) as u32 % bound
    }
}
