// Random clauses.
ghost use Rattle.std.specs.Prelude.{◌<◌, ◌≤◌};
ghost use Rattle.cov_base.specs.declared.limits.TheConstants.{CHOICE_WIDTH};

use cov_base::OptionId;

const OPTIONS: u64 = 64;

#[derive(Clone, Copy, Debug)]
pub struct Literal {
    pub option: OptionId,
    pub on: bool,
}

/// A linear congruential generator.
#[derive(Debug, Drop)]
pub struct Random {
    state: u64,
}

impl Random {
    pub fn new() -> Random {
        Random { state: 7 }
    }

    fn below(&mut self, bound: u64) -> u64
        requires { 0 < bound }
        ensures { result < bound }
    {
        self.state = self
            .state
            .wrapping_mul(6364136223846793005)
            .wrapping_add(1442695040888963407);
        (self.state >> 33) % bound
    }

    /// Three options among so many neighbouring ones, at least one of them on: the choice with all options on meets
    /// each clause.
    pub fn clause(&mut self, window: u8) -> [Literal; 3] {
        let window = u64::from(window).clamp(3, OPTIONS);
        let base = self.below(OPTIONS - window + 1);
        let first = self.below(window);
        let second = 1 + self.below(window - 1);
        let mut third = 1 + self.below(window - 2);
        if third >= second {
            third += 1;
        }
        let signs = 1 + self.below(7);
        [
            signed(base + first, signs & 1),
            signed(base + (first + second) % window, signs >> 1 & 1),
            signed(base + (first + third) % window, signs >> 2 & 1),
        ]
    }
}

fn signed(option: u64, sign: u64) -> Literal
    requires { option < CHOICE_WIDTH }
{
    Literal {
        option: OptionId::new(option as u8),
        on: sign == 1,
    }
}
