// Where options were declared.
ghost use Rattle.std.specs.Prelude.{◌≡◌, ◌<◌, ◌++◌, [], ◌∷◌, suc, length, nat_lt, IfOk};
ghost use Rattle.cov_base.specs.declared.limits.TheConstants.{CHOICE_WIDTH};
ghost use Rattle.cov_edit.specs.Touched.{AreRising};
ghost use Rattle.cov_visible.specs.Parts.{count_below};

use cov_base::{CHOICE_WIDTH, Memory, Position};
use std::alloc::Global;
use std::marker::Model;

/// The positions at which options were declared, with room for those of all options that there may be.
#[derive(Drop)]
pub(crate) struct OptionPositions {
    positions: Vec<Position>,
}

impl Model for OptionPositions {
    ghost use Rattle.std.specs.Prelude.{◌≤◌, ℕ, List, length, vec_capacity};
    ghost use Rattle.cov_base.specs.declared.limits.TheConstants.{CHOICE_WIDTH};

    ghost Value = { List ℕ };

    ghost view = { λ p. p.positions.items };

    ghost invariant = { λ p. (length p.positions.items ≤ CHOICE_WIDTH)
        × (CHOICE_WIDTH ≤ vec_capacity p.positions) };
}

impl OptionPositions {
    pub(crate) fn new(alloc: Global) -> Result<OptionPositions, Memory>
        ensures { IfOk result (λ positions. positions ≡ []) }
    {
        Ok(OptionPositions {
            positions: Vec::with_capacity(alloc, usize::from(CHOICE_WIDTH))?,
        })
    }

    /// Adds the position of an option. Takes no memory.
    pub(crate) fn push(&mut self, at: Position)
        requires { length self.old < CHOICE_WIDTH }
        ensures { self.new ≡ self.old ++ at ∷ [] }
    {
        self.positions.push_reserved(at);
    }

    /// How many options were declared up to a position. It looks at as many as halvings leave.
    pub(crate) fn count_up_to(&self, base: Position) -> u8
        requires { AreRising self.now }
        ensures { result ≡ count_below (suc base) self.now }
    {
        let count = self.positions.as_slice().partition_point(
            |at: &Position| -> bool
                ensures { result ≡ nat_lt at.now (suc base) }
            { *at <= base },
        );
        count as u8
    }
}
