// The parts that an expression consists of.
ghost use Rattle.std.specs.Prelude.{◌≡◌, ◌+◌, ◌<◌, ◌≤◌, MatchOption, IfOk, length};
ghost use Rattle.cov_expr.specs.Formula.{Not, And, Or, part_count, reach, value};
ghost use Rattle.cov_expr.specs.Parts.{formula};
ghost use Rattle.cov_expr.specs.SameParts.{is_same_formula};

use cov_base::{Choice, Memory, OptionId};
use std::alloc::Global;

/// A Boolean expression over options, with no bound on its size.
#[derive(Debug, Drop)]
pub enum Part {
    False,
    True,
    Option(OptionId),
    Not(Box<Part>),
    And(Box<Part>, Box<Part>),
    Or(Box<Part>, Box<Part>),
}

impl Part {
    /// The part that is true where the operand is false.
    pub(crate) fn not(alloc: Global, operand: Part) -> Result<Part, Memory>
        ensures { IfOk result (λ part. formula part ≡ Not (formula operand)) }
    {
        Ok(Part::Not(Box::new(alloc, operand)?))
    }

    /// The part that is true where both operands are.
    pub(crate) fn and(alloc: Global, left: Part, right: Part) -> Result<Part, Memory>
        ensures { IfOk result (λ part. formula part ≡ And (formula left) (formula right)) }
    {
        Ok(Part::And(Box::new(alloc, left)?, Box::new(alloc, right)?))
    }

    /// The part that is true where one operand is, or both.
    pub(crate) fn or(alloc: Global, left: Part, right: Part) -> Result<Part, Memory>
        ensures { IfOk result (λ part. formula part ≡ Or (formula left) (formula right)) }
    {
        Ok(Part::Or(Box::new(alloc, left)?, Box::new(alloc, right)?))
    }
}

/// What is left of `room` for parts after those of `part`; None exactly where they don't fit into it.
/// The depth of recursion is at most `room`.
#[tactic(auto, using(crate::proofs::PartCounts::part_count_positive))]
pub(crate) fn room_after(part: &Part, room: u32) -> Option<u32>
    ensures { MatchOption result (room < part_count (formula part.now))
        (λ rest. rest + part_count (formula part.now) ≡ room) }
{
    if room == 0 {
        return None;
    }
    match part {
        Part::False | Part::True | Part::Option(_) => Some(room - 1),
        Part::Not(inner) => room_after(inner, room - 1),
        Part::And(left, right) | Part::Or(left, right) => {
            let rest = room_after(left, room - 1)?;
            room_after(right, rest)
        }
    }
}

/// The same part, in memory of its own.
pub(crate) fn copy_part(alloc: Global, part: &Part) -> Result<Part, Memory>
    ensures { IfOk result (λ copy. formula copy ≡ formula part.now) }
{
    match part {
        Part::False => Ok(Part::False),
        Part::True => Ok(Part::True),
        Part::Option(option) => Ok(Part::Option(*option)),
        Part::Not(inner) => Part::not(alloc, copy_part(alloc, inner)?),
        Part::And(left, right) => {
            let left = copy_part(alloc, left)?;
            Part::and(alloc, left, copy_part(alloc, right)?)
        }
        Part::Or(left, right) => {
            let left = copy_part(alloc, left)?;
            Part::or(alloc, left, copy_part(alloc, right)?)
        }
    }
}

/// The truth value of the part on a choice.
pub(crate) fn value_of(part: &Part, choice: &Choice) -> bool
    requires { reach (formula part.now) ≤ length choice.now }
    ensures { result ≡ value (formula part.now) choice.now }
{
    match part {
        Part::False => false,
        Part::True => true,
        Part::Option(option) => choice.get(*option),
        Part::Not(inner) => !value_of(inner, choice),
        Part::And(left, right) => value_of(left, choice) && value_of(right, choice),
        Part::Or(left, right) => value_of(left, choice) || value_of(right, choice),
    }
}

/// Whether two parts consist of the same parts. The depth of recursion is at most that of either.
pub(crate) fn are_same_parts(part: &Part, other: &Part) -> bool
    ensures { result ≡ is_same_formula (formula part.now) (formula other.now) }
{
    match part {
        Part::False => matches!(other, Part::False),
        Part::True => matches!(other, Part::True),
        Part::Option(option) => match other {
            Part::Option(number) => *option == *number,
            _ => false,
        },
        Part::Not(operand) => match other {
            Part::Not(inner) => are_same_parts(operand, inner),
            _ => false,
        },
        Part::And(left, right) => match other {
            Part::And(first, second) => are_same_parts(left, first)
                && are_same_parts(right, second),
            _ => false,
        },
        Part::Or(left, right) => match other {
            Part::Or(first, second) => are_same_parts(left, first) && are_same_parts(right, second),
            _ => false,
        },
    }
}
