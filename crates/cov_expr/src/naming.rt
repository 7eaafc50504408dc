// Expressions over names as expressions over options.
ghost use Rattle.std.specs.Prelude.{◌≡◌, ◌≤◌, max, length, None, IfOk, IfErr, OnOk};
ghost use Rattle.cov_expr.specs.Formula.{And, reach};
ghost use Rattle.cov_expr.specs.Naming.{first_unknown, with_numbers, IsUnknownName};
ghost use Rattle.cov_expr.specs.Parts.{formula, raw_formula};

use crate::tree::{RawPart, Tree};
use crate::{Options, Part};
use cov_base::{Memory, Text};
use std::alloc::Global;

/// Why the names of an expression aren't bound.
#[derive(Debug, Drop)]
pub enum NameFault {
    /// The first name that is no option's.
    UnknownOption { name: Text },
    Memory,
}

impl From<Memory> for NameFault {
    ghost use Rattle.cov_expr.specs.declared.naming.NameFault.TheVariants.{Memory as wanting};

    ghost from_gives = { λ _ fault. fault ≡ wanting };

    fn from(_: Memory) -> Self {
        NameFault::Memory
    }
}

/// The tree with options in place of their names.
pub(crate) fn bind_tree(alloc: Global, tree: &Tree, options: &Options) -> Result<Part, NameFault>
    ensures known { OnOk result (first_unknown options.now.names tree.now ≡ None) }
    ensures part { IfOk result (λ bound. formula bound ≡ with_numbers options.now.names tree.now) }
    ensures within { IfOk result (λ bound. reach (formula bound) ≤ length options.now.names) }
    ensures unknown { IfErr result (IsUnknownName (first_unknown options.now.names tree.now)) }
{
    bind_part(alloc, &tree.part, options)
}

#[cycle(binding)]
fn bind_part(alloc: Global, part: &RawPart, options: &Options) -> Result<Part, NameFault>
    ensures known { OnOk result (first_unknown options.now.names (raw_formula part.now) ≡ None) }
    ensures part { IfOk result (λ bound.
        formula bound ≡ with_numbers options.now.names (raw_formula part.now)) }
    ensures within { IfOk result (λ bound. reach (formula bound) ≤ length options.now.names) }
    ensures unknown { IfErr result (IsUnknownName
        (first_unknown options.now.names (raw_formula part.now))) }
{
    match part {
        RawPart::False => Ok(Part::False),
        RawPart::True => Ok(Part::True),
        RawPart::Named(name) => match options.find(name.as_slice()) {
            Some(option) => Ok(Part::Option(option)),
            None => Err(NameFault::UnknownOption { name: name.copy()? }),
        },
        RawPart::Not(inner) => {
            let inner = bind_part(alloc, inner, options)?;
            Ok(Part::not(alloc, inner)?)
        }
        RawPart::And(left, right) => {
            let (left, right) = bind_both(alloc, left, right, options)?;
            Ok(Part::and(alloc, left, right)?)
        }
        RawPart::Or(left, right) => {
            let (left, right) = bind_both(alloc, left, right, options)?;
            Ok(Part::or(alloc, left, right)?)
        }
    }
}

// The operands with options in place of their names, the left one first.
#[cycle(binding)]
#[tactic(auto, using(crate::proofs::PartCounts::part_count_positive))]
fn bind_both(
    alloc: Global,
    left: &RawPart,
    right: &RawPart,
    options: &Options,
) -> Result<(Part, Part), NameFault>
    ensures known { OnOk result (first_unknown options.now.names
        (And (raw_formula left.now) (raw_formula right.now)) ≡ None) }
    ensures left { IfOk result (λ bound.
        formula bound.0 ≡ with_numbers options.now.names (raw_formula left.now)) }
    ensures right { IfOk result (λ bound.
        formula bound.1 ≡ with_numbers options.now.names (raw_formula right.now)) }
    ensures within { IfOk result (λ bound.
        max (reach (formula bound.0)) (reach (formula bound.1)) ≤ length options.now.names) }
    ensures unknown { IfErr result (IsUnknownName
        (first_unknown options.now.names (And (raw_formula left.now) (raw_formula right.now)))) }
{
    let left = bind_part(alloc, left, options)?;
    let right = bind_part(alloc, right, options)?;
    Ok((left, right))
}
