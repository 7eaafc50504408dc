// Expressions whose names are texts, while they are read.
ghost use Rattle.std.specs.Prelude.{◌≡◌, ◌≤◌, IfOk, List, ℕ, Option, Some, None};
ghost use Rattle.cov_base.specs.declared.limits.TheConstants.{MOST_PARTS};
ghost use Rattle.cov_expr.specs.Formula.{Formula, Not, And, Or, part_count};
ghost use Rattle.cov_expr.specs.Grammar.{constant_of, word_formula};
ghost use Rattle.cov_expr.specs.Parts.{raw_formula};

use cov_base::{Memory, Text};
use std::alloc::Global;
use std::marker::Model;

/// A Boolean expression over names.
#[derive(Debug, Drop)]
pub(crate) enum RawPart {
    False,
    True,
    Named(Text),
    Not(Box<RawPart>),
    And(Box<RawPart>, Box<RawPart>),
    Or(Box<RawPart>, Box<RawPart>),
}

/// A Boolean expression over names, with no bound on its size.
#[derive(Debug, Drop)]
pub(crate) struct Tree {
    pub(crate) part: RawPart,
}

impl Model for Tree {
    ghost use Rattle.std.specs.Prelude.{ℕ, List};
    ghost use Rattle.std.specs.Coded.{coded_ℕ, coded_list};
    ghost use Rattle.cov_expr.specs.Formula.{Formula, formula_code};

    ghost Value = { Formula (List ℕ) };

    ghost coded = { formula_code (coded_list coded_ℕ) };

    ghost use Rattle.cov_expr.specs.Parts.{raw_formula};

    ghost view = { λ t. raw_formula t.part };
}

impl Tree {
    /// The expression that a word is: a constant or a name.
    pub(crate) fn word(word: Text) -> Tree
        ensures { result ≡ word_formula word }
    {
        let part = match constant(word.as_slice()) {
            Some(true) => RawPart::True,
            Some(false) => RawPart::False,
            None => RawPart::Named(word),
        };
        Tree { part }
    }

    pub(crate) fn not(alloc: Global, operand: Tree) -> Result<Tree, Memory>
        ensures { IfOk result (λ tree. tree ≡ Not operand) }
    {
        let Tree { part } = operand;
        Ok(Tree {
            part: RawPart::Not(Box::new(alloc, part)?),
        })
    }

    pub(crate) fn and(alloc: Global, left: Tree, right: Tree) -> Result<Tree, Memory>
        ensures { IfOk result (λ tree. tree ≡ And left right) }
    {
        let Tree { part: left } = left;
        let Tree { part: right } = right;
        Ok(Tree {
            part: RawPart::And(Box::new(alloc, left)?, Box::new(alloc, right)?),
        })
    }

    pub(crate) fn or(alloc: Global, left: Tree, right: Tree) -> Result<Tree, Memory>
        ensures { IfOk result (λ tree. tree ≡ Or left right) }
    {
        let Tree { part: left } = left;
        let Tree { part: right } = right;
        Ok(Tree {
            part: RawPart::Or(Box::new(alloc, left)?, Box::new(alloc, right)?),
        })
    }
}

/// How many parts the part consists of, itself included.
pub(crate) fn count_parts(part: &RawPart) -> u32
    requires { part_count (raw_formula part.now) ≤ MOST_PARTS }
    ensures { result ≡ part_count (raw_formula part.now) }
{
    match part {
        RawPart::False | RawPart::True | RawPart::Named(_) => 1,
        RawPart::Not(inner) => 1 + count_parts(inner),
        RawPart::And(left, right) | RawPart::Or(left, right) => {
            1 + count_parts(left) + count_parts(right)
        }
    }
}

// The truth value that a word is, None where it is a name.
fn constant(word: &[u8]) -> Option<bool>
    ensures { result ≡ constant_of word.now }
{
    match word {
        b"true" => Some(true),
        b"false" => Some(false),
        _ => None,
    }
}
