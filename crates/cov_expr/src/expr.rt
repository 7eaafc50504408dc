// Expressions of a bounded size.
ghost use Rattle.std.specs.Prelude.{◌≡◌, ◌<◌, ◌≤◌, true, IfOk, OnErr, length};
ghost use Rattle.cov_base.specs.declared.limits.TheConstants.{MOST_PARTS};
ghost use Rattle.cov_expr.specs.ExpressionText.{text_of};
ghost use Rattle.cov_expr.specs.Formula.{part_count, reach, value};
ghost use Rattle.cov_expr.specs.Options.{option_name};

use crate::Options;
use crate::part::{Part, are_same_parts, copy_part, room_after, value_of};
use crate::part_text::append_part;
use cov_base::{Choice, MOST_PARTS, Memory, Text};
use std::alloc::Global;
use std::marker::Model;

/// A part that consists of more than `MOST_PARTS` parts, itself included.
#[derive(Clone, Copy, Debug, PartialEq, Eq)]
pub struct TooManyParts;

/// A Boolean expression over options, of at most `MOST_PARTS` parts.
#[derive(Debug, Drop)]
pub struct Expr {
    part: Part,
}

impl Model for Expr {
    ghost use Rattle.std.specs.Prelude.{ℕ, ◌≤◌};
    ghost use Rattle.std.specs.Coded.{coded_ℕ};
    ghost use Rattle.cov_base.specs.declared.limits.TheConstants.{MOST_PARTS};
    ghost use Rattle.cov_expr.specs.Formula.{Formula, formula_code, part_count};

    ghost Value = { Formula ℕ };

    ghost coded = { formula_code coded_ℕ };

    ghost use Rattle.cov_expr.specs.Parts.{formula};

    ghost view = { λ e. formula e.part };

    ghost invariant = { λ e. part_count (formula e.part) ≤ MOST_PARTS };
}

impl Expr {
    ghost use Rattle.cov_expr.specs.Parts.{formula};

    /// The expression that the part is. `TooManyParts` comes exactly where it consists of more than `MOST_PARTS` parts.
    pub fn new(part: Part) -> Result<Expr, TooManyParts>
        ensures ok { IfOk result (λ expr. expr ≡ formula part) }
        ensures fits { IfOk result (λ expr. part_count expr ≤ MOST_PARTS) }
        ensures refused { OnErr result (MOST_PARTS < part_count (formula part)) }
    {
        match room_after(&part, MOST_PARTS) {
            Some(_) => Ok(Expr { part }),
            None => Err(TooManyParts),
        }
    }

    pub(crate) fn from_part(part: Part) -> Expr
        requires { part_count (formula part) ≤ MOST_PARTS }
        ensures { result ≡ formula part }
    {
        Expr { part }
    }

    pub fn part(&self) -> &Part
        ensures part { formula result.now ≡ self.now }
        ensures fits { part_count self.now ≤ MOST_PARTS }
    {
        &self.part
    }

    pub fn into_part(self) -> Part
        ensures part { formula result ≡ self }
        ensures fits { part_count self ≤ MOST_PARTS }
    {
        let Expr { part } = self;
        part
    }

    /// The same expression, in memory of its own.
    pub fn copy(&self, alloc: Global) -> Result<Expr, Memory>
        ensures { IfOk result (λ expr. expr ≡ self.now) }
    {
        Ok(Expr {
            part: copy_part(alloc, &self.part)?,
        })
    }

    /// Whether two expressions are the same as they are written: `a | !a` isn't `True`. Takes no memory.
    pub fn is_same(&self, other: &Expr) -> bool
        ensures same { result ≡ true → self.now ≡ other.now }
        ensures alike { self.now ≡ other.now → result ≡ true }
    {
        are_same_parts(&self.part, &other.part)
    }

    /// How many parts it consists of, itself included.
    pub fn parts(&self) -> u32
        ensures parts { result ≡ part_count self.now }
        ensures most { result ≤ MOST_PARTS }
    {
        match room_after(&self.part, MOST_PARTS) {
            Some(rest) => MOST_PARTS - rest,
            None => unreachable!(),
        }
    }

    /// The truth value on a choice that binds each option of the expression. Takes no memory.
    pub fn value(&self, choice: Choice) -> bool
        requires { reach self.now ≤ length choice }
        ensures { result ≡ value self.now choice }
    {
        value_of(&self.part, &choice)
    }

    /// The text with the fewest parentheses, and one space on each side of `&` and `|`.
    pub fn print(&self, alloc: Global, options: &Options) -> Result<Text, Memory>
        requires { reach self.now ≤ length options.now.names }
        ensures { IfOk result (λ text. text ≡ text_of (option_name options.now.names) self.now) }
    {
        let mut text = Text::new(alloc);
        append_part(&mut text, options, &self.part)?;
        Ok(text)
    }
}
