// Expressions whose names are texts.
use crate::naming::bind_tree;
use crate::tree::{Tree, count_parts};
use crate::{Expr, NameFault, Options};
use std::alloc::Global;
use std::marker::Model;

/// A Boolean expression over names, of at most `MOST_PARTS` parts.
#[derive(Debug, Drop)]
pub struct RawExpr {
    tree: Tree,
}

impl Model for RawExpr {
    ghost use Rattle.std.specs.Prelude.{ℕ, List, ◌≤◌};
    ghost use Rattle.std.specs.Coded.{coded_ℕ, coded_list};
    ghost use Rattle.cov_base.specs.declared.limits.TheConstants.{MOST_PARTS};
    ghost use Rattle.cov_expr.specs.Formula.{Formula, formula_code, part_count};

    ghost Value = { Formula (List ℕ) };

    ghost coded = { formula_code (coded_list coded_ℕ) };

    ghost view = { λ e. e.tree };

    ghost invariant = { λ e. part_count e.tree ≤ MOST_PARTS };
}

impl RawExpr {
    ghost use Rattle.std.specs.Prelude.{◌≡◌, ◌≤◌, length, IfOk};
    ghost use Rattle.cov_base.specs.Answers.{IsOrMemory};
    ghost use Rattle.cov_base.specs.declared.limits.TheConstants.{MOST_PARTS};
    ghost use Rattle.cov_expr.specs.Formula.{part_count, reach};
    ghost use Rattle.cov_expr.specs.Naming.{bound_expression, is_memory};

    pub(crate) fn new(tree: Tree) -> RawExpr
        requires { part_count tree ≤ MOST_PARTS }
        ensures { result ≡ tree }
    {
        RawExpr { tree }
    }

    /// How many parts it consists of, itself included.
    pub fn parts(&self) -> u32
        ensures parts { result ≡ part_count self.now }
        ensures most { result ≤ MOST_PARTS }
    {
        count_parts(&self.tree.part)
    }

    /// The expression with options in place of their names; `UnknownOption` has the first name, from the left, that no
    /// option has.
    pub fn bind(&self, alloc: Global, options: &Options) -> Result<Expr, NameFault>
        ensures answer { IsOrMemory is_memory (bound_expression options.now.names self.now) result }
        ensures within { IfOk result (λ expr. reach expr ≤ length options.now.names) }
    {
        match bind_tree(alloc, &self.tree, options) {
            Ok(part) => Ok(Expr::from_part(part)),
            Err(fault) => Err(fault),
        }
    }
}
