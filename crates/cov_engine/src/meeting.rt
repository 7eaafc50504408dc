// The first valid choice on which an expression is true.
ghost use Rattle.std.specs.Prelude.{◌≡◌, ◌≤◌, ◌<◌, ◌&&◌, IfOk};
ghost use Rattle.std.specs.List.{find};
ghost use Rattle.cov_base.specs.Choices.{all_choices};
ghost use Rattle.cov_base.specs.declared.limits.TheConstants.{CHOICE_WIDTH};
ghost use Rattle.cov_dd.specs.Diagrams.{diagram_size, span, value_in, Extends};
ghost use Rattle.cov_expr.specs.Formula.{reach, value};

use cov_base::{Choice, Memory, Steps, Uncounted};
use cov_dd::{Node, Table};
use cov_expr::Expr;
use cov_vis::compile;

/// The first of the choices of `count` options on which a node and an expression are true.
pub(crate) fn first_meeting(
    table: &mut Table,
    valid: Node,
    expr: &Expr,
    count: u8,
) -> Result<Option<Choice>, Memory>
    requires within { valid < diagram_size table.old }
    requires most { count ≤ CHOICE_WIDTH }
    requires valid_options { span table.old valid ≤ count }
    requires declared { reach expr.now ≤ count }
    ensures extends { Extends table.old table.new }
    ensures first { IfOk result (λ found. found ≡
        find (λ c. value_in table.old valid c && value expr.now c) (all_choices count)) }
{
    let node = compile(table, expr)?;
    let both = table.and(valid, node, &mut Steps::<Uncounted>::new())?;
    Ok(table.least(both, count))
}
