// What is asked of the sides of edits.
ghost use Rattle.std.specs.Prelude.{◌≡◌};
ghost use Rattle.cov_record.specs.SideRuns.{has_sides, side_before, goes_on};

use cov_edit::Edits;
use cov_expr::Expr;

/// Whether one of the edits has a side other than `True`.
pub(crate) fn has_sides(edits: &Edits) -> bool
    ensures { result ≡ has_sides edits.now }
{
    !edits.runs().is_empty()
}

/// Whether a side is that of the last edit, if there is one.
pub(crate) fn goes_on(edits: &Edits, side: &Expr) -> bool
    ensures { result ≡ goes_on (side_before edits.now) side.now }
{
    if edits.is_empty() {
        return false;
    }
    edits.ends_with(side)
}
