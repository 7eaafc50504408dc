// Trees that are kept of what nodes show, each with the values of visibilities under which it is right.
ghost use Rattle.std.specs.Prelude.{ℕ, List, map};
ghost use Rattle.cov_tree.specs.declared.dated.DatedEntry.{DatedEntry};
ghost use Rattle.cov_tree.specs.Dated.{newest_entry};
ghost use Rattle.cov_tree.specs.Installing.{AreChanged};
ghost use Rattle.cov_tree.specs.Shown.{AreTrees};

use crate::EntryPlan;
use cov_values::{Sight, Sights};
use cov_view::ShownTree;

/// What the newest nodes show where certain visibilities have certain values.
pub(crate) type KeptTree = Sight<ShownTree>;

/// The trees that are kept.
pub(crate) type Trees = Sights<ShownTree>;

/// Lets the trees go before the changes of a plan are made, unless it has none. It takes no memory.
pub(crate) fn let_go_before(trees: &mut Trees, plan: &EntryPlan)
    ensures { (at : ℕ) (es fs : List DatedEntry) → AreChanged at plan.now es fs →
        AreTrees (map newest_entry es) trees.old → AreTrees (map newest_entry fs) trees.new }
{
    if !plan.as_slice().is_empty() {
        trees.let_go();
    }
}
