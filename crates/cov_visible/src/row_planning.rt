// The plan of the changes of rows that a commit's edits make.
ghost use Rattle.std.specs.Prelude.{◌≡◌, [], ◌∷◌, OnOk};
ghost use Rattle.cov_dd.specs.Diagrams.{Extends};
ghost use Rattle.cov_tree.specs.Carried.{AreNodesWith, AreOnceWith};
ghost use Rattle.cov_tree.specs.Dated.{nodes_with, kinds_with};
ghost use Rattle.cov_visible.specs.RowPlans.{row_changes, AlsoMakes, MakeNewNodes, AreWithin, nodes_after_all, kinds_after_all};

use crate::resolved_edit::ResolvedEdit;
use cov_base::Memory;
use cov_dd::Table;
use cov_tree::{Entries, EntryPlan};

/// Puts the changes of rows that edits make into a plan.
pub fn plan_rows(
    table: &mut Table,
    entries: &Entries,
    plan: &mut EntryPlan,
    edits: &[ResolvedEdit],
) -> Result<(), Memory>
    requires within { AreNodesWith table.old plan.old entries.now }
    requires once { AreOnceWith table.old plan.old entries.now }
    requires new { MakeNewNodes (nodes_with plan.old entries.now) (row_changes edits.now) }
    requires on { AreWithin table.old (row_changes edits.now) }
    ensures extends { Extends table.old table.new }
    ensures makes { OnOk result (AlsoMakes table.old table.new entries.now plan.old plan.new
        (row_changes edits.now)) }
    ensures nodes { OnOk result (nodes_with plan.new entries.now
        ≡ nodes_after_all (row_changes edits.now) (nodes_with plan.old entries.now)) }
    ensures kinds { OnOk result (kinds_with plan.new entries.now
        ≡ kinds_after_all (row_changes edits.now) (kinds_with plan.old entries.now)) }
{
    let mut ahead = edits;
    while let [edit, rest @ ..] = ahead {
        plan_row(table, entries, plan, edit)?;
        ahead = rest;
    }
    Ok(())
}

// Plans what an edit does to the rows.
fn plan_row(
    table: &mut Table,
    entries: &Entries,
    plan: &mut EntryPlan,
    edit: &ResolvedEdit,
) -> Result<(), Memory>
    requires within { AreNodesWith table.old plan.old entries.now }
    requires once { AreOnceWith table.old plan.old entries.now }
    requires new { MakeNewNodes (nodes_with plan.old entries.now) (row_changes (edit.now ∷ [])) }
    requires on { AreWithin table.old (row_changes (edit.now ∷ [])) }
    ensures extends { Extends table.old table.new }
    ensures within { AreNodesWith table.new plan.new entries.now }
    ensures once { AreOnceWith table.new plan.new entries.now }
    ensures makes { OnOk result (AlsoMakes table.old table.new entries.now plan.old plan.new
        (row_changes (edit.now ∷ []))) }
    ensures nodes { OnOk result (nodes_with plan.new entries.now
        ≡ nodes_after_all (row_changes (edit.now ∷ [])) (nodes_with plan.old entries.now)) }
    ensures kinds { OnOk result (kinds_with plan.new entries.now
        ≡ kinds_after_all (row_changes (edit.now ∷ [])) (kinds_with plan.old entries.now)) }
{
    match edit {
        ResolvedEdit::New {
            node,
            kind,
            parent,
            name,
            on,
        } => plan.created(entries, table, *node, *kind, *parent, name, *on),
        ResolvedEdit::Rename { node, name, on } => plan.renamed(entries, table, *node, name, *on),
        ResolvedEdit::Move { node, parent, on } => plan.moved(entries, table, *node, *parent, *on),
        ResolvedEdit::Remove { node, on } => plan.removed(entries, table, *node, *on),
        ResolvedEdit::Insert { .. } | ResolvedEdit::Delete { .. } => Ok(()),
    }
}
