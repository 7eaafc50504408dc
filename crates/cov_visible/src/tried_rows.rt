// The rows that edits are tried on.
ghost use Rattle.std.specs.Prelude.{◌≡◌, ◌<◌, ◌-◌, ◌^◌, map, nat_eq, IfOk, IfErr, OnOk};
ghost use Rattle.std.specs.List.{find};
ghost use Rattle.std.specs.Option.{option_copied};
ghost use Rattle.cov_base.specs.declared.number.NodeRef.TheVariants.{Old};
ghost use Rattle.cov_base.specs.Rows.{AreOnce};
ghost use Rattle.cov_view.specs.Seen.{kind_in, seen_after, seen_fault};
ghost use Rattle.cov_view.specs.Views.{FaultBy};
ghost use Rattle.cov_visible.specs.Showing.{bare_row};

use crate::viewing::view_of_rows;
use cov_base::{Kind, Memory, NodeNo, NodeRef};
use cov_edit::Edit;
use cov_tree::{NodeRow, NodeRows};
use cov_view::{EditFault, View};
use std::alloc::Global;
use std::marker::Model;

/// How many rows are looked through for one of them.
const FEW_ROWS: usize = 8;

/// Rows without lines. Most commits change lines of a few files alone, so that no view is made for them.
#[derive(Drop)]
pub(crate) struct TriedRows {
    rows: FewOrMany,
}

/// A few rows that no edit has changed as they are, and else a view of them.
#[derive(Drop)]
enum FewOrMany {
    Few(NodeRows),
    Many(View),
}

impl Model for TriedRows {
    ghost use Rattle.cov_view.specs.Seen.{Seen};
    ghost use Rattle.cov_visible.specs.TriedRows.{rows_seen, StandApart};

    ghost Value = { Seen };

    ghost view = { λ t. rows_seen t.rows };

    ghost invariant = { λ t. StandApart t.rows };
}

impl TriedRows {
    pub(crate) fn new(alloc: Global, rows: NodeRows) -> Result<TriedRows, Memory>
        requires { AreOnce rows }
        ensures { IfOk result (λ tried. tried ≡ record {
          rows = map bare_row rows;
          nodes_made = 0;
          lines_made = 0;
        }) }
    {
        if rows.len() <= FEW_ROWS {
            let rows = FewOrMany::Few(rows);
            return Ok(TriedRows { rows });
        }
        let rows = FewOrMany::Many(view_of_rows(alloc, rows.as_slice())?);
        Ok(TriedRows { rows })
    }

    /// The kind of a node, None exactly where it isn't there.
    pub(crate) fn kind(&self, node: &NodeRef) -> Option<Kind>
        ensures { result ≡ kind_in self.now.rows node.now }
    {
        match &self.rows {
            FewOrMany::Few(rows) => kind_among(rows.as_slice(), node),
            FewOrMany::Many(view) => view.kind(*node),
        }
    }

    /// Applies an edit, unless the rows refuse it; they then stay as they are. `Memory` may come where nothing refuses it.
    pub(crate) fn apply(&mut self, alloc: Global, edit: &Edit) -> Result<(), EditFault>
        requires nodes { self.old.nodes_made < 2 ^ 32 - 1 }
        requires lines { self.old.lines_made < 2 ^ 32 - 1 }
        ensures accepted { OnOk result (seen_fault self.old.rows edit.now ≡ None) }
        ensures made { OnOk result (self.new ≡ seen_after self.old edit.now) }
        ensures refused { IfErr result (λ f. FaultBy f (seen_fault self.old.rows edit.now)) }
    {
        match &mut self.rows {
            FewOrMany::Many(view) => view.apply(edit),
            FewOrMany::Few(rows) => {
                let mut view = match view_of_rows(alloc, rows.as_slice()) {
                    Ok(view) => view,
                    Err(Memory) => return Err(EditFault::Memory),
                };
                view.apply(edit)?;
                self.rows = FewOrMany::Many(view);
                Ok(())
            }
        }
    }
}

// The kind of a node by rows that are looked through.
fn kind_among(rows: &[NodeRow], node: &NodeRef) -> Option<Kind>
    ensures { result ≡ kind_in (map bare_row rows.now) node.now }
{
    match node {
        NodeRef::Old(number) => kind_of(rows, *number),
        NodeRef::New(_) => None,
    }
}

fn kind_of(rows: &[NodeRow], node: NodeNo) -> Option<Kind>
    ensures { result ≡ kind_in (map bare_row rows.now) (Old node) }
{
    if node.number() == 0 {
        return Some(Kind::Dir);
    }
    match find(rows, node) {
        Some(row) => Some(row.kind),
        None => None,
    }
}

fn find(rows: &[NodeRow], node: NodeNo) -> Option<&NodeRow>
    ensures { option_copied result ≡ find (λ r. nat_eq r.node node) rows.now }
{
    rows.iter().find(|row| row.node == node)
}
