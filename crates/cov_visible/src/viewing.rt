// Views of rows, with the lines that are seen.
ghost use Rattle.std.specs.Prelude.{◌≡◌, [], map, IfOk, OnOk, Some};
ghost use Rattle.std.specs.List.{fold};
ghost use Rattle.cov_base.specs.Rows.{AreOnce};
ghost use Rattle.cov_base.specs.declared.number.NodeRef.TheVariants.{Old};
ghost use Rattle.cov_edit.specs.Touched.{AreRising};
ghost use Rattle.cov_view.specs.Seen.{kind_in};
ghost use Rattle.cov_view.specs.Soundness.{AreOld, old_row};
ghost use Rattle.cov_visible.specs.Parts.{part_node, part_of};
ghost use Rattle.cov_visible.specs.Showing.{bare_row, bare_rows, with_lines, with_node};
ghost use Rattle.cov_visible.specs.Visible.{IsWhole, shown};

use crate::places::part_of;
use crate::{FilePart, Visible};
use cov_base::{Choice, Kind, Memory, Position};
use cov_dd::Table;
use cov_tree::NodeRow;
use cov_view::View;
use std::alloc::Global;

/// The view of what is shown on a choice at a position: the rows that the entries have there, and of each file among them the lines.
/// It shares what is kept of both where that is right, and else takes time in the rows and lines that are kept.
pub fn view_at(visible: &Visible, choice: Choice, at: Position) -> Result<View, Memory>
    requires whole { IsWhole visible.now }
    ensures { IfOk result (λ view. view ≡ shown visible.now choice at) }
{
    let table = &visible.table;
    let tree = visible.entries.shown(table, choice, at)?;
    let mut view = View::of_tree(tree.share()?)?;
    let files = visible.files.as_slice();
    share_lines(&mut view, table, files, tree.lend().as_slice(), choice, at)?;
    Ok(view)
}

/// Keeps what the entries and each file show on a choice from their newest change on, if it isn't kept yet, so that views share it.
/// Want of memory is passed over.
pub fn keep_shown(visible: &mut Visible, choice: Choice)
    ensures { visible.new ≡ visible.old }
{
    visible.entries.keep(&visible.table, choice);
    visible.files.keep(&visible.table, choice);
}

/// The view of rows that are of different nodes but the root, without lines.
pub fn view_of_rows(alloc: Global, rows: &[NodeRow]) -> Result<View, Memory>
    requires { AreOnce rows.now }
    ensures view { IfOk result (λ view. view ≡
        record { rows = map bare_row rows.now; nodes_made = 0; lines_made = 0 }) }
    ensures old { IfOk result (λ view. AreOld view.rows) }
    ensures rows { IfOk result (λ view. map old_row view.rows ≡ rows.now) }
{
    let mut view = View::new(alloc)?;
    add_rows(&mut view, rows)?;
    Ok(view)
}

// Adds rows to a view that has none.
fn add_rows(view: &mut View, rows: &[NodeRow]) -> Result<(), Memory>
    requires once { AreOnce rows.now }
    requires none { view.old.rows ≡ [] }
    ensures rows { OnOk result (view.new.rows ≡ bare_rows rows.now) }
    ensures nodes { view.new.nodes_made ≡ view.old.nodes_made }
    ensures lines { view.new.lines_made ≡ view.old.lines_made }
{
    let mut ahead = rows;
    while let [row, rest @ ..] = ahead {
        view.add_row(row.node, row.kind, row.parent, &row.name)?;
        ahead = rest;
    }
    Ok(())
}

// Shares the lines that are seen with the view of rows.
fn share_lines(
    view: &mut View,
    table: &Table,
    files: &[FilePart],
    rows: &[NodeRow],
    choice: Choice,
    at: Position,
) -> Result<(), Memory>
    requires rising { AreRising (map part_node files.now) }
    requires once { AreOnce rows.now }
    requires rows { view.old.rows ≡ bare_rows rows.now }
    ensures rows { OnOk result (view.new.rows ≡
        fold (with_node table.now choice at files.now) [] rows.now) }
    ensures nodes { view.new.nodes_made ≡ view.old.nodes_made }
    ensures lines { view.new.lines_made ≡ view.old.lines_made }
{
    let mut ahead = rows;
    while let [row, rest @ ..] = ahead {
        let index = rows.len() - ahead.len();
        share_lines_of(view, table, files, index, row, choice, at)?;
        ahead = rest;
    }
    Ok(())
}

// Shares the lines that are seen with a node's row, if it is a file's. It is at an index, or else it is looked up.
fn share_lines_of(
    view: &mut View,
    table: &Table,
    files: &[FilePart],
    index: usize,
    row: &NodeRow,
    choice: Choice,
    at: Position,
) -> Result<(), Memory>
    requires rising { AreRising (map part_node files.now) }
    requires kind { kind_in view.old.rows (Old row.now.node) ≡ Some row.now.kind }
    ensures rows { OnOk result (view.new.rows ≡
        with_lines table.now choice at row.now.kind row.now.node (part_of files.now row.now.node)
        view.old.rows) }
    ensures nodes { view.new.nodes_made ≡ view.old.nodes_made }
    ensures lines { view.new.lines_made ≡ view.old.lines_made }
{
    match row.kind {
        Kind::Dir => Ok(()),
        Kind::File => match part_of(files, row.node) {
            Some(part) => {
                let lines = part.lines.shown(table, choice, at)?;
                view.share_lines_at(index, row.node, lines)
            }
            None => Ok(()),
        },
    }
}
