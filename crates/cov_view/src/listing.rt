// What is in a directory.
ghost use Rattle.std.specs.Prelude.{◌≡◌, List, [], ◌∷◌, ◌++◌, filter, map, IfOk, OnOk};
ghost use Rattle.cov_view.specs.Listing.{dir_row, kind_rank, listed_in, listing_order};
ghost use Rattle.cov_view.specs.References.{same_node};

use crate::row::{ViewRow, same_node};
use cov_base::{Kind, List, Memory, Name, NodeRef};
use std::alloc::Global;
use std::cmp::Ordering;

/// A file or directory of a directory.
#[derive(Debug, Drop)]
pub struct DirRow {
    pub kind: Kind,
    pub name: Name,
}

/// What is in a directory, in byte order of names.
pub type DirRows = List<DirRow>;

/// What is in a directory, in memory of its own.
pub(crate) fn listing(alloc: Global, rows: &[ViewRow], dir: &NodeRef) -> Result<DirRows, Memory>
    ensures { IfOk result (λ listing. listing ≡ listed_in rows.now dir.now) }
{
    let mut children = children_of(alloc, rows, dir)?;
    children.sort_unstable_by(|left, right| compare(left, right));
    let mut listing = DirRows::new(alloc);
    'children: for child in children {
        listing.push(child)?;
    }
    Ok(listing)
}

// Byte order of names; a file comes before a directory of its name.
fn compare(left: &DirRow, right: &DirRow) -> Ordering
    ensures { result ≡ listing_order left.now right.now }
{
    left.name
        .as_slice()
        .cmp(right.name.as_slice())
        .then(rank(left.kind).cmp(&rank(right.kind)))
}

// The place of a kind.
fn rank(kind: Kind) -> u8
    ensures { result ≡ kind_rank kind }
{
    match kind {
        Kind::File => 0,
        Kind::Dir => 1,
    }
}

fn children_of(alloc: Global, rows: &[ViewRow], dir: &NodeRef) -> Result<Vec<DirRow>, Memory>
    ensures { IfOk result (λ children. children.items ≡
        map dir_row (filter (λ r. same_node r.parent dir.now) rows.now)) }
{
    let mut children = Vec::new(alloc);
    'rows: for row in rows {
        add_child(&mut children, row, dir)?;
    }
    Ok(children)
}

// Adds a row that stands in a directory.
fn add_child(children: &mut Vec<DirRow>, row: &ViewRow, dir: &NodeRef) -> Result<(), Memory>
    ensures { OnOk result (children.new.items ≡
        children.old.items ++
        map dir_row (filter (λ r. same_node r.parent dir.now) (row.now ∷ []))) }
{
    if !same_node(&row.parent, dir) {
        return Ok(());
    }
    let name = row.name.copy()?;
    let kind = row.kind;
    children.push(DirRow { kind, name })?;
    Ok(())
}
