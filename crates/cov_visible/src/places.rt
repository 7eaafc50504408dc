// Where files stand by their nodes.
ghost use Rattle.std.specs.Prelude.{◌≡◌, ◌<◌, length, map, nat_lt, slice_get, IfSome};
ghost use Rattle.std.specs.Option.{option_copied};
ghost use Rattle.cov_edit.specs.Touched.{AreRising};
ghost use Rattle.cov_visible.specs.Parts.{part_node, part_of, is_at, count_below, IsPlaceOf};

use crate::FilePart;
use cov_base::NodeNo;

/// The place of the file with a node. It looks at as many files as halvings leave.
pub(crate) fn index_of(files: &[FilePart], node: NodeNo) -> Option<usize>
    requires rising { AreRising (map part_node files.now) }
    ensures place { IsPlaceOf (map part_node files.now) node result }
    ensures within { IfSome result (λ at. at < length files.now) }
{
    let at = count_below(files, node);
    match is_at(files, at, node) {
        true => Some(at),
        false => None,
    }
}

// The file at a place.
fn file_at(files: &[FilePart], at: usize) -> Option<&FilePart>
    ensures { option_copied result ≡ slice_get files.now at }
{
    files.get(at)
}

// Whether the file at a place has a node.
fn is_at(files: &[FilePart], at: usize, node: NodeNo) -> bool
    ensures { result ≡ is_at (slice_get files.now at) node }
{
    match file_at(files, at) {
        Some(file) => file.node == node,
        None => false,
    }
}

/// The file with a node. It looks at as many files as halvings leave.
pub fn part_of(files: &[FilePart], node: NodeNo) -> Option<&FilePart>
    requires rising { AreRising (map part_node files.now) }
    ensures { option_copied result ≡ part_of files.now node }
{
    match index_of(files, node) {
        Some(index) => file_at(files, index),
        None => None,
    }
}

/// How many files have lower nodes. It looks at as many files as halvings leave.
pub fn count_below(files: &[FilePart], node: NodeNo) -> usize
    requires rising { AreRising (map part_node files.now) }
    ensures { result ≡ count_below node (map part_node files.now) }
{
    files.partition_point(
        |file: &FilePart| -> bool
            ensures { result ≡ nat_lt file.now.node node }
        { file.node < node },
    )
}
