// How many directories and files a tree has.
ghost use Rattle.std.specs.Prelude.{◌≡◌, not};
ghost use Rattle.cov_view.specs.References.{is_dir_kind};
ghost use Rattle.cov_view.specs.Tree.{dirs_in, files_in};

use crate::{TreeRow, TreeRows};
use cov_base::Kind;

/// How many rows are directories.
pub fn dirs_in(rows: &TreeRows) -> usize
    ensures { result ≡ dirs_in rows.now }
{
    rows.as_slice().iter().filter(|row| is_dir(row)).count()
}

/// How many rows are files.
pub fn files_in(rows: &TreeRows) -> usize
    ensures { result ≡ files_in rows.now }
{
    rows.as_slice().iter().filter(|row| !is_dir(row)).count()
}

fn is_dir(row: &TreeRow) -> bool
    ensures { result ≡ is_dir_kind row.now.kind }
{
    match row.kind {
        Kind::Dir => true,
        Kind::File => false,
    }
}
