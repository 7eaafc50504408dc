// The digest of a tree.
ghost use Rattle.std.specs.Prelude.{◌≡◌, ◌++◌, List, ℕ};
ghost use Rattle.sha2.specs.Hashers.{Holds256};
ghost use Rattle.cov_view.specs.Tree.{framed, row_bytes, tree_bytes, digest_of};

use crate::{TreeRow, TreeRows};
use cov_base::Kind;
use sha2::{Digest, Sha256};

/// The SHA-256 digest of the rows of a tree. It takes no memory, and time in their paths and bytes.
pub fn digest(rows: &TreeRows) -> [u8; 32]
    ensures { result ≡ digest_of rows.now }
{
    let mut hasher = Sha256::new();
    feed_rows(&mut hasher, rows.as_slice());
    hasher.finalize()
}

fn feed_rows(hasher: &mut Sha256, rows: &[TreeRow])
    ensures { (m : List ℕ) → Holds256 hasher.old m →
        Holds256 hasher.new (m ++ tree_bytes rows.now) }
{
    let mut ahead = rows;
    while let [first, rest @ ..] = ahead {
        feed_row(hasher, first);
        ahead = rest;
    }
}

fn feed_row(hasher: &mut Sha256, row: &TreeRow)
    ensures { (m : List ℕ) → Holds256 hasher.old m → Holds256 hasher.new (m ++ row_bytes row.now) }
{
    match row.kind {
        Kind::Dir => {
            hasher.update(b"d");
            feed_framed(hasher, row.path.as_slice());
        }
        Kind::File => {
            hasher.update(b"f");
            feed_framed(hasher, row.path.as_slice());
            feed_framed(hasher, row.bytes.as_slice());
        }
    }
}

fn feed_framed(hasher: &mut Sha256, bytes: &[u8])
    ensures { (m : List ℕ) → Holds256 hasher.old m → Holds256 hasher.new (m ++ framed bytes.now) }
{
    hasher.update((bytes.len() as u64).to_be_bytes());
    hasher.update(bytes);
}
