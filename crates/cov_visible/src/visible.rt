// What an engine shows.
use crate::FileParts;
use cov_dd::Table;
use cov_tree::Entries;

/// The rows and lines of a history at each position, with the diagrams on whose choices they are visible. It is whole where all
/// nodes of its entries and files are in its table, its files are the files of its entries, each once and by rising node, no line
/// stands in two files, and on no choice at no position a node has two rows, or the root has one.
#[derive(Drop)]
pub struct Visible {
    pub table: Table,
    pub entries: Entries,
    pub files: FileParts,
}
