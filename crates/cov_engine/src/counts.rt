// How much a history holds.

/// How many lines, nodes and bytes of text a history has; the root is a node.
#[derive(Clone, Copy, Debug, PartialEq, Eq)]
pub struct Counts {
    pub lines: u32,
    pub nodes: u32,
    pub bytes: u64,
}
