// Rows of nodes of a history, which views share.
ghost use Rattle.std.specs.Prelude.{◌≡◌, ◌++◌, ◌∷◌, [], false, length, not, if◌then◌else◌, IfOk, OnOk, OnErr};
ghost use Rattle.cov_base.specs.Rows.{is_present, AreOnce};
ghost use Rattle.cov_view.specs.Keys.{IsIndexOf};
ghost use Rattle.cov_view.specs.Shown.{bare_rows};

use crate::NodeRow;
use crate::node_index::NodeIndex;
use crate::row::is_root;
use cov_base::{Kind, Memory, Name, NodeNo, NodeRef, Shared};
use std::alloc::Global;
use std::marker::Model;

/// Nodes of a history in their directories, each once and none the root, with what they are found by. Contracts see it as the
/// rows in the order in which they were added.
#[derive(Debug, Drop)]
pub struct ShownTree {
    rows: Vec<NodeRow>,
    index: NodeIndex,
}

impl Model for ShownTree {
    ghost use Rattle.std.specs.Prelude.{List};
    ghost use Rattle.cov_base.specs.Rows.{Row, AreOnce};
    ghost use Rattle.cov_view.specs.Keys.{IsIndexOf};
    ghost use Rattle.cov_view.specs.Shown.{bare_rows};

    ghost Value = { List Row };

    ghost view = { λ t. t.rows.items };

    ghost invariant = { λ t. AreOnce t.rows.items ×
        IsIndexOf t.index (bare_rows t.rows.items) };
}

/// Nodes of a history that several owners have and none changes.
pub type SharedTree = Shared<ShownTree>;

impl ShownTree {
    /// No node.
    pub fn new(alloc: Global) -> ShownTree
        ensures { result ≡ [] }
    {
        ShownTree {
            rows: Vec::new(alloc),
            index: NodeIndex::new(alloc),
        }
    }

    /// Appends a node. False comes exactly where it is the root or has a row already, and nothing is appended then.
    pub fn add(
        &mut self,
        node: NodeNo,
        kind: Kind,
        parent: NodeNo,
        name: &Name,
    ) -> Result<bool, Memory>
        ensures added { IfOk result (λ added. added ≡ not (is_present self.old node)) }
        ensures rows { IfOk result (λ added. self.new ≡
            (if added then
            self.old ++
            record { node = node; kind = kind; parent = parent; name = name.now } ∷ []
            else self.old)) }
        ensures err { OnErr result (self.new ≡ self.old) }
    {
        if self.has(node) {
            return Ok(false);
        }
        let row = NodeRow {
            node,
            kind,
            parent,
            name: name.copy()?,
        };
        self.push(row)?;
        Ok(true)
    }

    // Whether a node is the root or has a row.
    fn has(&self, node: NodeNo) -> bool
        ensures { result ≡ is_present self.now node }
    {
        let node = NodeRef::Old(node);
        is_root(&node) || self.index.place(&node).is_some()
    }

    // Appends the row of a node that has none.
    fn push(&mut self, row: NodeRow) -> Result<(), Memory>
        requires { is_present self.old row.node ≡ false }
        ensures ok { OnOk result (self.new ≡ self.old ++ row ∷ []) }
        ensures err { OnErr result (self.new ≡ self.old) }
    {
        self.rows.reserve(1)?;
        self.index.note(
            &NodeRef::Old(row.node),
            &NodeRef::Old(row.parent),
            row.name.as_slice(),
        )?;
        self.rows.push_reserved(row);
        Ok(())
    }

    pub fn len(&self) -> usize
        ensures { result ≡ length self.now }
    {
        self.rows.len()
    }

    /// The rows, in the order in which they were added.
    pub fn as_slice(&self) -> &[NodeRow]
        ensures rows { result.now ≡ self.now }
        ensures once { AreOnce self.now }
    {
        self.rows.as_slice()
    }

    /// The allocator that the tree keeps.
    pub fn allocator(&self) -> Global {
        *self.rows.allocator()
    }

    /// What the rows are found by.
    pub(crate) fn index(&self) -> &NodeIndex
        ensures { IsIndexOf result.now (bare_rows self.now) }
    {
        &self.index
    }
}
