// The nodes of rules, listed and renumbered.
ghost use Rattle.std.specs.Prelude.{◌≡◌, ◌≤◌, ◌+◌, ◌++◌, length, take, drop, OnOk, OnErr, refl};
ghost use Rattle.cov_rules.specs.Renumbered.{having_node, node_of, nodes_of, without_nodes, HoldRenumbered};

use super::{Installed, Rules};
use cov_base::Memory;
use cov_dd::{HasNode, Node, Nodes, append_nodes, renumber_nodes};

impl Rules {
    /// Appends every node that is kept, or none where there is no memory.
    pub fn nodes(&self, into: &mut Nodes) -> Result<(), Memory>
        ensures ok { OnOk result (into.new ≡ into.old ++ nodes_of self.now.standing) }
        ensures err { OnErr result (into.new ≡ into.old) }
    {
        let before = into.len();
        match self.append_nodes(into) {
            Ok(()) => Ok(()),
            Err(error) => {
                into.cut(before);
                Err(error)
            }
        }
    }

    fn append_nodes(&self, into: &mut Nodes) -> Result<(), Memory>
        ensures ok { OnOk result (into.new ≡ into.old ++ nodes_of self.now.standing) }
        ensures front { take (length into.old) into.new ≡ into.old }
    {
        append_nodes(self.constraints.as_slice(), into)?;
        append_nodes(self.preferences.as_slice(), into)?;
        into.push(self.conjunction)
    }

    /// Puts the nodes of a list from a place on in the places of those that are kept, in the order of `nodes`. It answers the place
    /// after the last, and takes no memory.
    pub fn renumber(&mut self, from: &Nodes, first: u64) -> u64
        requires { first + length (nodes_of self.old.standing) ≤ length from.now }
        ensures next { result ≡ first + length (nodes_of self.old.standing) }
        ensures nodes { nodes_of self.new.standing ≡
            take (length (nodes_of self.old.standing)) (drop first from.now) }
        ensures same { without_nodes self.new.standing ≡ without_nodes self.old.standing }
        ensures holds { HoldRenumbered self.old.standing self.new.standing }
        ensures spare { self.new.spare ≡ self.old.spare }
    {
        let nodes = from.as_slice();
        let second = renumber_nodes(&mut self.constraints, nodes, first);
        let third = renumber_nodes(&mut self.preferences, nodes, second);
        self.conjunction = nodes[third as usize];
        third + 1
    }
}

impl HasNode for Installed {
    ghost node_of = { node_of };

    ghost having_node = { having_node };

    fn node(&self) -> Node {
        self.node
    }

    fn set_node(&mut self, node: Node) {
        self.node = node;
    }

    ghost has_that_node = { λ n x. refl };
}
