// Lists of nodes of the table, small where there is none.
ghost use Rattle.std.specs.Prelude.{◌≡◌, ◌≤◌, length, take, IfOk};

use cov_base::Memory;
use cov_dd::{Node, Nodes};
use std::marker::Model;

/// A list of nodes behind one pointer, so that what is kept of most commits is small. It takes no memory where it is empty.
#[derive(Drop)]
pub struct FewNodes {
    kept: Option<Box<Nodes>>,
}

impl Model for FewNodes {
    ghost use Rattle.std.specs.Prelude.{List, ℕ, []};
    ghost use Rattle.std.specs.Option.{option_map_or};

    ghost Value = { List ℕ };

    ghost view = { λ l. option_map_or (λ kept. kept.value) l.kept [] };
}

impl FewNodes {
    /// These nodes.
    pub(crate) fn of(nodes: Nodes) -> Result<FewNodes, Memory>
        ensures { IfOk result (λ few. few ≡ nodes) }
    {
        if nodes.is_empty() {
            return Ok(FewNodes { kept: None });
        }
        let alloc = nodes.allocator();
        Ok(FewNodes {
            kept: Some(Box::new(alloc, nodes)?),
        })
    }

    pub(crate) fn as_slice(&self) -> &[Node]
        ensures { result.now ≡ self.now }
    {
        match &self.kept {
            Some(nodes) => nodes.as_slice(),
            None => &[],
        }
    }

    /// Puts the first of other nodes in the places of these, without memory.
    pub(crate) fn replace_all(&mut self, from: &[Node])
        requires { length self.old ≤ length from.now }
        ensures { self.new ≡ take (length self.old) from.now }
    {
        if let Some(nodes) = &mut self.kept {
            replace_all(nodes, from);
        }
    }
}

// Puts the first of other nodes in the places of nodes, without memory.
fn replace_all(nodes: &mut Nodes, from: &[Node])
    requires { length nodes.old ≤ length from.now }
    ensures { nodes.new ≡ take (length nodes.old) from.now }
{
    let mut index = 0;
    while index < nodes.len() {
        nodes.set(index, from[index]);
        index += 1;
    }
}
