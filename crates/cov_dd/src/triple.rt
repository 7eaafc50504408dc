// The nodes of a table and their entries.
ghost use Rattle.std.specs.Prelude.{◌≡◌, List, if◌then◌else◌};
ghost use Rattle.cov_base.specs.declared.limits.TheConstants.{CHOICE_WIDTH};
ghost use Rattle.cov_dd.specs.declared.triple.Triple.{Triple};
ghost use Rattle.cov_dd.specs.Diagrams.{Stands};

use cov_base::OptionId;

/// The number of a node within its table.
pub type Node = u64;

/// A list of nodes.
pub type Nodes = cov_base::List<Node, cov_base::ByValue>;

/// The node that is false on every choice.
pub const FALSE: Node = 0;

/// The node that is true on every choice.
pub const TRUE: Node = 1;

/// The node with the same truth value on every choice, in any table.
pub fn constant(on: bool) -> Node
    ensures { (ts : List Triple) → Stands ts result CHOICE_WIDTH 0 (λ _. on) }
{
    if on { TRUE } else { FALSE }
}

/// The entry of a node: it has the value of `on` where the choice has the option on, else that of `off`.
#[derive(Clone, Copy, Debug, PartialEq, Eq, Hash)]
pub struct Triple {
    pub option: OptionId,
    pub off: Node,
    pub on: Node,
}

impl Triple {
    pub(crate) fn child(self, on: bool) -> Node
        ensures { result ≡ (if on then self.on else self.off) }
    {
        if on { self.on } else { self.off }
    }
}
