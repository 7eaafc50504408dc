// The nodes that are kept, and the table without the others.
ghost use Rattle.std.specs.Prelude.{◌≡◌, ◌≤◌, ◌++◌, length, take, OnOk, OnErr};
ghost use Rattle.cov_dd.specs.Diagrams.{diagram_size};
ghost use Rattle.cov_dd.specs.Sweeps.{AreReached, AreRenumbered};
ghost use Rattle.cov_engine.specs.States.{history_of, nodes_of, table_of, IsKept};
ghost use Rattle.cov_engine.specs.Sweeping.{IsRenumberedState};

use crate::state::EngineState;
use cov_base::Memory;
use cov_dd::Nodes;

/// Appends every node that is kept, in one order. At an `Err` the list is as before.
pub(crate) fn append_nodes(state: &EngineState, into: &mut Nodes) -> Result<(), Memory>
    ensures ok { OnOk result (into.new ≡ into.old ++ nodes_of state.now) }
    ensures err { OnErr result (into.new ≡ into.old) }
{
    let before = into.len();
    match append_parts(state, into) {
        Ok(()) => Ok(()),
        Err(error) => {
            into.cut(before);
            Err(error)
        }
    }
}

fn append_parts(state: &EngineState, into: &mut Nodes) -> Result<(), Memory>
    ensures ok { OnOk result (into.new ≡ into.old ++ nodes_of state.now) }
    ensures front { take (length into.old) into.new ≡ into.old }
{
    state.rules.nodes(into)?;
    state.visible.entries.nodes(into)?;
    state.visible.files.nodes(into)?;
    state.index.commits.nodes(into)
}

/// Leaves in the table what a node that is kept reaches, under new numbers. At an `Err` all is as before.
pub(crate) fn sweep(state: &mut EngineState) -> Result<(), Memory>
    requires kept { IsKept state.old }
    ensures kept { IsKept state.new }
    ensures history { history_of state.new ≡ history_of state.old }
    ensures nodes { OnOk result (AreRenumbered (table_of state.old) (table_of state.new)
        (nodes_of state.old) (nodes_of state.new)) }
    ensures swept { OnOk result (AreReached (table_of state.new) (nodes_of state.new)) }
    ensures fewer { diagram_size (table_of state.new) ≤ diagram_size (table_of state.old) }
    ensures table_err { OnErr result (table_of state.new ≡ table_of state.old) }
    ensures nodes_err { OnErr result (nodes_of state.new ≡ nodes_of state.old) }
{
    let mut roots = Nodes::new(state.index.commits.allocator());
    append_nodes(state, &mut roots)?;
    state.visible.table.sweep(&mut roots)?;
    renumber(state, &roots);
    Ok(())
}

// Puts the nodes of a list in the places of those that are kept.
fn renumber(state: &mut EngineState, from: &Nodes)
    requires { length (nodes_of state.old) ≤ length from.now }
    ensures state { IsRenumberedState state.old state.new }
    ensures nodes { nodes_of state.new ≡ take (length (nodes_of state.old)) from.now }
{
    let second = state.rules.renumber(from, 0);
    let third = state.visible.entries.renumber(from, second);
    let fourth = state.visible.files.renumber(from, third);
    state.index.commits.renumber(from, fourth);
}
