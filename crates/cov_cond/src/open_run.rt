// The run of lines that an export is within.
ghost use Rattle.std.specs.Prelude.{◌≡◌, ◌<◌, ◌++◌, ◌↔◌, IsTrue, OnOk};
ghost use Rattle.cov_dd.specs.Diagrams.{diagram_size};
ghost use Rattle.cov_cond.specs.Writing.{end_of, Agrees, HasNode, IsOfNode};

use cov_base::{LineNo, Memory, Text, Texts};
use cov_dd::{Node, Table};

/// Neighbouring lines with one listing, the last of which isn't known yet.
#[derive(Clone, Copy, Debug)]
pub(crate) struct OpenRun {
    /// The visibility of its lines.
    pub(crate) node: Node,
    /// The first of them.
    pub(crate) line: LineNo,
    /// Whether all choices have them, so that no directives stand round them.
    pub(crate) is_bare: bool,
}

/// Whether a run goes on whose lines have a node.
pub(crate) fn has_node(table: &Table, run: &Option<OpenRun>, node: Node) -> bool
    requires run { HasNode table.now run.now }
    requires node { node < diagram_size table.now }
    ensures same { IsTrue result ↔ IsOfNode run.now node }
    ensures agree { IsTrue result ↔ Agrees table.now run.now node }
{
    match run {
        Some(run) => table.is_same(run.node, node),
        None => false,
    }
}

/// Writes what stands behind the lines of the run that goes on.
pub(crate) fn end_run(run: Option<OpenRun>, lines: &mut Texts) -> Result<(), Memory>
    ensures { OnOk result (lines.new ≡ lines.old ++ end_of run) }
{
    let Some(run) = run else {
        return Ok(());
    };
    if run.is_bare {
        return Ok(());
    }
    lines.push(Text::from_slice(lines.allocator(), b"#endif")?)
}
