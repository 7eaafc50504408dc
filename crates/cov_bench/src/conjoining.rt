// The conjunction of the clauses.
ghost use Rattle.std.specs.Prelude.{◌<◌, ◌≤◌, IfOk};
ghost use Rattle.std.specs.List.{AllByRecursion};
ghost use Rattle.cov_dd.specs.Diagrams.{diagram_size};

use crate::random::{Literal, Random};
use cov_base::{CHOICE_WIDTH, Memory, Steps, Uncounted};
use cov_dd::{FALSE, Node, Nodes, Table};

const CLAUSES: u32 = 256;

/// The node that is true where all clauses are. After each `every` conjunctions what it doesn't reach is swept out of the table,
/// and never where that is 0.
pub fn conjunction(table: &mut Table, window: u8, every: u32) -> Result<Node, Memory>
    ensures { IfOk result (λ all. all < diagram_size table.new) }
{
    let mut random = Random::new();
    let mut all = clause(table, random.clause(window))?;
    for count in 1..CLAUSES {
        let one = clause(table, random.clause(window))?;
        all = table.and(all, one, &mut Steps::<Uncounted>::new())?;
        all = swept_after(table, all, count, every)?;
    }
    Ok(all)
}

// The node that another is once the sweep is done that is due after so many conjunctions, if one is.
fn swept_after(table: &mut Table, all: Node, count: u32, every: u32) -> Result<Node, Memory>
    requires { all < diagram_size table.old }
    ensures { IfOk result (λ node. node < diagram_size table.new) }
{
    if every == 0 || count % every > 0 {
        return Ok(all);
    }
    swept(table, all)
}

// The node that another is after a sweep that leaves what it reaches.
fn swept(table: &mut Table, all: Node) -> Result<Node, Memory>
    requires { all < diagram_size table.old }
    ensures { IfOk result (λ node. node < diagram_size table.new) }
{
    let mut roots = Nodes::new(table.allocator());
    roots.push(all)?;
    table.sweep(&mut roots)?;
    match roots.get(0) {
        Some(node) => Ok(node),
        None => Ok(FALSE),
    }
}

/// The conjunctions of the first clauses, so many more in each.
pub fn conjunctions(table: &mut Table, window: u8) -> Result<Nodes, Memory>
    ensures { IfOk result (λ nodes. AllByRecursion (λ a. a < diagram_size table.new) nodes) }
{
    let mut random = Random::new();
    let mut all = clause(table, random.clause(window))?;
    let mut nodes = Nodes::new(table.allocator());
    for _ in 1..CLAUSES {
        let one = clause(table, random.clause(window))?;
        all = table.and(all, one, &mut Steps::<Uncounted>::new())?;
        nodes.push(all)?;
    }
    Ok(nodes)
}

/// Sweeps so many times, and leaves what these nodes reach.
pub fn sweep(table: &mut Table, nodes: &mut Nodes, times: u32) -> Result<(), Memory>
    requires { AllByRecursion (λ a. a < diagram_size table.old) nodes.old }
{
    for _ in 0..times {
        table.sweep(nodes)?;
    }
    Ok(())
}

fn clause(table: &mut Table, literals: [Literal; 3]) -> Result<Node, Memory>
    ensures grows { diagram_size table.old ≤ diagram_size table.new }
    ensures within { IfOk result (λ one. one < diagram_size table.new) }
{
    let [first, second, third] = literals;
    let a = literal_node(table, first)?;
    let b = literal_node(table, second)?;
    let two = table.or(a, b)?;
    let c = literal_node(table, third)?;
    table.or(two, c)
}

fn literal_node(table: &mut Table, literal: Literal) -> Result<Node, Memory>
    ensures grows { diagram_size table.old ≤ diagram_size table.new }
    ensures within { IfOk result (λ node. node < diagram_size table.new) }
{
    let node = table.literal(literal.option)?;
    if literal.on {
        return Ok(node);
    }
    table.not(node)
}

/// The bits of the first choice on which a node is true. An option is on only where off leads to FALSE.
pub fn first_choice(table: &Table, all: Node) -> u128 {
    let mut bits = 0;
    let mut node = all;
    for _ in 0..CHOICE_WIDTH {
        let Some(triple) = table.entry(node) else {
            break;
        };
        let on = triple.off == FALSE;
        node = if on { triple.on } else { triple.off };
        bits |= u128::from(on) << triple.option.number();
    }
    bits
}
