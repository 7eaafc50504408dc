// The numbers and nodes of a commit's edits, found once.
ghost use Rattle.std.specs.Prelude.{◌≡◌, ◌<◌, ◌≤◌, ◌++◌, ℕ, [], ◌∷◌, map, length, IfOk, OnOk};
ghost use Rattle.std.specs.List.{list_any, AllByRecursion};
ghost use Rattle.cov_dd.specs.Diagrams.{diagram_size, Extends};
ghost use Rattle.cov_edit.specs.Touched.{AreRising};
ghost use Rattle.cov_visible.specs.Parts.{part_node};
ghost use Rattle.cov_visible.specs.Staging.{AreNear, AreLow};
ghost use Rattle.cov_visible.specs.Nodes.{own_node, old_node, line_node, HasNodesIn};
ghost use Rattle.cov_visible.specs.Resolved.{deletes_own, insert_nodes, made_after, AreOwnNodes, AreOfTable, IsResolvedIn, AreResolvedIn, AreResolvedWith, HaveNumbers};

use crate::FilePart;
use crate::number::{line_number, node_number};
use crate::places::index_of;
use crate::resolved_edit::ResolvedEdit;
use cov_base::{LineNo, Memory, NodeNo, Position};
use cov_dd::{FALSE, Node, Table};
use cov_edit::Edit;
use cov_vis::take;
use std::alloc::Global;

/// Where a commit's edits are resolved: the position after it, and how many nodes and lines were made before it.
#[derive(Drop)]
pub struct CommitContext {
    pub at: Position,
    pub nodes: u32,
    pub lines: u32,
}

/// How many nodes and lines there are before an edit.
#[derive(Clone, Copy)]
pub(crate) struct MadeBefore {
    pub(crate) nodes: u32,
    pub(crate) lines: u32,
}

/// The edits of a commit by numbers, with a node for each edit that says where it applies: what is inserted is visible there,
/// what is deleted is left visible where it was and not there, and rows change there. A line that the same commit inserts was
/// visible where its insert applies.
pub fn resolve(
    alloc: Global,
    table: &mut Table,
    files: &[FilePart],
    context: &CommitContext,
    conditions: &[Node],
    edits: &[Edit],
) -> Result<Vec<ResolvedEdit>, Memory>
    requires rising { AreRising (map part_node files.now) }
    requires nodes { AllByRecursion (HasNodesIn table.old context.now.at) files.now }
    requires each { length conditions.now ≡ length edits.now }
    requires conditions { AreOfTable table.old conditions.now }
    requires near { AreNear context.now.nodes edits.now }
    requires low { AreLow context.now.lines edits.now }
    requires few { HaveNumbers (record {
      nodes = context.now.nodes;
      lines = context.now.lines;
    }) edits.now }
    ensures extends { Extends table.old table.new }
    ensures resolved { IfOk result (λ r.
        AreResolvedIn context.now files.now table.new conditions.now edits.now r.items) }
{
    let inserted = nodes_of_own_lines(alloc, context.lines, conditions, edits)?;
    let mut resolved = Vec::new(alloc);
    match resolve_onto(
        table,
        files,
        inserted.as_slice(),
        &mut resolved,
        context,
        conditions,
        edits,
    ) {
        Ok(()) => Ok(resolved),
        Err(Memory) => Err(Memory),
    }
}

// The node of each line that edits insert, in order; none where they delete none of these, so many lines having been made
// before.
fn nodes_of_own_lines(
    alloc: Global,
    lines: u32,
    conditions: &[Node],
    edits: &[Edit],
) -> Result<Vec<Node>, Memory>
    requires each { length conditions.now ≡ length edits.now }
    requires low { AreLow lines edits.now }
    ensures { IfOk result (λ nodes.
        AreOwnNodes lines conditions.now edits.now nodes.items) }
{
    if delete_own_lines(lines, edits) {
        nodes_of_inserts(alloc, conditions, edits)
    } else {
        Ok(Vec::new(alloc))
    }
}

// Whether edits delete a line that isn't one of so many.
fn delete_own_lines(lines: u32, edits: &[Edit]) -> bool
    requires { AreLow lines edits.now }
    ensures { result ≡ list_any (deletes_own lines) edits.now }
{
    let mut ahead = edits;
    while let [edit, rest @ ..] = ahead {
        if deletes_own(lines, edit) {
            return true;
        }
        ahead = rest;
    }
    false
}

fn deletes_own(lines: u32, edit: &Edit) -> bool
    requires { AreLow lines (edit.now ∷ []) }
    ensures { result ≡ deletes_own lines edit.now }
{
    match edit {
        Edit::Delete { line, .. } => line_number(lines, line).number() > lines,
        Edit::New { .. }
        | Edit::Insert { .. }
        | Edit::Rename { .. }
        | Edit::Move { .. }
        | Edit::Remove { .. } => false,
    }
}

// The node of each line that edits insert, in order.
fn nodes_of_inserts(alloc: Global, conditions: &[Node], edits: &[Edit]) -> Result<Vec<Node>, Memory>
    requires { length conditions.now ≡ length edits.now }
    ensures { IfOk result (λ nodes. nodes.items ≡ insert_nodes conditions.now edits.now) }
{
    let mut nodes = Vec::new(alloc);
    let mut behind = conditions;
    let mut ahead = edits;
    while let [edit, rest @ ..] = ahead {
        let [on, others @ ..] = behind else {
            unreachable!()
        };
        push_insert(&mut nodes, *on, edit)?;
        behind = others;
        ahead = rest;
    }
    Ok(nodes)
}

// Puts the node of the line that an edit inserts behind others, if it inserts one.
fn push_insert(nodes: &mut Vec<Node>, on: Node, edit: &Edit) -> Result<(), Memory>
    ensures { OnOk result (nodes.new.items ≡
        nodes.old.items ++ insert_nodes (on ∷ []) (edit.now ∷ [])) }
{
    match edit {
        Edit::Insert { .. } => {
            nodes.push(on)?;
            Ok(())
        }
        Edit::New { .. }
        | Edit::Delete { .. }
        | Edit::Rename { .. }
        | Edit::Move { .. }
        | Edit::Remove { .. } => Ok(()),
    }
}

// Puts edits by numbers behind others.
fn resolve_onto(
    table: &mut Table,
    files: &[FilePart],
    inserted: &[Node],
    resolved: &mut Vec<ResolvedEdit>,
    context: &CommitContext,
    conditions: &[Node],
    edits: &[Edit],
) -> Result<(), Memory>
    requires rising { AreRising (map part_node files.now) }
    requires nodes { AllByRecursion (HasNodesIn table.old context.now.at) files.now }
    requires inserted { AreOfTable table.old inserted.now }
    requires each { length conditions.now ≡ length edits.now }
    requires conditions { AreOfTable table.old conditions.now }
    requires near { AreNear context.now.nodes edits.now }
    requires low { AreLow context.now.lines edits.now }
    requires few { HaveNumbers (record {
      nodes = context.now.nodes;
      lines = context.now.lines;
    }) edits.now }
    ensures extends { Extends table.old table.new }
    ensures resolved { OnOk result (resolved.old.items ≡ [] → AreResolvedWith inserted.now
        context.now files.now table.new conditions.now edits.now resolved.new.items) }
{
    let mut made = MadeBefore {
        nodes: context.nodes,
        lines: context.lines,
    };
    let mut behind = conditions;
    let mut ahead = edits;
    while let [edit, rest @ ..] = ahead {
        let [on, others @ ..] = behind else {
            unreachable!()
        };
        let next = resolve_edit(table, files, inserted, context, &mut made, *on, edit)?;
        resolved.push(next)?;
        behind = others;
        ahead = rest;
    }
    Ok(())
}

// An edit by numbers that applies where a node is true, and how many nodes and lines there are after it.
fn resolve_edit(
    table: &mut Table,
    files: &[FilePart],
    inserted: &[Node],
    context: &CommitContext,
    made: &mut MadeBefore,
    on: Node,
    edit: &Edit,
) -> Result<ResolvedEdit, Memory>
    requires rising { AreRising (map part_node files.now) }
    requires nodes { AllByRecursion (HasNodesIn table.old context.now.at) files.now }
    requires inserted { AreOfTable table.old inserted.now }
    requires on { on < diagram_size table.old }
    requires near { AreNear context.now.nodes (edit.now ∷ []) }
    requires low { AreLow context.now.lines (edit.now ∷ []) }
    requires few { HaveNumbers made.old (edit.now ∷ []) }
    ensures extends { Extends table.old table.new }
    ensures made { OnOk result (made.new ≡ made_after made.old edit.now) }
    ensures resolved { IfOk result (λ r.
        IsResolvedIn inserted.now context.now files.now table.new on made.old edit.now r) }
{
    match edit {
        Edit::New { kind, parent, name } => {
            made.nodes += 1;
            Ok(ResolvedEdit::New {
                node: NodeNo::new(made.nodes),
                kind: *kind,
                parent: node_number(context.nodes, parent),
                name: name.copy()?,
                on,
            })
        }
        Edit::Insert { file, after, text } => {
            made.lines += 1;
            Ok(ResolvedEdit::Insert {
                file: node_number(context.nodes, file),
                anchor: line_number(context.lines, after),
                line: LineNo::new(made.lines),
                text: text.copy()?,
                vis: on,
            })
        }
        Edit::Delete { file, line } => {
            let file = node_number(context.nodes, file);
            let line = line_number(context.lines, line);
            let old = line_node(files, inserted, context.lines, file, line);
            let vis = take(table, old, on)?;
            Ok(ResolvedEdit::Delete { file, line, vis })
        }
        Edit::Rename { node, name } => Ok(ResolvedEdit::Rename {
            node: node_number(context.nodes, node),
            name: name.copy()?,
            on,
        }),
        Edit::Move { node, parent } => Ok(ResolvedEdit::Move {
            node: node_number(context.nodes, node),
            parent: node_number(context.nodes, parent),
            on,
        }),
        Edit::Remove { node } => Ok(ResolvedEdit::Remove {
            node: node_number(context.nodes, node),
            on,
        }),
    }
}

// The node of a line before it is deleted, so many lines having been made before the commit: that of its insert if the
// commit inserts it, or else its newest one in its file.
fn line_node(files: &[FilePart], inserted: &[Node], before: u32, file: NodeNo, line: LineNo) -> Node
    requires rising { AreRising (map part_node files.now) }
    ensures { (p : ℕ) → AllByRecursion (λ e. e.lines.newest ≤ p) files.now → result ≡
        line_node p files.now before inserted.now file line }
{
    if line.number() > before {
        own_node(inserted, line.number() - before - 1)
    } else {
        old_node(files, file, line)
    }
}

// The node of an inserted line, FALSE where there are not so many.
fn own_node(inserted: &[Node], index: u32) -> Node
    ensures { result ≡ own_node inserted.now index }
{
    inserted.get(index as usize).copied().unwrap_or(FALSE)
}

// The newest node of a line in a file, FALSE where the file has no such line.
fn old_node(files: &[FilePart], file: NodeNo, line: LineNo) -> Node
    requires rising { AreRising (map part_node files.now) }
    ensures { (p : ℕ) → AllByRecursion (λ e. e.lines.newest ≤ p) files.now → result ≡
        old_node p files.now file line }
{
    match index_of(files, file) {
        Some(index) => files[index].lines.vis(line).unwrap_or(FALSE),
        None => FALSE,
    }
}
