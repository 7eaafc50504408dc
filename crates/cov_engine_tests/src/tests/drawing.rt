//! Edits that are drawn for a variant, and what variants show.
ghost use Rattle.std.specs.Prelude.{◌≡◌, ◌<◌, true, length, IfOk};
ghost use Rattle.cov_base.specs.Spelling.{is_line_text};
ghost use Rattle.cov_edit.specs.EditFits.{has_line_text};

use crate::tests::trees::old;
use cov_base::{Choice, Kind, LineNo, LineRef, Name, NodeRef, OptionId, Position, Text};
use cov_edit::{Edit, Edits, Sided};
use cov_engine::{Counts, Engine};
use cov_expr::{Expr, Part};
use cov_view::{View, digest};
use std::alloc::Global;
use std::test::Fail;

/// Numbers that look random, each from the one before.
#[derive(Drop)]
pub(crate) struct Draws {
    pub(crate) state: u64,
}

impl Draws {
    pub(crate) fn below(&mut self, limit: u32) -> u32
        requires { 0 < limit }
        ensures { result < limit }
    {
        self.state = self
            .state
            .wrapping_mul(6364136223846793005)
            .wrapping_add(1442695040888963407);
        let high = self.state >> 33;
        (high % u64::from(limit)) as u32
    }
}

fn drawn_node(counts: Counts, draws: &mut Draws) -> NodeRef {
    old(draws.below(counts.nodes.saturating_add(1)))
}

fn drawn_line(counts: Counts, draws: &mut Draws) -> LineRef {
    LineRef::Old(LineNo::new(draws.below(counts.lines.saturating_add(1))))
}

// The head of a file, or a line.
fn drawn_anchor(counts: Counts, draws: &mut Draws) -> LineRef {
    match draws.below(2) {
        0 => LineRef::Old(LineNo::new(0)),
        _ => drawn_line(counts, draws),
    }
}

fn drawn_name(alloc: Global, draws: &mut Draws) -> Result<Name, Fail> {
    let names = b"abcdef";
    let at = draws.below(6) as usize;
    Ok(Name::read(alloc, &names[at..at + 1])?)
}

fn text_of(draw: u32) -> &'static [u8]
    ensures { is_line_text result.now ≡ true }
{
    match draw {
        0 => b"one",
        1 => b"two",
        2 => b"three",
        _ => b"four",
    }
}

fn drawn_insert(alloc: Global, counts: Counts, draws: &mut Draws) -> Result<Edit, Fail>
    ensures { IfOk result (λ edit. has_line_text edit ≡ true) }
{
    let file = drawn_node(counts, draws);
    let after = drawn_anchor(counts, draws);
    let text = Text::from_slice(alloc, text_of(draws.below(4)))?;
    Ok(Edit::Insert { file, after, text })
}

fn drawn_new(alloc: Global, counts: Counts, draws: &mut Draws) -> Result<Edit, Fail>
    ensures { IfOk result (λ edit. has_line_text edit ≡ true) }
{
    let kind = match draws.below(2) {
        0 => Kind::File,
        _ => Kind::Dir,
    };
    let parent = drawn_node(counts, draws);
    let name = drawn_name(alloc, draws)?;
    Ok(Edit::New { kind, parent, name })
}

fn drawn_rename(alloc: Global, counts: Counts, draws: &mut Draws) -> Result<Edit, Fail>
    ensures { IfOk result (λ edit. has_line_text edit ≡ true) }
{
    let node = drawn_node(counts, draws);
    let name = drawn_name(alloc, draws)?;
    Ok(Edit::Rename { node, name })
}

fn drawn_edit(alloc: Global, counts: Counts, draws: &mut Draws) -> Result<Edit, Fail>
    ensures { IfOk result (λ edit. has_line_text edit ≡ true) }
{
    match draws.below(12) {
        0 | 1 => drawn_new(alloc, counts, draws),
        2 => drawn_rename(alloc, counts, draws),
        3 => Ok(Edit::Move {
            node: drawn_node(counts, draws),
            parent: drawn_node(counts, draws),
        }),
        4 => Ok(Edit::Remove {
            node: drawn_node(counts, draws),
        }),
        5 | 6 => Ok(Edit::Delete {
            file: drawn_node(counts, draws),
            line: drawn_line(counts, draws),
        }),
        _ => drawn_insert(alloc, counts, draws),
    }
}

// Whether a view takes an edit. Few enough are tried on one that it never has too many nodes or lines.
fn takes(view: &mut View, edit: &Edit) -> bool {
    if view.nodes_made() > 99 || view.lines_made() > 99 {
        return false;
    }
    view.apply(edit).is_ok()
}

/// An option, or not it, as a choice has it.
pub(crate) fn literal(alloc: Global, choice: Choice, option: u8) -> Result<Part, Fail>
    requires { option < length choice }
{
    let option = OptionId::new(option);
    if choice.get(option) {
        return Ok(Part::Option(option));
    }
    let part = Box::new(alloc, Part::Option(option))?;
    Ok(Part::Not(part))
}

// `True`, or in one case of four an option or not it, as a choice has it.
fn drawn_side(alloc: Global, choice: Choice, draws: &mut Draws) -> Result<Part, Fail>
    requires { 0 < length choice }
{
    match draws.below(4) {
        0 => {
            let option = draws.below(u32::from(choice.count()));
            literal(alloc, choice, option as u8)
        }
        _ => Ok(Part::True),
    }
}

// Adds an edit with a side that is true on a choice.
fn push_edit(
    alloc: Global,
    choice: Choice,
    draws: &mut Draws,
    edits: &mut Edits,
    edit: Edit,
) -> Result<(), Fail>
    requires text { has_line_text edit ≡ true }
    requires some { 0 < length choice }
{
    let side = Expr::new(drawn_side(alloc, choice, draws)?)?;
    edits.push(Sided { side, edit })?;
    Ok(())
}

fn drop_edit(_: Edit) {}

// Adds an edit, if the view of a choice takes it.
fn add_edit(
    alloc: Global,
    view: &mut View,
    choice: Choice,
    counts: Counts,
    draws: &mut Draws,
    edits: &mut Edits,
) -> Result<(), Fail>
    requires { 0 < length choice }
{
    let edit = drawn_edit(alloc, counts, draws)?;
    if takes(view, &edit) {
        return push_edit(alloc, choice, draws, edits, edit);
    }
    drop_edit(edit);
    Ok(())
}

fn add_edits(
    alloc: Global,
    view: &mut View,
    choice: Choice,
    counts: Counts,
    draws: &mut Draws,
    edits: &mut Edits,
) -> Result<(), Fail>
    requires { 0 < length choice }
{
    'edits: for _ in 0..12 {
        add_edit(alloc, view, choice, counts, draws, edits)?;
    }
    Ok(())
}

pub(crate) fn close_view(_: View) {}

/// What is drawn for the variant of a choice at a position.
pub(crate) fn drawn_edits(
    alloc: Global,
    engine: &Engine,
    choice: Choice,
    at: Position,
    draws: &mut Draws,
    edits: &mut Edits,
) -> Result<(), Fail>
    requires { 0 < length choice }
{
    let mut view = Engine::view(engine.visible(), choice, at)?;
    let added = add_edits(alloc, &mut view, choice, engine.counts(), draws, edits);
    close_view(view);
    added
}

fn digest_of_view(view: &View) -> Result<[u8; 32], Fail> {
    let tree = view.tree()?;
    Ok(digest(&tree))
}

/// The tree of a choice at a position, by its digest.
pub(crate) fn digest_at(engine: &Engine, choice: Choice, at: Position) -> Result<[u8; 32], Fail> {
    let view = Engine::view(engine.visible(), choice, at)?;
    let digest = digest_of_view(&view);
    close_view(view);
    digest
}
