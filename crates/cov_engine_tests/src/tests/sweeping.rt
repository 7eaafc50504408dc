//! What sweeps leave of the nodes that an engine keeps, and that all it tells stays.
ghost use Rattle.std.specs.Prelude.{◌≡◌, ◌<◌, [], length};

use crate::tests::drawing::{Draws, digest_at, drawn_edits, literal};
use crate::tests::lines::{insert, insertion, shown};
use crate::tests::steps::{append, close, commit, declare_d};
use crate::tests::trees::{also, declare, making, one};
use cov_base::{Choice, Kind, LineNo, Memory, NodeNo, NodeRef, OptionId, Position};
use cov_dd::{FALSE, Node, Nodes, TRUE, Table};
use cov_edit::{Command, Edits};
use cov_engine::{Engine, Refusal};
use cov_expr::{Expr, Part, Partial};
use cov_vis::Listing;
use std::alloc::Global;
use std::process::Abort;
use std::test::Fail;

/// How many commits are tried.
const COMMITS: u32 = 1_000;

/// How many commands come before the first commit.
const DECLARATIONS: u32 = 12;

// The file m with a line.
fn file_with_one(alloc: Global) -> Result<Edits, Fail> {
    let line = insertion(alloc, NodeRef::New(0), 0, b"one")?;
    let file = making(alloc, Kind::File, 0, b"m")?;
    also(one(alloc, file)?, line)
}

// Those without d.
fn without_d(alloc: Global) -> Result<Expr, Fail> {
    let d = Box::new(alloc, Part::Option(OptionId::new(0)))?;
    Ok(Expr::new(Part::Not(d))?)
}

// A line more for those without d, on the base of the one for those with d.
fn line_without_d(alloc: Global) -> Result<Command, Fail> {
    let edit = insertion(alloc, NodeRef::Old(NodeNo::new(1)), 1, b"no")?;
    let edits = one(alloc, edit)?;
    let ambition = without_d(alloc)?;
    Ok(Command::Commit {
        base: Position::new(2),
        choice: Choice::new(0, 1),
        ambition,
        edits,
    })
}

// A line for all variants, one for those with d and one for those without it.
fn insert_three(alloc: Global, engine: &mut Engine) -> Result<(), Fail>
    requires { engine.old.history ≡ [] }
{
    declare_d(alloc, engine)?;
    let edits = file_with_one(alloc)?;
    commit(engine, 1, Choice::new(1, 1), None, edits)?;
    let with_d = Some(OptionId::new(0));
    insert(alloc, engine, 2, Choice::new(1, 1), with_d, 1, b"yes")?;
    let command = line_without_d(alloc)?;
    append(engine, command)?;
    Ok(())
}

// The nodes that are kept.
fn kept(alloc: Global, engine: &Engine) -> Result<Nodes, Memory> {
    let mut nodes = Nodes::new(alloc);
    engine.nodes(&mut nodes)?;
    Ok(nodes)
}

// Whether the visibility of a line is among nodes.
fn has_line(nodes: &Nodes, engine: &Engine, line: u32) -> bool {
    match engine.vis(LineNo::new(line)) {
        Some(vis) => nodes.as_slice().contains(&vis),
        None => false,
    }
}

fn check_lines(rt: &impl Abort, alloc: Global, engine: &mut Engine) -> Result<(), Fail>
    requires { engine.old.history ≡ [] }
{
    insert_three(alloc, engine)?;
    engine.sweep()?;
    let nodes = kept(alloc, engine)?;
    assert!(rt; has_line(&nodes, engine, 1));
    assert!(rt; has_line(&nodes, engine, 2));
    assert!(rt; has_line(&nodes, engine, 3));
    assert!(rt; shown(engine, 1) == Some((true, true)));
    assert!(rt; shown(engine, 2) == Some((false, true)));
    assert!(rt; shown(engine, 3) == Some((true, false)));
    Ok(())
}

#[test]
fn a_sweep_keeps_the_visibilities_of_lines(rt: HostRuntime) -> Result<(), Fail> {
    let mut engine = Engine::new(rt.alloc())?;
    let checked = check_lines(&rt, rt.alloc(), &mut engine);
    close(engine);
    checked
}

// a and not a.
fn contradiction(alloc: Global) -> Result<Expr, Fail> {
    let other = Box::new(alloc, Part::Option(OptionId::new(0)))?;
    let not_a = Box::new(alloc, Part::Not(other))?;
    let a = Box::new(alloc, Part::Option(OptionId::new(0)))?;
    Ok(Expr::new(Part::And(a, not_a))?)
}

fn is_constant(node: Node) -> bool {
    node == FALSE || node == TRUE
}

// The nodes of a constraint that is refused are no longer in the table.
fn check_refused(rt: &impl Abort, alloc: Global, engine: &mut Engine) -> Result<(), Fail> {
    declare(alloc, engine, b"a")?;
    let expr = contradiction(alloc)?;
    let refused = engine.append(Command::Constraint { expr });
    assert!(rt; matches!(refused, Err(Refusal::NoVariantLeft)));
    engine.sweep()?;
    let nodes = kept(alloc, engine)?;
    assert!(rt; nodes.as_slice().iter().all(|node| is_constant(*node)));
    assert!(rt; engine.table().entry(2).is_none());
    Ok(())
}

#[test]
fn a_sweep_leaves_nothing_of_what_was_refused(rt: HostRuntime) -> Result<(), Fail> {
    let mut engine = Engine::new(rt.alloc())?;
    let checked = check_refused(&rt, rt.alloc(), &mut engine);
    close(engine);
    checked
}

// Two literals that a choice of five options has.
fn two_literals(
    alloc: Global,
    choice: Choice,
    draws: &mut Draws,
) -> Result<(Box<Part>, Box<Part>), Fail>
    requires { length choice ≡ 5 }
{
    let first = literal(alloc, choice, draws.below(5) as u8)?;
    let first = Box::new(alloc, first)?;
    let second = literal(alloc, choice, draws.below(5) as u8)?;
    let second = Box::new(alloc, second)?;
    Ok((first, second))
}

// What has both of two literals.
fn both(alloc: Global, choice: Choice, draws: &mut Draws) -> Result<Expr, Fail>
    requires { length choice ≡ 5 }
{
    let (first, second) = two_literals(alloc, choice, draws)?;
    Ok(Expr::new(Part::And(first, second))?)
}

// What has one of two literals.
fn either(alloc: Global, choice: Choice, draws: &mut Draws) -> Result<Expr, Fail>
    requires { length choice ≡ 5 }
{
    let (first, second) = two_literals(alloc, choice, draws)?;
    Ok(Expr::new(Part::Or(first, second))?)
}

// An ambition that is true on a choice of five options.
fn drawn_ambition(alloc: Global, choice: Choice, draws: &mut Draws) -> Result<Expr, Fail>
    requires { length choice ≡ 5 }
{
    match draws.below(3) {
        0 => both(alloc, choice, draws),
        1 => either(alloc, choice, draws),
        _ => Ok(Expr::new(Part::True)?),
    }
}

fn drawn_choice(draws: &mut Draws) -> Choice
    ensures { length result ≡ 5 }
{
    Choice::new(u128::from(draws.below(32)), 5)
}

// Now, or in one case of four one of the last four positions, behind the declarations.
fn drawn_base(now: Position, draws: &mut Draws) -> Position {
    match draws.below(4) {
        0 => earlier(now, draws.below(4)),
        _ => now,
    }
}

fn earlier(now: Position, count: u32) -> Position {
    let base = now.number().saturating_sub(count);
    Position::new(base.max(DECLARATIONS))
}

// A commit that is drawn for the variant of a choice.
fn drawn_commit(alloc: Global, engine: &Engine, draws: &mut Draws) -> Result<Command, Fail> {
    let choice = drawn_choice(draws);
    let base = drawn_base(engine.position(), draws);
    let ambition = drawn_ambition(alloc, choice, draws)?;
    let mut edits = Edits::new(alloc);
    drawn_edits(alloc, engine, choice, base, draws, &mut edits)?;
    Ok(Command::Commit {
        base,
        choice,
        ambition,
        edits,
    })
}

// What is answered to a command, as it is printed.
fn answer(alloc: Global, engine: &mut Engine, command: Command) -> Result<String, Fail> {
    match engine.append(command) {
        Ok(receipt) => Ok(format!(in alloc; "{receipt:?}")?),
        Err(refusal) => Ok(format!(in alloc; "{refusal:?}")?),
    }
}

// Commits what is drawn by the numbers from one on, and tells what is answered.
fn commit_drawn(alloc: Global, engine: &mut Engine, state: u64) -> Result<String, Fail> {
    let command = drawn_commit(alloc, engine, &mut Draws { state })?;
    answer(alloc, engine, command)
}

// Commits what is drawn by the same numbers for each of two engines, which answer the same.
fn commit_to_both(
    rt: &impl Abort,
    alloc: Global,
    plain: &mut Engine,
    swept: &mut Engine,
    draws: &mut Draws,
) -> Result<(), Fail> {
    let state = u64::from(draws.below(1_000_000_000));
    let first = commit_drawn(alloc, plain, state)?;
    let second = commit_drawn(alloc, swept, state)?;
    assert_eq!(rt; first, second);
    Ok(())
}

// Sweeps at one draw of eight.
fn sweep_by_chance(engine: &mut Engine, draws: &mut Draws) -> Result<(), Memory> {
    match draws.below(8) {
        0 => engine.sweep(),
        _ => Ok(()),
    }
}

// The trees of a choice at a position are the same.
fn check_views(
    rt: &impl Abort,
    plain: &Engine,
    swept: &Engine,
    choice: Choice,
    at: u32,
) -> Result<(), Fail> {
    let first = digest_at(plain, choice, Position::new(at))?;
    let second = digest_at(swept, choice, Position::new(at))?;
    assert!(rt; first == second);
    Ok(())
}

fn are_alike(first: &Listing, second: &Listing) -> bool {
    first.root() == second.root() && first.entries().as_slice() == second.entries().as_slice()
}

fn presence(engine: &Engine, line: u32) -> Result<Listing, Fail> {
    match engine.presence(LineNo::new(line)) {
        Ok(listing) => Ok(listing),
        Err(_) => Err(Fail::from("there is no such line")),
    }
}

// A line is present on the same choices.
fn check_presence(rt: &impl Abort, plain: &Engine, swept: &Engine, line: u32) -> Result<(), Fail> {
    let first = presence(plain, line)?;
    let second = presence(swept, line)?;
    assert!(rt; are_alike(&first, &second));
    Ok(())
}

// The completion of a choice that binds nothing, as it is printed.
fn completed(alloc: Global, engine: &mut Engine) -> Result<String, Fail> {
    let partial = Partial::of(alloc, Choice::new(0, 0))?;
    let completed = engine.complete(&partial);
    Ok(format!(in alloc; "{completed:?}")?)
}

fn check_completion(
    rt: &impl Abort,
    alloc: Global,
    plain: &mut Engine,
    swept: &mut Engine,
) -> Result<(), Fail> {
    let first = completed(alloc, plain)?;
    let second = completed(alloc, swept)?;
    assert_eq!(rt; first, second);
    Ok(())
}

// A drawn line, if there is one, is present on the same choices.
fn check_line(
    rt: &impl Abort,
    plain: &Engine,
    swept: &Engine,
    draws: &mut Draws,
) -> Result<(), Fail> {
    match plain.counts().lines {
        0 => Ok(()),
        lines => check_presence(rt, plain, swept, draws.below(lines) + 1),
    }
}

// Two engines tell the same of what is drawn.
fn check_alike(
    rt: &impl Abort,
    alloc: Global,
    plain: &mut Engine,
    swept: &mut Engine,
    draws: &mut Draws,
) -> Result<(), Fail> {
    let now = plain.position().number();
    let choice = drawn_choice(draws);
    check_views(rt, plain, swept, choice, now)?;
    check_views(rt, plain, swept, choice, draws.below(now.saturating_add(1)))?;
    check_completion(rt, alloc, plain, swept)?;
    check_line(rt, plain, swept, draws)
}

fn grow(
    rt: &impl Abort,
    alloc: Global,
    plain: &mut Engine,
    swept: &mut Engine,
    draws: &mut Draws,
) -> Result<(), Fail> {
    'commits: for _ in 0..COMMITS {
        commit_to_both(rt, alloc, plain, swept, draws)?;
        sweep_by_chance(swept, draws)?;
        check_alike(rt, alloc, plain, swept, draws)?;
    }
    Ok(())
}

// One of two options.
fn one_of(alloc: Global, first: u8, second: u8) -> Result<Expr, Fail>
    requires first { first < 5 }
    requires second { second < 5 }
{
    let first = Box::new(alloc, Part::Option(OptionId::new(first)))?;
    let second = Box::new(alloc, Part::Option(OptionId::new(second)))?;
    Ok(Expr::new(Part::Or(first, second))?)
}

// Five options, a constraint, a preference and a default for each option.
fn declare_all(alloc: Global, engine: &mut Engine) -> Result<(), Fail> {
    'options: for name in b"pqrst" {
        declare(alloc, engine, &[*name])?;
    }
    let expr = one_of(alloc, 0, 1)?;
    append(engine, Command::Constraint { expr })?;
    let expr = one_of(alloc, 2, 4)?;
    append(engine, Command::Prefer { expr })?;
    'defaults: for number in 0..5u32 {
        let option = OptionId::new(number as u8);
        append(engine, Command::Default { option, on: false })?;
    }
    Ok(())
}

// The first number above TRUE that names no node.
fn nodes_in(table: &Table) -> u32 {
    'nodes: for node in 2..1_000_000u32 {
        if table.entry(Node::from(node)).is_none() {
            return node;
        }
    }
    1_000_000
}

// Each choice shows the same now.
fn check_all_views(rt: &impl Abort, plain: &Engine, swept: &Engine) -> Result<(), Fail> {
    let now = plain.position().number();
    'choices: for bits in 0..32u32 {
        check_views(rt, plain, swept, Choice::new(u128::from(bits), 5), now)?;
    }
    Ok(())
}

fn check_all_lines(rt: &impl Abort, plain: &Engine, swept: &Engine) -> Result<(), Fail> {
    'lines: for line in 0..plain.counts().lines {
        check_presence(rt, plain, swept, line + 1)?;
    }
    Ok(())
}

fn check_random(
    rt: &impl Abort,
    alloc: Global,
    plain: &mut Engine,
    swept: &mut Engine,
) -> Result<(), Fail> {
    declare_all(alloc, plain)?;
    declare_all(alloc, swept)?;
    grow(rt, alloc, plain, swept, &mut Draws { state: 1 })?;
    swept.sweep()?;
    assert_eq!(rt; plain.counts(), swept.counts());
    assert!(rt; plain.counts().lines > 50);
    assert!(rt; nodes_in(swept.table()) < nodes_in(plain.table()));
    check_all_views(rt, plain, swept)?;
    check_all_lines(rt, plain, swept)
}

// Does all to an engine and to another one, which is swept now and then.
fn check_beside(rt: &impl Abort, alloc: Global, plain: &mut Engine) -> Result<(), Fail> {
    let mut swept = Engine::new(alloc)?;
    let checked = check_random(rt, alloc, plain, &mut swept);
    close(swept);
    checked
}

#[test]
fn an_engine_tells_the_same_after_sweeps(rt: HostRuntime) -> Result<(), Fail> {
    let mut plain = Engine::new(rt.alloc())?;
    let checked = check_beside(&rt, rt.alloc(), &mut plain);
    close(plain);
    checked
}
