//! Diagrams and the visibilities that expressions have as nodes of them.
use cov_base::{Choice, Counted, OptionId, Steps, Uncounted};
use cov_dd::{FALSE, Node, Nodes, TRUE, Table};
use cov_expr::{Expr, Part};
use cov_vis::{add, compile, take};
use std::alloc::Global;
use std::process::Abort;
use std::test::Fail;

// The choices of three options in their order: option 0 slowest, off before on.
fn choice_at(place: u8) -> Choice {
    Choice::new(
        u128::from((place / 4 % 2 + place / 2 % 2 * 2 + place % 2 * 4) % 8),
        3,
    )
}

// The values of a node on all choices of three options, the first in the highest bit.
fn values(table: &Table, node: Node) -> u8 {
    let mut values = 0;
    for place in 0u8..8 {
        if table.value(node, choice_at(place)) {
            values |= 128 >> place;
        }
    }
    values
}

// A node has these values.
fn lists(rt: &impl Abort, table: &Table, node: Node, wanted: u8) {
    assert!(rt; values(table, node) == wanted);
}

// Lends a check a table in which no node was made yet.
fn with_table<F: FnOnce(&mut Table) -> Result<(), Fail>>(
    alloc: Global,
    check: F,
) -> Result<(), Fail>
    requires { F.IsAlwaysCallable check }
{
    let mut table = Table::new(alloc)?;
    let checked = check(&mut table);
    drop(table);
    checked
}

fn check_values(rt: &impl Abort, table: &mut Table) -> Result<(), Fail> {
    let a = table.literal(OptionId::new(0))?;
    let b = table.literal(OptionId::new(1))?;
    let d = table.literal(OptionId::new(2))?;
    lists(rt, table, b, 0b0011_0011);
    let a_or_b = table.or(a, b)?;
    lists(rt, table, a_or_b, 0b0011_1111);
    let none = table.not(a_or_b)?;
    lists(rt, table, none, 0b1100_0000);
    let two = table.and(a_or_b, d, &mut Steps::<Uncounted>::new())?;
    lists(rt, table, two, 0b0001_0101);
    let alone = table.without(d, a)?;
    lists(rt, table, alone, 0b0101_0000);
    Ok(())
}

#[test]
fn values_on_all_choices(rt: HostRuntime) -> Result<(), Fail> {
    with_table(rt.alloc(), |table| check_values(&rt, table))
}

// Not both of two options is the same as either of them not.
fn check_either(rt: &impl Abort, table: &mut Table) -> Result<(), Fail> {
    let a = table.literal(OptionId::new(0))?;
    let b = table.literal(OptionId::new(1))?;
    let both = table.and(a, b, &mut Steps::<Uncounted>::new())?;
    let not_both = table.not(both)?;
    let not_a = table.not(a)?;
    let not_b = table.not(b)?;
    let either = table.or(not_a, not_b)?;
    assert!(rt; either == not_both);
    Ok(())
}

// An option and not is never, in one step.
fn check_never(rt: &impl Abort, table: &mut Table) -> Result<(), Fail> {
    let a = table.literal(OptionId::new(0))?;
    let not_a = table.not(a)?;
    let mut steps = Steps::<Counted>::new();
    let never = table.and(a, not_a, &mut steps)?;
    assert!(rt; never == FALSE);
    assert!(rt; steps.ticks() == 1);
    Ok(())
}

fn check_nodes(rt: &impl Abort, table: &mut Table) -> Result<(), Fail> {
    check_either(rt, table)?;
    check_never(rt, table)
}

#[test]
fn equal_functions_are_equal_nodes(rt: HostRuntime) -> Result<(), Fail> {
    with_table(rt.alloc(), |table| check_nodes(&rt, table))
}

// The first choice on which an option is on and the next one isn't.
fn check_least(rt: &impl Abort, table: &mut Table) -> Result<(), Fail> {
    let a = table.literal(OptionId::new(0))?;
    let b = table.literal(OptionId::new(1))?;
    let not_b = table.not(b)?;
    let alone = table.and(a, not_b, &mut Steps::<Uncounted>::new())?;
    match table.least(alone, 2) {
        Some(choice) => {
            assert_eq!(rt; choice.count(), 2);
            assert!(rt; choice.get(OptionId::new(0)));
            assert!(rt; !choice.get(OptionId::new(1)));
        }
        None => return Err(Fail::from("no choice")),
    }
    Ok(())
}

#[test]
fn the_first_choice_of_a_node(rt: HostRuntime) -> Result<(), Fail> {
    with_table(rt.alloc(), |table| check_least(&rt, table))
}

// The second of two conjunctions of the same nodes is kept from the first.
fn check_kept(rt: &impl Abort, table: &mut Table) -> Result<(), Fail> {
    let a = table.literal(OptionId::new(0))?;
    let b = table.literal(OptionId::new(1))?;
    let mut steps = Steps::<Counted>::new();
    let first = table.and(a, b, &mut steps)?;
    let ticks = steps.ticks();
    let second = table.and(a, b, &mut steps)?;
    assert!(rt; ticks > 0);
    assert!(rt; second == first);
    assert!(rt; steps.ticks() == ticks);
    Ok(())
}

#[test]
fn a_conjunction_is_kept(rt: HostRuntime) -> Result<(), Fail> {
    with_table(rt.alloc(), |table| check_kept(&rt, table))
}

// A sweep with `a | b` and FALSE as the roots leaves `b` and `a | b`, and a conjunction from before it isn't taken for one of now.
fn check_swept(rt: &impl Abort, alloc: Global, table: &mut Table) -> Result<(), Fail> {
    let a = table.literal(OptionId::new(0))?;
    let b = table.literal(OptionId::new(1))?;
    let both = table.and(a, b, &mut Steps::<Uncounted>::new())?;
    let either = table.or(a, b)?;
    let mut roots = Nodes::new(alloc);
    roots.push(either)?;
    roots.push(FALSE)?;
    table.sweep(&mut roots)?;
    lists(rt, table, roots.get(0).unwrap_or(FALSE), 0b0011_1111);
    assert!(rt; roots.get(1) == Some(FALSE));
    assert!(rt; roots.len() == 2);
    assert!(rt; table.entry(3).is_some());
    assert!(rt; table.entry(4).is_none());
    let b = table.literal(OptionId::new(1))?;
    assert!(rt; b == 2);
    let a = table.literal(OptionId::new(0))?;
    let again = table.and(a, b, &mut Steps::<Uncounted>::new())?;
    lists(rt, table, again, 0b0000_0011);
    roots.cut(1);
    assert!(rt; roots.len() == 1);
    assert!(rt; both > TRUE);
    Ok(())
}

#[test]
fn a_sweep_keeps_the_roots(rt: HostRuntime) -> Result<(), Fail> {
    with_table(rt.alloc(), |table| check_swept(&rt, rt.alloc(), table))
}

// A sweep with `a | b` as the one root leaves its values as they are.
fn check_one_root(rt: &impl Abort, alloc: Global, table: &mut Table) -> Result<(), Fail> {
    let a = table.literal(OptionId::new(0))?;
    let b = table.literal(OptionId::new(1))?;
    let either = table.or(a, b)?;
    let mut roots = Nodes::new(alloc);
    roots.push(either)?;
    table.sweep(&mut roots)?;
    assert!(rt; roots.len() == 1);
    lists(rt, table, roots.get(0).unwrap_or(FALSE), 0b0011_1111);
    Ok(())
}

#[test]
fn a_root_keeps_its_values(rt: HostRuntime) -> Result<(), Fail> {
    with_table(rt.alloc(), |table| check_one_root(&rt, rt.alloc(), table))
}

// !a & b
fn expression(alloc: Global) -> Result<Expr, Fail> {
    let a = Box::new(alloc, Part::Option(OptionId::new(0)))?;
    let not_a = Box::new(alloc, Part::Not(a))?;
    let b = Box::new(alloc, Part::Option(OptionId::new(1)))?;
    Ok(Expr::new(Part::And(not_a, b))?)
}

fn check_expression(rt: &impl Abort, alloc: Global, table: &mut Table) -> Result<(), Fail> {
    let expr = expression(alloc)?;
    let node = compile(table, &expr);
    drop(expr);
    lists(rt, table, node?, 0b0011_0000);
    Ok(())
}

#[test]
fn an_expression_has_its_values(rt: HostRuntime) -> Result<(), Fail> {
    with_table(rt.alloc(), |table| check_expression(&rt, rt.alloc(), table))
}

fn check_ambitions(rt: &impl Abort, table: &mut Table) -> Result<(), Fail> {
    let a = table.literal(OptionId::new(0))?;
    let b = table.literal(OptionId::new(1))?;
    let put_in = add(table, FALSE, a)?;
    lists(rt, table, put_in, 0b0000_1111);
    let again = add(table, put_in, b)?;
    lists(rt, table, again, 0b0011_1111);
    let taken_out = take(table, again, b)?;
    lists(rt, table, taken_out, 0b0000_1100);
    Ok(())
}

#[test]
fn put_in_and_taken_out(rt: HostRuntime) -> Result<(), Fail> {
    with_table(rt.alloc(), |table| check_ambitions(&rt, table))
}
