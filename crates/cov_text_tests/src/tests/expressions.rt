//! Expressions from their texts and back.
ghost use Rattle.std.specs.Prelude.{◌≤◌, length};
ghost use Rattle.cov_expr.specs.Formula.{reach};

use crate::tests::naming::{declare, declare_two, with_options};
use crate::tests::printing::come_to;
use cov_base::{Choice, Text};
use cov_expr::{Expr, Options, RawExpr, parse};
use std::alloc::Global;
use std::process::Abort;
use std::test::Fail;

// Texts, each with its values on the eight choices of three options, that on the choice with the bits i at bit i.
const VALUES: [(&str, u8); 20] = [
    ("a", 170),
    ("!a", 85),
    ("a & b", 136),
    ("a | b", 238),
    ("a & b | c", 248),
    ("a | b & c", 234),
    ("(a | b) & c", 224),
    ("a & (b | c)", 168),
    ("!a & b", 68),
    ("!(a & b)", 119),
    ("!!c", 240),
    ("a & b & c", 128),
    ("a | b | c", 254),
    ("a & !b | !a & b", 102),
    ("!(a | b) & !c", 1),
    ("true", 255),
    ("false", 0),
    ("true & b | false", 204),
    ("a&!a|b&!b|c", 240),
    ("!a|b&!c", 93),
];

// Texts, each with that of its expression.
const PRINTED: [(&str, &str); 5] = [
    ("a&(b|c)", "a & (b | c)"),
    ("((a))", "a"),
    ("a & b & c", "a & b & c"),
    ("a & (b & c)", "a & (b & c)"),
    ("! !a | false", "!!a | false"),
];

fn raw(alloc: Global, text: &str) -> Result<RawExpr, Fail> {
    if text.len() > 64 {
        return Err(Fail::from("a long text"));
    }
    Ok(parse(alloc, text.as_bytes())?)
}

fn values_of(expr: &Expr) -> u8
    requires { reach expr.now ≤ 3 }
{
    let mut values = 0;
    for bits in 0u8..8 {
        if expr.value(Choice::new(u128::from(bits), 3)) {
            values |= 1 << bits;
        }
    }
    values
}

// The values of an expression that isn't bound yet.
fn raw_values(alloc: Global, options: &Options, raw: &RawExpr) -> Result<u8, Fail> {
    if options.count() != 3 {
        return Err(Fail::from("other options than three"));
    }
    let expr = raw.bind(alloc, options)?;
    let values = values_of(&expr);
    drop(expr);
    Ok(values)
}

fn text_values(alloc: Global, options: &Options, text: &str) -> Result<u8, Fail> {
    let raw = raw(alloc, text)?;
    let values = raw_values(alloc, options, &raw);
    drop(raw);
    values
}

// The text of an expression's copy.
fn copied_text(alloc: Global, options: &Options, expr: &Expr) -> Result<Text, Fail>
    requires { reach expr.now ≤ length options.now.names }
{
    let copy = expr.copy(alloc)?;
    let text = copy.print(alloc, options);
    drop(copy);
    Ok(text?)
}

fn raw_text(alloc: Global, options: &Options, raw: &RawExpr) -> Result<Text, Fail> {
    let expr = raw.bind(alloc, options)?;
    let text = copied_text(alloc, options, &expr);
    drop(expr);
    text
}

fn printed(alloc: Global, options: &Options, text: &str) -> Result<Text, Fail> {
    let raw = raw(alloc, text)?;
    let text = raw_text(alloc, options, &raw);
    drop(raw);
    text
}

fn has_values(rt: &impl Abort, text: &str, found: u8, wanted: u8) {
    assert!(rt; found == wanted, "of {text}");
}

fn check_values(rt: &impl Abort, alloc: Global, options: &Options) -> Result<(), Fail> {
    for (text, wanted) in &VALUES {
        has_values(rt, text, text_values(alloc, options, text)?, *wanted);
    }
    Ok(())
}

fn check(rt: &impl Abort, alloc: Global, options: &mut Options) -> Result<(), Fail> {
    declare_two(alloc, options)?;
    declare(alloc, options, b"c")?;
    check_values(rt, alloc, options)?;
    come_to(rt, &PRINTED, |text| printed(alloc, options, text))
}

#[test]
fn texts_have_values_and_are_printed(rt: HostRuntime) -> Result<(), Fail> {
    with_options(rt.alloc(), |options| check(&rt, rt.alloc(), options))
}
