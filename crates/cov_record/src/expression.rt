// Expressions at the front of bytes, read without recursion: the parts in order, and then from the last.
ghost use Rattle.std.specs.Prelude.{◌≡◌, ◌≤◌, ◌<◌, ◌+◌, [], OnOk, OnErr, IfOk, IfSome, IsErrOf, reverse, Option, Some, None, List, ℕ};
ghost use Rattle.cov_base.specs.declared.limits.TheConstants.{MOST_PARTS};
ghost use Rattle.cov_expr.specs.Formula.{Formula, Not, And, Or, part_count};
ghost use Rattle.cov_record.specs.Reading.{Takes, Gives, EndsParts, front_named, front_sign, front_forest, front_expression, width, taken, pushed, first};

use crate::ahead::Ahead;
use crate::fault::{Fault, NotARecord};
use cov_base::{CHOICE_WIDTH, MOST_PARTS, Memory, MemoryOr, OptionId};
use cov_expr::{Expr, Part};
use std::alloc::Global;
use std::marker::Model;

/// A part of an expression, without those that it stands over.
#[derive(Drop)]
pub(crate) enum Sign {
    Never,
    Always,
    Named(OptionId),
    Negates,
    Joins,
    Chooses,
}

// How many expressions the part stands over.
fn width(sign: &Sign) -> u32
    ensures width { result ≡ width sign.now }
    ensures most { result ≤ 2 }
{
    match sign {
        Sign::Never | Sign::Always | Sign::Named(_) => 0,
        Sign::Negates => 1,
        Sign::Joins | Sign::Chooses => 2,
    }
}

pub(crate) fn take_sign(ahead: &mut Ahead<'_>) -> Option<Sign>
    ensures { Takes (front_sign ahead.old) result ahead.new }
{
    match ahead.take_u8()? {
        0 => Some(Sign::Never),
        1 => Some(Sign::Always),
        2 => take_named(ahead),
        3 => Some(Sign::Negates),
        4 => Some(Sign::Joins),
        5 => Some(Sign::Chooses),
        _ => None,
    }
}

fn take_named(ahead: &mut Ahead<'_>) -> Option<Sign>
    ensures { Takes (front_named ahead.old) result ahead.new }
{
    let number = ahead.take_u8()?;
    if number >= CHOICE_WIDTH {
        return None;
    }
    Some(Sign::Named(OptionId::new(number)))
}

// The parts of one expression in order.
fn take_signs(ahead: &mut Ahead<'_>, signs: &mut Vec<Sign>) -> Option<Fault>
    requires { signs.old.items ≡ [] }
    ensures { EndsParts (front_forest MOST_PARTS 1 ahead.old) signs.new.items result ahead.new }
{
    let mut room = MOST_PARTS;
    let mut need = 1;
    'signs: while need > 0 {
        if room == 0 {
            return Some(MemoryOr::Refused(NotARecord));
        }
        let Some(sign) = take_sign(ahead) else {
            return Some(MemoryOr::Refused(NotARecord));
        };
        let more = width(&sign);
        match signs.push(sign) {
            Ok(_) => {}
            Err(_) => return Some(MemoryOr::Memory),
        }
        room -= 1;
        need = need - 1 + more;
    }
    None
}

/// An expression of any size.
#[derive(Drop)]
pub(crate) struct Tree {
    part: Part,
}

impl Model for Tree {
    ghost use Rattle.std.specs.Prelude.{ℕ};
    ghost use Rattle.std.specs.Coded.{coded_ℕ};
    ghost use Rattle.cov_expr.specs.Formula.{Formula, formula_code};

    ghost Value = { Formula ℕ };

    ghost coded = { formula_code coded_ℕ };

    ghost use Rattle.cov_expr.specs.Parts.{formula};

    ghost view = { λ t. formula t.part };
}

impl Tree {
    fn not(alloc: Global, inner: Tree) -> Result<Tree, Memory>
        ensures { IfOk result (λ tree. tree ≡ Not inner) }
    {
        let Tree { part } = inner;
        Ok(Tree {
            part: Part::Not(Box::new(alloc, part)?),
        })
    }

    fn and(alloc: Global, left: Tree, right: Tree) -> Result<Tree, Memory>
        ensures { IfOk result (λ tree. tree ≡ And left right) }
    {
        let Tree { part: left } = left;
        let Tree { part: right } = right;
        Ok(Tree {
            part: Part::And(Box::new(alloc, left)?, Box::new(alloc, right)?),
        })
    }

    fn or(alloc: Global, left: Tree, right: Tree) -> Result<Tree, Memory>
        ensures { IfOk result (λ tree. tree ≡ Or left right) }
    {
        let Tree { part: left } = left;
        let Tree { part: right } = right;
        Ok(Tree {
            part: Part::Or(Box::new(alloc, left)?, Box::new(alloc, right)?),
        })
    }
}

// The part takes those that it stands over from the stack.
fn put(alloc: Global, stack: &mut Vec<Tree>, sign: Sign) -> Result<(), Memory>
    ensures { OnOk result (reverse stack.new.items ≡ taken sign (reverse stack.old.items)) }
{
    match sign {
        Sign::Never => {
            stack.push(Tree { part: Part::False })?;
        }
        Sign::Always => {
            stack.push(Tree { part: Part::True })?;
        }
        Sign::Named(option) => {
            stack.push(Tree {
                part: Part::Option(option),
            })?;
        }
        Sign::Negates => {
            if let Some(inner) = stack.pop() {
                stack.push(Tree::not(alloc, inner)?)?;
            }
        }
        Sign::Joins => {
            if let Some(left) = stack.pop() {
                if let Some(right) = stack.pop() {
                    stack.push(Tree::and(alloc, left, right)?)?;
                }
            }
        }
        Sign::Chooses => {
            if let Some(left) = stack.pop() {
                if let Some(right) = stack.pop() {
                    stack.push(Tree::or(alloc, left, right)?)?;
                }
            }
        }
    }
    Ok(())
}

// All parts take those that they stand over, from the last.
fn put_all(alloc: Global, stack: &mut Vec<Tree>, signs: &mut Vec<Sign>) -> Result<(), Memory>
    ensures { OnOk result (reverse stack.new.items ≡
        pushed signs.old.items (reverse stack.old.items)) }
{
    'signs: while let Some(sign) = signs.pop() {
        put(alloc, stack, sign)?;
    }
    Ok(())
}

// The expression that parts are, if they are one or more of them.
fn built(alloc: Global, signs: &mut Vec<Sign>) -> Result<Option<Tree>, Memory>
    ensures { IfOk result (λ tree. tree ≡ first (pushed signs.old.items [])) }
{
    let mut stack = Vec::new(alloc);
    put_all(alloc, &mut stack, signs)?;
    Ok(stack.pop())
}

// The parts as an expression of at most `MOST_PARTS` parts.
fn bounded(tree: Tree) -> Result<Expr, Fault>
    ensures ok { IfOk result (λ expr. expr ≡ tree) }
    ensures refused { IsErrOf result (MemoryOr.Refused (record {})) → MOST_PARTS < part_count tree }
{
    let Tree { part } = tree;
    match Expr::new(part) {
        Ok(expr) => Ok(expr),
        Err(_) => Err(MemoryOr::Refused(NotARecord)),
    }
}

// The expression that a part is by itself, None where it stands over others.
fn alone(sign: Sign) -> Option<Tree>
    ensures { IfSome result (λ tree. (bytes rest : List ℕ) →
        front_sign bytes ≡ Some (sign, rest) → front_expression bytes ≡ Some (tree, rest)) }
{
    match sign {
        Sign::Never => Some(Tree { part: Part::False }),
        Sign::Always => Some(Tree { part: Part::True }),
        Sign::Named(option) => Some(Tree {
            part: Part::Option(option),
        }),
        Sign::Negates | Sign::Joins | Sign::Chooses => None,
    }
}

// The expression at the front, if it is of one part, as most ambitions are: it takes no memory.
fn take_alone(ahead: &mut Ahead<'_>) -> Option<Tree>
    ensures tree { IfSome result (λ tree. front_expression ahead.old ≡ Some (tree, ahead.new)) }
    ensures none { result ≡ None → ahead.new ≡ ahead.old }
{
    let mut front = ahead.copy();
    let sign = take_sign(&mut front)?;
    let tree = alone(sign)?;
    *ahead = front;
    Some(tree)
}

pub(crate) fn take_expression(alloc: Global, ahead: &mut Ahead<'_>) -> Result<Expr, Fault>
    ensures { Gives (front_expression ahead.old) result ahead.new }
{
    match take_alone(ahead) {
        Some(tree) => bounded(tree),
        None => take_parts(alloc, ahead),
    }
}

// The expression at the front, of any number of parts.
fn take_parts(alloc: Global, ahead: &mut Ahead<'_>) -> Result<Expr, Fault>
    ensures { Gives (front_expression ahead.old) result ahead.new }
{
    let mut signs = Vec::new(alloc);
    if let Some(fault) = take_signs(ahead, &mut signs) {
        return Err(fault);
    }
    match built(alloc, &mut signs) {
        Err(_) => Err(MemoryOr::Memory),
        Ok(None) => Err(MemoryOr::Refused(NotARecord)),
        Ok(Some(tree)) => bounded(tree),
    }
}
