// Reading the tokens of an expression one after another, without recursion.
ghost use Rattle.std.specs.Prelude.{◌≡◌, ◌+◌, ◌<◌, ◌^◌, IfOk, List, ℕ, Option, Some, None, reverse};
ghost use Rattle.std.specs.Option.{option_map};
ghost use Rattle.cov_expr.specs.Reading.{start, next, after_token, after_and, after_or, with_nots, settled, finished};
ghost use Rattle.cov_expr.specs.Readings.{state_of};

use crate::token::Token;
use crate::tree::Tree;
use cov_base::Memory;
use std::alloc::Global;

/// What stands before an operand that is awaited, within one pair of parentheses.
#[derive(Debug, Drop)]
pub(crate) struct Level {
    /// The left part of an `|`.
    or_left: Option<Tree>,
    /// The left part of an `&`.
    and_left: Option<Tree>,
    /// How many `!` stand directly before the operand.
    pub(crate) nots: usize,
}

/// What was read of an expression.
#[derive(Debug, Drop)]
pub(crate) struct Reading {
    /// The levels round the innermost parentheses that are open, the innermost last.
    outer: Vec<Level>,
    pub(crate) level: Level,
    /// The operand that was read last, None where one is awaited.
    operand: Option<Tree>,
}

impl Reading {
    pub(crate) fn new(alloc: Global) -> Reading
        ensures { state_of result ≡ start }
    {
        Reading {
            outer: Vec::new(alloc),
            level: level_after(None),
            operand: None,
        }
    }

    /// Reads one token more; None exactly where no expression goes on with it.
    pub(crate) fn read(self, alloc: Global, token: Token) -> Result<Option<Reading>, Memory>
        requires { self.level.nots < 2 ^ 32 }
        ensures { IfOk result (λ read. option_map state_of read ≡ next (state_of self) token) }
    {
        let Reading {
            outer,
            level,
            operand,
        } = self;
        match operand {
            None => read_operand(alloc, outer, level, token),
            Some(operand) => read_operator(alloc, outer, level, operand, token),
        }
    }

    /// The expression that was read, None where it isn't whole.
    pub(crate) fn finish(self, alloc: Global) -> Result<Option<Tree>, Memory>
        ensures { IfOk result (λ tree. tree ≡ finished (state_of self)) }
    {
        let Reading {
            outer,
            level,
            operand,
        } = self;
        if !outer.is_empty() {
            return Ok(None);
        }
        match operand {
            None => Ok(None),
            Some(operand) => Ok(Some(or_joined(alloc, level.or_left, operand)?)),
        }
    }
}

// A level of which only the left part of an `|` was read, if anything.
fn level_after(or_left: Option<Tree>) -> Level
    ensures { result ≡ record { or_left = or_left; and_left = None; nots = 0 } }
{
    Level {
        or_left,
        and_left: None,
        nots: 0,
    }
}

// Reads a token where an operand is awaited.
fn read_operand(
    alloc: Global,
    mut outer: Vec<Level>,
    level: Level,
    token: Token,
) -> Result<Option<Reading>, Memory>
    requires { level.nots < 2 ^ 32 }
    ensures { IfOk result (λ read. option_map state_of read ≡
        after_token (reverse outer.items) level None token) }
{
    match token {
        Token::Word(word) => Ok(Some(settle(alloc, outer, level, Tree::word(word))?)),
        Token::Bang => Ok(Some(Reading {
            outer,
            level: Level {
                or_left: level.or_left,
                and_left: level.and_left,
                nots: level.nots + 1,
            },
            operand: None,
        })),
        Token::Open => {
            outer.push(level)?;
            Ok(Some(Reading {
                outer,
                level: level_after(None),
                operand: None,
            }))
        }
        Token::Amp | Token::Bar | Token::Close => Ok(None),
    }
}

// Reads a token after an operand.
fn read_operator(
    alloc: Global,
    mut outer: Vec<Level>,
    level: Level,
    operand: Tree,
    token: Token,
) -> Result<Option<Reading>, Memory>
    ensures { IfOk result (λ read. option_map state_of read ≡
        after_token (reverse outer.items) level (Some operand) token) }
{
    match token {
        Token::Amp => Ok(Some(Reading {
            outer,
            level: Level {
                or_left: level.or_left,
                and_left: Some(operand),
                nots: level.nots,
            },
            operand: None,
        })),
        Token::Bar => Ok(Some(Reading {
            outer,
            level: Level {
                or_left: Some(or_joined(alloc, level.or_left, operand)?),
                and_left: level.and_left,
                nots: level.nots,
            },
            operand: None,
        })),
        Token::Close => match outer.pop() {
            None => Ok(None),
            Some(enclosing) => {
                let inner = or_joined(alloc, level.or_left, operand)?;
                Ok(Some(settle(alloc, outer, enclosing, inner)?))
            }
        },
        Token::Word(_) | Token::Bang | Token::Open => Ok(None),
    }
}

// An operand was read, and takes what binds tighter than an `|`.
fn settle(alloc: Global, outer: Vec<Level>, level: Level, operand: Tree) -> Result<Reading, Memory>
    ensures { IfOk result (λ read. state_of read ≡ settled (reverse outer.items) level operand) }
{
    let Level {
        or_left,
        and_left,
        nots,
    } = level;
    let negation = negated(alloc, nots, operand)?;
    Ok(Reading {
        outer,
        level: level_after(or_left),
        operand: Some(and_joined(alloc, and_left, negation)?),
    })
}

// The expression below a number of `!`.
fn negated(alloc: Global, nots: usize, operand: Tree) -> Result<Tree, Memory>
    ensures { IfOk result (λ tree. tree ≡ with_nots nots operand) }
{
    let mut tree = operand;
    for _ in 0..nots {
        tree = Tree::not(alloc, tree)?;
    }
    Ok(tree)
}

fn and_joined(alloc: Global, left: Option<Tree>, right: Tree) -> Result<Tree, Memory>
    ensures { IfOk result (λ tree. tree ≡ after_and left right) }
{
    match left {
        None => Ok(right),
        Some(left) => Tree::and(alloc, left, right),
    }
}

fn or_joined(alloc: Global, left: Option<Tree>, right: Tree) -> Result<Tree, Memory>
    ensures { IfOk result (λ tree. tree ≡ after_or left right) }
{
    match left {
        None => Ok(right),
        Some(left) => Tree::or(alloc, left, right),
    }
}
