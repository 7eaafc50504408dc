// The line that stands before the lines of a listing.
ghost use Rattle.std.specs.Prelude.{◌≡◌, ◌<◌, ◌≤◌, ◌^◌, true, length, IfOk};
ghost use Rattle.cov_expr.specs.ExpressionText.{text_of};
ghost use Rattle.cov_expr.specs.Formula.{reach};
ghost use Rattle.cov_expr.specs.Options.{option_name};
ghost use Rattle.cov_expr.specs.Tokens.{tokens_of, token_count};
ghost use Rattle.cov_vis.specs.Listings.{has_options_below};
ghost use Rattle.cov_cond.specs.Exporting.{is_few};
ghost use Rattle.cov_cond.specs.IfLines.{IsExpressionText, IsLineOf};
ghost use Rattle.cov_cond.specs.Writing.{IsIfLine};

use crate::expressing::expression;
use cov_base::{Memory, Text};
use cov_expr::{Expr, ExprFault, Options, parse, texts_give_their_expressions};
use cov_vis::Listing;
use std::alloc::Global;

/// `#if` and the expression that a listing spells; None exactly where that has more than `MOST_TOKENS` tokens.
pub(crate) fn if_line(options: &Options, listing: &Listing) -> Result<Option<Text>, Memory>
    requires { has_options_below (length options.now.names) listing.now ≡ true }
    ensures { IfOk result (IsIfLine options.now.names listing.now) }
{
    texts_give_their_expressions();
    // What `count` ensures of the names tells that they are spelt as names are.
    let _count = options.count();
    match expression(listing)? {
        Some(expr) => line_of(listing.entries().allocator(), options, &expr),
        None => Ok(None),
    }
}

// `#if` and an expression, unless that has too many tokens.
fn line_of(alloc: Global, options: &Options, expr: &Expr) -> Result<Option<Text>, Memory>
    requires { reach expr.now ≤ length options.now.names }
    ensures { IfOk result (IsLineOf options.now.names expr.now) }
{
    texts_give_their_expressions();
    // What these ensure bounds the text.
    let _count = options.count();
    let _part = expr.part();
    let text = expr.print(alloc, options)?;
    if !has_few_tokens(alloc, text.as_slice())? {
        return Ok(None);
    }
    let mut line = Text::from_slice(alloc, b"#if ")?;
    line.append(text.as_slice())?;
    Ok(Some(line))
}

// Whether the text of an expression has at most `MOST_TOKENS` tokens.
fn has_few_tokens(alloc: Global, text: &[u8]) -> Result<bool, Memory>
    requires short { length text.now < 2 ^ 32 }
    requires spells { IsExpressionText text.now }
    ensures { IfOk result (λ few. few ≡ is_few (token_count (tokens_of text.now))) }
{
    match parse(alloc, text) {
        Ok(_) => Ok(true),
        Err(ExprFault::TooLong) => Ok(false),
        Err(ExprFault::Memory) => Err(Memory),
        Err(ExprFault::Syntax { .. }) => unreachable!(),
    }
}
