// Parts of expressions as they are printed.
ghost use Rattle.std.specs.Prelude.{◌≡◌, ◌≤◌, ◌++◌, length, OnOk};
ghost use Rattle.cov_expr.specs.ExpressionText.{grouped, is_binary, is_or, text_of};
ghost use Rattle.cov_expr.specs.Formula.{reach};
ghost use Rattle.cov_expr.specs.Options.{option_name};
ghost use Rattle.cov_expr.specs.Parts.{formula};

use crate::{Options, Part};
use cov_base::{Memory, Text};

/// Appends the text of a part. The depth of recursion is at most twice the number of its parts.
#[cycle(append)]
pub(crate) fn append_part(text: &mut Text, options: &Options, part: &Part) -> Result<(), Memory>
    requires { reach (formula part.now) ≤ length options.now.names }
    ensures { OnOk result (text.new ≡ text.old ++
        text_of (option_name options.now.names) (formula part.now)) }
{
    match part {
        Part::False => text.append(b"false"),
        Part::True => text.append(b"true"),
        Part::Option(option) => text.append(options.name(*option)),
        Part::Not(inner) => {
            text.append(b"!")?;
            append_grouped(text, options, inner, is_binary(inner))
        }
        Part::And(left, right) => {
            append_grouped(text, options, left, is_or(left))?;
            text.append(b" & ")?;
            append_grouped(text, options, right, is_binary(right))
        }
        Part::Or(left, right) => {
            append_part(text, options, left)?;
            text.append(b" | ")?;
            append_grouped(text, options, right, is_or(right))
        }
    }
}

// Appends the text of a part, in parentheses where it is to have them.
#[cycle(append)]
fn append_grouped(
    text: &mut Text,
    options: &Options,
    part: &Part,
    in_parentheses: bool,
) -> Result<(), Memory>
    requires { reach (formula part.now) ≤ length options.now.names }
    ensures { OnOk result (text.new ≡ text.old ++
        grouped in_parentheses (text_of (option_name options.now.names) (formula part.now))) }
{
    if !in_parentheses {
        return append_part(text, options, part);
    }
    text.append(b"(")?;
    append_part(text, options, part)?;
    text.append(b")")
}

// Whether it is two parts with an `|` between them.
fn is_or(part: &Part) -> bool
    ensures { result ≡ is_or (formula part.now) }
{
    matches!(part, Part::Or(_, _))
}

// Whether it is two parts with an `&` or an `|` between them.
fn is_binary(part: &Part) -> bool
    ensures { result ≡ is_binary (formula part.now) }
{
    matches!(part, Part::And(_, _) | Part::Or(_, _))
}
