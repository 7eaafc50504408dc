// What follows each keyword.
ghost use Rattle.std.specs.Prelude.{◌≡◌, true};
ghost use Rattle.cov_base.specs.Answers.{IsOrMemory};
ghost use Rattle.cov_script.specs.Fields.{is_memory, at_end};
ghost use Rattle.cov_script.specs.Lines.{two_fields, alone, pair, triple, line_and_text, named_text, ambition, opening, named_expression, is_edit, line_behind};

use crate::field::{Field, Got, NewPath, read_expression, read_field, read_for, read_text};
use crate::keyword::Keyword;
use crate::unread::Unread;
use crate::{Line, LineField, LineSyntax};
use cov_base::{Name, Path, Text};
use cov_expr::{RawChoice, RawExpr};
use std::alloc::Global;

/// Reads what follows a keyword.
pub(crate) fn read_behind(
    alloc: Global,
    keyword: Keyword,
    unread: Unread,
) -> Result<Line, LineSyntax>
    ensures { IsOrMemory is_memory (line_behind keyword unread.entry) result }
{
    match keyword {
        Keyword::Option => alone(alloc, unread).map(|token| Line::Option { token }),
        Keyword::Constraint => read_expression(alloc, unread).map(|expr| Line::Constraint { expr }),
        Keyword::Prefer => read_expression(alloc, unread).map(|expr| Line::Prefer { expr }),
        Keyword::Default => pair(alloc, unread).map(|(token, on)| Line::Default { token, on }),
        Keyword::Complete => alone(alloc, unread).map(|choice| Line::Complete { choice }),
        Keyword::Open => opening(alloc, unread).map(|(name, choice, ambition)| Line::OpenSession {
            name,
            choice,
            ambition,
        }),
        Keyword::Side => named_expression(alloc, unread).map(|(name, side)| Line::Side {
            name,
            side,
        }),
        Keyword::MakeDir
        | Keyword::MakeFile
        | Keyword::Rename
        | Keyword::Move
        | Keyword::Remove
        | Keyword::Insert
        | Keyword::Delete
        | Keyword::Replace => read_edit(alloc, keyword, unread),
        Keyword::Show => pair(alloc, unread).map(|(name, path)| Line::Show { name, path }),
        Keyword::List => pair(alloc, unread).map(|(name, path)| Line::List { name, path }),
        Keyword::Refresh => alone(alloc, unread).map(|name| Line::Refresh { name }),
        Keyword::Commit => alone(alloc, unread).map(|name| Line::Commit { name }),
        Keyword::Drop => alone(alloc, unread).map(|name| Line::Discard { name }),
        Keyword::Cat => pair(alloc, unread).map(|(choice, path)| Line::Cat { choice, path }),
        Keyword::Checkout => pair(alloc, unread).map(|(tree, choice)| Line::Checkout {
            tree,
            choice,
        }),
        Keyword::Alt => triple(alloc, unread).map(|(choice, token, path)| Line::Alt {
            choice,
            token,
            path,
        }),
        Keyword::Cond => pair(alloc, unread).map(|(choice, path)| Line::Conditional {
            choice,
            path,
        }),
        Keyword::Where => alone(alloc, unread).map(|line| Line::Presence { line }),
        Keyword::Upgrade => end(unread, Line::Upgrade),
        Keyword::Analyse => end(unread, Line::Analyse),
        Keyword::Nearest => alone(alloc, unread).map(|choice| Line::Nearest { choice }),
        Keyword::Log => alone(alloc, unread).map(|choice| Line::Log { choice }),
        Keyword::Blame => pair(alloc, unread).map(|(choice, path)| Line::Blame { choice, path }),
        Keyword::Past => triple(alloc, unread).map(|(position, choice, path)| Line::Past {
            position,
            choice,
            path,
        }),
        Keyword::PastOut => triple(alloc, unread).map(|(tree, position, choice)| Line::PastOut {
            tree,
            position,
            choice,
        }),
    }
}

// Reads what follows the keyword of an edit.
fn read_edit(alloc: Global, keyword: Keyword, unread: Unread) -> Result<Line, LineSyntax>
    requires { is_edit keyword ≡ true }
    ensures { IsOrMemory is_memory (line_behind keyword unread.entry) result }
{
    match keyword {
        Keyword::MakeDir => pair(alloc, unread).map(|(name, NewPath(path))| Line::MakeDir {
            name,
            path,
        }),
        Keyword::MakeFile => pair(alloc, unread).map(|(name, NewPath(path))| Line::MakeFile {
            name,
            path,
        }),
        Keyword::Rename => triple(alloc, unread).map(|(name, path, to)| Line::Rename {
            name,
            path,
            to,
        }),
        Keyword::Move => triple(alloc, unread).map(|(name, path, target)| Line::Move {
            name,
            path,
            target,
        }),
        Keyword::Remove => pair(alloc, unread).map(|(name, path)| Line::Remove { name, path }),
        Keyword::Insert => named_text(alloc, unread).map(|(name, path, line, text)| Line::Insert {
            name,
            path,
            line,
            text,
        }),
        Keyword::Delete => triple(alloc, unread).map(|(name, path, line)| Line::Delete {
            name,
            path,
            line,
        }),
        Keyword::Replace => named_text(alloc, unread).map(|(name, path, line, text)| Line::Replace {
            name,
            path,
            line,
            text,
        }),
        _ => unreachable!(),
    }
}

// One field, and nothing behind it.
fn alone<T: Field>(alloc: Global, unread: Unread) -> Result<T, LineSyntax>
    ensures { IsOrMemory is_memory (alone T.kind unread.entry) result }
{
    match read_field(alloc, unread) {
        Ok((value, unread)) => end(unread, value),
        Err(fault) => Err(fault),
    }
}

// Two fields, and nothing behind them.
fn pair<A: Field, B: Field>(alloc: Global, unread: Unread) -> Result<(A, B), LineSyntax>
    ensures { IsOrMemory is_memory (pair A.kind B.kind unread.entry) result }
{
    match two_fields(alloc, unread) {
        Ok((both, unread)) => end(unread, both),
        Err(fault) => Err(fault),
    }
}

// Three fields, and nothing behind them.
fn triple<A: Field, B: Field, C: Field>(
    alloc: Global,
    unread: Unread,
) -> Result<(A, B, C), LineSyntax>
    ensures { IsOrMemory is_memory (triple A.kind B.kind C.kind unread.entry) result }
{
    match two_fields(alloc, unread) {
        Ok(((first, second), unread)) => alone(alloc, unread).map(|third| (first, second, third)),
        Err(fault) => Err(fault),
    }
}

// A name, a path, a line, and a text behind them.
fn named_text(alloc: Global, unread: Unread) -> Result<(Name, Path, LineField, Text), LineSyntax>
    ensures { IsOrMemory is_memory (named_text unread.entry) result }
{
    match two_fields(alloc, unread) {
        Ok(((name, path), unread)) => line_and_text(alloc, unread).map(|(line, text)| (
            name, path, line, text,
        )),
        Err(fault) => Err(fault),
    }
}

// A line, and a text behind it.
fn line_and_text(alloc: Global, unread: Unread) -> Result<(LineField, Text), LineSyntax>
    ensures { IsOrMemory is_memory (line_and_text unread.entry) result }
{
    match read_field(alloc, unread) {
        Ok((line, unread)) => read_text(alloc, unread).map(|text| (line, text)),
        Err(fault) => Err(fault),
    }
}

// A name, bindings, and an ambition behind them.
fn opening(alloc: Global, unread: Unread) -> Result<(Name, RawChoice, RawExpr), LineSyntax>
    ensures { IsOrMemory is_memory (opening unread.entry) result }
{
    match two_fields(alloc, unread) {
        Ok(((name, choice), unread)) => ambition(alloc, unread).map(|ambition| (
            name, choice, ambition,
        )),
        Err(fault) => Err(fault),
    }
}

// An ambition behind its word.
fn ambition(alloc: Global, unread: Unread) -> Result<RawExpr, LineSyntax>
    ensures { IsOrMemory is_memory (ambition unread.entry) result }
{
    match read_for(unread) {
        Ok(((), unread)) => read_expression(alloc, unread),
        Err(fault) => Err(fault),
    }
}

// A name, and an expression behind it.
fn named_expression(alloc: Global, unread: Unread) -> Result<(Name, RawExpr), LineSyntax>
    ensures { IsOrMemory is_memory (named_expression unread.entry) result }
{
    match read_field(alloc, unread) {
        Ok((name, unread)) => read_expression(alloc, unread).map(|expr| (name, expr)),
        Err(fault) => Err(fault),
    }
}

// Two fields, one behind the other.
fn two_fields<'a, A: Field, B: Field>(alloc: Global, unread: Unread<'a>) -> Got<'a, (A, B)>
    ensures { IsOrMemory is_memory (two_fields A.kind B.kind unread.entry) result }
{
    match read_field(alloc, unread) {
        Ok((first, unread)) => read_field(alloc, unread).map(|(second, unread)| (
            (first, second),
            unread,
        )),
        Err(fault) => Err(fault),
    }
}

// What was read, where the line ends behind it.
fn end<T: Drop>(unread: Unread, value: T) -> Result<T, LineSyntax>
    ensures { IsOrMemory is_memory (at_end value unread.entry) result }
{
    match unread.end() {
        Ok(()) => Ok(value),
        Err(fault) => Err(fault),
    }
}
