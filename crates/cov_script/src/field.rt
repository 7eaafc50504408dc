// The kinds of fields, and how a field is read.
ghost use Rattle.std.specs.Prelude.{◌≡◌, ℕ, List, Option, codes, Ok, IfOk, IsErrOf, MatchOption};
ghost use Rattle.cov_base.specs.Answers.{IsOrMemory};
ghost use Rattle.cov_base.specs.Spelling.{path_of, is_line_text};
ghost use Rattle.cov_expr.specs.ChoiceText.{bindings_of, switch_of};
ghost use Rattle.cov_script.specs.Fields.{field, expression, text, token_of, name_of, new_path_of, word_of, number_of, line_field_of, is_memory};

use crate::number::read_number;
use crate::unread::Unread;
use crate::{LineField, LineSyntax};
use cov_base::{Memory, MemoryOr, Name, Path, Text, is_line_text};
use cov_expr::{ExprFault, RawChoice, RawExpr, parse, switch_in};
use std::alloc::Global;
use std::marker::Model;

/// A field's value and what is left behind it.
pub(crate) type Got<'a, T> = Result<(T, Unread<'a>), LineSyntax>;

/// A value that one field spells.
pub(crate) trait Field: Drop {
    /// The kind: what bytes spell, if they are of it.
    ghost kind: { List ℕ → Option Self };

    /// The value that the bytes spell; None exactly where they aren't of the kind.
    fn spelt(alloc: Global, bytes: &[u8]) -> Result<Option<Self>, Memory>
        ensures { IfOk result (λ value. value ≡ kind bytes.now) };
}

/// Reads the next field.
pub(crate) fn read_field<'a, T: Field>(alloc: Global, unread: Unread<'a>) -> Got<'a, T>
    ensures { IsOrMemory is_memory (field T.kind unread.entry) result }
{
    let (at, bytes, behind) = unread.cut();
    match T::spelt(alloc, bytes)? {
        Some(value) => Ok((value, behind)),
        None => Err(LineSyntax::Syntax { at }),
    }
}

// What is read, None where it is refused.
fn unless_refused<T: Drop, E: Drop>(read: Result<T, MemoryOr<E>>) -> Result<Option<T>, Memory>
    ensures { IfOk result (λ found. MatchOption found ((e : E) ×
        IsErrOf read (MemoryOr.Refused e)) (λ value. read ≡ Ok value)) }
{
    match read {
        Ok(value) => Ok(Some(value)),
        Err(MemoryOr::Refused(_)) => Ok(None),
        Err(MemoryOr::Memory) => Err(Memory),
    }
}

/// One byte or more.
impl Field for Text {
    ghost kind = { token_of };

    fn spelt(alloc: Global, bytes: &[u8]) -> Result<Option<Text>, Memory> {
        match bytes {
            [] => Ok(None),
            _ => Ok(Some(Text::from_slice(alloc, bytes)?)),
        }
    }
}

impl Field for Name {
    ghost kind = { name_of };

    fn spelt(alloc: Global, bytes: &[u8]) -> Result<Option<Name>, Memory> {
        unless_refused(Name::read(alloc, bytes))
    }
}

impl Field for Path {
    ghost kind = { path_of };

    fn spelt(alloc: Global, bytes: &[u8]) -> Result<Option<Path>, Memory> {
        unless_refused(Path::read(alloc, bytes))
    }
}

/// A path other than `/`.
#[derive(Drop)]
pub(crate) struct NewPath(pub(crate) Path);

impl Model for NewPath {
    ghost use Rattle.std.specs.Prelude.{List, ℕ};

    ghost Value = { List (List ℕ) };

    ghost view = { λ p. p.0 };
}

impl Field for NewPath {
    ghost kind = { new_path_of };

    fn spelt(alloc: Global, bytes: &[u8]) -> Result<Option<NewPath>, Memory> {
        match Path::spelt(alloc, bytes)? {
            Some(path) if !path.is_empty() => Ok(Some(NewPath(path))),
            _ => Ok(None),
        }
    }
}

impl Field for RawChoice {
    ghost kind = { bindings_of };

    fn spelt(alloc: Global, bytes: &[u8]) -> Result<Option<RawChoice>, Memory> {
        unless_refused(RawChoice::parse(alloc, bytes))
    }
}

/// `on` or `off`.
impl Field for bool {
    ghost kind = { switch_of };

    fn spelt(_alloc: Global, bytes: &[u8]) -> Result<Option<bool>, Memory> {
        Ok(switch_in(bytes))
    }
}

/// The number of a line in the whole store.
impl Field for u32 {
    ghost kind = { number_of };

    fn spelt(_alloc: Global, bytes: &[u8]) -> Result<Option<u32>, Memory> {
        Ok(read_number(bytes))
    }
}

impl Field for LineField {
    ghost kind = { line_field_of };

    fn spelt(_alloc: Global, bytes: &[u8]) -> Result<Option<LineField>, Memory> {
        Ok(line_field(bytes))
    }
}

/// Reads the word `for`.
pub(crate) fn read_for<'a>(unread: Unread<'a>) -> Got<'a, ()>
    ensures { IsOrMemory is_memory (field (word_of (codes "for")) unread.entry) result }
{
    let (at, bytes, behind) = unread.cut();
    match bytes {
        b"for" => Ok(((), behind)),
        _ => Err(LineSyntax::Syntax { at }),
    }
}

fn line_field(bytes: &[u8]) -> Option<LineField>
    ensures { result ≡ line_field_of bytes.now }
{
    match bytes {
        [] => None,
        [b'+', digits @ ..] => Some(LineField::Own(read_number(digits)?)),
        _ => Some(LineField::Number(read_number(bytes)?)),
    }
}

/// Reads an expression, to the line's end.
pub(crate) fn read_expression(alloc: Global, unread: Unread) -> Result<RawExpr, LineSyntax>
    ensures { IsOrMemory is_memory (expression unread.entry) result }
{
    let (at, bytes) = unread.ahead();
    match parse(alloc, bytes) {
        Ok(expr) => Ok(expr),
        Err(ExprFault::Syntax { at: within }) => Err(LineSyntax::Syntax { at: at + within }),
        Err(ExprFault::TooLong) => Err(LineSyntax::TooLong),
        Err(ExprFault::Memory) => Err(LineSyntax::Memory),
    }
}

/// Reads a text, to the line's end. Whoever keeps it shares its bytes.
pub(crate) fn read_text(alloc: Global, unread: Unread) -> Result<Text, LineSyntax>
    ensures { IsOrMemory is_memory (text unread.entry) result }
{
    let (at, bytes) = unread.ahead();
    if !is_line_text(bytes) {
        return Err(LineSyntax::Syntax { at });
    }
    Ok(Text::shared(alloc, bytes)?)
}
