// What is left of a line behind the fields that were read.
ghost use Rattle.std.specs.Prelude.{◌≡◌, ◌+◌, ◌≤◌, ◌<◌, ◌^◌, List, [], ◌++◌, nat_eq, length, drop, position, IfSome, IfNone};
ghost use Rattle.std.specs.List.{before_first, position_or_len};
ghost use Rattle.cov_base.specs.Answers.{IsOrMemory};
ghost use Rattle.cov_script.specs.Fields.{ahead, place, behind, first_field, behind_field, at_end, is_memory};

use crate::LineSyntax;
use std::marker::Model;

/// The bytes of a line that weren't read: none, or a space and what follows it.
#[derive(Drop)]
pub(crate) struct Unread<'a> {
    size: u32,
    bytes: &'a [u8],
}

impl<'a> Model for Unread<'a> {
    ghost use Rattle.std.specs.Prelude.{◌≤◌, ◌<◌, ◌^◌, length};
    ghost use Rattle.cov_script.specs.Fields.{Rest};

    ghost Value = { Rest };

    ghost view = { λ u. (u.size, u.bytes.now) };

    ghost invariant = { λ u. length u.bytes.now ≤ u.size };
}

impl<'a> Unread<'a> {
    pub(crate) fn new(size: u32, bytes: &'a [u8]) -> Unread<'a>
        requires { length bytes.now ≤ size }
        ensures { result ≡ (size, bytes.now) }
    {
        Unread { size, bytes }
    }

    /// All that is ahead, and where it begins.
    pub(crate) fn ahead(self) -> (u32, &'a [u8])
        ensures place { result.0 ≡ place self.entry }
        ensures bytes { result.1.now ≡ ahead self.entry }
        ensures within { result.0 + length result.1.now < 2 ^ 32 }
    {
        let bytes = behind_space(self.bytes);
        (self.size - bytes.len() as u32, bytes)
    }

    /// Where the next field begins, its bytes, and what is left behind it.
    pub(crate) fn cut(self) -> (u32, &'a [u8], Unread<'a>)
        ensures place { result.0 ≡ place self.entry }
        ensures bytes { result.1.now ≡ first_field (ahead self.entry) }
        ensures behind { result.2 ≡ behind self.entry }
    {
        let size = self.size;
        let bytes = behind_space(self.bytes);
        let (field, rest) = cut(bytes);
        let at = size - bytes.len() as u32;
        (at, field, Unread { size, bytes: rest })
    }

    /// Refuses what follows the last field.
    pub(crate) fn end(self) -> Result<(), LineSyntax>
        ensures { IsOrMemory is_memory (at_end tt self.entry) result }
    {
        match self.bytes {
            [] => Ok(()),
            more => Err(LineSyntax::Syntax {
                at: self.size - more.len() as u32,
            }),
        }
    }
}

fn behind_space(bytes: &[u8]) -> &[u8]
    ensures bytes { result.now ≡ drop 1 bytes.now }
    ensures shorter { length result.now ≤ length bytes.now }
{
    match bytes {
        [] => bytes,
        [_, rest @ ..] => rest,
    }
}

/// The bytes before the first space, and those from it on.
pub(crate) fn cut(bytes: &[u8]) -> (&[u8], &[u8])
    ensures field { result.0.now ≡ first_field bytes.now }
    ensures behind { result.1.now ≡ behind_field bytes.now }
    ensures shorter { length result.1.now ≤ length bytes.now }
{
    bytes.split_at(first_space(bytes))
}

fn first_space(bytes: &[u8]) -> usize
    ensures place { result ≡ position_or_len (λ b. nat_eq b 32) bytes.now }
    ensures within { result ≤ length bytes.now }
{
    match place_of_space(bytes) {
        Some(at) => at,
        None => bytes.len(),
    }
}

fn place_of_space(bytes: &[u8]) -> Option<usize>
    ensures place { result ≡ position (λ b. nat_eq b 32) bytes.now }
    ensures within { IfSome result (λ at. at < length bytes.now) }
{
    bytes.iter().position(|b| *b == b' ')
}
