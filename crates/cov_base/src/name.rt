// The names of files and directories, and paths.
ghost use Rattle.std.specs.Prelude.{◌≡◌, ◌≢◌, ◌<◌, ◌&&◌, ◌||◌, List, [], ◌∷◌, ◌++◌, ℕ, true, false, IfOk, IfSome, IsErrOf, OnOk, OnErr, MatchResult, length, not, Some, None, slice_get, ◌==◌, nat_eq, nat_le, position};
ghost use Rattle.std.specs.Option.{option_copied, option_map_or};
ghost use Rattle.std.specs.Str.{bytes_eq, is_utf8};
ghost use Rattle.std.specs.List.{list_any, list_all};
ghost use Rattle.cov_base.specs.Spelling.{is_name, is_outside_names, dot_names, parts_of, path_of};

use crate::{BadName, List, MOST_NAME_BYTES, Memory, MemoryOr, Text};
use std::alloc::Global;
use std::marker::Model;

/// The name of a file or directory: 1 to `MOST_NAME_BYTES` bytes of well-formed UTF-8 without control characters, spaces and `/`,
/// and neither `.` nor `..`.
#[derive(Debug, Drop)]
pub struct Name {
    text: Text,
}

impl Model for Name {
    ghost Value = { List ℕ };

    ghost view = { λ n. n.text };

    ghost invariant = { λ n. is_name n.text ≡ true };
}

impl Name {
    /// Reads a name. `BadName` comes exactly where the bytes aren't spelt as one.
    pub fn read(alloc: Global, bytes: &[u8]) -> Result<Name, MemoryOr<BadName>>
        ensures bytes { IfOk result (λ name. name ≡ bytes.now) }
        ensures spelling { IfOk result (λ name. is_name name ≡ true) }
        ensures refused { IsErrOf result (MemoryOr.Refused (record {})) →
            is_name bytes.now ≡ false }
    {
        if !is_well_spelt(bytes) {
            return Err(MemoryOr::Refused(BadName));
        }
        Ok(Name {
            text: Text::from_slice(alloc, bytes)?,
        })
    }

    pub fn as_slice(&self) -> &[u8]
        ensures bytes { result.now ≡ self.now }
        ensures spelling { is_name self.now ≡ true }
    {
        self.text.as_slice()
    }

    pub fn copy(&self) -> Result<Name, Memory>
        ensures { IfOk result (λ name. name ≡ self.now) }
    {
        Ok(Name {
            text: self.text.copy()?,
        })
    }
}

fn is_well_spelt(bytes: &[u8]) -> bool
    ensures { result ≡ is_name bytes.now }
{
    has_length(bytes) && is_text(bytes) && !has_outside_names(bytes) && !is_dot_name(bytes)
}

fn has_length(bytes: &[u8]) -> bool
    ensures { result ≡ (nat_le 1 (length bytes.now) && nat_le (length bytes.now) MOST_NAME_BYTES) }
{
    1 <= bytes.len() && bytes.len() <= MOST_NAME_BYTES
}

fn is_text(bytes: &[u8]) -> bool
    ensures { result ≡ is_utf8 bytes.now }
{
    match str::from_utf8(bytes) {
        Ok(_) => true,
        Err(_) => false,
    }
}

fn has_outside_names(bytes: &[u8]) -> bool
    ensures { result ≡ list_any is_outside_names bytes.now }
{
    bytes.iter().any(|b| is_outside_names(*b))
}

fn is_outside_names(byte: u8) -> bool
    ensures { result ≡ is_outside_names byte }
{
    byte < 33 || byte == 127 || byte == b'/'
}

fn is_dot_name(bytes: &[u8]) -> bool
    ensures { result ≡ list_any (bytes_eq bytes.now) dot_names }
{
    matches!(bytes, b"." | b"..")
}

/// The names on the way from the root to a node; none for the root itself.
pub type Path = List<Name>;

impl Path {
    /// Reads a path: `/`, or one or more of `/` and a name. `BadName` comes exactly where the bytes are neither.
    pub fn read(alloc: Global, bytes: &[u8]) -> Result<Path, MemoryOr<BadName>>
        ensures ok { IfOk result (λ path. path_of bytes.now ≡ Some path) }
        ensures refused { IsErrOf result (MemoryOr.Refused (record {})) → path_of bytes.now ≡ None }
    {
        match bytes.split_first() {
            Some((b'/', rest)) if rest.is_empty() => Ok(Path::new(alloc)),
            Some((b'/', rest)) => Path::read_names(alloc, rest),
            _ => Err(MemoryOr::Refused(BadName)),
        }
    }

    // The path of the names between slashes.
    fn read_names(alloc: Global, bytes: &[u8]) -> Result<Path, MemoryOr<BadName>>
        ensures names { IfOk result (λ path. path ≡ parts_of bytes.now) }
        ensures spelling { IfOk result (λ path. list_all is_name path ≡ true) }
        ensures refused { IsErrOf result (MemoryOr.Refused (record {})) →
            list_all is_name (parts_of bytes.now) ≡ false }
    {
        let mut path = Path::new(alloc);
        let mut rest = Some(bytes);
        'names: while let Some(left) = rest {
            let (first, after) = cut(left);
            path.push(Name::read(alloc, first)?)?;
            rest = after;
        }
        Ok(path)
    }
}

// What stands before the first slash, and what stands after it if there is one.
fn cut(bytes: &[u8]) -> (&[u8], Option<&[u8]>)
    ensures parts { parts_of bytes.now ≡
        result.0.now ∷ option_map_or (λ rest. parts_of rest.now) result.1 [] }
    ensures shorter { IfSome result.1 (λ rest. length rest.now < length bytes.now) }
{
    match first_slash(bytes) {
        Some(at) => (&bytes[..at], Some(&bytes[at + 1..])),
        None => (bytes, None),
    }
}

fn first_slash(bytes: &[u8]) -> Option<usize>
    ensures place { result ≡ position (λ b. nat_eq b 47) bytes.now }
    ensures within { IfSome result (λ at. at < length bytes.now) }
{
    bytes.iter().position(|b| *b == b'/')
}
