// The names of options.
ghost use Rattle.std.specs.Prelude.{◌≡◌, ◌&&◌, ◌||◌, List, ℕ, Bool, true, false, IfOk, IsErrOf, MatchResult, IsTrue, not};
ghost use Rattle.std.specs.Str.{bytes_eq};
ghost use Rattle.std.specs.List.{list_any, list_all};
ghost use Rattle.cov_base.specs.Bytes.{is_letter, is_digit};
ghost use Rattle.cov_base.specs.Spelling.{is_word, is_option_name, reserved_words};

use crate::{BadName, MOST_OPTION_NAME_BYTES, Memory, MemoryOr};
use std::alloc::Global;
use std::marker::Model;

/// The name of an option: `[A-Za-z_][A-Za-z0-9_]*` of 1 to `MOST_OPTION_NAME_BYTES` bytes, and none of the reserved words.
#[derive(Debug, Drop)]
pub struct OptionName {
    bytes: Vec<u8>,
}

impl Model for OptionName {
    ghost Value = { List ℕ };

    ghost view = { λ n. n.bytes.items };

    ghost invariant = { λ n. is_option_name n.bytes.items ≡ true };
}

impl OptionName {
    /// Reads a name. `BadName` comes exactly where the bytes aren't spelt as one.
    pub fn read(alloc: Global, bytes: &[u8]) -> Result<OptionName, MemoryOr<BadName>>
        ensures bytes { IfOk result (λ name. name ≡ bytes.now) }
        ensures spelling { IfOk result (λ name. is_option_name name ≡ true) }
        ensures refused { IsErrOf result (MemoryOr.Refused (record {})) →
            is_option_name bytes.now ≡ false }
    {
        if !is_well_spelt(bytes) {
            return Err(MemoryOr::Refused(BadName));
        }
        Ok(OptionName {
            bytes: Vec::from_slice(alloc, bytes)?,
        })
    }

    pub fn as_slice(&self) -> &[u8]
        ensures bytes { result.now ≡ self.now }
        ensures spelling { is_option_name self.now ≡ true }
    {
        self.bytes.as_slice()
    }

    /// The bytes as a Vec. It takes no memory.
    pub fn into_vec(self) -> Vec<u8>
        ensures bytes { result.items ≡ self }
        ensures spelling { is_option_name self ≡ true }
    {
        self.bytes
    }

    pub fn copy(&self) -> Result<OptionName, Memory>
        ensures { IfOk result (λ name. name ≡ self.now) }
    {
        Ok(OptionName {
            bytes: Vec::from_slice(*self.bytes.allocator(), self.bytes.as_slice())?,
        })
    }
}

fn is_well_spelt(bytes: &[u8]) -> bool
    ensures { result ≡ is_option_name bytes.now }
{
    spells_word(bytes) && bytes.len() <= MOST_OPTION_NAME_BYTES && !is_reserved(bytes)
}

fn is_reserved(bytes: &[u8]) -> bool
    ensures { result ≡ list_any (bytes_eq bytes.now) reserved_words }
{
    matches!(bytes, b"true" | b"false" | b"on" | b"off" | b"for")
}

/// Whether the bytes are a letter or `_`, and then letters, digits and `_`.
pub fn spells_word(bytes: &[u8]) -> bool
    ensures { result ≡ is_word bytes.now }
{
    match bytes {
        [] => false,
        [first, rest @ ..] => is_first_byte(*first) && are_word_bytes(rest),
    }
}

/// Whether a word may begin with the byte: a letter or `_`.
pub fn is_first_byte(byte: u8) -> bool
    ensures { result ≡ is_letter byte }
{
    matches!(byte, b'A'..=b'Z' | b'a'..=b'z' | b'_')
}

/// Whether a word may go on with the byte: a letter, a digit or `_`.
pub fn is_word_byte(byte: u8) -> bool
    ensures { result ≡ (is_letter byte || is_digit byte) }
{
    is_first_byte(byte) || matches!(byte, b'0'..=b'9')
}

fn are_word_bytes(bytes: &[u8]) -> bool
    ensures { result ≡ list_all (λ b. is_letter b || is_digit b) bytes.now }
{
    bytes.iter().all(|b| is_word_byte(*b))
}
