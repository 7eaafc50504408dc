// Choices as they are written: bindings of names.
ghost use Rattle.std.specs.Prelude.{◌≡◌, ◌<◌, ◌∷◌, [], ℕ, List, Bool, true, nat_eq, nat_lt, None, Some, map, length, position, is_some, IfSome, IfNone, IfOk, IfErr, IsErrOf};
ghost use Rattle.std.specs.Option.{option_map, option_copied};
ghost use Rattle.std.specs.List.{before_first, after_first, list_all, position_or_len, slice_split};
ghost use Rattle.cov_expr.specs.Binding.{bound, IsBindFaultOf};
ghost use Rattle.cov_expr.specs.ChoiceText.{switch_of, binding_of, bindings_between_commas, bindings_of};

use crate::binding::{gather, resolve};
use crate::{BindFault, Options, Partial};
use cov_base::{MemoryOr, Text, spells_word};
use std::alloc::Global;
use std::marker::Model;

/// A text that isn't the text of a choice.
#[derive(Clone, Copy, Debug, PartialEq, Eq)]
pub struct ChoiceSyntax;

/// The bindings of a choice in the order in which they are written, with names that may be no option's.
#[derive(Drop)]
pub struct RawChoice {
    bindings: Vec<(Text, bool)>,
}

impl Model for RawChoice {
    ghost use Rattle.std.specs.Prelude.{List, ℕ, Bool};

    ghost Value = { List (List ℕ × Bool) };

    ghost view = { λ c. c.bindings.items };
}

impl RawChoice {
    /// Reads `-`, or bindings `name=on` and `name=off` with one comma between two. The refusal comes exactly where the
    /// text is neither.
    pub fn parse(alloc: Global, bytes: &[u8]) -> Result<RawChoice, MemoryOr<ChoiceSyntax>>
        ensures ok { IfOk result (λ raw. bindings_of bytes.now ≡ Some raw) }
        ensures refused { IsErrOf result (MemoryOr.Refused (record {})) →
            bindings_of bytes.now ≡ None }
    {
        if matches!(bytes, b"-") {
            return Ok(RawChoice {
                bindings: Vec::new(alloc),
            });
        }
        match read_bindings(alloc, bytes) {
            Ok(bindings) => Ok(RawChoice { bindings }),
            Err(refusal) => Err(refusal),
        }
    }
}

impl RawChoice {
    /// Binds the names to the options that have them. A first unknown name comes before any option bound twice; both
    /// are sought in the order of the text.
    pub fn bind(&self, alloc: Global, options: &Options) -> Result<Partial, BindFault>
        ensures ok { IfOk result (λ partial. bound options.now.names self.now ≡ Ok partial) }
        ensures within { IfOk result (λ partial.
            list_all (λ b. nat_lt b.0 (length options.now.names)) partial ≡ true) }
        ensures refused { IfErr result (IsBindFaultOf (bound options.now.names self.now)) }
    {
        match resolve(alloc, self.bindings.as_slice(), options) {
            Err(fault) => Err(fault),
            Ok(bindings) => gather(alloc, bindings.as_slice(), options.count()),
        }
    }
}

// Reads bindings with one comma between two.
fn read_bindings(alloc: Global, text: &[u8]) -> Result<Vec<(Text, bool)>, MemoryOr<ChoiceSyntax>>
    ensures ok { IfOk result (λ bindings. bindings_between_commas text.now ≡ Some bindings.items) }
    ensures refused { IsErrOf result (MemoryOr.Refused (record {})) →
        bindings_between_commas text.now ≡ None }
{
    let mut bindings = Vec::new(alloc);
    let mut ahead = Some(text);
    while let Some(text) = ahead {
        let (part, rest) = first_part(text);
        let Some((name, on)) = binding_in(part) else {
            return Err(MemoryOr::Refused(ChoiceSyntax));
        };
        bindings.push((Text::from_slice(alloc, name)?, on))?;
        ahead = rest;
    }
    Ok(bindings)
}

// The part of a text before the first comma, and what stands behind that comma.
fn first_part(text: &[u8]) -> (&[u8], Option<&[u8]>)
    ensures none { IfNone result.1 (slice_split (λ b. nat_eq b 44) text.now ≡ result.0.now ∷ []) }
    ensures some { IfSome result.1 (λ rest.
        slice_split (λ b. nat_eq b 44) text.now ≡
        result.0.now ∷ slice_split (λ b. nat_eq b 44) rest.now) }
    ensures shorter { IfSome result.1 (λ rest. length rest.now < length text.now) }
{
    match split_once(text, b',') {
        None => (text, None),
        Some((part, rest)) => (part, Some(rest)),
    }
}

// The binding that a text is, None exactly where it is none.
fn binding_in(text: &[u8]) -> Option<(&[u8], bool)>
    ensures { option_map (λ b. (b.0.now, b.1)) result ≡ binding_of text.now }
{
    let (name, value) = split_once(text, b'=')?;
    let on = switch_in(value)?;
    if spells_word(name) {
        return Some((name, on));
    }
    None
}

// What stands before and behind the first byte of a kind.
fn split_once(text: &[u8], byte: u8) -> Option<(&[u8], &[u8])>
    ensures none { IfNone result (position (λ b. nat_eq b byte) text.now ≡ None) }
    ensures found { IfSome result (λ _.
        position_or_len (λ b. nat_eq b byte) text.now < length text.now) }
    ensures before { IfSome result (λ r. r.0.now ≡ before_first (λ b. nat_eq b byte) text.now) }
    ensures after { IfSome result (λ r. r.1.now ≡ after_first (λ b. nat_eq b byte) text.now) }
{
    match place_of(text, byte) {
        None => None,
        Some(at) => Some((&text[..at], &text[at + 1..])),
    }
}

fn place_of(text: &[u8], byte: u8) -> Option<usize>
    ensures place { result ≡ position (λ b. nat_eq b byte) text.now }
    ensures within { IfSome result (λ at. at < length text.now) }
{
    text.iter().position(|b| *b == byte)
}

/// What `on` and `off` stand for; None exactly where the word is neither.
pub fn switch_in(word: &[u8]) -> Option<bool>
    ensures { result ≡ switch_of word.now }
{
    match word {
        b"on" => Some(true),
        b"off" => Some(false),
        _ => None,
    }
}
