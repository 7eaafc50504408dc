// Where a listing leads.
ghost use Rattle.std.specs.Prelude.{◌≡◌, ◌++◌, OnOk, codes};
ghost use Rattle.cov_script.specs.Replies.{target_text};

use crate::word::{append_number, append_word};
use cov_base::{Memory, Text};
use std::alloc::Global;

/// Where a listing begins, or an entry of it leads with its option off or on.
#[derive(Clone, Copy, Debug, PartialEq, Eq)]
pub enum Target {
    /// The line isn't there.
    F,
    /// The line is there.
    T,
    /// The entry with this number, from 0, decides.
    At(u64),
}

/// Appends a target behind a space.
pub(crate) fn append_target(alloc: Global, text: &mut Text, target: Target) -> Result<(), Memory>
    ensures { OnOk result (text.new ≡ text.old ++ codes " " ++ target_text target) }
{
    match target {
        Target::F => append_word(text, b"F"),
        Target::T => append_word(text, b"T"),
        Target::At(index) => append_number(alloc, text, index),
    }
}
