// Words and numbers of a reply.
ghost use Rattle.std.specs.Prelude.{◌≡◌, ◌++◌, OnOk, codes};
ghost use Rattle.std.specs.Fmt.{decimal};

use cov_base::{Memory, Text};
use itoa::Buffer;
use std::alloc::Global;

/// Appends a number behind a space.
pub(crate) fn append_number(alloc: Global, text: &mut Text, number: u64) -> Result<(), Memory>
    ensures { OnOk result (text.new ≡ text.old ++ codes " " ++ decimal number) }
{
    let number = format!(in alloc; "{number}")?;
    append_word(text, number.as_bytes())
}

/// Appends a word behind a space.
pub(crate) fn append_word(text: &mut Text, word: &[u8]) -> Result<(), Memory>
    ensures { OnOk result (text.new ≡ text.old ++ codes " " ++ word.now) }
{
    text.append(b" ")?;
    text.append(word)
}

/// Appends words and a number behind them; nothing but the text takes memory.
pub(crate) fn append_numbered(text: &mut Text, words: &[u8], number: u32) -> Result<(), Memory>
    ensures { OnOk result (text.new ≡ text.old ++ words.now ++ decimal number) }
{
    let mut digits = Buffer::new();
    text.append(words)?;
    text.append(digits.format(number).as_bytes())
}
