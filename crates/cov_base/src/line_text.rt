// What can stand as the text of a line.
ghost use Rattle.std.specs.Prelude.{◌≡◌, nat_eq};
ghost use Rattle.std.specs.List.{list_any};
ghost use Rattle.cov_base.specs.Spelling.{is_line_text};

use crate::MOST_TEXT_BYTES;

/// Whether bytes are at most `MOST_TEXT_BYTES`, without a line end. It is linear in them.
pub fn is_line_text(bytes: &[u8]) -> bool
    ensures { result ≡ is_line_text bytes.now }
{
    bytes.len() <= MOST_TEXT_BYTES && !has_line_end(bytes)
}

fn has_line_end(bytes: &[u8]) -> bool
    ensures { result ≡ list_any (λ b. nat_eq b 10) bytes.now }
{
    bytes.iter().any(|b| *b == b'\n')
}
