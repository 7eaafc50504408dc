// How a line is read.
ghost use Rattle.std.specs.Prelude.{◌≡◌, ◌<◌, ◌^◌, length};
ghost use Rattle.cov_base.specs.Answers.{IsOrMemory};
ghost use Rattle.cov_script.specs.Fields.{is_memory};
ghost use Rattle.cov_script.specs.Lines.{form_of, spoken};

use crate::form::read_behind;
use crate::keyword::Keyword;
use crate::unread::{Unread, cut};
use crate::{Line, LineSyntax};
use std::alloc::Global;

/// Reads a line without its end, in work that is linear in it. A refusal comes exactly where the line has no form, with
/// the place of the first mistake from the left, or where its expression is too long.
pub fn read_line(alloc: Global, bytes: &[u8]) -> Result<Line, LineSyntax>
    requires { length bytes.now < 2 ^ 32 }
    ensures { IsOrMemory is_memory (form_of bytes.now) result }
{
    match bytes {
        [] | [b'#', ..] => Ok(Line::Nothing),
        _ => read_spoken(alloc, bytes),
    }
}

fn read_spoken(alloc: Global, bytes: &[u8]) -> Result<Line, LineSyntax>
    requires { length bytes.now < 2 ^ 32 }
    ensures { IsOrMemory is_memory (spoken bytes.now) result }
{
    let (word, rest) = cut(bytes);
    match Keyword::read(word) {
        Some(keyword) => read_behind(alloc, keyword, Unread::new(bytes.len() as u32, rest)),
        None => Err(LineSyntax::Syntax { at: 0 }),
    }
}
