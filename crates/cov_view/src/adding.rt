// Lines of a history as lines of a view.
ghost use Rattle.std.specs.Prelude.{◌≡◌, map, IfOk};
ghost use Rattle.cov_view.specs.Seen.{old_line};

use crate::{ViewLine, ViewLines};
use cov_base::{FileRow, FileRows, LineRef, Memory};

/// The lines of a history, which share their texts.
pub(crate) fn old_lines(lines: &FileRows) -> Result<ViewLines, Memory>
    ensures { IfOk result (λ made. made ≡ map old_line lines.now) }
{
    let mut made = ViewLines::new(lines.allocator());
    'lines: for line in lines.as_slice() {
        made.push(old_line(line)?)?;
    }
    Ok(made)
}

// A line that a history has, which shares its text.
pub(crate) fn old_line(row: &FileRow) -> Result<ViewLine, Memory>
    ensures { IfOk result (λ line. line ≡ old_line row.now) }
{
    Ok(ViewLine {
        line: LineRef::Old(row.line),
        text: row.text.copy()?,
    })
}
