// The texts of replies of several lines.
ghost use Rattle.std.specs.Prelude.{◌≡◌, ◌++◌, ℕ, List, IfOk, OnOk};
ghost use Rattle.cov_lines.specs.Replies.{lines_reply, mark_byte};

use cov_alt::{AltLine, Mark};
use cov_base::{FileRow, Memory, Text};
use cov_hist::{BlameRow, LogRow};
use cov_script::{
    alt_line, append_blame_line, append_cat_line, append_log_line, append_text_line, list_line,
    reply_count, show_line,
};
use cov_view::{DirRow, ViewLine};
use std::alloc::Global;

/// What is told in one line of a reply.
pub(crate) trait Told {
    /// The line, with its end.
    ghost line: { Self → List ℕ };

    /// Appends the line to a reply.
    fn tell(&self, alloc: Global, reply: &mut Text) -> Result<(), Memory>
        ensures { OnOk result (reply.new ≡ reply.old ++ line self.now) };
}

impl Told for FileRow {
    ghost use Rattle.cov_lines.specs.Replies.{file_line};

    ghost line = { file_line };

    fn tell(&self, _alloc: Global, reply: &mut Text) -> Result<(), Memory> {
        append_cat_line(reply, self.line, &self.text)
    }
}

impl Told for ViewLine {
    ghost use Rattle.cov_lines.specs.Replies.{view_line};

    ghost line = { view_line };

    fn tell(&self, alloc: Global, reply: &mut Text) -> Result<(), Memory> {
        let line = show_line(alloc, self.line, &self.text)?;
        reply.append(line.as_slice())
    }
}

impl Told for DirRow {
    ghost use Rattle.cov_lines.specs.Replies.{node_line};

    ghost line = { node_line };

    fn tell(&self, alloc: Global, reply: &mut Text) -> Result<(), Memory> {
        let line = list_line(alloc, self.kind, &self.name)?;
        reply.append(line.as_slice())
    }
}

impl Told for AltLine {
    ghost use Rattle.cov_lines.specs.Replies.{marked_line};

    ghost line = { marked_line };

    fn tell(&self, alloc: Global, reply: &mut Text) -> Result<(), Memory> {
        let line = alt_line(alloc, mark_byte(self.mark), self.line, &self.text)?;
        reply.append(line.as_slice())
    }
}

impl Told for Text {
    ghost use Rattle.cov_script.specs.Replies.{text_line};

    ghost line = { text_line };

    fn tell(&self, _alloc: Global, reply: &mut Text) -> Result<(), Memory> {
        append_text_line(reply, self)
    }
}

impl Told for LogRow {
    ghost use Rattle.cov_lines.specs.Replies.{logged_line};

    ghost line = { logged_line };

    fn tell(&self, _alloc: Global, reply: &mut Text) -> Result<(), Memory> {
        append_log_line(reply, self.position, self.edits)
    }
}

impl Told for BlameRow {
    ghost use Rattle.cov_lines.specs.Replies.{blamed_line};

    ghost line = { blamed_line };

    fn tell(&self, _alloc: Global, reply: &mut Text) -> Result<(), Memory> {
        append_blame_line(reply, self.position, self.line, &self.text)
    }
}

fn mark_byte(mark: Mark) -> u8
    ensures { result ≡ mark_byte mark }
{
    match mark {
        Mark::Both => b'=',
        Mark::OnOnly => b'+',
        Mark::OffOnly => b'-',
    }
}

/// The reply that tells rows: how many there are, then a line for each.
pub(crate) fn lines_reply<T: Told>(alloc: Global, rows: &[T]) -> Result<Text, Memory>
    ensures { IfOk result (λ text. text ≡ lines_reply T.line rows.now) }
{
    let mut reply = reply_count(alloc, rows.len() as u64)?;
    let mut ahead = rows;
    'rows: while let [row, rest @ ..] = ahead {
        row.tell(alloc, &mut reply)?;
        ahead = rest;
    }
    Ok(reply)
}
