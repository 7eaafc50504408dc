// The lines of one file.
ghost use Rattle.std.specs.Prelude.{◌≡◌, ◌≤◌, ◌∷◌, ◌++◌, [], length, position, IfOk, OnOk, OnErr};
ghost use Rattle.std.specs.List.{insert};
ghost use Rattle.cov_view.specs.References.{is_head, same_line};
ghost use Rattle.cov_view.specs.Lines.{is_among, after_ref, without_ref};
ghost use Rattle.cov_view.specs.SeenTree.{ended_lines};

use cov_base::{LineRef, List, Memory, Text};

/// A line of a file.
#[derive(Debug, Drop)]
pub struct ViewLine {
    pub line: LineRef,
    pub text: Text,
}

impl ViewLine {
    /// The same line, which shares its text.
    pub fn copy(&self) -> Result<ViewLine, Memory>
        ensures { IfOk result (λ line. line ≡ self.now) }
    {
        Ok(ViewLine {
            line: self.line,
            text: self.text.copy()?,
        })
    }
}

/// The lines of a file, in order.
pub type ViewLines = List<ViewLine>;

/// The same lines, which share their texts.
pub(crate) fn copied(lines: &ViewLines) -> Result<ViewLines, Memory>
    ensures { IfOk result (λ copy. copy ≡ lines.now) }
{
    let mut copy = ViewLines::new(lines.allocator());
    'lines: for line in lines.as_slice() {
        copy.push(line.copy()?)?;
    }
    Ok(copy)
}

/// Appends the bytes of lines, with the end of each.
pub(crate) fn append_text(lines: &ViewLines, text: &mut Text) -> Result<(), Memory>
    ensures { OnOk result (text.new ≡ text.old ++ ended_lines lines.now) }
{
    let mut ahead = lines.as_slice();
    while let [first, rest @ ..] = ahead {
        append_line(text, first.text.as_slice())?;
        ahead = rest;
    }
    Ok(())
}

/// Appends the bytes of a line and its end.
pub(crate) fn append_line(text: &mut Text, line: &[u8]) -> Result<(), Memory>
    ensures { OnOk result (text.new ≡ text.old ++ line.now ++ 10 ∷ []) }
{
    text.append(line)?;
    text.push(10)
}

/// Puts a line directly after its anchor, or first where that is the head.
pub(crate) fn insert_after(
    lines: &mut ViewLines,
    after: &LineRef,
    line: ViewLine,
) -> Result<(), Memory>
    ensures ok { OnOk result (lines.new ≡ after_ref after.now line lines.old) }
    ensures err { OnErr result (lines.new ≡ lines.old) }
{
    let at = place(lines.as_slice(), after);
    lines.insert(at, line)
}

/// Takes a line out, without memory and in one pass over the lines.
pub(crate) fn delete(lines: &mut ViewLines, line: &LineRef)
    ensures { lines.new ≡ without_ref line.now lines.old }
{
    lines.retain(|other| !same_line(&other.line, line));
}

// The index at which a line directly after an anchor stands.
fn place(lines: &[ViewLine], after: &LineRef) -> usize
    ensures place { (line : ViewLine) → insert lines.now result line ≡
        after_ref after.now line lines.now }
    ensures within { result ≤ length lines.now }
{
    if is_head(after) {
        return 0;
    }
    match find(lines, after) {
        Some(at) => at + 1,
        None => lines.len(),
    }
}

fn find(lines: &[ViewLine], line: &LineRef) -> Option<usize>
    ensures { result ≡ position (λ l. same_line l.line line.now) lines.now }
{
    lines.iter().position(|other| same_line(&other.line, line))
}

pub(crate) fn is_among(lines: &[ViewLine], line: &LineRef) -> bool
    ensures { result ≡ is_among line.now lines.now }
{
    lines.iter().any(|other| same_line(&other.line, line))
}

/// Whether a reference names the head of a file, which stands before its lines and is none of them.
pub fn is_head(line: &LineRef) -> bool
    ensures { result ≡ is_head line.now }
{
    match line {
        LineRef::Old(number) => number.number() == 0,
        LineRef::New(_) => false,
    }
}

pub(crate) fn same_line(left: &LineRef, right: &LineRef) -> bool
    ensures { result ≡ same_line left.now right.now }
{
    match left {
        LineRef::Old(x) => match right {
            LineRef::Old(y) => x.number() == y.number(),
            LineRef::New(_) => false,
        },
        LineRef::New(i) => match right {
            LineRef::Old(_) => false,
            LineRef::New(j) => *i == *j,
        },
    }
}
