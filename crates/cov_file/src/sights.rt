// Lists of what a file shows that are kept, each with the values of nodes under which it is right.
ghost use Rattle.std.specs.Prelude.{◌≡◌, ◌<◌, ◌≤◌, ◌+◌, ℕ, Bool, List, true, not, Some, filter, length, nat_eq, position, IfSome, IfOk};
ghost use Rattle.std.specs.List.{insert};
ghost use Rattle.cov_order.specs.Orders.{AreLines};
ghost use Rattle.cov_file.specs.Dated.{DatedLine, file_row_of, line_numbers_of, new_line, newest_of, newest_vis, with_change, with_line};
ghost use Rattle.cov_file.specs.Sights.{rows_by};
ghost use Rattle.cov_values.specs.Values.{Agrees};
ghost use Rattle.cov_file.specs.Forward.{is_shown_by, AreRowsAfter};

use cov_base::{FileRow, FileRows, LineNo, Memory, Shared, SharedRows, Text};
use cov_dd::Node;
use cov_values::{ShownChange, Sight, Values};

/// What a file shows where certain nodes have certain values, as they have on a choice; None once it was let go.
pub(crate) type Kept = Sight<FileRows>;

/// The lists that are kept of a file.
pub(crate) type Sights = cov_values::Sights<FileRows>;

/// A change of the lines of a file.
#[derive(Drop)]
pub(crate) enum LineChange<'a> {
    /// A line is put directly after its anchor, whose newest node stands beside it.
    Insert {
        anchor: LineNo,
        beside: Option<Node>,
        line: LineNo,
        text: &'a Text,
        vis: Node,
    },
    /// A line gets another node, in the place of the newest that it had.
    Delete {
        line: LineNo,
        before: Option<Node>,
        vis: Node,
    },
}

// It brings a list forward, or lets it go: where the value of a node of the change isn't known, or where the list changes and has
// another owner, or where there is no memory.
impl<'a> ShownChange<FileRows> for LineChange<'a> {
    ghost use Rattle.cov_file.specs.Forward.{AreRowsAfter};

    ghost brings = { AreRowsAfter };

    fn after(&self, shown: SharedRows, values: &Values) -> Option<SharedRows>
        ensures { IfSome result (AreRowsAfter self.now values.now shown) }
    {
        match self {
            LineChange::Insert {
                anchor,
                beside,
                line,
                text,
                vis,
            } => after_insert(shown, values, *anchor, *beside, *line, text, *vis),
            LineChange::Delete { line, before, vis } => {
                after_delete(shown, values, *line, *before, *vis)
            }
        }
    }
}

fn after_insert(
    rows: SharedRows,
    values: &Values,
    anchor: LineNo,
    beside: Option<Node>,
    line: LineNo,
    text: &Text,
    vis: Node,
) -> Option<SharedRows>
    ensures { IfSome result (λ after. (f : ℕ → Bool) (ls : List DatedLine) (at : ℕ) →
        Agrees f values.now → newest_of anchor ls ≡ beside → rows_by f ls ≡ rows →
        rows_by f (with_line anchor (new_line line text.now vis at) ls) ≡ after) }
{
    let Some(is_shown) = values.get(vis) else {
        return None;
    };
    if !is_shown {
        return Some(rows);
    }
    match place_behind(rows.lend().as_slice(), values, anchor, beside) {
        Some(at) => with_row(rows, at, line, text),
        None => None,
    }
}

fn after_delete(
    rows: SharedRows,
    values: &Values,
    line: LineNo,
    before: Option<Node>,
    vis: Node,
) -> Option<SharedRows>
    ensures { IfSome result (λ after. (f : ℕ → Bool) (ls : List DatedLine) (at : ℕ) →
        Agrees f values.now → newest_of line ls ≡ before → AreLines (line_numbers_of ls) →
        rows_by f ls ≡ rows → rows_by f (with_change line vis at ls) ≡ after) }
{
    let Some(is_shown) = values.get(vis) else {
        return None;
    };
    if !is_shown {
        return without_row(rows, line);
    }
    if is_true(values, before) {
        return Some(rows);
    }
    None
}

// Whether a node is known to be true.
fn is_true(values: &Values, node: Option<Node>) -> bool
    ensures { result ≡ true → (f : ℕ → Bool) → Agrees f values.now → is_shown_by f node ≡ true }
{
    match node {
        Some(node) => values.is_true(node),
        None => false,
    }
}

// Where a list has what stands directly after an anchor, None where the anchor isn't known to be shown.
fn place_behind(
    rows: &[FileRow],
    values: &Values,
    anchor: LineNo,
    beside: Option<Node>,
) -> Option<usize>
    ensures place { IfSome result (λ at. (f : ℕ → Bool) (ls : List DatedLine) (new : DatedLine) →
        Agrees f values.now → newest_of anchor ls ≡ beside → rows_by f ls ≡ rows.now →
        f (newest_vis new.changes) ≡ true →
        rows_by f (with_line anchor new ls) ≡ insert rows.now at (file_row_of new)) }
    ensures within { IfSome result (λ at. at ≤ length rows.now) }
{
    if anchor.number() == 0 {
        return Some(0);
    }
    if is_true(values, beside) {
        return place_after(rows, anchor);
    }
    None
}

// Where a list has what stands directly after a line, None where it hasn't the line.
fn place_after(rows: &[FileRow], line: LineNo) -> Option<usize>
    ensures place { IfSome result (λ at. (i : ℕ) × (at ≡ i + 1) ×
        (position (λ r. nat_eq r.line line) rows.now ≡ Some i)) }
    ensures within { IfSome result (λ at. at ≤ length rows.now) }
{
    match place_of(rows, line) {
        Some(at) => Some(at + 1),
        None => None,
    }
}

// Where a list has a line.
fn place_of(rows: &[FileRow], line: LineNo) -> Option<usize>
    ensures place { result ≡ position (λ r. nat_eq r.line line) rows.now }
    ensures within { IfSome result (λ at. at < length rows.now) }
{
    rows.iter().position(|row| is_line(row, line))
}

fn is_line(row: &FileRow, line: LineNo) -> bool
    ensures { result ≡ nat_eq row.now.line line }
{
    row.line == line
}

// A list with one line more, None where it has another owner or there is no memory.
fn with_row(rows: SharedRows, at: usize, line: LineNo, text: &Text) -> Option<SharedRows>
    requires { at ≤ length rows }
    ensures { IfSome result (λ more. more ≡
        insert rows at (record { line = line; text = text.now })) }
{
    match rows.into_own() {
        Some(own) => match inserted(own, at, line, text) {
            Ok(more) => Some(more),
            Err(_) => None,
        },
        None => None,
    }
}

fn inserted(rows: FileRows, at: usize, line: LineNo, text: &Text) -> Result<SharedRows, Memory>
    requires { at ≤ length rows }
    ensures { IfOk result (λ more. more ≡
        insert rows at (record { line = line; text = text.now })) }
{
    let mut rows = rows;
    let text = text.copy()?;
    rows.insert(at, FileRow { line, text })?;
    Shared::new(rows.allocator(), rows)
}

// A list without a line, None where it has the line and another owner, or where there is no memory.
fn without_row(rows: SharedRows, line: LineNo) -> Option<SharedRows>
    ensures { IfSome result (λ fewer. fewer ≡ filter (λ r. not (nat_eq r.line line)) rows) }
{
    match place_of(rows.lend().as_slice(), line) {
        Some(_) => own_without_row(rows, line),
        None => Some(rows),
    }
}

fn own_without_row(rows: SharedRows, line: LineNo) -> Option<SharedRows>
    ensures { IfSome result (λ fewer. fewer ≡ filter (λ r. not (nat_eq r.line line)) rows) }
{
    match rows.into_own() {
        Some(own) => {
            let mut rows = own;
            take_out(&mut rows, line);
            match Shared::new(rows.allocator(), rows) {
                Ok(fewer) => Some(fewer),
                Err(_) => None,
            }
        }
        None => None,
    }
}

fn take_out(rows: &mut FileRows, line: LineNo)
    ensures { rows.new ≡ filter (λ r. not (nat_eq r.line line)) rows.old }
{
    rows.retain(|row| !is_line(row, line));
}
