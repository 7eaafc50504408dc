// Which commit inserts a line.
ghost use Rattle.std.specs.Prelude.{◌≡◌, ◌≤◌, ◌<◌, ◌&&◌, nat_le, nat_lt, Some, is_none};
ghost use Rattle.cov_edit.specs.Numbering.{line_count};
ghost use Rattle.cov_engine.specs.Visibility.{is_no_line};
ghost use Rattle.cov_hist.specs.Origins.{origin};

use cov_base::{LineNo, Position};
use cov_engine::Engine;

/// The position of the commit that inserts a line. None exactly where the number is 0 or above the count of lines. Takes no memory,
/// and looks at as many positions as halvings leave.
pub fn origin(engine: &Engine, line: LineNo) -> Option<Position>
    ensures origin { result ≡ origin engine.now.history line }
    ensures none { is_none result ≡ is_no_line engine.now.history line }
{
    match is_inserted(engine, line) {
        true => Some(first_with(engine, line)),
        false => None,
    }
}

// Whether the history inserts a line with a number.
fn is_inserted(engine: &Engine, line: LineNo) -> bool
    ensures { result ≡ (nat_lt 0 line && nat_le line (line_count engine.now.history)) }
{
    line.number() > 0 && line.number() <= engine.counts().lines
}

// The first position up to which a line is inserted.
fn first_with(engine: &Engine, line: LineNo) -> Position
    requires some { 0 < line }
    requires has { line ≤ line_count engine.now.history }
    ensures { origin engine.now.history line ≡ Some result }
{
    let mut before = 0;
    let mut with = engine.position().number();
    while with - before > 1 {
        let middle = before + (with - before) / 2;
        if engine.line_count_at(Position::new(middle)) < line.number() {
            before = middle;
        } else {
            with = middle;
        }
    }
    Position::new(with)
}
