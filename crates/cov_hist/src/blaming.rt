// Where the lines of a file come from.
ghost use Rattle.std.specs.Prelude.{◌≡◌, [], ◌∷◌, ◌++◌, map, Some, IfOk, OnOk};
ghost use Rattle.std.specs.List.{AllByRecursion};
ghost use Rattle.cov_hist.specs.Origins.{blame, blame_row, origin, HasOrigin};

use crate::{BlameRow, BlameRows, origin};
use cov_base::{Choice, FileRow, Memory, NodeNo};
use cov_engine::Engine;
use std::alloc::Global;

/// The lines of a file in the variant of a choice, in the order in which they stand there, each with the position of the commit that
/// inserts it; whether the file is there or not, and none where the number isn't a file's. It takes time in the lines ever inserted
/// into that file, and for each line told in as many positions as halvings leave.
pub fn blame(
    alloc: Global,
    engine: &Engine,
    choice: Choice,
    file: NodeNo,
) -> Result<BlameRows, Memory>
    ensures rows { IfOk result (λ rows. rows ≡ blame engine.now.history choice file) }
    ensures origins { IfOk result (λ rows.
        AllByRecursion (λ row. origin engine.now.history row.line ≡ Some row.position) rows) }
{
    let lines = engine.lines_at(file, choice, engine.position())?;
    with_origins(alloc, engine, lines.as_slice())
}

// Lines, each with its origin.
fn with_origins(alloc: Global, engine: &Engine, lines: &[FileRow]) -> Result<BlameRows, Memory>
    requires { AllByRecursion (HasOrigin engine.now.history) lines.now }
    ensures { IfOk result (λ rows. rows ≡ map (blame_row engine.now.history) lines.now) }
{
    let mut rows = BlameRows::new(alloc);
    let mut ahead = lines;
    while let [line, rest @ ..] = ahead {
        add_line(&mut rows, engine, line)?;
        ahead = rest;
    }
    Ok(rows)
}

// Adds a line with its origin.
fn add_line(rows: &mut BlameRows, engine: &Engine, line: &FileRow) -> Result<(), Memory>
    requires { HasOrigin engine.now.history line.now }
    ensures { OnOk result (rows.new ≡ rows.old ++ blame_row engine.now.history line.now ∷ []) }
{
    let Some(position) = origin(engine, line.line) else {
        unreachable!()
    };
    let text = line.text.copy()?;
    rows.push(BlameRow {
        position,
        line: line.line,
        text,
    })
}
