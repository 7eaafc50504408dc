// The lines of a file on both sides of an option.
ghost use Rattle.std.specs.Prelude.{◌≡◌, ◌<◌, length, None, Ok, IfOk, IfErr};
ghost use Rattle.cov_edit.specs.History.{option_count, first_false_in};
ghost use Rattle.cov_edit.specs.Replay.{replay};
ghost use Rattle.cov_alt.specs.Sides.{sides, side_of, file_found, sides_at, IsAnswer, IsAltFaultOf};
ghost use Rattle.cov_alt.specs.Marking.{on_choice};

use crate::marking::{Side, mark_all};
use crate::{AltFault, AltLines};
use cov_base::{Choice, Memory, NodeNo, OptionId, Path};
use cov_engine::Engine;
use std::alloc::Global;

/// The lines of a file with an option on and with it off, the other options being as in the choice: each with its mark, in the
/// order in which they stand in the file. The file is the one at the path in the variant of the choice; a side on which it is
/// absent has no lines. `SideInvalid` comes exactly where a constraint is false on a side, the other side being the choice itself,
/// and else `NoSuchPath` or `NotFile` exactly where nothing or a directory is at the path. It takes time in the rows and in the
/// lines ever inserted into the file.
pub fn alt(
    alloc: Global,
    engine: &Engine,
    choice: Choice,
    option: OptionId,
    path: &Path,
) -> Result<AltLines, AltFault>
    requires count { length choice ≡ option_count engine.now.history }
    requires valid { first_false_in engine.now.history choice ≡ None }
    requires option { option < length choice }
    ensures lines { IfOk result (λ lines.
        sides_at engine.now.history choice option path.now ≡ Ok lines) }
    ensures refused { IfErr result (IsAltFaultOf
        (sides_at engine.now.history choice option path.now)) }
{
    let on = match side(engine, choice, option, true) {
        Ok(on) => on,
        Err(fault) => return Err(fault),
    };
    let off = match side(engine, choice, option, false) {
        Ok(off) => off,
        Err(fault) => return Err(fault),
    };
    let file = match file_at(engine, choice, path) {
        Ok(file) => file,
        Err(fault) => return Err(fault),
    };
    match lines_of_sides(alloc, engine, file, on, off) {
        Ok(lines) => Ok(lines),
        Err(Memory) => Err(AltFault::Memory),
    }
}

// The choice with the option on, or off, unless a constraint is false on it.
fn side(engine: &Engine, choice: Choice, option: OptionId, on: bool) -> Result<Choice, AltFault>
    requires count { length choice ≡ option_count engine.now.history }
    requires option { option < length choice }
    ensures { result ≡ side_of engine.now.history choice option on }
{
    let side = choice.with(option, on);
    match engine.valid(side) {
        Ok(()) => Ok(side),
        Err(invalid) => Err(AltFault::SideInvalid {
            on,
            rule: invalid.rule,
        }),
    }
}

// The file at a path in the variant of a choice.
fn file_at(engine: &Engine, choice: Choice, path: &Path) -> Result<NodeNo, AltFault>
    ensures { IsAnswer (file_found (replay choice engine.now.history) path.now) result }
{
    match engine.file_at(choice, engine.position(), path.as_slice()) {
        Ok(file) => Ok(file),
        Err(fault) => Err(AltFault::from(fault)),
    }
}

// The lines of a file in the variants of two choices.
fn lines_of_sides(
    alloc: Global,
    engine: &Engine,
    file: NodeNo,
    on: Choice,
    off: Choice,
) -> Result<AltLines, Memory>
    ensures { IfOk result (λ lines. lines ≡ sides engine.now.history on off file) }
{
    let on = side_with(engine, on, file);
    let off = side_with(engine, off, file);
    let rows = engine.file_lines(file)?;
    mark_all(alloc, engine, rows.as_slice(), &on, &off)
}

// A choice, and whether a file is in its variant.
fn side_with(engine: &Engine, choice: Choice, file: NodeNo) -> Side
    ensures { result ≡ on_choice engine.now.history choice file }
{
    let has_file = engine.has_node(file, choice, engine.position());
    Side { choice, has_file }
}
