//! Edits and commands that are kept and copied.
ghost use Rattle.std.specs.Prelude.{◌≡◌, ◌<◌, ◌≤◌, [], IfOk, OnOk};
ghost use Rattle.cov_expr.specs.Formula.{reach};
ghost use Rattle.cov_edit.specs.Fits.{reach_of};
ghost use Rattle.cov_edit.specs.Sides.{reach_of_sides};

use cov_base::{Choice, Kind, LineNo, LineRef, Name, NodeNo, NodeRef, OptionId, Position, Text};
use cov_edit::{Command, Commands, Edit, Edits, Sided};
use cov_expr::{Expr, Part};
use std::alloc::Global;
use std::test::Fail;

// A file, a line in it, that line taken out, and the file renamed, moved and taken out, the last three under a side.
fn add_edits(alloc: Global, edits: &mut Edits, side: Expr) -> Result<(), Fail>
    requires new { edits.old ≡ [] }
    requires low { reach side ≤ 128 }
    ensures { OnOk result (reach_of_sides edits.new ≤ 128) }
{
    edits.push_alike(Edit::New {
        kind: Kind::File,
        parent: NodeRef::Old(NodeNo::new(0)),
        name: Name::read(alloc, b"m")?,
    })?;
    edits.push_alike(Edit::Insert {
        file: NodeRef::New(0),
        after: LineRef::Old(LineNo::new(0)),
        text: Text::new(alloc),
    })?;
    edits.push_alike(Edit::Delete {
        file: NodeRef::New(0),
        line: LineRef::New(0),
    })?;
    let edit = Edit::Rename {
        node: NodeRef::New(0),
        name: Name::read(alloc, b"n")?,
    };
    edits.push(Sided { side, edit })?;
    edits.push_alike(Edit::Move {
        node: NodeRef::New(0),
        parent: NodeRef::Old(NodeNo::new(0)),
    })?;
    edits.push_alike(Edit::Remove {
        node: NodeRef::New(0),
    })?;
    Ok(())
}

// An option as an expression.
fn option_of(number: u8) -> Result<Expr, Fail>
    requires { number < 128 }
    ensures { IfOk result (λ expr. reach expr ≤ 128) }
{
    match Expr::new(Part::Option(OptionId::new(number))) {
        Ok(expr) => Ok(expr),
        Err(_) => Err(Fail::from("no expression")),
    }
}

// A copy of these edits.
fn copied_edits(alloc: Global) -> Result<Edits, Fail>
    ensures { IfOk result (λ edits. reach_of_sides edits ≤ 128) }
{
    let side = option_of(0)?;
    let mut edits = Edits::new(alloc);
    let added = add_edits(alloc, &mut edits, side);
    let copy = edits.copy();
    drop(edits);
    added?;
    Ok(copy?)
}

fn commit(alloc: Global) -> Result<Command, Fail>
    ensures { IfOk result (λ command. reach_of command ≤ 128) }
{
    let edits = copied_edits(alloc)?;
    match option_of(1) {
        Ok(ambition) => Ok(Command::Commit {
            base: Position::new(0),
            choice: Choice::new(0, 0),
            ambition,
            edits,
        }),
        Err(fail) => {
            drop(edits);
            Err(fail)
        }
    }
}

// Keeps a copy of a command.
fn keep(alloc: Global, commands: &mut Commands, command: &Command) -> Result<(), Fail>
    requires { reach_of command.now ≤ 128 }
{
    commands.reserve()?;
    Ok(commands.push(command.copy(alloc)?)?)
}

fn keep_commit(alloc: Global, commands: &mut Commands) -> Result<(), Fail> {
    let commit = commit(alloc)?;
    let kept = keep(alloc, commands, &commit);
    drop(commit);
    kept
}

#[test]
fn commits_are_kept(rt: HostRuntime) -> Result<(), Fail> {
    let mut commands = Commands::new(rt.alloc());
    let kept = keep_commit(rt.alloc(), &mut commands);
    let count = commands.len();
    drop(commands);
    kept?;
    assert_eq!(rt; count, 1);
    Ok(())
}
