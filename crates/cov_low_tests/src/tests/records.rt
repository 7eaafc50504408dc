//! Records of commands, and bytes that are none.
ghost use Rattle.std.specs.Prelude.{◌≡◌, ◌<◌, ◌^◌, IfOk, OnOk, [], true, length};
ghost use Rattle.cov_edit.specs.EditFits.{has_line_text};
ghost use Rattle.cov_edit.specs.History.{edits_in};

use cov_base::{
    Choice, Kind, LineNo, LineRef, Memory, MemoryOr, Name, NodeNo, NodeRef, OptionId, Position,
    Text,
};
use cov_edit::{Command, Edit, Edits, Sided};
use cov_expr::{Expr, Part};
use cov_record::{decode, encode};
use std::alloc::Global;
use std::test::Fail;

// Whether the bytes are the record of a command.
fn is_record(alloc: Global, command: &Command, bytes: &[u8]) -> Result<bool, Memory>
    requires { length (edits_in command.now) < 2 ^ 32 }
{
    let text = encode(alloc, command)?;
    Ok(text.as_slice() == bytes)
}

fn edit_count(command: &Command) -> usize
    ensures { result ≡ length (edits_in command.now) }
{
    match command {
        Command::Commit { edits, .. } => edits.len(),
        Command::Option { .. }
        | Command::Constraint { .. }
        | Command::Prefer { .. }
        | Command::Default { .. }
        | Command::Upgrade => 0,
    }
}

// Whether the bytes are a record of few edits, and that of the command which they give.
fn comes_back(alloc: Global, bytes: &[u8]) -> Result<bool, Memory> {
    match decode(alloc, bytes) {
        Ok(command) => match edit_count(&command) < 10 {
            true => is_record(alloc, &command, bytes),
            false => Ok(false),
        },
        Err(MemoryOr::Memory) => Err(Memory),
        Err(MemoryOr::Refused(_)) => Ok(false),
    }
}

// The record of a commit at base 1 on the choice d=on, with the ambition d, that makes a file `x` and inserts `A` into it.
const COMMIT: &[u8; 36] =
    b"\x05\0\0\0\x01\x01\x01\x02\0\0\0\0\x02\x01\0\0\0\0\0\0\x01x\x02\x01\0\0\0\0\0\0\0\0\0\0\x01A";

// The record of a commit at base 1 on the choice d=on, with the ambition true, that makes a file `x` where d is true.
const SIDED: &[u8; 27] =
    b"\x06\0\0\0\x01\x01\x01\x01\0\0\0\x01\x02\0\0\0\0\x01\x01\0\0\0\0\0\0\x01x";

// A new file `x` in the root.
fn make_file(alloc: Global) -> Result<Edit, Memory>
    ensures { IfOk result (λ edit. has_line_text edit ≡ true) }
{
    match Name::read(alloc, b"x") {
        Ok(name) => Ok(Edit::New {
            kind: Kind::File,
            parent: NodeRef::Old(NodeNo::new(0)),
            name,
        }),
        Err(_) => Err(Memory),
    }
}

// The edits of the first commit.
fn add_edits(alloc: Global, edits: &mut Edits) -> Result<(), Fail>
    requires { edits.old ≡ [] }
    ensures { OnOk result (length edits.new ≡ 2) }
{
    edits.push_alike(make_file(alloc)?)?;
    edits.push_alike(Edit::Insert {
        file: NodeRef::New(0),
        after: LineRef::Old(LineNo::new(0)),
        text: Text::from_slice(alloc, b"A")?,
    })?;
    Ok(())
}

// The option d as an expression.
fn the_option() -> Result<Expr, Fail> {
    match Expr::new(Part::Option(OptionId::new(0))) {
        Ok(expr) => Ok(expr),
        Err(_) => Err(Fail::from("no expression")),
    }
}

// The edit of the second commit.
fn add_sided(alloc: Global, edits: &mut Edits) -> Result<(), Fail>
    requires { edits.old ≡ [] }
    ensures { OnOk result (length edits.new ≡ 1) }
{
    let edit = make_file(alloc)?;
    let side = the_option()?;
    edits.push(Sided { side, edit })?;
    Ok(())
}

// The commit with these edits.
fn commit_of(ambition: Part, edits: Edits) -> Result<Command, Fail>
    ensures { IfOk result (λ command. length (edits_in command) ≡ length edits) }
{
    match Expr::new(ambition) {
        Ok(ambition) => Ok(Command::Commit {
            base: Position::new(1),
            choice: Choice::new(1, 1),
            ambition,
            edits,
        }),
        Err(_) => {
            drop(edits);
            Err(Fail::from("no expression"))
        }
    }
}

fn commit(alloc: Global) -> Result<Command, Fail>
    ensures { IfOk result (λ command. length (edits_in command) ≡ 2) }
{
    let mut edits = Edits::new(alloc);
    match add_edits(alloc, &mut edits) {
        Ok(_) => commit_of(Part::Option(OptionId::new(0)), edits),
        Err(fail) => {
            drop(edits);
            Err(fail)
        }
    }
}

fn sided_commit(alloc: Global) -> Result<Command, Fail>
    ensures { IfOk result (λ command. length (edits_in command) ≡ 1) }
{
    let mut edits = Edits::new(alloc);
    match add_sided(alloc, &mut edits) {
        Ok(_) => commit_of(Part::True, edits),
        Err(fail) => {
            drop(edits);
            Err(fail)
        }
    }
}

#[test]
fn a_commit_has_its_record(rt: HostRuntime) -> Result<(), Fail> {
    let commit = commit(rt.alloc())?;
    let is_record = is_record(rt.alloc(), &commit, COMMIT);
    drop(commit);
    assert!(rt; is_record?);
    Ok(())
}

#[test]
fn a_commit_with_sides_has_its_record(rt: HostRuntime) -> Result<(), Fail> {
    let commit = sided_commit(rt.alloc())?;
    let is_record = is_record(rt.alloc(), &commit, SIDED);
    drop(commit);
    assert!(rt; is_record?);
    Ok(())
}

#[test]
fn an_upgrade_has_its_record(rt: HostRuntime) -> Result<(), Fail> {
    let upgrade = Command::Upgrade;
    let is_record = is_record(rt.alloc(), &upgrade, b"\x07");
    drop(upgrade);
    assert!(rt; is_record?);
    Ok(())
}

// Bytes, and whether they are a record.
const RECORDS: [(&[u8], bool); 27] = [
    (COMMIT, true),
    (
        b"\x05\0\0\0\x01\x01\x01\x02\0\0\0\0\x02\x01\0\0\0\0\0\0\x01x\x02\x01\0\0\0\0\0\0\0\0\0\0\x01A\0",
        false,
    ),
    (
        b"\x05\0\0\0\x01\x01\x01\x02\0\0\0\0\x02\x01\0\0\0\0\0\0\x01x\x02\x01\0\0\0\0\0\0\0\0\0\0\x01",
        false,
    ),
    (b"", false),
    (b"\x01\x01a", true),
    (b"\x01\x01ab", false),
    (b"\x01\x05ab", false),
    (b"\x04\x7f\x01", true),
    (b"\x04\x80\x01", false),
    (b"\x05\0\0\0\0\0\x01\0\0\0\0", true),
    (b"\x05\0\0\0\0\0\x01\xff\xff\xff\xff", false),
    (b"\x06", false),
    (SIDED, true),
    // The side `true` alone.
    (
        b"\x06\0\0\0\x01\x01\x01\x01\0\0\0\x01\x01\0\0\0\x01\x01\0\0\0\0\0\0\x01x",
        false,
    ),
    // No run.
    (b"\x06\0\0\0\0\0\x01\0\0\0\0", false),
    // A run without edits, alone and before one with an edit.
    (b"\x06\0\0\0\0\0\x01\0\0\0\x01\x02\0\0\0\0\0", false),
    (
        b"\x06\0\0\0\0\0\x01\0\0\0\x02\x01\0\0\0\0\x02\0\0\0\0\x01\x06\0\0\0\0\x01",
        false,
    ),
    // Two runs of one side, and of two.
    (
        b"\x06\0\0\0\0\0\x01\0\0\0\x02\x02\0\0\0\0\x01\x06\0\0\0\0\x01\x02\0\0\0\0\x01\x06\0\0\0\0\x01",
        false,
    ),
    (
        b"\x06\0\0\0\0\0\x01\0\0\0\x02\x02\0\0\0\0\x01\x06\0\0\0\0\x01\x01\0\0\0\x01\x06\0\0\0\0\x01",
        true,
    ),
    // More runs and more edits than there are.
    (b"\x06\0\0\0\0\0\x01\xff\xff\xff\xff", false),
    (
        b"\x06\0\0\0\0\0\x01\xff\xff\xff\xff\x02\0\0\0\0\x01\x06\0\0\0\0\x01",
        false,
    ),
    (
        b"\x06\0\0\0\0\0\x01\0\0\0\x01\x02\0\xff\xff\xff\xff\x06\0\0\0\0\x01",
        false,
    ),
    // A side with the option 128.
    (
        b"\x06\0\0\0\0\0\x01\0\0\0\x01\x02\x80\0\0\0\x01\x06\0\0\0\0\x01",
        false,
    ),
    // An upgrade, which has no bytes behind it, and a byte that begins no record.
    (b"\x07", true),
    (b"\x07\0", false),
    (b"\x07\x07", false),
    (b"\x08", false),
];

// Whether so many `!` before `true` come back, between what stands before and behind them in a record.
fn nots_come_back(
    alloc: Global,
    before: &[u8],
    count: usize,
    behind: &[u8],
) -> Result<bool, Memory> {
    let mut bytes = Text::new(alloc);
    bytes.append(before)?;
    for _ in 0..count {
        bytes.push(3)?;
    }
    bytes.push(1)?;
    bytes.append(behind)?;
    comes_back(alloc, bytes.as_slice())
}

// The same as a constraint, and as the side of a commit's one edit.
fn constraint_comes_back(alloc: Global, count: usize) -> Result<bool, Memory> {
    nots_come_back(alloc, b"\x02", count, b"")
}

fn side_comes_back(alloc: Global, count: usize) -> Result<bool, Memory> {
    let before = b"\x06\0\0\0\0\0\x01\0\0\0\x01";
    nots_come_back(alloc, before, count, b"\0\0\0\x01\x06\0\0\0\0\x01")
}

#[test]
fn bytes_are_records_of_their_commands(rt: HostRuntime) -> Result<(), Fail> {
    for (bytes, is_record) in RECORDS {
        assert_eq!(rt; comes_back(rt.alloc(), bytes)?, is_record);
    }
    for (count, is_record) in [(255, true), (256, false), (100_000, false)] {
        assert_eq!(rt; constraint_comes_back(rt.alloc(), count)?, is_record);
        assert_eq!(rt; side_comes_back(rt.alloc(), count)?, is_record);
    }
    Ok(())
}
