//! Files and directories that are renamed, moved and removed for some variants, and commits that would leave a variant unsound.
ghost use Rattle.std.specs.Prelude.{◌≡◌, ◌++◌, [], ◌∷◌, true, false, codes, IfOk, OnOk};
ghost use Rattle.cov_base.specs.Spelling.{is_line_text};
ghost use Rattle.cov_base.specs.declared.number.NodeRef.TheVariants as nodes;
ghost use Rattle.cov_edit.specs.EditFits.{has_line_text};
ghost use Rattle.cov_edit.specs.Sides.{sided};
ghost use Rattle.cov_edit.specs.declared.edit.Edit.TheVariants as edits;
ghost use Rattle.cov_expr.specs.Formula.{True};
ghost use Rattle.cov_engine_tests.specs.Trees.{commit_in, everywhere, of_option, file_in_root, dir_in_root, line_of, renaming, moving, removing, begun, renamed, grown, file_for_d, directories};

use crate::tests::steps::{append, close, command, commit};
use cov_base::{
    Choice, Kind, LineNo, LineRef, Memory, Name, NodeNo, NodeRef, OptionId, OptionName, Path,
    Position, Text,
};
use cov_dd::TRUE;
use cov_edit::{Command, Edit, Edits, Sided};
use cov_engine::{Counts, Engine, FileFault, Refusal};
use cov_expr::{Expr, Part};
use std::alloc::Global;
use std::process::Abort;
use std::test::Fail;

/// Declares an option.
pub(crate) fn declare(alloc: Global, engine: &mut Engine, name: &[u8]) -> Result<(), Fail>
    ensures { OnOk result (engine.new.history ≡ engine.old.history ++ of_option name.now ∷ []) }
{
    let name = OptionName::read(alloc, name)?;
    append(engine, Command::Option { name })?;
    Ok(())
}

/// Adds an edit with the side `True`.
pub(crate) fn add(edits: &mut Edits, edit: Edit) -> Result<(), Fail>
    requires { has_line_text edit ≡ true }
    ensures { OnOk result (edits.new ≡ edits.old ++ sided True edit ∷ []) }
{
    let side = Expr::new(Part::True)?;
    edits.push(Sided { side, edit })?;
    Ok(())
}

/// Edits with one more.
pub(crate) fn also(edits: Edits, edit: Edit) -> Result<Edits, Fail>
    requires { has_line_text edit ≡ true }
    ensures { IfOk result (λ all. all ≡ edits ++ sided True edit ∷ []) }
{
    let mut edits = edits;
    match add(&mut edits, edit) {
        Ok(()) => Ok(edits),
        Err(fail) => Err(fail),
    }
}

/// One edit.
pub(crate) fn one(alloc: Global, edit: Edit) -> Result<Edits, Fail>
    requires { has_line_text edit ≡ true }
    ensures { IfOk result (λ all. all ≡ everywhere (edit ∷ [])) }
{
    also(Edits::new(alloc), edit)
}

pub(crate) fn old(node: u32) -> NodeRef
    ensures { result ≡ nodes.Old node }
{
    NodeRef::Old(NodeNo::new(node))
}

/// A file or directory made in a directory.
pub(crate) fn making(alloc: Global, kind: Kind, parent: u32, name: &[u8]) -> Result<Edit, Fail>
    ensures { IfOk result (λ edit. edit ≡ edits.New kind (nodes.Old parent) name.now) }
{
    let name = Name::read(alloc, name)?;
    Ok(Edit::New {
        kind,
        parent: old(parent),
        name,
    })
}

fn renaming(alloc: Global, node: u32, name: &[u8]) -> Result<Edits, Fail>
    ensures { IfOk result (λ all. all ≡ everywhere (renaming node name.now ∷ [])) }
{
    let name = Name::read(alloc, name)?;
    one(
        alloc,
        Edit::Rename {
            node: old(node),
            name,
        },
    )
}

fn moving(node: u32, parent: u32) -> Edit
    ensures { result ≡ moving node parent }
{
    Edit::Move {
        node: old(node),
        parent: old(parent),
    }
}

fn removing(node: u32) -> Edit
    ensures { result ≡ removing node }
{
    Edit::Remove { node: old(node) }
}

fn inserting(alloc: Global, file: u32, after: u32, text: &[u8]) -> Result<Edits, Fail>
    requires { is_line_text text.now ≡ true }
    ensures { IfOk result (λ all. all ≡ everywhere (line_of file after text.now ∷ [])) }
{
    let text = Text::from_slice(alloc, text)?;
    one(
        alloc,
        Edit::Insert {
            file: old(file),
            after: LineRef::Old(LineNo::new(after)),
            text,
        },
    )
}

// The file x and the directory a.
fn file_and_directory(alloc: Global) -> Result<Edits, Fail>
    ensures { IfOk result (λ all. all ≡
        everywhere (file_in_root (codes "x") ∷ dir_in_root (codes "a") ∷ [])) }
{
    let x = making(alloc, Kind::File, 0, b"x")?;
    let a = making(alloc, Kind::Dir, 0, b"a")?;
    also(one(alloc, x)?, a)
}

fn begin(alloc: Global, engine: &mut Engine) -> Result<(), Fail>
    requires { engine.old.history ≡ [] }
    ensures { OnOk result (engine.new.history ≡ begun) }
{
    declare(alloc, engine, b"p")?;
    declare(alloc, engine, b"q")?;
    let nodes = file_and_directory(alloc)?;
    commit(engine, 2, Choice::new(0, 2), None, nodes)?;
    let line = inserting(alloc, 1, 0, b"A")?;
    commit(engine, 3, Choice::new(0, 2), None, line)
}

fn rename(alloc: Global, engine: &mut Engine) -> Result<(), Fail>
    requires { engine.old.history ≡ begun }
    ensures { OnOk result (engine.new.history ≡ renamed) }
{
    let y = renaming(alloc, 1, b"y")?;
    commit(engine, 4, Choice::new(1, 2), Some(OptionId::new(0)), y)?;
    let z = renaming(alloc, 1, b"z")?;
    commit(engine, 5, Choice::new(2, 2), Some(OptionId::new(1)), z)
}

fn grow(alloc: Global, engine: &mut Engine) -> Result<(), Fail>
    requires { engine.old.history ≡ renamed }
    ensures { OnOk result (engine.new.history ≡ grown) }
{
    let removal = one(alloc, removing(1))?;
    commit(
        engine,
        6,
        Choice::new(1, 2),
        Some(OptionId::new(0)),
        removal,
    )?;
    let movement = one(alloc, moving(1, 2))?;
    commit(
        engine,
        7,
        Choice::new(2, 2),
        Some(OptionId::new(1)),
        movement,
    )?;
    let line = inserting(alloc, 1, 1, b"B")?;
    commit(engine, 8, Choice::new(0, 2), None, line)
}

// Whether a path leads to a node on a choice at a position, or to none.
fn leads(
    alloc: Global,
    engine: &Engine,
    choice: Choice,
    at: u32,
    path: &[u8],
    node: Option<u32>,
) -> Result<bool, Fail> {
    let path = Path::read(alloc, path)?;
    let view = Engine::view(engine.visible(), choice, Position::new(at))?;
    let found = view.resolve(&path);
    drop(view);
    Ok(found == node.map(old))
}

// The names of the file after two renames under independent ambitions.
fn check_renamed(rt: &impl Abort, alloc: Global, engine: &Engine) -> Result<(), Fail>
    requires { engine.now.history ≡ grown }
{
    assert!(rt; leads(alloc, engine, Choice::new(0, 2), 6, b"/x", Some(1))?);
    assert!(rt; leads(alloc, engine, Choice::new(1, 2), 6, b"/y", Some(1))?);
    assert!(rt; leads(alloc, engine, Choice::new(2, 2), 6, b"/z", Some(1))?);
    assert!(rt; leads(alloc, engine, Choice::new(3, 2), 6, b"/z", Some(1))?);
    assert!(rt; leads(alloc, engine, Choice::new(3, 2), 6, b"/y", None)?);
    Ok(())
}

// The file is gone with p, its lines kept, and it is in the directory with q.
fn check_grown(rt: &impl Abort, alloc: Global, engine: &Engine) -> Result<(), Fail>
    requires { engine.now.history ≡ grown }
{
    assert!(rt; leads(alloc, engine, Choice::new(0, 2), 9, b"/x", Some(1))?);
    assert!(rt; leads(alloc, engine, Choice::new(1, 2), 9, b"/y", None)?);
    assert!(rt; leads(alloc, engine, Choice::new(1, 2), 9, b"/a", Some(2))?);
    assert!(rt; leads(alloc, engine, Choice::new(2, 2), 9, b"/a/z", Some(1))?);
    assert!(rt; leads(alloc, engine, Choice::new(2, 2), 9, b"/z", None)?);
    assert!(rt; leads(alloc, engine, Choice::new(3, 2), 9, b"/a/z", None)?);
    assert!(rt; engine.vis(LineNo::new(1)) == Some(TRUE));
    assert!(rt; engine.vis(LineNo::new(2)) == Some(TRUE));
    assert!(rt;
        engine.counts()
            == Counts {
                lines: 2,
                nodes: 3,
                bytes: 2
            }
    );
    Ok(())
}

// The file at a path on a choice at the end.
fn found(
    alloc: Global,
    engine: &Engine,
    choice: Choice,
    path: &[u8],
) -> Result<Result<NodeNo, FileFault>, Fail> {
    let path = Path::read(alloc, path)?;
    Ok(engine.file_at(choice, Position::new(9), path.as_slice()))
}

// How many lines the file has on a choice at a position.
fn count_lines(engine: &Engine, choice: Choice, at: u32) -> Result<usize, Memory> {
    let rows = engine.lines_at(NodeNo::new(1), choice, Position::new(at))?;
    Ok(rows.len())
}

// What is read of variants: the file by its path where it is there, its lines also where it is gone.
fn check_read(rt: &impl Abort, alloc: Global, engine: &Engine) -> Result<(), Fail>
    requires { engine.now.history ≡ grown }
{
    assert!(rt; found(alloc, engine, Choice::new(2, 2), b"/a/z")? == Ok(NodeNo::new(1)));
    assert!(rt; found(alloc, engine, Choice::new(2, 2), b"/a")? == Err(FileFault::NotFile));
    assert!(rt; found(alloc, engine, Choice::new(1, 2), b"/y")? == Err(FileFault::NoSuchPath));
    assert!(rt; engine.has_node(NodeNo::new(1), Choice::new(2, 2), Position::new(9)));
    assert!(rt; !engine.has_node(NodeNo::new(1), Choice::new(1, 2), Position::new(9)));
    assert_eq!(rt; count_lines(engine, Choice::new(1, 2), 9)?, 2);
    assert_eq!(rt; count_lines(engine, Choice::new(1, 2), 4)?, 1);
    Ok(())
}

fn check_tree(rt: &impl Abort, alloc: Global, engine: &mut Engine) -> Result<(), Fail>
    requires { engine.old.history ≡ [] }
{
    begin(alloc, engine)?;
    rename(alloc, engine)?;
    grow(alloc, engine)?;
    check_renamed(rt, alloc, engine)?;
    check_grown(rt, alloc, engine)?;
    check_read(rt, alloc, engine)
}

#[test]
fn nodes_change_where_it_was_meant(rt: HostRuntime) -> Result<(), Fail> {
    let mut engine = Engine::new(rt.alloc())?;
    let checked = check_tree(&rt, rt.alloc(), &mut engine);
    close(engine);
    checked
}

// Whether a choice is that of one option that is on.
fn is_on(choice: Choice) -> bool {
    choice.count() == 1 && choice.get(OptionId::new(0))
}

// The file x for those with d alone.
fn make_for_d(alloc: Global, engine: &mut Engine) -> Result<(), Fail>
    requires { engine.old.history ≡ [] }
    ensures { OnOk result (engine.new.history ≡ file_for_d) }
{
    declare(alloc, engine, b"d")?;
    let file = making(alloc, Kind::File, 0, b"x")?;
    let edits = one(alloc, file)?;
    commit(engine, 1, Choice::new(1, 1), Some(OptionId::new(0)), edits)
}

// The file x once more, for all variants, from the variant that doesn't have it.
fn second_file(alloc: Global) -> Result<Command, Fail>
    ensures { IfOk result (λ command. command ≡
        commit_in 2 (false ∷ []) None (everywhere (file_in_root (codes "x") ∷ []))) }
{
    let file = making(alloc, Kind::File, 0, b"x")?;
    let edits = one(alloc, file)?;
    command(2, Choice::new(0, 1), None, edits)
}

fn is_clash(refusal: Refusal) -> bool {
    match refusal {
        Refusal::Clash { low, high, choice } => {
            low.number() == 1 && high.number() == 2 && is_on(choice)
        }
        _ => false,
    }
}

// The engine after a clash is refused.
fn with_clash_refused(alloc: Global, engine: Engine) -> Result<Engine, Fail>
    requires { engine.history ≡ file_for_d }
    ensures { IfOk result (λ after. after.history ≡ file_for_d) }
{
    match second_file(alloc) {
        Ok(command) => match engine.prepare(command) {
            Ok(prepared) => {
                close(prepared.cancel());
                Err(Fail::from("accepted"))
            }
            Err((engine, refusal)) => match is_clash(refusal) {
                true => Ok(engine),
                false => {
                    close(engine);
                    Err(Fail::from("another refusal"))
                }
            },
        },
        Err(fail) => {
            close(engine);
            Err(fail)
        }
    }
}

fn with_file_for_d(alloc: Global) -> Result<Engine, Fail>
    ensures { IfOk result (λ engine. engine.history ≡ file_for_d) }
{
    let mut engine = Engine::new(alloc)?;
    match make_for_d(alloc, &mut engine) {
        Ok(()) => Ok(engine),
        Err(fail) => {
            close(engine);
            Err(fail)
        }
    }
}

fn check_one_file(rt: &impl Abort, alloc: Global, engine: &Engine) -> Result<(), Fail>
    requires { engine.now.history ≡ file_for_d }
{
    assert!(rt; leads(alloc, engine, Choice::new(1, 1), 2, b"/x", Some(1))?);
    assert!(rt; leads(alloc, engine, Choice::new(0, 1), 2, b"/x", None)?);
    assert!(rt;
        engine.counts()
            == Counts {
                lines: 0,
                nodes: 2,
                bytes: 0
            }
    );
    Ok(())
}

#[test]
fn a_clash_on_another_choice_is_refused(rt: HostRuntime) -> Result<(), Fail> {
    let engine = with_clash_refused(rt.alloc(), with_file_for_d(rt.alloc())?)?;
    let checked = check_one_file(&rt, rt.alloc(), &engine);
    close(engine);
    checked
}

// Edits with a directory more in the root.
fn with_directory(alloc: Global, edits: Edits, name: &[u8]) -> Result<Edits, Fail>
    ensures { IfOk result (λ all. all ≡ edits ++ sided True (dir_in_root name.now) ∷ []) }
{
    match making(alloc, Kind::Dir, 0, name) {
        Ok(dir) => also(edits, dir),
        Err(fail) => Err(fail),
    }
}

// The directories a, b and c.
fn three_directories(alloc: Global) -> Result<Edits, Fail>
    ensures { IfOk result (λ all. all ≡
        everywhere (dir_in_root (codes "a") ∷ dir_in_root (codes "b") ∷ dir_in_root (codes "c") ∷
        [])) }
{
    let a = with_directory(alloc, Edits::new(alloc), b"a")?;
    let a_and_b = with_directory(alloc, a, b"b")?;
    with_directory(alloc, a_and_b, b"c")
}

// With p, a is in b, and c isn't there.
fn make_directories(alloc: Global, engine: &mut Engine) -> Result<(), Fail>
    requires { engine.old.history ≡ [] }
    ensures { OnOk result (engine.new.history ≡ directories) }
{
    declare(alloc, engine, b"p")?;
    let made = three_directories(alloc)?;
    commit(engine, 1, Choice::new(1, 1), None, made)?;
    let changes = also(one(alloc, moving(1, 2))?, removing(3))?;
    commit(
        engine,
        2,
        Choice::new(1, 1),
        Some(OptionId::new(0)),
        changes,
    )
}

// What refuses a commit for all variants from the one without p.
fn refusal_of(engine: &mut Engine, edits: Edits) -> Result<Refusal, Fail>
    ensures { OnOk result (engine.new.history ≡ engine.old.history) }
{
    let command = command(3, Choice::new(0, 1), None, edits)?;
    match engine.append(command) {
        Ok(_) => Err(Fail::from("accepted")),
        Err(refusal) => Ok(refusal),
    }
}

fn check_loop(rt: &impl Abort, alloc: Global, engine: &mut Engine) -> Result<(), Fail>
    requires { engine.old.history ≡ directories }
    ensures { OnOk result (engine.new.history ≡ directories) }
{
    let edits = one(alloc, moving(2, 1))?;
    match refusal_of(engine, edits)? {
        Refusal::Loop { node, choice } => assert!(rt; node.number() == 1 && is_on(choice)),
        _ => return Err(Fail::from("another refusal")),
    }
    Ok(())
}

fn check_orphan(rt: &impl Abort, alloc: Global, engine: &mut Engine) -> Result<(), Fail>
    requires { engine.old.history ≡ directories }
    ensures { OnOk result (engine.new.history ≡ directories) }
{
    let file = making(alloc, Kind::File, 3, b"x")?;
    let edits = one(alloc, file)?;
    match refusal_of(engine, edits)? {
        Refusal::Orphan { node, choice } => assert!(rt; node.number() == 4 && is_on(choice)),
        _ => return Err(Fail::from("another refusal")),
    }
    Ok(())
}

fn check_directories(rt: &impl Abort, alloc: Global, engine: &Engine) -> Result<(), Fail>
    requires { engine.now.history ≡ directories }
{
    assert!(rt; leads(alloc, engine, Choice::new(1, 1), 3, b"/b/a", Some(1))?);
    assert!(rt; leads(alloc, engine, Choice::new(1, 1), 3, b"/c", None)?);
    assert!(rt; leads(alloc, engine, Choice::new(0, 1), 3, b"/a", Some(1))?);
    assert!(rt; leads(alloc, engine, Choice::new(0, 1), 3, b"/a/b", None)?);
    assert!(rt; leads(alloc, engine, Choice::new(0, 1), 3, b"/c/x", None)?);
    assert!(rt;
        engine.counts()
            == Counts {
                lines: 0,
                nodes: 4,
                bytes: 0
            }
    );
    Ok(())
}

fn check_refusals(rt: &impl Abort, alloc: Global, engine: &mut Engine) -> Result<(), Fail>
    requires { engine.old.history ≡ [] }
{
    make_directories(alloc, engine)?;
    check_loop(rt, alloc, engine)?;
    check_directories(rt, alloc, engine)?;
    check_orphan(rt, alloc, engine)?;
    check_directories(rt, alloc, engine)
}

#[test]
fn a_loop_and_an_orphan_on_another_choice_are_refused(rt: HostRuntime) -> Result<(), Fail> {
    let mut engine = Engine::new(rt.alloc())?;
    let checked = check_refusals(&rt, rt.alloc(), &mut engine);
    close(engine);
    checked
}
