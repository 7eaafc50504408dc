//! Random commits, what each position showed when it was the newest, and the files that the engine finds by their paths.
use crate::tests::drawing::{Draws, close_view, digest_at, drawn_edits};
use crate::tests::steps::{close, command};
use crate::tests::trees::declare;
use cov_base::{Choice, Kind, NodeNo, NodeRef, OptionId, Path, Position};
use cov_edit::Edits;
use cov_engine::{Engine, FileFault};
use cov_view::View;
use std::alloc::Global;
use std::process::Abort;
use std::test::Fail;

/// How many commits there are to be.
const COMMITS: u32 = 200;

/// The tree of a choice at a position, by its digest.
#[derive(Drop)]
struct Seen {
    at: Position,
    choice: Choice,
    digest: [u8; 32],
}

// All variants, or those with an option of a choice.
fn drawn_ambition(choice: Choice, draws: &mut Draws) -> Option<OptionId> {
    let number = draws.below(3) as u8;
    if number >= choice.count() {
        return None;
    }
    let option = OptionId::new(number);
    match choice.get(option) {
        true => Some(option),
        false => None,
    }
}

// Commits what is drawn for a choice. It tells whether it was accepted.
fn commit_drawn(alloc: Global, engine: &mut Engine, draws: &mut Draws) -> Result<bool, Fail> {
    let choice = Choice::new(u128::from(draws.below(8)), 3);
    let mut edits = Edits::new(alloc);
    match drawn_edits(alloc, engine, choice, engine.position(), draws, &mut edits) {
        Ok(()) => commit_edits(engine, choice, drawn_ambition(choice, draws), edits),
        Err(fail) => Err(fail),
    }
}

fn commit_edits(
    engine: &mut Engine,
    choice: Choice,
    within: Option<OptionId>,
    edits: Edits,
) -> Result<bool, Fail> {
    let command = command(engine.position().number(), choice, within, edits)?;
    match engine.append(command) {
        Ok(_) => Ok(true),
        Err(_) => Ok(false),
    }
}

// Notes what each choice shows now.
fn note_all(engine: &Engine, seen: &mut Vec<Seen>) -> Result<(), Fail> {
    let at = engine.position();
    'choices: for bits in 0..8u32 {
        let choice = Choice::new(u128::from(bits), 3);
        let digest = digest_at(engine, choice, at)?;
        seen.push(Seen { at, choice, digest })?;
    }
    Ok(())
}

// Commits what is drawn until so many commits were accepted, and notes what is seen after each.
fn grow(
    alloc: Global,
    engine: &mut Engine,
    draws: &mut Draws,
    seen: &mut Vec<Seen>,
) -> Result<(), Fail> {
    let mut accepted = 0;
    'tries: for _ in 0..4 * COMMITS {
        if accepted < COMMITS && commit_drawn(alloc, engine, draws)? {
            note_all(engine, seen)?;
            accepted += 1;
        }
    }
    Ok(())
}

// Each choice shows at each position what it showed when that was the newest.
fn check_seen(rt: &impl Abort, engine: &Engine, seen: &[Seen]) -> Result<(), Fail> {
    assert_eq!(rt; seen.len(), 8 * COMMITS as usize);
    'seen: for one in seen {
        let again = digest_at(engine, one.choice, one.at)?;
        assert!(rt; again == one.digest);
    }
    Ok(())
}

// What a view has at a path.
fn kind_at(view: &View, path: &Path) -> Option<Kind> {
    match view.resolve(path) {
        Some(node) => view.kind(node),
        None => None,
    }
}

// Whether a view has at a path what was found there.
fn agrees(view: &View, path: &Path, found: Result<NodeNo, FileFault>) -> bool {
    match found {
        Ok(node) => {
            view.resolve(path) == Some(NodeRef::Old(node))
                && kind_at(view, path) == Some(Kind::File)
        }
        Err(FileFault::NotFile) => kind_at(view, path) == Some(Kind::Dir),
        Err(FileFault::NoSuchPath) => view.resolve(path).is_none(),
    }
}

// Checks the answer of the engine on a path against a view of the same choice now. It tells whether there is a file.
fn check_path(engine: &Engine, choice: Choice, view: &View, path: &Path) -> Result<bool, Fail> {
    let found = engine.file_at(choice, engine.position(), path.as_slice());
    match agrees(view, path, found) {
        true => Ok(found.is_ok()),
        false => Err(Fail::from("the view has something else at a path")),
    }
}

// Checks the paths in a directory of the root. It tells whether there is a file.
fn check_directory(
    alloc: Global,
    engine: &Engine,
    choice: Choice,
    view: &View,
    directory: u8,
) -> Result<bool, Fail> {
    let mut any = false;
    'names: for name in b"abcdef" {
        let path = Path::read(alloc, &[b'/', directory, b'/', *name])?;
        any |= check_path(engine, choice, view, &path)?;
    }
    Ok(any)
}

// Checks the paths of two names. It tells whether there is a file.
fn check_view(alloc: Global, engine: &Engine, choice: Choice, view: &View) -> Result<bool, Fail> {
    let mut any = false;
    'directories: for directory in b"abcdef" {
        any |= check_directory(alloc, engine, choice, view, *directory)?;
    }
    Ok(any)
}

fn check_choice(alloc: Global, engine: &Engine, choice: Choice) -> Result<bool, Fail> {
    let view = Engine::view(engine.visible(), choice, engine.position())?;
    let any = check_view(alloc, engine, choice, &view);
    close_view(view);
    any
}

// On each choice the engine finds the files that the views have now. It tells whether there is a file.
fn check_files(alloc: Global, engine: &Engine) -> Result<bool, Fail> {
    let mut any = false;
    'choices: for bits in 0..8u32 {
        any |= check_choice(alloc, engine, Choice::new(u128::from(bits), 3))?;
    }
    Ok(any)
}

fn check_positions(rt: &impl Abort, alloc: Global, engine: &mut Engine) -> Result<(), Fail> {
    declare(alloc, engine, b"p")?;
    declare(alloc, engine, b"q")?;
    declare(alloc, engine, b"r")?;
    let mut seen = Vec::new(alloc);
    grow(alloc, engine, &mut Draws { state: 1 }, &mut seen)?;
    let counts = engine.counts();
    assert!(rt; counts.nodes > 50);
    assert!(rt; counts.lines > 100);
    check_seen(rt, engine, seen.as_slice())?;
    assert!(rt; check_files(alloc, engine)?);
    Ok(())
}

#[test]
fn each_position_shows_what_it_showed_when_it_was_now(rt: HostRuntime) -> Result<(), Fail> {
    let mut engine = Engine::new(rt.alloc())?;
    let checked = check_positions(&rt, rt.alloc(), &mut engine);
    close(engine);
    checked
}
