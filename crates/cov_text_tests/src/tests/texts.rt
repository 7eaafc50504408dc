//! Texts, names and lists: each call that takes memory, once with memory to be had.
use cov_base::{LineNo, LineNos, Name, Numbers, OptionName, Path, Text, Texts};
use std::alloc::Global;
use std::process::Abort;
use std::test::Fail;

fn grow(text: &mut Text) -> Result<(), Fail> {
    text.push(b'a')?;
    Ok(text.append(b"bc")?)
}

#[test]
fn texts_grow(rt: HostRuntime) -> Result<(), Fail> {
    let mut text = Text::new(rt.alloc());
    grow(&mut text)?;
    let copy = text.copy()?;
    assert!(rt; copy.as_slice() == b"abc".as_slice());
    Ok(())
}

#[test]
fn a_string_as_a_text(rt: HostRuntime) -> Result<(), Fail> {
    let string = format!(in rt.alloc(); "{}", 10u8)?;
    let text = Text::from(string);
    assert!(rt; text.as_slice() == b"10".as_slice());
    Ok(())
}

fn second_length(alloc: Global, texts: &mut Texts) -> Result<Option<usize>, Fail> {
    texts.push(Text::from_slice(alloc, b"x")?)?;
    texts.push(Text::from_slice(alloc, b"yy")?)?;
    Ok(texts.get(1).map(|text| text.len()))
}

#[test]
fn texts_are_kept(rt: HostRuntime) -> Result<(), Fail> {
    let mut texts = Texts::new(rt.alloc());
    let length = second_length(rt.alloc(), &mut texts);
    drop(texts);
    assert_eq!(rt; length?, Some(2));
    Ok(())
}

#[test]
fn numbers_are_kept(rt: HostRuntime) -> Result<(), Fail> {
    let mut numbers = Numbers::new(rt.alloc());
    numbers.push(7)?;
    assert!(rt; numbers.contains(7) && !numbers.contains(8));
    Ok(())
}

#[test]
fn numbers_of_lines_are_kept(rt: HostRuntime) -> Result<(), Fail> {
    let mut lines = LineNos::new(rt.alloc());
    lines.push(LineNo::new(3))?;
    assert!(rt; lines.get(0) == Some(LineNo::new(3)));
    Ok(())
}

#[test]
fn option_names_are_read(rt: HostRuntime) -> Result<(), Fail> {
    let copy = OptionName::read(rt.alloc(), b"_9")?.copy()?;
    assert!(rt; copy.as_slice() == b"_9".as_slice());
    Ok(())
}

#[test]
fn names_are_read(rt: HostRuntime) -> Result<(), Fail> {
    let copy = Name::read(rt.alloc(), b"a.txt")?.copy()?;
    assert!(rt; copy.as_slice() == b"a.txt".as_slice());
    Ok(())
}

fn is_named(path: &Path, index: usize, wanted: &[u8]) -> bool {
    match path.get(index) {
        Some(name) => name.as_slice() == wanted,
        None => false,
    }
}

fn has_two_names(rt: &impl Abort, path: &Path) {
    assert!(rt; path.len() == 2);
    assert!(rt; is_named(path, 0, b"a"));
    assert!(rt; is_named(path, 1, b"b"));
}

#[test]
fn a_path_is_read(rt: HostRuntime) -> Result<(), Fail> {
    let path = Path::read(rt.alloc(), b"/a/b")?;
    has_two_names(&rt, &path);
    drop(path);
    Ok(())
}

fn add_two_names(alloc: Global, path: &mut Path) -> Result<(), Fail> {
    path.push(Name::read(alloc, b"a")?)?;
    Ok(path.push(Name::read(alloc, b"b")?)?)
}

#[test]
fn a_path_is_put_together(rt: HostRuntime) -> Result<(), Fail> {
    let mut path = Path::new(rt.alloc());
    let added = add_two_names(rt.alloc(), &mut path);
    has_two_names(&rt, &path);
    drop(path);
    added
}
