//! Lines with their forms and their places of mistakes.
use cov_script::{Line, LineField, LineSyntax, read_line};
use std::alloc::Global;
use std::process::Abort;
use std::test::Fail;

// The keyword of a form.
fn keyword_of(line: &Line) -> &'static str {
    match line {
        Line::Nothing => "",
        Line::Option { .. } => "option",
        Line::Constraint { .. } => "constraint",
        Line::Prefer { .. } => "prefer",
        Line::Default { .. } => "default",
        Line::Complete { .. } => "complete",
        Line::OpenSession { .. } => "open",
        Line::Side { .. } => "side",
        Line::MakeDir { .. } => "mkdir",
        Line::MakeFile { .. } => "mkfile",
        Line::Rename { .. } => "rename",
        Line::Move { .. } => "move",
        Line::Remove { .. } => "remove",
        Line::Insert { .. } => "insert",
        Line::Delete { .. } => "delete",
        Line::Replace { .. } => "replace",
        Line::Show { .. } => "show",
        Line::List { .. } => "list",
        Line::Refresh { .. } => "refresh",
        Line::Commit { .. } => "commit",
        Line::Discard { .. } => "drop",
        Line::Cat { .. } => "cat",
        Line::Checkout { .. } => "checkout",
        Line::Alt { .. } => "alt",
        Line::Conditional { .. } => "cond",
        Line::Presence { .. } => "where",
        Line::Upgrade => "upgrade",
        Line::Analyse => "analyse",
        Line::Nearest { .. } => "nearest",
        Line::Log { .. } => "log",
        Line::Blame { .. } => "blame",
        Line::Past { .. } => "past",
        Line::PastOut { .. } => "pastout",
    }
}

// The place of a mistake, None where there is none.
fn place_of(read: &Result<Line, LineSyntax>) -> Option<u32> {
    match read {
        Err(LineSyntax::Syntax { at }) => Some(*at),
        Ok(_) | Err(LineSyntax::TooLong | LineSyntax::Memory) => None,
    }
}

const FORMS: [(&[u8], &str); 52] = [
    (b"", ""),
    (b"#x", ""),
    (b"# option", ""),
    (b"option a", "option"),
    (b"option 9x", "option"),
    (b"option a\r", "option"),
    (b"constraint a", "constraint"),
    (b"constraint  a", "constraint"),
    (b"prefer a | b", "prefer"),
    (b"default a on", "default"),
    (b"complete -", "complete"),
    (b"complete a=on,b=off", "complete"),
    (b"open s - for a & b", "open"),
    (b"open s - for  a", "open"),
    (b"side s a", "side"),
    (b"side s  a | !b ", "side"),
    (b"side s true", "side"),
    (b"mkdir s /d", "mkdir"),
    (b"mkfile s /m", "mkfile"),
    (b"rename s /m n", "rename"),
    (b"rename s / n", "rename"),
    (b"move s /m /", "move"),
    (b"remove s /m", "remove"),
    (b"insert s /m 0 one two", "insert"),
    (b"insert s /m +0", "insert"),
    (b"insert s /m +0 ", "insert"),
    (b"insert s /m 4294967295 one\r", "insert"),
    (b"insert s /m 1  one", "insert"),
    (b"delete s /m 12", "delete"),
    (b"replace s /m 7 text", "replace"),
    (b"show s /m", "show"),
    (b"list s /", "list"),
    (b"refresh s", "refresh"),
    (b"commit s", "commit"),
    (b"drop s", "drop"),
    (b"cat - /m", "cat"),
    (b"checkout t a=off", "checkout"),
    (b"checkout t -", "checkout"),
    (b"alt - a /m", "alt"),
    (b"alt d=on d /m", "alt"),
    (b"cond - /m", "cond"),
    (b"cond d=on /d/m", "cond"),
    (b"where 0", "where"),
    (b"where 1", "where"),
    (b"upgrade", "upgrade"),
    (b"analyse", "analyse"),
    (b"nearest -", "nearest"),
    (b"nearest a=on,b=off", "nearest"),
    (b"log d=off", "log"),
    (b"blame - /m", "blame"),
    (b"past 0 - /m", "past"),
    (b"pastout t 3 d=off", "pastout"),
];

const PLACES: [(&[u8], u32); 73] = [
    (b"optoin a", 0),
    (b"option", 6),
    (b"option ", 7),
    (b"option  a", 7),
    (b"option a b", 8),
    (b"option a ", 8),
    (b" option a", 0),
    (b"constraint", 10),
    (b"constraint ", 11),
    (b"constraint a &", 14),
    (b"constraint a $", 13),
    (b"constraint a b ", 13),
    (b"constraint a\r", 12),
    (b"prefer a |", 10),
    (b"default a of", 10),
    (b"default a", 9),
    (b"default a off ", 13),
    (b"complete a=yes", 9),
    (b"complete a=on,", 9),
    (b"complete", 8),
    (b"open s - fro a", 9),
    (b"open s - for", 12),
    (b"open s - for ", 13),
    (b"open s - for a)", 14),
    (b"open / - for a", 5),
    (b"side", 4),
    (b"side ", 5),
    (b"side / a", 5),
    (b"side s", 6),
    (b"side s ", 7),
    (b"side s a &", 10),
    (b"side s a $", 9),
    (b"side s a b", 9),
    (b"mkdir s /", 8),
    (b"mkfile s m", 9),
    (b"mkfile s", 8),
    (b"rename s /m /n", 12),
    (b"move s /m", 9),
    (b"remove s /m x", 11),
    (b"insert s /m 4294967296 one", 12),
    (b"insert s /m 01 one", 12),
    (b"insert s /m +01 one", 12),
    (b"insert s /m  1", 12),
    (b"insert s /m + one", 12),
    (b"insert s /m -1 one", 12),
    (b"delete s /m 12 ", 14),
    (b"delete s /m 99999999999999999999", 12),
    (b"replace s /m x text", 13),
    (b"show s /m ", 9),
    (b"show s  /m", 7),
    (b"show \xff /m", 5),
    (b"refresh s s", 9),
    (b"refresh ..", 8),
    (b"drop s\r", 5),
    (b"cat -, /m", 4),
    (b"cat a=on /m\r", 9),
    (b"checkout t/ a=off", 9),
    (b"alt - a", 7),
    (b"cond -", 6),
    (b"cond - /m x", 9),
    (b"where 00", 6),
    (b"analyse ", 7),
    (b"nearest a", 8),
    (b"log - -", 5),
    (b"blame -", 7),
    (b"past 03 - /m", 5),
    (b"pastout t -", 10),
    (b"where +1", 6),
    (b"where ", 6),
    (b"upgrade ", 7),
    (b"upgrade x", 7),
    (b"upgrade\r", 0),
    (b"insert s /m 0 a\nb", 14),
];

// The keyword of what is read, None where it is no line.
fn read_keyword(read: &Result<Line, LineSyntax>) -> Option<&'static str> {
    match read {
        Ok(line) => Some(keyword_of(line)),
        Err(_) => None,
    }
}

fn has_form(rt: &impl Abort, alloc: Global, bytes: &[u8], keyword: &str) {
    assert!(rt; bytes.len() < 100);
    let read = read_line(alloc, bytes);
    let found = read_keyword(&read);
    drop(read);
    assert_eq!(rt; found, Some(keyword));
}

fn has_mistake(rt: &impl Abort, alloc: Global, bytes: &[u8], at: u32) {
    assert!(rt; bytes.len() < 100);
    let read = read_line(alloc, bytes);
    let found = place_of(&read);
    drop(read);
    assert_eq!(rt; found, Some(at));
}

#[test]
fn lines_have_their_forms(rt: HostRuntime) -> Result<(), Fail> {
    for (bytes, keyword) in &FORMS {
        has_form(&rt, rt.alloc(), bytes, keyword);
    }
    Ok(())
}

#[test]
fn mistakes_have_their_places(rt: HostRuntime) -> Result<(), Fail> {
    for (bytes, at) in &PLACES {
        has_mistake(&rt, rt.alloc(), bytes, *at);
    }
    Ok(())
}

fn is_insert_of_two_words(line: &Line) -> bool {
    match line {
        Line::Insert {
            name,
            path,
            line,
            text,
        } => {
            name.as_slice() == b"s".as_slice()
                && path.len() == 2
                && *line == LineField::Own(3)
                && text.as_slice() == b"one two".as_slice()
        }
        _ => false,
    }
}

#[test]
fn fields_are_kept(rt: HostRuntime) -> Result<(), Fail> {
    let read = read_line(rt.alloc(), b"insert s /d/m +3 one two");
    let kept = match &read {
        Ok(line) => is_insert_of_two_words(line),
        Err(_) => false,
    };
    drop(read);
    assert!(rt; kept);
    Ok(())
}
