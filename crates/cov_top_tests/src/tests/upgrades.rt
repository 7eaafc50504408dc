// Upgrades: how many options and rules are taken before one and after it, and the option 127 in each form that takes one.
use crate::tests::limits::KINDS;
use crate::tests::running::{DONE, SERVED, SOME_REFUSED, expect};
use std::alloc::AllocError;
use std::fmt::Write;
use std::test::Fail;

// Declares the options from a number on, up to another.
fn declare(
    script: &mut String,
    written: &mut String,
    first: u32,
    end: u32,
) -> Result<(), AllocError> {
    for number in first..end {
        writeln!(script, "option o{number}")?;
        writeln!(written, "ok option {number}")?;
    }
    Ok(())
}

// Declares so many options, the first 64 of them before an upgrade.
fn declare_all(script: &mut String, written: &mut String, count: u32) -> Result<(), AllocError> {
    declare(script, written, 0, 64)?;
    script.push_str("upgrade\n")?;
    written.push_str("ok upgrade 2\n")?;
    declare(script, written, 64, count)
}

// What is asked after 64 options, and after 128.
const FULL: (&str, &str) = (
    "option o64\nupgrade\nupgrade\n",
    "refused full\nok upgrade 2\nrefused upgraded\n",
);

const FULL_AGAIN: (&str, &str) = (
    "option o128\nconstraint o127\ncomplete -\noption o3\nupgrade\n",
    "refused full\nok constraint 1\nrefused incomplete o0\nrefused full\nrefused upgraded\n",
);

#[test]
fn an_upgrade_allows_more_options(rt: HostRuntime) -> Result<(), Fail> {
    let alloc = rt.alloc();
    let mut script = String::new(alloc);
    let mut written = String::new(alloc);
    declare(&mut script, &mut written, 0, 64)?;
    script.push_str(FULL.0)?;
    written.push_str(FULL.1)?;
    declare(&mut script, &mut written, 64, 128)?;
    script.push_str(FULL_AGAIN.0)?;
    written.push_str(FULL_AGAIN.1)?;
    let case = (script.as_bytes(), written.as_bytes(), SOME_REFUSED);
    expect(&rt, alloc, SERVED, case)
}

// Adds a rule of each kind from a number on, up to another, and one that is refused then.
fn fill(script: &mut String, written: &mut String, first: u32, end: u32) -> Result<(), AllocError> {
    for (kind, line) in &KINDS {
        for number in first..end {
            script.push_str(line)?;
            writeln!(written, "ok {kind} {number}")?;
        }
        script.push_str(line)?;
        written.push_str("refused full\n")?;
    }
    Ok(())
}

#[test]
fn an_upgrade_allows_more_rules(rt: HostRuntime) -> Result<(), Fail> {
    let alloc = rt.alloc();
    let mut script = String::from_str(alloc, "option a\n")?;
    let mut written = String::from_str(alloc, "ok option 0\n")?;
    fill(&mut script, &mut written, 1, 257)?;
    script.push_str("upgrade\n")?;
    written.push_str("ok upgrade 2\n")?;
    fill(&mut script, &mut written, 257, 1025)?;
    script.push_str("constraint b\ncomplete a=off\ncomplete -\n")?;
    written.push_str("refused unknown-option b\nrefused invalid 1\nok a=on\n")?;
    let case = (script.as_bytes(), written.as_bytes(), SOME_REFUSED);
    expect(&rt, alloc, SERVED, case)
}

// Puts the choice of the first 127 options behind a text, each being off.
fn push_off(text: &mut String) -> Result<(), AllocError> {
    text.push_str("o0=off")?;
    for number in 1..127u32 {
        write!(text, ",o{number}=off")?;
    }
    Ok(())
}

// A line, its reply, and how the option 127 stands in the choice with which the reply ends, if it does: the others are off there.
type Named<'a> = (&'a str, &'a str, &'a str);

// The option 127 is declared while a session is open, and takes part in rules.
const RULED: [Named; 15] = [
    ("side e o127", "refused unknown-option o127", ""),
    ("option o127", "ok option 127", ""),
    ("option o128", "refused full", ""),
    ("side e o127", "refused late-option o127", ""),
    ("refresh e", "refused incomplete o127", ""),
    ("complete -", "refused incomplete o127", ""),
    ("complete o127=on,o127=off", "refused repeated o127", ""),
    ("complete o127=on", "ok ", "on"),
    ("constraint !(o126 & o127)", "ok constraint 1", ""),
    ("complete o126=on,o127=on", "refused invalid 1", ""),
    ("prefer o127", "ok prefer 1", ""),
    ("complete -", "ok ", "on"),
    ("default o127 off", "ok default 128", ""),
    ("default o128 on", "refused unknown-option o128", ""),
    ("refresh e", "ok refresh 259 ", "on"),
];

// It is an ambition and a side, and what is told of variants and lines names it.
const COMMITTED: [Named; 28] = [
    ("side e !o127", "refused outside-side", ""),
    ("drop e", "ok", ""),
    ("open s o127=off for o127", "refused outside-ambition", ""),
    ("open s o127=on for o127 | true", "ok open 259 ", "on"),
    ("mkfile s /m", "ok", ""),
    ("insert s /m 0 one", "ok +0", ""),
    ("side s o127", "ok", ""),
    ("insert s /m +0 two", "ok +1", ""),
    ("commit s", "ok commit 260", ""),
    ("cat o127=on /m", "ok 2\n1 one\n2 two", ""),
    ("cat o127=off /m", "ok 1\n1 one", ""),
    ("alt o127=off o127 /m", "ok 2\n= 1 one\n+ 2 two", ""),
    ("alt - o126 /m", "refused side-invalid on 1", ""),
    ("where 2", "ok 1 0\n0 o127 F T", ""),
    (
        "checkout t o127=off",
        "ok checkout t 0 1 43186672ec1e8b2039e8fe184eed3db1d7156cc619f20d3e16391c91d95dec00",
        "",
    ),
    (
        "checkout u o127=on",
        "ok checkout u 0 1 fcaaf111a029839929979878379637db41b8c7896f279141476fd3b35c6532ed",
        "",
    ),
    ("open s o127=off for !o127", "ok open 260 ", "off"),
    ("delete s /m 1", "ok", ""),
    ("commit s", "ok commit 261", ""),
    ("where 1", "ok 1 0\n0 o127 F T", ""),
    ("open s o127=on for o127", "ok open 261 ", "on"),
    ("mkfile s /x", "ok", ""),
    ("commit s", "ok commit 262", ""),
    ("open t o127=off for true", "ok open 262 ", "off"),
    ("mkfile t /x", "ok", ""),
    ("commit t", "refused clash 2 3 in ", "on"),
    ("drop t", "ok", ""),
    ("complete o127=off", "ok ", "off"),
];

// Puts these lines behind a script, and their replies behind what is to be written.
fn ask(script: &mut String, written: &mut String, lines: &[Named]) -> Result<(), AllocError> {
    for (line, reply, last) in lines {
        writeln!(script, "{line}")?;
        written.push_str(reply)?;
        if !last.is_empty() {
            push_off(written)?;
            write!(written, ",o127={last}")?;
        }
        written.push('\n')?;
    }
    Ok(())
}

// Declares 127 options, which are off by default, and opens a session.
fn begin(script: &mut String, written: &mut String) -> Result<(), AllocError> {
    declare_all(script, written, 127)?;
    for number in 0..127u32 {
        let rule = number + 1;
        writeln!(script, "default o{number} off")?;
        writeln!(written, "ok default {rule}")?;
    }
    script.push_str("open e - for true\n")?;
    written.push_str("ok open 255 ")?;
    push_off(written)?;
    written.push('\n')
}

#[test]
fn each_form_takes_the_last_option(rt: HostRuntime) -> Result<(), Fail> {
    let alloc = rt.alloc();
    let mut script = String::new(alloc);
    let mut written = String::new(alloc);
    begin(&mut script, &mut written)?;
    ask(&mut script, &mut written, &RULED)?;
    ask(&mut script, &mut written, &COMMITTED)?;
    let case = (script.as_bytes(), written.as_bytes(), SOME_REFUSED);
    expect(&rt, alloc, SERVED, case)
}

// Puts each of the 128 options behind a text, with this before each but the first, and that behind each.
fn push_each(text: &mut String, before: &str, behind: &str) -> Result<(), AllocError> {
    write!(text, "o0{behind}")?;
    for number in 1..128u32 {
        write!(text, "{before}o{number}{behind}")?;
    }
    Ok(())
}

// Opens a session on the choice of all options, for the variant with each of them, and commits a line.
fn commit_for_all(script: &mut String, written: &mut String) -> Result<(), AllocError> {
    script.push_str("open s ")?;
    push_each(script, ",", "=on")?;
    script.push_str(" for ")?;
    push_each(script, " & ", "")?;
    script.push_str("\nmkfile s /m\ninsert s /m 0 x\ncommit s\nwhere 1\n")?;
    written.push_str("ok open 129 ")?;
    push_each(written, ",", "=on")?;
    written.push_str("\nok\nok +0\nok commit 130\nok 128 0\n")
}

#[test]
fn a_listing_has_an_entry_for_each_of_128_options(rt: HostRuntime) -> Result<(), Fail> {
    let alloc = rt.alloc();
    let mut script = String::new(alloc);
    let mut written = String::new(alloc);
    declare_all(&mut script, &mut written, 128)?;
    commit_for_all(&mut script, &mut written)?;
    for entry in 0..127u32 {
        let next = entry + 1;
        writeln!(written, "{entry} o{entry} F {next}")?;
    }
    written.push_str("127 o127 F T\n")?;
    let case = (script.as_bytes(), written.as_bytes(), DONE);
    expect(&rt, alloc, SERVED, case)
}
